// Rows of causes: lines of the world, and what nodes do.
ghost use Rattle.arj_law_cause.specs.kinds.Kinds.{is_abort_done, is_armed, is_bare_abort, is_changed_abort, is_commit_done, is_committed, is_copy_shown, is_denial, is_dropped, is_entry_shown, is_excluded, is_found, is_got, is_granted_object, is_granted_entry, is_halted, is_limit, is_listed_abort, is_lost_commit, is_met_abort, is_node_given_up, is_old_abort, is_opening, is_plain_refusal, is_prepared, is_quiet, is_sent, is_told, is_up, is_void};
ghost use Rattle.arj_law_cause.specs.kinds.Rows.{RowHolds, RowHoldsWhere};

/// In every run in form, wherever it begins and wherever disks stop, each line of a frame has its cause by the events and the lines before
/// it, row by row: a frame that is sent has the next number and goes from a node that is up, or from nobody where the script hands over
/// bytes that are no message; one that is got or void was sent, is the one that the event names or the first that is open, and its node is up
/// or it may be void; one that is dropped was sent, and the event names it. It does nothing when it runs.
pub fn frame_lines_have_causes()
    ensures sent { RowHolds is_sent }
    ensures got { RowHolds is_got }
    ensures void { RowHolds is_void }
    ensures dropped { RowHolds is_dropped }
{}

/// In every such run a disk is armed where the event arms it, and a node halts in no crash of another one. It does nothing when it runs.
pub fn stops_have_causes()
    ensures armed { RowHolds is_armed }
    ensures halted { RowHolds is_halted }
{}

/// In every such run a line `up` stands in a restart of its node, with an incarnation above the one that the journal has for it. It does
/// nothing when it runs.
pub fn restarts_have_causes()
    ensures up { RowHolds is_up }
{}

/// In every such run a line `limit` within an event stands where as many frames were sent as a run may send. It does nothing when it runs.
pub fn limits_have_causes()
    ensures limit { RowHolds is_limit }
{}

/// In every such run an event that is refused for a cause of nodes, labels, objects or frames has that as its lowest cause by the journal
/// before it. It does nothing when it runs.
pub fn plain_refusals_have_causes()
    ensures refused { RowHoldsWhere is_plain_refusal }
{}

/// In every such run a commit is done, at a store or at naming, of an action that is committed by the lines before. It does nothing when it
/// runs.
pub fn commits_done_have_causes()
    ensures done { RowHolds is_commit_done }
{}

/// In every such run a line `quiet` stands in a quiesce, and where it says yes every node is up, no frame is open, and no action waits, by
/// the events and the lines before it. It does nothing when it runs.
pub fn quiesces_have_causes()
    ensures quiet { RowHolds is_quiet }
{}

/// In every such run a line `recovered` stands in a restart of its node, and is of a top that began there, whose commit was called, and of
/// which no line says that it was aborted. It does nothing when it runs.
pub fn recoveries_have_causes()
    ensures found { RowHolds is_found }
{}

/// In every such run an action begins in an event that begins it, a commit's call is the first line of the event that commits the action,
/// a serializing action ends in the event that commits it, and who is aborted because the script asks for it was open, and the event aborts it
/// or one above it. It does nothing when it runs.
pub fn openings_have_causes()
    ensures opening { RowHolds is_opening }
{}

/// In every such run an abort is done, at a store or at naming, of an action that is over by the lines before, and of one that was decided
/// only where the node had a cause. Where a server or naming says that it was told of an end, a lock of the action or of one below it stands
/// in the table of its node, and the action ended so by the lines before: it is committed where the end is a commit, and over where it is an
/// abort. It does nothing when it runs.
pub fn ends_have_causes()
    ensures aborts { RowHolds is_abort_done }
    ensures told { RowHolds is_told }
{}

/// In every such run a line `entry` stands in a show of its object, with the object's entry as the lines before the event say, counted from
/// where the run began. A line `copy` stands in a show of its object, of a node that is up; of a store that is listed it is the last state so
/// counted. It does nothing when it runs.
pub fn shows_have_causes()
    ensures entries { RowHolds is_entry_shown }
    ensures copies { RowHolds is_copy_shown }
{}

/// In every such run an event that is refused has the cause of its number, the lowest one that it has by the journal, or, where that has a
/// number above 12, its action is doomed; and so is the action of a commit that was aborted as doomed. It does nothing when it runs.
pub fn denials_have_causes()
    ensures denied { RowHolds is_denial }
{}

/// In every such run a lock on an object is granted to an action of which a call of the object by an operation of that mode was accepted, and
/// that has no such lock at the node by the table before the line, whose path meets none there; and none is granted in a restart. It does
/// nothing when it runs.
pub fn locks_on_objects_are_free()
    ensures granted { RowHolds is_granted_object }
{}

/// In every such run a commit is aborted as lost in an event that gives up its action, while the commit is under way by the lines before, and
/// a line of the event says that it gave up the node. It does nothing when it runs.
pub fn lost_commits_have_causes()
    ensures lost { RowHolds is_lost_commit }
{}

/// In every such run a line that an action was given up stands in an event that gives it up, and names a node for which the action may wait
/// by the lines before: its own, or one that was sent a request of its call or include since that was asked, or of its commit since that was
/// called; and the nodes of one event rise. It does nothing when it runs.
pub fn giveups_have_causes()
    ensures given { RowHolds is_node_given_up }
{}

/// In every such run a commit that is under way is aborted for a store that is listed where the action includes the store, doesn't exclude
/// it, and it was listed by the journal at the place of the commit's span at which naming answered; and for want of stores where the action
/// excludes each store that was listed there, of which there were some, and each that it includes; and for a conflict where the top met this
/// row there, as the first one against the exclude lock, on the entry of an object from which the action excludes a store. It is aborted for
/// a state that a store refused as too late where the action changes the object, and the store answered its Prepare at a place of the span at
/// which the object had the version that the store told, above zero, or a later one, by the committed tops that wrote it, counted from where
/// the run began, and naming had come up again since the action's root first had a lock on the object's entry. It is aborted since something
/// changed where it is so of an object of the header on which a call or an include survives, by the lines before, in the action or in a
/// committed top of its root: at a place of the span the node voted, or as naming answered the Confirm, in the later incarnation that the line
/// names, and in the earlier one a copy was active there, or naming gave the action's root a lock on the entry; or a server voted behind the
/// place where both copies had become active in its life, the older first. It does nothing when it runs.
pub fn refused_commits_have_causes()
    ensures listed { RowHolds is_listed_abort }
    ensures bare { RowHolds is_bare_abort }
    ensures met { RowHolds is_met_abort }
    ensures old { RowHolds is_old_abort }
    ensures changed { RowHolds is_changed_abort }
{}

/// In every such run something is prepared for an action that began and whose commit was called: at a store where a write or an include of it
/// survives by the lines before, and at naming, which is at node 1, where it has excluded a store, or an include of it survives. It does
/// nothing when it runs.
pub fn preparations_have_causes()
    ensures prepared { RowHolds is_prepared }
{}

/// In every such run a lock on an entry is granted by naming, to a top that has no such lock by the table before the line, and whose path
/// meets none. One for an exclusion is so to a top that excluded a store of the object; for any other a call or an include of the object,
/// of the top or of an action below it, was accepted. In a restart naming gives a lock back, of either kind, to a top of which one or the
/// other is so. It does nothing when it runs.
pub fn locks_on_entries_are_free()
    ensures locked { RowHolds is_granted_entry }
{}

/// In every such run a nested action commits in the event that commits it, and any other action while its commit is under way by the lines
/// before; then each store that is listed behind the line, of each object that a call of it wrote that survives, has since the commit was
/// called prepared what the action wrote, or stopped, in no crash, while it took a Prepare from the action's node, or as that node itself. It
/// does nothing when it runs.
pub fn commits_are_called()
    ensures committed { RowHolds is_committed }
{}

/// In every such run a store is excluded by a commit that is under way by the lines before, of a top of which a write of the object, or an
/// include of this store for it, survives by them. The store was sent a Prepare since the commit was called, and given up since; or it
/// answered its Prepare at a place of the commit's span at which another action than this one has a state of an object that this one
/// changes in doubt at it. It does nothing when it runs.
pub fn exclusions_have_causes()
    ensures excluded { RowHolds is_excluded }
{}
