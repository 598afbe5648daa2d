// What quiesces, rounds and settles answer and leave, how many frames an event sends, and that few meet no limit, by events and journal
// alone.
ghost use Rattle.arj_law_cause.specs.rounds.Alone.{RunsAnswerAlone};
ghost use Rattle.arj_law_cause.specs.rounds.Fits.{RunsFit};
ghost use Rattle.arj_law_cause.specs.rounds.Known.{RoundsLeaveAll, RunsAnswer, RunsAreKnown, RunsEndRounds};
ghost use Rattle.arj_law_cause.specs.rounds.Sends.{RunsSendFew};
ghost use Rattle.arj_law_cause.specs.rounds.Settles.{RunsLeaveNoRecord, RunsSettle};

/// In every run in form, wherever it begins and wherever disks stop, the journal tells how its nodes are: each action at work at a node
/// that is up waits for what the journal has as unanswered, and whoever waits by it is at work; a node is up exactly where it is by its
/// `up` and `halted` lines; a frame is open where one is by the lines of frames; and the run is over exactly where a line says that a
/// limit of labels or frames was met. It does nothing when it runs.
pub fn journals_tell_how_nodes_are()
    ensures runs { RunsAreKnown }
{}

/// In every run in form, wherever it begins and wherever disks stop, take a quiesce as which begins every node is up, by the lines, and in
/// which no line says that a node halted or that a limit was met. Whoever waited as it began, for a call or an include, is answered by a
/// line of it, not as lost, or waits still for a call that is overtaken: two bindings of its object were made. Whoever waited for its
/// commit is told that it committed, or why an answer refused that. So at its end only calls that are overtaken wait. And where nobody
/// waited and no frame was open, its last line says that all is quiet. It does nothing when it runs.
pub fn quiesces_answer_who_waits()
    ensures runs { RunsAnswer }
{}

/// In every run in form, wherever it begins and wherever disks stop, the stated round ends with a line that all is quiet: such a quiesce,
/// giveups of each action that waits then, by the journal, or any behind which nobody waits, and a second such quiesce. And where nothing
/// is run behind it disks hold every entry and last state, with nothing prepared and no record. It does nothing when it runs.
pub fn rounds_end_quiet()
    ensures runs { RunsEndRounds }
    ensures disks { RoundsLeaveAll }
{}

/// In every run in form, wherever it begins and wherever disks stop, take a tick of a node, then calls, includes, commits, ticks and
/// settles, and a settle: one after another, as which begin every node is up, by the lines, and in which no line says that a node halted
/// or that a limit was met. Behind them each action that began at the node and waits, waits for a call that is overtaken, whatever frames
/// were lost before the tick. And where nothing is run behind them the node's disk has no record. It does nothing when it runs.
pub fn settles_answer_who_waits()
    ensures runs { RunsSettle }
    ensures disks { RunsLeaveNoRecord }
{}

/// In every run in form on one node, wherever it begins and wherever disks stop, whoever calls, includes or commits is answered in that
/// event: behind it the action, if it didn't wait before, waits for nothing. It does nothing when it runs.
pub fn asked_alone_is_answered()
    ensures runs { RunsAnswerAlone }
{}

/// In every run in form, wherever it begins and wherever disks stop, an event sends so many frames at most, in words of the journal before
/// it: one by which an action calls or includes, or which hands over bytes; to each other node four by which an action commits, two by
/// which it is given up, and one for each open action that an abort ends. A delivery sends one frame where it is of a call, an include, or
/// to another node a request of a commit, an end or a question; to each other node one of an acknowledgement, two of an answer to a Prepare
/// or a Confirm, one for each action that began of a hello, and three of any other. A tick sends to each other node seven for each action
/// that began, a restart three for each and a hello. A settle sends what open frames lead to, and so many for each action that waits, for
/// what it has to do still; a quiesce as many, and what its ticks send, with what that leads to. None is sent by which an action begins, a
/// frame is lost, a node crashes, a stop is armed, or an object is shown. It does nothing when it runs.
pub fn events_send_few_frames()
    ensures runs { RunsSendFew }
{}

/// In every run in form, wherever it begins and wherever disks stop, few events meet no limit of frames. Where none of them is a tick, a
/// restart, a settle or a quiesce: so many as are, with the lines that say of an action that it was aborted as asked, 1,666 at most. And of
/// whichever kinds they are, where what they add at most is fewer than a run may send: each counts with what it sends and all that this
/// leads to, by the nodes and by how many actions begin in the run. It does nothing when it runs.
pub fn few_events_meet_no_limit()
    ensures runs { RunsFit }
{}
