// Why calls are answered as they are.
ghost use Rattle.arj_law_cause.specs.operations.Runs.{RunsAnswerOperations};
ghost use Rattle.arj_law_cause.specs.rows.Lines.{AnswersHaveCauses, ConflictsAreExact};

/// In every run in form, wherever it begins and wherever disks stop, each line that answers a call with what its operation
/// gave, each that answers an include as done, each that says a conflict, and each that says what was lost, has its cause by
/// the events and the journal before it. It is of what was asked last of its action, which is open and has no other answer to
/// it. Where a node answered that, in the span of what was asked, the journal's table of the node had the action's own lock, or
/// the row of this holder in this mode as the first one against what was asked, at naming against its top: of an action that
/// began, and isn't on the path that asks. An include is of this store for this object, and at some place of its span the
/// table of naming's node had its top's write lock on the entry. And what is lost was given up in the event, as the line before
/// says. Where a store says a conflict, over a state in doubt, this node answered a Load in the span, and may be a store of the
/// object by the journal, of an action that began, isn't on the path that asks, and by then had changed the object; and since its
/// commit was called it prepared something there, or the node stopped, in no crash, which is the action's own or was taking a
/// Prepare from there, and no end of it is done there since. One that says what changed is of a call that was told so in the
/// span, by the node that is named or by naming, unless the action runs at either; and there the one copy was active before the
/// other at the node, as it showed in the span, or the node was in the new incarnation in the span, and in the old one had a copy
/// of the object, or is naming's and a top of the root got a lock on the entry in it. Where naming told it, it made both bindings,
/// and the root had one of them from another call of the object. It does nothing when it runs.
pub fn answers_have_causes()
    ensures runs { AnswersHaveCauses }
{}

/// In every run in form, wherever it begins and wherever disks stop, a call or an include is answered with a conflict exactly where
/// a lock stands against it. Where it is answered as done there is a place of its span, at which that was answered, where the
/// action has its own lock in the table of the node that ran the operation, and no lock of that table stands against the call; or
/// of an include where its top has the write lock on the entry in naming's table, and none stands against that. And where it is
/// answered with a conflict there is one where a lock does, which is the first one, or where a store has a state of another top in
/// doubt. It does nothing when it runs.
pub fn conflicts_come_exactly()
    ensures runs { ConflictsAreExact }
{}

/// In every run in form, wherever it begins and wherever disks stop, each `ok` line has the text of an answer of the operation
/// that it names: one that the operation gives at some value of a class that has it. It does nothing when it runs.
pub fn answers_are_of_their_operations()
    ensures runs { RunsAnswerOperations }
{}
