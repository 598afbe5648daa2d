// What actions wait for, by the events and the journal alone, and what answers end.
ghost use Rattle.arj_law_cause.specs.waits.replies.Ends.{RepliesEndWaits};
ghost use Rattle.arj_law_cause.specs.waits.waiting.Refusals.{WaitingRefusalsFollow};
ghost use Rattle.arj_law_cause.specs.waits.commits.Commits.{CommitsEndWaits};
ghost use Rattle.arj_law_cause.specs.waits.lost.Lost.{GiveupsLose};

/// In every run in form, wherever it begins and wherever disks stop, an event is refused with a number up to 8 exactly where that is its
/// lowest cause by the events and the journal before it: so also where its action waits, or one above or below it, or the commit of
/// another constituent (7), and a giveup where its action waits for nothing (8). It does nothing when it runs.
pub fn waiting_refusals_follow()
    ensures runs { WaitingRefusalsFollow }
{}

/// In every run in form, wherever it begins and wherever disks stop, each line that answers a call or an include, an `ok`, an `includes`, a
/// `conflict`, a `lost` or a `changed`, ends what its action waits for by the events and the lines before it: one call or include is waited
/// for there, by an `ok` the call of that object by that operation, by an `includes` the include of that store for that object; and behind
/// the line the action waits for none. It does nothing when it runs.
pub fn answers_end_what_waits()
    ensures runs { RepliesEndWaits }
{}

/// In every run in form, wherever it begins and wherever disks stop, each line that says that an action committed, or was aborted as its
/// commit was refused or given up, ends a commit that is under way by the lines before it, of which it is the only end: but the own line of an
/// event that calls a commit, which may be that of a nested action. It does nothing when it runs.
pub fn commits_end_what_waits()
    ensures runs { CommitsEndWaits }
{}

/// In every run in form, wherever it begins and wherever disks stop, each line that says that a call or an include was lost stands in a giveup
/// of its action: no answer loses anything, as no entry is ever left without a store. It does nothing when it runs.
pub fn giveups_lose_calls()
    ensures runs { GiveupsLose }
{}
