// What servers vote, and what calls name, in every run.
ghost use Rattle.arj_law_runs.specs.calls.Voting.{RunsCall, RunsVote};

/// After each run in whose journal naming made fewer than 2^32 - 1 bindings, with all frames that came in any order, again or never, all
/// stops, crashes and restarts, what was voted to a commit that is under way are states of objects that its plan uses at the
/// server which votes. It does nothing when it runs.
pub fn votes_are_used()
    ensures { RunsVote }
{}

/// After each such run the states that a commit under way has as changed are of objects on which a call survives in its top: one that
/// was answered to the top, or to an action that was committed into it. It does nothing when it runs.
pub fn changes_are_called()
    ensures { RunsCall }
{}
