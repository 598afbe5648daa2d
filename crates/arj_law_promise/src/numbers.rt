// Numbers that end.
ghost use Rattle.arj_law_promise.specs.rooms.Actions.{FreshHasIncs, RunsSayActions};
ghost use Rattle.arj_law_promise.specs.rooms.Incs.{IncsHaveNext, IncsRiseByOne};
ghost use Rattle.arj_law_promise.specs.rooms.Numbers.{NumbersHaveRoom, NumbersRise};

/// In every run, from any start, whatever stops fall, a node's incarnation rises by one at most in each event, and the last request of an
/// action by five numbers at most, also within a settle or a quiesce. So in a run of at most 1,000,000 events each action has request
/// numbers left for whatever it does next; and each node has a next incarnation, if it began 1,000,001 below the last one that 32 bits
/// count, as every node does that was formatted. It does nothing when it runs.
pub fn numbers_have_room()
    ensures incarnations { IncsRiseByOne }
    ensures next { IncsHaveNext }
    ensures requests { NumbersRise }
    ensures room { NumbersHaveRoom }
{}

/// In every run in form, whatever stops fall, each line is in form that says that an action begins, that a restart found its record, or
/// that its commit is told or done: if each node began 1,000,001 below the last incarnation that 32 bits count, as every node does that was
/// formatted. It does nothing when it runs.
pub fn lines_of_actions_are_in_form()
    ensures lines { RunsSayActions }
    ensures fresh { FreshHasIncs }
{}
