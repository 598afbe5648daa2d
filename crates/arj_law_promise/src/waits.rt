// Requests for which somebody waits.
ghost use Rattle.arj_law_promise.specs.waiting.Waits.{HandlersKeepWaits, KnownGive};

/// What is known of whoever waits is kept by each handler, wherever a stop falls: whoever was told to have ended has ended, the last
/// request of each action is of what waits and comes from where it began, messages go to nodes of the header, calls are on its objects and
/// fit their classes, naming has each of these, states are of objects and of their classes, answers and what servers have was asked for, a
/// line said so of each binding that was made, naming keeps the last one that it made for a top until it is told of its end, what stores
/// have committed was written before the run, or by a top whose end was told, and no node that is up has an incarnation from before the
/// run. By it a node answers each request for which somebody waits, or its call is overtaken, where one thing is known beside: a store that
/// is asked for a state has one, or another action has prepared it. Nothing else needs anything. It does nothing when it runs.
pub fn requests_that_wait_are_answered()
    ensures handlers { HandlersKeepWaits }
    ensures gives { KnownGive }
{}
