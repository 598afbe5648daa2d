// What coordinators wait for.
ghost use Rattle.arj_law_lock_view.specs.asking.Runs.{RunsTieCalls};

/// In every run, inside of events too, each action that waits for a call or an include does so for what was asked last of
/// it, by an event that can own its request, of the same object for the same, and it isn't answered; of any other action at
/// work each call and include was answered. It does nothing when it runs.
pub fn calls_wait_for_what_was_asked()
    ensures runs { RunsTieCalls }
{}
