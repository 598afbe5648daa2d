// Runs that the machine has.
ghost use Rattle.arj_law_lock.specs.machine.Runs.{LostLock, OldFrames, Rebinding, Serializing};

/// The machine has runs worth the laws: a lock lost by a restart, a binding replaced, a serializing action with two
/// constituents, old messages that come late. It does nothing when it runs.
pub fn these_runs_happen()
    ensures lost_lock { LostLock }
    ensures rebinding { Rebinding }
    ensures serializing { Serializing }
    ensures old_frames { OldFrames }
{}
