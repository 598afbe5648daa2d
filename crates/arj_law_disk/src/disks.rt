// Laws of the disks, the records and the decisions.
ghost use Rattle.arj_law_disk.specs.machine.Effects.{World, Whole};
ghost use Rattle.arj_law_disk.specs.machine.Laws.{FirstIsWhole, HasOneOutcome, OldIsCommitted, StopsStayWhole, VersionsCount};

/// An object as it begins is whole, with older states at stores that aren't listed; and every list of allowed effects,
/// stopped anywhere, leaves it whole. It does nothing when it runs.
pub fn disks_stay_whole()
    ensures first { FirstIsWhole }
    ensures effects { StopsStayWhole }
{}

/// No store and no naming node commits a top that isn't decided, and none aborts a decided one that it prepared as a
/// participant and hasn't committed. It does nothing when it runs.
pub fn outcomes_are_one()
    ensures outcome { (W : World) → Whole W → HasOneOutcome W }
{}

/// The versions of the last state and the last entry count the decided tops that wrote and that changed the list; so an
/// answer that a store holds a version not below the one sent names one that was committed, as long as no older state was
/// loaded. It does nothing when it runs.
pub fn versions_count_decisions()
    ensures versions { (W : World) → Whole W → VersionsCount W.disk }
    ensures old { (W : World) → Whole W → OldIsCommitted W.disk }
{}
