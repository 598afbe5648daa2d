// Laws with the naming node's half: locks, grants, kept lists.
ghost use Rattle.arj_law_disk.specs.machine.Named.{Named};
ghost use Rattle.arj_law_disk.specs.machine.Names.{Office};
ghost use Rattle.arj_law_disk.specs.machine.NamingLaws.{IsBooked, OldNeedsRestart};

/// All that a confirmation counts on follows from the naming node's half and the stores, but for the next version, which servers
/// give: it is alone, what it includes is the last state, and its list names each listed store. It does nothing when it runs.
pub fn confirmations_are_booked()
    ensures booked { (A : Office) → Named A → IsBooked A }
    ensures old { (A : Office) → Named A → OldNeedsRestart A }
{}
