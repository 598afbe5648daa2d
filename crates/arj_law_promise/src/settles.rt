// What disks of idle nodes hold.
ghost use Rattle.arj_law_promise.specs.settling.Last.{IdleDisksHoldTheLast};

/// Where every node is idle and disks are clean, each entry and each listed store holds its last committed state, with no exception:
/// nothing is prepared, and no record is left. It does nothing when it runs.
pub fn disks_of_idle_nodes_hold_the_last()
    ensures { IdleDisksHoldTheLast }
{}
