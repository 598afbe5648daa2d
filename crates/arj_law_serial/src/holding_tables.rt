// The tables of a journal have the locks of nodes, in runs.
ghost use Rattle.arj_law_serial.specs.holding.Shown.{TablesShowLocks};

/// In every run, wherever disks stop, with all crashes and restarts, the journal's table of each node has after each event on each object
/// the locks that its server then has, and that of node 1 on each entry those of naming: none while the node is down. It does nothing when
/// it runs.
pub fn tables_show_locks()
    ensures { TablesShowLocks }
{}
