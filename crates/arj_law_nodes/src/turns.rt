// What nodes run over disks is a run of moves, and shows the promise.
ghost use Rattle.arj_law_nodes.specs.nodes.Cores.{SaysReadings};
ghost use Rattle.arj_law_nodes.specs.nodes.Readings.{Reads};
ghost use Rattle.arj_law_nodes.specs.nodes.Turns.{ClosesMove, ClosesShow, NodesMove, RunsShow, ScriptsMove, StopsShow};

use arj_core::Core;
use arj_disk::Disk;

/// Whatever nodes run over disks, with whatever stops these make, is a run of moves in form: its journal is that of these moves, and its disks
/// are those of their nodes, in whichever way of reading files cores say so (`runs`, over `RanAll`). So it is of what was run of a script's
/// lines, however that ends (`scripts`), and of what a run of a script leaves at each status but 4 and 5: there at most one line, outside of
/// events, stands behind that journal (`closes`). It does nothing when it runs.
pub fn nodes_run_moves<C: Core, D: Disk>()
    ensures runs { NodesMove C.Core D.Disk }
    ensures scripts { ScriptsMove C.Core D.Disk }
    ensures closes { ClosesMove C.Core D.Disk }
{}

/// Where cores say by their files, read so, what their nodes have on disk, whatever nodes run over disks shows the promise (`ShowsThePromise`): the
/// journal is serial, keeps the lock book, holds calls at each line by its tables and shows one outcome of each top; disks are clean and exclude
/// stores in time; and where the last event was a quiesce whose line says that every node is idle, they hold every entry and, at each listed store,
/// every last state, with no exception (`runs`). So do the journal and the disks that a run of a script leaves at
/// each status but 4 and 5 (`closes`), and at these the journal of which the sink took a front, with the disks as they were behind it (`stops`).
/// It does nothing when it runs.
pub fn nodes_show_what_is_promised<C: Core, D: Disk>()
    ensures runs { (read : Reads) → SaysReadings C.Core read → RunsShow C.Core D.Disk read }
    ensures closes { (read : Reads) → SaysReadings C.Core read → ClosesShow C.Core D.Disk read }
    ensures stops { (read : Reads) → SaysReadings C.Core read → StopsShow C.Core D.Disk read }
{}
