// What runs of the generated bank show.
ghost use Rattle.arj_law_nodes.specs.nodes.Banks.{BankFrontsShow, BankLimitsShow, BanksShow};
ghost use Rattle.arj_law_nodes.specs.nodes.Cores.{SaysReadings};
ghost use Rattle.arj_law_nodes.specs.nodes.Readings.{Reads};

use arj_core::Core;
use arj_disk::Disk;

/// Where cores say by their files, read so, what their nodes have on disk, a run of the generated bank shows the promise: by its journal, and the
/// disks as they were behind its events. So it is of the whole bank (`whole`), of one that came to a limit (`limits`), and of a front of its
/// events (`fronts`). It does nothing when it runs.
pub fn banks_show_what_is_promised<C: Core, D: Disk>()
    ensures whole { (read : Reads) → SaysReadings C.Core read → BanksShow C.Core D.Disk read }
    ensures limits { (read : Reads) → SaysReadings C.Core read → BankLimitsShow C.Core D.Disk read }
    ensures fronts { (read : Reads) → SaysReadings C.Core read → BankFrontsShow C.Core D.Disk read }
{}
