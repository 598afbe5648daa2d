// What the journal of a run tells of the disks.
ghost use Rattle.std.specs.Prelude.{Bool};
ghost use Rattle.arj_nodes.specs.AllNodes.{RanAll, Task};
ghost use Rattle.arj_nodes.specs.Told.{ArmsAreTold, HaltsHaveCause};
ghost use Rattle.arj_world.specs.Stands.{Hand};

use arj_core::Core;
use arj_disk::Disk;

/// The journal of what nodes ran over disks tells of no more stops than each disk counted since the first, and of one at least where it
/// counted any, and nobody halts but nodes of the header; and it tells of each arm that the events ask for, and of no other. It does
/// nothing when it runs.
pub fn journals_tell_of_disks<C: Core, D: Disk>()
    ensures halts { (t : Task D) (over : Bool) (now : Hand C D) → RanAll C.Core D.Disk t over now → HaltsHaveCause D.Disk t now.journal now.disks }
    ensures arms { (t : Task D) (over : Bool) (now : Hand C D) → RanAll C.Core D.Disk t over now → ArmsAreTold t.header.nodes t.events now.journal }
{}
