// Files of nodes, and images of runs that end at rest.
ghost use Rattle.arj_law_images.specs.Saving.{RestingRunsMakeCalmImages, SavesFiles};
ghost use Rattle.arj_law_nodes.specs.nodes.Cores.{SaysReadings};
ghost use Rattle.arj_law_nodes.specs.nodes.Readings.{Reads, reading_of};

use arj_core::Core;
use arj_disk::Disk;
use arj_node::NodeCore;
use arj_parts::NodeParts;
use arj_segment::SegmentStore;
use arj_store::ObjectStore;

/// The files of cores over segment stores are in place and in their grammars, and are read as an image says them (`AreSaved`). It does nothing
/// when it runs.
pub fn cores_save_their_files()
    ensures { SavesFiles ⟦<NodeCore<NodeParts<SegmentStore>> as Core>⟧ (reading_of ⟦<SegmentStore as ObjectStore>⟧) }
{}

/// Over cores whose files are so, whatever nodes run: where all are down at the end, with nothing prepared and no record, the image that has
/// their header, their counts, their journal and the files of their disks is calm (`IsCalm` of `arj_audit`), so that a run can go
/// on from it. It does nothing when it runs.
pub fn resting_runs_make_calm_images<C: Core, D: Disk>()
    ensures { (read : Reads) → SaysReadings C.Core read → SavesFiles C.Core read → RestingRunsMakeCalmImages C.Core D.Disk }
{}
