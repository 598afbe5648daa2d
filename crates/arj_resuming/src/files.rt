// The files of an image, put on disks.
ghost use Rattle.std.specs.Prelude.{◌≡◌, ◌≤◌, [], IsErrOf, OnOk};
ghost use Rattle.std.specs.List.{AllByRecursion};
ghost use Rattle.arj_image.specs.declared.image.NodeFile.{NodeFile as file_type};
ghost use Rattle.arj_resuming.specs.Written.{AreWritten, IsPlaced, IsWritten};
ghost use Rattle.arj_world.specs.Disks.{HasStopped, HaveMoved, HaveNotStopped};

use arj_disk::{Disk, DiskFault, Rack};
use arj_image::NodeFile;

// Writes a file on its node's disk.
#[tactic(auto, using(arj_world::proofs::Disks::moved_call, arj_world::proofs::Disks::stopped_at))]
fn put_file<D: Disk>(rack: &mut Rack<D>, file: &NodeFile) -> Result<(), DiskFault>
    requires { IsPlaced file.now }
    ensures written { OnOk result (IsWritten D.file file.now rack.old rack.new) }
    ensures moved { HaveMoved D.Disk 16 [] rack.old rack.new }
    ensures stopped { IsErrOf result DiskFault.Stopped → HasStopped D.Disk rack.old rack.new }
    ensures unstopped { OnOk result (HaveNotStopped D.Disk rack.old rack.new) }
{
    match rack.disk(file.node).write(file.slot, file.bytes.as_slice()) {
        Ok(()) => Ok(()),
        Err(fault) => Err(fault),
    }
}

/// Writes each file once on its node's disk, one after another. Stopped: a disk was stopped; no disk is armed.
pub fn put_files<D: Disk>(rack: &mut Rack<D>, files: &[NodeFile]) -> Result<(), DiskFault>
    requires { AllByRecursion IsPlaced files.now }
    ensures written { OnOk result (AreWritten D.file files.now rack.old rack.new) }
    ensures moved { HaveMoved D.Disk 16 [] rack.old rack.new }
    ensures stopped { IsErrOf result DiskFault.Stopped → HasStopped D.Disk rack.old rack.new }
    ensures unstopped { OnOk result (HaveNotStopped D.Disk rack.old rack.new) }
{
    for file in files {
        match put_file(rack, file) {
            Ok(()) => {}
            Err(fault) => return Err(fault),
        }
    }
    Ok(())
}
