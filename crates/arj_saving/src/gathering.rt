// The files of the disks of nodes.
ghost use Rattle.std.specs.Prelude.{◌≡◌, ◌≤◌, ◌++◌, [], IfOk, IsErrOf, OnOk};
ghost use Rattle.std.specs.List.{cons_option};
ghost use Rattle.arj_disk.specs.Counted.{counts};
ghost use Rattle.arj_disk.specs.Disk.{CountsCall, Same};
ghost use Rattle.arj_saving.specs.Gathered.{AreBehind, AreFilesOf, HaveBeenRead, file_at, node_files};
ghost use Rattle.arj_world.specs.Disks.{HasStopped, HaveNotStopped};

use arj_disk::{Disk, DiskFault, Rack, Slot};
use arj_image::{Files, NodeFile};
use std::alloc::Global;

// Puts a file of a node behind these, if there is one of this name.
fn put_file<D: Disk>(
    alloc: Global,
    disk: &mut D,
    node: u8,
    slot: Slot,
    files: &mut Files,
) -> Result<(), DiskFault>
    ensures put { OnOk result (files.new ≡ files.old ++ cons_option (file_at node (D.file disk.old) slot) []) }
    ensures same { Same (D.file disk.old) (D.file disk.new) }
    ensures counts { CountsCall (counts D.Disk disk.old) (counts D.Disk disk.new) result DiskFault.Stopped }
{
    match disk.read(alloc, slot)? {
        None => Ok(()),
        Some(bytes) => Ok(files.push(NodeFile { node, slot, bytes })?),
    }
}

// Puts the files of a node behind these.
fn put_files<D: Disk>(
    alloc: Global,
    disk: &mut D,
    node: u8,
    files: &mut Files,
) -> Result<(), DiskFault>
    ensures put { OnOk result (AreBehind node (D.file disk.old) files.old files.new) }
    ensures same { Same (D.file disk.old) (D.file disk.new) }
    ensures counts { CountsCall (counts D.Disk disk.old) (counts D.Disk disk.new) result DiskFault.Stopped }
{
    let names = disk.names(alloc)?;
    for name in names.as_slice() {
        put_file(alloc, disk, node, *name, files)?;
    }
    Ok(())
}

/// The files of so many nodes, in their order: by nodes, and of each node by names.
pub fn files_of<D: Disk>(alloc: Global, rack: &mut Rack<D>, nodes: u8) -> Result<Files, DiskFault>
    requires few { nodes ≤ 16 }
    ensures files { IfOk result (λ files. AreFilesOf (node_files D.file rack.old) nodes files) }
    ensures read { HaveBeenRead D.Disk nodes rack.old rack.new }
    ensures stopped { IsErrOf result DiskFault.Stopped → HasStopped D.Disk rack.old rack.new }
    ensures unstopped { OnOk result (HaveNotStopped D.Disk rack.old rack.new) }
{
    let mut files = Files::new(alloc);
    for done in 0..nodes {
        match put_files(alloc, rack.disk(done + 1), done + 1, &mut files) {
            Ok(()) => {}
            Err(fault) => return Err(fault),
        }
    }
    Ok(files)
}
