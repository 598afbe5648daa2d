// Disks to begin with.
ghost use Rattle.std.specs.Prelude.{All, IfOk};
ghost use Rattle.arj_disk.specs.Armed.{IsNew};

use arj_disk::{MemDisk, Rack};
use std::alloc::{AllocError, Global};

/// Sixteen empty disks in memory, of which no call was stopped and which never were armed.
pub fn empty_rack(alloc: Global) -> Result<Rack<MemDisk>, AllocError>
    ensures { IfOk result (λ rack. All IsNew rack) }
{
    let mut disks = Vec::new(alloc);
    for _ in 0..16u8 {
        disks.push(MemDisk::new(alloc))?;
    }
    Ok(Rack::new(disks))
}
