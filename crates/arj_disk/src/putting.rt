// The putting of a file.
ghost use Rattle.std.specs.Prelude.{◌≢◌, OnOk, IsErrOf};
ghost use Rattle.arj_disk.specs.Counted.{counts};
ghost use Rattle.arj_disk.specs.Disk.{SameBut, Puts, PutsOrNot, CountsCall};

use crate::{Disk, DiskFault, Slot};

/// Puts a file: a write of Tmp and a rename of Tmp to its name. So a stop at any moment leaves the old file or the
/// new one. Every file but Tmp is put by it.
pub fn put<D: Disk>(disk: &mut D, slot: Slot, bytes: &[u8]) -> Result<(), DiskFault>
    requires { slot ≢ Slot.Tmp }
    ensures ok { OnOk result (Puts (D.file disk.old) (D.file disk.new) slot bytes.now) }
    ensures files { PutsOrNot (D.file disk.old) (D.file disk.new) slot bytes.now }
    ensures memory { IsErrOf result DiskFault.Memory → SameBut (D.file disk.old) (D.file disk.new) Slot.Tmp }
    ensures counts { CountsCall (counts D.Disk disk.old) (counts D.Disk disk.new) result DiskFault.Stopped }
{
    disk.write(Slot::Tmp, bytes)?;
    disk.rename(Slot::Tmp, slot)
}
