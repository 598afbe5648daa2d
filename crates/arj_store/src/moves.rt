// The ends of a prepared action: its shadows become the committed files, or go.
ghost use Rattle.std.specs.Prelude.{◌≡◌, ◌⊎◌, true, None, OnOk, IsErrOf, is_some};
ghost use Rattle.arj_base.specs.declared.uid.Uid.{Uid};
ghost use Rattle.arj_disk.specs.Counted.{counts};
ghost use Rattle.arj_disk.specs.Disk.{Same, Removes, CountsCall};
ghost use Rattle.arj_disk.specs.declared.slot.Slot.{Slot};
ghost use Rattle.arj_store.specs.Shadow.{is_in, has_shadow, Releases, MovesShadow, MovesShadows, HaveNoShadow, PutsStates};
ghost use Rattle.arj_store.specs.Table.{at, Sets};

use crate::memory::{Holding, release};
use crate::prepare::Place;
use crate::table::Table;
use arj_base::Uid;
use arj_disk::{Disk, DiskFault, Slot};

/// Gives the shadow of an object the committed file's name, if the shadow is there.
fn move_shadow<D: Disk>(
    holdings: &mut Table<Holding>,
    disk: &mut D,
    uid: Uid,
) -> Result<(), DiskFault>
    requires { is_some (D.file disk.old (Slot.Shadow uid)) ≡ has_shadow (at holdings.old uid) }
    ensures files { Same (D.file disk.old) (D.file disk.new) ⊎ MovesShadow (D.file disk.old) (D.file disk.new) uid }
    ensures ok { OnOk result (D.file disk.new (Slot.Shadow uid) ≡ None) }
    ensures taken { Sets (at holdings.old) (at holdings.new) uid None }
    ensures counts { CountsCall (counts D.Disk disk.old) (counts D.Disk disk.new) result DiskFault.Stopped }
{
    if release(holdings, uid) {
        return disk.rename(Slot::Shadow(uid), Slot::Committed(uid));
    }
    Ok(())
}

/// Gives each shadow of the objects that is there the committed file's name, in their order.
pub fn move_shadows<D: Disk>(
    holdings: &mut Table<Holding>,
    disk: &mut D,
    objects: &[Uid],
) -> Result<(), DiskFault>
    requires { (u : Uid) → is_in objects.now u ≡ true → is_some (D.file disk.old (Slot.Shadow u)) ≡ has_shadow (at holdings.old u) }
    ensures files { MovesShadows objects.now (D.file disk.old) (D.file disk.new) }
    ensures ok { OnOk result (HaveNoShadow objects.now (D.file disk.new)) }
    ensures released { OnOk result (Releases objects.now (at holdings.old) (at holdings.new)) }
    ensures counts { CountsCall (counts D.Disk disk.old) (counts D.Disk disk.new) result DiskFault.Stopped }
{
    for uid in objects {
        move_shadow(holdings, disk, *uid)?;
    }
    Ok(())
}

/// Removes the shadow of an object, if it is there.
fn remove_shadow<D: Disk>(
    holdings: &mut Table<Holding>,
    disk: &mut D,
    uid: Uid,
) -> Result<(), DiskFault>
    requires { is_some (D.file disk.old (Slot.Shadow uid)) ≡ has_shadow (at holdings.old uid) }
    ensures files { Same (D.file disk.old) (D.file disk.new) ⊎ Removes (D.file disk.old) (D.file disk.new) (Slot.Shadow uid) }
    ensures ok { OnOk result (D.file disk.new (Slot.Shadow uid) ≡ None) }
    ensures memory { IsErrOf result DiskFault.Memory → ⊥ }
    ensures taken { Sets (at holdings.old) (at holdings.new) uid None }
    ensures counts { CountsCall (counts D.Disk disk.old) (counts D.Disk disk.new) result DiskFault.Stopped }
{
    if release(holdings, uid) {
        return disk.remove(Slot::Shadow(uid));
    }
    Ok(())
}

/// Removes each shadow of the objects that is there, in their order.
pub fn remove_shadows<D: Disk>(
    holdings: &mut Table<Holding>,
    disk: &mut D,
    objects: &[Uid],
) -> Result<(), DiskFault>
    requires { (u : Uid) → is_in objects.now u ≡ true → is_some (D.file disk.old (Slot.Shadow u)) ≡ has_shadow (at holdings.old u) }
    ensures files { PutsStates Place.Shadow objects.now (D.file disk.old) (D.file disk.new) }
    ensures ok { OnOk result (HaveNoShadow objects.now (D.file disk.new)) }
    ensures memory { IsErrOf result DiskFault.Memory → ⊥ }
    ensures released { OnOk result (Releases objects.now (at holdings.old) (at holdings.new)) }
    ensures counts { CountsCall (counts D.Disk disk.old) (counts D.Disk disk.new) result DiskFault.Stopped }
{
    for uid in objects {
        remove_shadow(holdings, disk, *uid)?;
    }
    Ok(())
}
