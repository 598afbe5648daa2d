// The records of commits on a disk.
ghost use Rattle.std.specs.Prelude.{◌≡◌, ◌⊎◌, ◌++◌, map, IfOk, OnOk, IsErrOf};
ghost use Rattle.std.specs.List.{AllByRecursion};
ghost use Rattle.arj_disk.specs.Counted.{counts};
ghost use Rattle.arj_disk.specs.Disk.{Same, SameBut, Puts, PutsOrNot, Removes, CountsCall};
ghost use Rattle.arj_disk.specs.Formed.{intent_bytes, IsIntentOf};
ghost use Rattle.arj_disk.specs.Says.{SameOfRole};
ghost use Rattle.arj_disk.specs.declared.slot.Role.{Role};
ghost use Rattle.arj_disk.specs.declared.slot.Slot.{Slot};
ghost use Rattle.arj_intent.specs.Records.{IsInForm, AreInForm, AreRecords, Does, IsCut, IsTheList, shown, entry_of, entries_at};
ghost use Rattle.arj_protocol.specs.Effect.{PutIntent, RemoveIntent};

use crate::packed::{intent_file, intent_in};
use crate::{Intent, Intents};
use arj_base::Uid;
use arj_disk::{Disk, DiskFault, Slot};
use std::alloc::Global;

/// Puts the record of a commit in its place. When it has returned, the commit is decided. Stopped, the record is there or
/// not.
pub fn put<D: Disk>(alloc: Global, disk: &mut D, i: &Intent) -> Result<(), DiskFault>
    requires { IsInForm i.now }
    ensures ok { OnOk result (Puts (D.file disk.old) (D.file disk.new) (Slot.Intent i.now.top) (intent_bytes i.now.root i.now.top i.now.nodes)) }
    ensures files { PutsOrNot (D.file disk.old) (D.file disk.new) (Slot.Intent i.now.top) (intent_bytes i.now.root i.now.top i.now.nodes) }
    ensures memory { IsErrOf result DiskFault.Memory → SameBut (D.file disk.old) (D.file disk.new) Slot.Tmp }
    ensures work { OnOk result (Does (PutIntent i.now.top (shown i.now)) (D.file disk.old) (D.file disk.new)) }
    ensures stopped { IsErrOf result DiskFault.Stopped → IsCut (PutIntent i.now.top (shown i.now)) (D.file disk.old) (D.file disk.new) }
    ensures form { AreInForm (D.file disk.old) → AreInForm (D.file disk.new) }
    ensures roles { (r : Role) → SameOfRole r (D.file disk.old) (D.file disk.new) }
    ensures counts { CountsCall (counts D.Disk disk.old) (counts D.Disk disk.new) result DiskFault.Stopped }
{
    let bytes = intent_file(alloc, i)?;
    arj_disk::put(disk, Slot::Intent(i.top), bytes.as_slice())
}

/// The records that are on the disk, by their tops. It reads the names, and then each record.
pub fn list<D: Disk>(alloc: Global, disk: &mut D) -> Result<Intents, DiskFault>
    requires { AreInForm (D.file disk.old) }
    ensures found { IfOk result (λ found. AreRecords (D.file disk.old) (map entry_of found)) }
    ensures only { IfOk result (λ found. IsTheList (D.file disk.old) (map entry_of found)) }
    ensures form { IfOk result (AllByRecursion IsInForm) }
    ensures files { D.file disk.new ≡ D.file disk.old }
    ensures counts { CountsCall (counts D.Disk disk.old) (counts D.Disk disk.new) result DiskFault.Stopped }
{
    let names = disk.names(alloc)?;
    let mut intents = Intents::new(alloc);
    for slot in names.as_slice() {
        read_slot(alloc, disk, *slot, &mut intents)?;
    }
    Ok(intents)
}

// Reads the file of this name, if it is a record's.
fn read_slot<D: Disk>(
    alloc: Global,
    disk: &mut D,
    slot: Slot,
    intents: &mut Intents,
) -> Result<(), DiskFault>
    requires { AreInForm (D.file disk.old) }
    ensures ok { OnOk result (map entry_of intents.new ≡ map entry_of intents.old ++ entries_at (D.file disk.old) slot) }
    ensures form { OnOk result (AllByRecursion IsInForm intents.old → AllByRecursion IsInForm intents.new) }
    ensures files { D.file disk.new ≡ D.file disk.old }
    ensures counts { CountsCall (counts D.Disk disk.old) (counts D.Disk disk.new) result DiskFault.Stopped }
{
    match slot {
        Slot::Intent(top) => read_record(alloc, disk, top, intents),
        _ => Ok(()),
    }
}

// Reads the record of this top.
fn read_record<D: Disk>(
    alloc: Global,
    disk: &mut D,
    top: Uid,
    intents: &mut Intents,
) -> Result<(), DiskFault>
    requires { AreInForm (D.file disk.old) }
    ensures ok { OnOk result (map entry_of intents.new ≡ map entry_of intents.old ++ entries_at (D.file disk.old) (Slot.Intent top)) }
    ensures form { OnOk result (AllByRecursion IsInForm intents.old → AllByRecursion IsInForm intents.new) }
    ensures files { D.file disk.new ≡ D.file disk.old }
    ensures counts { CountsCall (counts D.Disk disk.old) (counts D.Disk disk.new) result DiskFault.Stopped }
{
    let Some(bytes) = disk.read(alloc, Slot::Intent(top))? else {
        return Ok(());
    };
    let intent = intent_in(alloc, top, bytes.as_slice())?;
    intents.push(intent)?;
    Ok(())
}

/// Removes the record of a commit that all have acknowledged; one that isn't there is no change. It takes no memory.
/// Stopped, the record is there or not.
pub fn remove<D: Disk>(disk: &mut D, top: Uid) -> Result<(), DiskFault>
    ensures ok { OnOk result (Removes (D.file disk.old) (D.file disk.new) (Slot.Intent top)) }
    ensures files { Same (D.file disk.old) (D.file disk.new) ⊎ Removes (D.file disk.old) (D.file disk.new) (Slot.Intent top) }
    ensures memory { IsErrOf result DiskFault.Memory → ⊥ }
    ensures work { OnOk result (Does (RemoveIntent top) (D.file disk.old) (D.file disk.new)) }
    ensures stopped { IsErrOf result DiskFault.Stopped → IsCut (RemoveIntent top) (D.file disk.old) (D.file disk.new) }
    ensures form { AreInForm (D.file disk.old) → AreInForm (D.file disk.new) }
    ensures roles { (r : Role) → SameOfRole r (D.file disk.old) (D.file disk.new) }
    ensures counts { CountsCall (counts D.Disk disk.old) (counts D.Disk disk.new) result DiskFault.Stopped }
{
    disk.remove(Slot::Intent(top))
}
