// Naming on a new disk.
ghost use Rattle.std.specs.Prelude.{◌≡◌, Some, None, map, IfOk, OnOk, OnErr};
ghost use Rattle.std.specs.List.{AllByRecursion};
ghost use Rattle.arj_disk.specs.Counted.{counts};
ghost use Rattle.arj_disk.specs.Disk.{CountsCall};
ghost use Rattle.arj_disk.specs.Says.{slot_role, OnlyOfRole};
ghost use Rattle.arj_disk.specs.declared.slot.Role.{Role};
ghost use Rattle.arj_disk.specs.declared.slot.Slot.{Slot};
ghost use Rattle.arj_entry.specs.Entry.{EntryInForm};
ghost use Rattle.arj_journal.specs.ScriptForm.{HeaderInForm};
ghost use Rattle.arj_journal.specs.declared.header.ObjectLine.{ObjectLine};
ghost use Rattle.arj_naming.specs.Files.{GivesEntries};
ghost use Rattle.arj_naming.specs.Kept.{StandsOn};
ghost use Rattle.arj_protocol.specs.Step.{first_disk, first_entry as first_entry_of, parts_in};
ghost use Rattle.arj_store.specs.Pair.{HasFirst};
ghost use Rattle.arj_store.specs.declared.answer.StoreFault.{StoreFault};

use crate::Naming;
use crate::nobody::NOBODY;
use crate::payload::node_list;
use crate::recover::recovered;
use arj_base::{Class, Format, ObjectState, States, entry_uid};
use arj_disk::{Disk, Role};
use arj_entry::Entry;
use arj_journal::{Header, Lines, ObjectLine};
use arj_store::{Found, ObjectStore, Pends, StoreFault};
use std::alloc::{AllocError, Global};

// The first entry of an object.
fn first_entry(
    alloc: Global,
    format: Format,
    object: &ObjectLine,
) -> Result<ObjectState, AllocError>
    requires { EntryInForm (record { servers = object.now.servers; stores = object.now.stores }) }
    ensures { IfOk result (λ s. s ≡ first_entry_of format object.now) }
{
    let entry = Entry {
        servers: node_list(alloc, object.servers.as_slice())?,
        stores: node_list(alloc, object.stores.as_slice())?,
    };
    Ok(ObjectState {
        uid: entry_uid(object.x),
        class: Class::Entry,
        version: 0,
        writer: NOBODY,
        payload: entry.save(alloc)?,
        format,
    })
}

// The first entries of objects.
fn first_entries(
    alloc: Global,
    format: Format,
    objects: &[ObjectLine],
) -> Result<States, AllocError>
    requires { AllByRecursion (λ (o : ObjectLine). EntryInForm (record { servers = o.servers; stores = o.stores })) objects.now }
    ensures { IfOk result (λ states. states ≡ map (first_entry_of format) objects.now) }
{
    let mut states = States::new(alloc);
    for object in objects {
        let state = first_entry(alloc, format, object)?;
        states.push(state)?;
    }
    Ok(states)
}

impl<O: ObjectStore + Drop> Naming<O> {
    /// The naming service of a new run, in incarnation 1, on a disk without files of entries: the entries of the header's
    /// objects, in version 0. Where it fails, the first few of them are there, or none.
    pub fn format<D: Disk>(
        alloc: Global,
        disk: &mut D,
        header: &Header,
    ) -> Result<Naming<O>, StoreFault>
        requires empty { (q : Slot) → slot_role q ≡ Some Role.Names → D.file disk.old q ≡ None }
        requires header { HeaderInForm header.now }
        ensures stands { IfOk result (λ n. StandsOn O.ObjectStore n (D.file disk.new)) }
        ensures pair { IfOk result (λ n. n.pair ≡ (first_disk header.now 1).names) }
        ensures part { IfOk result (λ n. Some n.part ≡ (parts_in 1 1 (first_disk header.now 1)).naming) }
        ensures entries { OnOk result (GivesEntries (O.pair (D.file disk.new) Role.Names)) }
        ensures fault { OnErr result (HasFirst (O.pair (D.file disk.new) Role.Names) (map (first_entry_of header.now.format) header.now.objects)) }
        ensures formed { O.formed (D.file disk.new) Role.Names }
        ensures others { OnlyOfRole Role.Names (D.file disk.old) (D.file disk.new) }
        ensures counts { CountsCall (counts D.Disk disk.old) (counts D.Disk disk.new) result StoreFault.Stopped }
    {
        let states = first_entries(alloc, header.format, header.objects.as_slice())?;
        let store = O::format(alloc, disk, Role::Names, &states)?;
        let found = Found {
            committed: states,
            prepared: Pends::new(alloc),
        };
        // No entry is prepared, so no lock comes back, and no line is said.
        let mut unsaid = Lines::new(alloc);
        let memory = recovered(alloc, &found, 1, &mut unsaid)?;
        Ok(Naming { memory, store })
    }
}
