// What a recovery reads.
ghost use Rattle.std.specs.Prelude.{◌≡◌, IfOk, OnOk};
ghost use Rattle.arj_base.specs.declared.uid.Uid.{Uid};
ghost use Rattle.arj_disk.specs.Counted.{counts};
ghost use Rattle.arj_disk.specs.Disk.{CountsCall, Lists};
ghost use Rattle.arj_disk.specs.FileMap.{FileMap};
ghost use Rattle.arj_store.specs.Pair.{Finds};
ghost use Rattle.arj_store.specs.Table.{at};
ghost use Rattle.arj_segment.specs.Formed.{IsFormed};
ghost use Rattle.arj_segment.specs.Kept.{Keeps};
ghost use Rattle.arj_segment.specs.Says.{held, pair_of, pend};
ghost use Rattle.arj_segment.specs.Tables.{KeepsPend, ReadsPending, ListsPends, Unpacks};

use crate::gathering::gather;
use crate::kept::Kept;
use crate::numbering::{acts_in, numbers_in};
use arj_base::{ObjectState, Uid};
use arj_disk::{Disk, Role, Slot};
use arj_segment_file::states_of;
use arj_store::{Found, Pends, StoreFault, Table, objects_of_states};
use std::alloc::{AllocError, Global};

/// What a disk with these names has, and what is told of it.
pub fn recover_files<D: Disk>(
    alloc: Global,
    disk: &mut D,
    role: Role,
    names: &[Slot],
) -> Result<(Kept, Found), StoreFault>
    requires formed { IsFormed (D.file disk.old) role }
    requires lists { Lists (D.file disk.old) names.now }
    ensures keeps { IfOk result (λ r. Keeps role r.0 (D.file disk.old)) }
    ensures found { IfOk result (λ r. Finds role (pair_of (D.file disk.old) role) r.1) }
    ensures files { D.file disk.new ≡ D.file disk.old }
    ensures counts { CountsCall (counts D.Disk disk.old) (counts D.Disk disk.new) result StoreFault.Stopped }
{
    let mut kept = Kept::new(alloc);
    let pends = read_pendings(alloc, disk, role, names, &mut kept)?;
    let numbers = numbers_in(alloc, role, names)?;
    let gathered = gather(alloc, disk, role, numbers.as_slice())?;
    kept.places = gathered.places;
    kept.numbers = numbers;
    let found = found_of(alloc, role, gathered.states, pends)?;
    Ok((kept, found))
}

// Reads each Pending file of the role.
fn read_pendings<D: Disk>(
    alloc: Global,
    disk: &mut D,
    role: Role,
    names: &[Slot],
    kept: &mut Kept,
) -> Result<Pends, StoreFault>
    requires formed { IsFormed (D.file disk.old) role }
    requires lists { Lists (D.file disk.old) names.now }
    requires actions { (a : Uid) → at kept.old.actions a ≡ None }
    requires holdings { (u : Uid) → at kept.old.holdings u ≡ None }
    ensures keeps { OnOk result (KeepsPend (pend (D.file disk.old) role) (at kept.new.actions) (at kept.new.holdings)) }
    ensures pends { IfOk result (ListsPends (pend (D.file disk.old) role)) }
    ensures files { D.file disk.new ≡ D.file disk.old }
    ensures counts { CountsCall (counts D.Disk disk.old) (counts D.Disk disk.new) result StoreFault.Stopped }
{
    let acts = acts_in(alloc, role, names)?;
    let mut pends = Pends::new(alloc);
    for act in acts.as_slice() {
        read_pending(alloc, disk, role, *act, kept, &mut pends)?;
    }
    Ok(pends)
}

// Reads the Pending file of one action.
fn read_pending<D: Disk>(
    alloc: Global,
    disk: &mut D,
    role: Role,
    act: Uid,
    kept: &mut Kept,
    pends: &mut Pends,
) -> Result<(), StoreFault>
    requires { IsFormed (D.file disk.old) role }
    ensures ok { OnOk result (ReadsPending (pend (D.file disk.old) role act) act pends.old (at kept.old.actions) (at kept.old.holdings) pends.new (at kept.new.actions) (at kept.new.holdings)) }
    ensures files { D.file disk.new ≡ D.file disk.old }
    ensures counts { CountsCall (counts D.Disk disk.old) (counts D.Disk disk.new) result StoreFault.Stopped }
{
    let Some(bytes) = disk.read(alloc, Slot::Pending(role, act))? else {
        return Ok(());
    };
    let states = states_of(alloc, bytes.as_slice())?;
    let objects = objects_of_states(alloc, states.as_slice())?;
    kept.add(act, objects)?;
    pends.push((act, states))?;
    Ok(())
}

// What the recovery tells: for the object store nothing.
fn found_of(
    alloc: Global,
    role: Role,
    states: Table<ObjectState>,
    pends: Pends,
) -> Result<Found, AllocError>
    ensures { IfOk result (λ found. (file : FileMap) → ((u : Uid) → Unpacks u (held file role u) (at states u)) → ListsPends (pend file role) pends → Finds role (pair_of file role) found) }
{
    match role {
        Role::Store => Ok(Found::new(alloc)),
        Role::Names => Ok(Found {
            committed: states.into_values(alloc)?,
            prepared: pends,
        }),
    }
}
