// What all segments of a role say together: the newest state of each object, and which segment has it.
ghost use Rattle.std.specs.Prelude.{◌≡◌, None, OnOk, IfOk};
ghost use Rattle.std.specs.List.{IsDistinct};
ghost use Rattle.arj_base.specs.Uid.{uid_eq};
ghost use Rattle.arj_base.specs.declared.uid.Uid.{Uid};
ghost use Rattle.arj_disk.specs.Counted.{counts};
ghost use Rattle.arj_disk.specs.Disk.{CountsCall};
ghost use Rattle.arj_store.specs.Table.{at};
ghost use Rattle.arj_segment.specs.Formed.{IsFormed};
ghost use Rattle.arj_segment.specs.Says.{held, place, segments};
ghost use Rattle.arj_segment.specs.Tables.{AreNumbers, Gathers, Unpacks, kept_state};

use crate::kept::set_each;
use arj_base::{ObjectState, States};
use arj_disk::{Disk, Role, Slot};
use arj_segment_file::states_of;
use arj_store::{StoreFault, Table, objects_of_states};
use std::alloc::{AllocError, Global};

/// The committed state of each object, and the number of the segment that has it.
#[derive(Drop)]
pub struct Gathered {
    pub places: Table<u64>,
    pub states: Table<ObjectState>,
}

impl Gathered {
    // Nothing is committed.
    fn new(alloc: Global) -> Gathered
        ensures places { (u : Uid) → at result.places u ≡ None }
        ensures states { (u : Uid) → at result.states u ≡ None }
    {
        Gathered {
            places: Table::new(alloc),
            states: Table::new(alloc),
        }
    }
}

/// Reads each segment of a role, in increasing order.
pub fn gather<D: Disk>(
    alloc: Global,
    disk: &mut D,
    role: Role,
    numbers: &[u64],
) -> Result<Gathered, StoreFault>
    requires formed { IsFormed (D.file disk.old) role }
    requires numbers { AreNumbers (segments (D.file disk.old) role) numbers.now }
    ensures places { IfOk result (λ gathered. (u : Uid) → at gathered.places u ≡ place (segments (D.file disk.old) role) u) }
    ensures states { IfOk result (λ gathered. (u : Uid) → Unpacks u (held (D.file disk.old) role u) (at gathered.states u)) }
    ensures files { D.file disk.new ≡ D.file disk.old }
    ensures counts { CountsCall (counts D.Disk disk.old) (counts D.Disk disk.new) result StoreFault.Stopped }
{
    let mut gathered = Gathered::new(alloc);
    for number in numbers {
        gather_segment(alloc, disk, role, *number, &mut gathered)?;
    }
    Ok(gathered)
}

// Reads one segment: what it has of an object takes the place of what older ones have.
fn gather_segment<D: Disk>(
    alloc: Global,
    disk: &mut D,
    role: Role,
    number: u64,
    gathered: &mut Gathered,
) -> Result<(), StoreFault>
    requires { IsFormed (D.file disk.old) role }
    ensures ok { OnOk result (Gathers (D.file disk.old (Slot.Segment role number)) number (at gathered.old.places) (at gathered.old.states) (at gathered.new.places) (at gathered.new.states)) }
    ensures files { D.file disk.new ≡ D.file disk.old }
    ensures counts { CountsCall (counts D.Disk disk.old) (counts D.Disk disk.new) result StoreFault.Stopped }
{
    let Some(bytes) = disk.read(alloc, Slot::Segment(role, number))? else {
        return Ok(());
    };
    let states = states_of(alloc, bytes.as_slice())?;
    let objects = objects_of_states(alloc, states.as_slice())?;
    set_each(&mut gathered.places, objects.as_slice(), number)?;
    keep_states(&mut gathered.states, states)?;
    Ok(())
}

// Keeps each state under its Uid, in the place of what is there.
fn keep_states(table: &mut Table<ObjectState>, states: States) -> Result<(), AllocError>
    ensures { OnOk result ((u : Uid) → at table.new u ≡ kept_state u states (at table.old u)) }
{
    for state in states.into_vec() {
        table.set(state.uid, state)?;
    }
    Ok(())
}
