// A look at what the files of a role say of one object, whatever they are.
ghost use Rattle.std.specs.Prelude.{◌≡◌, IfOk, OnOk, MatchOption, Some};
ghost use Rattle.arj_disk.specs.Counted.{counts};
ghost use Rattle.arj_disk.specs.Disk.{CountsCall, Lists};
ghost use Rattle.arj_store.specs.Pair.{Packs};
ghost use Rattle.arj_segment.specs.Says.{held, state_in as state_of};

use crate::numbering::numbers_in;
use arj_base::{ObjectState, Uid};
use arj_disk::{Disk, Role, Slot};
use arj_segment_file::packed_in;
use arj_store::{StoreFault, state_in};
use std::alloc::Global;

/// The state of an object in the newest segment that has one, if it is a state. Each segment is read, in increasing order.
pub fn newest_in<D: Disk>(
    alloc: Global,
    disk: &mut D,
    role: Role,
    names: &[Slot],
    uid: Uid,
) -> Result<Option<ObjectState>, StoreFault>
    requires { Lists (D.file disk.old) names.now }
    ensures state { IfOk result (Packs (held (D.file disk.old) role uid)) }
    ensures files { D.file disk.new ≡ D.file disk.old }
    ensures counts { CountsCall (counts D.Disk disk.old) (counts D.Disk disk.new) result StoreFault.Stopped }
{
    let numbers = numbers_in(alloc, role, names)?;
    let mut state = None;
    for number in numbers.as_slice() {
        look_into(alloc, disk, role, *number, uid, &mut state)?;
    }
    Ok(state)
}

// The state in one segment takes the place of one in an older segment.
fn look_into<D: Disk>(
    alloc: Global,
    disk: &mut D,
    role: Role,
    number: u64,
    uid: Uid,
    state: &mut Option<ObjectState>,
) -> Result<(), StoreFault>
    ensures ok { OnOk result (MatchOption (state_of uid (D.file disk.old (Slot.Segment role number))) (state.new ≡ state.old) (λ bytes. Packs (Some bytes) state.new)) }
    ensures files { D.file disk.new ≡ D.file disk.old }
    ensures counts { CountsCall (counts D.Disk disk.old) (counts D.Disk disk.new) result StoreFault.Stopped }
{
    let Some(bytes) = disk.read(alloc, Slot::Segment(role, number))? else {
        return Ok(());
    };
    let Some(packed) = packed_in(bytes.as_slice(), uid) else {
        return Ok(());
    };
    *state = state_in(alloc, packed)?;
    Ok(())
}
