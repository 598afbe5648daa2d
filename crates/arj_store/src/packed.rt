// Files of the store: packed states, and the files of prepared actions.
ghost use Rattle.std.specs.Prelude.{◌≡◌, ◌++◌, ◌+◌, ◌≤◌, Some, None, length, flat_map, IfOk, OnOk, OnErr, IfSome, MatchOption, take, drop};
ghost use Rattle.std.specs.List.{AllByRecursion};
ghost use Rattle.arj_base.specs.State.{state_bytes, StateInForm};
ghost use Rattle.arj_base.specs.Uid.{uid_bytes, UidFits};
ghost use Rattle.arj_base.specs.declared.uid.Uid.{Uid};
ghost use Rattle.arj_disk.specs.Counted.{counts};
ghost use Rattle.arj_disk.specs.Disk.{CountsCall};
ghost use Rattle.arj_base.specs.declared.state.ObjectState.{ObjectState};
ghost use Rattle.arj_disk.specs.Formed.{IsStateOf};
ghost use Rattle.arj_store.specs.Formed.{IsPreparedOf, prepared_bytes};
ghost use Rattle.arj_store.specs.Says.{named_in};
ghost use Rattle.arj_store.specs.Pair.{Packs};
ghost use Rattle.arj_store.specs.Recovery.{IsStateAt};
ghost use Rattle.arj_store.specs.Shadow.{slot_at};
ghost use Rattle.arj_disk.specs.declared.limits.TheConstants.{MOST_PREPARED};

use crate::StoreFault;
use crate::prepare::Place;
use arj_base::{Bytes, ObjectState, StateFault, Uid, Uids, unpack};
use arj_disk::Disk;
use std::alloc::{AllocError, Global};

/// The state in a file, which packs the Uid of its name, as each of a formed disk does. Only memory can be wanting.
pub fn read_state<D: Disk>(
    alloc: Global,
    disk: &mut D,
    place: Place,
    uid: Uid,
) -> Result<Option<ObjectState>, StoreFault>
    requires { IfSome (D.file disk.old (slot_at place uid)) (IsStateOf uid) }
    ensures state { IfOk result (λ found. MatchOption found (D.file disk.old (slot_at place uid) ≡ None) (IsStateAt place (D.file disk.old) uid)) }
    ensures only { IfOk result (λ found. IfSome found (λ s. (t : ObjectState) → StateInForm t → D.file disk.old (slot_at place uid) ≡ Some (state_bytes t) → t ≡ s)) }
    ensures files { D.file disk.new ≡ D.file disk.old }
    ensures counts { CountsCall (counts D.Disk disk.old) (counts D.Disk disk.new) result StoreFault.Stopped }
{
    let Some(bytes) = disk.read(alloc, place.slot(uid))? else {
        return Ok(None);
    };
    let state = unpack_formed(alloc, uid, bytes.as_slice())?;
    Ok(Some(state))
}

/// The state that bytes pack, if they pack one.
pub fn state_in(alloc: Global, bytes: &[u8]) -> Result<Option<ObjectState>, AllocError>
    ensures { IfOk result (Packs (Some bytes.now)) }
{
    match unpack(alloc, bytes) {
        Ok(state) => Ok(Some(state)),
        Err(StateFault::Memory) => Err(AllocError),
        Err(_) => Ok(None),
    }
}

// The state that these bytes pack, which pack one.
fn unpack_formed(alloc: Global, uid: Uid, bytes: &[u8]) -> Result<ObjectState, AllocError>
    requires { IsStateOf uid bytes.now }
    ensures packed { IfOk result (λ s. bytes.now ≡ state_bytes s) }
    ensures in_form { IfOk result StateInForm }
    ensures only { IfOk result (λ s. (t : ObjectState) → StateInForm t → state_bytes t ≡ bytes.now → t ≡ s) }
    ensures own { IfOk result (λ s. s.uid ≡ uid) }
{
    match unpack(alloc, bytes) {
        Ok(state) => Ok(state),
        Err(StateFault::Memory) => Err(AllocError),
        Err(_) => unreachable!(),
    }
}

/// The file of a prepared action: `ARJP`, the action, the count of its objects, and the objects.
#[tactic(auto, using(std::proofs::lemmas::List::append_assoc))]
pub fn prepared_file(alloc: Global, act: Uid, objects: &[Uid]) -> Result<Bytes, AllocError>
    requires { length objects.now ≤ MOST_PREPARED }
    ensures bytes { IfOk result (λ bytes. bytes ≡ prepared_bytes act objects.now) }
    ensures form { IfOk result (IsPreparedOf act) }
    ensures fit { OnOk result (AllByRecursion UidFits objects.now) }
{
    let count = objects.len() as u8;
    let mut bytes = Bytes::new(alloc);
    bytes.extend(b"ARJP")?;
    bytes.extend(&act.to_bytes())?;
    bytes.push(count)?;
    put_uids(&mut bytes, objects)?;
    Ok(bytes)
}

// Puts Uids at the end, one behind the other.
#[tactic(auto, using(std::proofs::lemmas::List::append_assoc))]
fn put_uids(bytes: &mut Bytes, uids: &[Uid]) -> Result<(), AllocError>
    ensures ok { OnOk result (bytes.new ≡ bytes.old ++ flat_map uid_bytes uids.now) }
    ensures fit { OnOk result (AllByRecursion UidFits uids.now) }
{
    for uid in uids {
        bytes.extend(&uid.to_bytes())?;
    }
    Ok(())
}

/// The objects that a prepared file names, in its order.
pub fn objects_in(alloc: Global, bytes: &[u8]) -> Result<Uids, AllocError>
    requires { (a : Uid) × IsPreparedOf a bytes.now }
    ensures { IfOk result (λ objects. objects ≡ named_in bytes.now) }
{
    let mut objects = Uids::new(alloc);
    let count = usize::from(bytes[20]);
    for i in 0..count {
        objects.push(uid_at(bytes, 21 + 16 * i))?;
    }
    Ok(objects)
}

// The Uid in the 16 bytes from a place on.
fn uid_at(bytes: &[u8], at: usize) -> Uid
    requires { at + 16 ≤ length bytes.now }
    ensures bytes { uid_bytes result ≡ take 16 (drop at bytes.now) }
    ensures fits { UidFits result }
{
    let mut field = [0; 16];
    field.copy_from_slice(&bytes[at..at + 16]);
    Uid::from_bytes(&field)
}
