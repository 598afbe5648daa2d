// What the disks hold of the bank.
ghost use Rattle.std.specs.Prelude.{◌≡◌, ◌+◌, [], Some, IfOk, IsErrOf, OnOk};
ghost use Rattle.arj_bank.specs.Balances.{AddUpTo, HasBalance, IsBalance, ListsFirst, capped, first_node, held_by, is_number, node_files, node_holds, number_in, reader};
ghost use Rattle.arj_gen.specs.declared.bank.TheConstants.{NODES};
ghost use Rattle.arj_store.specs.Pair.{Packs};
ghost use Rattle.arj_store.specs.declared.answer.StoreFault.{StoreFault};
ghost use Rattle.arj_world.specs.Disks.{HasStopped, HaveMoved, HaveNotStopped};

use arj_base::{ObjectState, Uid, entry_uid, object_uid};
use arj_class::{ClassFault, Value};
use arj_disk::{Disk, Rack, Role};
use arj_entry::Entry;
use arj_gen::{ACCOUNTS, NODES};
use arj_store::{ObjectStore, StoreFault};
use std::alloc::{AllocError, Global};

// Whether a number is that of a node of the bank.
fn is_number(node: u8) -> bool
    ensures { result ≡ is_number node }
{
    1 <= node && node <= NODES
}

// The committed state that the disk of a node has of an object or an entry. There is no disk for a number that is no node of the bank.
#[tactic(auto, using(arj_world::proofs::Disks::moved_call, arj_world::proofs::Disks::moved_none, arj_world::proofs::Disks::stopped_at, arj_world::proofs::Disks::unstopped_none))]
fn committed_at<D: Disk, O: ObjectStore>(
    alloc: Global,
    rack: &mut Rack<D>,
    node: u8,
    role: Role,
    uid: Uid,
) -> Result<Option<ObjectState>, StoreFault>
    ensures packs { IfOk result (λ state. Packs (held_by O.ObjectStore (node_files D.file rack.old node) role uid) state) }
    ensures files { node_files D.file rack.new ≡ node_files D.file rack.old }
    ensures moved { HaveMoved D.Disk NODES [] rack.old rack.new }
    ensures stopped { IsErrOf result StoreFault.Stopped → HasStopped D.Disk rack.old rack.new }
    ensures unstopped { OnOk result (HaveNotStopped D.Disk rack.old rack.new) }
{
    if !is_number(node) {
        return Ok(None);
    }
    O::look(alloc, rack.disk(node), role, uid)
}

// The first of these nodes, 0 where there is none.
fn first_of(nodes: &[u8]) -> u8
    ensures { result ≡ first_node nodes.now }
{
    match nodes {
        [] => 0,
        [first, ..] => *first,
    }
}

// The first store that an entry lists, 0 where it lists none.
fn first_store(alloc: Global, state: Option<ObjectState>) -> Result<u8, AllocError>
    ensures { IfOk result (λ store. ListsFirst state store) }
{
    let Some(state) = state else {
        return Ok(0);
    };
    match Entry::restore(alloc, state.payload.as_slice()) {
        Ok(listed) => Ok(first_of(listed.stores.as_slice())),
        Err(ClassFault::Memory) => Err(AllocError),
        Err(ClassFault::Payload) => Ok(0),
    }
}

// The balance of a value, 0 where it is no account.
fn number_of(value: &Value) -> u64
    ensures { result ≡ number_in value.now }
{
    match value {
        Value::Account(account) => account.balance(),
        _ => 0,
    }
}

// The balance of a state, 0 where it is no account's.
fn balance_of(alloc: Global, state: Option<ObjectState>) -> Result<u64, AllocError>
    ensures { IfOk result (λ balance. HasBalance state balance) }
{
    let Some(state) = state else {
        return Ok(0);
    };
    match Value::restore_state(alloc, state.class, state.format, state.payload.as_slice()) {
        Ok(value) => Ok(number_of(&value)),
        Err(ClassFault::Memory) => Err(AllocError),
        Err(ClassFault::Payload) => Ok(0),
    }
}

// The balance of an account: of its committed state on the first store that naming lists for it, 0 where there is none.
fn balance<D: Disk, O: ObjectStore>(
    alloc: Global,
    rack: &mut Rack<D>,
    x: u16,
) -> Result<u64, StoreFault>
    ensures balance { IfOk result (λ balance. IsBalance (node_holds (reader D.Disk (held_by O.ObjectStore)) rack.old) x balance) }
    ensures files { node_files D.file rack.new ≡ node_files D.file rack.old }
    ensures moved { HaveMoved D.Disk NODES [] rack.old rack.new }
    ensures stopped { IsErrOf result StoreFault.Stopped → HasStopped D.Disk rack.old rack.new }
    ensures unstopped { OnOk result (HaveNotStopped D.Disk rack.old rack.new) }
{
    let named = committed_at::<D, O>(alloc, rack, 1, Role::Names, entry_uid(x))?;
    let store = first_store(alloc, named)?;
    match committed_at::<D, O>(alloc, rack, store, Role::Store, object_uid(x)) {
        Ok(state) => {
            let balance = balance_of(alloc, state)?;
            Ok(balance)
        }
        Err(fault) => Err(fault),
    }
}

// A sum of 64 bits, which stands still at the largest number.
fn added(sum: u64, balance: u64) -> u64
    ensures { result ≡ capped (sum + balance) }
{
    sum.saturating_add(balance)
}

/// The sum of the balances of all accounts, each read by this object store from the first store that naming lists for it. It
/// stands still at the largest number of 64 bits. Stopped: a disk was stopped.
pub fn sum<D: Disk, O: ObjectStore>(alloc: Global, rack: &mut Rack<D>) -> Result<u64, StoreFault>
    ensures sum { IfOk result (λ sum. AddUpTo (node_holds (reader D.Disk (held_by O.ObjectStore)) rack.old) ACCOUNTS sum) }
    ensures files { node_files D.file rack.new ≡ node_files D.file rack.old }
    ensures moved { HaveMoved D.Disk NODES [] rack.old rack.new }
    ensures stopped { IsErrOf result StoreFault.Stopped → HasStopped D.Disk rack.old rack.new }
    ensures unstopped { OnOk result (HaveNotStopped D.Disk rack.old rack.new) }
{
    let mut sum: u64 = 0;
    for k in 0..ACCOUNTS {
        match balance::<D, O>(alloc, rack, k + 1) {
            Ok(balance) => sum = added(sum, balance),
            Err(fault) => return Err(fault),
        }
    }
    Ok(sum)
}
