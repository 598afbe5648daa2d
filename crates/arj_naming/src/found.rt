// Copies of what a recovery finds, by Uid.
ghost use Rattle.std.specs.Prelude.{◌≡◌, IfOk, map};
ghost use Rattle.std.specs.List.Sorted.{IsStrictlySortedBy};
ghost use Rattle.arj_base.specs.Order.{uid_order};
ghost use Rattle.arj_law_store.specs.store.Found.{by_uid};
ghost use Rattle.arj_store.specs.Pair.{uid_of};

use arj_base::{ObjectState, States, Uid};
use std::alloc::{AllocError, Global};
use std::collections::BTreeMap;

// A copy of a state.
fn copied(state: &ObjectState) -> Result<ObjectState, AllocError>
    ensures { IfOk result (λ copied. copied ≡ state.now) }
{
    let payload = state.payload.copy()?;
    Ok(ObjectState {
        uid: state.uid,
        class: state.class,
        version: state.version,
        writer: state.writer,
        payload,
        format: state.format,
    })
}

/// Copies of states.
pub fn copies(alloc: Global, states: &[ObjectState]) -> Result<States, AllocError>
    ensures { IfOk result (λ copies. copies ≡ states.now) }
{
    let mut copies = States::new(alloc);
    for state in states {
        let copy = copied(state)?;
        copies.push(copy)?;
    }
    Ok(copies)
}

/// Copies of states that stand by Uid, under their Uids.
pub fn states_by_uid(
    alloc: Global,
    states: &[ObjectState],
) -> Result<BTreeMap<Uid, ObjectState>, AllocError>
    requires { IsStrictlySortedBy uid_order (map uid_of states.now) }
    ensures { IfOk result (λ held. held.entries ≡ by_uid states.now) }
{
    let mut held = BTreeMap::new(alloc);
    for state in states {
        let copy = copied(state)?;
        held.insert(state.uid, copy)?;
    }
    Ok(held)
}
