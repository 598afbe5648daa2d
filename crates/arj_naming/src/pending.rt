// What is prepared of each entry, by one walk over all that is prepared.
ghost use Rattle.std.specs.Prelude.{◌≡◌, None, Some, OnOk, if◌then◌else◌};
ghost use Rattle.arj_base.specs.Uid.{uid_eq};
ghost use Rattle.arj_base.specs.declared.uid.Uid.{Uid};
ghost use Rattle.arj_naming.specs.Back.{prepared_as, prepared_in};
ghost use Rattle.arj_protocol.specs.Effect.{either};
ghost use Rattle.arj_protocol.specs.Order.{at_uid};

use crate::payload::{node_list, stores_of};
use arj_base::{NodeList, ObjectState, Uid};
use std::alloc::{AllocError, Global};
use std::collections::BTreeMap;

/// What is prepared of an entry: the action that prepared it, and the stores of its new state.
#[derive(Drop)]
pub struct Pending {
    pub action: Uid,
    pub stores: NodeList,
}

// Puts what an action has prepared of one entry, unless something is there.
fn put_state(
    alloc: Global,
    pending: &mut BTreeMap<Uid, Pending>,
    action: Uid,
    state: &ObjectState,
) -> Result<(), AllocError>
    ensures { OnOk result ((u : Uid) → at_uid u pending.new.entries ≡ either (at_uid u pending.old.entries) (if uid_eq state.now.uid u then Some (prepared_as (action, state.now)) else None)) }
{
    if pending.contains_key(&state.uid) {
        return Ok(());
    }
    let stores = node_list(alloc, stores_of(state))?;
    pending.insert(state.uid, Pending { action, stores })?;
    Ok(())
}

/// Puts what an action has prepared, where nothing is there.
pub fn put_states(
    alloc: Global,
    pending: &mut BTreeMap<Uid, Pending>,
    action: Uid,
    states: &[ObjectState],
) -> Result<(), AllocError>
    ensures { OnOk result ((u : Uid) → at_uid u pending.new.entries ≡ either (at_uid u pending.old.entries) (prepared_in action states.now u)) }
{
    for state in states {
        put_state(alloc, pending, action, state)?;
    }
    Ok(())
}
