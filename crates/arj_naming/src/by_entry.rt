// The actions that have prepared each entry: who asks about an entry looks at these alone.
ghost use Rattle.std.specs.Prelude.{◌≡◌, ◌&&◌, ◌||◌, false, not, OnErr, OnOk};
ghost use Rattle.std.specs.List.Sorted.{IsStrictlySortedBy};
ghost use Rattle.std.specs.Map.{keys_of};
ghost use Rattle.arj_base.specs.Order.{uid_order};
ghost use Rattle.arj_base.specs.Uid.{uid_eq};
ghost use Rattle.arj_base.specs.declared.uid.Uid.{Uid};
ghost use Rattle.arj_naming.specs.ByEntry.{AreByEntry, is_of, stands_under};
ghost use Rattle.arj_protocol.specs.Order.{at_uid, put_uid, without_uid};

use crate::uids::drop_uid;
use arj_base::{ObjectState, States, Uid};
use std::alloc::{AllocError, Global};
use std::collections::{BTreeMap, BTreeSet};

// Puts an action under an entry.
fn put(
    alloc: Global,
    by_entry: &mut BTreeMap<Uid, BTreeSet<Uid>>,
    uid: Uid,
    action: Uid,
) -> Result<(), AllocError>
    ensures put { OnOk result ((u act : Uid) → stands_under by_entry.new.entries u act ≡ (stands_under by_entry.old.entries u act || (uid_eq uid u && uid_eq action act))) }
    ensures err { OnErr result ((u act : Uid) → stands_under by_entry.new.entries u act ≡ stands_under by_entry.old.entries u act) }
{
    if let Some(actions) = by_entry.get_mut(&uid) {
        actions.insert(action)?;
        return Ok(());
    }
    let mut actions = BTreeSet::new(alloc);
    actions.insert(action)?;
    by_entry.insert(uid, actions)?;
    Ok(())
}

/// Puts an action under the entries of these states. Where memory is wanting it stands under some of them.
pub fn put_all(
    alloc: Global,
    by_entry: &mut BTreeMap<Uid, BTreeSet<Uid>>,
    action: Uid,
    states: &[ObjectState],
) -> Result<(), AllocError>
    ensures all { OnOk result ((u act : Uid) → stands_under by_entry.new.entries u act ≡ (stands_under by_entry.old.entries u act || is_of action states.now u act)) }
    ensures others { (u act : Uid) → is_of action states.now u act ≡ false → stands_under by_entry.new.entries u act ≡ stands_under by_entry.old.entries u act }
{
    for state in states {
        put(alloc, by_entry, state.uid, action)?;
    }
    Ok(())
}

// Takes an action away from under an entry. An entry under which nobody is left stays: it may be prepared again.
fn take(by_entry: &mut BTreeMap<Uid, BTreeSet<Uid>>, uid: Uid, action: Uid)
    ensures { (u act : Uid) → stands_under by_entry.new.entries u act ≡ (stands_under by_entry.old.entries u act && not (uid_eq uid u && uid_eq action act)) }
{
    if let Some(actions) = by_entry.get_mut(&uid) {
        drop_uid(actions, action);
    }
}

/// Takes an action away from under the entries of these states.
pub fn take_all(by_entry: &mut BTreeMap<Uid, BTreeSet<Uid>>, action: Uid, states: &[ObjectState])
    ensures { (u act : Uid) → stands_under by_entry.new.entries u act ≡ (stands_under by_entry.old.entries u act && not (is_of action states.now u act)) }
{
    for state in states {
        take(by_entry, state.uid, action);
    }
}

/// Takes out what an action has prepared, and the action away from under it.
pub fn take_prepared(
    pend: &mut BTreeMap<Uid, States>,
    by_entry: &mut BTreeMap<Uid, BTreeSet<Uid>>,
    action: Uid,
) -> Option<States>
    ensures states { result ≡ at_uid action pend.old.entries }
    ensures pend { pend.new.entries ≡ without_uid action pend.old.entries }
    ensures by_action { IsStrictlySortedBy uid_order (keys_of pend.old.entries) }
    ensures by_entry { AreByEntry pend.old.entries by_entry.old.entries → AreByEntry pend.new.entries by_entry.new.entries }
{
    let _by_action = pend.len();
    let states = pend.remove(&action)?;
    take_all(by_entry, action, states.as_slice());
    Some(states)
}

/// Puts what an action has prepared in the place of what it had prepared before, and the action under it. Where memory is
/// wanting the action has prepared nothing.
pub fn put_prepared(
    alloc: Global,
    pend: &mut BTreeMap<Uid, States>,
    by_entry: &mut BTreeMap<Uid, BTreeSet<Uid>>,
    action: Uid,
    states: States,
) -> Result<(), AllocError>
    ensures pend { OnOk result (pend.new.entries ≡ put_uid action states pend.old.entries) }
    ensures err { OnErr result (pend.new.entries ≡ without_uid action pend.old.entries) }
    ensures by_entry { AreByEntry pend.old.entries by_entry.old.entries → AreByEntry pend.new.entries by_entry.new.entries }
{
    take_prepared(pend, by_entry, action);
    match put_all(alloc, by_entry, action, states.as_slice()) {
        Ok(()) => {}
        Err(e) => {
            take_all(by_entry, action, states.as_slice());
            return Err(e);
        }
    }
    match pend.insert(action, states) {
        Ok(_) => Ok(()),
        Err(failed) => {
            take_all(by_entry, action, failed.value.1.as_slice());
            Err(AllocError)
        }
    }
}
