// Whom the steps of a commit ask, and what each store is sent.
ghost use Rattle.std.specs.Prelude.{◌≡◌, ◌++◌, ◌∷◌, ◌||◌, [], true, false, filter, map, find, if◌then◌else◌, IfOk, OnOk, option_copied};
ghost use Rattle.std.specs.List.{flat_map};
ghost use Rattle.arj_base.specs.Uid.{uid_eq, object};
ghost use Rattle.arj_protocol.specs.Commit.{Used, Plan, servers_of, targets_of, participants, has_record, state_by, included_of, is_marked};
ghost use Rattle.arj_protocol.specs.Order.{with_number, number_set};
ghost use Rattle.arj_commit.specs.Fits.{PlanFits};
ghost use Rattle.arj_commit.specs.Marks.{is_sent};
ghost use Rattle.arj_commit.specs.Tolds.{AreInForm};
ghost use Rattle.arj_commit.specs.Sets.{added, is_among, stores_if, targets_with, servers_in, naming_if, part_in, recorded};

use crate::marks::has_included;
use crate::sets::{has, put, put_all};
use crate::states::{is_among, state_of};
use crate::{NAMING, Plan, Used};
use arj_base::{NodeList, ObjectState};
use std::alloc::{AllocError, Global};

// Puts the server of a called object into a set.
fn put_server(set: &mut Vec<u8>, used: &Used) -> Result<(), AllocError>
    ensures { OnOk result (set.new.items ≡ (if used.now.called then with_number used.now.server set.old.items else set.old.items)) }
{
    if !used.called {
        return Ok(());
    }
    put(set, used.server)
}

// Puts the servers of these objects into a set.
fn put_servers(set: &mut Vec<u8>, used: &[Used]) -> Result<(), AllocError>
    ensures { OnOk result (set.new.items ≡ added (map (λ u. u.server) (filter (λ u. u.called) used.now)) set.old.items) }
{
    let mut i = used.len();
    while i > 0 {
        i -= 1;
        put_server(set, &used[i])?;
    }
    Ok(())
}

/// The servers with calls.
#[tactic(auto, using(crate::proofs::NodeSets::added_nil))]
pub fn servers_of(alloc: Global, used: &[Used]) -> Result<NodeList, AllocError>
    ensures { IfOk result (λ servers. servers ≡ servers_in used.now) }
{
    let mut set = Vec::new(alloc);
    put_servers(&mut set, used)?;
    Ok(NodeList::from_vec(set))
}

// Puts the stores that prepare for an object into a set.
#[tactic(auto, using(crate::proofs::NodeSets::added_append))]
fn put_stores(set: &mut Vec<u8>, used: &Used, changed: bool) -> Result<(), AllocError>
    ensures { OnOk result (set.new.items ≡ added (stores_if changed used.now) set.old.items) }
{
    put_all(set, used.joins.as_slice())?;
    if !changed {
        return Ok(());
    }
    put_all(set, used.stores.as_slice())
}

// Whether the object is among the states of either list.
fn is_in_either(more: &[ObjectState], changed: &[ObjectState], x: u16) -> bool
    ensures { result ≡ (is_among more.now x || is_among changed.now x) }
{
    is_among(more, x) || is_among(changed, x)
}

/// The stores that prepare, where these states have changed and more.
pub fn targets_with(
    alloc: Global,
    more: &[ObjectState],
    changed: &[ObjectState],
    used: &[Used],
) -> Result<NodeList, AllocError>
    ensures { IfOk result (λ targets. targets ≡ targets_with more.now changed.now used.now) }
{
    let mut set = Vec::new(alloc);
    let mut i = used.len();
    while i > 0 {
        i -= 1;
        let object = &used[i];
        put_stores(&mut set, object, is_in_either(more, changed, object.x))?;
    }
    Ok(NodeList::from_vec(set))
}

/// What a store is sent of an object, if anything.
pub fn state_for<'a>(
    store: u8,
    used: &'a Used,
    changed: &'a [ObjectState],
) -> Option<&'a ObjectState>
    ensures { option_copied result ≡ state_by store used.now (find (λ s. uid_eq s.uid (object used.now.x)) changed.now) }
{
    let joins = has(used.joins.as_slice(), store);
    match state_of(changed, used.x) {
        Some(state) => {
            if has(used.stores.as_slice(), store) || joins {
                Some(state)
            } else {
                None
            }
        }
        None => { if joins { used.loaded.as_ref() } else { None } }
    }
}

/// Whether a store is sent something of an object.
pub fn is_sent(store: u8, used: &Used, changed: &[ObjectState]) -> bool
    ensures { result ≡ is_sent store changed.now used.now }
{
    state_for(store, used, changed).is_some()
}

/// The nodes that take part in a commit: the servers with calls, these stores, and naming where it confirmed.
#[tactic(auto, using(crate::proofs::NodeSets::number_set_append, crate::proofs::NodeSets::added_append, crate::proofs::NodeSets::added_nil))]
pub fn part_in(
    alloc: Global,
    used: &[Used],
    prepared: &[u8],
    confirmed: bool,
) -> Result<NodeList, AllocError>
    ensures { IfOk result (λ nodes. nodes ≡ part_in used.now prepared.now confirmed) }
{
    let servers = servers_of(alloc, used)?;
    let mut set = Vec::new(alloc);
    put_naming(&mut set, confirmed)?;
    put_all(&mut set, prepared)?;
    put_all(&mut set, servers.as_slice())?;
    Ok(NodeList::from_vec(set))
}

/// The nodes that take part in the commit of a plan.
pub fn participants(alloc: Global, plan: &Plan) -> Result<NodeList, AllocError>
    requires { PlanFits plan.now }
    ensures nodes { IfOk result (λ nodes. nodes ≡ participants plan.now) }
    ensures form { IfOk result AreInForm }
{
    let used = plan.used.as_slice();
    part_in(alloc, used, plan.prepared.as_slice(), plan.confirmed)
}

// Puts naming's node into a set, where it confirmed.
fn put_naming(set: &mut Vec<u8>, confirmed: bool) -> Result<(), AllocError>
    ensures { OnOk result (set.new.items ≡ added (naming_if confirmed) set.old.items) }
{
    if !confirmed {
        return Ok(());
    }
    put(set, NAMING)
}

/// Whether there is a record of a commit: a store prepared, or naming was asked for an exclusion or an inclusion.
pub fn is_recorded(used: &[Used], prepared: &[u8], excluded: &[(u16, u8)], confirmed: bool) -> bool
    ensures { result ≡ recorded used.now prepared.now excluded.now confirmed }
{
    !prepared.is_empty() || confirmed && (!excluded.is_empty() || has_included(excluded, used))
}
