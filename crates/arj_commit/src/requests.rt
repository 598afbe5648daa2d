// What the steps of a commit ask.
ghost use Rattle.std.specs.Prelude.{◌≡◌, ◌++◌, map, filter, IfOk, OnOk};
ghost use Rattle.std.specs.Option.{option_to_list};
ghost use Rattle.arj_msg.specs.Ask.{request};
ghost use Rattle.arj_protocol.specs.Commit.{vote_ask, confirm_ask, states_for, is_at_server, least_of};
ghost use Rattle.arj_protocol.specs.Words.ask;
ghost use Rattle.arj_commit.specs.Requests.{head_of, binds_at, grants_of, lesser_of, states_in, votes, prepares, state_in};

use crate::marks::included;
use crate::states::copy_state;
use crate::whom::state_for;
use crate::{Plan, Used};
use arj_base::{ObjectState, Seq, States};
use arj_msg::{Binds, Confirm, Grants, Head, Message, Prepare, Vote};
use std::alloc::{AllocError, Global};

/// Messages with their nodes.
pub type Requests = Seq<(u8, Message)>;

// Who asks.
fn head_of(plan: &Plan) -> Head
    ensures { result ≡ head_of plan.now }
{
    Head {
        path: plan.path,
        req: plan.req,
    }
}

// The lesser of two numbers, the second if there is one.
fn least(found: Option<u32>, inc: u32) -> u32
    ensures { result ≡ lesser_of found inc }
{
    match found {
        Some(least) => least.min(inc),
        None => inc,
    }
}

// The least incarnation of a server's objects, 0 without one.
fn least_at(used: &[Used], server: u8) -> u32
    ensures { result ≡ least_of (map (λ u. u.inc) (filter (is_at_server server) used.now)) }
{
    let mut found = None;
    for object in used {
        if object.called && object.server == server {
            found = Some(least(found, object.inc));
        }
    }
    found.unwrap_or(0)
}

// The objects at a server, with their bindings.
fn binds_at(alloc: Global, used: &[Used], server: u8) -> Result<Binds, AllocError>
    ensures { IfOk result (λ binds. binds ≡ binds_at server used.now) }
{
    let mut binds = Binds::new(alloc);
    for object in used {
        if object.called && object.server == server {
            binds.push((object.x, object.binding))?;
        }
    }
    Ok(binds)
}

// What a server is asked for its vote.
fn vote(alloc: Global, plan: &Plan, server: u8) -> Result<Message, AllocError>
    ensures { IfOk result (λ m. m ≡ request (head_of plan.now) (vote_ask plan.now server)) }
{
    let used = plan.used.as_slice();
    Ok(Message::Vote(Vote {
        head: head_of(plan),
        server_inc: least_at(used, server),
        objects: binds_at(alloc, used, server)?,
        ends: plan.ends.copy()?,
    }))
}

/// What these servers are asked.
pub fn votes(alloc: Global, plan: &Plan, servers: &[u8]) -> Result<Requests, AllocError>
    ensures { IfOk result (λ all. all ≡ votes plan.now servers.now) }
{
    let mut all = Requests::new(alloc);
    for server in servers {
        all.push((*server, vote(alloc, plan, *server)?))?;
    }
    Ok(all)
}

// The states of these objects that a store is sent.
fn states_in(
    alloc: Global,
    store: u8,
    changed: &[ObjectState],
    used: &[Used],
) -> Result<States, AllocError>
    ensures { IfOk result (λ states. states ≡ states_in store changed.now used.now) }
{
    let mut states = States::new(alloc);
    for object in used {
        put_state(&mut states, store, changed, object)?;
    }
    Ok(states)
}

// Puts the state that a store is sent of an object at the end, if there is one.
fn put_state(
    states: &mut States,
    store: u8,
    changed: &[ObjectState],
    used: &Used,
) -> Result<(), AllocError>
    ensures { OnOk result (states.new ≡ states.old ++ option_to_list (state_in store changed.now used.now)) }
{
    match state_for(store, used, changed) {
        Some(state) => states.push(copy_state(state)?),
        None => Ok(()),
    }
}

// What a store is asked to prepare.
fn prepare(alloc: Global, plan: &Plan, store: u8) -> Result<Message, AllocError>
    ensures { IfOk result (λ m. m ≡ request (head_of plan.now) (ask.Prepare (states_for store plan.now))) }
{
    Ok(Message::Prepare(Prepare {
        head: head_of(plan),
        states: states_in(alloc, store, plan.changed.as_slice(), plan.used.as_slice())?,
    }))
}

/// What these stores are asked.
pub fn prepares(alloc: Global, plan: &Plan, stores: &[u8]) -> Result<Requests, AllocError>
    ensures { IfOk result (λ all. all ≡ prepares plan.now stores.now) }
{
    let mut all = Requests::new(alloc);
    for store in stores {
        all.push((*store, prepare(alloc, plan, *store)?))?;
    }
    Ok(all)
}

// The used objects, with the naming incarnations of their grants.
fn grants_of(alloc: Global, used: &[Used]) -> Result<Grants, AllocError>
    ensures { IfOk result (λ grants. grants ≡ grants_of used.now) }
{
    let mut grants = Grants::new(alloc);
    for object in used {
        grants.push((object.x, object.grant))?;
    }
    Ok(grants)
}

/// What naming is asked to confirm.
pub fn confirm(alloc: Global, plan: &Plan) -> Result<Message, AllocError>
    ensures { IfOk result (λ m. m ≡ request (head_of plan.now) (confirm_ask plan.now)) }
{
    let used = plan.used.as_slice();
    let excluded = plan.excluded.as_slice();
    Ok(Message::Confirm(Confirm {
        head: head_of(plan),
        objects: grants_of(alloc, used)?,
        excluded: plan.excluded.copy()?,
        included: included(alloc, excluded, used)?,
    }))
}
