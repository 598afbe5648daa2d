// What a commit begins with: objects that were called, and one that is included.
ghost use Rattle.std.specs.Prelude.{◌≡◌, ◌≤◌, IfOk, OnOk};
ghost use Rattle.std.specs.List.{AllByRecursion};
ghost use Rattle.arj_base.specs.Uid.{object};
ghost use Rattle.arj_commit.specs.Fits.{IsNode, UsedFits, PlanFits};
ghost use Rattle.arj_commit.specs.declared.limits.TheConstants.{LAST_START};

use arj_base::{
    Binding, Bytes, Class, Ends, Format, NodeList, ObjectState, Path, States, Uid, object_uid,
};
use arj_commit::{Plan, Used, UsedList};
use arj_msg::Marks;
use std::alloc::{AllocError, Global};

/// The top that commits.
pub const TOP: Uid = Uid {
    node: 2,
    inc: 1,
    num: 1,
};

/// Of the whole, object 1 is called at server 3 and stored at 4 and 5, object 2 is called at server 6 and stored at 4,
/// and object 7 is included at store 8; or object 2 is called alone; or nothing is used.
#[derive(Clone, Copy)]
pub enum Start {
    Whole,
    Called,
    Nothing,
}

fn nodes(alloc: Global, list: &[u8]) -> Result<NodeList, AllocError>
    ensures { IfOk result (λ nodes. nodes ≡ list.now) }
{
    let mut nodes = NodeList::new(alloc);
    nodes.extend(list)?;
    Ok(nodes)
}

// A state of object x, a counter in version 7.
fn state(alloc: Global, x: u16) -> Result<ObjectState, AllocError>
    ensures { IfOk result (λ state. state.uid ≡ object x) }
{
    let mut payload = Bytes::new(alloc);
    payload.extend(&[0, 0, 0, 0, 0, 0, 0, 5])?;
    Ok(ObjectState {
        uid: object_uid(x),
        class: Class::Counter,
        version: 7,
        writer: TOP,
        payload,
        format: Format::Two,
    })
}

fn called(alloc: Global, x: u16, server: u8, stores: &[u8]) -> Result<Used, AllocError>
    requires server { IsNode server }
    requires stores { AllByRecursion IsNode stores.now }
    ensures { IfOk result UsedFits }
{
    Ok(Used {
        x,
        called: true,
        binding: Binding { inc: 1, count: 1 },
        server,
        inc: 1,
        grant: 1,
        stores: nodes(alloc, stores)?,
        joins: NodeList::new(alloc),
        loaded: None,
    })
}

fn included(alloc: Global, x: u16, store: u8) -> Result<Used, AllocError>
    requires { IsNode store }
    ensures { IfOk result UsedFits }
{
    let loaded = state(alloc, x)?;
    let joins = nodes(alloc, &[store])?;
    Ok(Used {
        x,
        called: false,
        binding: Binding { inc: 0, count: 0 },
        server: 0,
        inc: 0,
        grant: 1,
        stores: NodeList::new(alloc),
        joins,
        loaded: Some(loaded),
    })
}

fn put(used: &mut UsedList, one: Used) -> Result<(), AllocError>
    requires all { AllByRecursion UsedFits used.old }
    requires one { UsedFits one }
    ensures { OnOk result (AllByRecursion UsedFits used.new) }
{
    used.push(one)
}

fn whole(alloc: Global) -> Result<UsedList, AllocError>
    ensures { IfOk result (AllByRecursion UsedFits) }
{
    let mut used = UsedList::new(alloc);
    put(&mut used, called(alloc, 1, 3, &[4, 5])?)?;
    put(&mut used, called(alloc, 2, 6, &[4])?)?;
    put(&mut used, included(alloc, 7, 8)?)?;
    Ok(used)
}

fn alone(alloc: Global) -> Result<UsedList, AllocError>
    ensures { IfOk result (AllByRecursion UsedFits) }
{
    let mut used = UsedList::new(alloc);
    put(&mut used, called(alloc, 2, 6, &[4])?)?;
    Ok(used)
}

fn used(alloc: Global, start: Start) -> Result<UsedList, AllocError>
    ensures { IfOk result (AllByRecursion UsedFits) }
{
    match start {
        Start::Whole => whole(alloc),
        Start::Called => alone(alloc),
        Start::Nothing => Ok(UsedList::new(alloc)),
    }
}

/// The plan of such a commit, with the request of its first step.
pub fn plan(alloc: Global, start: Start) -> Result<Plan, AllocError>
    ensures fits { IfOk result PlanFits }
    ensures room { IfOk result (λ plan. plan.req ≤ LAST_START) }
{
    let sent = nodes(alloc, &[2])?;
    let used = used(alloc, start)?;
    Ok(Plan {
        path: Path::new(TOP),
        req: 4,
        ends: Ends::new(alloc),
        used,
        sent,
        changed: States::new(alloc),
        prepared: NodeList::new(alloc),
        excluded: Marks::new(alloc),
        confirmed: false,
    })
}

/// States of these objects.
pub fn changed(alloc: Global, objects: &[u16]) -> Result<States, AllocError> {
    let mut states = States::new(alloc);
    for x in objects {
        states.push(state(alloc, *x)?)?;
    }
    Ok(states)
}
