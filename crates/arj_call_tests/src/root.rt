// What is noted, and what of it is asked.
use arj_base::{Binding, Path, Uid};
use arj_bind::Grant;
use arj_root::{Calls, Grants, Sends};
use arj_tree::Tree;
use std::alloc::{AllocError, Global};
use std::test::Fail;

// The action 1.1.n.
fn action(num: u64) -> Uid {
    Uid {
        node: 1,
        inc: 1,
        num,
    }
}

// Whether the nodes that were sent something stand once, in order.
fn are_sent_once(alloc: Global) -> Result<bool, AllocError> {
    let path = Path::new(action(1));
    let mut sends = Sends::new(alloc);
    sends.note_invoke(&path, 4)?;
    sends.note_other(&path, 2)?;
    sends.note_other(&path, 2)?;
    let nodes = sends.nodes_sent(action(1))?;
    Ok(nodes.as_slice() == [2, 4].as_slice())
}

#[test]
fn each_send_is_noted_once(rt: HostRuntime) -> Result<(), Fail> {
    assert!(rt; are_sent_once(rt.alloc())?);
    Ok(())
}

// Whether a root uses the object that it called, and retains nothing.
fn uses_what_it_called(alloc: Global) -> Result<bool, AllocError> {
    let mut calls = Calls::new(alloc);
    calls.note(&Path::new(action(1)), 7)?;
    let tree = Tree::new(alloc, 1, 1);
    Ok(
        calls.uses(7, action(1), &tree)
            && !calls.uses(5, action(1), &tree)
            && !calls.retains(7, &tree),
    )
}

#[test]
fn calls_of_a_root(rt: HostRuntime) -> Result<(), Fail> {
    assert!(rt; uses_what_it_called(rt.alloc())?);
    Ok(())
}

// A grant of object 7, with the binding that was named.
fn grant(least: u32, named: Binding) -> Grant {
    Grant {
        top: action(1),
        x: 7,
        least,
        named: Some(named),
    }
}

// Whether the binding that was named last stands alone.
fn is_named_last(alloc: Global) -> Result<bool, AllocError> {
    let (old, new) = (Binding { inc: 1, count: 1 }, Binding { inc: 1, count: 2 });
    let mut grants = Grants::new(alloc);
    grants.note(grant(3, old))?;
    grants.note(grant(2, new))?;
    Ok(
        grants.was_named(action(1), 7, new)
            && !grants.was_named(action(1), 7, old)
            && grants.as_slice().len() == 1,
    )
}

#[test]
fn the_last_binding_that_was_named(rt: HostRuntime) -> Result<(), Fail> {
    assert!(rt; is_named_last(rt.alloc())?);
    Ok(())
}
