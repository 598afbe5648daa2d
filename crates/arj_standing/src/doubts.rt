// What is prepared at nodes, line by line.
ghost use Rattle.std.specs.Prelude.{◌≡◌, IfOk, OnOk, filter, not};
ghost use Rattle.arj_standing.specs.Doubts.{doubts_after, is_doubt, same_role};

use arj_base::Uid;
use arj_journal::{Body, Role};
use std::alloc::{AllocError, Global};

/// What a node, in this role, has prepared for an action and not done yet.
#[derive(Clone, Copy)]
pub struct Doubt {
    pub node: u8,
    pub action: Uid,
    pub role: Role,
}

// Whether two roles are the same.
fn same(a: Role, b: Role) -> bool
    ensures { result ≡ same_role a b }
{
    match (a, b) {
        (Role::Store, Role::Store) | (Role::Names, Role::Names) => true,
        (Role::Store, Role::Names) | (Role::Names, Role::Store) => false,
    }
}

// Whether it is this one.
fn is_of(doubt: &Doubt, node: u8, action: Uid, role: Role) -> bool
    ensures { result ≡ is_doubt node action role doubt.now }
{
    doubt.node == node && doubt.action == action && same(doubt.role, role)
}

// Those that are left where one is done.
fn without(
    alloc: Global,
    doubts: &[Doubt],
    node: u8,
    action: Uid,
    role: Role,
) -> Result<Vec<Doubt>, AllocError>
    ensures { IfOk result (λ left. left.items ≡ filter (λ d. not (is_doubt node action role d)) doubts.now) }
{
    let mut left = Vec::new(alloc);
    for doubt in doubts {
        if !is_of(doubt, node, action, role) {
            left.push(*doubt)?;
        }
    }
    Ok(left)
}

/// Takes a line: what is prepared is in doubt until it is done.
pub fn note_doubts(alloc: Global, doubts: &mut Vec<Doubt>, body: &Body) -> Result<(), AllocError>
    ensures { OnOk result (doubts.new.items ≡ doubts_after body.now doubts.old.items) }
{
    match body {
        Body::Prepared { node, action, role } => {
            doubts.push(Doubt {
                node: *node,
                action: *action,
                role: *role,
            })?;
            Ok(())
        }
        Body::Done {
            node,
            action,
            role,
            ..
        } => {
            *doubts = without(alloc, doubts.as_slice(), *node, *action, *role)?;
            Ok(())
        }
        _ => Ok(()),
    }
}
