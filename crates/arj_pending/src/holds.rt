// Which states of objects a node may hold for an action.
ghost use Rattle.std.specs.Prelude.{◌≡◌, ◌==◌, ◌&&◌, ◌||◌, Bool, List, IfOk};
ghost use Rattle.std.specs.List.{list_any};
ghost use Rattle.arj_changes.specs.Kept.{AreKept, is_ended};
ghost use Rattle.arj_changes.specs.Stores.{joined_by};
ghost use Rattle.arj_journal.specs.declared.body.Line.{Line as line_type};
ghost use Rattle.arj_model.specs.CausePends.{changes as changes_of, has_some, may_store as may_store_of};
ghost use Rattle.arj_pending.specs.Behind.{StandsBehind};
ghost use Rattle.arj_pending.specs.Holds.{changes_by as changes_by_uid, is_join_at as is_join_of, is_surviving as survives, may_hold as may_hold_of, number_by};

use crate::standing::Standing;
use arj_base::Uid;
use arj_changes::{Changes, Join, are_committed, either, first_stores, is_among, joins_of};
use arj_journal::Header;
use arj_last::{Write, items_at};
use arj_standing::Begun;
use std::alloc::{AllocError, Global};

// The number of the action with a Uid.
fn number_of(begun: &[Begun], uid: Uid) -> Option<usize>
    ensures { result ≡ number_by uid begun.now }
{
    for action in begun {
        if action.uid == uid {
            return Some(action.id);
        }
    }
    None
}

// Whether a write is a top's, and survives.
fn is_surviving(changes: &Changes, write: &Write, top: usize) -> bool
    ensures { result ≡ survives (is_ended changes.now) top write.now }
{
    write.top == top && are_committed(changes, write.chain.as_slice())
}

// Whether a write of a top survives.
fn has_written(changes: &Changes, writes: &[Write], top: usize) -> bool
    ensures { result ≡ list_any (survives (is_ended changes.now) top) writes.now }
{
    for write in writes {
        if is_surviving(changes, write, top) {
            return true;
        }
    }
    false
}

// Whether there is something.
fn is_some_of(nodes: &[u8]) -> bool
    ensures { result ≡ has_some nodes.now }
{
    match nodes {
        [] => false,
        _ => true,
    }
}

// Whether an include of a top survives.
fn has_joined(alloc: Global, changes: &Changes, top: usize, x: u16) -> Result<bool, AllocError>
    ensures { IfOk result (λ test. test ≡ has_some (joined_by changes.now top x)) }
{
    let joins = joins_of(alloc, changes, top, x)?;
    Ok(is_some_of(joins.as_slice()))
}

// Whether a top changes an object.
fn changes(alloc: Global, standing: &Standing, top: usize, x: u16) -> Result<bool, AllocError>
    ensures { (flags : List Bool) (lines : List line_type) → StandsBehind flags lines standing.now → IfOk result (λ test. test ≡ changes_of lines top x) }
{
    let wrote = has_written(
        &standing.changes,
        items_at(&standing.writes.on, usize::from(x)),
        top,
    );
    let joined = has_joined(alloc, &standing.changes, top, x)?;
    Ok(either(wrote, joined))
}

// Whether the action with a Uid changes an object.
fn changes_by(alloc: Global, standing: &Standing, action: Uid, x: u16) -> Result<bool, AllocError>
    ensures { (flags : List Bool) (lines : List line_type) → StandsBehind flags lines standing.now → IfOk result (λ test. test ≡ changes_by_uid lines action x) }
{
    match number_of(standing.begun.as_slice(), action) {
        None => Ok(false),
        Some(top) => changes(alloc, standing, top, x),
    }
}

// Whether an include names a store for an object.
fn is_join_at(join: &Join, node: u8, x: u16) -> bool
    ensures { result ≡ is_join_of node x join.now }
{
    join.x == x && join.node == node
}

// Whether one of these includes does.
fn has_join(joins: &[Join], node: u8, x: u16) -> bool
    ensures { result ≡ list_any (is_join_of node x) joins.now }
{
    for join in joins {
        if is_join_at(join, node, x) {
            return true;
        }
    }
    false
}

// Whether a node may store an object.
fn may_store(header: &Header, changes: &Changes, node: u8, x: u16) -> bool
    ensures { (lines : List line_type) → AreKept lines changes.now → result ≡ may_store_of header.now lines node x }
{
    let first = is_among(first_stores(header, x), node);
    let joined = has_join(changes.joins.as_slice(), node, x);
    either(first, joined)
}

/// Whether a node may store an object, and the action with a Uid changes it.
pub fn may_hold(
    alloc: Global,
    header: &Header,
    standing: &Standing,
    node: u8,
    action: Uid,
    x: u16,
) -> Result<bool, AllocError>
    ensures { (flags : List Bool) (lines : List line_type) → StandsBehind flags lines standing.now → IfOk result (λ test. test ≡ may_hold_of header.now lines node action x) }
{
    if !may_store(header, &standing.changes, node, x) {
        return Ok(false);
    }
    changes_by(alloc, standing, action, x)
}
