// The naming entry of an object, by its listed stores.
ghost use Rattle.std.specs.Prelude.{◌≡◌, ◌==◌, ◌||◌, ◌+◌, ◌<◌, ◌^◌, List, IfOk, filter, map, if◌then◌else◌};
ghost use Rattle.std.specs.List.{list_any};
ghost use Rattle.arj_journal.specs.declared.body.Line.{Line as line_type};
ghost use Rattle.arj_model.specs.Actions.{acts};
ghost use Rattle.arj_model.specs.CausePends.{has_some};
ghost use Rattle.arj_model.specs.Last.{object_line, same_list, serial_tops, stores_of_line};
ghost use Rattle.arj_standing.specs.Begun.{AreBegun};
ghost use Rattle.arj_changes.specs.Folded.{IsFolded, IsStepped, tops_ranked};
ghost use Rattle.arj_changes.specs.Kept.{AreKept};
ghost use Rattle.arj_changes.specs.Paths.{uid_numbered};
ghost use Rattle.arj_changes.specs.Stores.{IsEntry, is_moved as is_moved_in, is_mover, joined_by, left_by, moves as moves_of, stores_after as stores_after_moves};
ghost use Rattle.arj_changes.specs.Tops.{rank_of, top_called, tops_called};

use crate::kept::{Called, Changes};
use crate::moves::{joins_of, leaves_of, stores_after};
use crate::numbers::either;
use crate::order::{Ranked, in_order, rank, tops_of};
use arj_base::Uid;
use arj_journal::Header;
use arj_standing::Begun;
use std::alloc::{AllocError, Global};

// Nobody's Uid.
const NOBODY: Uid = Uid {
    node: 0,
    inc: 0,
    num: 0,
};

/// The naming entry of an object: how many tops changed its stores, the last of them, and the stores that are listed.
#[derive(Drop)]
pub struct EntryState {
    pub version: usize,
    pub writer: Uid,
    pub stores: Vec<u8>,
}

// Whether a top excluded or included a store of an object.
fn moves(alloc: Global, changes: &Changes, top: &Called, x: u16) -> Result<bool, AllocError>
    ensures { IfOk result (λ test. test ≡ is_mover changes.now x top.now) }
{
    let leaves = leaves_of(alloc, changes, top.id, x)?;
    let joins = joins_of(alloc, changes, top.id, x)?;
    Ok(some_of(leaves.as_slice(), joins.as_slice()))
}

// Whether one of two lists has something.
fn some_of(leaves: &[u8], joins: &[u8]) -> bool
    ensures { result ≡ (has_some leaves.now || has_some joins.now) }
{
    match (leaves, joins) {
        ([], []) => false,
        _ => true,
    }
}

// The tops that moved a store of an object, with their keys.
fn movers(
    alloc: Global,
    changes: &Changes,
    tops: &[Called],
    x: u16,
) -> Result<Vec<Ranked>, AllocError>
    ensures { IfOk result (λ ranked. ranked.items ≡ map (rank_of (tops_called tops.now)) (filter (is_mover changes.now x) tops.now)) }
{
    let mut ranked = Vec::new(alloc);
    for top in tops {
        if moves(alloc, changes, top, x)? {
            ranked.push(rank(tops, *top))?;
        }
    }
    Ok(ranked)
}

// The tops that moved a store of an object, in serial order.
fn movers_in_order(alloc: Global, changes: &Changes, x: u16) -> Result<Vec<Ranked>, AllocError>
    ensures { (lines : List line_type) → AreKept lines changes.now → IfOk result (λ ranked. tops_ranked ranked.items ≡ filter (moves_of lines x) (serial_tops lines)) }
{
    let tops = tops_of(alloc, changes)?;
    let ranked = movers(alloc, changes, tops.as_slice(), x)?;
    in_order(alloc, ranked.as_slice())
}

// The Uid of the action of a number.
fn uid_of(begun: &[Begun], id: usize) -> Uid
    ensures { result ≡ uid_numbered id begun.now }
{
    for action in begun {
        if action.id == id {
            return action.uid;
        }
    }
    NOBODY
}

// The stores behind a top.
fn behind(
    alloc: Global,
    changes: &Changes,
    stores: &[u8],
    top: &Called,
    x: u16,
) -> Result<Vec<u8>, AllocError>
    ensures { IfOk result (λ after. after.items ≡ stores_after_moves stores.now (left_by changes.now top.now.id x) (joined_by changes.now top.now.id x)) }
{
    let leaves = leaves_of(alloc, changes, top.id, x)?;
    let joins = joins_of(alloc, changes, top.id, x)?;
    stores_after(alloc, stores, leaves.as_slice(), joins.as_slice())
}

// Whether two lists are the same.
fn are_same(a: &[u8], b: &[u8]) -> bool
    ensures { result ≡ same_list a.now b.now }
{
    a == b
}

/// One more, unless what is counted stays.
pub fn counted(version: usize, stays: bool) -> usize
    ensures { version + 1 < 2 ^ 64 → result ≡ (if stays then version else version + 1) }
{
    if stays {
        version
    } else {
        version.saturating_add(1)
    }
}

// Who changed the stores last.
fn changer(begun: &[Begun], before: Uid, top: &Called, stays: bool) -> Uid
    ensures { result ≡ (if stays then before else uid_numbered top.now.id begun.now) }
{
    if stays { before } else { uid_of(begun, top.id) }
}

// The entry with one top more.
fn step(
    alloc: Global,
    begun: &[Begun],
    changes: &Changes,
    entry: EntryState,
    one: &Ranked,
    x: u16,
) -> Result<EntryState, AllocError>
    ensures { (lines : List line_type) → AreBegun (acts lines) begun.now → AreKept lines changes.now → entry.version + 1 < 2 ^ 64
        → IfOk result (IsStepped lines x (top_called one.now.top) entry) }
{
    let stores = behind(alloc, changes, entry.stores.as_slice(), &one.top, x)?;
    let stays = are_same(stores.as_slice(), entry.stores.as_slice());
    Ok(EntryState {
        version: counted(entry.version, stays),
        writer: changer(begun, entry.writer, &one.top, stays),
        stores,
    })
}

// The entry after these tops.
fn fold(
    alloc: Global,
    begun: &[Begun],
    changes: &Changes,
    first: &[u8],
    ranked: &[Ranked],
    x: u16,
) -> Result<EntryState, AllocError>
    ensures { (lines : List line_type) → AreBegun (acts lines) begun.now → AreKept lines changes.now → IfOk result (IsFolded lines x first.now (tops_ranked ranked.now)) }
{
    let mut entry = EntryState {
        version: 0,
        writer: NOBODY,
        stores: Vec::from_slice(alloc, first)?,
    };
    for one in ranked {
        entry = step(alloc, begun, changes, entry, one, x)?;
    }
    Ok(entry)
}

/// The stores of an object of the header, none where it has no such object.
pub fn first_stores(header: &Header, x: u16) -> &[u8]
    ensures { result.now ≡ stores_of_line (object_line header.now x) }
{
    for object in header.objects.as_slice() {
        if object.x == x {
            return object.stores.as_slice();
        }
    }
    &[]
}

/// The naming entry of an object behind the lines so far, by the actions that have begun in them.
pub fn entry_of(
    alloc: Global,
    begun: &[Begun],
    changes: &Changes,
    header: &Header,
    x: u16,
) -> Result<EntryState, AllocError>
    ensures { (lines : List line_type) → AreBegun (acts lines) begun.now → AreKept lines changes.now → IfOk result (IsEntry header.now lines x) }
{
    let ranked = movers_in_order(alloc, changes, x)?;
    fold(
        alloc,
        begun,
        changes,
        first_stores(header, x),
        ranked.as_slice(),
        x,
    )
}

// Whether a store of the object is excluded.
fn has_leave(changes: &Changes, x: u16) -> bool
    ensures { result ≡ list_any (λ leave. leave.x == x) changes.now.leaves.items }
{
    for leave in changes.leaves.iter() {
        if leave.x == x {
            return true;
        }
    }
    false
}

// Whether a store of the object is included.
fn has_join(changes: &Changes, x: u16) -> bool
    ensures { result ≡ list_any (λ join. join.x == x) changes.now.joins.items }
{
    for join in changes.joins.iter() {
        if join.x == x {
            return true;
        }
    }
    false
}

/// Whether a line has said that a store of the object is excluded or included.
pub fn is_moved(changes: &Changes, x: u16) -> bool
    ensures { (lines : List line_type) → AreKept lines changes.now → result ≡ is_moved_in lines x }
{
    let leaves = has_leave(changes, x);
    let joins = has_join(changes, x);
    either(leaves, joins)
}
