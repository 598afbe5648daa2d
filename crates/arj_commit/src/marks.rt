// Stores that are marked for exclusion, by object and then by store.
ghost use Rattle.std.specs.Prelude.{◌≡◌, ◌≤◌, ◌++◌, length, not, IfOk, OnOk};
ghost use Rattle.std.specs.List.{insert};
ghost use Rattle.arj_protocol.specs.Commit.{with_mark, with_marks};
ghost use Rattle.arj_commit.specs.Marks.{is_marked_in, joins_by, included_in, marks_in, marked_all};
ghost use Rattle.arj_protocol.specs.Order.{is_empty};

use crate::Used;
use crate::whom::is_sent;
use arj_base::ObjectState;
use arj_msg::Marks;
use std::alloc::{AllocError, Global};

/// Whether the store is marked for the object.
pub fn is_marked(marks: &[(u16, u8)], x: u16, store: u8) -> bool
    ensures { result ≡ is_marked_in marks.now x store }
{
    marks.iter().any(|mark| mark.0 == x && mark.1 == store)
}

// Puts the inclusions of an object that are left at the end.
fn put_joins(all: &mut Marks, marks: &[(u16, u8)], x: u16, joins: &[u8]) -> Result<(), AllocError>
    ensures { OnOk result (all.new ≡ all.old ++ joins_by marks.now x joins.now) }
{
    for store in joins {
        if !is_marked(marks, x, *store) {
            all.push((x, *store))?;
        }
    }
    Ok(())
}

/// The inclusions that are left.
pub fn included(alloc: Global, marks: &[(u16, u8)], used: &[Used]) -> Result<Marks, AllocError>
    ensures { IfOk result (λ all. all ≡ included_in marks.now used.now) }
{
    let mut all = Marks::new(alloc);
    for object in used {
        put_joins(&mut all, marks, object.x, object.joins.as_slice())?;
    }
    Ok(all)
}

// Whether an inclusion of the object is left.
fn has_joins(marks: &[(u16, u8)], x: u16, joins: &[u8]) -> bool
    ensures { result ≡ not (is_empty (joins_by marks.now x joins.now)) }
{
    for store in joins {
        if !is_marked(marks, x, *store) {
            return true;
        }
    }
    false
}

/// Whether an inclusion is left.
pub fn has_included(marks: &[(u16, u8)], used: &[Used]) -> bool
    ensures { result ≡ not (is_empty (included_in marks.now used.now)) }
{
    for object in used {
        if has_joins(marks, object.x, object.joins.as_slice()) {
            return true;
        }
    }
    false
}

// Where a mark goes.
fn place_of(marks: &[(u16, u8)], x: u16, store: u8) -> usize
    ensures within { result ≤ length marks.now }
    ensures place { with_mark (x, store) marks.now ≡ insert marks.now result (x, store) }
{
    for at in 0..marks.len() {
        let (y, other) = marks[at];
        if !(y < x || y == x && other < store) {
            return at;
        }
    }
    marks.len()
}

// Puts a mark in its place.
fn put_mark(marks: &mut Vec<(u16, u8)>, x: u16, store: u8) -> Result<(), AllocError>
    ensures { OnOk result (marks.new.items ≡ with_mark (x, store) marks.old.items) }
{
    let at = place_of(marks.as_slice(), x, store);
    marks.insert(at, (x, store))?;
    Ok(())
}

// Puts the marks of a store, one for each object of which it was sent a state.
fn put_store(
    marks: &mut Vec<(u16, u8)>,
    store: u8,
    changed: &[ObjectState],
    used: &[Used],
) -> Result<(), AllocError>
    ensures { OnOk result (marks.new.items ≡ with_marks (marks_in store changed.now used.now) marks.old.items) }
{
    for object in used {
        if is_sent(store, object, changed) {
            put_mark(marks, object.x, store)?;
        }
    }
    Ok(())
}

/// The marks with those of these stores.
pub fn marked(
    alloc: Global,
    marks: &[(u16, u8)],
    stores: &[u8],
    changed: &[ObjectState],
    used: &[Used],
) -> Result<Marks, AllocError>
    ensures { IfOk result (λ all. all ≡ marked_all stores.now changed.now used.now marks.now) }
{
    let mut all = Vec::from_slice(alloc, marks)?;
    for store in stores {
        put_store(&mut all, *store, changed, used)?;
    }
    Ok(Marks::from_vec(all))
}
