// The objects that are bound to a node: when it is up again, a look at these does for a look at all.
ghost use Rattle.std.specs.Prelude.{◌≡◌, ℕ, true, Some, OnOk, filter};
ghost use Rattle.std.specs.List.Sorted.{IsStrictlySortedBy};
ghost use Rattle.std.specs.Map.{keys_of};
ghost use Rattle.std.specs.Ordering.{nat_cmp};
ghost use Rattle.arj_naming.specs.Bound.{AreBound, KeepsBound, is_to, is_under, live_at, made_in};
ghost use Rattle.arj_naming.specs.Touched.{changed_at};
ghost use Rattle.arj_protocol.specs.Named.{Live, hello_named};
ghost use Rattle.arj_protocol.specs.Order.{at_number, each};

use crate::change::Change;
use crate::object::NamedObject;
use crate::touched::change_each;
use arj_base::Uid;
use std::alloc::{AllocError, Global};
use std::collections::{BTreeMap, BTreeSet};

// Puts an object under a node.
fn put_under(
    alloc: Global,
    bound: &mut BTreeMap<u8, BTreeSet<u16>>,
    node: u8,
    x: u16,
) -> Result<(), AllocError>
    ensures here { OnOk result (is_under bound.new.entries node x ≡ true) }
    ensures kept { KeepsBound bound.old.entries bound.new.entries }
{
    if let Some(xs) = bound.get_mut(&node) {
        xs.insert(x)?;
        return Ok(());
    }
    let mut xs = BTreeSet::new(alloc);
    xs.insert(x)?;
    bound.insert(node, xs)?;
    Ok(())
}

// The server of the binding that was made last for the top at an object, if the object is there.
fn server_made(objects: &BTreeMap<u16, NamedObject>, x: u16, top: Uid) -> Option<u8>
    ensures { result ≡ made_in top (at_number x objects.now.entries) }
{
    objects.get(&x)?.made_server(top)
}

/// Puts an object under the server of the binding that was made last for the top.
pub fn put_made(
    alloc: Global,
    objects: &BTreeMap<u16, NamedObject>,
    x: u16,
    top: Uid,
    bound: &mut BTreeMap<u8, BTreeSet<u16>>,
) -> Result<(), AllocError>
    ensures here { OnOk result ((n : ℕ) → made_in top (at_number x objects.now.entries) ≡ Some n → is_under bound.new.entries n x ≡ true) }
    ensures kept { KeepsBound bound.old.entries bound.new.entries }
{
    match server_made(objects, x, top) {
        Some(node) => put_under(alloc, bound, node, x),
        None => Ok(()),
    }
}

// Whether an object's live binding is to this node.
fn is_to_at(objects: &BTreeMap<u16, NamedObject>, x: u16, node: u8) -> bool
    ensures { result ≡ is_to node (live_at x objects.now.entries) }
{
    match objects.get(&x) {
        Some(object) => object.is_to(node),
        None => false,
    }
}

// Keeps those of some objects that are bound to this node.
fn keep_bound(objects: &BTreeMap<u16, NamedObject>, node: u8, xs: &mut BTreeSet<u16>)
    ensures { xs.new.keys ≡ filter (λ x. is_to node (live_at x objects.now.entries)) xs.old.keys }
{
    xs.retain(|x| is_to_at(objects, *x, node));
}

// A server is up again: the objects under it are told, and those stay under it that are bound to it still.
fn hello_under(
    objects: &mut BTreeMap<u16, NamedObject>,
    bound: &mut BTreeMap<u8, BTreeSet<u16>>,
    node: u8,
    inc: u32,
)
    ensures at { (q : ℕ) → at_number q objects.new.entries ≡ changed_at (hello_named node inc) (is_under bound.old.entries node q) (at_number q objects.old.entries) }
    ensures keys { keys_of objects.new.entries ≡ keys_of objects.old.entries }
    ensures bound { (q : ℕ) (l : Live) → live_at q objects.new.entries ≡ Some l → is_under bound.old.entries l.server q ≡ true → is_under bound.new.entries l.server q ≡ true }
{
    let Some(xs) = bound.get_mut(&node) else {
        return;
    };
    change_each(objects, xs, Change::Hello { node, inc });
    keep_bound(objects, node, xs);
}

/// A server is up again: live bindings to its earlier incarnations are dropped. It takes no memory.
pub fn hello_all(
    objects: &mut BTreeMap<u16, NamedObject>,
    bound: &mut BTreeMap<u8, BTreeSet<u16>>,
    node: u8,
    inc: u32,
)
    requires sorted { IsStrictlySortedBy nat_cmp (keys_of objects.old.entries) }
    requires bound { AreBound objects.old.entries bound.old.entries }
    ensures objects { objects.new.entries ≡ each (λ x. hello_named node inc) objects.old.entries }
    ensures bound { AreBound objects.new.entries bound.new.entries }
{
    hello_under(objects, bound, node, inc);
}
