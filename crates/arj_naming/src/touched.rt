// The objects that each action has touched: at its end a look at these alone does for a look at all.
ghost use Rattle.std.specs.Prelude.{◌≡◌, ◌⊎◌, ◌||◌, not, ℕ, true, filter, map, Some, IfOk, OnOk};
ghost use Rattle.std.specs.List.{list_any};
ghost use Rattle.std.specs.List.Sorted.{IsStrictlySortedBy};
ghost use Rattle.std.specs.Map.{keys_of};
ghost use Rattle.std.specs.Ordering.{is_eq, nat_cmp};
ghost use Rattle.arj_base.specs.Rows.{is_on};
ghost use Rattle.arj_base.specs.declared.uid.Uid.{Uid};
ghost use Rattle.arj_naming.specs.Objects.{changed_by};
ghost use Rattle.arj_naming.specs.Touched.{AreTouched, IsOff, KeepsTouched, any_of, any_under, changed_at, is_in, is_touched, looks_apart_in, test_at};
ghost use Rattle.arj_protocol.specs.Copy.{holds};
ghost use Rattle.arj_protocol.specs.Named.{Named, end_named};
ghost use Rattle.arj_protocol.specs.Naming.{loses};
ghost use Rattle.arj_protocol.specs.Order.{at_number, each};
ghost use Rattle.arj_protocol.specs.Server.{row_top};

use crate::change::Change;
use crate::object::NamedObject;
use crate::uids::insert_all;
use arj_base::{End, Path, Uid, Uids};
use std::alloc::{AllocError, Global};
use std::collections::{BTreeMap, BTreeSet};

// A change of one object, if it is there.
fn change_at(objects: &mut BTreeMap<u16, NamedObject>, x: u16, change: Change)
    ensures at { (q : ℕ) → at_number q objects.new.entries ≡ changed_at (changed_by change) (is_eq (nat_cmp x q)) (at_number q objects.old.entries) }
    ensures keys { keys_of objects.new.entries ≡ keys_of objects.old.entries }
{
    if let Some(object) = objects.get_mut(&x) {
        object.apply(change);
    }
}

/// A change of these objects.
pub fn change_each(objects: &mut BTreeMap<u16, NamedObject>, xs: &BTreeSet<u16>, change: Change)
    ensures at { (q : ℕ) → at_number q objects.new.entries ≡ changed_at (changed_by change) (is_in xs.now.keys q) (at_number q objects.old.entries) }
    ensures keys { keys_of objects.new.entries ≡ keys_of objects.old.entries }
{
    for x in xs.iter() {
        change_at(objects, *x, change);
    }
}

/// The end of an action, at the objects that it has touched.
pub fn end_under(
    objects: &mut BTreeMap<u16, NamedObject>,
    touched: &BTreeMap<Uid, BTreeSet<u16>>,
    action: Uid,
    end: End,
)
    requires sorted { IsStrictlySortedBy nat_cmp (keys_of objects.old.entries) }
    requires touched { AreTouched action objects.old.entries (is_touched touched.now.entries action) }
    ensures { objects.new.entries ≡ each (λ x. end_named action end) objects.old.entries }
{
    let Some(xs) = touched.get(&action) else {
        return;
    };
    change_each(objects, xs, Change::End { action, end });
}

// Puts an object under an action.
fn touch(
    alloc: Global,
    touched: &mut BTreeMap<Uid, BTreeSet<u16>>,
    action: Uid,
    x: u16,
) -> Result<(), AllocError>
    ensures here { OnOk result (is_touched touched.new.entries action x ≡ true) }
    ensures kept { KeepsTouched touched.old.entries touched.new.entries }
{
    if let Some(xs) = touched.get_mut(&action) {
        xs.insert(x)?;
        return Ok(());
    }
    let mut xs = BTreeSet::new(alloc);
    xs.insert(x)?;
    touched.insert(action, xs)?;
    Ok(())
}

// Puts an object under each of these actions.
fn touch_all(
    alloc: Global,
    touched: &mut BTreeMap<Uid, BTreeSet<u16>>,
    actions: &[Uid],
    x: u16,
) -> Result<(), AllocError>
    ensures here { OnOk result ((u : Uid) → is_on actions.now u ≡ true → is_touched touched.new.entries u x ≡ true) }
    ensures kept { KeepsTouched touched.old.entries touched.new.entries }
{
    for action in actions {
        touch(alloc, touched, *action, x)?;
    }
    Ok(())
}

/// Puts an object under each action on the path to the top.
pub fn touch_path(
    alloc: Global,
    touched: &mut BTreeMap<Uid, BTreeSet<u16>>,
    path: &Path,
    x: u16,
) -> Result<(), AllocError>
    ensures here { OnOk result ((u : Uid) → IsOff u path.now ⊎ (is_touched touched.new.entries u x ≡ true)) }
    ensures kept { KeepsTouched touched.old.entries touched.new.entries }
{
    let top = path.top_path();
    touch(alloc, touched, top.last(), x)?;
    touch_all(alloc, touched, top.as_slice(), x)
}

// Whether no end of the action changes an object, as far as it is looked at, or it isn't there.
fn is_apart_at(objects: &BTreeMap<u16, NamedObject>, x: u16, action: Uid) -> bool
    ensures { result ≡ looks_apart_in action (at_number x objects.now.entries) }
{
    match objects.get(&x) {
        Some(object) => object.is_apart(action),
        None => true,
    }
}

// Keeps those of some objects that an end of the action may change.
fn keep_touched(objects: &BTreeMap<u16, NamedObject>, action: Uid, xs: &mut BTreeSet<u16>)
    ensures { xs.new.keys ≡ filter (λ x. not (looks_apart_in action (at_number x objects.now.entries))) xs.old.keys }
{
    xs.retain(|x| !is_apart_at(objects, *x, action));
}

/// Leaves under an action those objects alone that its end may change.
pub fn tidy(
    objects: &BTreeMap<u16, NamedObject>,
    touched: &mut BTreeMap<Uid, BTreeSet<u16>>,
    action: Uid,
)
    ensures { (u : Uid) → AreTouched u objects.now.entries (is_touched touched.old.entries u) → AreTouched u objects.now.entries (is_touched touched.new.entries u) }
{
    let Some(xs) = touched.get_mut(&action) else {
        return;
    };
    keep_touched(objects, action, xs);
    if xs.len() != 0 {
        return;
    }
    touched.remove(&action);
}

/// And so under each of these actions.
pub fn tidy_all(
    objects: &BTreeMap<u16, NamedObject>,
    touched: &mut BTreeMap<Uid, BTreeSet<u16>>,
    actions: &BTreeSet<Uid>,
)
    ensures { (u : Uid) → AreTouched u objects.now.entries (is_touched touched.old.entries u) → AreTouched u objects.now.entries (is_touched touched.new.entries u) }
{
    for action in actions.iter() {
        tidy(objects, touched, *action);
    }
}

// All objects by number.
fn numbers(alloc: Global, objects: &BTreeMap<u16, NamedObject>) -> Result<BTreeSet<u16>, AllocError>
    ensures all { IfOk result (λ all. all.keys ≡ keys_of objects.now.entries) }
    ensures sorted { OnOk result (IsStrictlySortedBy nat_cmp (keys_of objects.now.entries)) }
{
    let mut all = BTreeSet::new(alloc);
    for (x, _) in objects.iter() {
        all.insert(*x)?;
    }
    Ok(all)
}

// Takes an object away from under an action, where the action's end doesn't change it.
fn tidy_at(
    objects: &BTreeMap<u16, NamedObject>,
    touched: &mut BTreeMap<Uid, BTreeSet<u16>>,
    action: Uid,
    x: u16,
)
    ensures { (u : Uid) → AreTouched u objects.now.entries (is_touched touched.old.entries u) → AreTouched u objects.now.entries (is_touched touched.new.entries u) }
{
    if !is_apart_at(objects, x, action) {
        return;
    }
    let Some(xs) = touched.get_mut(&action) else {
        return;
    };
    xs.remove(&x);
    if xs.len() != 0 {
        return;
    }
    touched.remove(&action);
}

/// And so from under each action on the path to the top.
pub fn tidy_path(
    objects: &BTreeMap<u16, NamedObject>,
    touched: &mut BTreeMap<Uid, BTreeSet<u16>>,
    path: &Path,
    x: u16,
)
    ensures { (u : Uid) → AreTouched u objects.now.entries (is_touched touched.old.entries u) → AreTouched u objects.now.entries (is_touched touched.new.entries u) }
{
    let top = path.top_path();
    for action in top.as_slice() {
        tidy_at(objects, touched, *action, x);
    }
}

// Puts an object under the tops that have a lock on its entry.
fn touch_tops(
    alloc: Global,
    objects: &BTreeMap<u16, NamedObject>,
    x: u16,
    touched: &mut BTreeMap<Uid, BTreeSet<u16>>,
) -> Result<(), AllocError>
    ensures here { OnOk result ((u : Uid) → test_at (λ o. is_on (map row_top o.rows) u) (at_number x objects.now.entries) ≡ true → is_touched touched.new.entries u x ≡ true) }
    ensures kept { KeepsTouched touched.old.entries touched.new.entries }
{
    let tops = tops_at(alloc, objects, x)?;
    touch_all(alloc, touched, tops.as_slice(), x)
}

/// All objects, each under the tops that have a lock on its entry.
pub fn touched_first(
    alloc: Global,
    objects: &BTreeMap<u16, NamedObject>,
) -> Result<BTreeMap<Uid, BTreeSet<u16>>, AllocError>
    ensures sorted { OnOk result (IsStrictlySortedBy nat_cmp (keys_of objects.now.entries)) }
    ensures touched { IfOk result (λ touched. (u : Uid) (x : ℕ) (o : Named) → at_number x objects.now.entries ≡ Some o → is_on (map row_top o.rows) u ≡ true → is_touched touched.entries u x ≡ true) }
{
    let all = numbers(alloc, objects)?;
    let mut touched = BTreeMap::new(alloc);
    for x in all.iter() {
        touch_tops(alloc, objects, *x, &mut touched)?;
    }
    Ok(touched)
}

// Whether the action or a descendant of it has a lock on one object's entry.
fn holds_at(objects: &BTreeMap<u16, NamedObject>, x: u16, action: Uid) -> bool
    ensures { result ≡ test_at (λ o. holds action o.rows) (at_number x objects.now.entries) }
{
    match objects.get(&x) {
        Some(object) => object.holds(action),
        None => false,
    }
}

/// Whether the action or a descendant of it has a lock on the entry of one of these objects.
pub fn any_holds(objects: &BTreeMap<u16, NamedObject>, xs: &BTreeSet<u16>, action: Uid) -> bool
    ensures { result ≡ any_of (λ o. holds action o.rows) objects.now.entries xs.now.keys }
{
    for x in xs.iter() {
        if holds_at(objects, *x, action) {
            return true;
        }
    }
    false
}

// The holders of the locks on one object's entry that an abort of the action drops.
fn losers_at(
    alloc: Global,
    objects: &BTreeMap<u16, NamedObject>,
    x: u16,
    action: Uid,
) -> Result<Uids, AllocError>
    ensures { IfOk result (λ us. (act : Uid) → is_on us act ≡ test_at (λ o. list_any (loses action act) o.rows) (at_number x objects.now.entries)) }
{
    match objects.get(&x) {
        Some(object) => object.holders_below(alloc, action),
        None => Ok(Uids::new(alloc)),
    }
}

/// And so of these objects.
pub fn all_losers(
    alloc: Global,
    objects: &BTreeMap<u16, NamedObject>,
    xs: &BTreeSet<u16>,
    action: Uid,
) -> Result<BTreeSet<Uid>, AllocError>
    ensures { IfOk result (λ losers. (act : Uid) → is_on losers.keys act ≡ any_of (λ o. list_any (loses action act) o.rows) objects.now.entries xs.now.keys) }
{
    let mut losers = BTreeSet::new(alloc);
    for x in xs.iter() {
        let holders = losers_at(alloc, objects, *x, action)?;
        insert_all(&mut losers, holders.as_slice())?;
    }
    Ok(losers)
}

// The tops of the holders of the locks on one object's entry.
fn tops_at(alloc: Global, objects: &BTreeMap<u16, NamedObject>, x: u16) -> Result<Uids, AllocError>
    ensures { IfOk result (λ us. (u : Uid) → is_on us u ≡ test_at (λ o. is_on (map row_top o.rows) u) (at_number x objects.now.entries)) }
{
    match objects.get(&x) {
        Some(object) => object.tops(alloc),
        None => Ok(Uids::new(alloc)),
    }
}

// And so of these objects.
fn put_tops(
    alloc: Global,
    objects: &BTreeMap<u16, NamedObject>,
    xs: &BTreeSet<u16>,
    tops: &mut BTreeSet<Uid>,
) -> Result<(), AllocError>
    ensures { OnOk result ((u : Uid) → is_on tops.new.keys u ≡ (is_on tops.old.keys u || any_of (λ o. is_on (map row_top o.rows) u) objects.now.entries xs.now.keys)) }
{
    for x in xs.iter() {
        let held = tops_at(alloc, objects, *x)?;
        insert_all(tops, held.as_slice())?;
    }
    Ok(())
}

/// And so of the objects that some action has touched.
pub fn all_tops(
    alloc: Global,
    objects: &BTreeMap<u16, NamedObject>,
    touched: &BTreeMap<Uid, BTreeSet<u16>>,
) -> Result<BTreeSet<Uid>, AllocError>
    ensures { IfOk result (λ tops. (u : Uid) → is_on tops.keys u ≡ any_under (λ o. is_on (map row_top o.rows) u) objects.now.entries touched.now.entries) }
{
    let mut tops = BTreeSet::new(alloc);
    for (_, xs) in touched.iter() {
        put_tops(alloc, objects, xs, &mut tops)?;
    }
    Ok(tops)
}
