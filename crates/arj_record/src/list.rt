// The list of an action's records.
ghost use Rattle.std.specs.Prelude.{◌≡◌, ℕ, ◌+◌, ◌≤◌, ◌<◌, [], ◌∷◌, ◌++◌, take, drop, ◌||◌, false, if◌then◌else◌, length, None, OnOk, vec_len};
ghost use Rattle.std.specs.Option.{option_to_list};
ghost use Rattle.std.specs.Vec.{vec_capacity};
ghost use Rattle.arj_base.specs.Uid.{uid_eq};
ghost use Rattle.arj_base.specs.declared.uid.Uid.{Uid};
ghost use Rattle.arj_record.specs.Ends.{calls_after, calls_from};
ghost use Rattle.arj_record.specs.Record.{is_lock, undone_by, kept_by};
ghost use Rattle.arj_record.specs.Records.{added, merged, forgotten, gathered, found, combined, undo_calls, keep_calls, image, is_changed, has_locks, passed, released, restored, raised, IsArranged};
ghost use Rattle.arj_record.specs.Scene.{Told};

use crate::{AbstractRecord, Record, Scene};
use arj_base::Uid;
use std::alloc::{AllocError, Global};
use std::marker::Model;

/// The records of one open action, in increasing order of their kinds, each kind and object once. It can be neither
/// copied nor dropped: `merge_into`, `undo`, `keep` or `abandon` spends it. Contracts see its records, and in spare
/// how many more it takes without asking for memory.
pub struct RecordList<V> {
    items: Vec<Record<V>>,
}

impl<V> Model for RecordList<V> {
    ghost use Rattle.std.specs.Prelude.{◌-◌, ◌≤◌, min, vec_len};
    ghost use Rattle.std.specs.Vec.{vec_capacity};
    ghost use Rattle.arj_record.specs.Records.{Records, IsArranged};

    ghost Value = { Records V };

    ghost view = { λ l. record { records = l.items.items; spare = min (vec_capacity l.items) 4294967295 - vec_len l.items } };

    ghost invariant = { λ l. (vec_len l.items ≤ 4294967295) × IsArranged l.items.items };
}

impl<V> RecordList<V> {
    /// No records. It takes no memory.
    pub fn new(alloc: Global) -> RecordList<V>
        ensures { result.records ≡ [] }
    {
        RecordList {
            items: Vec::new(alloc),
        }
    }

    /// The number of records.
    pub fn len(&self) -> u32
        ensures len { result ≡ length self.now.records }
        ensures arranged { IsArranged self.now.records }
    {
        self.items.len() as u32
    }

    /// The records, in increasing order of their kinds.
    pub fn as_slice(&self) -> &[Record<V>]
        ensures records { result.now ≡ self.now.records }
        ensures arranged { IsArranged result.now }
    {
        self.items.as_slice()
    }

    /// Asks for the memory of `more` further records. There is none for more than 4294967295 records in all.
    pub fn reserve(&mut self, more: u32) -> Result<(), AllocError>
        ensures ok { OnOk result (more ≤ self.new.spare) }
        ensures records { self.new.records ≡ self.old.records }
        ensures spare { self.old.spare ≤ self.new.spare }
    {
        if u32::MAX as usize - self.items.len() < more as usize {
            return Err(AllocError);
        }
        self.items.reserve(more as usize)
    }
}

impl<V: Drop> RecordList<V> {
    /// Puts a record in. Where one of its kind and object is there, the two become one: the older image and the
    /// stronger mode stay. It takes no memory.
    pub fn add(&mut self, item: Record<V>)
        requires { 1 ≤ self.old.spare }
        ensures records { self.new.records ≡ added item self.old.records }
        ensures each { (order : ℕ) (x : Uid) → found order x self.new.records ≡ combined (found order x self.old.records) (found order x (item ∷ [])) }
        ensures spare { self.old.spare ≤ self.new.spare + 1 }
        ensures room { self.old.spare + length self.old.records ≤ self.new.spare + length self.new.records }
        ensures grows { length self.new.records ≤ length self.old.records + 1 }
    {
        put_in(&mut self.items, item);
    }

    /// Hands all records to the parent's list, at a nested commit. It takes no memory.
    pub fn merge_into(self, parent: &mut RecordList<V>)
        requires { length self.records ≤ parent.old.spare }
        ensures records { parent.new.records ≡ merged parent.old.records self.records }
        ensures each { (order : ℕ) (x : Uid) → found order x parent.new.records ≡ combined (found order x parent.old.records) (found order x self.records) }
        ensures spare { parent.old.spare ≤ parent.new.spare + length self.records }
        ensures room { parent.old.spare + length parent.old.records ≤ parent.new.spare + length parent.new.records }
        ensures grows { length parent.new.records ≤ length parent.old.records + length self.records }
    {
        // The parent's list is arranged, too.
        let _ = &parent.items;
        let RecordList { items } = self;
        hand_all(items, parent);
    }

    /// Ends the list at an abort, of a nested action or of a top-level one: each object's image is restored, and
    /// then the action's locks are released, by one call for all of them.
    pub fn undo<S: Scene<V>>(self, action: Uid, scene: &mut S)
        ensures calls { Told S.step scene.old (undo_calls action self.records) scene.new }
        ensures once { (x : Uid) → restored x (undo_calls action self.records) ≡ option_to_list (image x self.records) }
        ensures locks { released (undo_calls action self.records) ≡ (if has_locks self.records then action ∷ [] else []) }
        ensures no_more { (x : Uid) → (raised x (undo_calls action self.records) ≡ []) × (passed (undo_calls action self.records) ≡ []) }
    {
        let RecordList { items } = self;
        undo_all(items, action, scene);
    }

    /// Ends the list at the commit of a top-level action: its locks are passed, by one call for all of them, and
    /// then each changed object is raised.
    pub fn keep<S: Scene<V>>(self, action: Uid, scene: &mut S)
        ensures calls { Told S.step scene.old (keep_calls action self.records) scene.new }
        ensures once { (x : Uid) → raised x (keep_calls action self.records) ≡ (if is_changed x self.records then action ∷ [] else []) }
        ensures locks { passed (keep_calls action self.records) ≡ (if has_locks self.records then action ∷ [] else []) }
        ensures no_more { (x : Uid) → (restored x (keep_calls action self.records) ≡ []) × (released (keep_calls action self.records) ≡ []) }
    {
        let RecordList { items } = self;
        keep_all(items, action, scene);
    }

    /// Lets the records go without an end: no scene hears of them. For a manager that is dropped.
    pub fn abandon(self) {
        let RecordList { items } = self;
        discard_all(items);
    }

    /// Drops the records of an object.
    pub fn forget(&mut self, object: Uid)
        ensures records { self.new.records ≡ forgotten object self.old.records }
        ensures each { (order : ℕ) (x : Uid) → found order x self.new.records ≡ (if uid_eq x object then None else found order x self.old.records) }
        ensures spare { self.old.spare ≤ self.new.spare }
        ensures shrinks { length self.new.records ≤ length self.old.records }
    {
        take_out(&mut self.items, object);
    }
}

// Puts a record into a list that has room for it.
fn put_in<V: Drop>(items: &mut Vec<Record<V>>, item: Record<V>)
    requires { vec_len items.old < vec_capacity items.old }
    ensures items { items.new.items ≡ added item items.old.items }
    ensures capacity { vec_capacity items.new ≡ vec_capacity items.old }
{
    for i in 0..items.len() {
        if items[i].may_merge(&item) {
            items[i].join(item);
            return;
        }
        if item.order() < items[i].order() {
            insert_at(items, i, item);
            return;
        }
    }
    items.push_reserved(item);
}

// Puts an item at a place of a list that has room for it.
fn insert_at<T>(items: &mut Vec<T>, at: usize, item: T)
    requires room { vec_len items.old < vec_capacity items.old }
    requires within { at ≤ vec_len items.old }
    ensures items { items.new.items ≡ take at items.old.items ++ item ∷ drop at items.old.items }
    ensures capacity { vec_capacity items.new ≡ vec_capacity items.old }
{
    items.push_reserved(item);
    items[at..].rotate_right(1);
}

// Hands each record to the parent's list, the first one first.
fn hand_all<V: Drop>(mut items: Vec<Record<V>>, parent: &mut RecordList<V>)
    requires { vec_len items ≤ parent.old.spare }
    ensures records { parent.new.records ≡ gathered parent.old.records items.items }
    ensures spare { parent.old.spare ≤ parent.new.spare + vec_len items }
    ensures room { parent.old.spare + length parent.old.records ≤ parent.new.spare + length parent.new.records }
{
    items.reverse();
    while let Some(record) = items.pop() {
        record.nested_commit(parent);
    }
    items.destroy_empty();
}

// Undoes each record, the first one first, but of the locks the first one alone.
fn undo_all<V: Drop, S: Scene<V>>(mut items: Vec<Record<V>>, action: Uid, scene: &mut S)
    ensures { Told S.step scene.old (calls_from (undone_by action) false items.items) scene.new }
{
    items.reverse();
    let mut released = false;
    while let Some(record) = items.pop() {
        released = undo_one(record, action, released, scene);
    }
    items.destroy_empty();
}

// Undoes a record, unless it is a lock and the action's locks are released; tells whether they are now.
fn undo_one<V: Drop, S: Scene<V>>(
    item: Record<V>,
    action: Uid,
    released: bool,
    scene: &mut S,
) -> bool
    ensures calls { Told S.step scene.old (calls_after (undone_by action) released item) scene.new }
    ensures released { result ≡ (released || is_lock item) }
{
    let is_lock = item.is_lock();
    if released && is_lock {
        item.discard();
        return true;
    }
    item.nested_abort(action, scene);
    released || is_lock
}

// Keeps each record, the first one first, but of the locks the first one alone.
fn keep_all<V: Drop, S: Scene<V>>(mut items: Vec<Record<V>>, action: Uid, scene: &mut S)
    ensures { Told S.step scene.old (calls_from (kept_by action) false items.items) scene.new }
{
    items.reverse();
    let mut passed = false;
    while let Some(record) = items.pop() {
        passed = keep_one(record, action, passed, scene);
    }
    items.destroy_empty();
}

// Keeps a record, unless it is a lock and the action's locks are passed; tells whether they are now.
fn keep_one<V: Drop, S: Scene<V>>(item: Record<V>, action: Uid, passed: bool, scene: &mut S) -> bool
    ensures calls { Told S.step scene.old (calls_after (kept_by action) passed item) scene.new }
    ensures passed { result ≡ (passed || is_lock item) }
{
    let is_lock = item.is_lock();
    if passed && is_lock {
        item.discard();
        return true;
    }
    item.top_commit(action, scene);
    passed || is_lock
}

// Lets each record go.
fn discard_all<V: Drop>(mut items: Vec<Record<V>>) {
    while let Some(record) = items.pop() {
        record.discard();
    }
    items.destroy_empty();
}

// Takes the records of an object out.
fn take_out<V: Drop>(items: &mut Vec<Record<V>>, object: Uid)
    ensures items { items.new.items ≡ forgotten object items.old.items }
    ensures capacity { vec_capacity items.new ≡ vec_capacity items.old }
{
    let mut i = 0;
    while i < items.len() {
        if items[i].object() == object {
            items.remove(i).discard();
        } else {
            i += 1;
        }
    }
}
