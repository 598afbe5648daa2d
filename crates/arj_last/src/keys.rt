// The surviving writes on an object, by their keys.
ghost use Rattle.std.specs.Prelude.{◌≡◌, ◌||◌, ◌++◌, ℕ, List, IfOk, OnOk, [], map};
ghost use Rattle.std.specs.List.{cons_option};
ghost use Rattle.std.specs.Option.{option_map};
ghost use Rattle.arj_changes.specs.Kept.{AreKept, is_ended, is_found};
ghost use Rattle.arj_journal.specs.declared.body.Line.{Line as line_type};
ghost use Rattle.arj_model.specs.Calls.{tops};
ghost use Rattle.arj_model.specs.Serial.{serial_key};
ghost use Rattle.arj_last.specs.Kept.{AreWritten};
ghost use Rattle.arj_last.specs.Survivors.{key_of, survives_by, survivors_from, survivor};

use crate::groups::items_at;
use crate::kept::{Write, Writes};
use arj_base::Uid;
use arj_changes::{Changes, are_committed, done_in, either, place_of, root_of, unit_of};
use arj_replay::Key;
use std::alloc::{AllocError, Global};

/// Whether the top with this number and Uid is committed.
pub fn is_committed(changes: &Changes, top: usize, uid: Uid) -> bool
    ensures { result ≡ (is_ended changes.now top || is_found changes.now uid) }
{
    let by_line = changes.committed.contains_key(&top);
    let by_record = changes.found.contains_key(&uid);
    either(by_line, by_record)
}

// Whether a write survives, and its top is committed.
fn survives(changes: &Changes, write: &Write) -> bool
    ensures { result ≡ survives_by (is_ended changes.now) (is_found changes.now) write.now }
{
    if !are_committed(changes, write.chain.as_slice()) {
        return false;
    }
    is_committed(changes, write.top, write.writer)
}

// The place of a top's unit, and its own.
fn front(alloc: Global, changes: &Changes, writes: &Writes, top: usize) -> Result<Key, AllocError>
    ensures { (lines : List line_type) → AreKept lines changes.now → AreWritten lines writes.now → IfOk result (λ key. key.items ≡ serial_key (tops lines) top) }
{
    let own = done_in(alloc, changes, items_at(&writes.by_top, top))?;
    let root = root_of(own.as_slice(), top);
    let unit = done_in(alloc, changes, items_at(&writes.by_root, root))?;
    let mut key = Vec::new(alloc);
    key.push(unit_of(unit.as_slice(), root))?;
    key.push(place_of(own.as_slice(), top))?;
    Ok(key)
}

// The key of the write at a place among those on its object, where it survives.
fn key(
    alloc: Global,
    changes: &Changes,
    writes: &Writes,
    write: &Write,
    at: usize,
) -> Result<Option<Key>, AllocError>
    ensures { (lines : List line_type) → AreKept lines changes.now → AreWritten lines writes.now
        → IfOk result (λ key. option_map (λ k. k.items) key ≡ option_map (key_of (serial_key (tops lines))) (survivor (survives_by (is_ended changes.now) (is_found changes.now)) at write.now)) }
{
    if !survives(changes, write) {
        return Ok(None);
    }
    let mut key = front(alloc, changes, writes, write.top)?;
    key.push(at)?;
    Ok(Some(key))
}

// One key more, if there is one.
fn put_key(keys: &mut Vec<Key>, key: Option<Key>) -> Result<(), AllocError>
    ensures { OnOk result (map (λ k. k.items) keys.new.items ≡ map (λ k. k.items) keys.old.items ++ cons_option (option_map (λ k. k.items) key) []) }
{
    if let Some(key) = key {
        keys.push(key)?;
    }
    Ok(())
}

/// The keys of the surviving ones of these writes: the place of its unit, that of its top, and its own among these.
pub fn keys_of(
    alloc: Global,
    changes: &Changes,
    writes: &Writes,
    all: &[Write],
) -> Result<Vec<Key>, AllocError>
    ensures { (lines : List line_type) → AreKept lines changes.now → AreWritten lines writes.now
        → IfOk result (λ keys. map (λ k. k.items) keys.items ≡ map (key_of (serial_key (tops lines))) (survivors_from (survives_by (is_ended changes.now) (is_found changes.now)) 0 all.now)) }
{
    let mut keys = Vec::new(alloc);
    for (at, write) in all.iter().enumerate() {
        put_key(&mut keys, key(alloc, changes, writes, write, at)?)?;
    }
    Ok(keys)
}
