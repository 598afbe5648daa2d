// The keys of the surviving calls of committed tops.
ghost use Rattle.std.specs.Prelude.{◌≡◌, ◌++◌, ℕ, List, [], map, IfOk, OnOk, Some};
ghost use Rattle.std.specs.List.{cons_option, filter_map};
ghost use Rattle.std.specs.Option.{option_map};
ghost use Rattle.arj_journal.specs.declared.body.Line.{Line};
ghost use Rattle.arj_model.specs.Actions.{Act, acts, committed, recovered};
ghost use Rattle.arj_model.specs.Calls.{tops as tops_of};
ghost use Rattle.arj_reading.specs.Reading.{HasRead, placed_of};
ghost use Rattle.arj_replay.specs.Orders.{paths, survives as survives_of};
ghost use Rattle.arj_check.specs.Keys.{AreBelow, key_at, key_of, numbers_at};
ghost use Rattle.arj_check.specs.Kept.{HasTops};

use crate::places::is_true_at;
use crate::tops::Tops;
use arj_reading::{Mark, Reading, kept};
use arj_replay::Key;
use std::alloc::{AllocError, Global};

/// What keys are made of: whether the calls of each action survive, the committed tops, and the numbers that stand between the
/// place of a top and that of a call, of each action.
#[derive(Clone, Copy)]
pub struct Parts<'a> {
    pub survives: &'a [bool],
    pub tops: &'a Tops,
    pub below: &'a [Key],
}

// Puts the numbers at a place behind a key, if there are some.
fn put_numbers(key: &mut Key, below: &[Key], at: usize) -> Result<(), AllocError>
    ensures { OnOk result (key.new.items ≡ key.old.items ++ numbers_at (map (λ k. k.items) below.now) (Some at)) }
{
    match below.get(at) {
        None => Ok(()),
        Some(numbers) => key.extend_from_slice(numbers.as_slice()),
    }
}

// The key of a call that was answered, where it survives and its top is committed.
fn call_key(
    alloc: Global,
    reading: &Reading,
    parts: &Parts,
    mark: Mark,
) -> Result<Option<Key>, AllocError>
    ensures { (lines : List Line) (below : List Act → List ℕ) → HasRead lines reading.now → parts.now.survives.now ≡ map (survives_of (committed lines) (recovered lines)) (paths (acts lines)) → HasTops (tops_of lines) parts.now.tops.now
        → AreBelow (paths (acts lines)) below (map (λ k. k.items) parts.now.below.now)
        → IfOk result (λ key. option_map (λ k. k.items) key ≡ key_at (key_of (tops_of lines) below) (committed lines) (recovered lines) (paths (acts lines)) (placed_of mark)) }
{
    if !is_true_at(parts.survives, Some(mark.action)) {
        return Ok(None);
    }
    let Some(action) = kept(reading, mark.action) else {
        return Ok(None);
    };
    let Some(top) = action.top else {
        return Ok(None);
    };
    let mut key = parts.tops.key(alloc, top.number)?;
    put_numbers(&mut key, parts.below, mark.action)?;
    key.push(mark.at)?;
    Ok(Some(key))
}

// One key more, if there is one.
fn put_key(keys: &mut Vec<Key>, key: Option<Key>) -> Result<(), AllocError>
    ensures { OnOk result (map (λ k. k.items) keys.new.items ≡ map (λ k. k.items) keys.old.items ++ cons_option (option_map (λ k. k.items) key) []) }
{
    if let Some(key) = key {
        keys.push(key)?;
    }
    Ok(())
}

/// The keys of the surviving calls of committed tops.
pub fn call_keys(alloc: Global, reading: &Reading, parts: &Parts) -> Result<Vec<Key>, AllocError>
    ensures { (lines : List Line) (below : List Act → List ℕ) → HasRead lines reading.now → parts.now.survives.now ≡ map (survives_of (committed lines) (recovered lines)) (paths (acts lines)) → HasTops (tops_of lines) parts.now.tops.now
        → AreBelow (paths (acts lines)) below (map (λ k. k.items) parts.now.below.now)
        → IfOk result (λ keys. map (λ k. k.items) keys.items ≡ filter_map (key_at (key_of (tops_of lines) below) (committed lines) (recovered lines) (paths (acts lines))) (map placed_of reading.now.said.items)) }
{
    let mut keys = Vec::new(alloc);
    for mark in reading.said.iter() {
        put_key(&mut keys, call_key(alloc, reading, parts, *mark)?)?;
    }
    Ok(keys)
}
