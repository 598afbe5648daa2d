// The places of the commits below a top, of each action.
ghost use Rattle.std.specs.Prelude.{◌≡◌, ◌++◌, ℕ, List, Some, map, take, IfOk, slice_get};
ghost use Rattle.std.specs.BTreeMap.{get};
ghost use Rattle.std.specs.Option.{unwrap_or};
ghost use Rattle.std.specs.Ordering.{nat_cmp};
ghost use Rattle.arj_journal.specs.declared.body.Line.{Line};
ghost use Rattle.arj_model.specs.Actions.{Act, acts, committed};
ghost use Rattle.arj_reading.specs.Reading.{HasRead, actions_of};
ghost use Rattle.arj_replay.specs.Orders.{commits_in, paths};
ghost use Rattle.arj_check.specs.Keys.{numbers_at};

use arj_reading::{Action, Reading, kept};
use arj_replay::Key;
use std::alloc::{AllocError, Global};

// The place of the first line that commits an action, 0 where none does.
fn commit_at(reading: &Reading, number: usize) -> usize
    ensures { result ≡ unwrap_or (get nat_cmp reading.now.committed number) 0 }
{
    reading.committed.get(&number).copied().unwrap_or(0)
}

// A copy of the numbers at a place, none where there is no place.
fn copied_numbers(alloc: Global, keys: &[Key], at: Option<usize>) -> Result<Key, AllocError>
    ensures { IfOk result (λ key. key.items ≡ numbers_at (map (λ k. k.items) keys.now) at) }
{
    let mut key = Vec::new(alloc);
    let Some(at) = at else {
        return Ok(key);
    };
    let Some(numbers) = keys.get(at) else {
        return Ok(key);
    };
    key.extend_from_slice(numbers.as_slice())?;
    Ok(key)
}

// The places of the commits below the top of an action, by those of the actions before it.
fn commits_of(
    alloc: Global,
    reading: &Reading,
    number: usize,
    action: &Action,
    before: &[Key],
) -> Result<Key, AllocError>
    ensures { (lines : List Line) (p : List Act) → HasRead lines reading.now → slice_get (actions_of (acts lines)) number ≡ Some action.now → slice_get (paths (acts lines)) number ≡ Some p
        → map (λ k. k.items) before.now ≡ map (commits_in (committed lines)) (take number (paths (acts lines))) → IfOk result (λ key. key.items ≡ commits_in (committed lines) p) }
{
    let Some(top) = action.top else {
        return Ok(Vec::new(alloc));
    };
    if top.number == number {
        return Ok(Vec::new(alloc));
    }
    let mut key = copied_numbers(alloc, before, action.above)?;
    key.push(commit_at(reading, number))?;
    Ok(key)
}

// The same, of the action of this number.
fn commits_at(
    alloc: Global,
    reading: &Reading,
    number: usize,
    before: &[Key],
) -> Result<Key, AllocError>
    ensures { (lines : List Line) (p : List Act) → HasRead lines reading.now → slice_get (paths (acts lines)) number ≡ Some p
        → map (λ k. k.items) before.now ≡ map (commits_in (committed lines)) (take number (paths (acts lines))) → IfOk result (λ key. key.items ≡ commits_in (committed lines) p) }
{
    match kept(reading, number) {
        None => Ok(Vec::new(alloc)),
        Some(action) => commits_of(alloc, reading, number, &action, before),
    }
}

/// The places of the commits of the actions below the top, of each action.
pub fn commit_keys(alloc: Global, reading: &Reading) -> Result<Vec<Key>, AllocError>
    ensures { (lines : List Line) → HasRead lines reading.now → IfOk result (λ keys. map (λ k. k.items) keys.items ≡ map (commits_in (committed lines)) (paths (acts lines))) }
{
    let mut keys: Vec<Key> = Vec::new(alloc);
    for number in 0..reading.list.len() {
        let key = commits_at(alloc, reading, number, keys.as_slice())?;
        keys.push(key)?;
    }
    Ok(keys)
}
