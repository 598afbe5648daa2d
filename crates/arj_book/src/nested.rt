// The order of calls of one top.
ghost use Rattle.std.specs.Prelude.{◌≡◌, ◌&&◌, ◌||◌, ◌<◌, ◌≤◌, ◌++◌, ◌∷◌, [], List, ℕ, map, filter, length, not, take, drop, nat_lt, slice_get, IfOk};
ghost use Rattle.std.specs.List.{list_all};
ghost use Rattle.arj_model.specs.Last.{is_among as is_in, same_list};
ghost use Rattle.arj_replay.specs.Sorting.{last_of as last_number};
ghost use Rattle.arj_book.specs.Kept.{are_past, call_in_lines, calls_conflict, commits_of, key_freed, keys_freed, keys_in_time, same_top};

use crate::calls::{call_at, last_of};
use arj_journal::Line;
use arj_replay::Key;
use std::alloc::{AllocError, Global};

// The places of the commits of the actions below the top.
#[tactic(auto, using(std::proofs::lemmas::List::take_rest))]
fn commits(key: &[usize]) -> &[usize]
    ensures { result.now ≡ commits_of key.now }
{
    if key.len() < 3 {
        return &[];
    }
    &key[2..key.len() - 1]
}

// The place of the unit of a call's top, and that of the top.
#[tactic(auto, using(std::proofs::lemmas::List::take_rest))]
fn front(key: &[usize]) -> &[usize]
    ensures { result.now ≡ take 2 key.now }
{
    if key.len() < 2 {
        return key;
    }
    &key[..2]
}

// Whether two calls are of one top.
fn are_of_one_top(c: &[usize], d: &[usize]) -> bool
    ensures { result ≡ same_top c.now d.now }
{
    front(c) == front(d)
}

// Whether two calls are of one object, and one of them writes.
fn conflict(c: Option<(u16, bool)>, d: Option<(u16, bool)>) -> bool
    ensures { result ≡ calls_conflict c d }
{
    match (c, d) {
        (Some((x, writes)), Some((y, writes_too))) => x == y && (writes || writes_too),
        _ => false,
    }
}

// Whether a number is among these.
fn is_among(numbers: &[usize], number: usize) -> bool
    ensures { result ≡ is_in numbers.now number }
{
    for other in numbers {
        if *other == number {
            return true;
        }
    }
    false
}

// Whether each of these commits was before a place, or is among those.
fn are_free(commits: &[usize], those: &[usize], at: usize) -> bool
    ensures { result ≡ are_past commits.now those.now at }
{
    for commit in commits {
        if !(*commit < at || is_among(those, *commit)) {
            return false;
        }
    }
    true
}

// Whether two calls, by their keys, are of one top and conflict.
fn meet(lines: &[Line], c: &[usize], d: &[usize]) -> bool
    ensures { result ≡ (same_top c.now d.now && calls_conflict (call_in_lines lines.now (last_number c.now)) (call_in_lines lines.now (last_number d.now))) }
{
    if !are_of_one_top(c, d) {
        return false;
    }
    conflict(call_at(lines, last_of(c)), call_at(lines, last_of(d)))
}

// Whether a call doesn't wait for one before it.
fn is_freed(lines: &[Line], c: &[usize], d: &[usize]) -> bool
    ensures { result ≡ key_freed (call_in_lines lines.now) c.now d.now }
{
    if !meet(lines, c, d) {
        return true;
    }
    are_free(commits(c), commits(d), last_of(d))
}

// Whether it doesn't wait for any of these.
fn is_freed_by(lines: &[Line], left: &[Key], d: &[usize]) -> bool
    ensures { result ≡ list_all (λ c. key_freed (call_in_lines lines.now) c d.now) (map (λ k. k.items) left.now) }
{
    for c in left {
        if !is_freed(lines, c.as_slice(), d) {
            return false;
        }
    }
    true
}

// Whether an action that a call was made in is committed at this place or behind it.
fn is_open(key: &[usize], at: usize) -> bool
    ensures { result ≡ not (are_past (commits_of key.now) [] at) }
{
    !are_free(commits(key), &[], at)
}

// Drops those of these calls that aren't left.
fn close(left: &mut Vec<Key>, at: usize)
    ensures { map (λ k. k.items) left.new.items ≡ filter (λ c. not (are_past (commits_of c) [] at)) (map (λ k. k.items) left.old.items) }
{
    let mut i = 0;
    while i < left.len() {
        if is_open(left[i].as_slice(), at) {
            i += 1;
        } else {
            left.remove(i);
        }
    }
}

// A copy of a key.
fn copied(alloc: Global, key: &[usize]) -> Result<Key, AllocError>
    ensures { IfOk result (λ copy. copy.items ≡ key.now) }
{
    let mut copy = Vec::new(alloc);
    copy.extend_from_slice(key)?;
    Ok(copy)
}

/// Whether each call was answered only when the actions that conflicting calls of its top were made in, and it wasn't, were committed.
pub fn are_freed(alloc: Global, lines: &[Line], keys: &[Key]) -> Result<bool, AllocError>
    ensures { IfOk result (λ is. is ≡ keys_freed (call_in_lines lines.now) [] (map (λ k. k.items) keys.now)) }
{
    let mut left: Vec<Key> = Vec::new(alloc);
    for key in keys {
        if !is_freed_by(lines, left.as_slice(), key.as_slice()) {
            return Ok(false);
        }
        close(&mut left, last_of(key.as_slice()));
        let copy = copied(alloc, key.as_slice())?;
        left.push(copy)?;
    }
    Ok(true)
}

// Whether a call was answered before the actions that it was made in were committed.
fn are_behind(commits: &[usize], at: usize) -> bool
    ensures { result ≡ list_all (λ m. nat_lt at m) commits.now }
{
    for commit in commits {
        if !(at < *commit) {
            return false;
        }
    }
    true
}

/// Whether each call was answered before the actions that it was made in were committed.
pub fn are_in_time(keys: &[Key]) -> bool
    ensures { result ≡ keys_in_time (map (λ k. k.items) keys.now) }
{
    for key in keys {
        if !are_behind(commits(key.as_slice()), last_of(key.as_slice())) {
            return false;
        }
    }
    true
}
