// The order of calls of different tops.
ghost use Rattle.std.specs.Prelude.{◌≡◌, ◌<◌, ◌==◌, ◌+◌, ℕ, List, true, map, max, nat_le, IfOk, OnOk, if◌then◌else◌};
ghost use Rattle.std.specs.BTreeMap.{get};
ghost use Rattle.std.specs.List.{AllByRecursion};
ghost use Rattle.std.specs.Option.{unwrap_or};
ghost use Rattle.std.specs.Ordering.{nat_cmp};
ghost use Rattle.arj_class.specs.Table.{writes as writes_op};
ghost use Rattle.arj_journal.specs.declared.header.Header.{Header};
ghost use Rattle.arj_model.specs.Calls.{Call};
ghost use Rattle.arj_replay.specs.Verdict.{HasCall};
ghost use Rattle.arj_book.specs.Ends.{ends_in};
ghost use Rattle.arj_book.specs.Kept.{end_with, no_ends, stand_behind};

use crate::calls::call_at;
use crate::ends::Ends;
use arj_journal::Line;
use std::alloc::{AllocError, Global};
use std::collections::BTreeMap;

// The end of the calls on an object, 0 where none is kept.
fn end_at(ends: &BTreeMap<u16, usize>, x: u16) -> usize
    ensures { result ≡ ends_in ends.now x }
{
    ends.get(&x).copied().unwrap_or(0)
}

// Raises the end of the calls on an object to this one, where it is below.
fn raise(ends: &mut BTreeMap<u16, usize>, x: u16, end: usize) -> Result<(), AllocError>
    ensures { OnOk result ((y : ℕ) → ends_in ends.new y ≡ (if x == y then max end (ends_in ends.old y) else ends_in ends.old y)) }
{
    let before = ends.get(&x).copied().unwrap_or(0);
    if before < end {
        ends.insert(x, end)?;
    }
    Ok(())
}

// Raises it to one behind a place, if the call there counts.
fn count(
    ends: &mut BTreeMap<u16, usize>,
    counts: bool,
    x: u16,
    place: usize,
) -> Result<(), AllocError>
    requires { place + 1 < 18446744073709551616 }
    ensures { OnOk result ((y : ℕ) → ends_in ends.new y ≡ end_with counts (ends_in ends.old) x place y) }
{
    if counts {
        raise(ends, x, place + 1)
    } else {
        Ok(())
    }
}

// The end of the calls that a call conflicts with.
fn end_for(ends: &Ends, x: u16, writes: bool) -> usize
    ensures { result ≡ (if writes then ends_in ends.now.any x else ends_in ends.now.wrote x) }
{
    if writes {
        end_at(&ends.any, x)
    } else {
        end_at(&ends.wrote, x)
    }
}

// Takes a call, and tells whether it stands behind those before it that it conflicts with.
fn take(ends: &mut Ends, x: u16, writes: bool, place: usize) -> Result<bool, AllocError>
    requires { place + 1 < 18446744073709551616 }
    ensures test { IfOk result (λ is. is ≡ nat_le (if writes then ends_in ends.old.any x else ends_in ends.old.wrote x) place) }
    ensures any { OnOk result ((y : ℕ) → ends_in ends.new.any y ≡ end_with true (ends_in ends.old.any) x place y) }
    ensures wrote { OnOk result ((y : ℕ) → ends_in ends.new.wrote y ≡ end_with writes (ends_in ends.old.wrote) x place y) }
{
    let is = end_for(ends, x, writes) <= place;
    count(&mut ends.any, true, x, place)?;
    count(&mut ends.wrote, writes, x, place)?;
    Ok(is)
}

// Takes the call at a place.
fn take_place(ends: &mut Ends, lines: &[Line], place: usize) -> Result<bool, AllocError>
    ensures test { (header : Header) (c : Call) → c.at ≡ place → HasCall header lines.now c
        → IfOk result (λ is. is ≡ nat_le (if writes_op c.op then ends_in ends.old.any c.x else ends_in ends.old.wrote c.x) c.at) }
    ensures any { (header : Header) (c : Call) → c.at ≡ place → HasCall header lines.now c → OnOk result ((y : ℕ) → ends_in ends.new.any y ≡ end_with true (ends_in ends.old.any) c.x c.at y) }
    ensures wrote { (header : Header) (c : Call) → c.at ≡ place → HasCall header lines.now c → OnOk result ((y : ℕ) → ends_in ends.new.wrote y ≡ end_with (writes_op c.op) (ends_in ends.old.wrote) c.x c.at y) }
{
    if place >= lines.len() {
        return Ok(true);
    }
    match call_at(lines, place) {
        None => Ok(true),
        Some((x, writes)) => take(ends, x, writes, place),
    }
}

/// Whether each of these calls, which are in serial order, was answered behind those before it that it conflicts with.
pub fn are_in_order(alloc: Global, lines: &[Line], places: &[usize]) -> Result<bool, AllocError>
    ensures { (header : Header) (cs : List Call) → map (λ c. c.at) cs ≡ places.now → AllByRecursion (HasCall header lines.now) cs
        → IfOk result (λ is. is ≡ stand_behind no_ends no_ends cs) }
{
    let mut ends = Ends::new(alloc);
    for place in places {
        let behind = take_place(&mut ends, lines, *place)?;
        if !behind {
            return Ok(false);
        }
    }
    Ok(true)
}
