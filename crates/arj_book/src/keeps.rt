// Whether a journal keeps the lock book.
ghost use Rattle.std.specs.Prelude.{◌≡◌, List, map, IfOk, MatchBool};
ghost use Rattle.arj_journal.specs.declared.body.Line.{Line as line_type};
ghost use Rattle.arj_model.specs.Actions.{committed};
ghost use Rattle.arj_model.specs.Book.{Answered, InOrder};
ghost use Rattle.arj_model.specs.Calls.{committed_calls, tops};
ghost use Rattle.arj_model.specs.Last.{first_values};
ghost use Rattle.arj_model.specs.Nested.{AnsweredInTime, FreedInOrder};
ghost use Rattle.arj_reading.specs.Readable.{Readable};
ghost use Rattle.arj_reading.specs.Reading.{HasRead};
ghost use Rattle.arj_replay.specs.Orders.{nested_place};
ghost use Rattle.arj_replay.specs.Sorting.{last_of as last_number};
ghost use Rattle.arj_book.specs.Order.{KeepsOrder};

use crate::calls::last_of;
use crate::nested::{are_freed, are_in_time};
use crate::order::are_in_order;
use arj_check::{
    Parts, call_keys, calls_are_found_by_marks, commit_keys, make_tops, no_difference_is_right,
    readable_calls_can_be_run, readable_tops_have_own_keys, serial_places, survivals,
};
use arj_journal::{Header, Line};
use arj_reading::Reading;
use arj_replay::{Key, replay};
use std::alloc::{AllocError, Global};

// The keys of the surviving calls of committed tops, in the order of their lines.
fn keys_of(alloc: Global, reading: &Reading) -> Result<Vec<Key>, AllocError>
    ensures { (lines : List line_type) → HasRead lines reading.now → IfOk result (λ keys. map (λ k. k.items) keys.items ≡ map (nested_place (tops lines) (committed lines)) (committed_calls lines)) }
{
    calls_are_found_by_marks();
    let survives = survivals(alloc, reading)?;
    let tops = make_tops(alloc, reading)?;
    let below = commit_keys(alloc, reading)?;
    let parts = Parts {
        survives: survives.as_slice(),
        tops: &tops,
        below: below.as_slice(),
    };
    call_keys(alloc, reading, &parts)
}

// The places of calls, by their keys.
fn places_of(alloc: Global, keys: &[Key]) -> Result<Vec<usize>, AllocError>
    ensures { IfOk result (λ places. places.items ≡ map last_number (map (λ k. k.items) keys.now)) }
{
    let mut places = Vec::new(alloc);
    for key in keys {
        places.push(last_of(key.as_slice()))?;
    }
    Ok(places)
}

// Whether calls of different tops are in order.
fn are_serial(
    alloc: Global,
    header: &Header,
    lines: &[Line],
    reading: &Reading,
) -> Result<bool, AllocError>
    ensures { Readable header.now lines.now → HasRead lines.now reading.now → IfOk result (λ is. MatchBool is (InOrder lines.now) (InOrder lines.now → ⊥)) }
{
    readable_calls_can_be_run();
    readable_tops_have_own_keys();
    let places = serial_places(alloc, reading)?;
    are_in_order(alloc, lines, places.as_slice())
}

// Whether each call is answered by those before it.
fn are_answered(
    alloc: Global,
    header: &Header,
    lines: &[Line],
    keys: &[Key],
) -> Result<bool, AllocError>
    ensures { Readable header.now lines.now → map (λ k. k.items) keys.now ≡ map (nested_place (tops lines.now) (committed lines.now)) (committed_calls lines.now)
        → IfOk result (λ is. MatchBool is (Answered (first_values header.now) lines.now) (Answered (first_values header.now) lines.now → ⊥)) }
{
    no_difference_is_right();
    readable_calls_can_be_run();
    let places = places_of(alloc, keys)?;
    let wrong = replay(alloc, header, lines, places.as_slice())?;
    match wrong {
        None => Ok(true),
        Some(_differs) => Ok(false),
    }
}

// Whether the calls of each top are in order.
fn are_nested(
    alloc: Global,
    header: &Header,
    lines: &[Line],
    keys: &[Key],
) -> Result<bool, AllocError>
    ensures { Readable header.now lines.now → map (λ k. k.items) keys.now ≡ map (nested_place (tops lines.now) (committed lines.now)) (committed_calls lines.now)
        → IfOk result (λ is. MatchBool is (FreedInOrder lines.now) (FreedInOrder lines.now → ⊥)) }
{
    readable_calls_can_be_run();
    readable_tops_have_own_keys();
    are_freed(alloc, lines, keys)
}

// Whether each call was answered in time.
fn are_timely(lines: &[Line], keys: &[Key]) -> bool
    ensures { map (λ k. k.items) keys.now ≡ map (nested_place (tops lines.now) (committed lines.now)) (committed_calls lines.now)
        → MatchBool result (AnsweredInTime lines.now) (AnsweredInTime lines.now → ⊥) }
{
    are_in_time(keys)
}

// Whether the calls with these keys keep the book but for the order of different tops.
fn keep_answers(
    alloc: Global,
    header: &Header,
    lines: &[Line],
    keys: &[Key],
) -> Result<bool, AllocError>
    ensures { Readable header.now lines.now → map (λ k. k.items) keys.now ≡ map (nested_place (tops lines.now) (committed lines.now)) (committed_calls lines.now)
        → InOrder lines.now → IfOk result (λ is. MatchBool is (KeepsOrder (first_values header.now) lines.now) (KeepsOrder (first_values header.now) lines.now → ⊥)) }
{
    let answered = are_answered(alloc, header, lines, keys)?;
    if !answered {
        return Ok(false);
    }
    let timely = are_timely(lines, keys);
    if !timely {
        return Ok(false);
    }
    are_nested(alloc, header, lines, keys)
}

/// Whether a journal that can be read as a run keeps the book, by what was read of it.
pub fn keeps_order(
    alloc: Global,
    header: &Header,
    lines: &[Line],
    reading: &Reading,
) -> Result<bool, AllocError>
    ensures { Readable header.now lines.now → HasRead lines.now reading.now → IfOk result (λ is. MatchBool is (KeepsOrder (first_values header.now) lines.now) (KeepsOrder (first_values header.now) lines.now → ⊥)) }
{
    let serial = are_serial(alloc, header, lines, reading)?;
    if !serial {
        return Ok(false);
    }
    let keys = keys_of(alloc, reading)?;
    keep_answers(alloc, header, lines, keys.as_slice())
}
