// The checker.
ghost use Rattle.std.specs.Prelude.{◌≡◌, ℕ, List, map, Some, Err, IfOk};
ghost use Rattle.std.specs.List.{filter_map};
ghost use Rattle.arj_journal.specs.declared.body.Line.{Line as line_type};
ghost use Rattle.arj_model.specs.Actions.{Act, acts, committed, recovered};
ghost use Rattle.arj_model.specs.Calls.{tops};
ghost use Rattle.arj_model.specs.Serial.{serial_calls};
ghost use Rattle.arj_replay.specs.Verdict.{IsWrong};
ghost use Rattle.arj_replay.specs.Orders.{nested_difference, paths, serial_difference};
ghost use Rattle.arj_replay.specs.Sorting.{last_in_order};
ghost use Rattle.arj_reading.specs.Readable.{Readable, broken};
ghost use Rattle.arj_reading.specs.Reading.{HasRead, placed_of};
ghost use Rattle.arj_reading.specs.declared.fault.CheckFault.TheVariants as check_fault;
ghost use Rattle.arj_reading.specs.declared.rule.Broken.{Broken as broken_type};
ghost use Rattle.arj_check.specs.Keys.{AreBelow, key_at, key_of};
ghost use Rattle.arj_check.specs.Verdicts.{SaysVerdict};

use crate::commits::commit_keys;
use crate::keys::{Parts, call_keys};
use crate::places::survivals;
use crate::tops::make_tops;
use crate::verdict::Verdict;
use arj_journal::{Header, Line, Lines};
use arj_reading::{CheckFault, Reading, read};
use arj_replay::{Key, Wrong, in_order, replay};
use std::alloc::{AllocError, Global};

/// The verdict on a journal, by the header of its script: the first call whose answer differs, if there is one, in serial order,
/// and where each nested action is run whole at its commit.
pub fn check(alloc: Global, header: &Header, journal: &Lines) -> Result<Verdict, CheckFault>
    ensures verdict { IfOk result (λ verdict. Readable header.now journal.now × SaysVerdict header.now journal.now verdict) }
    ensures broken { (b : broken_type) → result ≡ Err (check_fault.Unreadable b) → broken header.now journal.now ≡ Some b }
{
    let lines = journal.as_slice();
    let reading = read(alloc, header, lines)?;
    match verdict(alloc, header, lines, &reading) {
        Ok(verdict) => Ok(verdict),
        Err(AllocError) => Err(CheckFault::Memory),
    }
}

// The verdict on a journal that can be read.
fn verdict(
    alloc: Global,
    header: &Header,
    lines: &[Line],
    reading: &Reading,
) -> Result<Verdict, AllocError>
    ensures { Readable header.now lines.now → HasRead lines.now reading.now → IfOk result (λ verdict. SaysVerdict header.now lines.now verdict) }
{
    let serial = serial(alloc, header, lines, reading)?;
    let nested = nested(alloc, header, lines, reading)?;
    Ok(Verdict { serial, nested })
}

// The first call in serial order whose answer differs.
fn serial(
    alloc: Global,
    header: &Header,
    lines: &[Line],
    reading: &Reading,
) -> Result<Option<Wrong>, AllocError>
    ensures { Readable header.now lines.now → HasRead lines.now reading.now → IfOk result (λ wrong. IsWrong lines.now (serial_difference header.now lines.now) wrong) }
{
    let places = serial_places(alloc, reading)?;
    replay(alloc, header, lines, places.as_slice())
}

/// The places of the surviving calls of committed tops, in serial order.
pub fn serial_places(alloc: Global, reading: &Reading) -> Result<Vec<usize>, AllocError>
    ensures { (lines : List line_type) → HasRead lines reading.now → IfOk result (λ places. places.items ≡ map (λ c. c.at) (serial_calls lines)) }
{
    places_by(alloc, reading, &[])
}

// The first call whose answer differs, where each nested action is run whole at its commit.
fn nested(
    alloc: Global,
    header: &Header,
    lines: &[Line],
    reading: &Reading,
) -> Result<Option<Wrong>, AllocError>
    ensures { Readable header.now lines.now → HasRead lines.now reading.now → IfOk result (λ wrong. IsWrong lines.now (nested_difference header.now lines.now) wrong) }
{
    let below = commit_keys(alloc, reading)?;
    let places = places_by(alloc, reading, below.as_slice())?;
    replay(alloc, header, lines, places.as_slice())
}

// The places of the surviving calls of committed tops, by their keys.
fn places_by(alloc: Global, reading: &Reading, below: &[Key]) -> Result<Vec<usize>, AllocError>
    ensures { (lines : List line_type) (f : List Act → List ℕ) → HasRead lines reading.now → AreBelow (paths (acts lines)) f (map (λ k. k.items) below.now)
        → IfOk result (λ places. places.items ≡ last_in_order (filter_map (key_at (key_of (tops lines) f) (committed lines) (recovered lines) (paths (acts lines))) (map placed_of reading.now.said.items))) }
{
    let survives = survivals(alloc, reading)?;
    let tops = make_tops(alloc, reading)?;
    let parts = Parts {
        survives: survives.as_slice(),
        tops: &tops,
        below,
    };
    let keys = call_keys(alloc, reading, &parts)?;
    in_order(alloc, keys)
}
