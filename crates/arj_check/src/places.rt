// What the keys of calls are made of, of each action.
ghost use Rattle.std.specs.Prelude.{◌≡◌, ◌&&◌, ◌||◌, List, Some, map, take, IfOk, slice_get};
ghost use Rattle.arj_journal.specs.declared.body.Line.{Line};
ghost use Rattle.arj_model.specs.Actions.{Act, acts, committed, recovered};
ghost use Rattle.arj_reading.specs.Reading.{HasRead, actions_of};
ghost use Rattle.arj_check.specs.Keys.{is_committed_top};
ghost use Rattle.arj_replay.specs.Orders.{paths, survives as survives_of, test_at};

use arj_reading::{Action, Reading, TopAction, kept};
use std::alloc::{AllocError, Global};

/// Whether a top is committed.
pub fn is_committed(reading: &Reading, top: &TopAction) -> bool
    ensures { (lines : List Line) → HasRead lines reading.now → result ≡ is_committed_top (committed lines) (recovered lines) top.now }
{
    let by_line = reading.committed.contains_key(&top.number);
    let by_record = reading.found.contains_key(&top.uid);
    either(by_line, by_record)
}

// Whether one of two tests holds.
fn either(first: bool, second: bool) -> bool
    ensures { result ≡ (first || second) }
{
    first || second
}

// Whether both of two tests hold.
fn both(first: bool, second: bool) -> bool
    ensures { result ≡ (first && second) }
{
    first && second
}

// Whether the calls of an action survive, by those of the actions before it.
fn survives(reading: &Reading, number: usize, action: &Action, before: &[bool]) -> bool
    ensures { (lines : List Line) (p : List Act) → HasRead lines reading.now → slice_get (actions_of (acts lines)) number ≡ Some action.now → slice_get (paths (acts lines)) number ≡ Some p
        → before.now ≡ map (survives_of (committed lines) (recovered lines)) (take number (paths (acts lines))) → result ≡ survives_of (committed lines) (recovered lines) p }
{
    let Some(top) = action.top else {
        return false;
    };
    if top.number == number {
        return is_committed(reading, &top);
    }
    let ended = reading.committed.contains_key(&number);
    let above = is_true_at(before, action.above);
    both(ended, above)
}

/// Whether the test at a place holds, if there is a place.
pub fn is_true_at(tests: &[bool], at: Option<usize>) -> bool
    ensures { result ≡ test_at tests.now at }
{
    match at {
        None => false,
        Some(at) => match tests.get(at) {
            None => false,
            Some(test) => *test,
        },
    }
}

// Whether the calls of the action of this number survive, by those of the actions before it.
fn survives_at(reading: &Reading, number: usize, before: &[bool]) -> bool
    ensures { (lines : List Line) (p : List Act) → HasRead lines reading.now → slice_get (paths (acts lines)) number ≡ Some p
        → before.now ≡ map (survives_of (committed lines) (recovered lines)) (take number (paths (acts lines))) → result ≡ survives_of (committed lines) (recovered lines) p }
{
    match kept(reading, number) {
        None => false,
        Some(action) => survives(reading, number, &action, before),
    }
}

/// Whether the calls of each action survive, and its top is committed.
pub fn survivals(alloc: Global, reading: &Reading) -> Result<Vec<bool>, AllocError>
    ensures { (lines : List Line) → HasRead lines reading.now → IfOk result (λ tests. tests.items ≡ map (survives_of (committed lines) (recovered lines)) (paths (acts lines))) }
{
    let mut tests: Vec<bool> = Vec::new(alloc);
    for number in 0..reading.list.len() {
        let test = survives_at(reading, number, tests.as_slice());
        tests.push(test)?;
    }
    Ok(tests)
}
