// Calls, by their lines and by their keys.
ghost use Rattle.std.specs.Prelude.{◌≡◌, slice_get};
ghost use Rattle.std.specs.Option.{option_copied};
ghost use Rattle.arj_class.specs.Table.{writes as writes_op};
ghost use Rattle.arj_replay.specs.Sorting.{last_of as last_number};
ghost use Rattle.arj_book.specs.Kept.{call_in as call_of_body, call_of};

use arj_class::Op;
use arj_journal::{Body, Line};

/// The last number of a key.
pub fn last_of(key: &[usize]) -> usize
    ensures { result ≡ last_number key.now }
{
    match key.last() {
        None => 0,
        Some(place) => *place,
    }
}

// Whether an operation writes.
fn is_writing(op: &Op) -> bool
    ensures { result ≡ writes_op op.now }
{
    match op {
        Op::Get | Op::Len | Op::GetKey(_) => false,
        Op::Add(_) | Op::Set(_) | Op::Put(_) | Op::Deposit(_) | Op::Withdraw(_) => true,
        Op::Push(_) | Op::Pop | Op::PutPair(_, _) | Op::Remove(_) => true,
        Op::Create(_) | Op::Destroy => true,
    }
}

// The line at a place.
fn line_at(lines: &[Line], place: usize) -> Option<&Line>
    ensures { option_copied result ≡ slice_get lines.now place }
{
    lines.get(place)
}

// The object of the call that a line answers, and whether it writes.
fn call_in(body: &Body) -> Option<(u16, bool)>
    ensures { result ≡ call_of_body body.now }
{
    match body {
        Body::Ok { x, op, .. } => Some((*x, is_writing(op))),
        _ => None,
    }
}

/// The object of the call that the line at a place answers, and whether it writes.
pub fn call_at(lines: &[Line], place: usize) -> Option<(u16, bool)>
    ensures { result ≡ call_of (slice_get lines.now place) }
{
    match line_at(lines, place) {
        None => None,
        Some(line) => call_in(&line.body),
    }
}
