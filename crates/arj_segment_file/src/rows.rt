// What is read of a Segment or Pending file: its rows, each with a packed state.
ghost use Rattle.std.specs.Prelude.{◌≡◌, ◌≤◌, true, false, None, Some, length, take, drop, IfOk, MatchOption};
ghost use Rattle.std.specs.List.{AllByRecursion};
ghost use Rattle.arj_base.specs.State.{StateInForm};
ghost use Rattle.arj_disk.specs.Says.{uid_in, new_of};
ghost use Rattle.arj_disk.specs.declared.slot.Role.{Role};
ghost use Rattle.arj_store.specs.Pair.{packed};
ghost use Rattle.arj_segment_file.specs.Format.{two_in, has_row, first_in, rest_in, rows_in, states_in, IsSegment};

use arj_base::{States, Uid};
use arj_store::state_in;
use std::alloc::{AllocError, Global};

/// How many bytes of a file stand before its rows: `ARJS` and the count.
const FILE_HEAD: usize = 6;

/// How many bytes of a packed state go to the end of its Uid.
const UID_END: usize = 20;

// The number in the first two bytes.
fn two_of(bytes: &[u8]) -> usize
    requires { 2 ≤ length bytes.now }
    ensures { result ≡ two_in bytes.now }
{
    usize::from(bytes[0]) * 256 + usize::from(bytes[1])
}

// How many rows a file says that it has, and the bytes of these.
#[tactic(auto, using(std::proofs::lemmas::List::take_rest))]
fn rows_of(bytes: &[u8]) -> (usize, &[u8])
    ensures { rows_in result.0 result.1.now ≡ states_in bytes.now }
{
    if bytes.len() < FILE_HEAD {
        return (0, bytes);
    }
    (two_of(&bytes[4..]), &bytes[FILE_HEAD..])
}

// The packed state of the first row, and what stands behind the row, if it is there whole.
#[tactic(auto, using(std::proofs::lemmas::List::take_rest))]
fn first(rest: &[u8]) -> Option<(&[u8], &[u8])>
    ensures { MatchOption result (has_row rest.now ≡ false) (λ row. (has_row rest.now ≡ true) × (row.0.now ≡ first_in rest.now) × (row.1.now ≡ rest_in rest.now)) }
{
    if rest.len() < 2 {
        return None;
    }
    let length = two_of(rest);
    if length < UID_END || rest.len() - 2 < length {
        return None;
    }
    Some((&rest[2..2 + length], &rest[2 + length..]))
}

// The Uid in a packed state.
fn uid_of(state: &[u8]) -> Uid
    requires { 20 ≤ length state.now }
    ensures { result ≡ uid_in (take 16 (drop 4 state.now)) }
{
    let mut field = [0; 16];
    field.copy_from_slice(&state[4..UID_END]);
    Uid::from_bytes(&field)
}

/// The packed state of an object in a file, if it is there.
pub fn packed_in(bytes: &[u8], uid: Uid) -> Option<&[u8]>
    ensures { MatchOption result (new_of (states_in bytes.now) uid ≡ None) (λ state. new_of (states_in bytes.now) uid ≡ Some state.now) }
{
    let (count, rows) = rows_of(bytes);
    let mut rest = rows;
    for row in 0..count {
        let Some((state, behind)) = first(rest) else {
            return None;
        };
        if uid == uid_of(state) {
            return Some(state);
        }
        rest = behind;
    }
    None
}

/// The states of a file, in its order.
pub fn states_of(alloc: Global, bytes: &[u8]) -> Result<States, AllocError>
    requires { (role : Role) × IsSegment role bytes.now }
    ensures states { IfOk result (λ states. packed states ≡ states_in bytes.now) }
    ensures in_form { IfOk result (AllByRecursion StateInForm) }
{
    let (count, rows) = rows_of(bytes);
    let mut rest = rows;
    let mut states = States::new(alloc);
    for row in 0..count {
        let Some((packed, behind)) = first(rest) else {
            return Ok(states);
        };
        let Some(state) = state_in(alloc, packed)? else {
            unreachable!();
        };
        states.push(state)?;
        rest = behind;
    }
    Ok(states)
}
