// The rows of a Segment or Pending file, read one after another.
ghost use Rattle.std.specs.Prelude.{◌≡◌, ◌≤◌, ◌++◌, ◌∷◌, [], true, false, length, take, drop, not, IfOk, MatchBool, MatchOption};
ghost use Rattle.std.specs.List.{AllByRecursion};
ghost use Rattle.arj_base.specs.State.{StateInForm, state_bytes};
ghost use Rattle.arj_store.specs.Pair.{packed};
ghost use Rattle.arj_segment_file.specs.Format.{first_in, has_row, rest_in, rows_in, states_in, two_in};
ghost use Rattle.arj_saved.specs.Rows.{are_rows, is_end as no_bytes, is_packed, is_segment, names_uid};

use arj_base::{ObjectState, StateFault, States, Uid, unpack};
use arj_text::field::is_text;
use std::alloc::{AllocError, Global};

/// How many bytes of a file stand before its rows: `ARJS` and the count.
const FILE_HEAD: usize = 6;

/// How many bytes of a packed state go to the end of its Uid.
const UID_END: usize = 20;

// The number in the first two bytes.
fn two_of(bytes: &[u8]) -> usize
    requires { 2 ≤ length bytes.now }
    ensures { result ≡ two_in bytes.now }
{
    usize::from(bytes[0]) * 256 + usize::from(bytes[1])
}

// The packed state of the first row, and what stands behind the row, if it is there whole.
#[tactic(auto, using(std::proofs::lemmas::List::take_rest))]
fn first(rest: &[u8]) -> Option<(&[u8], &[u8])>
    ensures { MatchOption result (has_row rest.now ≡ false) (λ row. (has_row rest.now ≡ true) × (row.0.now ≡ first_in rest.now) × (row.1.now ≡ rest_in rest.now)) }
{
    if rest.len() < 2 {
        return None;
    }
    let length = two_of(rest);
    if length < UID_END || rest.len() - 2 < length {
        return None;
    }
    Some((&rest[2..2 + length], &rest[2 + length..]))
}

// The state that bytes pack, if they pack one.
fn unpacked(alloc: Global, bytes: &[u8]) -> Result<Option<ObjectState>, AllocError>
    ensures { IfOk result (λ found. MatchOption found (is_packed bytes.now ≡ false) (λ s. (is_packed bytes.now ≡ true) × (bytes.now ≡ state_bytes s) × StateInForm s)) }
{
    match unpack(alloc, bytes) {
        Ok(state) => Ok(Some(state)),
        Err(StateFault::Memory) => Err(AllocError),
        Err(_) => Ok(None),
    }
}

// Whether there are no bytes.
fn is_end(bytes: &[u8]) -> bool
    ensures { result ≡ no_bytes bytes.now }
{
    match bytes {
        [] => true,
        _ => false,
    }
}

// Whether one of the states is of this Uid.
fn names(states: &[ObjectState], uid: Uid) -> bool
    ensures { result ≡ names_uid states.now uid }
{
    for state in states {
        if state.uid == uid {
            return true;
        }
    }
    false
}

// The states of so many rows, if there are so many, each packs a state, no two are of one Uid, and nothing follows.
fn states_in_rows(alloc: Global, count: usize, rows: &[u8]) -> Result<Option<States>, AllocError>
    ensures { IfOk result (λ found. MatchOption found (are_rows count rows.now [] ≡ false)
        (λ states. (are_rows count rows.now [] ≡ true) × (packed states ≡ rows_in count rows.now) × AllByRecursion StateInForm states)) }
{
    let mut states = States::new(alloc);
    let mut rest = rows;
    for row in 0..count {
        let Some((packed, behind)) = first(rest) else {
            return Ok(None);
        };
        let Some(state) = unpacked(alloc, packed)? else {
            return Ok(None);
        };
        let again = names(states.as_slice(), state.uid);
        if again {
            return Ok(None);
        }
        states.push(state)?;
        rest = behind;
    }
    let ended = is_end(rest);
    if !ended {
        return Ok(None);
    }
    Ok(Some(states))
}

/// The states of a Segment or Pending file, in its order, if the bytes are in the grammar: `ARJS`, how many states there are, and each
/// packed behind its length, no two of one Uid.
pub fn states_of(alloc: Global, bytes: &[u8]) -> Result<Option<States>, AllocError>
    ensures { IfOk result (λ found. MatchOption found (is_segment bytes.now ≡ false)
        (λ states. (is_segment bytes.now ≡ true) × (packed states ≡ states_in bytes.now) × AllByRecursion StateInForm states)) }
{
    if bytes.len() < FILE_HEAD {
        return Ok(None);
    }
    if !is_text(&bytes[..4], b"ARJS") {
        return Ok(None);
    }
    states_in_rows(alloc, two_of(&bytes[4..]), &bytes[FILE_HEAD..])
}
