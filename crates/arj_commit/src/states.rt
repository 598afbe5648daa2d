// The states that a top changed, in order of their objects.
ghost use Rattle.std.specs.Prelude.{◌≡◌, ◌+◌, ◌≤◌, ◌<◌, length, vec_len, IfOk, IfErr, option_copied, find};
ghost use Rattle.std.specs.List.{insert};
ghost use Rattle.std.specs.Vec.{vec_capacity};
ghost use Rattle.arj_base.specs.Uid.{uid_eq, object};
ghost use Rattle.arj_base.specs.declared.state.ObjectState.{ObjectState};
ghost use Rattle.arj_protocol.specs.Commit.{with_state, with_states};
ghost use Rattle.arj_commit.specs.Sets.{is_among};

use arj_base::{ObjectState, States, object_uid};
use std::alloc::{AllocError, AllocFailed, Global};

/// The same state once more.
pub fn copy_state(state: &ObjectState) -> Result<ObjectState, AllocError>
    ensures { IfOk result (λ copied. copied ≡ state.now) }
{
    Ok(ObjectState {
        uid: state.uid,
        class: state.class,
        version: state.version,
        writer: state.writer,
        payload: state.payload.copy()?,
        format: state.format,
    })
}

/// The same states once more.
pub fn copy_states(alloc: Global, states: &[ObjectState]) -> Result<Vec<ObjectState>, AllocError>
    ensures { IfOk result (λ copied. copied.items ≡ states.now) }
{
    let mut copied = Vec::new(alloc);
    for state in states {
        copied.push(copy_state(state)?)?;
    }
    Ok(copied)
}

/// Whether the object is among these states.
pub fn is_among(states: &[ObjectState], x: u16) -> bool
    ensures { result ≡ is_among states.now x }
{
    states.iter().any(|state| state.uid == object_uid(x))
}

/// The state of an object among these.
pub fn state_of(states: &[ObjectState], x: u16) -> Option<&ObjectState>
    ensures { option_copied result ≡ find (λ s. uid_eq s.uid (object x)) states.now }
{
    for state in states {
        if state.uid == object_uid(x) {
            return Some(state);
        }
    }
    None
}

// Where the state of the object with this number goes.
fn place_of(states: &[ObjectState], num: u64) -> usize
    ensures within { result ≤ length states.now }
    ensures place { (s : ObjectState) → s.uid.num ≡ num → with_state s states.now ≡ insert states.now result s }
{
    for at in 0..states.len() {
        if num <= states[at].uid.num {
            return at;
        }
    }
    states.len()
}

// Puts a state in its place. There is room for it.
fn put_state(states: &mut Vec<ObjectState>, state: ObjectState)
    requires { vec_len states.old < vec_capacity states.old }
    ensures items { states.new.items ≡ with_state state states.old.items }
    ensures len { vec_len states.new ≡ vec_len states.old + 1 }
    ensures capacity { vec_capacity states.old ≤ vec_capacity states.new }
{
    let at = place_of(states.as_slice(), state.uid.num);
    let _ = states.insert(at, state);
}

/// Puts states in their places. Where there is no memory for it, the states that there were come back.
pub fn put_states(states: States, more: Vec<ObjectState>) -> Result<States, AllocFailed<States>>
    ensures ok { IfOk result (λ all. all ≡ with_states more.items states) }
    ensures err { IfErr result (λ failed. failed.value ≡ states) }
{
    let mut all = states.into_vec();
    let Ok(()) = all.reserve(more.len()) else {
        return Err(AllocFailed {
            value: States::from_vec(all),
        });
    };
    for state in more {
        put_state(&mut all, state);
    }
    Ok(States::from_vec(all))
}
