// Whether a request can be meant.
ghost use Rattle.std.specs.Prelude.{◌≡◌, ℕ, map};
ghost use Rattle.std.specs.List.{AllByRecursion};
ghost use Rattle.arj_base.specs.State.{StateInForm};
ghost use Rattle.arj_base.specs.Uid.{UidFits};
ghost use Rattle.arj_msg.specs.Sendable.{StateSends};
ghost use Rattle.arj_protocol.specs.Effect.{names_object};
ghost use Rattle.arj_protocol.specs.Node.{are_of_objects, asked_is_meant, is_object, stand_once};
ghost use Rattle.arj_protocol.specs.Order.{has};
ghost use Rattle.arj_protocol.specs.Words.{asks};

use crate::Services;
use arj_base::{ObjectState, Uid};
use arj_journal::OBJECTS;
use arj_msg::Message;

impl<O> Services<O> {
    /// Whether what a request says can be meant here: its states are of objects, each of another one; its operation is one of
    /// the class of the object, where the object is active; and no object is confirmed twice. Other messages can be meant.
    pub fn is_meant(&self, m: &Message) -> bool
        ensures { result ≡ asked_is_meant self.now.server (asks m.now) }
    {
        match m {
            Message::Activate(m) => is_object(m.state.uid),
            Message::Invoke(m) => self.server.has_op(m.x, &m.op),
            Message::Prepare(m) => are_of_objects(m.states.as_slice()),
            Message::Confirm(m) => stand_once(m.objects.as_slice()),
            _ => true,
        }
    }
}

// The Uid is that of an object.
fn is_object(uid: Uid) -> bool
    ensures { result ≡ is_object uid }
{
    let object = Uid {
        node: 0,
        inc: 0,
        num: uid.num,
    };
    uid == object && (1 <= uid.num && uid.num <= OBJECTS)
}

// The object is among these states.
fn names_object(uid: Uid, states: &[ObjectState]) -> bool
    ensures { result ≡ names_object uid states.now }
{
    states.iter().any(|state| state.uid == uid)
}

// What a Uid's types say. It does nothing when it runs.
fn uid_fits(_uid: Uid)
    ensures { UidFits _uid }
{}

// What a state's types say. It does nothing when it runs.
fn state_fits(state: &ObjectState)
    requires { StateSends state.now }
    ensures { StateInForm state.now }
{
    uid_fits(state.uid);
    uid_fits(state.writer);
    let _version = state.version;
}

/// States that can be sent are in form: the rest is in their types. It changes nothing.
pub fn states_fit(states: &[ObjectState])
    requires { AllByRecursion StateSends states.now }
    ensures { AllByRecursion StateInForm states.now }
{
    let mut left = states;
    while let Some((state, rest)) = left.split_first() {
        state_fits(state);
        left = rest;
    }
}

// The states are of objects, each of another one.
fn are_of_objects(states: &[ObjectState]) -> bool
    ensures { result ≡ are_of_objects states.now }
{
    let mut left = states;
    while let Some((state, rest)) = left.split_first() {
        if !is_object(state.uid) || names_object(state.uid, rest) {
            return false;
        }
        left = rest;
    }
    true
}

// The object is among those that are confirmed.
fn is_among(x: u16, grants: &[(u16, u32)]) -> bool
    ensures { result ≡ has (map (λ (g : ℕ × ℕ). g.0) grants.now) x }
{
    for grant in grants {
        if grant.0 == x {
            return true;
        }
    }
    false
}

// No object stands twice.
fn stand_once(grants: &[(u16, u32)]) -> bool
    ensures { result ≡ stand_once (map (λ (g : ℕ × ℕ). g.0) grants.now) }
{
    let mut left = grants;
    while let Some((grant, rest)) = left.split_first() {
        if is_among(grant.0, rest) {
            return false;
        }
        left = rest;
    }
    true
}
