// Whether a message can be spelled: what its type doesn't say of it.
ghost use Rattle.std.specs.Prelude.{◌↔◌, ◌≤◌, length, IfOk, IsTrue};
ghost use Rattle.std.specs.List.{AllByRecursion};
ghost use Rattle.arj_class.specs.Forms.{OpInForm};
ghost use Rattle.arj_msg.specs.InForm.{IsNode, IsObject};
ghost use Rattle.arj_msg.specs.declared.message.Message.TheVariants as message;
ghost use Rattle.arj_msg.specs.Sendable.{AnswerSends, BoundSends, ConfirmedSends, InvokedSends, IsSendable, LoadedSends, PreparedSends, StateSends, VotedSends};

use arj_base::ObjectState;
use arj_class::{Answer, ClassFault, REGISTER_BYTES, Value};
use arj_msg::{
    BoundReply, Confirm, ConfirmedReply, Invoke, InvokedReply, LoadedReply, Message, PreparedReply,
    Vote, VotedReply,
};
use std::alloc::{AllocError, Global};

// The most items of a short list.
const FEW: usize = 255;

// How many items a long list has less than.
const MANY: usize = 65_536;

/// Whether a message can be spelled: its numbers are of objects and nodes, its lists are short enough, and its states
/// restore.
pub fn can_be_sent(alloc: Global, m: &Message) -> Result<bool, AllocError>
    ensures { IfOk result (λ can. IsTrue can ↔ IsSendable m.now) }
{
    match m {
        Message::Bind(m) => Ok(is_object(m.x)),
        Message::Bound(m) => Ok(bound_sends(&m.reply)),
        Message::Load(m) => Ok(is_object(m.x)),
        Message::Loaded(m) => loaded_sends(alloc, &m.reply),
        Message::Activate(m) => restores(alloc, &m.state),
        Message::RecordMsg(m) => Ok(is_object(m.x)),
        Message::Invoke(m) => Ok(invoke_sends(m)),
        Message::Invoked(m) => Ok(invoked_sends(&m.reply)),
        Message::Vote(m) => Ok(vote_sends(m)),
        Message::Voted(m) => voted_sends(alloc, &m.reply),
        Message::Prepare(m) => restore_all(alloc, m.states.as_slice()),
        Message::Prepared(m) => Ok(prepared_sends(&m.reply)),
        Message::Confirm(m) => Ok(confirm_sends(m)),
        Message::Confirmed(m) => Ok(confirmed_sends(&m.reply)),
        Message::Told(m) => Ok(m.ends.as_slice().len() <= FEW),
        Message::Hello(m) => Ok(is_node(m.node)),
        Message::Activated(_) => Ok(true),
        Message::Recorded(_) => Ok(true),
        Message::Acked(_) => Ok(true),
        Message::Query(_) => Ok(true),
    }
}

// The number is that of a node.
fn is_node(n: u8) -> bool
    ensures { IsTrue result ↔ IsNode n }
{
    1 <= n && n <= 16
}

// The number is that of an object.
fn is_object(x: u16) -> bool
    ensures { IsTrue result ↔ IsObject x }
{
    1 <= x && x <= 256
}

// Each number is that of a node.
fn are_nodes(nodes: &[u8]) -> bool
    ensures { IsTrue result ↔ AllByRecursion IsNode nodes.now }
{
    for n in nodes {
        if !is_node(*n) {
            return false;
        }
    }
    true
}

// Each number is that of an object.
fn are_objects<T>(items: &[(u16, T)]) -> bool
    ensures { IsTrue result ↔ AllByRecursion (λ k. IsObject k.0) items.now }
{
    for item in items {
        if !is_object(item.0) {
            return false;
        }
    }
    true
}

// Each is an object with a node.
fn are_marks(marks: &[(u16, u8)]) -> bool
    ensures { IsTrue result ↔ AllByRecursion (λ k. IsObject k.0 × IsNode k.1) marks.now }
{
    for mark in marks {
        if !is_object(mark.0) || !is_node(mark.1) {
            return false;
        }
    }
    true
}

// The state's payload restores in its class.
fn restores(alloc: Global, state: &ObjectState) -> Result<bool, AllocError>
    ensures { IfOk result (λ can. IsTrue can ↔ StateSends state.now) }
{
    match Value::restore_state(alloc, state.class, state.format, state.payload.as_slice()) {
        Ok(_) => Ok(true),
        Err(ClassFault::Payload) => Ok(false),
        Err(ClassFault::Memory) => Err(AllocError),
    }
}

// There are few states, and each restores.
fn restore_all(alloc: Global, states: &[ObjectState]) -> Result<bool, AllocError>
    ensures { IfOk result (λ can. IsTrue can ↔ (length states.now ≤ 255) × AllByRecursion StateSends states.now) }
{
    if states.len() > FEW {
        return Ok(false);
    }
    for state in states {
        if !restores(alloc, state)? {
            return Ok(false);
        }
    }
    Ok(true)
}

// What naming answers to a Bind.
fn bound_sends(reply: &BoundReply) -> bool
    ensures { IsTrue result ↔ BoundSends reply.now }
{
    match reply {
        BoundReply::Live { server, stores, .. } => {
            is_node(*server) && stores.as_slice().len() <= FEW && are_nodes(stores.as_slice())
        }
        BoundReply::Make { server, stores, .. } => {
            is_node(*server) && stores.as_slice().len() <= FEW && are_nodes(stores.as_slice())
        }
        BoundReply::Write { stores, .. } => {
            stores.as_slice().len() <= FEW && are_nodes(stores.as_slice())
        }
        BoundReply::Conflict { .. } => true,
    }
}

// What a store answers to a Load.
fn loaded_sends(alloc: Global, reply: &LoadedReply) -> Result<bool, AllocError>
    ensures { IfOk result (λ can. IsTrue can ↔ LoadedSends reply.now) }
{
    match reply {
        LoadedReply::State(state) => restores(alloc, state),
        LoadedReply::InDoubt { .. } => Ok(true),
    }
}

// An operation goes to a server.
fn invoke_sends(m: &Invoke) -> bool
    ensures { IsTrue result ↔ IsObject m.now.x × (length m.now.ends ≤ 255) × OpInForm m.now.op }
{
    is_object(m.x) && m.ends.as_slice().len() <= FEW && m.op.is_in_form()
}

// What a server answers to an Invoke.
fn invoked_sends(reply: &InvokedReply) -> bool
    ensures { IsTrue result ↔ InvokedSends reply.now }
{
    match reply {
        InvokedReply::Answered(Answer::Text(bytes)) => bytes.as_slice().len() <= REGISTER_BYTES,
        InvokedReply::Answered(_) => true,
        InvokedReply::Conflict { .. } => true,
        InvokedReply::Changed(_) => true,
    }
}

// A server is asked for its vote.
fn vote_sends(m: &Vote) -> bool
    ensures { IsTrue result ↔ ((length m.now.objects ≤ 255) × AllByRecursion (λ o. IsObject o.0) m.now.objects) × (length m.now.ends ≤ 255) }
{
    m.objects.as_slice().len() <= FEW
        && are_objects(m.objects.as_slice())
        && m.ends.as_slice().len() <= FEW
}

// What a server answers to a Vote.
fn voted_sends(alloc: Global, reply: &VotedReply) -> Result<bool, AllocError>
    ensures { IfOk result (λ can. IsTrue can ↔ VotedSends reply.now) }
{
    match reply {
        VotedReply::Yes(states) => restore_all(alloc, states.as_slice()),
        VotedReply::Changed(_) => Ok(true),
    }
}

// What a store answers to a Prepare.
fn prepared_sends(reply: &PreparedReply) -> bool
    ensures { IsTrue result ↔ PreparedSends reply.now }
{
    match reply {
        PreparedReply::Yes => true,
        PreparedReply::InDoubt { x, .. } => is_object(*x),
        PreparedReply::Old { x, .. } => is_object(*x),
    }
}

// Naming is asked to confirm.
fn confirm_sends(m: &Confirm) -> bool
    ensures { IsTrue result ↔ IsSendable (message.Confirm m.now) }
{
    m.objects.as_slice().len() <= FEW
        && are_objects(m.objects.as_slice())
        && m.excluded.as_slice().len() < MANY
        && are_marks(m.excluded.as_slice())
        && m.included.as_slice().len() < MANY
        && are_marks(m.included.as_slice())
}

// What naming answers to a Confirm.
fn confirmed_sends(reply: &ConfirmedReply) -> bool
    ensures { IsTrue result ↔ ConfirmedSends reply.now }
{
    match reply {
        ConfirmedReply::NoStores { x } => is_object(*x),
        ConfirmedReply::Listed { x, node } => is_object(*x) && is_node(*node),
        ConfirmedReply::Yes => true,
        ConfirmedReply::Conflict { .. } => true,
        ConfirmedReply::Changed(_) => true,
    }
}
