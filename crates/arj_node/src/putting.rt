// What is handed back goes out, or waits.
ghost use Rattle.std.specs.Prelude.{◌≡◌, ◌++◌, ◌∷◌, [], OnOk, IfOk};
ghost use Rattle.std.specs.List.{AllByRecursion};
ghost use Rattle.arj_core.specs.Steps.{PutsOut, message_of};
ghost use Rattle.arj_msg.specs.Sendable.{IsSendable};
ghost use Rattle.arj_node.specs.Outgoing.{IsSpelled, effect_of, effects_of, messages_of, outgoing_of};
ghost use Rattle.arj_node.specs.Ran.{inward, outward};
ghost use Rattle.arj_protocol.specs.Ask.{frame_kind};
ghost use Rattle.arj_protocol.specs.Effect.{Send};

use crate::{Handed, Outgoings};
use arj_core::{Output, Outputs};
use arj_journal::FrameKind;
use arj_msg::{Message, encode};
use std::alloc::{AllocError, Global};

// The kind of a message.
fn kind_of(m: &Message) -> FrameKind
    ensures { result ≡ frame_kind m.now }
{
    match m {
        Message::Bind(_) => FrameKind::Bind,
        Message::Bound(_) => FrameKind::Bound,
        Message::Load(_) => FrameKind::Load,
        Message::Loaded(_) => FrameKind::Loaded,
        Message::Activate(_) => FrameKind::Activate,
        Message::Activated(_) => FrameKind::Activated,
        Message::RecordMsg(_) => FrameKind::Record,
        Message::Recorded(_) => FrameKind::Recorded,
        Message::Invoke(_) => FrameKind::Invoke,
        Message::Invoked(_) => FrameKind::Invoked,
        Message::Vote(_) => FrameKind::Vote,
        Message::Voted(_) => FrameKind::Voted,
        Message::Prepare(_) => FrameKind::Prepare,
        Message::Prepared(_) => FrameKind::Prepared,
        Message::Confirm(_) => FrameKind::Confirm,
        Message::Confirmed(_) => FrameKind::Confirmed,
        Message::Told(_) => FrameKind::Told,
        Message::Acked(_) => FrameKind::Acked,
        Message::Query(_) => FrameKind::Query,
        Message::Hello(_) => FrameKind::Hello,
    }
}

// Puts out a message for another node.
fn send(alloc: Global, to: u8, m: &Message, out: &mut Outputs) -> Result<(), AllocError>
    requires { IsSendable m.now }
    ensures { OnOk result (PutsOut (Send to m.now ∷ []) out.old out.new) }
{
    let bytes = encode(alloc, m)?;
    out.push(Output::Send {
        to,
        kind: kind_of(m),
        bytes,
    })
}

// Puts one effect of a node out; a message to the node itself waits behind the others.
fn put_one(
    alloc: Global,
    number: u8,
    one: Handed,
    out: &mut Outputs,
    queue: &mut Vec<Box<Message>>,
) -> Result<(), AllocError>
    requires { IsSpelled (outgoing_of one) }
    ensures puts { OnOk result (PutsOut (outward number (effect_of (outgoing_of one) ∷ [])) out.old out.new) }
    ensures queue { OnOk result (messages_of queue.new.items ≡ messages_of queue.old.items ++ inward number (effect_of (outgoing_of one) ∷ [])) }
    ensures spelled { OnOk result (AllByRecursion IsSendable (messages_of queue.old.items) → AllByRecursion IsSendable (messages_of queue.new.items)) }
{
    match one {
        Handed::Say(body) => out.push(Output::Say(body)),
        Handed::Send { to, message } => {
            if to == number {
                queue.push(message)?;
                Ok(())
            } else {
                send(alloc, to, &message, out)
            }
        }
    }
}

/// Puts effects of a node out, in order; messages to the node itself wait behind the others.
pub fn put_out(
    alloc: Global,
    number: u8,
    outs: Outgoings,
    out: &mut Outputs,
    queue: &mut Vec<Box<Message>>,
) -> Result<(), AllocError>
    ensures puts { OnOk result (PutsOut (outward number (effects_of outs)) out.old out.new) }
    ensures queue { OnOk result (messages_of queue.new.items ≡ messages_of queue.old.items ++ inward number (effects_of outs)) }
    ensures spelled { OnOk result (AllByRecursion IsSendable (messages_of queue.old.items) → AllByRecursion IsSendable (messages_of queue.new.items)) }
{
    for one in outs.into_vec() {
        put_one(alloc, number, one, out, queue)?;
    }
    Ok(())
}
