// Messages as bytes.
ghost use Rattle.std.specs.Prelude.{◌≡◌, ◌∷◌, ◌++◌, OnOk, OnErr, IfOk, IfErr, MatchResult};
ghost use Rattle.arj_msg.specs.Format.{Format};
ghost use Rattle.arj_msg.specs.Sendable.{IsSendable};
ghost use Rattle.arj_msg.specs.Layout.{message, message_bytes, MessageInForm, FaultOf};
ghost use Rattle.arj_msg.specs.declared.message.Message.{Message};
ghost use Rattle.arj_msg.specs.declared.fault.MsgFault.TheVariants as fault;

use crate::fault::ReadFault;
use crate::field::{Field, read_byte};
use crate::{
    Acked, Activate, Activated, Bind, Bound, Confirm, Confirmed, Hello, Invoke, Invoked, Load,
    Loaded, Message, MsgFault, Prepare, Prepared, Query, RecordMsg, Recorded, Told, Vote, Voted,
};
use arj_base::Bytes;
use std::alloc::{AllocError, Global};

/// The bytes of a message: its one spelling, written into one buffer. A caller owes what the types of a message don't
/// say of it.
pub fn encode(alloc: Global, m: &Message) -> Result<Bytes, AllocError>
    requires { IsSendable m.now }
    ensures spelled { IfOk result (λ bytes. bytes ≡ message_bytes m.now) }
    ensures in_form { OnOk result (MessageInForm m.now) }
{
    let mut out = Bytes::new(alloc);
    m.put(&mut out)?;
    Ok(out)
}

/// The message that these bytes spell, all of them.
pub fn decode(alloc: Global, bytes: &[u8]) -> Result<Message, MsgFault>
    ensures found { IfOk result (λ m. MessageInForm m × (message_bytes m ≡ bytes.now)) }
    ensures only { (m : Message) → MessageInForm m → message_bytes m ≡ bytes.now → MatchResult result (λ found. found ≡ m) (λ e. e ≡ fault.Memory) }
    ensures fault { IfErr result (FaultOf bytes.now) }
{
    let (message, rest) = match Message::read(alloc, bytes) {
        Ok(read) => read,
        Err(ReadFault::Left(left)) => return Err(MsgFault::At((bytes.len() - left) as u32)),
        Err(ReadFault::Memory) => return Err(MsgFault::Memory),
    };
    if !rest.is_empty() {
        return Err(MsgFault::At((bytes.len() - rest.len()) as u32));
    }
    Ok(message)
}

// A message of one kind, read behind the byte of the kind.
macro_rules! read_as {
    ($kind:ident, $alloc:expr, $rest:expr) => {{
        let (m, rest) = $kind::read($alloc, $rest)?;
        Ok((Message::$kind(m), rest))
    }};
}

// Puts the byte of a kind, and what the kind says behind it.
#[tactic(auto, using(std::proofs::lemmas::List::append_assoc))]
fn put_kind<T: Field>(kind: u8, m: &T, out: &mut Bytes) -> Result<(), AllocError>
    requires { T.sends m.now }
    ensures spelled { OnOk result (out.new ≡ out.old ++ kind ∷ T.format.spell m.now) }
    ensures fits { OnOk result (T.format.Fits m.now) }
{
    out.push(kind)?;
    m.put(out)
}

impl Field for Message {
    ghost format = { message };

    ghost sends = { IsSendable };

    #[tactic(auto, unfolding(crate::specs::Layout::message, crate::specs::Format::byte))]
    fn read(alloc: Global, bytes: &[u8]) -> Result<(Message, &[u8]), ReadFault> {
        let (kind, rest) = read_byte(bytes, 1, 20)?;
        match kind {
            1 => read_as!(Bind, alloc, rest),
            2 => read_as!(Bound, alloc, rest),
            3 => read_as!(Load, alloc, rest),
            4 => read_as!(Loaded, alloc, rest),
            5 => read_as!(Activate, alloc, rest),
            6 => read_as!(Activated, alloc, rest),
            7 => read_as!(RecordMsg, alloc, rest),
            8 => read_as!(Recorded, alloc, rest),
            9 => read_as!(Invoke, alloc, rest),
            10 => read_as!(Invoked, alloc, rest),
            11 => read_as!(Vote, alloc, rest),
            12 => read_as!(Voted, alloc, rest),
            13 => read_as!(Prepare, alloc, rest),
            14 => read_as!(Prepared, alloc, rest),
            15 => read_as!(Confirm, alloc, rest),
            16 => read_as!(Confirmed, alloc, rest),
            17 => read_as!(Told, alloc, rest),
            18 => read_as!(Acked, alloc, rest),
            19 => read_as!(Query, alloc, rest),
            20 => read_as!(Hello, alloc, rest),
            _ => Err(ReadFault::Left(bytes.len())),
        }
    }

    #[tactic(auto, unfolding(crate::specs::Layout::message))]
    fn put(&self, out: &mut Bytes) -> Result<(), AllocError> {
        match self {
            Message::Bind(m) => put_kind(1, m, out),
            Message::Bound(m) => put_kind(2, m, out),
            Message::Load(m) => put_kind(3, m, out),
            Message::Loaded(m) => put_kind(4, m, out),
            Message::Activate(m) => put_kind(5, m, out),
            Message::Activated(m) => put_kind(6, m, out),
            Message::RecordMsg(m) => put_kind(7, m, out),
            Message::Recorded(m) => put_kind(8, m, out),
            Message::Invoke(m) => put_kind(9, m, out),
            Message::Invoked(m) => put_kind(10, m, out),
            Message::Vote(m) => put_kind(11, m, out),
            Message::Voted(m) => put_kind(12, m, out),
            Message::Prepare(m) => put_kind(13, m, out),
            Message::Prepared(m) => put_kind(14, m, out),
            Message::Confirm(m) => put_kind(15, m, out),
            Message::Confirmed(m) => put_kind(16, m, out),
            Message::Told(m) => put_kind(17, m, out),
            Message::Acked(m) => put_kind(18, m, out),
            Message::Query(m) => put_kind(19, m, out),
            Message::Hello(m) => put_kind(20, m, out),
        }
    }
}
