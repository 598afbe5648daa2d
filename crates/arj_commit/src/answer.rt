// Answers, as the steps of a commit look at them.
ghost use Rattle.std.specs.Prelude.{◌≡◌};
ghost use Rattle.std.specs.Option.{option_map};
ghost use Rattle.arj_protocol.specs.Ask.{answers, differs};
ghost use Rattle.arj_commit.specs.Answer.{kinded, is_awaited, is_asked_by};

use crate::sets::has;
use arj_base::Uid;
use arj_journal::Difference;
use arj_msg::{Asked, Message, What};

/// The kinds of answers that commits wait for.
pub const VOTED: u8 = 6;

pub const PREPARED: u8 = 7;

pub const CONFIRMED: u8 = 8;

/// Who had asked, and the kind of the answer: the place of its request among the requests, from 1. None where the message is
/// no answer.
pub fn kinded(m: &Message) -> Option<(Asked, u8)>
    ensures { result ≡ option_map kinded (answers m.now) }
{
    match m {
        Message::Bound(m) => Some((m.asked, 1)),
        Message::Loaded(m) => Some((m.asked, 2)),
        Message::Activated(m) => Some((m.asked, 3)),
        Message::Recorded(m) => Some((m.asked, 4)),
        Message::Invoked(m) => Some((m.asked, 5)),
        Message::Voted(m) => Some((m.asked, VOTED)),
        Message::Prepared(m) => Some((m.asked, PREPARED)),
        Message::Confirmed(m) => Some((m.asked, CONFIRMED)),
        Message::Bind(_)
        | Message::Load(_)
        | Message::Activate(_)
        | Message::RecordMsg(_)
        | Message::Invoke(_)
        | Message::Vote(_)
        | Message::Prepare(_)
        | Message::Confirm(_)
        | Message::Told(_)
        | Message::Acked(_)
        | Message::Query(_)
        | Message::Hello(_) => None,
    }
}

/// Whether it is an answer of this kind to this request, from one of these nodes.
pub fn is_awaited(kind: u8, req: u32, left: &[u8], from: u8, answer: Option<(Asked, u8)>) -> bool
    ensures { result ≡ is_awaited kind req left.now from answer }
{
    match answer {
        Some((asked, is)) => req == asked.req && is == kind && has(left, from),
        None => false,
    }
}

/// Whether this action had asked.
pub fn is_asked_by(act: Uid, answer: Option<(Asked, u8)>) -> bool
    ensures { result ≡ is_asked_by act answer }
{
    match answer {
        Some((asked, _)) => asked.act == act,
        None => false,
    }
}

/// What changed, as a line says it.
pub fn differs(what: What) -> Difference
    ensures { result ≡ differs what }
{
    match what {
        What::Inc { had, now } => Difference::Inc { had, now },
        What::Bind { had, now } => Difference::Bind { had, now },
    }
}
