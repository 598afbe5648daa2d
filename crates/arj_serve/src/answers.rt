// Answers as messages.
ghost use Rattle.std.specs.Prelude.{◌≡◌, option_map};
ghost use Rattle.arj_protocol.specs.Ask.{asked_by};
ghost use Rattle.arj_protocol.specs.Words.message;

use arj_msg::{Activated, Asked, Bound, Confirmed, Head, Invoked, Message, Recorded, Voted};

/// The head of an answer.
pub fn asked(head: &Head) -> Asked
    ensures { result ≡ asked_by head.now }
{
    Asked {
        act: head.path.last(),
        req: head.req,
    }
}

/// A Bound, if there is one.
pub fn bound(answer: Option<Bound>) -> Option<Message>
    ensures { result ≡ option_map message.Bound answer }
{
    Some(Message::Bound(answer?))
}

/// A Recorded, if there is one.
pub fn recorded(answer: Option<Recorded>) -> Option<Message>
    ensures { result ≡ option_map message.Recorded answer }
{
    Some(Message::Recorded(answer?))
}

/// A Confirmed, if there is one.
pub fn confirmed(answer: Option<Confirmed>) -> Option<Message>
    ensures { result ≡ option_map message.Confirmed answer }
{
    Some(Message::Confirmed(answer?))
}

/// An Activated, if there is one.
pub fn activated(answer: Option<Activated>) -> Option<Message>
    ensures { result ≡ option_map message.Activated answer }
{
    Some(Message::Activated(answer?))
}

/// An Invoked, if there is one.
pub fn invoked(answer: Option<Invoked>) -> Option<Message>
    ensures { result ≡ option_map message.Invoked answer }
{
    Some(Message::Invoked(answer?))
}

/// A Voted, if there is one.
pub fn voted(answer: Option<Voted>) -> Option<Message>
    ensures { result ≡ option_map message.Voted answer }
{
    Some(Message::Voted(answer?))
}
