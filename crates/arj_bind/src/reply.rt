// The answers for which the steps of a call wait.
ghost use Rattle.std.specs.Prelude.{◌≡◌, true, nat_lt, Some, IfOk, IfErr, IfSome, option_map};
ghost use Rattle.arj_protocol.specs.Ask.{answers, reply_kind};
ghost use Rattle.arj_bind.specs.Shown.{reply_of};
ghost use Rattle.arj_bind.specs.Heard.{reply_in};

use arj_msg::{BoundReply, InvokedReply, LoadedReply, Message, RecordedReply};

/// An answer without its head.
#[derive(Drop)]
pub enum Reply {
    Bound(BoundReply),
    Loaded(LoadedReply),
    Activated(u32),
    Recorded(RecordedReply),
    Invoked(InvokedReply),
}

/// The answer that a message is; any other message as it is.
pub fn reply_of(message: Message) -> Result<Reply, Message>
    ensures reply { IfOk result (λ r. reply_in message ≡ Some (reply_of r)) }
    ensures back { IfErr result (λ m. m ≡ message) }
    ensures other { IfErr result (λ m. IfSome (reply_in message) (λ r. nat_lt 5 (reply_kind r) ≡ true)) }
{
    match message {
        Message::Bound(m) => Ok(Reply::Bound(m.reply)),
        Message::Loaded(m) => Ok(Reply::Loaded(m.reply)),
        Message::Activated(m) => Ok(Reply::Activated(m.server_inc)),
        Message::Recorded(m) => Ok(Reply::Recorded(m.reply)),
        Message::Invoked(m) => Ok(Reply::Invoked(m.reply)),
        other => Err(other),
    }
}
