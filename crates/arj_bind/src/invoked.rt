// How a call ends by the answer to its Invoke.
ghost use Rattle.std.specs.Prelude.{◌≡◌, IfSome};
ghost use Rattle.arj_protocol.specs.Call.{Ended, has_changed};
ghost use Rattle.arj_bind.specs.Heard.{reply_in};
ghost use Rattle.arj_bind.specs.Invoking.{EndsInvoke, invoked_end};
ghost use Rattle.arj_bind.specs.Shown.{end_of};

use crate::CallEnd;
use arj_msg::{InvokedReply, Message};

/// How a call ends by what its server answered.
pub fn end_of_invoke(server: u8, reply: InvokedReply) -> CallEnd
    ensures { end_of result ≡ invoked_end server reply }
{
    match reply {
        InvokedReply::Answered(answer) => CallEnd::Answered(answer),
        InvokedReply::Conflict { holder, mode } => CallEnd::Conflict {
            holder,
            mode,
            node: server,
        },
        InvokedReply::Changed(what) => CallEnd::Changed { node: server, what },
    }
}

/// How a call ends by this message, where it is an answer of its server; by any other, which doesn't come, it is lost.
pub fn end_by(server: u8, message: Message) -> CallEnd
    ensures { IfSome (reply_in message) (EndsInvoke server (end_of result)) }
{
    match message {
        Message::Invoked(m) => end_of_invoke(server, m.reply),
        _ => CallEnd::Lost {
            node: server,
            sent: true,
        },
    }
}

/// Whether it ended by a change.
pub fn is_change(end: &CallEnd) -> bool
    ensures { result ≡ has_changed (Ended (end_of end.now)) }
{
    matches!(end, CallEnd::Changed { .. })
}
