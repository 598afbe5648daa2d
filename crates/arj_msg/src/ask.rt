// Requests, taken apart into who asks and what is asked.
ghost use Rattle.std.specs.Prelude.{◌≡◌, Some, None, MatchResult};
ghost use Rattle.arj_msg.specs.Ask.{asks, request};
ghost use Rattle.arj_msg.specs.declared.ask.Ask.TheVariants as ask;

use crate::{
    Activate, Bind, Binds, Confirm, Grants, Head, Invoke, Load, Marks, Message, Prepare, RecordMsg,
    Vote,
};
use arj_base::{Binding, Ends, ObjectState, States};
use arj_class::Op;

/// What is asked: a request without its head.
#[derive(Drop)]
pub enum Ask {
    Bind {
        x: u16,
        include: bool,
        avoid: Binding,
    },
    Load {
        x: u16,
    },
    Activate {
        binding: Binding,
        state: ObjectState,
    },
    Record {
        x: u16,
        binding: Binding,
        server_inc: u32,
        naming_inc: u32,
    },
    Invoke {
        x: u16,
        binding: Binding,
        server_inc: u32,
        ends: Ends,
        op: Op,
    },
    Vote {
        server_inc: u32,
        objects: Binds,
        ends: Ends,
    },
    Prepare {
        states: States,
    },
    Confirm {
        objects: Grants,
        excluded: Marks,
        included: Marks,
    },
}

impl Message {
    /// A request as who asks and what is asked, so that all requests are handled in one place; any other message as it
    /// is.
    pub fn asks(self) -> Result<(Head, Ask), Message>
        ensures asks { MatchResult result (λ r. asks self ≡ Some r) (λ m. asks self ≡ None) }
        ensures whole { MatchResult result (λ r. request r.0 r.1 ≡ self) (λ m. m ≡ self) }
    {
        match self {
            Message::Bind(m) => {
                let Bind {
                    head,
                    x,
                    include,
                    avoid,
                } = m;
                Ok((head, Ask::Bind { x, include, avoid }))
            }
            Message::Load(m) => {
                let Load { head, x } = m;
                Ok((head, Ask::Load { x }))
            }
            Message::Activate(m) => {
                let Activate {
                    head,
                    binding,
                    state,
                } = m;
                Ok((head, Ask::Activate { binding, state }))
            }
            Message::RecordMsg(m) => Ok(record_asks(m)),
            Message::Invoke(m) => Ok(invoke_asks(m)),
            Message::Vote(m) => {
                let Vote {
                    head,
                    server_inc,
                    objects,
                    ends,
                } = m;
                Ok((
                    head,
                    Ask::Vote {
                        server_inc,
                        objects,
                        ends,
                    },
                ))
            }
            Message::Prepare(m) => {
                let Prepare { head, states } = m;
                Ok((head, Ask::Prepare { states }))
            }
            Message::Confirm(m) => {
                let Confirm {
                    head,
                    objects,
                    excluded,
                    included,
                } = m;
                Ok((
                    head,
                    Ask::Confirm {
                        objects,
                        excluded,
                        included,
                    },
                ))
            }
            other => Err(other),
        }
    }
}

// A RecordMsg, taken apart.
fn record_asks(m: RecordMsg) -> (Head, Ask)
    ensures { result ≡ (m.head, ask.Record m.x m.binding m.server_inc m.naming_inc) }
{
    let RecordMsg {
        head,
        x,
        binding,
        server_inc,
        naming_inc,
    } = m;
    (
        head,
        Ask::Record {
            x,
            binding,
            server_inc,
            naming_inc,
        },
    )
}

// An Invoke, taken apart.
fn invoke_asks(m: Invoke) -> (Head, Ask)
    ensures { result ≡ (m.head, ask.Invoke m.x m.binding m.server_inc m.ends m.op) }
{
    let Invoke {
        head,
        x,
        binding,
        server_inc,
        ends,
        op,
    } = m;
    (
        head,
        Ask::Invoke {
            x,
            binding,
            server_inc,
            ends,
            op,
        },
    )
}
