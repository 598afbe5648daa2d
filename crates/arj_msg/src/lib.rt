//! The twenty messages between nodes, in bytes: eight requests with their answers, and four messages of their own
//! (told, acked, query, hello).
//!
//! It stands on `arj_base` and `arj_class`. What it gives upward: a message has one spelling, `message_bytes`, which
//! `encode` writes and `decode` alone accepts; what is encoded is in form and read back. `Sendable` of `specs/` says
//! what a caller of `encode` owes: what the types don't say. A layout is written once, as a format of
//! `specs/` (`Format`, `Layout`): how a value is spelled, its fields, which values are in form, and how it is read.
#![tactic(auto)]

mod answer;
mod ask;
mod codec;
mod fault;
mod field;
mod form;
mod head;
mod message;
mod number;
mod operation;
mod other;
mod reply;
mod request;
mod spelling;
mod state;

pub use ask::Ask;
pub use codec::{decode, encode};
pub use fault::MsgFault;
pub use form::messages_in_form;
pub use message::{
    Acked, Activate, Activated, Asked, Bind, Binds, Bound, BoundReply, Confirm, Confirmed,
    ConfirmedReply, Grants, Head, Hello, Invoke, Invoked, InvokedReply, Load, Loaded, LoadedReply,
    Marks, Message, Prepare, Prepared, PreparedReply, Query, RecordMsg, Recorded, RecordedReply,
    Told, Vote, Voted, VotedReply, What,
};
pub use spelling::one_spelling;
