//! The services of a node: what it answers without its coordinator.
//!
//! A node serves the objects that are active at it, stores the committed states of objects, and node 1 names who serves and
//! who stores an object. `Services::serve` takes any request, `told` the end of an action, `hello` that a node is up again; `held`
//! and `prepared` say whom to ask about, `show` says what is shown of an object.
//!
//! It stands on `arj_server` (the server), `arj_naming` (naming), `arj_store` (the store), `arj_msg` and the definitions of
//! `arj_protocol`. What it gives upward: each call of `Services` is what the protocol's node makes of the message, with any
//! coordinator: the parts after it, the lines, the answer, and what the disk then says; a stopped call is a cut of its
//! effects (`specs/Did.antt`, `specs/Asked.antt`).
#![tactic(auto)]

mod answers;
mod held;
mod meant;
mod naming;
mod prepare;
mod requests;
mod serve;
mod server;
mod services;
mod show;
mod store;
mod told;

pub use services::Services;
