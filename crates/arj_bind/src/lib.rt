//! The steps of a call and of an include: bind, load, activate, record, invoke, with one request waiting at a time; and
//! what a root of actions keeps of an object.
//!
//! Each step is a type of its own that takes the answer of its own kind and gives the next step, so the order of the
//! requests stands in the types. A root keeps of an object one binding with one incarnation of its server: the first that
//! an answer names. Where a call under it was lost or met a change, the binding is spoiled, and the root gives it up and
//! avoids it as soon as none of its work stands on it.
//!
//! It stands on `arj_msg` (the messages) and the definitions of `arj_protocol`. What it gives upward: a `CallSteps` is the
//! protocol's steps, a `Keeping` its keeping, and each call is the protocol's function on them. Want of memory leaves the
//! steps, the message and the keeping as they were.
#![tactic(auto)]

mod at;
mod binding;
mod goal;
mod grant;
mod invoked;
mod keeping;
mod known;
mod laws;
mod moved;
mod reply;
mod step;
mod steps;
mod transition;

pub use goal::{CallEnd, Goal};
pub use grant::Grant;
pub use keeping::Keeping;
pub use known::{Known, copy_state};
pub use laws::calls_go_in_order;
pub use step::{CallStep, Unanswered};
pub use steps::CallSteps;
