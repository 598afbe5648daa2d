//! The actions that a node has begun in one incarnation, nested as in Moss's model: in order of beginning, with what each
//! root has of them: the ends in order of decision, and what counts against its limits.
//!
//! It stands on `arj_base`, the kit's `indexmap` and the definitions of `arj_protocol`. What it gives upward: a `Tree` is the protocol's tree, and
//! each call is the protocol's function on it; a fault names the first refusal that the tree sees and changes nothing. No
//! call walks the actions that have ended: beside all actions, found by number, the open ones are kept in order.
#![tactic(auto)]

mod action;
mod fault;
mod laws;
mod opened;
mod tally;
mod tree;

pub use action::Action;
pub use arj_journal::Kind;
pub use fault::TreeFault;
pub use laws::refusals_are_the_protocols;
pub use tree::{Tree, is_misplaced};
