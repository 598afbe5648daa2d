//! The nodes, the net and the journal under a script.
//!
//! It stands on `arj_core` (a node), `arj_net` (frames), `arj_disk` (disks), the definitions of `arj_protocol` and the laws of
//! events (`arj_law_parts/steps`). What it gives upward: a world that is formatted is the protocol's first world, and no disk was
//! stopped in its format (`World::format`); over disks that an earlier run left it is the world of each start whose disks these are,
//! each node down (`World::adopt`, `specs/First.antt`); and each event makes of it what the protocol makes of its world, with the stops that
//! the disks made (`World::step`; `specs/Stands.antt`, `specs/Happens.antt`). What an event makes of the disks' arms, which lines
//! tell of stops, and which lines an event owes or writes in their place, say `specs/Disks.antt`, `specs/Tells.antt` and
//! `specs/Owns.antt`.
//! `specs/Turns.antt` says what the run of a script is, with those stops. Inside an event it isn't known yet which stops
//! will fall: `specs/Goes.antt` says how a world goes on then.
#![tactic(auto)]

mod adopt;
mod delivery;
mod events;
mod fault;
mod format;
mod labelled;
mod nodes;
mod refusal;
mod run;
mod whole;
mod wire;
mod world;

pub use fault::{FormatFault, StepFault};
pub use labelled::Labelled;
pub use whole::{runs_know_their_labels, runs_stay_whole, turns_keep_what_handlers_keep};
pub use world::World;
