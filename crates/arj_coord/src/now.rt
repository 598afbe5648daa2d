// What an action waits for.
ghost use Rattle.std.specs.Prelude.{◌≡◌};
ghost use Rattle.arj_coord.specs.Shown.{now_of};
ghost use Rattle.arj_protocol.specs.Coord.{calls_on};
ghost use Rattle.arj_protocol.specs.Step.{is_waiting_now, is_committing_now};

use arj_bind::CallSteps;
use arj_commit::{Confirming, Preparing, Voting};

/// The step of a commit that waits.
#[derive(Drop)]
pub enum Commit {
    Voting(Voting),
    Preparing(Preparing),
    Confirming(Confirming),
}

/// What an action waits for: nothing, the answer to a request of a call or an include, or answers of its commit. A commit is
/// long, and stands in a box.
#[derive(Drop)]
pub enum Now {
    Idle,
    Calling(CallSteps),
    Committing(Box<Commit>),
}

/// Lets go of what was waited for: so that a function with several ends lets it go in one way at each.
pub(crate) fn discard(_now: Now) {}

/// Whether it waits.
pub fn is_waiting(now: &Now) -> bool
    ensures { result ≡ is_waiting_now (now_of now.now) }
{
    match now {
        Now::Idle => false,
        _ => true,
    }
}

/// Whether it waits in its commit.
pub fn is_committing(now: &Now) -> bool
    ensures { result ≡ is_committing_now (now_of now.now) }
{
    match now {
        Now::Committing(_) => true,
        _ => false,
    }
}

/// Whether it waits in a call on the object.
pub fn calls_on(now: &Now, x: u16) -> bool
    ensures { result ≡ calls_on x (now_of now.now) }
{
    match now {
        Now::Calling(steps) => steps.object() == x && !steps.goal().is_include(),
        _ => false,
    }
}
