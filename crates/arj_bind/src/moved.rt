// What an answer makes of the steps.
ghost use Rattle.std.specs.Prelude.{◌≡◌};
ghost use Rattle.arj_protocol.specs.Call.{moves, finds, has_changed};
ghost use Rattle.arj_protocol.specs.Asking.{is_ended};
ghost use Rattle.arj_bind.specs.Shown.{at_of, end_of, next_of, moved_of};

use crate::at::At;
use crate::{CallEnd, Known};

/// The step that follows, or the end.
#[derive(Drop)]
pub enum Next {
    On(At),
    Ended(CallEnd),
}

/// What follows, and what the root keeps from then on.
#[derive(Drop)]
pub struct Moved {
    pub next: Next,
    pub kept: Option<Known>,
}

/// On to this step.
pub fn moves(kept: Option<Known>, at: At) -> Moved
    ensures { moved_of result ≡ moves kept (at_of at) }
{
    Moved {
        next: Next::On(at),
        kept,
    }
}

/// The end.
pub fn finds(kept: Option<Known>, end: CallEnd) -> Moved
    ensures { moved_of result ≡ finds kept (end_of end) }
{
    Moved {
        next: Next::Ended(end),
        kept,
    }
}

/// Whether it is an end by a change.
pub fn has_changed(next: &Next) -> bool
    ensures { result ≡ has_changed (next_of next.now) }
{
    matches!(next, Next::Ended(CallEnd::Changed { .. }))
}

/// Whether it is an end.
pub fn is_ended(next: &Next) -> bool
    ensures { result ≡ is_ended (next_of next.now) }
{
    matches!(next, Next::Ended(_))
}
