// Lines of naming's calls.
ghost use Rattle.std.specs.Prelude.{◌≡◌, ◌++◌, ◌∷◌, [], OnOk, true, if◌then◌else◌};

use arj_base::{End, Mode, Uid};
use arj_journal::{Body, Line, Lines, Part, Role};
use std::alloc::AllocError;

/// The node that naming is at.
pub const NAMING_NODE: u8 = 1;

/// Says a line; a world gives it the number of its event.
pub fn say(out: &mut Lines, body: Body) -> Result<(), AllocError>
    ensures { OnOk result (out.new ≡ out.old ++ record { event = 0; body = body } ∷ []) }
{
    out.push(Line { event: 0, body })
}
