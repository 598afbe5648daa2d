// The words of kinds, parts, roles, limits, frames and of the end of a quiesce.
ghost use Rattle.std.specs.Prelude.{◌≡◌};
ghost use Rattle.arj_journal.specs.LineWords.{frame_text, kind_text, part_text, role_text, which_text, yes_text};

use crate::{FrameKind, Kind, Part, Role, Which};

/// The word of a kind of action.
pub fn kind_word(kind: Kind) -> &'static [u8]
    ensures { result.now ≡ kind_text kind }
{
    match kind {
        Kind::Top => b"top",
        Kind::Nested => b"nested",
        Kind::Independent => b"independent",
        Kind::Serial => b"serial",
        Kind::Constituent => b"constituent",
    }
}

/// The word of a part of a node.
pub fn part_word(part: Part) -> &'static [u8]
    ensures { result.now ≡ part_text part }
{
    match part {
        Part::Naming => b"naming",
        Part::Server => b"server",
    }
}

/// The word of a role.
pub fn role_word(role: Role) -> &'static [u8]
    ensures { result.now ≡ role_text role }
{
    match role {
        Role::Store => b"store",
        Role::Names => b"names",
    }
}

/// The word of a limit.
pub fn which_word(which: Which) -> &'static [u8]
    ensures { result.now ≡ which_text which }
{
    match which {
        Which::Lines => b"lines",
        Which::Labels => b"labels",
        Which::Frames => b"frames",
    }
}

/// The word of what a frame carries.
pub fn frame_word(kind: FrameKind) -> &'static [u8]
    ensures { result.now ≡ frame_text kind }
{
    match kind {
        FrameKind::Bind => b"bind",
        FrameKind::Bound => b"bound",
        FrameKind::Load => b"load",
        FrameKind::Loaded => b"loaded",
        FrameKind::Activate => b"activate",
        FrameKind::Activated => b"activated",
        FrameKind::Record => b"record",
        FrameKind::Recorded => b"recorded",
        FrameKind::Invoke => b"invoke",
        FrameKind::Invoked => b"invoked",
        FrameKind::Vote => b"vote",
        FrameKind::Voted => b"voted",
        FrameKind::Prepare => b"prepare",
        FrameKind::Prepared => b"prepared",
        FrameKind::Confirm => b"confirm",
        FrameKind::Confirmed => b"confirmed",
        FrameKind::Told => b"told",
        FrameKind::Acked => b"acked",
        FrameKind::Query => b"query",
        FrameKind::Hello => b"hello",
        FrameKind::Junk => b"junk",
    }
}

/// How a quiesce ended.
pub fn yes_word(yes: bool) -> &'static [u8]
    ensures { result.now ≡ yes_text yes }
{
    if yes { b"yes" } else { b"no" }
}
