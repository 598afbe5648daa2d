// The words of lines, causes, differences, kinds, parts, roles, modes, ends, frames and limits.
ghost use Rattle.std.specs.Prelude.{⊤};
ghost use Rattle.arj_journal.specs.LineWords.{cause_word, difference_word, frame_text, kind_text, line_word, part_text, role_text, which_text};
ghost use Rattle.arj_journal_reader.specs.Spellings.{cause_kinds, difference_kinds, ends, frame_kinds, kinds as kinds_of_action, known_cause_kinds, known_difference_kinds, known_ends, known_frame_kinds, known_kinds, known_limits, known_line_kinds, known_modes, known_parts, known_roles, limits, line_kinds, modes, parts, roles};
ghost use Rattle.arj_text.specs.Words.{end_text, mode_text};

use crate::LineFault;
use crate::piece::Piece;
use crate::spelled::{Spelled, one_of};
use arj_base::{End, Mode};
use arj_journal::line_kind::{CauseKind, DifferenceKind, LineKind};
use arj_journal::words::{frame_word, kind_word, part_word, role_word, which_word};
use arj_journal::{FrameKind, Kind, Part, Role, Which};
use arj_text::words::{end_word, mode_word};
use std::alloc::Global;

impl Spelled for LineKind {
    ghost spelling = { line_word };

    ghost kinds = { line_kinds };

    fn all() -> &'static [LineKind] {
        &[
            LineKind::Began,
            LineKind::Ok,
            LineKind::Includes,
            LineKind::Conflict,
            LineKind::Lost,
            LineKind::Changed,
            LineKind::Committing,
            LineKind::Committed,
            LineKind::Ended,
            LineKind::Aborted,
            LineKind::GaveUp,
            LineKind::Excluded,
            LineKind::Granted,
            LineKind::Lowered,
            LineKind::Bound,
            LineKind::Active,
            LineKind::Told,
            LineKind::Prepared,
            LineKind::Done,
            LineKind::Sent,
            LineKind::Got,
            LineKind::Void,
            LineKind::Dropped,
            LineKind::Halted,
            LineKind::Up,
            LineKind::Armed,
            LineKind::Recovered,
            LineKind::Refused,
            LineKind::Entry,
            LineKind::Copy,
            LineKind::Quiet,
            LineKind::Bad,
            LineKind::Limit,
        ]
    }

    fn word(self) -> &'static [u8] {
        self.word()
    }

    ghost known = { known_line_kinds };
}

impl Spelled for CauseKind {
    ghost spelling = { cause_word };

    ghost kinds = { cause_kinds };

    fn all() -> &'static [CauseKind] {
        &[
            CauseKind::Asked,
            CauseKind::Doomed,
            CauseKind::Lost,
            CauseKind::Conflict,
            CauseKind::Changed,
            CauseKind::Old,
            CauseKind::NoStores,
            CauseKind::Listed,
        ]
    }

    fn word(self) -> &'static [u8] {
        self.word()
    }

    ghost known = { known_cause_kinds };
}

impl Spelled for DifferenceKind {
    ghost spelling = { difference_word };

    ghost kinds = { difference_kinds };

    fn all() -> &'static [DifferenceKind] {
        &[DifferenceKind::Inc, DifferenceKind::Bind]
    }

    fn word(self) -> &'static [u8] {
        self.word()
    }

    ghost known = { known_difference_kinds };
}

impl Spelled for Kind {
    ghost spelling = { kind_text };

    ghost kinds = { kinds_of_action };

    fn all() -> &'static [Kind] {
        &[
            Kind::Top,
            Kind::Nested,
            Kind::Independent,
            Kind::Serial,
            Kind::Constituent,
        ]
    }

    fn word(self) -> &'static [u8] {
        kind_word(self)
    }

    ghost known = { known_kinds };
}

impl Piece for Kind {
    ghost in_form = { λ _. ⊤ };

    ghost text = { kind_text };

    fn read(_alloc: Global, bytes: &[u8]) -> Result<Kind, LineFault> {
        one_of(bytes)
    }
}

impl Spelled for Part {
    ghost spelling = { part_text };

    ghost kinds = { parts };

    fn all() -> &'static [Part] {
        &[Part::Naming, Part::Server]
    }

    fn word(self) -> &'static [u8] {
        part_word(self)
    }

    ghost known = { known_parts };
}

impl Piece for Part {
    ghost in_form = { λ _. ⊤ };

    ghost text = { part_text };

    fn read(_alloc: Global, bytes: &[u8]) -> Result<Part, LineFault> {
        one_of(bytes)
    }
}

impl Spelled for Role {
    ghost spelling = { role_text };

    ghost kinds = { roles };

    fn all() -> &'static [Role] {
        &[Role::Store, Role::Names]
    }

    fn word(self) -> &'static [u8] {
        role_word(self)
    }

    ghost known = { known_roles };
}

impl Piece for Role {
    ghost in_form = { λ _. ⊤ };

    ghost text = { role_text };

    fn read(_alloc: Global, bytes: &[u8]) -> Result<Role, LineFault> {
        one_of(bytes)
    }
}

impl Spelled for FrameKind {
    ghost spelling = { frame_text };

    ghost kinds = { frame_kinds };

    fn all() -> &'static [FrameKind] {
        &[
            FrameKind::Bind,
            FrameKind::Bound,
            FrameKind::Load,
            FrameKind::Loaded,
            FrameKind::Activate,
            FrameKind::Activated,
            FrameKind::Record,
            FrameKind::Recorded,
            FrameKind::Invoke,
            FrameKind::Invoked,
            FrameKind::Vote,
            FrameKind::Voted,
            FrameKind::Prepare,
            FrameKind::Prepared,
            FrameKind::Confirm,
            FrameKind::Confirmed,
            FrameKind::Told,
            FrameKind::Acked,
            FrameKind::Query,
            FrameKind::Hello,
            FrameKind::Junk,
        ]
    }

    fn word(self) -> &'static [u8] {
        frame_word(self)
    }

    ghost known = { known_frame_kinds };
}

impl Piece for FrameKind {
    ghost in_form = { λ _. ⊤ };

    ghost text = { frame_text };

    fn read(_alloc: Global, bytes: &[u8]) -> Result<FrameKind, LineFault> {
        one_of(bytes)
    }
}

impl Spelled for Which {
    ghost spelling = { which_text };

    ghost kinds = { limits };

    fn all() -> &'static [Which] {
        &[Which::Lines, Which::Labels, Which::Frames]
    }

    fn word(self) -> &'static [u8] {
        which_word(self)
    }

    ghost known = { known_limits };
}

impl Piece for Which {
    ghost in_form = { λ _. ⊤ };

    ghost text = { which_text };

    fn read(_alloc: Global, bytes: &[u8]) -> Result<Which, LineFault> {
        one_of(bytes)
    }
}

impl Spelled for Mode {
    ghost spelling = { mode_text };

    ghost kinds = { modes };

    fn all() -> &'static [Mode] {
        &[Mode::Read, Mode::Exclude, Mode::Write]
    }

    fn word(self) -> &'static [u8] {
        mode_word(self)
    }

    ghost known = { known_modes };
}

impl Piece for Mode {
    ghost in_form = { λ _. ⊤ };

    ghost text = { mode_text };

    fn read(_alloc: Global, bytes: &[u8]) -> Result<Mode, LineFault> {
        one_of(bytes)
    }
}

impl Spelled for End {
    ghost spelling = { end_text };

    ghost kinds = { ends };

    fn all() -> &'static [End] {
        &[End::Abort, End::Commit]
    }

    fn word(self) -> &'static [u8] {
        end_word(self)
    }

    ghost known = { known_ends };
}

impl Piece for End {
    ghost in_form = { λ _. ⊤ };

    ghost text = { end_text };

    fn read(_alloc: Global, bytes: &[u8]) -> Result<End, LineFault> {
        one_of(bytes)
    }
}
