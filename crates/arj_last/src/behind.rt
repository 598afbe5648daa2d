// How things stand behind the lines so far.
use crate::kept::Writes;
use arj_changes::Changes;
use arj_journal::Line;
use arj_standing::{Begun, begin};
use std::alloc::{AllocError, Global};

/// The actions that have begun, and what actions change and write, behind the lines so far.
#[derive(Drop)]
pub struct Standing {
    pub begun: Vec<Begun>,
    pub changes: Changes,
    pub writes: Writes,
}

impl Standing {
    ghost use Rattle.std.specs.Prelude.{◌≡◌, ◌++◌, ◌∷◌, ◌+◌, ◌<◌, ◌^◌, [], List, OnOk, length};
    ghost use Rattle.arj_journal.specs.declared.body.Line.{Line as line_type};
    ghost use Rattle.arj_last.specs.Behind.{StandsBehind};

    /// Before the first line.
    pub fn new(alloc: Global) -> Standing
        ensures { StandsBehind [] result }
    {
        Standing {
            begun: Vec::new(alloc),
            changes: Changes::new(alloc),
            writes: Writes::new(alloc),
        }
    }

    /// Takes a line, the next one.
    pub fn take(&mut self, alloc: Global, line: &Line) -> Result<(), AllocError>
        ensures { OnOk result ((lines : List line_type) → StandsBehind lines self.old → length lines + 1 < 2 ^ 64 → StandsBehind (lines ++ line.now ∷ []) self.new) }
    {
        self.writes
            .take(alloc, self.begun.as_slice(), line, self.changes.count)?;
        self.changes.take(alloc, self.begun.as_slice(), line)?;
        begin(alloc, &mut self.begun, &line.body)?;
        Ok(())
    }
}
