// How things stand behind the lines so far.
use crate::kept::Prepares;
use arj_changes::Changes;
use arj_journal::Line;
use arj_last::Writes;
use arj_standing::{Begun, begin};
use std::alloc::{AllocError, Global};

/// The actions that have begun, what actions change and write, and what nodes may hold, behind the lines so far.
#[derive(Drop)]
pub struct Standing {
    pub begun: Vec<Begun>,
    pub changes: Changes,
    pub writes: Writes,
    pub prepares: Prepares,
}

impl Standing {
    ghost use Rattle.std.specs.Prelude.{◌≡◌, ◌++◌, ◌∷◌, ◌+◌, ◌<◌, ◌^◌, [], Bool, List, OnOk, length};
    ghost use Rattle.arj_journal.specs.declared.body.Line.{Line as line_type};
    ghost use Rattle.arj_pending.specs.Behind.{StandsBehind};

    /// Before the first line.
    pub fn new(alloc: Global) -> Standing
        ensures { (flags : List Bool) → StandsBehind flags [] result }
    {
        Standing {
            begun: Vec::new(alloc),
            changes: Changes::new(alloc),
            writes: Writes::new(alloc),
            prepares: Prepares::new(alloc),
        }
    }

    /// Takes a line, the next one. The flags say which events of the script are crashes.
    pub fn take(&mut self, alloc: Global, flags: &[bool], line: &Line) -> Result<(), AllocError>
        ensures { OnOk result ((lines : List line_type) → StandsBehind flags.now lines self.old → length lines + 1 < 2 ^ 64 → StandsBehind flags.now (lines ++ line.now ∷ []) self.new) }
    {
        self.prepares.take(
            alloc,
            self.begun.as_slice(),
            flags,
            line,
            self.changes.count,
        )?;
        self.writes
            .take(alloc, self.begun.as_slice(), line, self.changes.count)?;
        self.changes.take(alloc, self.begun.as_slice(), line)?;
        begin(alloc, &mut self.begun, &line.body)?;
        Ok(())
    }
}
