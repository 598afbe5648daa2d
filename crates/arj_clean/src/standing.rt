// How things stand behind a journal.
use arj_changes::Changes;
use arj_journal::Line;
use arj_last::Writes;
use arj_standing::{Begun, begin};
use std::alloc::{AllocError, Global};

/// The actions that have begun, and what actions change and write, behind the lines of a journal.
#[derive(Drop)]
pub struct Standing {
    pub begun: Vec<Begun>,
    pub changes: Changes,
    pub writes: Writes,
}

impl Standing {
    ghost use Rattle.std.specs.Prelude.{◌≡◌, ◌++◌, ◌∷◌, ◌+◌, ◌<◌, ◌^◌, [], List, IfOk, OnOk, length};
    ghost use Rattle.arj_journal.specs.declared.body.Line.{Line as line_type};
    ghost use Rattle.arj_clean.specs.Standing.{StandsBehind};

    // Before the first line.
    fn new(alloc: Global) -> Standing
        ensures { StandsBehind [] result }
    {
        Standing {
            begun: Vec::new(alloc),
            changes: Changes::new(alloc),
            writes: Writes::new(alloc),
        }
    }

    // Takes a line, the next one.
    fn take(&mut self, alloc: Global, line: &Line) -> Result<(), AllocError>
        ensures { OnOk result ((lines : List line_type) → StandsBehind lines self.old → length lines + 1 < 2 ^ 64 → StandsBehind (lines ++ line.now ∷ []) self.new) }
    {
        self.writes
            .take(alloc, self.begun.as_slice(), line, self.changes.count)?;
        self.changes.take(alloc, self.begun.as_slice(), line)?;
        begin(alloc, &mut self.begun, &line.body)?;
        Ok(())
    }

    /// Behind these lines.
    pub fn behind(alloc: Global, lines: &[Line]) -> Result<Standing, AllocError>
        ensures { IfOk result (StandsBehind lines.now) }
    {
        let mut standing = Standing::new(alloc);
        for line in lines {
            standing.take(alloc, line)?;
        }
        Ok(standing)
    }
}
