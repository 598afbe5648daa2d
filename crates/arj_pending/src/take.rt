// What is kept, line by line.
use crate::commits::{delivered_behind, note_commits, note_prepare};
use crate::kept::Prepares;
use crate::pends::note_pends;
use arj_journal::Line;
use arj_standing::Begun;
use std::alloc::{AllocError, Global};

impl Prepares {
    ghost use Rattle.std.specs.Prelude.{◌≡◌, ◌++◌, ◌∷◌, [], List, OnOk, length};
    ghost use Rattle.arj_journal.specs.declared.body.Line.{Line as line_type};
    ghost use Rattle.arj_model.specs.Actions.{acts};
    ghost use Rattle.arj_standing.specs.Begun.{AreBegun};
    ghost use Rattle.arj_pending.specs.Pends.{ArePrepared};

    /// Takes a line, the next one, which stands at this place, by the actions that have begun before it. The flags say which events
    /// of the script are crashes.
    pub fn take(
        &mut self,
        alloc: Global,
        begun: &[Begun],
        flags: &[bool],
        line: &Line,
        at: usize,
    ) -> Result<(), AllocError>
        ensures { OnOk result ((lines : List line_type) → AreBegun (acts lines) begun.now → at ≡ length lines → ArePrepared flags.now lines self.old → ArePrepared flags.now (lines ++ line.now ∷ []) self.new) }
    {
        note_pends(alloc, self, flags, line, at)?;
        note_commits(alloc, &mut self.commits, begun, &line.body, at)?;
        note_prepare(&mut self.prepares, &line.body, at)?;
        self.delivered = delivered_behind(self.delivered, &line.body, line.event);
        Ok(())
    }
}
