// How things stand behind the lines so far.
ghost use Rattle.std.specs.Prelude.{◌≡◌, ◌++◌, ◌∷◌, [], List, Some, None, IfOk, OnOk, MatchOption, false, true, length, slice_get};
ghost use Rattle.arj_journal.specs.declared.body.Line.{Line as line_type};
ghost use Rattle.arj_model.specs.Actions.{acts};
ghost use Rattle.arj_standing.specs.Begun.{AreBegun};
ghost use Rattle.arj_standing.specs.Node.{IsTable};
ghost use Rattle.arj_view_data.specs.Behind.{AreTables, StandsBehind};
ghost use Rattle.arj_view_data.specs.Texts.{is_node};

use arj_changes::Changes;
use arj_journal::Line;
use arj_standing::{Begun, Doubt, NodeLocks, begin, note_doubts};
use std::alloc::{AllocError, Global};

/// The actions that have begun, the lock tables of nodes 1 to 16, what is prepared and not done, and what actions change, behind the
/// lines so far.
#[derive(Drop)]
pub struct Standing {
    pub begun: Vec<Begun>,
    pub tables: Vec<NodeLocks>,
    pub doubts: Vec<Doubt>,
    pub changes: Changes,
}

// The tables of nodes 1 to 16 before the first line.
fn no_locks(alloc: Global) -> Result<Vec<NodeLocks>, AllocError>
    ensures tables { IfOk result (λ tables. AreTables [] tables.items) }
    ensures nodes { IfOk result (λ tables. length tables.items ≡ 16) }
{
    let mut tables = Vec::new(alloc);
    for node in 1..17u8 {
        tables.push(NodeLocks::new(alloc, node))?;
    }
    Ok(tables)
}

// Each table takes a line.
fn take_each(
    tables: &mut Vec<NodeLocks>,
    alloc: Global,
    begun: &[Begun],
    line: &Line,
) -> Result<(), AllocError>
    ensures nodes { OnOk result (length tables.new.items ≡ length tables.old.items) }
    ensures tables { OnOk result ((lines : List line_type) → AreBegun (acts lines) begun.now → AreTables lines tables.old.items → AreTables (lines ++ line.now ∷ []) tables.new.items) }
{
    for at in 0..tables.len() {
        tables[at].take(alloc, begun, line)?;
    }
    Ok(())
}

// The table at a place, from 0.
fn table_at(tables: &[NodeLocks], place: usize) -> Option<&NodeLocks>
    ensures { MatchOption result (slice_get tables.now place ≡ None) (λ table. slice_get tables.now place ≡ Some table.now) }
{
    tables.get(place)
}

// The table of a node.
fn table_in(tables: &[NodeLocks], node: u8) -> Option<&NodeLocks>
    ensures { (lines : List line_type) → AreTables lines tables.now → length tables.now ≡ 16
        → MatchOption result (is_node node ≡ false) (λ table. (is_node node ≡ true) × IsTable node lines table.now) }
{
    if node == 0 {
        return None;
    }
    table_at(tables, usize::from(node) - 1)
}

impl Standing {
    ghost use Rattle.std.specs.Prelude.{◌≡◌, ◌++◌, ◌∷◌, ◌+◌, ◌<◌, ◌^◌, [], List, IfOk, OnOk, MatchOption, false, true, length};
    ghost use Rattle.arj_journal.specs.declared.body.Line.{Line as line_type};
    ghost use Rattle.arj_standing.specs.Node.{IsTable};
    ghost use Rattle.arj_view_data.specs.Behind.{StandsBehind};
    ghost use Rattle.arj_view_data.specs.Texts.{is_node};

    /// Before the first line.
    pub fn new(alloc: Global) -> Result<Standing, AllocError>
        ensures { IfOk result (StandsBehind []) }
    {
        Ok(Standing {
            begun: Vec::new(alloc),
            tables: no_locks(alloc)?,
            doubts: Vec::new(alloc),
            changes: Changes::new(alloc),
        })
    }

    /// Takes a line, the next one.
    pub fn take(&mut self, alloc: Global, line: &Line) -> Result<(), AllocError>
        ensures { OnOk result ((lines : List line_type) → StandsBehind lines self.old → length lines + 1 < 2 ^ 64 → StandsBehind (lines ++ line.now ∷ []) self.new) }
    {
        take_each(&mut self.tables, alloc, self.begun.as_slice(), line)?;
        self.changes.take(alloc, self.begun.as_slice(), line)?;
        begin(alloc, &mut self.begun, &line.body)?;
        note_doubts(alloc, &mut self.doubts, &line.body)?;
        Ok(())
    }

    /// The locks of a node, where it is one of a run.
    pub fn table_of(&self, node: u8) -> Option<&NodeLocks>
        ensures { (lines : List line_type) → StandsBehind lines self.now
            → MatchOption result (is_node node ≡ false) (λ table. (is_node node ≡ true) × IsTable node lines table.now) }
    {
        table_in(self.tables.as_slice(), node)
    }
}
