// What a line tells, by the actions that have begun before it.
ghost use Rattle.std.specs.Prelude.{◌≡◌, ◌++◌, [], List, IfOk, OnOk};
ghost use Rattle.std.specs.List.{cons_option};
ghost use Rattle.arj_text.specs.Label.{name};
ghost use Rattle.arj_model.specs.Actions.{Act, recovered_of};
ghost use Rattle.arj_changes.specs.Lines.{called_by as called_by_top, called_in as called_in_line, committed_in as number_committed, join_by as join_by_path, join_in as join_in_line, leave_by as leave_by_top, leave_in as leave_in_line, top_number as top_number_of};
ghost use Rattle.arj_changes.specs.Paths.{id_named, top_link as top_of_links};

use crate::kept::{Called, Changes, Join, Leave};
use crate::numbers::{note_found, note_number};
use crate::path::{chain_ids, root_number, top_link, top_number};
use arj_base::Uid;
use arj_journal::{Body, Label, Line};
use arj_standing::{Begun, Link, path_named};
use std::alloc::{AllocError, Global};

// The exclusion by the top of a path.
fn leave_by(path: &[Link], x: u16, node: u8) -> Option<Leave>
    ensures { result ≡ leave_by_top x node (top_number_of path.now) }
{
    match top_number(path) {
        None => None,
        Some(top) => Some(Leave { top, x, node }),
    }
}

// The exclusion that a line tells.
fn leave_in(begun: &[Begun], body: &Body) -> Option<Leave>
    ensures { result ≡ leave_in_line begun.now body.now }
{
    match body {
        Body::Excluded { label, x, node } => leave_by(path_named(begun, label), *x, *node),
        _ => None,
    }
}

// The include in a path.
fn join_by(alloc: Global, path: &[Link], x: u16, node: u8) -> Result<Join, AllocError>
    ensures { IfOk result (λ join. join ≡ join_by_path x node path.now) }
{
    Ok(Join {
        top: top_number(path),
        chain: chain_ids(alloc, path)?,
        x,
        node,
    })
}

// The include that a line tells.
fn join_in(alloc: Global, begun: &[Begun], body: &Body) -> Result<Option<Join>, AllocError>
    ensures { IfOk result (λ join. join ≡ join_in_line begun.now body.now) }
{
    match body {
        Body::Includes { label, x, node } => {
            Ok(Some(join_by(alloc, path_named(begun, label), *x, *node)?))
        }
        _ => Ok(None),
    }
}

// The top of a path whose commit is called at this place.
fn called_by(path: &[Link], at: usize) -> Option<Called>
    ensures { result ≡ called_by_top at path.now (top_of_links path.now) }
{
    match top_link(path) {
        None => None,
        Some(top) => Some(Called {
            id: top.id,
            uid: top.uid,
            root: root_number(path, top.id),
            at,
        }),
    }
}

/// The top whose commit a line at this place calls.
pub fn called_in(begun: &[Begun], body: &Body, at: usize) -> Option<Called>
    ensures { result ≡ called_in_line begun.now at body.now }
{
    match body {
        Body::Committing { label } => called_by(path_named(begun, label), at),
        _ => None,
    }
}

// The number of the action with this label.
fn number_of(begun: &[Begun], label: &Label) -> Option<usize>
    ensures { result ≡ id_named (name label.now) begun.now }
{
    for action in begun {
        if action.label.as_bytes() == label.as_bytes() {
            return Some(action.id);
        }
    }
    None
}

// The number of the action that a line commits.
fn committed_in(begun: &[Begun], body: &Body) -> Option<usize>
    ensures { result ≡ number_committed begun.now body.now }
{
    match body {
        Body::Committed { label } => number_of(begun, label),
        _ => None,
    }
}

// The Uid whose record a line finds.
fn found_in(body: &Body) -> Option<Uid>
    ensures { (us : List Act) → result ≡ recovered_of us body.now }
{
    match body {
        Body::Recovered { action, .. } => Some(*action),
        _ => None,
    }
}

// One item more, if there is one.
fn put<T: Drop>(items: &mut Vec<T>, item: Option<T>) -> Result<(), AllocError>
    ensures { OnOk result (items.new.items ≡ items.old.items ++ cons_option item []) }
{
    if let Some(item) = item {
        items.push(item)?;
    }
    Ok(())
}

impl Changes {
    ghost use Rattle.std.specs.Prelude.{◌≡◌, ◌++◌, ◌∷◌, ◌<◌, ◌^◌, ◌+◌, [], List, OnOk};
    ghost use Rattle.arj_journal.specs.declared.body.Line.{Line as line_type};
    ghost use Rattle.arj_model.specs.Actions.{acts};
    ghost use Rattle.arj_standing.specs.Begun.{AreBegun};
    ghost use Rattle.arj_changes.specs.Kept.{AreKept};

    /// Takes a line, the next one, by the actions that have begun before it.
    pub fn take(&mut self, alloc: Global, begun: &[Begun], line: &Line) -> Result<(), AllocError>
        ensures { OnOk result ((lines : List line_type) → AreBegun (acts lines) begun.now → AreKept lines self.old → self.old.count + 1 < 2 ^ 64 → AreKept (lines ++ line.now ∷ []) self.new) }
    {
        let join = join_in(alloc, begun, &line.body)?;
        let called = called_in(begun, &line.body, self.count);
        put(&mut self.leaves, leave_in(begun, &line.body))?;
        put(&mut self.joins, join)?;
        put(&mut self.called, called)?;
        note_number(&mut self.committed, committed_in(begun, &line.body))?;
        note_found(&mut self.found, found_in(&line.body))?;
        self.count = self.count.saturating_add(1);
        Ok(())
    }
}
