// What a line tells of writes and of called commits, by the actions that have begun before it.
ghost use Rattle.std.specs.Prelude.{◌≡◌, ◌==◌, ◌++◌, ◌∷◌, [], ℕ, IfOk, OnOk, if◌then◌else◌};
ghost use Rattle.std.specs.List.{cons_option};
ghost use Rattle.arj_class.specs.Table.{writes as writes_op};
ghost use Rattle.arj_changes.specs.Paths.{top_link as top_of_links};
ghost use Rattle.arj_last.specs.Groups.{items_of};
ghost use Rattle.arj_last.specs.Kept.{called_at, write_by as write_by_path, written_on};

use crate::groups::put_item;
use crate::kept::{Write, Writes};
use arj_changes::{Called, called_in, chain_ids, top_link};
use arj_class::Op;
use arj_journal::{Body, Line};
use arj_standing::{Begun, Link, path_named};
use std::alloc::{AllocError, Global};
use std::collections::BTreeMap;

// Whether an operation writes.
fn is_writing(op: &Op) -> bool
    ensures { result ≡ writes_op op.now }
{
    match op {
        Op::Get | Op::Len | Op::GetKey(_) => false,
        Op::Add(_) | Op::Set(_) | Op::Put(_) | Op::Deposit(_) | Op::Withdraw(_) => true,
        Op::Push(_) | Op::Pop | Op::PutPair(_, _) | Op::Remove(_) => true,
        Op::Create(_) | Op::Destroy => true,
    }
}

// The write in an action with this path, whose line has this place.
fn write_by(alloc: Global, path: &[Link], at: usize) -> Result<Option<Write>, AllocError>
    ensures { IfOk result (λ write. write ≡ write_by_path at path.now (top_of_links path.now)) }
{
    match top_link(path) {
        None => Ok(None),
        Some(top) => Ok(Some(Write {
            at,
            top: top.id,
            writer: top.uid,
            chain: chain_ids(alloc, path)?,
        })),
    }
}

// Puts a write behind those on its object, if there is one.
fn put_write(
    alloc: Global,
    on: &mut BTreeMap<usize, Vec<Write>>,
    x: u16,
    write: Option<Write>,
) -> Result<(), AllocError>
    ensures { OnOk result ((y : ℕ) → items_of on.new y ≡ items_of on.old y ++ (if x == y then cons_option write [] else [])) }
{
    match write {
        None => Ok(()),
        Some(write) => put_item(alloc, on, usize::from(x), write),
    }
}

// Notes the write that a line answers, if it answers one.
fn note_write(
    alloc: Global,
    on: &mut BTreeMap<usize, Vec<Write>>,
    begun: &[Begun],
    body: &Body,
    at: usize,
) -> Result<(), AllocError>
    ensures { OnOk result ((y : ℕ) → items_of on.new y ≡ items_of on.old y ++ written_on begun.now at y body.now) }
{
    match body {
        Body::Ok { label, x, op, .. } => {
            if !is_writing(op) {
                return Ok(());
            }
            let write = write_by(alloc, path_named(begun, label), at)?;
            put_write(alloc, on, *x, write)
        }
        _ => Ok(()),
    }
}

// Notes a called commit under a number, if there is one.
fn note_called(
    alloc: Global,
    groups: &mut BTreeMap<usize, Vec<Called>>,
    called: Option<Called>,
    by_root: bool,
) -> Result<(), AllocError>
    ensures { OnOk result ((n : ℕ) → items_of groups.new n ≡ items_of groups.old n ++ called_at by_root n called) }
{
    let Some(called) = called else {
        return Ok(());
    };
    let number = if by_root { called.root } else { called.id };
    put_item(alloc, groups, number, called)
}

impl Writes {
    ghost use Rattle.std.specs.Prelude.{◌≡◌, ◌++◌, ◌∷◌, [], List, OnOk, length};
    ghost use Rattle.arj_journal.specs.declared.body.Line.{Line as line_type};
    ghost use Rattle.arj_model.specs.Actions.{acts};
    ghost use Rattle.arj_standing.specs.Begun.{AreBegun};
    ghost use Rattle.arj_last.specs.Kept.{AreWritten};

    /// Takes a line, the next one, which stands at this place, by the actions that have begun before it.
    pub fn take(
        &mut self,
        alloc: Global,
        begun: &[Begun],
        line: &Line,
        at: usize,
    ) -> Result<(), AllocError>
        ensures { OnOk result ((lines : List line_type) → AreBegun (acts lines) begun.now → at ≡ length lines → AreWritten lines self.old → AreWritten (lines ++ line.now ∷ []) self.new) }
    {
        let called = called_in(begun, &line.body, at);
        note_write(alloc, &mut self.on, begun, &line.body, at)?;
        note_called(alloc, &mut self.by_top, called, false)?;
        note_called(alloc, &mut self.by_root, called, true)?;
        Ok(())
    }
}
