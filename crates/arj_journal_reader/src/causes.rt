// Why actions aborted, and what was had and is there now.
ghost use Rattle.arj_journal_reader.specs.Form.{IsOfKind};
ghost use Rattle.arj_journal.specs.LineForm.{CauseInForm, DifferenceInForm};
ghost use Rattle.arj_journal.specs.LineText.{cause_text, difference_text};
ghost use Rattle.arj_journal_reader.specs.LineKinds.{OneWordCause, causes, differences};
ghost use Rattle.arj_journal_reader.specs.Reading.{IsTaken};

use crate::LineFault;
use crate::piece::Piece;
use crate::pieces::{Node, Object, Version, Word};
use crate::spelled::one_of;
use arj_base::{Binding, Mode, Uid};
use arj_journal::line_kind::{CauseKind, DifferenceKind};
use arj_journal::{Cause, Difference};
use arj_text::field::{cut, is_text};
use std::alloc::Global;

impl Piece for Difference {
    ghost in_form = { DifferenceInForm };

    ghost text = { difference_text };

    fn read(alloc: Global, bytes: &[u8]) -> Result<Difference, LineFault> {
        let Some((word, fields)) = cut(bytes, b' ') else {
            return Err(LineFault::NotALine);
        };
        let kind = one_of(word)?;
        difference_of_kind(kind, alloc, fields)
    }
}

// What stands behind the word of a difference.
fn difference_of_kind(
    kind: DifferenceKind,
    alloc: Global,
    fields: &[u8],
) -> Result<Difference, LineFault>
    ensures { IsOfKind differences kind fields.now result }
{
    match kind {
        DifferenceKind::Inc => incs(alloc, fields),
        DifferenceKind::Bind => bindings(alloc, fields),
    }
}

// `inc I J`: had, now.
fn incs(alloc: Global, fields: &[u8]) -> Result<Difference, LineFault>
    ensures { IsOfKind differences DifferenceKind.Inc fields.now result }
{
    let (had, now) = <(Word, Word)>::read(alloc, fields)?;
    Ok(Difference::Inc {
        had: had.number,
        now: now.number,
    })
}

// `bind B B`: had, now.
fn bindings(alloc: Global, fields: &[u8]) -> Result<Difference, LineFault>
    ensures { IsOfKind differences DifferenceKind.Bind fields.now result }
{
    let (had, now) = <(Binding, Binding)>::read(alloc, fields)?;
    Ok(Difference::Bind { had, now })
}

impl Piece for Cause {
    ghost in_form = { CauseInForm };

    ghost text = { cause_text };

    fn read(alloc: Global, bytes: &[u8]) -> Result<Cause, LineFault> {
        let Some((word, fields)) = cut(bytes, b' ') else {
            return one_word_cause(bytes);
        };
        let kind = one_of(word)?;
        cause_of_kind(kind, alloc, fields)
    }
}

// A cause that is one word.
fn one_word_cause(bytes: &[u8]) -> Result<Cause, LineFault>
    ensures { IsTaken OneWordCause cause_text bytes.now result }
{
    if is_text(bytes, CauseKind::Asked.word()) {
        return Ok(Cause::Asked);
    }
    if is_text(bytes, CauseKind::Doomed.word()) {
        return Ok(Cause::Doomed);
    }
    Err(LineFault::NotALine)
}

// What stands behind the first word of a cause. Behind two there is nothing.
fn cause_of_kind(kind: CauseKind, alloc: Global, fields: &[u8]) -> Result<Cause, LineFault>
    ensures { IsOfKind causes kind fields.now result }
{
    match kind {
        CauseKind::Asked | CauseKind::Doomed => Err(LineFault::NotALine),
        CauseKind::Lost => lost(alloc, fields),
        CauseKind::Conflict => conflict(alloc, fields),
        CauseKind::Changed => changed(alloc, fields),
        CauseKind::Old => old(alloc, fields),
        CauseKind::NoStores => no_stores(alloc, fields),
        CauseKind::Listed => listed(alloc, fields),
    }
}

// `lost N`.
fn lost(alloc: Global, fields: &[u8]) -> Result<Cause, LineFault>
    ensures { IsOfKind causes CauseKind.Lost fields.now result }
{
    let node = Node::read(alloc, fields)?;
    Ok(Cause::Lost { node: node.number })
}

// `conflict H M N`.
fn conflict(alloc: Global, fields: &[u8]) -> Result<Cause, LineFault>
    ensures { IsOfKind causes CauseKind.Conflict fields.now result }
{
    let (holder, (mode, node)) = <(Uid, (Mode, Node))>::read(alloc, fields)?;
    Ok(Cause::Conflict {
        holder,
        mode,
        node: node.number,
    })
}

// `changed N inc I J` or `changed N bind B B`.
fn changed(alloc: Global, fields: &[u8]) -> Result<Cause, LineFault>
    ensures { IsOfKind causes CauseKind.Changed fields.now result }
{
    let (node, difference) = <(Node, Difference)>::read(alloc, fields)?;
    Ok(Cause::Changed {
        node: node.number,
        difference,
    })
}

// `old N X V`.
fn old(alloc: Global, fields: &[u8]) -> Result<Cause, LineFault>
    ensures { IsOfKind causes CauseKind.Old fields.now result }
{
    let (node, (x, version)) = <(Node, (Object, Version))>::read(alloc, fields)?;
    Ok(Cause::Old {
        node: node.number,
        x: x.number,
        version: version.number,
    })
}

// `nostores X`.
fn no_stores(alloc: Global, fields: &[u8]) -> Result<Cause, LineFault>
    ensures { IsOfKind causes CauseKind.NoStores fields.now result }
{
    let x = Object::read(alloc, fields)?;
    Ok(Cause::NoStores { x: x.number })
}

// `listed X S`.
fn listed(alloc: Global, fields: &[u8]) -> Result<Cause, LineFault>
    ensures { IsOfKind causes CauseKind.Listed fields.now result }
{
    let (x, node) = <(Object, Node)>::read(alloc, fields)?;
    Ok(Cause::Listed {
        x: x.number,
        node: node.number,
    })
}
