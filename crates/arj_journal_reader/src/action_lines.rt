// Lines of actions, each read from what stands behind its first word.
ghost use Rattle.arj_journal_reader.specs.Form.{IsOfKind};
ghost use Rattle.arj_journal_reader.specs.LineKinds.{lines};

use crate::LineFault;
use crate::call::Call;
use crate::piece::Piece;
use crate::pieces::{Node, Object, Parent};
use arj_base::{Mode, Uid};
use arj_journal::line_kind::LineKind;
use arj_journal::{Body, Cause, Difference, Kind, Label};
use std::alloc::Global;

/// `began L KIND U P`, P the parent's label or `-`.
pub fn began(alloc: Global, fields: &[u8]) -> Result<Body, LineFault>
    ensures { IsOfKind lines LineKind.Began fields.now result }
{
    let (label, (kind, (uid, parent))) = <(Label, (Kind, (Uid, Parent)))>::read(alloc, fields)?;
    Ok(Body::Began {
        label,
        kind,
        uid,
        parent: parent.label,
    })
}

/// `ok L X OP = ANSWER`.
pub fn answered(alloc: Global, fields: &[u8]) -> Result<Body, LineFault>
    ensures { IsOfKind lines LineKind.Ok fields.now result }
{
    let (label, (x, call)) = <(Label, (Object, Call))>::read(alloc, fields)?;
    Ok(Body::Ok {
        label,
        x: x.number,
        op: call.op,
        answer: call.answer,
    })
}

/// `includes L X S`.
pub fn includes(alloc: Global, fields: &[u8]) -> Result<Body, LineFault>
    ensures { IsOfKind lines LineKind.Includes fields.now result }
{
    let (label, (x, node)) = <(Label, (Object, Node))>::read(alloc, fields)?;
    Ok(Body::Includes {
        label,
        x: x.number,
        node: node.number,
    })
}

/// `conflict L H M N`.
pub fn conflict(alloc: Global, fields: &[u8]) -> Result<Body, LineFault>
    ensures { IsOfKind lines LineKind.Conflict fields.now result }
{
    let (label, (holder, (mode, node))) = <(Label, (Uid, (Mode, Node)))>::read(alloc, fields)?;
    Ok(Body::Conflict {
        label,
        holder,
        mode,
        node: node.number,
    })
}

/// `lost L N`.
pub fn lost(alloc: Global, fields: &[u8]) -> Result<Body, LineFault>
    ensures { IsOfKind lines LineKind.Lost fields.now result }
{
    let (label, node) = <(Label, Node)>::read(alloc, fields)?;
    Ok(Body::Lost {
        label,
        node: node.number,
    })
}

/// `changed L N inc I J` or `changed L N bind B B`.
pub fn changed(alloc: Global, fields: &[u8]) -> Result<Body, LineFault>
    ensures { IsOfKind lines LineKind.Changed fields.now result }
{
    let (label, (node, difference)) = <(Label, (Node, Difference))>::read(alloc, fields)?;
    Ok(Body::Changed {
        label,
        node: node.number,
        difference,
    })
}

/// `committing L`.
pub fn committing(alloc: Global, fields: &[u8]) -> Result<Body, LineFault>
    ensures { IsOfKind lines LineKind.Committing fields.now result }
{
    let label = Label::read(alloc, fields)?;
    Ok(Body::Committing { label })
}

/// `committed L`.
pub fn committed(alloc: Global, fields: &[u8]) -> Result<Body, LineFault>
    ensures { IsOfKind lines LineKind.Committed fields.now result }
{
    let label = Label::read(alloc, fields)?;
    Ok(Body::Committed { label })
}

/// `ended L`.
pub fn ended(alloc: Global, fields: &[u8]) -> Result<Body, LineFault>
    ensures { IsOfKind lines LineKind.Ended fields.now result }
{
    let label = Label::read(alloc, fields)?;
    Ok(Body::Ended { label })
}

/// `aborted L CAUSE`.
pub fn aborted(alloc: Global, fields: &[u8]) -> Result<Body, LineFault>
    ensures { IsOfKind lines LineKind.Aborted fields.now result }
{
    let (label, cause) = <(Label, Cause)>::read(alloc, fields)?;
    Ok(Body::Aborted { label, cause })
}

/// `gaveup L N`.
pub fn gave_up(alloc: Global, fields: &[u8]) -> Result<Body, LineFault>
    ensures { IsOfKind lines LineKind.GaveUp fields.now result }
{
    let (label, node) = <(Label, Node)>::read(alloc, fields)?;
    Ok(Body::GaveUp {
        label,
        node: node.number,
    })
}

/// `excluded L X S`.
pub fn excluded(alloc: Global, fields: &[u8]) -> Result<Body, LineFault>
    ensures { IsOfKind lines LineKind.Excluded fields.now result }
{
    let (label, (x, node)) = <(Label, (Object, Node))>::read(alloc, fields)?;
    Ok(Body::Excluded {
        label,
        x: x.number,
        node: node.number,
    })
}
