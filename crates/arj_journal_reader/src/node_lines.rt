// Lines of nodes and of the run, each read from what stands behind its first word.
ghost use Rattle.std.specs.Prelude.{◌≡◌, ◌≢◌, ◌==◌, MatchBool};
ghost use Rattle.arj_journal_reader.specs.Form.{IsOfKind};
ghost use Rattle.arj_journal.specs.LineForm.{is_junk};
ghost use Rattle.arj_journal_reader.specs.LineKinds.{lines};

use crate::LineFault;
use crate::piece::Piece;
use crate::pieces::{Hex, Node, Nodes, Object, Refusal, Sender, Version, Word};
use arj_base::{Binding, End, Mode, Uid};
use arj_journal::line_kind::LineKind;
use arj_journal::{Body, FrameKind, Part, Role, Which};
use std::alloc::Global;

/// `granted N U O M`.
pub fn granted(alloc: Global, fields: &[u8]) -> Result<Body, LineFault>
    ensures { IsOfKind lines LineKind.Granted fields.now result }
{
    let (node, (action, (object, mode))) = <(Node, (Uid, (Uid, Mode)))>::read(alloc, fields)?;
    Ok(Body::Granted {
        node: node.number,
        action,
        object,
        mode,
    })
}

/// `lowered N U O`.
pub fn lowered(alloc: Global, fields: &[u8]) -> Result<Body, LineFault>
    ensures { IsOfKind lines LineKind.Lowered fields.now result }
{
    let (node, (action, object)) = <(Node, (Uid, Uid))>::read(alloc, fields)?;
    Ok(Body::Lowered {
        node: node.number,
        action,
        object,
    })
}

/// `bound X B N`.
pub fn bound(alloc: Global, fields: &[u8]) -> Result<Body, LineFault>
    ensures { IsOfKind lines LineKind.Bound fields.now result }
{
    let (x, (binding, node)) = <(Object, (Binding, Node))>::read(alloc, fields)?;
    Ok(Body::Bound {
        x: x.number,
        binding,
        node: node.number,
    })
}

/// `active N X B`.
pub fn active(alloc: Global, fields: &[u8]) -> Result<Body, LineFault>
    ensures { IsOfKind lines LineKind.Active fields.now result }
{
    let (node, (x, binding)) = <(Node, (Object, Binding))>::read(alloc, fields)?;
    Ok(Body::Active {
        node: node.number,
        x: x.number,
        binding,
    })
}

/// `told N U O PART`, O an end.
pub fn told(alloc: Global, fields: &[u8]) -> Result<Body, LineFault>
    ensures { IsOfKind lines LineKind.Told fields.now result }
{
    let (node, (action, (end, part))) = <(Node, (Uid, (End, Part)))>::read(alloc, fields)?;
    Ok(Body::Told {
        node: node.number,
        action,
        end,
        part,
    })
}

/// `prepared N U ROLE`.
pub fn prepared(alloc: Global, fields: &[u8]) -> Result<Body, LineFault>
    ensures { IsOfKind lines LineKind.Prepared fields.now result }
{
    let (node, (action, role)) = <(Node, (Uid, Role))>::read(alloc, fields)?;
    Ok(Body::Prepared {
        node: node.number,
        action,
        role,
    })
}

/// `done N U ROLE O`, O an end.
pub fn done(alloc: Global, fields: &[u8]) -> Result<Body, LineFault>
    ensures { IsOfKind lines LineKind.Done fields.now result }
{
    let (node, (action, (role, end))) = <(Node, (Uid, (Role, End)))>::read(alloc, fields)?;
    Ok(Body::Done {
        node: node.number,
        action,
        role,
        end,
    })
}

/// `sent K N N KIND`.
pub fn sent(alloc: Global, fields: &[u8]) -> Result<Body, LineFault>
    ensures { IsOfKind lines LineKind.Sent fields.now result }
{
    let (frame, (from, (to, kind))) = <(Word, (Sender, (Node, FrameKind)))>::read(alloc, fields)?;
    if !is_sender(from.number, kind) {
        return Err(LineFault::NotALine);
    }
    Ok(Body::Sent {
        frame: frame.number,
        from: from.number,
        to: to.number,
        kind,
    })
}

// Whether a frame of this kind may be from that node, or from nobody.
fn is_sender(from: u8, kind: FrameKind) -> bool
    ensures { MatchBool result ((from == 0) ≡ is_junk kind) ((from == 0) ≢ is_junk kind) }
{
    (from == 0) == (kind == FrameKind::Junk)
}

/// `got K`.
pub fn got(alloc: Global, fields: &[u8]) -> Result<Body, LineFault>
    ensures { IsOfKind lines LineKind.Got fields.now result }
{
    let frame = Word::read(alloc, fields)?;
    Ok(Body::Got {
        frame: frame.number,
    })
}

/// `void K`.
pub fn void(alloc: Global, fields: &[u8]) -> Result<Body, LineFault>
    ensures { IsOfKind lines LineKind.Void fields.now result }
{
    let frame = Word::read(alloc, fields)?;
    Ok(Body::Void {
        frame: frame.number,
    })
}

/// `dropped K`.
pub fn dropped(alloc: Global, fields: &[u8]) -> Result<Body, LineFault>
    ensures { IsOfKind lines LineKind.Dropped fields.now result }
{
    let frame = Word::read(alloc, fields)?;
    Ok(Body::Dropped {
        frame: frame.number,
    })
}

/// `halted N`.
pub fn halted(alloc: Global, fields: &[u8]) -> Result<Body, LineFault>
    ensures { IsOfKind lines LineKind.Halted fields.now result }
{
    let node = Node::read(alloc, fields)?;
    Ok(Body::Halted { node: node.number })
}

/// `up N I`.
pub fn up(alloc: Global, fields: &[u8]) -> Result<Body, LineFault>
    ensures { IsOfKind lines LineKind.Up fields.now result }
{
    let (node, inc) = <(Node, Word)>::read(alloc, fields)?;
    Ok(Body::Up {
        node: node.number,
        inc: inc.number,
    })
}

/// `armed N`.
pub fn armed(alloc: Global, fields: &[u8]) -> Result<Body, LineFault>
    ensures { IsOfKind lines LineKind.Armed fields.now result }
{
    let node = Node::read(alloc, fields)?;
    Ok(Body::Armed { node: node.number })
}

/// `recovered N U`.
pub fn recovered(alloc: Global, fields: &[u8]) -> Result<Body, LineFault>
    ensures { IsOfKind lines LineKind.Recovered fields.now result }
{
    let (node, action) = <(Node, Uid)>::read(alloc, fields)?;
    Ok(Body::Recovered {
        node: node.number,
        action,
    })
}

/// `refused C`.
pub fn refused(alloc: Global, fields: &[u8]) -> Result<Body, LineFault>
    ensures { IsOfKind lines LineKind.Refused fields.now result }
{
    let cause = Refusal::read(alloc, fields)?;
    Ok(Body::Refused {
        cause: cause.number,
    })
}

/// `entry X V LIST LIST`, the servers and the stores.
pub fn entry(alloc: Global, fields: &[u8]) -> Result<Body, LineFault>
    ensures { IsOfKind lines LineKind.Entry fields.now result }
{
    let (x, (version, (servers, stores))) = <(Object, (Version, (Nodes, Nodes)))>::read(
        alloc, fields,
    )?;
    Ok(Body::Entry {
        x: x.number,
        version: version.number,
        servers: servers.list,
        stores: stores.list,
    })
}

/// `copy N X V U HEX`.
pub fn copy(alloc: Global, fields: &[u8]) -> Result<Body, LineFault>
    ensures { IsOfKind lines LineKind.Copy fields.now result }
{
    let (node, (x, (version, (writer, payload)))) = <(Node, (Object, (Version, (Uid, Hex))))>::read(
        alloc, fields,
    )?;
    Ok(Body::Copy {
        node: node.number,
        x: x.number,
        version: version.number,
        writer,
        payload: payload.bytes,
    })
}

/// `quiet yes` or `quiet no`.
pub fn quiet(alloc: Global, fields: &[u8]) -> Result<Body, LineFault>
    ensures { IsOfKind lines LineKind.Quiet fields.now result }
{
    let yes = bool::read(alloc, fields)?;
    Ok(Body::Quiet { yes })
}

/// `bad N`, N the number of a script line.
pub fn bad(alloc: Global, fields: &[u8]) -> Result<Body, LineFault>
    ensures { IsOfKind lines LineKind.Bad fields.now result }
{
    let line = Word::read(alloc, fields)?;
    Ok(Body::Bad { line: line.number })
}

/// `limit WHICH`.
pub fn limit(alloc: Global, fields: &[u8]) -> Result<Body, LineFault>
    ensures { IsOfKind lines LineKind.Limit fields.now result }
{
    let which = Which::read(alloc, fields)?;
    Ok(Body::Limit { which })
}
