// What is told of prepared states.
ghost use Rattle.std.specs.Prelude.{◌≡◌, ◌++◌, [], List, Bool, OnOk, length, if◌then◌else◌};
ghost use Rattle.std.specs.List.{flat_map};
ghost use Rattle.arj_journal.specs.LineText.{uid_word};
ghost use Rattle.arj_journal.specs.declared.body.Line.{Line as line_type};
ghost use Rattle.arj_pending.specs.Behind.{StandsBehind};
ghost use Rattle.arj_pending.specs.Told.{may_move as may_move_by, object_text, objects_text, pending_behind, pending_text, pendings_from, said_text, state_text, told_pendings};

use crate::crashes::crashes_of;
use crate::holds::may_hold;
use crate::kept::Pend;
use crate::standing::Standing;
use arj_base::{Bytes, Uid};
use arj_journal::{Body, Header, Line, ObjectLine, Role};
use arj_seen::ScriptLine;
use arj_text::words::{put_decimal, put_number, put_numbered, put_word};
use std::alloc::{AllocError, Global};

// Whether a line said that a state is prepared, in a word.
fn said_word(said: bool) -> &'static [u8]
    ensures { result.now ≡ said_text said }
{
    if said { b"prepared" } else { b"perhaps" }
}

// A Uid, a space before it.
#[tactic(auto, using(std::proofs::lemmas::List::append_assoc))]
fn put_uid(out: &mut Bytes, uid: Uid) -> Result<(), AllocError>
    ensures { OnOk result (out.new ≡ out.old ++ uid_word uid) }
{
    put_number(out, u64::from(uid.node))?;
    out.extend(b".")?;
    put_decimal(out, u64::from(uid.inc))?;
    out.extend(b".")?;
    put_decimal(out, uid.num)
}

// A state of an object that a node may hold.
#[tactic(auto, using(std::proofs::lemmas::List::append_assoc))]
fn put_state(out: &mut Bytes, x: u16, pend: &Pend) -> Result<(), AllocError>
    ensures { OnOk result (out.new ≡ out.old ++ state_text x pend.now) }
{
    put_number(out, u64::from(x))?;
    put_number(out, u64::from(pend.node))?;
    put_uid(out, pend.action)?;
    put_word(out, said_word(pend.said))
}

// The same, if the node may.
fn put_state_if(out: &mut Bytes, x: u16, pend: &Pend, may: bool) -> Result<(), AllocError>
    ensures { OnOk result (out.new ≡ out.old ++ (if may then state_text x pend.now else [])) }
{
    if may { put_state(out, x, pend) } else { Ok(()) }
}

// A state of an object of the header, where the node may hold one.
fn put_object(
    alloc: Global,
    out: &mut Bytes,
    header: &Header,
    standing: &Standing,
    pend: &Pend,
    object: &ObjectLine,
) -> Result<(), AllocError>
    ensures { (flags : List Bool) (lines : List line_type) → StandsBehind flags lines standing.now → OnOk result (out.new ≡ out.old ++ object_text header.now lines pend.now object.now) }
{
    let may = may_hold(alloc, header, standing, pend.node, pend.action, object.x)?;
    put_state_if(out, object.x, pend, may)
}

// Those of all of these objects.
fn put_objects(
    alloc: Global,
    out: &mut Bytes,
    header: &Header,
    standing: &Standing,
    pend: &Pend,
    objects: &[ObjectLine],
) -> Result<(), AllocError>
    ensures { (flags : List Bool) (lines : List line_type) → StandsBehind flags lines standing.now → OnOk result (out.new ≡ out.old ++ flat_map (object_text header.now lines pend.now) objects.now) }
{
    for object in objects {
        put_object(alloc, out, header, standing, pend, object)?;
    }
    Ok(())
}

// What a node may hold for an action.
fn put_pend(
    alloc: Global,
    out: &mut Bytes,
    header: &Header,
    standing: &Standing,
    pend: &Pend,
) -> Result<(), AllocError>
    ensures { (flags : List Bool) (lines : List line_type) → StandsBehind flags lines standing.now → OnOk result (out.new ≡ out.old ++ objects_text header.now lines pend.now) }
{
    put_objects(
        alloc,
        out,
        header,
        standing,
        pend,
        header.objects.as_slice(),
    )
}

// All that nodes may hold.
fn put_pends(
    alloc: Global,
    out: &mut Bytes,
    header: &Header,
    standing: &Standing,
    pends: &[Pend],
) -> Result<(), AllocError>
    ensures { (flags : List Bool) (lines : List line_type) → StandsBehind flags lines standing.now → OnOk result (out.new ≡ out.old ++ flat_map (objects_text header.now lines) pends.now) }
{
    for pend in pends {
        put_pend(alloc, out, header, standing, pend)?;
    }
    Ok(())
}

// All that nodes may hold behind so many lines.
#[tactic(auto, using(std::proofs::lemmas::List::append_assoc))]
fn put_pending(
    alloc: Global,
    out: &mut Bytes,
    header: &Header,
    standing: &Standing,
    pends: &[Pend],
    count: usize,
) -> Result<(), AllocError>
    ensures { (flags : List Bool) (lines : List line_type) → StandsBehind flags lines standing.now → count ≡ length lines → OnOk result (out.new ≡ out.old ++ pending_text header.now lines pends.now) }
{
    put_numbered(out, b"pending", count as u64)?;
    put_pends(alloc, out, header, standing, pends)?;
    out.extend(b"\n")
}

// Whether a line may change what nodes hold.
fn may_move(body: &Body) -> bool
    ensures { result ≡ may_move_by body.now }
{
    match body {
        Body::Prepared {
            role: Role::Store,
            ..
        }
        | Body::Done {
            role: Role::Store,
            ..
        }
        | Body::Halted { .. } => true,
        Body::Quiet { yes } => *yes,
        _ => false,
    }
}

// All that nodes may hold behind so many lines, where the last of these may change that.
fn put_behind(
    alloc: Global,
    out: &mut Bytes,
    header: &Header,
    standing: &Standing,
    count: usize,
    body: &Body,
) -> Result<(), AllocError>
    ensures { (flags : List Bool) (lines : List line_type) → StandsBehind flags lines standing.now → count ≡ length lines
        → OnOk result (out.new ≡ out.old ++ pending_behind flags header.now lines body.now) }
{
    if !may_move(body) {
        return Ok(());
    }
    put_pending(
        alloc,
        out,
        header,
        standing,
        standing.prepares.pends.as_slice(),
        count,
    )
}

// The same behind each of these lines.
fn put_each(
    alloc: Global,
    out: &mut Bytes,
    header: &Header,
    flags: &[bool],
    lines: &[Line],
) -> Result<(), AllocError>
    ensures { OnOk result (out.new ≡ out.old ++ pendings_from flags.now header.now [] lines.now) }
{
    let mut standing = Standing::new(alloc);
    for (at, line) in lines.iter().enumerate() {
        standing.take(alloc, flags, line)?;
        put_behind(alloc, out, header, &standing, at + 1, &line.body)?;
    }
    Ok(())
}

/// Puts what nodes may hold, prepared, behind each line of a journal that may change it.
pub fn put_pendings(
    alloc: Global,
    out: &mut Bytes,
    script: &[ScriptLine],
    header: &Header,
    lines: &[Line],
) -> Result<(), AllocError>
    ensures { OnOk result (out.new ≡ out.old ++ told_pendings script.now header.now lines.now) }
{
    let flags = crashes_of(alloc, script)?;
    put_each(alloc, out, header, flags.as_slice(), lines)
}
