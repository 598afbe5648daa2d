// What is told of last states.
ghost use Rattle.std.specs.Prelude.{◌≡◌, ◌++◌, ◌==◌, [], List, Some, OnOk, true, not, if◌then◌else◌};
ghost use Rattle.std.specs.List.{flat_map, list_any};
ghost use Rattle.arj_journal.specs.LineText.{uid_word};
ghost use Rattle.arj_journal.specs.declared.body.Body.{Body as body_type};
ghost use Rattle.arj_journal.specs.declared.body.Line.{Line as line_type};
ghost use Rattle.arj_journal.specs.declared.header.ObjectLine.{ObjectLine as object_type};
ghost use Rattle.arj_changes.specs.Lines.{root_number as root_number_of};
ghost use Rattle.arj_model.specs.Actions.{acts};
ghost use Rattle.arj_model.specs.Last.{object_line};
ghost use Rattle.arj_standing.specs.Begun.{AreBegun, links};
ghost use Rattle.arj_last.specs.Behind.{StandsBehind};
ghost use Rattle.arj_last.specs.Told.{first_text, is_readable, is_told as is_told_in, object_text, state_text, states_behind, told_path, told_text, wrote_in};

use crate::behind::Standing;
use crate::groups::items_at;
use crate::kept::Write;
use crate::keys::is_committed;
use crate::state::last_state_of;
use arj_base::{Bytes, Uid};
use arj_changes::{either, root_number, top_link};
use arj_class::Value;
use arj_journal::{Body, Header, Line, ObjectLine};
use arj_standing::{Begun, Link, path_named, path_of};
use arj_text::words::{put_decimal, put_number, put_numbered, put_value};
use std::alloc::{AllocError, Global};

// Nobody's Uid.
const NOBODY: Uid = Uid {
    node: 0,
    inc: 0,
    num: 0,
};

// A Uid, a space before it.
#[tactic(auto, using(std::proofs::lemmas::List::append_assoc))]
fn put_uid(out: &mut Bytes, uid: Uid) -> Result<(), AllocError>
    ensures { OnOk result (out.new ≡ out.old ++ uid_word uid) }
{
    put_number(out, u64::from(uid.node))?;
    out.extend(b".")?;
    put_decimal(out, u64::from(uid.inc))?;
    out.extend(b".")?;
    put_decimal(out, uid.num)
}

// A state of an object behind so many lines.
#[tactic(auto, using(std::proofs::lemmas::List::append_assoc))]
fn put_state(
    out: &mut Bytes,
    at: usize,
    x: u16,
    version: usize,
    writer: Uid,
    value: &Value,
) -> Result<(), AllocError>
    ensures { OnOk result (out.new ≡ out.old ++ state_text at x version writer value.now) }
{
    put_numbered(out, b"state", at as u64)?;
    put_number(out, u64::from(x))?;
    put_number(out, version as u64)?;
    put_uid(out, writer)?;
    out.extend(b" ")?;
    put_value(out, value)?;
    out.extend(b"\n")
}

/// Puts the first states of objects of a header.
pub fn put_first_states(out: &mut Bytes, objects: &[ObjectLine]) -> Result<(), AllocError>
    ensures { OnOk result (out.new ≡ out.old ++ flat_map first_text objects.now) }
{
    for object in objects {
        put_state(out, 0, object.x, 0, NOBODY, &object.value)?;
    }
    Ok(())
}

// The path of the action whose top a line may change the states of.
fn path_in<'a>(begun: &'a [Begun], body: &Body) -> &'a [Link]
    ensures { (lines : List line_type) → AreBegun (acts lines) begun.now → result.now ≡ links (told_path (acts lines) body.now) }
{
    match body {
        Body::Ok { label, .. } => path_named(begun, label),
        Body::Committing { label } => path_named(begun, label),
        Body::Committed { label } => path_named(begun, label),
        Body::Recovered { action, .. } => path_of(begun, *action),
        _ => &[],
    }
}

// Whether the top of a path stands in a serializing action: its root is another.
fn moves_others(path: &[Link], top: usize) -> bool
    ensures { result ≡ not (root_number_of top path.now == top) }
{
    root_number(path, top) != top
}

// Whether the states of an object are told behind a line that may change those of the top of a path.
fn is_told(standing: &Standing, path: &[Link], x: u16) -> bool
    ensures { (lines : List line_type) (body : body_type) → StandsBehind lines standing.now → path.now ≡ links (told_path (acts lines) body) → result ≡ is_told_in lines body x }
{
    let Some(top) = top_link(path) else {
        return false;
    };
    if !is_committed(&standing.changes, top.id, top.uid) {
        return false;
    }
    let moves = moves_others(path, top.id);
    let wrote = has_written(standing, top.id, x);
    either(moves, wrote)
}

// Whether a top has answered one of these writes.
fn has_write(writes: &[Write], top: usize) -> bool
    ensures { result ≡ list_any (λ w. w.top == top) writes.now }
{
    for write in writes {
        if write.top == top {
            return true;
        }
    }
    false
}

// Whether a top has answered a write on the object.
fn has_written(standing: &Standing, top: usize, x: u16) -> bool
    ensures { (lines : List line_type) → StandsBehind lines standing.now → result ≡ wrote_in lines top x }
{
    has_write(items_at(&standing.writes.on, usize::from(x)), top)
}

// The last state of an object of the header.
fn put_object(
    alloc: Global,
    out: &mut Bytes,
    header: &Header,
    lines: &[Line],
    standing: &Standing,
    x: u16,
) -> Result<(), AllocError>
    ensures { (o : object_type) → StandsBehind lines.now standing.now → is_readable header.now lines.now ≡ true → object_line header.now x ≡ Some o
        → OnOk result (out.new ≡ out.old ++ object_text header.now lines.now x) }
{
    match last_state_of(alloc, header, lines, &standing.changes, &standing.writes, x)? {
        None => Ok(()),
        Some(last) => put_state(out, lines.len(), x, last.version, last.writer, &last.value),
    }
}

// The same, if it is told.
fn put_object_if(
    alloc: Global,
    out: &mut Bytes,
    header: &Header,
    lines: &[Line],
    standing: &Standing,
    x: u16,
    told: bool,
) -> Result<(), AllocError>
    ensures { (o : object_type) → StandsBehind lines.now standing.now → is_readable header.now lines.now ≡ true → object_line header.now x ≡ Some o
        → OnOk result (out.new ≡ out.old ++ (if told then object_text header.now lines.now x else [])) }
{
    if told {
        put_object(alloc, out, header, lines, standing, x)
    } else {
        Ok(())
    }
}

// The last states of those of these objects that are told.
fn put_objects(
    alloc: Global,
    out: &mut Bytes,
    header: &Header,
    lines: &[Line],
    standing: &Standing,
    path: &[Link],
) -> Result<(), AllocError>
    ensures { (body : body_type) → StandsBehind lines.now standing.now → is_readable header.now lines.now ≡ true → path.now ≡ links (told_path (acts lines.now) body)
        → OnOk result (out.new ≡ out.old ++ flat_map (told_text header.now lines.now body) header.now.objects) }
{
    for object in header.objects.as_slice() {
        let told = is_told(standing, path, object.x);
        put_object_if(alloc, out, header, lines, standing, object.x, told)?;
    }
    Ok(())
}

/// Puts the last states that the last of the lines so far may have changed, where these can be read as a run.
pub fn put_states_behind(
    alloc: Global,
    out: &mut Bytes,
    header: &Header,
    lines: &[Line],
    standing: &Standing,
    readable: bool,
    body: &Body,
) -> Result<(), AllocError>
    ensures { StandsBehind lines.now standing.now → readable ≡ is_readable header.now lines.now → OnOk result (out.new ≡ out.old ++ states_behind header.now lines.now body.now) }
{
    if !readable {
        return Ok(());
    }
    let path = path_in(standing.begun.as_slice(), body);
    put_objects(alloc, out, header, lines, standing, path)
}
