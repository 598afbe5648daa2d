// What stands behind the first word of an event.
ghost use Rattle.std.specs.Prelude.{IfOk};
ghost use Rattle.std.specs.Fmt.{decimal};
ghost use Rattle.arj_text.specs.Fields.{IsRead, ShortInForm, WordInForm, behind};
ghost use Rattle.arj_text.specs.Label.{LabelInForm, name};
ghost use Rattle.arj_journal.specs.ScriptText.{frame_no_text, stop_kind_text};
ghost use Rattle.arj_script.specs.Events.{LabelAtInForm, LabelInLabel, label_at_text, label_in_text};
ghost use Rattle.arj_script.specs.Events.{CallInForm, IncludeInForm, JunkInForm, StopInForm, call_text, include_text, junk_text, stop_text};
ghost use Rattle.arj_journal.specs.ScriptForm.{FrameNoInForm, StopKindInForm};

use crate::front::after;
use arj_base::Bytes;
use arj_class::Op;
use arj_journal::{FrameNo, Label, STOP_CALLS, StopKind};
use arj_text::field::{SHORT_MAX, WORD_MAX, is_text, label_first, label_of, number, number_first};
use arj_text::field_hex::hex;
use arj_text::field_value::operation;
use std::alloc::{AllocError, Global};

/// A label behind a front.
pub fn label_behind(front: &[u8], bytes: &[u8]) -> Option<Label>
    ensures { IsRead LabelInForm (behind front.now name) bytes.now result }
{
    let Some(word) = after(bytes, front) else {
        return None;
    };
    label_of(word)
}

/// A number of 32 bits behind a front.
pub fn word_behind(alloc: Global, front: &[u8], bytes: &[u8]) -> Result<Option<u32>, AllocError>
    ensures { IfOk result (λ found. IsRead WordInForm (behind front.now decimal) bytes.now found) }
{
    let Some(digits) = after(bytes, front) else {
        return Ok(None);
    };
    match number(alloc, digits, 0, WORD_MAX)? {
        Some(n) => Ok(Some(n as u32)),
        None => Ok(None),
    }
}

/// An object's number behind a front.
pub fn object_behind(alloc: Global, front: &[u8], bytes: &[u8]) -> Result<Option<u16>, AllocError>
    ensures { IfOk result (λ found. IsRead ShortInForm (behind front.now decimal) bytes.now found) }
{
    let Some(digits) = after(bytes, front) else {
        return Ok(None);
    };
    match number(alloc, digits, 0, SHORT_MAX)? {
        Some(n) => Ok(Some(n as u16)),
        None => Ok(None),
    }
}

/// A frame behind a front: its number, or `last`.
pub fn frame_behind(
    alloc: Global,
    front: &[u8],
    bytes: &[u8],
) -> Result<Option<FrameNo>, AllocError>
    ensures { IfOk result (λ found. IsRead FrameNoInForm (behind front.now frame_no_text) bytes.now found) }
{
    let Some(word) = after(bytes, front) else {
        return Ok(None);
    };
    if is_text(word, b"last") {
        return Ok(Some(FrameNo::Last));
    }
    match number(alloc, word, 0, WORD_MAX)? {
        Some(n) => Ok(Some(FrameNo::Number(n as u32))),
        None => Ok(None),
    }
}

/// `L at n` behind a front.
pub fn label_at(
    alloc: Global,
    front: &[u8],
    bytes: &[u8],
) -> Result<Option<(Label, u32)>, AllocError>
    ensures { IfOk result (λ found. IsRead LabelAtInForm (label_at_text front.now) bytes.now found) }
{
    let Some(fields) = after(bytes, front) else {
        return Ok(None);
    };
    let Some((label, fields)) = label_first(fields) else {
        return Ok(None);
    };
    match word_behind(alloc, b"at ", fields)? {
        Some(node) => Ok(Some((label, node))),
        None => Ok(None),
    }
}

/// `L in P` behind a front.
pub fn label_in(front: &[u8], bytes: &[u8]) -> Option<(Label, Label)>
    ensures { IsRead LabelInLabel (label_in_text front.now) bytes.now result }
{
    let Some(fields) = after(bytes, front) else {
        return None;
    };
    let Some((label, fields)) = label_first(fields) else {
        return None;
    };
    let Some(parent) = label_behind(b"in ", fields) else {
        return None;
    };
    Some((label, parent))
}

/// `call L X OP`.
pub fn call(alloc: Global, bytes: &[u8]) -> Result<Option<(Label, u16, Op)>, AllocError>
    ensures { IfOk result (λ found. IsRead CallInForm call_text bytes.now found) }
{
    let Some(fields) = after(bytes, b"call ") else {
        return Ok(None);
    };
    let Some((label, fields)) = label_first(fields) else {
        return Ok(None);
    };
    let Some((x, fields)) = number_first(alloc, fields, b' ', 0, SHORT_MAX)? else {
        return Ok(None);
    };
    match operation(alloc, fields)? {
        Some(op) => Ok(Some((label, x as u16, op))),
        None => Ok(None),
    }
}

/// `include L X n`.
pub fn include(alloc: Global, bytes: &[u8]) -> Result<Option<(Label, u16, u32)>, AllocError>
    ensures { IfOk result (λ found. IsRead IncludeInForm include_text bytes.now found) }
{
    let Some(fields) = after(bytes, b"include ") else {
        return Ok(None);
    };
    let Some((label, fields)) = label_first(fields) else {
        return Ok(None);
    };
    let Some((x, fields)) = number_first(alloc, fields, b' ', 0, SHORT_MAX)? else {
        return Ok(None);
    };
    match number(alloc, fields, 0, WORD_MAX)? {
        Some(node) => Ok(Some((label, x as u16, node as u32))),
        None => Ok(None),
    }
}

/// `stop n C KIND`, C from 1 to 1000000.
pub fn stop(alloc: Global, bytes: &[u8]) -> Result<Option<(u32, u32, StopKind)>, AllocError>
    ensures { IfOk result (λ found. IsRead StopInForm stop_text bytes.now found) }
{
    let Some(fields) = after(bytes, b"stop ") else {
        return Ok(None);
    };
    let Some((node, fields)) = number_first(alloc, fields, b' ', 0, WORD_MAX)? else {
        return Ok(None);
    };
    let Some((calls, fields)) = number_first(alloc, fields, b' ', 1, STOP_CALLS)? else {
        return Ok(None);
    };
    match stop_kind(alloc, fields)? {
        Some(kind) => Ok(Some((node as u32, calls as u32, kind))),
        None => Ok(None),
    }
}

// `none`, `done` or `torn HEX`.
fn stop_kind(alloc: Global, bytes: &[u8]) -> Result<Option<StopKind>, AllocError>
    ensures { IfOk result (λ found. IsRead StopKindInForm stop_kind_text bytes.now found) }
{
    if is_text(bytes, b"none") {
        return Ok(Some(StopKind::Undone));
    }
    if is_text(bytes, b"done") {
        return Ok(Some(StopKind::Done));
    }
    let Some(digits) = after(bytes, b"torn ") else {
        return Ok(None);
    };
    match hex(alloc, digits)? {
        Some(written) => Ok(Some(StopKind::Torn(written))),
        None => Ok(None),
    }
}

/// `junk n HEX`.
pub fn junk(alloc: Global, bytes: &[u8]) -> Result<Option<(u32, Bytes)>, AllocError>
    ensures { IfOk result (λ found. IsRead JunkInForm junk_text bytes.now found) }
{
    let Some(fields) = after(bytes, b"junk ") else {
        return Ok(None);
    };
    let Some((node, fields)) = number_first(alloc, fields, b' ', 0, WORD_MAX)? else {
        return Ok(None);
    };
    match hex(alloc, fields)? {
        Some(sent) => Ok(Some((node as u32, sent))),
        None => Ok(None),
    }
}
