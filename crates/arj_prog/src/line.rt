// The lines of the programs. Each reader tells exactly what has this text.
ghost use Rattle.std.specs.Prelude.{IfOk, codes};
ghost use Rattle.std.specs.Fmt.{decimal};
ghost use Rattle.arj_text.specs.Fields.{IsRead, IsWithin, behind};
ghost use Rattle.arj_prog.specs.Lines.{CallInForm, HeadInForm, SaidInForm, TestInForm, asked_text, head_text, said_text, test_text};
ghost use Rattle.arj_prog.specs.Lines.{IsBareSaid, IsCallSaid};
ghost use Rattle.arj_prog.specs.declared.limits.TheConstants.{RETRIES};

use crate::call::{call, test};
use crate::limits::RETRIES;
use crate::said::Said;
use arj_class::{Answer, Op};
use arj_journal::ObjectLine;
use arj_text::Label;
use arj_text::field::{after, is_text, label_first, number, number_first};
use std::alloc::{AllocError, Global};

/// Any line of the programs, under the objects of the header.
pub fn said(alloc: Global, objects: &[ObjectLine], bytes: &[u8]) -> Result<Option<Said>, AllocError>
    ensures { IfOk result (λ found. IsRead (SaidInForm objects.now) said_text bytes.now found) }
{
    if let Some(said) = bare(bytes) {
        return Ok(Some(said));
    }
    if let Some(said) = calling(alloc, objects, bytes)? {
        return Ok(Some(said));
    }
    if let Some(retry) = number_behind(alloc, b"block ", bytes, 0, RETRIES)? {
        return Ok(Some(Said::Block { retry: retry as u8 }));
    }
    if let Some((name, node, retry)) = head(alloc, bytes)? {
        return Ok(Some(Said::Prog { name, node, retry }));
    }
    Ok(None)
}

// A line that is one word.
fn bare(bytes: &[u8]) -> Option<Said>
    ensures { IsRead IsBareSaid said_text bytes.now result }
{
    if is_text(bytes, b"else") {
        return Some(Said::Else);
    }
    if is_text(bytes, b"end") {
        return Some(Said::End);
    }
    if is_text(bytes, b"fail") {
        return Some(Said::Fail);
    }
    if is_text(bytes, b"run") {
        return Some(Said::Run);
    }
    None
}

// A line with a call.
fn calling(alloc: Global, objects: &[ObjectLine], bytes: &[u8]) -> Result<Option<Said>, AllocError>
    ensures { IfOk result (λ found. IsRead (IsCallSaid objects.now) said_text bytes.now found) }
{
    if let Some((x, op)) = call_behind(alloc, objects, b"do ", bytes)? {
        return Ok(Some(Said::Do { x, op }));
    }
    if let Some((x, op)) = call_behind(alloc, objects, b"print ", bytes)? {
        return Ok(Some(Said::Print { x, op }));
    }
    if let Some((x, op, answer)) = test_behind(alloc, objects, b"if ", bytes)? {
        return Ok(Some(Said::If { x, op, answer }));
    }
    Ok(None)
}

// A call behind a front.
fn call_behind(
    alloc: Global,
    objects: &[ObjectLine],
    front: &[u8],
    bytes: &[u8],
) -> Result<Option<(u16, Op)>, AllocError>
    ensures { IfOk result (λ found. IsRead (CallInForm objects.now) (behind front.now asked_text) bytes.now found) }
{
    match after(bytes, front) {
        Some(fields) => call(alloc, objects, fields),
        None => Ok(None),
    }
}

// A call and an answer behind a front.
fn test_behind(
    alloc: Global,
    objects: &[ObjectLine],
    front: &[u8],
    bytes: &[u8],
) -> Result<Option<(u16, Op, Answer)>, AllocError>
    ensures { IfOk result (λ found. IsRead (TestInForm objects.now) (behind front.now test_text) bytes.now found) }
{
    match after(bytes, front) {
        Some(fields) => test(alloc, objects, fields),
        None => Ok(None),
    }
}

/// A number from `low` to `high` behind a front.
pub fn number_behind(
    alloc: Global,
    front: &[u8],
    bytes: &[u8],
    low: u64,
    high: u64,
) -> Result<Option<u64>, AllocError>
    ensures { IfOk result (λ found. IsRead (IsWithin low high) (behind front.now decimal) bytes.now found) }
{
    match after(bytes, front) {
        Some(digits) => number(alloc, digits, low, high),
        None => Ok(None),
    }
}

// The first line of a program: `prog NAME at n retry K`.
fn head(alloc: Global, bytes: &[u8]) -> Result<Option<(Label, u8, u8)>, AllocError>
    ensures { IfOk result (λ found. IsRead HeadInForm (behind (codes "prog ") head_text) bytes.now found) }
{
    let Some(fields) = after(bytes, b"prog ") else {
        return Ok(None);
    };
    let Some((name, fields)) = label_first(fields) else {
        return Ok(None);
    };
    let Some(fields) = after(fields, b"at ") else {
        return Ok(None);
    };
    let Some((node, fields)) = number_first(alloc, fields, b' ', 1, 255)? else {
        return Ok(None);
    };
    match number_behind(alloc, b"retry ", fields, 0, RETRIES)? {
        Some(retry) => Ok(Some((name, node as u8, retry as u8))),
        None => Ok(None),
    }
}
