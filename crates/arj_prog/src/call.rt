// Calls in a line.
ghost use Rattle.std.specs.Prelude.{◌≡◌, ◌≢◌, ◌++◌, ℕ, List, IfOk, MatchOption};
ghost use Rattle.arj_text.specs.Fields.{IsRead};
ghost use Rattle.arj_text.specs.Words.{answer_text};
ghost use Rattle.arj_prog.specs.Lines.{AnswerInForm, AskedInForm, CallInForm, TestInForm, answers_bytes, asked_text, class_at, has_call, test_text};
ghost use Rattle.arj_prog.specs.Lines.{IsWordAnswer};

use arj_base::Class;
use arj_class::{Answer, Op, REGISTER_BYTES, Value};
use arj_journal::ObjectLine;
use arj_text::field::{SHORT_MAX, after, cut, is_text, number, number_first};
use arj_text::field_hex::hex_up_to;
use arj_text::field_value::operation;
use std::alloc::{AllocError, Global};

// An object's number and an operation.
fn asked(alloc: Global, bytes: &[u8]) -> Result<Option<(u16, Op)>, AllocError>
    ensures { IfOk result (λ found. IsRead AskedInForm asked_text bytes.now found) }
{
    let Some((x, words)) = number_first(alloc, bytes, b' ', 0, SHORT_MAX)? else {
        return Ok(None);
    };
    match operation(alloc, words)? {
        Some(op) => Ok(Some((x as u16, op))),
        None => Ok(None),
    }
}

// The own class of an object of the header.
fn class_at(objects: &[ObjectLine], x: u16) -> Option<Class>
    ensures { result ≡ class_at x objects.now }
{
    for object in objects {
        if object.x == x {
            return Some(object.value.own_class());
        }
    }
    None
}

// Whether the object is there, and its class has the operation.
fn has_call(class: Option<Class>, op: &Op) -> bool
    ensures { result ≡ has_call class op.now }
{
    match class {
        Some(class) => Value::mode(class, op).is_some(),
        None => false,
    }
}

// Whether bytes are answered: to a register's `get`.
fn answers_bytes(class: Option<Class>, op: &Op) -> bool
    ensures { result ≡ answers_bytes class op.now }
{
    matches!((class, op), (Some(Class::Register), Op::Get))
}

/// A call of an object of the header, by an operation of its class.
pub fn call(
    alloc: Global,
    objects: &[ObjectLine],
    bytes: &[u8],
) -> Result<Option<(u16, Op)>, AllocError>
    ensures { IfOk result (λ found. IsRead (CallInForm objects.now) asked_text bytes.now found) }
{
    let Some((x, op)) = asked(alloc, bytes)? else {
        return Ok(None);
    };
    if !has_call(class_at(objects, x), &op) {
        return Ok(None);
    }
    Ok(Some((x, op)))
}

/// A call of an object of the header, and an answer to it.
pub fn test(
    alloc: Global,
    objects: &[ObjectLine],
    bytes: &[u8],
) -> Result<Option<(u16, Op, Answer)>, AllocError>
    ensures { IfOk result (λ found. IsRead (TestInForm objects.now) test_text bytes.now found) }
{
    let Some((front, back)) = cut(bytes, b'=') else {
        return Ok(None);
    };
    let Some(words) = before(front, b" ") else {
        return Ok(None);
    };
    let Some(word) = after(back, b" ") else {
        return Ok(None);
    };
    let Some((x, op)) = call(alloc, objects, words)? else {
        return Ok(None);
    };
    match answer(alloc, answers_bytes(class_at(objects, x), &op), word)? {
        Some(answer) => Ok(Some((x, op, answer))),
        None => Ok(None),
    }
}

// An answer. Where bytes may be answered, digits of bytes are bytes.
fn answer(alloc: Global, as_bytes: bool, bytes: &[u8]) -> Result<Option<Answer>, AllocError>
    ensures { IfOk result (λ found. IsRead (AnswerInForm as_bytes) answer_text bytes.now found) }
{
    if as_bytes {
        if let Some(found) = hex_up_to(alloc, bytes, REGISTER_BYTES)? {
            return Ok(Some(Answer::Text(found)));
        }
    }
    if let Some(word) = answer_word(bytes) {
        return Ok(Some(word));
    }
    match number(alloc, bytes, 0, u64::MAX)? {
        Some(n) => Ok(Some(Answer::Number(n))),
        None => Ok(None),
    }
}

// An answer that is a word.
fn answer_word(bytes: &[u8]) -> Option<Answer>
    ensures { IsRead IsWordAnswer answer_text bytes.now result }
{
    if is_text(bytes, b"done") {
        return Some(Answer::Done);
    }
    if is_text(bytes, b"over") {
        return Some(Answer::Over);
    }
    if is_text(bytes, b"short") {
        return Some(Answer::Short);
    }
    if is_text(bytes, b"full") {
        return Some(Answer::Full);
    }
    if is_text(bytes, b"none") {
        return Some(Answer::Nothing);
    }
    if is_text(bytes, b"there") {
        return Some(Answer::There);
    }
    if is_text(bytes, b"gone") {
        return Some(Answer::Gone);
    }
    None
}

// What stands before an end that the bytes have.
fn before<'a>(bytes: &'a [u8], back: &[u8]) -> Option<&'a [u8]>
    ensures { MatchOption result
        ((front : List ℕ) → bytes.now ≢ front ++ back.now)
        (λ front. bytes.now ≡ front.now ++ back.now) }
{
    bytes.strip_suffix(back)
}
