// Answers in a line.
ghost use Rattle.std.specs.Prelude.{◌≡◌, IfOk, MatchBool};
ghost use Rattle.arj_text.specs.Fields.{IsAnswer, is_get};
ghost use Rattle.arj_journal_reader.specs.Reading.{IsAnswerWord};

use arj_class::{Op, REGISTER_BYTES};
use arj_text::field::{is_text, number};
use arj_text::field_hex::hex_up_to;
use std::alloc::{AllocError, Global};

/// Whether the bytes are an answer to that operation: `done`, `over`, `short`, `full`, `none`, `there`, `gone` or a number, and
/// after a `get` without a key also at most 192 bytes as digits.
pub fn is_answer(alloc: Global, asked: &Op, bytes: &[u8]) -> Result<bool, AllocError>
    ensures { IfOk result (λ yes. MatchBool yes (IsAnswer asked.now bytes.now) (IsAnswer asked.now bytes.now → ⊥)) }
{
    if is_answer_word(bytes) {
        return Ok(true);
    }
    if let Some(_number) = number(alloc, bytes, 0, u64::MAX)? {
        return Ok(true);
    }
    if !is_get(asked) {
        return Ok(false);
    }
    match hex_up_to(alloc, bytes, REGISTER_BYTES)? {
        Some(_value) => Ok(true),
        None => Ok(false),
    }
}

// Whether the bytes are one of the answers that are a word.
fn is_answer_word(bytes: &[u8]) -> bool
    ensures { MatchBool result (IsAnswerWord bytes.now) (IsAnswerWord bytes.now → ⊥) }
{
    if is_text(bytes, b"done") {
        return true;
    }
    if is_text(bytes, b"over") {
        return true;
    }
    if is_text(bytes, b"short") {
        return true;
    }
    if is_text(bytes, b"full") {
        return true;
    }
    if is_text(bytes, b"none") {
        return true;
    }
    if is_text(bytes, b"there") {
        return true;
    }
    if is_text(bytes, b"gone") {
        return true;
    }
    false
}

// Whether the operation is a `get` without a key.
fn is_get(op: &Op) -> bool
    ensures { result ≡ is_get op.now }
{
    matches!(op, Op::Get)
}
