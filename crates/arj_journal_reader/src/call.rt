// Operations with their answers.
ghost use Rattle.std.specs.Prelude.{◌≡◌, ◌∷◌, ◌++◌, codes, false, MatchOption};
ghost use Rattle.arj_text.specs.Fields.{IsAnswer, OpTextInForm, has_space};
ghost use Rattle.arj_journal_reader.specs.Reading.{IsTaken};
ghost use Rattle.arj_text.specs.Words.{op_text};

use crate::LineFault;
use crate::answers::is_answer;
use crate::piece::{Piece, before, taken};
use arj_base::Bytes;
use arj_class::Op;
use arj_text::field_value::operation;
use std::alloc::Global;

/// An operation and the text of its answer, with ` = ` between them.
#[derive(Drop)]
pub struct Call {
    pub op: Op,
    pub answer: Bytes,
}

impl Piece for Call {
    ghost in_form = { λ c. OpTextInForm c.op × IsAnswer c.op c.answer };

    ghost text = { λ c. op_text c.op ++ (codes " = " ++ c.answer) };

    fn read(alloc: Global, bytes: &[u8]) -> Result<Call, LineFault> {
        let Some((front, word)) = cut_last(bytes) else {
            return Err(LineFault::NotALine);
        };
        let Some(words) = before(front, b" =") else {
            return Err(LineFault::NotALine);
        };
        let op = taken(operation(alloc, words)?)?;
        let answer = answer_to(alloc, &op, word)?;
        Ok(Call { op, answer })
    }
}

// The text of an answer to that operation.
fn answer_to(alloc: Global, asked: &Op, bytes: &[u8]) -> Result<Bytes, LineFault>
    ensures { IsTaken (IsAnswer asked.now) (λ text. text) bytes.now result }
{
    if !is_answer(alloc, asked, bytes)? {
        return Err(LineFault::NotALine);
    }
    let mut answer = Bytes::new(alloc);
    answer.extend(bytes)?;
    Ok(answer)
}

// What stands before the last space, and the word behind it.
fn cut_last(bytes: &[u8]) -> Option<(&[u8], &[u8])>
    ensures { MatchOption result
        (has_space bytes.now ≡ false)
        (λ parts. (has_space parts.1.now ≡ false) × (bytes.now ≡ parts.0.now ++ 32 ∷ parts.1.now)) }
{
    let mut at = bytes.len();
    while at > 0 {
        at -= 1;
        if bytes[at] == b' ' {
            return Some((&bytes[..at], &bytes[at + 1..]));
        }
    }
    None
}
