// Operations of objects and what they answer.
ghost use Rattle.std.specs.Prelude.{◌≡◌, ◌≤◌, ◌∷◌, ◌++◌, length, OnOk};
ghost use Rattle.arj_msg.specs.Format.{Gives};
ghost use Rattle.arj_msg.specs.Fields.{number8};
ghost use Rattle.arj_msg.specs.Operation.{text, operation, answer};
ghost use Rattle.arj_class.specs.declared.limits.TheConstants.{REGISTER_BYTES};
ghost use Rattle.arj_class.specs.Forms.{OpInForm};
ghost use Rattle.arj_msg.specs.Sendable.{AnswerSends};

use crate::fault::ReadFault;
use crate::field::{Field, read_byte};
use arj_base::Bytes;
use arj_class::{Answer, Op, REGISTER_BYTES, Value};
use std::alloc::{AllocError, Global};

/// Reads the bytes of a register behind their length.
#[tactic(auto, unfolding(crate::specs::Operation::text))]
fn read_text(alloc: Global, bytes: &[u8]) -> Result<(Bytes, &[u8]), ReadFault>
    ensures { Gives (λ x. (x.0, x.1.now)) result (text.read bytes.now) }
{
    let Some((length, behind)) = bytes.split_first() else {
        return Err(ReadFault::Left(bytes.len()));
    };
    let length = usize::from(*length);
    if REGISTER_BYTES < length || behind.len() < length {
        return Err(ReadFault::Left(bytes.len()));
    }
    let (front, rest) = behind.split_at(length);
    let mut text = Bytes::new(alloc);
    text.extend(front)?;
    Ok((text, rest))
}

/// Puts bytes behind their length.
#[tactic(auto, using(std::proofs::lemmas::List::append_assoc), unfolding(crate::specs::Operation::text))]
fn put_text(bytes: &Bytes, out: &mut Bytes) -> Result<(), AllocError>
    requires { length bytes.now ≤ REGISTER_BYTES }
    ensures spelled { OnOk result (out.new ≡ out.old ++ text.spell bytes.now) }
    ensures fits { OnOk result (text.Fits bytes.now) }
{
    out.push(bytes.as_slice().len() as u8)?;
    out.extend(bytes.as_slice())
}

// Puts a code and a number behind it.
#[tactic(auto, using(std::proofs::lemmas::List::append_assoc), unfolding(crate::specs::Fields::number8))]
fn put_with_number(code: u8, number: u64, out: &mut Bytes) -> Result<(), AllocError>
    ensures spelled { OnOk result (out.new ≡ out.old ++ code ∷ number8.spell number) }
    ensures fits { OnOk result (number8.Fits number) }
{
    out.push(code)?;
    number.put(out)
}

impl Field for Op {
    ghost format = { operation };

    ghost sends = { OpInForm };

    #[tactic(auto, unfolding(crate::specs::Operation::operation, crate::specs::Format::nothing, crate::specs::Format::byte))]
    fn read(alloc: Global, bytes: &[u8]) -> Result<(Op, &[u8]), ReadFault> {
        let (code, rest) = read_byte(bytes, 1, 14)?;
        match code {
            1 => Ok((Op::Get, rest)),
            2 => {
                let (n, rest) = u64::read(alloc, rest)?;
                Ok((Op::Add(n), rest))
            }
            3 => {
                let (n, rest) = u64::read(alloc, rest)?;
                Ok((Op::Set(n), rest))
            }
            4 => {
                let (bytes, rest) = read_text(alloc, rest)?;
                Ok((Op::Put(bytes), rest))
            }
            5 => {
                let (n, rest) = u64::read(alloc, rest)?;
                Ok((Op::Deposit(n), rest))
            }
            6 => {
                let (n, rest) = u64::read(alloc, rest)?;
                Ok((Op::Withdraw(n), rest))
            }
            7 => Ok((Op::Len, rest)),
            8 => {
                let (n, rest) = u64::read(alloc, rest)?;
                Ok((Op::Push(n), rest))
            }
            9 => Ok((Op::Pop, rest)),
            10 => {
                let (key, rest) = u64::read(alloc, rest)?;
                Ok((Op::GetKey(key), rest))
            }
            11 => {
                let ((key, value), rest) = <(u64, u64)>::read(alloc, rest)?;
                Ok((Op::PutPair(key, value), rest))
            }
            12 => {
                let (key, rest) = u64::read(alloc, rest)?;
                Ok((Op::Remove(key), rest))
            }
            13 => {
                let (value, rest) = Value::read(alloc, rest)?;
                Ok((Op::Create(value), rest))
            }
            14 => Ok((Op::Destroy, rest)),
            _ => Err(ReadFault::Left(bytes.len())),
        }
    }

    #[tactic(auto, using(std::proofs::lemmas::List::append_assoc), unfolding(crate::specs::Operation::operation, crate::specs::Format::nothing, crate::specs::Format::byte))]
    fn put(&self, out: &mut Bytes) -> Result<(), AllocError> {
        match self {
            Op::Get => out.push(1),
            Op::Add(n) => put_with_number(2, *n, out),
            Op::Set(n) => put_with_number(3, *n, out),
            Op::Put(bytes) => {
                out.push(4)?;
                put_text(bytes, out)
            }
            Op::Deposit(n) => put_with_number(5, *n, out),
            Op::Withdraw(n) => put_with_number(6, *n, out),
            Op::Len => out.push(7),
            Op::Push(n) => put_with_number(8, *n, out),
            Op::Pop => out.push(9),
            Op::GetKey(key) => put_with_number(10, *key, out),
            Op::PutPair(key, value) => {
                put_with_number(11, *key, out)?;
                value.put(out)
            }
            Op::Remove(key) => put_with_number(12, *key, out),
            Op::Create(value) => {
                out.push(13)?;
                value.put(out)
            }
            Op::Destroy => out.push(14),
        }
    }
}

impl Field for Answer {
    ghost format = { answer };

    ghost sends = { AnswerSends };

    #[tactic(auto, unfolding(crate::specs::Operation::answer, crate::specs::Format::nothing, crate::specs::Format::byte))]
    fn read(alloc: Global, bytes: &[u8]) -> Result<(Answer, &[u8]), ReadFault> {
        let (code, rest) = read_byte(bytes, 0, 8)?;
        match code {
            0 => Ok((Answer::Done, rest)),
            1 => {
                let (n, rest) = u64::read(alloc, rest)?;
                Ok((Answer::Number(n), rest))
            }
            2 => {
                let (bytes, rest) = read_text(alloc, rest)?;
                Ok((Answer::Text(bytes), rest))
            }
            3 => Ok((Answer::Over, rest)),
            4 => Ok((Answer::Short, rest)),
            5 => Ok((Answer::Full, rest)),
            6 => Ok((Answer::Nothing, rest)),
            7 => Ok((Answer::There, rest)),
            8 => Ok((Answer::Gone, rest)),
            _ => Err(ReadFault::Left(bytes.len())),
        }
    }

    #[tactic(auto, using(std::proofs::lemmas::List::append_assoc), unfolding(crate::specs::Operation::answer, crate::specs::Format::nothing, crate::specs::Format::byte))]
    fn put(&self, out: &mut Bytes) -> Result<(), AllocError> {
        match self {
            Answer::Done => out.push(0),
            Answer::Number(n) => put_with_number(1, *n, out),
            Answer::Text(bytes) => {
                out.push(2)?;
                put_text(bytes, out)
            }
            Answer::Over => out.push(3),
            Answer::Short => out.push(4),
            Answer::Full => out.push(5),
            Answer::Nothing => out.push(6),
            Answer::There => out.push(7),
            Answer::Gone => out.push(8),
        }
    }
}
