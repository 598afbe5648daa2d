// At most 32 numbers, first in, first out.
ghost use Rattle.std.specs.Prelude.{◌≡◌, ◌≤◌, [], ◌++◌, length, refl, IfOk};
ghost use Rattle.arj_base.specs.declared.state.Class.TheVariants as class_variant;
ghost use Rattle.arj_class.specs.Forms.{ValueInForm};
ghost use Rattle.arj_class.specs.declared.value.Value.TheVariants as variant;

use crate::limits::QUEUE_NUMBERS;
use crate::payload::{numbers_fit, put_numbers, take_number};
use crate::{Answer, ApplyFault, ClassFault, ObjectClass, Op};
use arj_base::{Bytes, Format, Mode, Numbers};
use std::alloc::{AllocError, Global};
use std::collections::VecDeque;
use std::marker::Model;

/// At most 32 numbers, first in, first out. Contracts see it as the list, front first.
#[derive(Drop)]
pub struct Queue {
    numbers: VecDeque<u64>,
}

impl Model for Queue {
    ghost use Rattle.std.specs.Prelude.{ℕ, ◌≤◌, List, length};
    ghost use Rattle.arj_class.specs.declared.limits.TheConstants.{QUEUE_NUMBERS};

    ghost Value = { List ℕ };

    ghost view = { λ v. v.numbers.items };

    ghost invariant = { λ v. length v.numbers.items ≤ QUEUE_NUMBERS };
}

impl Queue {
    /// A queue of these numbers, at most 32, front first.
    pub fn new(numbers: Numbers) -> Queue
        requires { length numbers ≤ QUEUE_NUMBERS }
        ensures { result ≡ numbers }
    {
        Queue {
            numbers: VecDeque::from_vec(numbers.into_vec()),
        }
    }

    /// The numbers, front first, in two parts. The first part is empty only where the queue is.
    pub fn as_slices(&self) -> (&[u64], &[u64])
        ensures items { result.0.now ++ result.1.now ≡ self.now }
        ensures front { length result.0.now ≡ 0 → self.now ≡ [] }
    {
        self.numbers.as_slices()
    }

    /// Another queue of the same numbers.
    pub fn copy(&self, alloc: Global) -> Result<Queue, AllocError>
        ensures { IfOk result (λ copied. copied ≡ self.now) }
    {
        let (front, back) = self.numbers.as_slices();
        let mut numbers = Vec::from_slice(alloc, front)?;
        numbers.extend_from_slice(back)?;
        Ok(Queue {
            numbers: VecDeque::from_vec(numbers),
        })
    }

    /// Where its memory is from.
    pub(crate) fn allocator(&self) -> Global {
        *self.numbers.allocator()
    }

    /// It is in form. It does nothing when it runs.
    pub(crate) fn in_form(&self)
        ensures { ValueInForm (variant.Queue self.now) }
    {
        let (front, back) = self.numbers.as_slices();
        numbers_fit(front);
        numbers_fit(back);
    }
}

impl ObjectClass for Queue {
    ghost class = { class_variant.Queue };

    ghost value = { variant.Queue };

    fn mode(op: &Op) -> Option<Mode> {
        match op {
            Op::Len => Some(Mode::Read),
            Op::Push(_) | Op::Pop => Some(Mode::Write),
            _ => None,
        }
    }

    fn apply(&mut self, op: &Op) -> Result<Answer, ApplyFault> {
        match op {
            Op::Len => Ok(Answer::Number(self.numbers.len() as u64)),
            Op::Push(n) => {
                if self.numbers.len() == QUEUE_NUMBERS {
                    return Ok(Answer::Full);
                }
                self.numbers.push_back(*n)?;
                Ok(Answer::Done)
            }
            Op::Pop => match self.numbers.pop_front() {
                Some(n) => Ok(Answer::Number(n)),
                None => Ok(Answer::Nothing),
            },
            _ => Err(ApplyFault::WrongOp),
        }
    }

    fn save_state(&self, alloc: Global) -> Result<Bytes, AllocError> {
        let mut payload = Bytes::new(alloc);
        let (front, back) = self.numbers.as_slices();
        put_numbers(&mut payload, front)?;
        put_numbers(&mut payload, back)?;
        Ok(payload)
    }

    fn restore_state(alloc: Global, _: Format, payload: &[u8]) -> Result<Queue, ClassFault> {
        let mut numbers = Vec::new(alloc);
        let mut rest = payload;
        while let Some((number, behind)) = take_number(rest) {
            if numbers.len() == QUEUE_NUMBERS {
                return Err(ClassFault::Payload);
            }
            numbers.push(number)?;
            rest = behind;
        }
        if !rest.is_empty() {
            return Err(ClassFault::Payload);
        }
        Ok(Queue {
            numbers: VecDeque::from_vec(numbers),
        })
    }

    ghost of_class = { λ v. refl };
}
