// A number that is added to and set.
ghost use Rattle.std.specs.Prelude.{◌≡◌, refl};
ghost use Rattle.arj_base.specs.declared.state.Class.TheVariants as class_variant;
ghost use Rattle.arj_class.specs.Forms.{ValueInForm};
ghost use Rattle.arj_class.specs.declared.value.Value.TheVariants as variant;

use crate::payload::{numbers_fit, put_number, take_number};
use crate::{Answer, ApplyFault, ClassFault, ObjectClass, Op};
use arj_base::{Bytes, Format, Mode};
use std::alloc::{AllocError, Global};
use std::marker::Model;

/// A number that is added to and set. Contracts see it as that number.
#[derive(Drop)]
pub struct Counter {
    number: u64,
}

impl Model for Counter {
    ghost use Rattle.std.specs.Prelude.{ℕ};

    ghost Value = { ℕ };

    ghost view = { λ v. v.number };
}

impl Counter {
    /// A counter at this number.
    pub fn new(number: u64) -> Counter
        ensures { result ≡ number }
    {
        Counter { number }
    }

    /// The number that it stands at.
    pub fn number(&self) -> u64
        ensures { result ≡ self.now }
    {
        self.number
    }

    /// Another counter at the same number.
    pub fn copy(&self) -> Counter
        ensures { result ≡ self.now }
    {
        Counter {
            number: self.number,
        }
    }

    /// It is in form. It does nothing when it runs.
    pub(crate) fn in_form(&self)
        ensures { ValueInForm (variant.Counter self.now) }
    {
        numbers_fit(&[self.number]);
    }
}

impl ObjectClass for Counter {
    ghost class = { class_variant.Counter };

    ghost value = { variant.Counter };

    fn mode(op: &Op) -> Option<Mode> {
        match op {
            Op::Get => Some(Mode::Read),
            Op::Add(_) | Op::Set(_) => Some(Mode::Write),
            _ => None,
        }
    }

    fn apply(&mut self, op: &Op) -> Result<Answer, ApplyFault> {
        match op {
            Op::Get => Ok(Answer::Number(self.number)),
            Op::Add(n) => match self.number.checked_add(*n) {
                Some(sum) => {
                    self.number = sum;
                    Ok(Answer::Done)
                }
                None => Ok(Answer::Over),
            },
            Op::Set(n) => {
                self.number = *n;
                Ok(Answer::Done)
            }
            _ => Err(ApplyFault::WrongOp),
        }
    }

    fn save_state(&self, alloc: Global) -> Result<Bytes, AllocError> {
        let mut payload = Bytes::new(alloc);
        put_number(&mut payload, self.number)?;
        Ok(payload)
    }

    fn restore_state(_: Global, _: Format, payload: &[u8]) -> Result<Counter, ClassFault> {
        match take_number(payload) {
            Some((number, [])) => Ok(Counter { number }),
            _ => Err(ClassFault::Payload),
        }
    }

    ghost of_class = { λ v. refl };
}
