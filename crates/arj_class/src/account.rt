// A balance that is deposited to and withdrawn from.
ghost use Rattle.std.specs.Prelude.{◌≡◌, refl};
ghost use Rattle.arj_base.specs.declared.state.Class.TheVariants as class_variant;
ghost use Rattle.arj_class.specs.Forms.{ValueInForm};
ghost use Rattle.arj_class.specs.declared.value.Value.TheVariants as variant;

use crate::payload::{numbers_fit, put_number, take_number};
use crate::{Answer, ApplyFault, ClassFault, ObjectClass, Op};
use arj_base::{Bytes, Format, Mode};
use std::alloc::{AllocError, Global};
use std::marker::Model;

/// A balance that is deposited to and withdrawn from. Contracts see it as that number.
#[derive(Drop)]
pub struct Account {
    balance: u64,
}

impl Model for Account {
    ghost use Rattle.std.specs.Prelude.{ℕ};

    ghost Value = { ℕ };

    ghost view = { λ v. v.balance };
}

impl Account {
    /// An account with this balance.
    pub fn new(balance: u64) -> Account
        ensures { result ≡ balance }
    {
        Account { balance }
    }

    /// The balance.
    pub fn balance(&self) -> u64
        ensures { result ≡ self.now }
    {
        self.balance
    }

    /// Another account with the same balance.
    pub fn copy(&self) -> Account
        ensures { result ≡ self.now }
    {
        Account {
            balance: self.balance,
        }
    }

    /// It is in form. It does nothing when it runs.
    pub(crate) fn in_form(&self)
        ensures { ValueInForm (variant.Account self.now) }
    {
        numbers_fit(&[self.balance]);
    }
}

impl ObjectClass for Account {
    ghost class = { class_variant.Account };

    ghost value = { variant.Account };

    fn mode(op: &Op) -> Option<Mode> {
        match op {
            Op::Get => Some(Mode::Read),
            Op::Deposit(_) | Op::Withdraw(_) => Some(Mode::Write),
            _ => None,
        }
    }

    fn apply(&mut self, op: &Op) -> Result<Answer, ApplyFault> {
        match op {
            Op::Get => Ok(Answer::Number(self.balance)),
            Op::Deposit(n) => match self.balance.checked_add(*n) {
                Some(sum) => {
                    self.balance = sum;
                    Ok(Answer::Done)
                }
                None => Ok(Answer::Over),
            },
            Op::Withdraw(n) => match self.balance.checked_sub(*n) {
                Some(rest) => {
                    self.balance = rest;
                    Ok(Answer::Done)
                }
                None => Ok(Answer::Short),
            },
            _ => Err(ApplyFault::WrongOp),
        }
    }

    fn save_state(&self, alloc: Global) -> Result<Bytes, AllocError> {
        let mut payload = Bytes::new(alloc);
        put_number(&mut payload, self.balance)?;
        Ok(payload)
    }

    fn restore_state(_: Global, _: Format, payload: &[u8]) -> Result<Account, ClassFault> {
        match take_number(payload) {
            Some((balance, [])) => Ok(Account { balance }),
            _ => Err(ClassFault::Payload),
        }
    }

    ghost of_class = { λ v. refl };
}
