// Operations, and what they answer.
use crate::Value;
use crate::limits::REGISTER_BYTES;
use arj_base::Bytes;
use std::alloc::{AllocError, AllocFailed};
use thiserror::Error;

/// An operation with its arguments. Which class has which, and what each answers, is the class table
/// (`specs/Table.antt`).
#[derive(Drop)]
pub enum Op {
    /// A counter's, register's or account's value.
    Get,
    /// Adds to a counter.
    Add(u64),
    /// Sets a counter.
    Set(u64),
    /// Sets a register, to at most 192 bytes.
    Put(Bytes),
    /// Adds to an account's balance.
    Deposit(u64),
    /// Takes from an account's balance.
    Withdraw(u64),
    /// How many numbers a queue has.
    Len,
    /// Puts a number at the end of a queue.
    Push(u64),
    /// Takes the number at the front of a queue.
    Pop,
    /// A table's value of a key.
    GetKey(u64),
    /// Sets a table's value of a key.
    PutPair(u64, u64),
    /// Takes a key out of a table.
    Remove(u64),
    /// Lets an object that is gone come, with a value of its class.
    Create(Value),
    /// Lets an object be gone.
    Destroy,
}

impl Op {
    ghost use Rattle.std.specs.Prelude.{◌≡◌, ◌↔◌, IsTrue};
    ghost use Rattle.arj_class.specs.Forms.{OpInForm, is_op_in_form};

    /// Whether the operation may be applied: a register takes at most 192 bytes, and no object comes as one that is gone.
    pub fn is_in_form(&self) -> bool
        ensures form { IsTrue result ↔ OpInForm self.now }
        ensures test { result ≡ is_op_in_form self.now }
    {
        match self {
            Op::Put(bytes) => bytes.as_slice().len() <= REGISTER_BYTES,
            Op::Create(value) => {
                value.in_form();
                !value.is_gone()
            }
            _ => true,
        }
    }
}

/// What an operation answers.
#[derive(Drop)]
pub enum Answer {
    /// It was done.
    Done,
    /// A counter, a balance, a length, a number of a queue or a value of a table.
    Number(u64),
    /// A register's bytes.
    Text(Bytes),
    /// The sum would pass 18446744073709551615; nothing changed.
    Over,
    /// The balance is too small; nothing changed.
    Short,
    /// There is no room for another number or key; nothing changed.
    Full,
    /// There is no such key, or no number.
    Nothing,
    /// The object is there already; nothing changed.
    There,
    /// The object is gone; nothing changed.
    Gone,
}

/// Why an operation was not applied. The value is as it was.
#[derive(Debug, Drop, Error)]
pub enum ApplyFault {
    /// The class lacks the operation.
    #[error("the class lacks this operation")]
    WrongOp,
    /// Memory is wanting.
    #[error("out of memory")]
    Memory,
}

impl From<AllocError> for ApplyFault {
    ghost use Rattle.std.specs.Prelude.{◌≡◌};
    ghost use Rattle.arj_class.specs.declared.op.ApplyFault.TheVariants.{Memory};

    ghost from_gives = { λ _ e. e ≡ Memory };

    fn from(_: AllocError) -> ApplyFault {
        ApplyFault::Memory
    }
}

impl<T: Drop> From<AllocFailed<T>> for ApplyFault {
    ghost use Rattle.std.specs.Prelude.{◌≡◌};
    ghost use Rattle.arj_class.specs.declared.op.ApplyFault.TheVariants.{Memory};

    ghost from_gives = { λ _ e. e ≡ Memory };

    fn from(_: AllocFailed<T>) -> ApplyFault {
        ApplyFault::Memory
    }
}
