// What a call or an include is for, and how it ends.
ghost use Rattle.std.specs.Prelude.{◌≡◌, IfOk};
ghost use Rattle.arj_protocol.specs.Call.{is_include, invoked_op};
ghost use Rattle.arj_bind.specs.Shown.{goal_of};

use arj_base::{Mode, ObjectState, Uid};
use arj_class::{Answer, Op};
use arj_msg::What;
use std::alloc::{AllocError, Global};

/// What the steps are for: an operation on the object, or the object's state for a store that is included.
#[derive(Drop)]
pub enum Goal {
    Call(Op),
    Include(u8),
}

/// How a call or an include ended, with the node that told it.
#[derive(Drop)]
pub enum CallEnd {
    /// The operation was done.
    Answered(Answer),
    /// The state was loaded.
    Included(ObjectState),
    /// Another action holds the object or its entry.
    Conflict { holder: Uid, mode: Mode, node: u8 },
    /// An incarnation or the binding changed.
    Changed { node: u8, what: What },
    /// It was given up; `sent` where its Invoke was sent, so that the operation may have been done.
    Lost { node: u8, sent: bool },
}

impl Goal {
    /// Whether it is an include.
    pub fn is_include(&self) -> bool
        ensures { result ≡ is_include (goal_of self.now) }
    {
        matches!(self, Goal::Include(_))
    }

    /// The same again, in other memory.
    pub fn copy(&self, alloc: Global) -> Result<Goal, AllocError>
        ensures { IfOk result (λ copied. copied ≡ self.now) }
    {
        Ok(match self {
            Goal::Call(op) => Goal::Call(copy_op(alloc, op)?),
            Goal::Include(store) => Goal::Include(*store),
        })
    }

    // The operation again, in other memory. An include has none; it never comes to an Invoke.
    pub(crate) fn operation(&self, alloc: Global) -> Result<Op, AllocError>
        ensures { IfOk result (λ op. op ≡ invoked_op (goal_of self.now)) }
    {
        match self {
            Goal::Call(op) => copy_op(alloc, op),
            Goal::Include(_) => Ok(Op::Get),
        }
    }
}

// An operation again, in other memory.
fn copy_op(alloc: Global, op: &Op) -> Result<Op, AllocError>
    ensures { IfOk result (λ copied. copied ≡ op.now) }
{
    Ok(match op {
        Op::Get => Op::Get,
        Op::Add(n) => Op::Add(*n),
        Op::Set(n) => Op::Set(*n),
        Op::Put(bytes) => Op::Put(bytes.copy()?),
        Op::Deposit(n) => Op::Deposit(*n),
        Op::Withdraw(n) => Op::Withdraw(*n),
        Op::Len => Op::Len,
        Op::Push(n) => Op::Push(*n),
        Op::Pop => Op::Pop,
        Op::GetKey(key) => Op::GetKey(*key),
        Op::PutPair(key, n) => Op::PutPair(*key, *n),
        Op::Remove(key) => Op::Remove(*key),
        Op::Create(value) => Op::Create(value.copy(alloc)?),
        Op::Destroy => Op::Destroy,
    })
}
