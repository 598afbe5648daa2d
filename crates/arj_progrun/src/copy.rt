// Copies of operations and events.
ghost use Rattle.std.specs.Prelude.{◌≡◌, IfOk};

use arj_class::Op;
use arj_journal::{Event, StopKind};
use std::alloc::{AllocError, Global};

/// An operation again, in other memory.
pub fn copy_op(alloc: Global, op: &Op) -> Result<Op, AllocError>
    ensures { IfOk result (λ copied. copied ≡ op.now) }
{
    Ok(match op {
        Op::Get => Op::Get,
        Op::Add(n) => Op::Add(*n),
        Op::Set(n) => Op::Set(*n),
        Op::Put(bytes) => Op::Put(bytes.copy()?),
        Op::Deposit(n) => Op::Deposit(*n),
        Op::Withdraw(n) => Op::Withdraw(*n),
        Op::Len => Op::Len,
        Op::Push(n) => Op::Push(*n),
        Op::Pop => Op::Pop,
        Op::GetKey(key) => Op::GetKey(*key),
        Op::PutPair(key, n) => Op::PutPair(*key, *n),
        Op::Remove(key) => Op::Remove(*key),
        Op::Create(value) => Op::Create(value.copy(alloc)?),
        Op::Destroy => Op::Destroy,
    })
}

// How a disk call stops, again.
fn copy_kind(kind: &StopKind) -> Result<StopKind, AllocError>
    ensures { IfOk result (λ copied. copied ≡ kind.now) }
{
    Ok(match kind {
        StopKind::Undone => StopKind::Undone,
        StopKind::Done => StopKind::Done,
        StopKind::Torn(bytes) => StopKind::Torn(bytes.copy()?),
    })
}

/// An event again, in other memory.
pub fn copy_event(alloc: Global, event: &Event) -> Result<Event, AllocError>
    ensures { IfOk result (λ copied. copied ≡ event.now) }
{
    Ok(match event {
        Event::Begin { label, node } => Event::Begin {
            label: *label,
            node: *node,
        },
        Event::BeginIn { label, parent } => Event::BeginIn {
            label: *label,
            parent: *parent,
        },
        Event::Top { label, parent } => Event::Top {
            label: *label,
            parent: *parent,
        },
        Event::Serial { label, node } => Event::Serial {
            label: *label,
            node: *node,
        },
        Event::Call { label, x, op } => Event::Call {
            label: *label,
            x: *x,
            op: copy_op(alloc, op)?,
        },
        Event::Include { label, x, node } => Event::Include {
            label: *label,
            x: *x,
            node: *node,
        },
        Event::Commit { label } => Event::Commit { label: *label },
        Event::Abort { label } => Event::Abort { label: *label },
        Event::GiveUp { label } => Event::GiveUp { label: *label },
        Event::Deliver { frame } => Event::Deliver { frame: *frame },
        Event::Lose { frame } => Event::Lose { frame: *frame },
        Event::Tick { node } => Event::Tick { node: *node },
        Event::Settle => Event::Settle,
        Event::Quiesce => Event::Quiesce,
        Event::Crash { node } => Event::Crash { node: *node },
        Event::Restart { node } => Event::Restart { node: *node },
        Event::Stop { node, calls, kind } => Event::Stop {
            node: *node,
            calls: *calls,
            kind: copy_kind(kind)?,
        },
        Event::Junk { node, bytes } => Event::Junk {
            node: *node,
            bytes: bytes.copy()?,
        },
        Event::Show { x } => Event::Show { x: *x },
    })
}
