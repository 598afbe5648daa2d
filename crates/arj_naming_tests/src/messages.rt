// Messages about object 1, by a top of node 2.
ghost use Rattle.std.specs.Prelude.{ℕ, IfOk};
ghost use Rattle.std.specs.List.{AllByRecursion};
ghost use Rattle.arj_msg.specs.InForm.{IsNode};
ghost use Rattle.arj_naming.specs.Calls.{IsSingle};

use arj_base::{Binding, End, Ends, Path, Uid};
use arj_msg::{Bind, Confirm, Grants, Head, Marks, RecordMsg, Told};
use std::alloc::{AllocError, Global};

/// The store that is included where one is.
pub const INCLUDED: u8 = 4;

/// A top of node 2, by its number.
pub fn top(num: u64) -> Uid {
    Uid {
        node: 2,
        inc: 1,
        num,
    }
}

fn head(num: u64) -> Head {
    Head {
        path: Path::new(top(num)),
        req: 1,
    }
}

// The binding of this count in incarnation 1, or none.
fn binding(count: u32) -> Binding {
    Binding {
        inc: count.min(1),
        count,
    }
}

/// A Bind that avoids the binding of this count.
pub fn bind(num: u64, avoid: u32, include: bool) -> Bind {
    Bind {
        head: head(num),
        x: 1,
        include,
        avoid: binding(avoid),
    }
}

/// A Record of the binding of this count, at a server in incarnation 1.
pub fn record(num: u64, count: u32, naming_inc: u32) -> RecordMsg {
    RecordMsg {
        head: head(num),
        x: 1,
        binding: binding(count),
        server_inc: 1,
        naming_inc,
    }
}

fn marks(alloc: Global, stores: &[u8]) -> Result<Marks, AllocError> {
    let mut marks = Marks::new(alloc);
    for store in stores {
        marks.push((1, *store))?;
    }
    Ok(marks)
}

// An inclusion, or none.
fn included(alloc: Global, includes: bool) -> Result<Marks, AllocError>
    ensures { IfOk result (AllByRecursion (λ (k : ℕ × ℕ). IsNode k.1)) }
{
    let mut marks = Marks::new(alloc);
    if !includes {
        return Ok(marks);
    }
    marks.push((1, INCLUDED))?;
    Ok(marks)
}

/// A Confirm of object 1 in this incarnation, which excludes these stores, and includes one.
pub fn confirm(
    alloc: Global,
    num: u64,
    inc: u32,
    excluded: &[u8],
    includes: bool,
) -> Result<Confirm, AllocError>
    ensures { IfOk result IsSingle }
{
    let excluded = marks(alloc, excluded)?;
    let included = included(alloc, includes)?;
    let mut objects = Grants::new(alloc);
    objects.push((1, inc))?;
    Ok(Confirm {
        head: head(num),
        objects,
        excluded,
        included,
    })
}

/// The end of a top.
pub fn told(alloc: Global, num: u64, end: End) -> Result<Told, AllocError> {
    let mut ends = Ends::new(alloc);
    ends.push((top(num), end))?;
    Ok(Told {
        root: top(num),
        ack: false,
        ends,
    })
}
