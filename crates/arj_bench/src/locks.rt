// A lock table with rows on as many objects, and requests of it.
ghost use Rattle.std.specs.Prelude.{◌≡◌, ◌+◌, ◌<◌, IfOk};

use arj_base::{Mode, Path, Uid, object_uid};
use arj_lock::{LockFault, LockTable};
use std::alloc::{AllocError, Global};

/// How often a lock was granted, and how often it was not.
#[derive(Clone, Copy, Debug)]
pub struct Count {
    pub granted: u64,
    pub refused: u64,
}

// The top-level action with this number.
fn action(num: u64) -> Path {
    Path::new(Uid {
        node: 1,
        inc: 1,
        num,
    })
}

// Whether a request is granted.
fn is_granted(
    table: &mut LockTable,
    path: &Path,
    object: u16,
    mode: Mode,
) -> Result<bool, AllocError> {
    match table.request(path, object_uid(object), mode) {
        Ok(_) => Ok(true),
        Err(LockFault::Conflict { .. }) => Ok(false),
        Err(LockFault::Memory) => Err(AllocError),
    }
}

/// A table in which action x reads object x, for each x from 1 to `rows`.
pub fn fill(alloc: Global, rows: u16) -> Result<LockTable, AllocError> {
    let mut table = LockTable::new(alloc);
    for x in 1..=rows {
        is_granted(&mut table, &action(u64::from(x)), x, Mode::Read)?;
    }
    Ok(table)
}

/// Requests of such a table: by turns a reader asks its object once more, and another action asks to write it.
pub fn request_all(table: &mut LockTable, rows: u16, requests: u32) -> Result<Count, AllocError>
    requires { 0 < rows }
    ensures { IfOk result (λ count. count.granted + count.refused ≡ requests) }
{
    let other = action(0);
    let mut granted = 0;
    for k in 0..requests {
        let turn = k / 2 % u32::from(rows) + 1;
        let x = turn as u16;
        let path = if k % 2 == 0 {
            action(u64::from(x))
        } else {
            other
        };
        let mode = if k % 2 == 0 { Mode::Read } else { Mode::Write };
        granted += u64::from(is_granted(table, &path, x, mode)?);
    }
    let refused = u64::from(requests) - granted;
    Ok(Count { granted, refused })
}
