// A lock table in which many tops read one object, while others come and go.
use crate::locks::Count;
use arj_base::{Mode, Path, Uid, object_uid};
use arj_lock::{LockFault, LockTable};
use std::alloc::{AllocError, Global};

// The object.
const OBJECT: u16 = 1;

// The top with this number.
fn top(num: u64) -> Path {
    Path::new(Uid {
        node: 1,
        inc: 3,
        num,
    })
}

// Whether a top is granted the object.
fn is_granted(table: &mut LockTable, num: u64, mode: Mode) -> Result<bool, AllocError> {
    match table.request(&top(num), object_uid(OBJECT), mode) {
        Ok(_) => Ok(true),
        Err(LockFault::Conflict { .. }) => Ok(false),
        Err(LockFault::Memory) => Err(AllocError),
    }
}

/// A table in which so many tops read the object.
pub fn fill_held(alloc: Global, holders: u16) -> Result<LockTable, AllocError> {
    let mut table = LockTable::new(alloc);
    for num in 1..=holders {
        is_granted(&mut table, u64::from(num), Mode::Read)?;
    }
    Ok(table)
}

/// So often another top reads the object, asks to exclude, asks to write, and ends.
pub fn come_and_go(table: &mut LockTable, times: u32) -> Result<Count, AllocError> {
    let mut count = Count {
        granted: 0,
        refused: 0,
    };
    for k in 0..times {
        let num = u64::from(k) + 100_000;
        for mode in [Mode::Read, Mode::Exclude, Mode::Write] {
            let granted = is_granted(table, num, mode)?;
            count.granted = count.granted.saturating_add(u64::from(granted));
            count.refused = count.refused.saturating_add(u64::from(!granted));
        }
        table.pass_to_parent(top(num).last());
    }
    Ok(count)
}
