// A lock table in which the locks of a nested action pass up to its ancestors.
use arj_base::{Mode, Path, Uid, object_uid};
use arj_lock::{LockFault, LockTable};
use std::alloc::{AllocError, Global};

// How deep the action stands that locks first.
const DEEPEST: u64 = 16;

// The action that stands so deep.
fn action(depth: u64) -> Uid {
    Uid {
        node: 1,
        inc: 2,
        num: depth,
    }
}

// The path of the deepest action.
fn deepest() -> Option<Path> {
    let mut path = Path::new(action(1));
    for depth in 2..DEEPEST + 1 {
        path = path.push(action(depth), false)?;
    }
    Some(path)
}

/// A table in which the deepest action writes each object from 1 to `locks`. None where it got a lock less.
pub fn fill_deepest(alloc: Global, locks: u16) -> Result<Option<LockTable>, AllocError> {
    let mut table = LockTable::new(alloc);
    let Some(path) = deepest() else {
        return Ok(None);
    };
    for x in 1..=locks {
        match table.request(&path, object_uid(x), Mode::Write) {
            Ok(_) => {}
            Err(LockFault::Conflict { .. }) => return Ok(None),
            Err(LockFault::Memory) => return Err(AllocError),
        }
    }
    Ok(Some(table))
}

/// Passes the locks of such a table so many times to the parent.
pub fn pass_up(table: &mut LockTable, passes: u8) {
    for k in 0..u64::from(passes) {
        table.pass_to_parent(action(DEEPEST.saturating_sub(k)));
    }
}

/// How deep the holder of an object stands, 0 where there is none.
pub fn depth_of_holder(table: &LockTable, x: u16) -> u64 {
    let other = Path::new(action(0));
    match table.conflict(&other, object_uid(x), Mode::Read) {
        Some((holder, _)) => holder.num,
        None => 0,
    }
}
