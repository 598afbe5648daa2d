// The steps of a lock table, each over a list of locks that are held.
ghost use Rattle.std.specs.Prelude.{◌≡◌, ◌++◌, IfOk, OnOk, if◌then◌else◌};
ghost use Rattle.arj_base.specs.declared.mode.Mode.TheVariants.{Read};
ghost use Rattle.arj_base.specs.Rows.{close_rows, grant_row, is_row_of, lower_row};
ghost use Rattle.std.specs.List.{filter_map};
ghost use Rattle.std.specs.Option.{option_map};
ghost use Rattle.arj_standing.specs.Held.{other_row, rows_of, shown};

use crate::held::Held;
use crate::told::put;
use arj_base::{Mode, Uid};
use std::alloc::{AllocError, Global};

// Puts copies of these locks at the end.
fn copy_all(out: &mut Vec<Held>, locks: &[Held]) -> Result<(), AllocError>
    ensures { OnOk result (rows_of out.new.items ≡ rows_of out.old.items ++ rows_of locks.now) }
{
    for lock in locks {
        out.push(lock.copy()?)?;
    }
    Ok(())
}

/// The locks after a grant: the action's lock on the object in the stronger mode, or one more.
pub fn grant(alloc: Global, locks: &[Held], new: Held) -> Result<Vec<Held>, AllocError>
    ensures { IfOk result (λ out. rows_of out.items ≡ grant_row (shown new) (rows_of locks.now)) }
{
    let mut out = Vec::new(alloc);
    for (at, lock) in locks.iter().enumerate() {
        if lock.is_of(new.object, new.action()) {
            out.push(lock.with(new.mode)?)?;
            copy_all(&mut out, &locks[at + 1..])?;
            return Ok(out);
        }
        out.push(lock.copy()?)?;
    }
    out.push(new)?;
    Ok(out)
}

/// The locks after an action's lock on an object was lowered to read.
pub fn lower(
    alloc: Global,
    locks: &[Held],
    action: Uid,
    object: Uid,
) -> Result<Vec<Held>, AllocError>
    ensures { IfOk result (λ out. rows_of out.items ≡ lower_row action object (rows_of locks.now)) }
{
    let mut out = Vec::new(alloc);
    for lock in locks {
        out.push(lowered(lock, action, object)?)?;
    }
    Ok(out)
}

// The lock in read mode, where it is this action's own on this object.
fn lowered(lock: &Held, action: Uid, object: Uid) -> Result<Held, AllocError>
    ensures { IfOk result (λ out. shown out ≡ (if is_row_of object action (shown lock.now) then record (shown lock.now) { mode = Read } else shown lock.now)) }
{
    let mut out = lock.copy()?;
    if lock.is_of(object, action) {
        out.mode = Mode::Read;
    }
    Ok(out)
}

// A lock, unless it is on this object.
fn other_than(lock: &Held, object: Uid) -> Result<Option<Held>, AllocError>
    ensures { IfOk result (λ out. option_map shown out ≡ other_row object (shown lock.now)) }
{
    if lock.object == object {
        return Ok(None);
    }
    Ok(Some(lock.copy()?))
}

// The locks on other objects.
fn others(alloc: Global, locks: &[Held], object: Uid) -> Result<Vec<Held>, AllocError>
    ensures { IfOk result (λ out. rows_of out.items ≡ filter_map (other_row object) (rows_of locks.now)) }
{
    let mut out = Vec::new(alloc);
    for lock in locks {
        put(&mut out, other_than(lock, object)?)?;
    }
    Ok(out)
}

/// The locks after all on an object are gone.
#[tactic(auto, using(crate::proofs::Filters::other_rows))]
pub fn close(alloc: Global, locks: &[Held], object: Uid) -> Result<Vec<Held>, AllocError>
    ensures { IfOk result (λ out. rows_of out.items ≡ close_rows object (rows_of locks.now)) }
{
    others(alloc, locks, object)
}
