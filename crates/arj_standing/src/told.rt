// The end of an action, as a part of a node applies it to its locks.
ghost use Rattle.std.specs.Prelude.{◌≡◌, ◌++◌, ◌&&◌, [], Some, IfOk, OnOk, find, nat_lt, if◌then◌else◌};
ghost use Rattle.std.specs.List.{cons_option, filter_map};
ghost use Rattle.std.specs.Option.{option_map};
ghost use Rattle.arj_base.specs.Path.{before_last};
ghost use Rattle.arj_base.specs.Rows.{front, goes_to, handed_on, has_row, is_on, passed, renamed};
ghost use Rattle.arj_base.specs.declared.mode.End.TheVariants as ending;
ghost use Rattle.arj_model.specs.Table.{is_entry as is_entry_uid, is_in_part, tell_rows};
ghost use Rattle.arj_standing.specs.Held.{rows_of, shown, spared, with_mode};
ghost use Rattle.arj_standing.specs.Begun.{last_or};

use crate::held::{Held, last_of};
use arj_base::{End, Mode, Uid, Uids};
use arj_journal::Part;
use std::alloc::{AllocError, Global};

// Whether it is the Uid of a naming entry.
fn is_entry(object: Uid) -> bool
    ensures { result ≡ is_entry_uid object }
{
    object.node == 0 && object.inc == 1
}

// Whether the part has this lock.
fn is_in(part: Part, lock: &Held) -> bool
    ensures { result ≡ is_in_part part (shown lock.now) }
{
    match part {
        Part::Naming => is_entry(lock.object),
        Part::Server => !is_entry(lock.object),
    }
}

// The last Uid of a path, if it has one.
fn last_if(path: &[Uid]) -> Option<Uid>
    ensures { result ≡ last_or path.now }
{
    match path {
        [] => None,
        [_, ..] => Some(last_of(path)),
    }
}

// The Uid before the last of a path.
#[tactic(auto, using(crate::proofs::Paths::before_by_front))]
fn before(path: &[Uid]) -> Option<Uid>
    ensures { result ≡ before_last path.now }
{
    last_if(front_of(path))
}

// Whether the action has a lock on the object.
fn has(locks: &[Held], object: Uid, action: Uid) -> bool
    ensures { result ≡ has_row object action (rows_of locks.now) }
{
    for lock in locks {
        if lock.is_of(object, action) {
            return true;
        }
    }
    false
}

// Whether a lock is the action's own on the object of another one, and passes to its holder.
fn goes(lock: &Held, action: Uid, to: &Held) -> bool
    ensures { result ≡ goes_to action (shown to.now) (shown lock.now) }
{
    lock.is_of(to.object, action) && before(lock.holder.as_slice()) == Some(to.action())
}

// The mode of the lock that passes to this lock's holder.
fn passing_mode(locks: &[Held], action: Uid, to: &Held) -> Option<Mode>
    ensures { result ≡ option_map (λ row. row.mode) (find (goes_to action (shown to.now)) (rows_of locks.now)) }
{
    for lock in locks {
        if goes(lock, action, to) {
            return Some(lock.mode);
        }
    }
    None
}

// The path without its last Uid.
fn front_of(path: &[Uid]) -> &[Uid]
    ensures { result.now ≡ front path.now }
{
    match path {
        [] => &[],
        [front @ .., _] => front,
    }
}

// The lock in the name of the Uid before its holder.
fn rename(alloc: Global, lock: &Held) -> Result<Held, AllocError>
    ensures { IfOk result (λ out. shown out ≡ renamed (shown lock.now)) }
{
    let above = front_of(lock.holder.as_slice());
    Ok(Held {
        object: lock.object,
        holder: Uids::from_vec(Vec::from_slice(alloc, above)?),
        tops: at_most(lock.tops, above.len()),
        mode: lock.mode,
    })
}

// A number, or the most that it may be.
fn at_most(number: usize, most: usize) -> usize
    ensures { result ≡ (if nat_lt most number then most else number) }
{
    if most < number { most } else { number }
}

// What becomes of the action's own lock: it goes where it has no heir, or where the heir has one already.
fn handed(
    alloc: Global,
    locks: &[Held],
    lock: &Held,
    heir: Option<Uid>,
) -> Result<Option<Held>, AllocError>
    ensures { IfOk result (λ out. option_map shown out ≡ handed_on (rows_of locks.now) (shown lock.now) heir) }
{
    match heir {
        None => Ok(None),
        Some(heir) => {
            if has(locks, lock.object, heir) {
                return Ok(None);
            }
            Ok(Some(rename(alloc, lock)?))
        }
    }
}

// Another lock, in the stronger mode of its own and of what passes to it.
fn strengthen(lock: &Held, passing: Option<Mode>) -> Result<Held, AllocError>
    ensures { IfOk result (λ out. shown out ≡ with_mode (shown lock.now) passing) }
{
    match passing {
        None => lock.copy(),
        Some(mode) => lock.with(mode),
    }
}

// What becomes of a lock of the part where the action commits.
fn pass_lock(
    alloc: Global,
    locks: &[Held],
    action: Uid,
    lock: &Held,
) -> Result<Option<Held>, AllocError>
    ensures { IfOk result (λ out. option_map shown out ≡ passed action (rows_of locks.now) (shown lock.now)) }
{
    if lock.is_held_by(action) {
        let heir = before(lock.holder.as_slice());
        return handed(alloc, locks, lock, heir);
    }
    Ok(Some(strengthen(lock, passing_mode(locks, action, lock))?))
}

// What becomes of a lock where the action commits in a part.
fn keep_lock(
    alloc: Global,
    locks: &[Held],
    part: Part,
    action: Uid,
    lock: &Held,
) -> Result<Option<Held>, AllocError>
    ensures { IfOk result (λ out. option_map shown out ≡ (if is_in_part part (shown lock.now) then passed action (rows_of locks.now) (shown lock.now) else Some (shown lock.now))) }
{
    if is_in(part, lock) {
        return pass_lock(alloc, locks, action, lock);
    }
    Ok(Some(lock.copy()?))
}

/// Puts one lock more, if there is one.
pub fn put(out: &mut Vec<Held>, lock: Option<Held>) -> Result<(), AllocError>
    ensures { OnOk result (rows_of out.new.items ≡ rows_of out.old.items ++ cons_option (option_map shown lock) []) }
{
    if let Some(lock) = lock {
        out.push(lock)?;
    }
    Ok(())
}

// The locks after the action's commit in a part.
fn commit(alloc: Global, locks: &[Held], part: Part, action: Uid) -> Result<Vec<Held>, AllocError>
    ensures { IfOk result (λ out. rows_of out.items ≡ tell_rows part action ending.Commit (rows_of locks.now)) }
{
    let mut out = Vec::new(alloc);
    for lock in locks {
        put(&mut out, keep_lock(alloc, locks, part, action, lock)?)?;
    }
    Ok(out)
}

// Whether an abort of the action in a part takes this lock.
fn is_dropped(lock: &Held, part: Part, action: Uid) -> bool
    ensures { result ≡ (is_in_part part (shown lock.now) && is_on lock.now.holder action) }
{
    is_in(part, lock) && lock.holder.as_slice().contains(&action)
}

// A lock, unless an abort of the action in a part takes it.
fn spare_lock(lock: &Held, part: Part, action: Uid) -> Result<Option<Held>, AllocError>
    ensures { IfOk result (λ out. option_map shown out ≡ spared part action (shown lock.now)) }
{
    if is_dropped(lock, part, action) {
        return Ok(None);
    }
    Ok(Some(lock.copy()?))
}

// The locks that an abort of the action in a part leaves.
fn spare(alloc: Global, locks: &[Held], part: Part, action: Uid) -> Result<Vec<Held>, AllocError>
    ensures { IfOk result (λ out. rows_of out.items ≡ filter_map (spared part action) (rows_of locks.now)) }
{
    let mut out = Vec::new(alloc);
    for lock in locks {
        put(&mut out, spare_lock(lock, part, action)?)?;
    }
    Ok(out)
}

// The locks after the action's abort in a part.
#[tactic(auto, using(crate::proofs::Filters::spared_rows))]
fn abort(alloc: Global, locks: &[Held], part: Part, action: Uid) -> Result<Vec<Held>, AllocError>
    ensures { IfOk result (λ out. rows_of out.items ≡ tell_rows part action ending.Abort (rows_of locks.now)) }
{
    spare(alloc, locks, part, action)
}

/// The locks after the end of an action was applied in a part: a commit passes the action's locks to the one above it, an abort
/// drops them and those below it.
pub fn tell(
    alloc: Global,
    locks: &[Held],
    part: Part,
    action: Uid,
    end: End,
) -> Result<Vec<Held>, AllocError>
    ensures { IfOk result (λ out. rows_of out.items ≡ tell_rows part action end (rows_of locks.now)) }
{
    match end {
        End::Commit => commit(alloc, locks, part, action),
        End::Abort => abort(alloc, locks, part, action),
    }
}
