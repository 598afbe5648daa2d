// The seats of a hall, by locks.
ghost use Rattle.std.specs.Prelude.{◌≡◌, ◌≢◌, None, IfOk, OnErr};
ghost use Rattle.arj_base.specs.Rows.{drop_rows, grant_row};
ghost use Rattle.seats.specs.Seats.{IsSoldOnce, other_owner, owned};

use arj_base::{Mode, Path, Uid, object_uid, uids_are_told_apart};
use arj_lock::{LockFault, LockTable, rows_stay_apart};
use std::alloc::{AllocError, Global};

/// The customer of this number, as an action of node 1.
pub fn customer(num: u64) -> Uid {
    Uid {
        node: 1,
        inc: 1,
        num,
    }
}

/// A customer takes a seat. Where somebody else has it, that one is answered, and nothing has changed.
pub fn take(hall: &mut LockTable, who: Uid, seat: u16) -> Result<Option<Uid>, AllocError>
    ensures once { IsSoldOnce hall.old → IsSoldOnce hall.new }
    ensures other { IfOk result (λ other. other ≡ other_owner who seat hall.old) }
    ensures taken { IfOk result (λ other. other ≡ None → hall.new ≡ grant_row (owned who seat) hall.old) }
    ensures kept { IfOk result (λ other. other ≢ None → hall.new ≡ hall.old) }
    ensures memory { OnErr result (hall.new ≡ hall.old) }
{
    rows_stay_apart();
    uids_are_told_apart();
    match hall.request(&Path::new(who), object_uid(seat), Mode::Write) {
        Ok(_) => Ok(None),
        Err(LockFault::Conflict { holder, .. }) => Ok(Some(holder)),
        Err(LockFault::Memory) => Err(AllocError),
    }
}

/// A customer leaves all its seats.
pub fn leave(hall: &mut LockTable, who: Uid)
    ensures once { IsSoldOnce hall.old → IsSoldOnce hall.new }
    ensures left { hall.new ≡ drop_rows who hall.old }
{
    rows_stay_apart();
    hall.drop_action(who);
}
