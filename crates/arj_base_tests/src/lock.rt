// Requests and passes in a row, with their answers, and what callers get from the contracts.
ghost use Rattle.std.specs.Prelude.{◌≡◌, IfOk, OnOk, OnErr, Bool, true, false};
ghost use Rattle.arj_base.specs.declared.uid.Uid.{Uid};
ghost use Rattle.arj_base.specs.Path.{uids_of};
ghost use Rattle.arj_base.specs.Rows.{has_any, mode_of};
ghost use Rattle.arj_lock.specs.Exclusion.{AreApart, IsOneEach, StandsBelow};
ghost use Rattle.arj_lock.specs.Held.{AreBelow};
ghost use Rattle.arj_lock.specs.Requests.{IsClear};

use arj_base::{Mode, Path, Uid, Uids, object_uid};
use arj_lock::{LockFault, LockTable, drop_leaves, rows_stay_apart};
use std::alloc::{AllocError, Global};
use std::test::Fail;

// The action 1.1.n.
fn action(num: u64) -> Uid {
    Uid {
        node: 1,
        inc: 1,
        num,
    }
}

// The path of an action begun in that one, where it isn't too long.
fn nested(outer: &Path, num: u64, top: bool) -> Result<Path, AllocError> {
    if top && outer.len() != 1 {
        return Err(AllocError);
    }
    outer.push(action(num), top).ok_or(AllocError)
}

// Whether these are the tops that hold locks.
fn are_held(alloc: Global, table: &LockTable, tops: &[Uid]) -> Result<bool, AllocError> {
    Ok(table.held(alloc)?.as_slice() == tops)
}

// Asks a lock, and keeps conflicting rows with related holders, whatever stands above whom.
fn ask(table: &mut LockTable, path: &Path, object: Uid, mode: Mode) -> Result<bool, LockFault>
    ensures { OnOk result ((on : Uid → Uid → Bool) → StandsBelow on (uids_of path.now) → AreApart on table.old → AreApart on table.new) }
{
    rows_stay_apart();
    let rose = table.request(path, object, mode)?;
    Ok(rose)
}

// Whether a request would be granted: then whoever conflicts is on its path.
fn is_free(table: &LockTable, path: &Path, object: Uid, mode: Mode) -> bool
    ensures { result ≡ true → IsClear (uids_of path.now) object mode table.now }
{
    table.conflict(path, object, mode).is_none()
}

// Aborts an action, and answers whose locks went.
fn abort(alloc: Global, table: &mut LockTable, action: Uid) -> Result<Uids, AllocError>
    ensures told { IfOk result (λ told. AreBelow action table.old told) }
    ensures gone { OnOk result (has_any action table.new ≡ false) }
{
    drop_leaves();
    let told = table.holders_below(alloc, action)?;
    table.drop_action(action);
    Ok(told)
}

// Closes an object, and answers whether an action has a lock still: no more than one on each object.
fn holds_after_close(table: &mut LockTable, object: Uid, action: Uid) -> bool
    ensures any { result ≡ has_any action table.new }
    ensures one_each { IsOneEach table.new }
{
    table.close(object);
    table.holds(action)
}

// Whether a lock is free, and is then got.
fn gets(table: &mut LockTable, path: &Path, object: u16) -> bool {
    if !is_free(table, path, object_uid(object), Mode::Write) {
        return false;
    }
    ask(table, path, object_uid(object), Mode::Write).is_ok()
}

// Whether action 1 holds a lock on 4, two that nest in it hold the others, and these go with action 3.
fn two_go_with_the_third(alloc: Global, table: &mut LockTable) -> Result<bool, AllocError> {
    if is_free(table, &Path::new(action(4)), object_uid(1), Mode::Read) {
        return Ok(false);
    }
    let told = abort(alloc, table, action(3))?;
    if told.as_slice() != [action(2), action(3)].as_slice() {
        return Ok(false);
    }
    if !are_held(alloc, table, [action(1)].as_slice())? {
        return Ok(false);
    }
    Ok(!holds_after_close(table, object_uid(4), action(1)))
}

// The paths of action 1, of 3 in it, and of 2 in that.
fn path_below(num: u64) -> Result<Path, AllocError> {
    let first = Path::new(action(1));
    match num {
        1 => Ok(first),
        3 => nested(&first, 3, false),
        _ => nested(&nested(&first, 3, false)?, 2, false),
    }
}

// Whether each of these actions gets a lock on the object.
fn all_get(table: &mut LockTable) -> Result<bool, AllocError> {
    for (num, object) in [(2, 1), (3, 2), (2, 3), (1, 4)] {
        if !gets(table, &path_below(num)?, object) {
            return Ok(false);
        }
    }
    Ok(true)
}

fn locks_come_and_go(alloc: Global) -> Result<bool, AllocError> {
    let mut table = LockTable::new(alloc);
    Ok(all_get(&mut table)? && two_go_with_the_third(alloc, &mut table)?)
}

#[test]
fn callers_get_what_they_need(rt: HostRuntime) -> Result<(), Fail> {
    assert!(rt; locks_come_and_go(rt.alloc())?);
    Ok(())
}

// A call of a table: a request for the path of an action, or whom it conflicts with, and what else is done and asked.
#[derive(Clone, Copy)]
enum Call {
    Ask(u64, u16, Mode),
    Conflict(u64, u16, Mode),
    Drop(u64),
    Pass(u64),
    Lower(u64, u16),
    Close(u16),
    Holds(u64),
    IsTop(u64),
}

// What a call answers: whether a lock rose, whom the request conflicts with, or whether it is so.
#[derive(Clone, Copy, PartialEq, Eq)]
enum Answer {
    Rose,
    Had,
    By(u64, Mode),
    Done,
    Yes,
    No,
}

// The paths of actions: 1, 2, 3 in 2, the serializing action 5, its constituent 6, and 7 in that.
fn path_of(num: u64) -> Result<Path, AllocError> {
    match num {
        3 => nested(&Path::new(action(2)), 3, false),
        6 => nested(&Path::new(action(5)), 6, true),
        7 => nested(&nested(&Path::new(action(5)), 6, true)?, 7, false),
        _ => Ok(Path::new(action(num))),
    }
}

fn yes(holds: bool) -> Answer {
    if holds { Answer::Yes } else { Answer::No }
}

fn asked(table: &mut LockTable, path: &Path, x: u16, mode: Mode) -> Result<Answer, AllocError> {
    match table.request(path, object_uid(x), mode) {
        Ok(true) => Ok(Answer::Rose),
        Ok(false) => Ok(Answer::Had),
        Err(LockFault::Conflict { holder, mode }) => Ok(Answer::By(holder.num, mode)),
        Err(LockFault::Memory) => Err(AllocError),
    }
}

fn conflict(table: &LockTable, path: &Path, x: u16, mode: Mode) -> Answer {
    match table.conflict(path, object_uid(x), mode) {
        Some((holder, mode)) => Answer::By(holder.num, mode),
        None => Answer::No,
    }
}

fn told(table: &mut LockTable, call: Call) -> Result<Answer, AllocError> {
    match call {
        Call::Ask(num, x, mode) => return asked(table, &path_of(num)?, x, mode),
        Call::Conflict(num, x, mode) => return Ok(conflict(table, &path_of(num)?, x, mode)),
        Call::Holds(num) => return Ok(yes(table.holds(action(num)))),
        Call::IsTop(num) => return Ok(yes(table.is_top(action(num)))),
        Call::Drop(num) => table.drop_action(action(num)),
        Call::Pass(num) => table.pass_to_parent(action(num)),
        Call::Lower(num, x) => table.lower(action(num), object_uid(x)),
        Call::Close(x) => table.close(object_uid(x)),
    }
    Ok(Answer::Done)
}

// Calls with their answers, and the tops that hold locks behind them.
type Part = (&'static [(Call, Answer)], &'static [u64]);

// Two readers and a nested writer.
const READERS: &[Part] = &[(
    &[
        (Call::Ask(1, 1, Mode::Read), Answer::Rose),
        (Call::Ask(2, 1, Mode::Read), Answer::Rose),
        (Call::Ask(1, 1, Mode::Read), Answer::Had),
        (Call::Ask(1, 1, Mode::Write), Answer::By(2, Mode::Read)),
        (Call::Ask(3, 1, Mode::Write), Answer::By(1, Mode::Read)),
        (Call::Drop(1), Answer::Done),
        (Call::Holds(1), Answer::No),
        (Call::Ask(3, 1, Mode::Write), Answer::Rose),
        (Call::Pass(3), Answer::Done),
        (Call::Ask(1, 1, Mode::Exclude), Answer::By(2, Mode::Write)),
        (Call::Holds(2), Answer::Yes),
        (Call::Holds(3), Answer::No),
    ],
    &[2],
)];

// A constituent passes to its serializing action.
const CONSTITUENT: &[Part] = &[
    (
        &[
            (Call::Ask(7, 1, Mode::Write), Answer::Rose),
            (Call::Ask(6, 2, Mode::Exclude), Answer::Rose),
            (Call::Ask(2, 2, Mode::Read), Answer::Rose),
            (
                Call::Conflict(2, 2, Mode::Exclude),
                Answer::By(6, Mode::Exclude),
            ),
        ],
        &[2, 6],
    ),
    (
        &[
            (Call::IsTop(5), Answer::Yes),
            (Call::IsTop(6), Answer::Yes),
            (Call::IsTop(7), Answer::No),
            (Call::Pass(7), Answer::Done),
            (Call::Pass(6), Answer::Done),
            (
                Call::Conflict(2, 2, Mode::Write),
                Answer::By(5, Mode::Exclude),
            ),
        ],
        &[2, 5],
    ),
    (
        &[
            (Call::Lower(5, 1), Answer::Done),
            (Call::Ask(2, 1, Mode::Read), Answer::Rose),
            (Call::Close(1), Answer::Done),
            (Call::Pass(5), Answer::Done),
        ],
        &[2],
    ),
];

// Whether the calls have these answers, one after another.
fn has_answers(table: &mut LockTable, calls: &[(Call, Answer)]) -> Result<bool, AllocError> {
    for (call, want) in calls {
        if told(table, *call)? != *want {
            return Ok(false);
        }
    }
    Ok(true)
}

// Whether the tops that hold locks are these.
fn are_tops(held: &[Uid], nums: &[u64]) -> bool {
    if held.len() != nums.len() {
        return false;
    }
    for (top, num) in held.iter().zip(nums) {
        if *top != action(*num) {
            return false;
        }
    }
    true
}

// Whether the calls of a part have their answers, and the tops that hold locks behind them are these.
fn goes_so(alloc: Global, table: &mut LockTable, part: &Part) -> Result<bool, AllocError> {
    if !has_answers(table, part.0)? {
        return Ok(false);
    }
    Ok(are_tops(table.held(alloc)?.as_slice(), part.1))
}

// Whether the parts go so, one after another.
fn go_so(alloc: Global, parts: &[Part]) -> Result<bool, AllocError> {
    let mut table = LockTable::new(alloc);
    for part in parts {
        if !goes_so(alloc, &mut table, part)? {
            return Ok(false);
        }
    }
    Ok(true)
}

#[test]
fn calls_in_a_row(rt: HostRuntime) -> Result<(), Fail> {
    assert!(rt; go_so(rt.alloc(), READERS)?);
    assert!(rt; go_so(rt.alloc(), CONSTITUENT)?);
    Ok(())
}
