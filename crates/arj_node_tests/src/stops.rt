// A node whose disk stops: at each call of a commit of two objects, and at each call of the restart after some of these.
ghost use Rattle.std.specs.Prelude.{◌≡◌, OnOk, IfOk, IfSome};
ghost use Rattle.arj_journal.specs.ScriptForm.{HeaderInForm};
ghost use Rattle.arj_node_tests.specs.Alone.{StandsSome};

use crate::alone::{Alone, arm, begin};
use crate::rows::{Ask, step};
use arj_base::Bytes;
use arj_core::{Core, CoreFault};
use arj_disk::Disk;
use arj_journal::Header;
use arj_part_tests::Recorder;
use std::alloc::Global;

/// Two counters that the one node serves and stores.
pub const TWO_COUNTERS: &[&[u8]] = &[
    b"nodes 1",
    b"object 1 counter 0 servers 1 stores 1",
    b"object 2 counter 0 servers 1 stores 1",
    b"run",
];

// A call of the disk at which it is stopped, and whether that call is done.
type Stop = (u32, bool);

// The calls of the disk in the commit: two reads, the puts of the new states and of the record, which is the decision, the rename
// that commits the states, and at the last acknowledgement the removal of the record.
const COMMIT: u32 = 8;

// The rename of the record in its place.
const DECISION: u32 = 6;

// After these stops of the commit a restart makes so many calls. It begins with a read and a put of the incarnation, a removal
// and the names; it ends with a segment of states, the names, a segment of entries, and the names again: nine calls. Between
// stands the read of what is prepared, or of the segment of a commit that was done; then the read of the record. What is
// prepared is then removed, or renamed as the next segment; and the record is removed.
const RESTARTS: &[(Stop, u32)] = &[
    ((3, true), 9),
    ((4, true), 11),
    ((DECISION, false), 11),
    ((DECISION, true), 13),
    ((7, true), 12),
    ((COMMIT, false), 12),
];

// What is shown of both objects where the commit was decided, and where it wasn't.
const NEW: &[u8] = b"1 entry 1 0 1 1
1 copy 1 1 1 1.1.1 0000000000000003
1 disk read segment names 1
1 disk read segment store 2
2 entry 2 0 1 1
2 copy 1 2 1 1.1.1 0000000000000004
2 disk read segment names 1
2 disk read segment store 2
";

const OLD: &[u8] = b"1 entry 1 0 1 1
1 copy 1 1 0 0.0.0 0000000000000000
1 disk read segment names 1
1 disk read segment store 1
2 entry 2 0 1 1
2 copy 1 2 0 0.0.0 0000000000000000
2 disk read segment names 1
2 disk read segment store 1
";

// A top adds to both counters, and its commit is stopped at this call: true where it is.
fn commits<C: Core>(alone: &mut Alone<C>, stop: Stop) -> Result<bool, CoreFault>
    requires stands { StandsSome C.Core alone.old.core (⟦<Recorder as Disk>⟧.file alone.old.disk) }
    requires arms { ⟦<Recorder as Disk>⟧.arms alone.old.disk ≡ 0 }
    ensures stands { OnOk result (StandsSome C.Core alone.new.core (⟦<Recorder as Disk>⟧.file alone.new.disk)) }
    ensures arms { OnOk result (⟦<Recorder as Disk>⟧.arms alone.new.disk ≡ 1) }
{
    step(alone, 0, Ask::Begin)?;
    step(alone, 0, Ask::Add(1, 3))?;
    step(alone, 0, Ask::Add(2, 4))?;
    arm(alone, stop.0, stop.1);
    step(alone, 0, Ask::Commit)
}

// A restart is stopped at this call: true where it is.
fn restarts<C: Core>(alone: &mut Alone<C>, stop: Stop) -> Result<bool, CoreFault>
    requires stands { StandsSome C.Core alone.old.core (⟦<Recorder as Disk>⟧.file alone.old.disk) }
    requires arms { ⟦<Recorder as Disk>⟧.arms alone.old.disk ≡ 1 }
    ensures { OnOk result (StandsSome C.Core alone.new.core (⟦<Recorder as Disk>⟧.file alone.new.disk)) }
{
    arm(alone, stop.0, stop.1);
    step(alone, 0, Ask::Restart)
}

// A node whose commit was stopped at this call, and then its restart at that one, if there is one. None where a stop
// didn't come.
fn stopped<C: Core + Drop>(
    alloc: Global,
    run: &Header,
    commit: Stop,
    restart: Option<Stop>,
) -> Result<Option<Alone<C>>, CoreFault>
    requires form { HeaderInForm run.now }
    ensures { IfOk result (λ found. IfSome found (λ a. StandsSome C.Core a.core (⟦<Recorder as Disk>⟧.file a.disk))) }
{
    let mut alone: Alone<C> = begin(alloc, 1, run)?;
    if !commits(&mut alone, commit)? {
        return Ok(None);
    }
    if let Some(stop) = restart {
        if !restarts(&mut alone, stop)? {
            return Ok(None);
        }
    }
    Ok(Some(alone))
}

// What the node shows of both objects once it is up again and idle.
fn shows<C: Core>(alone: &mut Alone<C>) -> Result<bool, CoreFault>
    requires { StandsSome C.Core alone.old.core (⟦<Recorder as Disk>⟧.file alone.old.disk) }
    ensures { OnOk result (StandsSome C.Core alone.new.core (⟦<Recorder as Disk>⟧.file alone.new.disk)) }
{
    step(alone, 0, Ask::Restart)?;
    alone.journal = Bytes::new(alone.alloc);
    step(alone, 1, Ask::Show(1))?;
    step(alone, 2, Ask::Show(2))?;
    Ok(alone.core.idle())
}

// After such stops the node is idle, and shows new states exactly where the commit was decided.
fn ends<C: Core + Drop>(
    alloc: Global,
    run: &Header,
    commit: Stop,
    restart: Option<Stop>,
) -> Result<bool, CoreFault>
    requires { HeaderInForm run.now }
{
    let Some(mut alone) = stopped::<C>(alloc, run, commit, restart)? else {
        return Ok(false);
    };
    let decided = commit.0 > DECISION || (commit.0 == DECISION && commit.1);
    let want = if decided { NEW } else { OLD };
    Ok(shows(&mut alone)? && alone.journal.as_slice() == want)
}

// So at each call of a restart, and it makes no more.
fn ends_at_each<C: Core + Drop>(
    alloc: Global,
    run: &Header,
    commit: Stop,
    calls: u32,
) -> Result<bool, CoreFault>
    requires { HeaderInForm run.now }
{
    for call in 1..=calls {
        for done in [false, true] {
            if !ends::<C>(alloc, run, commit, Some((call, done)))? {
                return Ok(false);
            }
        }
    }
    let more = Some((calls.saturating_add(1), false));
    Ok(stopped::<C>(alloc, run, commit, more)?.is_none())
}

/// Whether a node ends so wherever its commit is stopped. The commit makes no more calls.
pub fn commit_ends<C: Core + Drop>(alloc: Global, run: &Header) -> Result<bool, CoreFault>
    requires { HeaderInForm run.now }
{
    for call in 1..=COMMIT {
        for done in [false, true] {
            if !ends::<C>(alloc, run, (call, done), None)? {
                return Ok(false);
            }
        }
    }
    Ok(stopped::<C>(alloc, run, (COMMIT + 1, false), None)?.is_none())
}

/// And wherever the restart after some of these stops is stopped.
pub fn restarts_end<C: Core + Drop>(alloc: Global, run: &Header) -> Result<bool, CoreFault>
    requires { HeaderInForm run.now }
{
    for (stop, calls) in RESTARTS {
        if !ends_at_each::<C>(alloc, run, *stop, *calls)? {
            return Ok(false);
        }
    }
    Ok(true)
}
