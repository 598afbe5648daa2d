// Records over disks that write down their calls and stop at one of them.
ghost use Rattle.std.specs.Prelude.{◌≡◌, ◌≤◌, ◌<◌, None, IfOk, OnOk};
ghost use Rattle.arj_intent.specs.Records.{IsInForm, AreInForm};

use crate::recorder::{Did, Recorder};
use arj_base::{Bytes, NodeList, Uid};
use arj_disk::{Disk, DiskFault, MemDisk, Outcome, Slot};
use arj_intent::{Intent, Intents, list, put, remove};
use std::alloc::{AllocError, Global};
use std::test::Fail;

const FIRST: Uid = Uid {
    node: 1,
    inc: 1,
    num: 1,
};

const SERIAL: Uid = Uid {
    node: 1,
    inc: 1,
    num: 2,
};

const MEMBER: Uid = Uid {
    node: 1,
    inc: 1,
    num: 3,
};

// A record of the first top, the same with one node less, and one of a constituent of a serializing action.
#[derive(Clone, Copy, Debug, PartialEq, Eq)]
enum Row {
    First,
    Less,
    Member,
}

// The file of the constituent's record, and that of the first with one node.
const MEMBER_FILE: &[u8] = b"ARJN\0\0\0\x01\0\0\0\x01\0\0\0\0\0\0\0\x02\
    \0\0\0\x01\0\0\0\x01\0\0\0\0\0\0\0\x03\x03\x01\x03\x10";

const LESS_FILE: &[u8] = b"ARJN\0\0\0\x01\0\0\0\x01\0\0\0\0\0\0\0\x01\
    \0\0\0\x01\0\0\0\x01\0\0\0\0\0\0\0\x01\x01\x02";

const TORN: &[u8] = b"ARJ";

#[derive(Clone, Copy)]
enum Call {
    Put(Row),
    Remove(Uid),
    List,
}

// What is there: Tmp, and the records by their tops.
type Left = (Option<&'static [u8]>, &'static [Row]);

struct Case {
    // What was put, in this order.
    before: &'static [Row],
    call: Call,
    // The calls of the disk, and what each leaves.
    steps: &'static [(Did, Left)],
}

const CASES: &[Case] = &[
    Case {
        before: &[Row::First],
        call: Call::Put(Row::Member),
        steps: &[
            (Did::Write(Slot::Tmp), (Some(MEMBER_FILE), &[Row::First])),
            (
                Did::Rename(Slot::Tmp, Slot::Intent(MEMBER)),
                (None, &[Row::First, Row::Member]),
            ),
        ],
    },
    Case {
        before: &[Row::Member, Row::First],
        call: Call::Put(Row::Less),
        steps: &[
            (
                Did::Write(Slot::Tmp),
                (Some(LESS_FILE), &[Row::First, Row::Member]),
            ),
            (
                Did::Rename(Slot::Tmp, Slot::Intent(FIRST)),
                (None, &[Row::Less, Row::Member]),
            ),
        ],
    },
    Case {
        before: &[Row::Member, Row::First],
        call: Call::Remove(FIRST),
        steps: &[(Did::Remove(Slot::Intent(FIRST)), (None, &[Row::Member]))],
    },
    Case {
        before: &[Row::First],
        call: Call::Remove(SERIAL),
        steps: &[(Did::Remove(Slot::Intent(SERIAL)), (None, &[Row::First]))],
    },
    Case {
        before: &[Row::Member, Row::First],
        call: Call::List,
        steps: &[
            (Did::Names, (None, &[Row::First, Row::Member])),
            (
                Did::Read(Slot::Intent(FIRST)),
                (None, &[Row::First, Row::Member]),
            ),
            (
                Did::Read(Slot::Intent(MEMBER)),
                (None, &[Row::First, Row::Member]),
            ),
        ],
    },
];

fn record(alloc: Global, row: Row) -> Result<Intent, AllocError>
    ensures { IfOk result IsInForm }
{
    let mut nodes = NodeList::new(alloc);
    match row {
        Row::First => {
            nodes.extend(&[1, 2])?;
            Ok(Intent {
                root: FIRST,
                top: FIRST,
                nodes,
            })
        }
        Row::Less => {
            nodes.extend(&[2])?;
            Ok(Intent {
                root: FIRST,
                top: FIRST,
                nodes,
            })
        }
        Row::Member => {
            nodes.extend(&[1, 3, 16])?;
            Ok(Intent {
                root: SERIAL,
                top: MEMBER,
                nodes,
            })
        }
    }
}

fn row_of(found: &Intent) -> Option<Row> {
    match (
        found.root == FIRST,
        found.top == FIRST,
        found.nodes.as_slice(),
    ) {
        (true, true, [1, 2]) => Some(Row::First),
        (true, true, [2]) => Some(Row::Less),
        (false, false, [1, 3, 16]) => Some(Row::Member),
        _ => None,
    }
}

fn put_row(alloc: Global, disk: &mut Recorder, row: Row) -> Result<(), DiskFault>
    ensures form { AreInForm (⟦<Recorder as Disk>⟧.file disk.old) → AreInForm (⟦<Recorder as Disk>⟧.file disk.new) }
    ensures arms { ⟦<Recorder as Disk>⟧.arms disk.new ≡ ⟦<Recorder as Disk>⟧.arms disk.old }
{
    let record = record(alloc, row)?;
    put(alloc, disk, &record)
}

// A disk on which these records were put, in this order.
fn start(alloc: Global, rows: &[Row]) -> Result<Recorder, DiskFault>
    ensures form { IfOk result (λ disk. AreInForm (⟦<Recorder as Disk>⟧.file disk)) }
    ensures arms { IfOk result (λ disk. ⟦<Recorder as Disk>⟧.arms disk ≡ 0) }
{
    let mut disk = Recorder {
        disk: MemDisk::new(alloc),
        calls: Vec::new(alloc),
    };
    for row in rows {
        put_row(alloc, &mut disk, *row)?;
    }
    disk.calls.clear();
    Ok(disk)
}

fn ask(alloc: Global, disk: &mut Recorder, call: Call) -> Result<(), DiskFault>
    requires { AreInForm (⟦<Recorder as Disk>⟧.file disk.old) }
    ensures { AreInForm (⟦<Recorder as Disk>⟧.file disk.new) }
{
    match call {
        Call::Put(row) => put_row(alloc, disk, row),
        Call::Remove(top) => remove(disk, top),
        Call::List => {
            let _ = list(alloc, disk)?;
            Ok(())
        }
    }
}

#[derive(Clone, Copy, Debug, PartialEq, Eq)]
enum Ending {
    Undone,
    Done,
    Torn,
}

fn outcome(alloc: Global, ending: Ending) -> Result<Outcome, AllocError> {
    let mut torn = Bytes::new(alloc);
    torn.extend(TORN)?;
    match ending {
        Ending::Undone => Ok(Outcome::Undone),
        Ending::Done => Ok(Outcome::Done),
        Ending::Torn => Ok(Outcome::Torn(torn)),
    }
}

// What a stopped call leaves: all as it was or, where it was done, as after it; a torn write leaves those bytes.
fn left_by(ending: Ending, did: Did, before: Left, after: Left) -> Left {
    match (ending, did) {
        (Ending::Done, _) => after,
        (Ending::Torn, Did::Write(_)) => (Some(TORN), before.1),
        _ => before,
    }
}

fn rows_of(alloc: Global, found: &Intents) -> Result<Vec<Option<Row>>, AllocError> {
    let mut rows = Vec::new(alloc);
    for record in found.as_slice() {
        rows.push(row_of(record))?;
    }
    Ok(rows)
}

// Whether the disk has this Tmp and lists these records.
fn has_left(alloc: Global, disk: &mut Recorder, left: Left) -> Result<bool, DiskFault>
    requires { AreInForm (⟦<Recorder as Disk>⟧.file disk.old) }
{
    let found = list(alloc, disk)?;
    let rows = rows_of(alloc, &found)?;
    if rows.len() != left.1.len() {
        return Ok(false);
    }
    for (row, want) in rows.iter().zip(left.1) {
        if *row != Some(*want) {
            return Ok(false);
        }
    }
    match (disk.read(alloc, Slot::Tmp)?, left.0) {
        (Some(bytes), Some(want)) => Ok(bytes.as_slice() == want),
        (None, None) => Ok(true),
        _ => Ok(false),
    }
}

// Whether the call ends as it should: stopped exactly where a stop is given.
fn ends(alloc: Global, disk: &mut Recorder, call: Call, stops: bool) -> Result<bool, DiskFault>
    requires { AreInForm (⟦<Recorder as Disk>⟧.file disk.old) }
    ensures { AreInForm (⟦<Recorder as Disk>⟧.file disk.new) }
{
    match ask(alloc, disk, call) {
        Ok(()) => Ok(!stops),
        Err(DiskFault::Stopped) => Ok(stops),
        Err(DiskFault::Memory) => Err(DiskFault::Memory),
    }
}

// Whether the call makes these calls of the disk and leaves this.
fn makes(
    alloc: Global,
    disk: &mut Recorder,
    call: Call,
    stops: bool,
    dids: &[Did],
    left: Left,
) -> Result<bool, DiskFault>
    requires { AreInForm (⟦<Recorder as Disk>⟧.file disk.old) }
{
    if !ends(alloc, disk, call, stops)? || disk.calls.as_slice() != dids {
        return Ok(false);
    }
    has_left(alloc, disk, left)
}

// Whether the call with no stop makes these calls of the disk and leaves this.
fn leaves(alloc: Global, case: &Case, dids: &[Did], left: Left) -> Result<bool, DiskFault> {
    let mut disk = start(alloc, case.before)?;
    makes(alloc, &mut disk, case.call, false, dids, left)
}

// And so with a stop at this call of the disk.
fn stopped_leaves(
    alloc: Global,
    case: &Case,
    at: (u32, Ending),
    dids: &[Did],
    left: Left,
) -> Result<bool, DiskFault> {
    let mut disk = start(alloc, case.before)?;
    let outcome = outcome(alloc, at.1)?;
    disk.disk.arm(at.0.max(1), outcome);
    makes(alloc, &mut disk, case.call, true, dids, left)
}

// Stops a call at each of its calls of the disk, in each way.
fn follow(alloc: Global, case: &Case, before: Left) -> Result<bool, DiskFault> {
    let mut dids = Vec::new(alloc);
    let mut at = 0u32;
    let mut before = before;
    for (did, after) in case.steps {
        dids.push(*did)?;
        at = at.saturating_add(1);
        for ending in [Ending::Undone, Ending::Done, Ending::Torn] {
            let left = left_by(ending, *did, before, *after);
            if !stopped_leaves(alloc, case, (at, ending), dids.as_slice(), left)? {
                return Ok(false);
            }
        }
        before = *after;
    }
    leaves(alloc, case, dids.as_slice(), before)
}

#[test]
fn stopped_at_each_call(rt: HostRuntime) -> Result<(), Fail> {
    for (place, case) in CASES.iter().enumerate() {
        let before: Left = match case.before {
            [Row::First] => (None, &[Row::First]),
            _ => (None, &[Row::First, Row::Member]),
        };
        assert!(rt; follow(rt.alloc(), case, before)?, "case {place}");
    }
    Ok(())
}
