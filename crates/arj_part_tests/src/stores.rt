// Both object stores over disks that write down their calls and stop at one of them.
ghost use Rattle.std.specs.Prelude.{◌≡◌, ◌+◌, ◌<◌, ◌≤◌, None, Some, map, length, Contains, IfOk, OnOk};
ghost use Rattle.std.specs.List.{AllByRecursion};
ghost use Rattle.arj_base.specs.State.{state_bytes};
ghost use Rattle.arj_disk.specs.Says.{slot_role};
ghost use Rattle.arj_disk.specs.declared.slot.Slot.{Slot};
ghost use Rattle.arj_base.specs.declared.limits.TheConstants.{MOST_BYTES};
ghost use Rattle.arj_base.specs.declared.uid.Uid.{Uid};
ghost use Rattle.arj_part_tests.specs.Known.{KnowsOurs, ours, uid_for};
ghost use Rattle.arj_store.specs.Pair.{AreDistinct, uid_of};

use crate::recorder::{Did, Recorder};
use crate::segments::SEGMENTS;
use crate::tables::{
    Answers, Asked, Call, Case, Content, FIRST, Files, Finding, Last, Left, NOBODY, SHADOWS, Seen,
    TORN, Tables, Told,
};
use arj_base::{Bytes, Class, Format, ObjectState, States, Uid, entry_uid, object_uid};
use arj_disk::{Disk, DiskFault, MemDisk, Outcome, Role, Slot};
use arj_segment::SegmentStore;
use arj_store::{Found, ObjectStore, Read, ShadowStore, StoreFault, known_objects};
use std::alloc::{AllocError, Global};
use std::test::Fail;

fn uid(role: Role, x: u16) -> Uid
    ensures { result ≡ uid_for role x }
{
    match role {
        Role::Store => object_uid(x),
        Role::Names => entry_uid(x),
    }
}

fn class(role: Role) -> Class {
    match role {
        Role::Store => Class::Counter,
        Role::Names => Class::Entry,
    }
}

// The payload of a counter with this value, or of an entry with server 1 and this store.
fn payload(alloc: Global, role: Role, value: u8) -> Result<Bytes, AllocError>
    ensures { IfOk result (λ payload. length payload ≤ 8) }
{
    let mut payload = Bytes::new(alloc);
    let head = match role {
        Role::Store => [0, 0, 0, 0, 0, 0, 0].as_slice(),
        Role::Names => [1, 1, 1].as_slice(),
    };
    payload.extend(head)?;
    payload.push(value)?;
    Ok(payload)
}

// The first states are packed in format one, and what is written is packed in format two.
fn format_of(version: u64) -> Format {
    match version {
        0 => Format::One,
        _ => Format::Two,
    }
}

#[tactic(auto, using(arj_store::proofs::Sizes::state_within))]
fn state(
    alloc: Global,
    role: Role,
    x: u16,
    version: u64,
    writer: Uid,
    value: u8,
) -> Result<ObjectState, AllocError>
    ensures uid { IfOk result (λ s. s.uid ≡ uid_for role x) }
    ensures size { IfOk result (λ s. length (state_bytes s) ≤ MOST_BYTES) }
{
    Ok(ObjectState {
        uid: uid(role, x),
        class: class(role),
        version,
        writer,
        payload: payload(alloc, role, value)?,
        format: format_of(version),
    })
}

// States of objects 1 and 2 with these values, where they are given.
fn states(
    alloc: Global,
    role: Role,
    version: u64,
    writer: Uid,
    values: [Option<u8>; 2],
) -> Result<States, AllocError>
    ensures distinct { IfOk result (AreDistinct role) }
    ensures ours { IfOk result (λ states. (u : Uid) → Contains (map uid_of states) u → Contains (ours role) u) }
    ensures count { IfOk result (λ states. length states ≤ 2) }
    ensures sizes { IfOk result (AllByRecursion (λ s. length (state_bytes s) ≤ MOST_BYTES)) }
{
    let mut states = States::new(alloc);
    match values {
        [None, None] => Ok(states),
        [Some(one), None] => {
            states.push(state(alloc, role, 1, version, writer, one)?)?;
            Ok(states)
        }
        [None, Some(two)] => {
            states.push(state(alloc, role, 2, version, writer, two)?)?;
            Ok(states)
        }
        [Some(one), Some(two)] => {
            states.push(state(alloc, role, 1, version, writer, one)?)?;
            states.push(state(alloc, role, 2, version, writer, two)?)?;
            Ok(states)
        }
    }
}

fn seen_of(state: &ObjectState) -> Seen {
    let value = match state.payload.as_slice() {
        [.., last] => *last,
        [] => 0,
    };
    Seen {
        uid: state.uid,
        version: state.version,
        writer: state.writer,
        value,
    }
}

fn told_of(read: Read) -> Told {
    match read {
        Read::State(state) => Told::State(seen_of(&state)),
        Read::Absent => Told::Absent,
        Read::InDoubt { holder } => Told::InDoubt(holder),
    }
}

// Forgets the calls so far, and arms the disk, if there is a stop.
fn begin(disk: &mut Recorder, stop: Option<(u32, Outcome)>)
    requires { ⟦<Recorder as Disk>⟧.arms disk.old < 9 }
    ensures files { ⟦<Recorder as Disk>⟧.file disk.new ≡ ⟦<Recorder as Disk>⟧.file disk.old }
    ensures arms { ⟦<Recorder as Disk>⟧.arms disk.new ≤ ⟦<Recorder as Disk>⟧.arms disk.old + 1 }
    ensures none { stop ≡ None → ⟦<Recorder as Disk>⟧.arms disk.new ≡ ⟦<Recorder as Disk>⟧.arms disk.old }
{
    disk.calls.clear();
    if let Some((calls, outcome)) = stop {
        disk.disk.arm(calls.max(1), outcome);
    }
}

fn read<S: ObjectStore>(
    alloc: Global,
    disk: &mut Recorder,
    store: &S,
    uid: Uid,
) -> Result<Told, StoreFault>
    requires keeps { S.keeps store.now (⟦<Recorder as Disk>⟧.file disk.old) }
    requires formed { S.formed (⟦<Recorder as Disk>⟧.file disk.old) (S.own_role store.now) }
    ensures files { ⟦<Recorder as Disk>⟧.file disk.new ≡ ⟦<Recorder as Disk>⟧.file disk.old }
    ensures arms { ⟦<Recorder as Disk>⟧.arms disk.new ≡ ⟦<Recorder as Disk>⟧.arms disk.old }
{
    Ok(told_of(store.read_committed(alloc, disk, uid)?))
}

// One call over a disk that stops so.
fn ask<S: ObjectStore>(
    alloc: Global,
    disk: &mut Recorder,
    store: &mut S,
    role: Role,
    call: Call,
    stop: Option<(u32, Outcome)>,
) -> Result<Told, StoreFault>
    requires role { S.own_role store.old ≡ role }
    requires keeps { S.keeps store.old (⟦<Recorder as Disk>⟧.file disk.old) }
    requires formed { S.formed (⟦<Recorder as Disk>⟧.file disk.old) role }
    requires known { KnowsOurs role (S.pair (⟦<Recorder as Disk>⟧.file disk.old) role) }
    requires arms { ⟦<Recorder as Disk>⟧.arms disk.old < 9 }
    ensures role { S.own_role store.new ≡ role }
    ensures keeps { OnOk result (S.keeps store.new (⟦<Recorder as Disk>⟧.file disk.new)) }
    ensures formed { S.formed (⟦<Recorder as Disk>⟧.file disk.new) role }
    ensures known { KnowsOurs role (S.pair (⟦<Recorder as Disk>⟧.file disk.new) role) }
    ensures arms { ⟦<Recorder as Disk>⟧.arms disk.new ≤ ⟦<Recorder as Disk>⟧.arms disk.old + 1 }
    ensures none { stop ≡ None → ⟦<Recorder as Disk>⟧.arms disk.new ≡ ⟦<Recorder as Disk>⟧.arms disk.old }
{
    known_objects();
    match call {
        Call::Read(x) => {
            begin(disk, stop);
            read(alloc, disk, store, uid(role, x))
        }
        Call::Prepare(act, one, two) => {
            let states = states(alloc, role, 1, act, [one, two])?;
            begin(disk, stop);
            Ok(Told::Prep(store.prepare(disk, act, &states)?))
        }
        Call::Commit(act) => {
            begin(disk, stop);
            Ok(Told::Ended(store.commit(disk, act)?))
        }
        Call::Abort(act) => {
            begin(disk, stop);
            Ok(Told::Ended(store.abort(disk, act)?))
        }
    }
}

fn other(role: Role) -> Role
    ensures { result ≡ role → ⊥ }
{
    match role {
        Role::Store => Role::Names,
        Role::Names => Role::Store,
    }
}

// Files of the other role and of none. No call of the role's store touches them, whatever they have.
fn others(role: Role) -> [(Slot, Content); 6]
    ensures { AllByRecursion (λ p. slot_role p.0 ≡ Some role → ⊥) result }
{
    let of = other(role);
    [
        (Slot::Incarnation, b"first".as_slice()),
        (Slot::Committed(uid(of, 1)), b"second".as_slice()),
        (Slot::Shadow(uid(of, 1)), b"third".as_slice()),
        (Slot::Prepared(of, FIRST), b"fourth".as_slice()),
        (Slot::Pending(of, FIRST), b"fifth".as_slice()),
        (Slot::Segment(of, 1), b"sixth".as_slice()),
    ]
}

fn beside(disk: &mut Recorder, role: Role) -> Result<(), DiskFault>
    ensures role { OnOk result ((q : Slot) → slot_role q ≡ Some role → ⟦<Recorder as Disk>⟧.file disk.new q ≡ ⟦<Recorder as Disk>⟧.file disk.old q) }
    ensures arms { ⟦<Recorder as Disk>⟧.arms disk.new ≡ ⟦<Recorder as Disk>⟧.arms disk.old }
{
    for (slot, bytes) in others(role) {
        disk.write(slot, bytes)?;
    }
    disk.calls.clear();
    Ok(())
}

// A disk with files of the other role, and on it a store with objects 1 and 2 as far as there are values.
fn start<S: ObjectStore + Drop>(
    alloc: Global,
    role: Role,
    values: [Option<u8>; 2],
) -> Result<(Recorder, S), StoreFault>
    ensures role { IfOk result (λ made. S.own_role made.1 ≡ role) }
    ensures keeps { IfOk result (λ made. S.keeps made.1 (⟦<Recorder as Disk>⟧.file made.0)) }
    ensures formed { IfOk result (λ made. S.formed (⟦<Recorder as Disk>⟧.file made.0) role) }
    ensures known { IfOk result (λ made. KnowsOurs role (S.pair (⟦<Recorder as Disk>⟧.file made.0) role)) }
    ensures arms { IfOk result (λ made. ⟦<Recorder as Disk>⟧.arms made.0 ≡ 0) }
{
    let mut disk = Recorder {
        disk: MemDisk::new(alloc),
        calls: Vec::new(alloc),
    };
    beside(&mut disk, role)?;
    let states = states(alloc, role, 0, NOBODY, values)?;
    let store = S::format(alloc, &mut disk, role, &states)?;
    Ok((disk, store))
}

// The store, or the one that the disk has.
fn again<S: ObjectStore + Drop>(
    alloc: Global,
    disk: &mut Recorder,
    store: S,
    role: Role,
    recovers: bool,
) -> Result<S, StoreFault>
    requires role { S.own_role store ≡ role }
    requires keeps { S.keeps store (⟦<Recorder as Disk>⟧.file disk.old) }
    requires formed { S.formed (⟦<Recorder as Disk>⟧.file disk.old) role }
    requires known { KnowsOurs role (S.pair (⟦<Recorder as Disk>⟧.file disk.old) role) }
    ensures role { IfOk result (λ store. S.own_role store ≡ role) }
    ensures keeps { IfOk result (λ store. S.keeps store (⟦<Recorder as Disk>⟧.file disk.new)) }
    ensures formed { S.formed (⟦<Recorder as Disk>⟧.file disk.new) role }
    ensures known { KnowsOurs role (S.pair (⟦<Recorder as Disk>⟧.file disk.new) role) }
    ensures arms { ⟦<Recorder as Disk>⟧.arms disk.new ≡ ⟦<Recorder as Disk>⟧.arms disk.old }
{
    known_objects();
    if recovers {
        return S::recover(alloc, disk, role);
    }
    Ok(store)
}

// Whether a disk got these calls.
fn did(disk: &Recorder, calls: &[Did]) -> bool {
    disk.calls.as_slice() == calls
}

// Whether a format of objects 1 and 2 asks this of the disk.
fn formats_so<S: ObjectStore + Drop>(alloc: Global, puts: &[Did]) -> Result<bool, StoreFault> {
    let (disk, _store): (Recorder, S) = start(alloc, Role::Store, [Some(0), Some(0)])?;
    Ok(did(&disk, puts))
}

// Whether the store answers the calls so, with these calls of the disk. It is recovered behind each, or not.
fn answers_so<S: ObjectStore + Drop>(
    alloc: Global,
    wanted: &[Asked],
    recovers: bool,
) -> Result<bool, StoreFault> {
    let (mut disk, mut store): (Recorder, S) = start(alloc, Role::Store, [Some(0), None])?;
    for (call, want, calls) in wanted {
        let answer = ask(alloc, &mut disk, &mut store, Role::Store, *call, None)?;
        if answer != *want || !did(&disk, calls) {
            return Ok(false);
        }
        store = again(alloc, &mut disk, store, Role::Store, recovers)?;
    }
    Ok(true)
}

// So a store formats and answers.
fn calls_in_a_row_of<S: ObjectStore + Drop>(
    alloc: Global,
    tables: &Tables,
) -> Result<bool, StoreFault> {
    Ok(
        formats_so::<S>(alloc, tables.puts)?
            && answers_so::<S>(alloc, tables.calls, false)?
            && answers_so::<S>(alloc, tables.calls, true)?,
    )
}

#[test]
fn calls_in_a_row(rt: HostRuntime) -> Result<(), Fail> {
    assert!(rt; calls_in_a_row_of::<ShadowStore>(rt.alloc(), &SHADOWS)?);
    assert!(rt; calls_in_a_row_of::<SegmentStore>(rt.alloc(), &SEGMENTS)?);
    Ok(())
}

#[derive(Clone, Copy, Debug, PartialEq, Eq)]
enum Ending {
    Undone,
    Done,
    Torn,
}

fn outcome(alloc: Global, ending: Ending) -> Result<Outcome, AllocError> {
    let mut torn = Bytes::new(alloc);
    torn.extend(TORN)?;
    match ending {
        Ending::Undone => Ok(Outcome::Undone),
        Ending::Done => Ok(Outcome::Done),
        Ending::Torn => Ok(Outcome::Torn(torn)),
    }
}

// What a stopped call leaves: all as it was or, where it was done, as after it; a torn write leaves those bytes.
fn left_by(ending: Ending, did: Did, before: Left, after: Left) -> Left {
    match (ending, did) {
        (Ending::Done, _) => after,
        (Ending::Torn, Did::Write(_)) => (Some(TORN), before.1, before.2),
        _ => before,
    }
}

fn has(alloc: Global, disk: &mut MemDisk, slot: Slot, want: &[u8]) -> Result<bool, DiskFault>
    ensures files { ⟦<MemDisk as Disk>⟧.file disk.new ≡ ⟦<MemDisk as Disk>⟧.file disk.old }
    ensures arms { ⟦<MemDisk as Disk>⟧.arms disk.new ≡ ⟦<MemDisk as Disk>⟧.arms disk.old }
{
    match disk.read(alloc, slot)? {
        Some(bytes) => Ok(bytes.as_slice() == want),
        None => Ok(false),
    }
}

fn has_each(alloc: Global, disk: &mut MemDisk, files: &[(Slot, Content)]) -> Result<bool, DiskFault>
    ensures files { ⟦<MemDisk as Disk>⟧.file disk.new ≡ ⟦<MemDisk as Disk>⟧.file disk.old }
    ensures arms { ⟦<MemDisk as Disk>⟧.arms disk.new ≡ ⟦<MemDisk as Disk>⟧.arms disk.old }
{
    for (slot, bytes) in files {
        if !has(alloc, disk, *slot, bytes)? {
            return Ok(false);
        }
    }
    Ok(true)
}

fn has_count(alloc: Global, disk: &mut MemDisk, count: usize) -> Result<bool, DiskFault>
    ensures files { ⟦<MemDisk as Disk>⟧.file disk.new ≡ ⟦<MemDisk as Disk>⟧.file disk.old }
    ensures arms { ⟦<MemDisk as Disk>⟧.arms disk.new ≡ ⟦<MemDisk as Disk>⟧.arms disk.old }
{
    Ok(disk.names(alloc)?.as_slice().len() == count)
}

// Whether the disk has this Tmp, these files of the role, and those of the other as they were.
fn has_left(
    alloc: Global,
    disk: &mut MemDisk,
    role: Role,
    tmp: Option<Content>,
    files: Files,
) -> Result<bool, DiskFault>
    ensures files { ⟦<MemDisk as Disk>⟧.file disk.new ≡ ⟦<MemDisk as Disk>⟧.file disk.old }
    ensures arms { ⟦<MemDisk as Disk>⟧.arms disk.new ≡ ⟦<MemDisk as Disk>⟧.arms disk.old }
{
    let others = others(role);
    let count = files
        .len()
        .saturating_add(others.len())
        .saturating_add(usize::from(tmp.is_some()));
    if !has_count(alloc, disk, count)? {
        return Ok(false);
    }
    if !has_each(alloc, disk, others.as_slice())? {
        return Ok(false);
    }
    if !has_each(alloc, disk, files)? {
        return Ok(false);
    }
    match tmp {
        Some(bytes) => has(alloc, disk, Slot::Tmp, bytes),
        None => Ok(true),
    }
}

// A store with objects 1 and 2, or with their entries, after these calls.
fn reach<S: ObjectStore + Drop>(
    alloc: Global,
    role: Role,
    calls: &[Call],
) -> Result<(Recorder, S), StoreFault>
    ensures role { IfOk result (λ made. S.own_role made.1 ≡ role) }
    ensures keeps { IfOk result (λ made. S.keeps made.1 (⟦<Recorder as Disk>⟧.file made.0)) }
    ensures formed { IfOk result (λ made. S.formed (⟦<Recorder as Disk>⟧.file made.0) role) }
    ensures known { IfOk result (λ made. KnowsOurs role (S.pair (⟦<Recorder as Disk>⟧.file made.0) role)) }
    ensures arms { IfOk result (λ made. ⟦<Recorder as Disk>⟧.arms made.0 ≡ 0) }
{
    let value = match role {
        Role::Store => 0,
        Role::Names => 1,
    };
    let (mut disk, mut store): (Recorder, S) = start(alloc, role, [Some(value), Some(value)])?;
    for call in calls {
        ask(alloc, &mut disk, &mut store, role, *call, None)?;
    }
    Ok((disk, store))
}

// The last call, over a disk that stops so.
fn finish<S: ObjectStore + Drop>(
    alloc: Global,
    disk: &mut Recorder,
    store: &mut S,
    case: &Case,
    stop: Option<(u32, Outcome)>,
) -> Result<(), StoreFault>
    requires role { S.own_role store.old ≡ case.now.role }
    requires keeps { S.keeps store.old (⟦<Recorder as Disk>⟧.file disk.old) }
    requires formed { S.formed (⟦<Recorder as Disk>⟧.file disk.old) case.now.role }
    requires known { KnowsOurs case.now.role (S.pair (⟦<Recorder as Disk>⟧.file disk.old) case.now.role) }
    requires arms { ⟦<Recorder as Disk>⟧.arms disk.old ≡ 0 }
    ensures formed { S.formed (⟦<Recorder as Disk>⟧.file disk.new) case.now.role }
    ensures known { KnowsOurs case.now.role (S.pair (⟦<Recorder as Disk>⟧.file disk.new) case.now.role) }
    ensures arms { ⟦<Recorder as Disk>⟧.arms disk.new ≤ 2 }
{
    known_objects();
    match case.last {
        Last::Call(call) => {
            ask(alloc, disk, store, case.role, call, stop)?;
            Ok(())
        }
        Last::Recovery { cut, at } => {
            let torn = outcome(alloc, Ending::Torn)?;
            let _ = ask(alloc, disk, store, case.role, cut, Some((at, torn)));
            begin(disk, stop);
            let _store = S::recover(alloc, disk, case.role)?;
            Ok(())
        }
    }
}

// What a recovered store answers to reads of 1 and of 2.
fn answers<S: ObjectStore + Drop>(
    alloc: Global,
    disk: &mut Recorder,
    role: Role,
) -> Result<Answers, StoreFault>
    requires formed { S.formed (⟦<Recorder as Disk>⟧.file disk.old) role }
    requires known { KnowsOurs role (S.pair (⟦<Recorder as Disk>⟧.file disk.old) role) }
    requires arms { ⟦<Recorder as Disk>⟧.arms disk.old < 9 }
{
    known_objects();
    let mut store = S::recover(alloc, disk, role)?;
    let one = ask(alloc, disk, &mut store, role, Call::Read(1), None)?;
    let two = ask(alloc, disk, &mut store, role, Call::Read(2), None)?;
    Ok((one, two))
}

// Whether the last call ends as it should, over a disk that stops so: stopped exactly where a stop is given.
fn finishes<S: ObjectStore + Drop>(
    alloc: Global,
    disk: &mut Recorder,
    store: &mut S,
    case: &Case,
    stop: Option<(u32, Outcome)>,
) -> Result<bool, StoreFault>
    requires role { S.own_role store.old ≡ case.now.role }
    requires keeps { S.keeps store.old (⟦<Recorder as Disk>⟧.file disk.old) }
    requires formed { S.formed (⟦<Recorder as Disk>⟧.file disk.old) case.now.role }
    requires known { KnowsOurs case.now.role (S.pair (⟦<Recorder as Disk>⟧.file disk.old) case.now.role) }
    requires arms { ⟦<Recorder as Disk>⟧.arms disk.old ≡ 0 }
    ensures formed { S.formed (⟦<Recorder as Disk>⟧.file disk.new) case.now.role }
    ensures known { KnowsOurs case.now.role (S.pair (⟦<Recorder as Disk>⟧.file disk.new) case.now.role) }
    ensures arms { ⟦<Recorder as Disk>⟧.arms disk.new ≤ 2 }
{
    let stops = stop.is_some();
    match finish(alloc, disk, store, case, stop) {
        Ok(()) => Ok(!stops),
        Err(StoreFault::Stopped) => Ok(stops),
        Err(StoreFault::Memory) => Err(StoreFault::Memory),
    }
}

// Whether the disk has these files, and a recovered store answers so.
fn has_all<S: ObjectStore + Drop>(
    alloc: Global,
    disk: &mut Recorder,
    role: Role,
    left: Left,
) -> Result<bool, StoreFault>
    requires formed { S.formed (⟦<Recorder as Disk>⟧.file disk.old) role }
    requires known { KnowsOurs role (S.pair (⟦<Recorder as Disk>⟧.file disk.old) role) }
    requires arms { ⟦<Recorder as Disk>⟧.arms disk.old < 9 }
{
    let (tmp, files, told) = left;
    if !has_left(alloc, &mut disk.disk, role, tmp, files)? {
        return Ok(false);
    }
    Ok(answers::<S>(alloc, disk, role)? == told)
}

// Whether the last call with this stop, or with none, makes these calls of the disk and leaves this.
fn leaves<S: ObjectStore + Drop>(
    alloc: Global,
    case: &Case,
    stop: Option<(u32, Outcome)>,
    dids: &[Did],
    left: Left,
) -> Result<bool, StoreFault> {
    let (mut disk, mut store): (Recorder, S) = reach(alloc, case.role, case.calls)?;
    if !finishes(alloc, &mut disk, &mut store, case, stop)? || !did(&disk, dids) {
        return Ok(false);
    }
    has_all::<S>(alloc, &mut disk, case.role, left)
}

// And so with a stop at this call of the disk.
fn stopped_leaves<S: ObjectStore + Drop>(
    alloc: Global,
    case: &Case,
    at: (u32, Ending),
    dids: &[Did],
    left: Left,
) -> Result<bool, StoreFault> {
    let outcome = outcome(alloc, at.1)?;
    leaves::<S>(alloc, case, Some((at.0, outcome)), dids, left)
}

// Stops a call at each of its calls of the disk, in each way.
fn follow<S: ObjectStore + Drop>(alloc: Global, case: &Case) -> Result<bool, StoreFault> {
    let mut dids = Vec::new(alloc);
    let mut at = 0u32;
    let mut before = case.before;
    for (did, after) in case.steps {
        dids.push(*did)?;
        at = at.saturating_add(1);
        for ending in [Ending::Undone, Ending::Done, Ending::Torn] {
            let left = left_by(ending, *did, before, *after);
            if !stopped_leaves::<S>(alloc, case, (at, ending), dids.as_slice(), left)? {
                return Ok(false);
            }
        }
        before = *after;
    }
    leaves::<S>(alloc, case, None, dids.as_slice(), before)
}

#[test]
fn stopped_at_each_call(rt: HostRuntime) -> Result<(), Fail> {
    for (place, case) in SHADOWS.cases.iter().enumerate() {
        assert!(rt; follow::<ShadowStore>(rt.alloc(), case)?, "case {place}");
    }
    for (place, case) in SEGMENTS.cases.iter().enumerate() {
        assert!(rt; follow::<SegmentStore>(rt.alloc(), case)?, "case {place}");
    }
    Ok(())
}

fn recover_after<S: ObjectStore + Drop>(alloc: Global, finding: &Finding) -> Result<S, StoreFault> {
    let role = Role::Names;
    let (mut disk, mut store): (Recorder, S) = reach(alloc, role, finding.calls)?;
    let stop = Some((finding.at, outcome(alloc, Ending::Torn)?));
    let _ = ask(alloc, &mut disk, &mut store, role, finding.cut, stop);
    S::recover(alloc, &mut disk, role)
}

fn committed_in(alloc: Global, found: &Found) -> Result<Vec<Seen>, AllocError> {
    let mut committed = Vec::new(alloc);
    for state in found.committed.as_slice() {
        committed.push(seen_of(state))?;
    }
    Ok(committed)
}

fn prepared_in(alloc: Global, found: &Found) -> Result<Vec<(Uid, Seen)>, AllocError> {
    let mut prepared = Vec::new(alloc);
    for (act, states) in found.prepared.as_slice() {
        for state in states.as_slice() {
            prepared.push((*act, seen_of(state)))?;
        }
    }
    Ok(prepared)
}

// Whether the store that is recovered finds these states, and lists these actions.
fn has_found<S: ObjectStore + Drop>(alloc: Global, finding: &Finding) -> Result<bool, StoreFault> {
    let store: S = recover_after(alloc, finding)?;
    if committed_in(alloc, store.found())?.as_slice() != finding.committed {
        return Ok(false);
    }
    if prepared_in(alloc, store.found())?.as_slice() != finding.prepared {
        return Ok(false);
    }
    Ok(store.actions(alloc)?.as_slice() == finding.actions)
}

#[test]
fn a_naming_store_is_found(rt: HostRuntime) -> Result<(), Fail> {
    for (place, finding) in SHADOWS.findings.iter().enumerate() {
        assert!(rt;
            has_found::<ShadowStore>(rt.alloc(), finding)?,
            "finding {place}"
        );
    }
    for (place, finding) in SEGMENTS.findings.iter().enumerate() {
        assert!(rt;
            has_found::<SegmentStore>(rt.alloc(), finding)?,
            "finding {place}"
        );
    }
    Ok(())
}
