// Ends of actions, against a scene that writes down which calls it gets. Values are numbers.
ghost use Rattle.std.specs.Prelude.{◌≡◌, false, [], ◌∷◌, ◌++◌};
ghost use Rattle.arj_record.specs.Records.{IsArranged};

use arj_base::{LAST_VERSION, Mode, Uid, next_version, object_uid};
use arj_record::{AbstractRecord, Record, RecordList, Scene};
use std::alloc::{AllocError, Global};
use std::test::Fail;

/// One call of a scene.
#[derive(Clone, Copy, PartialEq, Eq)]
enum Got {
    Restore(Uid, u64),
    Pass(Uid),
    Release(Uid),
    Raise(Uid, Uid),
}

/// Writes its calls down, while there is memory for it, and counts the version of what is raised.
#[derive(Drop)]
struct Recorder {
    calls: Vec<Got>,
    lost: bool,
    version: u64,
}

impl Recorder {
    fn new(alloc: Global) -> Recorder {
        Recorder {
            calls: Vec::new(alloc),
            lost: false,
            version: LAST_VERSION - 1,
        }
    }

    fn note(&mut self, call: Got)
        ensures calls { self.new.lost ≡ false → self.new.calls.items ≡ self.old.calls.items ++ call ∷ [] }
        ensures version { self.new.version ≡ self.old.version }
    {
        let noted = self.calls.push(call).is_ok();
        self.lost = self.lost || !noted;
    }
}

impl Scene<u64> for Recorder {
    ghost use Rattle.std.specs.Prelude.{◌≡◌, false, [], ◌∷◌, ◌++◌};
    ghost use Rattle.arj_base.specs.State.{version_after};
    ghost use Rattle.arj_record.specs.Scene.{restore, pass, release, raise};
    ghost use Rattle.arj_base_tests.specs.declared.record.Got.TheVariants.{Restore, Pass, Release, Raise};

    ghost step = { λ old call new. (new.lost ≡ false → new.calls.items ≡ old.calls.items ++ (elim call [ restore x v ↦ Restore x v | pass a ↦ Pass a | release a ↦ Release a | raise x w ↦ Raise x w ]) ∷ []) × (new.version ≡ (elim call [ restore x v ↦ old.version | pass a ↦ old.version | release a ↦ old.version | raise x w ↦ version_after old.version ])) };

    fn restore(&mut self, object: Uid, before: u64) {
        self.note(Got::Restore(object, before));
    }

    fn pass(&mut self, action: Uid) {
        self.note(Got::Pass(action));
    }

    fn release(&mut self, action: Uid) {
        self.note(Got::Release(action));
    }

    fn raise(&mut self, object: Uid, writer: Uid) {
        self.note(Got::Raise(object, writer));
        self.version = next_version(self.version);
    }
}

fn action(num: u64) -> Uid {
    Uid {
        node: 1,
        inc: 1,
        num,
    }
}

// What an action did to an object: it read it, or wrote it first where it had a value.
#[derive(Clone, Copy)]
enum Did {
    Read(u16),
    Write(u16, u64),
}

// The list with the records of one thing that was done.
fn noted(mut list: RecordList<u64>, did: Did) -> Result<RecordList<u64>, AllocError> {
    if list.reserve(3).is_err() {
        list.abandon();
        return Err(AllocError);
    }
    match did {
        Did::Read(x) => list.add(Record::Lock {
            object: object_uid(x),
            mode: Mode::Read,
        }),
        Did::Write(x, before) => {
            let object = object_uid(x);
            list.add(Record::Persistence { object });
            list.add(Record::Lock {
                object,
                mode: Mode::Write,
            });
            list.add(Record::Recovery { object, before });
        }
    }
    Ok(list)
}

fn list_of(alloc: Global, dids: &[Did]) -> Result<RecordList<u64>, AllocError> {
    let mut list = RecordList::new(alloc);
    for did in dids {
        list = noted(list, *did)?;
    }
    Ok(list)
}

// The parent's list after a nested commit of the child's.
fn merged(
    child: RecordList<u64>,
    mut parent: RecordList<u64>,
) -> Result<RecordList<u64>, AllocError> {
    if parent.reserve(child.len()).is_err() {
        child.abandon();
        parent.abandon();
        return Err(AllocError);
    }
    child.merge_into(&mut parent);
    Ok(parent)
}

// A list into which two children were merged, which both wrote object 1. The second wrote what the first had read.
fn merged_twice(alloc: Global) -> Result<RecordList<u64>, AllocError> {
    let first = list_of(alloc, &[Did::Read(2), Did::Write(1, 7)])?;
    let parent = merged(first, RecordList::new(alloc))?;
    match list_of(alloc, &[Did::Write(2, 20), Did::Write(1, 8)]) {
        Ok(second) => merged(second, parent),
        Err(refused) => {
            parent.abandon();
            Err(refused)
        }
    }
}

// Whether the only lock on an object is a write lock.
fn is_write_locked(records: &[Record<u64>], x: u16) -> bool {
    records.iter().all(|record| match record {
        Record::Lock { object, mode } => *object != object_uid(x) || *mode == Mode::Write,
        _ => true,
    })
}

// Whether a list, in which each kind and object stands once, has a record of an object.
fn has_record(list: &RecordList<u64>, object: Uid) -> bool
    ensures { IsArranged list.now.records }
{
    let records = list.as_slice();
    records.iter().any(|record| match record {
        Record::Recovery { object: of, .. } => *of == object,
        Record::Lock { object: of, .. } => *of == object,
        Record::Persistence { object: of } => *of == object,
    })
}

// The calls that a scene gets where a list ends.
fn calls_of(alloc: Global, list: RecordList<u64>, commits: bool) -> Vec<Got> {
    let mut scene = Recorder::new(alloc);
    if commits {
        list.keep(action(1), &mut scene);
    } else {
        list.undo(action(1), &mut scene);
    }
    scene.calls
}

// Whether a merged list has its six records and this one lock, and none of an object that is forgotten, unless it is 0.
fn forgets(list: &mut RecordList<u64>, gone: u16) -> bool {
    if list.len() != 6 || !is_write_locked(list.as_slice(), 2) {
        return false;
    }
    list.forget(object_uid(gone));
    gone == 0 || !has_record(list, object_uid(gone))
}

// Whether the scene gets these calls where such a list ends.
fn ends_so(
    alloc: Global,
    mut list: RecordList<u64>,
    gone: u16,
    commits: bool,
    want: &[Got],
) -> bool {
    let forgot = forgets(&mut list, gone);
    let calls = calls_of(alloc, list, commits);
    forgot && calls.as_slice() == want
}

// The objects, and the action that ends.
const ONE: Uid = Uid {
    node: 0,
    inc: 0,
    num: 1,
};

const TWO: Uid = Uid {
    node: 0,
    inc: 0,
    num: 2,
};

const TOP: Uid = Uid {
    node: 1,
    inc: 1,
    num: 1,
};

// The object that is forgotten before the end, 0 for none; whether the end is a commit; and what the scene gets.
type Ending = (u16, bool, &'static [Got]);

const ENDS: &[Ending] = &[
    (
        0,
        false,
        &[
            Got::Restore(ONE, 7),
            Got::Restore(TWO, 20),
            Got::Release(TOP),
        ],
    ),
    (
        0,
        true,
        &[Got::Pass(TOP), Got::Raise(ONE, TOP), Got::Raise(TWO, TOP)],
    ),
    (1, false, &[Got::Restore(TWO, 20), Got::Release(TOP)]),
    (1, true, &[Got::Pass(TOP), Got::Raise(TWO, TOP)]),
];

fn ends_twice_merged(alloc: Global, end: &Ending) -> Result<bool, AllocError> {
    Ok(ends_so(alloc, merged_twice(alloc)?, end.0, end.1, end.2))
}

// Whether the scene gets nothing where an empty list ends.
fn ends_empty(alloc: Global, commits: bool) -> bool {
    calls_of(alloc, RecordList::new(alloc), commits).is_empty()
}

#[test]
fn two_merges_and_an_end(rt: HostRuntime) -> Result<(), Fail> {
    for end in ENDS {
        assert!(rt; ends_twice_merged(rt.alloc(), end)?);
    }
    assert!(rt; ends_empty(rt.alloc(), false));
    assert!(rt; ends_empty(rt.alloc(), true));
    Ok(())
}

// A record of the kind with this order, of object x.
fn record_of(order: u8, x: u16) -> Record<u64> {
    let object = object_uid(x);
    match order {
        1 => Record::Recovery { object, before: 5 },
        2 => Record::Lock {
            object,
            mode: Mode::Read,
        },
        _ => Record::Persistence { object },
    }
}

fn merges_with(alloc: Global, one: &Record<u64>, order: u8, x: u16) -> bool {
    let other = record_of(order, x);
    let merges = one.may_merge(&other);
    calls_of_one(alloc, other, 0);
    merges
}

// The calls that a scene gets where a record ends: at a nested abort, a top-level abort, a top-level commit.
fn calls_of_one<R: AbstractRecord<u64>>(alloc: Global, one: R, operation: u8) -> Vec<Got> {
    let mut scene = Recorder::new(alloc);
    match operation {
        0 => one.nested_abort(action(1), &mut scene),
        1 => one.top_abort(action(1), &mut scene),
        _ => one.top_commit(action(1), &mut scene),
    }
    scene.calls
}

// Whether the record of this order merges with those of its kind and object alone.
fn merges_with_its_kind(alloc: Global, one: &Record<u64>, order: u8) -> bool {
    for other in 1..4u8 {
        if merges_with(alloc, one, other, 1) != (other == order) {
            return false;
        }
        if merges_with(alloc, one, other, 2) {
            return false;
        }
    }
    true
}

// What a top-level commit stores, where the record has this order and may be nested.
fn stored(one: &Record<u64>, order: u8) -> Option<Option<Uid>> {
    if one.order() != order || !one.nested_prepare() {
        return None;
    }
    Some(one.top_prepare())
}

// Whether the scene gets these calls where the record of this order ends so.
fn ends_with(alloc: Global, order: u8, operation: u8, want: &[Got]) -> bool {
    calls_of_one(alloc, record_of(order, 1), operation).as_slice() == want
}

// The order; what a top-level commit stores; and what the scene gets at an abort and at a top-level commit.
type Alone = (u8, Option<Uid>, &'static [Got], &'static [Got]);

const RECORDS: &[Alone] = &[
    (1, None, &[Got::Restore(ONE, 5)], &[]),
    (2, None, &[Got::Release(TOP)], &[Got::Pass(TOP)]),
    (3, Some(ONE), &[], &[Got::Raise(ONE, TOP)]),
];

// Whether the record of this order stores that, and merges as it should.
fn is_alone(alloc: Global, order: u8, stores: Option<Uid>) -> bool {
    let one = record_of(order, 1);
    let right = stored(&one, order) == Some(stores) && merges_with_its_kind(alloc, &one, order);
    calls_of_one(alloc, one, 0);
    right
}

#[test]
fn each_record_by_itself(rt: HostRuntime) {
    for (order, stores, undone, kept) in RECORDS {
        assert!(rt; is_alone(rt.alloc(), *order, *stores));
        assert!(rt; ends_with(rt.alloc(), *order, 0, undone));
        assert!(rt; ends_with(rt.alloc(), *order, 1, undone));
        assert!(rt; ends_with(rt.alloc(), *order, 2, kept));
    }
}
