// What the tests want of the segment store.
use crate::recorder::Did;
use crate::tables::{
    Asked, Call, Case, Content, DOUBT, FIRST, Files, Finding, HALF, HALF_ENTRIES, Last, NEW,
    NEW_ENTRY, NEW_OTHER, NINTH, OLD, OLD_ENTRY, OLD_OTHER, ONE, PREPARE_BOTH, Seen, THIRD, TORN,
    Tables, Told, WRITE_TMP,
};
use arj_disk::{Role, Slot};
use arj_store::Prep;

const SEGMENT_ONE: Slot = Slot::Segment(Role::Store, 1);

const SEGMENT_TWO: Slot = Slot::Segment(Role::Store, 2);

const PENDING: Slot = Slot::Pending(Role::Store, FIRST);

const ENTRIES: Slot = Slot::Segment(Role::Names, 1);

const PENDING_ENTRY: Slot = Slot::Pending(Role::Names, FIRST);

/// The segment store.
pub const SEGMENTS: Tables = Tables {
    puts: &[WRITE_TMP, Did::Rename(Slot::Tmp, SEGMENT_ONE)],
    calls: CALLS,
    cases: CASES,
    findings: FINDINGS,
};

// Calls with their answers, and the calls of the disk that they make.
const CALLS: &[Asked] = &[
    (
        Call::Prepare(FIRST, Some(1), None),
        Told::Prep(Prep::Prepared),
        &[
            Did::Read(SEGMENT_ONE),
            WRITE_TMP,
            Did::Rename(Slot::Tmp, PENDING),
        ],
    ),
    (Call::Read(1), Told::InDoubt(FIRST), &[]),
    (
        Call::Prepare(THIRD, Some(2), None),
        Told::Prep(Prep::InDoubt {
            uid: ONE,
            holder: FIRST,
        }),
        &[Did::Read(SEGMENT_ONE)],
    ),
    (
        Call::Prepare(FIRST, Some(1), None),
        Told::Prep(Prep::Prepared),
        &[],
    ),
    (
        Call::Commit(FIRST),
        Told::Ended(true),
        &[Did::Rename(PENDING, SEGMENT_TWO)],
    ),
    (
        Call::Read(1),
        Told::State(Seen {
            uid: ONE,
            version: 1,
            writer: FIRST,
            value: 1,
        }),
        &[Did::Read(SEGMENT_TWO)],
    ),
    (
        Call::Prepare(FIRST, Some(1), None),
        Told::Prep(Prep::Already {
            uid: ONE,
            act: FIRST,
        }),
        &[Did::Read(SEGMENT_TWO)],
    ),
    (
        Call::Prepare(THIRD, Some(2), None),
        Told::Prep(Prep::Old { uid: ONE, held: 1 }),
        &[Did::Read(SEGMENT_TWO)],
    ),
    (Call::Abort(NINTH), Told::Ended(false), &[]),
    // No segment has a state of it.
    (Call::Read(2), Told::Absent, &[]),
    // The first state decides, and the second isn't looked at.
    (
        Call::Prepare(THIRD, Some(2), Some(2)),
        Told::Prep(Prep::Old { uid: ONE, held: 1 }),
        &[Did::Read(SEGMENT_TWO)],
    ),
];

// Files of states by lines: the count; of each state its length, the object and its class, version and writer, the
// payload.
const OLD_BOTH: Content = b"ARJS\0\x02\
    \0\x37ARJ1\0\0\0\0\0\0\0\0\0\0\0\0\0\0\0\x01\x01\
    \0\0\0\0\0\0\0\0\0\0\0\0\0\0\0\0\0\0\0\0\0\0\0\0\
    \0\x08\0\0\0\0\0\0\0\0\
    \0\x37ARJ1\0\0\0\0\0\0\0\0\0\0\0\0\0\0\0\x02\x01\
    \0\0\0\0\0\0\0\0\0\0\0\0\0\0\0\0\0\0\0\0\0\0\0\0\
    \0\x08\0\0\0\0\0\0\0\0";

const NEW_BOTH: Content = b"ARJS\0\x02\
    \0\x38ARJ2\0\0\0\0\0\0\0\0\0\0\0\0\0\0\0\x01\x01\x01\
    \0\0\0\0\0\0\0\x01\0\0\0\x01\0\0\0\x01\0\0\0\0\0\0\0\x01\
    \0\x08\0\0\0\0\0\0\0\x05\
    \0\x38ARJ2\0\0\0\0\0\0\0\0\0\0\0\0\0\0\0\x02\x01\x01\
    \0\0\0\0\0\0\0\x01\0\0\0\x01\0\0\0\x01\0\0\0\0\0\0\0\x01\
    \0\x08\0\0\0\0\0\0\0\x06";

const NEW_ONE: Content = b"ARJS\0\x01\
    \0\x38ARJ2\0\0\0\0\0\0\0\0\0\0\0\0\0\0\0\x01\x01\x01\
    \0\0\0\0\0\0\0\x01\0\0\0\x01\0\0\0\x01\0\0\0\0\0\0\0\x01\
    \0\x08\0\0\0\0\0\0\0\x05";

const OLD_ENTRIES: Content = b"ARJS\0\x02\
    \0\x33ARJ1\0\0\0\0\0\0\0\x01\0\0\0\0\0\0\0\x01\0\
    \0\0\0\0\0\0\0\0\0\0\0\0\0\0\0\0\0\0\0\0\0\0\0\0\
    \0\x04\x01\x01\x01\x01\
    \0\x33ARJ1\0\0\0\0\0\0\0\x01\0\0\0\0\0\0\0\x02\0\
    \0\0\0\0\0\0\0\0\0\0\0\0\0\0\0\0\0\0\0\0\0\0\0\0\
    \0\x04\x01\x01\x01\x01";

const NEW_ENTRY_ONE: Content = b"ARJS\0\x01\
    \0\x34ARJ2\0\0\0\0\0\0\0\x01\0\0\0\0\0\0\0\x01\0\x01\
    \0\0\0\0\0\0\0\x01\0\0\0\x01\0\0\0\x01\0\0\0\0\0\0\0\x01\
    \0\x04\x01\x01\x01\x05";

const STARTED: Files = &[(SEGMENT_ONE, OLD_BOTH)];

const PREPARED: Files = &[(SEGMENT_ONE, OLD_BOTH), (PENDING, NEW_BOTH)];

const COMMITTED: Files = &[(SEGMENT_ONE, OLD_BOTH), (SEGMENT_TWO, NEW_BOTH)];

// An action has prepared the first object, and another was cut off in the write of its file.
const CUT: Files = &[(SEGMENT_ONE, OLD_BOTH), (PENDING, NEW_ONE)];

const CUT_ENTRIES: Files = &[(ENTRIES, OLD_ENTRIES), (PENDING_ENTRY, NEW_ENTRY_ONE)];

const CASES: &[Case] = &[
    Case {
        role: Role::Store,
        calls: &[],
        last: Last::Call(PREPARE_BOTH),
        before: (None, STARTED, OLD),
        steps: &[
            (Did::Read(SEGMENT_ONE), (None, STARTED, OLD)),
            (Did::Read(SEGMENT_ONE), (None, STARTED, OLD)),
            (WRITE_TMP, (Some(NEW_BOTH), STARTED, OLD)),
            (Did::Rename(Slot::Tmp, PENDING), (None, PREPARED, DOUBT)),
        ],
    },
    Case {
        role: Role::Store,
        calls: &[PREPARE_BOTH],
        last: Last::Call(Call::Commit(FIRST)),
        before: (None, PREPARED, DOUBT),
        steps: &[(Did::Rename(PENDING, SEGMENT_TWO), (None, COMMITTED, NEW))],
    },
    Case {
        role: Role::Store,
        calls: &[PREPARE_BOTH],
        last: Last::Call(Call::Abort(FIRST)),
        before: (None, PREPARED, DOUBT),
        steps: &[(Did::Remove(PENDING), (None, STARTED, OLD))],
    },
    Case {
        role: Role::Store,
        calls: &[Call::Prepare(FIRST, Some(5), None)],
        last: Last::Recovery {
            cut: Call::Prepare(THIRD, None, Some(7)),
            at: 2,
        },
        before: (Some(TORN), CUT, HALF),
        steps: &[
            (Did::Names, (Some(TORN), CUT, HALF)),
            (Did::Read(PENDING), (Some(TORN), CUT, HALF)),
            (Did::Read(SEGMENT_ONE), (Some(TORN), CUT, HALF)),
        ],
    },
    Case {
        role: Role::Names,
        calls: &[Call::Prepare(FIRST, Some(5), None)],
        last: Last::Recovery {
            cut: Call::Prepare(THIRD, None, Some(7)),
            at: 2,
        },
        before: (Some(TORN), CUT_ENTRIES, HALF_ENTRIES),
        steps: &[
            (Did::Names, (Some(TORN), CUT_ENTRIES, HALF_ENTRIES)),
            (
                Did::Read(PENDING_ENTRY),
                (Some(TORN), CUT_ENTRIES, HALF_ENTRIES),
            ),
            (Did::Read(ENTRIES), (Some(TORN), CUT_ENTRIES, HALF_ENTRIES)),
        ],
    },
];

const FINDINGS: &[Finding] = &[
    Finding {
        calls: &[Call::Prepare(FIRST, Some(5), None)],
        cut: Call::Prepare(THIRD, None, Some(7)),
        at: 2,
        committed: &[OLD_ENTRY, OLD_OTHER],
        prepared: &[(FIRST, NEW_ENTRY)],
        actions: &[FIRST],
    },
    // The later action has prepared first, and the rename that commits it isn't done.
    Finding {
        calls: &[
            Call::Prepare(THIRD, None, Some(7)),
            Call::Prepare(FIRST, Some(5), None),
        ],
        cut: Call::Commit(THIRD),
        at: 1,
        committed: &[OLD_ENTRY, OLD_OTHER],
        prepared: &[(FIRST, NEW_ENTRY), (THIRD, NEW_OTHER)],
        actions: &[FIRST, THIRD],
    },
];
