// What the tests want, in tables: calls of a store with their answers, the calls of the disk that they make, and the
// files that each of these leaves.
use crate::recorder::Did;
use arj_base::Uid;
use arj_disk::{Role, Slot};
use arj_store::Prep;

// The bytes of a file.
pub type Content = &'static [u8];

// Objects 1 and 2, their entries, and actions 1.1.N.
pub const ONE: Uid = Uid {
    node: 0,
    inc: 0,
    num: 1,
};

pub const TWO: Uid = Uid {
    node: 0,
    inc: 0,
    num: 2,
};

pub const ENTRY_ONE: Uid = Uid {
    node: 0,
    inc: 1,
    num: 1,
};

pub const ENTRY_TWO: Uid = Uid {
    node: 0,
    inc: 1,
    num: 2,
};

pub const NOBODY: Uid = Uid {
    node: 0,
    inc: 0,
    num: 0,
};

pub const FIRST: Uid = Uid {
    node: 1,
    inc: 1,
    num: 1,
};

pub const THIRD: Uid = Uid {
    node: 1,
    inc: 1,
    num: 3,
};

pub const NINTH: Uid = Uid {
    node: 1,
    inc: 1,
    num: 9,
};

// A state as the tables have it: the value is the last byte of its payload.
#[derive(Clone, Copy, Debug, PartialEq, Eq)]
pub struct Seen {
    pub uid: Uid,
    pub version: u64,
    pub writer: Uid,
    pub value: u8,
}

// A call of a store, on an object by its number or on an action. The new states have version 1 and these values.
#[derive(Clone, Copy)]
pub enum Call {
    Read(u16),
    Prepare(Uid, Option<u8>, Option<u8>),
    Commit(Uid),
    Abort(Uid),
}

#[derive(Clone, Copy, Debug, PartialEq, Eq)]
pub enum Told {
    State(Seen),
    Absent,
    InDoubt(Uid),
    Prep(Prep),
    Ended(bool),
}

pub const COMMITTED_ONE: Slot = Slot::Committed(ONE);

pub const COMMITTED_TWO: Slot = Slot::Committed(TWO);

pub const SHADOW_ONE: Slot = Slot::Shadow(ONE);

pub const SHADOW_TWO: Slot = Slot::Shadow(TWO);

pub const PREPARED_FIRST: Slot = Slot::Prepared(Role::Store, FIRST);

pub const WRITE_TMP: Did = Did::Write(Slot::Tmp);

// A call with its answer, and the calls of the disk that it makes.
pub type Asked = (Call, Told, &'static [Did]);

// What one kind of store does: the calls of the disk at a format of objects 1 and 2; calls in a row; calls that are
// stopped at each call of the disk; and recoveries.
#[derive(Clone, Copy)]
pub struct Tables {
    pub puts: &'static [Did],
    pub calls: &'static [Asked],
    pub cases: &'static [Case],
    pub findings: &'static [Finding],
}

// The shadow store.
pub const SHADOWS: Tables = Tables {
    puts: &[
        WRITE_TMP,
        Did::Rename(Slot::Tmp, COMMITTED_ONE),
        WRITE_TMP,
        Did::Rename(Slot::Tmp, COMMITTED_TWO),
    ],
    calls: CALLS,
    cases: CASES,
    findings: FINDINGS,
};

const CALLS: &[Asked] = &[
    (
        Call::Prepare(FIRST, Some(1), None),
        Told::Prep(Prep::Prepared),
        &[
            Did::Read(COMMITTED_ONE),
            WRITE_TMP,
            Did::Rename(Slot::Tmp, SHADOW_ONE),
            WRITE_TMP,
            Did::Rename(Slot::Tmp, PREPARED_FIRST),
        ],
    ),
    (Call::Read(1), Told::InDoubt(FIRST), &[]),
    (
        Call::Prepare(THIRD, Some(2), None),
        Told::Prep(Prep::InDoubt {
            uid: ONE,
            holder: FIRST,
        }),
        &[Did::Read(COMMITTED_ONE)],
    ),
    (
        Call::Prepare(FIRST, Some(1), None),
        Told::Prep(Prep::Prepared),
        &[],
    ),
    (
        Call::Commit(FIRST),
        Told::Ended(true),
        &[
            Did::Rename(SHADOW_ONE, COMMITTED_ONE),
            Did::Remove(PREPARED_FIRST),
        ],
    ),
    (
        Call::Read(1),
        Told::State(Seen {
            uid: ONE,
            version: 1,
            writer: FIRST,
            value: 1,
        }),
        &[Did::Read(COMMITTED_ONE)],
    ),
    (
        Call::Prepare(FIRST, Some(1), None),
        Told::Prep(Prep::Already {
            uid: ONE,
            act: FIRST,
        }),
        &[Did::Read(COMMITTED_ONE)],
    ),
    (
        Call::Prepare(THIRD, Some(2), None),
        Told::Prep(Prep::Old { uid: ONE, held: 1 }),
        &[Did::Read(COMMITTED_ONE)],
    ),
    (Call::Abort(NINTH), Told::Ended(false), &[]),
    (Call::Read(2), Told::Absent, &[Did::Read(COMMITTED_TWO)]),
    // The first state decides, and the second isn't looked at.
    (
        Call::Prepare(THIRD, Some(2), Some(2)),
        Told::Prep(Prep::Old { uid: ONE, held: 1 }),
        &[Did::Read(COMMITTED_ONE)],
    ),
];

// A packed state by lines: the object and its class (in format two with its version), version and writer, the payload.
pub const OLD_ONE: Content = b"ARJ1\0\0\0\0\0\0\0\0\0\0\0\0\0\0\0\x01\x01\
    \0\0\0\0\0\0\0\0\0\0\0\0\0\0\0\0\0\0\0\0\0\0\0\0\
    \0\x08\0\0\0\0\0\0\0\0";

pub const NEW_ONE: Content = b"ARJ2\0\0\0\0\0\0\0\0\0\0\0\0\0\0\0\x01\x01\x01\
    \0\0\0\0\0\0\0\x01\0\0\0\x01\0\0\0\x01\0\0\0\0\0\0\0\x01\
    \0\x08\0\0\0\0\0\0\0\x05";

pub const OLD_TWO: Content = b"ARJ1\0\0\0\0\0\0\0\0\0\0\0\0\0\0\0\x02\x01\
    \0\0\0\0\0\0\0\0\0\0\0\0\0\0\0\0\0\0\0\0\0\0\0\0\
    \0\x08\0\0\0\0\0\0\0\0";

pub const NEW_TWO: Content = b"ARJ2\0\0\0\0\0\0\0\0\0\0\0\0\0\0\0\x02\x01\x01\
    \0\0\0\0\0\0\0\x01\0\0\0\x01\0\0\0\x01\0\0\0\0\0\0\0\x01\
    \0\x08\0\0\0\0\0\0\0\x06";

pub const CUT_TWO: Content = b"ARJ2\0\0\0\0\0\0\0\0\0\0\0\0\0\0\0\x02\x01\x01\
    \0\0\0\0\0\0\0\x01\0\0\0\x01\0\0\0\x01\0\0\0\0\0\0\0\x03\
    \0\x08\0\0\0\0\0\0\0\x07";

pub const OLD_ENTRY_ONE: Content = b"ARJ1\0\0\0\0\0\0\0\x01\0\0\0\0\0\0\0\x01\0\
    \0\0\0\0\0\0\0\0\0\0\0\0\0\0\0\0\0\0\0\0\0\0\0\0\
    \0\x04\x01\x01\x01\x01";

pub const NEW_ENTRY_ONE: Content = b"ARJ2\0\0\0\0\0\0\0\x01\0\0\0\0\0\0\0\x01\0\x01\
    \0\0\0\0\0\0\0\x01\0\0\0\x01\0\0\0\x01\0\0\0\0\0\0\0\x01\
    \0\x04\x01\x01\x01\x05";

pub const OLD_ENTRY_TWO: Content = b"ARJ1\0\0\0\0\0\0\0\x01\0\0\0\0\0\0\0\x02\0\
    \0\0\0\0\0\0\0\0\0\0\0\0\0\0\0\0\0\0\0\0\0\0\0\0\
    \0\x04\x01\x01\x01\x01";

pub const CUT_ENTRY_TWO: Content = b"ARJ2\0\0\0\0\0\0\0\x01\0\0\0\0\0\0\0\x02\0\x01\
    \0\0\0\0\0\0\0\x01\0\0\0\x01\0\0\0\x01\0\0\0\0\0\0\0\x03\
    \0\x04\x01\x01\x01\x07";

// A file of action 1.1.1 by lines: the action and the count, and each object.
pub const NAMES_BOTH: Content = b"ARJP\0\0\0\x01\0\0\0\x01\0\0\0\0\0\0\0\x01\x02\
    \0\0\0\0\0\0\0\0\0\0\0\0\0\0\0\x01\
    \0\0\0\0\0\0\0\0\0\0\0\0\0\0\0\x02";

pub const NAMES_ONE: Content = b"ARJP\0\0\0\x01\0\0\0\x01\0\0\0\0\0\0\0\x01\x01\
    \0\0\0\0\0\0\0\0\0\0\0\0\0\0\0\x01";

pub const NAMES_ENTRY_ONE: Content = b"ARJP\0\0\0\x01\0\0\0\x01\0\0\0\0\0\0\0\x01\x01\
    \0\0\0\0\0\0\0\x01\0\0\0\0\0\0\0\x01";

pub const TORN: Content = b"ARJ";

// The role's files but Tmp.
pub type Files = &'static [(Slot, Content)];

pub const STARTED: Files = &[(COMMITTED_ONE, OLD_ONE), (COMMITTED_TWO, OLD_TWO)];

pub const FIRST_SHADOW: Files = &[
    (COMMITTED_ONE, OLD_ONE),
    (COMMITTED_TWO, OLD_TWO),
    (SHADOW_ONE, NEW_ONE),
];

pub const BOTH_SHADOWS: Files = &[
    (COMMITTED_ONE, OLD_ONE),
    (COMMITTED_TWO, OLD_TWO),
    (SHADOW_ONE, NEW_ONE),
    (SHADOW_TWO, NEW_TWO),
];

pub const PREPARED: Files = &[
    (COMMITTED_ONE, OLD_ONE),
    (COMMITTED_TWO, OLD_TWO),
    (SHADOW_ONE, NEW_ONE),
    (SHADOW_TWO, NEW_TWO),
    (PREPARED_FIRST, NAMES_BOTH),
];

pub const ONE_MOVED: Files = &[
    (COMMITTED_ONE, NEW_ONE),
    (COMMITTED_TWO, OLD_TWO),
    (SHADOW_TWO, NEW_TWO),
    (PREPARED_FIRST, NAMES_BOTH),
];

pub const BOTH_MOVED: Files = &[
    (COMMITTED_ONE, NEW_ONE),
    (COMMITTED_TWO, NEW_TWO),
    (PREPARED_FIRST, NAMES_BOTH),
];

pub const COMMITTED: Files = &[(COMMITTED_ONE, NEW_ONE), (COMMITTED_TWO, NEW_TWO)];

pub const LAST_SHADOW: Files = &[
    (COMMITTED_ONE, OLD_ONE),
    (COMMITTED_TWO, OLD_TWO),
    (SHADOW_TWO, NEW_TWO),
];

// An action has prepared the first object, and another was cut off before its own file was put.
pub const CUT: Files = &[
    (COMMITTED_ONE, OLD_ONE),
    (COMMITTED_TWO, OLD_TWO),
    (SHADOW_ONE, NEW_ONE),
    (SHADOW_TWO, CUT_TWO),
    (PREPARED_FIRST, NAMES_ONE),
];

pub const MENDED: Files = &[
    (COMMITTED_ONE, OLD_ONE),
    (COMMITTED_TWO, OLD_TWO),
    (SHADOW_ONE, NEW_ONE),
    (PREPARED_FIRST, NAMES_ONE),
];

pub const COMMITTED_ENTRY_ONE: Slot = Slot::Committed(ENTRY_ONE);

pub const COMMITTED_ENTRY_TWO: Slot = Slot::Committed(ENTRY_TWO);

pub const SHADOW_ENTRY_ONE: Slot = Slot::Shadow(ENTRY_ONE);

pub const SHADOW_ENTRY_TWO: Slot = Slot::Shadow(ENTRY_TWO);

pub const PREPARED_ENTRY: Slot = Slot::Prepared(Role::Names, FIRST);

pub const CUT_ENTRIES: Files = &[
    (COMMITTED_ENTRY_ONE, OLD_ENTRY_ONE),
    (COMMITTED_ENTRY_TWO, OLD_ENTRY_TWO),
    (SHADOW_ENTRY_ONE, NEW_ENTRY_ONE),
    (SHADOW_ENTRY_TWO, CUT_ENTRY_TWO),
    (PREPARED_ENTRY, NAMES_ENTRY_ONE),
];

pub const MENDED_ENTRIES: Files = &[
    (COMMITTED_ENTRY_ONE, OLD_ENTRY_ONE),
    (COMMITTED_ENTRY_TWO, OLD_ENTRY_TWO),
    (SHADOW_ENTRY_ONE, NEW_ENTRY_ONE),
    (PREPARED_ENTRY, NAMES_ENTRY_ONE),
];

// What a store that is recovered answers to reads of 1 and of 2.
pub type Answers = (Told, Told);

pub const OLD: Answers = (
    Told::State(Seen {
        uid: ONE,
        version: 0,
        writer: NOBODY,
        value: 0,
    }),
    Told::State(Seen {
        uid: TWO,
        version: 0,
        writer: NOBODY,
        value: 0,
    }),
);

pub const NEW: Answers = (
    Told::State(Seen {
        uid: ONE,
        version: 1,
        writer: FIRST,
        value: 5,
    }),
    Told::State(Seen {
        uid: TWO,
        version: 1,
        writer: FIRST,
        value: 6,
    }),
);

pub const DOUBT: Answers = (Told::InDoubt(FIRST), Told::InDoubt(FIRST));

pub const HALF: Answers = (
    Told::InDoubt(FIRST),
    Told::State(Seen {
        uid: TWO,
        version: 0,
        writer: NOBODY,
        value: 0,
    }),
);

pub const HALF_ENTRIES: Answers = (Told::InDoubt(FIRST), Told::State(OLD_OTHER));

// What is left: Tmp, the other files, and the answers after a recovery.
pub type Left = (Option<Content>, Files, Answers);

// The call whose disk is stopped. A recovery follows on a call that is cut off at this call of the disk.
#[derive(Clone, Copy)]
pub enum Last {
    Call(Call),
    Recovery { cut: Call, at: u32 },
}

// Calls of a new store, the last one, what is there before it, and each call of the disk that it makes, with what is
// left after that.
pub struct Case {
    pub role: Role,
    pub calls: &'static [Call],
    pub last: Last,
    pub before: Left,
    pub steps: &'static [(Did, Left)],
}

pub const PREPARE_BOTH: Call = Call::Prepare(FIRST, Some(5), Some(6));

const CASES: &[Case] = &[
    Case {
        role: Role::Store,
        calls: &[],
        last: Last::Call(PREPARE_BOTH),
        before: (None, STARTED, OLD),
        steps: &[
            (Did::Read(COMMITTED_ONE), (None, STARTED, OLD)),
            (Did::Read(COMMITTED_TWO), (None, STARTED, OLD)),
            (WRITE_TMP, (Some(NEW_ONE), STARTED, OLD)),
            (
                Did::Rename(Slot::Tmp, SHADOW_ONE),
                (None, FIRST_SHADOW, OLD),
            ),
            (WRITE_TMP, (Some(NEW_TWO), FIRST_SHADOW, OLD)),
            (
                Did::Rename(Slot::Tmp, SHADOW_TWO),
                (None, BOTH_SHADOWS, OLD),
            ),
            (WRITE_TMP, (Some(NAMES_BOTH), BOTH_SHADOWS, OLD)),
            (
                Did::Rename(Slot::Tmp, PREPARED_FIRST),
                (None, PREPARED, DOUBT),
            ),
        ],
    },
    Case {
        role: Role::Store,
        calls: &[PREPARE_BOTH],
        last: Last::Call(Call::Commit(FIRST)),
        before: (None, PREPARED, DOUBT),
        steps: &[
            (
                Did::Rename(SHADOW_ONE, COMMITTED_ONE),
                (None, ONE_MOVED, DOUBT),
            ),
            (
                Did::Rename(SHADOW_TWO, COMMITTED_TWO),
                (None, BOTH_MOVED, DOUBT),
            ),
            (Did::Remove(PREPARED_FIRST), (None, COMMITTED, NEW)),
        ],
    },
    Case {
        role: Role::Store,
        calls: &[PREPARE_BOTH],
        last: Last::Call(Call::Abort(FIRST)),
        before: (None, PREPARED, DOUBT),
        steps: &[
            (Did::Remove(PREPARED_FIRST), (None, BOTH_SHADOWS, OLD)),
            (Did::Remove(SHADOW_ONE), (None, LAST_SHADOW, OLD)),
            (Did::Remove(SHADOW_TWO), (None, STARTED, OLD)),
        ],
    },
    Case {
        role: Role::Store,
        calls: &[Call::Prepare(FIRST, Some(5), None)],
        last: Last::Recovery {
            cut: Call::Prepare(THIRD, None, Some(7)),
            at: 4,
        },
        before: (Some(TORN), CUT, HALF),
        steps: &[
            (Did::Names, (Some(TORN), CUT, HALF)),
            (Did::Read(PREPARED_FIRST), (Some(TORN), CUT, HALF)),
            (Did::Remove(SHADOW_TWO), (Some(TORN), MENDED, HALF)),
        ],
    },
    Case {
        role: Role::Names,
        calls: &[Call::Prepare(FIRST, Some(5), None)],
        last: Last::Recovery {
            cut: Call::Prepare(THIRD, None, Some(7)),
            at: 4,
        },
        before: (Some(TORN), CUT_ENTRIES, HALF_ENTRIES),
        steps: &[
            (Did::Names, (Some(TORN), CUT_ENTRIES, HALF_ENTRIES)),
            (
                Did::Read(PREPARED_ENTRY),
                (Some(TORN), CUT_ENTRIES, HALF_ENTRIES),
            ),
            (
                Did::Remove(SHADOW_ENTRY_TWO),
                (Some(TORN), MENDED_ENTRIES, HALF_ENTRIES),
            ),
            (
                Did::Read(SHADOW_ENTRY_ONE),
                (Some(TORN), MENDED_ENTRIES, HALF_ENTRIES),
            ),
            (
                Did::Read(COMMITTED_ENTRY_ONE),
                (Some(TORN), MENDED_ENTRIES, HALF_ENTRIES),
            ),
            (
                Did::Read(COMMITTED_ENTRY_TWO),
                (Some(TORN), MENDED_ENTRIES, HALF_ENTRIES),
            ),
        ],
    },
];

// Calls of a naming store, and one that is cut off at this call of the disk. A recovery then finds these committed
// entries, and these actions with their new ones.
pub struct Finding {
    pub calls: &'static [Call],
    pub cut: Call,
    pub at: u32,
    pub committed: &'static [Seen],
    pub prepared: &'static [(Uid, Seen)],
    pub actions: &'static [Uid],
}

pub const OLD_ENTRY: Seen = Seen {
    uid: ENTRY_ONE,
    version: 0,
    writer: NOBODY,
    value: 1,
};

pub const NEW_ENTRY: Seen = Seen {
    uid: ENTRY_ONE,
    version: 1,
    writer: FIRST,
    value: 5,
};

pub const OLD_OTHER: Seen = Seen {
    uid: ENTRY_TWO,
    version: 0,
    writer: NOBODY,
    value: 1,
};

pub const NEW_OTHER: Seen = Seen {
    uid: ENTRY_TWO,
    version: 1,
    writer: THIRD,
    value: 7,
};

const FINDINGS: &[Finding] = &[
    Finding {
        calls: &[Call::Prepare(FIRST, Some(5), None)],
        cut: Call::Prepare(THIRD, None, Some(7)),
        at: 4,
        committed: &[OLD_ENTRY, OLD_OTHER],
        prepared: &[(FIRST, NEW_ENTRY)],
        actions: &[FIRST],
    },
    // The later action has prepared first, and its new entry is the committed one already.
    Finding {
        calls: &[
            Call::Prepare(THIRD, None, Some(7)),
            Call::Prepare(FIRST, Some(5), None),
        ],
        cut: Call::Commit(THIRD),
        at: 2,
        committed: &[OLD_ENTRY, NEW_OTHER],
        prepared: &[(FIRST, NEW_ENTRY), (THIRD, NEW_OTHER)],
        actions: &[FIRST, THIRD],
    },
];
