// Nodes played alone through whole runs of several nodes: the frames of the others are made by hand, and each node's lines and
// disk calls are those that it has in the run.
ghost use Rattle.std.specs.Prelude.{◌≡◌, OnOk};
ghost use Rattle.arj_journal.specs.ScriptForm.{HeaderInForm};
ghost use Rattle.arj_node_tests.specs.Alone.{StandsSome};

use crate::alone::{Alone, arm, begin};
use crate::bytes::{
    ABORTED, ACKED, ACKED_TWO, BIND, BOUND, COMMITTED, COMMITTED_TWO, CONFIRM, CONFIRMED, HELLO,
    LOAD, LOADED, LOADED_TWO, OTHER_BIND, PREPARE, PREPARED, PREPARED_TWO, QUERY, QUERY_TWO,
    RECORD, RECORDED,
};
use crate::rows::{Ask, Row, follow};
use arj_core::{Core, CoreFault};
use arj_disk::Disk;
use arj_journal::Header;
use arj_part_tests::Recorder;
use std::alloc::Global;

// A node of a run, what it is asked before and after its disk is asked for a stop.
struct Play {
    number: u8,
    before: &'static [Row],
    stop: Option<(u32, bool)>,
    after: &'static [Row],
}

// ---- A's commit, whose record node 1 puts, and which stores 2 and 3 prepare

/// The header of the first run.
pub const THREE_NODES: &[&[u8]] = &[
    b"nodes 3",
    b"object 1 counter 0 servers 1 stores 2,3",
    b"run",
];

// What node 1 is asked until the stores have answered.
const ASKS: &[Row] = &[
    (1, Ask::Begin),
    (2, Ask::Add(1, 1)),
    (3, Ask::Frame(2, 2, LOADED)),
    (4, Ask::Commit),
];

// Its disk stops at the rename of the record, which is done: the record is told, and the last acknowledgement removes it.
const DECIDED: Play = Play {
    number: 1,
    before: ASKS,
    stop: Some((2, true)),
    after: &[
        (6, Ask::Frame(5, 2, PREPARED)),
        (6, Ask::Frame(6, 3, PREPARED)),
        (7, Ask::Restart),
        (8, Ask::Frame(11, 2, ACKED)),
        (8, Ask::Frame(12, 3, ACKED)),
        (9, Ask::Show(1)),
    ],
};

// What node 1 writes in that run, and its disk calls.
const DECIDES: &[u8] = b"0 disk write tmp
0 disk rename tmp segment names 1
0 disk write tmp
0 disk rename tmp incarnation
1 began A top 1.1.1 -
2 granted 1 1.1.1 0.1.1 write
2 bound 1 1.1 1
2 sent 2 load
3 got 2
3 active 1 1 1.1
3 lowered 1 1.1.1 0.1.1
3 granted 1 1.1.1 0.0.1 write
3 ok A 1 add 1 = done
4 committing A
4 sent 2 prepare
4 sent 3 prepare
6 got 5
6 got 6
6 halted 1
6 disk write tmp
6 disk rename tmp intent 1.1.1
7 up 1 2
7 recovered 1 1.1.1
7 sent 2 told
7 sent 3 told
7 sent 2 hello
7 sent 3 hello
7 disk read incarnation
7 disk write tmp
7 disk rename tmp incarnation
7 disk remove tmp
7 disk names
7 disk names
7 disk read segment names 1
7 disk names
7 disk read intent 1.1.1
8 got 11
8 got 12
8 disk remove intent 1.1.1
9 entry 1 0 1 2,3
9 disk read segment names 1
";

// It stops there and the rename isn't done: the stores ask, and are told an abort.
const UNDECIDED: Play = Play {
    number: 1,
    before: ASKS,
    stop: Some((2, false)),
    after: &[
        (6, Ask::Frame(5, 2, PREPARED)),
        (6, Ask::Frame(6, 3, PREPARED)),
        (7, Ask::Restart),
        (8, Ask::Frame(9, 2, QUERY)),
        (8, Ask::Frame(10, 3, QUERY)),
        (9, Ask::Show(1)),
    ],
};

// What node 1 writes in that one, and its disk calls.
const PRESUMES: &[u8] = b"0 disk write tmp
0 disk rename tmp segment names 1
0 disk write tmp
0 disk rename tmp incarnation
1 began A top 1.1.1 -
2 granted 1 1.1.1 0.1.1 write
2 bound 1 1.1 1
2 sent 2 load
3 got 2
3 active 1 1 1.1
3 lowered 1 1.1.1 0.1.1
3 granted 1 1.1.1 0.0.1 write
3 ok A 1 add 1 = done
4 committing A
4 sent 2 prepare
4 sent 3 prepare
6 got 5
6 got 6
6 halted 1
6 disk write tmp
6 disk rename tmp intent 1.1.1
7 up 1 2
7 sent 2 hello
7 sent 3 hello
7 disk read incarnation
7 disk write tmp
7 disk rename tmp incarnation
7 disk remove tmp
7 disk names
7 disk names
7 disk read segment names 1
7 disk names
8 got 9
8 sent 2 told
8 got 10
8 sent 3 told
9 entry 1 0 1 2,3
9 disk read segment names 1
";

// Store 2 in the first of these runs.
const COMMITS: Play = Play {
    number: 2,
    before: &[
        (3, Ask::Frame(1, 1, LOAD)),
        (6, Ask::Frame(3, 1, PREPARE)),
        (8, Ask::Frame(7, 1, COMMITTED)),
        (8, Ask::Frame(9, 1, HELLO)),
        (9, Ask::Show(1)),
    ],
    stop: None,
    after: &[],
};

// What store 2 writes where the record was put, and its disk calls.
const HAS_COMMITTED: &[u8] = b"0 disk write tmp
0 disk rename tmp segment store 1
0 disk write tmp
0 disk rename tmp incarnation
3 got 1
3 sent 1 loaded
3 disk read segment store 1
6 got 3
6 prepared 2 1.1.1 store
6 sent 1 prepared
6 disk read segment store 1
6 disk write tmp
6 disk rename tmp pending store 1.1.1
8 got 7
8 done 2 1.1.1 store commit
8 sent 1 acked
8 disk rename pending store 1.1.1 segment store 2
8 got 9
9 copy 2 1 1 1.1.1 0000000000000001
9 disk read segment store 2
";

// Store 2 in the second of these runs.
const ABORTS: Play = Play {
    number: 2,
    before: &[
        (3, Ask::Frame(1, 1, LOAD)),
        (6, Ask::Frame(3, 1, PREPARE)),
        (8, Ask::Frame(7, 1, HELLO)),
        (8, Ask::Frame(11, 1, ABORTED)),
        (9, Ask::Show(1)),
    ],
    stop: None,
    after: &[],
};

// What store 2 writes where it was not put, and its disk calls.
const HAS_ABORTED: &[u8] = b"0 disk write tmp
0 disk rename tmp segment store 1
0 disk write tmp
0 disk rename tmp incarnation
3 got 1
3 sent 1 loaded
3 disk read segment store 1
6 got 3
6 prepared 2 1.1.1 store
6 sent 1 prepared
6 disk read segment store 1
6 disk write tmp
6 disk rename tmp pending store 1.1.1
8 got 7
8 sent 1 query
8 got 11
8 done 2 1.1.1 store abort
8 disk remove pending store 1.1.1
9 copy 2 1 0 0.0.0 0000000000000000
9 disk read segment store 1
";

// ---- A's commit at node 2, which excludes store 4, while naming comes up again with the entry in doubt

/// The header of the second run.
pub const FOUR_NODES: &[&[u8]] = &[
    b"nodes 4",
    b"object 1 counter 0 servers 2 stores 3,4",
    b"run",
];

// Naming in the second run: it stops behind a Confirm and is told of the commit, once before it is up again and once behind it.
const NAMES: Play = Play {
    number: 1,
    before: &[
        (3, Ask::Frame(1, 2, BIND)),
        (3, Ask::Frame(5, 2, RECORD)),
        (8, Ask::Frame(10, 2, CONFIRM)),
        (9, Ask::Crash),
        (11, Ask::Frame(12, 2, COMMITTED_TWO)),
        (12, Ask::Restart),
        (15, Ask::Frame(20, 3, OTHER_BIND)),
        (17, Ask::Frame(22, 2, COMMITTED_TWO)),
        (18, Ask::Show(1)),
    ],
    stop: None,
    after: &[],
};

// What naming writes in the second run, and its disk calls.
const HAS_NAMED: &[u8] = b"0 disk write tmp
0 disk rename tmp segment names 1
0 disk write tmp
0 disk rename tmp incarnation
3 got 1
3 granted 1 2.1.1 0.1.1 write
3 bound 1 1.1 2
3 sent 2 bound
3 got 5
3 lowered 1 2.1.1 0.1.1
3 sent 2 recorded
8 got 10
8 granted 1 2.1.1 0.1.1 exclude
8 prepared 1 2.1.1 names
8 sent 2 confirmed
8 disk read segment names 1
8 disk write tmp
8 disk rename tmp pending names 2.1.1
9 halted 1
11 void 12
12 up 1 2
12 granted 1 2.1.1 0.1.1 exclude
12 sent 2 query
12 sent 2 hello
12 sent 3 hello
12 sent 4 hello
12 disk read incarnation
12 disk write tmp
12 disk rename tmp incarnation
12 disk remove tmp
12 disk names
12 disk names
12 disk read pending names 2.1.1
12 disk read segment names 1
12 disk names
15 got 20
15 sent 3 bound
17 got 22
17 done 1 2.1.1 names commit
17 told 1 2.1.1 commit naming
17 sent 2 acked
17 disk rename pending names 2.1.1 segment names 2
18 entry 1 1 2 3
18 disk read segment names 2
";

// The coordinator and server in the second run: store 4 is silent and excluded.
const EXCLUDES: Play = Play {
    number: 2,
    before: &[
        (1, Ask::Begin),
        (2, Ask::Add(1, 1)),
        (3, Ask::Frame(2, 1, BOUND)),
        (3, Ask::Frame(4, 3, LOADED_TWO)),
        (3, Ask::Frame(6, 1, RECORDED)),
        (4, Ask::Commit),
        (6, Ask::Frame(9, 3, PREPARED_TWO)),
        (7, Ask::GiveUp),
        (10, Ask::Frame(11, 1, CONFIRMED)),
        (11, Ask::Frame(15, 3, ACKED_TWO)),
        (17, Ask::Frame(16, 1, QUERY_TWO)),
        (17, Ask::Frame(17, 1, HELLO)),
        (17, Ask::Frame(23, 1, ACKED_TWO)),
        (18, Ask::Show(1)),
    ],
    stop: None,
    after: &[],
};

// What the coordinator and server writes in the second run, and its disk calls.
const HAS_EXCLUDED: &[u8] = b"0 disk write tmp
0 disk rename tmp incarnation
1 began A top 2.1.1 -
2 sent 1 bind
3 got 2
3 sent 3 load
3 got 4
3 active 2 1 1.1
3 sent 1 record
3 got 6
3 granted 2 2.1.1 0.0.1 write
3 ok A 1 add 1 = done
4 committing A
4 sent 3 prepare
4 sent 4 prepare
6 got 9
7 gaveup A 4
7 excluded A 1 4
7 sent 1 confirm
10 got 11
10 committed A
10 sent 1 told
10 sent 3 told
10 sent 4 told
10 told 2 2.1.1 commit server
10 disk write tmp
10 disk rename tmp intent 2.1.1
11 got 15
17 got 16
17 sent 1 told
17 got 17
17 got 23
17 disk remove intent 2.1.1
";

// The disk is asked for a stop, if there is one.
fn arms<C: Core>(alone: &mut Alone<C>, stop: Option<(u32, bool)>)
    requires stands { StandsSome C.Core alone.old.core (⟦<Recorder as Disk>⟧.file alone.old.disk) }
    requires arms { ⟦<Recorder as Disk>⟧.arms alone.old.disk ≡ 0 }
    ensures { StandsSome C.Core alone.new.core (⟦<Recorder as Disk>⟧.file alone.new.disk) }
{
    if let Some((calls, done)) = stop {
        arm(alone, calls, done);
    }
}

// Plays a node.
fn goes<C: Core>(alone: &mut Alone<C>, play: &Play) -> Result<(), CoreFault>
    requires stands { StandsSome C.Core alone.old.core (⟦<Recorder as Disk>⟧.file alone.old.disk) }
    requires arms { ⟦<Recorder as Disk>⟧.arms alone.old.disk ≡ 0 }
    ensures { OnOk result (StandsSome C.Core alone.new.core (⟦<Recorder as Disk>⟧.file alone.new.disk)) }
{
    follow(alone, play.before)?;
    arms(alone, play.stop);
    follow(alone, play.after)
}

// Whether a node is idle after its play, with this journal.
fn plays<C: Core + Drop>(
    alloc: Global,
    run: &Header,
    play: &Play,
    journal: &[u8],
) -> Result<bool, CoreFault>
    requires { HeaderInForm run.now }
{
    if play.number < 1 || play.number > run.nodes {
        return Ok(false);
    }
    let mut alone: Alone<C> = begin(alloc, play.number, run)?;
    goes(&mut alone, play)?;
    Ok(alone.core.idle() && alone.journal.as_slice() == journal)
}

/// Whether nodes play so in the run whose decision is stopped.
pub fn decisions<C: Core + Drop>(alloc: Global, run: &Header) -> Result<bool, CoreFault>
    requires { HeaderInForm run.now }
{
    Ok(
        plays::<C>(alloc, run, &DECIDED, DECIDES)?
            && plays::<C>(alloc, run, &UNDECIDED, PRESUMES)?
            && plays::<C>(alloc, run, &COMMITS, HAS_COMMITTED)?
            && plays::<C>(alloc, run, &ABORTS, HAS_ABORTED)?,
    )
}

/// And in the one with an exclusion in doubt.
pub fn exclusions<C: Core + Drop>(alloc: Global, run: &Header) -> Result<bool, CoreFault>
    requires { HeaderInForm run.now }
{
    Ok(
        plays::<C>(alloc, run, &NAMES, HAS_NAMED)?
            && plays::<C>(alloc, run, &EXCLUDES, HAS_EXCLUDED)?,
    )
}
