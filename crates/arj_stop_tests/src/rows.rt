// Worked runs in which nodes stop, and the calls of their disks as lines: the number of the node and the call. A call that was
// stopped isn't told apart.

// Node 2 stores the object, and its disk stops in the commit: what stands before the stop, and behind it.
pub const STORE_BEFORE: &[u8] = b"nodes 3
object 1 counter 0 servers 1 stores 2,3
run
begin A at 1
call A 1 add 1
settle
";

pub const STORE_BEHIND: &[u8] = b"commit A
settle
restart 2
quiesce
show 1
";

// The calls of node 1, and those of node 2 up to its prepare.
pub const STORE_FIRST: &[u8] = b"1 disk write tmp
1 disk rename tmp segment names 1
1 disk write tmp
1 disk rename tmp incarnation
1 disk write tmp
1 disk rename tmp intent 1.1.1
1 disk remove intent 1.1.1
1 disk read segment names 1
2 disk write tmp
2 disk rename tmp segment store 1
2 disk write tmp
2 disk rename tmp incarnation
2 disk read segment store 1
";

// What node 2 does first at its restart.
pub const RESTART: &[u8] = b"2 disk read incarnation
2 disk write tmp
2 disk rename tmp incarnation
2 disk remove tmp
2 disk names
";

// The calls of node 3.
pub const STORE_LAST: &[u8] = b"3 disk write tmp
3 disk rename tmp segment store 1
3 disk write tmp
3 disk rename tmp incarnation
3 disk read segment store 1
3 disk write tmp
3 disk rename tmp pending store 1.1.1
3 disk rename pending store 1.1.1 segment store 2
3 disk read segment store 2
";

// What node 2 does in its prepare and its commit, up to the stop.
const READ: &[u8] = b"2 disk read segment store 1
";

const WRITE: &[u8] = b"2 disk read segment store 1
2 disk write tmp
";

const RENAME: &[u8] = b"2 disk read segment store 1
2 disk write tmp
2 disk rename tmp pending store 1.1.1
";

const COMMIT: &[u8] = b"2 disk read segment store 1
2 disk write tmp
2 disk rename tmp pending store 1.1.1
2 disk rename pending store 1.1.1 segment store 2
";

// What it then finds and does: the committed state alone, and it is asked to prepare again; what is prepared, and it commits; or
// the new state.
const FINDS_OLD: &[u8] = b"2 disk read segment store 1
2 disk names
2 disk read segment store 1
2 disk write tmp
2 disk rename tmp pending store 1.1.1
2 disk rename pending store 1.1.1 segment store 2
2 disk read segment store 2
";

const FINDS_PREPARED: &[u8] = b"2 disk read pending store 1.1.1
2 disk read segment store 1
2 disk names
2 disk rename pending store 1.1.1 segment store 2
2 disk read segment store 2
";

const FINDS_NEW: &[u8] = b"2 disk read segment store 1
2 disk read segment store 2
2 disk names
2 disk read segment store 2
";

// A stop of node 2's disk, the calls up to it, and those behind its restart.
pub type Row = (&'static [u8], &'static [u8], &'static [u8]);

pub const STORE_STOPS: &[Row] = &[
    (b"stop 2 1 none\n", READ, FINDS_OLD),
    (b"stop 2 1 done\n", READ, FINDS_OLD),
    (b"stop 2 1 torn 41524a\n", READ, FINDS_OLD),
    (b"stop 2 2 none\n", WRITE, FINDS_OLD),
    (b"stop 2 2 done\n", WRITE, FINDS_OLD),
    (b"stop 2 2 torn 41524a\n", WRITE, FINDS_OLD),
    (b"stop 2 3 none\n", RENAME, FINDS_OLD),
    (b"stop 2 3 done\n", RENAME, FINDS_PREPARED),
    (b"stop 2 3 torn 41524a\n", RENAME, FINDS_OLD),
    (b"stop 2 4 none\n", COMMIT, FINDS_PREPARED),
    (b"stop 2 4 done\n", COMMIT, FINDS_NEW),
    (b"stop 2 4 torn 41524a\n", COMMIT, FINDS_PREPARED),
];

// The coordinator's disk stops as it puts the record of a commit.
const UNDECIDED: &[u8] = b"nodes 3
object 1 counter 0 servers 1 stores 2,3
run
begin A at 1
call A 1 add 1
settle
commit A
stop 1 2 none
settle
restart 1
quiesce
show 1
";

// What each disk is then called.
const PRESUMES: &[u8] = b"1 disk write tmp
1 disk rename tmp segment names 1
1 disk write tmp
1 disk rename tmp incarnation
1 disk write tmp
1 disk rename tmp intent 1.1.1
1 disk read incarnation
1 disk write tmp
1 disk rename tmp incarnation
1 disk remove tmp
1 disk names
1 disk names
1 disk read segment names 1
1 disk names
1 disk read segment names 1
2 disk write tmp
2 disk rename tmp segment store 1
2 disk write tmp
2 disk rename tmp incarnation
2 disk read segment store 1
2 disk read segment store 1
2 disk write tmp
2 disk rename tmp pending store 1.1.1
2 disk remove pending store 1.1.1
2 disk read segment store 1
3 disk write tmp
3 disk rename tmp segment store 1
3 disk write tmp
3 disk rename tmp incarnation
3 disk read segment store 1
3 disk write tmp
3 disk rename tmp pending store 1.1.1
3 disk remove pending store 1.1.1
3 disk read segment store 1
";

// The same where that call was done.
const DECIDED: &[u8] = b"nodes 3
object 1 counter 0 servers 1 stores 2,3
run
begin A at 1
call A 1 add 1
settle
commit A
stop 1 2 done
settle
restart 1
quiesce
show 1
";

const COMMITS: &[u8] = b"1 disk write tmp
1 disk rename tmp segment names 1
1 disk write tmp
1 disk rename tmp incarnation
1 disk write tmp
1 disk rename tmp intent 1.1.1
1 disk read incarnation
1 disk write tmp
1 disk rename tmp incarnation
1 disk remove tmp
1 disk names
1 disk names
1 disk read segment names 1
1 disk names
1 disk read intent 1.1.1
1 disk remove intent 1.1.1
1 disk read segment names 1
2 disk write tmp
2 disk rename tmp segment store 1
2 disk write tmp
2 disk rename tmp incarnation
2 disk read segment store 1
2 disk read segment store 1
2 disk write tmp
2 disk rename tmp pending store 1.1.1
2 disk rename pending store 1.1.1 segment store 2
2 disk read segment store 2
3 disk write tmp
3 disk rename tmp segment store 1
3 disk write tmp
3 disk rename tmp incarnation
3 disk read segment store 1
3 disk write tmp
3 disk rename tmp pending store 1.1.1
3 disk rename pending store 1.1.1 segment store 2
3 disk read segment store 2
";

// Naming stops with an exclusion in doubt.
const NAMING_STOPS: &[u8] = b"nodes 4
object 1 counter 0 servers 2 stores 3,4
run
begin A at 2
call A 1 add 1
settle
commit A
lose 8
settle
giveup A
deliver 10
crash 1
deliver 11
settle
restart 1
begin B at 3
call B 1 get
deliver 20
deliver 21
quiesce
show 1
";

const EXCLUDES: &[u8] = b"1 disk write tmp
1 disk rename tmp segment names 1
1 disk write tmp
1 disk rename tmp incarnation
1 disk read segment names 1
1 disk write tmp
1 disk rename tmp pending names 2.1.1
1 disk read incarnation
1 disk write tmp
1 disk rename tmp incarnation
1 disk remove tmp
1 disk names
1 disk names
1 disk read pending names 2.1.1
1 disk read segment names 1
1 disk names
1 disk rename pending names 2.1.1 segment names 2
1 disk read segment names 2
2 disk write tmp
2 disk rename tmp incarnation
2 disk write tmp
2 disk rename tmp intent 2.1.1
2 disk remove intent 2.1.1
3 disk write tmp
3 disk rename tmp segment store 1
3 disk write tmp
3 disk rename tmp incarnation
3 disk read segment store 1
3 disk read segment store 1
3 disk write tmp
3 disk rename tmp pending store 2.1.1
3 disk rename pending store 2.1.1 segment store 2
3 disk read segment store 2
4 disk write tmp
4 disk rename tmp segment store 1
4 disk write tmp
4 disk rename tmp incarnation
4 disk read segment store 1
";

// The seventh commit makes the eighth segment, and merges all.
const SEVEN_COMMITS: &[u8] = b"nodes 1
object 1 counter 0 servers 1 stores 1
run
begin A1 at 1
call A1 1 add 1
commit A1
begin A2 at 1
call A2 1 add 1
commit A2
begin A3 at 1
call A3 1 add 1
commit A3
begin A4 at 1
call A4 1 add 1
commit A4
begin A5 at 1
call A5 1 add 1
commit A5
begin A6 at 1
call A6 1 add 1
commit A6
begin A7 at 1
call A7 1 add 1
commit A7
";

const MERGES: &[u8] = b"1 disk write tmp
1 disk rename tmp segment store 1
1 disk write tmp
1 disk rename tmp segment names 1
1 disk write tmp
1 disk rename tmp incarnation
1 disk read segment store 1
1 disk read segment store 1
1 disk write tmp
1 disk rename tmp pending store 1.1.1
1 disk write tmp
1 disk rename tmp intent 1.1.1
1 disk rename pending store 1.1.1 segment store 2
1 disk remove intent 1.1.1
1 disk read segment store 2
1 disk write tmp
1 disk rename tmp pending store 1.1.2
1 disk write tmp
1 disk rename tmp intent 1.1.2
1 disk rename pending store 1.1.2 segment store 3
1 disk remove intent 1.1.2
1 disk read segment store 3
1 disk write tmp
1 disk rename tmp pending store 1.1.3
1 disk write tmp
1 disk rename tmp intent 1.1.3
1 disk rename pending store 1.1.3 segment store 4
1 disk remove intent 1.1.3
1 disk read segment store 4
1 disk write tmp
1 disk rename tmp pending store 1.1.4
1 disk write tmp
1 disk rename tmp intent 1.1.4
1 disk rename pending store 1.1.4 segment store 5
1 disk remove intent 1.1.4
1 disk read segment store 5
1 disk write tmp
1 disk rename tmp pending store 1.1.5
1 disk write tmp
1 disk rename tmp intent 1.1.5
1 disk rename pending store 1.1.5 segment store 6
1 disk remove intent 1.1.5
1 disk read segment store 6
1 disk write tmp
1 disk rename tmp pending store 1.1.6
1 disk write tmp
1 disk rename tmp intent 1.1.6
1 disk rename pending store 1.1.6 segment store 7
1 disk remove intent 1.1.6
1 disk read segment store 7
1 disk write tmp
1 disk rename tmp pending store 1.1.7
1 disk write tmp
1 disk rename tmp intent 1.1.7
1 disk rename pending store 1.1.7 segment store 8
1 disk read segment store 1
1 disk read segment store 2
1 disk read segment store 3
1 disk read segment store 4
1 disk read segment store 5
1 disk read segment store 6
1 disk read segment store 7
1 disk read segment store 8
1 disk write tmp
1 disk rename tmp segment store 9
1 disk remove segment store 1
1 disk remove segment store 2
1 disk remove segment store 3
1 disk remove segment store 4
1 disk remove segment store 5
1 disk remove segment store 6
1 disk remove segment store 7
1 disk remove segment store 8
1 disk remove intent 1.1.7
";

// A store's write of what it prepares is torn, and it is asked to prepare again.
const TORN_WRITE: &[u8] = b"nodes 2
object 1 counter 0 servers 1 stores 2
run
begin A at 1
call A 1 add 1
settle
stop 2 2 torn 41524a
commit A
settle
restart 2
show 1
quiesce
";

const PREPARES_AGAIN: &[u8] = b"1 disk write tmp
1 disk rename tmp segment names 1
1 disk write tmp
1 disk rename tmp incarnation
1 disk read segment names 1
1 disk write tmp
1 disk rename tmp intent 1.1.1
1 disk remove intent 1.1.1
2 disk write tmp
2 disk rename tmp segment store 1
2 disk write tmp
2 disk rename tmp incarnation
2 disk read segment store 1
2 disk read segment store 1
2 disk write tmp
2 disk read incarnation
2 disk write tmp
2 disk rename tmp incarnation
2 disk remove tmp
2 disk names
2 disk read segment store 1
2 disk names
2 disk read segment store 1
2 disk read segment store 1
2 disk write tmp
2 disk rename tmp pending store 1.1.1
2 disk rename pending store 1.1.1 segment store 2
";

// A script, and the calls in its run.
pub const RUNS: &[(&[u8], &[u8])] = &[
    (UNDECIDED, PRESUMES),
    (DECIDED, COMMITS),
    (TORN_WRITE, PREPARES_AGAIN),
    (NAMING_STOPS, EXCLUDES),
    (SEVEN_COMMITS, MERGES),
];
