// What naming answers row by row, worked out by hand.
use crate::site::{Fault, Site};
use crate::steps::{Ask, Seen, answer};
use arj_base::{End, Mode};
use std::alloc::Global;
use std::test::Fail;

// What comes, the answer, and how many lines there are then.
type Row = (Ask, Seen, usize);

// A Record that is lost and made again, an older one and one of another incarnation, conflicts, and ends.
const BINDINGS: &[Row] = &[
    (Ask::Bind(1, 0), Seen::Make(1, 2), 2),
    (Ask::Bind(2, 0), Seen::Held(1, Mode::Write), 2),
    (Ask::Bind(1, 0), Seen::Make(1, 2), 2),
    (Ask::Bind(1, 1), Seen::Make(2, 3), 3),
    (Ask::Record(1, 1, 1), Seen::Nothing, 3),
    (Ask::Record(1, 2, 2), Seen::Changed(2, 1), 3),
    (Ask::Record(1, 2, 1), Seen::Recorded, 4),
    (Ask::Record(1, 2, 1), Seen::Recorded, 4),
    (Ask::Bind(2, 0), Seen::Live(2, 3), 5),
    (Ask::Include(3), Seen::Held(1, Mode::Read), 5),
    (Ask::Told(1, End::Commit), Seen::Nothing, 6),
    (Ask::Bind(1, 0), Seen::Nothing, 6),
    (Ask::Told(2, End::Abort), Seen::Nothing, 7),
    (Ask::Told(2, End::Abort), Seen::Nothing, 7),
    (Ask::Bind(3, 0), Seen::Live(2, 3), 8),
];

// A server that comes back in the incarnation of the live binding, and in a later one.
const HELLOS: &[Row] = &[
    (Ask::Bind(1, 0), Seen::Make(1, 2), 2),
    (Ask::Record(1, 1, 1), Seen::Recorded, 3),
    (Ask::Hello(2, 1), Seen::Nothing, 3),
    (Ask::Bind(1, 0), Seen::Live(1, 2), 3),
    (Ask::Hello(2, 2), Seen::Nothing, 3),
    (Ask::Bind(1, 0), Seen::Make(2, 3), 5),
    (Ask::Record(1, 1, 1), Seen::Recorded, 5),
];

// And so where no top has a lock on the entry any more.
const HELLOS_AT_REST: &[Row] = &[
    (Ask::Bind(1, 0), Seen::Make(1, 2), 2),
    (Ask::Record(1, 1, 1), Seen::Recorded, 3),
    (Ask::Told(1, End::Abort), Seen::Nothing, 4),
    (Ask::Hello(2, 1), Seen::Nothing, 4),
    (Ask::Bind(2, 0), Seen::Live(1, 2), 5),
    (Ask::Told(2, End::Abort), Seen::Nothing, 6),
    (Ask::Hello(2, 2), Seen::Nothing, 6),
    (Ask::Bind(3, 0), Seen::Make(2, 3), 8),
    (Ask::Record(3, 2, 1), Seen::Recorded, 9),
    (Ask::Told(3, End::Abort), Seen::Nothing, 10),
    (Ask::Hello(2, 3), Seen::Nothing, 10),
    (Ask::Bind(4, 0), Seen::Live(2, 3), 11),
];

// Turns go round the servers: the one that is bound next stands behind the last one, and the first follows the last. A top
// that reads stands against another one's write, an include leaves the write lock with its top, and a binding that was made
// for another top isn't recorded.
const TURNS: &[Row] = &[
    (Ask::Bind(1, 0), Seen::Make(1, 2), 2),
    (Ask::Record(1, 1, 1), Seen::Recorded, 3),
    (Ask::Bind(2, 0), Seen::Live(1, 2), 4),
    (Ask::Record(2, 2, 1), Seen::Nothing, 4),
    (Ask::Bind(1, 1), Seen::Held(2, Mode::Read), 4),
    (Ask::Told(2, End::Abort), Seen::Nothing, 5),
    (Ask::Bind(1, 1), Seen::Make(2, 3), 7),
    (Ask::Record(1, 2, 1), Seen::Recorded, 8),
    (Ask::Hello(3, 1), Seen::Nothing, 8),
    (Ask::Bind(1, 0), Seen::Live(2, 3), 8),
    (Ask::Hello(3, 2), Seen::Nothing, 8),
    (Ask::Bind(1, 0), Seen::Make(3, 2), 10),
    (Ask::Exclude(1, 1, &[]), Seen::Yes, 10),
    (Ask::Told(1, End::Commit), Seen::Nothing, 11),
    (Ask::Include(3), Seen::Write, 12),
    (Ask::Bind(3, 0), Seen::Make(4, 3), 13),
];

// An exclusion, under an exclude lock that goes with a read lock of another top.
const EXCLUSION: &[Row] = &[
    (Ask::Bind(1, 0), Seen::Make(1, 2), 2),
    (Ask::Record(1, 1, 1), Seen::Recorded, 3),
    (Ask::Exclude(1, 1, &[3]), Seen::Yes, 5),
    (Ask::Exclude(1, 1, &[3]), Seen::Yes, 5),
    (Ask::Entry, Seen::InDoubt, 5),
    (Ask::Bind(2, 0), Seen::Live(1, 2), 6),
    (Ask::Exclude(2, 1, &[3]), Seen::Held(1, Mode::Exclude), 6),
    (Ask::Told(1, End::Commit), Seen::Nothing, 8),
    (Ask::Entry, Seen::Stores(2), 8),
];

// An inclusion, and one of a store that is listed.
const INCLUSION: &[Row] = &[
    (Ask::Include(1), Seen::Write, 1),
    (Ask::Add(1, 1), Seen::Yes, 2),
    (Ask::Told(1, End::Commit), Seen::Nothing, 4),
    (Ask::Entry, Seen::Stores(234), 4),
    (Ask::Include(2), Seen::Write, 5),
    (Ask::Add(2, 1), Seen::Listed(4), 5),
    (Ask::Told(2, End::Abort), Seen::Nothing, 6),
    (Ask::Entry, Seen::Stores(234), 6),
];

// No store would be left; then nothing is excluded.
const NO_STORES: &[Row] = &[
    (Ask::Bind(1, 0), Seen::Make(1, 2), 2),
    (Ask::Record(1, 1, 1), Seen::Recorded, 3),
    (Ask::Exclude(1, 1, &[2, 3]), Seen::NoStores, 3),
    (Ask::Exclude(1, 1, &[]), Seen::Yes, 3),
    (Ask::Told(1, End::Commit), Seen::Nothing, 4),
    (Ask::Entry, Seen::Stores(23), 4),
];

// The checks of a Confirm come in their order: the grant, the lock.
const REFUSALS: &[Row] = &[
    (Ask::Include(2), Seen::Write, 1),
    (Ask::Exclude(1, 2, &[3]), Seen::Changed(2, 1), 1),
    (Ask::Exclude(1, 1, &[3]), Seen::Held(2, Mode::Write), 1),
    (Ask::Exclude(1, 1, &[4]), Seen::Yes, 1),
];

// What prepares an inclusion, and an exclusion.
const INCLUDED: &[Row] = &[
    (Ask::Include(1), Seen::Write, 1),
    (Ask::Add(1, 1), Seen::Yes, 2),
];

const EXCLUDED: &[Row] = &[
    (Ask::Bind(1, 0), Seen::Make(1, 2), 2),
    (Ask::Record(1, 1, 1), Seen::Recorded, 3),
    (Ask::Exclude(1, 1, &[3]), Seen::Yes, 5),
];

// An inclusion in doubt at a restart, and its commit. The lines are those since the restart.
const INCLUSION_IN_DOUBT: &[Row] = &[
    (Ask::Bind(2, 0), Seen::Held(1, Mode::Write), 1),
    (Ask::Entry, Seen::InDoubt, 1),
    (Ask::Add(1, 1), Seen::Yes, 1),
    (Ask::Told(1, End::Commit), Seen::Nothing, 3),
    (Ask::Entry, Seen::Stores(234), 3),
    (Ask::Bind(2, 0), Seen::Make(1, 2), 5),
];

// An exclusion in doubt at a restart, and its abort.
const EXCLUSION_IN_DOUBT: &[Row] = &[
    (Ask::Bind(2, 0), Seen::Held(1, Mode::Exclude), 1),
    (Ask::Told(1, End::Abort), Seen::Nothing, 3),
    (Ask::Entry, Seen::Stores(23), 3),
    (Ask::Bind(2, 0), Seen::Make(1, 2), 5),
];

// Naming after these, or none where an answer isn't as it was worked out.
fn follow(alloc: Global, site: Site, rows: &[Row]) -> Result<Option<Site>, Fault> {
    let mut site = site;
    for (asked, want, lines) in rows {
        let (next, seen) = answer(alloc, site, *asked)?;
        if seen != *want || next.out.as_slice().len() != *lines {
            return Ok(None);
        }
        site = next;
    }
    Ok(Some(site))
}

// Whether a new naming service answers so.
fn answers(alloc: Global, rows: &[Row]) -> Result<bool, Fault> {
    let site = Site::format(alloc)?;
    Ok(follow(alloc, site, rows)?.is_some())
}

// Whether it answers so, and after a restart so.
fn answers_again(alloc: Global, before: &[Row], after: &[Row]) -> Result<bool, Fault> {
    let site = Site::format(alloc)?;
    let Some(site) = follow(alloc, site, before)? else {
        return Ok(false);
    };
    let site = Site::recover(alloc, site.leave())?;
    Ok(follow(alloc, site, after)?.is_some())
}

#[test]
fn rows(rt: HostRuntime) -> Result<(), Fail> {
    let alloc = rt.alloc();
    let all = [
        BINDINGS,
        HELLOS,
        HELLOS_AT_REST,
        TURNS,
        EXCLUSION,
        INCLUSION,
        NO_STORES,
        REFUSALS,
    ];
    for (i, rows) in all.iter().enumerate() {
        assert!(rt; answers(alloc, rows)?, "rows {i}");
    }
    Ok(())
}

#[test]
fn rows_after_a_restart(rt: HostRuntime) -> Result<(), Fail> {
    let alloc = rt.alloc();
    assert!(rt; answers_again(alloc, INCLUDED, INCLUSION_IN_DOUBT)?);
    assert!(rt; answers_again(alloc, EXCLUDED, EXCLUSION_IN_DOUBT)?);
    Ok(())
}
