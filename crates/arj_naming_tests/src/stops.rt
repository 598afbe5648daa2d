// What a stop at each disk call leaves.
use crate::site::{Fault, Left, Site, Went};
use crate::steps::{Ask, Seen, answer, handle};
use arj_base::{Bytes, End};
use arj_disk::Outcome;
use std::alloc::{AllocError, Global};
use std::test::Fail;

/// How a stopped call ends.
#[derive(Clone, Copy, Debug, PartialEq, Eq)]
pub enum Ending {
    Undone,
    Done,
    Torn,
}

fn outcome(alloc: Global, ending: Ending) -> Result<Outcome, AllocError> {
    match ending {
        Ending::Undone => Ok(Outcome::Undone),
        Ending::Done => Ok(Outcome::Done),
        Ending::Torn => {
            let mut torn = Bytes::new(alloc);
            torn.push(7)?;
            Ok(Outcome::Torn(torn))
        }
    }
}

/// A new naming service after these.
pub fn reach(alloc: Global, steps: &[Ask]) -> Result<Site, Fault> {
    let mut site = Site::format(alloc)?;
    for asked in steps {
        let (next, _) = answer(alloc, site, *asked)?;
        site = next;
    }
    Ok(site)
}

/// What is left where the last of these is stopped at a disk call. None where it isn't.
pub fn stopped(
    alloc: Global,
    before: &[Ask],
    last: Ask,
    calls: u32,
    ending: Ending,
) -> Result<Option<Left>, Fault> {
    let site = reach(alloc, before)?;
    let Some(site) = site.arm(calls, outcome(alloc, ending)?) else {
        return Ok(None);
    };
    match handle(alloc, site, last)? {
        Went::Answered(_, _) => Ok(None),
        Went::Stopped(left) => Ok(Some(left)),
    }
}

// The stores of object 1 once the top's end is told after such a stop and a restart.
fn stores_after(
    alloc: Global,
    before: &[Ask],
    last: Ask,
    calls: u32,
    ending: Ending,
    end: End,
) -> Result<Option<Seen>, Fault> {
    let Some(left) = stopped(alloc, before, last, calls, ending)? else {
        return Ok(None);
    };
    let site = Site::recover(alloc, left)?;
    let (site, _) = answer(alloc, site, Ask::Told(1, end))?;
    let (site, seen) = answer(alloc, site, Ask::Entry)?;
    if !site.naming.is_clear() {
        return Ok(None);
    }
    Ok(Some(seen))
}

const ENDINGS: [Ending; 3] = [Ending::Undone, Ending::Done, Ending::Torn];

/// What stands before the Confirm of an inclusion, and with it.
pub const INCLUDES: &[Ask] = &[Ask::Include(1)];

pub const PREPARED: &[Ask] = &[Ask::Include(1), Ask::Add(1, 1)];

// A commit finds the new entry where the last of the five calls of the Confirm was done, and nothing else.
#[test]
fn stops_of_confirm(rt: HostRuntime) -> Result<(), Fail> {
    let alloc = rt.alloc();
    let last = Ask::Add(1, 1);
    for calls in 1..=5u32 {
        for ending in ENDINGS {
            let stores = if calls == 5 && ending == Ending::Done {
                234
            } else {
                23
            };
            let seen = stores_after(alloc, INCLUDES, last, calls, ending, End::Commit)?;
            assert_eq!(rt; seen, Some(Seen::Stores(stores)), "at {calls}");
        }
    }
    assert!(rt; stopped(alloc, INCLUDES, last, 6, Ending::Undone)?.is_none());
    Ok(())
}

// The end that was told stays what it was, wherever its two calls were stopped.
fn ends_so(alloc: Global, end: End, want: u64) -> Result<bool, Fault> {
    let last = Ask::Told(1, end);
    for calls in 1..=2u32 {
        for ending in ENDINGS {
            let seen = stores_after(alloc, PREPARED, last, calls, ending, end)?;
            if seen != Some(Seen::Stores(want)) {
                return Ok(false);
            }
        }
    }
    Ok(stopped(alloc, PREPARED, last, 3, Ending::Undone)?.is_none())
}

#[test]
fn stops_of_told(rt: HostRuntime) -> Result<(), Fail> {
    let alloc = rt.alloc();
    assert!(rt; ends_so(alloc, End::Commit, 234)?);
    assert!(rt; ends_so(alloc, End::Abort, 23)?);
    Ok(())
}
