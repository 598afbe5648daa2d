// Which disk calls naming makes, in order.
use crate::site::{Fault, Left, Site};
use crate::steps::{Ask, answer};
use crate::stops::{Ending, INCLUDES, PREPARED as ADDED, reach, stopped};
use arj_base::{End, Uid};
use arj_disk::{Role, Slot};
use arj_part_tests::Did;
use std::alloc::Global;
use std::test::Fail;

const TOP: Uid = Uid {
    node: 2,
    inc: 1,
    num: 1,
};

const ONE: Uid = Uid {
    node: 0,
    inc: 1,
    num: 1,
};

const TWO: Uid = Uid {
    node: 0,
    inc: 1,
    num: 2,
};

const PREPARED: Slot = Slot::Prepared(Role::Names, TOP);

const FORMAT: &[Did] = &[
    Did::Write(Slot::Tmp),
    Did::Rename(Slot::Tmp, Slot::Committed(ONE)),
    Did::Write(Slot::Tmp),
    Did::Rename(Slot::Tmp, Slot::Committed(TWO)),
];

const CONFIRM: &[Did] = &[
    Did::Read(Slot::Committed(ONE)),
    Did::Write(Slot::Tmp),
    Did::Rename(Slot::Tmp, Slot::Shadow(ONE)),
    Did::Write(Slot::Tmp),
    Did::Rename(Slot::Tmp, PREPARED),
];

const COMMIT: &[Did] = &[
    Did::Rename(Slot::Shadow(ONE), Slot::Committed(ONE)),
    Did::Remove(PREPARED),
];

const ABORT: &[Did] = &[Did::Remove(PREPARED), Did::Remove(Slot::Shadow(ONE))];

// A restart with an entry in doubt.
const RECOVER: &[Did] = &[
    Did::Names,
    Did::Read(PREPARED),
    Did::Read(Slot::Shadow(ONE)),
    Did::Read(Slot::Committed(ONE)),
    Did::Read(Slot::Committed(TWO)),
];

// A restart with a shadow that no prepared action names.
const RECOVER_SHADOW: &[Did] = &[
    Did::Names,
    Did::Remove(Slot::Shadow(ONE)),
    Did::Read(Slot::Committed(ONE)),
    Did::Read(Slot::Committed(TWO)),
];

fn is_same(calls: &[Did], want: &[Did]) -> bool {
    calls == want
}

// The disk's calls of the last of these.
fn makes(alloc: Global, before: &[Ask], last: Ask, want: &[Did]) -> Result<bool, Fault> {
    let site = reach(alloc, before)?.clear();
    let (site, _) = answer(alloc, site, last)?;
    Ok(is_same(site.disk.calls.as_slice(), want))
}

#[test]
fn calls_of_format(rt: HostRuntime) -> Result<(), Fail> {
    let site = Site::format(rt.alloc())?;
    assert!(rt; is_same(site.disk.calls.as_slice(), FORMAT));
    Ok(())
}

#[test]
fn calls_of_confirm_and_told(rt: HostRuntime) -> Result<(), Fail> {
    let alloc = rt.alloc();
    assert!(rt; makes(alloc, INCLUDES, Ask::Add(1, 1), CONFIRM)?);
    assert!(rt; makes(alloc, ADDED, Ask::Told(1, End::Commit), COMMIT)?);
    assert!(rt; makes(alloc, ADDED, Ask::Told(1, End::Abort), ABORT)?);
    assert!(rt; makes(alloc, ADDED, Ask::Bind(2, 0), &[])?);
    Ok(())
}

// The calls of a restart on what is left.
fn recovers(alloc: Global, left: Left, want: &[Did]) -> Result<bool, Fault> {
    let site = Site::recover(alloc, left)?;
    Ok(is_same(site.disk.calls.as_slice(), want))
}

#[test]
fn calls_of_recover(rt: HostRuntime) -> Result<(), Fail> {
    let alloc = rt.alloc();
    let site = reach(alloc, ADDED)?;
    assert!(rt; recovers(alloc, site.leave(), RECOVER)?);
    let left = stopped(alloc, INCLUDES, Ask::Add(1, 1), 4, Ending::Undone)?;
    let left = left.ok_or(Fault::Stopped)?;
    assert!(rt; recovers(alloc, left, RECOVER_SHADOW)?);
    Ok(())
}
