// Disks in memory, and `put` over one that stops.
ghost use Rattle.std.specs.Prelude.{◌≢◌, IsErrOf, ◌≡◌, ◌-◌, ◌≤◌, length, slice_set, IfOk, OnOk, Some, [], ◌∷◌, Contains};
ghost use Rattle.arj_base.specs.declared.uid.Uid.{Uid};
ghost use Rattle.arj_disk.specs.Formed.{AtMost};
ghost use Rattle.arj_disk.specs.Says.{SameOfRole};
ghost use Rattle.arj_disk.specs.declared.slot.Role.{Role};
ghost use Rattle.std.specs.Ordering.{is_lt};
ghost use Rattle.arj_disk.specs.Armed.{armed};
ghost use Rattle.arj_disk.specs.Slot.{slot_order};

use arj_base::{Bytes, Uid, entry_uid, object_uid};
use arj_disk::{
    Disk, DiskFault, MemDisk, Outcome, Rack, Role, Slot, SureDisk, among_so_many, orders, put,
    roles_apart,
};
use std::alloc::{AllocError, Global};
use std::test::Fail;

// Whether a file is there and has these bytes.
fn has<D: Disk>(alloc: Global, disk: &mut D, slot: Slot, bytes: &[u8]) -> Result<bool, DiskFault> {
    match disk.read(alloc, slot)? {
        Some(found) => Ok(found.as_slice() == bytes),
        None => Ok(false),
    }
}

// Whether these are the names, in this order.
fn has_names<D: Disk>(alloc: Global, disk: &mut D, slots: &[Slot]) -> Result<bool, DiskFault> {
    Ok(disk.names(alloc)?.as_slice() == slots)
}

// Writes these files, the last first.
fn write_each<D: Disk>(disk: &mut D, slots: &[Slot]) -> Result<(), DiskFault> {
    for slot in slots.iter().rev() {
        disk.write(*slot, b"old".as_slice())?;
    }
    Ok(())
}

// A removal at one node is known in the rack: its disk lacks the file, and every other disk is as it was.
fn remove_at<D: Disk>(rack: &mut Rack<D>, node: u8, slot: Slot) -> Result<(), DiskFault>
    requires least { 1 ≤ node }
    requires greatest { node ≤ 16 }
    ensures { (d : D) × (rack.new ≡ slice_set rack.old (node - 1) d) × OnOk result (D.file d slot ≡ None) }
{
    rack.disk(node).remove(slot)
}

// A disk whose count of stops can't rise never stops.
fn put_surely(disk: &mut SureDisk, slot: Slot, bytes: &[u8]) -> Result<(), DiskFault>
    requires { slot ≢ Slot.Tmp }
    ensures { IsErrOf result DiskFault.Stopped → ⊥ }
{
    put(disk, slot, bytes)
}

// The order of names that the definitions state decides a comparison in code.
fn comes_first(p: Slot, q: Slot) -> bool
    ensures { result ≡ is_lt (slot_order p q) }
{
    orders();
    p < q
}

// Removing a naming entry leaves the store's files.
fn remove_entry<D: Disk>(disk: &mut D, x: u16) -> Result<(), DiskFault>
    ensures { SameOfRole Role.Store (D.file disk.old) (D.file disk.new) }
{
    roles_apart();
    disk.remove(Slot::Committed(entry_uid(x)))
}

// Of two objects there are at most two.
fn few_known(one: Uid, two: Uid)
    ensures { AtMost 2 (Contains (one ∷ two ∷ [])) }
{
    among_so_many();
}

// A disk that is made for an arm has no other.
fn new_armed(alloc: Global, outcome: Outcome) -> MemDisk
    ensures arms { ⟦<MemDisk as Disk>⟧.arms result ≡ 1 }
    ensures stops { ⟦<MemDisk as Disk>⟧.stops result ≡ 0 }
    ensures armed { armed result ≡ Some (1, outcome) }
{
    let mut disk = MemDisk::new(alloc);
    disk.arm(1, outcome);
    disk
}

// Whether a call was done, or else stopped.
fn was_done(ended: Result<(), DiskFault>) -> Result<bool, AllocError> {
    match ended {
        Ok(()) => Ok(true),
        Err(DiskFault::Stopped) => Ok(false),
        Err(DiskFault::Memory) => Err(AllocError),
    }
}

fn sixteen(alloc: Global) -> Result<Vec<MemDisk>, AllocError>
    ensures { IfOk result (λ disks. length disks.items ≡ 16) }
{
    let mut disks = Vec::new(alloc);
    for _ in 0..16u8 {
        disks.push(MemDisk::new(alloc))?;
    }
    Ok(disks)
}

const ACTION: Uid = Uid {
    node: 3,
    inc: 2,
    num: 1,
};

const ONE: Uid = Uid {
    node: 0,
    inc: 0,
    num: 1,
};

const TWO: Uid = Uid {
    node: 0,
    inc: 0,
    num: 2,
};

// Names in their order, and those that are left once a new state of object 1 has taken the place of the old one.
const SLOTS: &[Slot] = &[
    Slot::Incarnation,
    Slot::Committed(ONE),
    Slot::Committed(TWO),
    Slot::Shadow(ONE),
    Slot::Prepared(Role::Store, ACTION),
    Slot::Prepared(Role::Names, ACTION),
    Slot::Intent(ACTION),
];

const LEFT: &[Slot] = &[
    Slot::Incarnation,
    Slot::Committed(ONE),
    Slot::Committed(TWO),
    Slot::Prepared(Role::Names, ACTION),
    Slot::Intent(ACTION),
];

fn are_in_order(slots: &[Slot]) -> bool {
    for pair in slots.windows(2) {
        if !comes_first(pair[0], pair[1]) {
            return false;
        }
    }
    true
}

// The disk with these files, and one removed that isn't there.
fn begin(alloc: Global, slots: &[Slot]) -> Result<MemDisk, DiskFault> {
    let mut disk = MemDisk::new(alloc);
    write_each(&mut disk, slots)?;
    remove_entry(&mut disk, 1)?;
    Ok(disk)
}

// A new state of object 1 takes the place of the old one, and two files are removed, of which one isn't there.
fn go_on<D: Disk>(disk: &mut D) -> Result<(), DiskFault> {
    disk.write(Slot::Shadow(ONE), b"new".as_slice())?;
    disk.rename(Slot::Shadow(ONE), Slot::Committed(ONE))?;
    disk.remove(Slot::Prepared(Role::Store, ACTION))?;
    disk.remove(Slot::Tmp)
}

// Whether the disk goes on so.
fn goes_on(alloc: Global, disk: &mut MemDisk) -> Result<bool, DiskFault> {
    go_on(disk)?;
    if !has(alloc, disk, Slot::Committed(ONE), b"new".as_slice())? {
        return Ok(false);
    }
    if !has(alloc, disk, Slot::Committed(TWO), b"old".as_slice())? {
        return Ok(false);
    }
    has_names(alloc, disk, LEFT)
}

// Whether it has its names, and goes on so.
fn begins_and_goes_on(alloc: Global) -> Result<bool, DiskFault> {
    let mut disk = begin(alloc, SLOTS)?;
    if !has_names(alloc, &mut disk, SLOTS)? {
        return Ok(false);
    }
    goes_on(alloc, &mut disk)
}

#[test]
fn calls_in_a_row(rt: HostRuntime) -> Result<(), Fail> {
    few_known(ONE, TWO);
    assert!(rt; are_in_order(SLOTS));
    assert!(rt; begins_and_goes_on(rt.alloc())?);
    Ok(())
}

// An outcome by its number, of a write torn to `xy`.
fn outcome(alloc: Global, kind: u8) -> Result<Outcome, AllocError> {
    let mut torn = Bytes::new(alloc);
    torn.extend(b"xy")?;
    match kind {
        0 => Ok(Outcome::Undone),
        1 => Ok(Outcome::Done),
        _ => Ok(Outcome::Torn(torn)),
    }
}

// A disk with the old file of object 1, and an arm that names a call that many behind it.
fn armed_disk(alloc: Global, calls: u32, kind: u8) -> Result<MemDisk, DiskFault>
    requires { 1 ≤ calls }
{
    let outcome = outcome(alloc, kind)?;
    let mut disk = MemDisk::new(alloc);
    disk.write(Slot::Committed(ONE), b"old".as_slice())?;
    disk.arm(calls, outcome);
    Ok(disk)
}

// Whether a put is done as it should be. The arm of the third call still waits, for a call behind it.
fn puts(disk: &mut MemDisk, should: bool) -> Result<bool, AllocError> {
    let done = was_done(put(disk, Slot::Committed(ONE), b"new".as_slice()))?;
    if done != should {
        return Ok(false);
    }
    Ok(!done || !was_done(disk.remove(Slot::Committed(ONE)))?)
}

// Whether these two files are left; Tmp isn't there where it should have no bytes.
fn has_left<D: Disk>(
    alloc: Global,
    disk: &mut D,
    want: &[u8],
    tmp: &[u8],
) -> Result<bool, DiskFault> {
    if has(alloc, disk, Slot::Tmp, tmp)? == tmp.is_empty() {
        return Ok(false);
    }
    has(alloc, disk, Slot::Committed(ONE), want)
}

// The call that the arm names, counted from it, its outcome, and the two files after a put: a write and a rename.
type Armed = (u32, u8, &'static [u8], &'static [u8]);

const ARMED: &[Armed] = &[
    (1, 0, b"old", b""),
    (1, 1, b"old", b"new"),
    (1, 2, b"old", b"xy"),
    (2, 0, b"old", b"new"),
    (2, 1, b"new", b""),
    (2, 2, b"old", b"new"),
    (3, 0, b"new", b""),
];

// Whether a put over this disk is done as it should be, and leaves these files.
fn puts_and_leaves(alloc: Global, disk: &mut MemDisk, row: &Armed) -> Result<bool, DiskFault> {
    if !puts(disk, row.0 == 3)? {
        return Ok(false);
    }
    has_left(alloc, disk, row.2, row.3)
}

fn is_put_so(alloc: Global, row: &Armed) -> Result<bool, DiskFault> {
    let mut disk = armed_disk(alloc, row.0.max(1), row.1)?;
    puts_and_leaves(alloc, &mut disk, row)
}

#[test]
fn a_put_is_done_or_not(rt: HostRuntime) -> Result<(), Fail> {
    for row in ARMED {
        assert!(rt; is_put_so(rt.alloc(), row)?);
    }
    Ok(())
}

// Gives three nodes of a rack their files, and takes one again.
fn put_in(rack: &mut Rack<MemDisk>) -> Result<(), DiskFault> {
    for node in [1u8, 2, 16] {
        put(rack.disk(node), Slot::Incarnation, [node].as_slice())?;
    }
    remove_at(rack, 2, Slot::Incarnation)
}

// Whether each of these nodes has its file as it should.
fn has_where(alloc: Global, rack: &mut Rack<MemDisk>) -> Result<bool, DiskFault> {
    for (node, want) in [(1u8, true), (2, false), (3, false), (16, true)] {
        if has(alloc, rack.disk(node), Slot::Incarnation, [node].as_slice())? != want {
            return Ok(false);
        }
    }
    Ok(true)
}

fn a_rack_has_its_files(alloc: Global) -> Result<bool, DiskFault> {
    let mut rack = Rack::new(sixteen(alloc)?);
    put_in(&mut rack)?;
    has_where(alloc, &mut rack)
}

#[test]
fn one_disk_of_a_rack(rt: HostRuntime) -> Result<(), Fail> {
    assert!(rt; a_rack_has_its_files(rt.alloc())?);
    Ok(())
}

fn a_new_disk_is_done(alloc: Global) -> Result<bool, AllocError> {
    let mut disk = new_armed(alloc, Outcome::Undone);
    was_done(put(&mut disk, Slot::Incarnation, b"1".as_slice()))
}

#[test]
fn an_armed_disk_stops(rt: HostRuntime) -> Result<(), Fail> {
    assert!(rt; !a_new_disk_is_done(rt.alloc())?);
    Ok(())
}

// Calls of a disk that never stops.
fn call_surely(disk: &mut SureDisk) -> Result<(), DiskFault> {
    put(disk, Slot::Incarnation, b"1".as_slice())?;
    disk.rename(Slot::Incarnation, Slot::Incarnation)?;
    put_surely(disk, Slot::Intent(object_uid(1)), b"2".as_slice())?;
    disk.remove(Slot::Intent(object_uid(1)))
}

// Whether such a disk has what was put, and no more.
fn calls_are_done(alloc: Global, disk: &mut SureDisk) -> Result<bool, DiskFault> {
    call_surely(disk)?;
    if !has(alloc, disk, Slot::Incarnation, b"1".as_slice())? {
        return Ok(false);
    }
    has_names(alloc, disk, [Slot::Incarnation].as_slice())
}

fn armed_calls_are_done(alloc: Global) -> Result<bool, DiskFault> {
    let mut disk = SureDisk::new(alloc);
    disk.arm(1, Outcome::Undone);
    calls_are_done(alloc, &mut disk)
}

#[test]
fn a_sure_disk_does_not_stop(rt: HostRuntime) -> Result<(), Fail> {
    assert!(rt; armed_calls_are_done(rt.alloc())?);
    Ok(())
}
