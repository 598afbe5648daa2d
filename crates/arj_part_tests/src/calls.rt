// The calls of a disk as lines.
use crate::Did;
use arj_base::{Bytes, Uid};
use arj_disk::{Role, Slot};
use std::alloc::AllocError;

// A file of a Uid.
fn put_of(text: &mut Bytes, word: &[u8], uid: Uid) -> Result<(), AllocError> {
    text.extend(word)?;
    text.extend_decimal(u64::from(uid.node))?;
    text.extend(b".")?;
    text.extend_decimal(u64::from(uid.inc))?;
    text.extend(b".")?;
    text.extend_decimal(uid.num)
}

// A file of a number.
fn put_number(text: &mut Bytes, word: &[u8], number: u64) -> Result<(), AllocError> {
    text.extend(word)?;
    text.extend_decimal(number)
}

// The name of a slot.
fn put_slot(text: &mut Bytes, slot: Slot) -> Result<(), AllocError> {
    match slot {
        Slot::Incarnation => text.extend(b" incarnation"),
        Slot::Tmp => text.extend(b" tmp"),
        Slot::Committed(uid) => put_of(text, b" committed ", uid),
        Slot::Shadow(uid) => put_of(text, b" shadow ", uid),
        Slot::Prepared(Role::Store, uid) => put_of(text, b" prepared store ", uid),
        Slot::Prepared(Role::Names, uid) => put_of(text, b" prepared names ", uid),
        Slot::Intent(uid) => put_of(text, b" intent ", uid),
        Slot::Pending(Role::Store, uid) => put_of(text, b" pending store ", uid),
        Slot::Pending(Role::Names, uid) => put_of(text, b" pending names ", uid),
        Slot::Segment(Role::Store, number) => put_number(text, b" segment store ", number),
        Slot::Segment(Role::Names, number) => put_number(text, b" segment names ", number),
    }
}

// A call on one slot: its word and the slot's name.
fn put_on(text: &mut Bytes, word: &[u8], slot: Slot) -> Result<(), AllocError> {
    text.extend(word)?;
    put_slot(text, slot)
}

// A call of the disk.
fn put_did(text: &mut Bytes, did: Did) -> Result<(), AllocError> {
    match did {
        Did::Read(slot) => put_on(text, b" disk read", slot),
        Did::Write(slot) => put_on(text, b" disk write", slot),
        Did::Rename(from, to) => {
            put_on(text, b" disk rename", from)?;
            put_slot(text, to)
        }
        Did::Remove(slot) => put_on(text, b" disk remove", slot),
        Did::Names => text.extend(b" disk names"),
    }
}

/// Puts the calls of a disk, each as a line that begins with this number.
pub fn put_calls(text: &mut Bytes, number: u32, calls: &[Did]) -> Result<(), AllocError> {
    for did in calls {
        text.extend_decimal(u64::from(number))?;
        put_did(text, *did)?;
        text.extend(b"\n")?;
    }
    Ok(())
}
