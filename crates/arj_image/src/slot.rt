// The names of files, read and written. Each reader tells exactly what has this text.
ghost use Rattle.std.specs.Prelude.{◌≡◌, ◌++◌, ◌∷◌, [], IfOk, MatchOption, OnOk, codes};
ghost use Rattle.std.specs.Fmt.{decimal};
ghost use Rattle.arj_base.specs.Uid.{UidFits, uid_text};
ghost use Rattle.arj_text.specs.Fields.{IsRead, NumberInForm, behind};
ghost use Rattle.arj_image.specs.Known.{IsBareSlot, IsOwnedSlot, IsUidSlot, IsOwned, HasNoRole};
ghost use Rattle.arj_image.specs.Texts.{SlotInForm, owned_text, role_text, slot_text};

use arj_base::{Bytes, Uid};
use arj_disk::{Role, Slot};
use arj_journal_reader::read_uid;
use arj_text::field::{after, is_text, number};
use arj_text::words::put_decimal;
use std::alloc::{AllocError, Global};

/// The name of a file.
pub fn slot(alloc: Global, bytes: &[u8]) -> Result<Option<Slot>, AllocError>
    ensures { IfOk result (λ found. IsRead SlotInForm slot_text bytes.now found) }
{
    if let Some(slot) = bare_slot(bytes) {
        return Ok(Some(slot));
    }
    if let Some(slot) = uid_slot(alloc, bytes)? {
        return Ok(Some(slot));
    }
    owned_slot(alloc, bytes)
}

// A name of one word.
fn bare_slot(bytes: &[u8]) -> Option<Slot>
    ensures { IsRead IsBareSlot slot_text bytes.now result }
{
    if is_text(bytes, b"inc") {
        return Some(Slot::Incarnation);
    }
    if is_text(bytes, b"tmp") {
        return Some(Slot::Tmp);
    }
    None
}

// A name with a Uid alone.
fn uid_slot(alloc: Global, bytes: &[u8]) -> Result<Option<Slot>, AllocError>
    ensures { IfOk result (λ found. IsRead IsUidSlot slot_text bytes.now found) }
{
    if let Some(uid) = uid_behind(alloc, b"committed ", bytes)? {
        return Ok(Some(Slot::Committed(uid)));
    }
    if let Some(uid) = uid_behind(alloc, b"shadow ", bytes)? {
        return Ok(Some(Slot::Shadow(uid)));
    }
    if let Some(uid) = uid_behind(alloc, b"intent ", bytes)? {
        return Ok(Some(Slot::Intent(uid)));
    }
    Ok(None)
}

// A name that says whose the file is.
fn owned_slot(alloc: Global, bytes: &[u8]) -> Result<Option<Slot>, AllocError>
    ensures { IfOk result (λ found. IsRead IsOwnedSlot slot_text bytes.now found) }
{
    if let Some((role, uid)) = owned_behind(alloc, b"prepared ", bytes)? {
        return Ok(Some(Slot::Prepared(role, uid)));
    }
    if let Some((role, uid)) = owned_behind(alloc, b"pending ", bytes)? {
        return Ok(Some(Slot::Pending(role, uid)));
    }
    if let Some((role, number)) = segment(alloc, bytes)? {
        return Ok(Some(Slot::Segment(role, number)));
    }
    Ok(None)
}

// A Uid behind a front.
fn uid_behind(alloc: Global, front: &[u8], bytes: &[u8]) -> Result<Option<Uid>, AllocError>
    ensures { IfOk result (λ found. IsRead UidFits (behind front.now uid_text) bytes.now found) }
{
    match after(bytes, front) {
        Some(text) => read_uid(alloc, text),
        None => Ok(None),
    }
}

// A role and a Uid behind a front.
fn owned_behind(
    alloc: Global,
    front: &[u8],
    bytes: &[u8],
) -> Result<Option<(Role, Uid)>, AllocError>
    ensures { IfOk result (λ found. IsRead (IsOwned UidFits) (behind front.now (owned_text uid_text)) bytes.now found) }
{
    let Some(owned) = after(bytes, front) else {
        return Ok(None);
    };
    let Some((role, text)) = role_first(owned) else {
        return Ok(None);
    };
    match read_uid(alloc, text)? {
        Some(uid) => Ok(Some((role, uid))),
        None => Ok(None),
    }
}

// A role and a number behind `segment`.
fn segment(alloc: Global, bytes: &[u8]) -> Result<Option<(Role, u64)>, AllocError>
    ensures { IfOk result (λ found. IsRead (IsOwned NumberInForm) (behind (codes "segment ") (owned_text decimal)) bytes.now found) }
{
    let Some(owned) = after(bytes, b"segment ") else {
        return Ok(None);
    };
    let Some((role, digits)) = role_first(owned) else {
        return Ok(None);
    };
    match number(alloc, digits, 0, u64::MAX)? {
        Some(number) => Ok(Some((role, number))),
        None => Ok(None),
    }
}

// A role before a space, and what stands behind that.
fn role_first(bytes: &[u8]) -> Option<(Role, &[u8])>
    ensures { MatchOption result (HasNoRole bytes.now)
        (λ p. (bytes.now ≡ owned_text (λ rest. rest) (p.0, p.1.now))) }
{
    if let Some(rest) = after(bytes, b"store ") {
        return Some((Role::Store, rest));
    }
    match after(bytes, b"names ") {
        Some(rest) => Some((Role::Names, rest)),
        None => None,
    }
}

/// Puts the name of a file at the end.
#[tactic(auto, using(std::proofs::lemmas::List::append_assoc))]
pub fn put_slot(alloc: Global, out: &mut Bytes, slot: Slot) -> Result<(), AllocError>
    ensures { OnOk result (out.new ≡ out.old ++ slot_text slot) }
{
    match slot {
        Slot::Incarnation => out.extend(b"inc"),
        Slot::Tmp => out.extend(b"tmp"),
        Slot::Committed(uid) => put_uid(alloc, out, b"committed ", uid),
        Slot::Shadow(uid) => put_uid(alloc, out, b"shadow ", uid),
        Slot::Prepared(role, uid) => put_owned(alloc, out, b"prepared ", role, uid),
        Slot::Intent(uid) => put_uid(alloc, out, b"intent ", uid),
        Slot::Pending(role, uid) => put_owned(alloc, out, b"pending ", role, uid),
        Slot::Segment(role, number) => {
            put_role(out, b"segment ", role)?;
            put_decimal(out, number)
        }
    }
}

// A front and a Uid.
#[tactic(auto, using(std::proofs::lemmas::List::append_assoc))]
fn put_uid(alloc: Global, out: &mut Bytes, front: &[u8], uid: Uid) -> Result<(), AllocError>
    ensures { OnOk result (out.new ≡ out.old ++ (front.now ++ uid_text uid)) }
{
    let text = uid.text(alloc)?;
    out.extend(front)?;
    out.extend(text.as_slice())
}

// A front and a role, with a space behind it.
#[tactic(auto, using(std::proofs::lemmas::List::append_assoc))]
fn put_role(out: &mut Bytes, front: &[u8], role: Role) -> Result<(), AllocError>
    ensures { OnOk result (out.new ≡ out.old ++ (front.now ++ (role_text role ++ 32 ∷ []))) }
{
    out.extend(front)?;
    match role {
        Role::Store => out.extend(b"store "),
        Role::Names => out.extend(b"names "),
    }
}

// A front, a role and a Uid.
#[tactic(auto, using(std::proofs::lemmas::List::append_assoc))]
fn put_owned(
    alloc: Global,
    out: &mut Bytes,
    front: &[u8],
    role: Role,
    uid: Uid,
) -> Result<(), AllocError>
    ensures { OnOk result (out.new ≡ out.old ++ (front.now ++ owned_text uid_text (role, uid))) }
{
    put_role(out, front, role)?;
    put_uid(alloc, out, b"", uid)
}
