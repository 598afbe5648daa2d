// Whether disks are clean.
ghost use Rattle.std.specs.Prelude.{◌≡◌, List, Some, IfOk, MatchBool};
ghost use Rattle.arj_base.specs.State.{state_bytes};
ghost use Rattle.arj_base.specs.Uid.{entry as entry_name};
ghost use Rattle.arj_disk.specs.declared.slot.Role.TheVariants as role;
ghost use Rattle.arj_image.specs.declared.image.NodeFile.{NodeFile};
ghost use Rattle.arj_journal.specs.declared.header.ObjectLine.{ObjectLine as object_type};
ghost use Rattle.arj_changes.specs.Stores.{IsEntry};
ghost use Rattle.arj_last.specs.State.{IsLast};
ghost use Rattle.arj_model.specs.Disks.{held as held_by};
ghost use Rattle.arj_model.specs.Last.{entry_state, object_line};
ghost use Rattle.arj_saved.specs.Saved.{disks_of};
ghost use Rattle.arj_clean.specs.Clean.{AreClean, HoldsLast, IsObjectClean, StoresHoldLast};
ghost use Rattle.arj_clean.specs.Standing.{IsSaved};

use crate::standing::Standing;
use crate::states::{is_entry, is_state};
use arj_base::{entry_uid, object_uid};
use arj_changes::{EntryState, entry_of};
use arj_disk::Role;
use arj_journal::{Header, Line};
use arj_last::{LastState, last_state_of};
use arj_saved::{Kept, held, is_named};
use std::alloc::{AllocError, Global};

/// A journal that can be read as a run, how things stand behind it, and the states in the files.
#[derive(Clone, Copy)]
pub struct Saved<'a> {
    pub header: &'a Header,
    pub lines: &'a [Line],
    pub standing: &'a Standing,
    pub segments: &'a [Kept],
    pub pendings: &'a [Kept],
}

// Whether a store holds the last state of an object, where nothing is in doubt there.
fn is_store_clean(
    alloc: Global,
    saved: &Saved,
    x: u16,
    last: &LastState,
    store: u8,
) -> Result<bool, AllocError>
    ensures { (files : List NodeFile) → IsSaved saved.now.header.now saved.now.lines.now saved.now.standing.now saved.now.segments.now saved.now.pendings.now files → IsLast saved.now.header.now saved.now.lines.now x last.now
        → IfOk result (λ is. MatchBool is (HoldsLast saved.now.header.now saved.now.lines.now (disks_of files) x store) (HoldsLast saved.now.header.now saved.now.lines.now (disks_of files) x store → ⊥)) }
{
    let named = is_named(saved.pendings, store, Role::Store, object_uid(x));
    if named {
        return Ok(true);
    }
    match held(saved.segments, store, Role::Store, object_uid(x)) {
        None => Ok(false),
        Some(state) => is_state(
            alloc,
            state,
            saved.header.format,
            x,
            &last.value,
            last.version,
            last.writer,
        ),
    }
}

// Whether each of these stores does.
fn are_stores_clean(alloc: Global, saved: &Saved, x: u16, stores: &[u8]) -> Result<bool, AllocError>
    ensures { (files : List NodeFile) (o : object_type) → IsSaved saved.now.header.now saved.now.lines.now saved.now.standing.now saved.now.segments.now saved.now.pendings.now files → object_line saved.now.header.now x ≡ Some o
        → IfOk result (λ is. MatchBool is (StoresHoldLast saved.now.header.now saved.now.lines.now (disks_of files) x stores.now) (StoresHoldLast saved.now.header.now saved.now.lines.now (disks_of files) x stores.now → ⊥)) }
{
    let Some(last) = last_state_of(
        alloc,
        saved.header,
        saved.lines,
        &saved.standing.changes,
        &saved.standing.writes,
        x,
    )?
    else {
        return Ok(false);
    };
    for store in stores {
        let clean = is_store_clean(alloc, saved, x, &last, *store)?;
        if !clean {
            return Ok(false);
        }
    }
    Ok(true)
}

// Whether node 1 holds this entry of an object.
fn is_entry_held(saved: &Saved, x: u16, entry: &EntryState) -> bool
    ensures { (files : List NodeFile) → IsSaved saved.now.header.now saved.now.lines.now saved.now.standing.now saved.now.segments.now saved.now.pendings.now files → IsEntry saved.now.header.now saved.now.lines.now x entry.now
        → MatchBool result (held_by (disks_of files 1) role.Names (entry_name x) ≡ Some (state_bytes (entry_state saved.now.header.now saved.now.lines.now x))) (held_by (disks_of files 1) role.Names (entry_name x) ≡ Some (state_bytes (entry_state saved.now.header.now saved.now.lines.now x)) → ⊥) }
{
    match held(saved.segments, 1, Role::Names, entry_uid(x)) {
        None => false,
        Some(state) => is_entry(state, saved.header, x, entry),
    }
}

// Whether the stores of an object that are in doubt nowhere hold its last state, and node 1 its entry.
fn is_object_clean(alloc: Global, saved: &Saved, x: u16) -> Result<bool, AllocError>
    ensures { (files : List NodeFile) (o : object_type) → IsSaved saved.now.header.now saved.now.lines.now saved.now.standing.now saved.now.segments.now saved.now.pendings.now files → object_line saved.now.header.now x ≡ Some o
        → IfOk result (λ is. MatchBool is (IsObjectClean saved.now.header.now saved.now.lines.now (disks_of files) x) (IsObjectClean saved.now.header.now saved.now.lines.now (disks_of files) x → ⊥)) }
{
    let named = is_named(saved.pendings, 1, Role::Names, entry_uid(x));
    if named {
        return Ok(true);
    }
    let entry = entry_of(
        alloc,
        saved.standing.begun.as_slice(),
        &saved.standing.changes,
        saved.header,
        x,
    )?;
    let same = is_entry_held(saved, x, &entry);
    if !same {
        return Ok(false);
    }
    are_stores_clean(alloc, saved, x, entry.stores.as_slice())
}

/// Whether the disks hold the last entries and states, where nothing is in doubt.
pub fn is_clean(alloc: Global, saved: &Saved) -> Result<bool, AllocError>
    ensures { (files : List NodeFile) → IsSaved saved.now.header.now saved.now.lines.now saved.now.standing.now saved.now.segments.now saved.now.pendings.now files
        → IfOk result (λ is. MatchBool is (AreClean saved.now.header.now saved.now.lines.now (disks_of files)) (AreClean saved.now.header.now saved.now.lines.now (disks_of files) → ⊥)) }
{
    for object in saved.header.objects.as_slice() {
        let clean = is_object_clean(alloc, saved, object.x)?;
        if !clean {
            return Ok(false);
        }
    }
    Ok(true)
}
