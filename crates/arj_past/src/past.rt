// Whether the states that nodes hold are states that their objects had.
ghost use Rattle.std.specs.Prelude.{◌≡◌, List, Some, IfOk, IsSomeAnd, MatchBool, map};
ghost use Rattle.std.specs.BTreeMap.{get};
ghost use Rattle.std.specs.List.{AllByRecursion};
ghost use Rattle.std.specs.Ordering.{nat_cmp};
ghost use Rattle.arj_base.specs.State.{StateInForm, state_bytes};
ghost use Rattle.arj_image.specs.declared.image.NodeFile.{NodeFile};
ghost use Rattle.arj_journal.specs.declared.header.ObjectLine.{ObjectLine as object_type};
ghost use Rattle.arj_last.specs.Survivors.{wrote_of};
ghost use Rattle.arj_model.specs.Calls.{Call};
ghost use Rattle.arj_model.specs.Last.{object_line, writes_of};
ghost use Rattle.arj_reading.specs.Readable.{Readable};
ghost use Rattle.arj_replay.specs.Verdict.{HasCall};
ghost use Rattle.arj_saved.specs.Saved.{disks_of};
ghost use Rattle.arj_clean.specs.Standing.{IsSaved};
ghost use Rattle.arj_past.specs.Past.{AreKnown, HoldItsPast, HoldPast, HoldsPast, IsPast};
ghost use Rattle.arj_past.specs.Behind.{IsBehind, EachHoldsPast};

use crate::front::front;
use crate::header::is_of_header;
use arj_base::{ObjectState, object_uid};
use arj_check::{readable_calls_can_be_run, readable_tops_have_own_keys};
use arj_class::Value;
use arj_clean::{Saved, is_state};
use arj_disk::Role;
use arj_journal::{Header, Line};
use arj_last::{LastState, Wrote, count, last_writer, places_of, writes_on};
use arj_replay::values_after;
use arj_saved::held;
use std::alloc::{AllocError, Global};
use std::collections::BTreeMap;

// The value of an object, taken out.
fn take_value(values: &mut BTreeMap<u16, Value>, x: u16) -> Option<Value>
    ensures { result ≡ get nat_cmp values.old x }
{
    values.remove(&x)
}

// The state of an object of the header behind these writes on it, which have their lines: there is one.
fn state_behind(
    alloc: Global,
    header: &Header,
    lines: &[Line],
    x: u16,
    wrotes: &[Wrote],
) -> Result<Option<LastState>, AllocError>
    ensures { (o : object_type) (ws : List Call) → object_line header.now x ≡ Some o → wrotes.now ≡ map wrote_of ws → AllByRecursion (HasCall header.now lines.now) ws
        → IfOk result (λ state. IsSomeAnd state (IsBehind header.now x ws)) }
{
    let places = places_of(alloc, wrotes)?;
    let version = count(alloc, wrotes)?;
    let mut values = values_after(alloc, header, lines, places.as_slice())?;
    let Some(value) = take_value(&mut values, x) else {
        return Ok(None);
    };
    Ok(Some(LastState {
        value,
        version,
        writer: last_writer(wrotes),
    }))
}

// Whether a state is one that an object had, whose writes in serial order these are.
fn is_past(
    alloc: Global,
    saved: &Saved,
    x: u16,
    wrotes: &[Wrote],
    state: &ObjectState,
) -> Result<bool, AllocError>
    ensures { (o : object_type) → Readable saved.now.header.now saved.now.lines.now → object_line saved.now.header.now x ≡ Some o → wrotes.now ≡ map wrote_of (writes_of saved.now.lines.now x) → StateInForm state.now
        → IfOk result (λ is. MatchBool is (IsPast saved.now.header.now saved.now.lines.now x (state_bytes state.now)) (IsPast saved.now.header.now saved.now.lines.now x (state_bytes state.now) → ⊥)) }
{
    readable_calls_can_be_run();
    readable_tops_have_own_keys();
    let Some(behind) = state_behind(
        alloc,
        saved.header,
        saved.lines,
        x,
        front(wrotes, state.version),
    )?
    else {
        return Ok(false);
    };
    is_state(
        alloc,
        state,
        saved.header.format,
        x,
        &behind.value,
        behind.version,
        behind.writer,
    )
}

// Whether what a node holds of an object is a state that it had.
fn does_hold_past(
    alloc: Global,
    saved: &Saved,
    x: u16,
    wrotes: &[Wrote],
    node: u8,
) -> Result<bool, AllocError>
    ensures { (files : List NodeFile) (o : object_type) → IsSaved saved.now.header.now saved.now.lines.now saved.now.standing.now saved.now.segments.now saved.now.pendings.now files → object_line saved.now.header.now x ≡ Some o
        → wrotes.now ≡ map wrote_of (writes_of saved.now.lines.now x)
        → IfOk result (λ is. MatchBool is (HoldsPast saved.now.header.now saved.now.lines.now (disks_of files node) x) (HoldsPast saved.now.header.now saved.now.lines.now (disks_of files node) x → ⊥)) }
{
    match held(saved.segments, node, Role::Store, object_uid(x)) {
        None => Ok(true),
        Some(state) => is_past(alloc, saved, x, wrotes, state),
    }
}

// Whether what nodes hold of an object are.
fn is_object_past(alloc: Global, saved: &Saved, x: u16) -> Result<bool, AllocError>
    ensures { (files : List NodeFile) (o : object_type) → IsSaved saved.now.header.now saved.now.lines.now saved.now.standing.now saved.now.segments.now saved.now.pendings.now files → object_line saved.now.header.now x ≡ Some o
        → IfOk result (λ is. MatchBool is (HoldItsPast saved.now.header.now saved.now.lines.now (disks_of files) x) (HoldItsPast saved.now.header.now saved.now.lines.now (disks_of files) x → ⊥)) }
{
    let wrotes = writes_on(alloc, &saved.standing.changes, &saved.standing.writes, x)?;
    for done in 0..saved.header.nodes {
        let past = does_hold_past(alloc, saved, x, wrotes.as_slice(), done + 1)?;
        if !past {
            return Ok(false);
        }
    }
    Ok(true)
}

// Whether what they hold of each object are.
fn are_past(alloc: Global, saved: &Saved) -> Result<bool, AllocError>
    ensures { (files : List NodeFile) → IsSaved saved.now.header.now saved.now.lines.now saved.now.standing.now saved.now.segments.now saved.now.pendings.now files
        → IfOk result (λ is. MatchBool is (EachHoldsPast saved.now.header.now saved.now.lines.now (disks_of files)) (EachHoldsPast saved.now.header.now saved.now.lines.now (disks_of files) → ⊥)) }
{
    for object in saved.header.objects.as_slice() {
        let past = is_object_past(alloc, saved, object.x)?;
        if !past {
            return Ok(false);
        }
    }
    Ok(true)
}

// Whether the object states that each node holds are of the header's objects.
fn are_known(saved: &Saved) -> bool
    ensures { (files : List NodeFile) → IsSaved saved.now.header.now saved.now.lines.now saved.now.standing.now saved.now.segments.now saved.now.pendings.now files
        → MatchBool result (AreKnown saved.now.header.now (disks_of files)) (AreKnown saved.now.header.now (disks_of files) → ⊥) }
{
    for done in 0..saved.header.nodes {
        let known = is_of_header(
            saved.header.objects.as_slice(),
            saved.segments,
            done + 1,
            Role::Store,
        );
        if !known {
            return false;
        }
    }
    true
}

/// Whether each object state that a node holds is of an object of the header, and one that the object had.
pub fn do_hold_past(alloc: Global, saved: &Saved) -> Result<bool, AllocError>
    ensures { (files : List NodeFile) → IsSaved saved.now.header.now saved.now.lines.now saved.now.standing.now saved.now.segments.now saved.now.pendings.now files
        → IfOk result (λ is. MatchBool is (HoldPast saved.now.header.now saved.now.lines.now (disks_of files)) (HoldPast saved.now.header.now saved.now.lines.now (disks_of files) → ⊥)) }
{
    let known = are_known(saved);
    if !known {
        return Ok(false);
    }
    are_past(alloc, saved)
}
