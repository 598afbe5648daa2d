// States that are found among those of files.
ghost use Rattle.std.specs.Prelude.{◌≡◌, ◌&&◌, ◌==◌, List, map, is_some, IfSome, MatchBool};
ghost use Rattle.std.specs.List.{AllByRecursion, list_any};
ghost use Rattle.std.specs.Option.{option_copied, option_map, option_or};
ghost use Rattle.arj_base.specs.State.{StateInForm, state_bytes};
ghost use Rattle.arj_disk.specs.Says.{new_of, role_eq};
ghost use Rattle.arj_image.specs.declared.image.NodeFile.{NodeFile};
ghost use Rattle.arj_model.specs.Disks.{InDoubt, held as held_by};
ghost use Rattle.arj_store.specs.Pair.{packed};
ghost use Rattle.arj_saved.specs.Saved.{AreKept, disks_of, held_among, pendings_in, rows_of, segments_in, state_in_rows};

use crate::kept::Kept;
use arj_base::{ObjectState, Uid};
use arj_disk::Role;

// Whether a file is this node's and role's.
fn is_of(one: &Kept, node: u8, role: Role) -> bool
    ensures { result ≡ ((one.now.node == node) && role_eq one.now.role role) }
{
    one.node == node && one.role == role
}

// The state of a Uid.
fn state_of(states: &[ObjectState], uid: Uid) -> Option<&ObjectState>
    ensures shown { option_map (λ s. state_bytes s) (option_copied result) ≡ new_of (packed states.now) uid }
    ensures in_form { AllByRecursion StateInForm states.now → IfSome (option_copied result) StateInForm }
{
    for state in states {
        if uid == state.uid {
            return Some(state);
        }
    }
    None
}

// The state of a Uid in a file, where the file is this node's and role's.
fn state_in<'a>(one: &'a Kept, node: u8, role: Role, uid: Uid) -> Option<&'a ObjectState>
    ensures shown { option_map (λ s. state_bytes s) (option_copied result) ≡ state_in_rows node role uid (rows_of one.now) }
    ensures in_form { AllByRecursion StateInForm one.now.states → IfSome (option_copied result) StateInForm }
{
    if !is_of(one, node, role) {
        return None;
    }
    state_of(one.states.as_slice(), uid)
}

// The new one, else the old one.
fn newer<'a>(
    later: Option<&'a ObjectState>,
    earlier: Option<&'a ObjectState>,
) -> Option<&'a ObjectState>
    ensures { option_copied result ≡ option_or (option_copied later.entry) (option_copied earlier.entry) }
{
    match later {
        Some(state) => Some(state),
        None => earlier,
    }
}

// The state of a Uid in the last of these files that is the node's and role's and has one.
fn last_state<'a>(segments: &'a [Kept], node: u8, role: Role, uid: Uid) -> Option<&'a ObjectState>
    ensures shown { option_map (λ s. state_bytes s) (option_copied result) ≡ held_among (map rows_of segments.now) node role uid }
    ensures in_form { AllByRecursion (λ k. AllByRecursion StateInForm k.states) segments.now → IfSome (option_copied result) StateInForm }
{
    let mut found: Option<&ObjectState> = None;
    for one in segments {
        found = newer(state_in(one, node, role, uid), found);
    }
    found
}

/// The committed state of a Uid on a node: that in the last of the node's and role's segments that has one.
pub fn held<'a>(segments: &'a [Kept], node: u8, role: Role, uid: Uid) -> Option<&'a ObjectState>
    ensures shown { (files : List NodeFile) → AreKept (segments_in files) segments.now → option_map (λ s. state_bytes s) (option_copied result) ≡ held_by (disks_of files node) role uid }
    ensures in_form { (files : List NodeFile) → AreKept (segments_in files) segments.now → IfSome (option_copied result) StateInForm }
{
    last_state(segments, node, role, uid)
}

// Whether a file names a Uid.
fn names(one: &Kept, node: u8, role: Role, uid: Uid) -> bool
    ensures { result ≡ is_some (state_in_rows node role uid (rows_of one.now)) }
{
    match state_in(one, node, role, uid) {
        None => false,
        Some(_state) => true,
    }
}

// Whether one of these files names a Uid.
fn do_name(files: &[Kept], node: u8, role: Role, uid: Uid) -> bool
    ensures { result ≡ list_any (λ r. is_some (state_in_rows node role uid r)) (map rows_of files.now) }
{
    for one in files {
        if names(one, node, role, uid) {
            return true;
        }
    }
    false
}

/// Whether what is prepared on a node names a Uid.
pub fn is_named(pendings: &[Kept], node: u8, role: Role, uid: Uid) -> bool
    ensures { (files : List NodeFile) → AreKept (pendings_in files) pendings.now → MatchBool result (InDoubt (disks_of files node) role uid) (InDoubt (disks_of files node) role uid → ⊥) }
{
    do_name(pendings, node, role, uid)
}
