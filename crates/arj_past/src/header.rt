// Whether what is held is of the header's objects.
ghost use Rattle.std.specs.Prelude.{◌≡◌, ◌&&◌, ◌==◌, List, MatchBool};
ghost use Rattle.std.specs.List.{list_all};
ghost use Rattle.arj_disk.specs.Says.{role_eq};
ghost use Rattle.arj_image.specs.declared.image.NodeFile.{NodeFile};
ghost use Rattle.arj_saved.specs.Saved.{AreKept, disks_of, segments_in};
ghost use Rattle.arj_past.specs.Past.{IsOfHeader, has_name, uid_in};
ghost use Rattle.arj_past.specs.Rows.{row_fits, states_fit};

use arj_base::{ObjectState, Uid, entry_uid, object_uid};
use arj_disk::Role;
use arj_journal::ObjectLine;
use arj_saved::Kept;

// The Uid of an object's state in a role: the object's, or that of its entry.
fn uid_of(role: Role, x: u16) -> Uid
    ensures { result ≡ uid_in role x }
{
    match role {
        Role::Store => object_uid(x),
        Role::Names => entry_uid(x),
    }
}

// Whether a Uid is that of one of these objects.
fn is_named(objects: &[ObjectLine], role: Role, uid: Uid) -> bool
    ensures { result ≡ has_name objects.now role uid }
{
    for object in objects {
        if uid == uid_of(role, object.x) {
            return true;
        }
    }
    false
}

// Whether the Uids of these states are.
fn are_named(objects: &[ObjectLine], role: Role, states: &[ObjectState]) -> bool
    ensures { result ≡ states_fit objects.now role states.now }
{
    for state in states {
        if !is_named(objects, role, state.uid) {
            return false;
        }
    }
    true
}

// Whether a file is this node's and role's.
fn is_file_of(one: &Kept, node: u8, role: Role) -> bool
    ensures { result ≡ ((one.now.node == node) && role_eq one.now.role role) }
{
    one.node == node && one.role == role
}

// Whether the states of a file are of these objects, where the file is this node's and role's.
fn does_fit(objects: &[ObjectLine], node: u8, role: Role, one: &Kept) -> bool
    ensures { result ≡ row_fits objects.now node role one.now }
{
    if !is_file_of(one, node, role) {
        return true;
    }
    are_named(objects, role, one.states.as_slice())
}

// Whether those of all files are.
fn do_fit(objects: &[ObjectLine], node: u8, role: Role, segments: &[Kept]) -> bool
    ensures { result ≡ list_all (row_fits objects.now node role) segments.now }
{
    for one in segments {
        if !does_fit(objects, node, role, one) {
            return false;
        }
    }
    true
}

/// Whether all that a node holds in a role is of these objects.
pub fn is_of_header(objects: &[ObjectLine], segments: &[Kept], node: u8, role: Role) -> bool
    ensures { (files : List NodeFile) → AreKept (segments_in files) segments.now → MatchBool result (IsOfHeader objects.now (disks_of files node) role) (IsOfHeader objects.now (disks_of files node) role → ⊥) }
{
    do_fit(objects, node, role, segments)
}
