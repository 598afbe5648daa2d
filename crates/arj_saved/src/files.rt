// What the files of an image are.
ghost use Rattle.std.specs.Prelude.{◌≡◌, length, IfOk};
ghost use Rattle.std.specs.Int.{w32, from_be_bytes};
ghost use Rattle.arj_saved.specs.Files.{are_in_place as all_in_place, inc_at, inc_in as number_in, is_in_place as one_in_place, is_inc, is_inc_slot as names_inc, is_place as is_segment_place, is_quiet as nothing_open, is_unfinished as names_open};

use crate::rows::states_of;
use arj_disk::{Role, Slot};
use arj_image::NodeFile;
use arj_text::field::is_text;
use std::alloc::{AllocError, Global};

/// The most that the numbers of an image that is at rest may be: of its events, its frames, its segments and its incarnations.
pub const MOST_COUNT: u32 = 4_000_000_000;

/// Whether nothing is prepared, and no record is there.
pub fn is_quiet(files: &[NodeFile]) -> bool
    ensures { result ≡ nothing_open files.now }
{
    for file in files {
        if is_unfinished(file.slot) {
            return false;
        }
    }
    true
}

// Whether it is the name of what is prepared, or of a record.
fn is_unfinished(slot: Slot) -> bool
    ensures { result ≡ names_open slot }
{
    match slot {
        Slot::Pending(_, _) | Slot::Intent(_) => true,
        _ => false,
    }
}

/// Whether only incarnations, segments and what is written before it gets its name are there; the first two in their grammars, with
/// numbers that aren't too great, and naming's segments on node 1.
pub fn are_in_place(alloc: Global, files: &[NodeFile]) -> Result<bool, AllocError>
    ensures { IfOk result (λ is. is ≡ all_in_place files.now) }
{
    for file in files {
        if !is_in_place(alloc, file)? {
            return Ok(false);
        }
    }
    Ok(true)
}

// Whether a file may be there.
fn is_in_place(alloc: Global, file: &NodeFile) -> Result<bool, AllocError>
    ensures { IfOk result (λ is. is ≡ one_in_place file.now.node file.now.slot file.now.bytes) }
{
    match file.slot {
        Slot::Incarnation => Ok(is_inc_file(file.bytes.as_slice())),
        Slot::Tmp => Ok(true),
        Slot::Segment(role, number) => {
            if !is_place(file.node, role, number) {
                return Ok(false);
            }
            Ok(states_of(alloc, file.bytes.as_slice())?.is_some())
        }
        _ => Ok(false),
    }
}

// Whether a segment of this number may be there.
fn is_place(node: u8, role: Role, number: u64) -> bool
    ensures { result ≡ is_segment_place node role number }
{
    match role {
        Role::Store => number <= u64::from(MOST_COUNT),
        Role::Names => node == 1 && number <= u64::from(MOST_COUNT),
    }
}

// Whether the file of an incarnation is in its grammar, with a number from 1 on that isn't too great.
fn is_inc_file(bytes: &[u8]) -> bool
    ensures { result ≡ is_inc (number_in bytes.now) }
{
    match inc_in(bytes) {
        None => false,
        Some(inc) => 0 < inc && inc <= MOST_COUNT,
    }
}

// The number of an incarnation, where its file is in the grammar.
fn inc_in(bytes: &[u8]) -> Option<u32>
    ensures { result ≡ number_in bytes.now }
{
    if bytes.len() != 8 {
        return None;
    }
    if !is_text(&bytes[..4], b"ARJI") {
        return None;
    }
    Some(four_of(&bytes[4..]))
}

// The number in four bytes.
fn four_of(bytes: &[u8]) -> u32
    requires { length bytes.now ≡ 4 }
    ensures { result ≡ from_be_bytes w32 bytes.now }
{
    let mut field = [0; 4];
    field.copy_from_slice(bytes);
    u32::from_be_bytes(field)
}

// Whether it is the name of the incarnation's file.
fn is_inc_slot(slot: Slot) -> bool
    ensures { result ≡ names_inc slot }
{
    match slot {
        Slot::Incarnation => true,
        _ => false,
    }
}

/// The incarnation of a node, where its file is there in the grammar.
pub fn inc_of(files: &[NodeFile], node: u8) -> Option<u32>
    ensures { result ≡ inc_at files.now node }
{
    for file in files {
        if file.node == node && is_inc_slot(file.slot) {
            return inc_in(file.bytes.as_slice());
        }
    }
    None
}
