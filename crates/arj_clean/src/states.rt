// Whether states are the wanted ones.
ghost use Rattle.std.specs.Prelude.{◌≡◌, ◌≢◌, ◌<◌, ◌++◌, ◌∷◌, ℕ, List, length, IfOk, MatchBool, MatchOption};
ghost use Rattle.arj_base.specs.State.{StateInForm, state_bytes};
ghost use Rattle.arj_changes.specs.Stores.{IsEntry};
ghost use Rattle.arj_journal.specs.declared.body.Line.{Line as line_type};
ghost use Rattle.arj_model.specs.Last.{entry_payload, entry_state, object_line, servers_of_line};
ghost use Rattle.arj_start.specs.Start.{format_at as format_of};
ghost use Rattle.arj_clean.specs.States.{entry_with, state_with};
ghost use Rattle.arj_base.specs.Uid.{UidFits, entry as entry_name, object as object_name};

use arj_base::{Class, Format, ObjectState, Uid, entry_uid, object_uid};
use arj_changes::EntryState;
use arj_class::Value;
use arj_journal::Header;
use arj_text::field::after;
use std::alloc::{AllocError, Global};

// The format of a state of this version.
fn format_at(first: Format, version: usize) -> Format
    ensures { result ≡ format_of first version }
{
    if version == 0 { first } else { Format::Two }
}

// Whether bytes are this list behind its length, with what stands behind it; else nothing.
fn behind_list<'a>(bytes: &'a [u8], list: &[u8]) -> Option<&'a [u8]>
    ensures { MatchOption result ((rest : List ℕ) → bytes.now ≢ length list.now ∷ (list.now ++ rest)) (λ rest. bytes.now ≡ length list.now ∷ (list.now ++ rest.now)) }
{
    let Some((count, rest)) = bytes.split_first() else {
        return None;
    };
    if usize::from(*count) != list.len() {
        return None;
    }
    after(rest, list)
}

// Whether bytes are this list behind its length, and nothing more.
fn is_list(bytes: &[u8], list: &[u8]) -> bool
    ensures { MatchBool result (bytes.now ≡ length list.now ∷ list.now) (bytes.now ≢ length list.now ∷ list.now) }
{
    let Some((count, rest)) = bytes.split_first() else {
        return false;
    };
    if usize::from(*count) != list.len() {
        return false;
    }
    are_same(rest, list)
}

// Whether bytes are the payload of an entry with these servers and stores.
fn is_entry_payload(payload: &[u8], servers: &[u8], stores: &[u8]) -> bool
    ensures { MatchBool result (payload.now ≡ entry_payload servers.now stores.now) (payload.now ≢ entry_payload servers.now stores.now) }
{
    match behind_list(payload, servers) {
        None => false,
        Some(rest) => is_list(rest, stores),
    }
}

// The servers of an object of the header, none where it has no such object.
fn servers_of(header: &Header, x: u16) -> &[u8]
    ensures { result.now ≡ servers_of_line (object_line header.now x) }
{
    for object in header.objects.as_slice() {
        if object.x == x {
            return object.servers.as_slice();
        }
    }
    &[]
}

// Whether a state is the entry of object x with these servers and stores, by its parts.
fn is_entry_of(
    state: &ObjectState,
    first: Format,
    x: u16,
    servers: &[u8],
    stores: &[u8],
    count: usize,
    writer: Uid,
) -> bool
    ensures test { MatchBool result (state.now ≡ entry_with first x servers.now stores.now count writer) (state.now ≢ entry_with first x servers.now stores.now count writer) }
    ensures fits { UidFits (entry_name x) × (count < 18446744073709551616) × UidFits writer }
{
    if state.uid != entry_uid(x) {
        return false;
    }
    if state.class != Class::Entry {
        return false;
    }
    if state.version != count as u64 {
        return false;
    }
    if state.writer != writer {
        return false;
    }
    if state.format != format_at(first, count) {
        return false;
    }
    is_entry_payload(state.payload.as_slice(), servers, stores)
}

/// Whether a state is this entry of object x.
pub fn is_entry(state: &ObjectState, header: &Header, x: u16, entry: &EntryState) -> bool
    ensures { (lines : List line_type) → IsEntry header.now lines x entry.now → StateInForm state.now
        → MatchBool result (state_bytes state.now ≡ state_bytes (entry_state header.now lines x)) (state_bytes state.now ≢ state_bytes (entry_state header.now lines x)) }
{
    is_entry_of(
        state,
        header.format,
        x,
        servers_of(header, x),
        entry.stores.as_slice(),
        entry.version,
        entry.writer,
    )
}

// Whether a state is that of object x with this value, version and writer, by its parts.
fn is_state_of(
    alloc: Global,
    state: &ObjectState,
    first: Format,
    x: u16,
    value: &Value,
    version: usize,
    writer: Uid,
) -> Result<bool, AllocError>
    ensures test { IfOk result (λ is. MatchBool is (state.now ≡ state_with first x value.now version writer) (state.now ≢ state_with first x value.now version writer)) }
    ensures fits { UidFits (object_name x) × (version < 18446744073709551616) × UidFits writer }
{
    if state.uid != object_uid(x) {
        return Ok(false);
    }
    if state.class != value.class() {
        return Ok(false);
    }
    if state.version != version as u64 {
        return Ok(false);
    }
    if state.writer != writer {
        return Ok(false);
    }
    if state.format != format_at(first, version) {
        return Ok(false);
    }
    let payload = value.save_state(alloc)?;
    Ok(are_same(state.payload.as_slice(), payload.as_slice()))
}

// Whether bytes are the same.
fn are_same(bytes: &[u8], others: &[u8]) -> bool
    ensures { MatchBool result (bytes.now ≡ others.now) (bytes.now ≢ others.now) }
{
    bytes == others
}

/// Whether a state is that of object x with this value, version and writer.
pub fn is_state(
    alloc: Global,
    state: &ObjectState,
    first: Format,
    x: u16,
    value: &Value,
    version: usize,
    writer: Uid,
) -> Result<bool, AllocError>
    ensures { StateInForm state.now → IfOk result (λ is. MatchBool is (state_bytes state.now ≡ state_bytes (state_with first x value.now version writer)) (state_bytes state.now ≢ state_bytes (state_with first x value.now version writer))) }
{
    is_state_of(alloc, state, first, x, value, version, writer)
}
