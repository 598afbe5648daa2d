// Entries in the payloads of packed states.
ghost use Rattle.std.specs.Prelude.{◌≡◌, IfOk, List, [], ◌∷◌, drop};
ghost use Rattle.arj_naming.specs.Payloads.{behind_count};
ghost use Rattle.arj_protocol.specs.Values.{stores_in, state_entry};

use arj_base::{NodeList, ObjectState};
use arj_entry::Entry;
use std::alloc::{AllocError, Global};

// The nodes behind their count; where there are fewer bytes, all.
fn nodes_in(bytes: &[u8]) -> &[u8]
    ensures { result.now ≡ stores_in bytes.now }
{
    match bytes.split_first() {
        Some((count, rest)) => &rest[..rest.len().min(usize::from(*count))],
        None => bytes,
    }
}

// What stands behind a count and its nodes.
fn behind(bytes: &[u8]) -> &[u8]
    ensures { result.now ≡ behind_count bytes.now }
{
    match bytes.split_first() {
        Some((count, rest)) => &rest[rest.len().min(usize::from(*count))..],
        None => bytes,
    }
}

/// The servers of an entry's state.
pub fn servers_of(state: &ObjectState) -> &[u8]
    ensures { result.now ≡ (state_entry state.now).servers }
{
    nodes_in(state.payload.as_slice())
}

/// The stores of an entry's state.
pub fn stores_of(state: &ObjectState) -> &[u8]
    ensures { result.now ≡ (state_entry state.now).stores }
{
    nodes_in(behind(state.payload.as_slice()))
}

/// A list of these nodes.
pub fn node_list(alloc: Global, nodes: &[u8]) -> Result<NodeList, AllocError>
    ensures { IfOk result (λ list. list ≡ nodes.now) }
{
    let mut list = NodeList::new(alloc);
    list.extend(nodes)?;
    Ok(list)
}

/// The entry that a state has.
pub fn entry_of(alloc: Global, state: &ObjectState) -> Result<Entry, AllocError>
    ensures { IfOk result (λ e. e ≡ state_entry state.now) }
{
    let servers = node_list(alloc, servers_of(state))?;
    let stores = node_list(alloc, stores_of(state))?;
    Ok(Entry { servers, stores })
}
