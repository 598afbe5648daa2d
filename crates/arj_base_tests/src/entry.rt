// Entries and their bytes, by hand from the layout of an entry's payload.
ghost use Rattle.std.specs.Prelude.{◌≡◌, IfOk};

use arj_base::NodeList;
use arj_entry::Entry;
use std::alloc::{AllocError, Global};
use std::test::Fail;

fn nodes(alloc: Global, numbers: &[u8]) -> Result<NodeList, AllocError>
    ensures { IfOk result (λ nodes. nodes ≡ numbers.now) }
{
    let mut nodes = NodeList::new(alloc);
    nodes.extend(numbers)?;
    Ok(nodes)
}

fn entry(alloc: Global, servers: &[u8], stores: &[u8]) -> Result<Entry, AllocError>
    ensures servers { IfOk result (λ entry. entry.servers ≡ servers.now) }
    ensures stores { IfOk result (λ entry. entry.stores ≡ stores.now) }
{
    let servers = nodes(alloc, servers)?;
    let stores = nodes(alloc, stores)?;
    Ok(Entry { servers, stores })
}

// Whether an entry has these nodes.
fn has(entry: &Entry, servers: &[u8], stores: &[u8]) -> bool {
    entry.servers.as_slice() == servers && entry.stores.as_slice() == stores
}

// Whether an entry with these nodes is saved so.
fn is_saved(alloc: Global, servers: &[u8], stores: &[u8], payload: &[u8]) -> Result<bool, Fail> {
    if servers.len() > 255 || stores.len() > 255 {
        return Ok(false);
    }
    let saved = entry(alloc, servers, stores)?.save(alloc)?;
    Ok(saved.as_slice() == payload)
}

// Whether it is restored from that.
fn is_restored(alloc: Global, servers: &[u8], stores: &[u8], payload: &[u8]) -> Result<bool, Fail> {
    let restored = Entry::restore(alloc, payload)?;
    Ok(has(&restored, servers, stores))
}

// Servers, stores and the payload.
const ENTRIES: &[(&[u8], &[u8], &[u8])] = &[
    (&[], &[], &[0, 0]),
    (&[2], &[3, 4], &[1, 2, 2, 3, 4]),
    (&[4, 1, 3], &[16], &[3, 4, 1, 3, 1, 16]),
    (&[], &[7, 7], &[0, 2, 7, 7]),
];

#[test]
fn an_entry_has_these_bytes(rt: HostRuntime) -> Result<(), Fail> {
    for (servers, stores, payload) in ENTRIES {
        assert!(rt; is_saved(rt.alloc(), servers, stores, payload)?);
        assert!(rt; is_restored(rt.alloc(), servers, stores, payload)?);
    }
    Ok(())
}

// Bytes that are no entry.
const OTHERS: &[&[u8]] = &[
    &[],
    &[0],
    &[1, 2],
    &[2, 1],
    &[1, 2, 2, 3],
    &[0, 0, 0],
    &[1, 2, 1, 3, 0],
];

// Whether the payload is refused, with these words.
fn is_refused(alloc: Global, payload: &[u8], words: &str) -> Result<bool, AllocError> {
    match Entry::restore(alloc, payload) {
        Ok(_) => Ok(false),
        Err(fault) => Ok(format!(in alloc; "{fault}")?.as_str() == words),
    }
}

#[test]
fn other_bytes_are_no_entry(rt: HostRuntime) -> Result<(), Fail> {
    for payload in OTHERS {
        assert!(rt;
            is_refused(
                rt.alloc(),
                payload,
                "not the payload of a value of this class"
            )?
        );
    }
    Ok(())
}

// A store, whether an include or an exclude of it answers so, and the stores behind it.
type Change = (u8, bool, &'static [u8]);

const INCLUDES: &[Change] = &[
    (2, true, &[3, 4, 2]),
    (3, false, &[3, 4, 2]),
    (2, false, &[3, 4, 2]),
    (1, true, &[3, 4, 2, 1]),
];

const EXCLUDES: &[Change] = &[
    (4, true, &[3, 2, 1]),
    (4, false, &[3, 2, 1]),
    (3, true, &[2, 1]),
];

fn includes_so(entry: &mut Entry) -> Result<bool, AllocError> {
    for (store, included, after) in INCLUDES {
        if entry.include(*store)? != *included || !has(entry, &[2], after) {
            return Ok(false);
        }
    }
    Ok(true)
}

fn excludes_so(entry: &mut Entry) -> bool {
    for (store, listed, after) in EXCLUDES {
        if entry.exclude(*store) != *listed || !has(entry, &[2], after) {
            return false;
        }
    }
    true
}

fn changes_so(alloc: Global) -> Result<bool, AllocError> {
    let mut entry = entry(alloc, &[2], &[3, 4])?;
    Ok(includes_so(&mut entry)? && excludes_so(&mut entry))
}

#[test]
fn stores_come_last_and_go(rt: HostRuntime) -> Result<(), Fail> {
    assert!(rt; changes_so(rt.alloc())?);
    Ok(())
}
