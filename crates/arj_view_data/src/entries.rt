// What is told of entries, in words.
ghost use Rattle.std.specs.Prelude.{◌≡◌, ◌++◌, [], List, OnOk};
ghost use Rattle.std.specs.List.{flat_map};
ghost use Rattle.arj_journal.specs.declared.body.Line.{Line as line_type};
ghost use Rattle.arj_view_data.specs.Behind.{StandsBehind};
ghost use Rattle.arj_view_data.specs.Texts.{entries_behind, entry_text, listed_text, store_text};

use crate::records::put_uid_word;
use crate::standing::Standing;
use arj_base::Bytes;
use arj_changes::{EntryState, entry_of, is_moved};
use arj_journal::{Body, Header, ObjectLine};
use arj_text::words::{put_decimal, put_number, put_numbered};
use std::alloc::{AllocError, Global};

// A store, a comma behind it.
#[tactic(auto, using(std::proofs::lemmas::List::append_assoc))]
fn put_store(out: &mut Bytes, store: u8) -> Result<(), AllocError>
    ensures { OnOk result (out.new ≡ out.old ++ store_text store) }
{
    put_decimal(out, u64::from(store))?;
    out.extend(b",")
}

// Stores.
#[tactic(auto, using(std::proofs::lemmas::List::append_assoc))]
fn put_stores(out: &mut Bytes, stores: &[u8]) -> Result<(), AllocError>
    ensures { OnOk result (out.new ≡ out.old ++ flat_map store_text stores.now) }
{
    for store in stores {
        put_store(out, *store)?;
    }
    Ok(())
}

// An entry.
#[tactic(auto, using(std::proofs::lemmas::List::append_assoc))]
fn put_listed(out: &mut Bytes, x: u16, entry: &EntryState) -> Result<(), AllocError>
    ensures { OnOk result (out.new ≡ out.old ++ listed_text x entry.now.version entry.now.writer entry.now.stores.items) }
{
    put_numbered(out, b"listed", u64::from(x))?;
    put_number(out, entry.version as u64)?;
    put_uid_word(out, entry.writer)?;
    out.extend(b" ")?;
    put_stores(out, entry.stores.as_slice())?;
    out.extend(b"\n")
}

// The entry of an object, once a store of it was excluded or included.
fn put_entry(
    alloc: Global,
    out: &mut Bytes,
    header: &Header,
    standing: &Standing,
    object: &ObjectLine,
) -> Result<(), AllocError>
    ensures { (lines : List line_type) → StandsBehind lines standing.now → OnOk result (out.new ≡ out.old ++ entry_text header.now lines object.now) }
{
    if !is_moved(&standing.changes, object.x) {
        return Ok(());
    }
    let entry = entry_of(
        alloc,
        standing.begun.as_slice(),
        &standing.changes,
        header,
        object.x,
    )?;
    put_listed(out, object.x, &entry)
}

// The entries of all objects of these.
fn put_entries(
    alloc: Global,
    out: &mut Bytes,
    header: &Header,
    standing: &Standing,
    objects: &[ObjectLine],
) -> Result<(), AllocError>
    ensures { (lines : List line_type) → StandsBehind lines standing.now → OnOk result (out.new ≡ out.old ++ flat_map (entry_text header.now lines) objects.now) }
{
    for object in objects {
        put_entry(alloc, out, header, standing, object)?;
    }
    Ok(())
}

/// Puts the entries whose stores have changed, where the last of the lines so far tells of a commit.
pub fn put_entries_behind(
    alloc: Global,
    out: &mut Bytes,
    header: &Header,
    standing: &Standing,
    body: &Body,
) -> Result<(), AllocError>
    ensures { (lines : List line_type) → StandsBehind lines standing.now → OnOk result (out.new ≡ out.old ++ entries_behind header.now lines body.now) }
{
    match body {
        Body::Committed { .. } | Body::Recovered { .. } => {
            put_entries(alloc, out, header, standing, header.objects.as_slice())
        }
        _ => Ok(()),
    }
}
