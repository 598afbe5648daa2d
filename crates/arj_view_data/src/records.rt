// What is told of locks and doubts, in words.
ghost use Rattle.std.specs.Prelude.{◌≡◌, ◌++◌, [], List, OnOk, map, if◌then◌else◌};
ghost use Rattle.std.specs.List.{flat_map};
ghost use Rattle.arj_base.specs.Uid.{uid_text};
ghost use Rattle.arj_journal.specs.LineText.{uid_word};
ghost use Rattle.arj_journal.specs.declared.body.Line.{Line as line_type};
ghost use Rattle.arj_standing.specs.Held.{rows_of, shown};
ghost use Rattle.arj_view_data.specs.Behind.{StandsBehind};
ghost use Rattle.arj_view_data.specs.Texts.{doubt_text, doubts_behind, doubts_text, row_text, step_text, table_at, table_behind, table_text};

use crate::standing::Standing;
use arj_base::{Bytes, Uid};
use arj_journal::Body;
use arj_journal::words::role_word;
use arj_standing::{Doubt, Held, NodeLocks};
use arj_text::words::{mode_word, put_decimal, put_number, put_numbered, put_word};
use std::alloc::AllocError;

// A Uid.
#[tactic(auto, using(std::proofs::lemmas::List::append_assoc))]
fn put_uid(out: &mut Bytes, uid: Uid) -> Result<(), AllocError>
    ensures { OnOk result (out.new ≡ out.old ++ uid_text uid) }
{
    put_decimal(out, u64::from(uid.node))?;
    out.extend(b".")?;
    put_decimal(out, u64::from(uid.inc))?;
    out.extend(b".")?;
    put_decimal(out, uid.num)
}

/// A Uid, a space before it.
#[tactic(auto, using(std::proofs::lemmas::List::append_assoc))]
pub fn put_uid_word(out: &mut Bytes, uid: Uid) -> Result<(), AllocError>
    ensures { OnOk result (out.new ≡ out.old ++ uid_word uid) }
{
    out.extend(b" ")?;
    put_uid(out, uid)
}

// A Uid of a path, a comma behind it.
#[tactic(auto, using(std::proofs::lemmas::List::append_assoc))]
fn put_step(out: &mut Bytes, uid: Uid) -> Result<(), AllocError>
    ensures { OnOk result (out.new ≡ out.old ++ step_text uid) }
{
    put_uid(out, uid)?;
    out.extend(b",")
}

// The Uids of a path.
#[tactic(auto, using(std::proofs::lemmas::List::append_assoc))]
fn put_path(out: &mut Bytes, path: &[Uid]) -> Result<(), AllocError>
    ensures { OnOk result (out.new ≡ out.old ++ flat_map step_text path.now) }
{
    for uid in path {
        put_step(out, *uid)?;
    }
    Ok(())
}

// A lock.
#[tactic(auto, using(std::proofs::lemmas::List::append_assoc))]
fn put_row(out: &mut Bytes, lock: &Held) -> Result<(), AllocError>
    ensures { OnOk result (out.new ≡ out.old ++ row_text (shown lock.now)) }
{
    put_uid_word(out, lock.object)?;
    put_word(out, mode_word(lock.mode))?;
    out.extend(b" ")?;
    put_path(out, lock.holder.as_slice())
}

// Locks.
#[tactic(auto, using(std::proofs::lemmas::List::append_assoc))]
fn put_rows(out: &mut Bytes, locks: &[Held]) -> Result<(), AllocError>
    ensures { OnOk result (out.new ≡ out.old ++ flat_map row_text (rows_of locks.now)) }
{
    for lock in locks {
        put_row(out, lock)?;
    }
    Ok(())
}

// The locks of a node.
#[tactic(auto, using(std::proofs::lemmas::List::append_assoc))]
fn put_table(out: &mut Bytes, table: &NodeLocks) -> Result<(), AllocError>
    ensures { OnOk result (out.new ≡ out.old ++ table_text table.now.node (rows_of table.now.locks.items)) }
{
    put_numbered(out, b"locks", u64::from(table.node))?;
    put_rows(out, table.locks.as_slice())?;
    out.extend(b"\n")
}

// The locks of a node behind the lines so far.
fn put_table_at(out: &mut Bytes, standing: &Standing, node: u8) -> Result<(), AllocError>
    ensures { (lines : List line_type) → StandsBehind lines standing.now → OnOk result (out.new ≡ out.old ++ table_at lines node) }
{
    match standing.table_of(node) {
        None => Ok(()),
        Some(table) => put_table(out, table),
    }
}

/// Puts the lock table that the last of the lines so far may have changed.
pub fn put_table_behind(out: &mut Bytes, standing: &Standing, body: &Body) -> Result<(), AllocError>
    ensures { (lines : List line_type) → StandsBehind lines standing.now → OnOk result (out.new ≡ out.old ++ table_behind lines body.now) }
{
    match body {
        Body::Granted { node, .. }
        | Body::Lowered { node, .. }
        | Body::Active { node, .. }
        | Body::Told { node, .. }
        | Body::Halted { node }
        | Body::Up { node, .. } => put_table_at(out, standing, *node),
        _ => Ok(()),
    }
}

// What a node has prepared and not done.
#[tactic(auto, using(std::proofs::lemmas::List::append_assoc))]
fn put_doubt(out: &mut Bytes, doubt: &Doubt) -> Result<(), AllocError>
    ensures { OnOk result (out.new ≡ out.old ++ doubt_text doubt.now) }
{
    put_number(out, u64::from(doubt.node))?;
    put_uid_word(out, doubt.action)?;
    put_word(out, role_word(doubt.role))
}

// All that is prepared and not done.
#[tactic(auto, using(std::proofs::lemmas::List::append_assoc))]
fn put_each_doubt(out: &mut Bytes, doubts: &[Doubt]) -> Result<(), AllocError>
    ensures { OnOk result (out.new ≡ out.old ++ flat_map doubt_text doubts.now) }
{
    for doubt in doubts {
        put_doubt(out, doubt)?;
    }
    Ok(())
}

#[tactic(auto, using(std::proofs::lemmas::List::append_assoc))]
fn put_doubts(out: &mut Bytes, doubts: &[Doubt]) -> Result<(), AllocError>
    ensures { OnOk result (out.new ≡ out.old ++ doubts_text doubts.now) }
{
    out.extend(b"doubts")?;
    put_each_doubt(out, doubts)?;
    out.extend(b"\n")
}

/// Puts what is in doubt, where the last of the lines so far may have changed it.
pub fn put_doubts_behind(
    out: &mut Bytes,
    standing: &Standing,
    body: &Body,
) -> Result<(), AllocError>
    ensures { (lines : List line_type) → StandsBehind lines standing.now → OnOk result (out.new ≡ out.old ++ doubts_behind lines body.now) }
{
    match body {
        Body::Prepared { .. } | Body::Done { .. } => put_doubts(out, standing.doubts.as_slice()),
        _ => Ok(()),
    }
}
