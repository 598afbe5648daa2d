// The surviving writes on an object, in serial order.
ghost use Rattle.std.specs.Prelude.{◌≡◌, ◌++◌, [], List, IfOk, OnOk, map, slice_get};
ghost use Rattle.std.specs.List.{cons_option, filter_map};
ghost use Rattle.std.specs.Option.{option_map};
ghost use Rattle.arj_changes.specs.Kept.{AreKept};
ghost use Rattle.arj_journal.specs.declared.body.Line.{Line as line_type};
ghost use Rattle.arj_model.specs.Last.{writes_of};
ghost use Rattle.arj_last.specs.Kept.{AreWritten};
ghost use Rattle.arj_last.specs.Survivors.{wrote_at as wrote_at_place, wrote_of};

use crate::groups::items_at;
use crate::kept::{Write, Writes};
use crate::keys::keys_of;
use arj_base::Uid;
use arj_changes::Changes;
use arj_replay::in_order;
use std::alloc::{AllocError, Global};

/// A write that counts: the place of its line, and the number and the Uid of its top.
#[derive(Clone, Copy)]
pub struct Wrote {
    pub at: usize,
    pub top: usize,
    pub writer: Uid,
}

// The write at a place, as it counts.
fn wrote_at(all: &[Write], place: usize) -> Option<Wrote>
    ensures { result ≡ wrote_at_place all.now place }
{
    match all.get(place) {
        None => None,
        Some(write) => Some(Wrote {
            at: write.at,
            top: write.top,
            writer: write.writer,
        }),
    }
}

// One more, if there is one.
fn put(wrotes: &mut Vec<Wrote>, wrote: Option<Wrote>) -> Result<(), AllocError>
    ensures { OnOk result (wrotes.new.items ≡ wrotes.old.items ++ cons_option wrote []) }
{
    if let Some(wrote) = wrote {
        wrotes.push(wrote)?;
    }
    Ok(())
}

// Those at these places.
fn picked(alloc: Global, all: &[Write], places: &[usize]) -> Result<Vec<Wrote>, AllocError>
    ensures { IfOk result (λ wrotes. wrotes.items ≡ filter_map (wrote_at_place all.now) places.now) }
{
    let mut wrotes = Vec::new(alloc);
    for place in places {
        put(&mut wrotes, wrote_at(all, *place))?;
    }
    Ok(wrotes)
}

/// The surviving writes on an object of committed tops, in serial order.
pub fn writes_on(
    alloc: Global,
    changes: &Changes,
    writes: &Writes,
    x: u16,
) -> Result<Vec<Wrote>, AllocError>
    ensures { (lines : List line_type) → AreKept lines changes.now → AreWritten lines writes.now → IfOk result (λ wrotes. wrotes.items ≡ map wrote_of (writes_of lines x)) }
{
    let all = items_at(&writes.on, usize::from(x));
    let keys = keys_of(alloc, changes, writes, all)?;
    let places = in_order(alloc, keys)?;
    picked(alloc, all, places.as_slice())
}
