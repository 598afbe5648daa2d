// How many tops made writes, and which was the last.
ghost use Rattle.std.specs.Prelude.{◌≡◌, IfOk, is_some, map};
ghost use Rattle.std.specs.BTreeMap.{get};
ghost use Rattle.std.specs.Ordering.{nat_cmp};
ghost use Rattle.arj_base.specs.Uid.{nobody};
ghost use Rattle.arj_last.specs.Survivors.{count_wrotes, place_in, writer_after};

use crate::picked::Wrote;
use arj_base::Uid;
use arj_changes::{counted, note_number};
use std::alloc::{AllocError, Global};
use std::collections::BTreeMap;

// Nobody's Uid.
const NOBODY: Uid = Uid {
    node: 0,
    inc: 0,
    num: 0,
};

// Whether a top is noted.
fn is_noted(tops: &BTreeMap<usize, usize>, top: usize) -> bool
    ensures { result ≡ is_some (get nat_cmp tops.now top) }
{
    tops.contains_key(&top)
}

/// How many different tops made these writes.
pub fn count(alloc: Global, wrotes: &[Wrote]) -> Result<usize, AllocError>
    ensures { IfOk result (λ count. count ≡ count_wrotes wrotes.now) }
{
    let mut tops = BTreeMap::new(alloc);
    let mut count = 0;
    for wrote in wrotes {
        count = counted(count, is_noted(&tops, wrote.top));
        note_number(&mut tops, Some(wrote.top))?;
    }
    Ok(count)
}

/// Who made the last of these writes; nobody where there is none.
pub fn last_writer(wrotes: &[Wrote]) -> Uid
    ensures { result ≡ writer_after nobody wrotes.now }
{
    let mut writer = NOBODY;
    for wrote in wrotes {
        writer = wrote.writer;
    }
    writer
}

/// The places of the lines of these writes.
pub fn places_of(alloc: Global, wrotes: &[Wrote]) -> Result<Vec<usize>, AllocError>
    ensures { IfOk result (λ places. places.items ≡ map place_in wrotes.now) }
{
    let mut places = Vec::new(alloc);
    for wrote in wrotes {
        places.push(wrote.at)?;
    }
    Ok(places)
}
