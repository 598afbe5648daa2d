// The last state of an object.
ghost use Rattle.std.specs.Prelude.{◌≡◌, Some, IfOk, IsSomeAnd};
ghost use Rattle.std.specs.BTreeMap.{get};
ghost use Rattle.std.specs.Ordering.{nat_cmp};
ghost use Rattle.arj_changes.specs.Kept.{AreKept};
ghost use Rattle.arj_journal.specs.declared.header.ObjectLine.{ObjectLine as object_type};
ghost use Rattle.arj_model.specs.Last.{object_line};
ghost use Rattle.arj_reading.specs.Readable.{Readable};
ghost use Rattle.arj_last.specs.Kept.{AreWritten};
ghost use Rattle.arj_last.specs.State.{IsLast};

use crate::counting::{count, last_writer, places_of};
use crate::kept::Writes;
use crate::picked::writes_on;
use arj_base::Uid;
use arj_changes::Changes;
use arj_check::readable_calls_can_be_run;
use arj_class::Value;
use arj_journal::{Header, Line};
use arj_replay::values_after;
use std::alloc::{AllocError, Global};
use std::collections::BTreeMap;

/// The last state of an object: its value, how many tops wrote it, and the last of them.
#[derive(Drop)]
pub struct LastState {
    pub value: Value,
    pub version: usize,
    pub writer: Uid,
}

// The value of an object, taken out.
fn take_value(values: &mut BTreeMap<u16, Value>, x: u16) -> Option<Value>
    ensures { result ≡ get nat_cmp values.old x }
{
    values.remove(&x)
}

/// The last state of an object of the header behind these lines, by what is kept of them; there is one where they can be read as a run.
pub fn last_state_of(
    alloc: Global,
    header: &Header,
    lines: &[Line],
    changes: &Changes,
    writes: &Writes,
    x: u16,
) -> Result<Option<LastState>, AllocError>
    ensures { AreKept lines.now changes.now → AreWritten lines.now writes.now → Readable header.now lines.now → (o : object_type) → object_line header.now x ≡ Some o
        → IfOk result (λ state. IsSomeAnd state (IsLast header.now lines.now x)) }
{
    readable_calls_can_be_run();
    let wrotes = writes_on(alloc, changes, writes, x)?;
    let places = places_of(alloc, wrotes.as_slice())?;
    let version = count(alloc, wrotes.as_slice())?;
    let mut values = values_after(alloc, header, lines, places.as_slice())?;
    let Some(value) = take_value(&mut values, x) else {
        return Ok(None);
    };
    Ok(Some(LastState {
        value,
        version,
        writer: last_writer(wrotes.as_slice()),
    }))
}
