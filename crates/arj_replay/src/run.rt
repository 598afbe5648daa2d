// Calls run one after another.
ghost use Rattle.std.specs.Prelude.{◌≡◌, ◌<◌, ◌==◌, ℕ, List, Option, Some, None, map, true, IfOk, OnOk, IsSomeAnd, if◌then◌else◌, slice_get};
ghost use Rattle.std.specs.BTreeMap.{get};
ghost use Rattle.std.specs.List.{AllByRecursion};
ghost use Rattle.std.specs.Option.{option_copied};
ghost use Rattle.std.specs.Ordering.{nat_cmp};
ghost use Rattle.arj_class.specs.Forms.{is_op_in_form};
ghost use Rattle.arj_class.specs.Table.{answer_of, has_op, own_class, value_after};
ghost use Rattle.arj_class.specs.declared.op.Op.{Op as op_type};
ghost use Rattle.arj_class.specs.declared.value.Value.{Value as value_type};
ghost use Rattle.arj_journal.specs.declared.body.Body.TheVariants as line_body;
ghost use Rattle.arj_journal.specs.declared.header.Header.{Header as header_type};
ghost use Rattle.arj_text.specs.declared.label.Label.{Label as label_type};
ghost use Rattle.arj_model.specs.Calls.{Call};
ghost use Rattle.arj_model.specs.Last.{first_values as values_of_header, object_line};
ghost use Rattle.arj_model.specs.Serial.{Values, after, run, with_value};
ghost use Rattle.arj_reading.specs.Readable.{object_rule};
ghost use Rattle.arj_replay.specs.Verdict.{HasCall, HasValues, IsWrong, differs_or, first_among, first_difference, or_value, wanted_of};

use arj_base::Bytes;
use arj_class::{Answer, ApplyFault, Op, Value, operations_keep};
use arj_journal::{Body, Header, Line, ObjectLine, answer_text};
use std::alloc::{AllocError, Global};
use std::collections::BTreeMap;

/// A call that has another answer in the journal than it gets.
#[derive(Drop)]
pub struct Wrong {
    /// The place of its line, counted from 1.
    pub line: usize,
    /// The event of its line.
    pub event: u32,
    /// The text of the answer that it gets.
    pub wanted: Bytes,
}

// Puts the first value of an object, where none of its number is there.
fn put_first(
    alloc: Global,
    values: &mut BTreeMap<u16, Value>,
    object: &ObjectLine,
) -> Result<(), AllocError>
    ensures { OnOk result ((x : ℕ) → get nat_cmp values.new x ≡ or_value (get nat_cmp values.old x) (if object.now.x == x then Some object.now.value else None)) }
{
    if !values.contains_key(&object.x) {
        values.insert(object.x, object.value.copy(alloc)?)?;
    }
    Ok(())
}

// The first values of the objects of a header.
#[tactic(auto, using(crate::proofs::Runs::first_put))]
fn first_values(alloc: Global, objects: &[ObjectLine]) -> Result<BTreeMap<u16, Value>, AllocError>
    ensures { IfOk result (λ values. (x : ℕ) → get nat_cmp values x ≡ first_among objects.now x) }
{
    let mut values = BTreeMap::new(alloc);
    for object in objects {
        put_first(alloc, &mut values, object)?;
    }
    Ok(values)
}

// Runs an operation on the value of an object, which has it.
fn run_call(
    values: &mut BTreeMap<u16, Value>,
    x: u16,
    op: &Op,
) -> Result<Option<Answer>, AllocError>
    ensures answer { (v : value_type) → get nat_cmp values.old x ≡ Some v → has_op (own_class v) op.now ≡ true → is_op_in_form op.now ≡ true
        → IfOk result (λ r. IsSomeAnd r (λ a. a ≡ answer_of op.now v)) }
    ensures value { (v : value_type) → get nat_cmp values.old x ≡ Some v → has_op (own_class v) op.now ≡ true → is_op_in_form op.now ≡ true
        → OnOk result ((y : ℕ) → get nat_cmp values.new y ≡ (if x == y then Some (value_after op.now v) else get nat_cmp values.old y)) }
{
    if !op.is_in_form() {
        return Ok(None);
    }
    let Some(mut value) = values.remove(&x) else {
        return Ok(None);
    };
    match value.apply(op) {
        Ok(answer) => {
            values.insert(x, value)?;
            Ok(Some(answer))
        }
        Err(ApplyFault::WrongOp) => Ok(None),
        Err(ApplyFault::Memory) => Err(AllocError),
    }
}

// The wanted answer, where the journal has another.
fn wanted(alloc: Global, given: &Answer, answer: &[u8]) -> Result<Option<Bytes>, AllocError>
    ensures { (op : op_type) (v : value_type) → given.now ≡ answer_of op v → IfOk result (λ r. r ≡ wanted_of op v answer.now) }
{
    let text = answer_text(alloc, given)?;
    if text.as_slice() == answer {
        return Ok(None);
    }
    Ok(Some(text))
}

// Runs the call of a line, and gives the answer that is wanted where the line has another.
fn run_line(
    alloc: Global,
    values: &mut BTreeMap<u16, Value>,
    line: &Line,
) -> Result<Option<Bytes>, AllocError>
    ensures wanted { (header : header_type) (all : Values) (l : label_type) (x : ℕ) (op : op_type) (answer : List ℕ) → line.now.body ≡ line_body.Ok l x op answer → HasValues header all values.old → object_rule (object_line header x) op ≡ None
        → IfOk result (λ r. r ≡ wanted_of op (all x) answer) }
    ensures values { (header : header_type) (all : Values) (l : label_type) (x : ℕ) (op : op_type) (answer : List ℕ) → line.now.body ≡ line_body.Ok l x op answer → HasValues header all values.old → object_rule (object_line header x) op ≡ None
        → OnOk result (HasValues header (with_value all x (value_after op (all x))) values.new) }
{
    operations_keep();
    let Body::Ok { x, op, answer, .. } = &line.body else {
        return Ok(None);
    };
    let Some(given) = run_call(values, *x, op)? else {
        return Ok(None);
    };
    wanted(alloc, &given, answer.as_slice())
}

// The line at a place.
fn line_at(lines: &[Line], place: usize) -> Option<&Line>
    ensures { option_copied result ≡ slice_get lines.now place }
{
    lines.get(place)
}

// Runs the call at a place, and tells where its answer differs.
fn run_place(
    alloc: Global,
    values: &mut BTreeMap<u16, Value>,
    lines: &[Line],
    place: usize,
) -> Result<Option<Wrong>, AllocError>
    ensures wrong { (header : header_type) (all : Values) (c : Call) → c.at ≡ place → HasCall header lines.now c → HasValues header all values.old
        → IfOk result (λ wrong. IsWrong lines.now (differs_or c.at (wanted_of c.op (all c.x) c.answer) None) wrong) }
    ensures values { (header : header_type) (all : Values) (c : Call) → c.at ≡ place → HasCall header lines.now c → HasValues header all values.old
        → OnOk result (HasValues header (after all c) values.new) }
{
    if place >= lines.len() {
        return Ok(None);
    }
    let Some(line) = line_at(lines, place) else {
        return Ok(None);
    };
    let Some(wanted) = run_line(alloc, values, line)? else {
        return Ok(None);
    };
    Ok(Some(Wrong {
        line: place + 1,
        event: line.event,
        wanted,
    }))
}

/// The first of the calls at these places, run one after another from the header's values, whose answer differs.
pub fn replay(
    alloc: Global,
    header: &Header,
    lines: &[Line],
    places: &[usize],
) -> Result<Option<Wrong>, AllocError>
    ensures { (calls : List Call) → map (λ c. c.at) calls ≡ places.now → AllByRecursion (HasCall header.now lines.now) calls
        → IfOk result (λ wrong. IsWrong lines.now (first_difference (values_of_header header.now) calls) wrong) }
{
    let mut values = first_values(alloc, header.objects.as_slice())?;
    for place in places {
        if let Some(wrong) = run_place(alloc, &mut values, lines, *place)? {
            return Ok(Some(wrong));
        }
    }
    Ok(None)
}

/// The values of the header's objects after the calls at these places were run, one after another from the header's values.
pub fn values_after(
    alloc: Global,
    header: &Header,
    lines: &[Line],
    places: &[usize],
) -> Result<BTreeMap<u16, Value>, AllocError>
    ensures { (calls : List Call) → map (λ c. c.at) calls ≡ places.now → AllByRecursion (HasCall header.now lines.now) calls
        → IfOk result (λ values. HasValues header.now (run (values_of_header header.now) calls) values) }
{
    let mut values = first_values(alloc, header.objects.as_slice())?;
    for place in places {
        let _wrong = run_place(alloc, &mut values, lines, *place)?;
    }
    Ok(values)
}
