// The rules, of what is kept of the lines before one.
ghost use Rattle.std.specs.Prelude.{◌≡◌, List, Option, Some, None, length};
ghost use Rattle.std.specs.Option.{option_copied, option_map};
ghost use Rattle.arj_journal.specs.declared.body.Line.{Line as line_type};
ghost use Rattle.arj_text.specs.Label.{name};
ghost use Rattle.arj_model.specs.Actions.{acts, ended, path, upwards};
ghost use Rattle.arj_start.specs.Kinds.{is_constituent as is_constituent_kind, is_serial as is_serial_kind};
ghost use Rattle.arj_model.specs.Last.{object_line};
ghost use Rattle.arj_reading.specs.Readable.{answer_rule as rule_of_answer, begin_rule as rule_of_begin, body_rule as rule_of_body, call_rule as rule_of_call, called, committed_rule as rule_of_committed, end_rule as rule_of_end, ended_rule as rule_of_ended, has_parent as may_have_parent, is_alone as has_no_parent, is_parent_of, is_top as is_top_kind, known, label_of, line_rule, met, named, named_rule, object_rule as rule_of_object, of_begun, recovered_rule as rule_of_recovered};
ghost use Rattle.arj_reading.specs.Reading.{HasRead, capped};

use crate::limits::PATH_ACTIONS;
use crate::lookup::{above, is_called, is_ended, kept, known_by, named_by};
use crate::named::Named;
use crate::reading::Reading;
use crate::rule::Rule;
use arj_base::Uid;
use arj_class::{Op, Value};
use arj_journal::{Body, Header, Kind, Label, Line, ObjectLine};

/// The object of the header with this number.
pub fn object_at(header: &Header, x: u16) -> Option<&ObjectLine>
    ensures { option_copied result ≡ object_line header.now x }
{
    header
        .objects
        .as_slice()
        .iter()
        .find(|object| object.x == x)
}

// The kinds that have no parent.
fn is_alone(kind: Kind) -> bool
    ensures { result ≡ has_no_parent kind }
{
    match kind {
        Kind::Top | Kind::Serial => true,
        Kind::Nested | Kind::Independent | Kind::Constituent => false,
    }
}

// The kinds whose commits are called.
fn is_top(kind: Kind) -> bool
    ensures { result ≡ is_top_kind kind }
{
    match kind {
        Kind::Top | Kind::Independent | Kind::Constituent => true,
        Kind::Nested | Kind::Serial => false,
    }
}

// The kind of a constituent.
fn is_constituent(kind: Kind) -> bool
    ensures { result ≡ is_constituent_kind kind }
{
    match kind {
        Kind::Constituent => true,
        Kind::Top | Kind::Nested | Kind::Independent | Kind::Serial => false,
    }
}

// The kind of a serializing action.
fn is_serial(kind: Kind) -> bool
    ensures { result ≡ is_serial_kind kind }
{
    match kind {
        Kind::Serial => true,
        Kind::Top | Kind::Nested | Kind::Independent | Kind::Constituent => false,
    }
}

// Whether an action of this kind may have this parent.
fn is_parent(kind: Kind, parent: Option<Named>) -> bool
    ensures { result ≡ is_parent_of kind parent }
{
    match parent {
        None => false,
        Some(parent) => is_constituent(kind) == is_serial(parent.kind),
    }
}

// Whether an action of this kind may name this parent.
fn has_parent(reading: &Reading, kind: Kind, parent: &Option<Label>) -> bool
    ensures { (lines : List line_type) → HasRead lines reading.now → result ≡ may_have_parent (acts lines) kind (option_map name parent.now) }
{
    match parent {
        None => is_alone(kind),
        Some(label) => !is_alone(kind) && is_parent(kind, named_by(reading, label)),
    }
}

// How many actions the path above an action has; 17 stands for more than 16.
fn depth_above(reading: &Reading, kind: Kind, parent: &Option<Label>) -> usize
    ensures { (lines : List line_type) → HasRead lines reading.now → result ≡ capped (length (upwards (option_map name parent.now) kind (path (acts lines)))) }
{
    match above(reading, kind, parent) {
        None => 0,
        Some(number) => match kept(reading, number) {
            None => 0,
            Some(action) => action.depth,
        },
    }
}

// An action begins.
fn begin_rule(
    reading: &Reading,
    label: &Label,
    kind: Kind,
    uid: &Uid,
    parent: &Option<Label>,
) -> Option<Rule>
    ensures { (lines : List line_type) → HasRead lines reading.now
        → result ≡ rule_of_begin (acts lines) (record { label = name label.now; kind = kind; uid = uid.now; parent = option_map name parent.now }) }
{
    if named_by(reading, label).is_some() {
        return Some(Rule::NewLabel);
    }
    if known_by(reading, uid).is_some() {
        return Some(Rule::NewUid);
    }
    if !has_parent(reading, kind, parent) {
        return Some(Rule::Parent);
    }
    if depth_above(reading, kind, parent) >= PATH_ACTIONS {
        return Some(Rule::Depth);
    }
    None
}

// The object has the operation.
fn object_rule(object: &ObjectLine, op: &Op) -> Option<Rule>
    ensures { result ≡ rule_of_object (Some object.now) op.now }
{
    if Value::mode(object.value.own_class(), op).is_none() || !op.is_in_form() {
        return Some(Rule::Operation);
    }
    None
}

// A call is answered.
fn answer_rule(header: &Header, named: Named, x: u16, op: &Op) -> Option<Rule>
    ensures { result ≡ rule_of_answer header.now named x op.now }
{
    let Some(object) = object_at(header, x) else {
        return Some(Rule::Object);
    };
    if let Some(rule) = object_rule(object, op) {
        return Some(rule);
    }
    if is_serial(named.kind) {
        return Some(Rule::SerialCalls);
    }
    None
}

// A commit is called.
fn call_rule(reading: &Reading, named: Named) -> Option<Rule>
    ensures { (lines : List line_type) → HasRead lines reading.now → result ≡ rule_of_call (called lines) named }
{
    if !is_top(named.kind) {
        return Some(Rule::CommitOfTop);
    }
    if is_called(reading, named) {
        return Some(Rule::OneCommit);
    }
    None
}

// An action ends.
fn end_rule(reading: &Reading, named: Named) -> Option<Rule>
    ensures { (lines : List line_type) → HasRead lines reading.now → result ≡ rule_of_end (ended lines) named }
{
    if is_ended(reading, named) {
        return Some(Rule::OneEnd);
    }
    None
}

// An action is committed.
fn committed_rule(reading: &Reading, named: Named) -> Option<Rule>
    ensures { (lines : List line_type) → HasRead lines reading.now → result ≡ rule_of_committed (called lines) (ended lines) named }
{
    if is_serial(named.kind) {
        return Some(Rule::EndOfKind);
    }
    if is_ended(reading, named) {
        return Some(Rule::OneEnd);
    }
    if is_top(named.kind) && !is_called(reading, named) {
        return Some(Rule::Called);
    }
    None
}

// A serializing action ends.
fn ended_rule(reading: &Reading, named: Named) -> Option<Rule>
    ensures { (lines : List line_type) → HasRead lines reading.now → result ≡ rule_of_ended (ended lines) named }
{
    if !is_serial(named.kind) {
        return Some(Rule::EndOfKind);
    }
    end_rule(reading, named)
}

// The record of an action is found.
fn recovered_rule(reading: &Reading, known: Option<Named>) -> Option<Rule>
    ensures { (lines : List line_type) → HasRead lines reading.now → result ≡ rule_of_recovered (called lines) known }
{
    let Some(known) = known else {
        return Some(Rule::Called);
    };
    if !is_called(reading, known) {
        return Some(Rule::Called);
    }
    None
}

// A line names an action that began, and this rule is about it.
fn of_named(reading: &Reading, header: &Header, named: Named, body: &Body) -> Option<Rule>
    ensures { (lines : List line_type) → HasRead lines reading.now → result ≡ named_rule header.now (met lines) body.now named }
{
    match body {
        Body::Ok { x, op, .. } => answer_rule(header, named, *x, op),
        Body::Committing { .. } => call_rule(reading, named),
        Body::Committed { .. } => committed_rule(reading, named),
        Body::Ended { .. } => ended_rule(reading, named),
        Body::Aborted { .. } => end_rule(reading, named),
        _ => None,
    }
}

// The label of the action that a line names, if it names one that is to have begun earlier.
fn label_in(body: &Body) -> Option<&Label>
    ensures { option_map name (option_copied result) ≡ label_of body.now }
{
    match body {
        Body::Ok { label, .. }
        | Body::Includes { label, .. }
        | Body::Conflict { label, .. }
        | Body::Lost { label, .. }
        | Body::Changed { label, .. }
        | Body::Committing { label }
        | Body::Committed { label }
        | Body::Ended { label }
        | Body::Aborted { label, .. }
        | Body::GaveUp { label, .. }
        | Body::Excluded { label, .. } => Some(label),
        _ => None,
    }
}

// The first rule that what a line says breaks.
fn body_rule(reading: &Reading, header: &Header, body: &Body) -> Option<Rule>
    ensures { (lines : List line_type) → HasRead lines reading.now → result ≡ rule_of_body header.now (met lines) body.now }
{
    match body {
        Body::Began {
            label,
            kind,
            uid,
            parent,
        } => begin_rule(reading, label, *kind, uid, parent),
        Body::Recovered { action, .. } => recovered_rule(reading, known_by(reading, action)),
        _ => match label_in(body) {
            None => None,
            Some(label) => match named_by(reading, label) {
                None => Some(Rule::Begun),
                Some(named) => of_named(reading, header, named, body),
            },
        },
    }
}

/// The first rule that a line breaks behind one of this event.
pub fn rule_of(reading: &Reading, header: &Header, last: u32, line: &Line) -> Option<Rule>
    ensures { (lines : List line_type) → HasRead lines reading.now → result ≡ line_rule header.now (met lines) last line.now }
{
    if line.event < last {
        return Some(Rule::Order);
    }
    body_rule(reading, header, &line.body)
}
