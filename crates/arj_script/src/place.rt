// What a line says at its place.
ghost use Rattle.std.specs.Prelude.{◌≡◌, ◌≢◌, ◌≤◌, ℕ, [], false, length, IfOk, OnOk, OnErr, IsErrOf, MatchBool, insert};
ghost use Rattle.arj_text.specs.Fields.{IsWithin};
ghost use Rattle.arj_journal.specs.ScriptText.{event_text, nodes_text, object_text};
ghost use Rattle.arj_journal.specs.declared.event.Event.{Event};
ghost use Rattle.arj_journal.specs.declared.header.ObjectLine.{ObjectLine};
ghost use Rattle.arj_journal.specs.ScriptForm.{AreHeld, EventInForm, ObjectLineInForm, ObjectsInForm};
ghost use Rattle.arj_base.specs.declared.state.Format.TheVariants as formats;
ghost use Rattle.arj_class.specs.Forms.{FormatHolds};
ghost use Rattle.arj_script.specs.Grammar.{IsBlank, has_object, insert_object};
ghost use Rattle.arj_script.specs.declared.fault.ScriptFault.TheVariants as script_fault;

use crate::ScriptFault;
use crate::event::event;
use crate::form::{nodes_line, object};
use arj_base::Format;
use arj_class::{Value, register_bytes};
use arj_journal::{Event, NODES, ObjectLine};
use std::alloc::Global;

/// Whether the line is empty or a comment.
pub fn is_blank(bytes: &[u8]) -> bool
    ensures { MatchBool result (IsBlank bytes.now) (IsBlank bytes.now → ⊥) }
{
    match bytes {
        [] => true,
        [first, ..] => *first == b'#',
    }
}

/// The first line that says something: how many nodes there are.
pub fn first_line(alloc: Global, bytes: &[u8]) -> Result<u8, ScriptFault>
    ensures ok { IfOk result (λ n. IsWithin 1 NODES n × (bytes.now ≡ nodes_text n)) }
    ensures bad { IsErrOf result script_fault.Bad → (n : ℕ) → IsWithin 1 NODES n → bytes.now ≢ nodes_text n }
{
    match nodes_line(alloc, bytes)? {
        Some(n) => Ok(n as u8),
        None => Err(ScriptFault::Bad),
    }
}

/// The line `format 1`: it stands once, before all objects.
pub fn format_line(format: &mut Format, objects: &[ObjectLine]) -> Result<(), ScriptFault>
    ensures ok { OnOk result ((format.old ≡ formats.Two) × (objects.now ≡ []) × (format.new ≡ formats.One)) }
    ensures bad { IsErrOf result script_fault.Bad → format.old ≡ formats.Two → objects.now ≢ [] }
    ensures err { OnErr result (format.new ≡ format.old) }
{
    match (*format, objects) {
        (Format::Two, []) => {
            *format = Format::One;
            Ok(())
        }
        _ => Err(ScriptFault::Bad),
    }
}

/// Whether states of the format hold the value: a register's bytes are limited.
pub fn holds(format: Format, value: &Value) -> bool
    ensures { MatchBool result (FormatHolds format value.now) (FormatHolds format value.now → ⊥) }
{
    match value {
        Value::Register(register) => register.bytes().len() <= register_bytes(format),
        _ => true,
    }
}

/// An object line: the object goes among those before it, which have other numbers. States of the format hold its value.
pub fn object_line(
    alloc: Global,
    nodes: u8,
    format: Format,
    objects: &mut Vec<ObjectLine>,
    bytes: &[u8],
) -> Result<(), ScriptFault>
    ensures ok { OnOk result ((o : ObjectLine) × ObjectLineInForm nodes o × (bytes.now ≡ object_text o)
        × (has_object o.x objects.old.items ≡ false) × FormatHolds format o.value
        × (objects.new.items ≡ insert_object o objects.old.items)) }
    ensures bad { IsErrOf result script_fault.Bad → (o : ObjectLine) → ObjectLineInForm nodes o
        → has_object o.x objects.old.items ≡ false → FormatHolds format o.value → bytes.now ≢ object_text o }
    ensures err { OnErr result (objects.new.items ≡ objects.old.items) }
    ensures in_form { ObjectsInForm nodes objects.old.items → ObjectsInForm nodes objects.new.items }
    ensures held { AreHeld format objects.old.items → AreHeld format objects.new.items }
{
    let Some(new) = object(alloc, bytes, nodes)? else {
        return Err(ScriptFault::Bad);
    };
    if has_number(objects, new.x) {
        return Err(ScriptFault::Bad);
    }
    if !holds(format, &new.value) {
        return Err(ScriptFault::Bad);
    }
    let at = place_among(objects, new.x);
    objects.insert(at, new)?;
    Ok(())
}

// Whether an object has this number.
fn has_number(objects: &[ObjectLine], x: u16) -> bool
    ensures { result ≡ has_object x objects.now }
{
    for other in objects {
        if other.x == x {
            return true;
        }
    }
    false
}

// Where an object of this number belongs among the others.
fn place_among(objects: &[ObjectLine], x: u16) -> usize
    ensures within { result ≤ length objects.now }
    ensures place { (o : ObjectLine) → o.x ≡ x → insert objects.now result o ≡ insert_object o objects.now }
{
    for (at, other) in objects.iter().enumerate() {
        if x < other.x {
            return at;
        }
    }
    objects.len()
}

/// An event line.
pub fn event_line(alloc: Global, bytes: &[u8]) -> Result<Event, ScriptFault>
    ensures ok { IfOk result (λ e. EventInForm e × (bytes.now ≡ event_text e)) }
    ensures bad { IsErrOf result script_fault.Bad
        → (e : Event) → EventInForm e → bytes.now ≢ event_text e }
{
    match event(alloc, bytes)? {
        Some(event) => Ok(event),
        None => Err(ScriptFault::Bad),
    }
}
