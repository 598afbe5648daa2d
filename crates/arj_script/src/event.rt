// Events. Each reader tells exactly which event has this text.
ghost use Rattle.std.specs.Prelude.{IfOk};
ghost use Rattle.arj_journal.specs.ScriptText.{event_text};
ghost use Rattle.arj_text.specs.Fields.{IsRead};
ghost use Rattle.arj_script.specs.Events.{IsBeginning, IsOutside, IsPassing, IsWorking};
ghost use Rattle.arj_journal.specs.ScriptForm.{EventInForm};

use crate::event_part::{
    call, frame_behind, include, junk, label_at, label_behind, label_in, object_behind, stop,
    word_behind,
};
use arj_journal::Event;
use arj_text::field::is_text;
use std::alloc::{AllocError, Global};

/// Any event.
pub fn event(alloc: Global, bytes: &[u8]) -> Result<Option<Event>, AllocError>
    ensures { IfOk result (λ found. IsRead EventInForm event_text bytes.now found) }
{
    if let Some(event) = beginning(alloc, bytes)? {
        return Ok(Some(event));
    }
    if let Some(event) = working(alloc, bytes)? {
        return Ok(Some(event));
    }
    if let Some(event) = passing(alloc, bytes)? {
        return Ok(Some(event));
    }
    outside(alloc, bytes)
}

// An action begins.
fn beginning(alloc: Global, bytes: &[u8]) -> Result<Option<Event>, AllocError>
    ensures { IfOk result (λ found. IsRead IsBeginning event_text bytes.now found) }
{
    if let Some((label, node)) = label_at(alloc, b"begin ", bytes)? {
        return Ok(Some(Event::Begin { label, node }));
    }
    if let Some((label, parent)) = label_in(b"begin ", bytes) {
        return Ok(Some(Event::BeginIn { label, parent }));
    }
    if let Some((label, parent)) = label_in(b"top ", bytes) {
        return Ok(Some(Event::Top { label, parent }));
    }
    if let Some((label, node)) = label_at(alloc, b"serial ", bytes)? {
        return Ok(Some(Event::Serial { label, node }));
    }
    Ok(None)
}

// An action works or ends.
fn working(alloc: Global, bytes: &[u8]) -> Result<Option<Event>, AllocError>
    ensures { IfOk result (λ found. IsRead IsWorking event_text bytes.now found) }
{
    if let Some((label, x, op)) = call(alloc, bytes)? {
        return Ok(Some(Event::Call { label, x, op }));
    }
    if let Some((label, x, node)) = include(alloc, bytes)? {
        return Ok(Some(Event::Include { label, x, node }));
    }
    if let Some(label) = label_behind(b"commit ", bytes) {
        return Ok(Some(Event::Commit { label }));
    }
    if let Some(label) = label_behind(b"abort ", bytes) {
        return Ok(Some(Event::Abort { label }));
    }
    if let Some(label) = label_behind(b"giveup ", bytes) {
        return Ok(Some(Event::GiveUp { label }));
    }
    Ok(None)
}

// Frames or time go on.
fn passing(alloc: Global, bytes: &[u8]) -> Result<Option<Event>, AllocError>
    ensures { IfOk result (λ found. IsRead IsPassing event_text bytes.now found) }
{
    if let Some(frame) = frame_behind(alloc, b"deliver ", bytes)? {
        return Ok(Some(Event::Deliver { frame }));
    }
    if let Some(frame) = frame_behind(alloc, b"lose ", bytes)? {
        return Ok(Some(Event::Lose { frame }));
    }
    if let Some(node) = word_behind(alloc, b"tick ", bytes)? {
        return Ok(Some(Event::Tick { node }));
    }
    if is_text(bytes, b"settle") {
        return Ok(Some(Event::Settle));
    }
    if is_text(bytes, b"quiesce") {
        return Ok(Some(Event::Quiesce));
    }
    Ok(None)
}

// A node stops or starts, or something is asked of it from outside.
fn outside(alloc: Global, bytes: &[u8]) -> Result<Option<Event>, AllocError>
    ensures { IfOk result (λ found. IsRead IsOutside event_text bytes.now found) }
{
    if let Some(node) = word_behind(alloc, b"crash ", bytes)? {
        return Ok(Some(Event::Crash { node }));
    }
    if let Some(node) = word_behind(alloc, b"restart ", bytes)? {
        return Ok(Some(Event::Restart { node }));
    }
    if let Some((node, calls, kind)) = stop(alloc, bytes)? {
        return Ok(Some(Event::Stop { node, calls, kind }));
    }
    if let Some((node, bytes)) = junk(alloc, bytes)? {
        return Ok(Some(Event::Junk { node, bytes }));
    }
    if let Some(x) = object_behind(alloc, b"show ", bytes)? {
        return Ok(Some(Event::Show { x }));
    }
    Ok(None)
}
