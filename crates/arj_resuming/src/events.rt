// Lines of events, behind an image.
ghost use Rattle.std.specs.Prelude.{◌≡◌, ◌++◌, ◌∷◌, [], IfOk, OnOk, OnErr, IsErrOf};
ghost use Rattle.arj_resuming.specs.Told.{told_events};
ghost use Rattle.arj_script.specs.Grammar.{Form, HasForm, IsBadLine, Running};
ghost use Rattle.arj_script.specs.Input.{events_of};
ghost use Rattle.arj_script.specs.declared.fault.ScriptFault.TheVariants as script_fault;

use arj_journal::Event;
use arj_script::{Item, Reader, ScriptFault};
use std::alloc::{AllocError, Global};

/// A reader that stands behind `run`: it takes lines of events alone.
pub fn events_reader(alloc: Global) -> Result<Reader, AllocError>
    ensures { IfOk result (λ reader. reader ≡ Running) }
{
    let mut reader = Reader::new(alloc);
    let Ok(_nodes) = reader.line(b"nodes 1") else {
        return Err(AllocError);
    };
    let Ok(_run) = reader.line(b"run") else {
        return Err(AllocError);
    };
    Ok(reader)
}

// Puts the event that a line was, if it was one, behind these.
fn put_event(events: &mut Vec<Event>, item: Item) -> Result<(), AllocError>
    ensures put { OnOk result (events.new.items ≡ events.old.items ++ told_events item) }
    ensures err { OnErr result (events.new.items ≡ events.old.items) }
{
    match item {
        Item::Event(event) => {
            events.push(event)?;
            Ok(())
        }
        _ => Ok(()),
    }
}

/// Takes a line behind the line `events`: an event, which is put behind these, an empty line or a comment. One that is refused changes nothing.
pub fn event_line(
    script: &mut Reader,
    events: &mut Vec<Event>,
    line: &[u8],
) -> Result<(), ScriptFault>
    requires place { script.old ≡ Running }
    ensures taken { OnOk result ((form : Form) × HasForm Running line.now form × (events.new.items ≡ events.old.items ++ events_of (form ∷ []))) }
    ensures place { script.new ≡ Running }
    ensures bad { IsErrOf result script_fault.Bad → IsBadLine Running line.now }
    ensures err { OnErr result (events.new.items ≡ events.old.items) }
{
    match script.line(line) {
        Ok(item) => match put_event(events, item) {
            Ok(()) => Ok(()),
            Err(_) => Err(ScriptFault::Memory),
        },
        Err(fault) => Err(fault),
    }
}
