// The lines of a script, up to the line `journal`.
ghost use Rattle.std.specs.Prelude.{◌≡◌, ◌≢◌, ◌++◌, ◌∷◌, ◌+◌, ◌⊎◌, [], ℕ, Err, None, Some, IfOk, OnOk, IfSome, codes, length, false};
ghost use Rattle.arj_journal.specs.ScriptForm.{HeaderInForm};
ghost use Rattle.arj_script.specs.Grammar.{Asks, Form, IsBadLine, Place, Start, next_place};
ghost use Rattle.arj_script.specs.Input.{Tells, TellsInForm};
ghost use Rattle.arj_seen.specs.Input.{AreScript, HasBadScript, HasNoJournal, IsNumber, IsScriptLine, asked_by as asked_by_form, header_after, script_text};
ghost use Rattle.arj_seen.specs.declared.fault.SeenFault.{SeenFault as fault_type};
ghost use Rattle.arj_seen.specs.declared.fault.SeenFault.TheVariants as seen_fault;
ghost use Rattle.arj_seen.specs.declared.seen.ScriptLine.{ScriptLine as script_line};
ghost use Rattle.arj_text.specs.Fields.{has_byte};

use crate::SeenFault;
use crate::seen::{Asked, ScriptLine};
use arj_base::Bytes;
use arj_journal::{Event, Header};
use arj_script::{Item, Reader, ScriptFault};
use arj_text::field::{cut, is_text};
use std::alloc::Global;

/// The lines of a script so far, and the header, once `run` has come.
#[derive(Drop)]
pub struct Script {
    pub header: Option<Header>,
    pub lines: Vec<ScriptLine>,
}

// What an event asks for.
fn asked_by(event: &Event) -> Asked
    ensures { result ≡ asked_by_form (Asks event.now) }
{
    match event {
        Event::Settle | Event::Quiesce => Asked::Settling,
        _ => Asked::Event,
    }
}

// What an item of a script asks for. A header that it has is kept.
fn note(item: Item, header: &mut Option<Header>) -> Asked
    ensures form { TellsInForm item → IfSome header.old HeaderInForm → IfSome header.new HeaderInForm }
    ensures asks { (place : Place) (form : Form) → Tells place form item → result ≡ asked_by_form form }
    ensures header { (place : Place) (form : Form) → Tells place form item → header.new ≡ header_after place form header.old }
{
    match item {
        Item::Blank | Item::Part => Asked::Nothing,
        Item::Run(run) => {
            *header = Some(run);
            Asked::Nothing
        }
        Item::Event(event) => asked_by(&event),
    }
}

// Takes a line, without its end.
fn take(
    alloc: Global,
    reader: &mut Reader,
    script: &mut Script,
    line: &[u8],
) -> Result<(), SeenFault>
    ensures header { IfSome script.old.header HeaderInForm → IfSome script.new.header HeaderInForm }
    ensures taken { OnOk result (has_byte 10 line.now ≡ false → (form : Form) × (last : script_line) × (script.new.lines.items ≡ script.old.lines.items ++ last ∷ [])
        × (last.text ≡ line.now) × IsScriptLine reader.old last form × (reader.new ≡ next_place reader.old form) × (script.new.header ≡ header_after reader.old form script.old.header)) }
    ensures bad { (fault : fault_type) → result ≡ Err fault → fault ≢ seen_fault.Memory
        → (number : ℕ) × (fault ≡ seen_fault.NotOfAScript number) × IsNumber number (length script.old.lines.items + 1) × IsBadLine reader.old line.now }
{
    let asked = match reader.line(line) {
        Ok(item) => note(item, &mut script.header),
        Err(ScriptFault::Bad) => {
            return Err(SeenFault::NotOfAScript(script.lines.len().saturating_add(1)));
        }
        Err(ScriptFault::Memory) => return Err(SeenFault::Memory),
    };
    let mut text = Bytes::new(alloc);
    text.extend(line)?;
    script.lines.push(ScriptLine { text, asked })?;
    Ok(())
}

/// The lines of a script up to the line `journal`, and what stands behind that one.
pub fn script_of(alloc: Global, bytes: &[u8]) -> Result<(Script, &[u8]), SeenFault>
    ensures read { IfOk result (λ found. IfSome found.0.header HeaderInForm
        × ((place : Place) × AreScript Start None found.0.lines.items place found.0.header)
        × (bytes.now ≡ script_text found.0.lines.items ++ (codes "journal\n" ++ found.1.now))) }
    ensures bad { (fault : fault_type) → result ≡ Err fault → fault ≢ seen_fault.Memory
        → (number : ℕ) × (((fault ≡ seen_fault.NotOfAScript number) × HasBadScript bytes.now number) ⊎ ((fault ≡ seen_fault.NoJournal number) × HasNoJournal bytes.now number)) }
{
    let mut reader = Reader::new(alloc);
    let mut script = Script {
        header: None,
        lines: Vec::new(alloc),
    };
    let mut rest = bytes;
    while let Some((line, behind)) = cut(rest, b'\n') {
        if is_text(line, b"journal") {
            return Ok((script, behind));
        }
        take(alloc, &mut reader, &mut script, line)?;
        rest = behind;
    }
    Err(SeenFault::NoJournal(script.lines.len()))
}
