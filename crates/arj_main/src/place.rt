// Where a line of a script stands.
ghost use Rattle.std.specs.Prelude.{◌≡◌, ◌-◌, IfSome, None, true};
ghost use Rattle.arj_main.specs.Pieces.{pieces};
ghost use Rattle.arj_main.specs.Places.{Leads, grammar_place};
ghost use Rattle.arj_script.specs.Grammar.{Form, HasForm, Start, next_place, nodes_at};

use arj_journal::Header;
use arj_script::{Item, Reader, ScriptFault};
use arj_text::field::cut;
use std::alloc::Global;

/// Where a line stands, by the lines before it: at the start, in the header, of which this has come, or behind `run`.
#[derive(Drop)]
pub enum Place {
    Start,
    Header(Header),
    Running,
}

/// Where the line with this number, from 1, stands. None where a line before it can't be read, or memory is wanting.
pub fn place_of_line(alloc: Global, script: &[u8], number: usize) -> Option<Place>
    ensures { IfSome result (λ place. Leads Start (number - 1) (pieces 10 script.now) (grammar_place place)) }
{
    let mut reader = Reader::new(alloc);
    let mut rest = script;
    let before = number.saturating_sub(1);
    for _ in 0..before {
        let Some((line, behind)) = cut(rest, b'\n') else {
            return place_behind(&mut reader, rest);
        };
        if takes(&mut reader, line) {
            rest = behind;
        } else {
            return None;
        }
    }
    place_at(&mut reader)
}

// The place behind one line more.
fn place_behind(reader: &mut Reader, line: &[u8]) -> Option<Place>
    ensures { IfSome result (λ place. (form : Form) × HasForm reader.old line.now form
        × (grammar_place place ≡ next_place reader.old form)) }
{
    if !takes(reader, line) {
        return None;
    }
    place_at(reader)
}

// Whether the reader takes a line.
fn takes(reader: &mut Reader, line: &[u8]) -> bool
    ensures { result ≡ true → (form : Form) × HasForm reader.old line.now form
        × (reader.new ≡ next_place reader.old form) }
{
    reader.line(line).is_ok()
}

// The place of a reader, which is asked for what it would take next.
fn place_at(reader: &mut Reader) -> Option<Place>
    ensures { IfSome result (λ place. grammar_place place ≡ reader.old) }
{
    if reader.nodes().is_some() {
        return header_at(reader);
    }
    match reader.line(b"settle") {
        Ok(Item::Event(_)) => Some(Place::Running),
        Err(ScriptFault::Bad) => start_at(reader),
        _ => None,
    }
}

// The header that the line `run` would end.
fn header_at(reader: &mut Reader) -> Option<Place>
    ensures { IfSome result (λ place. grammar_place place ≡ reader.old) }
{
    match reader.line(b"run") {
        Ok(Item::Run(header)) => Some(Place::Header(header)),
        _ => None,
    }
}

// The start, which takes the first line of a header; no header is behind it.
fn start_at(reader: &mut Reader) -> Option<Place>
    requires { nodes_at reader.old ≡ None }
    ensures { IfSome result (λ place. grammar_place place ≡ reader.old) }
{
    match reader.line(b"nodes 1") {
        Ok(Item::Part) => Some(Place::Start),
        _ => None,
    }
}
