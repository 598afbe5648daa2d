// The lines of a journal.
ghost use Rattle.std.specs.Prelude.{◌≡◌, ◌≢◌, ◌+◌, ℕ, Err, IfOk, length};
ghost use Rattle.std.specs.List.{AllByRecursion};
ghost use Rattle.arj_journal.specs.LineForm.{LineInForm};
ghost use Rattle.arj_journal.specs.LineText.{line_text, text};
ghost use Rattle.arj_journal.specs.declared.body.Line.{Line as line_type};
ghost use Rattle.arj_seen.specs.Input.{HasBadLine, IsNumber};
ghost use Rattle.arj_seen.specs.declared.fault.SeenFault.{SeenFault as fault_type};
ghost use Rattle.arj_seen.specs.declared.fault.SeenFault.TheVariants as seen_fault;

use crate::SeenFault;
use crate::cutting::first_line;
use arj_journal::{Line, Lines};
use arj_journal_reader::{LineFault, read_line};
use std::alloc::Global;

// The line of this number, with its end.
fn line_of(alloc: Global, bytes: &[u8], number: usize) -> Result<Line, SeenFault>
    ensures read { IfOk result (λ line. LineInForm line × (bytes.now ≡ line_text line)) }
    ensures bad { (fault : fault_type) → result ≡ Err fault → fault ≢ seen_fault.Memory
        → (fault ≡ seen_fault.NotOfAJournal number) × ((l : line_type) → LineInForm l → bytes.now ≢ line_text l) }
{
    match read_line(alloc, bytes) {
        Ok(line) => Ok(line),
        Err(LineFault::NotALine) => Err(SeenFault::NotOfAJournal(number)),
        Err(LineFault::Memory) => Err(SeenFault::Memory),
    }
}

// The number of the line behind so many lines, of which so many are of a journal.
fn number_behind(before: usize, lines: usize) -> usize
    ensures { IsNumber result (before + (lines + 1)) }
{
    before.saturating_add(lines).saturating_add(1)
}

/// The lines of a journal, behind so many lines of the input.
pub fn journal_of(alloc: Global, before: usize, bytes: &[u8]) -> Result<Lines, SeenFault>
    ensures read { IfOk result (λ lines. AllByRecursion LineInForm lines × (bytes.now ≡ text lines)) }
    ensures bad { (fault : fault_type) → result ≡ Err fault → fault ≢ seen_fault.Memory
        → (number : ℕ) × (fault ≡ seen_fault.NotOfAJournal number) × HasBadLine before bytes.now number }
{
    let mut lines = Lines::new(alloc);
    let mut rest = bytes;
    while let Some((line, behind)) = first_line(rest) {
        let number = number_behind(before, lines.as_slice().len());
        lines.push(line_of(alloc, line, number)?)?;
        rest = behind;
    }
    if rest.len() > 0 {
        return Err(SeenFault::NotOfAJournal(number_behind(before, lines.as_slice().len())));
    }
    Ok(lines)
}
