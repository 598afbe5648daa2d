// The lines of an input: those of a script, the line `journal`, and those of a journal.
ghost use Rattle.std.specs.Prelude.{◌≡◌, ◌<◌, ◌≤◌, ◌+◌, ◌++◌, ◌∷◌, [], ⊤, ℕ, List, true, false, length, IfOk, OnOk, OnErr, IfErr, IsErrOf, MatchBool};
ghost use Rattle.arj_journal.specs.declared.body.Line.{Line as line_type};
ghost use Rattle.arj_journal.specs.LineForm.{LineInForm};
ghost use Rattle.arj_journal.specs.LineText.{line_text as text_of_line};
ghost use Rattle.arj_journal_reader.specs.declared.fault.LineFault.TheVariants as line_fault;
ghost use Rattle.arj_checking.specs.Parts.{BeginsJournal, IsLine, IsNoLine};
ghost use Rattle.arj_checking.specs.Taking.{IsAt, StopsAt, half_at, header_after, most_at, room_at};
ghost use Rattle.arj_checking.specs.declared.limits.TheConstants.{JOURNAL_LINES, JOURNAL_LINE_BYTES};
ghost use Rattle.arj_script.specs.declared.limits.TheConstants.{LINE_BYTES, SCRIPT_LINES};

use crate::finding::Half;
use crate::limits::{JOURNAL_LINE_BYTES, JOURNAL_LINES};
use arj_base::Bytes;
use arj_journal::{Header, Line, Lines};
use arj_journal_reader::{LineFault, read_line};
use arj_lines::Taker;
use arj_script::{Item, LINE_BYTES, Reader, SCRIPT_LINES, ScriptFault};
use std::alloc::{AllocError, Global};

/// Why a line of the input wasn't taken.
#[derive(Clone, Copy, Debug, PartialEq, Eq)]
pub enum Stop {
    /// It isn't what may stand at its place.
    Unknown,
    /// It is one more than its half may have.
    Long,
    /// Memory is wanting.
    Memory,
}

/// What has come of an input, line by line.
#[derive(Drop)]
pub struct Parts {
    alloc: Global,
    /// Where the script stands.
    pub reader: Reader,
    /// The header of the script, once `run` was read.
    pub header: Option<Header>,
    /// How many lines were taken.
    pub lines: u32,
    /// Whether the line `journal` was read.
    pub in_journal: bool,
    /// The lines of the journal.
    pub journal: Lines,
}

impl Parts {
    /// Before the first line.
    pub fn new(alloc: Global) -> Parts
        ensures { IsAt [] result }
    {
        Parts {
            alloc,
            reader: Reader::new(alloc),
            header: None,
            lines: 0,
            in_journal: false,
            journal: Lines::new(alloc),
        }
    }

    /// The half in which the next line stands.
    pub fn half(&self) -> Half
        ensures { result ≡ half_at self.now }
    {
        match self.in_journal {
            true => Half::Journal,
            false => Half::Script,
        }
    }

    // Whether a line is the one that ends the script.
    fn begins_journal(&self, line: &[u8]) -> bool
        ensures { MatchBool result (BeginsJournal self.now.header line.now) (BeginsJournal self.now.header line.now → ⊥) }
    {
        match &self.header {
            Some(_) => line == b"journal".as_slice(),
            None => false,
        }
    }

    // Takes the line that ends the script.
    fn begin_journal(&mut self)
        requires few { self.old.lines < 4294967295 }
        ensures { self.new ≡ record self.old { lines = self.old.lines + 1; in_journal = true } }
    {
        self.lines += 1;
        self.in_journal = true;
    }

    // Takes a line of the script.
    fn take_script_line(&mut self, line: &[u8]) -> Result<(), Stop>
        requires at { (done : List (List ℕ)) × IsAt done self.old }
        requires half { self.old.in_journal ≡ false }
        requires other { BeginsJournal self.old.header line.now → ⊥ }
        ensures took { OnOk result ((done : List (List ℕ)) → IsAt done self.old → IsAt (done ++ line.now ∷ []) self.new) }
        ensures less { OnOk result (room_at self.new < room_at self.old) }
        ensures stopped { IfErr result (λ why. (done : List (List ℕ)) → IsAt done self.old → StopsAt done line.now why self.new) }
    {
        if self.lines as usize >= SCRIPT_LINES {
            return Err(Stop::Long);
        }
        match self.reader.line(line) {
            Ok(item) => {
                self.keep(item);
                Ok(())
            }
            Err(ScriptFault::Bad) => Err(Stop::Unknown),
            Err(ScriptFault::Memory) => Err(Stop::Memory),
        }
    }

    // Counts a line of the script, and keeps the header that it ends, if it ends one.
    fn keep(&mut self, item: Item)
        requires few { self.old.lines < 4294967295 }
        ensures { self.new ≡ record self.old { header = header_after item self.old.header; lines = self.old.lines + 1 } }
    {
        self.lines += 1;
        if let Item::Run(header) = item {
            self.header = Some(header);
        }
    }

    // Takes a line of the journal.
    fn take_journal_line(&mut self, line: &[u8]) -> Result<(), Stop>
        requires at { (done : List (List ℕ)) × IsAt done self.old }
        requires half { self.old.in_journal ≡ true }
        requires short { length line.now ≤ JOURNAL_LINE_BYTES }
        ensures took { OnOk result ((done : List (List ℕ)) → IsAt done self.old → IsAt (done ++ line.now ∷ []) self.new) }
        ensures less { OnOk result (room_at self.new < room_at self.old) }
        ensures stopped { IfErr result (λ why. (done : List (List ℕ)) → IsAt done self.old → StopsAt done line.now why self.new) }
    {
        if self.journal.as_slice().len() >= JOURNAL_LINES {
            return Err(Stop::Long);
        }
        match read_bare(self.alloc, line) {
            Ok(read) => self.push(read),
            Err(LineFault::NotALine) => Err(Stop::Unknown),
            Err(LineFault::Memory) => Err(Stop::Memory),
        }
    }

    // Puts a line behind the journal. The stop is Memory.
    fn push(&mut self, line: Line) -> Result<(), Stop>
        requires few { self.old.lines < 4294967295 }
        ensures pushed { OnOk result (self.new ≡ record self.old { lines = self.old.lines + 1; journal = self.old.journal ++ line ∷ [] }) }
        ensures only { IfErr result (λ why. why ≡ Stop.Memory) }
    {
        match self.journal.push(line) {
            Ok(()) => {
                self.lines += 1;
                Ok(())
            }
            Err(AllocError) => Err(Stop::Memory),
        }
    }
}

// Reads a journal line, without its line feed.
fn read_bare(alloc: Global, bytes: &[u8]) -> Result<Line, LineFault>
    ensures read { IfOk result (λ l. LineInForm l × (bytes.now ++ 10 ∷ [] ≡ text_of_line l)) }
    ensures none { IsErrOf result line_fault.NotALine → (l : line_type) → LineInForm l → bytes.now ++ 10 ∷ [] ≡ text_of_line l → ⊥ }
{
    let mut text = Bytes::new(alloc);
    text.extend(bytes)?;
    text.extend(b"\n")?;
    read_line(alloc, text.as_slice())
}

impl Taker<Stop> for Parts {
    ghost stands = { IsAt };

    ghost most = { most_at };

    ghost room = { room_at };

    ghost stops = { StopsAt };

    fn most_bytes(&self) -> u32 {
        match self.in_journal {
            true => JOURNAL_LINE_BYTES,
            false => LINE_BYTES as u32,
        }
    }

    fn take(&mut self, line: &[u8]) -> Result<(), Stop> {
        if self.in_journal {
            return self.take_journal_line(line);
        }
        if self.begins_journal(line) {
            self.begin_journal();
            return Ok(());
        }
        self.take_script_line(line)
    }
}
