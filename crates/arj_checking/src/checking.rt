// The check of an input.
ghost use Rattle.std.specs.Prelude.{◌≡◌, ◌≢◌, ◌≤◌, ◌+◌, ℕ, List, IfOk, IfErr, None};
ghost use Rattle.arj_base.specs.Count.{Rose};
ghost use Rattle.arj_checking.specs.Checks.{Checks, Writes, ends};
ghost use Rattle.arj_checking.specs.Found.{FindsOrFails, Judges};
ghost use Rattle.arj_checking.specs.Taking.{IsAt, half_at};
ghost use Rattle.arj_lines.specs.Reading.{EndsSo, Gave, Input};
ghost use Rattle.arj_loop.specs.Input.{source_view};
ghost use Rattle.arj_script.specs.Input.{AtEnd, lines_of};

use crate::finding::Finding;
use crate::parts::{Parts, Stop};
use crate::text::text_of;
use arj_check::{check, no_difference_is_right};
use arj_io::{Failed, Sink, Source, write_all};
use arj_journal::Header;
use arj_lines::{Ending, Taker, read_lines};
use arj_loop::BadLine;
use arj_reading::CheckFault;
use std::alloc::Global;

/// Why nothing was found.
#[derive(Clone, Copy, Debug, PartialEq, Eq)]
pub enum Failure {
    /// A read failed.
    Read,
    /// Memory is wanting.
    Memory,
}

/// Checks the input that comes from the source, writes what was found, and answers the status; what was found is left in `found`.
///
/// 0: the journal can be read as a run, is serial, and its nested calls are in order. 2: a line is bad. 3: a read failed. 4: a
/// write failed. 5: memory was wanting. 6: the script or the journal has too many lines. 8: the journal can't be read as a run, or
/// an answer differs.
pub fn checked<S: Source, K: Sink>(
    alloc: Global,
    source: &mut S,
    sink: &mut K,
    found: &mut Option<Finding>,
) -> u8
    requires none { found.old ≡ None }
    ensures checks { Checks (ends (S.left source.old) (S.faults source.old) (K.taken sink.old)) (ends (S.left source.new) (S.faults source.new) (K.taken sink.new)) result found.new }
    ensures write_fault { result ≡ 4 → Rose (K.faults sink.old) (K.faults sink.new) }
    ensures no_write_fault { result ≢ 4 → K.faults sink.new ≡ K.faults sink.old }
    ensures statuses { result ≤ 8 }
{
    no_difference_is_right();
    match find(alloc, source) {
        Ok(finding) => write(alloc, sink, finding, found),
        Err(Failure::Read) => 3,
        Err(Failure::Memory) => 5,
    }
}

// Writes what was found, and answers the status.
fn write<K: Sink>(alloc: Global, sink: &mut K, finding: Finding, found: &mut Option<Finding>) -> u8
    requires none { found.old ≡ None }
    ensures writes { Writes (K.taken sink.old) (K.taken sink.new) finding result found.new }
    ensures write_fault { result ≡ 4 → Rose (K.faults sink.old) (K.faults sink.new) }
    ensures no_write_fault { result ≢ 4 → K.faults sink.new ≡ K.faults sink.old }
{
    let Ok(text) = text_of(alloc, &finding) else {
        return 5;
    };
    match write_all(sink, text.as_slice()) {
        Ok(()) => {
            let status = finding.status();
            *found = Some(finding);
            status
        }
        Err(Failed) => 4,
    }
}

// Reads the input to its end, or to where it can't be read on, and tells what was found.
fn find<S: Source>(alloc: Global, source: &mut S) -> Result<Finding, Failure>
    ensures { (given : Input) × Gave (source_view (S.left source.old) (S.faults source.old)) (source_view (S.left source.new) (S.faults source.new)) given × FindsOrFails given result }
{
    let mut parts = Parts::new(alloc);
    let ending = read_lines(alloc, source, &mut parts);
    finding_of(alloc, &parts, &ending)
}

// What was found, where reading ended so.
fn finding_of(alloc: Global, parts: &Parts, ending: &Ending<Stop>) -> Result<Finding, Failure>
    requires at { (given : Input) × EndsSo ⟦<Parts as Taker<Stop>>⟧ given parts.now ending.now }
    ensures { (given : Input) → EndsSo ⟦<Parts as Taker<Stop>>⟧ given parts.now ending.now → FindsOrFails given result }
{
    match ending {
        Ending::End => whole(alloc, parts),
        Ending::Fault => Err(Failure::Read),
        Ending::TooLong => Ok(bad_line(parts, BadLine::TooLong)),
        Ending::Stopped(Stop::Unknown) => Ok(bad_line(parts, BadLine::Unknown)),
        Ending::Stopped(Stop::Long) => Ok(Finding::Long(parts.half())),
        Ending::Stopped(Stop::Memory) => Err(Failure::Memory),
        Ending::Memory => Err(Failure::Memory),
    }
}

// The line behind those that were taken is bad.
fn bad_line(parts: &Parts, why: BadLine) -> Finding
    requires at { (done : List (List ℕ)) × IsAt done parts.now }
    ensures { result ≡ Finding.Bad (parts.now.lines + 1) (half_at parts.now) why }
{
    Finding::Bad {
        line: parts.lines + 1,
        half: parts.half(),
        why,
    }
}

// What was found of an input that was read to its end.
fn whole(alloc: Global, parts: &Parts) -> Result<Finding, Failure>
    requires at { (done : List (List ℕ)) × IsAt done parts.now }
    ensures { (given : Input) → given.stopped ≡ AtEnd → IsAt (lines_of AtEnd given.came) parts.now → FindsOrFails given result }
{
    if !parts.in_journal {
        return Ok(bad_line(parts, BadLine::Missing));
    }
    let Some(header) = &parts.header else {
        return Ok(bad_line(parts, BadLine::Missing));
    };
    judged(alloc, header, parts)
}

// What was found of a journal that was read to its end.
fn judged(alloc: Global, header: &Header, parts: &Parts) -> Result<Finding, Failure>
    ensures judges { IfOk result (λ finding. Judges header.now parts.now.journal finding) }
    ensures memory { IfErr result (λ why. why ≡ Failure.Memory) }
{
    match check(alloc, header, &parts.journal) {
        Ok(verdict) => Ok(Finding::Verdict(verdict)),
        Err(CheckFault::Unreadable(broken)) => Ok(Finding::Unreadable(broken)),
        Err(CheckFault::Memory) => Err(Failure::Memory),
    }
}
