// The audit of an input.
ghost use Rattle.std.specs.Prelude.{◌≡◌, ◌≢◌, ◌≤◌, ◌+◌, ℕ, List, IfOk, IfErr};
ghost use Rattle.arj_base.specs.Count.{Rose};
ghost use Rattle.arj_auditing.specs.Audits.{Audits, Writes};
ghost use Rattle.arj_auditing.specs.Found.{FindsOrFails, Judges};
ghost use Rattle.arj_auditing.specs.Taking.{IsAt};
ghost use Rattle.arj_checking.specs.Checks.{ends};
ghost use Rattle.arj_lines.specs.Reading.{EndsSo, Gave, Input};
ghost use Rattle.arj_loop.specs.Input.{source_view};
ghost use Rattle.arj_script.specs.Input.{AtEnd, lines_of};

use crate::finding::Finding;
use crate::intake::{Intake, Stop};
use crate::text::text_of;
use arj_audit::audit;
use arj_image::Image;
use arj_io::{Failed, Sink, Source, write_all};
use arj_lines::{Ending, Taker, read_lines};
use arj_loop::BadLine;
use arj_reading::CheckFault;
use std::alloc::Global;

/// Why nothing was found.
#[derive(Clone, Copy, Debug, PartialEq, Eq)]
pub enum Failure {
    /// A read failed.
    Read,
    /// Memory is wanting.
    Memory,
}

/// Audits the image that comes from the source, writes what was found of it, and answers the status.
///
/// 0: a run can go on from the image. 2: a line is bad. 3: a read failed. 4: a write failed. 5: memory was wanting. 6: there are too
/// many lines. 8: the journal can't be read as a run, or no run can go on from the image.
pub fn audited<S: Source, K: Sink>(alloc: Global, source: &mut S, sink: &mut K) -> u8
    ensures audits { Audits (ends (S.left source.old) (S.faults source.old) (K.taken sink.old)) (ends (S.left source.new) (S.faults source.new) (K.taken sink.new)) result }
    ensures write_fault { result ≡ 4 → Rose (K.faults sink.old) (K.faults sink.new) }
    ensures no_write_fault { result ≢ 4 → K.faults sink.new ≡ K.faults sink.old }
    ensures statuses { result ≤ 8 }
{
    match look(alloc, source) {
        Ok(finding) => write(alloc, sink, &finding),
        Err(Failure::Read) => 3,
        Err(Failure::Memory) => 5,
    }
}

// Writes what was found, and answers the status.
fn write<K: Sink>(alloc: Global, sink: &mut K, finding: &Finding) -> u8
    ensures writes { Writes (K.taken sink.old) (K.taken sink.new) finding.now result }
    ensures write_fault { result ≡ 4 → Rose (K.faults sink.old) (K.faults sink.new) }
    ensures no_write_fault { result ≢ 4 → K.faults sink.new ≡ K.faults sink.old }
{
    let Ok(text) = text_of(alloc, finding) else {
        return 5;
    };
    match write_all(sink, text.as_slice()) {
        Ok(()) => finding.status(),
        Err(Failed) => 4,
    }
}

// Reads the input to its end, or to where it can't be read on, and tells what was found.
fn look<S: Source>(alloc: Global, source: &mut S) -> Result<Finding, Failure>
    ensures { (given : Input) × Gave (source_view (S.left source.old) (S.faults source.old)) (source_view (S.left source.new) (S.faults source.new)) given × FindsOrFails given result }
{
    let mut intake = Intake::new(alloc);
    let ending = read_lines(alloc, source, &mut intake);
    finding_of(alloc, intake, &ending)
}

// What was found, where reading ended so.
fn finding_of(alloc: Global, intake: Intake, ending: &Ending<Stop>) -> Result<Finding, Failure>
    requires at { (given : Input) × EndsSo ⟦<Intake as Taker<Stop>>⟧ given intake ending.now }
    ensures { (given : Input) → EndsSo ⟦<Intake as Taker<Stop>>⟧ given intake ending.now → FindsOrFails given result }
{
    match ending {
        Ending::End => whole(alloc, intake),
        Ending::Fault => Err(Failure::Read),
        Ending::TooLong => Ok(bad_line(&intake, BadLine::TooLong)),
        Ending::Stopped(Stop::Unknown) => Ok(bad_line(&intake, BadLine::Unknown)),
        Ending::Stopped(Stop::Long) => Ok(Finding::Long),
        Ending::Stopped(Stop::Memory) => Err(Failure::Memory),
        Ending::Memory => Err(Failure::Memory),
    }
}

// The line behind those that were taken is bad.
fn bad_line(intake: &Intake, why: BadLine) -> Finding
    requires at { (done : List (List ℕ)) × IsAt done intake.now }
    ensures { result ≡ Finding.Bad (intake.now.lines + 1) why }
{
    Finding::Bad {
        line: intake.lines + 1,
        why,
    }
}

// What was found of an input that was read to its end.
fn whole(alloc: Global, intake: Intake) -> Result<Finding, Failure>
    requires at { (done : List (List ℕ)) × IsAt done intake }
    ensures { (given : Input) → given.stopped ≡ AtEnd → IsAt (lines_of AtEnd given.came) intake → FindsOrFails given result }
{
    let missing = bad_line(&intake, BadLine::Missing);
    match intake.reader.finish() {
        None => Ok(missing),
        Some(image) => judged(alloc, &image),
    }
}

// What was found of an image.
fn judged(alloc: Global, image: &Image) -> Result<Finding, Failure>
    ensures judges { IfOk result (λ finding. Judges image.now finding) }
    ensures memory { IfErr result (λ why. why ≡ Failure.Memory) }
{
    match audit(alloc, image) {
        Ok(findings) => Ok(Finding::Found(findings)),
        Err(CheckFault::Unreadable(broken)) => Ok(Finding::Unreadable(broken)),
        Err(CheckFault::Memory) => Err(Failure::Memory),
    }
}
