// The command: client programs are read, run, and told of.
ghost use Rattle.std.specs.Prelude.{◌≡◌, ◌≢◌, ◌≤◌, ◌++◌, ◌∷◌, [], ℕ, List, None, OnOk, IfOk, IsErrOf};
ghost use Rattle.arj_base.specs.Count.{Rose};
ghost use Rattle.arj_journal.specs.LineText.{line_text as text_of_line};
ghost use Rattle.arj_journal.specs.declared.body.Line.{Line as line_type};
ghost use Rattle.arj_lines.specs.Reading.{Gave, Input};
ghost use Rattle.arj_loop.specs.Input.{source_view};
ghost use Rattle.arj_loop.specs.Replayed.{answer, outside};
ghost use Rattle.arj_programs.specs.Input.{IsFit};
ghost use Rattle.arj_programs.specs.Outcome.{RunsPrograms, SaysLast, outside_line};
ghost use Rattle.arj_programs.specs.Runs.{ComesSoFar, StopsAtFormat, left};
ghost use Rattle.arj_programs.specs.Said.{Comes, SaysPlan, SaysStop};

use crate::reading::{Stop, read};
use crate::running::{Halt, run_plan};
use crate::text::report_text;
use arj_base::Bytes;
use arj_disk::{Disk, Rack};
use arj_io::{Failed, Sink, Source, write_all};
use arj_journal::{Body, Line, Lines, Which, line_text};
use arj_loop::{BadLine, Machine};
use arj_prog::Plan;
use std::alloc::{AllocError, Global};

/// What is said, and with which status.
#[derive(Drop)]
pub struct Said {
    pub status: u8,
    pub text: Bytes,
}

/// Why nothing is said.
#[derive(Clone, Copy, Debug, PartialEq, Eq)]
pub enum Silence {
    /// A read failed.
    Read,
    /// A disk was stopped while it was formatted.
    Disk,
    /// Memory is wanting.
    Memory,
}

// Puts a line behind no event into an empty journal, and answers its text.
fn put_alone(alloc: Global, body: Body, journal: &mut Lines) -> Result<Bytes, AllocError>
    requires fresh { journal.old ≡ [] }
    ensures text { IfOk result (λ text. text ≡ text_of_line (outside_line body)) }
    ensures journal { OnOk result (journal.new ≡ outside_line body ∷ []) }
{
    let line = Line { event: 0, body };
    let text = line_text(alloc, &line)?;
    journal.push(line)?;
    Ok(text)
}

// Says why an input isn't run, where it says so by a line.
fn say_stop(
    alloc: Global,
    stop: Stop,
    journal: &mut Lines,
    why: &mut Option<BadLine>,
) -> Result<Said, Silence>
    requires fresh { journal.old ≡ [] }
    ensures said { IfOk result (λ said. SaysStop stop journal.new why.new said) }
    ensures read { IsErrOf result Silence.Read → (stop ≡ Stop.Fault) × (journal.new ≡ []) }
    ensures disk { IsErrOf result Silence.Disk → ⊥ }
{
    match stop {
        Stop::Bad { line, why: bad } => {
            *why = Some(bad);
            match put_alone(alloc, Body::Bad { line }, journal) {
                Ok(text) => Ok(Said { status: 2, text }),
                Err(_) => Err(Silence::Memory),
            }
        }
        Stop::Long => {
            let body = Body::Limit {
                which: Which::Lines,
            };
            match put_alone(alloc, body, journal) {
                Ok(text) => Ok(Said { status: 6, text }),
                Err(_) => Err(Silence::Memory),
            }
        }
        Stop::Fault => Err(Silence::Read),
        Stop::Memory => Err(Silence::Memory),
    }
}

// The text of the last line of a journal that has one.
fn last_text(alloc: Global, journal: &Lines) -> Result<Bytes, AllocError>
    requires some { (front : List line_type) × (last : line_type) × (journal.now ≡ front ++ last ∷ []) }
    ensures { IfOk result (λ text. SaysLast journal.now text) }
{
    match journal.as_slice().last() {
        Some(line) => line_text(alloc, line),
        None => Ok(Bytes::new(alloc)),
    }
}

// Runs a plan, and says what became of its programs, or that a limit was met.
fn say_run<D: Disk, M: Machine<D>>(
    alloc: Global,
    plan: Plan,
    rack: &mut Rack<D>,
    journal: &mut Lines,
    machine: &mut Option<M>,
) -> Result<Said, Silence>
    requires fit { IsFit plan }
    requires ready { M.ready rack.old }
    requires fresh { journal.old ≡ [] }
    requires none { machine.old ≡ None }
    ensures said { IfOk result (λ said. SaysPlan M.Machine plan rack.old (left rack.new journal.new machine.new) said) }
    ensures read { IsErrOf result Silence.Read → ⊥ }
    ensures disk { IsErrOf result Silence.Disk → StopsAtFormat M.Machine plan rack.old (left rack.new journal.new machine.new) }
    ensures memory { IsErrOf result Silence.Memory → ComesSoFar M.Machine plan rack.old rack.new }
{
    match run_plan::<D, M>(alloc, plan, rack, journal, machine) {
        Ok(report) => match report_text(alloc, &report) {
            Ok(text) => Ok(Said { status: 0, text }),
            Err(_) => Err(Silence::Memory),
        },
        Err(Halt::Limit) => match last_text(alloc, journal) {
            Ok(text) => Ok(Said { status: 6, text }),
            Err(_) => Err(Silence::Memory),
        },
        Err(Halt::Disk) => Err(Silence::Disk),
        Err(Halt::Memory) => Err(Silence::Memory),
    }
}

// Reads client programs to the input's end, runs them, and says what became of them, or why they weren't run.
fn say<S: Source, D: Disk, M: Machine<D>>(
    alloc: Global,
    source: &mut S,
    rack: &mut Rack<D>,
    journal: &mut Lines,
    why: &mut Option<BadLine>,
    machine: &mut Option<M>,
) -> Result<Said, Silence>
    requires ready { M.ready rack.old }
    requires fresh { journal.old ≡ [] }
    requires none { machine.old ≡ None }
    ensures { (given : Input) × Gave (source_view (S.left source.old) (S.faults source.old)) (source_view (S.left source.new) (S.faults source.new)) given
        × Comes M.Machine given rack.old (left rack.new journal.new machine.new) why.new result }
{
    match read(alloc, source) {
        Ok(plan) => say_run(alloc, plan, rack, journal, machine),
        Err(stop) => say_stop(alloc, stop, journal, why),
    }
}

/// Reads client programs from the source, runs them by their schedule on a machine over these disks, writes what became of them, and
/// answers the status. The journal is left in `journal` and the machine, once the disks were formatted, in `machine` at every
/// status but 5, and at status 2 why a line is bad in `why`.
///
/// 0: the programs were run, and what became of them was written. 2: a line is bad. 3: a read failed. 4: a write failed. 5: memory
/// was wanting. 6: a limit was met. 7: a disk was stopped while it was formatted.
pub fn run_programs<S: Source, K: Sink, D: Disk, M: Machine<D>>(
    alloc: Global,
    source: &mut S,
    sink: &mut K,
    rack: &mut Rack<D>,
    journal: &mut Lines,
    why: &mut Option<BadLine>,
    machine: &mut Option<M>,
) -> u8
    requires ready { M.ready rack.old }
    requires fresh { journal.old ≡ [] }
    requires none { machine.old ≡ None }
    ensures runs { RunsPrograms M.Machine (outside (S.left source.old) (S.faults source.old) (K.taken sink.old) rack.old) (outside (S.left source.new) (S.faults source.new) (K.taken sink.new) rack.new) (answer result why.new journal.new machine.new) }
    ensures statuses { (result ≤ 7) × (result ≢ 1) }
    ensures read_fault { result ≡ 3 → Rose (S.faults source.old) (S.faults source.new) }
    ensures write_fault { result ≡ 4 → Rose (K.faults sink.old) (K.faults sink.new) }
    ensures no_write_fault { result ≢ 4 → K.faults sink.new ≡ K.faults sink.old }
{
    match say(alloc, source, rack, journal, why, machine) {
        Ok(said) => match write_all(sink, said.text.as_slice()) {
            Ok(()) => said.status,
            Err(Failed) => 4,
        },
        Err(Silence::Read) => 3,
        Err(Silence::Disk) => 7,
        Err(Silence::Memory) => 5,
    }
}
