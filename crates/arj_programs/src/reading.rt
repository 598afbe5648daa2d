// The plan of an input.
ghost use Rattle.std.specs.Prelude.{◌≡◌, ◌<◌, ◌+◌, ℕ, List};
ghost use Rattle.arj_lines.specs.Reading.{EndsSo, Gave, Input};
ghost use Rattle.arj_loop.specs.Input.{source_view};
ghost use Rattle.arj_prog.specs.declared.plan.Plan.{Plan as plan_type};
ghost use Rattle.arj_programs.specs.Input.{IsFit, IsPlan, Reads};
ghost use Rattle.arj_programs.specs.Taking.{IsAt};
ghost use Rattle.arj_journal.specs.ScriptForm.{HeaderInForm};

use crate::taking::{Refusal, Taking};
use arj_io::Source;
use arj_lines::{Ending, Taker, read_lines};
use arj_loop::BadLine;
use arj_prog::{Plan, lines_are_kept};
use arj_progrun::plans_are_in_form;
use std::alloc::Global;

/// Why an input isn't run.
#[derive(Clone, Copy, Debug, PartialEq, Eq)]
pub enum Stop {
    /// The line with this number, counted from 1, is bad.
    Bad { line: u32, why: BadLine },
    /// It has more lines than it may have.
    Long,
    /// A read failed.
    Fault,
    /// Memory is wanting.
    Memory,
}

/// A plan that was read has no more turns and programs than it may have, and all that it says is in form. It does nothing when it
/// runs.
pub fn plans_are_fit()
    ensures { (lines : List (List ℕ)) (plan : plan_type) → HeaderInForm plan.header → IsPlan lines plan → IsFit plan }
{
    lines_are_kept();
    plans_are_in_form();
}

/// Reads client programs to the input's end.
pub fn read<S: Source>(alloc: Global, source: &mut S) -> Result<Plan, Stop>
    ensures { (given : Input) × Gave (source_view (S.left source.old) (S.faults source.old)) (source_view (S.left source.new) (S.faults source.new)) given × Reads given result }
{
    let mut taking = Taking::new(alloc);
    let ending = read_lines(alloc, source, &mut taking);
    plan_of(&mut taking, &ending)
}

// The plan, where reading ended so.
fn plan_of(taking: &mut Taking, ending: &Ending<Refusal>) -> Result<Plan, Stop>
    requires at { (given : Input) × EndsSo ⟦<Taking as Taker<Refusal>>⟧ given taking.old ending.now }
    ensures { (given : Input) → EndsSo ⟦<Taking as Taker<Refusal>>⟧ given taking.old ending.now → Reads given result }
{
    plans_are_fit();
    let lines = taking.lines;
    match ending {
        Ending::End => match taking.plan.take() {
            Some(plan) => Ok(plan),
            None => Err(bad_line(lines, BadLine::Missing)),
        },
        Ending::Fault => Err(Stop::Fault),
        Ending::TooLong => Err(bad_line(lines, BadLine::TooLong)),
        Ending::Stopped(Refusal::Unknown) => Err(bad_line(lines, BadLine::Unknown)),
        Ending::Stopped(Refusal::Long) => Err(Stop::Long),
        Ending::Stopped(Refusal::Memory) => Err(Stop::Memory),
        Ending::Memory => Err(Stop::Memory),
    }
}

// The line behind so many is bad.
fn bad_line(lines: u32, why: BadLine) -> Stop
    requires few { lines < 4294967295 }
    ensures { result ≡ Stop.Bad (lines + 1) why }
{
    Stop::Bad {
        line: lines + 1,
        why,
    }
}
