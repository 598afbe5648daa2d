// Programs that are being read, under their header.
ghost use Rattle.std.specs.Prelude.{◌≡◌, ◌≢◌, IfOk, MatchOption, true, false, None, Some, Bool, OnErr, OnOk, IsErrOf};
ghost use Rattle.std.specs.Str.{bytes_eq};
ghost use Rattle.arj_prog.specs.Drafts.{begun_by, draft_at, draft_behind, ends_program, fits_at, fits_between, fits_draft, has_name, is_run, may_begin, plan_of, with_opening, with_program};
ghost use Rattle.arj_prog.specs.declared.said.Said.{Said};
ghost use Rattle.arj_prog.specs.Grammar.{DraftTook};
ghost use Rattle.arj_prog.specs.Lines.{SaidInForm, said_text};
ghost use Rattle.arj_script.specs.declared.fault.ScriptFault.TheVariants as script_fault;
ghost use Rattle.arj_text.specs.Label.{name};

use crate::limits::PROGRAMS;
use crate::line::said;
use crate::opening::{Opening, take_line};
use crate::plan::{Plan, Program, Programs};
use crate::said::Said;
use arj_base::{Format, Seq};
use arj_journal::Header;
use arj_script::ScriptFault;
use arj_text::Label;
use std::alloc::Global;
use std::mem::replace;

/// What was read of a plan, behind its header, its seed and its turns.
#[derive(Drop)]
pub struct Draft {
    pub header: Header,
    pub seed: u32,
    pub turns: u32,
    /// The programs that have ended.
    pub programs: Programs,
    /// The one that hasn't.
    pub opening: Option<Opening>,
}

// Takes a line of the programs. A line that is refused changes nothing.
fn take(alloc: Global, draft: &mut Draft, line: Said) -> Result<(), ScriptFault>
    ensures ok { OnOk result ((fits_draft line draft.old ≡ true) × (draft.new ≡ draft_behind line draft.old)) }
    ensures bad { IsErrOf result script_fault.Bad → fits_draft line draft.old ≡ false }
    ensures err { OnErr result (draft.new ≡ draft.old) }
{
    match replace(&mut draft.opening, None) {
        Some(program) => inside(alloc, draft, program, line),
        None => between(alloc, draft, line),
    }
}

// Takes a line of the program that is being read.
fn inside(
    alloc: Global,
    draft: &mut Draft,
    mut program: Opening,
    line: Said,
) -> Result<(), ScriptFault>
    ensures ok { OnOk result ((fits_at (Some program) line draft.old ≡ true) × (draft.new ≡ draft_at (Some program) line draft.old)) }
    ensures bad { IsErrOf result script_fault.Bad → fits_at (Some program) line draft.old ≡ false }
    ensures err { OnErr result (draft.new ≡ with_opening (Some program) draft.old) }
{
    if ends_program(&line, &program) {
        return finish(alloc, draft, program);
    }
    let taken = take_line(alloc, &mut program, line);
    draft.opening = Some(program);
    taken
}

// Whether the line ends the program.
fn ends_program(line: &Said, program: &Opening) -> bool
    ensures { result ≡ ends_program line.now program.now }
{
    match line {
        Said::End => program.nest.is_empty(),
        _ => false,
    }
}

// Puts the program among those that have ended.
fn finish(alloc: Global, draft: &mut Draft, program: Opening) -> Result<(), ScriptFault>
    ensures ok { OnOk result (draft.new ≡ with_program program draft.old) }
    ensures memory { IsErrOf result script_fault.Bad → ⊥ }
    ensures err { OnErr result (draft.new ≡ with_opening (Some program) draft.old) }
{
    let mut programs = replace(&mut draft.programs, Seq::new(alloc)).into_vec();
    let Opening {
        name,
        node,
        retry,
        nest,
        list,
        count,
        used,
    } = program;
    let put = programs.push(Program {
        name,
        node,
        retry,
        body: list,
    });
    draft.programs = Seq::from_vec(programs);
    match put {
        Ok(()) => {
            draft.opening = None;
            Ok(())
        }
        Err(failed) => {
            draft.opening = Some(Opening {
                name,
                node,
                retry,
                nest,
                list: failed.value.body,
                count,
                used,
            });
            Err(ScriptFault::Memory)
        }
    }
}

// Takes a line between programs.
fn between(alloc: Global, draft: &mut Draft, line: Said) -> Result<(), ScriptFault>
    ensures ok { OnOk result ((fits_between line draft.old ≡ true) × (draft.new ≡ begun_by line draft.old)) }
    ensures bad { IsErrOf result script_fault.Bad → fits_between line draft.old ≡ false }
    ensures err { OnErr result (draft.new ≡ draft.old) }
{
    match line {
        Said::Prog { name, node, retry } => {
            if !may_begin(draft, &name, node) {
                return Err(ScriptFault::Bad);
            }
            draft.opening = Some(Opening::new(alloc, name, node, retry));
            Ok(())
        }
        Said::Run => {
            if draft.programs.as_slice().is_empty() {
                return Err(ScriptFault::Bad);
            }
            Ok(())
        }
        _ => Err(ScriptFault::Bad),
    }
}

// Whether a program of this name may begin at the node.
fn may_begin(draft: &Draft, label: &Label, node: u8) -> bool
    ensures { result ≡ may_begin label.now node draft.now }
{
    let programs = draft.programs.as_slice();
    programs.len() < PROGRAMS && !has_name(programs, label) && node <= draft.header.nodes
}

// Whether some program has the name.
fn has_name(programs: &[Program], label: &Label) -> bool
    ensures { result ≡ has_name (name label.now) programs.now }
{
    programs.iter().any(|program| is_named(program, label))
}

// Whether the program has the name.
fn is_named(program: &Program, label: &Label) -> bool
    ensures { result ≡ bytes_eq (name program.now.name) (name label.now) }
{
    program.name.as_bytes() == label.as_bytes()
}

// Whether the programs are run.
fn is_run(line: &Said) -> bool
    ensures { result ≡ is_run line.now }
{
    matches!(line, Said::Run)
}

// The plan that was read. It takes what the draft has.
fn finished(alloc: Global, draft: &mut Draft) -> Plan
    ensures { result ≡ plan_of draft.old }
{
    let empty = Header {
        nodes: 0,
        objects: Seq::new(alloc),
        format: Format::Two,
    };
    Plan {
        header: replace(&mut draft.header, empty),
        seed: draft.seed,
        turns: draft.turns,
        programs: replace(&mut draft.programs, Seq::new(alloc)),
    }
}

/// Takes a line of the programs as it is spelled. Some with the plan, at the line `run`.
#[tactic(auto, using(crate::proofs::Places::kept_header))]
pub fn drafting(alloc: Global, draft: &mut Draft, bytes: &[u8]) -> Result<Option<Plan>, ScriptFault>
    ensures ok { IfOk result (λ found. (s : Said) × SaidInForm draft.old.header.objects s × (fits_draft s draft.old ≡ true) × (bytes.now ≡ said_text s)
        × DraftTook draft.old draft.new s found) }
    ensures kept { IfOk result (λ found. MatchOption found (draft.new.header ≡ draft.old.header) (λ plan. plan.header ≡ draft.old.header)) }
    ensures bad { IsErrOf result script_fault.Bad → (s : Said) → SaidInForm draft.old.header.objects s → fits_draft s draft.old ≡ true → bytes.now ≢ said_text s }
    ensures err { OnErr result (draft.new ≡ draft.old) }
{
    let Some(line) = said(alloc, draft.header.objects.as_slice(), bytes)? else {
        return Err(ScriptFault::Bad);
    };
    let runs = is_run(&line);
    take(alloc, draft, line)?;
    if runs {
        Ok(Some(finished(alloc, draft)))
    } else {
        Ok(None)
    }
}
