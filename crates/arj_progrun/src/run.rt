// Programs that are driven by their schedule.
ghost use Rattle.std.specs.Prelude.{◌≡◌, ◌≤◌, ◌<◌, ◌+◌, ℕ, List, [], false, length, true, vec_len, OnOk, IfOk, IsErrOf};
ghost use Rattle.arj_journal.specs.Stepping.{EndsWithLimit};
ghost use Rattle.arj_journal.specs.declared.body.Line.{Line};
ghost use Rattle.arj_journal.specs.declared.body.Which.{Which as which_type};
ghost use Rattle.arj_journal.specs.declared.step.StepFault.TheVariants as step_fault;
ghost use Rattle.arj_prog.specs.declared.plan.Plan.{Plan as plan_type};
ghost use Rattle.arj_prog.specs.declared.limits.TheConstants.{TURNS};
ghost use Rattle.arj_progrun.specs.Driving.{Drives, EndsAt, IsDriven, IsEnded, Stands, StandsOn, StopsAt, Takes, moment};
ghost use Rattle.arj_progrun.specs.Kept.{AreWithin, standing_of};
ghost use Rattle.arj_progrun.specs.Schedule.{are_over, lines_heard};
ghost use Rattle.arj_progrun.specs.Stepped.{HasStepped, Stepped, are_of, written};

use crate::nodes::Nodes;
use crate::report::{Report, report};
use crate::schedule::{Given, Schedule};
use arj_journal::{Event, Line, StepFault};
use arj_prog::Plan;
use std::alloc::Global;

// Whether lines are of the event with this number.
fn are_of(lines: &[Line], event: u32) -> bool
    ensures { result ≡ are_of event lines.now }
{
    lines.iter().all(|line| line.event == event)
}

// Steps an event, and lets the programs take its lines, if they have its number.
fn step<R, N: Nodes<R>>(
    schedule: &mut Schedule,
    event: &Event,
    by: Option<usize>,
    nodes: &mut N,
    on: &mut R,
) -> Result<(), StepFault>
    requires room { (let s = N.stepped nodes.old on.old in s.steps) < 200000 }
    requires takes { N.takes event.now }
    requires stands { Stands N.Nodes (moment nodes.old on.old) }
    ensures steps { OnOk result ((lines : List Line) × Stepped (written event.now lines) (N.stepped nodes.old on.old) (N.stepped nodes.new on.new)
        × (are_of (let s = N.stepped nodes.new on.new in s.steps) lines ≡ true) × (standing_of schedule.new ≡ lines_heard by lines (standing_of schedule.old))) }
    ensures within { OnOk result ((turn : ℕ) → AreWithin turn schedule.old → AreWithin turn schedule.new) }
    ensures nodes { OnOk result (schedule.new.nodes ≡ schedule.old.nodes) }
    ensures long { OnOk result (vec_len schedule.new.clients ≡ vec_len schedule.old.clients) }
    ensures stands { OnOk result (StandsOn N.Nodes (moment nodes.old on.old) (moment nodes.new on.new)) }
    ensures limit { (which : which_type) → IsErrOf result (step_fault.Limit which) → EndsAt N.Nodes which (moment nodes.old on.old) (moment nodes.new on.new) }
    ensures memory { IsErrOf result step_fault.Memory → StopsAt N.Nodes (moment nodes.old on.old) (moment nodes.new on.new) }
{
    nodes.step(event, on)?;
    if !are_of(nodes.lines(), nodes.steps(on)) {
        return Err(StepFault::Memory);
    }
    schedule.hear(nodes.lines(), by)?;
    Ok(())
}

// Steps what the turn of this number gives.
fn run_turn<R, N: Nodes<R>>(
    schedule: &mut Schedule,
    turn: u32,
    nodes: &mut N,
    on: &mut R,
) -> Result<(), StepFault>
    requires room { (let s = N.stepped nodes.old on.old in s.steps) < 200000 }
    requires driven { (plan : plan_type) × Takes N.Nodes plan × ((let h = plan.header in h.nodes) ≡ schedule.old.nodes)
        × IsDriven plan turn (N.stepped nodes.old on.old) (standing_of schedule.old) }
    requires stands { Stands N.Nodes (moment nodes.old on.old) }
    requires nodes { 0 < schedule.old.nodes }
    requires programs { 0 < vec_len schedule.old.clients }
    requires within { AreWithin turn schedule.old × (turn < TURNS) }
    ensures ran { OnOk result ((plan : plan_type) → (let h = plan.header in h.nodes) ≡ schedule.old.nodes → are_over (standing_of schedule.old) ≡ false →
        IsDriven plan turn (N.stepped nodes.old on.old) (standing_of schedule.old) → IsDriven plan (turn + 1) (N.stepped nodes.new on.new) (standing_of schedule.new)) }
    ensures within { OnOk result (AreWithin (turn + 1) schedule.new) }
    ensures nodes { OnOk result (schedule.new.nodes ≡ schedule.old.nodes) }
    ensures long { OnOk result (vec_len schedule.new.clients ≡ vec_len schedule.old.clients) }
    ensures stands { OnOk result (StandsOn N.Nodes (moment nodes.old on.old) (moment nodes.new on.new)) }
    ensures limit { (which : which_type) → IsErrOf result (step_fault.Limit which) → EndsAt N.Nodes which (moment nodes.old on.old) (moment nodes.new on.new) }
    ensures memory { IsErrOf result step_fault.Memory → StopsAt N.Nodes (moment nodes.old on.old) (moment nodes.new on.new) }
{
    match schedule.turn(turn)? {
        Given::Nothing => Ok(()),
        Given::Own(event) => step(schedule, &event, None, nodes, on),
        Given::By(at, event) => step(schedule, &event, Some(at), nodes, on),
    }
}

// Takes the turns of a plan, until every program is finished.
fn all_turns<R, N: Nodes<R>>(
    schedule: &mut Schedule,
    plan: &Plan,
    nodes: &mut N,
    on: &mut R,
) -> Result<(), StepFault>
    requires begun { IsDriven plan.now 0 (N.stepped nodes.old on.old) (standing_of schedule.old) }
    requires takes { Takes N.Nodes plan.now }
    requires stands { Stands N.Nodes (moment nodes.old on.old) }
    requires turns { (let p = plan.now in p.turns) ≤ TURNS }
    requires nodes { (0 < schedule.old.nodes) × ((let p = plan.now in let h = p.header in h.nodes) ≡ schedule.old.nodes) }
    requires programs { 0 < vec_len schedule.old.clients }
    requires within { AreWithin 0 schedule.old }
    ensures ended { OnOk result (IsEnded plan.now (N.stepped nodes.new on.new) (standing_of schedule.new)) }
    ensures stands { OnOk result (StandsOn N.Nodes (moment nodes.old on.old) (moment nodes.new on.new)) }
    ensures limit { (which : which_type) → IsErrOf result (step_fault.Limit which) → EndsAt N.Nodes which (moment nodes.old on.old) (moment nodes.new on.new) }
    ensures memory { IsErrOf result step_fault.Memory → StopsAt N.Nodes (moment nodes.old on.old) (moment nodes.new on.new) }
{
    for turn in 0..plan.turns {
        if schedule.is_over() {
            return Ok(());
        }
        run_turn(schedule, turn, nodes, on)?;
    }
    Ok(())
}

/// Runs the programs of a plan by its schedule on nodes that have stepped no event, and tells what became of them. Limit: an
/// event met this limit, and the journal says so last. Memory: memory is wanting, the nodes' or the call's own.
#[tactic(auto, using(crate::proofs::Driven::begins, crate::proofs::Driven::quiesced))]
pub fn drive_on<R, N: Nodes<R>>(
    alloc: Global,
    plan: &Plan,
    nodes: &mut N,
    on: &mut R,
) -> Result<Report, StepFault>
    requires fresh { HasStepped [] (N.stepped nodes.old on.old) }
    requires takes { Takes N.Nodes plan.now }
    requires stands { Stands N.Nodes (moment nodes.old on.old) }
    requires nodes { 0 < (let p = plan.now in let h = p.header in h.nodes) }
    requires turns { (let p = plan.now in p.turns) ≤ TURNS }
    requires programs { (0 < length (let p = plan.now in p.programs)) × (length (let p = plan.now in p.programs) < 256) }
    ensures drives { IfOk result (λ told. Drives plan.now (N.stepped nodes.new on.new) told) }
    ensures stands { OnOk result (StandsOn N.Nodes (moment nodes.old on.old) (moment nodes.new on.new)) }
    ensures limit { (which : which_type) → IsErrOf result (step_fault.Limit which) → EndsAt N.Nodes which (moment nodes.old on.old) (moment nodes.new on.new) }
    ensures memory { IsErrOf result step_fault.Memory → StopsAt N.Nodes (moment nodes.old on.old) (moment nodes.new on.new) }
{
    let mut schedule = Schedule::new(alloc, plan)?;
    all_turns(&mut schedule, plan, nodes, on)?;
    step(&mut schedule, &Event::Quiesce, None, nodes, on)?;
    Ok(report(alloc, &schedule)?)
}
