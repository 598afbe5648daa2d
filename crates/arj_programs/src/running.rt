// The run of a plan.
ghost use Rattle.std.specs.Prelude.{◌≡◌, [], IfOk, IsErrOf, None};
ghost use Rattle.arj_programs.specs.Input.{IsFit};
ghost use Rattle.arj_programs.specs.Runs.{ComesSoFar, MetLimit, RanPlan, StopsAtFormat, left};

use crate::driven::Driven;
use arj_base::Seq;
use arj_disk::{Disk, Rack};
use arj_journal::{Header, Lines, StepFault};
use arj_loop::{Machine, StartFault};
use arj_prog::Plan;
use arj_progrun::{Report, drive_on};
use std::alloc::Global;
use std::mem::replace;

/// Why nothing is told of a run.
#[derive(Clone, Copy, Debug, PartialEq, Eq)]
pub enum Halt {
    /// A disk was stopped while it was formatted.
    Disk,
    /// A limit was met, and the journal's last line says which.
    Limit,
    /// Memory is wanting.
    Memory,
}

// Takes the header out, and leaves its count of nodes.
fn take_header(alloc: Global, plan: &mut Plan) -> Header
    ensures header { result ≡ (let p = plan.old in p.header) }
    ensures left { plan.new ≡ record plan.old { header = (let p = plan.old in record (p.header) { objects = [] }) } }
{
    let nodes = plan.header.nodes;
    let format = plan.header.format;
    let empty = Header {
        nodes,
        objects: Seq::new(alloc),
        format,
    };
    replace(&mut plan.header, empty)
}

/// Runs the programs of a plan by its schedule on a machine over these disks, hands the machine out, and tells what became of the
/// programs.
pub fn run_plan<D: Disk, M: Machine<D>>(
    alloc: Global,
    plan: Plan,
    rack: &mut Rack<D>,
    journal: &mut Lines,
    machine: &mut Option<M>,
) -> Result<Report, Halt>
    requires fit { IsFit plan }
    requires ready { M.ready rack.old }
    requires fresh { journal.old ≡ [] }
    requires none { machine.old ≡ None }
    ensures told { IfOk result (λ told. RanPlan M.Machine plan rack.old (left rack.new journal.new machine.new) told) }
    ensures limit { IsErrOf result Halt.Limit → MetLimit M.Machine (let p = plan in p.header) rack.old (left rack.new journal.new machine.new) }
    ensures stopped { IsErrOf result Halt.Disk → StopsAtFormat M.Machine plan rack.old (left rack.new journal.new machine.new) }
    ensures memory { IsErrOf result Halt.Memory → ComesSoFar M.Machine plan rack.old rack.new }
{
    let mut plan = plan;
    let header = take_header(alloc, &mut plan);
    match M::format(alloc, header, rack) {
        Ok(made) => {
            let mut driven = Driven::new(alloc, made);
            let told = drive_on::<Rack<D>, Driven<M>>(alloc, &plan, &mut driven, rack);
            *journal = driven.journal;
            *machine = Some(driven.machine);
            match told {
                Ok(report) => Ok(report),
                Err(StepFault::Limit(_)) => Err(Halt::Limit),
                Err(StepFault::Memory) => Err(Halt::Memory),
            }
        }
        Err(StartFault::Stopped) => Err(Halt::Disk),
        Err(StartFault::Memory) => Err(Halt::Memory),
    }
}
