// The bank's script on a machine.
ghost use Rattle.std.specs.Prelude.{◌≡◌, ◌≤◌, ◌+◌, ◌++◌, ◌∷◌, [], ℕ, List, length, false, None, Some, OnOk, IfOk, IsErrOf};
ghost use Rattle.std.specs.List.{AllByRecursion};
ghost use Rattle.arj_bank.specs.Bank.{ComesSoFar, EndsAtLimit, RanBank, RanWhole, StopsAtFormat, left};
ghost use Rattle.arj_bank.specs.Underway.{Ends, Goes, HasRun, Moment, Underway, Wants, moment};
ghost use Rattle.arj_gen.specs.Bank.{event_lines};
ghost use Rattle.arj_journal.specs.ScriptForm.{EventInForm};
ghost use Rattle.arj_journal.specs.declared.event.Event.{Event as script_event};
ghost use Rattle.arj_journal.specs.declared.header.Header.{Header as script_header};
ghost use Rattle.arj_loop.specs.declared.limits.TheConstants.{MOST_EVENTS};
ghost use Rattle.arj_nodes.specs.AllNodes.{task};

use crate::stop::Stop;
use arj_disk::{Disk, Rack};
use arj_gen::{Script, generate};
use arj_journal::{Body, Event, Events, Line, Lines, Which};
use arj_loop::{EventFault, Machine, StartFault};
use std::alloc::{AllocError, Global};

// Says that no label was left behind so many events.
fn no_labels(event: u32, journal: &mut Lines) -> Result<(), AllocError>
    ensures { OnOk result (journal.new ≡ journal.old ++ record { event = event; body = Body.Limit Which.Labels } ∷ []) }
{
    let body = Body::Limit {
        which: Which::Labels,
    };
    journal.push(Line { event, body })
}

// Runs the next event. Limit: a limit was met, and the journal's last line says which.
fn run_one<D: Disk, M: Machine<D>>(
    machine: &mut M,
    event: Event,
    rack: &mut Rack<D>,
    journal: &mut Lines,
) -> Result<(), Stop>
    requires { Goes M.Machine event (moment rack.old machine.old journal.old) }
    ensures next { OnOk result ((given rest : List script_event) (old : Moment D M) → Underway M.Machine given (event ∷ rest) old (moment rack.old machine.old journal.old) → Underway M.Machine given rest old (moment rack.new machine.new journal.new)) }
    ensures limit { IsErrOf result Stop.Limit → (given rest : List script_event) (old : Moment D M) → Underway M.Machine given (event ∷ rest) old (moment rack.old machine.old journal.old) → Ends M.Machine given old (left rack.new journal.new (Some machine.new)) }
    ensures memory { IsErrOf result Stop.Memory → (given rest : List script_event) (old : Moment D M) → Underway M.Machine given (event ∷ rest) old (moment rack.old machine.old journal.old) → Wants M.Machine given old rack.new }
    ensures live { IsErrOf result Stop.Disk → ⊥ }
{
    match machine.step(event, rack, journal) {
        Ok(()) => Ok(()),
        Err(EventFault::Labels) => {
            no_labels(machine.stepped(), journal)?;
            Err(Stop::Limit)
        }
        Err(EventFault::Frames) => Err(Stop::Limit),
        Err(EventFault::Memory) => Err(Stop::Memory),
    }
}

// Runs events on a machine that has run none, one after another, and answers how many they are. Limit: a limit was met, and the
// journal's last line says which.
fn run_events<D: Disk, M: Machine<D>>(
    machine: &mut M,
    events: Events,
    rack: &mut Rack<D>,
    journal: &mut Lines,
) -> Result<u32, Stop>
    requires form { AllByRecursion EventInForm events }
    requires first { M.steps machine.old ≡ 0 }
    requires room { length events ≤ MOST_EVENTS }
    requires going { M.over machine.old ≡ false }
    requires ran { HasRun M.Machine (moment rack.old machine.old journal.old) }
    ensures ran { OnOk result ((first : List D) (header : script_header) → M.ran first header [] rack.old journal.old machine.old → RanWhole M.Machine (task first header events) (left rack.new journal.new (Some machine.new))) }
    ensures count { IfOk result (λ count. count ≡ length events) }
    ensures limit { IsErrOf result Stop.Limit → Ends M.Machine events (moment rack.old machine.old journal.old) (left rack.new journal.new (Some machine.new)) }
    ensures memory { IsErrOf result Stop.Memory → Wants M.Machine events (moment rack.old machine.old journal.old) rack.new }
    ensures live { IsErrOf result Stop.Disk → ⊥ }
{
    for event in events.into_vec() {
        match run_one(machine, event, rack, journal) {
            Ok(()) => {}
            Err(stop) => return Err(stop),
        }
    }
    Ok(machine.stepped())
}

/// Runs the bank of a number on a machine over these disks, hands the machine out, and answers how many events it has. Disk: a
/// disk was stopped while it was formatted. Limit: a limit was met, and the journal's last line says which.
pub fn run_bank<D: Disk, M: Machine<D>>(
    alloc: Global,
    n: u32,
    rack: &mut Rack<D>,
    journal: &mut Lines,
    machine: &mut Option<M>,
) -> Result<u32, Stop>
    requires ready { M.ready rack.old }
    requires fresh { journal.old ≡ [] }
    requires none { machine.old ≡ None }
    ensures ran { OnOk result (RanBank M.Machine n rack.old (left rack.new journal.new machine.new)) }
    ensures count { IfOk result (λ count. count ≡ length (event_lines n)) }
    ensures limit { IsErrOf result Stop.Limit → EndsAtLimit M.Machine n rack.old (left rack.new journal.new machine.new) }
    ensures stopped { IsErrOf result Stop.Disk → StopsAtFormat M.Machine rack.old (left rack.new journal.new machine.new) }
    ensures memory { IsErrOf result Stop.Memory → ComesSoFar M.Machine n rack.old rack.new }
{
    let script = generate(alloc, n)?;
    let Script { header, events } = script;
    match M::format(alloc, header, rack) {
        Ok(made) => {
            let mut made = made;
            let ran = run_events(&mut made, events, rack, journal);
            *machine = Some(made);
            ran
        }
        Err(StartFault::Stopped) => Err(Stop::Disk),
        Err(StartFault::Memory) => Err(Stop::Memory),
    }
}
