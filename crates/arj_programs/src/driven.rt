// A machine to which a schedule gives its events.
ghost use Rattle.std.specs.Prelude.{◌≡◌, [], drop};
ghost use Rattle.arj_journal.specs.ScriptForm.{EventInForm};
ghost use Rattle.arj_progrun.specs.Stepped.{stepping};

use arj_disk::{Disk, Rack};
use arj_journal::{Body, Event, Events, Line, Lines, StepFault, Which};
use arj_loop::{EventFault, Machine};
use arj_progrun::{Nodes, copy_event};
use std::alloc::Global;

/// A machine, its journal, the events that it has run, and how many lines the journal had before the last of them.
#[derive(Drop)]
pub struct Driven<M> {
    pub alloc: Global,
    pub machine: M,
    pub journal: Lines,
    pub events: Events,
    pub before: usize,
}

impl<M> Driven<M> {
    /// A machine that has run nothing.
    pub fn new(alloc: Global, machine: M) -> Driven<M>
        ensures machine { result.machine ≡ machine }
        ensures nothing { (result.journal ≡ []) × (result.events ≡ []) }
    {
        Driven {
            alloc,
            machine,
            journal: Lines::new(alloc),
            events: Events::new(alloc),
            before: 0,
        }
    }
}

impl<D: Disk, M: Machine<D>> Nodes<Rack<D>> for Driven<M> {
    ghost use Rattle.arj_programs.specs.Runs.{HasEnded, IsRunning, WasLeft};

    ghost stepped = { λ d rack. stepping d.events d.journal (M.steps d.machine) };

    ghost last = { λ d. drop d.before d.journal };

    ghost takes = { EventInForm };

    ghost stands = { IsRunning M.Machine };

    ghost ended = { HasEnded M.Machine };

    ghost left = { WasLeft M.Machine };

    fn step(&mut self, event: &Event, on: &mut Rack<D>) -> Result<(), StepFault> {
        let asked = copy_event(self.alloc, event)?;
        let kept = copy_event(self.alloc, event)?;
        self.before = self.journal.as_slice().len();
        match self.machine.step(asked, on, &mut self.journal) {
            Ok(()) => {
                self.events.push(kept)?;
                Ok(())
            }
            Err(EventFault::Labels) => {
                self.journal.push(Line {
                    event: self.machine.stepped(),
                    body: Body::Limit {
                        which: Which::Labels,
                    },
                })?;
                Err(StepFault::Limit(Which::Labels))
            }
            Err(EventFault::Frames) => Err(StepFault::Limit(Which::Frames)),
            Err(EventFault::Memory) => Err(StepFault::Memory),
        }
    }

    fn lines(&self) -> &[Line] {
        let lines = self.journal.as_slice();
        if self.before > lines.len() {
            return &[];
        }
        &lines[self.before..]
    }

    fn steps(&self, _on: &Rack<D>) -> u32 {
        self.machine.stepped()
    }
}
