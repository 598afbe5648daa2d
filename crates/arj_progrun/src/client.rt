// A program under the schedule.
ghost use Rattle.std.specs.Prelude.{◌≡◌, ◌<◌, ◌∷◌, OnOk, IfOk, Some, None, not, if◌then◌else◌};
ghost use Rattle.std.specs.Option.{option_map};
ghost use Rattle.std.specs.Str.{bytes_eq};
ghost use Rattle.arj_prog.specs.Listed.{listing_of};
ghost use Rattle.arj_prog.specs.declared.limits.TheConstants.{TURNS};
ghost use Rattle.arj_progrun.specs.Client.{aborted, answered, attempt, begins, calls, commits_at, halted, hears, inner, is_open, joins, loses, loses_top, refused_at};
ghost use Rattle.arj_progrun.specs.Client.{asking, asks_by, asks_for, asks_next, first_client, inside, is_none, stands, taken, turned, unbegun, waits, waits_on};
ghost use Rattle.arj_progrun.specs.declared.phase.Phase.TheVariants as phase;
ghost use Rattle.arj_prog.specs.declared.statements.Statement.TheVariants as statement;
ghost use Rattle.arj_progrun.specs.Events.{ask_of};
ghost use Rattle.arj_progrun.specs.Levels.{IsPassed, client_of, found_now, level_of};
ghost use Rattle.arj_text.specs.Label.{name};

use crate::copy::copy_op;
use crate::labels;
use crate::level::Level;
use crate::phase::Phase;
use arj_base::Bytes;
use arj_class::Op;
use arj_journal::{Body, Event, Label};
use arj_prog::{Program, Statement};
use std::alloc::{AllocError, Global};

/// In which turn of a wait an action is given up.
pub const PATIENCE: u32 = 8;

/// A program: its number, from 1, its top, its nested actions that are open, the innermost last, how many nested
/// actions this try has begun, where it stands, the statement whose call it waits for, and how many turns its wait has had.
#[derive(Drop)]
pub struct Client<'p> {
    alloc: Global,
    pub number: u8,
    pub program: &'p Program,
    pub top: Level<'p>,
    pub blocks: Vec<Level<'p>>,
    pub begun: u32,
    pub phase: Phase,
    pub asked: Option<&'p Statement>,
    pub waited: u32,
}

// Whether the bytes are those of the label.
fn is_label(bytes: &[u8], label: Label) -> bool
    ensures { result ≡ bytes_eq bytes.now (name label) }
{
    bytes == label.as_bytes()
}

impl<'p> Client<'p> {
    /// A program that has given no event.
    pub fn new(alloc: Global, number: u8, program: &'p Program) -> Result<Client<'p>, AllocError>
        ensures { IfOk result (λ made. client_of made ≡ first_client number program.now) }
    {
        let label = labels::of_try(alloc, number, 0)?;
        Ok(Client {
            alloc,
            number,
            program,
            top: Level::new(alloc, label, program.body.as_slice(), program.retry)?,
            blocks: Vec::new(alloc),
            begun: 0,
            phase: Phase::Entering,
            asked: None,
            waited: 0,
        })
    }

    // The label of its innermost action.
    #[tactic(auto, using(crate::proofs::Stacks::label_some))]
    fn label(&self) -> Label
        ensures { name result ≡ (let l = inner (client_of self.now) in l.label) }
    {
        match self.blocks.last() {
            Some(block) => block.label,
            None => self.top.label,
        }
    }

    // Whether its innermost action has that label.
    fn is_inner(&self, label: Label) -> bool
        ensures { result ≡ bytes_eq (let l = inner (client_of self.now) in l.label) (name label) }
    {
        is_label(self.label().as_bytes(), label)
    }

    // The number of its try, from 0.
    fn attempt(&self) -> u8
        ensures { result ≡ attempt (client_of self.now) }
    {
        self.program.retry.saturating_sub(self.top.left)
    }

    // Leaves the next statement of its innermost action behind, and answers it.
    #[tactic(auto, using(crate::proofs::Stacks::stacked_more))]
    fn pass(&mut self) -> Result<Option<&'p Statement>, AllocError>
        ensures { IfOk result (λ found. IsPassed (client_of self.old) found (client_of self.new)) }
    {
        let Some(block) = self.blocks.pop() else {
            let front = self.top.pass()?;
            return Ok(front);
        };
        let mut block = block;
        let found = block.pass()?;
        self.blocks.push(block)?;
        Ok(found)
    }

    /// What it gives in its turn, if anything.
    pub fn turn(&mut self) -> Result<Option<Event>, AllocError>
        requires few { self.old.begun < TURNS }
        requires patient { self.old.waited < TURNS }
        ensures { IfOk result (λ given. asking (option_map ask_of given) (client_of self.new) ≡ turned (client_of self.old)) }
    {
        if self.phase.is_over() {
            return Ok(None);
        }
        if self.phase.is_waiting() {
            return Ok(self.wait());
        }
        self.waited = 0;
        Ok(Some(self.next()?))
    }

    // What it gives in a turn in which it waits: it is given up in the eighth.
    fn wait(&mut self) -> Option<Event>
        requires patient { self.old.waited < TURNS }
        ensures { asking (option_map ask_of result) (client_of self.new) ≡ waits_on (client_of self.old) }
    {
        self.waited += 1;
        if self.waited != PATIENCE {
            return None;
        }
        Some(Event::GiveUp {
            label: self.label(),
        })
    }

    // Its next event.
    fn next(&mut self) -> Result<Event, AllocError>
        requires few { self.old.begun < TURNS }
        ensures { IfOk result (λ event. asking (Some (ask_of event)) (client_of self.new) ≡ asks_by self.old.phase (client_of self.old)) }
    {
        match self.phase {
            Phase::Entering => self.begin(),
            Phase::Backing => {
                self.phase = Phase::Aborting;
                Ok(Event::Abort {
                    label: self.label(),
                })
            }
            _ => match self.pass()? {
                Some(statement) => self.ask(statement),
                None => Ok(self.commit()),
            },
        }
    }

    // The commit of its innermost action.
    fn commit(&mut self) -> Event
        ensures { asking (Some (ask_of result)) (client_of self.new) ≡ asks_next None (client_of self.old) }
    {
        self.phase = Phase::Committing;
        Event::Commit {
            label: self.label(),
        }
    }

    // Begins its innermost action.
    #[tactic(auto, using(crate::proofs::Stacks::stacked_more))]
    fn begin(&mut self) -> Result<Event, AllocError>
        requires few { self.old.begun < TURNS }
        ensures { IfOk result (λ event. asking (Some (ask_of event)) (client_of self.new) ≡ begins (let c = client_of self.old in c.blocks) (client_of self.old)) }
    {
        self.phase = Phase::Beginning;
        match self.blocks.pop() {
            Some(block) => self.begin_block(block),
            None => Ok(Event::Begin {
                label: self.top.label,
                node: u32::from(self.program.node),
            }),
        }
    }

    // Begins a nested action in its innermost one.
    #[tactic(auto, using(crate::proofs::Stacks::stacked_more))]
    fn begin_block(&mut self, block: Level<'p>) -> Result<Event, AllocError>
        requires few { self.old.begun < TURNS }
        ensures { IfOk result (λ event. asking (Some (ask_of event)) (client_of self.new) ≡ (let c = client_of self.old in begins (level_of block.entry ∷ c.blocks) c)) }
    {
        let parent = self.label();
        self.begun += 1;
        let label = labels::of_block(self.alloc, self.number, self.attempt(), self.begun)?;
        let mut block = block;
        block.label = label;
        self.blocks.push(block)?;
        self.phase = Phase::Beginning;
        Ok(Event::BeginIn { label, parent })
    }

    // What a statement asks.
    fn ask(&mut self, statement: &'p Statement) -> Result<Event, AllocError>
        requires few { self.old.begun < TURNS }
        ensures { IfOk result (λ event. asking (Some (ask_of event)) (client_of self.new) ≡ asks_for statement.now (client_of self.old)) }
    {
        match statement {
            Statement::Do { x, op } => self.call(statement, *x, op),
            Statement::Print { x, op } => self.call(statement, *x, op),
            Statement::If { x, op, .. } => self.call(statement, *x, op),
            Statement::Block { retry, body } => self.enter(*retry, body.as_slice()),
            Statement::Fail => {
                self.phase = Phase::Failing;
                Ok(Event::Abort {
                    label: self.top.label,
                })
            }
        }
    }

    // The call of a statement.
    fn call(&mut self, statement: &'p Statement, x: u16, op: &Op) -> Result<Event, AllocError>
        ensures { IfOk result (λ event. asking (Some (ask_of event)) (client_of self.new) ≡ calls statement.now x op.now (client_of self.old)) }
    {
        self.phase = Phase::Calling;
        self.asked = Some(statement);
        Ok(Event::Call {
            label: self.label(),
            x,
            op: copy_op(self.alloc, op)?,
        })
    }

    // Opens a nested action.
    fn enter(&mut self, retry: u8, body: &'p [Statement]) -> Result<Event, AllocError>
        requires few { self.old.begun < TURNS }
        ensures { IfOk result (λ event. asking (Some (ask_of event)) (client_of self.new) ≡ asks_for (statement.Block retry (listing_of body.now)) (client_of self.old)) }
    {
        let label = self.label();
        let block = Level::new(self.alloc, label, body, retry)?;
        self.begin_block(block)
    }

    /// Takes a line of the journal; `own` says whether it is of an event by which the program asked.
    pub fn hear(&mut self, body: &Body, own: bool) -> Result<(), AllocError>
        ensures { OnOk result (client_of self.new ≡ hears body.now own (client_of self.old)) }
    {
        match body {
            Body::Refused { .. } => Ok(self.refused(own)),
            Body::Began { label, .. } => Ok(self.began(*label)),
            Body::Ok { label, answer, .. } => self.answered(*label, answer),
            Body::Conflict { label, .. } => Ok(self.denied(*label)),
            Body::Lost { label, .. } => Ok(self.denied(*label)),
            Body::Changed { label, .. } => Ok(self.denied(*label)),
            Body::Committed { label } => self.committed(*label),
            Body::Aborted { label, .. } => self.aborted(*label),
            Body::Halted { node } => Ok(self.halted(*node)),
            _ => Ok(()),
        }
    }

    // What it asked was refused.
    fn refused(&mut self, own: bool)
        ensures { client_of self.new ≡ (if own then refused_at self.old.phase (client_of self.old) else client_of self.old) }
    {
        if !own {
            return;
        }
        match self.phase {
            Phase::Beginning => self.unbegun(),
            Phase::Calling | Phase::Committing => self.phase = Phase::Backing,
            Phase::Aborting => self.phase = Phase::GaveUp,
            Phase::Failing => self.phase = Phase::Failed,
            _ => {}
        }
    }

    // The action that it waits to begin isn't there.
    #[tactic(auto, using(crate::proofs::Stacks::stacked_more))]
    fn unbegun(&mut self)
        ensures { client_of self.new ≡ unbegun (let c = client_of self.old in c.blocks) (client_of self.old) }
    {
        match self.blocks.pop() {
            Some(_) => self.phase = Phase::Backing,
            None => self.phase = Phase::GaveUp,
        }
    }

    // An action began.
    fn began(&mut self, label: Label)
        ensures { client_of self.new ≡ (if waits phase.Beginning (name label) (client_of self.old) then stands phase.Ready (client_of self.old) else client_of self.old) }
    {
        if self.phase == Phase::Beginning && self.is_inner(label) {
            self.phase = Phase::Ready;
        }
    }

    // A call was refused or given up.
    fn denied(&mut self, label: Label)
        ensures { client_of self.new ≡ (if waits phase.Calling (name label) (client_of self.old) then stands phase.Backing (client_of self.old) else client_of self.old) }
    {
        if self.phase == Phase::Calling && self.is_inner(label) {
            self.phase = Phase::Backing;
        }
    }

    // A call was answered.
    fn answered(&mut self, label: Label, answer: &Bytes) -> Result<(), AllocError>
        ensures { OnOk result (client_of self.new ≡ (if waits phase.Calling (name label) (client_of self.old) then answered answer.now (found_now self.old.asked) (client_of self.old) else client_of self.old)) }
    {
        if self.phase != Phase::Calling || !self.is_inner(label) {
            return Ok(());
        }
        self.phase = Phase::Ready;
        match self.asked {
            Some(statement) => self.take(statement, answer),
            None => Ok(()),
        }
    }

    // Its innermost action takes an answer.
    #[tactic(auto, using(crate::proofs::Stacks::stacked_more))]
    fn take(&mut self, statement: &'p Statement, answer: &Bytes) -> Result<(), AllocError>
        ensures { OnOk result (client_of self.new ≡ inside (taken statement.now answer.now) (client_of self.old)) }
    {
        let Some(block) = self.blocks.pop() else {
            return self.top.take(self.alloc, statement, answer);
        };
        let mut block = block;
        block.take(self.alloc, statement, answer)?;
        self.blocks.push(block)?;
        Ok(())
    }

    // An action committed.
    #[tactic(auto, using(crate::proofs::Stacks::stacked_more))]
    fn committed(&mut self, label: Label) -> Result<(), AllocError>
        ensures { OnOk result (client_of self.new ≡ (if waits phase.Committing (name label) (client_of self.old) then commits_at (let c = client_of self.old in c.blocks) (client_of self.old) else client_of self.old)) }
    {
        if self.phase != Phase::Committing || !self.is_inner(label) {
            return Ok(());
        }
        match self.blocks.pop() {
            Some(nested) => self.join(nested),
            None => {
                self.phase = Phase::Committed;
                Ok(())
            }
        }
    }

    // Its innermost action takes over the calls of a nested one.
    #[tactic(auto, using(crate::proofs::Stacks::stacked_more))]
    fn join(&mut self, nested: Level<'p>) -> Result<(), AllocError>
        ensures { OnOk result (client_of self.new ≡ inside (joins (level_of nested.entry)) (stands phase.Ready (client_of self.old))) }
    {
        self.phase = Phase::Ready;
        let Some(block) = self.blocks.pop() else {
            return self.top.join(nested);
        };
        let mut block = block;
        block.join(nested)?;
        self.blocks.push(block)?;
        Ok(())
    }

    // An action aborted.
    fn aborted(&mut self, label: Label) -> Result<(), AllocError>
        ensures { OnOk result (client_of self.new ≡ aborted (name label) (client_of self.old)) }
    {
        if self.phase == Phase::Failing && self.top.label.as_bytes() == label.as_bytes() {
            self.phase = Phase::Failed;
            return Ok(());
        }
        if self.phase == Phase::Aborting && self.is_inner(label) {
            return self.lose();
        }
        if self.phase == Phase::Committing && self.is_inner(label) {
            return self.lose();
        }
        Ok(())
    }

    // Its innermost action aborted: it is tried again where a try is left, else the next outer one is aborted.
    #[tactic(auto, using(crate::proofs::Stacks::stacked_more))]
    fn lose(&mut self) -> Result<(), AllocError>
        ensures { OnOk result (client_of self.new ≡ loses (client_of self.old)) }
    {
        let Some(block) = self.blocks.pop() else {
            return self.lose_top();
        };
        if block.left == 0 {
            self.phase = Phase::Backing;
            return Ok(());
        }
        let mut block = block;
        block.again()?;
        self.blocks.push(block)?;
        self.phase = Phase::Entering;
        Ok(())
    }

    // Its top aborted.
    fn lose_top(&mut self) -> Result<(), AllocError>
        ensures { OnOk result (client_of self.new ≡ loses_top (client_of self.old)) }
    {
        if self.top.left == 0 {
            self.phase = Phase::GaveUp;
            return Ok(());
        }
        self.top.again()?;
        self.top.label = labels::of_try(self.alloc, self.number, self.attempt())?;
        self.begun = 0;
        self.phase = Phase::Entering;
        Ok(())
    }

    // A node halted.
    fn halted(&mut self, node: u8)
        ensures { client_of self.new ≡ halted node (client_of self.old) }
    {
        if node != self.program.node || !self.is_open() {
            return;
        }
        match self.phase {
            Phase::Failing => self.phase = Phase::Failed,
            _ => self.phase = Phase::GaveUp,
        }
    }

    // Whether its top has begun and not ended.
    fn is_open(&self) -> bool
        ensures { result ≡ is_open (client_of self.now) }
    {
        match self.phase {
            Phase::Entering | Phase::Beginning => self.is_nested(),
            other => !other.is_over(),
        }
    }

    // Whether a nested action is open.
    #[tactic(auto, using(crate::proofs::Stacks::nested_some))]
    fn is_nested(&self) -> bool
        ensures { result ≡ not (is_none (let c = client_of self.now in c.blocks)) }
    {
        match self.blocks.as_slice() {
            [] => false,
            [_, ..] => true,
        }
    }
}
