// A program that is being read.
ghost use Rattle.std.specs.Prelude.{◌≡◌, true, false, nat_lt, None, OnErr, OnOk, IsErrOf};
ghost use Rattle.arj_prog.specs.declared.frame.Opened.TheVariants as opened;
ghost use Rattle.arj_prog.specs.declared.limits.TheConstants.{STATEMENTS};
ghost use Rattle.arj_prog.specs.declared.said.Said.TheVariants as said;
ghost use Rattle.arj_prog.specs.declared.statements.Statement.TheVariants as statement;
ghost use Rattle.arj_prog.specs.Drafts.{behind_line, ended_in, fits_in, may_call, may_end, opened_in, put_in, second_in, using};
ghost use Rattle.arj_prog.specs.Nesting.{awaits_else, ended};
ghost use Rattle.arj_script.specs.declared.fault.ScriptFault.TheVariants as script_fault;

use crate::frame::{Frame, Opened};
use crate::limits::{BLOCKS, STATEMENTS};
use crate::nest::Nest;
use crate::said::Said;
use crate::statements::{Statement, Statements};
use crate::used::Used;
use crate::waiting::Waiting;
use arj_class::{Answer, Op};
use arj_script::ScriptFault;
use arj_text::Label;
use std::alloc::{AllocError, Global};
use std::mem::replace;

/// A program whose end wasn't read yet.
#[derive(Drop)]
pub struct Opening {
    pub name: Label,
    pub node: u8,
    pub retry: u8,
    /// What is open in it.
    pub nest: Nest,
    /// The statements so far of the innermost list.
    pub list: Statements,
    /// How many statements were read.
    pub count: usize,
    /// The objects that they use, each once.
    pub used: Used,
}

impl Opening {
    ghost use Rattle.std.specs.Prelude.{◌≡◌, ◌<◌, OnOk, OnErr, nat_lt};
    ghost use Rattle.arj_prog.specs.declared.limits.TheConstants.{STATEMENTS};
    ghost use Rattle.arj_prog.specs.Drafts.{begun, ended_in, may_call, opened_in, put_in, second_in, using};

    /// A program without statements.
    pub fn new(alloc: Global, name: Label, node: u8, retry: u8) -> Opening
        ensures { result ≡ begun name node retry }
    {
        Opening {
            name,
            node,
            retry,
            nest: Nest::new(alloc),
            list: Statements::new(alloc),
            count: 0,
            used: Used::new(),
        }
    }

    /// Whether another statement may come.
    pub fn has_room(&self) -> bool
        ensures { result ≡ nat_lt self.now.count STATEMENTS }
    {
        self.count < STATEMENTS
    }

    /// Whether another statement may come, with a call of the object.
    pub fn may_call(&self, x: u16) -> bool
        ensures { result ≡ may_call x self.now }
    {
        self.count < STATEMENTS && self.used.may_use(x)
    }

    /// Puts a statement at the end of the innermost list.
    pub fn put(&mut self, statement: Statement) -> Result<(), AllocError>
        requires { self.old.count < STATEMENTS }
        ensures ok { OnOk result (self.new ≡ put_in statement self.old) }
        ensures err { OnErr result (self.new ≡ self.old) }
    {
        self.list.push(statement)?;
        self.count += 1;
        Ok(())
    }

    /// Opens a statement behind those of the innermost list.
    pub fn begin(&mut self, alloc: Global, opened: Opened) -> Result<(), AllocError>
        requires { self.old.count < STATEMENTS }
        ensures ok { OnOk result (self.new ≡ opened_in opened self.old) }
        ensures err { OnErr result (self.new ≡ self.old) }
    {
        let before = match Waiting::hold(replace(&mut self.list, Statements::new(alloc))) {
            Ok(before) => before,
            Err(failed) => {
                self.list = failed.value;
                return Err(AllocError);
            }
        };
        match self.nest.push(Frame { before, opened }) {
            Ok(()) => {
                self.count += 1;
                Ok(())
            }
            Err(failed) => {
                self.list = failed.value.before.release();
                Err(AllocError)
            }
        }
    }

    /// Remembers that the object is used.
    pub fn use_object(&mut self, x: u16)
        ensures { self.new ≡ using x self.old }
    {
        self.used.add(x);
    }

    /// Begins the second list of the innermost condition.
    pub fn begin_second(&mut self, alloc: Global)
        ensures { self.new ≡ second_in self.old }
    {
        let first = replace(&mut self.list, Statements::new(alloc));
        self.nest.begin_second(first);
    }

    /// Ends the innermost statement that is open, if one is.
    pub fn end(&mut self, alloc: Global)
        ensures { self.new ≡ ended_in self.old.nest self.old }
    {
        if let Some(frame) = self.nest.pop() {
            let list = replace(&mut self.list, Statements::new(alloc));
            self.list = frame.before.close(ended(alloc, frame.opened, list));
        }
    }
}

// The statement that ends with its last list.
fn ended(alloc: Global, opened: Opened, list: Statements) -> Statement
    ensures { result ≡ ended opened list }
{
    match opened {
        Opened::Block { retry } => Statement::Block { retry, body: list },
        Opened::If {
            x,
            op,
            answer,
            first,
        } => match first {
            Some(then) => Statement::If {
                x,
                op,
                answer,
                then,
                other: list,
            },
            None => Statement::If {
                x,
                op,
                answer,
                then: list,
                other: Statements::new(alloc),
            },
        },
    }
}

/// Takes a line of a program that isn't its end. A line that is refused changes nothing.
pub fn take_line(alloc: Global, program: &mut Opening, line: Said) -> Result<(), ScriptFault>
    ensures ok { OnOk result ((fits_in line program.old ≡ true) × (program.new ≡ behind_line line program.old)) }
    ensures bad { IsErrOf result script_fault.Bad → fits_in line program.old ≡ false }
    ensures err { OnErr result (program.new ≡ program.old) }
{
    match line {
        Said::Do { x, op } => put_call(program, x, Statement::Do { x, op }),
        Said::Print { x, op } => put_call(program, x, Statement::Print { x, op }),
        Said::If { x, op, answer } => begin_test(alloc, program, x, op, answer),
        Said::Else => begin_second(alloc, program),
        Said::Block { retry } => begin_block(alloc, program, retry),
        Said::End => end(alloc, program),
        Said::Fail => put_fail(program),
        Said::Prog { .. } | Said::Run => Err(ScriptFault::Bad),
    }
}

// Takes a call.
fn put_call(program: &mut Opening, x: u16, statement: Statement) -> Result<(), ScriptFault>
    ensures ok { OnOk result ((may_call x program.old ≡ true) × (program.new ≡ using x (put_in statement program.old))) }
    ensures bad { IsErrOf result script_fault.Bad → may_call x program.old ≡ false }
    ensures err { OnErr result (program.new ≡ program.old) }
{
    if !program.may_call(x) {
        return Err(ScriptFault::Bad);
    }
    program.put(statement)?;
    program.use_object(x);
    Ok(())
}

// Takes the beginning of a condition.
fn begin_test(
    alloc: Global,
    program: &mut Opening,
    x: u16,
    op: Op,
    answer: Answer,
) -> Result<(), ScriptFault>
    ensures ok { OnOk result ((may_call x program.old ≡ true) × (program.new ≡ using x (opened_in (opened.If x op answer None) program.old))) }
    ensures bad { IsErrOf result script_fault.Bad → may_call x program.old ≡ false }
    ensures err { OnErr result (program.new ≡ program.old) }
{
    if !program.may_call(x) {
        return Err(ScriptFault::Bad);
    }
    let opened = Opened::If {
        x,
        op,
        answer,
        first: None,
    };
    program.begin(alloc, opened)?;
    program.use_object(x);
    Ok(())
}

// Takes `else`.
fn begin_second(alloc: Global, program: &mut Opening) -> Result<(), ScriptFault>
    ensures ok { OnOk result ((awaits_else program.old.nest ≡ true) × (program.new ≡ second_in program.old)) }
    ensures bad { IsErrOf result script_fault.Bad → awaits_else program.old.nest ≡ false }
    ensures err { OnErr result (program.new ≡ program.old) }
{
    if !program.nest.awaits_else() {
        return Err(ScriptFault::Bad);
    }
    program.begin_second(alloc);
    Ok(())
}

// Takes the beginning of a block.
fn begin_block(alloc: Global, program: &mut Opening, retry: u8) -> Result<(), ScriptFault>
    ensures ok { OnOk result ((fits_in (said.Block retry) program.old ≡ true) × (program.new ≡ opened_in (opened.Block retry) program.old)) }
    ensures bad { IsErrOf result script_fault.Bad → fits_in (said.Block retry) program.old ≡ false }
    ensures err { OnErr result (program.new ≡ program.old) }
{
    if !program.has_room() {
        return Err(ScriptFault::Bad);
    }
    if program.nest.blocks() >= BLOCKS {
        return Err(ScriptFault::Bad);
    }
    program.begin(alloc, Opened::Block { retry })?;
    Ok(())
}

// Takes the end of what is innermost.
fn end(alloc: Global, program: &mut Opening) -> Result<(), ScriptFault>
    ensures ok { OnOk result ((may_end program.old ≡ true) × (program.new ≡ ended_in program.old.nest program.old)) }
    ensures bad { IsErrOf result script_fault.Bad → may_end program.old ≡ false }
    ensures err { OnErr result (program.new ≡ program.old) }
{
    if program.nest.awaits_else() {
        return Err(ScriptFault::Bad);
    }
    program.end(alloc);
    Ok(())
}

// Takes `fail`.
fn put_fail(program: &mut Opening) -> Result<(), ScriptFault>
    ensures ok { OnOk result ((nat_lt program.old.count STATEMENTS ≡ true) × (program.new ≡ put_in statement.Fail program.old)) }
    ensures bad { IsErrOf result script_fault.Bad → nat_lt program.old.count STATEMENTS ≡ false }
    ensures err { OnErr result (program.new ≡ program.old) }
{
    if !program.has_room() {
        return Err(ScriptFault::Bad);
    }
    program.put(Statement::Fail)?;
    Ok(())
}
