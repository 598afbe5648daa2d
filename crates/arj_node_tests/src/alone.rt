// One node alone with its disk, and the journal of what it puts out.
ghost use Rattle.std.specs.Prelude.{◌≡◌, ◌≤◌, ◌<◌, ◌+◌, IfOk, OnOk};
ghost use Rattle.arj_journal.specs.ScriptForm.{HeaderInForm};
ghost use Rattle.arj_node_tests.specs.Alone.{StandsSome};

use arj_base::Bytes;
use arj_core::{Core, CoreFault, Input, Output, Outputs};
use arj_disk::{Disk, MemDisk, Outcome};
use arj_journal::words::frame_word;
use arj_journal::{Body, Header, Line, put_line};
use arj_part_tests::{Did, Recorder, put_calls};
use arj_script::{Item, Reader, ScriptFault};
use std::alloc::{AllocError, Global};

/// A node, its disk, and the lines of its steps. A message that it sent has a line with the receiver and the kind, and each
/// call that its disk got has a line, behind those of the step.
#[derive(Drop)]
pub struct Alone<C> {
    pub alloc: Global,
    pub number: u8,
    pub core: C,
    pub disk: Recorder,
    pub journal: Bytes,
}

/// The header that these lines of a script make.
pub fn header(alloc: Global, lines: &[&[u8]]) -> Result<Header, ScriptFault>
    ensures { IfOk result HeaderInForm }
{
    let mut reader = Reader::new(alloc);
    for line in lines {
        if let Item::Run(header) = reader.line(line)? {
            return Ok(header);
        }
    }
    Err(ScriptFault::Bad)
}

/// The node of this number in a run with this header, over an empty disk, which is formatted.
pub fn begin<C: Core + Drop>(
    alloc: Global,
    number: u8,
    header: &Header,
) -> Result<Alone<C>, CoreFault>
    requires least { 1 ≤ number }
    requires greatest { number ≤ header.now.nodes }
    requires form { HeaderInForm header.now }
    ensures stands { IfOk result (λ a. StandsSome C.Core a.core (⟦<Recorder as Disk>⟧.file a.disk)) }
    ensures arms { IfOk result (λ a. ⟦<Recorder as Disk>⟧.arms a.disk ≡ 0) }
{
    let mut disk = Recorder {
        disk: MemDisk::new(alloc),
        calls: Vec::new(alloc),
    };
    let core = C::format(alloc, number, header, &mut disk)?;
    let mut journal = Bytes::new(alloc);
    put_calls(&mut journal, 0, disk.calls.as_slice())?;
    Ok(Alone {
        alloc,
        number,
        core,
        disk,
        journal,
    })
}

// The line of a message that is sent.
fn put_sent(journal: &mut Bytes, event: u32, to: u8, kind: &[u8]) -> Result<(), AllocError> {
    journal.extend_decimal(u64::from(event))?;
    journal.extend(b" sent ")?;
    journal.extend_decimal(u64::from(to))?;
    journal.extend(b" ")?;
    journal.extend(kind)?;
    journal.extend(b"\n")
}

// What a step put out, and which calls the disk got for it, as lines of this event.
fn put_all(
    journal: &mut Bytes,
    event: u32,
    outputs: Outputs,
    calls: &[Did],
) -> Result<(), AllocError> {
    for output in outputs.into_vec() {
        match output {
            Output::Say(body) => put_line(journal, &Line { event, body })?,
            Output::Send { to, kind, .. } => put_sent(journal, event, to, frame_word(kind))?,
        }
    }
    put_calls(journal, event, calls)
}

/// A step of the node: true where its disk stopped. Then a line says that it halted.
pub fn ask<C: Core>(alone: &mut Alone<C>, event: u32, input: Input) -> Result<bool, CoreFault>
    requires { StandsSome C.Core alone.old.core (⟦<Recorder as Disk>⟧.file alone.old.disk) }
    ensures stands { OnOk result (StandsSome C.Core alone.new.core (⟦<Recorder as Disk>⟧.file alone.new.disk)) }
    ensures arms { OnOk result (⟦<Recorder as Disk>⟧.arms alone.new.disk ≡ ⟦<Recorder as Disk>⟧.arms alone.old.disk) }
{
    let mut outputs = Outputs::new(alone.alloc);
    alone.disk.calls.clear();
    match alone.core.step(&mut alone.disk, input, &mut outputs) {
        Ok(()) => {
            put_all(
                &mut alone.journal,
                event,
                outputs,
                alone.disk.calls.as_slice(),
            )?;
            Ok(false)
        }
        Err(CoreFault::Halted) => {
            outputs.push(Output::Say(Body::Halted { node: alone.number }))?;
            put_all(
                &mut alone.journal,
                event,
                outputs,
                alone.disk.calls.as_slice(),
            )?;
            Ok(true)
        }
        Err(CoreFault::Memory) => Err(CoreFault::Memory),
    }
}

/// Asks the disk for a stop: of this call from now, which is then done or not.
pub fn arm<C: Core>(alone: &mut Alone<C>, calls: u32, done: bool)
    requires stands { StandsSome C.Core alone.old.core (⟦<Recorder as Disk>⟧.file alone.old.disk) }
    requires arms { ⟦<Recorder as Disk>⟧.arms alone.old.disk < 9 }
    ensures stands { StandsSome C.Core alone.new.core (⟦<Recorder as Disk>⟧.file alone.new.disk) }
    ensures arms { ⟦<Recorder as Disk>⟧.arms alone.new.disk ≡ ⟦<Recorder as Disk>⟧.arms alone.old.disk + 1 }
{
    let outcome = if done { Outcome::Done } else { Outcome::Undone };
    alone.disk.arm(calls.max(1), outcome);
}
