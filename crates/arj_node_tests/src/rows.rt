// What a node alone is asked, row by row.
ghost use Rattle.std.specs.Prelude.{◌≡◌, OnOk};
ghost use Rattle.arj_node_tests.specs.Alone.{StandsSome};

use crate::alone::{Alone, ask};
use arj_base::Bytes;
use arj_class::Op;
use arj_core::{Core, CoreFault, Input};
use arj_disk::Disk;
use arj_journal::{Kind, Label};
use arj_part_tests::Recorder;
use std::alloc::{AllocError, Global};

/// What a node is asked. All is about action A: it begins as a top, adds to a counter, its commit is called, what it waits for
/// is given up. A frame has its number, its sender and its bytes.
#[derive(Clone, Copy)]
pub enum Ask {
    Begin,
    Add(u16, u64),
    Commit,
    GiveUp,
    Frame(u32, u8, &'static [u8]),
    Crash,
    Restart,
    Show(u16),
}

/// What is asked, in which event of the run.
pub type Row = (u32, Ask);

// These bytes come as the frame of this number.
fn frame(alloc: Global, k: u32, from: u8, bytes: &[u8]) -> Result<Input, AllocError> {
    let mut copy = Bytes::new(alloc);
    copy.extend(bytes)?;
    Ok(Input::Frame {
        k,
        from,
        bytes: copy,
    })
}

// A top begins.
fn begins(label: Label) -> Input {
    Input::Begin {
        label,
        kind: Kind::Top,
        parent: None,
    }
}

// The input of what is asked.
fn input(alloc: Global, asked: Ask) -> Result<Input, AllocError> {
    let label = Label::new(b"A");
    match asked {
        Ask::Begin => Ok(begins(label)),
        Ask::Add(x, by) => Ok(Input::Call {
            label,
            x,
            op: Op::Add(by),
        }),
        Ask::Commit => Ok(Input::Commit { label }),
        Ask::GiveUp => Ok(Input::GiveUp { label }),
        Ask::Frame(k, from, bytes) => frame(alloc, k, from, bytes),
        Ask::Crash => Ok(Input::Crash),
        Ask::Restart => Ok(Input::Restart),
        Ask::Show(x) => Ok(Input::Show { x }),
    }
}

/// Asks the node: true where its disk stopped.
pub fn step<C: Core>(alone: &mut Alone<C>, event: u32, asked: Ask) -> Result<bool, CoreFault>
    requires { StandsSome C.Core alone.old.core (⟦<Recorder as Disk>⟧.file alone.old.disk) }
    ensures stands { OnOk result (StandsSome C.Core alone.new.core (⟦<Recorder as Disk>⟧.file alone.new.disk)) }
    ensures arms { OnOk result (⟦<Recorder as Disk>⟧.arms alone.new.disk ≡ ⟦<Recorder as Disk>⟧.arms alone.old.disk) }
{
    let input = input(alone.alloc, asked)?;
    ask(alone, event, input)
}

/// Asks the node row by row.
pub fn follow<C: Core>(alone: &mut Alone<C>, rows: &[Row]) -> Result<(), CoreFault>
    requires { StandsSome C.Core alone.old.core (⟦<Recorder as Disk>⟧.file alone.old.disk) }
    ensures stands { OnOk result (StandsSome C.Core alone.new.core (⟦<Recorder as Disk>⟧.file alone.new.disk)) }
    ensures arms { OnOk result (⟦<Recorder as Disk>⟧.arms alone.new.disk ≡ ⟦<Recorder as Disk>⟧.arms alone.old.disk) }
{
    'rows: for (event, asked) in rows {
        step(alone, *event, *asked)?;
    }
    Ok(())
}
