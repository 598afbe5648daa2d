// The nodes that are up behind a script, and their crashes.
ghost use Rattle.std.specs.Prelude.{◌≡◌, ◌≤◌, ◌<◌, ◌+◌, ◌++◌, ◌∷◌, [], length, false, IfOk, OnOk, IsErrOf, if◌then◌else◌};
ghost use Rattle.arj_journal.specs.ScriptForm.{EventInForm};
ghost use Rattle.arj_journal.specs.declared.event.Event.TheVariants as events;
ghost use Rattle.arj_loop.specs.declared.limits.TheConstants.{MOST_EVENTS};
ghost use Rattle.arj_model.specs.Refusals.{down_step, is_down as is_down_behind};
ghost use Rattle.arj_start.specs.Start.{fresh};
ghost use Rattle.arj_saving.specs.Stops.{ComesSoFar, HasCrashed, HasRun, MeetsLimit, last_sent as last_sent_of, moment, no_labels as no_labels_line, sent_by, up_node, up_nodes as nodes_up};

use arj_base::Bytes;
use arj_disk::{Disk, Rack};
use arj_journal::{Body, Event, Line, Lines, Which};
use arj_loop::{EventFault, Machine};
use std::alloc::{AllocError, AllocFailed, Global};
use thiserror::Error;

/// Why not all nodes were stopped.
#[derive(Clone, Copy, Debug, Error)]
pub enum Stop {
    #[error("a limit was met")]
    Limit,
    #[error("out of memory")]
    Memory,
}

impl From<AllocError> for Stop {
    ghost use Rattle.arj_saving.specs.declared.stopping.Stop.TheVariants.{Memory};

    ghost from_gives = { λ _ e. e ≡ Memory };

    fn from(_: AllocError) -> Self {
        Stop::Memory
    }
}

impl<T: Drop> From<AllocFailed<T>> for Stop {
    ghost use Rattle.arj_saving.specs.declared.stopping.Stop.TheVariants.{Memory};

    ghost from_gives = { λ _ e. e ≡ Memory };

    fn from(_: AllocFailed<T>) -> Self {
        Stop::Memory
    }
}

// One of two answers.
fn either(test: bool, yes: bool, no: bool) -> bool
    ensures { result ≡ (if test then yes else no) }
{
    if test { yes } else { no }
}

// Whether a node is down behind a line, where this is so of it before.
fn is_down_by(node: u8, body: &Body, down: bool) -> bool
    ensures { result ≡ down_step node body.now down }
{
    match body {
        Body::Halted { node: other } => either(*other == node, true, down),
        Body::Up { node: other, .. } => either(*other == node, false, down),
        _ => down,
    }
}

// Whether a node is down behind these lines.
fn is_down(node: u8, lines: &[Line]) -> bool
    ensures { result ≡ is_down_behind fresh lines.now node }
{
    let mut down = false;
    for line in lines {
        down = is_down_by(node, &line.body, down);
    }
    down
}

// Puts the node behind these, if it is up.
fn put_up(node: u8, lines: &[Line], ups: &mut Bytes) -> Result<(), AllocError>
    ensures { OnOk result (ups.new ≡ ups.old ++ up_node lines.now node) }
{
    if is_down(node, lines) {
        return Ok(());
    }
    ups.push(node)
}

/// Of so many nodes those that are up behind these lines.
pub fn up_nodes(alloc: Global, nodes: u8, lines: &[Line]) -> Result<Bytes, AllocError>
    ensures { IfOk result (λ ups. ups ≡ nodes_up lines.now nodes) }
{
    let mut ups = Bytes::new(alloc);
    for done in 0..nodes {
        put_up(done + 1, lines, &mut ups)?;
    }
    Ok(ups)
}

/// Finds that none of so many nodes is up behind these lines. Where one is this is told as want of memory; behind the crashes of all nodes
/// that were up none is (`crashes_stop_all_nodes` in `arj_law_images`).
pub fn find_down(alloc: Global, nodes: u8, lines: &[Line]) -> Result<(), AllocError>
    ensures { OnOk result (nodes_up lines.now nodes ≡ []) }
{
    let ups = up_nodes(alloc, nodes, lines)?;
    if ups.as_slice().is_empty() {
        Ok(())
    } else {
        Err(AllocError)
    }
}

// The frame that a line says was sent, else the one before.
fn sent_or(body: &Body, before: u32) -> u32
    ensures { result ≡ sent_by body.now before }
{
    match body {
        Body::Sent { frame, .. } => *frame,
        _ => before,
    }
}

/// The number of the last frame that was sent, 0 where none was.
pub fn last_sent(lines: &[Line]) -> u32
    ensures { result ≡ last_sent_of lines.now 0 }
{
    let mut last: u32 = 0;
    for line in lines {
        last = sent_or(&line.body, last);
    }
    last
}

// Says that no label was left behind so many events.
fn no_labels(event: u32, journal: &mut Lines) -> Result<(), AllocError>
    ensures { OnOk result (journal.new ≡ journal.old ++ no_labels_line event ∷ []) }
{
    let body = Body::Limit {
        which: Which::Labels,
    };
    journal.push(Line { event, body })
}

// The crash of a node.
fn crash_of(node: u8) -> Event
    ensures crash { result ≡ events.Crash node }
    ensures form { EventInForm result }
{
    Event::Crash {
        node: u32::from(node),
    }
}

// Crashes a node. Limit: a limit was met, and the journal's last line says which.
fn crash<D: Disk, M: Machine<D>>(
    machine: &mut M,
    node: u8,
    rack: &mut Rack<D>,
    journal: &mut Lines,
) -> Result<(), Stop>
    requires room { M.steps machine.old < MOST_EVENTS }
    requires going { M.over machine.old ≡ false }
    requires ran { HasRun M.Machine (moment rack.old machine.old journal.old) }
    ensures crashed { OnOk result (HasCrashed M.Machine (node ∷ []) (moment rack.old machine.old journal.old) (moment rack.new machine.new journal.new)) }
    ensures limit { IsErrOf result Stop.Limit → MeetsLimit M.Machine (node ∷ []) (moment rack.old machine.old journal.old) (moment rack.new machine.new journal.new) }
    ensures memory { IsErrOf result Stop.Memory → ComesSoFar M.Machine (node ∷ []) (moment rack.old machine.old journal.old) rack.new }
{
    match machine.step(crash_of(node), rack, journal) {
        Ok(()) => Ok(()),
        Err(EventFault::Labels) => {
            no_labels(machine.stepped(), journal)?;
            Err(Stop::Limit)
        }
        Err(EventFault::Frames) => Err(Stop::Limit),
        Err(EventFault::Memory) => Err(Stop::Memory),
    }
}

/// Crashes these nodes, one after another. Limit: a limit was met, and the journal's last line says which.
pub fn crash_all<D: Disk, M: Machine<D>>(
    machine: &mut M,
    nodes: &[u8],
    rack: &mut Rack<D>,
    journal: &mut Lines,
) -> Result<(), Stop>
    requires room { M.steps machine.old + length nodes.now ≤ MOST_EVENTS }
    requires going { M.over machine.old ≡ false }
    requires ran { HasRun M.Machine (moment rack.old machine.old journal.old) }
    ensures crashed { OnOk result (HasCrashed M.Machine nodes.now (moment rack.old machine.old journal.old) (moment rack.new machine.new journal.new)) }
    ensures limit { IsErrOf result Stop.Limit → MeetsLimit M.Machine nodes.now (moment rack.old machine.old journal.old) (moment rack.new machine.new journal.new) }
    ensures memory { IsErrOf result Stop.Memory → ComesSoFar M.Machine nodes.now (moment rack.old machine.old journal.old) rack.new }
{
    for node in nodes {
        match crash(machine, *node, rack, journal) {
            Ok(()) => {}
            Err(stop) => return Err(stop),
        }
    }
    Ok(())
}
