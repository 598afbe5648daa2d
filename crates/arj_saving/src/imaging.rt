// The command: a script is run, its nodes are stopped, and their image is written.
ghost use Rattle.std.specs.Prelude.{◌≡◌, ◌≢◌, ◌≤◌, ◌++◌, ◌∷◌, [], Err, List, Some, IfErr, IfOk, MatchOption};
ghost use Rattle.arj_base.specs.Count.{Rose};
ghost use Rattle.arj_journal.specs.declared.body.Line.{Line as line_type};
ghost use Rattle.arj_loop.specs.Input.{Arrived, Came, source_view};
ghost use Rattle.arj_loop.specs.Replayed.{answer, outside};
ghost use Rattle.arj_loop.specs.Running.{held_by};
ghost use Rattle.arj_nodes.specs.AllNodes.{AreFresh};
ghost use Rattle.arj_nodes.specs.AsMachine.{all_nodes};
ghost use Rattle.arj_saving.specs.Comes.{ComesFrom, ComesOf, FilesAre, HasScript, LeadsTo};
ghost use Rattle.arj_saving.specs.Saved.{Saves, SaysLast};
ghost use Rattle.arj_saving.specs.Stops.{moment, up_nodes as nodes_up};

use crate::gathering::files_of;
use crate::saving::{Said, say_image};
use crate::stopping::{Stop, crash_all, find_down, up_nodes};
use arj_base::Bytes;
use arj_core::Core;
use arj_disk::{Disk, DiskFault, Rack};
use arj_io::{Failed, Sink, Source, SureSink, write_all};
use arj_journal::{Lines, line_text};
use arj_loop::{BadLine, Machine, replay};
use arj_nodes::AllNodes;
use std::alloc::{AllocError, Global};

/// Why nothing is said.
#[derive(Clone, Copy, Debug, PartialEq, Eq)]
pub enum Silence {
    /// A read failed.
    Read,
    /// A disk was stopped while it was formatted or read.
    Disk,
    /// Memory is wanting.
    Memory,
}

/// What is done behind the run of a script.
#[derive(Clone, Copy, Debug, PartialEq, Eq)]
pub enum Way {
    /// Its nodes are stopped and saved.
    Save,
    /// Its journal's last line is said.
    Last,
    /// Nothing is said.
    Stop(Silence),
}

// What is done behind a run with this status.
fn way_of(status: u8) -> Way
    ensures { LeadsTo status result }
{
    match status {
        0 => Way::Save,
        2 | 6 => Way::Last,
        3 => Way::Stop(Silence::Read),
        7 => Way::Stop(Silence::Disk),
        _ => Way::Stop(Silence::Memory),
    }
}

// The text of the last line of a journal that has one.
fn last_text(alloc: Global, journal: &Lines) -> Result<Bytes, AllocError>
    requires some { (front : List line_type) × (last : line_type) × (journal.now ≡ front ++ last ∷ []) }
    ensures { IfOk result (λ text. SaysLast journal.now text) }
{
    match journal.as_slice().last() {
        Some(line) => line_text(alloc, line),
        None => Ok(Bytes::new(alloc)),
    }
}

// Says the last line of a journal that has one.
fn say_last(alloc: Global, status: u8, journal: &Lines) -> Result<Said, Silence>
    requires some { (front : List line_type) × (last : line_type) × (journal.now ≡ front ++ last ∷ []) }
    ensures said { IfOk result (λ said. (said.status ≡ status) × SaysLast journal.now said.text) }
    ensures memory { IfErr result (λ why. why ≡ Silence.Memory) }
{
    match last_text(alloc, journal) {
        Ok(text) => Ok(Said { status, text }),
        Err(_) => Err(Silence::Memory),
    }
}

// How many events a machine has run.
fn steps_of<D: Disk, M: Machine<D>>(machine: &M) -> u32
    ensures { result ≡ M.steps machine.now }
{
    machine.stepped()
}

// Reads the files of nodes that are down, and says their image.
fn say_down<D: Disk, C: Core + Drop>(
    alloc: Global,
    nodes: &AllNodes<C>,
    rack: &mut Rack<D>,
    journal: &mut Lines,
) -> Result<Said, Silence>
    ensures { FilesAre (all_nodes C.Core D.Disk) D.Disk nodes.now.world.header (moment rack.old nodes.now journal.old) (held_by rack.new (Some nodes.now) journal.new) result }
{
    let events = steps_of::<D, AllNodes<C>>(nodes);
    let header = nodes.header();
    match files_of(alloc, rack, header.nodes) {
        Ok(files) => match say_image(alloc, header, events, journal, &files) {
            Ok(said) => Ok(said),
            Err(_) => Err(Silence::Memory),
        },
        Err(DiskFault::Stopped) => Err(Silence::Disk),
        Err(DiskFault::Memory) => Err(Silence::Memory),
    }
}

// Says the image of nodes that were stopped, where none is up.
fn say_files<D: Disk, C: Core + Drop>(
    alloc: Global,
    nodes: &AllNodes<C>,
    rack: &mut Rack<D>,
    journal: &mut Lines,
) -> Result<Said, Silence>
    ensures files { FilesAre (all_nodes C.Core D.Disk) D.Disk nodes.now.world.header (moment rack.old nodes.now journal.old) (held_by rack.new (Some nodes.now) journal.new) result }
    ensures down { result ≢ Err Silence.Memory → nodes_up journal.old nodes.now.world.header.nodes ≡ [] }
{
    let header = nodes.header();
    match find_down(alloc, header.nodes, journal.as_slice()) {
        Ok(()) => say_down(alloc, nodes, rack, journal),
        Err(_) => Err(Silence::Memory),
    }
}

// Stops nodes that have run a script, and says their image.
fn say_stopped<D: Disk, C: Core + Drop>(
    alloc: Global,
    nodes: &mut AllNodes<C>,
    rack: &mut Rack<D>,
    journal: &mut Lines,
) -> Result<Said, Silence>
    requires script { HasScript (all_nodes C.Core D.Disk) (moment rack.old nodes.old journal.old) }
    ensures { ComesFrom (all_nodes C.Core D.Disk) D.Disk (moment rack.old nodes.old journal.old) (held_by rack.new (Some nodes.new) journal.new) result }
{
    let count = nodes.header().nodes;
    match up_nodes(alloc, count, journal.as_slice()) {
        Ok(ups) => match crash_all::<D, AllNodes<C>>(nodes, ups.as_slice(), rack, journal) {
            Ok(()) => say_files(alloc, nodes, rack, journal),
            Err(Stop::Limit) => say_last(alloc, 6, journal),
            Err(Stop::Memory) => Err(Silence::Memory),
        },
        Err(_) => Err(Silence::Memory),
    }
}

// Says the image of nodes that have run a script.
fn say_nodes<D: Disk, C: Core + Drop>(
    alloc: Global,
    nodes: &mut Option<AllNodes<C>>,
    rack: &mut Rack<D>,
    journal: &mut Lines,
) -> Result<Said, Silence>
    requires script { MatchOption nodes.old ⊥ (λ all. HasScript (all_nodes C.Core D.Disk) (moment rack.old all journal.old)) }
    ensures { (all : AllNodes C) → nodes.old ≡ Some all → ComesFrom (all_nodes C.Core D.Disk) D.Disk (moment rack.old all journal.old) (held_by rack.new nodes.new journal.new) result }
{
    let Some(nodes) = nodes else { unreachable!() };
    say_stopped(alloc, nodes, rack, journal)
}

// Runs the script that comes from the source, stops its nodes, and says their image, or why there is none.
fn say<S: Source, D: Disk, C: Core + Drop>(
    alloc: Global,
    source: &mut S,
    rack: &mut Rack<D>,
    journal: &mut Lines,
    why: &mut Option<BadLine>,
    nodes: &mut Option<AllNodes<C>>,
) -> Result<Said, Silence>
    requires ready { AreFresh D.Disk rack.old }
    requires fresh { journal.old ≡ [] }
    ensures { (given : Arrived) × Came (source_view (S.left source.old) (S.faults source.old)) (source_view (S.left source.new) (S.faults source.new)) given
        × ComesOf (all_nodes C.Core D.Disk) D.Disk given rack.old (held_by rack.new nodes.new journal.new) why.new result }
{
    let mut nowhere = SureSink::new(Bytes::new(alloc));
    let status = replay::<S, SureSink, D, AllNodes<C>>(
        alloc,
        source,
        &mut nowhere,
        rack,
        journal,
        why,
        nodes,
    );
    match way_of(status) {
        Way::Save => say_nodes(alloc, nodes, rack, journal),
        Way::Last => say_last(alloc, status, journal),
        Way::Stop(silence) => Err(silence),
    }
}

/// Runs the script that comes from the source on nodes over these disks, stops the nodes that are up, writes the image of what is left,
/// and answers the status. The journal is left in `journal`, and the nodes, once the disks were formatted, in `nodes`, at every status but 5,
/// and at status 2 why a line is bad in `why`.
///
/// 0: the image was written. 2: a line isn't in the grammar. 3: a read failed. 4: a write failed. 5: memory was wanting. 6: a limit was
/// met, or the image has more lines than an audit reads. 7: a disk was stopped while it was formatted, or while it was read.
pub fn imaged<S: Source, K: Sink, D: Disk, C: Core + Drop>(
    alloc: Global,
    source: &mut S,
    sink: &mut K,
    rack: &mut Rack<D>,
    journal: &mut Lines,
    why: &mut Option<BadLine>,
    nodes: &mut Option<AllNodes<C>>,
) -> u8
    requires ready { AreFresh D.Disk rack.old }
    requires fresh { journal.old ≡ [] }
    ensures saves { Saves (all_nodes C.Core D.Disk) D.Disk (outside (S.left source.old) (S.faults source.old) (K.taken sink.old) rack.old) (outside (S.left source.new) (S.faults source.new) (K.taken sink.new) rack.new) (answer result why.new journal.new nodes.new) }
    ensures statuses { (result ≤ 7) × (result ≢ 1) }
    ensures read_fault { result ≡ 3 → Rose (S.faults source.old) (S.faults source.new) }
    ensures write_fault { result ≡ 4 → Rose (K.faults sink.old) (K.faults sink.new) }
    ensures no_write_fault { result ≢ 4 → K.faults sink.new ≡ K.faults sink.old }
{
    match say(alloc, source, rack, journal, why, nodes) {
        Ok(said) => match write_all(sink, said.text.as_slice()) {
            Ok(()) => said.status,
            Err(Failed) => 4,
        },
        Err(Silence::Read) => 3,
        Err(Silence::Disk) => 7,
        Err(Silence::Memory) => 5,
    }
}
