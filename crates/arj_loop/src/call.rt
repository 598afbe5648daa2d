// The run of a whole script.
ghost use Rattle.std.specs.Prelude.{◌≡◌, ◌≢◌, ◌≤◌, ◌⊎◌, [], ◌++◌, false, OnOk, OnErr, None, Some};
ghost use Rattle.arj_base.specs.Count.{Rose};
ghost use Rattle.arj_journal.specs.LineText.{text};
ghost use Rattle.arj_loop.specs.Replayed.{Closes, StopsShort, answer, outside};
ghost use Rattle.arj_loop.specs.Running.{last_body, last_lines, events_run, status_of};
ghost use Rattle.arj_script.specs.Cutting.{in_hand};
ghost use Rattle.arj_script.specs.Grammar.{Start};
ghost use Rattle.arj_script.specs.declared.limits.TheConstants.{LINE_BYTES, SCRIPT_LINES};

use crate::asked::AskedSource;
use crate::ending::{BadLine, End};
use crate::machine::Machine;
use crate::session::Session;
use arj_disk::{Disk, Rack};
use arj_io::{Failed, Sink};
use arj_journal::{Body, Line, Lines};
use std::alloc::{AllocError, Global};

/// Runs the script that comes from the source on a machine over these disks, writes its journal, and answers the status.
/// The journal is left in `journal` and the machine, once the disks were formatted, in `machine` at every status but 4 and 5, and at status 2
/// why a line is bad in `why`. Each line is
/// run before more is asked for than the piece in hand, and the text of the lines that were run is written before: the bound on
/// the source has no other way to read.
///
/// 0: the input was read to its end and every line was run. 2: a line isn't in the grammar. 3: a read failed. 4: a write
/// failed. 5: memory was wanting. 6: a limit was met. 7: a disk stopped while it was formatted.
pub fn replay<S: AskedSource, K: Sink, D: Disk, M: Machine<D>>(
    alloc: Global,
    source: &mut S,
    sink: &mut K,
    rack: &mut Rack<D>,
    journal: &mut Lines,
    why: &mut Option<BadLine>,
    machine: &mut Option<M>,
) -> u8
    requires ready { M.ready rack.old }
    requires fresh { journal.old ≡ [] }
    ensures closes { result ≢ 4 → result ≢ 5 → Closes M.Machine (outside (S.left source.old) (S.faults source.old) (K.taken sink.old) rack.old) (outside (S.left source.new) (S.faults source.new) (K.taken sink.new) rack.new) (answer result why.new journal.new machine.new) }
    ensures short { (result ≡ 4) ⊎ (result ≡ 5) → StopsShort M.Machine (outside (S.left source.old) (S.faults source.old) (K.taken sink.old) rack.old) (outside (S.left source.new) (S.faults source.new) (K.taken sink.new) rack.new) result }
    ensures statuses { (result ≤ 7) × (result ≢ 1) }
    ensures write_fault { result ≡ 4 → Rose (K.faults sink.old) (K.faults sink.new) }
    ensures no_write_fault { result ≢ 4 → K.faults sink.new ≡ K.faults sink.old }
{
    match Session::<M>::new(alloc) {
        Ok(session) => run_through(session, source, sink, rack, journal, why, machine),
        Err(_) => 5,
    }
}

// Runs the script, and answers the status.
fn run_through<S: AskedSource, K: Sink, D: Disk, M: Machine<D>>(
    session: Session<M>,
    source: &mut S,
    sink: &mut K,
    rack: &mut Rack<D>,
    journal: &mut Lines,
    why: &mut Option<BadLine>,
    machine: &mut Option<M>,
) -> u8
    requires runner { (session.runner.reader ≡ Start) × (session.runner.machine ≡ None) × (session.runner.lines ≡ 0) }
    requires nothing { (session.cutter ≡ in_hand LINE_BYTES []) × (session.gather.waiting.items ≡ []) }
    requires ready { M.ready rack.old }
    requires fresh { journal.old ≡ [] }
    ensures closes { result ≢ 4 → result ≢ 5 → Closes M.Machine (outside (S.left source.old) (S.faults source.old) (K.taken sink.old) rack.old) (outside (S.left source.new) (S.faults source.new) (K.taken sink.new) rack.new) (answer result why.new journal.new machine.new) }
    ensures short { (result ≡ 4) ⊎ (result ≡ 5) → StopsShort M.Machine (outside (S.left source.old) (S.faults source.old) (K.taken sink.old) rack.old) (outside (S.left source.new) (S.faults source.new) (K.taken sink.new) rack.new) result }
    ensures statuses { (result ≤ 7) × (result ≢ 1) }
    ensures write_fault { result ≡ 4 → Rose (K.faults sink.old) (K.faults sink.new) }
    ensures no_write_fault { result ≢ 4 → K.faults sink.new ≡ K.faults sink.old }
{
    let mut session = session;
    let end = session.run(source, sink, rack, journal);
    *why = end.why();
    if end.is_write() {
        return 4;
    }
    let status = close::<D, M>(&mut session, end, journal);
    *machine = session.runner.take_machine();
    match session.gather.flush(sink) {
        Ok(()) => status,
        Err(Failed) => 4,
    }
}

// Puts the line outside events at the journal's end, if the run's end has one, and its text behind what waits. Answers
// the status that the run has where what waits can be written.
fn close<D: Disk, M: Machine<D>>(session: &mut Session<M>, end: End, journal: &mut Lines) -> u8
    requires { (why : BadLine) → end ≡ End.Bad why → session.old.runner.lines ≤ SCRIPT_LINES }
    ensures put { result ≢ 5 → (result ≡ status_of end) × (journal.new ≡ journal.old ++ last_lines (last_body end session.old.runner.lines) (events_run M.Machine session.old.runner.machine))
        × (session.new.gather.waiting.items ≡ session.old.gather.waiting.items ++ text (last_lines (last_body end session.old.runner.lines) (events_run M.Machine session.old.runner.machine))) }
    ensures runner { session.new.runner ≡ session.old.runner }
    ensures cut { result ≡ 5 → (end ≢ End.Whole) × (end ≢ End.Fault) × (end ≢ End.Frames) }
    ensures memory { result ≡ 5 → session.new.gather.waiting.items ≡ session.old.gather.waiting.items }
{
    let Some(body) = session.runner.last_body(end) else {
        return end.status();
    };
    match put_last::<D, M>(session, body, journal) {
        Ok(()) => end.status(),
        Err(_) => 5,
    }
}

// Puts a line outside events at the journal's end, and its text behind what waits.
fn put_last<D: Disk, M: Machine<D>>(
    session: &mut Session<M>,
    body: Body,
    journal: &mut Lines,
) -> Result<(), AllocError>
    ensures put { OnOk result ((journal.new ≡ journal.old ++ last_lines (Some body) (events_run M.Machine session.old.runner.machine))
        × (session.new.gather.waiting.items ≡ session.old.gather.waiting.items ++ text (last_lines (Some body) (events_run M.Machine session.old.runner.machine)))) }
    ensures runner { session.new.runner ≡ session.old.runner }
    ensures memory { OnErr result (session.new.gather.waiting.items ≡ session.old.gather.waiting.items) }
{
    let before = journal.as_slice().len();
    journal.push(Line {
        event: session.runner.events::<D>(),
        body,
    })?;
    session.gather.put(&journal.as_slice()[before..])
}
