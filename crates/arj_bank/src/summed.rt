// The generated bank, run and summed up.
ghost use Rattle.std.specs.Prelude.{◌≡◌, ◌≢◌, ◌≤◌, ℕ, List, [], take, IfOk, IsErrOf, None, OnOk};
ghost use Rattle.arj_base.specs.Count.{Rose};
ghost use Rattle.arj_bank.specs.Balances.{held_by, node_files, reader};
ghost use Rattle.arj_bank.specs.Bank.{EndsAtLimit, IsSummary, StopsBank, SumsUp, WantsMemory, left};
ghost use Rattle.arj_gen.specs.declared.bank.TheConstants.{NODES};
ghost use Rattle.arj_io.specs.Told.{Takes};
ghost use Rattle.arj_world.specs.Disks.{HasStopped, HaveMoved, HaveNotStopped};

use crate::balances::sum;
use crate::run::run_bank;
use crate::stop::Stop;
use crate::summary::Summary;
use arj_base::Bytes;
use arj_disk::{Disk, Rack};
use arj_io::{Failed, Sink, write_all};
use arj_journal::Lines;
use arj_loop::Machine;
use arj_store::{ObjectStore, StoreFault};
use std::alloc::Global;

// The text of the summary of a run of so many events that left these disks and this journal.
fn sum_up<D: Disk, O: ObjectStore>(
    alloc: Global,
    events: u32,
    rack: &mut Rack<D>,
    journal: &Lines,
) -> Result<Bytes, Stop>
    ensures text { IfOk result (λ text. SumsUp (reader D.Disk (held_by O.ObjectStore)) events rack.old journal.now text) }
    ensures files { node_files D.file rack.new ≡ node_files D.file rack.old }
    ensures stopped { IsErrOf result Stop.Disk → HasStopped D.Disk rack.old rack.new }
    ensures unstopped { OnOk result (HaveNotStopped D.Disk rack.old rack.new) }
    ensures limit { IsErrOf result Stop.Limit → ⊥ }
    ensures moved { HaveMoved D.Disk NODES [] rack.old rack.new }
{
    match sum::<D, O>(alloc, rack) {
        Ok(sum) => {
            let text = Summary::new(events, journal.as_slice(), sum).text(alloc)?;
            Ok(text)
        }
        Err(StoreFault::Stopped) => Err(Stop::Disk),
        Err(StoreFault::Memory) => Err(Stop::Memory),
    }
}

// Runs the bank of a number on a machine over these disks: the text of its summary.
fn summary<D: Disk, O: ObjectStore, M: Machine<D>>(
    alloc: Global,
    n: u32,
    rack: &mut Rack<D>,
    journal: &mut Lines,
    machine: &mut Option<M>,
) -> Result<Bytes, Stop>
    requires ready { M.ready rack.old }
    requires fresh { journal.old ≡ [] }
    requires none { machine.old ≡ None }
    ensures text { IfOk result (λ text. IsSummary M.Machine (reader D.Disk (held_by O.ObjectStore)) n rack.old (left rack.new journal.new machine.new) text) }
    ensures limit { IsErrOf result Stop.Limit → EndsAtLimit M.Machine n rack.old (left rack.new journal.new machine.new) }
    ensures stopped { IsErrOf result Stop.Disk → StopsBank M.Machine D.Disk n rack.old (left rack.new journal.new machine.new) }
    ensures memory { IsErrOf result Stop.Memory → WantsMemory M.Machine D.Disk n rack.old rack.new }
{
    match run_bank::<D, M>(alloc, n, rack, journal, machine) {
        Ok(events) => sum_up::<D, O>(alloc, events, rack, journal),
        Err(stop) => Err(stop),
    }
}

/// Runs the bank of a number on a machine over these disks, writes its summary, for which this object store reads them, and answers
/// the status. The journal is left in `journal`, and the machine, once the disks were formatted, in `machine`, at every status but 5.
///
/// 0: the bank was run, and the sink took its summary. 4: a write failed. 5: memory was wanting. 6: a limit was met. 7: a disk
/// was stopped while it was formatted, or while the sum was read.
pub fn generated<K: Sink, D: Disk, O: ObjectStore, M: Machine<D>>(
    alloc: Global,
    n: u32,
    sink: &mut K,
    rack: &mut Rack<D>,
    journal: &mut Lines,
    machine: &mut Option<M>,
) -> u8
    requires ready { M.ready rack.old }
    requires fresh { journal.old ≡ [] }
    requires none { machine.old ≡ None }
    ensures summed { result ≡ 0 → (text : List ℕ) × IsSummary M.Machine (reader D.Disk (held_by O.ObjectStore)) n rack.old (left rack.new journal.new machine.new) text × Takes (K.taken sink.old) text (K.taken sink.new) }
    ensures front { result ≡ 4 → (text : List ℕ) × (count : ℕ) × IsSummary M.Machine (reader D.Disk (held_by O.ObjectStore)) n rack.old (left rack.new journal.new machine.new) text × Takes (K.taken sink.old) (take count text) (K.taken sink.new) }
    ensures limit { result ≡ 6 → EndsAtLimit M.Machine n rack.old (left rack.new journal.new machine.new) }
    ensures stopped { result ≡ 7 → StopsBank M.Machine D.Disk n rack.old (left rack.new journal.new machine.new) }
    ensures statuses { (result ≤ 7) × (result ≢ 1) × (result ≢ 2) × (result ≢ 3) }
    ensures unwritten { result ≢ 0 → result ≢ 4 → sink.new ≡ sink.old }
    ensures write_fault { result ≡ 4 → Rose (K.faults sink.old) (K.faults sink.new) }
    ensures no_write_fault { result ≢ 4 → K.faults sink.new ≡ K.faults sink.old }
    ensures memory { result ≡ 5 → WantsMemory M.Machine D.Disk n rack.old rack.new }
{
    match summary::<D, O, M>(alloc, n, rack, journal, machine) {
        Ok(text) => match write_all(sink, text.as_slice()) {
            Ok(()) => 0,
            Err(Failed) => 4,
        },
        Err(Stop::Memory) => 5,
        Err(Stop::Limit) => 6,
        Err(Stop::Disk) => 7,
    }
}
