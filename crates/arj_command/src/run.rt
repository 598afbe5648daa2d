// The run of a command over any cores.
ghost use Rattle.std.specs.Prelude.{◌≡◌, ◌≢◌, ◌≤◌, ◌⊎◌, ℕ, [], None};
ghost use Rattle.arj_bank.specs.Balances.{held_by, reader};
ghost use Rattle.arj_bank.specs.Bank.{Generates};
ghost use Rattle.arj_base.specs.Count.{Rose};
ghost use Rattle.arj_auditing.specs.Audits.{Audits};
ghost use Rattle.arj_checking.specs.Checks.{Checks, ends};
ghost use Rattle.arj_command.specs.Command.{IsAudit, IsCheck, IsCommand, IsGenerate, IsImage, IsProgram, IsReplay};
ghost use Rattle.arj_command.specs.Images.{ImageHeadline};
ghost use Rattle.arj_command.specs.Outcome.{BankHeadline, Headline, Shown, around, said, world_of};
ghost use Rattle.arj_command.specs.Programs.{ProgramsHeadline};
ghost use Rattle.arj_loop.specs.Replayed.{Closes, StopsShort, answer, outside};
ghost use Rattle.arj_nodes.specs.AllNodes.{AreFresh};
ghost use Rattle.arj_nodes.specs.AsMachine.{all_nodes};
ghost use Rattle.arj_law_images.specs.Saving.{SavesFiles};
ghost use Rattle.arj_law_nodes.specs.nodes.Cores.{SaysReadings};
ghost use Rattle.arj_law_nodes.specs.nodes.Readings.{Reads, reading_of};
ghost use Rattle.arj_programs.specs.Outcome.{RunsPrograms};
ghost use Rattle.arj_saving.specs.Saved.{Saves};

use crate::words::{Command, asked_for};
use arj_auditing::audited;
use arj_bank::generated;
use arj_checking::{Finding, checked};
use arj_core::Core;
use arj_disk::{Disk, Rack};
use arj_io::{Sink, Source};
use arj_journal::Lines;
use arj_law_cause::{journals_are_in_form, journals_tell_their_causes};
use arj_law_images::resting_runs_make_calm_images;
use arj_law_nodes::{banks_show_what_is_promised, nodes_run_moves, nodes_show_what_is_promised};
use arj_law_programs::{committed_programs_run_alone, committed_programs_survive};
use arj_loop::{BadLine, replay};
use arj_nodes::AllNodes;
use arj_programs::run_programs;
use arj_progrun::programs_mean_their_calls;
use arj_saving::imaged;
use arj_store::ObjectStore;
use arj_world::World;
use std::alloc::Global;

// The world of nodes, if they are there.
fn world_of<C>(nodes: Option<AllNodes<C>>) -> Option<World<C>>
    ensures { result ≡ world_of nodes }
{
    match nodes {
        Some(nodes) => Some(nodes.into_world()),
        None => None,
    }
}

// Runs the command that the words say, hands the nodes out, and answers the status.
fn run_command<S: Source, K: Sink, D: Disk, O: ObjectStore, C: Core + Drop>(
    alloc: Global,
    words: &[String],
    source: &mut S,
    sink: &mut K,
    rack: &mut Rack<D>,
    journal: &mut Lines,
    why: &mut Option<BadLine>,
    found: &mut Option<Finding>,
    nodes: &mut Option<AllNodes<C>>,
) -> u8
    requires ready { AreFresh D.Disk rack.old }
    requires fresh { journal.old ≡ [] }
    requires none { nodes.old ≡ None }
    requires nothing { found.old ≡ None }
    ensures closes { IsReplay words.now → result ≢ 4 → result ≢ 5 → Closes (all_nodes C.Core D.Disk) (outside (S.left source.old) (S.faults source.old) (K.taken sink.old) rack.old) (outside (S.left source.new) (S.faults source.new) (K.taken sink.new) rack.new) (answer result why.new journal.new nodes.new) }
    ensures short { IsReplay words.now → (result ≡ 4) ⊎ (result ≡ 5) → StopsShort (all_nodes C.Core D.Disk) (outside (S.left source.old) (S.faults source.old) (K.taken sink.old) rack.old) (outside (S.left source.new) (S.faults source.new) (K.taken sink.new) rack.new) result }
    ensures saves { IsImage words.now → Saves (all_nodes C.Core D.Disk) D.Disk (outside (S.left source.old) (S.faults source.old) (K.taken sink.old) rack.old) (outside (S.left source.new) (S.faults source.new) (K.taken sink.new) rack.new) (answer result why.new journal.new nodes.new) }
    ensures generates { (n : ℕ) → IsGenerate words.now n → Generates (all_nodes C.Core D.Disk) (reader D.Disk (held_by O.ObjectStore)) n (outside (S.left source.old) (S.faults source.old) (K.taken sink.old) rack.old) (outside (S.left source.new) (S.faults source.new) (K.taken sink.new) rack.new) (answer result why.new journal.new nodes.new) }
    ensures programs { IsProgram words.now → RunsPrograms (all_nodes C.Core D.Disk) (outside (S.left source.old) (S.faults source.old) (K.taken sink.old) rack.old) (outside (S.left source.new) (S.faults source.new) (K.taken sink.new) rack.new) (answer result why.new journal.new nodes.new) }
    ensures checks { IsCheck words.now → Checks (ends (S.left source.old) (S.faults source.old) (K.taken sink.old)) (ends (S.left source.new) (S.faults source.new) (K.taken sink.new)) result found.new }
    ensures checks_alone { IsCheck words.now → (rack.new ≡ rack.old) × (journal.new ≡ journal.old) × (why.new ≡ why.old) × (nodes.new ≡ nodes.old) }
    ensures only_check { (IsCheck words.now → ⊥) → found.new ≡ found.old }
    ensures audits { IsAudit words.now → Audits (ends (S.left source.old) (S.faults source.old) (K.taken sink.old)) (ends (S.left source.new) (S.faults source.new) (K.taken sink.new)) result }
    ensures audits_alone { IsAudit words.now → (rack.new ≡ rack.old) × (journal.new ≡ journal.old) × (why.new ≡ why.old) × (nodes.new ≡ nodes.old) }
    ensures only_judged { (IsCheck words.now → ⊥) → (IsAudit words.now → ⊥) → result ≢ 8 }
    ensures statuses { result ≤ 8 }
    ensures command { result ≡ 1 → IsCommand words.now → ⊥ }
    ensures no_command { (IsCommand words.now → ⊥) → result ≡ 1 }
    ensures usage { result ≡ 1 → (source.new ≡ source.old) × (sink.new ≡ sink.old) × (rack.new ≡ rack.old) × (journal.new ≡ journal.old) × (why.new ≡ why.old) × (nodes.new ≡ nodes.old) }
    ensures unread { (n : ℕ) → IsGenerate words.now n → (source.new ≡ source.old) × (why.new ≡ why.old) × (result ≢ 0 → result ≢ 4 → sink.new ≡ sink.old) }
    ensures read_fault { result ≡ 3 → Rose (S.faults source.old) (S.faults source.new) }
    ensures write_fault { result ≡ 4 → Rose (K.faults sink.old) (K.faults sink.new) }
    ensures no_write_fault { result ≢ 4 → K.faults sink.new ≡ K.faults sink.old }
{
    match asked_for(words) {
        Command::Replay => replay::<S, K, D, AllNodes<C>>(
            alloc, source, sink, rack, journal, why, nodes,
        ),
        Command::Bank(n) => generated::<K, D, O, AllNodes<C>>(alloc, n, sink, rack, journal, nodes),
        Command::Check => checked::<S, K>(alloc, source, sink, found),
        Command::Program => run_programs::<S, K, D, AllNodes<C>>(
            alloc, source, sink, rack, journal, why, nodes,
        ),
        Command::Audit => audited::<S, K>(alloc, source, sink),
        Command::Image => imaged::<S, K, D, C>(alloc, source, sink, rack, journal, why, nodes),
        Command::None => 1,
    }
}

/// Runs the command that the words say on cores of this type, over this source and sink and these disks, which this object store
/// reads for a bank's sum, and answers its status. It says of any cores what `arjuna` says of the program's own.
pub fn run_on<S: Source, K: Sink, D: Disk, O: ObjectStore, C: Core + Drop>(
    alloc: Global,
    words: &[String],
    source: &mut S,
    sink: &mut K,
    rack: &mut Rack<D>,
    journal: &mut Lines,
    why: &mut Option<BadLine>,
    found: &mut Option<Finding>,
    world: &mut Option<World<C>>,
) -> u8
    requires ready { AreFresh D.Disk rack.old }
    requires fresh { journal.old ≡ [] }
    requires none { world.old ≡ None }
    requires nothing { found.old ≡ None }
    ensures headline { (read : Reads) → SaysReadings C.Core read → IsReplay words.now → result ≢ 4 → result ≢ 5 → Headline C.Core D.Disk read (around (outside (S.left source.old) (S.faults source.old) (K.taken sink.old) rack.old) (outside (S.left source.new) (S.faults source.new) (K.taken sink.new) rack.new)) (said result why.new journal.new world.new) }
    ensures shown { (read : Reads) → SaysReadings C.Core read → IsReplay words.now → (result ≡ 4) ⊎ (result ≡ 5) → Shown C.Core D.Disk read (around (outside (S.left source.old) (S.faults source.old) (K.taken sink.old) rack.old) (outside (S.left source.new) (S.faults source.new) (K.taken sink.new) rack.new)) result }
    ensures bank { SaysReadings C.Core (reading_of O.ObjectStore) → (n : ℕ) → IsGenerate words.now n → BankHeadline C.Core D.Disk (reading_of O.ObjectStore) n (around (outside (S.left source.old) (S.faults source.old) (K.taken sink.old) rack.old) (outside (S.left source.new) (S.faults source.new) (K.taken sink.new) rack.new)) (said result why.new journal.new world.new) }
    ensures images { (read : Reads) → SaysReadings C.Core read → SavesFiles C.Core read → IsImage words.now → ImageHeadline C.Core D.Disk read (around (outside (S.left source.old) (S.faults source.old) (K.taken sink.old) rack.old) (outside (S.left source.new) (S.faults source.new) (K.taken sink.new) rack.new)) (said result why.new journal.new world.new) }
    ensures programs { (read : Reads) → SaysReadings C.Core read → IsProgram words.now → ProgramsHeadline C.Core D.Disk read (around (outside (S.left source.old) (S.faults source.old) (K.taken sink.old) rack.old) (outside (S.left source.new) (S.faults source.new) (K.taken sink.new) rack.new)) (said result why.new journal.new world.new) }
    ensures checks { IsCheck words.now → Checks (ends (S.left source.old) (S.faults source.old) (K.taken sink.old)) (ends (S.left source.new) (S.faults source.new) (K.taken sink.new)) result found.new }
    ensures checks_alone { IsCheck words.now → (rack.new ≡ rack.old) × (journal.new ≡ journal.old) × (why.new ≡ why.old) × (world.new ≡ world.old) }
    ensures only_check { (IsCheck words.now → ⊥) → found.new ≡ found.old }
    ensures audits { IsAudit words.now → Audits (ends (S.left source.old) (S.faults source.old) (K.taken sink.old)) (ends (S.left source.new) (S.faults source.new) (K.taken sink.new)) result }
    ensures audits_alone { IsAudit words.now → (rack.new ≡ rack.old) × (journal.new ≡ journal.old) × (why.new ≡ why.old) × (world.new ≡ world.old) }
    ensures only_judged { (IsCheck words.now → ⊥) → (IsAudit words.now → ⊥) → result ≢ 8 }
    ensures statuses { result ≤ 8 }
    ensures command { result ≡ 1 → IsCommand words.now → ⊥ }
    ensures no_command { (IsCommand words.now → ⊥) → result ≡ 1 }
    ensures usage { result ≡ 1 → (source.new ≡ source.old) × (sink.new ≡ sink.old) × (rack.new ≡ rack.old) × (journal.new ≡ journal.old) × (why.new ≡ why.old) × (world.new ≡ world.old) }
    ensures unread { (n : ℕ) → IsGenerate words.now n → (source.new ≡ source.old) × (why.new ≡ why.old) × (result ≢ 0 → result ≢ 4 → sink.new ≡ sink.old) }
    ensures read_fault { result ≡ 3 → Rose (S.faults source.old) (S.faults source.new) }
    ensures write_fault { result ≡ 4 → Rose (K.faults sink.old) (K.faults sink.new) }
    ensures no_write_fault { result ≢ 4 → K.faults sink.new ≡ K.faults sink.old }
{
    nodes_run_moves::<C, D>();
    journals_tell_their_causes();
    journals_are_in_form();
    nodes_show_what_is_promised::<C, D>();
    resting_runs_make_calm_images::<C, D>();
    banks_show_what_is_promised::<C, D>();
    programs_mean_their_calls();
    committed_programs_survive();
    committed_programs_run_alone();
    let mut nodes = None;
    let status = run_command::<S, K, D, O, C>(
        alloc, words, source, sink, rack, journal, why, found, &mut nodes,
    );
    *world = world_of(nodes);
    status
}
