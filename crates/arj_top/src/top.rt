// The top call.
ghost use Rattle.std.specs.Prelude.{◌≡◌, ◌≢◌, ◌≤◌, ◌⊎◌, ℕ, [], None};
ghost use Rattle.arj_base.specs.Count.{Rose};
ghost use Rattle.arj_checking.specs.Checks.{Checks, ends};
ghost use Rattle.arj_command.specs.Command.{IsAudit, IsCheck, IsCommand, IsGenerate, IsImage, IsProgram, IsReplay};
ghost use Rattle.arj_command.specs.Images.{ImageHeadline};
ghost use Rattle.arj_command.specs.Outcome.{BankHeadline, Headline, Shown, around, said};
ghost use Rattle.arj_command.specs.Below.{Audits, reading_of};
ghost use Rattle.arj_command.specs.Programs.{ProgramsHeadline};
ghost use Rattle.arj_loop.specs.Replayed.{outside};
ghost use Rattle.arj_nodes.specs.AllNodes.{AreFresh};

use arj_checking::Finding;
use arj_command::{cores_save_their_files, cores_say_their_readings, run_on};
use arj_core::Core;
use arj_disk::{Disk, Rack};
use arj_io::{Sink, Source};
use arj_journal::Lines;
use arj_loop::BadLine;
use arj_node::NodeCore;
use arj_parts::NodeParts;
use arj_segment::SegmentStore;
use arj_store::ObjectStore;
use arj_world::World;
use std::alloc::Global;

/// The object store of the program's nodes.
pub type Store = SegmentStore;

/// A node of the program.
pub type Node = NodeCore<NodeParts<Store>>;

/// Runs the command that the words say, over this source and sink and these disks, and answers its status. The journal is left
/// in `journal`, and the world of the nodes, once the disks were formatted, in `world`, at every status but 4 and 5, and at status 2
/// why a line is bad in `why`.
///
/// 0: the input was read to its end and every line was run, or client programs were run and what became of them was written, or the
/// bank was run and its summary written, or the image of a script's run. 1: the words aren't a command line. 2: a line isn't in the grammar. 3: a read failed. 4: a write failed. 5: memory was wanting; a node answers so too
/// where it can't spell a message, or restarts at the last incarnation that 32 bits count. 6: a limit was met. 7: a disk stopped while it
/// was formatted, or while the bank's balances or an image's files were read. 8: a journal that was checked can't be read as a run, or an answer in it differs;
/// what was found of it is in `found`; or no run can go on from an image that was audited.
pub fn arjuna<S: Source, K: Sink, D: Disk>(
    alloc: Global,
    words: &[String],
    source: &mut S,
    sink: &mut K,
    rack: &mut Rack<D>,
    journal: &mut Lines,
    why: &mut Option<BadLine>,
    found: &mut Option<Finding>,
    world: &mut Option<World<Node>>,
) -> u8
    requires ready { AreFresh D.Disk rack.old }
    requires fresh { journal.old ≡ [] }
    requires none { world.old ≡ None }
    requires nothing { found.old ≡ None }

    // A script: which bytes came and which of their lines were run, what each status means, what was written, and what the
    // journal, the disks and the world show of the events.
    ensures headline { IsReplay words.now → result ≢ 4 → result ≢ 5 → Headline ⟦<Node as Core>⟧ D.Disk (reading_of ⟦<Store as ObjectStore>⟧) (around (outside (S.left source.old) (S.faults source.old) (K.taken sink.old) rack.old) (outside (S.left source.new) (S.faults source.new) (K.taken sink.new) rack.new)) (said result why.new journal.new world.new) }
    // What still holds after a write that failed, or where memory was wanting.
    ensures shown { IsReplay words.now → (result ≡ 4) ⊎ (result ≡ 5) → Shown ⟦<Node as Core>⟧ D.Disk (reading_of ⟦<Store as ObjectStore>⟧) (around (outside (S.left source.old) (S.faults source.old) (K.taken sink.old) rack.old) (outside (S.left source.new) (S.faults source.new) (K.taken sink.new) rack.new)) result }
    // A generated bank: what each status means, its summary, and the same of its events.
    ensures bank { (n : ℕ) → IsGenerate words.now n → BankHeadline ⟦<Node as Core>⟧ D.Disk (reading_of ⟦<Store as ObjectStore>⟧) n (around (outside (S.left source.old) (S.faults source.old) (K.taken sink.old) rack.old) (outside (S.left source.new) (S.faults source.new) (K.taken sink.new) rack.new)) (said result why.new journal.new world.new) }
    // Client programs: what each status means, what was run of them and written, the same of their events, and that the calls of those
    // that committed are what their statements make alone.
    ensures programs { IsProgram words.now → ProgramsHeadline ⟦<Node as Core>⟧ D.Disk (reading_of ⟦<Store as ObjectStore>⟧) (around (outside (S.left source.old) (S.faults source.old) (K.taken sink.old) rack.old) (outside (S.left source.new) (S.faults source.new) (K.taken sink.new) rack.new)) (said result why.new journal.new world.new) }

    // The image of a script's run: what each status means, what was run and stopped, what was written of it, the same of its events, and
    // that with nothing prepared and no record it is calm.
    ensures images { IsImage words.now → ImageHeadline ⟦<Node as Core>⟧ D.Disk (reading_of ⟦<Store as ObjectStore>⟧) (around (outside (S.left source.old) (S.faults source.old) (K.taken sink.old) rack.old) (outside (S.left source.new) (S.faults source.new) (K.taken sink.new) rack.new)) (said result why.new journal.new world.new) }

    // The check of a journal: what each status means, what was written of it, and that it touches nothing else.
    ensures checks { IsCheck words.now → Checks (ends (S.left source.old) (S.faults source.old) (K.taken sink.old)) (ends (S.left source.new) (S.faults source.new) (K.taken sink.new)) result found.new }
    ensures checks_alone { IsCheck words.now → (rack.new ≡ rack.old) × (journal.new ≡ journal.old) × (why.new ≡ why.old) × (world.new ≡ world.old) }
    ensures only_check { (IsCheck words.now → ⊥) → found.new ≡ found.old }

    // The audit of an image: what each status means, what was found and written of it, and that it touches nothing else.
    ensures audits { IsAudit words.now → Audits (ends (S.left source.old) (S.faults source.old) (K.taken sink.old)) (ends (S.left source.new) (S.faults source.new) (K.taken sink.new)) result }
    ensures audits_alone { IsAudit words.now → (rack.new ≡ rack.old) × (journal.new ≡ journal.old) × (why.new ≡ why.old) × (world.new ≡ world.old) }
    ensures only_judged { (IsCheck words.now → ⊥) → (IsAudit words.now → ⊥) → result ≢ 8 }

    // Which status, where no record above says it: 5 alone is free.
    ensures statuses { result ≤ 8 }
    ensures command { result ≡ 1 → IsCommand words.now → ⊥ }
    ensures no_command { (IsCommand words.now → ⊥) → result ≡ 1 }
    ensures usage { result ≡ 1 → (source.new ≡ source.old) × (sink.new ≡ sink.old) × (rack.new ≡ rack.old) × (journal.new ≡ journal.old) × (why.new ≡ why.old) × (world.new ≡ world.old) }
    ensures unread { (n : ℕ) → IsGenerate words.now n → (source.new ≡ source.old) × (why.new ≡ why.old) × (result ≢ 0 → result ≢ 4 → sink.new ≡ sink.old) }
    ensures read_fault { result ≡ 3 → Rose (S.faults source.old) (S.faults source.new) }
    ensures write_fault { result ≡ 4 → Rose (K.faults sink.old) (K.faults sink.new) }
    ensures no_write_fault { result ≢ 4 → K.faults sink.new ≡ K.faults sink.old }
{
    cores_say_their_readings::<Store>();
    cores_save_their_files();
    run_on::<S, K, D, Store, Node>(alloc, words, source, sink, rack, journal, why, found, world)
}
