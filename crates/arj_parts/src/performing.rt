// What a coordinator did is done: its lines and messages are handed back, and its work on the records.
ghost use Rattle.std.specs.Prelude.{◌≡◌, ◌∷◌, ◌↔◌, [], OnOk, IsErrOf};
ghost use Rattle.arj_coord.specs.Shown.{CanBeDone, effect_of};
ghost use Rattle.arj_core.specs.Steps.{CountsStep};
ghost use Rattle.arj_core.specs.declared.node.CoreFault.{CoreFault};
ghost use Rattle.arj_disk.specs.Counted.{counts};
ghost use Rattle.arj_disk.specs.declared.disk.DiskFault.{DiskFault};
ghost use Rattle.arj_intent.specs.Records.{AreInForm, IsInForm, shown};
ghost use Rattle.arj_parts.specs.Records.{CutsRecords, DoesRecords, OnlyRecords};
ghost use Rattle.arj_protocol.specs.Effect as protocol;

use arj_base::Uid;
use arj_coord::{Effect, Effects, Record, Records};
use arj_core::CoreFault;
use arj_disk::{Disk, DiskFault};
use arj_intent::{Intent, put, remove};
use arj_node::Outgoings;
use std::alloc::Global;

// A stop of the disk halts the node.
fn fault(e: DiskFault) -> CoreFault
    ensures { (result ≡ CoreFault.Halted) ↔ (e ≡ DiskFault.Stopped) }
{
    match e {
        DiskFault::Stopped => CoreFault::Halted,
        DiskFault::Memory => CoreFault::Memory,
    }
}

// The record of a commit is put in its place.
#[tactic(auto, using(crate::proofs::Performed::put_does, crate::proofs::Performed::put_cut, crate::proofs::Performed::others_put, crate::proofs::Performed::others_same))]
fn put_record<D: Disk>(
    alloc: Global,
    records: &mut Records,
    disk: &mut D,
    intent: &Intent,
    outs: &Outgoings,
) -> Result<(), CoreFault>
    requires form { AreInForm (D.file disk.old) }
    requires can { IsInForm intent.now }
    ensures done { OnOk result (DoesRecords (protocol.Do (protocol.PutIntent intent.now.top (shown intent.now)) ∷ []) (D.file disk.old) (D.file disk.new) records.old records.new outs.now outs.now) }
    ensures halted { IsErrOf result CoreFault.Halted → CutsRecords (protocol.Do (protocol.PutIntent intent.now.top (shown intent.now)) ∷ []) (D.file disk.old) (D.file disk.new) outs.now outs.now }
    ensures form { AreInForm (D.file disk.new) }
    ensures others { OnlyRecords (D.file disk.old) (D.file disk.new) }
    ensures counts { CountsStep (counts D.Disk disk.old) (counts D.Disk disk.new) result CoreFault.Halted }
{
    let nodes = intent.nodes.copy()?;
    match put(alloc, disk, intent) {
        Ok(()) => {
            let entry = Record {
                root: intent.root,
                nodes,
            };
            records.put(intent.top, entry)?;
            Ok(())
        }
        Err(e) => Err(fault(e)),
    }
}

// The record of a commit is removed.
#[tactic(auto, using(crate::proofs::Performed::removed_does, crate::proofs::Performed::removed_cut, crate::proofs::Performed::others_removed, crate::proofs::Performed::others_same))]
fn remove_record<D: Disk>(
    records: &mut Records,
    disk: &mut D,
    top: Uid,
    outs: &Outgoings,
) -> Result<(), CoreFault>
    requires form { AreInForm (D.file disk.old) }
    ensures done { OnOk result (DoesRecords (protocol.Do (protocol.RemoveIntent top) ∷ []) (D.file disk.old) (D.file disk.new) records.old records.new outs.now outs.now) }
    ensures halted { IsErrOf result CoreFault.Halted → CutsRecords (protocol.Do (protocol.RemoveIntent top) ∷ []) (D.file disk.old) (D.file disk.new) outs.now outs.now }
    ensures form { AreInForm (D.file disk.new) }
    ensures others { OnlyRecords (D.file disk.old) (D.file disk.new) }
    ensures counts { CountsStep (counts D.Disk disk.old) (counts D.Disk disk.new) result CoreFault.Halted }
{
    match remove(disk, top) {
        Ok(()) => {
            records.remove(top);
            Ok(())
        }
        Err(e) => Err(fault(e)),
    }
}

// One effect.
#[tactic(auto, using(crate::proofs::Performed::said_does, crate::proofs::Performed::sent_does, crate::proofs::Performed::others_same))]
fn perform_one<D: Disk>(
    alloc: Global,
    records: &mut Records,
    disk: &mut D,
    effect: Effect,
    outs: &mut Outgoings,
) -> Result<(), CoreFault>
    requires form { AreInForm (D.file disk.old) }
    requires can { CanBeDone effect }
    ensures done { OnOk result (DoesRecords (effect_of effect ∷ []) (D.file disk.old) (D.file disk.new) records.old records.new outs.old outs.new) }
    ensures halted { IsErrOf result CoreFault.Halted → CutsRecords (effect_of effect ∷ []) (D.file disk.old) (D.file disk.new) outs.old outs.new }
    ensures form { AreInForm (D.file disk.new) }
    ensures others { OnlyRecords (D.file disk.old) (D.file disk.new) }
    ensures counts { CountsStep (counts D.Disk disk.old) (counts D.Disk disk.new) result CoreFault.Halted }
{
    match effect {
        Effect::Say(body) => {
            outs.say(body)?;
            Ok(())
        }
        Effect::Send(to, message) => {
            outs.forward(to, message)?;
            Ok(())
        }
        Effect::PutRecord(intent) => put_record(alloc, records, disk, &intent, outs),
        Effect::RemoveRecord(top) => remove_record(records, disk, top, outs),
    }
}

/// Does what a coordinator did, in order: lines and messages are handed back, and its work on the records is done, in
/// memory and on the disk. Where the disk stops, the node halts.
#[tactic(auto, using(crate::proofs::Performed::nothing_does, crate::proofs::Performed::does_both, crate::proofs::Performed::cut_behind, crate::proofs::Performed::cut_before, crate::proofs::Performed::others_both, crate::proofs::Performed::others_same))]
pub fn perform<D: Disk>(
    alloc: Global,
    records: &mut Records,
    disk: &mut D,
    effects: Effects,
    outs: &mut Outgoings,
) -> Result<(), CoreFault>
    requires form { AreInForm (D.file disk.old) }
    ensures done { OnOk result (DoesRecords effects (D.file disk.old) (D.file disk.new) records.old records.new outs.old outs.new) }
    ensures halted { IsErrOf result CoreFault.Halted → CutsRecords effects (D.file disk.old) (D.file disk.new) outs.old outs.new }
    ensures form { AreInForm (D.file disk.new) }
    ensures others { OnlyRecords (D.file disk.old) (D.file disk.new) }
    ensures counts { CountsStep (counts D.Disk disk.old) (counts D.Disk disk.new) result CoreFault.Halted }
{
    for effect in effects.into_vec() {
        perform_one(alloc, records, disk, effect, outs)?;
    }
    Ok(())
}
