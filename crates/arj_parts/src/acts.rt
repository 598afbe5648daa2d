// What actions of the node are asked to do goes to the coordinator.
ghost use Rattle.std.specs.Prelude.{◌≡◌, List, None, OnOk, IfOk, IfSome, IsErrOf};
ghost use Rattle.arj_asking.specs.Rooms.{HasRoom};
ghost use Rattle.arj_core.specs.Steps.{CountsStep};
ghost use Rattle.arj_core.specs.declared.node.CoreFault.{CoreFault};
ghost use Rattle.arj_disk.specs.Counted.{counts};
ghost use Rattle.arj_journal.specs.declared.header.Header.{Header};
ghost use Rattle.arj_node.specs.Acting.{IsClass, acts_at, asked_of};
ghost use Rattle.arj_parts.specs.Acted.{Acts, IsAsked, IsCutAsked};
ghost use Rattle.arj_parts.specs.Calls.{Halts, StandsSome};
ghost use Rattle.arj_parts.specs.Named.{IsAfter, NamesAction};
ghost use Rattle.arj_protocol.specs.Effect.{Intent};
ghost use Rattle.arj_protocol.specs.Step as input;
ghost use Rattle.arj_protocol.specs.Step.{acts, refusal_up};

use crate::NodeParts;
use crate::performing::perform;
use arj_asking::{begin_action, call, commit_action, give_up, has_room, include};
use arj_base::{Class, Uid};
use arj_class::Op;
use arj_coord::{Coord, Effects, Records};
use arj_core::CoreFault;
use arj_disk::Disk;
use arj_journal::{Kind, Label, NODES};
use arj_node::{Act, Outgoings};
use arj_store::ObjectStore;
use std::alloc::{AllocError, Global};

// Why the coordinator refuses what an action is asked to do.
fn refusal(coord: &Coord, act: &Act, class: Option<Class>) -> Option<u8>
    ensures { (header : Header) → IsClass header act.now class → result ≡ refusal_up header (asked_of act.now) coord.now }
{
    match act {
        Act::Begin { kind, parent, .. } => coord.begin_refusal(*kind, *parent),
        Act::Call { label, x, op } => coord.call_refusal(*label, *x, op, class),
        Act::Include { label, x, .. } => coord.include_refusal(*label, *x, class),
        Act::Commit { label } => coord.commit_refusal(*label),
        Act::Abort { label } => coord.abort_refusal(*label),
        Act::GiveUp { label } => coord.give_up_refusal(*label),
    }
}

// The action with a label.
fn named(coord: &Coord, label: Label) -> Option<Uid>
    ensures { NamesAction label coord.now result }
{
    let action = coord.named(label)?;
    coord.tree().action(action)?;
    Some(action)
}

// The action with a label, if it has request numbers left; none is short of them in a run.
fn with_room(coord: &Coord, label: Label) -> Result<Option<Uid>, AllocError>
    ensures named { IfOk result (NamesAction label coord.now) }
    ensures room { IfOk result (λ found. IfSome found (λ action. HasRoom action coord.now)) }
{
    let Some(action) = named(coord, label) else {
        return Ok(None);
    };
    if !has_room(coord, action) {
        return Err(AllocError);
    }
    Ok(Some(action))
}

// An action begins.
fn begin_named(
    coord: &mut Coord,
    label: Label,
    kind: Kind,
    parent: Option<Label>,
    outs: &mut Effects,
) -> Result<(), AllocError>
    ensures { OnOk result ((intents : List (Uid × Intent)) → IsAfter (acts (input.Begin label kind parent) intents coord.old) coord.new outs.old outs.new) }
{
    match begin_action(coord, label, kind, parent, outs) {
        Ok(()) => Ok(()),
        Err(_) => Err(AllocError),
    }
}

// An action calls an object.
#[tactic(auto, using(crate::proofs::Labels::named_does, crate::proofs::Labels::none_does))]
fn call_named(
    alloc: Global,
    coord: &mut Coord,
    label: Label,
    x: u16,
    op: Op,
    outs: &mut Effects,
) -> Result<(), AllocError>
    ensures { OnOk result ((intents : List (Uid × Intent)) → IsAfter (acts (input.Call label x op) intents coord.old) coord.new outs.old outs.new) }
{
    let Some(action) = with_room(coord, label)? else {
        return Ok(());
    };
    match call(alloc, coord, action, x, op, outs) {
        Ok(()) => Ok(()),
        Err(_) => Err(AllocError),
    }
}

// An action includes a store.
#[tactic(auto, using(crate::proofs::Labels::named_does, crate::proofs::Labels::none_does))]
fn include_named(
    alloc: Global,
    coord: &mut Coord,
    label: Label,
    x: u16,
    store: u8,
    outs: &mut Effects,
) -> Result<(), AllocError>
    ensures { OnOk result ((intents : List (Uid × Intent)) → IsAfter (acts (input.Include label x store) intents coord.old) coord.new outs.old outs.new) }
{
    let Some(action) = with_room(coord, label)? else {
        return Ok(());
    };
    if store < 1 || u64::from(store) > NODES {
        return Err(AllocError);
    }
    match include(alloc, coord, action, x, store, outs) {
        Ok(()) => Ok(()),
        Err(_) => Err(AllocError),
    }
}

// An action commits.
#[tactic(auto, using(crate::proofs::Labels::named_does, crate::proofs::Labels::none_does))]
fn commit_named(
    alloc: Global,
    coord: &mut Coord,
    records: &Records,
    label: Label,
    outs: &mut Effects,
) -> Result<(), AllocError>
    ensures { OnOk result (IsAfter (acts (input.Commit label) records.now coord.old) coord.new outs.old outs.new) }
{
    let Some(action) = with_room(coord, label)? else {
        return Ok(());
    };
    commit_action(alloc, coord, action, records, outs)?;
    Ok(())
}

// An action is aborted.
#[tactic(auto, using(crate::proofs::Labels::acts_does, crate::proofs::Labels::none_does))]
fn abort_named(
    coord: &mut Coord,
    records: &Records,
    label: Label,
    outs: &mut Effects,
) -> Result<(), AllocError>
    ensures { OnOk result (IsAfter (acts (input.Abort label) records.now coord.old) coord.new outs.old outs.new) }
{
    let Some(action) = named(coord, label) else {
        return Ok(());
    };
    coord.abort_action(action, records, outs)?;
    Ok(())
}

// An action gives up what it waits for.
#[tactic(auto, using(crate::proofs::Labels::acts_does, crate::proofs::Labels::none_does))]
fn give_up_named(
    alloc: Global,
    coord: &mut Coord,
    records: &Records,
    label: Label,
    outs: &mut Effects,
) -> Result<(), AllocError>
    ensures { OnOk result (IsAfter (acts (input.GiveUp label) records.now coord.old) coord.new outs.old outs.new) }
{
    let Some(action) = with_room(coord, label)? else {
        return Ok(());
    };
    give_up(alloc, coord, action, records, outs)?;
    Ok(())
}

// What the coordinator does where an action is asked to do something that isn't refused. `records` are those on the disk.
fn coordinate(
    alloc: Global,
    coord: &mut Coord,
    records: &Records,
    act: Act,
    outs: &mut Effects,
) -> Result<(), AllocError>
    ensures { OnOk result (IsAfter (acts (asked_of act) records.now coord.old) coord.new outs.old outs.new) }
{
    match act {
        Act::Begin {
            label,
            kind,
            parent,
        } => begin_named(coord, label, kind, parent, outs),
        Act::Call { label, x, op } => call_named(alloc, coord, label, x, op, outs),
        Act::Include { label, x, store } => include_named(alloc, coord, label, x, store, outs),
        Act::Commit { label } => commit_named(alloc, coord, records, label, outs),
        Act::Abort { label } => abort_named(coord, records, label, outs),
        Act::GiveUp { label } => give_up_named(alloc, coord, records, label, outs),
    }
}

impl<O: ObjectStore> NodeParts<O> {
    // An action does what it is asked to do, which isn't refused.
    fn do_asked<D: Disk>(
        &mut self,
        disk: &mut D,
        act: Act,
        outs: &mut Outgoings,
    ) -> Result<(), CoreFault>
        requires stands { StandsSome O.ObjectStore self.old (D.file disk.old) }
        ensures done { OnOk result (Acts O.ObjectStore (acts_at act) (record { old = self.old; new = self.new; file = D.file disk.old; left = D.file disk.new; before = outs.old; after = outs.new })) }
        ensures halted { IsErrOf result CoreFault.Halted → Halts O.ObjectStore (λ n h. (acts_at act h).outs) (record { old = self.old; new = self.new; file = D.file disk.old; left = D.file disk.new; before = outs.old; after = outs.new }) }
        ensures counts { CountsStep (counts D.Disk disk.old) (counts D.Disk disk.new) result CoreFault.Halted }
    {
        let mut effects = Effects::new(self.alloc);
        coordinate(
            self.alloc,
            &mut self.coord,
            &self.records,
            act,
            &mut effects,
        )?;
        perform(self.alloc, &mut self.records, disk, effects, outs)
    }

    /// An action is asked to do something: it does it, and the answer is None, or it is refused, and the answer is the
    /// number of the reason. `class` is that of the object that it is about, None where the header has no such object.
    pub fn ask_action<D: Disk>(
        &mut self,
        disk: &mut D,
        act: Act,
        class: Option<Class>,
        outs: &mut Outgoings,
    ) -> Result<Option<u8>, CoreFault>
        requires stands { StandsSome O.ObjectStore self.old (D.file disk.old) }
        ensures done { IfOk result (IsAsked O.ObjectStore act class (record { old = self.old; new = self.new; file = D.file disk.old; left = D.file disk.new; before = outs.old; after = outs.new })) }
        ensures halted { IsErrOf result CoreFault.Halted → IsCutAsked O.ObjectStore act class (record { old = self.old; new = self.new; file = D.file disk.old; left = D.file disk.new; before = outs.old; after = outs.new }) }
        ensures counts { CountsStep (counts D.Disk disk.old) (counts D.Disk disk.new) result CoreFault.Halted }
    {
        match refusal(&self.coord, &act, class) {
            Some(cause) => Ok(Some(cause)),
            None => {
                self.do_asked(disk, act, outs)?;
                Ok(None)
            }
        }
    }
}
