// How a node begins: the first states of the objects that it stores.
ghost use Rattle.std.specs.Prelude.{◌≡◌, ◌≤◌, ◌++◌, ◌∷◌, [], None, Some, filter, map, length, IfOk, OnOk, OnErr};
ghost use Rattle.std.specs.List.{AllByRecursion};
ghost use Rattle.arj_base.specs.State.{state_bytes};
ghost use Rattle.arj_base.specs.declared.limits.TheConstants.{MOST_BYTES};
ghost use Rattle.arj_disk.specs.Counted.{counts};
ghost use Rattle.arj_disk.specs.Disk.{CountsCall};
ghost use Rattle.arj_disk.specs.Says.{slot_role, OnlyOfRole, SameOfRole};
ghost use Rattle.arj_disk.specs.declared.slot.Role.{Role};
ghost use Rattle.arj_disk.specs.declared.slot.Slot.{Slot};
ghost use Rattle.arj_journal.specs.ScriptForm.{HeaderInForm};
ghost use Rattle.arj_journal.specs.declared.header.ObjectLine.{ObjectLine};
ghost use Rattle.arj_protocol.specs.Order.{has};
ghost use Rattle.arj_protocol.specs.Step as step;
ghost use Rattle.arj_base.specs.declared.uid.Uid.{Uid};
ghost use Rattle.arj_recover.specs.OnDisk.{IsFirst, IsFormed, states_at};
ghost use Rattle.arj_store.specs.Pair.{HasFirst};
ghost use Rattle.arj_store.specs.declared.answer.StoreFault.{StoreFault};
ghost use Rattle.arj_law_store.specs.store.Files.{IsPairOf};

use crate::beginning::put_inc;
use arj_base::{Format, ObjectState, States, Uid, object_uid};
use arj_disk::{Disk, Role};
use arj_journal::{Header, ObjectLine};
use arj_store::{ObjectStore, StoreFault};
use std::alloc::{AllocError, Global};

// Who wrote the first states.
const NOBODY: Uid = Uid {
    node: 0,
    inc: 0,
    num: 0,
};

/// Puts the first states of the objects that the node stores on a disk without files of its store, in order of their
/// numbers. Where it fails, the first few of them are there, or none.
pub fn format<D: Disk, O: ObjectStore>(
    alloc: Global,
    disk: &mut D,
    node: u8,
    header: &Header,
) -> Result<O, StoreFault>
    requires empty { (q : Slot) → slot_role q ≡ Some Role.Store → D.file disk.old q ≡ None }
    requires header { HeaderInForm header.now }
    ensures role { IfOk result (λ store. O.own_role store ≡ Role.Store) }
    ensures keeps { IfOk result (λ store. O.keeps store (D.file disk.new)) }
    ensures pair { OnOk result (IsPairOf (O.pair (D.file disk.new) Role.Store) (step.pair_with (states_at node header.now))) }
    ensures fault { OnErr result (HasFirst (O.pair (D.file disk.new) Role.Store) (states_at node header.now)) }
    ensures formed { O.formed (D.file disk.new) Role.Store }
    ensures others { OnlyOfRole Role.Store (D.file disk.old) (D.file disk.new) }
    ensures counts { CountsCall (counts D.Disk disk.old) (counts D.Disk disk.new) result StoreFault.Stopped }
{
    let states = first_states(alloc, node, header.format, header.objects.as_slice())?;
    O::format(alloc, disk, Role::Store, &states)
}

// The first states of these objects, as far as the node stores them.
fn first_states(
    alloc: Global,
    node: u8,
    format: Format,
    objects: &[ObjectLine],
) -> Result<States, AllocError>
    ensures states { IfOk result (λ states. states ≡ map (step.first_state format) (filter (λ (o : ObjectLine). has o.stores node) objects.now)) }
    ensures sizes { IfOk result (AllByRecursion (λ s. length (state_bytes s) ≤ MOST_BYTES)) }
{
    let mut states = States::new(alloc);
    for object in objects {
        put_first(alloc, node, format, object, &mut states)?;
    }
    Ok(states)
}

// Puts the first state of an object behind the others, if the node stores it.
fn put_first(
    alloc: Global,
    node: u8,
    format: Format,
    object: &ObjectLine,
    states: &mut States,
) -> Result<(), AllocError>
    ensures states { OnOk result (states.new ≡ states.old ++ map (step.first_state format) (filter (λ (o : ObjectLine). has o.stores node) (object.now ∷ []))) }
    ensures sizes { OnOk result (AllByRecursion (λ s. length (state_bytes s) ≤ MOST_BYTES) states.old → AllByRecursion (λ s. length (state_bytes s) ≤ MOST_BYTES) states.new) }
{
    if object.stores.as_slice().contains(&node) {
        states.push(first_state(alloc, format, object)?)?;
    }
    Ok(())
}

// The first state of an object.
#[tactic(auto, using(arj_store::proofs::Sizes::state_within))]
fn first_state(
    alloc: Global,
    format: Format,
    object: &ObjectLine,
) -> Result<ObjectState, AllocError>
    ensures state { IfOk result (λ s. s ≡ step.first_state format object.now) }
    ensures size { IfOk result (λ s. length (state_bytes s) ≤ MOST_BYTES) }
{
    let payload = object.value.save_state(alloc)?;
    Ok(ObjectState {
        uid: object_uid(object.x),
        class: object.value.class(),
        version: 0,
        writer: NOBODY,
        payload,
        format,
    })
}

/// Puts the first incarnation behind the first states of both roles: the disk is formed, and says what they say. No file of
/// a role changes.
pub fn format_inc<D: Disk, O: ObjectStore>(alloc: Global, disk: &mut D) -> Result<(), StoreFault>
    requires store { O.formed (D.file disk.old) Role.Store }
    requires names { O.formed (D.file disk.old) Role.Names }
    requires intents { (u : Uid) → D.file disk.old (Slot.Intent u) ≡ None }
    ensures formed { OnOk result (IsFormed O.ObjectStore (D.file disk.new)) }
    ensures first { OnOk result (IsFirst O.ObjectStore (D.file disk.old) (D.file disk.new)) }
    ensures roles { OnOk result ((role : Role) → SameOfRole role (D.file disk.old) (D.file disk.new)) }
    ensures counts { CountsCall (counts D.Disk disk.old) (counts D.Disk disk.new) result StoreFault.Stopped }
{
    put_inc(alloc, disk, 1)?;
    Ok(())
}
