// Walks over the objects that an action uses.
ghost use Rattle.std.specs.Prelude.{◌≡◌, IfOk};
ghost use Rattle.std.specs.List.Sorted.{IsStrictlySortedBy};
ghost use Rattle.std.specs.Map.{keys_of};
ghost use Rattle.std.specs.Ordering.{nat_cmp};
ghost use Rattle.arj_protocol.specs.Order.{at_number};
ghost use Rattle.arj_manager.specs.Index.{any_answers, changed_at, ended_all, ended_at, picked};
ghost use Rattle.arj_manager.specs.Manager.{changed_in};

use crate::ActiveObject;
use arj_base::{End, ObjectState, Seq, Uid};
use std::alloc::{AllocError, Global};
use std::collections::{BTreeMap, BTreeSet};

/// Active objects by their numbers.
pub type Objects = BTreeMap<u16, ActiveObject>;

/// What may be asked of an object about an action.
#[derive(Clone, Copy, Debug)]
pub enum Question {
    /// Whether the action or a descendant of it has a lock.
    Holds,
    /// Whether it is the top of a lock's holder, or the serializing action above that top.
    Tops,
    /// Whether it is on the path of a lock or of an overlay.
    Uses,
}

/// Whether one of these objects answers yes.
pub fn any(objects: &Objects, xs: &BTreeSet<u16>, question: Question, action: Uid) -> bool
    ensures answer { result ≡ any_answers question action (picked xs.now.keys objects.now.entries) }
    ensures sorted { IsStrictlySortedBy nat_cmp xs.now.keys }
    ensures ordered { IsStrictlySortedBy nat_cmp (keys_of objects.now.entries) }
{
    let places = xs.iter();
    if objects.len() == 0 {
        return false;
    }
    for x in places {
        if let Some(object) = objects.get(x) {
            if object.answers(question, action) {
                return true;
            }
        }
    }
    false
}

// An object after an action's end, if it is there.
fn end_at(objects: &mut Objects, x: u16, action: Uid, end: End)
    ensures { objects.new.entries ≡ ended_at action end x objects.old.entries }
{
    if let Some(object) = objects.get_mut(&x) {
        object.end(action, end);
    }
}

/// Each of these objects after an action's end.
pub fn end_each(objects: &mut Objects, xs: &BTreeSet<u16>, action: Uid, end: End)
    ensures each { objects.new.entries ≡ ended_all action end xs.now.keys objects.old.entries }
    ensures sorted { IsStrictlySortedBy nat_cmp xs.now.keys }
{
    for x in xs.iter() {
        end_at(objects, *x, action, end);
    }
}

// The state that a top made of an object, None where the object isn't there or the top didn't write it.
fn changed_at(
    alloc: Global,
    objects: &Objects,
    x: u16,
    top: Uid,
) -> Result<Option<ObjectState>, AllocError>
    ensures { IfOk result (λ state. state ≡ changed_at top x (at_number x objects.now.entries)) }
{
    let Some(object) = objects.get(&x) else {
        return Ok(None);
    };
    object.changed_state(alloc, top, x)
}

/// The states that a top made of these objects.
pub fn changed_states(
    alloc: Global,
    objects: &Objects,
    xs: &BTreeSet<u16>,
    top: Uid,
) -> Result<Seq<ObjectState>, AllocError>
    ensures states { IfOk result (λ states. states ≡ changed_in top (picked xs.now.keys objects.now.entries)) }
    ensures sorted { IsStrictlySortedBy nat_cmp xs.now.keys }
    ensures ordered { IsStrictlySortedBy nat_cmp (keys_of objects.now.entries) }
{
    let mut states = Seq::new(alloc);
    let places = xs.iter();
    if objects.len() == 0 {
        return Ok(states);
    }
    for x in places {
        if let Some(state) = changed_at(alloc, objects, *x, top)? {
            states.push(state)?;
        }
    }
    Ok(states)
}
