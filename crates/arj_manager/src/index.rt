// Which objects an action uses.
ghost use Rattle.std.specs.Prelude.{◌≡◌, ◌||◌, ℕ, true, false, None, OnOk, option_copied};
ghost use Rattle.std.specs.BTreeMap.{get};
ghost use Rattle.std.specs.List.Sorted.{IsStrictlySortedBy};
ghost use Rattle.std.specs.Ordering.{nat_cmp};
ghost use Rattle.arj_base.specs.Path.{uids_of};
ghost use Rattle.arj_base.specs.Rows.{is_on};
ghost use Rattle.arj_base.specs.Uid.{uid_eq};
ghost use Rattle.arj_base.specs.declared.uid.Uid.{Uid};
ghost use Rattle.arj_lock.specs.Held.{set_order};
ghost use Rattle.arj_manager.specs.Index.{IsIndexed, any_answers, ended_all, objects_of, uses};
ghost use Rattle.arj_manager.specs.declared.walk.Question.TheVariants as question;

use crate::walk::{Objects, Question, any, end_each};
use arj_base::{End, Path, Uid};
use std::alloc::{AllocError, Global};
use std::collections::{BTreeMap, BTreeSet};

/// Who isn't there. He is taken to use every object, since a path without Uids would be his.
pub const NOBODY: Uid = Uid {
    node: 0,
    inc: 0,
    num: 0,
};

/// What is known of an action, from its first operation here until its end or its root's.
#[derive(Drop)]
pub struct Known {
    /// The objects on which it or a descendant of it ran an operation.
    pub objects: BTreeSet<u16>,
    /// The first action of its path.
    pub root: Uid,
    /// Of a root, the known actions whose root it is.
    pub family: BTreeSet<Uid>,
}

/// What is known of each action.
pub type Index = BTreeMap<Uid, Known>;

// Puts an object under an action.
fn put(index: &mut Index, alloc: Global, root: Uid, action: Uid, x: u16) -> Result<(), AllocError>
    ensures here { OnOk result ((u : Uid) → uses index.new u x ≡ (uses index.old u x || uid_eq action u)) }
    ensures stays { (u : Uid) (y : ℕ) → uses index.old u y ≡ true → uses index.new u y ≡ true }
{
    if let Some(known) = index.get_mut(&action) {
        known.objects.insert(x)?;
        return Ok(());
    }
    let mut objects = BTreeSet::new(alloc);
    objects.insert(x)?;
    let family = BTreeSet::new(alloc);
    index.insert(
        action,
        Known {
            objects,
            root,
            family,
        },
    )?;
    Ok(())
}

// An action comes to its root's family.
fn join(index: &mut Index, root: Uid, action: Uid) -> Result<(), AllocError>
    ensures { (u : Uid) (y : ℕ) → uses index.new u y ≡ uses index.old u y }
{
    if let Some(known) = index.get_mut(&root) {
        known.family.insert(action)?;
    }
    Ok(())
}

// An action leaves its root's family.
fn leave(index: &mut Index, root: Uid, action: Uid)
    ensures uses { (u : Uid) (y : ℕ) → uses index.new u y ≡ uses index.old u y }
    ensures fewer { (u : Uid) → get set_order index.old u ≡ None → get set_order index.new u ≡ None }
{
    if let Some(known) = index.get_mut(&root) {
        known.family.remove(&action);
    }
}

/// Notes that an action with this root uses an object.
pub fn note_one(
    index: &mut Index,
    alloc: Global,
    root: Uid,
    action: Uid,
    x: u16,
) -> Result<(), AllocError>
    ensures here { OnOk result ((u : Uid) → uses index.new u x ≡ (uses index.old u x || uid_eq action u)) }
    ensures stays { (u : Uid) (y : ℕ) → uses index.old u y ≡ true → uses index.new u y ≡ true }
{
    put(index, alloc, root, action, x)?;
    join(index, root, action)
}

/// Notes that each action of a path uses an object.
pub fn note(index: &mut Index, alloc: Global, path: &Path, x: u16) -> Result<(), AllocError>
    ensures here { OnOk result ((u : Uid) → is_on (uids_of path.now) u ≡ true → uses index.new u x ≡ true) }
    ensures stays { (u : Uid) (y : ℕ) → uses index.old u y ≡ true → uses index.new u y ≡ true }
{
    let uids = path.as_slice();
    for uid in uids {
        note_one(index, alloc, path.root(), *uid, x)?;
    }
    Ok(())
}

/// Each object of an action after its end, none where the action isn't known.
pub fn end_known(objects: &mut Objects, known: Option<&Known>, action: Uid, end: End)
    ensures each { objects.new.entries ≡ ended_all action end (objects_of (option_copied known.entry)) objects.old.entries }
    ensures sorted { IsStrictlySortedBy nat_cmp (objects_of (option_copied known.entry)) }
{
    if let Some(known) = known {
        end_each(objects, &known.objects, action, end);
    }
}

// Forgets an action that isn't on the path of a lock or of an overlay any more.
fn forget_one(index: &mut Index, objects: &Objects, action: Uid) -> Option<Known>
    requires { IsIndexed index.old objects.now.entries }
    ensures indexed { IsIndexed index.new objects.now.entries }
    ensures gone { any_answers question.Uses action objects.now.entries ≡ false → get set_order index.new action ≡ None }
    ensures fewer { (u : Uid) → get set_order index.old u ≡ None → get set_order index.new u ≡ None }
{
    let Some(known) = index.get(&action) else {
        return None;
    };
    if any(objects, &known.objects, Question::Uses, action) {
        return None;
    }
    index.remove(&action)
}

/// Forgets an action that isn't on the path of a lock or of an overlay any more, and with a root those of its family
/// whose ends didn't come.
pub fn forget(index: &mut Index, objects: &Objects, action: Uid)
    requires { IsIndexed index.old objects.now.entries }
    ensures indexed { IsIndexed index.new objects.now.entries }
    ensures gone { any_answers question.Uses action objects.now.entries ≡ false → get set_order index.new action ≡ None }
{
    let Some(known) = forget_one(index, objects, action) else {
        return;
    };
    leave(index, known.root, action);
    for member in known.family.iter() {
        forget_one(index, objects, *member);
    }
}
