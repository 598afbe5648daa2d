// The operations that an action's end has on each of its records.
ghost use Rattle.std.specs.Prelude.{◌≡◌, ◌+◌, ◌≤◌, ℕ, Bool, true, List, Option, length};
ghost use Rattle.arj_base.specs.declared.uid.Uid.{Uid};
ghost use Rattle.arj_record.specs.declared.record.Record.{Record};
ghost use Rattle.arj_record.specs.Scene.{Call, Told};

use crate::{Record, RecordList, Scene};
use arj_base::Uid;

/// A record with the six operations of an action's end: prepare, commit and abort, of a nested action and of a
/// top-level one. An operation that takes the record spends it.
pub trait AbstractRecord<V>: Sized {
    /// The number of its kind.
    ghost place: { Self → ℕ };

    /// The two are of one kind and object.
    ghost merges: { Self → Self → Bool };

    /// The parent's records after a nested commit of this one.
    ghost onto: { Self → List (Record V) → List (Record V) };

    /// The object whose new state a top-level commit stores.
    ghost changed: { Self → Option Uid };

    /// What the action's end makes it tell the scene, at an abort of a nested action, and at a commit and an abort of
    /// a top-level one.
    ghost nested_abort_calls: { Self → Uid → List (Call V) };

    ghost top_commit_calls: { Self → Uid → List (Call V) };

    ghost top_abort_calls: { Self → Uid → List (Call V) };

    /// The number of its kind, from 1: records end in increasing order of it.
    fn order(&self) -> u8
        ensures { result ≡ place self.now };

    /// Whether the two are of one kind and object, and so may be one record.
    fn may_merge(&self, other: &Self) -> bool
        ensures { result ≡ merges self.now other.now };

    /// Whether the record agrees to a nested commit. Every record does.
    fn nested_prepare(&self) -> bool
        ensures { result ≡ true };

    /// Hands the record to the parent's list. It takes no memory.
    fn nested_commit(self, parent: &mut RecordList<V>)
        requires { 1 ≤ parent.old.spare }
        ensures records { parent.new.records ≡ onto self parent.old.records }
        ensures spare { parent.old.spare ≤ parent.new.spare + 1 }
        ensures room { parent.old.spare + length parent.old.records ≤ parent.new.spare + length parent.new.records };

    /// Undoes what the record stands for, at the abort of a nested action.
    fn nested_abort<S: Scene<V>>(self, action: Uid, scene: &mut S)
        ensures { Told S.step scene.old (nested_abort_calls self action) scene.new };

    /// The object whose new state is to be stored at a top-level commit, if there is one.
    fn top_prepare(&self) -> Option<Uid>
        ensures { result ≡ changed self.now };

    /// Makes permanent what the record stands for, at the commit of a top-level action.
    fn top_commit<S: Scene<V>>(self, action: Uid, scene: &mut S)
        ensures { Told S.step scene.old (top_commit_calls self action) scene.new };

    /// Undoes what the record stands for, at the abort of a top-level action.
    fn top_abort<S: Scene<V>>(self, action: Uid, scene: &mut S)
        ensures { Told S.step scene.old (top_abort_calls self action) scene.new };
}

impl<V: Drop> AbstractRecord<V> for Record<V> {
    ghost use Rattle.arj_record.specs.Record.{order_of, is_like, changed_in, undone_by, kept_by};
    ghost use Rattle.arj_record.specs.Records.{added};

    ghost place = { order_of };

    ghost merges = { is_like };

    ghost onto = { added };

    ghost changed = { changed_in };

    ghost nested_abort_calls = { λ r action. undone_by action r };

    ghost top_commit_calls = { λ r action. kept_by action r };

    ghost top_abort_calls = { λ r action. undone_by action r };

    fn order(&self) -> u8 {
        match self {
            Record::Recovery { .. } => 1,
            Record::Lock { .. } => 2,
            Record::Persistence { .. } => 3,
        }
    }

    fn may_merge(&self, other: &Self) -> bool {
        self.order() == other.order() && self.object() == other.object()
    }

    fn nested_prepare(&self) -> bool {
        true
    }

    fn nested_commit(self, parent: &mut RecordList<V>) {
        parent.add(self);
    }

    fn nested_abort<S: Scene<V>>(self, action: Uid, scene: &mut S) {
        match self {
            Record::Recovery { object, before } => scene.restore(object, before),
            Record::Lock { object: _, mode: _ } => scene.release(action),
            Record::Persistence { object: _ } => {}
        }
    }

    fn top_prepare(&self) -> Option<Uid> {
        match self {
            Record::Persistence { object } => Some(*object),
            _ => None,
        }
    }

    fn top_commit<S: Scene<V>>(self, action: Uid, scene: &mut S) {
        match self {
            Record::Recovery { object: _, before } => drop(before),
            Record::Lock { object: _, mode: _ } => scene.pass(action),
            Record::Persistence { object } => scene.raise(object, action),
        }
    }

    fn top_abort<S: Scene<V>>(self, action: Uid, scene: &mut S) {
        self.nested_abort(action, scene);
    }
}
