// The open actions: their numbers and paths, in order of beginning.
ghost use Rattle.std.specs.Prelude.{◌≡◌, None, IfOk};
ghost use Rattle.arj_tree.specs.Open.{below, latest, has_child, is_path_below};

use arj_base::{Path, Uid, Uids};
use indexmap::IndexMap;
use std::alloc::{AllocError, Global};

/// The paths of the open actions by their numbers, in order of beginning.
pub type Opened = IndexMap<u64, Path>;

/// Whether it is the path of a descendant, and not of the action itself.
pub fn is_path_below(path: &Path, action: Uid) -> bool
    ensures { result ≡ is_path_below action path.now }
{
    path.is_ancestor_or_self(action) && path.last() != action
}

/// The descendants of an action, the one begun last first.
#[tactic(auto, using(crate::proofs::Opens::below_last, std::proofs::lemmas::List::append_assoc))]
pub fn below(alloc: Global, opened: &Opened, action: Uid) -> Result<Uids, AllocError>
    ensures { IfOk result (λ uids. uids ≡ below action opened.now.entries) }
{
    let mut uids = Uids::new(alloc);
    for (_, path) in opened.iter().rev() {
        if is_path_below(path, action) {
            uids.push(path.last())?;
        }
    }
    Ok(uids)
}

/// The descendant of an action that was begun last.
pub fn latest(opened: &Opened, action: Uid) -> Option<Uid>
    ensures { result ≡ latest action None opened.now.entries }
{
    let mut found = None;
    for (_, path) in opened.iter() {
        if is_path_below(path, action) {
            found = Some(path.last());
        }
    }
    found
}

/// Whether one of them was begun in the action.
pub fn has_child(opened: &Opened, action: Uid) -> bool
    ensures { result ≡ has_child action opened.now.entries }
{
    for (_, path) in opened.iter() {
        if path.parent() == Some(action) {
            return true;
        }
    }
    false
}
