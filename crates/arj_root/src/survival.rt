// What of an action's work survives in another one.
ghost use Rattle.std.specs.Prelude.{◌≡◌};
ghost use Rattle.arj_protocol.specs.Coord as coord;
ghost use Rattle.arj_root.specs.Noted.{of_tree};

use arj_base::Uid;
use arj_tree::{Kind, Tree};

/// Whether all actions of the path behind the top were committed.
pub fn survives(tree: &Tree, top: Uid, path: &[Uid]) -> bool
    ensures { result ≡ coord.survives top path.now (of_tree tree.now) }
{
    path.contains(&top) && tree.is_merged(top, path)
}

/// Whether the action is a committed constituent.
pub fn is_kept_top(tree: &Tree, action: Uid) -> bool
    ensures { result ≡ coord.is_kept_top action (of_tree tree.now) }
{
    tree.kind(action) == Some(Kind::Constituent) && tree.is_committed(action)
}

/// Whether a serializing action retains what the last action of the path did: it survives in a committed constituent.
pub fn is_retained(tree: &Tree, path: &[Uid]) -> bool
    ensures { result ≡ coord.is_retained path.now (of_tree tree.now) }
{
    match path {
        [_, top, ..] => is_kept_top(tree, *top) && survives(tree, *top, path),
        _ => false,
    }
}

/// Whether it survives in this top, or is retained.
pub fn counts(tree: &Tree, top: Uid, path: &[Uid]) -> bool
    ensures { result ≡ coord.counts top path.now (of_tree tree.now) }
{
    survives(tree, top, path) || is_retained(tree, path)
}
