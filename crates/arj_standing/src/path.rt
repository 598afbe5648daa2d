// The paths of actions that have begun.
ghost use Rattle.std.specs.Prelude.{◌≡◌};
ghost use Rattle.arj_text.specs.Label.{name};
ghost use Rattle.arj_standing.specs.Begun.{links_named, links_of, top_in_links};

use crate::begun::{Begun, Link};
use arj_base::Uid;
use arj_journal::Label;

/// The path of the action with this label, from its root to itself; empty where none has it.
pub fn path_named<'a>(begun: &'a [Begun], label: &Label) -> &'a [Link]
    ensures { result.now ≡ links_named (name label.now) begun.now }
{
    for action in begun {
        if action.label.as_bytes() == label.as_bytes() {
            return action.path.as_slice();
        }
    }
    &[]
}

/// The path of the action with this Uid, from its root to itself; empty where none has it.
pub fn path_of(begun: &[Begun], uid: Uid) -> &[Link]
    ensures { result.now ≡ links_of uid begun.now }
{
    for action in begun {
        if action.uid == uid {
            return action.path.as_slice();
        }
    }
    &[]
}

/// The top of a path: its first action, or the second where the first is a serializing action.
pub fn top_of(path: &[Link]) -> Option<Uid>
    ensures { result ≡ top_in_links path.now }
{
    match path {
        [] => None,
        [root] => { if root.serial { None } else { Some(root.uid) } }
        [root, second, ..] => {
            if root.serial {
                Some(second.uid)
            } else {
                Some(root.uid)
            }
        }
    }
}
