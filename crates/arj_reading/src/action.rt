// An action as the checker keeps it.
use arj_base::Uid;
use arj_journal::{Kind, Label};

/// The top of an action.
#[derive(Clone, Copy)]
pub struct TopAction {
    pub number: usize,
    pub uid: Uid,
}

/// An action: what it is, and where it stands on its path.
#[derive(Clone, Copy)]
pub struct Action {
    pub kind: Kind,
    pub uid: Uid,
    /// The number of the action before it on its path, if there is one.
    pub above: Option<usize>,
    /// Its top. A serializing action has none.
    pub top: Option<TopAction>,
    /// The number of its root.
    pub root: usize,
    /// How many actions its path has; 17 stands for more than 16.
    pub depth: usize,
}

/// An action that begins, with its label.
#[derive(Clone, Copy)]
pub struct Next {
    pub label: Label,
    pub action: Action,
}
