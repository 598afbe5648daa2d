// An action as a line names it.
use arj_journal::Kind;

/// What the rules ask of an action that a line names: its number, and its kind.
#[derive(Clone, Copy)]
pub struct Named {
    pub number: usize,
    pub kind: Kind,
}
