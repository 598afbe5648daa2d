// A verdict.
use arj_replay::Wrong;

/// The verdict on a journal that can be read: the first call whose answer differs, if there is one.
#[derive(Drop)]
pub struct Verdict {
    /// In serial order.
    pub serial: Option<Wrong>,
    /// Where each committed nested action is run whole at its commit.
    pub nested: Option<Wrong>,
}
