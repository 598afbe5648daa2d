// What an operation did.
use arj_base::Mode;
use arj_class::Answer;

/// What an operation answered, and the mode of its lock where the action's mode on the object rose.
#[derive(Drop)]
pub struct Ran {
    pub answer: Answer,
    pub granted: Option<Mode>,
}
