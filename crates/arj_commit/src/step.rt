// What a commit leads to.
use crate::{Confirming, Plan, Preparing, Telling, Voting};
use arj_journal::Cause;

/// The step of a commit after its start, an answer or a giveup. A refusal hands the plan back.
#[derive(Drop)]
pub enum Step {
    Voting(Voting),
    Preparing(Preparing),
    Confirming(Confirming),
    /// The commit is decided once its record is in place, or at once where it has none.
    Decide(Telling),
    Aborted { cause: Cause, plan: Plan },
}
