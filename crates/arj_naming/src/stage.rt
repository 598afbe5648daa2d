// How far a Confirm comes in memory.
use arj_base::States;
use arj_msg::ConfirmedReply;

/// How far a Confirm comes before the store is asked.
#[derive(Drop)]
pub enum Ready {
    /// It is answered, or void.
    Answer(Option<ConfirmedReply>),
    /// All checks are passed, and these entries are to be prepared.
    Prepare(States),
}
