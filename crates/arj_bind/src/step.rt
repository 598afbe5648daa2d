// What a message makes of the steps of a call.
use crate::{CallEnd, CallSteps};
use arj_msg::Message;

/// What follows a message or a giveup.
#[derive(Drop)]
pub enum CallStep {
    /// The next request waits.
    On(CallSteps),
    /// The call or the include has ended.
    Ended(CallEnd),
    /// The message doesn't answer the request that waits.
    Foreign(CallSteps),
}

/// Memory was wanting: the steps and the message, as they were.
#[derive(Drop)]
pub struct Unanswered {
    pub steps: CallSteps,
    pub message: Box<Message>,
}
