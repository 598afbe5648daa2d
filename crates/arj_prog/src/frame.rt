// Statements whose lists are open.
use crate::statements::Statements;
use crate::waiting::Waiting;
use arj_class::{Answer, Op};

/// What is open.
#[derive(Drop)]
pub enum Opened {
    /// A block.
    Block {
        retry: u8,
    },
    /// A condition: in its first list, or in its second where the first is there.
    If {
        x: u16,
        op: Op,
        answer: Answer,
        first: Option<Statements>,
    },
}

/// A statement whose list is open, and the statements before it.
#[derive(Drop)]
pub struct Frame {
    pub before: Waiting,
    pub opened: Opened,
}
