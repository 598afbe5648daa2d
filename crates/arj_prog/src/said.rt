// What a line says behind the header.
use arj_class::{Answer, Op};
use arj_text::Label;

/// A line of the programs.
#[derive(Drop)]
pub enum Said {
    /// A program begins.
    Prog { name: Label, node: u8, retry: u8 },
    /// A call whose answer is dropped.
    Do { x: u16, op: Op },
    /// A call whose answer is printed.
    Print { x: u16, op: Op },
    /// A condition begins, with its first list.
    If { x: u16, op: Op, answer: Answer },
    /// The second list of a condition begins.
    Else,
    /// A block begins.
    Block { retry: u8 },
    /// The innermost block or condition ends, or the program where none is open.
    End,
    /// The program fails.
    Fail,
    /// The programs are run.
    Run,
}
