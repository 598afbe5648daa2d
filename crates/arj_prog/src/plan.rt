// What a client program's input says.
use crate::Statements;
use arj_base::Seq;
use arj_journal::Header;
use arj_text::Label;

/// All that is run: the nodes and objects, what the schedule's draws begin with, how many turns it has at most, 1 to 20000,
/// and the programs, 1 to 16, in the order of the text.
#[derive(Drop)]
pub struct Plan {
    pub header: Header,
    pub seed: u32,
    pub turns: u32,
    pub programs: Programs,
}

/// A client program, which runs at a node, and is tried again at most so many times, 0 to 9.
#[derive(Drop)]
pub struct Program {
    pub name: Label,
    pub node: u8,
    pub retry: u8,
    pub body: Statements,
}

/// The programs of a plan.
pub type Programs = Seq<Program>;
