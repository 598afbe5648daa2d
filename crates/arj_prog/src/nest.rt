// Statements that are open one inside another.
ghost use Rattle.std.specs.Prelude.{◌≡◌};
ghost use Rattle.arj_prog.specs.Nesting.{blocks_in, is_block, is_in_first, with_first};

use crate::frame::{Frame, Opened};
use crate::statements::Statements;
use std::alloc::{AllocFailed, Global};
use std::marker::Model;

/// The open statements. Contracts see them as a list, the innermost first.
#[derive(Drop)]
pub struct Nest {
    frames: Vec<Frame>,
}

impl Model for Nest {
    ghost use Rattle.std.specs.Prelude.{List, reverse};
    ghost use Rattle.arj_prog.specs.declared.frame.Frame.{Frame};

    ghost Value = { List Frame };

    ghost use Rattle.std.specs.Coded.{codes};
    ghost use Rattle.arj_prog.specs.contracts.statements.Statements as statements;
    ghost use Rattle.arj_prog.specs.contracts.waiting.Waiting as waiting;

    ghost coded = { Prim.hlevel (codes, statements.the_row.coded, waiting.the_row.coded) };

    ghost view = { λ n. reverse n.frames.items };
}

impl Nest {
    ghost use Rattle.std.specs.Prelude.{◌≡◌, ◌∷◌, [], OnOk, IfErr, MatchOption};
    ghost use Rattle.arj_prog.specs.Nesting.{awaits_else, blocks_in, in_second, is_nil};

    /// Nothing is open. It allocates nothing.
    pub fn new(alloc: Global) -> Nest
        ensures { result ≡ [] }
    {
        Nest {
            frames: Vec::new(alloc),
        }
    }

    /// Opens one inside all others.
    pub fn push(&mut self, frame: Frame) -> Result<(), AllocFailed<Frame>>
        ensures ok { OnOk result (self.new ≡ frame ∷ self.old) }
        ensures err { IfErr result (λ failed. (failed.value ≡ frame) × (self.new ≡ self.old)) }
    {
        self.frames.push(frame)
    }

    /// Takes out the innermost.
    pub fn pop(&mut self) -> Option<Frame>
        ensures { MatchOption result ((self.old ≡ []) × (self.new ≡ [])) (λ frame. self.old ≡ frame ∷ self.new) }
    {
        self.frames.pop()
    }

    /// Whether nothing is open.
    pub fn is_empty(&self) -> bool
        ensures { result ≡ is_nil self.now }
    {
        self.frames.is_empty()
    }

    /// Whether `else` may stand: a condition is innermost, in its first list.
    pub fn awaits_else(&self) -> bool
        ensures { result ≡ awaits_else self.now }
    {
        match self.frames.last() {
            Some(frame) => is_in_first(&frame.opened),
            None => false,
        }
    }

    /// How many blocks are open.
    pub fn blocks(&self) -> usize
        ensures { result ≡ blocks_in self.now }
    {
        blocks_among(self.frames.as_slice())
    }

    /// Puts the innermost condition into its second list, behind this first one.
    pub fn begin_second(&mut self, first: Statements)
        ensures { self.new ≡ in_second first self.old }
    {
        if let Some(frame) = self.frames.last_mut() {
            put_first(&mut frame.opened, first);
        }
    }
}

// How many of them are blocks.
fn blocks_among(frames: &[Frame]) -> usize
    ensures { result ≡ blocks_in frames.now }
{
    let mut count = 0;
    for frame in frames {
        if is_block(&frame.opened) {
            count += 1;
        }
    }
    count
}

// Puts a condition into its second list.
fn put_first(opened: &mut Opened, list: Statements)
    ensures { opened.new ≡ with_first list opened.old }
{
    if let Opened::If { first, .. } = opened {
        *first = Some(list);
    }
}

// Whether a condition is in its first list.
fn is_in_first(opened: &Opened) -> bool
    ensures { result ≡ is_in_first opened.now }
{
    matches!(opened, Opened::If { first: None, .. })
}

// Whether it is a block.
fn is_block(opened: &Opened) -> bool
    ensures { result ≡ is_block opened.now }
{
    matches!(opened, Opened::Block { .. })
}
