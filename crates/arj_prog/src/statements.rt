// Statements, in lists.
use arj_class::{Answer, Op};
use std::alloc::{AllocError, Global};
use std::marker::Model;

/// A statement of a client program.
#[cycle(statements)]
#[derive(Drop)]
pub enum Statement {
    /// A call, whose answer is dropped.
    Do {
        x: u16,
        op: Op,
    },
    /// A call, whose answer is printed.
    Print {
        x: u16,
        op: Op,
    },
    /// A call, and the first list where it answers this, else the second.
    If {
        x: u16,
        op: Op,
        answer: Answer,
        then: Statements,
        other: Statements,
    },
    /// A nested action, which is tried again at most so many times, 0 to 9.
    Block {
        retry: u8,
        body: Statements,
    },
    /// The whole program is aborted, and not tried again.
    Fail,
}

/// Statements in the order in which they were pushed. Contracts see them as a `Listing`.
#[cycle(statements)]
#[derive(Drop)]
pub struct Statements {
    items: Vec<Statement>,
}

impl Model for Statements {
    ghost use Rattle.arj_prog.specs.Listing.{Listing};
    ghost use Rattle.std.specs.Coded.{codes};
    ghost use Rattle.arj_prog.specs.Tokens.{listing_code};

    ghost Value = { Listing };

    ghost coded = { listing_code (Prim.hlevel codes) };

    ghost use Rattle.arj_prog.specs.Listing.{statement_count};
    ghost use Rattle.arj_prog.specs.Listed.{listing_of};

    ghost view = { λ s. listing_of s.items.items };

    ghost size = { statement_count };

    ghost use Rattle.std.proofs.Common.{arith};
    ghost use Rattle.arj_prog.specs.Falls.{deepest};

    ghost size_decreases = { λ s h. omega (arith, deepest s.items.items) };
}

impl Statements {
    ghost use Rattle.std.specs.Prelude.{◌≡◌, ◌∷◌, [], OnOk, OnErr};
    ghost use Rattle.arj_prog.specs.Listing.{End};
    ghost use Rattle.arj_prog.specs.Listed.{add, listing_of};

    /// No statements. It allocates nothing.
    pub fn new(alloc: Global) -> Statements
        ensures { result ≡ End }
    {
        Statements {
            items: Vec::new(alloc),
        }
    }

    /// The statements, first pushed first.
    pub fn as_slice(&self) -> &[Statement]
        ensures { listing_of result.now ≡ self.now }
    {
        self.items.as_slice()
    }

    /// Puts a statement at the end.
    pub fn push(&mut self, statement: Statement) -> Result<(), AllocError>
        ensures ok { OnOk result (self.new ≡ add self.old statement) }
        ensures err { OnErr result (self.new ≡ self.old) }
    {
        self.items.push(statement)?;
        Ok(())
    }

    /// The statements of a vector. It keeps their memory.
    pub fn from_vec(items: Vec<Statement>) -> Statements
        ensures { result ≡ listing_of items.items }
    {
        Statements { items }
    }

    /// The statements as a vector. It keeps their memory.
    pub fn into_vec(self) -> Vec<Statement>
        ensures { listing_of result.items ≡ self }
    {
        self.items
    }
}
