// Statements that wait for one more.
use crate::statements::{Statement, Statements};
use std::alloc::{AllocFailed, Global};
use std::marker::Model;

/// Statements with room for one more. Contracts see them as a `Listing`.
#[derive(Drop)]
pub struct Waiting {
    items: Vec<Statement>,
}

impl Model for Waiting {
    ghost use Rattle.std.specs.Coded.{codes};
    ghost use Rattle.arj_prog.specs.Listing.{Listing};
    ghost use Rattle.arj_prog.specs.Tokens.{listing_code};

    ghost Value = { Listing };

    ghost coded = { listing_code (Prim.hlevel codes) };

    ghost use Rattle.std.specs.Prelude.{◌<◌};
    ghost use Rattle.std.specs.Vec.{vec_len, vec_capacity};
    ghost use Rattle.arj_prog.specs.Listed.{listing_of};

    ghost view = { λ w. listing_of w.items.items };

    ghost invariant = { λ w. vec_len w.items < vec_capacity w.items };
}

impl Waiting {
    ghost use Rattle.std.specs.Prelude.{◌≡◌, IfOk, IfErr};
    ghost use Rattle.arj_prog.specs.Listed.{add};

    /// These statements, with room for one more.
    pub fn hold(statements: Statements) -> Result<Waiting, AllocFailed<Statements>>
        ensures ok { IfOk result (λ waiting. waiting ≡ statements) }
        ensures err { IfErr result (λ failed. failed.value ≡ statements) }
    {
        let mut items = statements.into_vec();
        match items.reserve(1) {
            Ok(()) => Ok(Waiting { items }),
            Err(_) => Err(AllocFailed {
                value: Statements::from_vec(items),
            }),
        }
    }

    /// The statements alone.
    pub fn release(self) -> Statements
        ensures { result ≡ self }
    {
        Statements::from_vec(self.items)
    }

    /// The statements, and the one that they waited for.
    pub fn close(self, statement: Statement) -> Statements
        ensures { result ≡ add self statement }
    {
        let mut items = self.items;
        let _put = items.push(statement);
        Statements::from_vec(items)
    }
}
