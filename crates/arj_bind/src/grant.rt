// The lock on an entry that naming granted to a top.
ghost use Rattle.std.specs.Prelude.{◌≡◌, min};
ghost use Rattle.arj_protocol.specs.Order.{is_binding};
ghost use Rattle.arj_protocol.specs.Coord.{is_grant_of, named_last};

use crate::binding::is_same;
use arj_base::{Binding, Uid};
use std::marker::Model;

/// The locks on the entry of object `x` that a top was granted: the least incarnation of naming of all grants, and the
/// binding that the last answer to a call named; an answer to an include names none. Contracts see the protocol's.
#[derive(Drop)]
pub struct Grant {
    pub top: Uid,
    pub x: u16,
    pub least: u32,
    pub named: Option<Binding>,
}

impl Model for Grant {
    ghost use Rattle.arj_protocol.specs.Coord as coord;

    ghost Value = { coord.Grant };

    ghost view = { λ g. record { top = g.top; x = g.x; least = g.least; named = g.named } };
}

impl Grant {
    /// Whether it is of this top and object.
    pub fn is_of(&self, top: Uid, x: u16) -> bool
        ensures { result ≡ is_grant_of top x self.now }
    {
        self.top == top && self.x == x
    }

    /// Whether the last answer to a call named this binding.
    pub fn names(&self, binding: Binding) -> bool
        ensures { result ≡ is_binding binding self.now.named }
    {
        match self.named {
            Some(named) => is_same(binding, named),
            None => false,
        }
    }

    /// Takes up what was granted once more.
    pub fn take(&mut self, least: u32, named: Option<Binding>)
        ensures { self.new ≡ record self.old { least = min self.old.least least; named = named_last named self.old.named } }
    {
        self.least = self.least.min(least);
        self.named = named.or(self.named);
    }
}
