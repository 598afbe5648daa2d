// The calls on objects that were answered.
ghost use Rattle.std.specs.Prelude.{◌≡◌, [], OnOk, OnErr};
ghost use Rattle.std.specs.List.{list_any, list_all};
ghost use Rattle.std.specs.Prelude.{not, ◌||◌, ◌&&◌, ◌==◌};
ghost use Rattle.arj_base.specs.Path.{uids_of};
ghost use Rattle.arj_protocol.specs.Coord as coord;
ghost use Rattle.arj_protocol.specs.Tree.{is_spent};
ghost use Rattle.arj_root.specs.Noted.{of_calls, of_tree};

use crate::index::Index;
use crate::trail::Trail;
use arj_base::{Path, Uid};
use arj_tree::Tree;
use std::alloc::{AllocError, Global};
use std::marker::Model;

/// A call on an object that was answered.
#[derive(Drop)]
pub struct Call {
    pub path: Trail,
    pub x: u16,
}

impl Model for Call {
    ghost use Rattle.arj_protocol.specs.Coord.{Said};

    ghost Value = { Said };

    ghost view = { λ c. record { path = c.path; x = c.x } };
}

/// The calls on objects that were answered, one of each action and object, in order. Contracts see the protocol's list.
#[derive(Drop)]
pub struct Calls {
    alloc: Global,
    said: Vec<Call>,
    // The same by object.
    by_object: Index,
}

impl Model for Calls {
    ghost use Rattle.std.specs.Prelude.{List};
    ghost use Rattle.arj_protocol.specs.Coord.{Said};
    ghost use Rattle.arj_root.specs.Noted.{HasCalls};

    ghost Value = { List Said };

    ghost view = { λ c. c.said.items };

    ghost invariant = { λ c. HasCalls c.by_object c.said.items };
}

impl Calls {
    /// No calls. It allocates nothing.
    pub fn new(alloc: Global) -> Calls
        ensures { result ≡ [] }
    {
        Calls {
            alloc,
            said: Vec::new(alloc),
            by_object: Index::new(alloc),
        }
    }

    /// The calls in order.
    pub fn as_slice(&self) -> &[Call]
        ensures { result.now ≡ self.now }
    {
        self.said.as_slice()
    }

    /// Notes that a call was answered, once for an action and an object.
    pub fn note(&mut self, path: &Path, x: u16) -> Result<(), AllocError>
        ensures noted { OnOk result (self.new ≡ (coord.with_said (record { path = uids_of path.now; x = x }) (of_calls self.old)).said) }
        ensures kept { OnErr result (self.new ≡ self.old) }
    {
        if self.by_object.has(x, path.last()) {
            return Ok(());
        }
        let trail = Trail::new(self.alloc, path)?;
        self.said.reserve(1)?;
        self.by_object.add(self.alloc, x, path)?;
        self.said.push_reserved(Call { path: trail, x });
        Ok(())
    }

    /// Whether the serializing action retains a call on the object. It looks at the calls on the object alone.
    pub fn retains(&self, x: u16, tree: &Tree) -> bool
        ensures { result ≡ coord.retains x (of_calls self.now) (of_tree tree.now) }
    {
        self.by_object.retains(x, tree)
    }

    /// Whether a call on the object survives in the top. It looks at the calls on the object alone.
    pub fn uses(&self, x: u16, top: Uid, tree: &Tree) -> bool
        ensures { result ≡ list_any (λ (s : coord.Said). (s.x == x) && coord.survives top s.path (of_tree tree.now)) self.now }
    {
        self.by_object.survives(x, top, tree)
    }

    /// Whether a call on the object survives in the top or is retained. It looks at the calls on the object alone.
    pub fn is_called(&self, x: u16, top: Uid, tree: &Tree) -> bool
        ensures { result ≡ coord.is_called x top (of_calls self.now) (of_tree tree.now) }
    {
        self.by_object.counts(x, top, tree)
    }

    /// Whether each call on the object has an aborted action on its path. It looks at the calls on the object alone.
    pub fn are_spent(&self, x: u16, tree: &Tree) -> bool
        ensures { result ≡ list_all (λ s. not (s.x == x) || is_spent s.path tree.now) self.now }
    {
        self.by_object.are_spent(x, tree)
    }
}
