// What parts hand back.
ghost use Rattle.std.specs.Prelude.{◌≡◌, [], ◌∷◌, ◌++◌, map, OnOk};
ghost use Rattle.arj_node.specs.Outgoing.{AreSpelled, IsSpelled, outgoing_of};
ghost use Rattle.arj_node.specs.declared.outgoing.Outgoing.TheVariants as of;

use crate::sendable::can_be_sent;
use arj_journal::Body;
use arj_msg::Message;
use std::alloc::{AllocError, Global};
use std::marker::Model;

/// What a call of a node's parts hands back, as contracts see it: what a line says, or a message for a node, which may be the
/// node itself.
#[derive(Drop)]
pub enum Outgoing {
    Say(Body),
    Send { to: u8, message: Message },
}

/// The same as it is kept: a message is long, and stands in a box, so that it isn't copied as it is handed on.
#[derive(Drop)]
pub enum Handed {
    Say(Body),
    Send { to: u8, message: Box<Message> },
}

/// What is handed back, in order. Each message can be spelled.
#[derive(Drop)]
pub struct Outgoings {
    alloc: Global,
    items: Vec<Handed>,
}

impl Model for Outgoings {
    ghost use Rattle.std.specs.Prelude.{List, map};
    ghost use Rattle.arj_node.specs.Outgoing.{AreSpelled, outgoing_of};
    ghost use Rattle.arj_node.specs.declared.outgoing.Outgoing.{Outgoing};

    ghost Value = { List Outgoing };

    ghost view = { λ o. map outgoing_of o.items.items };

    ghost invariant = { λ o. AreSpelled (map outgoing_of o.items.items) };
}

impl Outgoings {
    /// Nothing. It allocates nothing.
    pub fn new(alloc: Global) -> Outgoings
        ensures { result ≡ [] }
    {
        Outgoings {
            alloc,
            items: Vec::new(alloc),
        }
    }

    // One more.
    fn push(&mut self, one: Handed) -> Result<(), AllocError>
        requires { IsSpelled (outgoing_of one) }
        ensures { OnOk result (self.new ≡ self.old ++ outgoing_of one ∷ []) }
    {
        self.items.push(one)?;
        Ok(())
    }

    /// What a line says is handed back.
    pub fn say(&mut self, body: Body) -> Result<(), AllocError>
        ensures { OnOk result (self.new ≡ self.old ++ of.Say body ∷ []) }
    {
        self.push(Handed::Say(body))
    }

    /// A message is handed back. One that can't be spelled isn't sent: the node gives up, as for want of memory. In a run in form
    /// that could only be a vote of more than 255 states.
    pub fn send(&mut self, to: u8, message: Message) -> Result<(), AllocError>
        ensures { OnOk result (self.new ≡ self.old ++ of.Send to message ∷ []) }
    {
        let message = Box::new(self.alloc, message)?;
        self.forward(to, message)
    }

    /// A message that stands in a box already is handed back, as by `send`.
    pub fn forward(&mut self, to: u8, message: Box<Message>) -> Result<(), AllocError>
        ensures { OnOk result (self.new ≡ self.old ++ of.Send to message.value ∷ []) }
    {
        if !can_be_sent(self.alloc, &message)? {
            return Err(AllocError);
        }
        self.push(Handed::Send { to, message })
    }

    /// All of it.
    pub fn into_vec(self) -> Vec<Handed>
        ensures items { map outgoing_of result.items ≡ self }
        ensures spelled { AreSpelled (map outgoing_of result.items) }
    {
        self.items
    }
}
