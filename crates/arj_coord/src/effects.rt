// What a coordinator does, in order.
ghost use Rattle.std.specs.Prelude.{◌≡◌, [], ◌∷◌, ◌++◌, map, OnOk, OnErr};
ghost use Rattle.std.specs.List.{AllByRecursion};
ghost use Rattle.arj_coord.specs.Shown.{effect_of, CanBeDone};
ghost use Rattle.arj_intent.specs.Records.{IsInForm, shown};
ghost use Rattle.arj_protocol.specs.Effect as protocol;

use crate::Effect;
use arj_base::Uid;
use arj_intent::Intent;
use arj_journal::Body;
use arj_msg::Message;
use std::alloc::{AllocError, Global};
use std::marker::Model;

/// Effects in order, each record of them in form. Contracts see the protocol's effects.
#[derive(Drop)]
pub struct Effects {
    alloc: Global,
    items: Vec<Effect>,
}

impl Model for Effects {
    ghost use Rattle.std.specs.Prelude.{List, map};
    ghost use Rattle.std.specs.List.{AllByRecursion};
    ghost use Rattle.arj_coord.specs.Shown.{effect_of, CanBeDone};
    ghost use Rattle.arj_protocol.specs.Effect as protocol;

    ghost Value = { List protocol.Effect };

    ghost view = { λ e. map effect_of e.items.items };

    ghost invariant = { λ e. AllByRecursion CanBeDone e.items.items };
}

impl Effects {
    /// None. It allocates nothing.
    pub fn new(alloc: Global) -> Effects
        ensures { result ≡ [] }
    {
        Effects {
            alloc,
            items: Vec::new(alloc),
        }
    }

    /// The effects in order.
    pub fn as_slice(&self) -> &[Effect]
        ensures effects { map effect_of result.now ≡ self.now }
        ensures form { AllByRecursion CanBeDone result.now }
    {
        self.items.as_slice()
    }

    /// The effects as a vector. It keeps their memory.
    pub fn into_vec(self) -> Vec<Effect>
        ensures effects { map effect_of result.items ≡ self }
        ensures form { AllByRecursion CanBeDone result.items }
    {
        self.items
    }

    // Puts an effect at the end.
    fn push(&mut self, effect: Effect) -> Result<(), AllocError>
        requires { CanBeDone effect }
        ensures { OnOk result (self.new ≡ self.old ++ effect_of effect ∷ []) }
    {
        self.items.push(effect)?;
        Ok(())
    }

    /// A line of the journal at the end.
    pub fn say(&mut self, body: Body) -> Result<(), AllocError>
        ensures { OnOk result (self.new ≡ self.old ++ protocol.Say body ∷ []) }
    {
        self.push(Effect::Say(body))
    }

    /// A message at the end.
    pub fn send(&mut self, node: u8, message: Message) -> Result<(), AllocError>
        ensures { OnOk result (self.new ≡ self.old ++ protocol.Send node message ∷ []) }
    {
        let message = Box::new(self.alloc, message)?;
        self.push(Effect::Send(node, message))
    }

    /// A record that is put, at the end.
    pub fn put_record(&mut self, intent: Intent) -> Result<(), AllocError>
        requires { IsInForm intent }
        ensures { OnOk result (self.new ≡ self.old ++ protocol.Do (protocol.PutIntent intent.top (shown intent)) ∷ []) }
    {
        self.push(Effect::PutRecord(intent))
    }

    /// A record that is removed, at the end.
    pub fn remove_record(&mut self, top: Uid) -> Result<(), AllocError>
        ensures { OnOk result (self.new ≡ self.old ++ protocol.Do (protocol.RemoveIntent top) ∷ []) }
    {
        self.push(Effect::RemoveRecord(top))
    }
}
