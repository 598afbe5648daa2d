// What a root keeps of an object.
ghost use Rattle.std.specs.Prelude.{◌≡◌, ◌||◌, ℕ, Option, IfOk, IfSome, OnOk, OnErr, option_copied};
ghost use Rattle.arj_base.specs.declared.uid.Uid.{Uid};
ghost use Rattle.arj_protocol.specs.Asking.{given_away, renewed, was_named, known_at_start, same_kept, keeps_after};
ghost use Rattle.arj_protocol.specs.Call as call;
ghost use Rattle.arj_protocol.specs.Words.{with_store};
ghost use Rattle.arj_protocol.specs.Commit.{Plan, included_of};
ghost use Rattle.arj_protocol.specs.Confirm.{with_stores, without_stores, marked};
ghost use Rattle.arj_protocol.specs.Ending.{keeping_after};
ghost use Rattle.arj_protocol.specs.Coord as coord;
ghost use Rattle.arj_protocol.specs.Coord.{Root, Coord, no_keeping, retains};
ghost use Rattle.arj_bind.specs.Shown.{goal_of};
ghost use Rattle.arj_bind.specs.Heard.{binding_in, lent, with_list};

use crate::binding::is_same;
use crate::{Goal, Known};
use arj_base::{Binding, NodeList};
use std::alloc::AllocError;
use std::marker::Model;

/// One binding per root: what is kept of an object, whether it is spoiled, and the binding to avoid, 0.0 if none. Contracts
/// see the protocol's `Keeping`.
#[derive(Drop)]
pub struct Keeping {
    kept: Option<Known>,
    spoiled: bool,
    avoid: Binding,
}

impl Model for Keeping {
    ghost use Rattle.arj_protocol.specs.Coord as coord;

    ghost Value = { coord.Keeping };

    ghost view = { λ k. record { kept = k.kept; spoiled = k.spoiled; avoid = k.avoid } };
}

impl Keeping {
    /// Nothing is kept, and nothing avoided. It allocates nothing.
    pub fn new() -> Keeping
        ensures { result ≡ no_keeping }
    {
        Keeping {
            kept: None,
            spoiled: false,
            avoid: Binding { inc: 0, count: 0 },
        }
    }

    /// What is kept.
    pub fn kept(&self) -> Option<&Known>
        ensures { option_copied result ≡ self.now.kept }
    {
        self.kept.as_ref()
    }

    /// The binding that is kept.
    pub fn binding(&self) -> Option<Binding>
        ensures { result ≡ binding_in self.now.kept }
    {
        match &self.kept {
            None => None,
            Some(known) => Some(known.binding),
        }
    }

    /// Whether a call under the kept binding was lost or met a change.
    pub fn is_spoiled(&self) -> bool
        ensures { result ≡ self.now.spoiled }
    {
        self.spoiled
    }

    /// The binding to avoid, 0.0 if none.
    pub fn avoid(&self) -> Binding
        ensures { result ≡ self.now.avoid }
    {
        self.avoid
    }

    /// Where a call starts: a root that is free of a spoiled binding gives it up, and avoids it from then on.
    pub fn renew(&mut self, free: bool)
        ensures { self.new ≡ renewed free self.old self.old.kept }
    {
        if let Some(avoid) = self.binding() {
            if free && self.spoiled {
                self.kept = None;
                self.spoiled = false;
                self.avoid = avoid;
            }
        }
    }

    /// What a call may start with in place of a Bind. `named` tells whether the top's last answer on the object named the
    /// kept binding, or its serializing action retains the object.
    pub fn known_at_start(&self, named: bool) -> Option<&Known>
        ensures { (top : Uid) (x : ℕ) (r : Root) (c : Coord) → IfSome self.now.kept (λ k. named ≡ (was_named top x k.binding r || retains x r c))
            → option_copied result ≡ known_at_start top x r c self.now.kept }
    {
        match &self.kept {
            Some(known) if known.recorded && named => Some(known),
            _ => None,
        }
    }

    /// After the commit of a constituent: the stores that it excluded go out of the list that is kept, and those that it
    /// included come last.
    pub fn change_stores(&mut self, excluded: &[u8], included: &[u8]) -> Result<(), AllocError>
        ensures keeping { OnOk result ((p : Plan) (x : ℕ) → marked x p.excluded ≡ excluded.now → marked x (included_of p) ≡ included.now → self.new ≡ keeping_after p x self.old) }
        ensures err { OnErr result (self.new ≡ self.old) }
    {
        let Some(known) = &self.kept else {
            return Ok(());
        };
        let stores = stores_after(&known.stores, excluded, included)?;
        self.kept = with_stores(self.kept.take(), stores);
        Ok(())
    }

    // What a call works on, for the time of an answer. An include works on a copy.
    pub(crate) fn lend(&mut self, goal: &Goal) -> Result<Option<Known>, AllocError>
        ensures lent { IfOk result (λ kept. kept ≡ self.old.kept) }
        ensures left { OnOk result (self.new ≡ lent (goal_of goal.now) self.old) }
        ensures err { OnErr result (self.new ≡ self.old) }
    {
        match goal {
            Goal::Call(_) => Ok(self.kept.take()),
            Goal::Include(_) => match &self.kept {
                None => Ok(None),
                Some(known) => Ok(Some(known.copy()?)),
            },
        }
    }

    // After an answer: what was lent comes back as `kept`, where `was` is the binding that was kept before.
    pub(crate) fn keeps_after(
        &mut self,
        goal: &Goal,
        was: Option<Binding>,
        spoilt: bool,
        kept: Option<Known>,
    )
        ensures { (k : coord.Keeping) → self.old ≡ lent (goal_of goal.now) k → was ≡ binding_in k.kept → self.new ≡ keeps_after (goal_of goal.now) spoilt kept k }
    {
        if let Goal::Call(_) = goal {
            self.spoiled = (is_still(kept.as_ref(), was) && self.spoiled) || spoilt;
            self.kept = kept;
        }
    }

    // After a giveup.
    pub(crate) fn loses(&mut self, goal: &Goal, spoilt: bool)
        ensures { self.new ≡ keeps_after (goal_of goal.now) spoilt self.old.kept self.old }
    {
        if let Goal::Call(_) = goal {
            self.spoiled = (self.kept.is_some() && self.spoiled) || spoilt;
        }
    }
}

// Whether the binding that was kept is kept still.
fn is_still(kept: Option<&Known>, was: Option<Binding>) -> bool
    ensures { (old : Option call.Known) → was ≡ binding_in old → result ≡ same_kept (option_copied kept.entry) old }
{
    match (kept, was) {
        (Some(known), Some(was)) => is_same(known.binding, was),
        _ => false,
    }
}

// What is kept, with this list of stores.
fn with_stores(kept: Option<Known>, stores: NodeList) -> Option<Known>
    ensures { result ≡ with_list kept stores }
{
    match kept {
        None => None,
        Some(known) => {
            let mut known = known;
            known.stores = stores;
            Some(known)
        }
    }
}

// A list of stores without the excluded ones, and with the included ones last.
fn stores_after(stores: &NodeList, excluded: &[u8], included: &[u8]) -> Result<NodeList, AllocError>
    ensures { IfOk result (λ after. after ≡ with_stores included.now (without_stores excluded.now stores.now)) }
{
    let mut stores = stores.copy()?;
    exclude_all(&mut stores, excluded);
    include_all(&mut stores, included)?;
    Ok(stores)
}

fn exclude_all(stores: &mut NodeList, excluded: &[u8])
    ensures { stores.new ≡ without_stores excluded.now stores.old }
{
    for store in excluded {
        stores.remove_all(*store);
    }
}

fn include_all(stores: &mut NodeList, included: &[u8]) -> Result<(), AllocError>
    ensures { OnOk result (stores.new ≡ with_stores included.now stores.old) }
{
    for store in included {
        include(stores, *store)?;
    }
    Ok(())
}

// Puts a store behind the others, if it isn't among them.
fn include(stores: &mut NodeList, store: u8) -> Result<(), AllocError>
    ensures { OnOk result (stores.new ≡ with_store store stores.old) }
{
    if stores.as_slice().contains(&store) {
        return Ok(());
    }
    stores.push(store)
}
