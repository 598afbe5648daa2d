// What a root keeps of its objects.
ghost use Rattle.std.specs.Prelude.{◌≡◌, true, [], ◌∷◌, is_some, map, filter, ◌==◌, IfOk, IfSome, OnOk, option_copied};
ghost use Rattle.std.specs.List.{AllByRecursion};
ghost use Rattle.std.specs.List.Sorted.{IsStrictlySortedBy};
ghost use Rattle.std.specs.Map.{keys_of};
ghost use Rattle.std.specs.Ordering.{nat_cmp};
ghost use Rattle.arj_bind.specs.Heard.{came_of, heard_in, hears, gives_up};
ghost use Rattle.arj_commit.specs.Fits.{PlanFits};
ghost use Rattle.arj_msg.specs.Sendable.{IsSendable};
ghost use Rattle.arj_protocol.specs.Asking.{renewed};
ghost use Rattle.arj_protocol.specs.Commit.{included_of};
ghost use Rattle.arj_protocol.specs.Confirm.{marked};
ghost use Rattle.arj_protocol.specs.Coord as coord;
ghost use Rattle.arj_protocol.specs.Ending.{keeping_after};
ghost use Rattle.arj_protocol.specs.Order.{at_number, put_number, each};
ghost use Rattle.arj_root.specs.Kept.{KeptFits, keeping_in, changed_at};

use arj_base::{NodeList, Seq};
use arj_bind::{CallStep, CallSteps, Keeping};
use arj_commit::Plan;
use arj_msg::{Marks, Message};
use std::alloc::{AllocError, Global};
use std::collections::BTreeMap;
use std::marker::Model;
use std::mem;

/// What is kept of each object. Contracts see the protocol's list.
#[derive(Drop)]
pub struct Keepings {
    alloc: Global,
    keeping: BTreeMap<u16, Keeping>,
}

impl Model for Keepings {
    ghost use Rattle.arj_root.specs.Kept.{Keepings, AreKept};

    ghost Value = { Keepings };

    ghost view = { λ k. k.keeping.entries };

    ghost invariant = { λ k. AreKept k.keeping.entries };
}

impl Keepings {
    /// Nothing is kept. It allocates nothing.
    pub fn new(alloc: Global) -> Keepings
        ensures { result ≡ [] }
    {
        Keepings {
            alloc,
            keeping: BTreeMap::new(alloc),
        }
    }

    /// What is kept of an object, where something was noted of it.
    pub fn at(&self, x: u16) -> Option<&Keeping>
        ensures at { option_copied result ≡ at_number x self.now }
        ensures fits { KeptFits ((keeping_in x self.now).kept) }
    {
        self.keeping.get(&x)
    }

    // What is kept of an object, to be put back.
    fn take(&mut self, x: u16) -> Keeping
        ensures keeping { result ≡ keeping_in x self.old }
        ensures fits { KeptFits ((keeping_in x self.old).kept) }
        ensures put { (k : coord.Keeping) → put_number x k self.new ≡ put_number x k self.old }
    {
        if let Some(keeping) = self.keeping.get_mut(&x) {
            return mem::replace(keeping, Keeping::new());
        }
        Keeping::new()
    }

    // This is kept of an object from now on.
    fn put(&mut self, x: u16, keeping: Keeping) -> Result<(), AllocError>
        requires { KeptFits keeping.kept }
        ensures { OnOk result (self.new ≡ put_number x keeping self.old) }
    {
        self.keeping.insert(x, keeping)?;
        Ok(())
    }

    /// Where a call on the object starts: a root that is free of a spoiled binding gives it up.
    pub fn renew(&mut self, x: u16, free: bool) -> Result<(), AllocError>
        ensures { OnOk result (self.new ≡ put_number x (renewed free (keeping_in x self.old) ((keeping_in x self.old).kept)) self.old) }
    {
        let mut keeping = self.take(x);
        keeping.renew(free);
        self.put(x, keeping)
    }

    /// A step of a call or of an include is answered.
    pub fn answered(
        &mut self,
        steps: CallSteps,
        from: u8,
        message: Box<Message>,
        free: bool,
    ) -> Result<CallStep, AllocError>
        requires { IsSendable message.value }
        ensures came { IfOk result (λ step. came_of step ≡ (hears free (keeping_in steps.x self.old) steps (heard_in from message.value steps)).came) }
        ensures keeping { OnOk result (self.new ≡ put_number steps.x (hears free (keeping_in steps.x self.old) steps (heard_in from message.value steps)).keeping self.old) }
    {
        let x = steps.object();
        let mut keeping = self.take(x);
        let step = answered(self.alloc, steps, from, message, free, &mut keeping)?;
        self.put(x, keeping)?;
        Ok(step)
    }

    /// A step of a call or of an include is given up.
    pub fn gave_up(&mut self, steps: CallSteps) -> Result<CallStep, AllocError>
        ensures came { IfOk result (λ step. came_of step ≡ (gives_up (keeping_in steps.x self.old) steps).came) }
        ensures keeping { OnOk result (self.new ≡ put_number steps.x (gives_up (keeping_in steps.x self.old) steps).keeping self.old) }
    {
        let x = steps.object();
        let mut keeping = self.take(x);
        let step = steps.give_up(&mut keeping);
        self.put(x, keeping)?;
        Ok(step)
    }

    // The objects of which something was noted.
    fn objects(&self) -> Result<Seq<u16>, AllocError>
        ensures objects { IfOk result (λ xs. xs ≡ keys_of self.now) }
        ensures sorted { IsStrictlySortedBy nat_cmp (keys_of self.now) }
    {
        let keys = self.keeping.keys();
        let mut objects = Seq::new(self.alloc);
        for x in keys {
            objects.push(*x)?;
        }
        Ok(objects)
    }

    // What is kept of an object changes by a decided plan, whose inclusions are these.
    fn change(&mut self, x: u16, plan: &Plan, included: &[(u16, u8)]) -> Result<(), AllocError>
        requires fits { PlanFits plan.now }
        requires included { included.now ≡ included_of plan.now }
        ensures { OnOk result (self.new ≡ put_number x (keeping_after plan.now x (keeping_in x self.old)) self.old) }
    {
        let excluded = marked(self.alloc, plan.excluded.as_slice(), x)?;
        let included = marked(self.alloc, included, x)?;
        let mut keeping = self.take(x);
        keeping.change_stores(excluded.as_slice(), included.as_slice())?;
        self.put(x, keeping)
    }

    // The same of these objects.
    fn change_each(
        &mut self,
        objects: &[u16],
        plan: &Plan,
        included: &[(u16, u8)],
    ) -> Result<(), AllocError>
        requires fits { PlanFits plan.now }
        requires included { included.now ≡ included_of plan.now }
        ensures { OnOk result (self.new ≡ changed_at (keeping_after plan.now) objects.now self.old) }
    {
        for x in objects {
            self.change(*x, plan, included)?;
        }
        Ok(())
    }

    /// What is kept of each object changes by a decided plan: the stores that it excluded go out of the lists, and those
    /// that it included come last.
    #[tactic(auto, using(crate::proofs::Kept::changed_each))]
    pub fn change_all(&mut self, plan: &Plan) -> Result<(), AllocError>
        requires { PlanFits plan.now }
        ensures { OnOk result (self.new ≡ each (keeping_after plan.now) self.old) }
    {
        let included = plan.included(self.alloc)?;
        let objects = self.objects()?;
        self.change_each(objects.as_slice(), plan, included.as_slice())
    }
}

// The answer to the steps. Where memory is wanting they go.
fn answered(
    alloc: Global,
    steps: CallSteps,
    from: u8,
    message: Box<Message>,
    free: bool,
    keeping: &mut Keeping,
) -> Result<CallStep, AllocError>
    ensures came { IfOk result (λ step. came_of step ≡ (hears free keeping.old steps (heard_in from message.value steps)).came) }
    ensures keeping { OnOk result (keeping.new ≡ (hears free keeping.old steps (heard_in from message.value steps)).keeping) }
{
    match steps.answered(alloc, from, message, keeping, free) {
        Ok(step) => Ok(step),
        Err(_) => Err(AllocError),
    }
}

// The stores that are marked for an object.
fn marked(alloc: Global, marks: &[(u16, u8)], x: u16) -> Result<NodeList, AllocError>
    ensures { IfOk result (λ stores. stores ≡ marked x marks.now) }
{
    let mut stores = NodeList::new(alloc);
    for (y, store) in marks {
        if *y == x {
            stores.push(*store)?;
        }
    }
    Ok(stores)
}
