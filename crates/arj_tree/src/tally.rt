// What counts against a root's limits, and its ends.
ghost use Rattle.std.specs.Prelude.{◌≡◌, ◌<◌, ◌^◌, ◌&&◌, nat_le, not, [], length, OnOk, OnErr, IsSome, option_copied, Some};
ghost use Rattle.arj_protocol.specs.Order.{at_number, has};
ghost use Rattle.arj_protocol.specs.Tree.{no_family};
ghost use Rattle.arj_start.specs.Limits.{most_objects};
ghost use Rattle.arj_tree.specs.Tally.{family_in, with_action, with_end, with_object, changed};

use arj_base::{End, Ends, MOST_OBJECTS, Uid};
use std::alloc::{AllocError, Global};
use std::collections::{BTreeMap, BTreeSet};
use std::marker::Model;

/// What one root has: the ends of its nested actions and constituents in the order in which they were decided, how many
/// actions were begun in it, and the objects that they use. Contracts see it as the protocol's.
#[derive(Drop)]
pub struct Tally {
    ends: Ends,
    actions: u64,
    objects: BTreeSet<u16>,
}

impl Model for Tally {
    ghost use Rattle.arj_protocol.specs.Tree.{Family};

    ghost Value = { Family };

    ghost view = { λ t. record { ends = t.ends; actions = t.actions; objects = t.objects.keys } };
}

impl Tally {
    /// Nothing yet. It allocates nothing.
    pub fn new(alloc: Global) -> Tally
        ensures { result ≡ no_family }
    {
        Tally {
            ends: Ends::new(alloc),
            actions: 0,
            objects: BTreeSet::new(alloc),
        }
    }

    /// Its ends.
    pub fn ends(&self) -> &Ends
        ensures { result.now ≡ self.now.ends }
    {
        &self.ends
    }

    /// How many actions were begun in it.
    pub fn actions(&self) -> u64
        ensures { result ≡ self.now.actions }
    {
        self.actions
    }

    /// Whether the object would be one more than its actions may use. It looks for the object only where they use as many.
    pub fn has_many_objects(&self, x: u16) -> bool
        ensures { result ≡ (not (has self.now.objects x) && nat_le most_objects (length self.now.objects)) }
    {
        self.objects.len() >= usize::from(MOST_OBJECTS) && !self.objects.contains(&x)
    }

    /// One more action was begun in it.
    pub fn count(&mut self)
        requires { self.old.actions < 2 ^ 63 }
        ensures { self.new ≡ with_action self.old }
    {
        self.actions += 1;
    }

    /// One more action of it ended.
    pub fn list_end(&mut self, action: Uid, outcome: End) -> Result<(), AllocError>
        ensures ended { OnOk result (self.new ≡ with_end action outcome self.old) }
        ensures kept { OnErr result (self.new ≡ self.old) }
    {
        self.ends.push((action, outcome))
    }

    /// One of its actions uses the object.
    pub fn use_object(&mut self, x: u16) -> Result<(), AllocError>
        ensures used { OnOk result (self.new ≡ with_object x self.old) }
        ensures kept { OnErr result (self.new ≡ self.old) }
    {
        self.objects.insert(x)?;
        Ok(())
    }
}

/// What each root has, by its number.
#[derive(Drop)]
pub struct Tallies {
    roots: BTreeMap<u64, Tally>,
}

impl Model for Tallies {
    ghost use Rattle.arj_tree.specs.Tally.{Families};

    ghost Value = { Families };

    ghost view = { λ t. t.roots.entries };
}

impl Tallies {
    /// No root. It allocates nothing.
    pub fn new(alloc: Global) -> Tallies
        ensures { result ≡ [] }
    {
        Tallies {
            roots: BTreeMap::new(alloc),
        }
    }

    /// What a root has, where something was noted of it.
    pub fn of(&self, root: u64) -> Option<&Tally>
        ensures { option_copied result ≡ at_number root self.now }
    {
        self.roots.get(&root)
    }

    /// How many actions were begun in the root.
    pub fn actions(&self, root: u64) -> u64
        ensures { result ≡ (family_in root self.now).actions }
    {
        match self.of(root) {
            Some(tally) => tally.actions(),
            None => 0,
        }
    }

    /// Whether the object would be one more than the root's actions may use.
    pub fn has_many_objects(&self, root: u64, x: u16) -> bool
        ensures { result ≡ (let f = family_in root self.now in not (has f.objects x) && nat_le most_objects (length f.objects)) }
    {
        match self.of(root) {
            Some(tally) => tally.has_many_objects(x),
            None => false,
        }
    }

    /// One more action was begun in the root.
    pub fn count(&mut self, alloc: Global, root: u64) -> Result<(), AllocError>
        requires { (family_in root self.old).actions < 2 ^ 63 }
        ensures counted { OnOk result (self.new ≡ changed with_action root self.old) }
        ensures kept { OnErr result (self.new ≡ self.old) }
    {
        if let Some(tally) = self.roots.get_mut(&root) {
            tally.count();
            return Ok(());
        }
        let mut tally = Tally::new(alloc);
        tally.count();
        self.roots.insert(root, tally)?;
        Ok(())
    }

    /// One more action of the root ended.
    pub fn list_end(
        &mut self,
        alloc: Global,
        root: u64,
        action: Uid,
        outcome: End,
    ) -> Result<(), AllocError>
        ensures ended { OnOk result (self.new ≡ changed (with_end action outcome) root self.old) }
        ensures kept { OnErr result (self.new ≡ self.old) }
    {
        if let Some(tally) = self.roots.get_mut(&root) {
            return tally.list_end(action, outcome);
        }
        let mut tally = Tally::new(alloc);
        tally.list_end(action, outcome)?;
        self.roots.insert(root, tally)?;
        Ok(())
    }

    /// An action of the root uses the object.
    pub fn use_object(&mut self, alloc: Global, root: u64, x: u16) -> Result<(), AllocError>
        ensures used { OnOk result (self.new ≡ changed (with_object x) root self.old) }
        ensures kept { OnErr result (self.new ≡ self.old) }
    {
        if let Some(tally) = self.roots.get_mut(&root) {
            return tally.use_object(x);
        }
        let mut tally = Tally::new(alloc);
        tally.use_object(x)?;
        self.roots.insert(root, tally)?;
        Ok(())
    }
}
