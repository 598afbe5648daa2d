// The coordinator.
ghost use Rattle.std.specs.Prelude.{◌≡◌, ◌⊎◌, ◌++◌, ◌∷◌, [], ℕ, Option, Some, None, map, option_map, option_copied, true, unwrap_or, IfOk, IfErr, IfSome, OnOk};
ghost use Rattle.std.specs.List.Sorted.{IsStrictlySortedBy};
ghost use Rattle.std.specs.Map.{keys_of};
ghost use Rattle.arj_base.specs.Order.{uid_order};
ghost use Rattle.arj_coord.specs.Fits.{NowFits};
ghost use Rattle.arj_coord.specs.Shown.{now_of};
ghost use Rattle.arj_coord.specs.Waiting.{waiting, idle_doing, now_in};
ghost use Rattle.arj_intent.specs.Records.{entry_of};
ghost use Rattle.arj_protocol.specs.Asking.{begin_action, last_req};
ghost use Rattle.arj_protocol.specs.Coord as coord;
ghost use Rattle.arj_protocol.specs.Coord.{new_coord, number_of, uid_at, doing_of, on_doing};
ghost use Rattle.arj_protocol.specs.Order.{at_number, has};
ghost use Rattle.arj_protocol.specs.Step.{branch_named, branch_numbered};
ghost use Rattle.arj_protocol.specs.Tree.{ended_at, next_uid, doomed_at, at_place};
ghost use Rattle.arj_protocol.specs.Words.{Label};
ghost use Rattle.arj_tree.specs.Faults.{begin_refusal, use_refusal};
ghost use Rattle.arj_tree.specs.Stands.{parent_in, object_used};
ghost use Rattle.arj_tree.specs.declared.fault.TreeFault.TheVariants as fault;

use crate::doing::Doing;
use crate::doings::Doings;
use crate::now::discard;
use crate::{Now, Records};
use arj_base::{End, NodeList, Numbers, Uid};
use arj_intent::Intent;
use arj_journal::{Kind, Label};
use arj_root::Root;
use arj_tree::{Tree, TreeFault};
use std::alloc::{AllocError, Global};
use std::collections::BTreeMap;
use std::marker::Model;

/// The coordinator of a node in one incarnation. Contracts see the protocol's.
#[derive(Drop)]
pub struct Coord {
    pub(crate) alloc: Global,
    pub(crate) tree: Tree,
    pub(crate) labels: BTreeMap<Label, u64>,
    pub(crate) doings: Doings,
    pub(crate) roots: BTreeMap<u64, Root>,
    pub(crate) telling: Records,
}

impl Model for Coord {
    ghost use Rattle.arj_coord.specs.Fits.{AllFit};
    ghost use Rattle.arj_protocol.specs.Coord.{Coord};

    ghost Value = { Coord };

    ghost view = { λ c. record { tree = c.tree; labels = c.labels.entries; doings = c.doings; roots = c.roots.entries; telling = c.telling } };

    // What each action waits for is its own.
    ghost invariant = { λ c. AllFit c.tree.node c.tree.inc 1 c.doings };
}

impl Coord {
    /// No actions, at a node in this incarnation. It allocates nothing.
    pub fn new(alloc: Global, node: u8, inc: u32) -> Coord
        ensures { result ≡ new_coord node inc }
    {
        Coord {
            alloc,
            tree: Tree::new(alloc, node, inc),
            labels: BTreeMap::new(alloc),
            doings: Doings::new(alloc),
            roots: BTreeMap::new(alloc),
            telling: Records::new(alloc),
        }
    }

    /// No actions, after a restart: what the records on the disk list is told of the commits until it acknowledges.
    /// `found` are these records, in order of their tops.
    pub fn restarted(
        alloc: Global,
        node: u8,
        inc: u32,
        found: &[Intent],
    ) -> Result<Coord, AllocError>
        requires { IsStrictlySortedBy uid_order (keys_of (map entry_of found.now)) }
        ensures { IfOk result (λ c. c ≡ record (new_coord node inc) { telling = map entry_of found.now }) }
    {
        let mut coord = Coord::new(alloc, node, inc);
        coord.telling = Records::of_found(alloc, found)?;
        Ok(coord)
    }

    /// Its actions.
    pub fn tree(&self) -> &Tree
        ensures { result.now ≡ self.now.tree }
    {
        &self.tree
    }

    /// The tolds that aren't acknowledged: of each commit the nodes that are awaited.
    pub fn telling(&self) -> &Records
        ensures { result.now ≡ self.now.telling }
    {
        &self.telling
    }

    // ---- labels

    /// The action with a label, if this incarnation began one.
    #[tactic(auto, using(crate::proofs::Works::named_is))]
    pub fn named(&self, label: Label) -> Option<Uid>
        ensures uid { result ≡ option_map (λ k. uid_at k self.now) (number_of label self.now) }
        ensures branch { parent_in result self.now.tree ≡ branch_named label self.now }
    {
        let number = self.labels.get(&label)?;
        Some(self.tree.uid(*number))
    }

    // ---- actions at work

    // An action at work.
    pub(crate) fn doing(&self, action: Uid) -> Option<&Doing>
        ensures { option_copied result ≡ doing_of action self.now }
    {
        if self.tree.is_own(action) {
            self.doings.at(action.num)
        } else {
            None
        }
    }

    /// The label of an action.
    pub fn label(&self, action: Uid) -> Option<Label>
        ensures { result ≡ option_map (λ d. d.label) (doing_of action self.now) }
    {
        Some(self.doing(action)?.label())
    }

    /// The number of an action's last request, 0 before the first.
    pub fn last_request(&self, action: Uid) -> u32
        ensures { result ≡ last_req (doing_of action self.now) }
    {
        match self.doing(action) {
            Some(doing) => doing.req(),
            None => 0,
        }
    }

    /// What an action waits for.
    pub fn waits_for(&self, action: Uid) -> Option<&Now>
        ensures { option_map now_of (option_copied result) ≡ option_map (λ d. d.now) (doing_of action self.now) }
    {
        Some(self.doing(action)?.waits_for())
    }

    /// What an action waits for is its own: the request is of its path and its last number. It does nothing when it
    /// runs.
    pub fn fits(&self, action: Uid)
        ensures { IfSome (doing_of action self.now) (λ d. NowFits action d.req d.now) }
    {
        let _tree = &self.tree;
    }

    /// Takes out what an action waits for: it waits for nothing.
    pub fn take(&mut self, action: Uid) -> Now
        ensures taken { now_of result ≡ now_in (doing_of action self.old) }
        ensures idle { self.new ≡ on_doing action idle_doing self.old }
    {
        if self.tree.is_own(action) {
            return self.doings.take(action.num);
        }
        Now::Idle
    }

    /// An action waits for this from now on, its last request having this number.
    pub fn wait(&mut self, action: Uid, req: u32, now: Now) -> Result<(), AllocError>
        requires { NowFits action req (now_of now) }
        ensures { OnOk result (self.new ≡ on_doing action (λ (d : coord.Doing). record d { req = req; now = now_of now }) self.old) }
    {
        if !self.tree.is_own(action) {
            discard(now);
            return Ok(());
        }
        self.doings.wait(action.num, req, now)?;
        Ok(())
    }

    // These nodes took part in the commit of an action.
    pub(crate) fn take_part(&mut self, action: Uid, nodes: NodeList)
        ensures { self.new ≡ on_doing action (λ (d : coord.Doing). record d { took = nodes }) self.old }
    {
        if self.tree.is_own(action) {
            self.doings.take_part(action.num, nodes);
        }
    }

    /// The numbers of the actions that wait, in order of beginning.
    pub fn waiting(&self) -> Result<Numbers, AllocError>
        ensures { IfOk result (λ numbers. numbers ≡ waiting 1 self.now.doings) }
    {
        self.doings.numbers(self.alloc)
    }

    // ---- the tree

    /// Begins an action, in its parent where one is given, with this label: refused as `arj_tree` says. The answer is
    /// its Uid.
    pub fn begin(&mut self, label: Label, kind: Kind, parent: Option<Uid>) -> Result<Uid, TreeFault>
        ensures part { OnOk result ((above : Option Label) → self.new ≡ (begin_action label kind above (parent_in parent self.old.tree) self.old).part) }
        ensures uid { IfOk result (λ uid. uid ≡ next_uid self.old.tree) }
        ensures refused { IfSome (begin_refusal kind parent self.old.tree) (λ e. result ≡ Err e) }
        ensures faults { IfErr result (λ e. (begin_refusal kind parent self.old.tree ≡ Some e) ⊎ (e ≡ fault.Memory)) }
    {
        let uid = self.tree.begin(kind, parent)?;
        self.doings.push(label)?;
        self.labels.insert(label, uid.num)?;
        Ok(uid)
    }

    /// An action's root uses an object: refused as `arj_tree` says.
    pub fn use_object(&mut self, action: Uid, x: u16) -> Result<(), TreeFault>
        ensures used { OnOk result (self.new ≡ record self.old { tree = object_used action x self.old.tree }) }
        ensures refused { IfSome (use_refusal action x self.old.tree) (λ e. result ≡ Err e) }
        ensures faults { IfErr result (λ e. (use_refusal action x self.old.tree ≡ Some e) ⊎ (e ≡ fault.Memory)) }
    {
        self.tree.use_object(action, x)
    }

    // An action ends in the tree.
    pub(crate) fn close(&mut self, action: Uid, outcome: End) -> Result<(), AllocError>
        ensures { OnOk result (self.new ≡ record self.old { tree = ended_at action outcome self.old.tree }) }
    {
        self.tree.close(action, outcome)
    }

    /// An action can only abort from now on.
    pub fn doom(&mut self, action: Uid)
        ensures { self.new ≡ record self.old { tree = doomed_at action self.old.tree } }
    {
        self.tree.doom(action);
    }
}
