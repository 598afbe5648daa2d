// One root of actions.
ghost use Rattle.std.specs.Prelude.{◌≡◌, ◌==◌, ◌||◌, not, map, unwrap_or, IfOk, IfSome, OnOk, option_copied};
ghost use Rattle.std.specs.List.{AllByRecursion, list_all};
ghost use Rattle.arj_base.specs.Path.{uids_of};
ghost use Rattle.arj_bind.specs.Heard.{came_of, heard_in, hears, gives_up};
ghost use Rattle.arj_commit.specs.Fits.{IsNode, UsedFits, PlanFits};
ghost use Rattle.arj_msg.specs.Sendable.{IsSendable};
ghost use Rattle.arj_protocol.specs.Asking.{notes_grant, renewed, root_moved, root_lost, known_at_start, was_named};
ghost use Rattle.arj_protocol.specs.Call.{answered, given_up};
ghost use Rattle.arj_protocol.specs.Coord as coord;
ghost use Rattle.arj_protocol.specs.Ending.{root_after};
ghost use Rattle.arj_protocol.specs.Order.{at_number};
ghost use Rattle.arj_protocol.specs.Tree.{is_spent};
ghost use Rattle.arj_root.specs.Kept.{HasNumber, KnownFits, KeptFits};
ghost use Rattle.arj_root.specs.Noted.{of_tree};

use crate::joins::later;
use crate::keepings::Keepings;
use crate::states::LastStates;
use crate::{Calls, Grants, Joins, Sends, least_grant, objects_in};
use arj_base::{Binding, NodeList, ObjectState, Path, States, Uid};
use arj_bind::{CallStep, CallSteps, Grant, Keeping, Known, copy_state};
use arj_commit::{Plan, Used, UsedList};
use arj_msg::{Marks, Message};
use arj_tree::Tree;
use std::alloc::{AllocError, Global};
use std::marker::Model;

/// What a root of actions did, heard and keeps. Contracts see the protocol's `Root`.
#[derive(Drop)]
pub struct Root {
    alloc: Global,
    sends: Sends,
    calls: Calls,
    joins: Joins,
    grants: Grants,
    keeping: Keepings,
    states: LastStates,
}

impl Model for Root {
    ghost use Rattle.arj_protocol.specs.Coord as coord;

    ghost Value = { coord.Root };

    ghost view = { λ r. record { went = r.sends; said = r.calls; joined = r.joins; grants = r.grants; keeping = r.keeping; states = r.states } };
}

impl Root {
    /// A root of which nothing is noted. It allocates nothing.
    pub fn new(alloc: Global) -> Root
        ensures { result ≡ coord.no_root }
    {
        Root {
            alloc,
            sends: Sends::new(alloc),
            calls: Calls::new(alloc),
            joins: Joins::new(alloc),
            grants: Grants::new(alloc),
            keeping: Keepings::new(alloc),
            states: LastStates::new(alloc),
        }
    }

    /// Notes that a node was sent a request of an action, an Invoke or another one, once.
    pub fn note_sent(&mut self, path: &Path, node: u8, invoke: bool) -> Result<(), AllocError>
        ensures { OnOk result (self.new ≡ coord.with_went (record { path = uids_of path.now; node = node; invoke = invoke }) self.old) }
    {
        if invoke {
            self.sends.note_invoke(path, node)
        } else {
            self.sends.note_other(path, node)
        }
    }

    /// Notes that a call was answered, once for an action and an object.
    pub fn note_call(&mut self, path: &Path, x: u16) -> Result<(), AllocError>
        ensures { OnOk result (self.new ≡ coord.with_said (record { path = uids_of path.now; x = x }) self.old) }
    {
        self.calls.note(path, x)
    }

    /// Notes that an include was answered, once for an action, an object and a store, which is a node: 1 to 16. The state
    /// that was loaded is the object's. It walks the includes.
    pub fn note_include(
        &mut self,
        path: &Path,
        x: u16,
        store: u8,
        loaded: ObjectState,
    ) -> Result<(), AllocError>
        requires node { IsNode store }
        requires own { loaded.uid.num ≡ x }
        ensures { OnOk result (self.new ≡ coord.with_join (record { path = uids_of path.now; x = x; store = store; loaded = loaded }) self.old) }
    {
        self.joins.note(path, x, store, loaded)
    }

    /// Notes what a top was granted.
    pub fn note_grant(&mut self, grant: Grant) -> Result<(), AllocError>
        ensures { OnOk result (self.new ≡ coord.with_grant grant self.old) }
    {
        self.grants.note(grant)
    }

    /// What is kept of an object, where something was noted of it.
    pub fn keeping(&self, x: u16) -> Option<&Keeping>
        ensures { option_copied result ≡ at_number x self.now.keeping }
    {
        self.keeping.at(x)
    }

    /// The binding of the object that its calls avoid, 0.0 if none.
    pub fn avoid(&self, x: u16) -> Binding
        ensures { result ≡ (coord.keeping_of x self.now).avoid }
    {
        match self.keeping.at(x) {
            Some(keeping) => keeping.avoid(),
            None => Binding { inc: 0, count: 0 },
        }
    }

    /// Where a call on the object starts: a root that is free of a spoiled binding gives it up, and avoids it from then on.
    pub fn renew(&mut self, x: u16, free: bool) -> Result<(), AllocError>
        ensures { OnOk result (self.new ≡ coord.with_keeping x (renewed free (coord.keeping_of x self.old) ((coord.keeping_of x self.old).kept)) self.old) }
    {
        self.keeping.renew(x, free)
    }

    // Notes what an answer granted, if anything.
    fn note_granted(&mut self, grant: Option<Grant>) -> Result<(), AllocError>
        ensures { OnOk result (self.new ≡ notes_grant grant self.old) }
    {
        match grant {
            Some(grant) => self.grants.note(grant),
            None => Ok(()),
        }
    }

    /// A step of a call or of an include is answered; `free` tells whether the root is free of what it keeps of the object.
    /// What the answer granted is noted, and what is kept changes.
    pub fn answered(
        &mut self,
        steps: CallSteps,
        from: u8,
        message: Box<Message>,
        free: bool,
    ) -> Result<CallStep, AllocError>
        requires { IsSendable message.value }
        ensures came { IfOk result (λ step. came_of step ≡ (hears free (coord.keeping_of steps.x self.old) steps (heard_in from message.value steps)).came) }
        ensures root { OnOk result (IfSome (heard_in from message.value steps) (λ r. self.new ≡ root_moved steps r (answered free ((coord.keeping_of steps.x self.old).kept) steps.goal steps.at r) self.old)) }
    {
        self.note_granted(steps.granted(&message))?;
        let step = self.keeping.answered(steps, from, message, free)?;
        Ok(step)
    }

    /// A step of a call or of an include is given up: a call that is lost where the server may have the copy spoils the
    /// binding that is kept.
    pub fn gave_up(&mut self, steps: CallSteps) -> Result<CallStep, AllocError>
        ensures came { IfOk result (λ step. came_of step ≡ (gives_up (coord.keeping_of steps.x self.old) steps).came) }
        ensures root { OnOk result (self.new ≡ root_lost steps (given_up steps.at) self.old) }
    {
        self.keeping.gave_up(steps)
    }

    /// What a call of this top may start with in place of a Bind, in other memory.
    pub fn known_at_start(&self, top: Uid, x: u16, tree: &Tree) -> Result<Option<Known>, AllocError>
        ensures { IfOk result (λ known. known ≡ known_at_start top x self.now (of_tree tree.now) (coord.kept_of x self.now)) }
    {
        let Some(keeping) = self.keeping.at(x) else {
            return Ok(None);
        };
        let Some(binding) = keeping.binding() else {
            return Ok(None);
        };
        let named = self.grants.was_named(top, x, binding) || self.calls.retains(x, tree);
        match keeping.known_at_start(named) {
            Some(known) => Ok(Some(known.copy()?)),
            None => Ok(None),
        }
    }

    /// Whether the serializing action retains a call on the object. It looks at the calls on the object alone.
    pub fn retains(&self, x: u16, tree: &Tree) -> bool
        ensures { result ≡ coord.retains x self.now (of_tree tree.now) }
    {
        self.calls.retains(x, tree)
    }

    /// Whether each call on the object has an aborted action on its path. It looks at the calls on the object alone.
    pub fn are_spent(&self, x: u16, tree: &Tree) -> bool
        ensures { result ≡ list_all (λ (s : coord.Said). not (s.x == x) || is_spent s.path tree.now) self.now.said }
    {
        self.calls.are_spent(x, tree)
    }

    /// Whether the top's last answer to a call on the object named the binding. It looks at the grants on the object alone.
    pub fn was_named(&self, top: Uid, x: u16, binding: Binding) -> bool
        ensures { result ≡ was_named top x binding self.now }
    {
        self.grants.was_named(top, x, binding)
    }

    /// The nodes that were sent a message of the action or of one below it, increasing. It walks what was sent.
    pub fn nodes_sent(&self, action: Uid) -> Result<NodeList, AllocError>
        ensures { IfOk result (λ nodes. nodes ≡ coord.nodes_sent action self.now) }
    {
        self.sends.nodes_sent(action)
    }

    /// The servers that were sent an Invoke of the action or of one that was merged into it, increasing. It walks what was
    /// sent.
    pub fn servers_told(&self, action: Uid, tree: &Tree) -> Result<NodeList, AllocError>
        ensures { IfOk result (λ nodes. nodes ≡ coord.servers_told action self.now (of_tree tree.now)) }
    {
        self.sends.servers_told(action, tree)
    }

    // What is kept of an object, where it was called.
    fn known_for(&self, called: bool, x: u16) -> Option<&Known>
        ensures known { unwrap_or (option_copied result) coord.nothing_known ≡ coord.known_for called x self.now }
        ensures fits { KeptFits (option_copied result) }
    {
        if !called {
            return None;
        }
        match self.keeping.at(x) {
            Some(keeping) => keeping.kept(),
            None => None,
        }
    }

    // Of the state that the includes of the object loaded and the one that was prepared last the later one.
    fn loaded_for(&self, x: u16, top: Uid, tree: &Tree) -> Result<Option<ObjectState>, AllocError>
        ensures loaded { IfOk result (λ s. s ≡ coord.loaded_for x top self.now (of_tree tree.now)) }
        ensures own { IfOk result (λ s. IfSome s (HasNumber x)) }
    {
        match later_kept(self.joins.latest(x, top, tree), self.states.at(x)) {
            Some(state) => Ok(Some(copy_state(state)?)),
            None => Ok(None),
        }
    }

    // What a commit of the top uses of an object.
    fn used(&self, tree: &Tree, top: Uid, x: u16) -> Result<Used, AllocError>
        ensures used { IfOk result (λ u. u ≡ coord.used_of top self.now (of_tree tree.now) x) }
        ensures fits { IfOk result UsedFits }
    {
        let called = self.calls.is_called(x, top, tree);
        let grant = least_grant(&self.grants, &self.calls, &self.joins, tree, top, x);
        let joins = self.joins.stores(self.alloc, x, top, tree)?;
        let loaded = self.loaded_for(x, top, tree)?;
        let known = known_again(self.alloc, self.known_for(called, x))?;
        Ok(Used {
            x,
            called,
            binding: known.binding,
            server: known.server,
            inc: known.inc.unwrap_or(0),
            grant,
            stores: known.stores,
            joins,
            loaded,
        })
    }

    // What a commit of the top uses, in order of the objects.
    fn used_all(&self, tree: &Tree, top: Uid) -> Result<UsedList, AllocError>
        ensures used { IfOk result (λ us. us ≡ map (coord.used_of top self.now (of_tree tree.now)) (coord.objects_in top self.now (of_tree tree.now))) }
        ensures fits { IfOk result (AllByRecursion UsedFits) }
    {
        let objects = objects_in(self.alloc, &self.calls, &self.joins, tree, top)?;
        let mut all = UsedList::new(self.alloc);
        for x in objects.as_slice() {
            all.push(self.used(tree, top, *x)?)?;
        }
        Ok(all)
    }

    /// The plan of a commit of a top with this path, whose last request has this number. It walks what was sent, the calls,
    /// the includes and the grants.
    pub fn plan(&self, tree: &Tree, path: &Path, req: u32) -> Result<Plan, AllocError>
        ensures plan { IfOk result (λ plan. plan ≡ coord.plan_for path.now req self.now (of_tree tree.now)) }
        ensures fits { IfOk result PlanFits }
    {
        let top = path.last();
        Ok(Plan {
            path: *path,
            req,
            ends: tree.ends(path.root()).copy()?,
            used: self.used_all(tree, top)?,
            sent: self.sends.nodes_sent(top)?,
            changed: States::new(self.alloc),
            prepared: NodeList::new(self.alloc),
            excluded: Marks::new(self.alloc),
            confirmed: false,
        })
    }

    /// A plan of one of its tops is decided: the lists of stores change by its exclusions and inclusions, and the states
    /// that it prepared are the last ones.
    pub fn decided(&mut self, plan: &Plan) -> Result<(), AllocError>
        requires { PlanFits plan.now }
        ensures { OnOk result (self.new ≡ root_after plan.now self.old) }
    {
        self.keeping.change_all(plan)?;
        self.states.put_all(plan.changed.as_slice())
    }
}

// Of a state that was loaded, if one was, and one that was prepared the later one.
fn later_kept<'a>(
    loaded: Option<&'a ObjectState>,
    kept: Option<&'a ObjectState>,
) -> Option<&'a ObjectState>
    ensures { option_copied result ≡ coord.or_kept_state (option_copied loaded.entry) (option_copied kept.entry) }
{
    let state = loaded?;
    match kept {
        Some(other) => later(Some(state), other),
        None => Some(state),
    }
}

// What is known, in other memory; nothing where nothing is.
fn known_again(alloc: Global, known: Option<&Known>) -> Result<Known, AllocError>
    ensures { IfOk result (λ again. again ≡ unwrap_or (option_copied known.entry) coord.nothing_known) }
{
    match known {
        Some(known) => known.copy(),
        None => Ok(Known::write(0, NodeList::new(alloc))),
    }
}
