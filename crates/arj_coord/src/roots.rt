// What each root did, heard and keeps, changed where it stands.
ghost use Rattle.std.specs.Prelude.{◌≡◌, IfOk, IfSome, OnOk, option_copied};
ghost use Rattle.arj_base.specs.Path.{uids_of};
ghost use Rattle.arj_bind.specs.Heard.{came_by, came_of, heard_in, hears};
ghost use Rattle.arj_commit.specs.Fits.{IsNode, PlanFits};
ghost use Rattle.arj_msg.specs.Sendable.{IsSendable};
ghost use Rattle.arj_protocol.specs.Asking.{known_at_start, renewed, root_lost, root_moved};
ghost use Rattle.arj_protocol.specs.Call.{answered, given_up};
ghost use Rattle.arj_protocol.specs.Coord.{keeping_of, kept_of, on_root, root_at, with_join, with_keeping, with_said, with_went};
ghost use Rattle.arj_protocol.specs.Ending.{root_after};
ghost use Rattle.arj_protocol.specs.Order.{at_number};
ghost use Rattle.arj_protocol.specs.Tree.{root_of};
ghost use Rattle.arj_root.specs.Noted.{of_tree};

use crate::Coord;
use arj_base::{Binding, ObjectState, Path, Uid};
use arj_bind::{CallStep, CallSteps, Known};
use arj_commit::Plan;
use arj_msg::Message;
use arj_root::Root;
use std::alloc::AllocError;

// Lets go of a step: so that a function with several ends lets it go in one way.
fn discard(_step: CallStep) {}

impl Coord {
    /// What a root has, where something was noted of it.
    pub fn root(&self, root: Uid) -> Option<&Root>
        ensures { option_copied result ≡ at_number root.num self.now.roots }
    {
        self.roots.get(&root.num)
    }

    // The first of what a root has.
    fn add_root(&mut self, root: Uid, has: Root) -> Result<(), AllocError>
        ensures { OnOk result (self.new ≡ on_root root (λ _. has) self.old) }
    {
        self.roots.insert(root.num, has)?;
        Ok(())
    }

    /// Notes the root of this path: that it is known, where nothing was noted of it before.
    pub fn note_root(&mut self, path: &Path) -> Result<(), AllocError>
        ensures { OnOk result (self.new ≡ on_root (root_of path.now) (λ r. r) self.old) }
    {
        let root = path.root();
        if let Some(_has) = self.roots.get_mut(&root.num) {
            return Ok(());
        }
        self.add_root(root, Root::new(self.alloc))
    }

    /// Notes that a node was sent a request of the action with this path, an Invoke or another one, once.
    pub fn note_sent(&mut self, path: &Path, node: u8, invoke: bool) -> Result<(), AllocError>
        ensures { OnOk result (self.new ≡ on_root (root_of path.now) (with_went (record { path = uids_of path.now; node = node; invoke = invoke })) self.old) }
    {
        let root = path.root();
        if let Some(has) = self.roots.get_mut(&root.num) {
            return has.note_sent(path, node, invoke);
        }
        let mut has = Root::new(self.alloc);
        has.note_sent(path, node, invoke)?;
        self.add_root(root, has)
    }

    /// Notes that a call of the action with this path was answered, once for the action and the object.
    pub fn note_call(&mut self, path: &Path, x: u16) -> Result<(), AllocError>
        ensures { OnOk result (self.new ≡ on_root (root_of path.now) (with_said (record { path = uids_of path.now; x = x })) self.old) }
    {
        let root = path.root();
        if let Some(has) = self.roots.get_mut(&root.num) {
            return has.note_call(path, x);
        }
        let mut has = Root::new(self.alloc);
        has.note_call(path, x)?;
        self.add_root(root, has)
    }

    /// Notes that an include of the action with this path was answered, once for the action, the object and the store, which
    /// is a node: 1 to 16. The state that was loaded is the object's.
    pub fn note_include(
        &mut self,
        path: &Path,
        x: u16,
        store: u8,
        loaded: ObjectState,
    ) -> Result<(), AllocError>
        requires node { IsNode store }
        requires own { loaded.uid.num ≡ x }
        ensures { OnOk result (self.new ≡ on_root (root_of path.now) (with_join (record { path = uids_of path.now; x = x; store = store; loaded = loaded })) self.old) }
    {
        let root = path.root();
        if let Some(has) = self.roots.get_mut(&root.num) {
            return has.note_include(path, x, store, loaded);
        }
        let mut has = Root::new(self.alloc);
        has.note_include(path, x, store, loaded)?;
        self.add_root(root, has)
    }

    /// Where a call on the object starts: a root that is free of a spoiled binding gives it up, and avoids it from then on.
    pub fn renew(&mut self, root: Uid, x: u16, free: bool) -> Result<(), AllocError>
        ensures { OnOk result (self.new ≡ on_root root (λ r. with_keeping x (renewed free (keeping_of x r) ((keeping_of x r).kept)) r) self.old) }
    {
        if let Some(has) = self.roots.get_mut(&root.num) {
            return has.renew(x, free);
        }
        let mut has = Root::new(self.alloc);
        has.renew(x, free)?;
        self.add_root(root, has)
    }

    /// What a call of this top of the root may start with in place of a Bind, in other memory.
    pub fn known_at_start(&self, root: Uid, top: Uid, x: u16) -> Result<Option<Known>, AllocError>
        ensures { IfOk result (λ known. known ≡ known_at_start top x (root_at root self.now) (of_tree self.now.tree) (kept_of x (root_at root self.now))) }
    {
        match self.root(root) {
            Some(has) => has.known_at_start(top, x, &self.tree),
            None => Ok(None),
        }
    }

    /// The binding of the object that calls of the root avoid, 0.0 if none.
    pub fn avoid(&self, root: Uid, x: u16) -> Binding
        ensures { result ≡ (keeping_of x (root_at root self.now)).avoid }
    {
        match self.root(root) {
            Some(has) => has.avoid(x),
            None => Binding { inc: 0, count: 0 },
        }
    }

    /// A step of a call or of an include is answered; `free` tells whether the root is free of what it keeps of the object.
    /// What the answer granted is noted, and what is kept changes.
    pub fn answered(
        &mut self,
        steps: CallSteps,
        from: u8,
        message: Box<Message>,
        free: bool,
    ) -> Result<CallStep, AllocError>
        requires { IsSendable message.value }
        ensures came { IfOk result (λ step. came_of step ≡ (hears free (keeping_of steps.x (root_at (root_of steps.path) self.old)) steps (heard_in from message.value steps)).came) }
        ensures part { OnOk result (IfSome (heard_in from message.value steps) (λ r. self.new ≡ on_root (root_of steps.path) (root_moved steps r (answered free ((keeping_of steps.x (root_at (root_of steps.path) self.old)).kept) steps.goal steps.at r)) self.old)) }
    {
        let root = steps.path().root();
        if let Some(has) = self.roots.get_mut(&root.num) {
            return has.answered(steps, from, message, free);
        }
        let mut has = Root::new(self.alloc);
        let step = has.answered(steps, from, message, free)?;
        match self.add_root(root, has) {
            Ok(()) => Ok(step),
            Err(fault) => {
                discard(step);
                Err(fault)
            }
        }
    }

    /// A step of a call or of an include is given up: a call that is lost where the server may have the copy spoils the
    /// binding that is kept.
    pub fn gave_up(&mut self, steps: CallSteps) -> Result<CallStep, AllocError>
        ensures came { IfOk result (λ step. came_of step ≡ came_by steps (given_up steps.at)) }
        ensures part { OnOk result (self.new ≡ on_root (root_of steps.path) (root_lost steps (given_up steps.at)) self.old) }
    {
        let root = steps.path().root();
        if let Some(has) = self.roots.get_mut(&root.num) {
            return has.gave_up(steps);
        }
        let mut has = Root::new(self.alloc);
        let step = has.gave_up(steps)?;
        match self.add_root(root, has) {
            Ok(()) => Ok(step),
            Err(fault) => {
                discard(step);
                Err(fault)
            }
        }
    }

    // What a root keeps after a decided commit.
    pub(crate) fn note_decided(&mut self, plan: &Plan) -> Result<(), AllocError>
        requires { PlanFits plan.now }
        ensures { OnOk result (self.new ≡ on_root (root_of plan.now.path) (root_after plan.now) self.old) }
    {
        let root = plan.path.root();
        if let Some(has) = self.roots.get_mut(&root.num) {
            return has.decided(plan);
        }
        let mut has = Root::new(self.alloc);
        has.decided(plan)?;
        self.add_root(root, has)
    }
}
