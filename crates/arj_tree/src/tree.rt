// The tree of actions.
ghost use Rattle.std.specs.Prelude.{◌≡◌, ◌⊎◌, ◌<◌, [], ◌∷◌, ◌++◌, if◌then◌else◌, slice_get, MatchOption, true, false, length, IfOk, IfErr, IfSome, OnOk, OnErr, Err, None, Some, option_copied, option_map, is_some, not};
ghost use Rattle.std.specs.List.{list_any};
ghost use Rattle.arj_base.specs.declared.mode.End.TheVariants as ending;
ghost use Rattle.arj_protocol.specs.Ask.{actor};
ghost use Rattle.arj_protocol.specs.Step.{is_below_16, is_misplaced};
ghost use Rattle.arj_protocol.specs.Tree.{Branch, new_tree, listed_end, branch_of, is_own, is_open, is_doomed, is_committed, is_aborted, ended_so, next_uid, path_below, path_in, begun, ended_at, doomed_at, ends_of, open_below, has_open_child, is_too_deep, has_many_actions, has_many_objects, behind, is_merged, is_spent};
ghost use Rattle.arj_start.specs.Limits.{most_on_path};
ghost use Rattle.arj_protocol.specs.Words.{uids_of, tops_of, path_of};
ghost use Rattle.arj_protocol.specs.Words.kind as kinds;
ghost use Rattle.arj_tree.specs.Faults.{begin_fault, use_fault, end_fault, begin_refusal, use_refusal, end_refusal};
ghost use Rattle.arj_tree.specs.Open.{first_in};
ghost use Rattle.arj_tree.specs.Stands.{AreNamed, IsPlace, with_branch, parent_in, path_of_branch, object_used};
ghost use Rattle.arj_tree.specs.declared.fault.TreeFault.TheVariants as fault;
ghost use Rattle.arj_start.specs.Kinds.{is_serial};

use crate::TreeFault;
use crate::action::Action;
use crate::opened::{Opened, below, has_child, latest};
use crate::tally::Tallies;
use arj_base::{End, Ends, MOST_ACTIONS, Path, Uid, Uids};
use arj_journal::Kind;
use std::alloc::{AllocError, Global};
use std::marker::Model;

/// The actions that a node has begun in one incarnation. Contracts see it as the protocol's tree.
#[derive(Drop)]
pub struct Tree {
    alloc: Global,
    node: u8,
    inc: u32,
    // All actions: an action's number is its place, from 1.
    actions: Vec<Action>,
    // The paths of the open ones by number, in the same order.
    opened: Opened,
    tallies: Tallies,
    // The ends of a root of which nothing was noted: none.
    no_ends: Ends,
}

impl Model for Tree {
    ghost use Rattle.std.specs.Prelude.{◌≡◌, []};
    ghost use Rattle.arj_protocol.specs.Tree.{Tree};
    ghost use Rattle.arj_tree.specs.Stands.{Stands};

    ghost Value = { Tree };

    ghost view = { λ t. record { node = t.node; inc = t.inc; branches = t.actions.items; families = t.tallies } };

    ghost invariant = { λ t. Stands t.node t.inc t.actions.items t.opened.entries t.tallies × (t.no_ends ≡ []) };
}

impl Tree {
    /// No actions, at a node in this incarnation. It allocates nothing.
    pub fn new(alloc: Global, node: u8, inc: u32) -> Tree
        ensures { result ≡ new_tree node inc }
    {
        Tree {
            alloc,
            node,
            inc,
            actions: Vec::new(alloc),
            opened: Opened::new(alloc),
            tallies: Tallies::new(alloc),
            no_ends: Ends::new(alloc),
        }
    }

    /// The Uid of the action with a number, if this incarnation began it.
    pub fn uid(&self, number: u64) -> Uid
        ensures { result ≡ record { node = self.now.node; inc = self.now.inc; num = number } }
    {
        Uid {
            node: u32::from(self.node),
            inc: self.inc,
            num: number,
        }
    }

    /// Whether this node began it in this incarnation, if anyone did.
    pub fn is_own(&self, action: Uid) -> bool
        ensures { result ≡ is_own action self.now }
    {
        action.node == u32::from(self.node) && action.inc == self.inc
    }

    // Where an action stands among all, None where this incarnation didn't begin it.
    fn place(&self, action: Uid) -> Option<usize>
        ensures { MatchOption result (branch_of action self.now ≡ None) (λ place. IsPlace action place self.now) }
    {
        if !self.is_own(action) || action.num == 0 {
            return None;
        }
        let place = (action.num - 1) as usize;
        if place < self.actions.len() {
            Some(place)
        } else {
            None
        }
    }

    /// Each action's path ends with its Uid, whose number is its place. It does nothing when it runs.
    pub fn are_named(&self)
        ensures { AreNamed self.now.node self.now.inc 1 self.now.branches }
    {
        let _node = self.node;
    }

    /// An action. None exactly where this incarnation didn't begin it.
    pub fn action(&self, action: Uid) -> Option<&Action>
        ensures found { option_copied result ≡ branch_of action self.now }
        ensures named { IfSome result (λ found. actor found.now.path ≡ action) }
        ensures single { IfSome result (λ found. is_serial found.now.kind ≡ true → length (uids_of found.now.path) ≡ 1) }
    {
        let place = self.place(action)?;
        Some(&self.actions[place])
    }

    /// The path of an action, which ends with it. None exactly where this incarnation didn't begin it.
    pub fn path(&self, action: Uid) -> Option<Path>
        ensures path { result ≡ path_of_branch (branch_of action self.now) }
        ensures named { IfSome result (λ path. actor path ≡ action) }
    {
        let found = self.action(action)?;
        Some(*found.path())
    }

    /// The kind of an action. None exactly where this incarnation didn't begin it.
    pub fn kind(&self, action: Uid) -> Option<Kind>
        ensures { result ≡ option_map (λ b. b.kind) (branch_of action self.now) }
    {
        let found = self.action(action)?;
        Some(found.kind())
    }

    /// Whether this incarnation began the action and it hasn't ended.
    pub fn is_open(&self, action: Uid) -> bool
        ensures { result ≡ is_open action self.now }
    {
        match self.action(action) {
            Some(found) => !found.is_ended(),
            None => false,
        }
    }

    /// Whether the action can only abort.
    pub fn is_doomed(&self, action: Uid) -> bool
        ensures { result ≡ is_doomed action self.now }
    {
        match self.action(action) {
            Some(found) => found.is_doomed(),
            None => false,
        }
    }

    /// Whether the action was committed.
    pub fn is_committed(&self, action: Uid) -> bool
        ensures { result ≡ is_committed action self.now }
    {
        match self.action(action) {
            Some(found) => found.ended_so(End::Commit),
            None => false,
        }
    }

    /// Whether the action was aborted.
    pub fn is_aborted(&self, action: Uid) -> bool
        ensures { result ≡ is_aborted action self.now }
    {
        match self.action(action) {
            Some(found) => found.ended_so(End::Abort),
            None => false,
        }
    }

    /// Whether all actions behind this one on a path were committed, so that what the last one did is this one's.
    pub fn is_merged(&self, action: Uid, path: &[Uid]) -> bool
        ensures { result ≡ is_merged action path.now self.now }
    {
        self.are_committed(behind(path, action))
    }

    // Whether all of these actions were committed.
    fn are_committed(&self, path: &[Uid]) -> bool
        ensures { result ≡ not (list_any (λ w. not (is_committed w self.now)) path.now) }
    {
        for uid in path {
            if !self.is_committed(*uid) {
                return false;
            }
        }
        true
    }

    /// Whether an action of a path was aborted, so that nothing of the last one counts.
    pub fn is_spent(&self, path: &[Uid]) -> bool
        ensures { result ≡ is_spent path.now self.now }
    {
        for uid in path {
            if self.is_aborted(*uid) {
                return true;
            }
        }
        false
    }

    /// The ends of a root's nested actions and constituents, in the order in which they were decided.
    pub fn ends(&self, root: Uid) -> &Ends
        ensures { result.now ≡ ends_of root self.now }
    {
        match self.tallies.of(root.num) {
            Some(tally) => tally.ends(),
            None => &self.no_ends,
        }
    }

    /// The open descendants of an action, the one begun last first: the order in which its abort ends them. It walks
    /// what is open.
    pub fn open_below(&self, action: Uid) -> Result<Uids, AllocError>
        ensures { IfOk result (λ uids. uids ≡ open_below action self.now) }
    {
        below(self.alloc, &self.opened, action)
    }

    /// The open descendant of an action that was begun last. None exactly where it has none. It walks what is open.
    pub fn latest_below(&self, action: Uid) -> Option<Uid>
        ensures { result ≡ first_in (open_below action self.now) }
    {
        latest(&self.opened, action)
    }

    /// Whether an action that was begun in this one is open. It walks what is open.
    pub fn has_open_child(&self, action: Uid) -> bool
        ensures { result ≡ has_open_child action self.now }
    {
        has_child(&self.opened, action)
    }

    // The Uid of the next action.
    fn next(&self) -> Uid
        ensures { result ≡ next_uid self.now }
    {
        Uid {
            node: u32::from(self.node),
            inc: self.inc,
            num: self.actions.len() as u64 + 1,
        }
    }

    // The first refusal of a beginning in an action.
    fn begin_fault(&self, kind: Kind, parent: &Action) -> Option<TreeFault>
        ensures { result ≡ begin_fault kind parent.now self.now }
    {
        let below = kind != Kind::Independent;
        if parent.is_ended() {
            Some(TreeFault::Ended)
        } else if is_misplaced(kind, parent.is_serial()) {
            Some(TreeFault::WrongParent)
        } else if parent.is_doomed() {
            Some(TreeFault::Doomed)
        } else if below && parent.is_too_deep() {
            Some(TreeFault::TooDeep)
        } else if below && self.has_many_actions(parent) {
            Some(TreeFault::TooMany)
        } else {
            None
        }
    }

    // The first refusal of a call or an include.
    fn use_fault(&self, x: u16, action: &Action) -> Option<TreeFault>
        ensures { result ≡ use_fault x action.now self.now }
    {
        if action.is_ended() {
            Some(TreeFault::Ended)
        } else if action.is_serial() {
            Some(TreeFault::NoCalls)
        } else if action.is_doomed() {
            Some(TreeFault::Doomed)
        } else if self.has_many_objects(action, x) {
            Some(TreeFault::TooMany)
        } else {
            None
        }
    }

    // The first refusal of an end.
    fn end_fault(&self, outcome: End, uid: Uid, action: &Action) -> Option<TreeFault>
        ensures { result ≡ end_fault outcome uid action.now self.now }
    {
        if action.is_ended() {
            Some(TreeFault::Ended)
        } else if outcome == End::Commit && self.has_open_child(uid) {
            Some(TreeFault::OpenChildren)
        } else {
            None
        }
    }

    /// Whether the action's root has had as many actions as it may have.
    pub fn has_many_actions(&self, action: &Action) -> bool
        ensures { result ≡ has_many_actions action.now self.now }
    {
        self.tallies.actions(action.path().root().num) >= u64::from(MOST_ACTIONS)
    }

    /// Whether the object would be one too many for the action's root.
    pub fn has_many_objects(&self, action: &Action, x: u16) -> bool
        ensures { result ≡ has_many_objects action.now x self.now }
    {
        self.tallies.has_many_objects(action.path().root().num, x)
    }

    // The path of an action that begins.
    fn path_below(&self, kind: Kind, parent: Option<Uid>, uid: Uid) -> Path
        requires free { begin_refusal kind parent self.now ≡ None }
        ensures path { result ≡ path_below kind (parent_in parent self.now) uid }
        ensures last { actor result ≡ uid }
        ensures single { is_serial kind ≡ true → length (uids_of result) ≡ 1 }
    {
        let Some(above) = parent else {
            return alone(uid);
        };
        match self.action(above) {
            Some(found) => path_in(kind, found.path(), uid),
            None => alone(uid),
        }
    }

    // The first refusal of a beginning.
    fn begin_refusal(&self, kind: Kind, parent: Option<Uid>) -> Option<TreeFault>
        ensures { result ≡ begin_refusal kind parent self.now }
    {
        let above = parent?;
        match self.action(above) {
            Some(found) => self.begin_fault(kind, found),
            None => Some(TreeFault::Ended),
        }
    }

    /// Begins an action, in its parent where one is given: refused where the parent has ended, is a serializing action
    /// and the new one independent, is none and the new one its constituent, is doomed, or has too many Uids or actions. The
    /// answer is its Uid.
    pub fn begin(&mut self, kind: Kind, parent: Option<Uid>) -> Result<Uid, TreeFault>
        ensures begun { OnOk result (self.new ≡ begun kind (parent_in parent self.old) self.old) }
        ensures uid { IfOk result (λ uid. uid ≡ next_uid self.old) }
        ensures refused { IfSome (begin_refusal kind parent self.old) (λ e. result ≡ Err e) }
        ensures faults { IfErr result (λ e. (begin_refusal kind parent self.old ≡ Some e) ⊎ (e ≡ fault.Memory)) }
        ensures kept { OnErr result (self.new ≡ self.old) }
    {
        if let Some(fault) = self.begin_refusal(kind, parent) {
            return Err(fault);
        }
        let uid = self.next();
        let path = self.path_below(kind, parent, uid);
        self.actions.reserve(1)?;
        self.opened.reserve(1)?;
        self.tallies.count(self.alloc, path.root().num)?;
        self.actions.push_reserved(Action::new(path, kind));
        self.opened.insert(uid.num, path).unwrap();
        Ok(uid)
    }

    /// Ends an action; the end of a nested action or of a constituent is listed at its root. Refused where it has ended,
    /// and a commit where an action that was begun in it is open.
    pub fn end(&mut self, action: Uid, outcome: End) -> Result<(), TreeFault>
        ensures ended { OnOk result (self.new ≡ ended_at action outcome self.old) }
        ensures refused { IfSome (end_refusal action outcome self.old) (λ e. result ≡ Err e) }
        ensures faults { IfErr result (λ e. (end_refusal action outcome self.old ≡ Some e) ⊎ (e ≡ fault.Memory)) }
        ensures kept { OnErr result (self.new ≡ self.old) }
    {
        let Some(place) = self.place(action) else {
            return Err(TreeFault::Ended);
        };
        if let Some(fault) = self.end_fault(outcome, action, &self.actions[place]) {
            return Err(fault);
        }
        self.close(action, outcome)?;
        Ok(())
    }

    /// Ends an action, whatever is open in it; the end of a nested action or of a constituent is listed at its root. It
    /// changes nothing where this incarnation didn't begin it. Err is want of memory.
    pub fn close(&mut self, action: Uid, outcome: End) -> Result<(), AllocError>
        ensures ended { OnOk result (self.new ≡ ended_at action outcome self.old) }
        ensures kept { OnErr result (self.new ≡ self.old) }
    {
        let Some(place) = self.place(action) else {
            return Ok(());
        };
        let path = *self.actions[place].path();
        self.list_end(&path, action, outcome)?;
        self.note_end(place, outcome);
        Ok(())
    }

    // Lists the end of a nested action or of a constituent at its root.
    fn list_end(&mut self, path: &Path, action: Uid, outcome: End) -> Result<(), AllocError>
        ensures listed { OnOk result (self.new ≡ listed_end action outcome path.now self.old) }
        ensures branches { self.new.branches ≡ self.old.branches }
        ensures kept { OnErr result (self.new ≡ self.old) }
    {
        if path.len() <= 1 {
            return Ok(());
        }
        self.tallies
            .list_end(self.alloc, path.root().num, action, outcome)?;
        Ok(())
    }

    // Notes how the action at this place ended. It takes no memory.
    fn note_end(&mut self, place: usize, outcome: End)
        requires { place < length self.old.branches }
        ensures { (b : Branch) → slice_get self.old.branches place ≡ Some b → self.new ≡ with_branch place (record b { ended = Some outcome }) self.old }
    {
        self.actions[place].end(outcome);
        let number = place as u64 + 1;
        self.opened.shift_remove(&number);
    }

    /// The action can only abort from now on. It changes nothing where this incarnation didn't begin it.
    pub fn doom(&mut self, action: Uid)
        ensures { self.new ≡ doomed_at action self.old }
    {
        if let Some(place) = self.place(action) {
            self.actions[place].doom();
        }
    }

    /// The action's root uses an object. Refused where the action has ended, is a serializing action or doomed, and where
    /// the object would be one too many.
    pub fn use_object(&mut self, action: Uid, x: u16) -> Result<(), TreeFault>
        ensures used { OnOk result (self.new ≡ object_used action x self.old) }
        ensures refused { IfSome (use_refusal action x self.old) (λ e. result ≡ Err e) }
        ensures faults { IfErr result (λ e. (use_refusal action x self.old ≡ Some e) ⊎ (e ≡ fault.Memory)) }
        ensures kept { OnErr result (self.new ≡ self.old) }
    {
        let Some(found) = self.action(action) else {
            return Err(TreeFault::Ended);
        };
        if let Some(fault) = self.use_fault(x, found) {
            return Err(fault);
        }
        let root = found.path().root().num;
        self.tallies.use_object(self.alloc, root, x)?;
        Ok(())
    }
}

// The Uids of a path behind one of them.
fn behind(path: &[Uid], action: Uid) -> &[Uid]
    ensures { result.now ≡ behind action path.now }
{
    for i in 0..path.len() {
        if path[i] == action {
            return &path[i + 1..];
        }
    }
    &path[path.len()..]
}

// The path of an action that begins in the last one of this path.
fn path_in(kind: Kind, path: &Path, uid: Uid) -> Path
    requires room { is_below_16 kind ≡ true → length (uids_of path.now) < most_on_path }
    requires single { kind ≡ kinds.Constituent → length (uids_of path.now) ≡ 1 }
    ensures path { result ≡ path_in kind path.now uid }
    ensures last { actor result ≡ uid }
    ensures single { is_serial kind ≡ true → length (uids_of result) ≡ 1 }
{
    match kind {
        Kind::Nested => longer(path, uid, false),
        Kind::Constituent => longer(path, uid, true),
        _ => alone(uid),
    }
}

// The path with one more Uid.
#[tactic(auto, using(arj_msg::proofs::PathLaws::path_again, crate::proofs::Named::last_pushed))]
fn longer(path: &Path, uid: Uid, top: bool) -> Path
    requires room { length (uids_of path.now) < most_on_path }
    requires single { top ≡ true → length (uids_of path.now) ≡ 1 }
    ensures path { result ≡ path_of (uids_of path.now ++ uid ∷ []) (if top then 2 else tops_of path.now) }
    ensures last { actor result ≡ uid }
{
    match path.push(uid, top) {
        Some(longer) => longer,
        None => Path::new(uid),
    }
}

// The path of an action below no other.
#[tactic(auto, using(arj_msg::proofs::PathLaws::path_again))]
fn alone(uid: Uid) -> Path
    ensures path { result ≡ path_of (uid ∷ []) 1 }
    ensures last { actor result ≡ uid }
    ensures single { length (uids_of result) ≡ 1 }
{
    Path::new(uid)
}

/// Whether such an action can't begin in a parent that is or isn't a serializing action.
pub fn is_misplaced(kind: Kind, serial: bool) -> bool
    ensures { (b : Branch) → serial ≡ is_serial b.kind → result ≡ is_misplaced kind b }
{
    match kind {
        Kind::Independent => serial,
        Kind::Constituent => !serial,
        Kind::Top | Kind::Nested | Kind::Serial => false,
    }
}
