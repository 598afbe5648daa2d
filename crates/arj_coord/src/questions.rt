// What is asked of the actions that wait.
ghost use Rattle.std.specs.Prelude.{◌≡◌, ◌&&◌, ◌||◌, ◌==◌, not, filter, option_copied};
ghost use Rattle.std.specs.List.{list_any, list_all};
ghost use Rattle.arj_coord.specs.Waiting.{waiting, passes_at, any_passes, is_other_constituent, is_other};
ghost use Rattle.arj_protocol.specs.Ask.{actor};
ghost use Rattle.arj_protocol.specs.Coord.{Said, is_free, others_call, calls_on, of_root, said_of};
ghost use Rattle.arj_protocol.specs.Step.{waits, waits_for_nothing, is_waiting_now, is_committing_now, is_sibling};
ghost use Rattle.arj_protocol.specs.Tree.{at_place, is_open_below, is_spent, root_of};

use crate::Coord;
use crate::now::{calls_on, is_committing};
use arj_base::Uid;
use arj_tree::{Action, Kind};

// Whether the action is open and below another one.
fn is_open_below(action: &Action, above: Uid) -> bool
    ensures { result ≡ is_open_below above action.now }
{
    let path = action.path();
    path.is_ancestor_or_self(above) && path.last() != above && !action.is_ended()
}

// Whether it is another action of the root.
fn is_other(action: &Action, root: Uid, but: Uid) -> bool
    ensures { result ≡ is_other root but action.now }
{
    let path = action.path();
    path.root() == root && path.last() != but
}

// Whether it is another constituent of the root.
fn is_other_constituent(action: &Action, root: Uid, but: Uid) -> bool
    ensures { result ≡ is_other_constituent root but action.now }
{
    let path = action.path();
    path.root() == root && (action.kind() == Kind::Constituent && path.last() != but)
}

impl Coord {
    // The action of a number.
    #[tactic(auto, using(crate::proofs::Works::numbered_is))]
    pub(crate) fn numbered(&self, number: u64) -> Option<&Action>
        ensures { option_copied result ≡ at_place number self.now.tree.branches }
    {
        self.tree.action(self.tree.uid(number))
    }

    // Whether the action of a number waits, and is open and below another one.
    fn is_waiting_below(&self, number: u64, above: Uid) -> bool
        ensures { result ≡ passes_at (is_open_below above) is_waiting_now self.now number }
    {
        let Some(action) = self.numbered(number) else {
            return false;
        };
        match self.doings.at(number) {
            Some(doing) => is_open_below(action, above) && doing.is_waiting(),
            None => false,
        }
    }

    // Whether the action of a number is another constituent of the root, whose commit waits.
    fn is_sibling_at(&self, number: u64, root: Uid, but: Uid) -> bool
        ensures { result ≡ passes_at (is_other_constituent root but) is_committing_now self.now number }
    {
        let Some(action) = self.numbered(number) else {
            return false;
        };
        match self.doings.at(number) {
            Some(doing) => {
                is_other_constituent(action, root, but) && is_committing(doing.waits_for())
            }
            None => false,
        }
    }

    // Whether the action of a number is another one of the root, and waits in a call on the object.
    fn calls_at(&self, number: u64, root: Uid, but: Uid, x: u16) -> bool
        ensures { result ≡ passes_at (is_other root but) (calls_on x) self.now number }
    {
        let Some(action) = self.numbered(number) else {
            return false;
        };
        match self.doings.at(number) {
            Some(doing) => is_other(action, root, but) && calls_on(doing.waits_for(), x),
            None => false,
        }
    }

    // Whether an action waits.
    pub(crate) fn waits(&self, action: Uid) -> bool
        ensures { result ≡ waits self.now action }
    {
        match self.doing(action) {
            Some(doing) => doing.is_waiting(),
            None => false,
        }
    }

    // Whether one of these actions waits.
    pub(crate) fn one_waits(&self, actions: &[Uid]) -> bool
        ensures { result ≡ list_any (waits self.now) actions.now }
    {
        for action in actions {
            if self.waits(*action) {
                return true;
            }
        }
        false
    }

    // Whether one of the actions that wait is open and below this one.
    fn any_waits_below(&self, action: Uid) -> bool
        ensures { result ≡ any_passes (is_open_below action) is_waiting_now self.now (waiting 1 self.now.doings) }
    {
        for number in self.doings.waiting() {
            if self.is_waiting_below(*number, action) {
                return true;
            }
        }
        false
    }

    // Whether one of the actions that wait is another constituent of the root, at its commit.
    fn any_sibling(&self, root: Uid, but: Uid) -> bool
        ensures { result ≡ any_passes (is_other_constituent root but) is_committing_now self.now (waiting 1 self.now.doings) }
    {
        for number in self.doings.waiting() {
            if self.is_sibling_at(*number, root, but) {
                return true;
            }
        }
        false
    }

    // Whether one of the actions that wait is another one of the root, in a call on the object.
    fn any_calls(&self, root: Uid, but: Uid, x: u16) -> bool
        ensures { result ≡ any_passes (is_other root but) (calls_on x) self.now (waiting 1 self.now.doings) }
    {
        for number in self.doings.waiting() {
            if self.calls_at(*number, root, but, x) {
                return true;
            }
        }
        false
    }

    // Whether an open descendant waits. It walks what waits.
    pub(crate) fn one_waits_below(&self, action: Uid) -> bool
        ensures { result ≡ list_any (λ w. is_open_below action w && waits self.now (actor w.path)) self.now.tree.branches }
    {
        self.tree.are_named();
        self.any_waits_below(action)
    }

    // Whether the commit of another constituent of the action's root waits. It walks what waits.
    pub(crate) fn sibling_commits(&self, action: &Action) -> bool
        ensures { result ≡ list_any (is_sibling action.now self.now) (filter (of_root (root_of action.now.path)) self.now.tree.branches) }
    {
        self.tree.are_named();
        self.any_sibling(action.path().root(), action.path().last())
    }

    // Whether another action of the root waits in a call on the object. It walks what waits.
    fn others_call(&self, root: Uid, but: Uid, x: u16) -> bool
        ensures { result ≡ others_call root but x self.now }
    {
        self.tree.are_named();
        self.any_calls(root, but, x)
    }

    /// Whether the root is free of the binding that it keeps of an object: no other action of it than `but` waits in a
    /// call on the object, and each call on it that was answered has an aborted action on its path. It looks at what
    /// waits, and at the root's calls on the object.
    pub fn is_free(&self, root: Uid, but: Uid, x: u16) -> bool
        ensures { result ≡ is_free root but x self.now }
    {
        !self.others_call(root, but, x) && self.are_spent(root, x)
    }

    // Whether each call on the object that was answered has an aborted action on its path.
    fn are_spent(&self, root: Uid, x: u16) -> bool
        ensures { result ≡ list_all (λ (s : Said). not (s.x == x) || is_spent s.path self.now.tree) (said_of root self.now) }
    {
        match self.root(root) {
            Some(has) => has.are_spent(x, &self.tree),
            None => true,
        }
    }

    /// Whether no action waits.
    pub fn waits_for_nothing(&self) -> bool
        ensures { result ≡ waits_for_nothing self.now }
    {
        self.doings.wait_for_nothing()
    }
}
