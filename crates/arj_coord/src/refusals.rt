// Which inputs about actions are refused.
ghost use Rattle.std.specs.Prelude.{◌≡◌, ◌||◌, ℕ, option_copied};
ghost use Rattle.arj_class.specs.Table.{has_op};
ghost use Rattle.arj_coord.specs.Refusals.{reasons_of_call, reasons_of_include};
ghost use Rattle.arj_protocol.specs.Step.{first_reason, begin_reasons, commit_reasons, abort_reasons, giveup_reasons, waits_above, waits_below, sibling_waits, class_at, lacks_op, branch_named, refusal_up};
ghost use Rattle.arj_protocol.specs.Step as input;
ghost use Rattle.arj_protocol.specs.Words.{Header, Label};

use crate::Coord;
use arj_base::Class;
use arj_class::{Op, Value};
use arj_journal::{Kind, Label};
use arj_tree::{Action, is_misplaced};

// The numbers of the refusals.
const ENDED: u8 = 6;

const WAITS: u8 = 7;

const WAITS_FOR_NOTHING: u8 = 8;

const OPEN_CHILDREN: u8 = 9;

const WRONG_PARENT: u8 = 10;

const NO_CALLS: u8 = 11;

const DOOMED: u8 = 12;

const NO_OBJECT: u8 = 13;

const NO_OPERATION: u8 = 14;

const TOO_DEEP: u8 = 15;

const TOO_MANY: u8 = 16;

// Whether objects of the class have the operation.
fn has_op(class: Class, op: &Op) -> bool
    ensures { result ≡ has_op class op.now }
{
    Value::mode(class, op).is_some()
}

// Whether there is an object of a class that lacks the operation.
fn lacks_op(class: Option<Class>, op: &Op) -> bool
    ensures { result ≡ lacks_op op.now class }
{
    match class {
        Some(class) => !has_op(class, op),
        None => false,
    }
}

impl Coord {
    // The action with a label.
    fn labelled(&self, label: Label) -> Option<&Action>
        ensures { option_copied result ≡ branch_named label self.now }
    {
        let number = self.labels.get(&label)?;
        self.numbered(*number)
    }

    // Whether the action or one above it waits.
    fn waits_above(&self, action: &Action) -> bool
        ensures { result ≡ waits_above action.now self.now }
    {
        self.one_waits(action.path().as_slice())
    }

    // Whether the action, one above it or an open one below it waits.
    fn waits_around(&self, action: &Action) -> bool
        ensures { result ≡ (waits_above action.now self.now || waits_below action.now self.now) }
    {
        self.waits_above(action) || self.one_waits_below(action.path().last())
    }

    // Whether the action is a constituent, and the commit of another one of its root waits.
    fn sibling_waits(&self, action: &Action) -> bool
        ensures { result ≡ sibling_waits action.now self.now }
    {
        action.kind() == Kind::Constituent && self.sibling_commits(action)
    }

    // Why an action of this kind can't begin in this one.
    fn begin_reason(&self, kind: Kind, action: &Action) -> Option<u8>
        ensures { result ≡ first_reason (begin_reasons kind action.now self.now) }
    {
        let below = kind != Kind::Independent;
        if action.is_ended() {
            Some(ENDED)
        } else if self.waits_above(action) {
            Some(WAITS)
        } else if is_misplaced(kind, action.is_serial()) {
            Some(WRONG_PARENT)
        } else if action.is_doomed() {
            Some(DOOMED)
        } else if below && action.is_too_deep() {
            Some(TOO_DEEP)
        } else if below && self.tree.has_many_actions(action) {
            Some(TOO_MANY)
        } else {
            None
        }
    }

    // Why the action can't call an object of this class, if there is one.
    fn call_reason(&self, action: &Action, x: u16, op: &Op, class: Option<Class>) -> Option<u8>
        ensures { result ≡ first_reason (reasons_of_call class x op.now action.now self.now) }
    {
        if action.is_ended() {
            Some(ENDED)
        } else if self.waits_around(action) {
            Some(WAITS)
        } else if action.is_serial() {
            Some(NO_CALLS)
        } else if action.is_doomed() {
            Some(DOOMED)
        } else if class.is_none() {
            Some(NO_OBJECT)
        } else if lacks_op(class, op) {
            Some(NO_OPERATION)
        } else if self.tree.has_many_objects(action, x) {
            Some(TOO_MANY)
        } else {
            None
        }
    }

    // Why the action can't include a store of an object of this class, if there is one.
    fn include_reason(&self, action: &Action, x: u16, class: Option<Class>) -> Option<u8>
        ensures { result ≡ first_reason (reasons_of_include class x action.now self.now) }
    {
        if action.is_ended() {
            Some(ENDED)
        } else if self.waits_around(action) {
            Some(WAITS)
        } else if action.is_serial() {
            Some(NO_CALLS)
        } else if action.is_doomed() {
            Some(DOOMED)
        } else if class.is_none() {
            Some(NO_OBJECT)
        } else if self.tree.has_many_objects(action, x) {
            Some(TOO_MANY)
        } else {
            None
        }
    }

    // Why the action can't commit.
    fn commit_reason(&self, action: &Action) -> Option<u8>
        ensures { result ≡ first_reason (commit_reasons action.now self.now) }
    {
        if action.is_ended() {
            Some(ENDED)
        } else if self.waits_around(action) || self.sibling_waits(action) {
            Some(WAITS)
        } else if self.tree.has_open_child(action.path().last()) {
            Some(OPEN_CHILDREN)
        } else {
            None
        }
    }

    // Why the action can't be aborted.
    fn abort_reason(&self, action: &Action) -> Option<u8>
        ensures { result ≡ first_reason (abort_reasons action.now self.now) }
    {
        if action.is_ended() {
            Some(ENDED)
        } else if self.waits_around(action) {
            Some(WAITS)
        } else {
            None
        }
    }

    // Why what the action waits for can't be given up.
    fn give_up_reason(&self, action: &Action) -> Option<u8>
        ensures { result ≡ first_reason (giveup_reasons action.now self.now) }
    {
        if action.is_ended() {
            Some(ENDED)
        } else if !self.waits(action.path().last()) {
            Some(WAITS_FOR_NOTHING)
        } else {
            None
        }
    }

    /// The number of the refusal of a beginning of this kind, in its parent where one is given. None: it isn't refused.
    pub fn begin_refusal(&self, kind: Kind, parent: Option<Label>) -> Option<u8>
        ensures { (hd : Header) (label : Label) → result ≡ refusal_up hd (input.Begin label kind parent) self.now }
    {
        let parent = parent?;
        match self.labelled(parent) {
            Some(action) => self.begin_reason(kind, action),
            None => Some(ENDED),
        }
    }

    /// The number of the refusal of a call. `class` is the object's, None where the header has no such object. None: it
    /// isn't refused.
    pub fn call_refusal(&self, label: Label, x: u16, op: &Op, class: Option<Class>) -> Option<u8>
        ensures { (hd : Header) → class_at x hd ≡ class → result ≡ refusal_up hd (input.Call label x op.now) self.now }
    {
        match self.labelled(label) {
            Some(action) => self.call_reason(action, x, op, class),
            None => Some(ENDED),
        }
    }

    /// The number of the refusal of an include. `class` is the object's, None where the header has no such object. None:
    /// it isn't refused.
    pub fn include_refusal(&self, label: Label, x: u16, class: Option<Class>) -> Option<u8>
        ensures { (hd : Header) (store : ℕ) → class_at x hd ≡ class → result ≡ refusal_up hd (input.Include label x store) self.now }
    {
        match self.labelled(label) {
            Some(action) => self.include_reason(action, x, class),
            None => Some(ENDED),
        }
    }

    /// The number of the refusal of a commit. None: it isn't refused.
    pub fn commit_refusal(&self, label: Label) -> Option<u8>
        ensures { (hd : Header) → result ≡ refusal_up hd (input.Commit label) self.now }
    {
        match self.labelled(label) {
            Some(action) => self.commit_reason(action),
            None => Some(ENDED),
        }
    }

    /// The number of the refusal of an abort. None: it isn't refused.
    pub fn abort_refusal(&self, label: Label) -> Option<u8>
        ensures { (hd : Header) → result ≡ refusal_up hd (input.Abort label) self.now }
    {
        match self.labelled(label) {
            Some(action) => self.abort_reason(action),
            None => Some(ENDED),
        }
    }

    /// The number of the refusal of a giveup. None: it isn't refused.
    pub fn give_up_refusal(&self, label: Label) -> Option<u8>
        ensures { (hd : Header) → result ≡ refusal_up hd (input.GiveUp label) self.now }
    {
        match self.labelled(label) {
            Some(action) => self.give_up_reason(action),
            None => Some(ENDED),
        }
    }
}
