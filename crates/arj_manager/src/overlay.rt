// What open actions wrote on one object, the deepest first.
ghost use Rattle.std.specs.Prelude.{◌≡◌, ◌≢◌, ◌<◌, ◌∷◌, false, true, filter, not, vec_len, option_map, option_copied, None, Some};
ghost use Rattle.std.specs.List.{list_any};
ghost use Rattle.std.specs.Vec.{vec_capacity};
ghost use Rattle.arj_base.specs.Path.{uids_of, tops_of};
ghost use Rattle.arj_base.specs.Rows.{is_on};
ghost use Rattle.arj_protocol.specs.Copy.{Over, is_of, is_top_over, over_of, written, folded, undone};
ghost use Rattle.arj_manager.specs.Stack.{shown, stack_of, is_deepest};

use arj_base::{Path, Uid};
use arj_class::Value;

/// What an open action wrote.
#[derive(Drop)]
pub struct Overlay {
    pub path: Path,
    pub value: Value,
}

impl Overlay {
    /// Whether it is this action's.
    pub fn is_of(&self, action: Uid) -> bool
        ensures { result ≡ is_of action (shown self.now) }
    {
        self.path.last() == action
    }

    /// Whether it is of a top.
    pub fn is_top(&self) -> bool
        ensures { result ≡ is_top_over (shown self.now) }
    {
        self.path.len() <= self.path.tops()
    }
}

/// Whether the deepest overlay is this action's.
pub fn is_deepest(stack: &[Overlay], action: Uid) -> bool
    ensures { result ≡ is_deepest action (stack_of stack.now) }
{
    match stack.first() {
        Some(overlay) => overlay.is_of(action),
        None => false,
    }
}

/// Whether the action's overlay is a top's. None where it has none.
pub fn is_top_of(stack: &[Overlay], action: Uid) -> Option<bool>
    ensures { result ≡ option_map is_top_over (over_of action (stack_of stack.now)) }
{
    for overlay in stack {
        if overlay.is_of(action) {
            return Some(overlay.is_top());
        }
    }
    None
}

/// Whether an action is on the path of one of these overlays.
pub fn is_on_any(stack: &[Overlay], action: Uid) -> bool
    ensures { result ≡ list_any (λ e. is_on e.holder action) (stack_of stack.now) }
{
    for overlay in stack {
        if overlay.path.is_ancestor_or_self(action) {
            return true;
        }
    }
    false
}

/// Puts what an action wrote over what is there. It takes no memory.
pub fn write(stack: &mut Vec<Overlay>, path: &Path, value: Value)
    requires { vec_len stack.old < vec_capacity stack.old }
    ensures { stack_of stack.new.items ≡ written (uids_of path.now) (tops_of path.now) value (stack_of stack.old.items) }
{
    if is_deepest(stack.as_slice(), path.last()) {
        stack[0].value = value;
        return;
    }
    stack.push_reserved(Overlay { path: *path, value });
    stack.rotate_right(1);
}

/// Hands the deepest overlay to its action's parent, if it is this action's.
pub fn fold(stack: &mut Vec<Overlay>, action: Uid)
    requires { option_map is_top_over (over_of action (stack_of stack.old.items)) ≡ Some false }
    ensures { stack_of stack.new.items ≡ folded action (stack_of stack.old.items) }
{
    if !is_deepest(stack.as_slice(), action) {
        return;
    }
    let Some(parent) = stack[0].path.parent_path() else {
        return;
    };
    if is_deepest(&stack[1..], parent.last()) {
        let overlay = stack.remove(0);
        stack[0].value = overlay.value;
    } else {
        stack[0].path = parent;
    }
}

/// Takes an action's overlays out, and gives the value of the first of them.
pub fn take_own(stack: &mut Vec<Overlay>, action: Uid) -> Option<Value>
    ensures value { result ≡ option_map (λ e. e.value) (over_of action (stack_of stack.old.items)) }
    ensures rest { stack_of stack.new.items ≡ filter (λ o. not (is_of action o)) (stack_of stack.old.items) }
{
    let mut value = None;
    let mut i = 0;
    while i < stack.len() {
        if stack[i].is_of(action) {
            let overlay = stack.remove(i);
            value = value.or(Some(overlay.value));
        } else {
            i += 1;
        }
    }
    value
}

/// Takes out the overlays of an action and of its descendants.
pub fn undo(stack: &mut Vec<Overlay>, action: Uid)
    ensures { stack_of stack.new.items ≡ undone action (stack_of stack.old.items) }
{
    let mut i = 0;
    while i < stack.len() {
        if stack[i].path.is_ancestor_or_self(action) {
            stack.remove(i);
        } else {
            i += 1;
        }
    }
}

/// The action's overlay, None where it has none.
pub fn own(stack: &[Overlay], action: Uid) -> Option<&Overlay>
    ensures { option_map shown (option_copied result) ≡ over_of action (stack_of stack.now) }
{
    for overlay in stack {
        if overlay.is_of(action) {
            return Some(overlay);
        }
    }
    None
}
