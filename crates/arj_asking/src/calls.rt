// Calls of objects and includes of stores.
ghost use Rattle.std.specs.Prelude.{◌≡◌, ◌≤◌, ◌<◌, ◌⊎◌, ◌++◌, IfErr, IfOk, IfSome, None, OnOk, Err};
ghost use Rattle.arj_asking.specs.Calls.{EndFits, HasNext, IsCaller, StepFits, doomed_if, noted_end, renewed_at};
ghost use Rattle.arj_asking.specs.Rooms.{HasRoom};
ghost use Rattle.arj_bind.specs.Heard.{came_by, came_of};
ghost use Rattle.arj_bind.specs.Shown.{end_of, goal_of};
ghost use Rattle.arj_commit.specs.Fits.{IsNode};
ghost use Rattle.arj_coord.specs.Fits.{IncludesNode};
ghost use Rattle.arj_coord.specs.Waiting.{idle_doing};
ghost use Rattle.arj_protocol.specs.Ask.{actor};
ghost use Rattle.arj_protocol.specs.Asking as asking;
ghost use Rattle.arj_protocol.specs.Asking.{call_steps, doomed_by, ends_call, goes_on, next_req};
ghost use Rattle.arj_protocol.specs.Call as steps;
ghost use Rattle.arj_protocol.specs.Coord as coordinator;
ghost use Rattle.arj_protocol.specs.Coord.{on_doing, on_root, root_at, with_keeping};
ghost use Rattle.arj_protocol.specs.Tree.{branch_of, root_of};
ghost use Rattle.arj_tree.specs.Faults.{use_refusal};
ghost use Rattle.arj_tree.specs.declared.fault.TreeFault.TheVariants as fault;

use crate::lines::{say_end, store_of};
use crate::requests::wait_now;
use arj_base::{Binding, Path, Uid};
use arj_bind::{CallEnd, CallStep, CallSteps, Goal};
use arj_class::Op;
use arj_coord::{Coord, Effects, Now};
use arj_tree::TreeFault;
use std::alloc::{AllocError, Global};
use std::mem;

// ---- a call starts

// The number of the next request of an action.
fn next_request(coord: &Coord, action: Uid) -> u32
    requires { HasRoom action coord.now }
    ensures { result ≡ next_req action coord.now }
{
    coord.last_request(action) + 1
}

// Where a call starts, what its root keeps of the object is renewed; `free` tells whether the root is free of it.
fn start_call(
    alloc: Global,
    coord: &mut Coord,
    path: &Path,
    x: u16,
    op: Op,
    req: u32,
    free: bool,
) -> Result<CallSteps, AllocError>
    ensures part { OnOk result (coord.new ≡ on_root (root_of path.now) (with_keeping x (renewed_at free path.now x coord.old)) coord.old) }
    ensures steps { IfOk result (λ s. s ≡ call_steps path.now x op req (root_at (root_of path.now) coord.old) coord.old (renewed_at free path.now x coord.old)) }
{
    let root = path.root();
    coord.renew(root, x, free)?;
    let known = coord.known_at_start(root, path.top_path().last(), x)?;
    let avoid = coord.avoid(root, x);
    CallSteps::start(alloc, path, x, Goal::Call(op), known, avoid, req)
}

/// An action calls an object: refused as `arj_tree` says.
pub fn call(
    alloc: Global,
    coord: &mut Coord,
    action: Uid,
    x: u16,
    op: Op,
    outs: &mut Effects,
) -> Result<(), TreeFault>
    requires { HasRoom action coord.old }
    ensures part { OnOk result (IfSome (branch_of action coord.old.tree) (λ b. coord.new ≡ (asking.call b.path x op coord.old).part)) }
    ensures outs { OnOk result (IfSome (branch_of action coord.old.tree) (λ b. outs.new ≡ outs.old ++ (asking.call b.path x op coord.old).outs)) }
    ensures refused { IfSome (use_refusal action x coord.old.tree) (λ e. result ≡ Err e) }
    ensures faults { IfErr result (λ e. (use_refusal action x coord.old.tree ≡ Some e) ⊎ (e ≡ fault.Memory)) }
{
    let Some(path) = coord.tree().path(action) else {
        return Err(TreeFault::Ended);
    };
    let free = coord.is_free(path.root(), action, x);
    let req = next_request(coord, action);
    coord.use_object(action, x)?;
    let steps = start_call(alloc, coord, &path, x, op, req, free)?;
    wait_now(alloc, coord, action, req, Now::Calling(steps), outs)?;
    Ok(())
}

/// An action includes a store of an object: refused as `arj_tree` says. The store is a node.
pub fn include(
    alloc: Global,
    coord: &mut Coord,
    action: Uid,
    x: u16,
    store: u8,
    outs: &mut Effects,
) -> Result<(), TreeFault>
    requires room { HasRoom action coord.old }
    requires node { IsNode store }
    ensures part { OnOk result (IfSome (branch_of action coord.old.tree) (λ b. coord.new ≡ (asking.include b.path x store coord.old).part)) }
    ensures outs { OnOk result (IfSome (branch_of action coord.old.tree) (λ b. outs.new ≡ outs.old ++ (asking.include b.path x store coord.old).outs)) }
    ensures refused { IfSome (use_refusal action x coord.old.tree) (λ e. result ≡ Err e) }
    ensures faults { IfErr result (λ e. (use_refusal action x coord.old.tree ≡ Some e) ⊎ (e ≡ fault.Memory)) }
{
    let Some(path) = coord.tree().path(action) else {
        return Err(TreeFault::Ended);
    };
    let req = next_request(coord, action);
    coord.use_object(action, x)?;
    let none = Binding { inc: 0, count: 0 };
    let steps = CallSteps::start(alloc, &path, x, Goal::Include(store), None, none, req)?;
    wait_now(alloc, coord, action, req, Now::Calling(steps), outs)?;
    Ok(())
}

// ---- a call goes on or ends

/// Who calls which object, and what for: what is left of the steps of a call once they are answered or given up.
#[derive(Drop)]
pub struct Caller {
    pub path: Path,
    pub x: u16,
    pub goal: Goal,
}

/// Who calls by these steps, whose goal is this one.
pub fn caller_of(steps: &CallSteps, goal: Goal) -> Caller
    ensures { goal_of goal ≡ steps.now.goal → IsCaller result steps.now }
{
    Caller {
        path: *steps.path(),
        x: steps.object(),
        goal,
    }
}

// The action waits in this step from now on, and it is asked.
fn go_on(
    alloc: Global,
    coord: &mut Coord,
    steps: CallSteps,
    outs: &mut Effects,
) -> Result<(), AllocError>
    requires { IncludesNode steps.goal }
    ensures part { OnOk result (coord.new ≡ (goes_on steps coord.old).part) }
    ensures outs { OnOk result (outs.new ≡ outs.old ++ (goes_on steps coord.old).outs) }
{
    let action = steps.path().last();
    let req = steps.request_number();
    wait_now(alloc, coord, action, req, Now::Calling(steps), outs)
}

// The root of an action takes note that its call or include has ended.
fn note_end(
    coord: &mut Coord,
    path: &Path,
    x: u16,
    store: u8,
    end: CallEnd,
) -> Result<(), AllocError>
    requires { EndFits x store (end_of end) }
    ensures { OnOk result (coord.new ≡ on_root (root_of path.now) (noted_end path.now x store (end_of end)) coord.old) }
{
    match end {
        CallEnd::Answered(_) => coord.note_call(path, x),
        CallEnd::Included(state) => coord.note_include(path, x, store, state),
        CallEnd::Conflict { .. } | CallEnd::Changed { .. } | CallEnd::Lost { .. } => {
            coord.note_root(path)
        }
    }
}

// Whether a call was given up after its Invoke was sent.
fn was_sent(end: &CallEnd) -> bool
    ensures { (u : Uid) (c : coordinator.Coord) → doomed_by u (end_of end.now) c ≡ doomed_if result u c }
{
    matches!(end, CallEnd::Lost { sent: true, .. })
}

// An action that was given up after its Invoke was sent can only abort.
fn doom_if(coord: &mut Coord, action: Uid, sent: bool)
    ensures { coord.new ≡ doomed_if sent action coord.old }
{
    if sent {
        coord.doom(action);
    }
}

// A call or an include has ended; its action waits for nothing. The caller's goal is taken out.
fn end_call(
    alloc: Global,
    coord: &mut Coord,
    caller: &mut Caller,
    end: CallEnd,
    outs: &mut Effects,
) -> Result<(), AllocError>
    requires { EndFits caller.old.x (asking.store_of (goal_of caller.old.goal)) (end_of end) }
    ensures part { OnOk result ((s : steps.Steps) (c : coordinator.Coord) → IsCaller caller.old s → coord.old ≡ on_doing (actor s.path) idle_doing c → coord.new ≡ (ends_call s (end_of end) c).part) }
    ensures outs { OnOk result ((s : steps.Steps) (c : coordinator.Coord) → IsCaller caller.old s → coord.old ≡ on_doing (actor s.path) idle_doing c → outs.new ≡ outs.old ++ (ends_call s (end_of end) c).outs) }
{
    let goal = mem::replace(&mut caller.goal, Goal::Include(0));
    let store = store_of(&goal);
    let sent = was_sent(&end);
    let x = caller.x;
    let path = &caller.path;
    say_end(alloc, coord, path.last(), x, goal, &end, outs)?;
    note_end(coord, path, x, store, end)?;
    doom_if(coord, path.last(), sent);
    Ok(())
}

/// A call or an include of an action that waits for nothing goes on, or has ended.
pub fn step_call(
    alloc: Global,
    coord: &mut Coord,
    caller: &mut Caller,
    step: CallStep,
    outs: &mut Effects,
) -> Result<(), AllocError>
    requires { StepFits caller.old (came_of step) }
    ensures part { OnOk result ((s : steps.Steps) (next : steps.CallStep) (c : coordinator.Coord) → IsCaller caller.old s → HasNext s → came_of step ≡ came_by s next → coord.old ≡ on_doing (actor s.path) idle_doing c → coord.new ≡ (asking.step_call s next c).part) }
    ensures outs { OnOk result ((s : steps.Steps) (next : steps.CallStep) (c : coordinator.Coord) → IsCaller caller.old s → HasNext s → came_of step ≡ came_by s next → coord.old ≡ on_doing (actor s.path) idle_doing c → outs.new ≡ outs.old ++ (asking.step_call s next c).outs) }
{
    match step {
        CallStep::On(steps) => go_on(alloc, coord, steps, outs),
        CallStep::Ended(end) => end_call(alloc, coord, caller, end, outs),
        CallStep::Foreign(_) => Ok(()),
    }
}
