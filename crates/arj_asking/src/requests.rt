// The requests that wait, and how they go out.
ghost use Rattle.std.specs.Prelude.{◌≡◌, ◌++◌, ◌∷◌, [], map, IfOk, OnOk};
ghost use Rattle.arj_asking.specs.Sent.{asked, asked_by, go_to, waits_now};
ghost use Rattle.arj_commit.specs.Requests.{requests};
ghost use Rattle.arj_commit.specs.Tolds.{sent_to};
ghost use Rattle.arj_coord.specs.Fits.{NowFits};
ghost use Rattle.arj_coord.specs.Shown.{machine_of, now_of};
ghost use Rattle.arj_protocol.specs.Asking.{again_now, asks_machine, asks_step};
ghost use Rattle.arj_protocol.specs.Commit.{plan_of};
ghost use Rattle.arj_protocol.specs.Coord as coordinator;
ghost use Rattle.arj_protocol.specs.Effect.{Send};

use arj_base::{Path, Uid};
use arj_bind::CallSteps;
use arj_commit::{Plan, Requests};
use arj_coord::{Commit, Coord, Effects, Now};
use arj_msg::Message;
use arj_tree::Tree;
use std::alloc::{AllocError, Global};

/// A request of the action with this path, its node, and whether it is an Invoke.
#[derive(Drop)]
pub struct Question {
    pub path: Path,
    pub invoke: bool,
    pub node: u8,
    pub request: Message,
}

/// What an action asks: nothing, one request of a call's step, or the requests of a commit's step, with their path.
#[derive(Drop)]
pub enum Questions {
    Nothing,
    One(Question),
    Each(Path, Requests),
}

// The request of a call's step, with the ends of the root so far.
fn of_steps(steps: &CallSteps, tree: &Tree) -> Result<Question, AllocError>
    ensures { IfOk result (λ q. (c : coordinator.Coord) → c.tree ≡ tree.now → asked q c ≡ asks_step steps.now c) }
{
    let path = *steps.path();
    let asked = steps.next(tree.ends(path.root()))?;
    Ok(Question {
        path,
        invoke: steps.invokes(),
        node: asked.0,
        request: asked.1,
    })
}

/// The plan of a commit.
pub fn plan_in(commit: &Commit) -> &Plan
    ensures { result.now ≡ plan_of (machine_of commit.now) }
{
    match commit {
        Commit::Voting(step) => step.plan(),
        Commit::Preparing(step) => step.plan(),
        Commit::Confirming(step) => step.plan(),
    }
}

// The requests of a commit's step that aren't answered.
fn waiting(alloc: Global, commit: &Commit) -> Result<Requests, AllocError>
    ensures { IfOk result (λ all. all ≡ requests (machine_of commit.now)) }
{
    match commit {
        Commit::Voting(step) => step.waiting(alloc),
        Commit::Preparing(step) => step.waiting(alloc),
        Commit::Confirming(step) => step.waiting(alloc),
    }
}

// The same with their path.
fn of_commit(alloc: Global, commit: &Commit) -> Result<Questions, AllocError>
    ensures { IfOk result (λ questions. (c : coordinator.Coord) → asked_by questions c ≡ asks_machine (machine_of commit.now) c) }
{
    let path = plan_in(commit).path;
    Ok(Questions::Each(path, waiting(alloc, commit)?))
}

/// The requests of what an action of this tree waits for.
pub fn questions_of(alloc: Global, now: &Now, tree: &Tree) -> Result<Questions, AllocError>
    ensures { IfOk result (λ questions. (c : coordinator.Coord) → c.tree ≡ tree.now → asked_by questions c ≡ again_now c (now_of now.now)) }
{
    match now {
        Now::Idle => Ok(Questions::Nothing),
        Now::Calling(steps) => Ok(Questions::One(of_steps(steps, tree)?)),
        Now::Committing(commit) => of_commit(alloc, commit),
    }
}

// A request goes to its node, and the root takes note of it.
fn send_one(coord: &mut Coord, question: Question, outs: &mut Effects) -> Result<(), AllocError>
    ensures part { OnOk result (coord.new ≡ (asked question coord.old).part) }
    ensures outs { OnOk result (outs.new ≡ outs.old ++ (asked question coord.old).outs) }
{
    let Question {
        path,
        invoke,
        node,
        request,
    } = question;
    outs.send(node, request)?;
    coord.note_sent(&path, node, invoke)
}

// Each request of a commit goes to its node, and the root takes note of it.
fn send_each(
    coord: &mut Coord,
    path: &Path,
    requests: Requests,
    outs: &mut Effects,
) -> Result<(), AllocError>
    ensures part { OnOk result (coord.new ≡ go_to path.now requests coord.old) }
    ensures outs { OnOk result (outs.new ≡ outs.old ++ map sent_to requests) }
{
    for (node, request) in requests.into_vec() {
        outs.send(node, request)?;
        coord.note_sent(path, node, false)?;
    }
    Ok(())
}

/// Sends requests, if there are any, and the root takes note of it.
pub fn send(coord: &mut Coord, questions: Questions, outs: &mut Effects) -> Result<(), AllocError>
    ensures part { OnOk result (coord.new ≡ (asked_by questions coord.old).part) }
    ensures outs { OnOk result (outs.new ≡ outs.old ++ (asked_by questions coord.old).outs) }
{
    match questions {
        Questions::Nothing => Ok(()),
        Questions::One(question) => send_one(coord, question, outs),
        Questions::Each(path, requests) => send_each(coord, &path, requests, outs),
    }
}

// The request of a call's step goes to its node, and the root takes note of it.
fn send_step(coord: &mut Coord, steps: &CallSteps, outs: &mut Effects) -> Result<(), AllocError>
    ensures part { OnOk result (coord.new ≡ (asks_step steps.now coord.old).part) }
    ensures outs { OnOk result (outs.new ≡ outs.old ++ (asks_step steps.now coord.old).outs) }
{
    let path = steps.path();
    let asked = steps.next(coord.tree().ends(path.root()))?;
    outs.send(asked.0, asked.1)?;
    coord.note_sent(path, asked.0, steps.invokes())
}

// What an action is about to wait for is asked.
fn ask_now(
    alloc: Global,
    coord: &mut Coord,
    now: &Now,
    outs: &mut Effects,
) -> Result<(), AllocError>
    ensures part { OnOk result (coord.new ≡ (again_now coord.old (now_of now.now)).part) }
    ensures outs { OnOk result (outs.new ≡ outs.old ++ (again_now coord.old (now_of now.now)).outs) }
{
    if let Now::Calling(steps) = now {
        return send_step(coord, steps, outs);
    }
    let questions = questions_of(alloc, now, coord.tree())?;
    send(coord, questions, outs)
}

/// An action waits for this from now on, its last request having this number; and what it waits for is asked.
pub fn wait_now(
    alloc: Global,
    coord: &mut Coord,
    action: Uid,
    req: u32,
    now: Now,
    outs: &mut Effects,
) -> Result<(), AllocError>
    requires { NowFits action req (now_of now) }
    ensures part { OnOk result (coord.new ≡ (waits_now action req (now_of now) coord.old).part) }
    ensures outs { OnOk result (outs.new ≡ outs.old ++ (waits_now action req (now_of now) coord.old).outs) }
{
    ask_now(alloc, coord, &now, outs)?;
    coord.wait(action, req, now)
}
