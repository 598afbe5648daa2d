// Commits.
ghost use Rattle.std.specs.Prelude.{◌≡◌, ◌++◌, IfOk, IfSome, OnOk, true};
ghost use Rattle.arj_asking.specs.Hearing.{IsOf};
ghost use Rattle.arj_asking.specs.Rooms.{HasRoom};
ghost use Rattle.arj_commit.specs.Fits.{PlanFits};
ghost use Rattle.arj_commit.specs.Steps as done;
ghost use Rattle.arj_commit.specs.Steps.{begun, heard, waits_for};
ghost use Rattle.arj_coord.specs.Shown.{machine_of};
ghost use Rattle.arj_protocol.specs.Ask.{actor};
ghost use Rattle.arj_protocol.specs.Asking as asking;
ghost use Rattle.arj_protocol.specs.Asking.{commits_in, gaveup_lines, last_req, moved_commit, step_commit};
ghost use Rattle.arj_protocol.specs.Commit.{given_up, nodes_given_up, plan_of};
ghost use Rattle.arj_protocol.specs.Coord.{doing_of, plan_for, root_at};
ghost use Rattle.arj_protocol.specs.Tree.{branch_of, root_of};

use crate::lines::{say_all_gave_up, say_committing, say_marks};
use crate::requests::{plan_in, wait_now};
use arj_base::{End, Path, Uid};
use arj_commit::{NAMING, Plan, Step, start};
use arj_coord::{Commit, Coord, Effects, EndLine, Now, Records};
use arj_journal::{Cause, Kind};
use arj_msg::Message;
use arj_root::Root;
use std::alloc::{AllocError, Global};

// ---- the steps

// A step of a commit waits on.
fn stay(alloc: Global, coord: &mut Coord, action: Uid, commit: Commit) -> Result<(), AllocError>
    requires { actor (plan_of (machine_of commit)).path ≡ action }
    ensures { OnOk result (coord.new ≡ commits_in action (machine_of commit) coord.old) }
{
    let req = plan_in(&commit).req;
    let commit = Box::new(alloc, commit)?;
    coord.wait(action, req, Now::Committing(commit))
}

// A step of a commit is entered: its nodes are asked.
fn ask(
    alloc: Global,
    coord: &mut Coord,
    action: Uid,
    commit: Commit,
    outs: &mut Effects,
) -> Result<(), AllocError>
    requires { actor (plan_of (machine_of commit)).path ≡ action }
    ensures part { OnOk result (coord.new ≡ (asking.asks_machine (machine_of commit) (commits_in action (machine_of commit) coord.old)).part) }
    ensures outs { OnOk result (outs.new ≡ outs.old ++ (asking.asks_machine (machine_of commit) (commits_in action (machine_of commit) coord.old)).outs) }
{
    let req = plan_in(&commit).req;
    let commit = Box::new(alloc, commit)?;
    wait_now(alloc, coord, action, req, Now::Committing(commit), outs)
}

// A step of a commit is entered, or the commit is decided or aborted. `intents` are the records on the disk.
fn enter(
    alloc: Global,
    coord: &mut Coord,
    action: Uid,
    step: Step,
    intents: &Records,
    outs: &mut Effects,
) -> Result<(), AllocError>
    requires { IsOf action (begun step) }
    ensures part { OnOk result (coord.new ≡ (step_commit action (begun step) intents.now coord.old).part) }
    ensures outs { OnOk result (outs.new ≡ outs.old ++ (step_commit action (begun step) intents.now coord.old).outs) }
{
    match step {
        Step::Voting(step) => ask(alloc, coord, action, Commit::Voting(step), outs),
        Step::Preparing(step) => ask(alloc, coord, action, Commit::Preparing(step), outs),
        Step::Confirming(step) => ask(alloc, coord, action, Commit::Confirming(step), outs),
        Step::Decide(telling) => coord.decide(&telling, outs),
        Step::Aborted { cause, .. } => coord.aborts_with(action, cause, intents, outs),
    }
}

// A vote was heard or given up.
fn after_votes(
    alloc: Global,
    coord: &mut Coord,
    action: Uid,
    step: Step,
    intents: &Records,
    outs: &mut Effects,
) -> Result<(), AllocError>
    requires { IsOf action (done.after_votes step).step }
    ensures part { OnOk result (coord.new ≡ (moved_commit action (done.after_votes step) intents.now coord.old).part) }
    ensures outs { OnOk result (outs.new ≡ outs.old ++ (moved_commit action (done.after_votes step) intents.now coord.old).outs) }
{
    match step {
        Step::Voting(step) => stay(alloc, coord, action, Commit::Voting(step)),
        step => enter(alloc, coord, action, step, intents, outs),
    }
}

// A store was heard, or those that haven't answered are given up. Where the step ends, the exclusions are said first.
#[tactic(auto, using(std::proofs::lemmas::List::append_assoc))]
fn after_stores(
    alloc: Global,
    coord: &mut Coord,
    action: Uid,
    step: Step,
    intents: &Records,
    outs: &mut Effects,
) -> Result<(), AllocError>
    requires { IsOf action (done.after_stores step).step }
    ensures part { OnOk result (coord.new ≡ (moved_commit action (done.after_stores step) intents.now coord.old).part) }
    ensures outs { OnOk result (outs.new ≡ outs.old ++ (moved_commit action (done.after_stores step) intents.now coord.old).outs) }
{
    match step {
        Step::Preparing(step) => stay(alloc, coord, action, Commit::Preparing(step)),
        Step::Confirming(step) => {
            say_marks(coord, action, step.plan().excluded.as_slice(), outs)?;
            enter(alloc, coord, action, Step::Confirming(step), intents, outs)
        }
        Step::Decide(telling) => {
            say_marks(coord, action, telling.plan().excluded.as_slice(), outs)?;
            enter(alloc, coord, action, Step::Decide(telling), intents, outs)
        }
        step => enter(alloc, coord, action, step, intents, outs),
    }
}

// Naming was heard or given up.
fn after_confirm(
    alloc: Global,
    coord: &mut Coord,
    action: Uid,
    step: Step,
    intents: &Records,
    outs: &mut Effects,
) -> Result<(), AllocError>
    requires { IsOf action (done.after_confirm step).step }
    ensures part { OnOk result (coord.new ≡ (moved_commit action (done.after_confirm step) intents.now coord.old).part) }
    ensures outs { OnOk result (outs.new ≡ outs.old ++ (moved_commit action (done.after_confirm step) intents.now coord.old).outs) }
{
    match step {
        Step::Confirming(step) => stay(alloc, coord, action, Commit::Confirming(step)),
        step => enter(alloc, coord, action, step, intents, outs),
    }
}

// ---- a commit starts

// The plan of a top's commit.
fn plan(alloc: Global, coord: &Coord, path: &Path) -> Result<Plan, AllocError>
    ensures plan { IfOk result (λ plan. plan ≡ plan_for path.now (last_req (doing_of (actor path.now) coord.now)) (root_at (root_of path.now) coord.now) coord.now) }
    ensures fits { IfOk result PlanFits }
{
    let req = coord.last_request(path.last());
    match coord.root(path.root()) {
        Some(root) => root.plan(coord.tree(), path, req),
        None => Root::new(alloc).plan(coord.tree(), path, req),
    }
}

// A top commits by its steps.
#[tactic(auto, using(std::proofs::lemmas::List::append_assoc))]
fn commit_top(
    alloc: Global,
    coord: &mut Coord,
    path: &Path,
    intents: &Records,
    outs: &mut Effects,
) -> Result<(), AllocError>
    requires { HasRoom (actor path.now) coord.old }
    ensures part { OnOk result (coord.new ≡ (asking.commit_top path.now intents.now coord.old).part) }
    ensures outs { OnOk result (outs.new ≡ outs.old ++ (asking.commit_top path.now intents.now coord.old).outs) }
{
    let action = path.last();
    let plan = plan(alloc, coord, path)?;
    say_committing(coord, action, outs)?;
    match start(alloc, plan) {
        Ok(step) => enter(alloc, coord, action, step, intents, outs),
        Err(_) => Err(AllocError),
    }
}

/// An action commits: a nested one and a serializing one at once, a top by its steps; one that can only abort is aborted.
/// It does nothing where there is no such action. `intents` are the records on the disk.
pub fn commit_action(
    alloc: Global,
    coord: &mut Coord,
    action: Uid,
    intents: &Records,
    outs: &mut Effects,
) -> Result<(), AllocError>
    requires { HasRoom action coord.old }
    ensures part { OnOk result (IfSome (branch_of action coord.old.tree) (λ b. coord.new ≡ (asking.commit_action b intents.now coord.old).part)) }
    ensures outs { OnOk result (IfSome (branch_of action coord.old.tree) (λ b. outs.new ≡ outs.old ++ (asking.commit_action b intents.now coord.old).outs)) }
{
    let Some(found) = coord.tree().action(action) else {
        return Ok(());
    };
    if found.is_doomed() {
        return coord.aborts_with(action, Cause::Doomed, intents, outs);
    }
    let path = *found.path();
    match found.kind() {
        Kind::Nested => coord.ends_with(action, End::Commit, EndLine::Committed, intents, outs),
        Kind::Serial => coord.ends_with(action, End::Commit, EndLine::Ended, intents, outs),
        Kind::Top | Kind::Independent | Kind::Constituent => {
            commit_top(alloc, coord, &path, intents, outs)
        }
    }
}

// ---- answers

/// An answer for which a commit waits.
pub fn hear_commit(
    alloc: Global,
    coord: &mut Coord,
    commit: Box<Commit>,
    from: u8,
    message: Box<Message>,
    intents: &Records,
    outs: &mut Effects,
) -> Result<(), AllocError>
    requires { waits_for from message.value (machine_of commit.value) ≡ true }
    ensures part { OnOk result (coord.new ≡ (moved_commit (actor (plan_of (machine_of commit.value)).path) (heard from message.value (machine_of commit.value)) intents.now coord.old).part) }
    ensures outs { OnOk result (outs.new ≡ outs.old ++ (moved_commit (actor (plan_of (machine_of commit.value)).path) (heard from message.value (machine_of commit.value)) intents.now coord.old).outs) }
{
    let action = plan_in(&commit).path.last();
    match Box::into_inner(commit) {
        Commit::Voting(step) => match step.answered(from, &message) {
            Ok(step) => after_votes(alloc, coord, action, step, intents, outs),
            Err(_) => Err(AllocError),
        },
        Commit::Preparing(step) => match step.answered(from, &message) {
            Ok(step) => after_stores(alloc, coord, action, step, intents, outs),
            Err(_) => Err(AllocError),
        },
        Commit::Confirming(step) => match step.answered(from, &message) {
            Ok(step) => after_confirm(alloc, coord, action, step, intents, outs),
            Err(_) => Err(AllocError),
        },
    }
}

// ---- giveups

// The lines of the nodes that didn't answer.
fn say_given_up(
    coord: &Coord,
    action: Uid,
    commit: &Commit,
    outs: &mut Effects,
) -> Result<(), AllocError>
    ensures { OnOk result (outs.new ≡ outs.old ++ gaveup_lines action (nodes_given_up (machine_of commit.now)) coord.now) }
{
    match commit {
        Commit::Voting(step) => {
            let first = step.left().first().copied().unwrap_or(0);
            say_all_gave_up(coord, action, &[first], outs)
        }
        Commit::Preparing(step) => say_all_gave_up(coord, action, step.left(), outs),
        Commit::Confirming(_) => say_all_gave_up(coord, action, &[NAMING], outs),
    }
}

/// A commit is given up.
#[tactic(auto, using(std::proofs::lemmas::List::append_assoc))]
pub fn give_up_commit(
    alloc: Global,
    coord: &mut Coord,
    commit: Box<Commit>,
    intents: &Records,
    outs: &mut Effects,
) -> Result<(), AllocError>
    ensures part { OnOk result (coord.new ≡ (moved_commit (actor (plan_of (machine_of commit.value)).path) (given_up (machine_of commit.value)) intents.now coord.old).part) }
    ensures outs { OnOk result (outs.new ≡ outs.old ++ (gaveup_lines (actor (plan_of (machine_of commit.value)).path) (nodes_given_up (machine_of commit.value)) coord.old ++ (moved_commit (actor (plan_of (machine_of commit.value)).path) (given_up (machine_of commit.value)) intents.now coord.old).outs)) }
{
    let action = plan_in(&commit).path.last();
    say_given_up(coord, action, &commit, outs)?;
    match Box::into_inner(commit) {
        Commit::Voting(step) => { after_votes(alloc, coord, action, step.give_up(), intents, outs) }
        Commit::Preparing(step) => match step.give_up() {
            Ok(step) => after_stores(alloc, coord, action, step, intents, outs),
            Err(_) => Err(AllocError),
        },
        Commit::Confirming(step) => {
            after_confirm(alloc, coord, action, step.give_up(), intents, outs)
        }
    }
}
