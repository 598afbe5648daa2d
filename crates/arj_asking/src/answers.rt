// Answers.
ghost use Rattle.std.specs.Prelude.{◌≡◌, ◌++◌, ◌↔◌, is_some, true, IfOk, IfSome, IsTrue, List, None, OnOk};
ghost use Rattle.arj_asking.specs.Calls.{HasNext, MeantFor};
ghost use Rattle.arj_asking.specs.Hearing.{IsAwaited, asker_in, free_in, heard_as, waits_in};
ghost use Rattle.arj_asking.specs.Rooms.{AskerHasRoom};
ghost use Rattle.arj_bind.specs.Heard.{heard_in};
ghost use Rattle.arj_coord.specs.Fits.{IncludesNode};
ghost use Rattle.arj_commit.specs.Steps.{waits_for};
ghost use Rattle.arj_coord.specs.Shown.{machine_of, now_of};
ghost use Rattle.arj_coord.specs.Waiting.{idle_doing};
ghost use Rattle.arj_msg.specs.Sendable.{IsSendable};
ghost use Rattle.arj_protocol.specs.Ask.{actor, answers};
ghost use Rattle.arj_protocol.specs.Asking as asking;
ghost use Rattle.arj_protocol.specs.Asking.{heard_call, heard_none};
ghost use Rattle.arj_protocol.specs.Coord as coordinator;
ghost use Rattle.arj_protocol.specs.Coord.{doing_of, is_free, on_doing};
ghost use Rattle.arj_protocol.specs.Node.{answer_is_meant, is_loaded_for};
ghost use Rattle.arj_protocol.specs.Effect.{Intent};
ghost use Rattle.arj_protocol.specs.Tree.{root_of};

use crate::calls::{caller_of, step_call};
use crate::commits::hear_commit;
use crate::rooms::has_room;
use arj_base::{ObjectState, Uid, object_uid};
use arj_bind::CallSteps;
use arj_coord::{Commit, Coord, Effects, Now, Records};
use arj_msg::{LoadedReply, Message};
use std::alloc::{AllocError, Global};

// ---- what can be meant

// Whether the state is of the object that an action's call waits for, if it waits in one.
fn is_loaded_for(coord: &Coord, action: Uid, state: &ObjectState) -> bool
    ensures { result ≡ is_loaded_for state.now (doing_of action coord.now) }
{
    match coord.waits_for(action) {
        Some(Now::Calling(steps)) => state.uid == object_uid(steps.object()),
        _ => true,
    }
}

/// Whether a message, if it is an answer, is one that can be meant: a state for which a call waits is of its object.
pub fn is_meant(coord: &Coord, message: &Message) -> bool
    ensures { result ≡ answer_is_meant coord.now (answers message.now) }
{
    match message {
        Message::Loaded(loaded) => match &loaded.reply {
            LoadedReply::State(state) => is_loaded_for(coord, loaded.asked.act, state),
            LoadedReply::InDoubt { .. } => true,
        },
        _ => true,
    }
}

// ---- who waits

// The action that had asked, where the message is an answer.
fn asker(message: &Message) -> Option<Uid>
    ensures { result ≡ asker_in (answers message.now) }
{
    match message {
        Message::Bound(m) => Some(m.asked.act),
        Message::Loaded(m) => Some(m.asked.act),
        Message::Activated(m) => Some(m.asked.act),
        Message::Recorded(m) => Some(m.asked.act),
        Message::Invoked(m) => Some(m.asked.act),
        Message::Voted(m) => Some(m.asked.act),
        Message::Prepared(m) => Some(m.asked.act),
        Message::Confirmed(m) => Some(m.asked.act),
        Message::Bind(_)
        | Message::Load(_)
        | Message::Activate(_)
        | Message::RecordMsg(_)
        | Message::Invoke(_)
        | Message::Vote(_)
        | Message::Prepare(_)
        | Message::Confirm(_)
        | Message::Told(_)
        | Message::Acked(_)
        | Message::Query(_)
        | Message::Hello(_) => None,
    }
}

/// Whether the action that had asked for what a message answers has as many request numbers left as a step of it may take.
pub fn asker_has_room(coord: &Coord, message: &Message) -> bool
    ensures { IsTrue result ↔ AskerHasRoom (answers message.now) coord.now }
{
    match asker(message) {
        Some(action) => has_room(coord, action),
        None => true,
    }
}

// Whether a commit's step waits for the message from this node.
fn commit_waits_for(commit: &Commit, from: u8, message: &Message) -> bool
    ensures { result ≡ waits_for from message.now (machine_of commit.now) }
{
    match commit {
        Commit::Voting(step) => step.waits_for(from, message),
        Commit::Preparing(step) => step.waits_for(from, message),
        Commit::Confirming(step) => step.waits_for(from, message),
    }
}

// Whether an action that waits for this waits for the message from this node.
fn is_awaited(now: &Now, from: u8, message: &Message) -> bool
    ensures { result ≡ waits_in from (answers message.now) (now_of now.now) }
{
    match now {
        Now::Idle => false,
        Now::Calling(steps) => steps.takes(from, message),
        Now::Committing(commit) => commit_waits_for(commit, from, message),
    }
}

// Whether the root is free of what it keeps of the object for the call that waits.
fn is_free_for(coord: &Coord, now: &Now) -> bool
    ensures { result ≡ free_in coord.now (now_of now.now) }
{
    match now {
        Now::Calling(steps) => {
            coord.is_free(steps.path().root(), steps.path().last(), steps.object())
        }
        _ => true,
    }
}

// ---- a call is answered

// A message for which a call waits: its node, and whether the root is free of what it keeps of the object.
#[derive(Drop)]
struct Delivery {
    from: u8,
    message: Box<Message>,
    free: bool,
}

// A step of a call or an include is answered; its action was taken to wait for nothing.
fn hear_call(
    alloc: Global,
    coord: &mut Coord,
    steps: CallSteps,
    delivery: Delivery,
    outs: &mut Effects,
) -> Result<(), AllocError>
    requires sendable { IsSendable delivery.message.value }
    requires node { IncludesNode steps.goal }
    requires room { HasNext steps }
    requires meant { IfSome (heard_in delivery.from delivery.message.value steps) (MeantFor steps.x) }
    ensures part { OnOk result ((c : coordinator.Coord) → coord.old ≡ on_doing (actor steps.path) idle_doing c → delivery.free ≡ is_free (root_of steps.path) (actor steps.path) steps.x c → IfSome (heard_in delivery.from delivery.message.value steps) (λ r. coord.new ≡ (heard_call steps r c).part)) }
    ensures outs { OnOk result ((c : coordinator.Coord) → coord.old ≡ on_doing (actor steps.path) idle_doing c → delivery.free ≡ is_free (root_of steps.path) (actor steps.path) steps.x c → IfSome (heard_in delivery.from delivery.message.value steps) (λ r. outs.new ≡ outs.old ++ (heard_call steps r c).outs)) }
{
    let goal = steps.goal().copy(alloc)?;
    let mut caller = caller_of(&steps, goal);
    let Delivery {
        from,
        message,
        free,
    } = delivery;
    let step = coord.answered(steps, from, message, free)?;
    step_call(alloc, coord, &mut caller, step, outs)
}

// ---- any answer

// The action that had asked for an answer, and whether its root is free of what it keeps of the object.
#[derive(Clone, Copy)]
struct Awaited {
    action: Uid,
    free: bool,
}

// Who waits for a message from this node, if anyone does.
fn who_waits(coord: &Coord, from: u8, message: &Message) -> Option<Awaited>
    ensures void { result ≡ None → (intents : List (Uid × Intent)) → heard_as from (answers message.now) intents coord.now ≡ heard_none coord.now }
    ensures waits { IfSome result (λ a. IsAwaited from (answers message.now) coord.now a.action a.free) }
{
    let action = asker(message)?;
    let now = coord.waits_for(action)?;
    if !is_awaited(now, from, message) {
        return None;
    }
    Some(Awaited {
        action,
        free: is_free_for(coord, now),
    })
}

// A message for which an action waits.
fn hear(
    alloc: Global,
    coord: &mut Coord,
    action: Uid,
    delivery: Delivery,
    intents: &Records,
    outs: &mut Effects,
) -> Result<bool, AllocError>
    requires sendable { IsSendable delivery.message.value }
    requires meant { answer_is_meant coord.old (answers delivery.message.value) ≡ true }
    requires room { AskerHasRoom (answers delivery.message.value) coord.old }
    requires waits { IsAwaited delivery.from (answers delivery.message.value) coord.old action delivery.free }
    ensures part { OnOk result (coord.new ≡ (heard_as delivery.from (answers delivery.message.value) intents.now coord.old).part) }
    ensures outs { OnOk result (outs.new ≡ outs.old ++ (heard_as delivery.from (answers delivery.message.value) intents.now coord.old).outs) }
    ensures taken { IfOk result (λ taken. taken ≡ is_some (heard_as delivery.from (answers delivery.message.value) intents.now coord.old).reply) }
{
    coord.fits(action);
    match coord.take(action) {
        Now::Idle => Ok(false),
        Now::Calling(steps) => {
            hear_call(alloc, coord, steps, delivery, outs)?;
            Ok(true)
        }
        Now::Committing(commit) => {
            hear_commit(
                alloc,
                coord,
                commit,
                delivery.from,
                delivery.message,
                intents,
                outs,
            )?;
            Ok(true)
        }
    }
}

/// A message from a node, as an answer. False: it is void, since no action waits for it. `intents` are the records on the
/// disk.
pub fn heard(
    alloc: Global,
    coord: &mut Coord,
    from: u8,
    message: Box<Message>,
    intents: &Records,
    outs: &mut Effects,
) -> Result<bool, AllocError>
    requires sendable { IsSendable message.value }
    requires meant { answer_is_meant coord.old (answers message.value) ≡ true }
    requires room { AskerHasRoom (answers message.value) coord.old }
    ensures part { OnOk result (coord.new ≡ (heard_as from (answers message.value) intents.now coord.old).part) }
    ensures outs { OnOk result (outs.new ≡ outs.old ++ (heard_as from (answers message.value) intents.now coord.old).outs) }
    ensures taken { IfOk result (λ taken. taken ≡ is_some (heard_as from (answers message.value) intents.now coord.old).reply) }
{
    match who_waits(coord, from, &message) {
        Some(Awaited { action, free }) => {
            let delivery = Delivery {
                from,
                message,
                free,
            };
            hear(alloc, coord, action, delivery, intents, outs)
        }
        None => Ok(false),
    }
}
