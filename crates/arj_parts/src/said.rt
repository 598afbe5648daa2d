// Lines and messages are handed back.
ghost use Rattle.std.specs.Prelude.{◌≡◌, ◌++◌, ◌∷◌, [], map, OnOk};
ghost use Rattle.arj_coord.specs.Shown.{effect_of};
ghost use Rattle.arj_node.specs.Outgoing.{Tells, effects_of};
ghost use Rattle.arj_parts.specs.Said.{says_of};
ghost use Rattle.arj_protocol.specs.Node.{query_about};
ghost use Rattle.arj_serve.specs.Asked.{sent_to};
ghost use Rattle.arj_serve.specs.Did.{sends};

use arj_base::Uid;
use arj_coord::{Effect, Effects};
use arj_journal::Lines;
use arj_msg::{Message, Query};
use arj_node::Outgoings;
use std::alloc::AllocError;

/// Hands back what services said.
#[tactic(auto, using(crate::proofs::Telling::say_step, crate::proofs::Telling::nothing_more))]
pub fn say_lines(lines: Lines, outs: &mut Outgoings) -> Result<(), AllocError>
    ensures { OnOk result (effects_of outs.new ≡ effects_of outs.old ++ says_of lines) }
{
    for line in lines.into_vec() {
        outs.say(line.body)?;
    }
    Ok(())
}

// One effect, but for work.
#[tactic(auto, using(crate::proofs::Telling::one_more, crate::proofs::Telling::nothing_more))]
fn tell_one(effect: Effect, outs: &mut Outgoings) -> Result<(), AllocError>
    ensures { OnOk result (Tells (effect_of effect ∷ []) outs.old outs.new) }
{
    match effect {
        Effect::Say(body) => outs.say(body),
        Effect::Send(to, message) => outs.forward(to, message),
        Effect::PutRecord(_) | Effect::RemoveRecord(_) => Ok(()),
    }
}

/// Hands back what a coordinator did, but for work.
#[tactic(auto, using(crate::proofs::Telling::tell_step, crate::proofs::Telling::nothing_more))]
pub fn tell(effects: Effects, outs: &mut Outgoings) -> Result<(), AllocError>
    ensures { OnOk result (Tells effects outs.old outs.new) }
{
    for effect in effects.into_vec() {
        tell_one(effect, outs)?;
    }
    Ok(())
}

// A query about an action, to its node.
#[tactic(auto, using(crate::proofs::Telling::sent_one))]
fn ask_one(action: Uid, outs: &mut Outgoings) -> Result<(), AllocError>
    ensures { OnOk result (effects_of outs.new ≡ effects_of outs.old ++ query_about action ∷ []) }
{
    if action.node > 255 {
        return Err(AllocError);
    }
    outs.send(action.node as u8, Message::Query(Query { act: action }))
}

/// Hands back queries about these actions, each to its node.
#[tactic(auto, using(crate::proofs::Telling::nothing_more))]
pub fn ask_about(actions: &[Uid], outs: &mut Outgoings) -> Result<(), AllocError>
    ensures { OnOk result (effects_of outs.new ≡ effects_of outs.old ++ map query_about actions.now) }
{
    for action in actions {
        ask_one(*action, outs)?;
    }
    Ok(())
}

/// Hands back an answer to a node, if there is one.
#[tactic(auto, using(crate::proofs::Telling::sent_one, crate::proofs::Telling::nothing_more))]
pub fn send_back(to: u8, answer: Option<Message>, outs: &mut Outgoings) -> Result<(), AllocError>
    ensures { OnOk result (effects_of outs.new ≡ effects_of outs.old ++ sends (sent_to to answer)) }
{
    match answer {
        Some(answer) => outs.send(to, answer),
        None => Ok(()),
    }
}
