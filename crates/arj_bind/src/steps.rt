// The steps of a call or an include, of which one request waits.
ghost use Rattle.std.specs.Prelude.{◌≡◌, ℕ, Bool, List, [], true, IfOk, IfErr, OnOk, OnErr, is_some, option_copied};
ghost use Rattle.arj_base.specs.declared.mode.End.{End};
ghost use Rattle.arj_base.specs.declared.uid.Uid.{Uid};
ghost use Rattle.arj_msg.specs.Ask.{request};
ghost use Rattle.arj_protocol.specs.Ask.{answers, top_of};
ghost use Rattle.arj_protocol.specs.Asking.{is_invoke_ask};
ghost use Rattle.arj_protocol.specs.Call.{start, next_ask, next_node, ask_at};
ghost use Rattle.arj_protocol.specs.Call as call;
ghost use Rattle.arj_bind.specs.Asking.{steps_of};
ghost use Rattle.arj_bind.specs.Shown.{goal_of, at_of, next_of};
ghost use Rattle.arj_bind.specs.Heard.{known_in, stores_in, heard_in, hears, gives_up, came_of, came_by, granted_in, is_awaited};

use crate::at::{At, BindStep, InvokeStep};
use crate::invoked::{end_by, is_change};
use crate::known::copy_state;
use crate::moved::{Next, has_changed, is_ended};
use crate::{CallStep, Goal, Grant, Keeping, Known, Unanswered};
use arj_base::{Binding, Ends, NodeList, Path};
use arj_msg::{Activate, Bind, BoundReply, Head, Invoke, Load, Message, RecordMsg};
use std::alloc::{AllocError, Global};
use std::marker::Model;
use std::mem;

// What stands in place of a step that was taken out.
const NOWHERE: At = At::Bind(BindStep {
    avoid: Binding { inc: 0, count: 0 },
});

// What the steps are: they are long, and stand in a box, so that they aren't copied as they are handed on.
#[derive(Drop)]
struct Asking {
    path: Path,
    x: u16,
    goal: Goal,
    req: u32,
    at: At,
}

/// A call of an object, or an include of a store for it, by the action with this path. One request waits; its number is one
/// above the last one's. Contracts see the protocol's `Steps`.
#[derive(Drop)]
pub struct CallSteps {
    asking: Box<Asking>,
}

impl Model for CallSteps {
    ghost use Rattle.arj_protocol.specs.Call.{Steps};
    ghost use Rattle.arj_bind.specs.Asking.{steps_of};

    ghost Value = { Steps };

    ghost view = { λ s. steps_of s.asking.value };
}

impl CallSteps {
    /// Begins with the Invoke where the binding is known, else with a Bind.
    pub fn start(
        alloc: Global,
        path: &Path,
        x: u16,
        goal: Goal,
        known: Option<Known>,
        avoid: Binding,
        req: u32,
    ) -> Result<CallSteps, AllocError>
        ensures { IfOk result (λ s. s ≡ start path.now x (goal_of goal) known avoid req) }
    {
        let at = match known {
            None => At::Bind(BindStep { avoid }),
            Some(known) => {
                let inc = known.inc.unwrap_or(0);
                At::Invoke(InvokeStep { known, inc })
            }
        };
        let asking = Asking {
            path: *path,
            x,
            goal,
            req,
            at,
        };
        Ok(CallSteps {
            asking: Box::new(alloc, asking)?,
        })
    }

    /// The request that waits and the node that it goes to, 1 to 16; `ends` has the ends of the root so far. A request that
    /// is sent again is the same but for later ends.
    pub fn next(&self, ends: &Ends) -> Result<(u8, Message), AllocError>
        ensures node { IfOk result (λ r. r.0 ≡ next_node self.now) }
        ensures request { IfOk result (λ r. r.1 ≡ request (record { path = self.now.path; req = self.now.req }) (next_ask ends.now self.now)) }
    {
        let asking = &self.asking;
        let head = Head {
            path: asking.path,
            req: asking.req,
        };
        Ok((
            asking.at.node(),
            request(head, asking.x, &asking.goal, ends, &asking.at)?,
        ))
    }

    /// The path of the action that calls.
    pub fn path(&self) -> &Path
        ensures { result.now ≡ self.now.path }
    {
        &self.asking.path
    }

    /// The object.
    pub fn object(&self) -> u16
        ensures { result ≡ self.now.x }
    {
        self.asking.x
    }

    /// What the steps are for.
    pub fn goal(&self) -> &Goal
        ensures { goal_of result.now ≡ self.now.goal }
    {
        &self.asking.goal
    }

    /// The number of the request that waits.
    pub fn request_number(&self) -> u32
        ensures { result ≡ self.now.req }
    {
        self.asking.req
    }

    /// The node whose answer is awaited.
    pub fn node(&self) -> u8
        ensures { result ≡ next_node self.now }
    {
        self.asking.at.node()
    }

    /// Whether the request that waits is the Invoke.
    pub fn invokes(&self) -> bool
        ensures { (ends : List (Uid × End)) → result ≡ is_invoke_ask (next_ask ends self.now) }
    {
        self.asking.at.invokes()
    }

    /// What the answer to the Bind told; None before it.
    pub fn known(&self) -> Option<&Known>
        ensures { option_copied result ≡ known_in self.now.at }
    {
        self.asking.at.known()
    }

    /// Whether a message from this node answers the request that waits.
    pub fn takes(&self, from: u8, message: &Message) -> bool
        ensures { result ≡ is_some (heard_in from message.now self.now) }
    {
        takes(&self.asking, from, message)
    }

    /// Goes on by a message from a node, or ends; Foreign exactly where the message doesn't answer the request that waits.
    /// `keeping` is what the root keeps of the object, and `free` whether the root is free of it for this call. An include
    /// leaves the keeping as it is. Err is want of memory.
    pub fn answered(
        self,
        alloc: Global,
        from: u8,
        message: Box<Message>,
        keeping: &mut Keeping,
        free: bool,
    ) -> Result<CallStep, Unanswered>
        ensures came { IfOk result (λ step. came_of step ≡ (hears free keeping.old self (heard_in from message.value self)).came) }
        ensures keeping { OnOk result (keeping.new ≡ (hears free keeping.old self (heard_in from message.value self)).keeping) }
        ensures steps { IfErr result (λ back. back.steps ≡ self) }
        ensures message { IfErr result (λ back. back.message ≡ message) }
        ensures kept { OnErr result (keeping.new ≡ keeping.old) }
    {
        if !self.takes(from, &message) {
            return Ok(CallStep::Foreign(self));
        }
        if self.invokes() {
            return Ok(self.invoked(message, keeping));
        }
        let Ok(spare) = stores_again(alloc, &message) else {
            return Err(Unanswered {
                steps: self,
                message,
            });
        };
        let was = keeping.binding();
        let Ok(kept) = keeping.lend(&self.asking.goal) else {
            return Err(Unanswered {
                steps: self,
                message,
            });
        };
        let mut asking = self.asking;
        let at = mem::replace(&mut asking.at, NOWHERE);
        let moved = at.answered(free, kept, &asking.goal, Box::into_inner(message), spare);
        keeping.keeps_after(&asking.goal, was, has_changed(&moved.next), moved.kept);
        Ok(step(asking, moved.next))
    }

    // After the answer to the Invoke, for which the steps wait: they end, and what the root keeps of the object stays.
    fn invoked(self, message: Box<Message>, keeping: &mut Keeping) -> CallStep
        requires { is_invoke_ask (next_ask [] self) ≡ true }
        ensures came { (free : Bool) (from : ℕ) → is_some (heard_in from message.value self) ≡ true → came_of result ≡ (hears free keeping.old self (heard_in from message.value self)).came }
        ensures keeping { (free : Bool) (from : ℕ) → is_some (heard_in from message.value self) ≡ true → keeping.new ≡ (hears free keeping.old self (heard_in from message.value self)).keeping }
    {
        let asking = self.asking;
        let end = end_by(asking.at.node(), Box::into_inner(message));
        keeping.loses(&asking.goal, is_change(&end));
        CallStep::Ended(end)
    }

    /// Goes on after a giveup, to the next store of a load, or ends: lost. A call that is lost where the server may have the
    /// copy spoils the kept binding.
    pub fn give_up(self, keeping: &mut Keeping) -> CallStep
        ensures came { came_of result ≡ (gives_up keeping.old self).came }
        ensures keeping { keeping.new ≡ (gives_up keeping.old self).keeping }
    {
        let mut asking = self.asking;
        let at = mem::replace(&mut asking.at, NOWHERE);
        let spoils = at.spoils();
        let next = at.given_up();
        keeping.loses(&asking.goal, is_ended(&next) && spoils);
        step(asking, next)
    }

    /// The lock on the entry that an answer of naming grants to the top; None for all other messages.
    pub fn granted(&self, message: &Message) -> Option<Grant>
        ensures { result ≡ granted_in (top_of self.now.path) self.now.x (answers message.now) }
    {
        let Message::Bound(bound) = message else {
            return None;
        };
        let (least, named) = match &bound.reply {
            BoundReply::Live {
                binding,
                naming_inc,
                ..
            } => (*naming_inc, Some(*binding)),
            BoundReply::Make {
                binding,
                naming_inc,
                ..
            } => (*naming_inc, Some(*binding)),
            BoundReply::Write { naming_inc, .. } => (*naming_inc, None),
            BoundReply::Conflict { .. } => return None,
        };
        Some(Grant {
            top: self.asking.path.top_path().last(),
            x: self.asking.x,
            least,
            named,
        })
    }
}

// Whether a message from a node answers the request that waits.
fn takes(asking: &Asking, from: u8, message: &Message) -> bool
    ensures { result ≡ is_some (heard_in from message.now (steps_of asking.now)) }
{
    is_awaited(
        asking.at.asked_for(message),
        asking.req,
        asking.at.node(),
        from,
    )
}

// Whether an answer from a node to the request of number `asked`, if it is one, is that to the request `req` at `node`.
fn is_awaited(asked: Option<u32>, req: u32, node: u8, from: u8) -> bool
    ensures { result ≡ is_awaited asked req node from }
{
    match asked {
        Some(asked) => req == asked && node == from,
        None => false,
    }
}

// What follows, as steps again.
fn step(mut asking: Box<Asking>, next: Next) -> CallStep
    ensures { (at : call.At) → came_of result ≡ came_by (record (steps_of asking.value) { at = at }) (next_of next) }
{
    match next {
        Next::On(at) => {
            asking.req = asking.req.saturating_add(1);
            asking.at = at;
            CallStep::On(CallSteps { asking })
        }
        Next::Ended(end) => CallStep::Ended(end),
    }
}

// The request of a step.
fn request(head: Head, x: u16, goal: &Goal, ends: &Ends, at: &At) -> Result<Message, AllocError>
    ensures { IfOk result (λ m. m ≡ request head (ask_at x (goal_of goal.now) ends.now (at_of at.now))) }
{
    Ok(match at {
        At::Bind(step) => Message::Bind(Bind {
            head,
            x,
            include: goal.is_include(),
            avoid: step.avoid,
        }),
        At::Load(_) => Message::Load(Load { head, x }),
        At::Activate(step) => Message::Activate(Activate {
            head,
            binding: step.known.binding,
            state: copy_state(&step.state)?,
        }),
        At::Record(step) => Message::RecordMsg(RecordMsg {
            head,
            x,
            binding: step.known.binding,
            server_inc: step.inc,
            naming_inc: step.known.grant,
        }),
        At::Invoke(step) => Message::Invoke(Invoke {
            head,
            x,
            binding: step.known.binding,
            server_inc: step.inc,
            ends: ends.copy()?,
            op: goal.operation(ends.allocator())?,
        }),
    })
}

// The stores that an answer of naming tells with a binding, in other memory.
fn stores_again(alloc: Global, message: &Message) -> Result<NodeList, AllocError>
    ensures { IfOk result (λ stores. stores ≡ stores_in message.now) }
{
    let Message::Bound(bound) = message else {
        return Ok(NodeList::new(alloc));
    };
    match &bound.reply {
        BoundReply::Live { stores, .. } => stores.copy(),
        BoundReply::Make { stores, .. } => stores.copy(),
        _ => Ok(NodeList::new(alloc)),
    }
}
