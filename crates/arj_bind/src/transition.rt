// What each step makes of the answer of its kind, and of a giveup.
ghost use Rattle.std.specs.Prelude.{◌≡◌, ℕ, List, IfSome, option_map, option_copied, false};
ghost use Rattle.arj_base.specs.declared.mode.End.{End};
ghost use Rattle.arj_base.specs.declared.uid.Uid.{Uid};
ghost use Rattle.arj_protocol.specs.Ask.{answers};
ghost use Rattle.arj_protocol.specs.Asking.{is_invoke_ask};
ghost use Rattle.arj_protocol.specs.Call.{Ended, Lost, Conflict, Changed, or_lost, made_by, load_from, bound_answer, loaded_state, loaded_answer, activated_by, recorded_answer, invoked_answer, answered, given_up, spoils, node_at, ask_at};
ghost use Rattle.arj_protocol.specs.Call as call;
ghost use Rattle.arj_bind.specs.Shown.{at_of, end_of, goal_of, moved_of, next_of, reply_of};
ghost use Rattle.arj_bind.specs.declared.at.At.TheVariants as at;
ghost use Rattle.arj_bind.specs.Heard.{told_stores, stores_in, stores_of, known_in, req_of, reply_in};

use crate::at::{ActivateStep, At, BindStep, InvokeStep, LoadStep, RecordStep};
use crate::binding::{activated_by, bound_by, recorded_kept};
use crate::invoked::end_of_invoke;
use crate::moved::{Moved, Next, finds, moves};
use crate::reply::{Reply, reply_of};
use crate::{CallEnd, Goal, Known};
use arj_base::{Mode, NodeList, ObjectState, Uid};
use arj_msg::{BoundReply, InvokedReply, LoadedReply, Message, RecordedReply, What};

// The naming node.
const NAMING: u8 = 1;

// The first store of the list is asked. None exactly where the list is empty.
fn load_from(known: Known) -> Option<At>
    ensures { option_map at_of result ≡ load_from known known.stores }
{
    if known.stores.as_slice().is_empty() {
        None
    } else {
        Some(At::Load(LoadStep { known, place: 0 }))
    }
}

// An empty list of stores, which doesn't come.
fn no_stores() -> CallEnd
    ensures { end_of result ≡ Lost 1 false }
{
    CallEnd::Lost {
        node: NAMING,
        sent: false,
    }
}

fn or_lost(kept: Option<Known>, at: Option<At>) -> Moved
    ensures { moved_of result ≡ or_lost kept (option_map at_of at) }
{
    match at {
        None => finds(kept, no_stores()),
        Some(at) => moves(kept, at),
    }
}

fn made_by(free: bool, known: Known, kept: Option<Known>, at: Option<At>) -> Moved
    ensures { moved_of result ≡ made_by free known kept (option_map at_of at) }
{
    match at {
        None => finds(kept, no_stores()),
        Some(at) => bound_by(free, known, at, kept),
    }
}

fn loaded_state(kept: Option<Known>, known: Known, state: ObjectState, goal: &Goal) -> Moved
    ensures { moved_of result ≡ loaded_state kept known state (goal_of goal.now) }
{
    match goal {
        Goal::Call(_) => moves(kept, At::Activate(ActivateStep { known, state })),
        Goal::Include(_) => finds(kept, CallEnd::Included(state)),
    }
}

impl BindStep {
    /// Naming answered. `spare` has the stores of the answer again, for what the root keeps.
    fn answered(self, free: bool, kept: Option<Known>, reply: BoundReply, spare: NodeList) -> Moved
        requires { spare ≡ told_stores reply }
        ensures { moved_of result ≡ bound_answer free kept reply }
    {
        match reply {
            BoundReply::Live {
                binding,
                server,
                server_inc,
                naming_inc,
                stores,
            } => {
                let known = Known::live(binding, server, server_inc, naming_inc, stores);
                let again = Known::live(binding, server, server_inc, naming_inc, spare);
                let inc = server_inc;
                bound_by(free, again, At::Invoke(InvokeStep { known, inc }), kept)
            }
            BoundReply::Make {
                binding,
                server,
                naming_inc,
                stores,
            } => {
                let known = Known::made(binding, server, naming_inc, stores);
                let again = Known::made(binding, server, naming_inc, spare);
                made_by(free, again, kept, load_from(known))
            }
            BoundReply::Write { naming_inc, stores } => {
                or_lost(kept, load_from(Known::write(naming_inc, stores)))
            }
            BoundReply::Conflict { holder, mode } => { finds(kept, conflict(holder, mode, NAMING)) }
        }
    }
}

impl LoadStep {
    /// The store that is asked.
    fn store(&self) -> u8
        ensures { result ≡ node_at (at_of (at.Load self.now)) }
    {
        self.known.stores.as_slice()[self.place]
    }

    /// The store answered.
    fn answered(self, kept: Option<Known>, goal: &Goal, reply: LoadedReply) -> Moved
        ensures { moved_of result ≡ loaded_answer kept self.known (node_at (at_of (at.Load self))) (goal_of goal.now) reply }
    {
        let store = self.store();
        match reply {
            LoadedReply::State(state) => loaded_state(kept, self.known, state, goal),
            LoadedReply::InDoubt { holder } => finds(kept, conflict(holder, Mode::Write, store)),
        }
    }

    /// The next store is asked; behind the last one the call is lost.
    fn given_up(self) -> Next
        ensures { next_of result ≡ given_up (at_of (at.Load self)) }
    {
        let store = self.store();
        let LoadStep { known, place } = self;
        if place + 1 < known.stores.as_slice().len() {
            Next::On(At::Load(LoadStep {
                known,
                place: place + 1,
            }))
        } else {
            lost(store, false)
        }
    }
}

impl ActivateStep {
    /// The server took the copy, and named its incarnation.
    fn answered(self, inc: u32, kept: Option<Known>) -> Moved
        ensures { moved_of result ≡ activated_by self.known inc kept }
    {
        activated_by(self.known, inc, kept)
    }
}

impl RecordStep {
    /// Naming answered whether the binding is recorded.
    fn answered(self, kept: Option<Known>, reply: RecordedReply) -> Moved
        ensures { moved_of result ≡ recorded_answer kept self.known self.inc reply }
    {
        match reply {
            RecordedReply::Yes => {
                let RecordStep { known, inc } = self;
                let kept = recorded_kept(&known, kept);
                moves(kept, At::Invoke(InvokeStep { known, inc }))
            }
            RecordedReply::Changed(what) => finds(kept, changed(NAMING, what)),
        }
    }
}

impl InvokeStep {
    /// The server answered.
    fn answered(self, kept: Option<Known>, reply: InvokedReply) -> Moved
        ensures { moved_of result ≡ invoked_answer kept self.known reply }
    {
        finds(kept, end_of_invoke(self.known.server, reply))
    }
}

fn conflict(holder: Uid, mode: Mode, node: u8) -> CallEnd
    ensures { end_of result ≡ Conflict holder mode node }
{
    CallEnd::Conflict { holder, mode, node }
}

fn changed(node: u8, what: What) -> CallEnd
    ensures { end_of result ≡ Changed node what }
{
    CallEnd::Changed { node, what }
}

fn lost(node: u8, sent: bool) -> Next
    ensures { next_of result ≡ Ended (Lost node sent) }
{
    Next::Ended(CallEnd::Lost { node, sent })
}

impl At {
    /// The node whose answer is awaited.
    pub fn node(&self) -> u8
        ensures { result ≡ node_at (at_of self.now) }
    {
        match self {
            At::Bind(_) => NAMING,
            At::Load(step) => step.store(),
            At::Activate(step) => step.known.server,
            At::Record(_) => NAMING,
            At::Invoke(step) => step.known.server,
        }
    }

    /// The number of the request that a message answers, where it is an answer of the kind for which this step waits.
    pub fn asked_for(&self, message: &Message) -> Option<u32>
        ensures { (x : ℕ) (g : call.Goal) → result ≡ req_of x g (at_of self.now) (answers message.now) }
    {
        match self {
            At::Bind(_) => match message {
                Message::Bound(m) => Some(m.asked.req),
                _ => None,
            },
            At::Load(_) => match message {
                Message::Loaded(m) => Some(m.asked.req),
                _ => None,
            },
            At::Activate(_) => match message {
                Message::Activated(m) => Some(m.asked.req),
                _ => None,
            },
            At::Record(_) => match message {
                Message::Recorded(m) => Some(m.asked.req),
                _ => None,
            },
            At::Invoke(_) => match message {
                Message::Invoked(m) => Some(m.asked.req),
                _ => None,
            },
        }
    }

    /// After the answer in a message; one to another kind of request changes nothing. `spare` has the stores of the message
    /// again.
    pub fn answered(
        self,
        free: bool,
        kept: Option<Known>,
        goal: &Goal,
        message: Message,
        spare: NodeList,
    ) -> Moved
        requires { spare ≡ stores_in message }
        ensures { IfSome (reply_in message) (λ r. moved_of result ≡ answered free kept (goal_of goal.now) (at_of self) r) }
    {
        match reply_of(message) {
            Ok(reply) => self.replied(free, kept, goal, reply, spare),
            Err(_) => moves(kept, self),
        }
    }

    // After an answer.
    fn replied(
        self,
        free: bool,
        kept: Option<Known>,
        goal: &Goal,
        reply: Reply,
        spare: NodeList,
    ) -> Moved
        requires { spare ≡ stores_of (reply_of reply) }
        ensures { moved_of result ≡ answered free kept (goal_of goal.now) (at_of self) (reply_of reply) }
    {
        match self {
            At::Bind(step) => match reply {
                Reply::Bound(reply) => step.answered(free, kept, reply, spare),
                _ => moves(kept, At::Bind(step)),
            },
            At::Load(step) => match reply {
                Reply::Loaded(reply) => step.answered(kept, goal, reply),
                _ => moves(kept, At::Load(step)),
            },
            At::Activate(step) => match reply {
                Reply::Activated(inc) => step.answered(inc, kept),
                _ => moves(kept, At::Activate(step)),
            },
            At::Record(step) => match reply {
                Reply::Recorded(reply) => step.answered(kept, reply),
                _ => moves(kept, At::Record(step)),
            },
            At::Invoke(step) => match reply {
                Reply::Invoked(reply) => step.answered(kept, reply),
                _ => moves(kept, At::Invoke(step)),
            },
        }
    }

    /// After a giveup: a load goes to the next store, all else is lost.
    pub fn given_up(self) -> Next
        ensures { next_of result ≡ given_up (at_of self) }
    {
        match self {
            At::Bind(_) => lost(NAMING, false),
            At::Load(step) => step.given_up(),
            At::Activate(step) => lost(step.known.server, false),
            At::Record(_) => lost(NAMING, false),
            At::Invoke(step) => lost(step.known.server, true),
        }
    }

    /// Whether a call that is lost here spoils the kept binding: the server may have the copy.
    pub fn spoils(&self) -> bool
        ensures { result ≡ spoils (at_of self.now) }
    {
        matches!(self, At::Activate(_) | At::Record(_) | At::Invoke(_))
    }

    /// Whether it is the Invoke.
    pub fn invokes(&self) -> bool
        ensures { (x : ℕ) (g : call.Goal) (ends : List (Uid × End)) → result ≡ is_invoke_ask (ask_at x g ends (at_of self.now)) }
    {
        matches!(self, At::Invoke(_))
    }

    /// What the answer to the bind told, None while it is awaited.
    pub fn known(&self) -> Option<&Known>
        ensures { option_copied result ≡ known_in (at_of self.now) }
    {
        match self {
            At::Bind(_) => None,
            At::Load(step) => Some(&step.known),
            At::Activate(step) => Some(&step.known),
            At::Record(step) => Some(&step.known),
            At::Invoke(step) => Some(&step.known),
        }
    }
}
