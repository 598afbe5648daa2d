// The server part of a node.
ghost use Rattle.std.specs.Prelude.{◌≡◌, ◌<◌, ◌^◌, ◌++◌, ◌∷◌, [], ℕ, Option, Some, None, IfOk, OnOk, IsErrOf, option_map};
ghost use Rattle.arj_base.specs.Path.{uids_of};
ghost use Rattle.arj_base.specs.Rows.{is_on, last_uid};
ghost use Rattle.arj_base.specs.Uid.{object};
ghost use Rattle.arj_class.specs.Forms.{OpInForm};
ghost use Rattle.arj_class.specs.Table.{own_class, has_op as has_op_in};
ghost use Rattle.arj_lock.specs.Held.{AreListed};
ghost use Rattle.arj_manager.specs.Manager.{ended};
ghost use Rattle.arj_manager.specs.Ran.{grant_said};
ghost use Rattle.arj_manager.specs.declared.fault.ManagerFault.TheVariants as fault;
ghost use Rattle.arj_msg.specs.State.{Restores};
ghost use Rattle.arj_protocol.specs.Ask.{actor, asked_by};
ghost use Rattle.arj_protocol.specs.Effect.{either};
ghost use Rattle.arj_protocol.specs.Node.{copy_has_op};
ghost use Rattle.arj_protocol.specs.Order.{at_number, at_uid, binding_eq, binding_less, unbound};
ghost use Rattle.arj_protocol.specs.Server as server;
ghost use Rattle.arj_protocol.specs.Server.{new_server, server_holders};
ghost use Rattle.arj_server.specs.Calls as calls;
ghost use Rattle.arj_server.specs.Calls.{activated, invoked, voted, activated_by, invoked_by, voted_by, ran, answer_kept};
ghost use Rattle.arj_server.specs.Classes.{AreCopies, HasOp, MayDo};
ghost use Rattle.arj_server.specs.Lines.{said};
ghost use Rattle.arj_server.specs.Outcome.{lines_of, reply_of};

use crate::kept::{Kept, copy_reply};
use arj_base::{Binding, End, Path, Uid, Uids, object_uid};
use arj_class::{Op, Value, operations_keep};
use arj_journal::{Body, Line, Lines, Part};
use arj_manager::{ManagerFault, Ran, StateManager};
use arj_msg::{
    Activate, Activated, Asked, Head, Invoke, Invoked, InvokedReply, Told, Vote, Voted, VotedReply,
    What,
};
use arj_protocol::names_compare_as_numbers;
use std::alloc::{AllocError, Global};
use std::collections::{BTreeMap, BTreeSet};
use std::marker::Model;

// The binding of an object that isn't active.
const UNBOUND: Binding = Binding { inc: 0, count: 0 };

/// The server part of a node, in one incarnation. Contracts see it as the protocol's server. Each call that appends lines
/// is told its node's number.
#[derive(Drop)]
pub struct Server {
    alloc: Global,
    inc: u32,
    manager: StateManager,
    kept: BTreeMap<Uid, Kept>,
    ends: BTreeMap<Uid, End>,
    voted: BTreeSet<Uid>,
}

impl Model for Server {
    ghost use Rattle.arj_protocol.specs.Server as server;
    ghost use Rattle.arj_server.specs.Classes.{AreCopies};

    ghost Value = { server.Server };

    ghost view = { λ s. record { inc = s.inc; objects = s.manager; kept = s.kept.entries; ends = s.ends.entries; voted = s.voted.keys } };

    ghost invariant = { λ s. AreCopies s.manager };
}

impl Server {
    /// With nothing, as its node starts. It allocates nothing.
    pub fn new(alloc: Global, inc: u32) -> Server
        ensures { result ≡ new_server inc }
    {
        Server {
            alloc,
            inc,
            manager: StateManager::new(alloc),
            kept: BTreeMap::new(alloc),
            ends: BTreeMap::new(alloc),
            voted: BTreeSet::new(alloc),
        }
    }

    /// Takes a copy of an object, whose locks and overlays here go; an equal binding is answered again. None is void:
    /// the path has an action that ended here, or a greater binding is active.
    pub fn activate(
        &mut self,
        node: u8,
        m: &Activate,
        out: &mut Lines,
    ) -> Result<Option<Activated>, AllocError>
        requires object { m.now.state.uid.num < 2 ^ 16 }
        requires restores { Restores m.now.state.format m.now.state.class m.now.state.payload }
        ensures part { OnOk result (self.new ≡ (activated node m.now self.old).part) }
        ensures lines { OnOk result (out.new ≡ out.old ++ said (activated node m.now self.old).outs) }
        ensures reply { IfOk result (λ answer. answer ≡ option_map (activated_by m.now.head) (activated node m.now self.old).reply) }
    {
        let x = m.state.uid.num as u16;
        let active = self.active_binding(x);
        if self.has_ended(&m.head.path) || is_less(m.binding, active) {
            return Ok(None);
        }
        let answer = Activated {
            asked: asked_by(&m.head),
            server_inc: self.inc,
        };
        if is_same(m.binding, active) {
            return Ok(Some(answer));
        }
        self.take_copy(node, x, m, out)?;
        Ok(Some(answer))
    }

    /// Does an operation on an object, behind the ends that the request brings. The last request of an action again is
    /// answered by what was kept, and applies nothing. None is void: the path has an action that ended here, or the
    /// action sent a later request.
    pub fn invoke(
        &mut self,
        node: u8,
        m: &Invoke,
        out: &mut Lines,
    ) -> Result<Option<Invoked>, AllocError>
        requires form { OpInForm m.now.op }
        requires has_op { HasOp m.now.x m.now.op self.old.objects }
        ensures part { OnOk result (self.new ≡ (invoked node m.now self.old).part) }
        ensures lines { OnOk result (out.new ≡ out.old ++ said (invoked node m.now self.old).outs) }
        ensures reply { IfOk result (λ answer. answer ≡ option_map (invoked_by m.now.head) (invoked node m.now self.old).reply) }
    {
        if self.has_ended(&m.head.path) || self.is_below(&m.head) {
            return Ok(None);
        }
        let reply = match self.changed_by(m.server_inc, m.x, m.binding) {
            Some(what) => InvokedReply::Changed(what),
            None => self.invoke_kept(node, m, out)?,
        };
        Ok(Some(Invoked {
            asked: asked_by(&m.head),
            reply,
        }))
    }

    /// Votes for the top that asks: yes, with the states that it made here, where incarnation and bindings are those of
    /// the request; then the ends are applied that the request brings. None is void: the path has an action that ended
    /// here.
    pub fn vote(&mut self, node: u8, m: &Vote, out: &mut Lines) -> Result<Option<Voted>, AllocError>
        ensures part { OnOk result (self.new ≡ (voted node m.now self.old).part) }
        ensures lines { OnOk result (out.new ≡ out.old ++ said (voted node m.now self.old).outs) }
        ensures reply { IfOk result (λ answer. answer ≡ option_map (voted_by m.now.head) (voted node m.now self.old).reply) }
    {
        if self.has_ended(&m.head.path) {
            return Ok(None);
        }
        let reply = match self.changed_since(m.server_inc, m.objects.as_slice()) {
            Some(what) => VotedReply::Changed(what),
            None => self.vote_yes(node, m, out)?,
        };
        Ok(Some(Voted {
            asked: asked_by(&m.head),
            reply,
        }))
    }

    /// Applies the ends that are new here, one after another. A top's commit is taken for an abort where the server
    /// didn't vote for the top.
    pub fn told(&mut self, node: u8, m: &Told, out: &mut Lines) -> Result<(), AllocError>
        ensures part { OnOk result (self.new ≡ (calls.told node m.now self.old).part) }
        ensures lines { OnOk result (out.new ≡ out.old ++ said (calls.told node m.now self.old).outs) }
    {
        self.apply_ends(node, m.ends.as_slice(), out)
    }

    /// The tops of the holders of all locks, each once, in increasing order. A serializing action counts as its own top.
    pub fn held(&self, alloc: Global) -> Result<Uids, AllocError>
        ensures { IfOk result (λ tops. AreListed (server_holders self.now) tops) }
    {
        self.manager.held(alloc)
    }

    /// Whether the class of an object has an operation, where the object is active.
    pub fn has_op(&self, x: u16, op: &Op) -> bool
        ensures { result ≡ copy_has_op op.now (at_number x self.now.objects) }
    {
        match self.manager.copy(x) {
            Some(object) => has_op(object.current(), op),
            None => true,
        }
    }

    // ---- what it knows

    // It was told how the action ended.
    fn is_told(&self, action: Uid) -> bool
        ensures { result ≡ server.is_told action self.now }
    {
        self.ends.contains_key(&action)
    }

    // It was told how an action of the path ended.
    fn has_ended(&self, path: &Path) -> bool
        ensures { result ≡ server.has_ended path.now self.now }
    {
        path.as_slice().iter().any(|action| self.is_told(*action))
    }

    // It voted for the top.
    fn has_voted(&self, top: Uid) -> bool
        ensures { result ≡ is_on self.now.voted top }
    {
        self.voted.contains(&top)
    }

    // The binding by which an object is active, none where it isn't.
    fn active_binding(&self, x: u16) -> Binding
        ensures { result ≡ server.active_binding x self.now }
    {
        match self.manager.copy(x) {
            Some(object) => object.binding(),
            None => UNBOUND,
        }
    }

    // The action sent a later request than this one.
    fn is_below(&self, head: &Head) -> bool
        ensures { result ≡ server.is_below head.now.req (at_uid (actor head.now.path) self.now.kept) }
    {
        match self.kept.get(&head.path.last()) {
            Some(kept) => kept.is_after(head.req),
            None => false,
        }
    }

    // The answer that was kept, if this is the request that it answers.
    fn answer_kept(&self, head: &Head) -> Result<Option<InvokedReply>, AllocError>
        ensures answer { IfOk result (λ answer. answer ≡ answer_kept head.now self.now) }
        ensures copies { AreCopies self.now.objects }
    {
        let Some(kept) = self.kept.get(&head.path.last()) else {
            return Ok(None);
        };
        if kept.is_of(head.req) {
            Ok(Some(kept.answer()?))
        } else {
            Ok(None)
        }
    }

    // ---- what differs from a request

    fn other_inc(&self, had: u32) -> Option<What>
        ensures { result ≡ server.other_inc had self.now.inc }
    {
        if had == self.inc {
            None
        } else {
            Some(What::Inc { had, now: self.inc })
        }
    }

    // An object that isn't active differs from every binding.
    fn changed_copy(&self, x: u16, had: Binding) -> Option<What>
        ensures { result ≡ server.changed_copy had (at_number x self.now.objects) }
    {
        match self.manager.copy(x) {
            Some(object) => other_binding(had, object.binding()),
            None => Some(What::Bind { had, now: UNBOUND }),
        }
    }

    // The incarnation, and then the binding.
    fn changed_by(&self, inc: u32, x: u16, binding: Binding) -> Option<What>
        ensures { result ≡ server.changed_by inc x binding self.now }
    {
        self.other_inc(inc).or(self.changed_copy(x, binding))
    }

    // The first object with another binding.
    fn first_unbound(&self, objects: &[(u16, Binding)]) -> Option<What>
        ensures { result ≡ server.first_unbound objects.now self.now }
    {
        for object in objects {
            if let Some(what) = self.changed_copy(object.0, object.1) {
                return Some(what);
            }
        }
        None
    }

    // The incarnation, and then the bindings.
    fn changed_since(&self, inc: u32, objects: &[(u16, Binding)]) -> Option<What>
        ensures { result ≡ either (server.other_inc inc self.now.inc) (server.first_unbound objects.now self.now) }
    {
        self.other_inc(inc).or(self.first_unbound(objects))
    }

    // ---- activate

    fn take_copy(
        &mut self,
        node: u8,
        x: u16,
        m: &Activate,
        out: &mut Lines,
    ) -> Result<(), AllocError>
        requires { Restores m.now.state.format m.now.state.class m.now.state.payload }
        ensures part { OnOk result (self.new ≡ (server.took_copy node x m.now.binding m.now.state self.old).part) }
        ensures lines { OnOk result (out.new ≡ out.old ++ said (server.took_copy node x m.now.binding m.now.state self.old).outs) }
    {
        let binding = m.binding;
        match self.manager.activate(self.alloc, x, binding, &m.state) {
            Ok(()) => say(out, Body::Active { node, x, binding }),
            Err(ManagerFault::Memory) => Err(AllocError),
            Err(_) => unreachable!(),
        }
    }

    // ---- ends

    // What an end is taken for: a top's commit only where the server voted for the top.
    fn taken_end(&self, action: Uid, end: End) -> End
        ensures { result ≡ server.taken_end action end self.now }
    {
        match end {
            End::Abort => End::Abort,
            End::Commit => {
                if self.manager.is_top(action) && !self.has_voted(action) {
                    End::Abort
                } else {
                    End::Commit
                }
            }
        }
    }

    fn end_new(
        &mut self,
        node: u8,
        action: Uid,
        end: End,
        out: &mut Lines,
    ) -> Result<(), AllocError>
        ensures part { OnOk result (self.new ≡ (server.end_new node action end self.old).part) }
        ensures lines { OnOk result (out.new ≡ out.old ++ said (server.end_new node action end self.old).outs) }
    {
        self.ends.insert(action, end)?;
        if self.manager.holds(action) {
            let part = Part::Server;
            let body = Body::Told {
                node,
                action,
                end,
                part,
            };
            say(out, body)?;
        }
        end_objects(&mut self.manager, action, end);
        self.kept.remove(&action);
        self.voted.remove(&action);
        Ok(())
    }

    // One end: what was told before changes nothing.
    fn end_one(
        &mut self,
        node: u8,
        action: Uid,
        end: End,
        out: &mut Lines,
    ) -> Result<(), AllocError>
        ensures part { OnOk result (self.new ≡ (server.end_one node action end self.old).part) }
        ensures lines { OnOk result (out.new ≡ out.old ++ said (server.end_one node action end self.old).outs) }
    {
        if self.is_told(action) {
            return Ok(());
        }
        let taken = self.taken_end(action, end);
        self.end_new(node, action, taken, out)
    }

    fn apply_ends(
        &mut self,
        node: u8,
        ends: &[(Uid, End)],
        out: &mut Lines,
    ) -> Result<(), AllocError>
        ensures part { OnOk result (self.new ≡ (server.apply_ends node ends.now self.old).part) }
        ensures lines { OnOk result (out.new ≡ out.old ++ said (server.apply_ends node ends.now self.old).outs) }
    {
        for end in ends {
            self.end_one(node, end.0, end.1, out)?;
        }
        Ok(())
    }

    // ---- invoke

    // The operation in its lock.
    fn run(&mut self, node: u8, m: &Invoke, out: &mut Lines) -> Result<InvokedReply, AllocError>
        requires form { OpInForm m.now.op }
        requires may { MayDo m.now.x m.now.op self.old.objects }
        ensures part { OnOk result (self.new ≡ (ran node m.now self.old).part) }
        ensures lines { OnOk result (out.new ≡ out.old ++ said (ran node m.now self.old).outs) }
        ensures reply { IfOk result (λ answer. (ran node m.now self.old).reply ≡ Some answer) }
    {
        operations_keep();
        let done = self.manager.invoke(m.x, &m.head.path, &m.op);
        answer(node, m, done, out)
    }

    // The answer is kept.
    fn keep(&mut self, head: &Head, reply: &InvokedReply) -> Result<(), AllocError>
        ensures { OnOk result (self.new ≡ server.keeps (actor head.now.path) head.now.req (Some reply.now) self.old) }
    {
        let kept = Kept::new(head.req, copy_reply(reply)?);
        self.kept.insert(head.path.last(), kept)?;
        Ok(())
    }

    // A request that wasn't run yet: the ends that are new, and then the operation.
    fn invoke_new(
        &mut self,
        node: u8,
        m: &Invoke,
        out: &mut Lines,
    ) -> Result<InvokedReply, AllocError>
        requires form { OpInForm m.now.op }
        requires has_op { HasOp m.now.x m.now.op self.old.objects }
        requires copies { AreCopies self.old.objects }
        ensures part { OnOk result (self.new ≡ (server.invoke_new node m.now.head m.now.x m.now.ends m.now.op self.old).part) }
        ensures lines { OnOk result (out.new ≡ out.old ++ said (server.invoke_new node m.now.head m.now.x m.now.ends m.now.op self.old).outs) }
        ensures reply { IfOk result (λ answer. (server.invoke_new node m.now.head m.now.x m.now.ends m.now.op self.old).reply ≡ Some answer) }
    {
        self.apply_ends(node, m.ends.as_slice(), out)?;
        let reply = self.run(node, m, out)?;
        self.keep(&m.head, &reply)?;
        Ok(reply)
    }

    // The last request again is answered by what was kept.
    fn invoke_kept(
        &mut self,
        node: u8,
        m: &Invoke,
        out: &mut Lines,
    ) -> Result<InvokedReply, AllocError>
        requires form { OpInForm m.now.op }
        requires has_op { HasOp m.now.x m.now.op self.old.objects }
        ensures part { OnOk result (self.new ≡ (server.invoke_kept node m.now.head m.now.x m.now.ends m.now.op self.old (at_uid (actor m.now.head.path) self.old.kept)).part) }
        ensures lines { OnOk result (out.new ≡ out.old ++ said (server.invoke_kept node m.now.head m.now.x m.now.ends m.now.op self.old (at_uid (actor m.now.head.path) self.old.kept)).outs) }
        ensures reply { IfOk result (λ answer. (server.invoke_kept node m.now.head m.now.x m.now.ends m.now.op self.old (at_uid (actor m.now.head.path) self.old.kept)).reply ≡ Some answer) }
    {
        match self.answer_kept(&m.head)? {
            Some(answer) => Ok(answer),
            None => self.invoke_new(node, m, out),
        }
    }

    // ---- vote

    fn vote_yes(&mut self, node: u8, m: &Vote, out: &mut Lines) -> Result<VotedReply, AllocError>
        ensures part { OnOk result (self.new ≡ (server.vote_yes node (actor m.now.head.path) m.now.ends self.old).part) }
        ensures lines { OnOk result (out.new ≡ out.old ++ said (server.vote_yes node (actor m.now.head.path) m.now.ends self.old).outs) }
        ensures reply { IfOk result (λ answer. (server.vote_yes node (actor m.now.head.path) m.now.ends self.old).reply ≡ Some answer) }
    {
        let top = m.head.path.last();
        self.apply_ends(node, m.ends.as_slice(), out)?;
        self.voted.insert(top)?;
        let states = self.manager.changed_states(self.alloc, top)?;
        Ok(VotedReply::Yes(states))
    }
}

// Whether the class of a value has an operation.
fn has_op(value: &Value, op: &Op) -> bool
    ensures { result ≡ has_op_in (own_class value.now) op.now }
{
    Value::mode(value.own_class(), op).is_some()
}

// Who had asked.
fn asked_by(head: &Head) -> Asked
    ensures { result ≡ asked_by head.now }
{
    Asked {
        act: head.path.last(),
        req: head.req,
    }
}

// The binding is the lesser one.
fn is_less(binding: Binding, other: Binding) -> bool
    ensures { result ≡ binding_less binding other }
{
    names_compare_as_numbers();
    binding < other
}

// They are one binding.
fn is_same(binding: Binding, other: Binding) -> bool
    ensures { result ≡ binding_eq binding other }
{
    names_compare_as_numbers();
    binding == other
}

fn other_binding(had: Binding, now: Binding) -> Option<What>
    ensures { result ≡ server.other_binding had now }
{
    if is_same(had, now) {
        None
    } else {
        Some(What::Bind { had, now })
    }
}

// Appends a line. Its event gets its number later.
fn say(out: &mut Lines, body: Body) -> Result<(), AllocError>
    ensures { OnOk result (out.new ≡ out.old ++ record { event = 0; body = body } ∷ []) }
{
    out.push(Line { event: 0, body })
}

// Each object after an end.
fn end_objects(manager: &mut StateManager, action: Uid, end: End)
    ensures { manager.new ≡ ended action end manager.old }
{
    match end {
        End::Abort => manager.abort(action),
        End::Commit => manager.commit(action),
    }
}

// What an operation is answered, and the line of its lock.
fn answer(
    node: u8,
    m: &Invoke,
    done: Result<Option<Ran>, ManagerFault>,
    out: &mut Lines,
) -> Result<InvokedReply, AllocError>
    requires op { IsErrOf done fault.WrongOp → ⊥ }
    requires payload { IsErrOf done fault.Payload → ⊥ }
    ensures lines { OnOk result (out.new ≡ out.old ++ said (lines_of node m.now done)) }
    ensures reply { IfOk result (λ answer. reply_of done ≡ Some answer) }
{
    match done {
        Ok(Some(ran)) => {
            say_granted(node, m, &ran, out)?;
            Ok(InvokedReply::Answered(ran.answer))
        }
        Ok(None) => Ok(InvokedReply::Changed(What::Bind {
            had: UNBOUND,
            now: UNBOUND,
        })),
        Err(ManagerFault::Conflict { holder, mode }) => {
            Ok(InvokedReply::Conflict { holder, mode })
        }
        Err(ManagerFault::Memory) => Err(AllocError),
        Err(_) => unreachable!(),
    }
}

// Says that the action's lock on the object was granted or rose, where it was.
fn say_granted(node: u8, m: &Invoke, ran: &Ran, out: &mut Lines) -> Result<(), AllocError>
    ensures { OnOk result (out.new ≡ out.old ++ said (grant_said node (last_uid (uids_of m.now.head.path)) (object m.now.x) ran.now.granted)) }
{
    match ran.granted {
        Some(mode) => {
            let action = m.head.path.last();
            let object = object_uid(m.x);
            let body = Body::Granted {
                node,
                action,
                object,
                mode,
            };
            say(out, body)
        }
        None => Ok(()),
    }
}
