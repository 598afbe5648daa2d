// The decision of a commit, its acknowledgements and queries.
ghost use Rattle.std.specs.Prelude.{◌≡◌, ◌++◌, false, is_some, option_map, IfOk, OnOk};
ghost use Rattle.arj_coord.specs.Ended.{record_in, awaiting, without_node, left_by};
ghost use Rattle.arj_intent.specs.Records.{shown};
ghost use Rattle.arj_protocol.specs.Ask.{actor};
ghost use Rattle.arj_protocol.specs.Coord.{doing_of, is_kept_top};
ghost use Rattle.arj_protocol.specs.Ending as endings;
ghost use Rattle.arj_protocol.specs.Ending.{answer_decided, answer_recorded, is_kept_commit, is_over, let_go, root_or_self, tolds_let_go, took_part};
ghost use Rattle.arj_protocol.specs.Order.{at_uid, without_uid};
ghost use Rattle.arj_protocol.specs.Tree.{branch_of};

use crate::deciding::put_decision;
use crate::ending::EndLine;
use crate::records::record_of;
use crate::tolds::{has, one_end, tell, tell_all};
use crate::{Coord, Effects, Record, Records};
use arj_base::{End, NodeList, Uid};
use arj_commit::Telling;
use arj_intent::Intent;
use arj_tree::Kind;
use std::alloc::AllocError;

// What a record says, in other memory.
fn awaited(intent: &Option<Intent>) -> Result<Option<Record>, AllocError>
    ensures { IfOk result (λ copied. copied ≡ option_map shown intent.now) }
{
    match intent {
        Some(intent) => Ok(Some(record_of(intent)?)),
        None => Ok(None),
    }
}

impl Coord {
    // The nodes of a record, if there is one, are awaited.
    fn await_nodes(&mut self, top: Uid, nodes: Option<Record>) -> Result<(), AllocError>
        ensures { OnOk result (self.new ≡ awaiting top nodes self.old) }
    {
        match nodes {
            Some(nodes) => self.telling.put(top, nodes),
            None => Ok(()),
        }
    }

    /// Decides a commit: its record is put, which is the decision; then comes the line; then each node that was sent a
    /// message of the top is told, in increasing order. Where there is a record its nodes are awaited.
    pub fn decide(&mut self, telling: &Telling, outs: &mut Effects) -> Result<(), AllocError>
        ensures part { OnOk result (self.new ≡ (endings.decide telling.now.plan self.old).part) }
        ensures outs { OnOk result (outs.new ≡ outs.old ++ (endings.decide telling.now.plan self.old).outs) }
    {
        let intent = telling.intent(self.alloc)?;
        let awaited = awaited(&intent)?;
        let first = telling.first(self.alloc)?;
        let top = telling.plan().path.last();
        put_decision(intent, self.line(top, EndLine::Committed), first, outs)?;
        self.decided(telling, awaited)
    }

    // A commit is decided, and the nodes of its record are awaited.
    fn decided(&mut self, telling: &Telling, awaited: Option<Record>) -> Result<(), AllocError>
        requires { awaited ≡ record_in telling.now.plan }
        ensures { OnOk result (self.new ≡ endings.decided (actor telling.now.plan.path) telling.now.plan self.old) }
    {
        let plan = telling.plan();
        let top = plan.path.last();
        let took = telling.participants(self.alloc)?;
        self.end(top, End::Commit)?;
        self.take_part(top, took);
        self.note_decided(plan)?;
        self.await_nodes(top, awaited)
    }

    // ---- acknowledgements

    // Whether an action has ended.
    fn is_over(&self, action: Uid) -> bool
        ensures { result ≡ is_over (branch_of action self.now.tree) }
    {
        match self.tree.action(action) {
            Some(found) => found.is_ended(),
            None => false,
        }
    }

    // The nodes that no other record of the root lists and that the root sent something.
    fn let_go(
        &self,
        top: Uid,
        root: Uid,
        intents: &Records,
        nodes: &[u8],
    ) -> Result<NodeList, AllocError>
        ensures { IfOk result (λ left. left ≡ let_go root (without_uid top intents.now) self.now nodes.now) }
    {
        let sent = self.nodes_sent(root, root)?;
        let mut left = NodeList::new(self.alloc);
        for node in nodes {
            if !intents.is_deferred_without(top, root, *node) && has(sent.as_slice(), *node) {
                left.push(*node)?;
            }
        }
        Ok(left)
    }

    // Where the record that is removed is of a constituent, and its serializing action has ended, the nodes that it let
    // go are told of that.
    fn tell_let_go(&self, top: Uid, intents: &Records, outs: &mut Effects) -> Result<(), AllocError>
        ensures { OnOk result (outs.new ≡ outs.old ++ tolds_let_go top (without_uid top intents.now) self.now (at_uid top intents.now)) }
    {
        let Some(record) = intents.get(top) else {
            return Ok(());
        };
        let root = record.root;
        if root == top || !self.is_over(root) {
            return Ok(());
        }
        let nodes = self.let_go(top, root, intents, record.nodes.as_slice())?;
        let ends = one_end(self.alloc, root, End::Abort)?;
        tell_all(root, false, &ends, nodes.as_slice(), outs)
    }

    /// Takes an acknowledgement of a told about a top. False: it is void, since none is awaited of the node. The last one
    /// removes the record, and lets nodes go. `intents` are the records on the disk, this one still among them.
    pub fn acked(
        &mut self,
        from: u8,
        top: Uid,
        intents: &Records,
        outs: &mut Effects,
    ) -> Result<bool, AllocError>
        ensures part { OnOk result (self.new ≡ (endings.acked from top intents.now self.old).part) }
        ensures outs { OnOk result (outs.new ≡ outs.old ++ (endings.acked from top intents.now self.old).outs) }
        ensures taken { IfOk result (λ taken. taken ≡ is_some (endings.acked from top intents.now self.old).reply) }
        ensures void { IfOk result (λ taken. taken ≡ false → self.new ≡ self.old) }
    {
        let Some(left) = self.left_without(from, top)? else {
            return Ok(false);
        };
        self.left(top, left, intents, outs)?;
        Ok(true)
    }

    // What a top awaits without this node. None: it doesn't await the node.
    fn left_without(&self, from: u8, top: Uid) -> Result<Option<Record>, AllocError>
        ensures { IfOk result (λ left. left ≡ without_node from (at_uid top self.now.telling)) }
    {
        let Some(record) = self.telling.get(top) else {
            return Ok(None);
        };
        if !has(record.nodes.as_slice(), from) {
            return Ok(None);
        }
        let mut nodes = record.nodes.copy()?;
        nodes.remove_all(from);
        Ok(Some(Record {
            root: record.root,
            nodes,
        }))
    }

    // A top awaits these nodes from now on; where there are none its record is removed.
    #[tactic(auto, using(std::proofs::lemmas::List::append_assoc))]
    fn left(
        &mut self,
        top: Uid,
        left: Record,
        intents: &Records,
        outs: &mut Effects,
    ) -> Result<(), AllocError>
        ensures part { OnOk result (self.new ≡ (left_by top left intents.now self.old).part) }
        ensures outs { OnOk result (outs.new ≡ outs.old ++ (left_by top left intents.now self.old).outs) }
    {
        if !left.nodes.as_slice().is_empty() {
            return self.telling.put(top, left);
        }
        self.telling.remove(top);
        outs.remove_record(top)?;
        self.tell_let_go(top, intents, outs)
    }

    // ---- queries

    // The root of an action that is known; else the action itself.
    fn root_or_self(&self, action: Uid) -> Uid
        ensures { result ≡ root_or_self action (branch_of action self.now.tree) }
    {
        match self.tree.action(action) {
            Some(found) => found.path().root(),
            None => action,
        }
    }

    // Whether the node took part in the commit of an action.
    fn took_part(&self, node: u8, action: Uid) -> bool
        ensures { result ≡ took_part node (doing_of action self.now) }
    {
        match self.doing(action) {
            Some(doing) => doing.took_part(node),
            None => false,
        }
    }

    // Whether it is a committed constituent of an open serializing action, in which the node took part.
    fn is_kept_commit(&self, from: u8, action: Uid) -> bool
        ensures { result ≡ is_kept_commit from action self.now }
    {
        self.is_kept_top(action)
            && (self.tree.is_open(self.root_or_self(action)) && self.took_part(from, action))
    }

    // Whether it is a committed constituent.
    fn is_kept_top(&self, action: Uid) -> bool
        ensures { result ≡ is_kept_top action self.now }
    {
        self.tree.kind(action) == Some(Kind::Constituent) && self.tree.is_committed(action)
    }

    // The answer to a query about an action without a record that lists the node.
    fn answer_decided(&self, from: u8, action: Uid, outs: &mut Effects) -> Result<(), AllocError>
        ensures { OnOk result (outs.new ≡ outs.old ++ answer_decided from action self.now) }
    {
        let end = if self.is_kept_commit(from, action) {
            End::Commit
        } else {
            End::Abort
        };
        let ends = one_end(self.alloc, action, end)?;
        tell(self.root_or_self(action), false, &ends, from, outs)
    }

    // The answer to a query about an action that has ended.
    fn answer_recorded(
        &self,
        from: u8,
        action: Uid,
        intents: &Records,
        outs: &mut Effects,
    ) -> Result<(), AllocError>
        ensures { OnOk result (outs.new ≡ outs.old ++ answer_recorded from action self.now (at_uid action intents.now)) }
    {
        match intents.get(action) {
            Some(record) => {
                if has(record.nodes.as_slice(), from) {
                    let ends = one_end(self.alloc, action, End::Commit)?;
                    tell(record.root, true, &ends, from, outs)
                } else {
                    self.answer_decided(from, action, outs)
                }
            }
            None => self.answer_decided(from, action, outs),
        }
    }

    /// Answers a node's query how an action ended: nothing while it is open, and nothing of a serializing action while a
    /// record of a constituent lists the node. `intents` are the records on the disk.
    pub fn answer_query(
        &self,
        from: u8,
        action: Uid,
        intents: &Records,
        outs: &mut Effects,
    ) -> Result<(), AllocError>
        ensures { OnOk result (outs.new ≡ outs.old ++ endings.answer_query from action intents.now self.now) }
    {
        if self.tree.is_open(action) || intents.is_deferred(action, from) {
            return Ok(());
        }
        self.answer_recorded(from, action, intents, outs)
    }
}
