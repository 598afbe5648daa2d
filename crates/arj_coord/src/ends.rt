// How actions end.
ghost use Rattle.std.specs.Prelude.{◌≡◌, ◌++◌, ◌∷◌, [], not, false, filter, IfOk, OnOk};
ghost use Rattle.std.specs.List.{flat_map};
ghost use Rattle.arj_base.specs.declared.mode.End.TheVariants as ending;
ghost use Rattle.arj_coord.specs.Shown.{line_of, said};
ghost use Rattle.arj_protocol.specs.Coord as coord;
ghost use Rattle.arj_protocol.specs.Coord.{root_at};
ghost use Rattle.arj_protocol.specs.Ending as endings;
ghost use Rattle.arj_protocol.specs.Ending.{all_aborted, ended, is_deferred, says, tell_all, tolds_of, up_to};
ghost use Rattle.arj_protocol.specs.Tree.{ends_of};

use crate::deciding::say;
use crate::ending::{EndLine, body};
use crate::tolds::{not_deferred, one_end, tell_all, up_to};
use crate::{Coord, Effects, Records};
use arj_base::{End, NodeList, Uid};
use arj_journal::{Body, Cause};
use arj_tree::Kind;
use std::alloc::AllocError;

impl Coord {
    // The line of an end, by the action's label.
    pub(crate) fn line(&self, action: Uid, line: EndLine) -> Option<Body>
        ensures { said result ≡ says action (line_of line) self.now }
    {
        match self.label(action) {
            Some(label) => Some(body(line, label)),
            None => None,
        }
    }

    // A line of an end, by the action's label.
    fn says(&self, action: Uid, line: EndLine, outs: &mut Effects) -> Result<(), AllocError>
        ensures { OnOk result (outs.new ≡ outs.old ++ says action (line_of line) self.now) }
    {
        say(self.line(action, line), outs)
    }

    // An action ends, and waits for nothing.
    pub(crate) fn end(&mut self, action: Uid, outcome: End) -> Result<(), AllocError>
        ensures { OnOk result (self.new ≡ ended action outcome self.old) }
    {
        self.close(action, outcome)?;
        self.take(action);
        Ok(())
    }

    // The nodes that a root sent a message of the action or of one below it.
    pub(crate) fn nodes_sent(&self, root: Uid, action: Uid) -> Result<NodeList, AllocError>
        ensures { IfOk result (λ nodes. nodes ≡ coord.nodes_sent action (root_at root self.now)) }
    {
        match self.root(root) {
            Some(has) => has.nodes_sent(action),
            None => Ok(NodeList::new(self.alloc)),
        }
    }

    // The servers that a root sent an Invoke of the action or of one that was merged into it.
    fn servers_told(&self, root: Uid, action: Uid) -> Result<NodeList, AllocError>
        ensures { IfOk result (λ nodes. nodes ≡ coord.servers_told action (root_at root self.now) self.now) }
    {
        match self.root(root) {
            Some(has) => has.servers_told(action, &self.tree),
            None => Ok(NodeList::new(self.alloc)),
        }
    }

    // The end of a nested action is told.
    fn tell_nested(&self, action: Uid, root: Uid, outs: &mut Effects) -> Result<(), AllocError>
        ensures { OnOk result (outs.new ≡ outs.old ++ tell_all root false (up_to action (ends_of root self.now.tree)) (coord.servers_told action (root_at root self.now) self.now)) }
    {
        let nodes = self.servers_told(root, action)?;
        let ends = up_to(self.alloc, action, self.tree.ends(root).as_slice())?;
        tell_all(root, false, &ends, nodes.as_slice(), outs)
    }

    // The end of a serializing action is told.
    fn tell_serial(
        &self,
        action: Uid,
        intents: &Records,
        outs: &mut Effects,
    ) -> Result<(), AllocError>
        ensures { OnOk result (outs.new ≡ outs.old ++ tell_all action false ((action, ending.Abort) ∷ []) (filter (λ n. not (is_deferred action intents.now n)) (coord.nodes_sent action (root_at action self.now)))) }
    {
        let sent = self.nodes_sent(action, action)?;
        let nodes = not_deferred(self.alloc, action, intents, sent.as_slice())?;
        let ends = one_end(self.alloc, action, End::Abort)?;
        tell_all(action, false, &ends, nodes.as_slice(), outs)
    }

    // The abort of a top is told.
    fn tell_top(&self, action: Uid, root: Uid, outs: &mut Effects) -> Result<(), AllocError>
        ensures { OnOk result (outs.new ≡ outs.old ++ tell_all root false ((action, ending.Abort) ∷ []) (coord.nodes_sent action (root_at root self.now))) }
    {
        let nodes = self.nodes_sent(root, action)?;
        let ends = one_end(self.alloc, action, End::Abort)?;
        tell_all(root, false, &ends, nodes.as_slice(), outs)
    }

    // The end of an action is told.
    fn tell_end(&self, action: Uid, intents: &Records, outs: &mut Effects) -> Result<(), AllocError>
        ensures { OnOk result (outs.new ≡ outs.old ++ tolds_of intents.now self.now action) }
    {
        let Some(found) = self.tree.action(action) else {
            return Ok(());
        };
        match found.kind() {
            Kind::Nested => self.tell_nested(action, found.path().root(), outs),
            Kind::Serial => self.tell_serial(action, intents, outs),
            _ => self.tell_top(action, found.path().root(), outs),
        }
    }

    /// Ends an action with its line, and then it is told. `intents` are the records on the disk.
    #[tactic(auto, using(std::proofs::lemmas::List::append_assoc))]
    pub fn ends_with(
        &mut self,
        action: Uid,
        outcome: End,
        line: EndLine,
        intents: &Records,
        outs: &mut Effects,
    ) -> Result<(), AllocError>
        ensures part { OnOk result (self.new ≡ (endings.ends_with action outcome (line_of line) intents.now self.old).part) }
        ensures outs { OnOk result (outs.new ≡ outs.old ++ (endings.ends_with action outcome (line_of line) intents.now self.old).outs) }
    {
        self.says(action, line, outs)?;
        self.end(action, outcome)?;
        self.tell_end(action, intents, outs)
    }

    /// Aborts an action with its line and this cause, and then it is told.
    pub fn aborts_with(
        &mut self,
        action: Uid,
        why: Cause,
        intents: &Records,
        outs: &mut Effects,
    ) -> Result<(), AllocError>
        ensures part { OnOk result (self.new ≡ (endings.aborts_with action why intents.now self.old).part) }
        ensures outs { OnOk result (outs.new ≡ outs.old ++ (endings.aborts_with action why intents.now self.old).outs) }
    {
        self.ends_with(action, End::Abort, EndLine::Aborted(why), intents, outs)
    }

    // These actions are aborted, each with its line.
    fn abort_all(&mut self, actions: &[Uid], outs: &mut Effects) -> Result<(), AllocError>
        ensures part { OnOk result (self.new ≡ (all_aborted actions.now self.old).part) }
        ensures outs { OnOk result (outs.new ≡ outs.old ++ (all_aborted actions.now self.old).outs) }
    {
        for action in actions {
            self.says(*action, EndLine::Aborted(Cause::Asked), outs)?;
            self.end(*action, End::Abort)?;
        }
        Ok(())
    }

    // The ends of these actions are told.
    fn tell_ends(
        &self,
        actions: &[Uid],
        intents: &Records,
        outs: &mut Effects,
    ) -> Result<(), AllocError>
        ensures { OnOk result (outs.new ≡ outs.old ++ flat_map (tolds_of intents.now self.now) actions.now) }
    {
        for action in actions {
            self.tell_end(*action, intents, outs)?;
        }
        Ok(())
    }

    /// Aborts an action because it was asked for: its open descendants first, the one begun last before the others, each
    /// with its line; then all of them are told.
    #[tactic(auto, using(std::proofs::lemmas::List::append_assoc))]
    pub fn abort_action(
        &mut self,
        action: Uid,
        intents: &Records,
        outs: &mut Effects,
    ) -> Result<(), AllocError>
        ensures part { OnOk result (self.new ≡ (endings.abort_action action intents.now self.old).part) }
        ensures outs { OnOk result (outs.new ≡ outs.old ++ (endings.abort_action action intents.now self.old).outs) }
    {
        let mut actions = self.tree.open_below(action)?;
        actions.push(action)?;
        self.abort_all(actions.as_slice(), outs)?;
        self.tell_ends(actions.as_slice(), intents, outs)
    }
}
