// The last step: the decided end is told.
ghost use Rattle.std.specs.Prelude.{◌≡◌, ◌&&◌, false, true, map, is_some, IfOk, IfSome, [], ◌∷◌};
ghost use Rattle.arj_base.specs.declared.mode.End.TheVariants as ending;
ghost use Rattle.arj_intent.specs.Records.{IsInForm};
ghost use Rattle.arj_protocol.specs.Ask.{actor};
ghost use Rattle.arj_protocol.specs.Commit.{participants, has_record};
ghost use Rattle.arj_protocol.specs.Ending.{decided_told, record_work, tell_all};
ghost use Rattle.arj_protocol.specs.Order.{has, without_number};
ghost use Rattle.arj_protocol.specs.Tree.{root_of};
ghost use Rattle.arj_commit.specs.Fits.{PlanFits};
ghost use Rattle.arj_commit.specs.Tolds.{sent_to, work_of};
ghost use Rattle.arj_protocol.specs.Order.{is_empty};

use crate::sets::{are_all, has};
use crate::tolds::{tolds, tolds_again};
use crate::whom::{is_recorded, participants};
use crate::{Plan, Requests};
use arj_base::NodeList;
use arj_intent::Intent;
use std::alloc::{AllocError, Global};
use std::marker::Model;

/// The commit can be decided: with its record in place, or at once where it has none. Then the end is told, and the
/// participants acknowledge.
#[derive(Drop)]
pub struct Telling {
    plan: Plan,
    left: NodeList,
}

impl Model for Telling {
    ghost use Rattle.arj_commit.specs.Awaiting.{Awaiting};
    ghost use Rattle.arj_commit.specs.Fits.{PlanFits};

    ghost Value = { Awaiting };

    ghost view = { λ t. record { plan = t.plan; left = t.left } };

    ghost invariant = { λ t. PlanFits t.plan };
}

impl Telling {
    // The step is entered: these nodes have to acknowledge.
    pub(crate) fn new(plan: Plan, left: NodeList) -> Telling
        requires { PlanFits plan }
        ensures { result ≡ record { plan = plan; left = left } }
    {
        Telling { plan, left }
    }

    /// The plan of the commit.
    pub fn plan(&self) -> &Plan
        ensures { result.now ≡ self.now.plan }
    {
        &self.plan
    }

    /// The participants that haven't acknowledged, in increasing order.
    pub fn left(&self) -> &[u8]
        ensures { result.now ≡ self.now.left }
    {
        self.left.as_slice()
    }

    /// The record that decides the commit. None exactly where the commit is read-only.
    pub fn intent(&self, alloc: Global) -> Result<Option<Intent>, AllocError>
        ensures work { IfOk result (λ i. work_of i ≡ record_work (actor self.now.plan.path) self.now.plan) }
        ensures there { IfOk result (λ i. is_some i ≡ has_record self.now.plan) }
        ensures lists { IfOk result (λ i. IfSome i (λ r. r.nodes ≡ participants self.now.plan)) }
        ensures form { IfOk result (λ i. IfSome i IsInForm) }
    {
        if !self.has_record() {
            return Ok(None);
        }
        Ok(Some(Intent {
            root: self.plan.path.root(),
            top: self.plan.path.last(),
            nodes: participants(alloc, &self.plan)?,
        }))
    }

    /// The nodes that take part in the commit, in increasing order.
    pub fn participants(&self, alloc: Global) -> Result<NodeList, AllocError>
        ensures nodes { IfOk result (λ nodes. nodes ≡ participants self.now.plan) }
        ensures fits { PlanFits self.now.plan }
    {
        participants(alloc, &self.plan)
    }

    // Whether the commit has a record.
    fn has_record(&self) -> bool
        ensures { result ≡ has_record self.now.plan }
    {
        let used = self.plan.used.as_slice();
        let prepared = self.plan.prepared.as_slice();
        is_recorded(
            used,
            prepared,
            self.plan.excluded.as_slice(),
            self.plan.confirmed,
        )
    }

    /// All tolds of the decision: to each node that was sent a message of the top, commit if it takes part, else abort.
    pub fn first(&self, alloc: Global) -> Result<Requests, AllocError>
        ensures { IfOk result (λ all. map sent_to all ≡ map (decided_told (root_of self.now.plan.path) (actor self.now.plan.path) self.now.plan) self.now.plan.sent) }
    {
        let nodes = participants(alloc, &self.plan)?;
        let ack = self.has_record();
        tolds(alloc, &self.plan, nodes.as_slice(), ack)
    }

    /// The tolds that aren't acknowledged.
    #[tactic(auto, using(crate::proofs::Tells::told_again))]
    pub fn waiting(&self, alloc: Global) -> Result<Requests, AllocError>
        ensures { IfOk result (λ all. map sent_to all ≡ tell_all (root_of self.now.plan.path) true ((actor self.now.plan.path, ending.Commit) ∷ []) self.now.left) }
    {
        tolds_again(alloc, &self.plan, self.left.as_slice())
    }

    /// Takes an acknowledgement, and tells whether it was the last that was awaited. One that isn't awaited changes
    /// nothing.
    #[tactic(auto, using(crate::proofs::Tells::without_other))]
    pub fn acked(&mut self, from: u8) -> bool
        ensures plan { self.new.plan ≡ self.old.plan }
        ensures left { self.new.left ≡ without_number from self.old.left }
        ensures other { has self.old.left from ≡ false → self.new ≡ self.old }
        ensures last { result ≡ (has self.old.left from && is_empty (without_number from self.old.left)) }
    {
        if !has(self.left.as_slice(), from) {
            return false;
        }
        let last = are_all(self.left.as_slice(), from);
        self.left.remove_all(from);
        last
    }
}
