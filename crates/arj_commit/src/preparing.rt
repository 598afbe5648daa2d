// The second step: the stores prepare.
ghost use Rattle.std.specs.Prelude.{◌≡◌, ◌+◌, ◌≤◌, [], true, IfOk, IfErr};
ghost use Rattle.std.specs.List.{AllByRecursion};
ghost use Rattle.arj_protocol.specs.Commit.{given_up, stores_left, prepared_by, marks_store, marks_stores};
ghost use Rattle.arj_protocol.specs.Order.{without_number};
ghost use Rattle.arj_protocol.specs.Words.prepared;
ghost use Rattle.arj_commit.specs.Fits.{IsNode, PlanFits};
ghost use Rattle.arj_commit.specs.Requests.{requests};
ghost use Rattle.arj_commit.specs.Steps.{preparing, takes, waits_for, heard, after_stores, AwaitsAll};
ghost use Rattle.arj_commit.specs.declared.limits.TheConstants.{LAST_START};

use crate::answer::{PREPARED, is_asked_by, is_awaited, kinded};
use crate::marks::marked;
use crate::next::{enter, next_of_stores};
use crate::requests::prepares;
use crate::sets::{are_all, with_node};
use crate::{Plan, Requests, Step};
use arj_base::NodeList;
use arj_journal::Cause;
use arj_msg::{Marks, Message, PreparedReply};
use std::alloc::{AllocError, AllocFailed, Global};
use std::marker::Model;

/// The stores prepare the new states. A store that another action keeps busy is marked for exclusion, and so is one that
/// doesn't answer; the commit goes on without it.
#[derive(Drop)]
pub struct Preparing {
    alloc: Global,
    plan: Plan,
    left: NodeList,
}

impl Model for Preparing {
    ghost use Rattle.std.specs.Prelude.{◌+◌, ◌≤◌};
    ghost use Rattle.std.specs.List.{AllByRecursion};
    ghost use Rattle.arj_commit.specs.Awaiting.{Awaiting};
    ghost use Rattle.arj_commit.specs.Fits.{IsNode, PlanFits};
    ghost use Rattle.arj_commit.specs.declared.limits.TheConstants.{LAST_START};

    ghost Value = { Awaiting };

    ghost view = { λ v. record { plan = v.plan; left = v.left } };

    ghost invariant = { λ v. PlanFits v.plan × (AllByRecursion IsNode v.left × (v.plan.req ≤ LAST_START + 2)) };
}

impl Preparing {
    // The step is entered: these stores are asked.
    pub(crate) fn new(alloc: Global, plan: Plan, left: NodeList) -> Preparing
        requires fits { PlanFits plan }
        requires nodes { AllByRecursion IsNode left }
        requires room { plan.req ≤ LAST_START + 2 }
        ensures { result ≡ record { plan = plan; left = left } }
    {
        Preparing { alloc, plan, left }
    }

    /// The plan of the commit.
    pub fn plan(&self) -> &Plan
        ensures { result.now ≡ self.now.plan }
    {
        &self.plan
    }

    /// The stores that haven't answered, in increasing order. A giveup says of each that it didn't answer.
    pub fn left(&self) -> &[u8]
        ensures { result.now ≡ self.now.left }
    {
        self.left.as_slice()
    }

    /// The requests that aren't answered, in increasing order of their nodes.
    #[tactic(auto, using(crate::proofs::Tells::prepares_wait))]
    pub fn waiting(&self, alloc: Global) -> Result<Requests, AllocError>
        ensures { IfOk result (λ all. all ≡ requests (preparing self.now)) }
    {
        prepares(alloc, &self.plan, self.left.as_slice())
    }

    /// Whether the message answers one of the requests.
    pub fn takes(&self, from: u8, m: &Message) -> bool
        ensures { result ≡ takes from m.now (preparing self.now) }
    {
        is_asked_by(self.plan.path.last(), kinded(m)) && self.waits_for(from, m)
    }

    /// Whether the message, whose asking action has been found to be in this step, answers one of the requests.
    pub fn waits_for(&self, from: u8, m: &Message) -> bool
        ensures { result ≡ waits_for from m.now (preparing self.now) }
    {
        is_awaited(
            PREPARED,
            self.plan.req,
            self.left.as_slice(),
            from,
            kinded(m),
        )
    }

    /// Takes an answer. Where there is no memory for it the step comes back as it was.
    #[tactic(auto, using(crate::proofs::Nodes::one_of))]
    pub fn answered(self, from: u8, m: &Message) -> Result<Step, AllocFailed<Preparing>>
        requires awaited { waits_for from m.now (preparing self) ≡ true }
        ensures step { IfOk result (λ step. heard from m.now (preparing self) ≡ after_stores step) }
        ensures told { IfOk result AwaitsAll }
        ensures kept { IfErr result (λ failed. failed.value ≡ self) }
    {
        match m {
            Message::Prepared(prepared) => match prepared.reply {
                PreparedReply::Yes => self.yes(from),
                PreparedReply::InDoubt { .. } => self.marked(from),
                PreparedReply::Old { x, held } => Ok(Step::Aborted {
                    cause: Cause::Old {
                        node: from,
                        x,
                        version: held,
                    },
                    plan: self.plan,
                }),
            },
            _ => Ok(Step::Preparing(self)),
        }
    }

    // A store has prepared.
    #[tactic(auto, using(crate::proofs::Nodes::all_with, crate::proofs::Nodes::all_without))]
    fn yes(self, from: u8) -> Result<Step, AllocFailed<Preparing>>
        requires { IsNode from }
        ensures step { IfOk result (λ step. prepared_by from self.left self.plan prepared.Yes ≡ after_stores step) }
        ensures told { IfOk result AwaitsAll }
        ensures kept { IfErr result (λ failed. failed.value ≡ self) }
    {
        let Ok(prepared) = with_node(self.alloc, self.plan.prepared.as_slice(), from) else {
            return Err(AllocFailed { value: self });
        };
        if are_all(self.left.as_slice(), from) {
            return self.last_yes(prepared);
        }
        let Preparing {
            alloc,
            plan,
            mut left,
        } = self;
        left.remove_all(from);
        Ok(Step::Preparing(Preparing {
            alloc,
            plan: plan.with_prepared(prepared),
            left,
        }))
    }

    // The last store has answered, and these have prepared.
    fn last_yes(self, prepared: NodeList) -> Result<Step, AllocFailed<Preparing>>
        requires { AllByRecursion IsNode prepared }
        ensures step { IfOk result (λ step. stores_left [] (record self.plan { prepared = prepared }) ≡ after_stores step) }
        ensures told { IfOk result AwaitsAll }
        ensures kept { IfErr result (λ failed. failed.value ≡ self) }
    {
        let plan = &self.plan;
        let excluded = plan.excluded.as_slice();
        let Ok(next) = next_of_stores(self.alloc, plan, prepared.as_slice(), excluded) else {
            return Err(AllocFailed { value: self });
        };
        let Preparing { alloc, plan, .. } = self;
        Ok(enter(alloc, plan.with_prepared(prepared), next))
    }

    // A store is busy: it is marked.
    #[tactic(auto, using(crate::proofs::Nodes::all_without))]
    fn marked(self, from: u8) -> Result<Step, AllocFailed<Preparing>>
        ensures step { IfOk result (λ step. stores_left (without_number from self.left) (marks_store from self.plan) ≡ after_stores step) }
        ensures told { IfOk result AwaitsAll }
        ensures kept { IfErr result (λ failed. failed.value ≡ self) }
    {
        let Ok(excluded) = marks_with(self.alloc, &self.plan, &[from]) else {
            return Err(AllocFailed { value: self });
        };
        if are_all(self.left.as_slice(), from) {
            return self.last_marked(excluded);
        }
        let Preparing {
            alloc,
            plan,
            mut left,
        } = self;
        left.remove_all(from);
        Ok(Step::Preparing(Preparing {
            alloc,
            plan: plan.with_excluded(excluded),
            left,
        }))
    }

    // No store is awaited any more, and these are marked.
    fn last_marked(self, excluded: Marks) -> Result<Step, AllocFailed<Preparing>>
        ensures step { IfOk result (λ step. stores_left [] (record self.plan { excluded = excluded }) ≡ after_stores step) }
        ensures told { IfOk result AwaitsAll }
        ensures kept { IfErr result (λ failed. failed.value ≡ self) }
    {
        let plan = &self.plan;
        let prepared = plan.prepared.as_slice();
        let Ok(next) = next_of_stores(self.alloc, plan, prepared, excluded.as_slice()) else {
            return Err(AllocFailed { value: self });
        };
        let Preparing { alloc, plan, .. } = self;
        Ok(enter(alloc, plan.with_excluded(excluded), next))
    }

    /// Gives the stores up that haven't answered: they are marked, and the commit goes on. Where there is no memory for
    /// it the step comes back as it was.
    pub fn give_up(self) -> Result<Step, AllocFailed<Preparing>>
        ensures step { IfOk result (λ step. given_up (preparing self) ≡ after_stores step) }
        ensures told { IfOk result AwaitsAll }
        ensures kept { IfErr result (λ failed. failed.value ≡ self) }
    {
        let Ok(excluded) = marks_with(self.alloc, &self.plan, self.left.as_slice()) else {
            return Err(AllocFailed { value: self });
        };
        self.last_marked(excluded)
    }
}

// The marks of a plan with those of these stores.
fn marks_with(alloc: Global, plan: &Plan, stores: &[u8]) -> Result<Marks, AllocError>
    requires { PlanFits plan.now }
    ensures { IfOk result (λ excluded. record plan.now { excluded = excluded } ≡ marks_stores stores.now plan.now) }
{
    let changed = plan.changed.as_slice();
    marked(
        alloc,
        plan.excluded.as_slice(),
        stores,
        changed,
        plan.used.as_slice(),
    )
}
