// The first step: the servers vote.
ghost use Rattle.std.specs.Prelude.{◌≡◌, ◌+◌, ◌≤◌, true, IfOk, IfErr, Ok};
ghost use Rattle.arj_base.specs.declared.state.ObjectState.{ObjectState};
ghost use Rattle.arj_protocol.specs.Commit.{given_up, voted_by, begin_prepare, targets_of};
ghost use Rattle.arj_protocol.specs.Words.voted;
ghost use Rattle.arj_commit.specs.Fits.{PlanFits};
ghost use Rattle.arj_commit.specs.Plans.{with_changed};
ghost use Rattle.arj_commit.specs.Requests.{requests};
ghost use Rattle.arj_commit.specs.Steps.{voting, takes, waits_for, heard, begun, after_votes, AwaitsAll};
ghost use Rattle.arj_commit.specs.declared.limits.TheConstants.{LAST_START};

use crate::answer::{VOTED, differs, is_asked_by, is_awaited, kinded};
use crate::next::{enter, next_of_votes};
use crate::requests::votes;
use crate::sets::are_all;
use crate::states::copy_states;
use crate::{Plan, Requests, Step};
use arj_base::{NodeList, ObjectState};
use arj_journal::Cause;
use arj_msg::{Message, VotedReply};
use std::alloc::{AllocError, AllocFailed, Global};
use std::marker::Model;

/// The servers vote: each says whether it still has what the top did there, and what changed.
#[derive(Drop)]
pub struct Voting {
    alloc: Global,
    plan: Plan,
    left: NodeList,
}

impl Model for Voting {
    ghost use Rattle.std.specs.Prelude.{◌+◌, ◌≤◌};
    ghost use Rattle.arj_commit.specs.Awaiting.{Awaiting};
    ghost use Rattle.arj_commit.specs.Fits.{PlanFits};
    ghost use Rattle.arj_commit.specs.declared.limits.TheConstants.{LAST_START};

    ghost Value = { Awaiting };

    ghost view = { λ v. record { plan = v.plan; left = v.left } };

    ghost invariant = { λ v. PlanFits v.plan × (v.plan.req ≤ LAST_START + 1) };
}

impl Voting {
    // The step is entered: these servers are asked.
    pub(crate) fn new(alloc: Global, plan: Plan, left: NodeList) -> Voting
        requires fits { PlanFits plan }
        requires room { plan.req ≤ LAST_START + 1 }
        ensures { result ≡ record { plan = plan; left = left } }
    {
        Voting { alloc, plan, left }
    }

    /// The plan of the commit.
    pub fn plan(&self) -> &Plan
        ensures { result.now ≡ self.now.plan }
    {
        &self.plan
    }

    /// The servers that haven't voted, in increasing order. A giveup says of the first that it didn't answer.
    pub fn left(&self) -> &[u8]
        ensures { result.now ≡ self.now.left }
    {
        self.left.as_slice()
    }

    /// The requests that aren't answered, in increasing order of their nodes.
    #[tactic(auto, using(crate::proofs::Tells::votes_wait))]
    pub fn waiting(&self, alloc: Global) -> Result<Requests, AllocError>
        ensures { IfOk result (λ all. all ≡ requests (voting self.now)) }
    {
        votes(alloc, &self.plan, self.left.as_slice())
    }

    /// Whether the message answers one of the requests.
    pub fn takes(&self, from: u8, m: &Message) -> bool
        ensures { result ≡ takes from m.now (voting self.now) }
    {
        is_asked_by(self.plan.path.last(), kinded(m)) && self.waits_for(from, m)
    }

    /// Whether the message, whose asking action has been found to be in this step, answers one of the requests.
    pub fn waits_for(&self, from: u8, m: &Message) -> bool
        ensures { result ≡ waits_for from m.now (voting self.now) }
    {
        is_awaited(VOTED, self.plan.req, self.left.as_slice(), from, kinded(m))
    }

    /// Takes an answer. Where there is no memory for it the step comes back as it was.
    pub fn answered(self, from: u8, m: &Message) -> Result<Step, AllocFailed<Voting>>
        requires awaited { waits_for from m.now (voting self) ≡ true }
        ensures step { IfOk result (λ step. heard from m.now (voting self) ≡ after_votes step) }
        ensures told { IfOk result AwaitsAll }
        ensures kept { IfErr result (λ failed. failed.value ≡ self) }
    {
        match m {
            Message::Voted(voted) => match &voted.reply {
                VotedReply::Yes(states) => self.yes(from, states.as_slice()),
                VotedReply::Changed(what) => Ok(Step::Aborted {
                    cause: Cause::Changed {
                        node: from,
                        difference: differs(*what),
                    },
                    plan: self.plan,
                }),
            },
            _ => Ok(Step::Voting(self)),
        }
    }

    // A server has voted, and these states changed there.
    fn yes(self, from: u8, states: &[ObjectState]) -> Result<Step, AllocFailed<Voting>>
        ensures step { IfOk result (λ step. voted_by from self.left self.plan (voted.Yes states.now) ≡ after_votes step) }
        ensures told { IfOk result AwaitsAll }
        ensures kept { IfErr result (λ failed. failed.value ≡ self) }
    {
        let Ok(more) = copy_states(self.alloc, states) else {
            return Err(AllocFailed { value: self });
        };
        if are_all(self.left.as_slice(), from) {
            return self.last_yes(more);
        }
        let Voting {
            alloc,
            plan,
            mut left,
        } = self;
        match plan.with_changed(alloc, more) {
            Ok(plan) => {
                left.remove_all(from);
                Ok(Step::Voting(Voting { alloc, plan, left }))
            }
            Err(AllocFailed { value: plan }) => Err(AllocFailed {
                value: Voting { alloc, plan, left },
            }),
        }
    }

    // The last server has voted.
    fn last_yes(self, more: Vec<ObjectState>) -> Result<Step, AllocFailed<Voting>>
        ensures step { IfOk result (λ step. begin_prepare (targets_of (with_changed more.items self.plan)) (with_changed more.items self.plan) ≡ begun step) }
        ensures told { IfOk result AwaitsAll }
        ensures kept { IfErr result (λ failed. failed.value ≡ self) }
    {
        let Ok(next) = next_of_votes(self.alloc, &self.plan, more.as_slice()) else {
            return Err(AllocFailed { value: self });
        };
        let Voting { alloc, plan, left } = self;
        match plan.with_changed(alloc, more) {
            Ok(plan) => Ok(enter(alloc, plan, next)),
            Err(AllocFailed { value: plan }) => Err(AllocFailed {
                value: Voting { alloc, plan, left },
            }),
        }
    }

    /// Gives the commit up: the first server that hasn't voted is lost.
    pub fn give_up(self) -> Step
        ensures { given_up (voting self) ≡ after_votes result }
    {
        Step::Aborted {
            cause: Cause::Lost {
                node: self.left.as_slice().first().copied().unwrap_or(0),
            },
            plan: self.plan,
        }
    }
}
