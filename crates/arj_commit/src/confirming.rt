// The third step: naming confirms.
ghost use Rattle.std.specs.Prelude.{◌≡◌, ◌≢◌, true, IfOk, IfErr};
ghost use Rattle.arj_protocol.specs.Commit.{Confirming as confirming_of, given_up, confirmed_by};
ghost use Rattle.arj_protocol.specs.Words.confirmed;
ghost use Rattle.arj_commit.specs.Fits.{PlanFits};
ghost use Rattle.arj_commit.specs.Requests.{requests};
ghost use Rattle.arj_commit.specs.Steps.{takes, waits_for, heard, begun, after_confirm, AwaitsAll};

use crate::answer::{CONFIRMED, differs, is_asked_by, is_awaited, kinded};
use crate::next::awaited_of;
use crate::requests::confirm;
use crate::{NAMING, Plan, Requests, Step, Telling};
use arj_journal::Cause;
use arj_msg::{ConfirmedReply, Message};
use std::alloc::{AllocError, AllocFailed, Global};
use std::marker::Model;

/// Naming confirms that the locks on which the top bound its objects still stand, and takes the stores that are marked out of
/// their entries.
#[derive(Drop)]
pub struct Confirming {
    alloc: Global,
    plan: Plan,
}

impl Model for Confirming {
    ghost use Rattle.arj_commit.specs.Fits.{PlanFits};
    ghost use Rattle.arj_protocol.specs.Commit.{Plan};

    ghost Value = { Plan };

    ghost view = { λ v. v.plan };

    ghost invariant = { λ v. PlanFits v.plan };
}

impl Confirming {
    // The step is entered: naming is asked.
    pub(crate) fn new(alloc: Global, plan: Plan) -> Confirming
        requires { PlanFits plan }
        ensures { result ≡ plan }
    {
        Confirming { alloc, plan }
    }

    /// The plan of the commit. Its marks are what the commit excludes.
    pub fn plan(&self) -> &Plan
        ensures { result.now ≡ self.now }
    {
        &self.plan
    }

    /// The request to naming, which isn't answered.
    pub fn waiting(&self, alloc: Global) -> Result<Requests, AllocError>
        ensures { IfOk result (λ all. all ≡ requests (confirming_of self.now)) }
    {
        let mut all = Requests::new(alloc);
        all.push((NAMING, confirm(alloc, &self.plan)?))?;
        Ok(all)
    }

    /// Whether the message answers the request.
    pub fn takes(&self, from: u8, m: &Message) -> bool
        ensures { result ≡ takes from m.now (confirming_of self.now) }
    {
        is_asked_by(self.plan.path.last(), kinded(m)) && self.waits_for(from, m)
    }

    /// Whether the message, whose asking action has been found to be in this step, answers the request.
    pub fn waits_for(&self, from: u8, m: &Message) -> bool
        ensures { result ≡ waits_for from m.now (confirming_of self.now) }
    {
        is_awaited(CONFIRMED, self.plan.req, &[NAMING], from, kinded(m))
    }

    /// Takes the answer. Where there is no memory for it the step comes back as it was.
    pub fn answered(self, from: u8, m: &Message) -> Result<Step, AllocFailed<Confirming>>
        requires awaited { waits_for from m.now (confirming_of self) ≡ true }
        ensures step { IfOk result (λ step. heard from m.now (confirming_of self) ≡ after_confirm step) }
        ensures told { IfOk result AwaitsAll }
        ensures kept { IfErr result (λ failed. failed.value ≡ self) }
    {
        match m {
            Message::Confirmed(confirmed) => match confirmed.reply {
                ConfirmedReply::Yes => self.yes(),
                refused => Ok(self.refused(refused)),
            },
            _ => Ok(Step::Confirming(self)),
        }
    }

    // Naming has confirmed: the commit can be decided.
    fn yes(self) -> Result<Step, AllocFailed<Confirming>>
        ensures step { IfOk result (λ step. confirmed_by self confirmed.Yes ≡ begun step) }
        ensures told { IfOk result AwaitsAll }
        ensures kept { IfErr result (λ failed. failed.value ≡ self) }
    {
        match awaited_of(self.alloc, &self.plan) {
            Ok(nodes) => Ok(Step::Decide(Telling::new(self.plan.with_confirmed(), nodes))),
            Err(_) => Err(AllocFailed { value: self }),
        }
    }

    // Naming has refused.
    fn refused(self, reply: ConfirmedReply) -> Step
        requires { reply ≢ confirmed.Yes }
        ensures step { confirmed_by self reply ≡ begun result }
        ensures told { AwaitsAll result }
    {
        let cause = match reply {
            ConfirmedReply::Conflict { holder, mode } => Cause::Conflict {
                holder,
                mode,
                node: NAMING,
            },
            ConfirmedReply::Changed(what) => Cause::Changed {
                node: NAMING,
                difference: differs(what),
            },
            ConfirmedReply::NoStores { x } => Cause::NoStores { x },
            ConfirmedReply::Listed { x, node } => Cause::Listed { x, node },
            ConfirmedReply::Yes => Cause::Asked,
        };
        Step::Aborted {
            cause,
            plan: self.plan,
        }
    }

    /// Gives the commit up: naming is lost. It takes no memory.
    pub fn give_up(self) -> Step
        ensures step { given_up (confirming_of self) ≡ after_confirm result }
        ensures told { AwaitsAll result }
    {
        Step::Aborted {
            cause: Cause::Lost { node: NAMING },
            plan: self.plan,
        }
    }
}
