// The start of a commit.
ghost use Rattle.std.specs.Prelude.{◌≡◌, ◌≤◌, IfOk, IfErr};
ghost use Rattle.arj_protocol.specs.Commit.{start as start_of, plainly, begin_prepare, targets_of};
ghost use Rattle.arj_commit.specs.Fits.{PlanFits};
ghost use Rattle.arj_commit.specs.Steps.{begun, AwaitsAll};
ghost use Rattle.arj_commit.specs.declared.limits.TheConstants.{LAST_START};

use crate::next::{enter, next_of_votes};
use crate::sets::union;
use crate::whom::servers_of;
use crate::{Plan, Step, Voting};
use std::alloc::{AllocError, AllocFailed, Global};

/// Starts the commit of a top: its servers are asked to vote, if it called any. Where there is no memory for it the plan
/// comes back as it was.
pub fn start(alloc: Global, plan: Plan) -> Result<Step, AllocFailed<Plan>>
    requires fits { PlanFits plan }
    requires room { plan.req ≤ LAST_START }
    ensures step { IfOk result (λ step. start_of plan ≡ plainly (begun step)) }
    ensures told { IfOk result AwaitsAll }
    ensures kept { IfErr result (λ failed. failed.value ≡ plan) }
{
    let Ok(servers) = servers_of(alloc, plan.used.as_slice()) else {
        return Err(AllocFailed { value: plan });
    };
    if servers.as_slice().is_empty() {
        return start_without_vote(alloc, plan);
    }
    let Ok(sent) = union(alloc, plan.sent.as_slice(), servers.as_slice()) else {
        return Err(AllocFailed { value: plan });
    };
    Ok(Step::Voting(Voting::new(alloc, plan.further(sent), servers)))
}

// Starts the commit of a top that called no server.
fn start_without_vote(alloc: Global, plan: Plan) -> Result<Step, AllocFailed<Plan>>
    requires fits { PlanFits plan }
    requires room { plan.req ≤ LAST_START }
    ensures step { IfOk result (λ step. begin_prepare (targets_of plan) plan ≡ begun step) }
    ensures told { IfOk result AwaitsAll }
    ensures kept { IfErr result (λ failed. failed.value ≡ plan) }
{
    let Ok(next) = next_of_votes(alloc, &plan, &[]) else {
        return Err(AllocFailed { value: plan });
    };
    Ok(enter(alloc, plan, next))
}
