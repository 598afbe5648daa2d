// The step that follows, with its lists.
ghost use Rattle.std.specs.Prelude.{◌≡◌, ◌+◌, ◌≤◌, true, IfOk};
ghost use Rattle.arj_protocol.specs.Commit.{targets_of, begin_prepare, begin_confirm};
ghost use Rattle.arj_commit.specs.Fits.{PlanFits};
ghost use Rattle.arj_commit.specs.Plans.{with_changed};
ghost use Rattle.arj_commit.specs.Sets.{awaited_in};
ghost use Rattle.arj_commit.specs.Steps.{next_of, entered, to_acknowledge, MayEnter};

use crate::sets::union;
use crate::whom::{is_recorded, part_in, targets_with};
use crate::{Confirming, NAMING, Plan, Preparing, Step, Telling, Used};
use arj_base::{NodeList, ObjectState};
use std::alloc::{AllocError, Global};

/// The lists of the step that follows. They are made before the plan changes, so that a plan is whole where there is no
/// memory for them.
#[derive(Drop)]
pub enum Next {
    Prepare { targets: NodeList, sent: NodeList },
    Confirm { sent: NodeList },
    Decide { awaited: NodeList },
}

/// The nodes that have to acknowledge a commit with these parts of a plan.
fn awaited(
    alloc: Global,
    used: &[Used],
    prepared: &[u8],
    excluded: &[(u16, u8)],
    confirmed: bool,
) -> Result<NodeList, AllocError>
    ensures { IfOk result (λ nodes. nodes ≡ awaited_in used.now prepared.now excluded.now confirmed) }
{
    if is_recorded(used, prepared, excluded, confirmed) {
        part_in(alloc, used, prepared, confirmed)
    } else {
        Ok(NodeList::new(alloc))
    }
}

/// What follows once the stores that prepared and the marks are these.
pub fn next_of_stores(
    alloc: Global,
    plan: &Plan,
    prepared: &[u8],
    excluded: &[(u16, u8)],
) -> Result<Next, AllocError>
    ensures { IfOk result (λ next. next ≡ next_of (begin_confirm plan.now.used (record plan.now { prepared = prepared.now; excluded = excluded.now }))) }
{
    let used = plan.used.as_slice();
    if used.is_empty() {
        return Ok(Next::Decide {
            awaited: awaited(alloc, used, prepared, excluded, plan.confirmed)?,
        });
    }
    Ok(Next::Confirm {
        sent: union(alloc, plan.sent.as_slice(), &[NAMING])?,
    })
}

/// What follows once these states have changed too and all servers have voted.
#[tactic(auto, using(crate::proofs::Follows::next_votes))]
pub fn next_of_votes(alloc: Global, plan: &Plan, more: &[ObjectState]) -> Result<Next, AllocError>
    ensures { IfOk result (λ next. next ≡ next_of (begin_prepare (targets_of (with_changed more.now plan.now)) (with_changed more.now plan.now))) }
{
    let changed = plan.changed.as_slice();
    let targets = targets_with(alloc, more, changed, plan.used.as_slice())?;
    next_of_targets(alloc, plan, targets)
}

// What follows where these are the stores that prepare.
fn next_of_targets(alloc: Global, plan: &Plan, targets: NodeList) -> Result<Next, AllocError>
    ensures { IfOk result (λ next. next ≡ next_of (begin_prepare targets plan.now)) }
{
    if targets.as_slice().is_empty() {
        return next_of_stores(
            alloc,
            plan,
            plan.prepared.as_slice(),
            plan.excluded.as_slice(),
        );
    }
    let sent = union(alloc, plan.sent.as_slice(), targets.as_slice())?;
    Ok(Next::Prepare { targets, sent })
}

/// The nodes that have to acknowledge, once naming has confirmed.
pub fn awaited_of(alloc: Global, plan: &Plan) -> Result<NodeList, AllocError>
    ensures { IfOk result (λ nodes. nodes ≡ to_acknowledge (record plan.now { confirmed = true })) }
{
    let used = plan.used.as_slice();
    let prepared = plan.prepared.as_slice();
    awaited(alloc, used, prepared, plan.excluded.as_slice(), true)
}

/// Enters the step that follows.
pub fn enter(alloc: Global, plan: Plan, next: Next) -> Step
    requires fits { PlanFits plan }
    requires may { MayEnter plan next }
    ensures { result ≡ entered plan next }
{
    match next {
        Next::Prepare { targets, sent } => {
            Step::Preparing(Preparing::new(alloc, plan.further(sent), targets))
        }
        Next::Confirm { sent } => Step::Confirming(Confirming::new(alloc, plan.further(sent))),
        Next::Decide { awaited } => Step::Decide(Telling::new(plan, awaited)),
    }
}
