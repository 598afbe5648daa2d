// What the nodes of a decided commit are told.
ghost use Rattle.std.specs.Prelude.{◌≡◌, IfOk};
ghost use Rattle.arj_commit.specs.Tolds.{told_to, told_by, tolds, tolds_again};

use crate::sets::has;
use crate::{Plan, Requests};
use arj_base::{End, Ends};
use arj_msg::{Message, Told};
use std::alloc::{AllocError, Global};

// The end of a commit, as it is told.
fn told(alloc: Global, plan: &Plan, end: End, ack: bool) -> Result<Message, AllocError>
    ensures { IfOk result (λ m. m ≡ told_to plan.now end ack) }
{
    let mut ends = Ends::new(alloc);
    ends.push((plan.path.last(), end))?;
    Ok(Message::Told(Told {
        root: plan.path.root(),
        ack,
        ends,
    }))
}

// What a node is told that takes part in the commit, or one that doesn't.
fn told_by(alloc: Global, plan: &Plan, takes_part: bool, ack: bool) -> Result<Message, AllocError>
    ensures { IfOk result (λ m. m ≡ told_by plan.now takes_part ack) }
{
    if takes_part {
        told(alloc, plan, End::Commit, ack)
    } else {
        told(alloc, plan, End::Abort, false)
    }
}

/// What each of these nodes is told.
fn tolds_to(
    alloc: Global,
    plan: &Plan,
    sent: &[u8],
    nodes: &[u8],
    ack: bool,
) -> Result<Requests, AllocError>
    ensures { IfOk result (λ all. all ≡ tolds plan.now sent.now nodes.now ack) }
{
    let mut all = Requests::new(alloc);
    for node in sent {
        all.push((*node, told_by(alloc, plan, has(nodes, *node), ack)?))?;
    }
    Ok(all)
}

/// What each node that was sent something is told, where these take part.
pub fn tolds(alloc: Global, plan: &Plan, nodes: &[u8], ack: bool) -> Result<Requests, AllocError>
    ensures { IfOk result (λ all. all ≡ tolds plan.now plan.now.sent nodes.now ack) }
{
    tolds_to(alloc, plan, plan.sent.as_slice(), nodes, ack)
}

/// What these participants are told until they acknowledge.
pub fn tolds_again(alloc: Global, plan: &Plan, nodes: &[u8]) -> Result<Requests, AllocError>
    ensures { IfOk result (λ all. all ≡ tolds_again plan.now nodes.now) }
{
    let mut all = Requests::new(alloc);
    for node in nodes {
        all.push((*node, told(alloc, plan, End::Commit, true)?))?;
    }
    Ok(all)
}
