// Who is told of ends.
ghost use Rattle.std.specs.Prelude.{◌≡◌, ◌++◌, ◌∷◌, [], filter, not, map, IfOk, OnOk};
ghost use Rattle.arj_commit.specs.Tolds.{sent_to};
ghost use Rattle.arj_protocol.specs.Ending.{tell, tell_all, up_to, is_deferred};
ghost use Rattle.arj_protocol.specs.Order.{has};

use crate::{Effects, Records};
use arj_base::{End, Ends, NodeList, Uid};
use arj_commit::Requests;
use arj_msg::{Message, Told};
use std::alloc::{AllocError, Global};

/// Whether the node is among these.
pub fn has(nodes: &[u8], node: u8) -> bool
    ensures { result ≡ has nodes.now node }
{
    nodes.iter().any(|n| *n == node)
}

/// These ends are told to a node.
pub fn tell(
    root: Uid,
    ack: bool,
    ends: &Ends,
    node: u8,
    outs: &mut Effects,
) -> Result<(), AllocError>
    ensures { OnOk result (outs.new ≡ outs.old ++ tell root ack ends.now node ∷ []) }
{
    let ends = ends.copy()?;
    outs.send(node, Message::Told(Told { root, ack, ends }))
}

/// These ends are told to these nodes.
pub fn tell_all(
    root: Uid,
    ack: bool,
    ends: &Ends,
    nodes: &[u8],
    outs: &mut Effects,
) -> Result<(), AllocError>
    ensures { OnOk result (outs.new ≡ outs.old ++ tell_all root ack ends.now nodes.now) }
{
    for node in nodes {
        tell(root, ack, ends, *node, outs)?;
    }
    Ok(())
}

/// The end of one action, as a list of ends.
pub fn one_end(alloc: Global, action: Uid, end: End) -> Result<Ends, AllocError>
    ensures { IfOk result (λ ends. ends ≡ (action, end) ∷ []) }
{
    let mut ends = Ends::new(alloc);
    ends.push((action, end))?;
    Ok(ends)
}

/// The ends up to and with that of the action.
pub fn up_to(alloc: Global, action: Uid, ends: &[(Uid, End)]) -> Result<Ends, AllocError>
    ensures { IfOk result (λ some. some ≡ up_to action ends.now) }
{
    let mut some = Ends::new(alloc);
    for end in ends {
        some.push(*end)?;
        if end.0 == action {
            return Ok(some);
        }
    }
    Ok(some)
}

/// The nodes that no record of the root's constituents lists.
pub fn not_deferred(
    alloc: Global,
    root: Uid,
    intents: &Records,
    nodes: &[u8],
) -> Result<NodeList, AllocError>
    ensures { IfOk result (λ left. left ≡ filter (λ n. not (is_deferred root intents.now n)) nodes.now) }
{
    let mut left = NodeList::new(alloc);
    for node in nodes {
        if !intents.is_deferred(root, *node) {
            left.push(*node)?;
        }
    }
    Ok(left)
}

/// These messages are sent.
pub fn send_all(messages: Requests, outs: &mut Effects) -> Result<(), AllocError>
    ensures { OnOk result (outs.new ≡ outs.old ++ map sent_to messages) }
{
    for (node, message) in messages.into_vec() {
        outs.send(node, message)?;
    }
    Ok(())
}
