// The nodes that were sent messages.
ghost use Rattle.std.specs.Prelude.{◌≡◌, true, false, [], filter, IfOk, OnOk, OnErr};
ghost use Rattle.arj_base.specs.Path.{uids_of};
ghost use Rattle.arj_base.specs.Rows.{is_on};
ghost use Rattle.arj_protocol.specs.Coord as coord;
ghost use Rattle.arj_root.specs.Noted.{of_sends, of_tree};

use crate::index::Index;
use crate::survival::survives;
use crate::trail::Trail;
use arj_base::{NodeList, Path, Uid};
use arj_tree::Tree;
use std::alloc::{AllocError, Global};
use std::collections::BTreeSet;
use std::marker::Model;

/// A node that was sent a message of an action, and whether that was an Invoke.
#[derive(Drop)]
pub struct Went {
    path: Trail,
    node: u8,
    invoke: bool,
}

impl Model for Went {
    ghost use Rattle.arj_protocol.specs.Coord as coord;

    ghost Value = { coord.Went };

    ghost view = { λ w. record { path = w.path; node = w.node; invoke = w.invoke } };
}

/// The nodes that were sent messages of actions, each action, node and kind once, in order. Contracts see the protocol's
/// list.
#[derive(Drop)]
pub struct Sends {
    alloc: Global,
    went: Vec<Went>,
    // Those of Invokes and those of other messages, by node.
    invokes: Index,
    others: Index,
}

impl Model for Sends {
    ghost use Rattle.std.specs.Prelude.{List, true, false};
    ghost use Rattle.arj_protocol.specs.Coord as coord;
    ghost use Rattle.arj_root.specs.Noted.{HasSends};

    ghost Value = { List coord.Went };

    ghost view = { λ s. s.went.items };

    ghost invariant = { λ s. HasSends true s.invokes s.went.items × HasSends false s.others s.went.items };
}

impl Sends {
    /// Nothing was sent. It allocates nothing.
    pub fn new(alloc: Global) -> Sends
        ensures { result ≡ [] }
    {
        Sends {
            alloc,
            went: Vec::new(alloc),
            invokes: Index::new(alloc),
            others: Index::new(alloc),
        }
    }

    /// Notes that a node was sent an Invoke of an action, once.
    pub fn note_invoke(&mut self, path: &Path, node: u8) -> Result<(), AllocError>
        ensures noted { OnOk result (self.new ≡ (coord.with_went (record { path = uids_of path.now; node = node; invoke = true }) (of_sends self.old)).went) }
        ensures kept { OnErr result (self.new ≡ self.old) }
    {
        if self.invokes.has(u16::from(node), path.last()) {
            return Ok(());
        }
        let trail = Trail::new(self.alloc, path)?;
        self.went.reserve(1)?;
        self.invokes.add(self.alloc, u16::from(node), path)?;
        self.went.push_reserved(Went {
            path: trail,
            node,
            invoke: true,
        });
        Ok(())
    }

    /// Notes that a node was sent another message of an action, once.
    pub fn note_other(&mut self, path: &Path, node: u8) -> Result<(), AllocError>
        ensures noted { OnOk result (self.new ≡ (coord.with_went (record { path = uids_of path.now; node = node; invoke = false }) (of_sends self.old)).went) }
        ensures kept { OnErr result (self.new ≡ self.old) }
    {
        if self.others.has(u16::from(node), path.last()) {
            return Ok(());
        }
        let trail = Trail::new(self.alloc, path)?;
        self.went.reserve(1)?;
        self.others.add(self.alloc, u16::from(node), path)?;
        self.went.push_reserved(Went {
            path: trail,
            node,
            invoke: false,
        });
        Ok(())
    }

    /// The nodes that were sent a message of the action or of one below it, increasing. It walks what was sent.
    pub fn nodes_sent(&self, action: Uid) -> Result<NodeList, AllocError>
        ensures { IfOk result (λ nodes. nodes ≡ coord.nodes_sent action (of_sends self.now)) }
    {
        let nodes = sent_of(self.alloc, self.went.as_slice(), action)?;
        listed(self.alloc, &nodes)
    }

    /// The servers that were sent an Invoke of the action or of one that was merged into it, increasing. It walks what was
    /// sent.
    pub fn servers_told(&self, action: Uid, tree: &Tree) -> Result<NodeList, AllocError>
        ensures { IfOk result (λ nodes. nodes ≡ coord.servers_told action (of_sends self.now) (of_tree tree.now)) }
    {
        let nodes = invoked_by(self.alloc, self.went.as_slice(), action, tree)?;
        listed(self.alloc, &nodes)
    }
}

// The nodes that were sent a message of the action or of one below it.
fn sent_of(alloc: Global, went: &[Went], action: Uid) -> Result<BTreeSet<u8>, AllocError>
    ensures { IfOk result (λ nodes. nodes.keys ≡ coord.nodes_of (filter (λ (w : coord.Went). is_on w.path action) went.now)) }
{
    let mut nodes = BTreeSet::new(alloc);
    let mut i = went.len();
    while i > 0 {
        i -= 1;
        let sent = &went[i];
        if sent.path.has(action) {
            nodes.insert(sent.node)?;
        }
    }
    Ok(nodes)
}

// The nodes that were sent an Invoke of the action or of one that was merged into it.
fn invoked_by(
    alloc: Global,
    went: &[Went],
    action: Uid,
    tree: &Tree,
) -> Result<BTreeSet<u8>, AllocError>
    ensures { IfOk result (λ nodes. nodes.keys ≡ coord.nodes_of (filter (coord.is_invoked_by action (of_tree tree.now)) went.now)) }
{
    let mut nodes = BTreeSet::new(alloc);
    let mut i = went.len();
    while i > 0 {
        i -= 1;
        let sent = &went[i];
        if sent.invoke && survives(tree, action, sent.path.as_slice()) {
            nodes.insert(sent.node)?;
        }
    }
    Ok(nodes)
}

/// The nodes of a set, increasing.
pub fn listed(alloc: Global, nodes: &BTreeSet<u8>) -> Result<NodeList, AllocError>
    ensures { IfOk result (λ list. list ≡ nodes.now.keys) }
{
    let mut list = NodeList::new(alloc);
    for node in nodes {
        list.push(*node)?;
    }
    Ok(list)
}
