// Records of commits by their tops.
ghost use Rattle.std.specs.Prelude.{◌≡◌, ◌++◌, [], map, IfOk, OnOk, option_copied};
ghost use Rattle.std.specs.List.Sorted.{IsStrictlySortedBy};
ghost use Rattle.std.specs.Map.{keys_of};
ghost use Rattle.arj_base.specs.Order.{uid_order};
ghost use Rattle.arj_coord.specs.Ended.{deferred_but};
ghost use Rattle.arj_intent.specs.Records.{entry_of, shown};
ghost use Rattle.arj_protocol.specs.Ending.{is_deferred, is_member_of};
ghost use Rattle.arj_protocol.specs.Order.{at_uid, put_uid, without_uid};
ghost use Rattle.arj_protocol.specs.Step.{recovered_records, tolds_again};
ghost use Rattle.arj_protocol.specs.Order.{is_empty};

use crate::tolds::{has, one_end, tell_all};
use crate::{Effects, Record};
use arj_base::{End, Uid};
use arj_intent::Intent;
use arj_journal::Body;
use std::alloc::{AllocError, Global};
use std::collections::BTreeMap;
use std::marker::Model;

/// Records of commits by their tops: those that a node's disk has, or the tolds that aren't acknowledged. Contracts see
/// the protocol's list, in order of the tops.
#[derive(Drop)]
pub struct Records {
    alloc: Global,
    by_top: BTreeMap<Uid, Record>,
}

impl Model for Records {
    ghost use Rattle.std.specs.Prelude.{List};
    ghost use Rattle.arj_base.specs.declared.uid.Uid.{Uid};
    ghost use Rattle.arj_protocol.specs.Effect.{Intent};

    ghost Value = { List (Uid × Intent) };

    ghost view = { λ r. r.by_top.entries };
}

impl Records {
    /// None. It allocates nothing.
    pub fn new(alloc: Global) -> Records
        ensures { result ≡ [] }
    {
        Records {
            alloc,
            by_top: BTreeMap::new(alloc),
        }
    }

    /// The records that a disk has, in order of their tops.
    pub fn of_found(alloc: Global, found: &[Intent]) -> Result<Records, AllocError>
        requires { IsStrictlySortedBy uid_order (keys_of (map entry_of found.now)) }
        ensures { IfOk result (λ all. all ≡ map entry_of found.now) }
    {
        let mut by_top = BTreeMap::new(alloc);
        for intent in found {
            by_top.insert(intent.top, record_of(intent)?)?;
        }
        Ok(Records { alloc, by_top })
    }

    /// The record of a top.
    pub fn get(&self, top: Uid) -> Option<&Record>
        ensures { option_copied result ≡ at_uid top self.now }
    {
        self.by_top.get(&top)
    }

    /// A record of a top, in the place of the one that is there.
    pub fn put(&mut self, top: Uid, entry: Record) -> Result<(), AllocError>
        ensures { OnOk result (self.new ≡ put_uid top entry self.old) }
    {
        self.by_top.insert(top, entry)?;
        Ok(())
    }

    /// Takes out the record of a top, if there is one.
    pub fn remove(&mut self, top: Uid)
        ensures { self.new ≡ without_uid top self.old }
    {
        self.by_top.remove(&top);
    }

    /// Whether there is none.
    pub fn is_empty(&self) -> bool
        ensures { result ≡ is_empty self.now }
    {
        self.by_top.is_empty()
    }

    /// A line for each record, that it was recovered at a node.
    pub fn recovered(&self, node: u8, outs: &mut Effects) -> Result<(), AllocError>
        ensures { OnOk result (outs.new ≡ outs.old ++ recovered_records node self.now) }
    {
        for (top, _record) in self.by_top.iter() {
            outs.say(Body::Recovered { node, action: *top })?;
        }
        Ok(())
    }

    /// Whether a record of one of the root's constituents lists the node. It walks the records.
    pub fn is_deferred(&self, root: Uid, node: u8) -> bool
        ensures { result ≡ is_deferred root self.now node }
    {
        for (top, record) in self.by_top.iter() {
            if is_member(*top, record, root, node) {
                return true;
            }
        }
        false
    }

    /// The same without the record of a top.
    pub fn is_deferred_without(&self, without: Uid, root: Uid, node: u8) -> bool
        ensures { result ≡ is_deferred root (without_uid without self.now) node }
    {
        let _count = self.by_top.len();
        self.is_deferred_but(without, root, node)
    }

    // Whether another record than that of a top is of one of the root's constituents and lists the node.
    fn is_deferred_but(&self, without: Uid, root: Uid, node: u8) -> bool
        ensures { result ≡ deferred_but without root node self.now }
    {
        for (top, record) in self.by_top.iter() {
            if *top != without && is_member(*top, record, root, node) {
                return true;
            }
        }
        false
    }

    /// Each node that a record lists is told of the commit again.
    pub fn tolds_again(&self, outs: &mut Effects) -> Result<(), AllocError>
        ensures { OnOk result (outs.new ≡ outs.old ++ tolds_again self.now) }
    {
        for (top, record) in self.by_top.iter() {
            let ends = one_end(self.alloc, *top, End::Commit)?;
            tell_all(record.root, true, &ends, record.nodes.as_slice(), outs)?;
        }
        Ok(())
    }
}

/// What a record of the disk says.
pub fn record_of(intent: &Intent) -> Result<Record, AllocError>
    ensures { IfOk result (λ r. r ≡ shown intent.now) }
{
    Ok(Record {
        root: intent.root,
        nodes: intent.nodes.copy()?,
    })
}

// Whether the record is of a constituent of the root, and lists the node.
fn is_member(top: Uid, entry: &Record, root: Uid, node: u8) -> bool
    ensures { result ≡ is_member_of root node (top, entry.now) }
{
    entry.root == root && top != root && has(entry.nodes.as_slice(), node)
}
