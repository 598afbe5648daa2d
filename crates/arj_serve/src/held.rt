// Who is asked about: the actions that hold locks here, or are prepared.
ghost use Rattle.std.specs.Prelude.{◌≡◌, ◌++◌, ◌&&◌, List, filter, IfOk, OnOk};
ghost use Rattle.arj_disk.specs.FileMap.{FileMap};
ghost use Rattle.arj_journal.specs.declared.body.Line.{Line};
ghost use Rattle.arj_protocol.specs.Coord.{Coord};
ghost use Rattle.arj_protocol.specs.Effect as protocol;
ghost use Rattle.arj_protocol.specs.Node.{holders, is_earlier, prepared_actions};
ghost use Rattle.arj_protocol.specs.Order.{uid_set};
ghost use Rattle.arj_protocol.specs.Order.{is_empty};
ghost use Rattle.arj_protocol.specs.Words.message;
ghost use Rattle.arj_serve.specs.Asked.{Handles, queries};
ghost use Rattle.arj_serve.specs.Held.{Greets, ListsNames, ListsPrepared};
ghost use Rattle.arj_serve.specs.Kept.{StandsOn, parts_with};

use crate::Services;
use arj_base::{Uid, Uids};
use arj_msg::Hello;
use arj_store::ObjectStore;
use std::alloc::{AllocError, Global};
use std::collections::BTreeSet;

impl<O: ObjectStore> Services<O> {
    /// The tops that hold locks of the server or on entries, and the actions that are prepared, each once, in increasing order.
    pub fn held(&self) -> Result<Uids, AllocError>
        ensures { IfOk result (λ us. (file : FileMap) (d : protocol.Disk) → StandsOn O.ObjectStore self.now file d → (c : Coord) → us ≡ holders d (parts_with self.now c)) }
    {
        let mut all = self.server.held(self.alloc)?;
        let prepared = self.store.actions(self.alloc)?;
        push_all(&mut all, prepared.as_slice())?;
        self.push_names(&mut all)?;
        in_order(self.alloc, all.as_slice())
    }

    /// The prepared actions, each once, in increasing order.
    pub fn prepared(&self) -> Result<Uids, AllocError>
        ensures { IfOk result (λ us. (file : FileMap) (d : protocol.Disk) → StandsOn O.ObjectStore self.now file d → us ≡ uid_set (prepared_actions d.store ++ prepared_actions d.names)) }
    {
        let mut all = self.store.actions(self.alloc)?;
        self.push_prepared(&mut all)?;
        in_order(self.alloc, all.as_slice())
    }

    /// Whether no action is prepared.
    pub fn is_clear(&self) -> bool
        ensures { (file : FileMap) (d : protocol.Disk) → StandsOn O.ObjectStore self.now file d → result ≡ (is_empty d.store.pend && is_empty d.names.pend) }
    {
        let states = self.has_no_states();
        let entries = self.has_no_entries();
        states && entries
    }

    // Whether no action has prepared states of objects.
    fn has_no_states(&self) -> bool
        ensures { (file : FileMap) (d : protocol.Disk) → StandsOn O.ObjectStore self.now file d → result ≡ is_empty d.store.pend }
    {
        self.store.is_clear()
    }

    // Whether no action has prepared entries.
    fn has_no_entries(&self) -> bool
        ensures { (file : FileMap) (d : protocol.Disk) → StandsOn O.ObjectStore self.now file d → result ≡ is_empty d.names.pend }
    {
        match &self.naming {
            Some(naming) => naming.is_clear(),
            None => true,
        }
    }

    // Puts the actions that have prepared entries at the end.
    fn push_prepared(&self, all: &mut Uids) -> Result<(), AllocError>
        ensures { OnOk result (ListsPrepared self.now.naming all.old all.new) }
    {
        let Some(naming) = &self.naming else {
            return Ok(());
        };
        let prepared = naming.prepared()?;
        push_all(all, prepared.as_slice())
    }

    // Puts those that naming knows of at the end.
    fn push_names(&self, all: &mut Uids) -> Result<(), AllocError>
        ensures { OnOk result (ListsNames self.now.naming all.old all.new) }
    {
        let Some(naming) = &self.naming else {
            return Ok(());
        };
        let held = naming.held(self.alloc)?;
        let prepared = naming.prepared()?;
        push_all(all, held.as_slice())?;
        push_all(all, prepared.as_slice())
    }

    /// A node is up again: naming drops the live bindings to its earlier incarnations. The answer are the actions of these that
    /// are known here, which are to be asked about.
    pub fn hello(&mut self, m: &Hello) -> Result<Uids, AllocError>
        ensures { IfOk result (λ us. (file : FileMap) (lines : List Line) → Handles O.ObjectStore (message.Hello m.now) (record { old = self.old; new = self.new; file = file; left = file; before = lines; after = lines }) (λ from. queries us)) }
    {
        let held = self.held()?;
        let earlier = earlier_of(self.alloc, held.as_slice(), m)?;
        self.greet(m);
        Ok(earlier)
    }

    // Tells naming, where the node has it.
    fn greet(&mut self, m: &Hello)
        ensures { Greets O.ObjectStore m.now self.old self.new }
    {
        let Some(naming) = &mut self.naming else {
            return;
        };
        naming.hello(m);
    }
}

// Puts Uids at the end.
fn push_all(all: &mut Uids, uids: &[Uid]) -> Result<(), AllocError>
    ensures { OnOk result (all.new ≡ all.old ++ uids.now) }
{
    for uid in uids {
        all.push(*uid)?;
    }
    Ok(())
}

// These Uids in increasing order, each once.
fn in_order(alloc: Global, uids: &[Uid]) -> Result<Uids, AllocError>
    ensures { IfOk result (λ us. us ≡ uid_set uids.now) }
{
    let mut set = BTreeSet::new(alloc);
    let mut i = uids.len();
    while i > 0 {
        i -= 1;
        set.insert(uids[i])?;
    }
    list_of(alloc, &set)
}

// The Uids of a set, in increasing order.
fn list_of(alloc: Global, set: &BTreeSet<Uid>) -> Result<Uids, AllocError>
    ensures { IfOk result (λ list. list ≡ set.now.keys) }
{
    let mut list = Uids::new(alloc);
    for uid in set.iter() {
        list.push(*uid)?;
    }
    Ok(list)
}

// Those of earlier incarnations of a node.
fn earlier_of(alloc: Global, uids: &[Uid], m: &Hello) -> Result<Uids, AllocError>
    ensures { IfOk result (λ us. us ≡ filter (is_earlier m.now.node m.now.inc) uids.now) }
{
    let mut earlier = Uids::new(alloc);
    for uid in uids {
        if uid.node == u32::from(m.node) && uid.inc < m.inc {
            earlier.push(*uid)?;
        }
    }
    Ok(earlier)
}
