// Values under Uids.
ghost use Rattle.std.specs.Prelude.{◌≡◌, ◌↔◌, true, None, Some, IsSome, Contains, IfOk, OnOk, OnErr, option_copied};
ghost use Rattle.std.specs.List.Sorted.{IsStrictlySortedBy};
ghost use Rattle.arj_store.specs.Pair.{uid_order};
ghost use Rattle.arj_store.specs.Table.{at, Sets, SameTable, AreValuesOf};
ghost use Rattle.arj_base.specs.declared.uid.Uid.{Uid};

use arj_base::{Seq, Uid, Uids};
use std::alloc::{AllocError, Global};
use std::collections::BTreeMap;

/// Values under Uids, in the order of the Uids.
#[derive(Drop)]
pub struct Table<V> {
    map: BTreeMap<Uid, V>,
}

impl<V> Table<V> {
    /// Nothing under any Uid.
    pub fn new(alloc: Global) -> Table<V>
        ensures { (q : Uid) → at result q ≡ None }
    {
        Table {
            map: BTreeMap::new(alloc),
        }
    }

    /// The value under the Uid.
    pub fn get(&self, uid: Uid) -> Option<&V>
        ensures { option_copied result ≡ at self.now uid }
    {
        self.map.get(&uid)
    }

    /// The Uids that have a value, in increasing order.
    pub fn uids(&self, alloc: Global) -> Result<Uids, AllocError>
        ensures there { IfOk result (λ uids. (q : Uid) → IsSome (at self.now q) ↔ Contains uids q) }
        ensures increasing { IfOk result (IsStrictlySortedBy uid_order) }
    {
        let mut uids = Uids::new(alloc);
        for uid in self.map.keys() {
            uids.push(*uid)?;
        }
        Ok(uids)
    }

    /// Whether there is no value.
    pub fn is_empty(&self) -> bool
        ensures { (result ≡ true) ↔ ((q : Uid) → at self.now q ≡ None) }
    {
        self.map.is_empty()
    }
}

impl<V: Drop> Table<V> {
    /// The values, in the order of their Uids.
    pub fn into_values(self, alloc: Global) -> Result<Seq<V>, AllocError>
        ensures { IfOk result (AreValuesOf (at self)) }
    {
        let mut values = Seq::new(alloc);
        for entry in self.map {
            values.push(entry.1)?;
        }
        Ok(values)
    }

    /// Puts a value under the Uid, in the place of what is there.
    pub fn set(&mut self, uid: Uid, value: V) -> Result<(), AllocError>
        ensures ok { OnOk result (Sets (at self.old) (at self.new) uid (Some value)) }
        ensures err { OnErr result (SameTable (at self.old) (at self.new)) }
    {
        self.map.insert(uid, value)?;
        Ok(())
    }

    /// Takes the value out.
    pub fn take(&mut self, uid: Uid) -> Option<V>
        ensures value { result ≡ at self.old uid }
        ensures taken { Sets (at self.old) (at self.new) uid None }
    {
        self.map.remove(&uid)
    }
}
