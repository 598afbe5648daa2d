// What naming tells of its objects and entries beside its answers.
ghost use Rattle.std.specs.Prelude.{◌≡◌, IfOk};
ghost use Rattle.std.specs.List.Sorted.{IsStrictlySortedBy};
ghost use Rattle.std.specs.Map.{keys_of};
ghost use Rattle.std.specs.Ordering.{nat_cmp};
ghost use Rattle.arj_base.specs.Uid.{entry};
ghost use Rattle.arj_disk.specs.FileMap.{FileMap};
ghost use Rattle.arj_naming.specs.Kept.{StandsOn};
ghost use Rattle.arj_protocol.specs.Effect.{holder_of};
ghost use Rattle.arj_protocol.specs.Node.{prepared_actions};

use crate::Naming;
use arj_base::{Uid, Uids, entry_uid};
use arj_store::ObjectStore;
use std::alloc::AllocError;

impl<O> Naming<O> {
    /// The actions that have prepared entries, in increasing order.
    pub fn prepared(&self) -> Result<Uids, AllocError>
        ensures { IfOk result (λ actions. actions ≡ prepared_actions self.now.pair) }
    {
        self.memory.entries.actions()
    }

    /// Its objects stand by their numbers. It does nothing when it runs.
    pub fn in_order(&self)
        ensures { IsStrictlySortedBy nat_cmp (keys_of self.now.part.objects) }
    {
        let _count = self.memory.part.objects.len();
    }
}

impl<O: ObjectStore> Naming<O> {
    /// The action that has prepared the entry of an object.
    pub fn holder(&self, x: u16) -> Option<Uid>
        ensures { (file : FileMap) → StandsOn O.ObjectStore self.now file → result ≡ holder_of (entry x) self.now.pair }
    {
        self.store.holder(entry_uid(x))
    }
}
