// Naming over a store.
ghost use Rattle.std.specs.Prelude.{◌≡◌, ◌↔◌, ◌++◌, [], true, IfOk, OnOk, option_map};
ghost use Rattle.arj_base.specs.Uid.{entry};
ghost use Rattle.arj_disk.specs.Counted.{counts};
ghost use Rattle.arj_disk.specs.Disk.{CountsCall, Same};
ghost use Rattle.arj_disk.specs.declared.slot.Role.{Role};
ghost use Rattle.arj_lock.specs.Held.{AreListed};
ghost use Rattle.arj_naming.specs.Calls.{bind_by, note_by, bound_to, recorded_to};
ghost use Rattle.arj_naming.specs.Files.{GivesEntries};
ghost use Rattle.arj_naming.specs.Kept.{StandsOn};
ghost use Rattle.arj_naming.specs.Said.{said};
ghost use Rattle.arj_protocol.specs.Naming.{hello, naming_holders};
ghost use Rattle.arj_store.specs.Pair.{Reads};
ghost use Rattle.arj_store.specs.declared.answer.StoreFault.{StoreFault};

use crate::memory::Memory;
use arj_base::{Uids, entry_uid};
use arj_disk::Disk;
use arj_journal::Lines;
use arj_msg::{Bind, Bound, Hello, RecordMsg, Recorded};
use arj_store::{ObjectStore, Read, StoreFault};
use std::alloc::{AllocError, Global};
use std::marker::Model;

/// The naming service of node 1: for each object its servers and stores, its binding to a server, and the locks on its
/// entry. Entries are persistent objects in a store of their own (Arjuna's naming and binding service), and memory has what
/// is committed and prepared of them. After a fault of the store it isn't used again, but recovered from the disk.
#[derive(Drop)]
pub struct Naming<O> {
    pub(crate) memory: Memory,
    pub(crate) store: O,
}

impl<O> Model for Naming<O> {
    ghost use Rattle.arj_naming.specs.Kept.{Kept};

    ghost Value = { Kept O };

    ghost view = { λ n. record { part = n.memory.part; pair = n.memory.entries; store = n.store } };
}

impl<O> Naming<O> {
    /// Answers a Bind: the live binding under a read lock, or a binding to make under the write lock. None where it is void.
    pub fn bind(&mut self, m: &Bind, out: &mut Lines) -> Result<Option<Bound>, AllocError>
        ensures part { OnOk result (self.new.part ≡ (bind_by m.now self.old.pair self.old.part).part) }
        ensures lines { OnOk result (out.new ≡ out.old ++ said (bind_by m.now self.old.pair self.old.part).outs) }
        ensures reply { IfOk result (λ r. r ≡ option_map (bound_to m.now.head) (bind_by m.now self.old.pair self.old.part).reply) }
        ensures pair { self.new.pair ≡ self.old.pair }
        ensures store { self.new.store ≡ self.old.store }
    {
        self.memory.part.bind(&self.memory.entries, m, out)
    }

    /// Answers a Record: the binding is in use from now on. None where it is void.
    pub fn note(&mut self, m: &RecordMsg, out: &mut Lines) -> Result<Option<Recorded>, AllocError>
        ensures part { OnOk result (self.new.part ≡ (note_by m.now self.old.part).part) }
        ensures lines { OnOk result (out.new ≡ out.old ++ said (note_by m.now self.old.part).outs) }
        ensures reply { IfOk result (λ r. r ≡ option_map (recorded_to m.now.head) (note_by m.now self.old.part).reply) }
        ensures pair { self.new.pair ≡ self.old.pair }
        ensures store { self.new.store ≡ self.old.store }
    {
        let alloc = self.memory.entries.allocator();
        self.memory.part.note(alloc, m, out)
    }

    /// A server is up again: live bindings to its earlier incarnations are dropped. It takes no memory.
    pub fn hello(&mut self, m: &Hello)
        ensures part { self.new.part ≡ hello m.now.node m.now.inc self.old.part }
        ensures pair { self.new.pair ≡ self.old.pair }
        ensures store { self.new.store ≡ self.old.store }
    {
        self.memory.part.hello(m);
    }

    /// The tops that have locks on entries, each once, in increasing order.
    pub fn held(&self, alloc: Global) -> Result<Uids, AllocError>
        ensures { IfOk result (AreListed (naming_holders self.now.part)) }
    {
        self.memory.part.held(alloc)
    }
}

impl<O: ObjectStore> Naming<O> {
    /// Whether no entry is prepared.
    pub fn is_clear(&self) -> bool
        ensures { (result ≡ true) ↔ (self.now.pair.pend ≡ []) }
    {
        self.memory.entries.is_clear()
    }

    /// The committed state of the entry of an object, unless it is in doubt.
    pub fn entry<D: Disk>(&self, alloc: Global, disk: &mut D, x: u16) -> Result<Read, StoreFault>
        requires { StandsOn O.ObjectStore self.now (D.file disk.old) }
        ensures answer { IfOk result (λ answer. Reads (O.pair (D.file disk.old) Role.Names) (entry x) answer) }
        ensures files { Same (D.file disk.old) (D.file disk.new) }
        ensures counts { CountsCall (counts D.Disk disk.old) (counts D.Disk disk.new) result StoreFault.Stopped }
    {
        self.store.read_committed(alloc, disk, entry_uid(x))
    }
    // The states on the disk are of entries. It does nothing when it runs.
    pub(crate) fn gives_entries<D: Disk>(&self, _disk: &D)
        requires { StandsOn O.ObjectStore self.now (D.file _disk.now) }
        ensures { GivesEntries (O.pair (D.file _disk.now) Role.Names) }
    {
        self.memory.entries.are_entries();
    }
}
