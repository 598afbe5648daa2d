// What naming shows of an object.
ghost use Rattle.std.specs.Prelude.{◌≡◌, ◌++◌, None, OnOk, IsErrOf};
ghost use Rattle.arj_base.specs.Uid.{entry};
ghost use Rattle.arj_disk.specs.Counted.{counts};
ghost use Rattle.arj_disk.specs.Disk.{CountsCall, Same};
ghost use Rattle.arj_naming.specs.Kept.{StandsOn};
ghost use Rattle.arj_naming.specs.Said.{said};
ghost use Rattle.arj_protocol.specs.Effect.{holder_of};
ghost use Rattle.arj_protocol.specs.Step.{entry_line, shown};
ghost use Rattle.arj_store.specs.declared.answer.StoreFault.{StoreFault};
ghost use Rattle.arj_law_store.specs.store.Reads.{state_of};

use crate::Naming;
use crate::lines::say;
use crate::payload::entry_of;
use arj_base::ObjectState;
use arj_disk::Disk;
use arj_journal::{Body, Lines};
use arj_store::{ObjectStore, Read, StoreFault};
use std::alloc::{AllocError, Global};

// Says an entry.
fn say_entry(alloc: Global, x: u16, state: &ObjectState, out: &mut Lines) -> Result<(), AllocError>
    ensures { OnOk result (out.new ≡ out.old ++ said (entry_line x (Some state.now))) }
{
    let entry = entry_of(alloc, state)?;
    let body = Body::Entry {
        x,
        version: state.version,
        servers: entry.servers,
        stores: entry.stores,
    };
    say(out, body)
}

// Says what was read of an entry that isn't in doubt.
fn say_read(alloc: Global, x: u16, read: &Read, out: &mut Lines) -> Result<(), AllocError>
    ensures { OnOk result (out.new ≡ out.old ++ said (entry_line x (state_of read.now))) }
{
    match read {
        Read::State(state) => say_entry(alloc, x, state, out),
        Read::Absent | Read::InDoubt { .. } => Ok(()),
    }
}

impl<O: ObjectStore> Naming<O> {
    /// Says the committed entry of an object, unless it is in doubt: then the disk isn't read.
    pub fn show<D: Disk>(
        &self,
        alloc: Global,
        disk: &mut D,
        x: u16,
        out: &mut Lines,
    ) -> Result<(), StoreFault>
        requires { StandsOn O.ObjectStore self.now (D.file disk.old) }
        ensures done { OnOk result (out.new ≡ out.old ++ said (shown (entry_line x) (entry x) self.now.pair (holder_of (entry x) self.now.pair))) }
        ensures free { IsErrOf result StoreFault.Stopped → holder_of (entry x) self.now.pair ≡ None }
        ensures unsaid { IsErrOf result StoreFault.Stopped → out.new ≡ out.old }
        ensures files { Same (D.file disk.old) (D.file disk.new) }
        ensures counts { CountsCall (counts D.Disk disk.old) (counts D.Disk disk.new) result StoreFault.Stopped }
    {
        if self.holder(x).is_some() {
            return Ok(());
        }
        self.memory.entries.are_entries();
        let read = self.entry(alloc, disk, x)?;
        say_read(alloc, x, &read, out)?;
        Ok(())
    }
}
