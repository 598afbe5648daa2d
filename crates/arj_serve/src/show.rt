// What is shown of an object.
ghost use Rattle.std.specs.Prelude.{◌≡◌, ◌==◌, ◌++◌, None, Some, is_some, OnOk, IsErrOf};
ghost use Rattle.arj_base.specs.Uid.{object};
ghost use Rattle.arj_base.specs.declared.state.ObjectState.{ObjectState};
ghost use Rattle.arj_disk.specs.Counted.{counts};
ghost use Rattle.arj_disk.specs.Disk.{CountsCall, Same};
ghost use Rattle.arj_naming.specs.Said.{said};
ghost use Rattle.arj_protocol.specs.Effect as protocol;
ghost use Rattle.arj_protocol.specs.Step.{copy_line, show_entry, show_outs, shown};
ghost use Rattle.arj_serve.specs.Kept.{Stands};
ghost use Rattle.arj_serve.specs.Shown.{Shows, ShowsInPart};
ghost use Rattle.arj_store.specs.declared.answer.StoreFault.{StoreFault};
ghost use Rattle.arj_law_store.specs.store.Reads.{state_of};

use crate::Services;
use arj_base::object_uid;
use arj_disk::Disk;
use arj_journal::{Body, Line, Lines};
use arj_store::{ObjectStore, Read, StoreFault};
use std::alloc::AllocError;

impl<O: ObjectStore> Services<O> {
    /// Says what is shown of an object: its entry, at the node that has naming, and the state that the node stores. What is in
    /// doubt isn't read. Naming is at node 1 alone.
    pub fn show<D: Disk>(&self, disk: &mut D, x: u16, out: &mut Lines) -> Result<(), StoreFault>
        requires stands { Stands O.ObjectStore self.now (D.file disk.old) }
        requires place { is_some self.now.naming ≡ (self.now.number == 1) }
        ensures done { OnOk result (Shows O.ObjectStore (show_outs self.now.number x) (record { old = self.now; new = self.now; file = D.file disk.old; left = D.file disk.new; before = out.old; after = out.new })) }
        ensures stopped { IsErrOf result StoreFault.Stopped → ShowsInPart O.ObjectStore (show_outs self.now.number x) (record { old = self.now; new = self.now; file = D.file disk.old; left = D.file disk.new; before = out.old; after = out.new }) }
        ensures files { Same (D.file disk.old) (D.file disk.new) }
        ensures counts { CountsCall (counts D.Disk disk.old) (counts D.Disk disk.new) result StoreFault.Stopped }
    {
        self.show_entry(disk, x, out)?;
        self.show_copy(disk, x, out)?;
        Ok(())
    }

    // Says the entry.
    fn show_entry<D: Disk>(&self, disk: &mut D, x: u16, out: &mut Lines) -> Result<(), StoreFault>
        requires stands { Stands O.ObjectStore self.now (D.file disk.old) }
        requires place { is_some self.now.naming ≡ (self.now.number == 1) }
        ensures done { OnOk result (Shows O.ObjectStore (λ (d : protocol.Disk). show_entry self.now.number x d.names) (record { old = self.now; new = self.now; file = D.file disk.old; left = D.file disk.new; before = out.old; after = out.new })) }
        ensures stopped { IsErrOf result StoreFault.Stopped → ShowsInPart O.ObjectStore (λ (d : protocol.Disk). show_entry self.now.number x d.names) (record { old = self.now; new = self.now; file = D.file disk.old; left = D.file disk.new; before = out.old; after = out.new }) }
        ensures files { Same (D.file disk.old) (D.file disk.new) }
        ensures counts { CountsCall (counts D.Disk disk.old) (counts D.Disk disk.new) result StoreFault.Stopped }
    {
        let Some(naming) = &self.naming else {
            return Ok(());
        };
        naming.show(self.alloc, disk, x, out)?;
        Ok(())
    }

    // Says the stored state.
    fn show_copy<D: Disk>(&self, disk: &mut D, x: u16, out: &mut Lines) -> Result<(), StoreFault>
        requires stands { Stands O.ObjectStore self.now (D.file disk.old) }
        ensures done { OnOk result (Shows O.ObjectStore (λ (d : protocol.Disk). shown (copy_line self.now.number x) (object x) d.store (protocol.holder_of (object x) d.store)) (record { old = self.now; new = self.now; file = D.file disk.old; left = D.file disk.new; before = out.old; after = out.new })) }
        ensures stopped { IsErrOf result StoreFault.Stopped → ShowsInPart O.ObjectStore (λ (d : protocol.Disk). shown (copy_line self.now.number x) (object x) d.store (protocol.holder_of (object x) d.store)) (record { old = self.now; new = self.now; file = D.file disk.old; left = D.file disk.new; before = out.old; after = out.new }) }
        ensures files { Same (D.file disk.old) (D.file disk.new) }
        ensures counts { CountsCall (counts D.Disk disk.old) (counts D.Disk disk.new) result StoreFault.Stopped }
    {
        let read = self.read(disk, object_uid(x))?;
        say_read(self.number, x, read, out)?;
        Ok(())
    }
}

// Says what was read of an object.
fn say_read(node: u8, x: u16, read: Read, out: &mut Lines) -> Result<(), AllocError>
    ensures { OnOk result (out.new ≡ out.old ++ said (copy_line node x (state_of read))) }
{
    let Read::State(state) = read else {
        return Ok(());
    };
    let body = Body::Copy {
        node,
        x,
        version: state.version,
        writer: state.writer,
        payload: state.payload,
    };
    out.push(Line { event: 0, body })
}
