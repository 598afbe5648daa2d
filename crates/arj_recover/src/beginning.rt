// How a restart begins.
ghost use Rattle.std.specs.Prelude.{◌≡◌, ◌+◌, ◌<◌, ◌++◌, IfOk, OnOk, IsErrOf, unwrap_or, drop};
ghost use Rattle.std.specs.Int.{w32, from_be_bytes};
ghost use Rattle.arj_disk.specs.Counted.{counts};
ghost use Rattle.arj_disk.specs.Disk.{CountsCall, Puts, PutsOrNot};
ghost use Rattle.arj_disk.specs.Formed.{incarnation_bytes, IsIncarnation};
ghost use Rattle.arj_disk.specs.Says.{inc};
ghost use Rattle.arj_disk.specs.declared.disk.DiskFault.{DiskFault};
ghost use Rattle.arj_disk.specs.declared.slot.Role.{Role};
ghost use Rattle.arj_disk.specs.declared.slot.Slot.{Slot};
ghost use Rattle.arj_protocol.specs.Effect.{PutInc};
ghost use Rattle.arj_recover.specs.Done.{IsCutOf, begins_again, begins_on, said};
ghost use Rattle.arj_recover.specs.OnDisk.{HasIncarnation, IsFormed, IsWorked, MayRaise, MayRise, SaysSame};
ghost use Rattle.arj_store.specs.declared.answer.StoreFault.{StoreFault};

use arj_base::Bytes;
use arj_disk::{Disk, DiskFault, Role, Slot};
use arj_journal::{Body, Line, Lines};
use arj_store::{ObjectStore, StoreFault};
use std::alloc::{AllocError, Global};

/// What a node has once it is up again: its new incarnation, and its store.
#[derive(Drop)]
pub struct Recovered<O> {
    pub inc: u32,
    pub store: O,
}

/// The node is up again: its incarnation rises on the disk before anything else, that is said, what a stop left behind is
/// removed, and its own store is recovered. Where the incarnation is the last of 32 bits, it answers `Memory`.
pub fn restart<D: Disk, O: ObjectStore + Drop>(
    alloc: Global,
    disk: &mut D,
    node: u8,
    out: &mut Lines,
) -> Result<Recovered<O>, StoreFault>
    requires formed { IsFormed O.ObjectStore (D.file disk.old) }
    ensures inc { IfOk result (λ r. r.inc ≡ inc (D.file disk.old) + 1) }
    ensures role { IfOk result (λ r. O.own_role r.store ≡ Role.Store) }
    ensures keeps { IfOk result (λ r. O.keeps r.store (D.file disk.new)) }
    ensures work { OnOk result (IsWorked O.ObjectStore (PutInc (inc (D.file disk.old) + 1)) (D.file disk.old) (D.file disk.new)) }
    ensures lines { OnOk result (out.new ≡ out.old ++ said (begins_again node (inc (D.file disk.old) + 1))) }
    ensures stopped { IsErrOf result StoreFault.Stopped → IsCutOf O.ObjectStore (begins_on node) (D.file disk.old) (D.file disk.new) out.old out.new }
    ensures formed { IsFormed O.ObjectStore (D.file disk.new) }
    ensures rises { MayRise (D.file disk.old) (D.file disk.new) }
    ensures counts { CountsCall (counts D.Disk disk.old) (counts D.Disk disk.new) result StoreFault.Stopped }
{
    let inc = raise(alloc, disk)?;
    out.push(Line {
        event: 0,
        body: Body::Up { node, inc },
    })?;
    let store = own_store(alloc, disk)?;
    Ok(Recovered { inc, store })
}

// The number in the file of the incarnation.
fn inc_in(bytes: &[u8]) -> u32
    requires { IsIncarnation bytes.now }
    ensures { result ≡ from_be_bytes w32 (drop 4 bytes.now) }
{
    let [_, _, _, _, a, b, c, d] = *bytes else {
        return 0;
    };
    u32::from_be_bytes([a, b, c, d])
}

// The file of this incarnation.
fn inc_file(alloc: Global, inc: u32) -> Result<Bytes, AllocError>
    ensures { IfOk result (λ bytes. bytes ≡ incarnation_bytes inc) }
{
    let mut bytes = Bytes::new(alloc);
    bytes.extend(b"ARJI")?;
    bytes.extend(&inc.to_be_bytes())?;
    Ok(bytes)
}

/// Puts the file of this incarnation.
pub fn put_inc<D: Disk>(alloc: Global, disk: &mut D, inc: u32) -> Result<(), DiskFault>
    ensures ok { OnOk result (Puts (D.file disk.old) (D.file disk.new) Slot.Incarnation (incarnation_bytes inc)) }
    ensures files { PutsOrNot (D.file disk.old) (D.file disk.new) Slot.Incarnation (incarnation_bytes inc) }
    ensures counts { CountsCall (counts D.Disk disk.old) (counts D.Disk disk.new) result DiskFault.Stopped }
{
    let bytes = inc_file(alloc, inc)?;
    arj_disk::put(disk, Slot::Incarnation, bytes.as_slice())
}

// Reads the incarnation, and puts the next one. There is none behind the last one.
fn raise<D: Disk>(alloc: Global, disk: &mut D) -> Result<u32, DiskFault>
    requires { HasIncarnation (D.file disk.old) }
    ensures inc { IfOk result (λ i. i ≡ inc (D.file disk.old) + 1) }
    ensures ok { OnOk result (Puts (D.file disk.old) (D.file disk.new) Slot.Incarnation (incarnation_bytes (inc (D.file disk.old) + 1))) }
    ensures less { OnOk result (inc (D.file disk.old) < 4294967295) }
    ensures files { MayRaise (D.file disk.old) (D.file disk.new) }
    ensures counts { CountsCall (counts D.Disk disk.old) (counts D.Disk disk.new) result DiskFault.Stopped }
{
    let Some(bytes) = disk.read(alloc, Slot::Incarnation)? else {
        return Err(DiskFault::Memory);
    };
    let Some(inc) = inc_in(bytes.as_slice()).checked_add(1) else {
        return Err(DiskFault::Memory);
    };
    put_inc(alloc, disk, inc)?;
    Ok(inc)
}

// Removes what a stopped put left, and recovers the node's own store.
fn own_store<D: Disk, O: ObjectStore>(alloc: Global, disk: &mut D) -> Result<O, StoreFault>
    requires formed { IsFormed O.ObjectStore (D.file disk.old) }
    ensures role { IfOk result (λ store. O.own_role store ≡ Role.Store) }
    ensures keeps { IfOk result (λ store. O.keeps store (D.file disk.new)) }
    ensures same { SaysSame O.ObjectStore (D.file disk.old) (D.file disk.new) }
    ensures inc { inc (D.file disk.new) ≡ inc (D.file disk.old) }
    ensures formed { IsFormed O.ObjectStore (D.file disk.new) }
    ensures counts { CountsCall (counts D.Disk disk.old) (counts D.Disk disk.new) result StoreFault.Stopped }
{
    disk.remove(Slot::Tmp)?;
    O::recover(alloc, disk, Role::Store)
}
