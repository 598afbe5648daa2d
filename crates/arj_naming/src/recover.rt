// A restart.
ghost use Rattle.std.specs.Prelude.{◌≡◌, ◌++◌, IfOk, OnOk, IsErrOf};
ghost use Rattle.arj_disk.specs.Counted.{counts};
ghost use Rattle.arj_disk.specs.Disk.{CountsCall};
ghost use Rattle.arj_disk.specs.Says.{OnlyOfRole};
ghost use Rattle.arj_disk.specs.declared.slot.Role.{Role};
ghost use Rattle.arj_naming.specs.Files.{GivesEntries};
ghost use Rattle.arj_naming.specs.Found.{AreFound};
ghost use Rattle.arj_law_store.specs.store.Found.{pair_found};
ghost use Rattle.arj_naming.specs.Kept.{StandsOn};
ghost use Rattle.arj_naming.specs.Said.{said};
ghost use Rattle.arj_protocol.specs.Confirm.{recovered_lines, recovered_naming};
ghost use Rattle.arj_store.specs.Pair.{SamePair};
ghost use Rattle.arj_store.specs.declared.answer.StoreFault.{StoreFault};

use crate::Naming;
use crate::entries::Entries;
use crate::memory::Memory;
use crate::part::Part;
use arj_disk::{Disk, Role};
use arj_journal::Lines;
use arj_store::{Found, ObjectStore, StoreFault};
use std::alloc::{AllocError, Global};

// What is in memory after a recovery that found this.
pub(crate) fn recovered(
    alloc: Global,
    found: &Found,
    inc: u32,
    out: &mut Lines,
) -> Result<Memory, AllocError>
    requires { AreFound found.now }
    ensures part { IfOk result (λ memory. memory.part ≡ recovered_naming inc (pair_found found.now)) }
    ensures entries { IfOk result (λ memory. memory.entries ≡ pair_found found.now) }
    ensures lines { OnOk result (out.new ≡ out.old ++ said (recovered_lines (recovered_naming inc (pair_found found.now)))) }
{
    let entries = Entries::of_found(alloc, found)?;
    let part = Part::recovered(alloc, inc, &entries, out)?;
    Ok(Memory { part, entries })
}

impl<O: ObjectStore + Drop> Naming<O> {
    /// The naming service of this incarnation after a restart: what the disk has of entries, and the locks that prepared
    /// entries give back.
    pub fn recover<D: Disk>(
        alloc: Global,
        disk: &mut D,
        inc: u32,
        out: &mut Lines,
    ) -> Result<Naming<O>, StoreFault>
        requires formed { O.formed (D.file disk.old) Role.Names }
        requires entries { GivesEntries (O.pair (D.file disk.old) Role.Names) }
        ensures stands { IfOk result (λ n. StandsOn O.ObjectStore n (D.file disk.new)) }
        ensures part { IfOk result (λ n. n.part ≡ recovered_naming inc n.pair) }
        ensures lines { IfOk result (λ n. out.new ≡ out.old ++ said (recovered_lines n.part)) }
        ensures stopped { IsErrOf result StoreFault.Stopped → out.new ≡ out.old }
        ensures pair { SamePair (O.pair (D.file disk.old) Role.Names) (O.pair (D.file disk.new) Role.Names) }
        ensures entries { GivesEntries (O.pair (D.file disk.new) Role.Names) }
        ensures formed { O.formed (D.file disk.new) Role.Names }
        ensures others { OnlyOfRole Role.Names (D.file disk.old) (D.file disk.new) }
        ensures counts { CountsCall (counts D.Disk disk.old) (counts D.Disk disk.new) result StoreFault.Stopped }
    {
        let store = O::recover(alloc, disk, Role::Names)?;
        let memory = recovered(alloc, store.found(), inc, out)?;
        Ok(Naming { memory, store })
    }
}
