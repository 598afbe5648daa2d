// What a restart finds of commits.
ghost use Rattle.std.specs.Prelude.{◌≡◌, ◌++◌, map, IfOk, OnOk, IsErrOf};
ghost use Rattle.std.specs.List.{AllByRecursion};
ghost use Rattle.arj_disk.specs.Counted.{counts};
ghost use Rattle.arj_disk.specs.Disk.{CountsCall};
ghost use Rattle.arj_intent.specs.Records.{AreInForm, AreRecords, IsInForm, IsTheList, entry_of};
ghost use Rattle.arj_protocol.specs.Step.{recovered_records};
ghost use Rattle.arj_recover.specs.Done.{said};
ghost use Rattle.arj_store.specs.declared.answer.StoreFault.{StoreFault};

use arj_disk::Disk;
use arj_intent::{Intent, Intents, list};
use arj_journal::{Body, Line, Lines};
use arj_store::StoreFault;
use std::alloc::{AllocError, Global};

/// The records of commits that the disk has, by their tops; each is said.
pub fn resume<D: Disk>(
    alloc: Global,
    disk: &mut D,
    node: u8,
    out: &mut Lines,
) -> Result<Intents, StoreFault>
    requires { AreInForm (D.file disk.old) }
    ensures found { IfOk result (λ found. AreRecords (D.file disk.old) (map entry_of found)) }
    ensures only { IfOk result (λ found. IsTheList (D.file disk.old) (map entry_of found)) }
    ensures form { IfOk result (AllByRecursion IsInForm) }
    ensures lines { IfOk result (λ found. out.new ≡ out.old ++ said (recovered_records node (map entry_of found))) }
    ensures stopped { IsErrOf result StoreFault.Stopped → out.new ≡ out.old }
    ensures files { D.file disk.new ≡ D.file disk.old }
    ensures counts { CountsCall (counts D.Disk disk.old) (counts D.Disk disk.new) result StoreFault.Stopped }
{
    let found = list(alloc, disk)?;
    say_all(node, found.as_slice(), out)?;
    Ok(found)
}

// Says each record.
fn say_all(node: u8, found: &[Intent], out: &mut Lines) -> Result<(), AllocError>
    ensures { OnOk result (out.new ≡ out.old ++ said (recovered_records node (map entry_of found.now))) }
{
    for intent in found {
        out.push(Line {
            event: 0,
            body: Body::Recovered {
                node,
                action: intent.top,
            },
        })?;
    }
    Ok(())
}
