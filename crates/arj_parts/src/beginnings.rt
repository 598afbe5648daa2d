// How a node's parts begin: over an empty disk, and over what a disk has.
ghost use Rattle.std.specs.Prelude.{◌≡◌, ◌≢◌, ◌+◌, ◌++◌, ◌∷◌, ◌↔◌, [], true, None, Some, ℕ, List, map, IfOk, OnOk, IsErrOf};
ghost use Rattle.arj_core.specs.declared.node.CoreFault.{CoreFault};
ghost use Rattle.arj_core.specs.Steps.{CountsStep};
ghost use Rattle.arj_disk.specs.Counted.{counts};
ghost use Rattle.arj_disk.specs.Disk.{CountsCall};
ghost use Rattle.arj_disk.specs.FileMap.{FileMap};
ghost use Rattle.arj_disk.specs.Says.{slot_role, inc, OnlyOfRole};
ghost use Rattle.arj_disk.specs.declared.slot.Role.{Role};
ghost use Rattle.arj_disk.specs.declared.slot.Slot.{Slot};
ghost use Rattle.arj_intent.specs.Records.{AreInForm, AreRecords};
ghost use Rattle.arj_journal.specs.ScriptForm.{HeaderInForm};
ghost use Rattle.arj_journal.specs.declared.header.Header.{Header};
ghost use Rattle.arj_naming.specs.Files.{GivesEntries};
ghost use Rattle.arj_naming.specs.Said.{said};
ghost use Rattle.arj_node.specs.Acting.{first_here, outs_again, parts_again};
ghost use Rattle.arj_node.specs.Handing.{Does};
ghost use Rattle.arj_node.specs.Outgoing.{IsHalted, Tells, effects_of};
ghost use Rattle.arj_parts.specs.Begun.{HasNaming, StopsBack, outs_back, raised};
ghost use Rattle.arj_parts.specs.Kept.{RestsOn, StandsOn, has_naming};
ghost use Rattle.arj_protocol.specs.Coord.{new_coord};
ghost use Rattle.arj_protocol.specs.Effect as protocol;
ghost use Rattle.arj_protocol.specs.Node.{Here};
ghost use Rattle.arj_protocol.specs.Order.{without_number};
ghost use Rattle.arj_protocol.specs.Words.{Uid};
ghost use Rattle.arj_protocol.specs.Step.{first_disk, hello_to, naming_at, naming_back, numbers_to, recovered_records};
ghost use Rattle.arj_recover.specs.Done.{sent_again};
ghost use Rattle.arj_serve.specs.Kept.{NamesOn};
ghost use Rattle.arj_store.specs.Pair.{SamePair};
ghost use Rattle.arj_store.specs.declared.answer.StoreFault.{StoreFault};
ghost use Rattle.arj_law_store.specs.store.Files.{IsPairOf};

use crate::NodeParts;
use crate::said::{ask_about, say_lines, tell};
use arj_base::States;
use arj_coord::{Coord, Effects, Records};
use arj_core::CoreFault;
use arj_disk::{Disk, Role};
use arj_journal as journal;
use arj_journal::Lines;
use arj_msg::{Hello, Message};
use arj_naming::Naming;
use arj_node::Outgoings;
use arj_recover::{Recovered, format_inc, resume};
use arj_serve::Services;
use arj_server::Server;
use arj_store::{ObjectStore, StoreFault};
use std::alloc::{AllocError, Global};

// A stop of the disk halts the node.
fn fault(e: StoreFault) -> CoreFault
    ensures { (result ≡ CoreFault.Halted) ↔ (e ≡ StoreFault.Stopped) }
{
    match e {
        StoreFault::Stopped => CoreFault::Halted,
        StoreFault::Memory => CoreFault::Memory,
    }
}

// ---- over an empty disk

// Naming of a node that is formatted. Without naming the disk has no entries.
fn first_naming<D: Disk, O: ObjectStore + Drop>(
    alloc: Global,
    number: u8,
    header: &journal::Header,
    disk: &mut D,
) -> Result<Option<Naming<O>>, StoreFault>
    requires empty { (q : Slot) → slot_role q ≡ Some Role.Names → D.file disk.old q ≡ None }
    requires form { HeaderInForm header.now }
    ensures has { IfOk result (λ naming. HasNaming O.ObjectStore number 1 naming (D.file disk.new) (first_disk header.now number).names) }
    ensures pair { OnOk result (IsPairOf (O.pair (D.file disk.new) Role.Names) (first_disk header.now number).names) }
    ensures gives { OnOk result (NamesOn (has_naming number) O.ObjectStore (D.file disk.new) (first_disk header.now number).names) }
    ensures formed { OnOk result (O.formed (D.file disk.new) Role.Names) }
    ensures others { OnlyOfRole Role.Names (D.file disk.old) (D.file disk.new) }
    ensures counts { CountsCall (counts D.Disk disk.old) (counts D.Disk disk.new) result StoreFault.Stopped }
{
    if number == 1 {
        return Ok(Some(Naming::format(alloc, disk, header)?));
    }
    let _none = O::format(alloc, disk, Role::Names, &States::new(alloc))?;
    Ok(None)
}

// The parts of a node that is formatted.
fn first<D: Disk, O: ObjectStore + Drop>(
    alloc: Global,
    number: u8,
    header: &journal::Header,
    disk: &mut D,
) -> Result<NodeParts<O>, StoreFault>
    requires form { HeaderInForm header.now }
    requires empty { (slot : Slot) → D.file disk.old slot ≡ None }
    ensures stands { IfOk result (λ parts. StandsOn O.ObjectStore number parts (D.file disk.new) (first_here header.now number)) }
    ensures counts { CountsCall (counts D.Disk disk.old) (counts D.Disk disk.new) result StoreFault.Stopped }
{
    let store: O = arj_recover::format(alloc, disk, number, header)?;
    let naming = first_naming(alloc, number, header, disk)?;
    format_inc::<D, O>(alloc, disk)?;
    Ok(NodeParts {
        alloc,
        services: Services::new(alloc, number, Server::new(alloc, 1), naming, store),
        coord: Coord::new(alloc, number, 1),
        records: Records::new(alloc),
    })
}

/// The parts of the node of this number over an empty disk, which is formatted with the first states of the objects that it
/// stores and, at node 1, their entries.
pub fn format<D: Disk, O: ObjectStore + Drop>(
    alloc: Global,
    number: u8,
    header: &journal::Header,
    disk: &mut D,
) -> Result<NodeParts<O>, CoreFault>
    requires form { HeaderInForm header.now }
    requires empty { (slot : Slot) → D.file disk.old slot ≡ None }
    ensures stands { IfOk result (λ parts. StandsOn O.ObjectStore number parts (D.file disk.new) (first_here header.now number)) }
    ensures counts { CountsCall (counts D.Disk disk.old) (counts D.Disk disk.new) result CoreFault.Halted }
{
    match first(alloc, number, header, disk) {
        Ok(parts) => Ok(parts),
        Err(e) => Err(fault(e)),
    }
}

// ---- over what a disk has

// What naming finds, at the node that has it.
fn naming_found<D: Disk, O: ObjectStore + Drop>(
    alloc: Global,
    number: u8,
    inc: u32,
    disk: &mut D,
    lines: &mut Lines,
) -> Result<Option<Naming<O>>, StoreFault>
    requires formed { O.formed (D.file disk.old) Role.Names }
    requires entries { has_naming number ≡ true → GivesEntries (O.pair (D.file disk.old) Role.Names) }
    ensures has { IfOk result (λ naming. (p : protocol.Pair) → IsPairOf (O.pair (D.file disk.old) Role.Names) p → NamesOn (has_naming number) O.ObjectStore (D.file disk.old) p
        → HasNaming O.ObjectStore number inc naming (D.file disk.new) p) }
    ensures lines { OnOk result ((p : protocol.Pair) → IsPairOf (O.pair (D.file disk.old) Role.Names) p → lines.new ≡ lines.old ++ said (naming_back (naming_at number inc p))) }
    ensures stopped { IsErrOf result StoreFault.Stopped → lines.new ≡ lines.old }
    ensures pair { SamePair (O.pair (D.file disk.old) Role.Names) (O.pair (D.file disk.new) Role.Names) }
    ensures formed { O.formed (D.file disk.new) Role.Names }
    ensures others { OnlyOfRole Role.Names (D.file disk.old) (D.file disk.new) }
    ensures counts { CountsCall (counts D.Disk disk.old) (counts D.Disk disk.new) result StoreFault.Stopped }
{
    if number == 1 {
        return Ok(Some(Naming::recover(alloc, disk, inc, lines)?));
    }
    Ok(None)
}

// The coordinator that the records of a disk give, and the records.
fn coord_found<D: Disk>(
    alloc: Global,
    number: u8,
    inc: u32,
    disk: &mut D,
    lines: &mut Lines,
) -> Result<(Coord, Records), StoreFault>
    requires { AreInForm (D.file disk.old) }
    ensures found { IfOk result (λ r. (all : List (Uid × protocol.Intent)) → AreRecords (D.file disk.old) all → (r.0 ≡ record (new_coord number inc) { telling = all }) × (r.1 ≡ all)) }
    ensures lines { OnOk result ((all : List (Uid × protocol.Intent)) → AreRecords (D.file disk.old) all → lines.new ≡ lines.old ++ said (recovered_records number all)) }
    ensures stopped { IsErrOf result StoreFault.Stopped → lines.new ≡ lines.old }
    ensures files { D.file disk.new ≡ D.file disk.old }
    ensures counts { CountsCall (counts D.Disk disk.old) (counts D.Disk disk.new) result StoreFault.Stopped }
{
    let found = resume(alloc, disk, number, lines)?;
    let coord = Coord::restarted(alloc, number, inc, found.as_slice())?;
    let records = Records::of_found(alloc, found.as_slice())?;
    Ok((coord, records))
}

// The parts that a disk gives, and their incarnation.
fn back<D: Disk, O: ObjectStore + Drop>(
    alloc: Global,
    number: u8,
    disk: &mut D,
    lines: &mut Lines,
) -> Result<(NodeParts<O>, u32), StoreFault>
    requires rests { (d : protocol.Disk) × RestsOn O.ObjectStore number (D.file disk.old) d }
    ensures done { IfOk result (λ r. (d : protocol.Disk) → RestsOn O.ObjectStore number (D.file disk.old) d
        → StandsOn O.ObjectStore number r.0 (D.file disk.new) (record { disk = raised d; parts = parts_again number d })) }
    ensures inc { IfOk result (λ r. r.1 ≡ inc (D.file disk.old) + 1) }
    ensures lines { OnOk result ((d : protocol.Disk) → RestsOn O.ObjectStore number (D.file disk.old) d → lines.new ≡ lines.old ++ said (outs_back number d)) }
    ensures stopped { IsErrOf result StoreFault.Stopped → (d : protocol.Disk) → RestsOn O.ObjectStore number (D.file disk.old) d
        → StopsBack O.ObjectStore number (D.file disk.new) d (record { before = lines.old; after = lines.new }) }
    ensures counts { CountsCall (counts D.Disk disk.old) (counts D.Disk disk.new) result StoreFault.Stopped }
{
    let Recovered { inc, store } = arj_recover::restart(alloc, disk, number, lines)?;
    let naming = naming_found(alloc, number, inc, disk, lines)?;
    let (coord, records) = coord_found(alloc, number, inc, disk, lines)?;
    let services = Services::new(alloc, number, Server::new(alloc, inc), naming, store);
    Ok((
        NodeParts {
            alloc,
            services,
            coord,
            records,
        },
        inc,
    ))
}

// A hello to a node, if it is another one.
#[tactic(auto, using(crate::proofs::Hellos::no_hello, crate::proofs::Hellos::one_hello))]
fn greet_one(number: u8, inc: u32, to: u8, outs: &mut Outgoings) -> Result<(), AllocError>
    ensures { OnOk result (effects_of outs.new ≡ effects_of outs.old ++ map (hello_to number inc) (without_number number (to ∷ []))) }
{
    if to == number {
        return Ok(());
    }
    outs.send(to, Message::Hello(Hello { node: number, inc }))
}

// A hello to each other node.
fn greet(number: u8, inc: u32, nodes: u8, outs: &mut Outgoings) -> Result<(), AllocError>
    ensures { OnOk result (effects_of outs.new ≡ effects_of outs.old ++ map (hello_to number inc) (without_number number (numbers_to nodes))) }
{
    for before in 0..nodes {
        greet_one(number, inc, before + 1, outs)?;
    }
    Ok(())
}

impl<O: ObjectStore> NodeParts<O> {
    // What is sent at a restart: tolds of the records, queries about what is prepared, and hellos.
    fn send_again(
        &self,
        number: u8,
        inc: u32,
        nodes: u8,
        outs: &mut Outgoings,
    ) -> Result<(), AllocError>
        ensures { OnOk result ((header : Header) (file : FileMap) (h : Here) → header.nodes ≡ nodes → StandsOn O.ObjectStore number self.now file h → Tells (sent_again header number inc h.disk) outs.old outs.new) }
    {
        let mut effects = Effects::new(self.alloc);
        self.records.tolds_again(&mut effects)?;
        tell(effects, outs)?;
        ask_about(self.services.prepared()?.as_slice(), outs)?;
        greet(number, inc, nodes, outs)
    }
}

/// The parts of the node of this number, which comes up again in a run of so many nodes, over what its disk has. Its
/// incarnation rises on the disk first; then prepared entries get their locks back, records are told again, prepared actions
/// are asked about, and a hello goes to each other node.
pub fn restart<D: Disk, O: ObjectStore + Drop>(
    alloc: Global,
    number: u8,
    nodes: u8,
    disk: &mut D,
    outs: &mut Outgoings,
) -> Result<NodeParts<O>, CoreFault>
    requires rests { (d : protocol.Disk) × RestsOn O.ObjectStore number (D.file disk.old) d }
    ensures done { IfOk result (λ parts. (header : Header) (d : protocol.Disk) → header.nodes ≡ nodes → RestsOn O.ObjectStore number (D.file disk.old) d
        → Does (StandsOn O.ObjectStore number parts (D.file disk.new)) (parts_again number d) (outs_again header number d) d outs.old outs.new) }
    ensures halted { IsErrOf result CoreFault.Halted → (header : Header) (d : protocol.Disk) → RestsOn O.ObjectStore number (D.file disk.old) d
        → IsHalted (RestsOn O.ObjectStore number (D.file disk.new)) (outs_again header number d) d outs.old outs.new }
    ensures counts { CountsStep (counts D.Disk disk.old) (counts D.Disk disk.new) result CoreFault.Halted }
{
    let mut lines = Lines::new(alloc);
    match back::<D, O>(alloc, number, disk, &mut lines) {
        Ok((parts, inc)) => {
            say_lines(lines, outs)?;
            parts.send_again(number, inc, nodes, outs)?;
            Ok(parts)
        }
        Err(StoreFault::Stopped) => {
            say_lines(lines, outs)?;
            Err(CoreFault::Halted)
        }
        Err(StoreFault::Memory) => Err(CoreFault::Memory),
    }
}
