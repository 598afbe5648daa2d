// How a node's disk begins, and what a restart asks of it.
ghost use Rattle.std.specs.Prelude.{◌≡◌, None, IfOk, OnOk};
ghost use Rattle.arj_base.specs.declared.state.Format.TheVariants as header_format;
ghost use Rattle.arj_class.specs.Forms.{FormatHolds};
ghost use Rattle.arj_disk.specs.declared.slot.Slot.{Slot};
ghost use Rattle.arj_intent.specs.Records.{AreInForm, IsInForm};
ghost use Rattle.arj_journal.specs.ScriptForm.{HeaderInForm, ObjectLineInForm};
ghost use Rattle.arj_journal.specs.declared.limits.TheConstants.{OBJECTS, STORES};
ghost use Rattle.arj_recover.specs.OnDisk.{IsFormed};
ghost use Rattle.arj_text.specs.Fields.{IsWithin, NodesInForm};

use crate::recorder::{Did, Recorder};
use arj_base::{Format, NodeList, States, Uid};
use arj_class::{Counter, Value};
use arj_disk::{Disk, MemDisk, Role, Slot};
use arj_intent::Intent;
use arj_journal::{Body, Header, Line, Lines, ObjectLine, ObjectLines};
use arj_recover::{format, format_inc, restart, resume};
use arj_store::{ObjectStore, ShadowStore, StoreFault};
use std::alloc::{AllocError, Global};
use std::process::Abort;
use std::test::Fail;

// A top of node 2.
const TOP: Uid = Uid {
    node: 2,
    inc: 1,
    num: 1,
};

const ONE: Uid = Uid {
    node: 0,
    inc: 0,
    num: 1,
};

const THREE: Uid = Uid {
    node: 0,
    inc: 0,
    num: 3,
};

// What a format asks of a disk: objects 1 and 3, then the incarnation. Object 2 isn't stored here.
const FIRST: &[Did] = &[
    Did::Write(Slot::Tmp),
    Did::Rename(Slot::Tmp, Slot::Committed(ONE)),
    Did::Write(Slot::Tmp),
    Did::Rename(Slot::Tmp, Slot::Committed(THREE)),
    Did::Write(Slot::Tmp),
    Did::Rename(Slot::Tmp, Slot::Incarnation),
];

// What a restart asks: the incarnation rises before anything else.
const AGAIN: &[Did] = &[
    Did::Read(Slot::Incarnation),
    Did::Write(Slot::Tmp),
    Did::Rename(Slot::Tmp, Slot::Incarnation),
    Did::Remove(Slot::Tmp),
    Did::Names,
];

// And what the records ask behind it.
const RECORDS: &[Did] = &[Did::Names, Did::Read(Slot::Intent(TOP))];

// An object with a counter of 0 that node 1 serves and these nodes store.
fn object(alloc: Global, x: u16, stores: &[u8]) -> Result<ObjectLine, AllocError>
    requires number { IsWithin 1 OBJECTS x }
    requires stores { NodesInForm 2 STORES stores.now }
    ensures form { IfOk result (λ o. ObjectLineInForm 2 o × (o.x ≡ x)) }
    ensures held { IfOk result (λ o. FormatHolds header_format.Two o.value) }
{
    let mut nodes = NodeList::new(alloc);
    nodes.extend(stores)?;
    let mut servers = NodeList::new(alloc);
    servers.push(1)?;
    Ok(ObjectLine {
        x,
        value: Value::Counter(Counter::new(0)),
        servers,
        stores: nodes,
    })
}

// Two nodes and three objects; node 2 stores the first and the third.
fn header(alloc: Global) -> Result<Header, AllocError>
    ensures { IfOk result HeaderInForm }
{
    let mut objects = ObjectLines::new(alloc);
    objects.push(object(alloc, 1, &[1, 2])?)?;
    objects.push(object(alloc, 2, &[1])?)?;
    objects.push(object(alloc, 3, &[2])?)?;
    Ok(Header {
        nodes: 2,
        objects,
        format: Format::Two,
    })
}

// The disk of node 2 begins.
fn begin<D: Disk, O: ObjectStore + Drop>(
    alloc: Global,
    disk: &mut D,
    header: &Header,
) -> Result<(), StoreFault>
    requires empty { (q : Slot) → D.file disk.old q ≡ None }
    requires form { HeaderInForm header.now }
    ensures { OnOk result (IsFormed O.ObjectStore (D.file disk.new)) }
{
    let _objects: O = format(alloc, disk, 2, header)?;
    let _entries = O::format(alloc, disk, Role::Names, &States::new(alloc))?;
    format_inc::<D, O>(alloc, disk)
}

// The record of a commit of node 2, in which node 1 takes part.
fn record(alloc: Global) -> Result<Intent, AllocError>
    ensures { IfOk result IsInForm }
{
    let mut nodes = NodeList::new(alloc);
    nodes.extend(&[1])?;
    Ok(Intent {
        root: TOP,
        top: TOP,
        nodes,
    })
}

// The lines say that node 2 is up in its second incarnation.
fn says_up(lines: &[Line]) -> bool {
    match lines {
        [
            Line {
                body: Body::Up { node: 2, inc: 2 },
                ..
            },
        ] => true,
        _ => false,
    }
}

// The last line says that node 2 has found the record of an action.
fn says_found(lines: &[Line], top: Uid) -> bool {
    match lines {
        [
            ..,
            Line {
                body: Body::Recovered { node: 2, action },
                ..
            },
        ] => *action == top,
        _ => false,
    }
}

// Whether a disk got these calls.
fn did(disk: &Recorder, calls: &[Did]) -> bool {
    disk.calls.as_slice() == calls
}

// A disk that has begun, with its calls so far.
fn begun(alloc: Global) -> Result<Recorder, StoreFault>
    ensures { IfOk result (λ disk. IsFormed ⟦<ShadowStore as ObjectStore>⟧ (⟦<Recorder as Disk>⟧.file disk)) }
{
    let header = header(alloc)?;
    let mut disk = Recorder {
        disk: MemDisk::new(alloc),
        calls: Vec::new(alloc),
    };
    begin::<Recorder, ShadowStore>(alloc, &mut disk, &header)?;
    Ok(disk)
}

// A restart: the incarnation is the next one, the calls are in their order, and the node is said to be up.
fn begins_again(alloc: Global, disk: &mut Recorder) -> Result<bool, StoreFault>
    requires { IsFormed ⟦<ShadowStore as ObjectStore>⟧ (⟦<Recorder as Disk>⟧.file disk.old) }
    ensures { OnOk result (AreInForm (⟦<Recorder as Disk>⟧.file disk.new)) }
{
    disk.calls.clear();
    let mut lines = Lines::new(alloc);
    let again = restart::<Recorder, ShadowStore>(alloc, disk, 2, &mut lines)?;
    Ok(again.inc == 2 && did(disk, AGAIN) && says_up(lines.as_slice()))
}

// What it finds of a commit.
fn finds(alloc: Global, disk: &mut Recorder) -> Result<bool, StoreFault>
    requires { AreInForm (⟦<Recorder as Disk>⟧.file disk.old) }
{
    arj_intent::put(alloc, disk, &record(alloc)?)?;
    disk.calls.clear();
    let mut lines = Lines::new(alloc);
    let found = resume(alloc, disk, 2, &mut lines)?;
    Ok(found.as_slice().len() == 1 && did(disk, RECORDS) && says_found(lines.as_slice(), TOP))
}

#[test]
fn a_disk_begins_and_begins_again(rt: HostRuntime) -> Result<(), Fail> {
    let alloc = rt.alloc();
    let mut disk = begun(alloc)?;
    assert!(rt; did(&disk, FIRST));
    assert!(rt; begins_again(alloc, &mut disk)?);
    assert!(rt; finds(alloc, &mut disk)?);
    Ok(())
}
