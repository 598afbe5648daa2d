// The calls that the disks of all nodes get in whole runs.
ghost use Rattle.std.specs.Prelude.{◌≡◌, ◌<◌, IfOk, None};
ghost use Rattle.arj_disk.specs.declared.slot.Slot.{Slot};
ghost use Rattle.arj_nodes.specs.AllNodes.{AreFresh};

use crate::rows::{
    RESTART, RUNS, Row, STORE_BEFORE, STORE_BEHIND, STORE_FIRST, STORE_LAST, STORE_STOPS,
};
use arj_base::Bytes;
use arj_disk::{Disk, MemDisk, Rack};
use arj_io::{SureSink, SureSource};
use arj_journal::Lines;
use arj_part_tests::{Recorder, put_calls};
use arj_top::arjuna;
use std::alloc::{AllocError, Global};
use std::test::Fail;

// An empty disk that writes down its calls.
fn recorder(alloc: Global) -> Recorder
    ensures files { (slot : Slot) → ⟦<MemDisk as Disk>⟧.file result.disk slot ≡ None }
    ensures arms { ⟦<MemDisk as Disk>⟧.arms result.disk < 1000 }
{
    Recorder {
        disk: MemDisk::new(alloc),
        calls: Vec::new(alloc),
    }
}

// Sixteen of them.
fn recorders(alloc: Global) -> Result<Rack<Recorder>, AllocError>
    ensures { IfOk result (λ rack. AreFresh ⟦<Recorder as Disk>⟧ rack) }
{
    let mut disks = Vec::new(alloc);
    for _ in 0..16u8 {
        disks.push(recorder(alloc))?;
    }
    Ok(Rack::new(disks))
}

// Runs a script over these disks, and answers the status.
fn replayed(alloc: Global, words: &[String], script: Bytes, rack: &mut Rack<Recorder>) -> u8
    requires { AreFresh ⟦<Recorder as Disk>⟧ rack.old }
{
    let mut source = SureSource::new(script);
    let mut sink = SureSink::new(Bytes::new(alloc));
    let mut journal = Lines::new(alloc);
    let mut why = None;
    let mut found = None;
    let mut world = None;
    arjuna(
        alloc,
        words,
        &mut source,
        &mut sink,
        rack,
        &mut journal,
        &mut why,
        &mut found,
        &mut world,
    )
}

fn words(alloc: Global) -> Result<Vec<String>, AllocError> {
    let mut words = Vec::new(alloc);
    words.push(String::from_str(alloc, "replay")?)?;
    Ok(words)
}

fn joined(alloc: Global, pieces: &[&[u8]]) -> Result<Bytes, AllocError> {
    let mut text = Bytes::new(alloc);
    for piece in pieces {
        text.extend(piece)?;
    }
    Ok(text)
}

// Puts the calls of the first four disks, those of one disk behind those of another.
fn put_called(text: &mut Bytes, rack: &mut Rack<Recorder>) -> Result<(), AllocError> {
    for node in 1..5u8 {
        put_calls(text, u32::from(node), rack.disk(node).calls.as_slice())?;
    }
    Ok(())
}

// The calls in a run of this script; none where its status isn't 0.
fn called(alloc: Global, script: Bytes) -> Result<Bytes, AllocError> {
    let words = words(alloc)?;
    let mut rack = recorders(alloc)?;
    let mut text = Bytes::new(alloc);
    if replayed(alloc, words.as_slice(), script, &mut rack) == 0 {
        put_called(&mut text, &mut rack)?;
    }
    Ok(text)
}

// Whether the disks get these calls in a run of this script, in this order, and no others.
fn are_called(alloc: Global, script: &[&[u8]], calls: &[&[u8]]) -> Result<bool, AllocError> {
    let called = called(alloc, joined(alloc, script)?)?;
    let wanted = joined(alloc, calls)?;
    Ok(called.as_slice() == wanted.as_slice())
}

// Whether they do where the disk of a store stops so.
fn store_is_called(alloc: Global, row: &Row) -> Result<bool, AllocError> {
    let (stop, before, behind) = *row;
    are_called(
        alloc,
        [STORE_BEFORE, stop, STORE_BEHIND].as_slice(),
        [STORE_FIRST, before, RESTART, behind, STORE_LAST].as_slice(),
    )
}

#[test]
fn a_store_stops(rt: HostRuntime) -> Result<(), Fail> {
    for (place, row) in STORE_STOPS.iter().enumerate() {
        assert!(rt; store_is_called(rt.alloc(), row)?, "row {place}");
    }
    Ok(())
}

#[test]
fn nodes_stop_in_whole_runs(rt: HostRuntime) -> Result<(), Fail> {
    for (place, (script, calls)) in RUNS.iter().enumerate() {
        let wanted = are_called(rt.alloc(), [*script].as_slice(), [*calls].as_slice())?;
        assert!(rt; wanted, "run {place}");
    }
    Ok(())
}
