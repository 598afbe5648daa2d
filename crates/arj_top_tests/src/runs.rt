// Whole runs over sources and sinks in memory.
ghost use Rattle.std.specs.Prelude.{◌≡◌, ◌≤◌, ◌<◌, All, IfOk, None};
ghost use Rattle.arj_disk.specs.declared.slot.Slot.{Slot};
ghost use Rattle.arj_nodes.specs.AllNodes.{AreFresh};

use arj_base::{Bytes, Numbers};
use arj_disk::{Disk, MemDisk, Outcome, Rack};
use arj_io::{MemSink, MemSource, Source};
use arj_journal::Lines;
use arj_top::{BadLine, arjuna, empty_rack};
use std::alloc::{AllocError, Global};
use std::test::Fail;

const HEADER: &[u8] = b"nodes 1\nobject 1 counter 0 servers 1 stores 1\nrun\n";

const BEGUN: &[u8] = b"1 began A top 1.1.1 -\n";

const CALLED: &[u8] = b"1 began A top 1.1.1 -
2 granted 1 1.1.1 0.1.1 write
2 bound 1 1.1 1
2 active 1 1 1.1
2 lowered 1 1.1.1 0.1.1
2 granted 1 1.1.1 0.0.1 write
2 ok A 1 add 5 = done
";

// The store's disk stops as it prepares, and bytes that are no message are refused.
const TWO_NODES: &[u8] = b"nodes 2
object 1 counter 0 servers 1 stores 2
run
begin A at 1
call A 1 add 5
settle
stop 2 1 none
commit A
settle
junk 1 140200000003
";

const HALTED: &[u8] = b"1 began A top 1.1.1 -
2 granted 1 1.1.1 0.1.1 write
2 bound 1 1.1 1
2 sent 1 1 2 load
3 got 1
3 sent 2 2 1 loaded
3 got 2
3 active 1 1 1.1
3 lowered 1 1.1.1 0.1.1
3 granted 1 1.1.1 0.0.1 write
3 ok A 1 add 5 = done
4 armed 2
5 committing A
5 sent 3 1 2 prepare
6 got 3
6 halted 2
7 refused 18
";

const BANK: &[u8] = b"events 1627
committed 200
aborted 0
refused 0
sum 20000
quiet yes
";

fn numbers(alloc: Global, number: Option<u64>) -> Result<Numbers, AllocError> {
    let mut numbers = Numbers::new(alloc);
    if let Some(n) = number {
        numbers.push(n)?;
    }
    Ok(numbers)
}

pub fn bytes(alloc: Global, pieces: &[&[u8]]) -> Result<Bytes, AllocError> {
    let mut bytes = Bytes::new(alloc);
    for piece in pieces {
        bytes.extend(piece)?;
    }
    Ok(bytes)
}

// Room for so many pieces of 512 bytes.
fn room(alloc: Global, pieces: u32) -> Result<Bytes, AllocError> {
    let mut room = Bytes::new(alloc);
    for _ in 0..pieces {
        room.extend(&[0u8; 512])?;
    }
    Ok(room)
}

fn words(alloc: Global, given: &[&str]) -> Result<Vec<String>, AllocError> {
    let mut words = Vec::new(alloc);
    for word in given {
        words.push(String::from_str(alloc, word)?)?;
    }
    Ok(words)
}

// How a run is fed: pieces of at most so many bytes, and one read and one write that may fail.
#[derive(Clone, Copy)]
pub struct Feeding {
    pub chunk: usize,
    pub failing_read: Option<u64>,
    pub failing_write: Option<u64>,
}

// Long pieces, and nothing fails.
const SURE: Feeding = Feeding {
    chunk: 512,
    failing_read: None,
    failing_write: None,
};

// What a run of the top call came to: its status, what the sink took, why a line is bad, whether there is a world, and the next
// byte that the source gives.
#[derive(Drop)]
pub struct Came {
    pub status: u8,
    pub sink: MemSink,
    why: Option<BadLine>,
    has_world: bool,
    next: Option<u8>,
}

// A run of a command over these disks.
fn run(
    alloc: Global,
    given: &[&str],
    script: Bytes,
    feeding: Feeding,
    rack: &mut Rack<MemDisk>,
) -> Result<Came, AllocError>
    requires { AreFresh ⟦<MemDisk as Disk>⟧ rack.old }
{
    let words = words(alloc, given)?;
    let room = room(alloc, 32)?;
    let failing = numbers(alloc, feeding.failing_read)?;
    let failing_write = numbers(alloc, feeding.failing_write)?;
    let mut source = MemSource::new(script, feeding.chunk.max(1), failing);
    let mut sink = MemSink::new(room, failing_write);
    let mut journal = Lines::new(alloc);
    let mut why = None;
    let mut found = None;
    let mut world = None;
    let status = arjuna(
        alloc,
        words.as_slice(),
        &mut source,
        &mut sink,
        rack,
        &mut journal,
        &mut why,
        &mut found,
        &mut world,
    );
    Ok(Came {
        status,
        sink,
        why,
        has_world: world.is_some(),
        next: next_byte(&mut source),
    })
}

fn next_byte(source: &mut MemSource) -> Option<u8> {
    let mut buffer = [0u8; 1];
    match source.read(&mut buffer) {
        Ok(1) => Some(buffer[0]),
        _ => None,
    }
}

// A run of a script over empty disks.
pub fn replayed(alloc: Global, pieces: &[&[u8]], feeding: Feeding) -> Result<Came, AllocError> {
    let script = bytes(alloc, pieces)?;
    let mut rack = empty_rack(alloc)?;
    run(alloc, ["replay"].as_slice(), script, feeding, &mut rack)
}

#[test]
fn scripts(rt: HostRuntime) -> Result<(), Fail> {
    let alloc = rt.alloc();
    let long = [b'#'; 501];
    for (script, status, why, has_world, output) in [
        (
            b"".as_slice(),
            2,
            Some(BadLine::Missing),
            false,
            b"0 bad 1\n".as_slice(),
        ),
        (
            b"# nothing\n\n",
            2,
            Some(BadLine::Missing),
            false,
            b"0 bad 3\n",
        ),
        (
            b"nodes 17\n",
            2,
            Some(BadLine::Unknown),
            false,
            b"0 bad 1\n",
        ),
        (b"nodes 2\n", 2, Some(BadLine::Missing), false, b"0 bad 2\n"),
        (HEADER, 0, None, true, b""),
        (
            long.as_slice(),
            2,
            Some(BadLine::TooLong),
            false,
            b"0 bad 1\n",
        ),
        (TWO_NODES, 0, None, true, HALTED),
    ] {
        let came = replayed(alloc, [script].as_slice(), SURE)?;
        assert_eq!(rt; came.status, status);
        assert_eq!(rt; came.why, why);
        assert_eq!(rt; came.has_world, has_world);
        assert_eq!(rt; came.sink.taken(), Some(output));
    }
    Ok(())
}

// However the input is cut, the same is written; and after an end of the run no more is read.
#[test]
fn inputs_in_pieces(rt: HostRuntime) -> Result<(), Fail> {
    let alloc = rt.alloc();
    let none = b"".as_slice();
    // The header and the first event's line have 63 bytes.
    for (chunk, failing_read, failing_write, status, output, next) in [
        (512, None, None, 0, CALLED, None),
        (7, None, None, 0, CALLED, None),
        (1, None, None, 0, CALLED, None),
        // A read fails behind the first event's line, or before its end.
        (1, Some(64), None, 3, BEGUN, Some(b'c')),
        (1, Some(63), None, 3, none, Some(b'\n')),
        (63, Some(2), None, 3, BEGUN, Some(b'c')),
        // The text of a piece is written before the next one is asked for, or at the end.
        (63, None, Some(1), 4, none, Some(b'c')),
        (63, None, Some(2), 4, BEGUN, None),
        (512, None, Some(1), 4, none, None),
    ] {
        let feeding = Feeding {
            chunk,
            failing_read,
            failing_write,
        };
        let pieces = [HEADER, b"begin A at 1\ncall A 1 add 5\n"];
        let came = replayed(alloc, pieces.as_slice(), feeding)?;
        assert_eq!(rt; came.status, status);
        assert_eq!(rt; came.sink.taken(), Some(output));
        assert_eq!(rt; came.next, next);
    }
    Ok(())
}

// A line of 501 bytes is bad as soon as its last byte is there, over two pieces too.
#[test]
fn a_line_over_two_pieces(rt: HostRuntime) -> Result<(), Fail> {
    let alloc = rt.alloc();
    let long = [b'#'; 501];
    for (chunk, next) in [(400, None), (1, Some(b'x'))] {
        let feeding = Feeding { chunk, ..SURE };
        let came = replayed(alloc, [long.as_slice(), b"x\n"].as_slice(), feeding)?;
        assert_eq!(rt; came.status, 2);
        assert_eq!(rt; came.why, Some(BadLine::TooLong));
        assert_eq!(rt; came.sink.taken(), Some(b"0 bad 1\n".as_slice()));
        assert_eq!(rt; came.next, next);
    }
    Ok(())
}

// A number of a bank is decimal, without leading zeros, and has 32 bits.
#[test]
fn command_lines(rt: HostRuntime) -> Result<(), Fail> {
    let alloc = rt.alloc();
    let none = b"".as_slice();
    for (given, status, has_world, output) in [
        (["help"].as_slice(), 1, false, none),
        (["replay", "1"].as_slice(), 1, false, none),
        (["generate", ""].as_slice(), 1, false, none),
        (["generate", "07"].as_slice(), 1, false, none),
        (["generate", "+7"].as_slice(), 1, false, none),
        (["generate", "4294967296"].as_slice(), 1, false, none),
        (["generate", "7"].as_slice(), 0, true, BANK),
    ] {
        let mut rack = empty_rack(alloc)?;
        let script = bytes(alloc, [HEADER].as_slice())?;
        let came = run(alloc, given, script, SURE, &mut rack)?;
        assert_eq!(rt; came.status, status);
        assert_eq!(rt; came.has_world, has_world);
        assert_eq!(rt; came.sink.taken(), Some(output));
        assert_eq!(rt; came.next, Some(b'n'));
    }
    Ok(())
}

// An empty disk of this node. That of the first node is armed: its first call stops.
fn disk_of(alloc: Global, node: u8) -> MemDisk
    ensures files { (slot : Slot) → ⟦<MemDisk as Disk>⟧.file result slot ≡ None }
    ensures arms { ⟦<MemDisk as Disk>⟧.arms result < 1000 }
{
    let mut disk = MemDisk::new(alloc);
    if node == 0 {
        disk.arm(1, Outcome::Undone);
    }
    disk
}

// Sixteen empty disks, the first of which stops at its first call.
fn stopping_rack(alloc: Global) -> Result<Rack<MemDisk>, AllocError>
    ensures { IfOk result (λ rack. AreFresh ⟦<MemDisk as Disk>⟧ rack) }
{
    let mut disks = Vec::new(alloc);
    for node in 0..16u8 {
        disks.push(disk_of(alloc, node))?;
    }
    Ok(Rack::new(disks))
}

// A disk that stops while it is formatted ends the run before its first event.
#[test]
fn a_disk_that_stops(rt: HostRuntime) -> Result<(), Fail> {
    let alloc = rt.alloc();
    for given in [["replay"].as_slice(), ["generate", "7"].as_slice()] {
        let mut rack = stopping_rack(alloc)?;
        let script = bytes(alloc, [TWO_NODES].as_slice())?;
        let came = run(alloc, given, script, SURE, &mut rack)?;
        assert_eq!(rt; came.status, 7);
        assert_eq!(rt; came.has_world, false);
        assert_eq!(rt; came.sink.taken(), Some(b"".as_slice()));
    }
    Ok(())
}
