// What reads and writes do, one after another.

use arj_base::{Bytes, Numbers};
use arj_io::{
    Failed, MemSink, MemSource, Sink, Source, StdSink, StdSource, SureSink, SureSource, write_all,
};
use std::alloc::{AllocError, Global};
use std::io;
use std::io::{Read, Write};
use std::test::Fail;

fn bytes(alloc: Global, text: &[u8]) -> Result<Bytes, AllocError> {
    let mut bytes = Bytes::new(alloc);
    bytes.extend(text)?;
    Ok(bytes)
}

fn second(alloc: Global) -> Result<Numbers, AllocError> {
    let mut numbers = Numbers::new(alloc);
    numbers.push(2)?;
    Ok(numbers)
}

// How many bytes a read gives, where it doesn't fail, and what it makes of four points.
type Given = (Option<usize>, [u8; 4]);

// Whether the next reads are these, one after another.
fn gives<S: Source>(source: &mut S, reads: &[Given]) -> bool {
    for (count, bytes) in reads {
        let mut buf = *b"....";
        if source.read(&mut buf).ok() != *count || buf != *bytes {
            return false;
        }
    }
    true
}

const PLANNED: &[Given] = &[
    (Some(2), *b"ab.."),
    (None, *b"...."),
    (Some(2), *b"cd.."),
    (Some(1), *b"e..."),
    (Some(0), *b"...."),
];

fn gives_as_planned(alloc: Global) -> Result<bool, AllocError> {
    let mut source = MemSource::new(bytes(alloc, b"abcde")?, 2, second(alloc)?);
    Ok(gives(&mut source, PLANNED))
}

#[test]
fn a_source_gives_pieces_and_fails_as_planned(rt: HostRuntime) -> Result<(), Fail> {
    assert!(rt; gives_as_planned(rt.alloc())?);
    Ok(())
}

const SURE: &[Given] = &[
    (Some(4), *b"abcd"),
    (Some(1), *b"e..."),
    (Some(0), *b"...."),
];

fn gives_surely(alloc: Global) -> Result<bool, AllocError> {
    let mut source = SureSource::new(bytes(alloc, b"abcde")?);
    Ok(gives(&mut source, SURE))
}

#[test]
fn a_sure_source_fills_what_it_is_given(rt: HostRuntime) -> Result<(), Fail> {
    assert!(rt; gives_surely(rt.alloc())?);
    Ok(())
}

// Whether a sink takes these bytes, or fails to, and tells all that it has taken then.
fn takes(sink: &mut MemSink, bytes: &[u8], end: Result<(), Failed>, taken: &[u8]) -> bool {
    if write_all(sink, bytes) != end {
        return false;
    }
    sink.taken() == Some(taken)
}

// Bytes, whether a sink takes them, and what it has taken then.
const TAKEN: &[(&[u8], Result<(), Failed>, &[u8])] = &[
    (b"abc", Ok(()), b"abc"),
    (b"", Ok(()), b"abc"),
    (b"de", Err(Failed), b"abc"),
    (b"f", Ok(()), b"abcf"),
];

fn takes_as_planned(alloc: Global) -> Result<bool, AllocError> {
    let mut sink = MemSink::new(bytes(alloc, b"........")?, second(alloc)?);
    for (bytes, end, taken) in TAKEN {
        if !takes(&mut sink, bytes, *end, taken) {
            return Ok(false);
        }
    }
    Ok(true)
}

#[test]
fn a_sink_fails_as_planned(rt: HostRuntime) -> Result<(), Fail> {
    assert!(rt; takes_as_planned(rt.alloc())?);
    Ok(())
}

// Whether a sink that never fails takes this piece whole, and tells these bytes then, or none.
fn takes_surely(sink: &mut SureSink, piece: &[u8], told: Option<&[u8]>) -> bool {
    if piece.is_empty() {
        return false;
    }
    match sink.write(piece) {
        Ok(count) => count == piece.len() && sink.taken() == told,
        Err(Failed) => false,
    }
}

// Pieces, and what a sink tells behind each.
const TOLD: &[(&[u8], Option<&[u8]>)] = &[
    (b"ab", Some(b"ab")),
    (b"cd", Some(b"abcd")),
    (b"ef", None),
    (b"g", None),
];

fn takes_each(alloc: Global) -> Result<bool, AllocError> {
    let mut sink = SureSink::new(bytes(alloc, b"....")?);
    for (piece, told) in TOLD {
        if !takes_surely(&mut sink, piece, *told) {
            return Ok(false);
        }
    }
    Ok(true)
}

#[test]
fn a_sink_tells_nothing_past_its_room(rt: HostRuntime) -> Result<(), Fail> {
    assert!(rt; takes_each(rt.alloc())?);
    Ok(())
}

// A reader and writer that only fails.
#[derive(Drop)]
struct Broken;

impl Read for Broken {
    fn read(&mut self, _buf: &mut [u8]) -> io::Result<usize> {
        Err(io::Error::other("broken"))
    }
}

impl Write for Broken {
    fn write(&mut self, _bytes: &[u8]) -> io::Result<usize> {
        Err(io::Error::other("broken"))
    }

    fn flush(&mut self) -> io::Result<()> {
        Ok(())
    }
}

// Each error is a fault, also one behind another.
const BROKEN: &[Given] = &[(Some(3), *b"abc."), (None, *b"...."), (None, *b"....")];

fn a_broken_reader_gives() -> bool {
    let mut source = StdSource::new(b"abc".as_slice().chain(Broken));
    gives(&mut source, BROKEN)
}

#[test]
fn a_reader_is_a_source(rt: HostRuntime) {
    assert!(rt; a_broken_reader_gives());
}

// Whether a sink over these bytes takes two and, since a full slice takes nothing, then one of two.
fn fills(room: &mut [u8]) -> bool {
    let mut sink = StdSink::new(room);
    if write_all(&mut sink, b"ab") != Ok(()) {
        return false;
    }
    write_all(&mut sink, b"cd") == Err(Failed)
}

fn a_slice_fills() -> bool {
    let mut room = *b"...";
    fills(room.as_mut_slice()) && room == *b"abc"
}

fn a_broken_writer_fails() -> bool {
    write_all(&mut StdSink::new(Broken), b"ab") == Err(Failed)
}

#[test]
fn a_writer_is_a_sink(rt: HostRuntime) {
    assert!(rt; a_slice_fills());
    assert!(rt; a_broken_writer_fails());
}
