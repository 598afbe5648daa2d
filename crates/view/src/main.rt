//! The program `view`: a script, a line `journal` and the journal of its run come on standard input, and are shown on standard
//! output.
//!
//! It stands on `arj_view`, which reads and shows. Its statuses: 0 shown, 1 the words are none that it knows, 2 the input is not as
//! it has to be, 3 a read failed, 4 a write failed, 5 memory was wanting.
#![tactic(auto)]

use arj_io::{StdSink, StdSource, write_all};
use arj_seen::SeenFault;
use arj_view::{Way, put_fault, read_whole, view, way_of};
use arj_words::Page;
use std::process::ExitCode;
use std::{env, io};

// What is said where the words are none that it knows.
const USAGE: &str = "usage: view text | view ascii | view html
  (cat SCRIPT; echo journal; arjuna replay < SCRIPT) | view text   shows each line of a script with what it led to
Read on in docs/START.md.";

fn main(rt: HostRuntime) -> ExitCode {
    match way_of_words(&rt) {
        Some(way) => ExitCode::from(run(&rt, way)),
        None => {
            // Where standard error takes nothing, the status still says what happened.
            eprintln!(rt; "{USAGE}").ok();
            ExitCode::from(1)
        }
    }
}

// The way that the words ask for.
fn way_of_words(rt: &HostRuntime) -> Option<Way> {
    let Ok(words) = env::args(rt) else {
        return None;
    };
    let mut words = words.skip(1);
    let Some(word) = words.next() else {
        return None;
    };
    if words.next().is_some() {
        return None;
    }
    way_of(word.as_str())
}

// Reads, shows and writes, and answers the status.
fn run(rt: &HostRuntime, way: Way) -> u8 {
    let alloc = rt.alloc();
    let mut source = StdSource::new(rt.reader());
    let input = match read_whole(alloc, &mut source) {
        Ok(Some(input)) => input,
        Ok(None) => return say(rt, "view: out of memory", 5),
        Err(_) => return say(rt, "view: standard input could not be read", 3),
    };
    let shown = match view(alloc, way, input.as_slice()) {
        Ok(shown) => shown,
        Err(fault) => return explain(rt, &fault, input.as_slice()),
    };
    let mut sink = StdSink::new(io::writer(rt));
    match write_all(&mut sink, shown.as_slice()) {
        Ok(()) => 0,
        Err(_) => say(rt, "view: standard output could not be written", 4),
    }
}

// Says something on standard error, and answers the status.
fn say(rt: &HostRuntime, words: &str, status: u8) -> u8 {
    eprintln!(rt; "{words}").ok();
    status
}

// Says why an input can't be shown, and answers the status.
fn explain(rt: &HostRuntime, fault: &SeenFault, input: &[u8]) -> u8 {
    let mut page = Page::new(rt.alloc());
    put_fault(&mut page, fault, input);
    if let Ok(text) = str::from_utf8(page.bytes.as_slice()) {
        eprint!(rt; "{text}").ok();
    }
    match fault {
        SeenFault::Memory => 5,
        _ => 2,
    }
}
