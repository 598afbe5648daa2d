//! The program: words, standard input and standard output, sixteen empty disks in memory, and the top call over them.
//!
//! It stands on `arj_top`, whose `arjuna` does all the work. Its exit status is the answer of that call.
#![tactic(auto)]

ghost use Rattle.std.specs.Prelude.{◌≡◌, [], None};

use arj_base::Bytes;
use arj_io::{StdSink, StdSource};
use arj_journal::Lines;
use arj_main::{Ran, Remembering, explain, words};
use arj_top::{BadLine, Finding, arjuna, empty_rack};
use std::io::{self, BufReader};
use std::process::ExitCode;

fn main(rt: HostRuntime) -> ExitCode {
    let alloc = rt.alloc();
    let mut left = Left {
        gave_file: false,
        programs: false,
        audits: false,
        images: false,
        script: None,
        journal: Lines::new(alloc),
        why: None,
        found: None,
    };
    let status = match run(&rt, &mut left) {
        Ok(status) => status,
        // A word that isn't UTF-8 is no command line; else memory was wanting.
        Err(error) if error.kind() == io::ErrorKind::InvalidData => 1,
        Err(_) => 5,
    };
    let ran = Ran {
        gave_file: left.gave_file,
        programs: left.programs,
        audits: left.audits,
        images: left.images,
        script: left.script.as_ref().map(|script| script.as_slice()),
        journal: left.journal.as_slice(),
        why: left.why,
        found: left.found.as_ref(),
    };
    // Where standard error takes nothing, the status still says what happened.
    explain(&rt, alloc, status, &ran).ok();
    ExitCode::from(status)
}

// Whether a word is a command that stands alone.
fn takes_no_word(word: &str) -> bool {
    word == "replay" || word == "program" || word == "check" || word == "audit" || word == "image"
}

// What the run leaves to be told of.
#[derive(Drop)]
struct Left {
    gave_file: bool,
    programs: bool,
    audits: bool,
    images: bool,
    script: Option<Bytes>,
    journal: Lines,
    why: Option<BadLine>,
    found: Option<Finding>,
}

// The top call over the real ends. An error is one of the words, or want of memory.
fn run(rt: &HostRuntime, left: &mut Left) -> io::Result<u8>
    requires journal { left.old.journal ≡ [] }
    requires nothing { left.old.found ≡ None }
{
    let alloc = rt.alloc();
    let words = words(rt, alloc)?;
    left.gave_file = words.len() == 2 && takes_no_word(words[0].as_str());
    left.programs = words.len() == 1 && words[0].as_str() == "program";
    left.audits = words.len() == 1 && words[0].as_str() == "audit";
    left.images = words.len() == 1 && words[0].as_str() == "image";
    let input = StdSource::new(BufReader::new(alloc, rt.reader())?);
    let mut source = Remembering::new(alloc, input);
    let mut sink = StdSink::new(io::writer(rt));
    let mut rack = empty_rack(alloc)?;
    let mut world = None;
    let status = arjuna(
        alloc,
        words.as_slice(),
        &mut source,
        &mut sink,
        &mut rack,
        &mut left.journal,
        &mut left.why,
        &mut left.found,
        &mut world,
    );
    left.script = source.into_given();
    Ok(status)
}
