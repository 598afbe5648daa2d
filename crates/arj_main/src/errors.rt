// What is said on standard error.
ghost use Rattle.std.specs.Prelude.{◌≡◌, IfSome};
ghost use Rattle.arj_journal.specs.declared.body.Body.{Body};

use crate::checked::explain_found;
use crate::forms::form_of;
use crate::help::help;
use crate::images::{explain_audit, many_image_lines};
use crate::pieces::{piece_at, word_at};
use crate::programs::{bad_programs, many_lines};
use crate::refused::{count_of_refused, first_refused};
use crate::shown::Shown;
use crate::slip_tests::is;
use crate::{Place, place_of_line, slip_of};
use arj_checking::Finding;
use arj_journal::{Body, Line, Which};
use arj_loop::BadLine;
use arj_words::refusal_words;
use std::alloc::Global;
use std::io;

/// What a run leaves, of which is told: of its words whether they are a command and a file, or `program`, `audit` or `image`;
/// the input as far as it was read, where it is remembered; the journal; why a line is bad; and what was found of a journal that was checked.
#[derive(Clone, Copy)]
pub struct Ran<'a> {
    pub gave_file: bool,
    pub programs: bool,
    pub audits: bool,
    pub images: bool,
    pub script: Option<&'a [u8]>,
    pub journal: &'a [Line],
    pub why: Option<BadLine>,
    pub found: Option<&'a Finding>,
}

/// Says on standard error what ended the program's run, and where, by the status and what the run left. At status 0 it says how
/// many events were refused, if some were, but not of client programs, whose schedule has such events.
pub fn explain(rt: &impl Eprint, alloc: Global, status: u8, ran: &Ran) -> io::Result<()> {
    let last = ran.journal.last();
    if let Some(found) = ran.found {
        return explain_found(rt, alloc, found, ran.script);
    }
    match status {
        2 | 6 | 8 if ran.audits => explain_audit(rt, status),
        0 if ran.audits => Ok(()),
        0 if ran.programs => Ok(()),
        0 => refusals(rt, ran.journal),
        1 => help(rt, ran.gave_file),
        2 => bad_line(rt, alloc, ran),
        6 => limit(rt, ran, last),
        7 => say(rt, stopped_disk(ran.images, last)),
        _ => say(rt, fault_words(status)),
    }
}

/// Says these words on standard error.
pub fn say(rt: &impl Eprint, words: &str) -> io::Result<()> {
    eprintln!(rt; "arjuna: {words}")
}

// What ended a run from outside, by its status.
fn fault_words(status: u8) -> &'static str {
    match status {
        3 => "standard input could not be read",
        4 => "standard output could not be written",
        _ => "out of memory",
    }
}

// How many events were refused, and the first.
fn refusals(rt: &impl Eprint, journal: &[Line]) -> io::Result<()> {
    let Some(first) = first_refused(journal) else {
        return Ok(());
    };
    let count = count_of_refused(journal);
    let event = first.event;
    let words = refusal_words(first.cause);
    match count {
        1 => eprintln!(rt; "arjuna: 1 event was refused, event {event}: {words}"),
        _ => eprintln!(rt;
            "arjuna: {count} events were refused, the first is event {event}: {words}"
        ),
    }
}

// A disk stops a run only before its first event, or behind its last one, as a bank's balances or an image's files are read.
fn stopped_disk(images: bool, last: Option<&Line>) -> &'static str {
    match last {
        None => "a disk stopped while it was formatted",
        Some(_) if images => "a disk stopped while its files were read",
        Some(_) => "a disk stopped while the balances were read",
    }
}

fn bad_line(rt: &impl Eprint, alloc: Global, ran: &Ran) -> io::Result<()> {
    let Some(why) = ran.why else {
        return say(rt, "a line of the script is bad");
    };
    let Some(number) = number_of(ran.journal.last()) else {
        return eprintln!(rt; "arjuna: a line of the script is {why}");
    };
    if ran.programs {
        return bad_programs(rt, alloc, why, ran.script, number);
    }
    match ran.script {
        Some(script) => known_line(rt, alloc, why, script, number),
        None => eprintln!(rt; "arjuna: line {number} of the script is {why}"),
    }
}

/// Tells of a bad line of a script that is remembered: its text, what could stand there, and the slip.
pub fn known_line(
    rt: &impl Eprint,
    alloc: Global,
    why: BadLine,
    script: &[u8],
    number: u32,
) -> io::Result<()> {
    let place = place_of_line(alloc, script, number as usize);
    if let BadLine::Missing = why {
        say(rt, "the input ended before `run`")?;
        return expected(rt, place.as_ref(), &[]);
    }
    let line = line_at(script, number);
    eprintln!(rt;
        "arjuna: line {number} of the script is {why}: `{}`",
        Shown(line)
    )?;
    if let BadLine::TooLong = why {
        return Ok(());
    }
    expected(rt, place.as_ref(), line)?;
    let Some(place) = &place else {
        return Ok(());
    };
    match slip_of(line, place) {
        Some(slip) => eprintln!(rt; "arjuna: the slip: {slip}"),
        None => Ok(()),
    }
}

/// The text of the line with this number, from 1.
pub fn line_at(script: &[u8], number: u32) -> &[u8] {
    match piece_at(script, b'\n', (number as usize).saturating_sub(1)) {
        Some(line) => line,
        None => &[],
    }
}

/// What is told where the line `nodes` should stand.
pub const EXPECTED_FIRST: &str =
    "expected here: `nodes N`, with N from 1 to 16, before anything but blank lines and comments";

// What could stand at a place, in the line of that form if the line begins as one does.
fn expected(rt: &impl Eprint, place: Option<&Place>, line: &[u8]) -> io::Result<()> {
    match place {
        None => Ok(()),
        Some(Place::Start) => say(rt, EXPECTED_FIRST),
        Some(Place::Header(header)) if is(word_at(line, 0), b"object") => {
            let nodes = header.nodes;
            eprintln!(rt;
                "arjuna: expected here: `object X CLASS VALUE servers LIST stores LIST`, with X from 1 to 256, and in the lists nodes from 1 to {nodes}"
            )
        }
        Some(Place::Header(_)) => say(
            rt,
            "expected here: `object X CLASS VALUE servers LIST stores LIST`, or `run`; before all objects also `format 1`",
        ),
        Some(Place::Running) => expected_event(rt, word_at(line, 0)),
    }
}

fn expected_event(rt: &impl Eprint, first: &[u8]) -> io::Result<()> {
    match form_of(first) {
        Some(form) => eprintln!(rt;
            "arjuna: expected here: `{form}` (docs/FORMATS.md, \"Script\")"
        ),
        None => say(
            rt,
            "expected here: an event, which begins with begin, top, serial, call, include, commit, abort, giveup, deliver, lose, tick, settle, quiesce, crash, restart, stop, junk or show",
        ),
    }
}

// The number of the bad line that a journal line tells of.
fn number_of(last: Option<&Line>) -> Option<u32>
    ensures { IfSome result (λ number. IfSome last.entry (λ line. line.now.body ≡ Body.Bad number)) }
{
    match &last?.body {
        Body::Bad { line } => Some(*line),
        _ => None,
    }
}

// What there is too much of.
fn limit_words(which: &Which) -> &'static str {
    match which {
        Which::Lines => "100000 script lines",
        Which::Labels => "4096 labels",
        Which::Frames => "100000 frames",
    }
}

fn limit(rt: &impl Eprint, ran: &Ran, last: Option<&Line>) -> io::Result<()> {
    let Some(line) = last else {
        return say(rt, "a limit was met");
    };
    let Body::Limit { which } = &line.body else {
        return say(rt, "a limit was met");
    };
    match which {
        Which::Lines if ran.programs => many_lines(rt),
        Which::Lines if ran.images => many_image_lines(rt),
        _ => {
            let (event, words) = (line.event, limit_words(which));
            eprintln!(rt; "arjuna: more than {words}, after event {event}")
        }
    }
}
