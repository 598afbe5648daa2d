// The blocks of a text: a line of the script, and what it led to.
ghost use Rattle.arj_words.specs.Page.{Stays};

use crate::counts::{Counts, NONE, put_counts};
use crate::details::detail_of;
use arj_journal::Line;
use arj_seen::{Asked, ScriptLine, Seen};
use arj_words::{Names, Page, say_body};

// How far a line of the journal stands in.
const INDENT: &[u8] = b"          ";

// Writes spaces before a number, so that it ends where others of up to six digits do.
fn put_aligned(page: &mut Page, number: u64)
    ensures { Stays page.old.bytes page.new.bytes }
{
    for limit in [10, 100, 1000, 10_000, 100_000u64].as_slice() {
        if number < *limit {
            page.put(b" ");
        }
    }
    page.number(number);
}

// Writes a line of the script, behind its number.
fn put_script_line(page: &mut Page, number: usize, line: &ScriptLine)
    ensures { Stays page.old.bytes page.new.bytes }
{
    put_aligned(page, number as u64);
    page.put(b"  ");
    page.plain(line.text.as_slice());
    page.put(b"\n");
}

// Writes the sentence of a line.
fn put_sentence(page: &mut Page, names: &Names, line: &Line)
    ensures { Stays page.old.bytes page.new.bytes }
{
    page.put(INDENT);
    say_body(page, names, &line.body);
    page.put(b"\n");
}

// Writes the sentence of a line, or counts it.
fn put_or_count(page: &mut Page, names: &Names, line: &Line, counts: &mut Counts)
    ensures { Stays page.old.bytes page.new.bytes }
{
    match detail_of(&line.body) {
        Some(detail) => counts.count(detail),
        None => put_sentence(page, names, line),
    }
}

// Writes what a settle led to: what actions met and how nodes stand in sentences, the rest as counts.
fn put_folded(page: &mut Page, names: &Names, lines: &[Line])
    ensures { Stays page.old.bytes page.new.bytes }
{
    let mut counts = NONE;
    for line in lines {
        put_or_count(page, names, line, &mut counts);
    }
    put_counts(page, names, &counts);
}

// Writes lines in sentences.
fn put_sentences(page: &mut Page, names: &Names, lines: &[Line])
    ensures { Stays page.old.bytes page.new.bytes }
{
    for line in lines {
        put_sentence(page, names, line);
    }
}

// Writes what a line of the script led to.
fn put_block(page: &mut Page, names: &Names, asked: Asked, lines: &[Line])
    ensures { Stays page.old.bytes page.new.bytes }
{
    match asked {
        Asked::Settling => put_folded(page, names, lines),
        Asked::Nothing | Asked::Event => put_sentences(page, names, lines),
    }
}

/// Writes a run: the lines of its script, each with what it led to.
pub fn write_text(page: &mut Page, names: &Names, seen: &Seen)
    ensures { Stays page.old.bytes page.new.bytes }
{
    let mut rest = seen.lines.as_slice();
    let mut event: u32 = 0;
    for (at, line) in seen.script.iter().enumerate() {
        put_script_line(page, at.saturating_add(1), line);
        event = line.asked.event_after(event);
        let (lines, behind) = line.asked.split(rest, event);
        put_block(page, names, line.asked, lines);
        rest = behind;
    }
    put_sentences(page, names, rest);
}
