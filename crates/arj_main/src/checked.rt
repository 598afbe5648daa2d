// What is said of a journal that was checked.
use crate::errors::{known_line, line_at, say};
use crate::shown::Shown;
use arj_check::Verdict;
use arj_checking::{Finding, Half, JOURNAL_LINE_BYTES, JOURNAL_LINES};
use arj_loop::BadLine;
use arj_reading::{Broken, Rule};
use arj_replay::Wrong;
use arj_script::SCRIPT_LINES;
use arj_text::field::cut;
use std::alloc::Global;
use std::io;

/// Says what was found: which line, and what it should have been. Where the input is remembered the line is shown.
pub fn explain_found(
    rt: &impl Eprint,
    alloc: Global,
    finding: &Finding,
    input: Option<&[u8]>,
) -> io::Result<()> {
    match finding {
        Finding::Bad { line, half, why } => match half {
            Half::Script => bad_script(rt, alloc, *line, *why, input),
            Half::Journal => bad_journal(rt, *line, *why, input),
        },
        Finding::Long(Half::Script) => eprintln!(rt;
            "arjuna: more than {SCRIPT_LINES} script lines"
        ),
        Finding::Long(Half::Journal) => eprintln!(rt;
            "arjuna: more than {JOURNAL_LINES} journal lines"
        ),
        Finding::Unreadable(broken) => unreadable(rt, broken, input),
        Finding::Verdict(verdict) => verdict_words(rt, verdict, input),
    }
}

// A bad line of the script.
fn bad_script(
    rt: &impl Eprint,
    alloc: Global,
    number: u32,
    why: BadLine,
    input: Option<&[u8]>,
) -> io::Result<()> {
    if let BadLine::Missing = why {
        return say(rt, "the input ended before the line `journal`");
    }
    match input {
        Some(script) => known_line(rt, alloc, why, script, number),
        None => eprintln!(rt; "arjuna: line {number} of the script is {why}"),
    }
}

// A bad line of the journal.
fn bad_journal(
    rt: &impl Eprint,
    number: u32,
    why: BadLine,
    input: Option<&[u8]>,
) -> io::Result<()> {
    let line = match input {
        Some(bytes) => line_at(bytes, number),
        None => &[],
    };
    if let BadLine::TooLong = why {
        return eprintln!(rt;
            "arjuna: line {number} of the input is longer than {JOURNAL_LINE_BYTES} bytes: `{}`",
            Shown(line)
        );
    }
    eprintln!(rt;
        "arjuna: line {number} of the input is no journal line: `{}`",
        Shown(line)
    )?;
    say(
        rt,
        "expected here: a number, and what happened, in one of the forms of docs/FORMATS.md, \"Journal\"",
    )
}

// The line that breaks a rule.
fn unreadable(rt: &impl Eprint, broken: &Broken, input: Option<&[u8]>) -> io::Result<()> {
    let number = broken.line;
    let line = journal_line(input, number);
    eprintln!(rt;
        "arjuna: line {number} of the journal breaks a rule: `{}`",
        Shown(line)
    )?;
    eprintln!(rt; "arjuna: the rule: {}", rule_words(broken.rule))
}

// What a rule asks of the line that breaks it.
fn rule_words(rule: Rule) -> &'static str {
    match rule {
        Rule::Order => "its number should be at least that of the line before it",
        Rule::NewLabel => "its label should be one that no action before it has",
        Rule::NewUid => "its Uid should be one that no action before it has",
        Rule::Parent => {
            "its parent should be `-` for kinds top and serial, an earlier serial action for a constituent, and else an earlier action that isn't serial"
        }
        Rule::Depth => "a path should have at most 16 actions",
        Rule::Begun => "a `began` line with its label should stand before it",
        Rule::Object => "its object should be one of the header",
        Rule::Operation => "its operation should be one of the object's class",
        Rule::SerialCalls => "a serializing action should make no call: its constituents do",
        Rule::CommitOfTop => {
            "its action should be of kind top, independent or constituent: no other commit is called"
        }
        Rule::OneCommit => "the commit of an action should be called once",
        Rule::OneEnd => "an action should end once",
        Rule::EndOfKind => {
            "a serializing action should end by `ended`, and any other by `committed`"
        }
        Rule::Called => "a `committing` line of its action should stand before it",
    }
}

// The first call of each order whose answer differs.
fn verdict_words(rt: &impl Eprint, verdict: &Verdict, input: Option<&[u8]>) -> io::Result<()> {
    if let Some(wrong) = &verdict.serial {
        wrong_words(
            rt,
            wrong,
            "where the committed actions run one after another, in the order of their `committing` lines",
            input,
        )?;
    }
    match &verdict.nested {
        Some(wrong) => wrong_words(
            rt,
            wrong,
            "where besides each nested action runs whole at its commit",
            input,
        ),
        None => Ok(()),
    }
}

// A call whose answer differs, and the answer that it should have.
fn wrong_words(
    rt: &impl Eprint,
    wrong: &Wrong,
    order: &str,
    input: Option<&[u8]>,
) -> io::Result<()> {
    let number = wrong.line;
    eprintln!(rt;
        "arjuna: line {number} of the journal should answer `{}`, {order}: `{}`",
        Shown(wrong.wanted.as_slice()),
        Shown(journal_line(input, number))
    )
}

// The text of a line of the journal, by its number in it, from 1. No bytes where the input isn't remembered.
fn journal_line(input: Option<&[u8]>, number: usize) -> &[u8] {
    let Some(bytes) = input else {
        return &[];
    };
    match behind_script(bytes) {
        Some(journal) => line_at(journal, number.min(JOURNAL_LINES) as u32),
        None => &[],
    }
}

// What stands behind the line `journal`.
fn behind_script(input: &[u8]) -> Option<&[u8]> {
    let mut rest = input;
    for _ in 0..=SCRIPT_LINES {
        let (line, behind) = cut(rest, b'\n')?;
        if line == b"journal".as_slice() {
            return Some(behind);
        }
        rest = behind;
    }
    None
}
