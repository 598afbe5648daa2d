// What is said of client programs that can't be read.
use crate::errors::{EXPECTED_FIRST, line_at, say};
use crate::pieces::word_at;
use crate::shown::Shown;
use crate::slip::text_slip;
use crate::slip_tests::is;
use arj_loop::BadLine;
use arj_prog::{BLOCKS, PROGRAM_OBJECTS, ProgReader, STATEMENTS, TURNS};
use arj_script::SCRIPT_LINES;
use arj_text::field::cut;
use std::alloc::Global;
use std::io;

/// What could stand in the place of a line.
#[derive(Clone, Copy)]
enum Expected {
    Start,
    Header,
    Turns,
    FirstProgram,
    Program,
    StatementOrElse,
    StatementOrEnd,
    Other,
}

/// Says why client programs weren't run: which line is bad, its text, what could stand there, and how to mend it.
pub fn bad_programs(
    rt: &impl Eprint,
    alloc: Global,
    why: BadLine,
    input: Option<&[u8]>,
    number: u32,
) -> io::Result<()> {
    let Some(input) = input else {
        return eprintln!(rt; "arjuna: line {number} of the client programs is {why}");
    };
    let wanted = could_stand(alloc, input, (number as usize).saturating_sub(1));
    if let BadLine::Missing = why {
        say(rt, "the input ended before `run`")?;
        return say_expected(rt, wanted);
    }
    let line = line_at(input, number);
    eprintln!(rt;
        "arjuna: line {number} of the client programs is {why}: `{}`",
        Shown(line)
    )?;
    if let BadLine::TooLong = why {
        return Ok(());
    }
    say_expected(rt, wanted)?;
    say_slip(rt, input, line)
}

/// Says that there are too many lines.
pub fn many_lines(rt: &impl Eprint) -> io::Result<()> {
    eprintln!(rt; "arjuna: more than {SCRIPT_LINES} lines")
}

// Whether the reader takes a line. What it reads is let go here alone.
fn is_taken(reader: &mut ProgReader, line: &[u8]) -> bool {
    reader.line(line).is_ok()
}

// Whether the reader takes so many lines of the input.
fn are_taken(reader: &mut ProgReader, input: &[u8], before: usize) -> bool {
    let mut rest = input;
    for _ in 0..before {
        let Some((first, behind)) = cut(rest, b'\n') else {
            return is_taken(reader, rest);
        };
        if !is_taken(reader, first) {
            return false;
        }
        rest = behind;
    }
    true
}

// Whether a line would be taken behind so many lines of the input.
fn takes(alloc: Global, input: &[u8], before: usize, line: &[u8]) -> bool {
    let mut reader = ProgReader::new(alloc);
    are_taken(&mut reader, input, before) && is_taken(&mut reader, line)
}

// What could stand behind so many lines of the input.
fn could_stand(alloc: Global, input: &[u8], before: usize) -> Expected {
    if takes(alloc, input, before, b"nodes 1") {
        return Expected::Start;
    }
    if takes(alloc, input, before, b"seed 0") {
        return Expected::Header;
    }
    if takes(alloc, input, before, b"turns 1") {
        return Expected::Turns;
    }
    if takes(alloc, input, before, b"else") {
        return Expected::StatementOrElse;
    }
    if takes(alloc, input, before, b"end") {
        return Expected::StatementOrEnd;
    }
    if takes(alloc, input, before, b"run") {
        return Expected::Program;
    }
    if takes(alloc, input, before, b"prog P at 1 retry 0") {
        return Expected::FirstProgram;
    }
    Expected::Other
}

// Says what could stand there.
fn say_expected(rt: &impl Eprint, wanted: Expected) -> io::Result<()> {
    match wanted {
        Expected::Turns => eprintln!(rt;
            "arjuna: expected here: `turns T`, with T from 1 to {TURNS}"
        ),
        Expected::Other => Ok(()),
        _ => say(rt, expected_words(wanted)),
    }
}

// What could stand there, where no number says it.
fn expected_words(wanted: Expected) -> &'static str {
    match wanted {
        Expected::Start => EXPECTED_FIRST,
        Expected::Header => {
            "expected here: `object X CLASS VALUE servers LIST stores LIST`, or `seed S`, with S up to 4294967295"
        }
        Expected::FirstProgram => {
            "expected here: `prog NAME at N retry K`, with a node of the header and K from 0 to 9"
        }
        Expected::Program => {
            "expected here: `prog NAME at N retry K`, with a new name, a node of the header and K from 0 to 9, or `run`"
        }
        Expected::StatementOrElse => {
            "expected here: `do X OP`, `print X OP`, `if X OP = ANSWER`, `block K`, `fail`, or `else`, which ends the first list of an `if`"
        }
        Expected::StatementOrEnd => {
            "expected here: `do X OP`, `print X OP`, `if X OP = ANSWER`, `block K`, `fail`, or `end`"
        }
        Expected::Turns | Expected::Other => "expected here: another line",
    }
}

// Says how to mend the line, where that is known.
fn say_slip(rt: &impl Eprint, input: &[u8], line: &[u8]) -> io::Result<()> {
    if let Some(slip) = text_slip(line) {
        return eprintln!(rt; "arjuna: the slip: {slip}");
    }
    if !has_call(word_at(line, 0)) {
        return Ok(());
    }
    let object = word_at(line, 1);
    match class_of(input, object) {
        Some(class) => say_call(rt, line, object, class),
        None => eprintln!(rt;
            "arjuna: the slip: the header has no object `{}`",
            Shown(object)
        ),
    }
}

// Says how to mend a line that has a call on an object of this class.
fn say_call(rt: &impl Eprint, line: &[u8], object: &[u8], class: &[u8]) -> io::Result<()> {
    if !has_operation(class, word_at(line, 2)) {
        return say_operations(rt, object, class);
    }
    if is(word_at(line, 2), b"create") && word_at(line, 3) != class {
        return eprintln!(rt;
            "arjuna: the slip: object {} is of class {}, and is created with a value of no other",
            Shown(object),
            Shown(class)
        );
    }
    eprintln!(rt;
        "arjuna: a program has at most {STATEMENTS} statements and {PROGRAM_OBJECTS} objects, and at most {BLOCKS} blocks stand one inside another"
    )
}

// Says which operations an object of this class has.
fn say_operations(rt: &impl Eprint, object: &[u8], class: &[u8]) -> io::Result<()> {
    eprintln!(rt;
        "arjuna: the slip: object {} is of class {}, whose operations are {}, `create {} VALUE` and `destroy`",
        Shown(object),
        Shown(class),
        operations(class),
        Shown(class)
    )
}

// Whether a line that begins with the word has a call.
fn has_call(word: &[u8]) -> bool {
    is(word, b"do") || is(word, b"print") || is(word, b"if")
}

// The class that the header says of an object.
fn class_of<'a>(input: &'a [u8], object: &[u8]) -> Option<&'a [u8]> {
    let mut rest = input;
    for _ in 0..SCRIPT_LINES {
        let (line, behind) = cut(rest, b'\n')?;
        if is(word_at(line, 0), b"object") && word_at(line, 1) == object {
            return Some(word_at(line, 2));
        }
        rest = behind;
    }
    None
}

// The operations of a class on an object that is there.
fn operations(class: &[u8]) -> &'static str {
    if is(class, b"counter") {
        return "`get`, `add n`, `set n`";
    }
    if is(class, b"account") {
        return "`get`, `deposit n`, `withdraw n`";
    }
    if is(class, b"register") {
        return "`get`, `put HEX`";
    }
    if is(class, b"queue") {
        return "`len`, `push n`, `pop`";
    }
    "`get k`, `put k v`, `remove k`"
}

// Whether a class has an operation of this word.
fn has_operation(class: &[u8], word: &[u8]) -> bool {
    if is(word, b"create") || is(word, b"destroy") {
        return true;
    }
    if is(class, b"counter") {
        return is(word, b"get") || is(word, b"add") || is(word, b"set");
    }
    if is(class, b"account") {
        return is(word, b"get") || is(word, b"deposit") || is(word, b"withdraw");
    }
    if is(class, b"register") {
        return is(word, b"get") || is(word, b"put");
    }
    if is(class, b"queue") {
        return is(word, b"len") || is(word, b"push") || is(word, b"pop");
    }
    is(word, b"get") || is(word, b"put") || is(word, b"remove")
}
