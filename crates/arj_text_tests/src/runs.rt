// Whole runs: each script is read and printed, and each line of its journal.

mod actions;
mod objects;
mod stops;
mod stores;

use arj_base::{Bytes, Format};
use arj_journal::{Header, Line, line_text, put_event, put_nodes, put_object};
use arj_journal_reader::read_line;
use arj_script::{Item, Reader, ScriptFault};
use std::alloc::{AllocError, Global};
use std::test::Fail;

// All runs, in texts, and how many each text holds. A run begins with a line `== ` and its name. The lines of its
// script come next, then a line `-- journal`, and the lines of its journal.
const RUNS: [(&str, usize); 4] = [
    (actions::ACTIONS, 16),
    (objects::OBJECTS, 8),
    (stops::STOPS, 8),
    (stores::STORES, 12),
];

// The lines of a header.
fn put_header(text: &mut Bytes, header: &Header) -> Result<(), AllocError> {
    put_nodes(text, header.nodes)?;
    if header.format == Format::One {
        text.extend(b"\nformat 1")?;
    }
    for object in header.objects.as_slice() {
        text.extend(b"\n")?;
        put_object(text, object)?;
    }
    text.extend(b"\nrun\n")
}

// What was read of a line, printed and let go. A header is printed at its end.
fn printed(alloc: Global, item: Item) -> Result<Bytes, AllocError> {
    let mut text = Bytes::new(alloc);
    match &item {
        Item::Blank | Item::Part => {}
        Item::Run(header) => put_header(&mut text, header)?,
        Item::Event(event) => {
            put_event(&mut text, event)?;
            text.extend(b"\n")?;
        }
    }
    Ok(text)
}

// Puts a line with its end, if it is one that is printed.
fn put_wanted(wanted: &mut Bytes, line: &str) -> Result<(), AllocError> {
    if line.is_empty() || line.starts_with('#') {
        return Ok(());
    }
    wanted.extend(line.as_bytes())?;
    wanted.extend(b"\n")
}

// What the reader makes of a line, printed. None: it refuses the line.
fn line_read(alloc: Global, reader: &mut Reader, line: &str) -> Result<Option<Bytes>, AllocError> {
    match reader.line(line.as_bytes()) {
        Ok(item) => Ok(Some(printed(alloc, item)?)),
        Err(_) => Ok(None),
    }
}

// Whether what is printed is all that is wanted so far, or nothing. What was printed isn't wanted any more.
fn is_wanted(alloc: Global, text: &[u8], wanted: &mut Bytes) -> bool {
    if text.is_empty() {
        return true;
    }
    let same = text == wanted.as_slice();
    *wanted = Bytes::new(alloc);
    same
}

// Whether the line is read, and what is printed then is wanted.
fn line_is_wanted(
    alloc: Global,
    reader: &mut Reader,
    line: &str,
    wanted: &mut Bytes,
) -> Result<bool, AllocError> {
    put_wanted(wanted, line)?;
    match line_read(alloc, reader, line)? {
        Some(text) => Ok(is_wanted(alloc, text.as_slice(), wanted)),
        None => Ok(false),
    }
}

// Whether the lines of a script are read, and printed as they are.
fn script_is_right(alloc: Global, reader: &mut Reader, script: &str) -> Result<bool, AllocError> {
    let mut wanted = Bytes::new(alloc);
    for line in script.lines() {
        if !line_is_wanted(alloc, reader, line, &mut wanted)? {
            return Ok(false);
        }
    }
    Ok(wanted.as_slice().is_empty())
}

// A line of a journal, printed and let go.
fn line_printed(alloc: Global, line: Line) -> Result<Bytes, AllocError> {
    line_text(alloc, &line)
}

// Whether a line of a journal is read, and printed as it is.
fn line_is_right(alloc: Global, line: &str) -> Result<bool, AllocError> {
    match read_line(alloc, line.as_bytes()) {
        Ok(read) => Ok(line_printed(alloc, read)?.as_slice() == line.as_bytes()),
        Err(_) => Ok(false),
    }
}

fn journal_is_right(alloc: Global, journal: &str) -> Result<bool, AllocError> {
    for line in journal.split_inclusive('\n') {
        if !line_is_right(alloc, line)? {
            return Ok(false);
        }
    }
    Ok(true)
}

// Whether a new reader reads the script, and the journal is right too.
fn run_is_right(alloc: Global, script: &str, journal: &str) -> Result<bool, AllocError> {
    let mut reader = Reader::new(alloc);
    if !script_is_right(alloc, &mut reader, script)? {
        return Ok(false);
    }
    journal_is_right(alloc, journal)
}

// The script and the journal of a run, behind its name.
fn parts(run: &str) -> Option<(&str, &str)> {
    let (_name, lines) = run.split_once('\n')?;
    lines.split_once("-- journal\n")
}

// How many runs of a text are right.
fn runs_right(alloc: Global, text: &str) -> Result<usize, AllocError> {
    let mut count: usize = 0;
    for run in text.split("== ") {
        if let Some((script, journal)) = parts(run) {
            if run_is_right(alloc, script, journal)? {
                count = count.saturating_add(1);
            }
        }
    }
    Ok(count)
}

#[test]
fn runs_are_read_and_printed(rt: HostRuntime) -> Result<(), Fail> {
    for (text, count) in RUNS {
        assert_eq!(rt; runs_right(rt.alloc(), text)?, count);
    }
    Ok(())
}

// A header with values of each class.
const CLASSES: &str = "\
nodes 16
object 1 counter 18446744073709551615 servers 16,1 stores 3,2,1
object 2 register - servers 1 stores 1
object 3 register 00ff servers 1 stores 1
object 4 account 0 servers 1 stores 1
object 5 queue - servers 1 stores 1
object 6 queue 7 servers 1 stores 1
object 7 queue 3,18446744073709551615,3 servers 1 stores 1
object 8 table - servers 1 stores 1
object 9 table 0:7 servers 1 stores 1
object 10 counter gone servers 1 stores 1
object 11 register gone servers 1 stores 1
object 12 account gone servers 1 stores 1
object 13 queue gone servers 1 stores 1
object 14 table gone servers 1 stores 1
object 256 table 1:3,2:0,18446744073709551615:3 servers 1 stores 1
run
";

#[test]
fn values_of_each_class_are_read_and_printed(rt: HostRuntime) -> Result<(), Fail> {
    assert!(rt; run_is_right(rt.alloc(), CLASSES, "")?);
    Ok(())
}

// A script before its last line, which is longer than a line may be, and what the run writes.
const FRONT: &str = "\
nodes 1
object 1 counter 0 servers 1 stores 1
run
begin A at 1
begin B at 1
begin C at 1
";

const WRITTEN: &str = "\
1 began A top 1.1.1 -
2 began B top 1.1.2 -
3 began C top 1.1.3 -
3 bad 7
";

// The reader takes lines without their ends, so that it is one to it whether a line feed stands behind the long line.
fn long_line_is_refused(alloc: Global) -> Result<bool, AllocError> {
    let mut long = [b'x'; 501];
    long[0] = b'#';
    let mut reader = Reader::new(alloc);
    if !script_is_right(alloc, &mut reader, FRONT)? {
        return Ok(false);
    }
    Ok(matches!(reader.line(&long), Err(ScriptFault::Bad)))
}

#[test]
fn a_line_that_is_too_long_is_refused(rt: HostRuntime) -> Result<(), Fail> {
    assert!(rt; long_line_is_refused(rt.alloc())?);
    assert!(rt; journal_is_right(rt.alloc(), WRITTEN)?);
    Ok(())
}
