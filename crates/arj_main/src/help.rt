// The help text.
use std::io;

// The usage line, whose words don't change with the commands: the help names all of them.
const USAGE: &str = "usage: arjuna replay | arjuna generate N";

// What is said where a file was given.
const NO_FILE: &str =
    "`replay`, `program`, `check`, `image` and `audit` take no file: the input comes on standard input, as in `arjuna replay < FILE`";

// The commands, an example, and where to read on.
const COMMANDS: [&str; 8] = [
    "  arjuna replay < SCRIPT   runs the script on standard input, and writes its journal",
    "  arjuna check < JOURNAL   checks a script, a line `journal` and a journal's lines: is it serial, are nested calls in order",
    "  arjuna program < PROGRAMS   runs client programs with retries by a seeded schedule, and writes what became of each",
    "  arjuna image < SCRIPT    runs the script, stops all nodes, and writes what is left as text: header, journal, files",
    "  arjuna audit < IMAGE     audits a stopped run, saved as text: is it serial, are its disks clean and quiet, can a run go on from it",
    "  arjuna generate N        runs the bank of the number N, from 0 to 4294967295, and writes its summary",
    "An example: arjuna replay < examples/02-smallest/script",
    "Read on in docs/START.md, a tour; docs/FORMATS.md, each line of scripts and journals; README.md, the statuses.",
];

fn say_line(rt: &impl Eprint, line: &str) -> io::Result<()> {
    eprintln!(rt; "{line}")
}

/// Says what the commands are, with an example, and where to read on.
pub fn help(rt: &impl Eprint, gave_file: bool) -> io::Result<()> {
    say_line(rt, USAGE)?;
    if gave_file {
        say_line(rt, NO_FILE)?;
    }
    for line in COMMANDS {
        say_line(rt, line)?;
    }
    Ok(())
}
