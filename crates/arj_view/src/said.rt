// What is said of an input that can't be shown.
ghost use Rattle.arj_words.specs.Page.{Stays};

use arj_seen::SeenFault;
use arj_text::field::cut;
use arj_words::Page;

// How many bytes of a line are shown at most.
const SHOWN_BYTES: usize = 100;

// The line of a number, from 1; no bytes where there are fewer.
fn line_at(input: &[u8], number: usize) -> &[u8] {
    let mut rest = input;
    for _ in 1..number {
        let Some((_, behind)) = cut(rest, b'\n') else {
            return &[];
        };
        rest = behind;
    }
    match cut(rest, b'\n') {
        Some((line, _)) => line,
        None => rest,
    }
}

// The front of a line that is shown.
fn front_of(line: &[u8]) -> &[u8] {
    match line.get(..SHOWN_BYTES) {
        Some(front) => front,
        None => line,
    }
}

// Says where a line stands, what it is not, and its text.
fn put_line(page: &mut Page, number: usize, words: &[u8], line: &[u8])
    ensures { Stays page.old.bytes page.new.bytes }
{
    page.put(b"view: line ");
    page.number(number as u64);
    page.put(words);
    page.put(b": `");
    page.plain(front_of(line));
    page.put(b"`\n");
}

/// Says why an input can't be shown: where its first bad line stands, and what was expected there.
pub fn put_fault(page: &mut Page, fault: &SeenFault, input: &[u8])
    ensures { Stays page.old.bytes page.new.bytes }
{
    match fault {
        SeenFault::NotOfAScript(number) => put_line(
            page,
            *number,
            b" is no line of a script at its place, and not `journal`",
            line_at(input, *number),
        ),
        SeenFault::NoRun(number) => put_line(
            page,
            *number,
            b" comes before the script's line `run`",
            line_at(input, *number),
        ),
        SeenFault::NotOfAJournal(number) => put_line(
            page,
            *number,
            b" is no whole line of a journal",
            line_at(input, *number),
        ),
        SeenFault::NoJournal(number) => {
            page.put(b"view: the input ended after ");
            page.number(*number as u64);
            page.put(
                b" lines of a script, and no line `journal` has come: give it a script, that line, and the journal\n",
            );
        }
        SeenFault::Memory => page.put(b"view: out of memory\n"),
    }
}
