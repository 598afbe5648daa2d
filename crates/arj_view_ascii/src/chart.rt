// The chart.
ghost use Rattle.arj_words.specs.Page.{Stays};

use crate::arrow::COLUMN;
use crate::marks::row_of;
use crate::row::Row;
use crate::up::Ups;
use arj_journal::Line;
use arj_seen::{ScriptLine, Seen};
use arj_words::{Names, Page, say_body};

// Writes spaces up to the next column.
fn put_spaces(page: &mut Page, used: usize)
    ensures { Stays page.old.bytes page.new.bytes }
{
    for _ in used..COLUMN {
        page.put(b" ");
    }
}

// Writes the number of a node above its column.
fn put_node(page: &mut Page, node: usize)
    ensures { Stays page.old.bytes page.new.bytes }
{
    page.number(node as u64);
    put_spaces(page, if node < 10 { 1 } else { 2 });
}

// Writes the numbers of the nodes, and what the marks are.
fn put_head(page: &mut Page, nodes: usize)
    ensures { Stays page.old.bytes page.new.bytes }
{
    for node in 0..nodes {
        put_node(page, node.saturating_add(1));
    }
    page.put(
        b"s sent, > delivered, o no effect, x lost, + lock, - unlock, P prepared, D done, C committed, A aborted, X halted\n",
    );
}

// Draws a line of the script.
fn put_script_line(page: &mut Page, nodes: usize, ups: &Ups, line: &ScriptLine)
    ensures { Stays page.old.bytes page.new.bytes }
{
    let row = Row {
        nodes,
        mark: None,
        arrow: None,
    };
    row.draw(page, ups);
    page.put(b"> ");
    page.plain(line.text.as_slice());
    page.put(b"\n");
}

// Draws a line of the journal.
fn put_line(page: &mut Page, nodes: usize, names: &Names, ups: &mut Ups, line: &Line)
    ensures { Stays page.old.bytes page.new.bytes }
{
    let row = row_of(nodes, names, &line.body);
    ups.take(&line.body);
    row.draw(page, ups);
    page.put(b"    ");
    say_body(page, names, &line.body);
    page.put(b"\n");
}

// Draws lines of the journal.
fn put_lines(page: &mut Page, nodes: usize, names: &Names, ups: &mut Ups, lines: &[Line])
    ensures { Stays page.old.bytes page.new.bytes }
{
    for line in lines {
        put_line(page, nodes, names, ups, line);
    }
}

/// Draws a run: the lines of its script, each with what it led to.
pub fn write_ascii(page: &mut Page, names: &Names, ups: &mut Ups, seen: &Seen)
    ensures { Stays page.old.bytes page.new.bytes }
{
    let nodes = usize::from(seen.header.nodes);
    put_head(page, nodes);
    let mut rest = seen.lines.as_slice();
    let mut event: u32 = 0;
    for line in seen.script.iter() {
        put_script_line(page, nodes, ups, line);
        event = line.asked.event_after(event);
        let (lines, behind) = line.asked.split(rest, event);
        put_lines(page, nodes, names, ups, lines);
        rest = behind;
    }
    put_lines(page, nodes, names, ups, rest);
}
