// Which lines are taken where, and what is told of them.
ghost use Rattle.std.specs.Prelude.{IfSome};
ghost use Rattle.arj_journal.specs.ScriptForm.{HeaderInForm};

use arj_base::{Bytes, Class};
use arj_journal::{Header, ObjectLine};
use arj_script::{Item, Reader, ScriptFault};
use std::alloc::{AllocError, Global};
use std::test::Fail;

// What the reader tells of a line, in a word.
fn told(outcome: Result<Item, ScriptFault>) -> &'static str {
    match outcome {
        Ok(Item::Blank) => "blank",
        Ok(Item::Part) => "part",
        Ok(Item::Run(_)) => "run",
        Ok(Item::Event(_)) => "event",
        Err(ScriptFault::Bad) => "bad",
        Err(ScriptFault::Memory) => "memory",
    }
}

// The first lines of a script.
const FIRST: [&str; 3] = ["nodes 4", "object 3 counter 0 servers 1 stores 1", "run"];

// A reader that has taken so many of the first lines.
fn reader_behind(alloc: Global, count: usize) -> Reader {
    let mut reader = Reader::new(alloc);
    for line in FIRST.iter().take(count) {
        told(reader.line(line.as_bytes()));
    }
    reader
}

// How many lines of a script the reader has taken, the line that it is given then, and what it tells.
const LINES: &str = "\
0||blank
0|# a comment|blank
0| # no comment|bad
0|nodes 1|part
0|nodes 16|part
0|nodes 0|bad
0|nodes 17|bad
0|nodes 01|bad
0|nodes 1 |bad
0|nodes|bad
0|format 1|bad
0|run|bad
0|begin A at 1|bad
1|nodes 1|bad
1|format 1|part
1|format 2|bad
1|format 01|bad
1|format|bad
2|format 1|bad
1|run|run
1|begin A at 1|bad
2|object 4 counter 18446744073709551615 servers 1 stores 1|part
2|object 4 counter 18446744073709551616 servers 1 stores 1|bad
2|object 1 account 0 servers 1 stores 1|part
2|object 256 account 7 servers 4,1,3 stores 2,3|part
2|object 0 counter 0 servers 1 stores 1|bad
2|object 257 counter 0 servers 1 stores 1|bad
2|object 3 register - servers 1 stores 1|bad
2|object 4 counter 0 servers 5 stores 1|bad
2|object 4 counter 0 servers 0 stores 1|bad
2|object 4 counter 0 servers 1,1 stores 1|bad
2|object 4 counter 0 servers 1, stores 1|bad
2|object 4 counter 0 servers ,1 stores 1|bad
2|object 4 counter 0 servers  stores 1|bad
2|object 4 counter 0 servers 1 stores |bad
2|object 4 counter 0 servers 1 stores 1,2,3,4|part
2|object 4 counter 0 stores 1 servers 1|bad
2|object 4 counter -1 servers 1 stores 1|bad
2|object 4 counter - servers 1 stores 1|bad
2|object 4  counter 0 servers 1 stores 1|bad
2|object 4 entry 0 servers 1 stores 1|bad
2|object 4 register 00ff servers 1 stores 1|part
2|object 4 register 00FF servers 1 stores 1|bad
2|object 4 register 00f servers 1 stores 1|bad
2|object 4 register  servers 1 stores 1|bad
2|object 4 queue - servers 1 stores 1|part
2|object 4 queue 3,1,3 servers 1 stores 1|part
2|object 4 queue 3,01 servers 1 stores 1|bad
2|object 4 queue 0,1,2,3,4,5,6,7,8,9,0,1,2,3,4,5,6,7,8,9,0,1,2,3,4,5,6,7,8,9,0,1 servers 1 stores 1|part
2|object 4 queue 0,1,2,3,4,5,6,7,8,9,0,1,2,3,4,5,6,7,8,9,0,1,2,3,4,5,6,7,8,9,0,1,2 servers 1 stores 1|bad
2|object 4 table - servers 1 stores 1|part
2|object 4 table 1:5,2:5 servers 1 stores 1|part
2|object 4 table 2:5,1:5 servers 1 stores 1|bad
2|object 4 table 1:5,1:6 servers 1 stores 1|bad
2|object 4 table 1:5:6 servers 1 stores 1|bad
2|object 4 table 1 servers 1 stores 1|bad
2|object 4 counter gone servers 1 stores 1|part
2|object 4 table gone servers 1 stores 1|part
2|object 4 gone servers 1 stores 1|bad
2|object 4 entry gone servers 1 stores 1|bad
2|object 4 counter gone 0 servers 1 stores 1|bad
2| run|bad
2|run|run
3||blank
3|begin A at 1|event
3|begin A at 0|event
3|begin A at 4294967295|event
3|begin A at 4294967296|bad
3|begin A at 01|bad
3|begin A at +1|bad
3|begin A  at 1|bad
3|begin A at  1|bad
3|begin A at 1 |bad
3| begin A at 1|bad
3|begin A at|bad
3|begin A|bad
3|begin A in B|event
3|begin A in 1|bad
3|Begin A at 1|bad
3|begin abcdefgh12345678 at 1|event
3|begin abcdefgh123456789 at 1|bad
3|begin 1A at 1|bad
3|begin A_B at 1|bad
3|begin  at 1|bad
3|top A in B|event
3|top A at 1|bad
3|serial A at 1|event
3|serial A in B|bad
3|call A 1 get|event
3|call A 65535 add 18446744073709551615|event
3|call A 65536 add 1|bad
3|call A 0 set 0|event
3|call A 1 add 18446744073709551616|bad
3|call A 1 add|bad
3|call A 1 get 1|event
3|call A 1 get 1 2|bad
3|call A 1 pop|event
3|call A 1 len|event
3|call A 1 push 3|event
3|call A 1 push|bad
3|call A 1 deposit 3|event
3|call A 1 withdraw 3|event
3|call A 1 remove 3|event
3|call A 1 put -|event
3|call A 1 put |bad
3|call A 1 put 12|event
3|call A 1 put 1|bad
3|call A 1 put 1 2|event
3|call A 1 put 12 345|event
3|call A 1 put 1 2 3|bad
3|call A get|bad
3|call A 1 create counter 7|event
3|call A 1 create table 1:2,3:4|event
3|call A 1 create counter gone|bad
3|call A 1 create gone|bad
3|call A 1 create counter|bad
3|call A 1 create|bad
3|call A 1 destroy|event
3|call A 1 destroy 1|bad
3|include A 1 2|event
3|include A 1|bad
3|commit Z9|event
3|commit|bad
3|commit |bad
3|commit A B|bad
3|abort a|event
3|abort a |bad
3|giveup a|event
3|deliver 0|event
3|deliver last|event
3|deliver 4294967296|bad
3|lose last|event
3|lose first|bad
3|tick 1|event
3|settle|event
3|settle |bad
3|quiesce|event
3|crash 1|event
3|restart 70000|event
3|stop 1 1 none|event
3|stop 1 0 none|bad
3|stop 1 1000000 done|event
3|stop 1 1000001 done|bad
3|stop 1 1 torn 41524a|event
3|stop 1 1 torn -|event
3|stop 1 1 torn|bad
3|stop 1 1 torn |bad
3|junk 1 ff|event
3|junk 1 -|event
3|junk 1|bad
3|show 1|event
3|show 65536|bad
3|run|bad
3|nodes 1|bad
";

// A row of the table, taken apart.
fn parts(row: &str) -> Option<(usize, &str, &str)> {
    let (count, rest) = row.split_once('|')?;
    let (line, want) = rest.split_once('|')?;
    let count = count.parse::<usize>().ok()?;
    Some((count, line, want))
}

// Whether the reader tells of a line at its place what the row says.
fn is_told(alloc: Global, row: &str) -> bool {
    let Some((count, line, want)) = parts(row) else {
        return false;
    };
    let mut reader = reader_behind(alloc, count);
    told(reader.line(line.as_bytes())) == want
}

#[test]
fn lines_at_their_places(rt: HostRuntime) {
    for row in LINES.lines() {
        assert!(rt; is_told(rt.alloc(), row), "{row}");
    }
}

// An object with so many bytes in its register.
fn register_line(alloc: Global, count: usize) -> Result<Bytes, AllocError> {
    let mut line = Bytes::new(alloc);
    line.extend(b"object 4 register ")?;
    for _ in 0..count {
        line.extend(b"00")?;
    }
    line.extend(b" servers 1 stores 1")?;
    Ok(line)
}

// What the reader tells of that line behind `nodes` and another line.
fn told_behind(alloc: Global, line: &[u8], count: usize) -> Result<&'static str, AllocError> {
    let object = register_line(alloc, count)?;
    let mut reader = reader_behind(alloc, 1);
    told(reader.line(line));
    Ok(told(reader.line(object.as_slice())))
}

// A line behind `nodes`, how many bytes the register has, and what is told of it.
const REGISTERS: &[(&str, usize, &str)] = &[
    ("format 1", 64, "part"),
    ("format 1", 65, "bad"),
    ("", 65, "part"),
    ("", 192, "part"),
    ("", 193, "bad"),
];

#[test]
fn registers_are_as_long_as_the_format_holds(rt: HostRuntime) -> Result<(), Fail> {
    for (line, count, want) in REGISTERS {
        assert!(rt; told_behind(rt.alloc(), line.as_bytes(), *count)? == *want);
    }
    Ok(())
}

// What is told of a comment that has so many bytes.
fn comment_told(alloc: Global, count: usize) -> &'static str {
    let comment = [b'#'; 501];
    told(reader_behind(alloc, 0).line(&comment[..count.min(501)]))
}

#[test]
fn a_line_has_at_most_500_bytes(rt: HostRuntime) {
    assert!(rt; comment_told(rt.alloc(), 500) == "blank");
    assert!(rt; comment_told(rt.alloc(), 501) == "bad");
}

// An object's number, its servers and stores, its value's class and payload.
type Row = (u16, &'static [u8], &'static [u8], Class, &'static [u8]);

// Objects that come behind object 3, not in their order.
const COMING: &[&str] = &[
    "object 9 account 258 servers 4,1 stores 2,3,1",
    "object 4 table 1:2 servers 1 stores 1",
    "object 2 queue 5 servers 2 stores 4",
    "object 7 register 00ff servers 3 stores 3",
];

const OBJECTS: &[Row] = &[
    (2, &[2], &[4], Class::Queue, &[0, 0, 0, 0, 0, 0, 0, 5]),
    (3, &[1], &[1], Class::Counter, &[0; 8]),
    (
        4,
        &[1],
        &[1],
        Class::Table,
        &[0, 0, 0, 0, 0, 0, 0, 1, 0, 0, 0, 0, 0, 0, 0, 2],
    ),
    (7, &[3], &[3], Class::Register, &[0, 255]),
    (
        9,
        &[4, 1],
        &[2, 3, 1],
        Class::Account,
        &[0, 0, 0, 0, 0, 0, 1, 2],
    ),
];

// Whether the object has this number and these nodes.
fn has_nodes(object: &ObjectLine, row: &Row) -> bool {
    object.x == row.0 && object.servers.as_slice() == row.1 && object.stores.as_slice() == row.2
}

// Whether its value has this class and this payload too.
fn is_object(alloc: Global, object: &ObjectLine, row: &Row) -> Result<bool, AllocError> {
    if !has_nodes(object, row) || object.value.class() != row.3 {
        return Ok(false);
    }
    Ok(object.value.save_state(alloc)?.as_slice() == row.4)
}

fn are_objects(alloc: Global, objects: &[ObjectLine]) -> Result<bool, AllocError> {
    for (object, row) in objects.iter().zip(OBJECTS) {
        if !is_object(alloc, object, row)? {
            return Ok(false);
        }
    }
    Ok(objects.len() == OBJECTS.len())
}

// The header that the line `run` ends, which is in form.
fn header_at(reader: &mut Reader) -> Option<Header>
    ensures { IfSome result HeaderInForm }
{
    match reader.line(b"run") {
        Ok(Item::Run(header)) => Some(header),
        Ok(_) | Err(_) => None,
    }
}

// The header that has all these objects.
fn header_of_all(alloc: Global) -> Option<Header>
    ensures { IfSome result HeaderInForm }
{
    let mut reader = reader_behind(alloc, 2);
    for line in COMING {
        told(reader.line(line.as_bytes()));
    }
    header_at(&mut reader)
}

fn header_is_right(alloc: Global) -> Result<bool, AllocError> {
    match header_of_all(alloc) {
        Some(header) => Ok(header.nodes == 4 && are_objects(alloc, header.objects.as_slice())?),
        None => Ok(false),
    }
}

#[test]
fn a_header_has_its_objects_in_order(rt: HostRuntime) -> Result<(), Fail> {
    assert!(rt; header_is_right(rt.alloc())?);
    Ok(())
}
