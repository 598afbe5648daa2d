// Lines with their texts, as worked scripts and the table of line kinds have them, read back and printed again; and
// texts that are no lines.
ghost use Rattle.std.specs.Prelude.{◌≡◌, ◌<◌, []};

use arj_base::{Binding, Bytes, End, Mode, Uid, entry_uid, object_uid};
use arj_class::{Answer, Counter, Op, Value};
use arj_journal::{
    Body, Cause, Difference, Event, FrameKind, Kind, Label, Line, Lines, Part, Role, StepFault,
    Stepper, Which, answer_text, line_text,
};
use arj_journal_reader::{LineFault, read_line};
use std::alloc::{AllocError, Global};
use std::test::Fail;

fn lines_are_right(alloc: Global) -> Result<bool, AllocError> {
    for (place, text) in LINES.iter().enumerate() {
        if !has_text(alloc, body_at(alloc, place)?, text)? {
            return Ok(false);
        }
    }
    Ok(true)
}

fn calls_are_right(alloc: Global) -> Result<bool, AllocError> {
    for (place, text) in CALLS.iter().enumerate() {
        if !has_text(alloc, call_at(alloc, place)?, text)? {
            return Ok(false);
        }
    }
    Ok(true)
}

#[test]
fn lines_have_their_texts(rt: HostRuntime) -> Result<(), Fail> {
    assert!(rt; lines_are_right(rt.alloc())?);
    assert!(rt; calls_are_right(rt.alloc())?);
    Ok(())
}

// The texts of lines of event 20, behind its number.
const LINES: &[&str] = &[
    "began A top 1.1.1 -",
    "began Abcdefghij012345 nested 1.1.2 A",
    "began A independent 1.1.1 Abcdefghij012345",
    "began A serial 1.2.1 -",
    "began A constituent 1.1.1 A",
    "includes A 1 3",
    "conflict A 2.1.1 exclude 1",
    "lost A 2",
    "changed A 2 inc 1 2",
    "changed A 2 bind 1.7 4294967295.8",
    "committing A",
    "committed A",
    "ended A",
    "aborted A asked",
    "aborted A doomed",
    "aborted A lost 16",
    "aborted A conflict 2.1.1 read 1",
    "aborted A changed 2 inc 1 2",
    "aborted A old 3 1 18446744073709551615",
    "aborted A nostores 256",
    "aborted A listed 1 3",
    "gaveup A 4",
    "excluded A 1 4",
    "granted 1 1.1.1 0.0.1 write",
    "lowered 1 1.1.1 0.1.1",
    "bound 1 1.2 3",
    "active 2 1 1.3",
    "told 1 1.1.1 commit naming",
    "told 1 1.1.1 abort server",
    "prepared 3 2.1.1 store",
    "done 1 2.1.1 names commit",
    "sent 8 0 1 junk",
    "got 1",
    "void 12",
    "dropped 8",
    "halted 1",
    "up 1 2",
    "armed 2",
    "recovered 1 1.1.1",
    "refused 16",
    "entry 1 2 1 2,3",
    "copy 4 1 0 0.0.0 0000000000000001",
    "quiet yes",
    "quiet no",
    "bad 7",
    "limit frames",
];

// What the line at this place of the table says.
fn body_at(alloc: Global, place: usize) -> Result<Body, AllocError> {
    match place {
        0..13 => Ok(action_body(place)),
        13..21 => Ok(aborted_body(place)),
        21..31 => Ok(object_body(place)),
        _ => node_body(alloc, place),
    }
}

// What lines of actions say.
fn action_body(place: usize) -> Body {
    let a = Label::new(b"A");
    let long = Label::new(b"Abcdefghij012345");
    let first = uid(1, 1, 1);
    let second = uid(2, 1, 1);
    match place {
        0 => Body::Began {
            label: a,
            kind: Kind::Top,
            uid: first,
            parent: None,
        },
        1 => Body::Began {
            label: long,
            kind: Kind::Nested,
            uid: uid(1, 1, 2),
            parent: Some(a),
        },
        2 => Body::Began {
            label: a,
            kind: Kind::Independent,
            uid: first,
            parent: Some(long),
        },
        3 => Body::Began {
            label: a,
            kind: Kind::Serial,
            uid: uid(1, 2, 1),
            parent: None,
        },
        4 => Body::Began {
            label: a,
            kind: Kind::Constituent,
            uid: first,
            parent: Some(a),
        },
        5 => Body::Includes {
            label: a,
            x: 1,
            node: 3,
        },
        6 => Body::Conflict {
            label: a,
            holder: second,
            mode: Mode::Exclude,
            node: 1,
        },
        7 => Body::Lost { label: a, node: 2 },
        8 => Body::Changed {
            label: a,
            node: 2,
            difference: inc(),
        },
        9 => Body::Changed {
            label: a,
            node: 2,
            difference: bind(),
        },
        10 => Body::Committing { label: a },
        11 => Body::Committed { label: a },
        _ => Body::Ended { label: a },
    }
}

// What lines of aborts say, with their causes.
fn aborted_body(place: usize) -> Body {
    let a = Label::new(b"A");
    let second = uid(2, 1, 1);
    match place {
        13 => Body::Aborted {
            label: a,
            cause: Cause::Asked,
        },
        14 => Body::Aborted {
            label: a,
            cause: Cause::Doomed,
        },
        15 => Body::Aborted {
            label: a,
            cause: Cause::Lost { node: 16 },
        },
        16 => Body::Aborted {
            label: a,
            cause: Cause::Conflict {
                holder: second,
                mode: Mode::Read,
                node: 1,
            },
        },
        17 => Body::Aborted {
            label: a,
            cause: Cause::Changed {
                node: 2,
                difference: inc(),
            },
        },
        18 => Body::Aborted {
            label: a,
            cause: Cause::Old {
                node: 3,
                x: 1,
                version: 18446744073709551615,
            },
        },
        19 => Body::Aborted {
            label: a,
            cause: Cause::NoStores { x: 256 },
        },
        _ => Body::Aborted {
            label: a,
            cause: Cause::Listed { x: 1, node: 3 },
        },
    }
}

// What lines of actions at objects and parts say.
fn object_body(place: usize) -> Body {
    let a = Label::new(b"A");
    let first = uid(1, 1, 1);
    let second = uid(2, 1, 1);
    match place {
        21 => Body::GaveUp { label: a, node: 4 },
        22 => Body::Excluded {
            label: a,
            x: 1,
            node: 4,
        },
        23 => Body::Granted {
            node: 1,
            action: first,
            object: object_uid(1),
            mode: Mode::Write,
        },
        24 => Body::Lowered {
            node: 1,
            action: first,
            object: entry_uid(1),
        },
        25 => Body::Bound {
            x: 1,
            binding: binding(1, 2),
            node: 3,
        },
        26 => Body::Active {
            node: 2,
            x: 1,
            binding: binding(1, 3),
        },
        27 => Body::Told {
            node: 1,
            action: first,
            end: End::Commit,
            part: Part::Naming,
        },
        28 => Body::Told {
            node: 1,
            action: first,
            end: End::Abort,
            part: Part::Server,
        },
        29 => Body::Prepared {
            node: 3,
            action: second,
            role: Role::Store,
        },
        _ => Body::Done {
            node: 1,
            action: second,
            role: Role::Names,
            end: End::Commit,
        },
    }
}

// What lines of frames, nodes, objects and ends say.
fn node_body(alloc: Global, place: usize) -> Result<Body, AllocError> {
    let first = uid(1, 1, 1);
    Ok(match place {
        31 => Body::Sent {
            frame: 8,
            from: 0,
            to: 1,
            kind: FrameKind::Junk,
        },
        32 => Body::Got { frame: 1 },
        33 => Body::Void { frame: 12 },
        34 => Body::Dropped { frame: 8 },
        35 => Body::Halted { node: 1 },
        36 => Body::Up { node: 1, inc: 2 },
        37 => Body::Armed { node: 2 },
        38 => Body::Recovered {
            node: 1,
            action: first,
        },
        39 => Body::Refused { cause: 16 },
        40 => Body::Entry {
            x: 1,
            version: 2,
            servers: bytes(alloc, &[1])?,
            stores: bytes(alloc, &[2, 3])?,
        },
        41 => Body::Copy {
            node: 4,
            x: 1,
            version: 0,
            writer: uid(0, 0, 0),
            payload: bytes(alloc, &[0, 0, 0, 0, 0, 0, 0, 1])?,
        },
        42 => Body::Quiet { yes: true },
        43 => Body::Quiet { yes: false },
        44 => Body::Bad { line: 7 },
        _ => Body::Limit {
            which: Which::Frames,
        },
    })
}

// Calls of B on object 2 with their answers.
const CALLS: &[&str] = &[
    "ok B 2 get = 00ff",
    "ok B 2 add 1 = over",
    "ok B 2 pop = none",
    "ok B 2 put 1 2 = done",
    "ok B 2 get = gone",
    "ok B 2 create counter 7 = there",
    "ok B 2 destroy = done",
];

// The operation at this place of the table.
fn op_at(place: usize) -> Op {
    match place {
        0 | 4 => Op::Get,
        1 => Op::Add(1),
        2 => Op::Pop,
        3 => Op::PutPair(1, 2),
        5 => Op::Create(Value::Counter(Counter::new(7))),
        _ => Op::Destroy,
    }
}

// And what is answered.
fn answer_at(alloc: Global, place: usize) -> Result<Answer, AllocError> {
    Ok(match place {
        0 => Answer::Text(bytes(alloc, &[0, 255])?),
        1 => Answer::Over,
        2 => Answer::Nothing,
        4 => Answer::Gone,
        5 => Answer::There,
        _ => Answer::Done,
    })
}

// The text of an answer, which is let go here alone.
fn said(alloc: Global, answer: Answer) -> Result<Bytes, AllocError> {
    answer_text(alloc, &answer)
}

// A call with its answer.
fn call_at(alloc: Global, place: usize) -> Result<Body, AllocError> {
    let answer = said(alloc, answer_at(alloc, place)?)?;
    Ok(Body::Ok {
        label: Label::new(b"B"),
        x: 2,
        op: op_at(place),
        answer,
    })
}

// The text of a line, which is let go here alone.
fn printed(alloc: Global, line: Line) -> Result<Bytes, AllocError> {
    line_text(alloc, &line)
}

// A line of event 20.
fn has_text(alloc: Global, body: Body, want: &str) -> Result<bool, AllocError> {
    let text = printed(alloc, Line { event: 20, body })?;
    let want = format!(in alloc; "20 {want}\n")?;
    Ok(text.as_slice() == want.as_bytes() && is_read_back(alloc, want.as_bytes())?)
}

// Whether the line that is read from the text has it.
fn is_read_back(alloc: Global, text: &[u8]) -> Result<bool, AllocError> {
    match read_line(alloc, text) {
        Ok(line) => is_said(alloc, line, text),
        Err(_) => Ok(false),
    }
}

// Whether the line is one of event 20 and has this text.
fn is_said(alloc: Global, line: Line, text: &[u8]) -> Result<bool, AllocError> {
    let event = line.event;
    let again = printed(alloc, line)?;
    Ok(event == 20 && again.as_slice() == text)
}

const NOT_LINES: &[&str] = &[
    "",
    "\n",
    "20\n",
    "20 got 1",
    "20 got 1\n\n",
    "20 got 01\n",
    "020 got 1\n",
    "4294967296 got 1\n",
    " 20 got 1\n",
    "20  got 1\n",
    "20 got  1\n",
    "20 got 1 \n",
    "20 got1\n",
    "20 got\n",
    "20 got 4294967296\n",
    "20 got +1\n",
    "20 went 1\n",
    "20 Got 1\n",
    "20 halted 0\n",
    "20 halted 17\n",
    "20 sent 1 0 1 bind\n",
    "20 sent 1 1 2 junk\n",
    "20 refused 19\n",
    "20 includes A 257 1\n",
    "20 committing 1A\n",
    "20 committing Abcdefghij0123456\n",
    "20 began A top 1.1 -\n",
    "20 began A top 1.1.1\n",
    "20 changed A 2 bind 1 2\n",
    "20 aborted A asked 1\n",
    "20 aborted A lost\n",
    "20 entry 1 2 1 2,2\n",
    "20 entry 1 2 1 2,\n",
    "20 copy 4 1 0 0.0.0 \n",
    "20 copy 4 1 0 0.0.0 0\n",
    "20 copy 4 1 0 0.0.0 0F\n",
    "20 ok B 2 add 1 = 00ff\n",
    "20 ok B 2 get 1 = -\n",
    "20 ok B 2 get 12\n",
    "20 ok B 2 create counter gone = done\n",
    "20 ok B 2 destroy = 00ff\n",
    "20 quiet maybe\n",
];

#[test]
fn other_texts_are_refused(rt: HostRuntime) -> Result<(), Fail> {
    for text in NOT_LINES {
        assert!(rt; is_refused(rt.alloc(), text), "{text}");
    }
    Ok(())
}

fn is_refused(alloc: Global, text: &str) -> bool {
    matches!(read_line(alloc, text.as_bytes()), Err(LineFault::NotALine))
}

// A stepper that has met the limit of labels.
#[derive(Drop)]
struct Full {
    journal: Lines,
}

impl Stepper for Full {
    ghost events = { λ _. [] };

    ghost journal = { λ s. s.journal };

    ghost steps = { λ _. 0 };

    fn step(&mut self, _event: &Event, out: &mut Lines) -> Result<(), StepFault> {
        self.journal.push(labels_limit())?;
        out.push(labels_limit())?;
        Err(StepFault::Limit(Which::Labels))
    }
}

fn labels_limit() -> Line
    ensures { (result.event ≡ 3) × (result.body ≡ Body.Limit Which.Labels) }
{
    Line {
        event: 3,
        body: Body::Limit {
            which: Which::Labels,
        },
    }
}

// Whether there is one line, with this text.
fn is_one_line(alloc: Global, lines: &[Line], want: &[u8]) -> Result<bool, AllocError> {
    match lines {
        [line] => Ok(line_text(alloc, line)?.as_slice() == want),
        _ => Ok(false),
    }
}

// Whether the step of such a stepper tells the limit.
fn limit_is_told(alloc: Global) -> Result<bool, AllocError> {
    let mut stepper = Full {
        journal: Lines::new(alloc),
    };
    let mut out = Lines::new(alloc);
    if !is_full(&mut stepper, &mut out) {
        return Ok(false);
    }
    is_one_line(alloc, out.as_slice(), b"3 limit labels\n")
}

#[test]
fn a_step_tells_the_limit(rt: HostRuntime) -> Result<(), Fail> {
    assert!(rt; limit_is_told(rt.alloc())?);
    Ok(())
}

// Whether a step meets the limit of labels.
fn is_full<S: Stepper>(stepper: &mut S, out: &mut Lines) -> bool
    requires { S.steps stepper.old < 200000 }
{
    matches!(
        stepper.step(&Event::Settle, out),
        Err(StepFault::Limit(Which::Labels))
    )
}

fn inc() -> Difference {
    Difference::Inc { had: 1, now: 2 }
}

fn bind() -> Difference {
    Difference::Bind {
        had: binding(1, 7),
        now: binding(4294967295, 8),
    }
}

fn uid(node: u32, inc: u32, num: u64) -> Uid {
    Uid { node, inc, num }
}

fn binding(inc: u32, count: u32) -> Binding {
    Binding { inc, count }
}

fn bytes(alloc: Global, items: &[u8]) -> Result<Bytes, AllocError> {
    let mut made = Bytes::new(alloc);
    made.extend(items)?;
    Ok(made)
}
