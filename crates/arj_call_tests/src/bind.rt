// Calls on one object by the answers that they get, one after another.
use arj_base::{
    Binding, Bytes, Class, Ends, Format, Mode, NodeList, ObjectState, Path, Uid, object_uid,
};
use arj_bind::{CallEnd, CallStep, CallSteps, Goal, Keeping, Known};
use arj_class::{Answer, Op};
use arj_msg::{
    Activated, Asked, Bound, BoundReply, Invoked, InvokedReply, Loaded, LoadedReply, Message,
    Recorded, RecordedReply, What,
};
use std::alloc::{AllocError, Global};
use std::test::Fail;

const CALLER: Uid = Uid {
    node: 2,
    inc: 1,
    num: 1,
};

const OTHER: Uid = Uid {
    node: 5,
    inc: 1,
    num: 1,
};

// What a call hears. Naming has incarnation 1, the server is node 3, and the stores are 4 and 5.
#[derive(Clone, Copy)]
enum Told {
    // The binding with this count is live, its server in this incarnation; store 4 is listed alone.
    Live(u32, u32),
    // The binding with this count is made; both stores are listed.
    Make(u32),
    // It is made, and no store is listed.
    Bare,
    Write,
    Held,
    State,
    InDoubt,
    Activated(u32),
    Recorded,
    NotRecorded,
    Done,
    Locked,
    Other,
    // A server took a copy, as the answer to an earlier request; or this is from another node.
    Late,
    Elsewhere,
    GiveUp,
}

#[derive(Clone, Copy)]
struct How {
    include: bool,
    // Whether the top's last answer named what is kept, and whether the root is free of it.
    named: bool,
    free: bool,
}

const FREE: How = How {
    include: false,
    named: false,
    free: true,
};

const BUSY: How = How {
    include: false,
    named: false,
    free: false,
};

const NAMED_FREE: How = How {
    include: false,
    named: true,
    free: true,
};

const NAMED_BUSY: How = How {
    include: false,
    named: true,
    free: false,
};

const INCLUDE: How = How {
    include: true,
    named: false,
    free: true,
};

// A call, what it is told, and its requests, each with its number and node, its end, and what the root keeps then.
struct Call {
    how: How,
    told: &'static [Told],
    want: &'static str,
}

const FIRST: Call = Call {
    how: FREE,
    told: &[
        Told::Make(1),
        Told::State,
        Told::Activated(1),
        Told::Recorded,
        Told::Done,
    ],
    want: "1 bind 1 0.0, 2 load 4, 3 activate 3 1.1, 4 record 1 1.1 1 1, 5 invoke 3 1.1 1, answered; 1.1 1 45 recorded",
};

// The calls of a root, one after another.
const ROOTS: &[&[Call]] = &[
    &[
        FIRST,
        Call {
            how: NAMED_BUSY,
            told: &[Told::Locked],
            want: "1 invoke 3 1.1 1, conflict 5.1.1 read 3; 1.1 1 45 recorded",
        },
        Call {
            how: BUSY,
            told: &[Told::Live(1, 1), Told::Done],
            want: "1 bind 1 0.0, 2 invoke 3 1.1 1, answered; 1.1 1 4 recorded",
        },
    ],
    &[
        Call {
            how: FREE,
            told: &[Told::GiveUp],
            want: "1 bind 1 0.0, lost 1; none",
        },
        Call {
            how: FREE,
            told: &[Told::Make(1), Told::GiveUp, Told::GiveUp],
            want: "1 bind 1 0.0, 2 load 4, 3 load 5, lost 5; 1.1 - 45",
        },
        Call {
            how: BUSY,
            told: &[Told::Make(1), Told::GiveUp, Told::State, Told::GiveUp],
            want: "1 bind 1 0.0, 2 load 4, 3 load 5, 4 activate 3 1.1, lost 3; 1.1 - 45 spoiled",
        },
        Call {
            how: BUSY,
            told: &[Told::Make(1), Told::State, Told::Activated(2), Told::GiveUp],
            want: "1 bind 1 0.0, 2 load 4, 3 activate 3 1.1, 4 record 1 1.1 2 1, lost 1; 1.1 2 45 spoiled",
        },
        Call {
            how: NAMED_FREE,
            told: &[Told::Live(2, 1), Told::GiveUp],
            want: "1 bind 1 1.1, 2 invoke 3 1.2 1, lost 3 sent; 1.2 1 4 recorded spoiled avoids 1.1",
        },
        Call {
            how: NAMED_BUSY,
            told: &[Told::Done],
            want: "1 invoke 3 1.2 1, answered; 1.2 1 4 recorded spoiled avoids 1.1",
        },
    ],
    &[
        FIRST,
        Call {
            how: BUSY,
            told: &[Told::Live(1, 2)],
            want: "1 bind 1 0.0, changed 3 inc 1 2; 1.1 1 4 recorded spoiled",
        },
    ],
    &[
        FIRST,
        Call {
            how: BUSY,
            told: &[Told::Make(1), Told::State, Told::Activated(3)],
            want: "1 bind 1 0.0, 2 load 4, 3 activate 3 1.1, changed 3 inc 1 3; 1.1 1 45 recorded spoiled",
        },
    ],
    &[
        FIRST,
        Call {
            how: BUSY,
            told: &[Told::Live(2, 1)],
            want: "1 bind 1 0.0, changed 1 bind 1.1 1.2; 1.1 1 45 recorded spoiled",
        },
        Call {
            how: NAMED_FREE,
            told: &[Told::Live(2, 2), Told::Done],
            want: "1 bind 1 1.1, 2 invoke 3 1.2 2, answered; 1.2 2 4 recorded avoids 1.1",
        },
        Call {
            how: FREE,
            told: &[Told::Live(1, 1)],
            want: "1 bind 1 1.1, changed 1 bind 1.1 1.2; 1.2 2 4 recorded spoiled avoids 1.1",
        },
    ],
    &[
        FIRST,
        Call {
            how: FREE,
            told: &[Told::Live(2, 1), Told::Other],
            want: "1 bind 1 0.0, 2 invoke 3 1.2 1, changed 3 inc 1 2; 1.2 1 4 recorded spoiled",
        },
    ],
    &[
        Call {
            how: FREE,
            told: &[Told::Held],
            want: "1 bind 1 0.0, conflict 5.1.1 read 1; none",
        },
        Call {
            how: FREE,
            told: &[Told::Bare],
            want: "1 bind 1 0.0, lost 1; none",
        },
        Call {
            how: FREE,
            told: &[Told::Make(1), Told::InDoubt],
            want: "1 bind 1 0.0, 2 load 4, conflict 5.1.1 write 4; 1.1 - 45",
        },
        Call {
            how: FREE,
            told: &[
                Told::Recorded,
                Told::Make(1),
                Told::State,
                Told::Late,
                Told::Elsewhere,
                Told::Activated(1),
                Told::NotRecorded,
            ],
            want: "1 bind 1 0.0, foreign, 2 load 4, 3 activate 3 1.1, foreign, foreign, 4 record 1 1.1 1 1, changed 1 inc 1 2; 1.1 1 45 spoiled",
        },
        Call {
            how: INCLUDE,
            told: &[Told::Write, Told::State],
            want: "1 include 1 0.0, 2 load 4, included; 1.1 1 45 spoiled",
        },
        Call {
            how: INCLUDE,
            told: &[Told::Write, Told::GiveUp, Told::InDoubt],
            want: "1 include 1 0.0, 2 load 4, 3 load 5, conflict 5.1.1 write 5; 1.1 1 45 spoiled",
        },
        Call {
            how: INCLUDE,
            told: &[Told::Write, Told::GiveUp, Told::GiveUp],
            want: "1 include 1 0.0, 2 load 4, 3 load 5, lost 5; 1.1 1 45 spoiled",
        },
    ],
];

fn list(alloc: Global, nodes: &[u8]) -> Result<NodeList, AllocError> {
    let mut list = NodeList::new(alloc);
    list.extend(nodes)?;
    Ok(list)
}

fn state(alloc: Global) -> ObjectState {
    ObjectState {
        uid: object_uid(1),
        class: Class::Counter,
        version: 0,
        writer: OTHER,
        payload: Bytes::new(alloc),
        format: Format::Two,
    }
}

fn binding(count: u32) -> Binding {
    Binding { inc: 1, count }
}

fn bound(alloc: Global, told: Told) -> Result<BoundReply, AllocError> {
    Ok(match told {
        Told::Live(count, server_inc) => BoundReply::Live {
            binding: binding(count),
            server: 3,
            server_inc,
            naming_inc: 1,
            stores: list(alloc, &[4])?,
        },
        Told::Make(count) => BoundReply::Make {
            binding: binding(count),
            server: 3,
            naming_inc: 1,
            stores: list(alloc, &[4, 5])?,
        },
        Told::Bare => BoundReply::Make {
            binding: binding(1),
            server: 3,
            naming_inc: 1,
            stores: NodeList::new(alloc),
        },
        Told::Write => BoundReply::Write {
            naming_inc: 1,
            stores: list(alloc, &[4, 5])?,
        },
        _ => BoundReply::Conflict {
            holder: OTHER,
            mode: Mode::Read,
        },
    })
}

fn message(alloc: Global, told: Told, asked: Asked) -> Result<Message, AllocError> {
    let what = What::Inc { had: 1, now: 2 };
    Ok(match told {
        Told::State => Message::Loaded(Loaded {
            asked,
            reply: LoadedReply::State(state(alloc)),
        }),
        Told::InDoubt => Message::Loaded(Loaded {
            asked,
            reply: LoadedReply::InDoubt { holder: OTHER },
        }),
        Told::Activated(server_inc) => Message::Activated(Activated { asked, server_inc }),
        Told::Late => Message::Activated(Activated {
            asked: Asked {
                act: CALLER,
                req: 0,
            },
            server_inc: 1,
        }),
        Told::Elsewhere => Message::Activated(Activated {
            asked,
            server_inc: 1,
        }),
        Told::Recorded => Message::Recorded(Recorded {
            asked,
            reply: RecordedReply::Yes,
        }),
        Told::NotRecorded => Message::Recorded(Recorded {
            asked,
            reply: RecordedReply::Changed(what),
        }),
        Told::Done => Message::Invoked(Invoked {
            asked,
            reply: InvokedReply::Answered(Answer::Done),
        }),
        Told::Locked => Message::Invoked(Invoked {
            asked,
            reply: InvokedReply::Conflict {
                holder: OTHER,
                mode: Mode::Read,
            },
        }),
        Told::Other => Message::Invoked(Invoked {
            asked,
            reply: InvokedReply::Changed(what),
        }),
        _ => Message::Bound(Bound {
            asked,
            reply: bound(alloc, told)?,
        }),
    })
}

// Puts a number behind a space.
fn put_number(text: &mut Bytes, number: u32) -> Result<(), AllocError> {
    text.extend(b" ")?;
    text.extend_decimal(u64::from(number))
}

// Puts a number behind a point.
fn put_part(text: &mut Bytes, number: u32) -> Result<(), AllocError> {
    text.extend(b".")?;
    text.extend_decimal(u64::from(number))
}

// Puts a binding behind a space.
fn put_binding(text: &mut Bytes, binding: Binding) -> Result<(), AllocError> {
    put_number(text, binding.inc)?;
    put_part(text, binding.count)
}

// Puts a request's number, its word and its node.
fn put_head(text: &mut Bytes, req: u32, word: &str, node: u8) -> Result<(), AllocError> {
    text.extend_decimal(u64::from(req))?;
    text.extend(b" ")?;
    text.extend(word.as_bytes())?;
    put_number(text, u32::from(node))
}

// Puts a request with its number and node, and what it says.
fn put_message(text: &mut Bytes, node: u8, request: &Message) -> Result<(), AllocError> {
    match request {
        Message::Bind(m) => {
            let word = if m.include { "include" } else { "bind" };
            put_head(text, m.head.req, word, node)?;
            put_binding(text, m.avoid)
        }
        Message::Load(m) => put_head(text, m.head.req, "load", node),
        Message::Activate(m) => {
            put_head(text, m.head.req, "activate", node)?;
            put_binding(text, m.binding)
        }
        Message::RecordMsg(m) => {
            put_head(text, m.head.req, "record", node)?;
            put_binding(text, m.binding)?;
            put_number(text, m.server_inc)?;
            put_number(text, m.naming_inc)
        }
        Message::Invoke(m) => {
            put_head(text, m.head.req, "invoke", node)?;
            put_binding(text, m.binding)?;
            put_number(text, m.server_inc)
        }
        _ => text.extend(b"another request"),
    }
}

// Puts a conflict: the holder, its mode and the node.
fn put_conflict(text: &mut Bytes, holder: Uid, mode: Mode, node: u8) -> Result<(), AllocError> {
    text.extend(b"conflict")?;
    put_number(text, holder.node)?;
    put_part(text, holder.inc)?;
    text.extend(b".")?;
    text.extend_decimal(holder.num)?;
    let mode = if mode == Mode::Read {
        " read"
    } else {
        " write"
    };
    text.extend(mode.as_bytes())?;
    put_number(text, u32::from(node))
}

// Puts what changed at a node.
fn put_changed(text: &mut Bytes, node: u8, what: What) -> Result<(), AllocError> {
    text.extend(b"changed")?;
    put_number(text, u32::from(node))?;
    match what {
        What::Inc { had, now } => {
            text.extend(b" inc")?;
            put_number(text, had)?;
            put_number(text, now)
        }
        What::Bind { had, now } => {
            text.extend(b" bind")?;
            put_binding(text, had)?;
            put_binding(text, now)
        }
    }
}

// Puts the end of a call.
fn put_end(text: &mut Bytes, end: &CallEnd) -> Result<(), AllocError> {
    match end {
        CallEnd::Answered(_) => text.extend(b"answered"),
        CallEnd::Included(_) => text.extend(b"included"),
        CallEnd::Conflict { holder, mode, node } => put_conflict(text, *holder, *mode, *node),
        CallEnd::Changed { node, what } => put_changed(text, *node, *what),
        CallEnd::Lost { node, sent } => {
            text.extend(b"lost")?;
            put_number(text, u32::from(*node))?;
            text.extend(if *sent {
                b" sent".as_slice()
            } else {
                b"".as_slice()
            })
        }
    }
}

// Puts what is kept of a binding: its server's incarnation, if that is known, the stores, and whether it is recorded.
fn put_known(text: &mut Bytes, known: &Known) -> Result<(), AllocError> {
    put_binding(text, known.binding)?;
    match known.inc {
        Some(inc) => put_number(text, inc)?,
        None => text.extend(b" -")?,
    }
    text.extend(b" ")?;
    for store in known.stores.as_slice() {
        text.extend_decimal(u64::from(*store))?;
    }
    text.extend(if known.recorded {
        b" recorded".as_slice()
    } else {
        b"".as_slice()
    })
}

fn put_keeping(text: &mut Bytes, keeping: &Keeping) -> Result<(), AllocError> {
    text.extend(b";")?;
    match keeping.kept() {
        Some(known) => put_known(text, known)?,
        None => text.extend(b" none")?,
    }
    if keeping.is_spoiled() {
        text.extend(b" spoiled")?;
    }
    let avoid = keeping.avoid();
    if avoid.count == 0 {
        return Ok(());
    }
    text.extend(b" avoids")?;
    put_binding(text, avoid)
}

fn start(alloc: Global, call: &Call, keeping: &mut Keeping) -> Result<CallSteps, AllocError> {
    let path = Path::new(CALLER);
    if call.how.include {
        let avoid = Binding { inc: 0, count: 0 };
        return CallSteps::start(alloc, &path, 1, Goal::Include(6), None, avoid, 1);
    }
    keeping.renew(call.how.free);
    let known = match keeping.known_at_start(call.how.named) {
        Some(known) => Some(known.copy()?),
        None => None,
    };
    let goal = Goal::Call(Op::Add(1));
    CallSteps::start(alloc, &path, 1, goal, known, keeping.avoid(), 1)
}

// The node that is asked. The request is let go here alone.
fn asked_node(alloc: Global, steps: &CallSteps) -> Result<u8, AllocError> {
    let (node, _) = steps.next(&Ends::new(alloc))?;
    Ok(node)
}

// An answer to the request of this number, in memory of its own.
fn boxed(alloc: Global, told: Told, req: u32) -> Result<Box<Message>, AllocError> {
    let message = message(alloc, told, Asked { act: CALLER, req })?;
    Ok(Box::new(alloc, message)?)
}

// An answer to the request of this number, and the node that it is from.
fn answer(
    alloc: Global,
    steps: &CallSteps,
    told: Told,
    req: u32,
) -> Result<(u8, Box<Message>), AllocError> {
    let node = match told {
        Told::Elsewhere => 9,
        _ => asked_node(alloc, steps)?,
    };
    Ok((node, boxed(alloc, told, req)?))
}

// The steps go on by what they are told, as the answer to the request of this number.
fn hear(
    alloc: Global,
    steps: CallSteps,
    call: &Call,
    told: Told,
    req: u32,
    keeping: &mut Keeping,
) -> Result<CallStep, AllocError> {
    if matches!(told, Told::GiveUp) {
        return Ok(steps.give_up(keeping));
    }
    let (from, message) = answer(alloc, &steps, told, req)?;
    match steps.answered(alloc, from, message, keeping, call.how.free) {
        Ok(step) => Ok(step),
        Err(_) => Err(AllocError),
    }
}

// Puts a request, which is let go here alone.
fn put_owned(text: &mut Bytes, node: u8, request: Message) -> Result<(), AllocError> {
    put_message(text, node, &request)
}

fn put_request(alloc: Global, text: &mut Bytes, steps: &CallSteps) -> Result<(), AllocError> {
    let (node, request) = steps.next(&Ends::new(alloc))?;
    put_owned(text, node, request)?;
    text.extend(b", ")
}

// Puts what a step leads to. The steps that go on, if some do, and how many requests more there are.
fn followed(
    alloc: Global,
    step: CallStep,
    keeping: &Keeping,
    text: &mut Bytes,
) -> Result<Option<(CallSteps, u32)>, AllocError> {
    match step {
        CallStep::On(next) => {
            put_request(alloc, text, &next)?;
            Ok(Some((next, 1)))
        }
        CallStep::Foreign(same) => {
            text.extend(b"foreign, ")?;
            Ok(Some((same, 0)))
        }
        CallStep::Ended(end) => {
            put_end(text, &end)?;
            put_keeping(text, keeping)?;
            Ok(None)
        }
    }
}

// Puts a call to its end.
fn run(
    alloc: Global,
    call: &Call,
    keeping: &mut Keeping,
    text: &mut Bytes,
) -> Result<(), AllocError> {
    let mut steps = start(alloc, call, keeping)?;
    put_request(alloc, text, &steps)?;
    let mut req = 1u32;
    for told in call.told {
        let step = hear(alloc, steps, call, *told, req, keeping)?;
        let Some((next, more)) = followed(alloc, step, keeping, text)? else {
            return Ok(());
        };
        req = req.saturating_add(more);
        steps = next;
    }
    Ok(())
}

fn is_so(alloc: Global, call: &Call, keeping: &mut Keeping) -> Result<bool, AllocError> {
    let mut text = Bytes::new(alloc);
    run(alloc, call, keeping, &mut text)?;
    Ok(text.as_slice() == call.want.as_bytes())
}

// Whether the calls of a root, one after another, are as they should be.
fn are_so(alloc: Global, root: &[Call]) -> Result<bool, AllocError> {
    let mut keeping = Keeping::new();
    for call in root {
        if !is_so(alloc, call, &mut keeping)? {
            return Ok(false);
        }
    }
    Ok(true)
}

#[test]
fn calls_of_roots(rt: HostRuntime) -> Result<(), Fail> {
    for (place, root) in ROOTS.iter().enumerate() {
        assert!(rt; are_so(rt.alloc(), root)?, "root {place}");
    }
    Ok(())
}
