// A whole call with its commit, and a call that is given up, effect by effect.
ghost use Rattle.std.specs.Prelude.{IfOk};
ghost use Rattle.arj_msg.specs.Sendable.{BoundSends, IsSendable, StateSends, VotedSends};

use arj_asking::{
    again_all, asker_has_room, begin_action, call, commit_action, give_up, has_room, heard,
    is_meant,
};
use arj_base::{Binding, Bytes, Format, NodeList, ObjectState, States, Uid, object_uid};
use arj_class::{Answer, Counter, ObjectClass, Op};
use arj_coord::{Coord, Effect, Effects, Records};
use arj_journal::{Body, Kind, Label};
use arj_msg::{
    Activated, Asked, Bound, BoundReply, Confirmed, ConfirmedReply, Invoked, InvokedReply, Loaded,
    LoadedReply, Message, Prepared, PreparedReply, Recorded, RecordedReply, Voted, VotedReply,
};
use arj_tree::TreeFault;
use std::alloc::{AllocError, Global};
use std::test::Fail;

// The coordinator is node 2, the server node 3, and the stores are 4 and 5.
const TOP: Uid = Uid {
    node: 2,
    inc: 1,
    num: 1,
};

#[derive(Clone, Copy)]
enum Told {
    Make,
    State,
    Activated,
    Recorded,
    Done,
    Voted,
    Prepared,
    Confirmed,
}

#[derive(Clone, Copy)]
enum Act {
    Begin,
    Call,
    Commit,
    GiveUp,
    Again,
    // An answer from this node to the request of this number.
    Hear(u8, Told, u32),
}

// What is done, and the effects.
const WHOLE: &[(Act, &str)] = &[
    (Act::Begin, "began, "),
    (Act::Call, "bind 1 1, "),
    (Act::Again, "bind 1 1, "),
    (Act::Hear(1, Told::Make, 1), "load 4 2, "),
    (Act::Hear(5, Told::State, 2), "void"),
    (Act::Hear(4, Told::State, 2), "activate 3 3, "),
    (Act::Hear(3, Told::Activated, 3), "record 1 4, "),
    (Act::Hear(1, Told::Recorded, 4), "invoke 3 5, "),
    (Act::Hear(3, Told::Done, 5), "ok 1, "),
    (Act::Hear(3, Told::Done, 5), "void"),
    (Act::Again, ""),
    (Act::Commit, "committing, vote 3 6, "),
    (Act::Hear(3, Told::Voted, 6), "prepare 4 7, prepare 5 7, "),
    (Act::Hear(5, Told::Prepared, 7), ""),
    (Act::Hear(5, Told::Prepared, 7), "void"),
    (Act::Again, "prepare 4 7, "),
    (Act::Hear(4, Told::Prepared, 7), "confirm 1 8, "),
    (
        Act::Hear(1, Told::Confirmed, 8),
        "put 4, committed, told 1, told 3, told 4, told 5, ",
    ),
    (Act::Hear(1, Told::Confirmed, 8), "void"),
];

const GIVEN_UP: &[(Act, &str)] = &[
    (Act::Begin, "began, "),
    (Act::GiveUp, ""),
    (Act::Call, "bind 1 1, "),
    (Act::Hear(1, Told::Make, 1), "load 4 2, "),
    (Act::GiveUp, "gave up 4, load 5 3, "),
    (Act::Hear(4, Told::State, 2), "void"),
    (Act::Hear(4, Told::State, 3), "void"),
    (Act::GiveUp, "gave up 5, lost 5, "),
    (Act::Hear(5, Told::State, 3), "void"),
    (
        Act::Commit,
        "committing, committed, told 1, told 4, told 5, ",
    ),
];

fn state(alloc: Global) -> Result<ObjectState, AllocError>
    ensures { IfOk result StateSends }
{
    Ok(ObjectState {
        uid: object_uid(1),
        class: arj_base::Class::Counter,
        version: 1,
        writer: TOP,
        payload: Counter::new(0).save_state(alloc)?,
        format: Format::Two,
    })
}

fn bound(alloc: Global) -> Result<BoundReply, AllocError>
    ensures { IfOk result BoundSends }
{
    let mut stores = NodeList::new(alloc);
    stores.push(4)?;
    stores.push(5)?;
    Ok(BoundReply::Make {
        binding: Binding { inc: 1, count: 1 },
        server: 3,
        naming_inc: 1,
        stores,
    })
}

fn vote(alloc: Global) -> Result<VotedReply, AllocError>
    ensures { IfOk result VotedSends }
{
    let mut states = States::new(alloc);
    states.push(state(alloc)?)?;
    Ok(VotedReply::Yes(states))
}

// An answer to the request of this number.
fn message(alloc: Global, told: Told, req: u32) -> Result<Message, AllocError>
    ensures { IfOk result IsSendable }
{
    let asked = Asked { act: TOP, req };
    Ok(match told {
        Told::Make => Message::Bound(Bound {
            asked,
            reply: bound(alloc)?,
        }),
        Told::State => Message::Loaded(Loaded {
            asked,
            reply: LoadedReply::State(state(alloc)?),
        }),
        Told::Activated => Message::Activated(Activated {
            asked,
            server_inc: 1,
        }),
        Told::Recorded => Message::Recorded(Recorded {
            asked,
            reply: RecordedReply::Yes,
        }),
        Told::Done => Message::Invoked(Invoked {
            asked,
            reply: InvokedReply::Answered(Answer::Done),
        }),
        Told::Voted => Message::Voted(Voted {
            asked,
            reply: vote(alloc)?,
        }),
        Told::Prepared => Message::Prepared(Prepared {
            asked,
            reply: PreparedReply::Yes,
        }),
        Told::Confirmed => Message::Confirmed(Confirmed {
            asked,
            reply: ConfirmedReply::Yes,
        }),
    })
}

// A line by its first word, and its number, if it has one.
fn line_word(body: &Body) -> (&'static str, Option<u64>) {
    match body {
        Body::Began { .. } => ("began", None),
        Body::Ok { x, .. } => ("ok", Some(u64::from(*x))),
        Body::Lost { node, .. } => ("lost", Some(u64::from(*node))),
        Body::Committing { .. } => ("committing", None),
        Body::Committed { .. } => ("committed", None),
        Body::GaveUp { node, .. } => ("gave up", Some(u64::from(*node))),
        _ => ("another line", None),
    }
}

// A message by its kind, and for a request its number.
fn message_word(message: &Message) -> (&'static str, Option<u64>) {
    match message {
        Message::Bind(m) => ("bind", Some(u64::from(m.head.req))),
        Message::Load(m) => ("load", Some(u64::from(m.head.req))),
        Message::Activate(m) => ("activate", Some(u64::from(m.head.req))),
        Message::RecordMsg(m) => ("record", Some(u64::from(m.head.req))),
        Message::Invoke(m) => ("invoke", Some(u64::from(m.head.req))),
        Message::Vote(m) => ("vote", Some(u64::from(m.head.req))),
        Message::Prepare(m) => ("prepare", Some(u64::from(m.head.req))),
        Message::Confirm(m) => ("confirm", Some(u64::from(m.head.req))),
        Message::Told(_) => ("told", None),
        _ => ("another message", None),
    }
}

// Puts a number behind a space, if there is one.
fn put_number(text: &mut Bytes, number: Option<u64>) -> Result<(), AllocError> {
    let Some(number) = number else {
        return Ok(());
    };
    text.extend(b" ")?;
    text.extend_decimal(number)
}

// Puts a word with its numbers.
fn put_word(
    text: &mut Bytes,
    word: &str,
    first: Option<u64>,
    second: Option<u64>,
) -> Result<(), AllocError> {
    text.extend(word.as_bytes())?;
    put_number(text, first)?;
    put_number(text, second)?;
    text.extend(b", ")
}

// Puts an effect: a line, a message with its node, or work on a record with how many nodes it lists.
fn put_effect(text: &mut Bytes, effect: &Effect) -> Result<(), AllocError> {
    match effect {
        Effect::Say(body) => {
            let (word, number) = line_word(body);
            put_word(text, word, number, None)
        }
        Effect::Send(node, message) => {
            let (word, req) = message_word(message);
            put_word(text, word, Some(u64::from(*node)), req)
        }
        Effect::PutRecord(intent) => {
            put_word(
                text,
                "put",
                Some(intent.nodes.as_slice().len() as u64),
                None,
            )
        }
        Effect::RemoveRecord(_) => put_word(text, "remove", None, None),
    }
}

fn text(alloc: Global, outs: &Effects) -> Result<Bytes, AllocError> {
    let mut text = Bytes::new(alloc);
    for effect in outs.as_slice() {
        put_effect(&mut text, effect)?;
    }
    Ok(text)
}

// An answer arrives. False: it is void.
fn hear(
    alloc: Global,
    coord: &mut Coord,
    from: u8,
    message: Box<Message>,
    records: &Records,
    outs: &mut Effects,
) -> Result<bool, AllocError>
    requires { IsSendable message.value }
{
    if !is_meant(coord, &message) || !asker_has_room(coord, &message) {
        return Ok(false);
    }
    heard(alloc, coord, from, message, records, outs)
}

// An answer to the request of this number, in memory of its own.
fn boxed(alloc: Global, told: Told, req: u32) -> Result<Box<Message>, AllocError>
    ensures { IfOk result (λ message. IsSendable message.value) }
{
    let message = message(alloc, told, req)?;
    Ok(Box::new(alloc, message)?)
}

// A top begins.
fn begins(coord: &mut Coord, outs: &mut Effects) -> Result<(), TreeFault> {
    begin_action(coord, Label::new(b"a".as_slice()), Kind::Top, None, outs)?;
    Ok(())
}

// One act. False: an answer that is void.
fn acts(
    alloc: Global,
    coord: &mut Coord,
    act: Act,
    records: &Records,
    outs: &mut Effects,
) -> Result<bool, TreeFault> {
    if !has_room(coord, TOP) {
        return Err(TreeFault::Memory);
    }
    match act {
        Act::Begin => begins(coord, outs)?,
        Act::Call => call(alloc, coord, TOP, 1, Op::Add(2), outs)?,
        Act::Commit => commit_action(alloc, coord, TOP, records, outs)?,
        Act::GiveUp => give_up(alloc, coord, TOP, records, outs)?,
        Act::Again => again_all(alloc, coord, outs)?,
        Act::Hear(from, told, req) => {
            let message = boxed(alloc, told, req)?;
            return Ok(hear(alloc, coord, from, message, records, outs)?);
        }
    }
    Ok(true)
}

// Whether one act leads to these effects.
fn leads_to(alloc: Global, coord: &mut Coord, act: Act, want: &str) -> Result<bool, TreeFault> {
    let mut outs = Effects::new(alloc);
    if !acts(alloc, coord, act, &Records::new(alloc), &mut outs)? {
        return Ok(want == "void");
    }
    Ok(text(alloc, &outs)?.as_slice() == want.as_bytes())
}

// Whether each act leads to the effects that are wanted; not where memory is wanting.
fn are_so(alloc: Global, acts: &[(Act, &str)]) -> bool {
    let mut coord = Coord::new(alloc, 2, 1);
    for (one, want) in acts {
        if !leads_to(alloc, &mut coord, *one, want).unwrap_or(false) {
            return false;
        }
    }
    true
}

#[test]
fn a_call_and_its_commit(rt: HostRuntime) {
    assert!(rt; are_so(rt.alloc(), WHOLE));
}

#[test]
fn a_call_that_is_given_up(rt: HostRuntime) {
    assert!(rt; are_so(rt.alloc(), GIVEN_UP));
}
