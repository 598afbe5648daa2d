// A server under requests and ends, with values worked out by hand.
ghost use Rattle.std.specs.Prelude.{◌≡◌, true, IfOk, OnOk};
ghost use Rattle.arj_base.specs.declared.state.Class.TheVariants as class;
ghost use Rattle.arj_class.specs.Forms.{OpInForm, payload_of};
ghost use Rattle.arj_class.specs.Table.{has_op};
ghost use Rattle.arj_class.specs.declared.value.Value.TheVariants as value;
ghost use Rattle.arj_server.specs.Classes.{IsOfClass};

use arj_base::{
    Binding, Bytes, Class, End, Ends, Format, Mode, ObjectState, Path, Uid, object_uid,
};
use arj_class::{Answer, Counter, Op, Value};
use arj_journal::{Body, Line, Lines, Part};
use arj_msg::{
    Activate, Activated, Binds, Head, Invoke, Invoked, InvokedReply, Told, Vote, Voted, VotedReply,
    What,
};
use arj_server::{Server, classes_stay};
use std::alloc::{AllocError, Global};
use std::test::Fail;

const NODE: u8 = 3;

const INC: u32 = 4;

// The nested ends of the root 2, in order of decision.
const ENDS: [(u64, End); 3] = [(4, End::Commit), (5, End::Abort), (3, End::Abort)];

// What a server is asked: to take object 1 by the binding 1.n, to add to it, to read it, to create it at a number, to destroy
// it, to vote in an incarnation, to end an action, who holds locks.
#[derive(Clone, Copy)]
enum Ask {
    Activate(u32),
    Add(u64),
    Get,
    Create(u64),
    Destroy,
    Vote(u32),
    Told(End),
    Held,
}

// What it answers, actions by their numbers.
#[derive(Clone, Copy, PartialEq, Eq)]
enum Seen {
    Void,
    Incarnation(u32),
    Done,
    Number(u64),
    Locked(u64),
    There,
    Gone,
    State(u8, u64, u64),
    GoneState(u8, u64, u64),
    Holder(u64),
    Other,
}

// A request of the action with this path, after so many of the ends, and what it is answered.
#[derive(Clone, Copy)]
struct Step {
    path: [u64; 3],
    req: u32,
    ends: usize,
    ask: Ask,
    want: Seen,
}

fn asked(path: [u64; 3], req: u32, ends: usize, ask: Ask, want: Seen) -> Step {
    Step {
        path,
        req,
        ends,
        ask,
        want,
    }
}

// The action 2.1.n.
fn action(num: u64) -> Uid {
    Uid {
        node: 2,
        inc: 1,
        num,
    }
}

fn binding(count: u32) -> Binding {
    Binding { inc: 1, count }
}

// The path of these actions, each begun in the one before it; 0 is none.
fn head(step: &Step) -> Result<Head, AllocError> {
    let [first, second, third] = step.path;
    let mut path = Path::new(action(first));
    for num in [second, third] {
        if num != 0 {
            path = path.push(action(num), false).ok_or(AllocError)?;
        }
    }
    Ok(Head {
        path,
        req: step.req,
    })
}

fn ends(alloc: Global, step: &Step) -> Result<Ends, AllocError> {
    let mut ends = Ends::new(alloc);
    for (num, end) in ENDS.iter().take(step.ends) {
        ends.push((action(*num), *end))?;
    }
    Ok(ends)
}

fn payload(alloc: Global) -> Result<Bytes, AllocError>
    ensures { IfOk result (λ payload. payload ≡ payload_of (value.Counter 10)) }
{
    let mut payload = Bytes::new(alloc);
    payload.extend(&[0, 0, 0, 0, 0, 0, 0, 10])?;
    Ok(payload)
}

// The four calls, under which object 1 stays a counter.

fn take(server: &mut Server, m: &Activate, out: &mut Lines) -> Result<Option<Activated>, AllocError>
    requires object { m.now.state.uid.num ≡ 1 }
    requires counter { m.now.state.class ≡ class.Counter }
    requires payload { m.now.state.payload ≡ payload_of (value.Counter 10) }
    requires class { IsOfClass 1 class.Counter server.old }
    ensures { OnOk result (IsOfClass 1 class.Counter server.new) }
{
    classes_stay();
    server.activate(NODE, m, out)
}

fn operate(server: &mut Server, m: &Invoke, out: &mut Lines) -> Result<Option<Invoked>, AllocError>
    requires object { m.now.x ≡ 1 }
    requires form { OpInForm m.now.op }
    requires has_op { has_op class.Counter m.now.op ≡ true }
    requires class { IsOfClass 1 class.Counter server.old }
    ensures { OnOk result (IsOfClass 1 class.Counter server.new) }
{
    classes_stay();
    server.invoke(NODE, m, out)
}

fn poll(server: &mut Server, m: &Vote, out: &mut Lines) -> Result<Option<Voted>, AllocError>
    requires { IsOfClass 1 class.Counter server.old }
    ensures { OnOk result (IsOfClass 1 class.Counter server.new) }
{
    classes_stay();
    server.vote(NODE, m, out)
}

fn hear(server: &mut Server, m: &Told, out: &mut Lines) -> Result<(), AllocError>
    requires { IsOfClass 1 class.Counter server.old }
    ensures { OnOk result (IsOfClass 1 class.Counter server.new) }
{
    classes_stay();
    server.told(NODE, m, out)
}

// Object 1 as a counter of 10, in version 7.
fn activate(
    alloc: Global,
    server: &mut Server,
    step: &Step,
    count: u32,
    out: &mut Lines,
) -> Result<Seen, AllocError>
    requires { IsOfClass 1 class.Counter server.old }
    ensures { OnOk result (IsOfClass 1 class.Counter server.new) }
{
    let head = head(step)?;
    let payload = payload(alloc)?;
    let m = Activate {
        head,
        binding: binding(count),
        state: ObjectState {
            uid: object_uid(1),
            class: Class::Counter,
            version: 7,
            writer: action(9),
            payload,
            format: Format::Two,
        },
    };
    Ok(match take(server, &m, out)? {
        Some(answer) => Seen::Incarnation(answer.server_inc),
        None => Seen::Void,
    })
}

fn invoke(
    alloc: Global,
    server: &mut Server,
    step: &Step,
    op: Op,
    out: &mut Lines,
) -> Result<Seen, AllocError>
    requires form { OpInForm op }
    requires has_op { has_op class.Counter op ≡ true }
    requires class { IsOfClass 1 class.Counter server.old }
    ensures { OnOk result (IsOfClass 1 class.Counter server.new) }
{
    let head = head(step)?;
    let ends = ends(alloc, step)?;
    let m = Invoke {
        head,
        x: 1,
        binding: binding(2),
        server_inc: INC,
        ends,
        op,
    };
    let answer = operate(server, &m, out)?;
    Ok(invoked(&answer))
}

// An answer to an Invoke, which is looked at only.
fn invoked(answer: &Option<Invoked>) -> Seen {
    let Some(answer) = answer else {
        return Seen::Void;
    };
    match &answer.reply {
        InvokedReply::Answered(Answer::Done) => Seen::Done,
        InvokedReply::Answered(Answer::Number(number)) => Seen::Number(*number),
        InvokedReply::Answered(Answer::There) => Seen::There,
        InvokedReply::Answered(Answer::Gone) => Seen::Gone,
        InvokedReply::Conflict { holder, .. } => Seen::Locked(holder.num),
        _ => Seen::Other,
    }
}

// The state of a yes is told by the last byte of its payload, which is a gone object's class, its version and its writer.
fn vote(
    alloc: Global,
    server: &mut Server,
    step: &Step,
    inc: u32,
    out: &mut Lines,
) -> Result<Seen, AllocError>
    requires { IsOfClass 1 class.Counter server.old }
    ensures { OnOk result (IsOfClass 1 class.Counter server.new) }
{
    let mut objects = Binds::new(alloc);
    objects.push((1, binding(2)))?;
    let ends = ends(alloc, step)?;
    let m = Vote {
        head: head(step)?,
        server_inc: inc,
        objects,
        ends,
    };
    let answer = poll(server, &m, out)?;
    Ok(voted(&answer))
}

// An answer to a Vote, which is looked at only.
fn voted(answer: &Option<Voted>) -> Seen {
    let Some(answer) = answer else {
        return Seen::Void;
    };
    match &answer.reply {
        VotedReply::Yes(states) => state_of(states.as_slice()),
        VotedReply::Changed(What::Inc { now, .. }) => Seen::Incarnation(*now),
        VotedReply::Changed(_) => Seen::Other,
    }
}

fn state_of(states: &[ObjectState]) -> Seen {
    let [state] = states else {
        return Seen::Other;
    };
    let (version, writer) = (state.version, state.writer.num);
    match (state.class, state.payload.as_slice()) {
        (Class::Counter, [.., last]) => Seen::State(*last, version, writer),
        (Class::Gone, [.., last]) => Seen::GoneState(*last, version, writer),
        _ => Seen::Other,
    }
}

fn tell(
    alloc: Global,
    server: &mut Server,
    step: &Step,
    end: End,
    out: &mut Lines,
) -> Result<Seen, AllocError>
    requires { IsOfClass 1 class.Counter server.old }
    ensures { OnOk result (IsOfClass 1 class.Counter server.new) }
{
    let [root, ..] = step.path;
    let mut ends = Ends::new(alloc);
    ends.push((action(root), end))?;
    let m = Told {
        root: action(root),
        ack: false,
        ends,
    };
    hear(server, &m, out)?;
    Ok(Seen::Done)
}

// The first of those who hold locks.
fn held(alloc: Global, server: &Server) -> Result<Seen, AllocError> {
    Ok(match server.held(alloc)?.as_slice() {
        [first, ..] => Seen::Holder(first.num),
        [] => Seen::Void,
    })
}

fn play(
    alloc: Global,
    server: &mut Server,
    step: &Step,
    out: &mut Lines,
) -> Result<Seen, AllocError>
    requires { IsOfClass 1 class.Counter server.old }
    ensures { OnOk result (IsOfClass 1 class.Counter server.new) }
{
    match step.ask {
        Ask::Activate(count) => activate(alloc, server, step, count, out),
        Ask::Add(n) => invoke(alloc, server, step, Op::Add(n), out),
        Ask::Get => invoke(alloc, server, step, Op::Get, out),
        Ask::Create(n) => {
            let value = Value::Counter(Counter::new(n));
            invoke(alloc, server, step, Op::Create(value), out)
        }
        Ask::Destroy => invoke(alloc, server, step, Op::Destroy, out),
        Ask::Vote(inc) => vote(alloc, server, step, inc, out),
        Ask::Told(end) => tell(alloc, server, step, end, out),
        Ask::Held => held(alloc, server),
    }
}

// A line in short: 0 for a copy that was taken, n for a lock that action n was granted in mode write, 20 + n in read,
// 40 + n for a commit of n and 60 + n for an abort.
fn short(body: &Body) -> u64 {
    match body {
        Body::Active {
            node: NODE,
            x: 1,
            ..
        } => 0,
        Body::Granted {
            node: NODE,
            action,
            mode: Mode::Write,
            ..
        } => action.num,
        Body::Granted {
            node: NODE,
            action,
            ..
        } => action.num.saturating_add(20),
        Body::Told {
            node: NODE,
            action,
            end: End::Commit,
            part: Part::Server,
        } => action.num.saturating_add(40),
        Body::Told {
            node: NODE,
            action,
            part: Part::Server,
            ..
        } => action.num.saturating_add(60),
        _ => 99,
    }
}

// Whether the lines are these in short.
fn are_lines(lines: &[Line], want: &[u64]) -> bool {
    if lines.len() != want.len() {
        return false;
    }
    for (line, one) in lines.iter().zip(want) {
        if short(&line.body) != *one {
            return false;
        }
    }
    true
}

// Whether each step is answered so, with these lines in short.
fn is_played_so(alloc: Global, steps: &[Step], want: &[u64]) -> Result<bool, AllocError> {
    classes_stay();
    let mut server = Server::new(alloc, INC);
    let mut out = Lines::new(alloc);
    for step in steps {
        if play(alloc, &mut server, step, &mut out)? != step.want {
            return Ok(false);
        }
    }
    Ok(are_lines(out.as_slice(), want))
}

#[test]
fn a_repeat_has_one_effect_and_the_same_answer(rt: HostRuntime) -> Result<(), Fail> {
    let steps = [
        asked([1, 0, 0], 1, 0, Ask::Activate(2), Seen::Incarnation(INC)),
        asked([1, 0, 0], 1, 0, Ask::Activate(2), Seen::Incarnation(INC)),
        asked([1, 0, 0], 1, 0, Ask::Activate(1), Seen::Void),
        asked([2, 0, 0], 5, 0, Ask::Add(7), Seen::Done),
        asked([2, 0, 0], 5, 0, Ask::Add(7), Seen::Done),
        asked([2, 0, 0], 4, 0, Ask::Add(7), Seen::Void),
        asked([2, 0, 0], 6, 0, Ask::Get, Seen::Number(17)),
        asked([6, 0, 0], 1, 0, Ask::Add(1), Seen::Locked(2)),
        asked([2, 0, 0], 0, 0, Ask::Told(End::Abort), Seen::Done),
        asked([6, 0, 0], 1, 0, Ask::Add(1), Seen::Locked(2)),
        asked([2, 0, 0], 7, 0, Ask::Add(7), Seen::Void),
        asked([6, 0, 0], 2, 0, Ask::Get, Seen::Number(10)),
    ];
    assert!(rt; is_played_so(rt.alloc(), &steps, &[0, 2, 62, 26])?);
    Ok(())
}

#[test]
fn three_deep_with_ends_between(rt: HostRuntime) -> Result<(), Fail> {
    let steps = [
        asked([1, 0, 0], 1, 0, Ask::Activate(2), Seen::Incarnation(INC)),
        asked([2, 0, 0], 1, 0, Ask::Add(1), Seen::Done),
        asked([2, 3, 4], 1, 0, Ask::Add(5), Seen::Done),
        asked([2, 3, 5], 1, 1, Ask::Add(100), Seen::Done),
        asked([2, 3, 5], 2, 1, Ask::Get, Seen::Number(116)),
        asked([2, 3, 0], 1, 2, Ask::Add(2), Seen::Done),
        asked([2, 3, 0], 2, 2, Ask::Get, Seen::Number(18)),
        asked([2, 0, 0], 2, 3, Ask::Vote(INC), Seen::State(11, 8, 2)),
        asked([2, 0, 0], 0, 0, Ask::Told(End::Commit), Seen::Done),
        asked([6, 0, 0], 1, 0, Ask::Get, Seen::Number(11)),
    ];
    assert!(rt; is_played_so(rt.alloc(), &steps, &[0, 2, 4, 44, 5, 65, 63, 42, 26])?);
    Ok(())
}

#[test]
fn a_commit_without_a_vote_is_an_abort(rt: HostRuntime) -> Result<(), Fail> {
    let steps = [
        asked([1, 0, 0], 1, 0, Ask::Activate(2), Seen::Incarnation(INC)),
        asked([2, 0, 0], 1, 0, Ask::Add(1), Seen::Done),
        asked([2, 0, 0], 2, 0, Ask::Vote(3), Seen::Incarnation(INC)),
        asked([2, 0, 0], 2, 0, Ask::Held, Seen::Holder(2)),
        asked([2, 0, 0], 0, 0, Ask::Told(End::Commit), Seen::Done),
        asked([2, 0, 0], 2, 0, Ask::Held, Seen::Void),
        asked([6, 0, 0], 1, 0, Ask::Get, Seen::Number(10)),
    ];
    assert!(rt; is_played_so(rt.alloc(), &steps, &[0, 2, 62, 26])?);
    Ok(())
}

#[test]
fn an_object_comes_and_goes(rt: HostRuntime) -> Result<(), Fail> {
    let steps = [
        asked([1, 0, 0], 1, 0, Ask::Activate(2), Seen::Incarnation(INC)),
        asked([2, 0, 0], 1, 0, Ask::Create(7), Seen::There),
        asked([2, 0, 0], 2, 0, Ask::Destroy, Seen::Done),
        asked([2, 0, 0], 3, 0, Ask::Get, Seen::Gone),
        asked([2, 0, 0], 3, 0, Ask::Get, Seen::Gone),
        asked([2, 3, 0], 1, 0, Ask::Create(7), Seen::Done),
        asked([2, 3, 0], 2, 0, Ask::Get, Seen::Number(7)),
        asked([2, 3, 0], 3, 0, Ask::Create(8), Seen::There),
        asked([2, 3, 0], 3, 0, Ask::Create(8), Seen::There),
        asked([2, 0, 0], 4, 3, Ask::Get, Seen::Gone),
        asked([2, 0, 0], 5, 3, Ask::Vote(INC), Seen::GoneState(1, 8, 2)),
        asked([2, 0, 0], 0, 0, Ask::Told(End::Commit), Seen::Done),
        asked([6, 0, 0], 1, 0, Ask::Get, Seen::Gone),
        asked([6, 0, 0], 2, 0, Ask::Create(9), Seen::Done),
        asked([6, 0, 0], 3, 0, Ask::Vote(INC), Seen::State(9, 9, 6)),
    ];
    assert!(rt; is_played_so(rt.alloc(), &steps, &[0, 2, 3, 63, 42, 26, 6])?);
    Ok(())
}
