// An object under nested actions, with values worked out by hand.
ghost use Rattle.arj_class.specs.Forms.{OpInForm};

use arj_base::{Binding, Bytes, Class, Format, Mode, ObjectState, Path, Uid, object_uid};
use arj_class::{Account, Answer, Counter, Op, Value};
use arj_manager::{ManagerFault, Ran, StateManager};
use std::alloc::{AllocError, Global};
use std::test::Fail;

const BINDING: Binding = Binding { inc: 1, count: 1 };

// The action 1.1.n.
fn action(num: u64) -> Uid {
    Uid {
        node: 1,
        inc: 1,
        num,
    }
}

// The state of object x as a counter of this value, in version 7.
fn counter(alloc: Global, x: u16, value: u8) -> Result<ObjectState, AllocError> {
    let mut payload = Bytes::new(alloc);
    payload.extend(&[0, 0, 0, 0, 0, 0, 0, value])?;
    Ok(ObjectState {
        uid: object_uid(x),
        class: Class::Counter,
        version: 7,
        writer: action(1),
        payload,
        format: Format::Two,
    })
}

// A manager with object 1 at 10 and object 2 at 20.
fn two_counters(alloc: Global) -> Result<StateManager, ManagerFault> {
    let mut manager = StateManager::new(alloc);
    manager.activate(alloc, 1, BINDING, &counter(alloc, 1, 10)?)?;
    manager.activate(alloc, 2, BINDING, &counter(alloc, 2, 20)?)?;
    Ok(manager)
}

// The path of an action: 2 and 6 are tops, 3 stands in 2, and 4 and 5 in 3.
fn path(num: u64) -> Option<Path> {
    if num == 2 || num == 6 {
        return Some(Path::new(action(num)));
    }
    let child = Path::new(action(2)).push(action(3), false)?;
    if num == 3 {
        return Some(child);
    }
    child.push(action(num), false)
}

// What the action with this number does with object 1.
#[derive(Clone, Copy)]
enum Step {
    Add(u64),
    Commit,
    Abort,
}

// A lock in mode write was granted, or the top 2 has one that conflicts, or neither is so.
#[derive(Clone, Copy, PartialEq, Eq)]
enum Outcome {
    Granted,
    Locked,
    Nothing,
    Other,
}

// What came of it, which is looked at only.
fn outcome_of(ran: &Result<Option<Ran>, ManagerFault>) -> Outcome {
    match ran {
        Ok(Some(ran)) => match ran.granted {
            Some(Mode::Write) => Outcome::Granted,
            Some(_) => Outcome::Other,
            None => Outcome::Nothing,
        },
        Err(
            ManagerFault::Conflict {
                holder,
                mode: Mode::Write,
            },
        ) => {
            if *holder == action(2) {
                Outcome::Locked
            } else {
                Outcome::Other
            }
        }
        _ => Outcome::Other,
    }
}

// Adds to object 1.
fn add(manager: &mut StateManager, num: u64, n: u64) -> Outcome {
    let Some(path) = path(num) else {
        return Outcome::Other;
    };
    outcome_of(&manager.invoke(1, &path, &Op::Add(n)))
}

fn done(manager: &mut StateManager, num: u64, step: Step) -> Outcome {
    match step {
        Step::Add(n) => return add(manager, num, n),
        Step::Commit => manager.commit(action(num)),
        Step::Abort => manager.abort(action(num)),
    }
    Outcome::Nothing
}

// The number that an object has in place.
fn number(manager: &StateManager, x: u16) -> Option<u64> {
    match manager.copy(x)?.current() {
        Value::Counter(counter) => Some(counter.number()),
        _ => None,
    }
}

// What the action with this number does with object 3, a counter that is gone at first.
#[derive(Clone, Copy)]
enum Deed {
    Get,
    Create(u64),
    CreateAccount,
    Destroy,
    Commit,
    Abort,
}

// What it is answered.
#[derive(Clone, Copy, PartialEq, Eq)]
enum Reply {
    Number(u64),
    Done,
    There,
    Gone,
    WrongOp,
    Ended,
    Other,
}

fn reply_of(done: &Result<Option<Ran>, ManagerFault>) -> Reply {
    match done {
        Ok(Some(ran)) => match &ran.answer {
            Answer::Number(number) => Reply::Number(*number),
            Answer::Done => Reply::Done,
            Answer::There => Reply::There,
            Answer::Gone => Reply::Gone,
            _ => Reply::Other,
        },
        Err(ManagerFault::WrongOp) => Reply::WrongOp,
        _ => Reply::Other,
    }
}

fn operate(manager: &mut StateManager, num: u64, op: &Op) -> Option<Reply>
    requires { OpInForm op.now }
{
    let path = path(num)?;
    Some(reply_of(&manager.invoke(3, &path, op)))
}

fn create(manager: &mut StateManager, num: u64, value: Value) -> Option<Reply> {
    let op = Op::Create(value);
    if !op.is_in_form() {
        return None;
    }
    operate(manager, num, &op)
}

fn act(manager: &mut StateManager, num: u64, deed: Deed) -> Option<Reply> {
    match deed {
        Deed::Get => return operate(manager, num, &Op::Get),
        Deed::Create(n) => return create(manager, num, Value::Counter(Counter::new(n))),
        Deed::CreateAccount => return create(manager, num, Value::Account(Account::new(1))),
        Deed::Destroy => return operate(manager, num, &Op::Destroy),
        Deed::Commit => manager.commit(action(num)),
        Deed::Abort => manager.abort(action(num)),
    }
    Some(Reply::Ended)
}

// The state of object 3 as a counter that is gone, in version 7.
fn gone_counter(alloc: Global) -> Result<ObjectState, AllocError> {
    let mut state = counter(alloc, 3, 0)?;
    state.class = Class::Gone;
    state.payload = Bytes::new(alloc);
    state.payload.extend(&[1])?;
    Ok(state)
}

// Who does what, what comes of it, and the number then in place.
const STEPS: [(u64, Step, Outcome, u64); 11] = [
    (2, Step::Add(1), Outcome::Granted, 11),
    (4, Step::Add(5), Outcome::Granted, 16),
    (4, Step::Commit, Outcome::Nothing, 16),
    (5, Step::Add(100), Outcome::Granted, 116),
    (5, Step::Abort, Outcome::Nothing, 16),
    (3, Step::Add(2), Outcome::Nothing, 18),
    (3, Step::Abort, Outcome::Nothing, 11),
    (6, Step::Add(1), Outcome::Locked, 11),
    (2, Step::Commit, Outcome::Nothing, 11),
    (6, Step::Add(1), Outcome::Granted, 12),
    (6, Step::Abort, Outcome::Nothing, 11),
];

// Whether object x has this number in place, or none.
fn has_number(manager: &StateManager, x: u16, want: Option<u64>) -> bool {
    number(manager, x) == want
}

fn steps_are_right(manager: &mut StateManager) -> bool {
    for (num, step, want, then) in STEPS {
        if done(manager, num, step) != want || !has_number(manager, 1, Some(then)) {
            return false;
        }
    }
    true
}

#[test]
fn nested_actions_on_one_object(rt: HostRuntime) -> Result<(), Fail> {
    let Ok(mut manager) = two_counters(rt.alloc()) else {
        return Err(Fail::new("not active"));
    };
    assert!(rt; steps_are_right(&mut manager));
    Ok(())
}

// Whether this state alone is written, in this version by this top.
fn is_written(states: &[ObjectState], want: &ObjectState, version: u64, top: Uid) -> bool {
    let [state] = states else {
        return false;
    };
    if state.uid != want.uid || state.class != want.class {
        return false;
    }
    if state.version != version || state.writer != top {
        return false;
    }
    state.payload.as_slice() == want.payload.as_slice()
}

// Whether the action votes so.
fn votes_so(
    alloc: Global,
    manager: &StateManager,
    top: Uid,
    want: &ObjectState,
    version: u64,
) -> Result<bool, AllocError> {
    let states = manager.changed_states(alloc, top)?;
    Ok(is_written(states.as_slice(), want, version, top))
}

// Whether this action alone holds locks.
fn is_holder(alloc: Global, manager: &StateManager, top: Uid) -> Result<bool, AllocError> {
    Ok(
        manager.held(alloc)?.as_slice() == [top].as_slice()
            && manager.is_top(top)
            && manager.holds(top),
    )
}

#[test]
fn a_top_votes_and_ends(rt: HostRuntime) -> Result<(), Fail> {
    let alloc = rt.alloc();
    let want = counter(alloc, 1, 15)?;
    let Ok(mut manager) = two_counters(alloc) else {
        return Err(Fail::new("not active"));
    };
    done(&mut manager, 2, Step::Add(5));
    assert!(rt; votes_so(alloc, &manager, action(2), &want, 8)?);
    assert!(rt; is_holder(alloc, &manager, action(2))?);
    manager.commit(action(2));
    assert!(rt; !manager.is_top(action(2)) && !manager.holds(action(2)));
    Ok(())
}

// Whether an operation that the class lacks is refused, and one on an object that isn't there is answered by none.
fn faults_are_told(manager: &mut StateManager) -> bool {
    let top = Path::new(action(2));
    let wrong = manager.invoke(1, &top, &Op::Pop);
    let none = manager.invoke(3, &top, &Op::Get);
    matches!(&wrong, Err(ManagerFault::WrongOp)) && matches!(&none, Ok(None))
}

// Whether a payload that is none of a counter is refused.
fn payloads_are_tested(alloc: Global, manager: &mut StateManager) -> Result<bool, AllocError> {
    let mut short = counter(alloc, 3, 1)?;
    short.payload = Bytes::new(alloc);
    let refused = manager.activate(alloc, 3, BINDING, &short);
    Ok(matches!(&refused, Err(ManagerFault::Payload)))
}

// Whether object 1 is activated again, at 30. Its locks go.
fn comes_again(alloc: Global, manager: &mut StateManager) -> Result<bool, AllocError> {
    done(manager, 2, Step::Add(1));
    let again = manager.activate(alloc, 1, BINDING, &counter(alloc, 1, 30)?);
    Ok(again.is_ok() && !manager.holds(action(2)) && has_number(manager, 1, Some(30)))
}

#[test]
fn faults_and_copies_that_go(rt: HostRuntime) -> Result<(), Fail> {
    let alloc = rt.alloc();
    let Ok(mut manager) = two_counters(alloc) else {
        return Err(Fail::new("not active"));
    };
    assert!(rt; faults_are_told(&mut manager));
    assert!(rt; payloads_are_tested(alloc, &mut manager)?);
    assert!(rt; comes_again(alloc, &mut manager)?);
    manager.deactivate(1);
    assert!(rt; has_number(&manager, 1, None) && has_number(&manager, 2, Some(20)));
    Ok(())
}

// Who does what with object 3, what is answered, and the number then in place, none where the object is gone.
const DEEDS: [(u64, Deed, Reply, Option<u64>); 12] = [
    (2, Deed::Get, Reply::Gone, None),
    (2, Deed::CreateAccount, Reply::WrongOp, None),
    (2, Deed::Create(7), Reply::Done, Some(7)),
    (3, Deed::Destroy, Reply::Done, None),
    (3, Deed::Destroy, Reply::Gone, None),
    (3, Deed::Abort, Reply::Ended, Some(7)),
    (2, Deed::Create(9), Reply::There, Some(7)),
    (2, Deed::CreateAccount, Reply::WrongOp, Some(7)),
    (2, Deed::Get, Reply::Number(7), Some(7)),
    (2, Deed::Commit, Reply::Ended, Some(7)),
    (6, Deed::Destroy, Reply::Done, None),
    (6, Deed::Get, Reply::Gone, None),
];

fn deeds_are_right(manager: &mut StateManager) -> bool {
    for (num, deed, want, then) in DEEDS {
        if act(manager, num, deed) != Some(want) || !has_number(manager, 3, then) {
            return false;
        }
    }
    true
}

#[test]
fn an_object_comes_and_goes(rt: HostRuntime) -> Result<(), Fail> {
    let alloc = rt.alloc();
    let gone = gone_counter(alloc)?;
    let mut manager = StateManager::new(alloc);
    assert!(rt; manager.activate(alloc, 3, BINDING, &gone).is_ok());
    assert!(rt; deeds_are_right(&mut manager));
    assert!(rt; votes_so(alloc, &manager, action(6), &gone, 9)?);
    Ok(())
}
