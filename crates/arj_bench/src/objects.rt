// A server's active objects, worked by nested actions.
ghost use Rattle.std.specs.Prelude.{◌<◌};

use arj_base::{Binding, Bytes, Class, Format, ObjectState, Path, Uid, object_uid};
use arj_class::{Op, Value};
use arj_manager::StateManager;
use std::alloc::{AllocError, Global};

const BINDING: Binding = Binding { inc: 1, count: 1 };

// Of so many tops one aborts.
const ABORTS: u32 = 4;

fn action(num: u64) -> Uid {
    Uid {
        node: 1,
        inc: 3,
        num,
    }
}

// An object as a counter at 0.
fn zero(alloc: Global, x: u16) -> Result<ObjectState, AllocError> {
    let mut payload = Bytes::new(alloc);
    payload.extend(&[0, 0, 0, 0, 0, 0, 0, 0])?;
    Ok(ObjectState {
        uid: object_uid(x),
        class: Class::Counter,
        version: 1,
        writer: action(0),
        payload,
        format: Format::Two,
    })
}

/// A manager in which each object from 1 to `objects` is a counter at 0.
pub fn fill(alloc: Global, objects: u16) -> Result<StateManager, AllocError> {
    let mut manager = StateManager::new(alloc);
    for x in 1..=objects {
        let state = zero(alloc, x)?;
        manager
            .activate(alloc, x, BINDING, &state)
            .or(Err(AllocError))?;
    }
    Ok(manager)
}

// A top adds 1, and an action in it 2, which commits; then the top votes. How many states it made.
fn work(
    alloc: Global,
    manager: &mut StateManager,
    x: u16,
    top: &Path,
    child: &Path,
) -> Result<usize, AllocError> {
    manager.invoke(x, top, &Op::Add(1)).or(Err(AllocError))?;
    manager.invoke(x, child, &Op::Add(2)).or(Err(AllocError))?;
    manager.commit(child.last());
    let states = manager.changed_states(alloc, top.last())?;
    Ok(states.as_slice().len())
}

// The number that a counter has in place.
fn number(manager: &StateManager, x: u16) -> u64 {
    match manager.copy(x) {
        Some(object) => match object.current() {
            Value::Counter(counter) => counter.number(),
            _ => 0,
        },
        None => 0,
    }
}

/// So many tops, one after another and by turns on all objects; one of four aborts, and the others commit. How many
/// states they made.
pub fn work_all(
    alloc: Global,
    manager: &mut StateManager,
    objects: u16,
    tops: u32,
) -> Result<u64, AllocError>
    requires { 0 < objects }
{
    let mut states: u64 = 0;
    for k in 0..tops {
        let turn = k % u32::from(objects) + 1;
        let top = Path::new(action(u64::from(k) * 2 + 1));
        let Some(child) = top.push(action(u64::from(k) * 2 + 2), false) else {
            return Err(AllocError);
        };
        let made = work(alloc, manager, turn as u16, &top, &child)?;
        states = states.saturating_add(made as u64);
        if k % ABORTS == 0 {
            manager.abort(top.last());
        } else {
            manager.commit(top.last());
        }
    }
    Ok(states)
}

/// The sum of all objects.
pub fn sum(manager: &StateManager, objects: u16) -> u64 {
    let mut sum: u64 = 0;
    for x in 1..=objects {
        sum = sum.saturating_add(number(manager, x));
    }
    sum
}
