// What is asked again at a tick.
ghost use Rattle.std.specs.Prelude.{◌≡◌, ◌++◌, OnOk};
ghost use Rattle.arj_asking.specs.Again.{again_at};
ghost use Rattle.arj_coord.specs.Waiting.{now_in};
ghost use Rattle.arj_protocol.specs.Asking as asking;
ghost use Rattle.arj_protocol.specs.Asking.{again_now};
ghost use Rattle.arj_protocol.specs.Tree.{at_place};

use crate::requests::{questions_of, send};
use arj_coord::{Coord, Effects};
use std::alloc::{AllocError, Global};

// What the action of a number waits for is asked again.
fn ask_again(
    alloc: Global,
    coord: &mut Coord,
    number: u64,
    outs: &mut Effects,
) -> Result<(), AllocError>
    ensures part { OnOk result (coord.new ≡ (again_now coord.old (now_in (at_place number coord.old.doings))).part) }
    ensures outs { OnOk result (outs.new ≡ outs.old ++ (again_now coord.old (now_in (at_place number coord.old.doings))).outs) }
    ensures same { OnOk result (coord.new.doings ≡ coord.old.doings) }
{
    let action = coord.tree().uid(number);
    let Some(now) = coord.waits_for(action) else {
        return Ok(());
    };
    let questions = questions_of(alloc, now, coord.tree())?;
    send(coord, questions, outs)
}

// What the actions of these numbers wait for is asked again.
fn ask_each(
    alloc: Global,
    coord: &mut Coord,
    numbers: &[u64],
    outs: &mut Effects,
) -> Result<(), AllocError>
    ensures part { OnOk result (coord.new ≡ (again_at coord.old.doings numbers.now coord.old).part) }
    ensures outs { OnOk result (outs.new ≡ outs.old ++ (again_at coord.old.doings numbers.now coord.old).outs) }
{
    for number in numbers {
        ask_again(alloc, coord, *number, outs)?;
    }
    Ok(())
}

/// At a tick each request that waits is asked again, in order of the actions' beginnings. It walks what waits.
pub fn again_all(alloc: Global, coord: &mut Coord, outs: &mut Effects) -> Result<(), AllocError>
    ensures part { OnOk result (coord.new ≡ (asking.again_all coord.old.doings coord.old).part) }
    ensures outs { OnOk result (outs.new ≡ outs.old ++ (asking.again_all coord.old.doings coord.old).outs) }
{
    let numbers = coord.waiting()?;
    ask_each(alloc, coord, numbers.as_slice(), outs)
}
