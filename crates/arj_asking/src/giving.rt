// Giveups.
ghost use Rattle.std.specs.Prelude.{◌≡◌, ◌++◌, ◌∷◌, [], OnOk};
ghost use Rattle.arj_asking.specs.Calls.{HasNext};
ghost use Rattle.arj_asking.specs.Rooms.{HasRoom};
ghost use Rattle.arj_coord.specs.Fits.{IncludesNode};
ghost use Rattle.arj_coord.specs.Waiting.{idle_doing};
ghost use Rattle.arj_protocol.specs.Ask.{actor};
ghost use Rattle.arj_protocol.specs.Asking as asking;
ghost use Rattle.arj_protocol.specs.Asking.{gaveup_lines, give_up_call};
ghost use Rattle.arj_protocol.specs.Call.{next_node};
ghost use Rattle.arj_protocol.specs.Coord as coordinator;
ghost use Rattle.arj_protocol.specs.Coord.{on_doing};
ghost use Rattle.arj_protocol.specs.Step.{waits};
ghost use Rattle.arj_protocol.specs.Tree.{root_of};

use crate::calls::{caller_of, step_call};
use crate::commits::give_up_commit;
use crate::lines::say_all_gave_up;
use arj_base::Uid;
use arj_bind::CallSteps;
use arj_coord::{Coord, Effects, Now, Records};
use std::alloc::{AllocError, Global};

// Whether an action waits.
fn is_waiting(coord: &Coord, action: Uid) -> bool
    ensures { result ≡ waits coord.now action }
{
    match coord.waits_for(action) {
        Some(Now::Calling(_)) | Some(Now::Committing(_)) => true,
        _ => false,
    }
}

// A call is given up; its action was taken to wait for nothing.
#[tactic(auto, using(std::proofs::lemmas::List::append_assoc))]
fn give_up_call(
    alloc: Global,
    coord: &mut Coord,
    steps: CallSteps,
    outs: &mut Effects,
) -> Result<(), AllocError>
    requires node { IncludesNode steps.goal }
    requires room { HasNext steps }
    ensures part { OnOk result ((c : coordinator.Coord) → coord.old ≡ on_doing (actor steps.path) idle_doing c → coord.new ≡ (give_up_call steps c).part) }
    ensures outs { OnOk result ((c : coordinator.Coord) → coord.old ≡ on_doing (actor steps.path) idle_doing c → outs.new ≡ outs.old ++ (gaveup_lines (actor steps.path) (next_node steps ∷ []) c ++ (give_up_call steps c).outs)) }
{
    say_all_gave_up(coord, steps.path().last(), &[steps.node()], outs)?;
    let goal = steps.goal().copy(alloc)?;
    let mut caller = caller_of(&steps, goal);
    let step = coord.gave_up(steps)?;
    step_call(alloc, coord, &mut caller, step, outs)
}

/// What an action waits for is given up; nothing happens where it waits for nothing. `intents` are the records on the
/// disk.
pub fn give_up(
    alloc: Global,
    coord: &mut Coord,
    action: Uid,
    intents: &Records,
    outs: &mut Effects,
) -> Result<(), AllocError>
    requires { HasRoom action coord.old }
    ensures part { OnOk result (coord.new ≡ (asking.give_up action intents.now coord.old).part) }
    ensures outs { OnOk result (outs.new ≡ outs.old ++ (asking.give_up action intents.now coord.old).outs) }
{
    if !is_waiting(coord, action) {
        return Ok(());
    }
    coord.fits(action);
    match coord.take(action) {
        Now::Idle => Ok(()),
        Now::Calling(steps) => give_up_call(alloc, coord, steps, outs),
        Now::Committing(commit) => give_up_commit(alloc, coord, commit, intents, outs),
    }
}
