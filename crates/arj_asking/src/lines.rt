// Lines about an action, by its label.
ghost use Rattle.std.specs.Prelude.{◌≡◌, ◌++◌, IfOk, OnOk};
ghost use Rattle.arj_bind.specs.Shown.{end_of, goal_of};
ghost use Rattle.arj_journal.specs.declared.body.Body.TheVariants as body;
ghost use Rattle.arj_protocol.specs.Asking as asking;
ghost use Rattle.arj_protocol.specs.Asking.{answer_line, end_line, gaveup_lines, mark_lines};
ghost use Rattle.arj_protocol.specs.Ending.{says};

use arj_base::Uid;
use arj_bind::{CallEnd, Goal};
use arj_class::Answer;
use arj_commit::differs;
use arj_coord::{Coord, Effects};
use arj_journal::{Body, Label};
use arj_text::answer_text;
use std::alloc::{AllocError, Global};

/// The line of a commit that is called.
pub fn say_committing(coord: &Coord, action: Uid, outs: &mut Effects) -> Result<(), AllocError>
    ensures { OnOk result (outs.new ≡ outs.old ++ says action body.Committing coord.now) }
{
    match coord.label(action) {
        Some(label) => outs.say(Body::Committing { label }),
        None => Ok(()),
    }
}

// The line of an exclusion.
fn say_mark(
    coord: &Coord,
    action: Uid,
    x: u16,
    node: u8,
    outs: &mut Effects,
) -> Result<(), AllocError>
    ensures { OnOk result (outs.new ≡ outs.old ++ says action (λ l. body.Excluded l x node) coord.now) }
{
    match coord.label(action) {
        Some(label) => outs.say(Body::Excluded { label, x, node }),
        None => Ok(()),
    }
}

/// The lines of the exclusions that a commit sets out to make.
pub fn say_marks(
    coord: &Coord,
    action: Uid,
    marks: &[(u16, u8)],
    outs: &mut Effects,
) -> Result<(), AllocError>
    ensures { OnOk result (outs.new ≡ outs.old ++ mark_lines action marks.now coord.now) }
{
    for (x, node) in marks {
        say_mark(coord, action, *x, *node, outs)?;
    }
    Ok(())
}

// The line of a node that is given up.
fn say_gave_up(coord: &Coord, action: Uid, node: u8, outs: &mut Effects) -> Result<(), AllocError>
    ensures { OnOk result (outs.new ≡ outs.old ++ says action (λ l. body.GaveUp l node) coord.now) }
{
    match coord.label(action) {
        Some(label) => outs.say(Body::GaveUp { label, node }),
        None => Ok(()),
    }
}

/// The lines of nodes that are given up.
pub fn say_all_gave_up(
    coord: &Coord,
    action: Uid,
    nodes: &[u8],
    outs: &mut Effects,
) -> Result<(), AllocError>
    ensures { OnOk result (outs.new ≡ outs.old ++ gaveup_lines action nodes.now coord.now) }
{
    for node in nodes {
        say_gave_up(coord, action, *node, outs)?;
    }
    Ok(())
}

// The line of an operation that was answered. An include is never answered so.
fn answer_line(
    alloc: Global,
    x: u16,
    goal: Goal,
    answer: &Answer,
    label: Label,
) -> Result<Body, AllocError>
    ensures { IfOk result (λ line. line ≡ answer_line x (goal_of goal) answer.now label) }
{
    match goal {
        Goal::Call(op) => {
            let answer = answer_text(alloc, answer)?;
            Ok(Body::Ok {
                label,
                x,
                op,
                answer,
            })
        }
        Goal::Include(node) => Ok(Body::Includes { label, x, node }),
    }
}

/// The store of an include; a call has none.
pub fn store_of(goal: &Goal) -> u8
    ensures { result ≡ asking.store_of (goal_of goal.now) }
{
    match goal {
        Goal::Call(_) => 0,
        Goal::Include(node) => *node,
    }
}

// The line of a call's or an include's end.
fn end_line(
    alloc: Global,
    x: u16,
    goal: Goal,
    end: &CallEnd,
    label: Label,
) -> Result<Body, AllocError>
    ensures { IfOk result (λ line. line ≡ end_line x (goal_of goal) (end_of end.now) label) }
{
    match end {
        CallEnd::Answered(answer) => answer_line(alloc, x, goal, answer, label),
        CallEnd::Included(_) => Ok(Body::Includes {
            label,
            x,
            node: store_of(&goal),
        }),
        CallEnd::Conflict { holder, mode, node } => Ok(Body::Conflict {
            label,
            holder: *holder,
            mode: *mode,
            node: *node,
        }),
        CallEnd::Changed { node, what } => Ok(Body::Changed {
            label,
            node: *node,
            difference: differs(*what),
        }),
        CallEnd::Lost { node, .. } => Ok(Body::Lost { label, node: *node }),
    }
}

/// The line of the end of an action's call of an object, or of its include.
pub fn say_end(
    alloc: Global,
    coord: &Coord,
    action: Uid,
    x: u16,
    goal: Goal,
    end: &CallEnd,
    outs: &mut Effects,
) -> Result<(), AllocError>
    ensures { OnOk result (outs.new ≡ outs.old ++ says action (end_line x (goal_of goal) (end_of end.now)) coord.now) }
{
    match coord.label(action) {
        Some(label) => outs.say(end_line(alloc, x, goal, end, label)?),
        None => Ok(()),
    }
}
