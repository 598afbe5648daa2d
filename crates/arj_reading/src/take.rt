// One line more is read.
ghost use Rattle.std.specs.Prelude.{◌≡◌, ◌≢◌, ◌+◌, ℕ, List, [], ◌∷◌, ◌++◌, Option, Some, None, length, OnOk, is_some, if◌then◌else◌};
ghost use Rattle.std.specs.BTreeMap.{get};
ghost use Rattle.std.specs.Option.{option_map};
ghost use Rattle.std.specs.Ordering.{nat_cmp};
ghost use Rattle.arj_base.specs.Order.{uid_order};
ghost use Rattle.arj_base.specs.declared.uid.Uid.{Uid as uid_type};
ghost use Rattle.arj_journal.specs.declared.body.Line.{Line as line_type};
ghost use Rattle.arj_text.specs.declared.label.Label.{Label as label_type};
ghost use Rattle.arj_text.specs.Label.{name, label_cmp};
ghost use Rattle.arj_model.specs.Actions.{Act, acts, committed_of, ended_of, path_in, recovered_of};
ghost use Rattle.arj_start.specs.Kinds.{is_serial};
ghost use Rattle.arj_reading.specs.Readable.{called_of};
ghost use Rattle.arj_reading.specs.Reading.{HasRead, above_in, action_of, capped, found_with, known_with, labelled_with, listed_with, marked, next_of, noted, said_at};

use crate::action::{Action, Next, TopAction};
use crate::limits::PATH_ACTIONS;
use crate::lookup::{above, kept};
use crate::mark::Mark;
use crate::reading::Reading;
use arj_base::Uid;
use arj_journal::{Body, Kind, Label};
use std::alloc::AllocError;
use std::collections::BTreeMap;

// The number of the action that has answered a call.
fn said_number(reading: &Reading, body: &Body) -> Option<usize>
    ensures { (lines : List line_type) → HasRead lines reading.now → result ≡ said_at (acts lines) body.now }
{
    match body {
        Body::Ok { label, .. } => reading.labels.get(label).copied(),
        _ => None,
    }
}

// The number of the action whose commit is called.
fn called_number(reading: &Reading, body: &Body) -> Option<usize>
    ensures { (lines : List line_type) → HasRead lines reading.now → result ≡ called_of (acts lines) body.now }
{
    match body {
        Body::Committing { label } => reading.labels.get(label).copied(),
        _ => None,
    }
}

// The number of the action that is committed.
fn committed_number(reading: &Reading, body: &Body) -> Option<usize>
    ensures { (lines : List line_type) → HasRead lines reading.now → result ≡ committed_of (acts lines) body.now }
{
    match body {
        Body::Committed { label } => reading.labels.get(label).copied(),
        _ => None,
    }
}

// The number of the action that ends.
fn ended_number(reading: &Reading, body: &Body) -> Option<usize>
    ensures { (lines : List line_type) → HasRead lines reading.now → result ≡ ended_of (acts lines) body.now }
{
    match body {
        Body::Committed { label } | Body::Ended { label } | Body::Aborted { label, .. } => {
            reading.labels.get(label).copied()
        }
        _ => None,
    }
}

// The Uid whose record is found.
fn found_uid(body: &Body) -> Option<Uid>
    ensures { (us : List Act) → result ≡ recovered_of us body.now }
{
    match body {
        Body::Recovered { action, .. } => Some(*action),
        _ => None,
    }
}

// The top of an action that stands alone on its path.
fn top_alone(kind: Kind, number: usize, uid: Uid) -> Option<TopAction>
    ensures { result ≡ (if is_serial kind then None else Some (record { number = number; uid = uid })) }
{
    match kind {
        Kind::Serial => None,
        Kind::Top | Kind::Nested | Kind::Independent | Kind::Constituent => {
            Some(TopAction { number, uid })
        }
    }
}

// A count with one more, up to 17.
fn one_deeper(depth: usize) -> usize
    ensures { (n : ℕ) → depth ≡ capped n → result ≡ capped (n + 1) }
{
    if depth <= PATH_ACTIONS {
        depth + 1
    } else {
        PATH_ACTIONS + 1
    }
}

// An action that begins, alone on its path.
fn action_alone(kind: Kind, uid: Uid, number: usize) -> Action
    ensures { (a : Act) → a.id ≡ number → a.kind ≡ kind → a.uid ≡ uid → result ≡ action_of a None (a ∷ []) }
{
    Action {
        kind,
        uid,
        above: None,
        top: top_alone(kind, number, uid),
        root: number,
        depth: 1,
    }
}

// An action that begins, below another.
fn action_below(kind: Kind, uid: Uid, number: usize, above: usize, parent: Action) -> Action
    ensures { (a : Act) (b : Act) (before : Option ℕ) (p : List Act) → a.id ≡ number → a.kind ≡ kind → a.uid ≡ uid → parent ≡ action_of b before p → p ≢ []
        → result ≡ action_of a (Some above) (p ++ a ∷ []) }
{
    let top = match parent.top {
        None => Some(TopAction { number, uid }),
        Some(top) => Some(top),
    };
    Action {
        kind,
        uid,
        above: Some(above),
        top,
        root: parent.root,
        depth: one_deeper(parent.depth),
    }
}

// What the next action is.
fn next_action(reading: &Reading, kind: Kind, uid: Uid, parent: &Option<Label>) -> Action
    ensures { (lines : List line_type) (a : Act) → HasRead lines reading.now → a.id ≡ length (acts lines) → a.kind ≡ kind → a.uid ≡ uid → a.parent ≡ option_map name parent.now
        → result ≡ action_of a (above_in (acts lines) kind (option_map name parent.now)) (path_in (acts lines) a) }
{
    let number = reading.list.len();
    match above(reading, kind, parent) {
        None => action_alone(kind, uid, number),
        Some(at) => match kept(reading, at) {
            None => action_alone(kind, uid, number),
            Some(parent) => action_below(kind, uid, number, at, parent),
        },
    }
}

// The action that begins.
fn next(reading: &Reading, body: &Body) -> Option<Next>
    ensures { (lines : List line_type) → HasRead lines reading.now → result ≡ next_of (acts lines) body.now }
{
    match body {
        Body::Began {
            label,
            kind,
            uid,
            parent,
        } => Some(Next {
            label: *label,
            action: next_action(reading, *kind, *uid, parent),
        }),
        _ => None,
    }
}

/// Notes the place of the first item of a number, where there is one.
pub fn note(
    map: &mut BTreeMap<usize, usize>,
    number: Option<usize>,
    at: usize,
) -> Result<(), AllocError>
    ensures { OnOk result ((i : ℕ) → get nat_cmp map.new i ≡ noted number at (get nat_cmp map.old i) i) }
{
    let Some(number) = number else {
        return Ok(());
    };
    if !map.contains_key(&number) {
        map.insert(number, at)?;
    }
    Ok(())
}

// Puts a mark behind the others, where there is one.
fn mark(marks: &mut Vec<Mark>, number: Option<usize>, at: usize) -> Result<(), AllocError>
    ensures { OnOk result (marks.new.items ≡ marked number at marks.old.items) }
{
    let Some(action) = number else {
        return Ok(());
    };
    marks.push(Mark { at, action })?;
    Ok(())
}

// Notes that a record was found, where one was.
fn note_found(
    found: &mut BTreeMap<Uid, usize>,
    uid: Option<Uid>,
    at: usize,
) -> Result<(), AllocError>
    ensures { OnOk result ((u : uid_type) → is_some (get uid_order found.new u) ≡ found_with uid (is_some (get uid_order found.old u)) u) }
{
    let Some(uid) = uid else {
        return Ok(());
    };
    found.insert(uid, at)?;
    Ok(())
}

// Puts the next action behind the others, where there is one.
fn begin(reading: &mut Reading, next: Option<Next>) -> Result<(), AllocError>
    ensures labels { OnOk result ((q : label_type) → get label_cmp reading.new.labels q ≡ labelled_with next (length reading.old.list.items) (get label_cmp reading.old.labels q) q) }
    ensures uids { OnOk result ((u : uid_type) → get uid_order reading.new.uids u ≡ known_with next (length reading.old.list.items) (get uid_order reading.old.uids u) u) }
    ensures list { OnOk result (reading.new.list.items ≡ listed_with next reading.old.list.items) }
    ensures called { OnOk result (reading.new.called ≡ reading.old.called) }
    ensures ended { OnOk result (reading.new.ended ≡ reading.old.ended) }
    ensures committed { OnOk result (reading.new.committed ≡ reading.old.committed) }
    ensures found { OnOk result (reading.new.found ≡ reading.old.found) }
    ensures said { OnOk result (reading.new.said ≡ reading.old.said) }
    ensures calls { OnOk result (reading.new.calls ≡ reading.old.calls) }
{
    let Some(next) = next else {
        return Ok(());
    };
    let number = reading.list.len();
    reading.labels.insert(next.label, number)?;
    reading.uids.insert(next.action.uid, number)?;
    reading.list.push(next.action)?;
    Ok(())
}

/// Takes the line at this place, which is the next.
pub fn take_line(reading: &mut Reading, at: usize, body: &Body) -> Result<(), AllocError>
    ensures { OnOk result ((lines : List line_type) (line : line_type) → HasRead lines reading.old → at ≡ length lines → line.body ≡ body.now → HasRead (lines ++ line ∷ []) reading.new) }
{
    let said = said_number(reading, body);
    let called = called_number(reading, body);
    let ended = ended_number(reading, body);
    let committed = committed_number(reading, body);
    let next = next(reading, body);
    note(&mut reading.called, called, at)?;
    note(&mut reading.ended, ended, at)?;
    note(&mut reading.committed, committed, at)?;
    note_found(&mut reading.found, found_uid(body), at)?;
    mark(&mut reading.said, said, at)?;
    mark(&mut reading.calls, called, at)?;
    begin(reading, next)?;
    Ok(())
}
