// Commits that were called, Prepares that were sent, and the last delivered frame, line by line.
ghost use Rattle.std.specs.Prelude.{◌≡◌, ◌++◌, ◌∷◌, [], List, IfOk, OnOk, map};
ghost use Rattle.std.specs.List.{cons_option};
ghost use Rattle.std.specs.Option.{option_map};
ghost use Rattle.arj_text.specs.Label.{name};
ghost use Rattle.arj_model.specs.Actions.{Act};
ghost use Rattle.arj_standing.specs.Begun.{AreBegun};
ghost use Rattle.arj_pending.specs.Commits.{called_by, closed as closed_by, closed_at_node as closed_by_halt, closed_named as closed_by_name, commits_after, delivered_after, is_before as is_before_end, is_under_way as is_under_way_at, over_at as over_by, prepares_after};

use crate::kept::{Commit, Delivery, Prepare};
use arj_base::Uid;
use arj_journal::{Body, FrameKind, Label};
use arj_standing::{Begun, path_named, top_of};
use std::alloc::{AllocError, Global};

// Over at a place, if it wasn't before.
fn over_at(over: Option<usize>, at: usize) -> Option<usize>
    ensures { result ≡ over_by at over }
{
    match over {
        None => Some(at),
        Some(before) => Some(before),
    }
}

// A commit that is over at a place.
fn closed(commit: &Commit, at: usize) -> Commit
    ensures { result ≡ closed_by at commit.now }
{
    Commit {
        label: commit.label,
        top: commit.top,
        called: commit.called,
        over: over_at(commit.over, at),
    }
}

// The same, where it is of a label.
fn closed_named(commit: &Commit, label: &Label, at: usize) -> Commit
    ensures { result ≡ closed_by_name (name label.now) at commit.now }
{
    if commit.label.as_bytes() == label.as_bytes() {
        closed(commit, at)
    } else {
        *commit
    }
}

// The same, where its node is this one.
fn closed_at_node(commit: &Commit, node: u8, at: usize) -> Commit
    ensures { result ≡ closed_by_halt node at commit.now }
{
    if commit.top.node == u32::from(node) {
        closed(commit, at)
    } else {
        *commit
    }
}

// Commits, those of a label over.
fn all_named(
    alloc: Global,
    commits: &[Commit],
    label: &Label,
    at: usize,
) -> Result<Vec<Commit>, AllocError>
    ensures { IfOk result (λ after. after.items ≡ map (closed_by_name (name label.now) at) commits.now) }
{
    let mut after = Vec::new(alloc);
    for commit in commits {
        after.push(closed_named(commit, label, at))?;
    }
    Ok(after)
}

// Commits, those of a node over.
fn all_at_node(
    alloc: Global,
    commits: &[Commit],
    node: u8,
    at: usize,
) -> Result<Vec<Commit>, AllocError>
    ensures { IfOk result (λ after. after.items ≡ map (closed_by_halt node at) commits.now) }
{
    let mut after = Vec::new(alloc);
    for commit in commits {
        after.push(closed_at_node(commit, node, at))?;
    }
    Ok(after)
}

// One commit more, where the action has a top.
fn call(
    commits: &mut Vec<Commit>,
    label: &Label,
    top: Option<Uid>,
    at: usize,
) -> Result<(), AllocError>
    ensures { OnOk result (commits.new.items ≡ commits.old.items ++ cons_option (option_map (called_by label.now at) top) []) }
{
    if let Some(top) = top {
        commits.push(Commit {
            label: *label,
            top,
            called: at,
            over: None,
        })?;
    }
    Ok(())
}

/// Takes a line at a place, by the actions that have begun before it: commits that are called, and those that are over.
pub fn note_commits(
    alloc: Global,
    commits: &mut Vec<Commit>,
    begun: &[Begun],
    body: &Body,
    at: usize,
) -> Result<(), AllocError>
    ensures { OnOk result ((us : List Act) → AreBegun us begun.now → commits.new.items ≡ commits_after us at body.now commits.old.items) }
{
    match body {
        Body::Committing { label } => call(commits, label, top_of(path_named(begun, label)), at),
        Body::Committed { label } | Body::Aborted { label, .. } => {
            *commits = all_named(alloc, commits.as_slice(), label, at)?;
            Ok(())
        }
        Body::Halted { node } => {
            *commits = all_at_node(alloc, commits.as_slice(), *node, at)?;
            Ok(())
        }
        _ => Ok(()),
    }
}

// Whether a place is before another, if there is one.
fn is_before(at: usize, over: Option<usize>) -> bool
    ensures { result ≡ is_before_end at over }
{
    match over {
        None => true,
        Some(over) => at < over,
    }
}

/// Whether a commit is under way at a place.
pub fn is_under_way(commit: &Commit, at: usize) -> bool
    ensures { result ≡ is_under_way_at at commit.now }
{
    commit.called <= at && is_before(at, commit.over)
}

/// Takes a line at a place: a Prepare that is sent.
pub fn note_prepare(prepares: &mut Vec<Prepare>, body: &Body, at: usize) -> Result<(), AllocError>
    ensures { OnOk result (prepares.new.items ≡ prepares_after at body.now prepares.old.items) }
{
    match body {
        Body::Sent {
            frame,
            from,
            to,
            kind: FrameKind::Prepare,
        } => {
            prepares.push(Prepare {
                frame: *frame,
                from: *from,
                to: *to,
                at,
            })?;
            Ok(())
        }
        _ => Ok(()),
    }
}

/// The last delivered frame after a line of an event.
pub fn delivered_behind(delivered: Option<Delivery>, body: &Body, event: u32) -> Option<Delivery>
    ensures { result ≡ delivered_after event body.now delivered }
{
    match body {
        Body::Got { frame } => Some(Delivery {
            event,
            frame: *frame,
        }),
        _ => delivered,
    }
}
