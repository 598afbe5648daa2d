// What nodes may hold, prepared for actions, line by line.
ghost use Rattle.std.specs.Prelude.{◌≡◌, ◌==◌, ◌&&◌, ◌++◌, ◌∷◌, [], List, Bool, IfOk, OnOk, false, true, filter, find, map};
ghost use Rattle.std.specs.List.{list_any};
ghost use Rattle.arj_pending.specs.Pends.{AreOthers, frame_in, is_new as is_new_of, is_pend, kept, may_carry as may_carry_of, may_prepare as may_prepare_of, pends_after, prepare_to as prepare_to_node, unsaid as unsaid_of, unsaid_at, without as without_of};

use crate::commits::is_under_way;
use crate::crashes::is_crash;
use crate::kept::{Commit, Delivery, Pend, Prepare, Prepares};
use arj_base::Uid;
use arj_journal::{Body, Line, Role};
use std::alloc::{AllocError, Global};

// Whether it is of a node and an action.
fn is_of(pend: &Pend, node: u8, action: Uid) -> bool
    ensures { result ≡ is_pend node action pend.now }
{
    pend.node == node && pend.action == action
}

// Those of other nodes and actions.
fn without(alloc: Global, pends: &[Pend], node: u8, action: Uid) -> Result<Vec<Pend>, AllocError>
    ensures { IfOk result (λ left. left.items ≡ without_of node action pends.now) }
{
    let mut left = Vec::new(alloc);
    for pend in pends {
        if !is_of(pend, node, action) {
            left.push(*pend)?;
        }
    }
    Ok(left)
}

// Whether one is of a node and an action.
fn has_pend(prepares: &Prepares, node: u8, action: Uid) -> bool
    ensures { result ≡ list_any (is_pend node action) prepares.now.pends.items }
{
    for pend in prepares.pends.iter() {
        if is_of(pend, node, action) {
            return true;
        }
    }
    false
}

// Those after a line that says what is prepared.
fn with(alloc: Global, pends: &[Pend], node: u8, action: Uid) -> Result<Vec<Pend>, AllocError>
    ensures { IfOk result (λ after. after.items ≡ without_of node action pends.now ++ record { node = node; action = action; said = true } ∷ []) }
{
    let mut after = without(alloc, pends, node, action)?;
    after.push(Pend {
        node,
        action,
        said: true,
    })?;
    Ok(after)
}

// The frame, where it was delivered in an event.
fn frame_of(delivered: Option<Delivery>, event: u32) -> Option<u32>
    ensures { result ≡ frame_in event delivered }
{
    match delivered {
        None => None,
        Some(delivery) => {
            if delivery.event == event {
                Some(delivery.frame)
            } else {
                None
            }
        }
    }
}

// Whether a Prepare is to a node, with a frame.
fn is_to(prepare: &Prepare, node: u8, frame: u32) -> bool
    ensures { result ≡ ((prepare.now.frame == frame) && (prepare.now.to == node)) }
{
    prepare.frame == frame && prepare.to == node
}

// The Prepare to a node with a frame.
fn prepare_with(prepares: &Prepares, node: u8, frame: u32) -> Option<Prepare>
    ensures { result ≡ find (λ p. (p.frame == frame) && (p.to == node)) prepares.now.prepares.items }
{
    for prepare in prepares.prepares.iter() {
        if is_to(prepare, node, frame) {
            return Some(*prepare);
        }
    }
    None
}

// The same, if there is a frame.
fn prepare_to(prepares: &Prepares, node: u8, frame: Option<u32>) -> Option<Prepare>
    ensures { result ≡ prepare_to_node node frame prepares.now.prepares.items }
{
    match frame {
        None => None,
        Some(frame) => prepare_with(prepares, node, frame),
    }
}

// Whether a Prepare may be one of a commit.
fn may_carry(got: Option<Prepare>, commit: &Commit) -> bool
    ensures { result ≡ may_carry_of got commit.now }
{
    match got {
        None => false,
        Some(prepare) => u32::from(prepare.from) == commit.top.node
            && is_under_way(commit, prepare.at),
    }
}

// Whether a node may be at the preparation for a commit, at a place.
fn may_prepare(commit: &Commit, node: u8, at: usize, got: Option<Prepare>) -> bool
    ensures { result ≡ may_prepare_of node at got commit.now }
{
    (commit.top.node == u32::from(node) && is_under_way(commit, at)) || may_carry(got, commit)
}

// Whether it may, and holds nothing for it yet.
fn is_new(prepares: &Prepares, commit: &Commit, node: u8, at: usize, got: Option<Prepare>) -> bool
    ensures { result ≡ is_new_of node at got prepares.now.pends.items commit.now }
{
    may_prepare(commit, node, at, got) && !has_pend(prepares, node, commit.top)
}

// What a node may hold for a commit, where it stopped.
fn unsaid(node: u8, commit: &Commit) -> Pend
    ensures { result ≡ unsaid_of node commit.now }
{
    Pend {
        node,
        action: commit.top,
        said: false,
    }
}

// What a node may hold besides, where it stops at a place.
fn besides(
    alloc: Global,
    prepares: &Prepares,
    node: u8,
    at: usize,
    got: Option<Prepare>,
) -> Result<Vec<Pend>, AllocError>
    ensures { IfOk result (λ more. more.items ≡ unsaid_at node at got prepares.now.pends.items prepares.now.commits.items) }
{
    let mut more = Vec::new(alloc);
    for commit in prepares.commits.iter() {
        if is_new(prepares, commit, node, at, got) {
            more.push(unsaid(node, commit))?;
        }
    }
    Ok(more)
}

// Takes a stop of a node in an event, at a place.
fn note_stop(
    alloc: Global,
    prepares: &mut Prepares,
    event: u32,
    node: u8,
    at: usize,
) -> Result<(), AllocError>
    ensures pends { OnOk result (prepares.new.pends.items ≡ prepares.old.pends.items ++ unsaid_at node at (prepare_to_node node (frame_in event prepares.old.delivered) prepares.old.prepares.items) prepares.old.pends.items prepares.old.commits.items) }
    ensures others { OnOk result (AreOthers prepares.old prepares.new) }
{
    let frame = frame_of(prepares.delivered, event);
    let got = prepare_to(prepares, node, frame);
    let more = besides(alloc, prepares, node, at, got)?;
    prepares.pends.extend_from_slice(more.as_slice())?;
    Ok(())
}

/// Takes a line at a place: what nodes may hold after it, by what is kept of those before it.
pub fn note_pends(
    alloc: Global,
    prepares: &mut Prepares,
    flags: &[bool],
    line: &Line,
    at: usize,
) -> Result<(), AllocError>
    ensures pends { OnOk result (prepares.new.pends.items ≡ pends_after flags.now line.now.event at line.now.body (kept prepares.old)) }
    ensures others { OnOk result (AreOthers prepares.old prepares.new) }
{
    match &line.body {
        Body::Prepared {
            node,
            action,
            role: Role::Store,
        } => {
            prepares.pends = with(alloc, prepares.pends.as_slice(), *node, *action)?;
            Ok(())
        }
        Body::Done {
            node,
            action,
            role: Role::Store,
            ..
        } => {
            prepares.pends = without(alloc, prepares.pends.as_slice(), *node, *action)?;
            Ok(())
        }
        Body::Halted { node } => {
            if is_crash(flags, line.event) {
                return Ok(());
            }
            note_stop(alloc, prepares, line.event, *node, at)
        }
        Body::Quiet { yes: true } => {
            prepares.pends = Vec::new(alloc);
            Ok(())
        }
        _ => Ok(()),
    }
}
