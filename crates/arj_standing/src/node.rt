// The locks that are held at a node, line by line.
ghost use Rattle.std.specs.Prelude.{◌≡◌, List, IfOk, map};
ghost use Rattle.std.specs.Option.{option_map, unwrap_or};
ghost use Rattle.arj_model.specs.Actions.{Act};
ghost use Rattle.arj_model.specs.Table.{granted_row};
ghost use Rattle.arj_standing.specs.Begun.{AreBegun, tops_of_links};
ghost use Rattle.arj_standing.specs.Held.{rows_of, shown};

use crate::begun::{Begun, Link};
use crate::held::Held;
use crate::path::path_of;
use crate::rows::{close, grant, lower};
use crate::told::tell;
use arj_base::{Mode, Uid, Uids, object_uid};
use arj_journal::{Body, Line};
use std::alloc::{AllocError, Global};

/// The locks that are held at a node, in order of granting, and the event in which it last came up.
#[derive(Drop)]
pub struct NodeLocks {
    pub node: u8,
    pub up: u32,
    pub locks: Vec<Held>,
}

// The Uids of a path.
fn uids_of(alloc: Global, path: &[Link]) -> Result<Uids, AllocError>
    ensures { IfOk result (λ uids. uids ≡ map (λ k. k.uid) path.now) }
{
    let mut uids = Uids::new(alloc);
    for link in path {
        uids.push(link.uid)?;
    }
    Ok(uids)
}

// How many leading actions of a path end with its top.
fn tops_of(path: &[Link]) -> usize
    ensures { result ≡ tops_of_links path.now }
{
    match path {
        [root, _, ..] => { if root.serial { 2 } else { 1 } }
        _ => 1,
    }
}

// A lock that was granted. A restart that gives a lock back knows the action alone.
fn granted(
    alloc: Global,
    begun: &[Begun],
    again: bool,
    action: Uid,
    object: Uid,
    mode: Mode,
) -> Result<Held, AllocError>
    ensures { (us : List Act) → AreBegun us begun.now → IfOk result (λ held. shown held ≡ granted_row again us action object mode) }
{
    if again {
        let mut holder = Uids::new(alloc);
        holder.push(action)?;
        return Ok(Held {
            object,
            holder,
            tops: 1,
            mode,
        });
    }
    let path = path_of(begun, action);
    Ok(Held {
        object,
        holder: uids_of(alloc, path)?,
        tops: tops_of(path),
        mode,
    })
}

// Puts other locks in the place of these, if there are some.
fn exchange(locks: &mut Vec<Held>, new: Option<Vec<Held>>)
    ensures { rows_of locks.new.items ≡ unwrap_or (option_map (λ held. rows_of held.items) new) (rows_of locks.old.items) }
{
    if let Some(new) = new {
        *locks = new;
    }
}

impl NodeLocks {
    ghost use Rattle.std.specs.Prelude.{◌≡◌, ◌≢◌, ◌++◌, ◌∷◌, [], List, IfOk, OnOk, MatchOption};
    ghost use Rattle.std.specs.Option.{option_map, unwrap_or};
    ghost use Rattle.arj_journal.specs.declared.body.Line.{Line as line_type};
    ghost use Rattle.arj_model.specs.Actions.{Act, acts};
    ghost use Rattle.arj_model.specs.Table.{table_step, up_step};
    ghost use Rattle.arj_standing.specs.Begun.{AreBegun};
    ghost use Rattle.arj_standing.specs.Held.{rows_of};
    ghost use Rattle.arj_standing.specs.Node.{IsTable};

    /// The locks before the first line: none.
    pub fn new(alloc: Global, node: u8) -> NodeLocks
        ensures { IsTable node [] result }
    {
        NodeLocks {
            node,
            up: 0,
            locks: Vec::new(alloc),
        }
    }

    // The locks after a line, where it changes some.
    fn after(
        &self,
        alloc: Global,
        begun: &[Begun],
        line: &Line,
    ) -> Result<Option<Vec<Held>>, AllocError>
        ensures { (us : List Act) → AreBegun us begun.now → IfOk result (λ new. unwrap_or (option_map (λ held. rows_of held.items) new) (rows_of self.now.locks.items)
            ≡ table_step self.now.node us self.now.up line.now.event line.now.body (rows_of self.now.locks.items)) }
    {
        match &line.body {
            Body::Granted {
                node,
                action,
                object,
                mode,
            } => {
                if *node != self.node {
                    return Ok(None);
                }
                let again = line.event == self.up;
                let new = granted(alloc, begun, again, *action, *object, *mode)?;
                Ok(Some(grant(alloc, self.locks.as_slice(), new)?))
            }
            Body::Lowered {
                node,
                action,
                object,
            } => {
                if *node != self.node {
                    return Ok(None);
                }
                Ok(Some(lower(alloc, self.locks.as_slice(), *action, *object)?))
            }
            Body::Active { node, x, .. } => {
                if *node != self.node {
                    return Ok(None);
                }
                Ok(Some(close(alloc, self.locks.as_slice(), object_uid(*x))?))
            }
            Body::Told {
                node,
                action,
                end,
                part,
            } => {
                if *node != self.node {
                    return Ok(None);
                }
                Ok(Some(tell(alloc, self.locks.as_slice(), *part, *action, *end)?))
            }
            Body::Halted { node } => Ok(self.emptied(alloc, *node)),
            Body::Up { node, .. } => Ok(self.emptied(alloc, *node)),
            _ => Ok(None),
        }
    }

    // No locks, where it is this node that halts or comes up.
    fn emptied(&self, alloc: Global, node: u8) -> Option<Vec<Held>>
        ensures { MatchOption result (node ≢ self.now.node) (λ held. (node ≡ self.now.node) × (held.items ≡ [])) }
    {
        if node == self.node {
            Some(Vec::new(alloc))
        } else {
            None
        }
    }

    // The event of the node's last `up` line, after a line.
    fn up_after(&self, line: &Line) -> u32
        ensures { result ≡ up_step self.now.node line.now.event line.now.body self.now.up }
    {
        match &line.body {
            Body::Up { node, .. } => {
                if *node == self.node {
                    line.event
                } else {
                    self.up
                }
            }
            _ => self.up,
        }
    }

    /// Takes a line, the next one, by the actions that have begun before it.
    pub fn take(&mut self, alloc: Global, begun: &[Begun], line: &Line) -> Result<(), AllocError>
        ensures node { self.new.node ≡ self.old.node }
        ensures table { OnOk result ((lines : List line_type) → AreBegun (acts lines) begun.now → IsTable self.old.node lines self.old → IsTable self.old.node (lines ++ line.now ∷ []) self.new) }
    {
        let up = self.up_after(line);
        let new = self.after(alloc, begun, line)?;
        exchange(&mut self.locks, new);
        self.up = up;
        Ok(())
    }
}
