// The states of Segment and Pending files.
ghost use Rattle.std.specs.Prelude.{◌≡◌, ◌++◌, [], map, IfOk, IfSome, OnOk};
ghost use Rattle.std.specs.List.{AllByRecursion, cons_option};
ghost use Rattle.std.specs.Option.{option_map};
ghost use Rattle.arj_base.specs.State.{StateInForm};
ghost use Rattle.arj_saved.specs.Saved.{AreKept, pending_at, pendings_in, rows_of, segment_at, segments_in};

use crate::rows::states_of;
use arj_base::States;
use arj_disk::{Role, Slot};
use arj_image::NodeFile;
use std::alloc::{AllocError, Global};

/// The states of a Segment or Pending file, whose node it is on, and whose role.
#[derive(Drop)]
pub struct Kept {
    pub node: u8,
    pub role: Role,
    pub states: States,
}

// The states of a Segment file in its grammar.
fn segment_of(alloc: Global, file: &NodeFile) -> Result<Option<Kept>, AllocError>
    ensures shown { IfOk result (λ kept. option_map rows_of kept ≡ segment_at file.now.node file.now.slot file.now.bytes) }
    ensures in_form { IfOk result (λ kept. IfSome kept (λ k. AllByRecursion StateInForm k.states)) }
{
    match file.slot {
        Slot::Segment(role, _) => match states_of(alloc, file.bytes.as_slice())? {
            None => Ok(None),
            Some(states) => Ok(Some(Kept {
                node: file.node,
                role,
                states,
            })),
        },
        _ => Ok(None),
    }
}

// The states of a Pending file, none where it isn't in its grammar.
fn pending_of(alloc: Global, file: &NodeFile) -> Result<Option<Kept>, AllocError>
    ensures shown { IfOk result (λ kept. option_map rows_of kept ≡ pending_at file.now.node file.now.slot file.now.bytes) }
    ensures in_form { IfOk result (λ kept. IfSome kept (λ k. AllByRecursion StateInForm k.states)) }
{
    match file.slot {
        Slot::Pending(role, _) => match states_of(alloc, file.bytes.as_slice())? {
            None => Ok(Some(Kept {
                node: file.node,
                role,
                states: States::new(alloc),
            })),
            Some(states) => Ok(Some(Kept {
                node: file.node,
                role,
                states,
            })),
        },
        _ => Ok(None),
    }
}

// One more, if there is one.
fn put(kept: &mut Vec<Kept>, one: Option<Kept>) -> Result<(), AllocError>
    ensures shown { OnOk result (map rows_of kept.new.items ≡ map rows_of kept.old.items ++ cons_option (option_map rows_of one) []) }
    ensures in_form { OnOk result (AllByRecursion (λ k. AllByRecursion StateInForm k.states) kept.old.items → IfSome one (λ k. AllByRecursion StateInForm k.states)
        → AllByRecursion (λ k. AllByRecursion StateInForm k.states) kept.new.items) }
{
    if let Some(one) = one {
        kept.push(one)?;
    }
    Ok(())
}

/// The states of the Segment files that are in their grammar, in the order of the files.
pub fn segments_of(alloc: Global, files: &[NodeFile]) -> Result<Vec<Kept>, AllocError>
    ensures { IfOk result (λ kept. AreKept (segments_in files.now) kept.items) }
{
    let mut kept = Vec::new(alloc);
    for file in files {
        put(&mut kept, segment_of(alloc, file)?)?;
    }
    Ok(kept)
}

/// The states of the Pending files, in the order of the files.
pub fn pendings_of(alloc: Global, files: &[NodeFile]) -> Result<Vec<Kept>, AllocError>
    ensures { IfOk result (λ kept. AreKept (pendings_in files.now) kept.items) }
{
    let mut kept = Vec::new(alloc);
    for file in files {
        put(&mut kept, pending_of(alloc, file)?)?;
    }
    Ok(kept)
}
