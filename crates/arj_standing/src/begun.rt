// The actions that have begun, each with its path.
ghost use Rattle.std.specs.Prelude.{◌≡◌, ◌++◌, ◌∷◌, [], List, IfOk, OnOk};
ghost use Rattle.arj_model.specs.Actions.{Act, acts_after};
ghost use Rattle.arj_start.specs.Kinds.{is_serial as is_serial_kind};
ghost use Rattle.arj_standing.specs.Begun.{AreBegun, links_above};

use crate::path::path_named;
use arj_base::{Seq, Uid};
use arj_journal::{Body, Kind, Label};
use std::alloc::{AllocError, Global};

/// An action on a path: how many began before it, its Uid, and whether it is a serializing action.
#[derive(Clone, Copy)]
pub struct Link {
    pub id: usize,
    pub uid: Uid,
    pub serial: bool,
}

/// An action that has begun, with the count of those before it, and its path from the root to itself.
#[derive(Drop)]
pub struct Begun {
    pub id: usize,
    pub label: Label,
    pub uid: Uid,
    pub path: Seq<Link>,
}

// Whether it is the kind of a serializing action.
fn is_serial(kind: Kind) -> bool
    ensures { result ≡ is_serial_kind kind }
{
    match kind {
        Kind::Serial => true,
        Kind::Top | Kind::Nested | Kind::Independent | Kind::Constituent => false,
    }
}

// The path above an action that begins.
fn path_above<'a>(begun: &'a [Begun], kind: Kind, parent: &Option<Label>) -> &'a [Link]
    ensures { result.now ≡ links_above kind parent.now begun.now }
{
    match parent {
        None => &[],
        Some(parent) => match kind {
            Kind::Independent => &[],
            Kind::Top | Kind::Nested | Kind::Serial | Kind::Constituent => {
                path_named(begun, parent)
            }
        },
    }
}

// A path with one action more.
fn longer(alloc: Global, above: &[Link], link: Link) -> Result<Seq<Link>, AllocError>
    ensures { IfOk result (λ path. path ≡ above.now ++ link ∷ []) }
{
    let mut path = Vec::from_slice(alloc, above)?;
    path.push(link)?;
    Ok(Seq::from_vec(path))
}

/// Takes a line: the action that begins in it stands before those that began earlier.
pub fn begin(alloc: Global, begun: &mut Vec<Begun>, body: &Body) -> Result<(), AllocError>
    ensures { OnOk result ((acts : List Act) → AreBegun acts begun.old.items → AreBegun (acts_after acts body.now) begun.new.items) }
{
    match body {
        Body::Began {
            label,
            kind,
            uid,
            parent,
        } => {
            let id = begun.len();
            let link = Link {
                id,
                uid: *uid,
                serial: is_serial(*kind),
            };
            let path = longer(alloc, path_above(begun, *kind, parent), link)?;
            begun.insert(
                0,
                Begun {
                    id,
                    label: *label,
                    uid: *uid,
                    path,
                },
            )?;
            Ok(())
        }
        _ => Ok(()),
    }
}
