// Paths of actions, by their numbers.
ghost use Rattle.std.specs.Prelude.{◌≡◌, ◌∷◌, [], IfOk};
ghost use Rattle.arj_model.specs.Actions.{behind_first as behind_first_of};
ghost use Rattle.arj_changes.specs.Lines.{root_number as root_number_of, top_number as top_number_of};
ghost use Rattle.arj_changes.specs.Paths.{chain_links, link_ids, top_link as top_of_links};

use arj_base::Seq;
use arj_standing::Link;
use std::alloc::{AllocError, Global};

// The first action of a path, where it isn't serializing.
fn unless_serial(link: Link) -> Option<Link>
    ensures { result ≡ top_of_links (link ∷ []) }
{
    if link.serial { None } else { Some(link) }
}

/// The top of a path.
pub fn top_link(path: &[Link]) -> Option<Link>
    ensures { result ≡ top_of_links path.now }
{
    match path {
        [] => None,
        [root] => unless_serial(*root),
        [root, second, ..] => {
            if root.serial {
                Some(*second)
            } else {
                Some(*root)
            }
        }
    }
}

/// The number of the top of a path.
pub fn top_number(path: &[Link]) -> Option<usize>
    ensures { result ≡ top_number_of path.now }
{
    match top_link(path) {
        None => None,
        Some(top) => Some(top.id),
    }
}

// All but the first action of a path.
fn behind_first(path: &[Link]) -> &[Link]
    ensures { result.now ≡ behind_first_of path.now }
{
    match path {
        [] => &[],
        [_, rest @ ..] => rest,
    }
}

// The actions below the top of a path.
fn chain_of(path: &[Link]) -> &[Link]
    ensures { result.now ≡ chain_links path.now }
{
    match path {
        [] => &[],
        [root, rest @ ..] => {
            if root.serial {
                behind_first(rest)
            } else {
                rest
            }
        }
    }
}

// The numbers of the actions of a path.
fn ids_of(alloc: Global, path: &[Link]) -> Result<Seq<usize>, AllocError>
    ensures { IfOk result (λ out. out ≡ link_ids path.now) }
{
    let mut out = Seq::new(alloc);
    for link in path {
        out.push(link.id)?;
    }
    Ok(out)
}

/// The numbers of the actions below the top of a path.
pub fn chain_ids(alloc: Global, path: &[Link]) -> Result<Seq<usize>, AllocError>
    ensures { IfOk result (λ out. out ≡ link_ids (chain_links path.now)) }
{
    ids_of(alloc, chain_of(path))
}

/// The number of the root of a path, or this one where it is empty.
pub fn root_number(path: &[Link], number: usize) -> usize
    ensures { result ≡ root_number_of number path.now }
{
    match path {
        [] => number,
        [root, ..] => root.id,
    }
}
