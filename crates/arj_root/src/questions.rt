// What the commit of a top asks of all that a root did and heard.
ghost use Rattle.std.specs.Prelude.{◌≡◌, ◌&&◌, ◌==◌, filter, map, IfOk};
ghost use Rattle.arj_protocol.specs.Coord as coord;
ghost use Rattle.arj_protocol.specs.Order.{number_set};
ghost use Rattle.arj_root.specs.Merged.{of_work, of_parts, more_numbers, least_with, least_in};
ghost use Rattle.arj_root.specs.Noted.{of_tree};

use crate::survival::{counts, is_kept_top};
use crate::{Call, Calls, Grants, Join, Joins};
use arj_base::{Seq, Uid};
use arj_bind::Grant;
use arj_tree::Tree;
use std::alloc::{AllocError, Global};
use std::collections::BTreeSet;

/// Whether a call or an include on the object survives in this top. It walks the includes.
pub fn top_uses(calls: &Calls, joins: &Joins, tree: &Tree, top: Uid, x: u16) -> bool
    ensures { result ≡ coord.top_uses top x (of_work calls.now joins.now) (of_tree tree.now) }
{
    calls.uses(x, top, tree) || joins.uses(x, top, tree)
}

/// The objects that a call or an include was answered for which survives in the top or is retained, increasing. It walks
/// calls and includes.
pub fn objects_in(
    alloc: Global,
    calls: &Calls,
    joins: &Joins,
    tree: &Tree,
    top: Uid,
) -> Result<Seq<u16>, AllocError>
    ensures { IfOk result (λ objects. objects ≡ coord.objects_in top (of_work calls.now joins.now) (of_tree tree.now)) }
{
    let joined = included(alloc, joins.as_slice(), tree, top)?;
    let objects = with_called(joined, calls.as_slice(), tree, top)?;
    listed(alloc, &objects)
}

/// The least naming incarnation of the grants that count for the top: its own, and those that its serializing action
/// retains; 0 where there are none. It walks the grants, and for each of them the includes.
pub fn least_grant(
    grants: &Grants,
    calls: &Calls,
    joins: &Joins,
    tree: &Tree,
    top: Uid,
    x: u16,
) -> u32
    ensures { result ≡ coord.least_grant top x (of_parts calls.now joins.now grants.now) (of_tree tree.now) }
{
    match least_among(grants.as_slice(), calls, joins, tree, top, x) {
        Some(least) => least,
        None => 0,
    }
}

// The least naming incarnation of the grants that count for the top.
fn least_among(
    grants: &[Grant],
    calls: &Calls,
    joins: &Joins,
    tree: &Tree,
    top: Uid,
    x: u16,
) -> Option<u32>
    ensures { result ≡ least_in (map (λ (g : coord.Grant). g.least) (filter (coord.counts_grant top x (of_work calls.now joins.now) (of_tree tree.now)) grants.now)) }
{
    let mut least = None;
    let mut i = grants.len();
    while i > 0 {
        i -= 1;
        let grant = &grants[i];
        if counts_grant(grant, calls, joins, tree, top, x) {
            least = Some(least_with(grant.least, least));
        }
    }
    least
}

// Whether the grant counts for the top.
fn counts_grant(grant: &Grant, calls: &Calls, joins: &Joins, tree: &Tree, top: Uid, x: u16) -> bool
    ensures { result ≡ coord.counts_grant top x (of_work calls.now joins.now) (of_tree tree.now) grant.now }
{
    grant.x == x
        && (grant.top == top
            || (is_kept_top(tree, grant.top) && top_uses(calls, joins, tree, grant.top, x)))
}

// The lesser of a number and of one that was found before.
fn least_with(number: u32, found: Option<u32>) -> u32
    ensures { result ≡ least_with number found }
{
    match found {
        Some(other) => number.min(other),
        None => number,
    }
}

// The objects of the includes that count.
fn included(
    alloc: Global,
    joined: &[Join],
    tree: &Tree,
    top: Uid,
) -> Result<BTreeSet<u16>, AllocError>
    ensures { IfOk result (λ objects. objects.keys ≡ number_set (map (λ (j : coord.Joined). j.x) (filter (λ (j : coord.Joined). coord.counts top j.path (of_tree tree.now)) joined.now))) }
{
    let mut objects = BTreeSet::new(alloc);
    let mut i = joined.len();
    while i > 0 {
        i -= 1;
        let join = &joined[i];
        if counts(tree, top, join.path().as_slice()) {
            objects.insert(join.x())?;
        }
    }
    Ok(objects)
}

// The objects of the calls that count, besides those of a set.
fn with_called(
    mut objects: BTreeSet<u16>,
    said: &[Call],
    tree: &Tree,
    top: Uid,
) -> Result<BTreeSet<u16>, AllocError>
    ensures { IfOk result (λ more. more.keys ≡ more_numbers (map (λ (s : coord.Said). s.x) (filter (λ (s : coord.Said). coord.counts top s.path (of_tree tree.now)) said.now)) objects.keys) }
{
    let mut i = said.len();
    while i > 0 {
        i -= 1;
        let call = &said[i];
        if counts(tree, top, call.path.as_slice()) {
            objects.insert(call.x)?;
        }
    }
    Ok(objects)
}

// The objects of a set, increasing.
fn listed(alloc: Global, objects: &BTreeSet<u16>) -> Result<Seq<u16>, AllocError>
    ensures { IfOk result (λ list. list ≡ objects.now.keys) }
{
    let mut list = Seq::new(alloc);
    for x in objects {
        list.push(*x)?;
    }
    Ok(list)
}
