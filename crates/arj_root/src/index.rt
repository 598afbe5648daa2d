// Paths by number.
ghost use Rattle.std.specs.Prelude.{◌≡◌, ◌∷◌, [], ◌++◌, OnOk, OnErr, option_copied};
ghost use Rattle.std.specs.List.{list_any, list_all};
ghost use Rattle.arj_base.specs.Path.{uids_of};
ghost use Rattle.arj_base.specs.Rows.{last_uid};
ghost use Rattle.arj_base.specs.Uid.{uid_eq};
ghost use Rattle.arj_protocol.specs.Coord as coord;
ghost use Rattle.arj_protocol.specs.Order.{at_number};
ghost use Rattle.arj_protocol.specs.Tree.{is_spent};
ghost use Rattle.arj_root.specs.Noted.{listed, indexed, of_tree};

use crate::survival::{counts, is_retained, survives};
use crate::trail::Trail;
use arj_base::{Path, Seq, Uid};
use arj_tree::Tree;
use std::alloc::{AllocError, Global};
use std::collections::BTreeMap;
use std::marker::Model;

/// The paths of items by their numbers, as of an object or a node, each list in order of noting.
#[derive(Drop)]
pub struct Index {
    paths: BTreeMap<u16, Seq<Trail>>,
}

impl Model for Index {
    ghost use Rattle.arj_root.specs.Noted.{Index};

    ghost Value = { Index };

    ghost view = { λ i. i.paths.entries };
}

impl Index {
    /// No paths. It allocates nothing.
    pub fn new(alloc: Global) -> Index
        ensures { result ≡ [] }
    {
        Index {
            paths: BTreeMap::new(alloc),
        }
    }

    /// Notes a path at a number, behind those that are there.
    pub fn add(&mut self, alloc: Global, number: u16, path: &Path) -> Result<(), AllocError>
        ensures added { OnOk result (self.new ≡ indexed number (uids_of path.now) self.old) }
        ensures kept { OnErr result (self.new ≡ self.old) }
    {
        let trail = Trail::new(alloc, path)?;
        if let Some(paths) = self.paths.get_mut(&number) {
            return paths.push(trail);
        }
        // Most lists have one path.
        let mut paths = Vec::with_capacity(alloc, 1)?;
        paths.push(trail)?;
        self.paths.insert(number, Seq::from_vec(paths))?;
        Ok(())
    }

    /// Whether a path of this action is noted at a number.
    pub fn has(&self, number: u16, action: Uid) -> bool
        ensures { result ≡ list_any (λ p. uid_eq action (last_uid p)) (listed number self.now) }
    {
        match self.paths.get(&number) {
            Some(paths) => has_last(paths.as_slice(), action),
            None => false,
        }
    }

    /// Whether a serializing action retains one of the paths at a number.
    pub fn retains(&self, number: u16, tree: &Tree) -> bool
        ensures { result ≡ list_any (λ p. coord.is_retained p (of_tree tree.now)) (listed number self.now) }
    {
        match self.paths.get(&number) {
            Some(paths) => any_retained(paths.as_slice(), tree),
            None => false,
        }
    }

    /// Whether one of the paths at a number survives in the top.
    pub fn survives(&self, number: u16, top: Uid, tree: &Tree) -> bool
        ensures { result ≡ list_any (λ p. coord.survives top p (of_tree tree.now)) (listed number self.now) }
    {
        match self.paths.get(&number) {
            Some(paths) => any_survives(paths.as_slice(), top, tree),
            None => false,
        }
    }

    /// Whether one of the paths at a number survives in the top or is retained.
    pub fn counts(&self, number: u16, top: Uid, tree: &Tree) -> bool
        ensures { result ≡ list_any (λ p. coord.counts top p (of_tree tree.now)) (listed number self.now) }
    {
        match self.paths.get(&number) {
            Some(paths) => any_counts(paths.as_slice(), top, tree),
            None => false,
        }
    }

    /// Whether each path at a number has an aborted action.
    pub fn are_spent(&self, number: u16, tree: &Tree) -> bool
        ensures { result ≡ list_all (λ p. is_spent p tree.now) (listed number self.now) }
    {
        match self.paths.get(&number) {
            Some(paths) => all_spent(paths.as_slice(), tree),
            None => true,
        }
    }
}

// Whether one of the paths is this action's.
fn has_last(paths: &[Trail], action: Uid) -> bool
    ensures { result ≡ list_any (λ p. uid_eq action (last_uid p)) paths.now }
{
    for path in paths {
        if action == path.last() {
            return true;
        }
    }
    false
}

// Whether a serializing action retains one of the paths.
fn any_retained(paths: &[Trail], tree: &Tree) -> bool
    ensures { result ≡ list_any (λ p. coord.is_retained p (of_tree tree.now)) paths.now }
{
    for path in paths {
        if is_retained(tree, path.as_slice()) {
            return true;
        }
    }
    false
}

// Whether each path has an aborted action.
fn all_spent(paths: &[Trail], tree: &Tree) -> bool
    ensures { result ≡ list_all (λ p. is_spent p tree.now) paths.now }
{
    for path in paths {
        if !tree.is_spent(path.as_slice()) {
            return false;
        }
    }
    true
}

// Whether one of the paths survives in the top.
fn any_survives(paths: &[Trail], top: Uid, tree: &Tree) -> bool
    ensures { result ≡ list_any (λ p. coord.survives top p (of_tree tree.now)) paths.now }
{
    for path in paths {
        if survives(tree, top, path.as_slice()) {
            return true;
        }
    }
    false
}

// Whether one of the paths survives in the top or is retained.
fn any_counts(paths: &[Trail], top: Uid, tree: &Tree) -> bool
    ensures { result ≡ list_any (λ p. coord.counts top p (of_tree tree.now)) paths.now }
{
    for path in paths {
        if counts(tree, top, path.as_slice()) {
            return true;
        }
    }
    false
}
