// The includes that were answered.
ghost use Rattle.std.specs.Prelude.{◌≡◌, ◌<◌, length, IfOk, IfSome, [], ◌&&◌, ◌==◌, None, Some, OnOk, OnErr, map, option_copied};
ghost use Rattle.std.specs.List.{AllByRecursion, list_any};
ghost use Rattle.arj_base.specs.Path.{uids_of};
ghost use Rattle.arj_base.specs.Rows.{last_uid};
ghost use Rattle.arj_commit.specs.Fits.{IsNode};
ghost use Rattle.arj_protocol.specs.Coord as coord;
ghost use Rattle.arj_protocol.specs.Order.{number_set};
ghost use Rattle.arj_root.specs.Kept.{HasNumber};
ghost use Rattle.arj_root.specs.Merged.{of_joins, place_of, is_join_of, rejoined, later_of};
ghost use Rattle.arj_root.specs.Noted.{of_tree};

use crate::sends::listed;
use crate::survival::survives;
use arj_base::{NodeList, ObjectState, Path, Uid};
use arj_tree::Tree;
use std::alloc::{AllocError, Global};
use std::collections::BTreeSet;
use std::marker::Model;

/// An include that was answered: the store, and the state that was loaded.
#[derive(Drop)]
pub struct Join {
    path: Path,
    x: u16,
    store: u8,
    loaded: ObjectState,
}

impl Model for Join {
    ghost use Rattle.arj_base.specs.Path.{uids_of};
    ghost use Rattle.arj_protocol.specs.Coord.{Joined};

    ghost Value = { Joined };

    ghost view = { λ j. record { path = uids_of j.path; x = j.x; store = j.store; loaded = j.loaded } };
}

impl Join {
    /// The path of the action that included the store.
    pub fn path(&self) -> &Path
        ensures { uids_of result.now ≡ self.now.path }
    {
        &self.path
    }

    /// The object.
    pub fn x(&self) -> u16
        ensures { result ≡ self.now.x }
    {
        self.x
    }

    /// The store.
    pub fn store(&self) -> u8
        ensures { result ≡ self.now.store }
    {
        self.store
    }

    // Whether it is of this action, object and store.
    fn is_of(&self, action: Uid, x: u16, store: u8) -> bool
        ensures { result ≡ is_join_of action x store self.now }
    {
        action == self.path.last() && x == self.x && store == self.store
    }

    // Whether it is of this object and survives in the top.
    fn is_on(&self, x: u16, top: Uid, tree: &Tree) -> bool
        ensures { result ≡ ((self.now.x == x) && coord.survives top self.now.path (of_tree tree.now)) }
    {
        self.x == x && survives(tree, top, self.path.as_slice())
    }

    // The state of the greater version counts.
    fn take(&mut self, loaded: ObjectState)
        ensures { self.new ≡ rejoined loaded self.old }
    {
        if self.loaded.version < loaded.version {
            self.loaded = loaded;
        }
    }
}

/// The includes that were answered, one of each action, object and store, in order. Contracts see the protocol's list.
#[derive(Drop)]
pub struct Joins {
    joined: Vec<Join>,
}

impl Model for Joins {
    ghost use Rattle.std.specs.Prelude.{List};
    ghost use Rattle.arj_protocol.specs.Coord.{Joined};
    ghost use Rattle.arj_root.specs.Kept.{AreJoins};

    ghost Value = { List Joined };

    ghost view = { λ j. j.joined.items };

    ghost invariant = { λ j. AreJoins j.joined.items };
}

impl Joins {
    /// No includes. It allocates nothing.
    pub fn new(alloc: Global) -> Joins
        ensures { result ≡ [] }
    {
        Joins {
            joined: Vec::new(alloc),
        }
    }

    /// The includes in order.
    pub fn as_slice(&self) -> &[Join]
        ensures { result.now ≡ self.now }
    {
        self.joined.as_slice()
    }

    /// Notes that an include was answered, once for an action, an object and a store; of two states the one of the greater
    /// version counts. It walks the includes.
    pub fn note(
        &mut self,
        path: &Path,
        x: u16,
        store: u8,
        loaded: ObjectState,
    ) -> Result<(), AllocError>
        requires node { IsNode store }
        requires own { loaded.uid.num ≡ x }
        ensures noted { OnOk result (self.new ≡ (coord.with_join (record { path = uids_of path.now; x = x; store = store; loaded = loaded }) (of_joins self.old)).joined) }
        ensures kept { OnErr result (self.new ≡ self.old) }
    {
        match place(self.joined.as_slice(), path.last(), x, store) {
            Some(at) => self.joined[at].take(loaded),
            None => self.joined.push(Join {
                path: *path,
                x,
                store,
                loaded,
            })?,
        }
        Ok(())
    }

    /// Whether an include of the object survives in the top. It walks the includes.
    pub fn uses(&self, x: u16, top: Uid, tree: &Tree) -> bool
        ensures { result ≡ list_any (λ (j : coord.Joined). (j.x == x) && coord.survives top j.path (of_tree tree.now)) self.now }
    {
        any_on(self.joined.as_slice(), x, top, tree)
    }

    /// The state of the greatest version that the surviving includes of the object brought. It walks the includes.
    #[tactic(auto, using(crate::proofs::Kept::latest_is))]
    pub fn latest(&self, x: u16, top: Uid, tree: &Tree) -> Option<&ObjectState>
        ensures latest { option_copied result ≡ coord.latest_of None (coord.joins_on x top (of_joins self.now) (of_tree tree.now)) }
        ensures own { IfSome (option_copied result) (HasNumber x) }
    {
        latest_on(self.joined.as_slice(), x, top, tree)
    }

    /// The stores of the surviving includes of the object, increasing. It walks the includes.
    #[tactic(auto, using(crate::proofs::Kept::stores_are))]
    pub fn stores(
        &self,
        alloc: Global,
        x: u16,
        top: Uid,
        tree: &Tree,
    ) -> Result<NodeList, AllocError>
        ensures stores { IfOk result (λ stores. stores ≡ number_set (map (λ (j : coord.Joined). j.store) (coord.joins_on x top (of_joins self.now) (of_tree tree.now)))) }
        ensures nodes { IfOk result (AllByRecursion IsNode) }
    {
        let stores = stores_on(alloc, self.joined.as_slice(), x, top, tree)?;
        listed(alloc, &stores)
    }
}

// The stores of the surviving includes of the object.
fn stores_on(
    alloc: Global,
    joined: &[Join],
    x: u16,
    top: Uid,
    tree: &Tree,
) -> Result<BTreeSet<u8>, AllocError>
    ensures { IfOk result (λ stores. stores.keys ≡ number_set (map (λ (j : coord.Joined). j.store) (coord.joins_on x top (of_joins joined.now) (of_tree tree.now)))) }
{
    let mut stores = BTreeSet::new(alloc);
    let mut i = joined.len();
    while i > 0 {
        i -= 1;
        let join = &joined[i];
        if join.is_on(x, top, tree) {
            stores.insert(join.store)?;
        }
    }
    Ok(stores)
}

// The place of the include of an action, object and store.
fn place(joined: &[Join], action: Uid, x: u16, store: u8) -> Option<usize>
    ensures place { result ≡ place_of (is_join_of action x store) 0 joined.now }
    ensures within { IfSome result (λ at. at < length joined.now) }
{
    for i in 0..joined.len() {
        if joined[i].is_of(action, x, store) {
            return Some(i);
        }
    }
    None
}

// Whether an include of the object survives in the top.
fn any_on(joined: &[Join], x: u16, top: Uid, tree: &Tree) -> bool
    ensures { result ≡ list_any (λ (j : coord.Joined). (j.x == x) && coord.survives top j.path (of_tree tree.now)) joined.now }
{
    for join in joined {
        if join.is_on(x, top, tree) {
            return true;
        }
    }
    false
}

// The latest of the states that the surviving includes of the object brought.
fn latest_on<'a>(joined: &'a [Join], x: u16, top: Uid, tree: &Tree) -> Option<&'a ObjectState>
    ensures { option_copied result ≡ coord.latest_of None (coord.joins_on x top (of_joins joined.now) (of_tree tree.now)) }
{
    let mut found: Option<&ObjectState> = None;
    for join in joined {
        if join.is_on(x, top, tree) {
            found = later(found, &join.loaded);
        }
    }
    found
}

/// Of two states the later one.
pub fn later<'a>(found: Option<&'a ObjectState>, loaded: &'a ObjectState) -> Option<&'a ObjectState>
    ensures { option_copied result ≡ Some (later_of (option_copied found.entry) loaded.now) }
{
    match found {
        Some(state) if state.version >= loaded.version => Some(state),
        _ => Some(loaded),
    }
}
