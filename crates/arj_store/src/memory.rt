// What a store keeps in memory of what is prepared.
ghost use Rattle.std.specs.Prelude.{◌≡◌, None, Some, OnOk, option_copied};
ghost use Rattle.arj_store.specs.Table.{at, Sets};
ghost use Rattle.arj_store.specs.Shadow.{has_shadow, HoldsAll};

use crate::table::Table;
use arj_base::{Uid, Uids};
use std::alloc::{AllocError, Global};

/// The action that has prepared an object, and whether the object's shadow is still there.
#[derive(Clone, Copy)]
pub struct Holding {
    pub act: Uid,
    pub shadow: bool,
}

/// The prepared actions, each with its objects in the order of its file; and the objects, each with its action.
#[derive(Drop)]
pub struct Pending {
    pub actions: Table<Uids>,
    pub holdings: Table<Holding>,
}

impl Pending {
    /// Nothing is prepared.
    pub fn new(alloc: Global) -> Pending
        ensures actions { (a : Uid) → at result.actions a ≡ None }
        ensures holdings { (u : Uid) → at result.holdings u ≡ None }
    {
        Pending {
            actions: Table::new(alloc),
            holdings: Table::new(alloc),
        }
    }

    /// One more action, with its objects and whether their shadows are there.
    pub fn add(&mut self, act: Uid, shadow: bool, objects: Uids) -> Result<(), AllocError>
        ensures actions { OnOk result (Sets (at self.old.actions) (at self.new.actions) act (Some objects)) }
        ensures holdings { OnOk result (HoldsAll objects act shadow (at self.old.holdings) (at self.new.holdings)) }
    {
        hold(&mut self.holdings, act, shadow, objects.as_slice())?;
        self.actions.set(act, objects)?;
        Ok(())
    }
}

/// Takes an object out; whether it was there with a shadow.
pub fn release(holdings: &mut Table<Holding>, uid: Uid) -> bool
    ensures shadow { result ≡ has_shadow (at holdings.old uid) }
    ensures taken { Sets (at holdings.old) (at holdings.new) uid None }
{
    match holdings.take(uid) {
        Some(holding) => holding.shadow,
        None => false,
    }
}

/// Keeps objects as prepared by the action.
pub fn hold(
    holdings: &mut Table<Holding>,
    act: Uid,
    shadow: bool,
    objects: &[Uid],
) -> Result<(), AllocError>
    ensures { OnOk result (HoldsAll objects.now act shadow (at holdings.old) (at holdings.new)) }
{
    for uid in objects {
        holdings.set(*uid, Holding { act, shadow })?;
    }
    Ok(())
}
