// What a store keeps in memory of its files.
ghost use Rattle.std.specs.Prelude.{◌≡◌, None, Some, [], OnOk};
ghost use Rattle.arj_base.specs.declared.uid.Uid.{Uid};
ghost use Rattle.arj_store.specs.Table.{at, Sets};
ghost use Rattle.arj_segment.specs.Tables.{SetsEach};

use arj_base::{Numbers, Uid, Uids};
use arj_store::Table;
use std::alloc::{AllocError, Global};

/// The prepared actions with their objects; the objects of these, each with its action; the number of the segment that has
/// the committed state of an object; and the numbers of the segments.
#[derive(Drop)]
pub struct Kept {
    pub actions: Table<Uids>,
    pub holdings: Table<Uid>,
    pub places: Table<u64>,
    pub numbers: Numbers,
}

impl Kept {
    /// Nothing is prepared and nothing committed.
    pub fn new(alloc: Global) -> Kept
        ensures actions { (a : Uid) → at result.actions a ≡ None }
        ensures holdings { (u : Uid) → at result.holdings u ≡ None }
        ensures places { (u : Uid) → at result.places u ≡ None }
        ensures numbers { result.numbers ≡ [] }
    {
        Kept {
            actions: Table::new(alloc),
            holdings: Table::new(alloc),
            places: Table::new(alloc),
            numbers: Numbers::new(alloc),
        }
    }

    /// One more action, with its objects.
    pub fn add(&mut self, act: Uid, objects: Uids) -> Result<(), AllocError>
        ensures actions { OnOk result (Sets (at self.old.actions) (at self.new.actions) act (Some objects)) }
        ensures holdings { OnOk result (SetsEach objects (Some act) (at self.old.holdings) (at self.new.holdings)) }
        ensures places { (u : Uid) → at self.new.places u ≡ at self.old.places u }
        ensures numbers { self.new.numbers ≡ self.old.numbers }
    {
        set_each(&mut self.holdings, objects.as_slice(), act)?;
        self.actions.set(act, objects)?;
        Ok(())
    }
}

/// Puts a value under each of these Uids.
pub fn set_each<V: Copy + Drop>(
    table: &mut Table<V>,
    uids: &[Uid],
    value: V,
) -> Result<(), AllocError>
    ensures { OnOk result (SetsEach uids.now (Some value) (at table.old) (at table.new)) }
{
    for uid in uids {
        table.set(*uid, value)?;
    }
    Ok(())
}

/// Takes out what is under each of these Uids.
pub fn take_each<V: Drop>(table: &mut Table<V>, uids: &[Uid])
    ensures { SetsEach uids.now None (at table.old) (at table.new) }
{
    for uid in uids {
        table.take(*uid);
    }
}
