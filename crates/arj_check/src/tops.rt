// Committed tops, for the keys of their calls.
ghost use Rattle.std.specs.Prelude.{◌≡◌, ◌==◌, ℕ, List, [], ◌∷◌, ◌++◌, OnOk, IfOk, max, if◌then◌else◌};
ghost use Rattle.std.specs.BTreeMap.{get};
ghost use Rattle.std.specs.Option.{option_map, unwrap_or};
ghost use Rattle.std.specs.Ordering.{nat_cmp};
ghost use Rattle.arj_journal.specs.declared.body.Line.{Line};
ghost use Rattle.arj_model.specs.Actions.{acts, committed, recovered};
ghost use Rattle.arj_model.specs.Calls.{Top, tops as tops_of};
ghost use Rattle.arj_reading.specs.Reading.{HasRead, placed_of};
ghost use Rattle.arj_replay.specs.Orders.{paths};
ghost use Rattle.arj_check.specs.Keys.{one_or_none, top_at, top_called};
ghost use Rattle.arj_check.specs.Kept.{HasTops};

use crate::called::CalledTop;
use crate::places::is_committed;
use arj_reading::{Mark, Reading, kept, note};
use arj_replay::Key;
use std::alloc::{AllocError, Global};
use std::collections::BTreeMap;

/// The committed tops whose commits were called.
#[derive(Drop)]
pub struct Tops {
    /// The root of each, by its number.
    pub roots: BTreeMap<usize, usize>,
    /// The place at which the commit of each was first called.
    pub places: BTreeMap<usize, usize>,
    /// The last place at which the commit of a top of a root was called, by the number of the root.
    pub units: BTreeMap<usize, usize>,
}

// No tops.
fn no_tops(alloc: Global) -> Tops
    ensures { HasTops [] result }
{
    Tops {
        roots: BTreeMap::new(alloc),
        places: BTreeMap::new(alloc),
        units: BTreeMap::new(alloc),
    }
}

// Raises the number of a key to this one, where it is below.
fn raise(map: &mut BTreeMap<usize, usize>, key: usize, at: usize) -> Result<(), AllocError>
    ensures { OnOk result ((i : ℕ) → unwrap_or (get nat_cmp map.new i) 0 ≡ (if key == i then max at (unwrap_or (get nat_cmp map.old i) 0) else unwrap_or (get nat_cmp map.old i) 0)) }
{
    let before = map.get(&key).copied().unwrap_or(0);
    if before < at {
        map.insert(key, at)?;
    }
    Ok(())
}

// One top more.
fn put_top(tops: &mut Tops, number: usize, root: usize, at: usize) -> Result<(), AllocError>
    ensures { OnOk result ((ts : List Top) → HasTops ts tops.old → HasTops (ts ++ (record { id = number; root = root; at = at }) ∷ []) tops.new) }
{
    note(&mut tops.roots, Some(number), root)?;
    note(&mut tops.places, Some(number), at)?;
    raise(&mut tops.units, root, at)?;
    Ok(())
}

// The top whose commit was called at a mark, where it is committed.
fn called_top(reading: &Reading, mark: Mark) -> Option<CalledTop>
    ensures { (lines : List Line) → HasRead lines reading.now → option_map top_called result ≡ top_at (committed lines) (recovered lines) (paths (acts lines)) (placed_of mark) }
{
    let Some(action) = kept(reading, mark.action) else {
        return None;
    };
    let Some(top) = action.top else {
        return None;
    };
    if !is_committed(reading, &top) {
        return None;
    }
    Some(CalledTop {
        number: top.number,
        root: action.root,
        at: mark.at,
    })
}

// One top more, if there is one.
fn put_called(tops: &mut Tops, called: Option<CalledTop>) -> Result<(), AllocError>
    ensures { OnOk result ((ts : List Top) → HasTops ts tops.old → HasTops (ts ++ one_or_none (option_map top_called called)) tops.new) }
{
    match called {
        None => Ok(()),
        Some(top) => put_top(tops, top.number, top.root, top.at),
    }
}

/// The committed tops whose commits were called.
pub fn make_tops(alloc: Global, reading: &Reading) -> Result<Tops, AllocError>
    ensures { (lines : List Line) → HasRead lines reading.now → IfOk result (λ tops. HasTops (tops_of lines) tops) }
{
    let mut tops = no_tops(alloc);
    for mark in reading.calls.iter() {
        put_called(&mut tops, called_top(reading, *mark))?;
    }
    Ok(tops)
}

impl Tops {
    ghost use Rattle.std.specs.Prelude.{◌≡◌, List, IfOk};
    ghost use Rattle.std.specs.BTreeMap.{get};
    ghost use Rattle.std.specs.Option.{unwrap_or};
    ghost use Rattle.std.specs.Ordering.{nat_cmp};
    ghost use Rattle.arj_model.specs.Calls.{Top};
    ghost use Rattle.arj_model.specs.Serial.{serial_key};
    ghost use Rattle.arj_check.specs.Kept.{HasTops};

    // The root of a top, itself where none is kept.
    fn root_of(&self, top: usize) -> usize
        ensures { result ≡ unwrap_or (get nat_cmp self.now.roots top) top }
    {
        self.roots.get(&top).copied().unwrap_or(top)
    }

    // The place at which the commit of a top was first called.
    fn place_of(&self, top: usize) -> usize
        ensures { result ≡ unwrap_or (get nat_cmp self.now.places top) 0 }
    {
        self.places.get(&top).copied().unwrap_or(0)
    }

    // The place of the unit of a root.
    fn unit_of(&self, root: usize) -> usize
        ensures { result ≡ unwrap_or (get nat_cmp self.now.units root) 0 }
    {
        self.units.get(&root).copied().unwrap_or(0)
    }

    /// The front of the keys of a top's calls: the place of its unit, and its own.
    pub fn key(&self, alloc: Global, top: usize) -> Result<Key, AllocError>
        ensures { (ts : List Top) → HasTops ts self.now → IfOk result (λ key. key.items ≡ serial_key ts top) }
    {
        let root = self.root_of(top);
        let unit = self.unit_of(root);
        let place = self.place_of(top);
        let mut key = Vec::new(alloc);
        key.push(unit)?;
        key.push(place)?;
        Ok(key)
    }
}
