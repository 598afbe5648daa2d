// Items that are kept under numbers.
ghost use Rattle.std.specs.Prelude.{◌≡◌, ◌==◌, ◌++◌, ◌∷◌, [], ℕ, Some, false, OnOk, if◌then◌else◌};
ghost use Rattle.std.specs.BTreeMap.{get};
ghost use Rattle.std.specs.Ordering.{nat_cmp};
ghost use Rattle.arj_last.specs.Groups.{items_of};

use std::alloc::{AllocError, Global};
use std::collections::BTreeMap;

/// The items under a number, in the order in which they were put there.
pub fn items_at<T>(groups: &BTreeMap<usize, Vec<T>>, number: usize) -> &[T]
    ensures { result.now ≡ items_of groups.now number }
{
    match groups.get(&number) {
        None => &[],
        Some(items) => items.as_slice(),
    }
}

// The items under a number, taken out.
fn take_items<T: Drop>(alloc: Global, groups: &mut BTreeMap<usize, Vec<T>>, number: usize) -> Vec<T>
    ensures taken { result.items ≡ items_of groups.old number }
    ensures others { (k : ℕ) → (number == k) ≡ false → items_of groups.new k ≡ items_of groups.old k }
{
    match groups.remove(&number) {
        None => Vec::new(alloc),
        Some(items) => items,
    }
}

// Puts items back under a number.
fn put_back<T: Drop>(
    groups: &mut BTreeMap<usize, Vec<T>>,
    number: usize,
    items: Vec<T>,
) -> Result<(), AllocError>
    ensures { OnOk result ((k : ℕ) → get nat_cmp groups.new k ≡ (if number == k then Some items else get nat_cmp groups.old k)) }
{
    groups.insert(number, items)?;
    Ok(())
}

/// Puts an item behind those under a number.
pub fn put_item<T: Drop>(
    alloc: Global,
    groups: &mut BTreeMap<usize, Vec<T>>,
    number: usize,
    item: T,
) -> Result<(), AllocError>
    ensures { OnOk result ((k : ℕ) → items_of groups.new k ≡ (if number == k then items_of groups.old k ++ item ∷ [] else items_of groups.old k)) }
{
    let mut items = take_items(alloc, groups, number);
    items.push(item)?;
    put_back(groups, number, items)?;
    Ok(())
}
