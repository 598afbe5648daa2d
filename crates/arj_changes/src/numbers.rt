// Numbers and Uids that are noted.
ghost use Rattle.std.specs.Prelude.{◌≡◌, ◌||◌, ℕ, OnOk, is_some};
ghost use Rattle.std.specs.BTreeMap.{get};
ghost use Rattle.std.specs.Ordering.{nat_cmp};
ghost use Rattle.arj_base.specs.Order.{uid_order};
ghost use Rattle.arj_base.specs.declared.uid.Uid.{Uid as uid_type};
ghost use Rattle.arj_changes.specs.Noted.{noted_number, noted_uid};

use arj_base::Uid;
use std::alloc::AllocError;
use std::collections::BTreeMap;

/// Notes a number, if there is one.
pub fn note_number(
    numbers: &mut BTreeMap<usize, usize>,
    number: Option<usize>,
) -> Result<(), AllocError>
    ensures { OnOk result ((i : ℕ) → is_some (get nat_cmp numbers.new i) ≡ noted_number number (is_some (get nat_cmp numbers.old i)) i) }
{
    let Some(number) = number else {
        return Ok(());
    };
    numbers.insert(number, 0)?;
    Ok(())
}

/// Notes a Uid, if there is one.
pub fn note_found(found: &mut BTreeMap<Uid, usize>, uid: Option<Uid>) -> Result<(), AllocError>
    ensures { OnOk result ((u : uid_type) → is_some (get uid_order found.new u) ≡ noted_uid uid (is_some (get uid_order found.old u)) u) }
{
    let Some(uid) = uid else {
        return Ok(());
    };
    found.insert(uid, 0)?;
    Ok(())
}

/// Whether one of two tests holds.
pub fn either(first: bool, second: bool) -> bool
    ensures { result ≡ (first || second) }
{
    first || second
}
