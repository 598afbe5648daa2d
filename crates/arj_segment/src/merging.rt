// The merge of the segments of a role.
ghost use Rattle.std.specs.Prelude.{◌≡◌, ◌≤◌, ◌∷◌, [], IfOk, OnOk, length};
ghost use Rattle.arj_disk.specs.Counted.{counts};
ghost use Rattle.arj_disk.specs.Disk.{CountsCall};
ghost use Rattle.arj_disk.specs.Says.{OnlyOfRole};
ghost use Rattle.arj_disk.specs.declared.disk.DiskFault.TheVariants as DiskFault;
ghost use Rattle.arj_store.specs.Pair.{SamePair};
ghost use Rattle.arj_segment.specs.Formed.{IsFormed};
ghost use Rattle.arj_segment.specs.Kept.{Keeps};
ghost use Rattle.arj_segment.specs.Says.{pair_of, segments};
ghost use Rattle.arj_segment.specs.Steps.{RemovesSome, AreGone, IsMerged};
ghost use Rattle.arj_store.specs.Table.{at};
ghost use Rattle.arj_segment.specs.Tables.{AllInOne, AreNumbers};
ghost use Rattle.arj_segment.specs.declared.limits.TheConstants.{MOST_SEGMENTS};

use crate::MOST_SEGMENTS;
use crate::gathering::gather;
use crate::kept::{Kept, set_each};
use crate::numbering::next_number;
use arj_base::{Bytes, Numbers};
use arj_disk::{Disk, DiskFault, Role, Slot, put};
use arj_segment_file::file_of;
use arj_store::StoreFault;
use std::alloc::{AllocError, Global};

/// Where a role has too many segments, merges them into one: the newest state of each object, by Uid. The older segments go
/// when the new one is in place.
pub fn merge<D: Disk>(
    alloc: Global,
    disk: &mut D,
    role: Role,
    kept: &mut Kept,
) -> Result<(), StoreFault>
    requires formed { IsFormed (D.file disk.old) role }
    requires keeps { Keeps role kept.old (D.file disk.old) }
    ensures pair { SamePair (pair_of (D.file disk.old) role) (pair_of (D.file disk.new) role) }
    ensures keeps { OnOk result (Keeps role kept.new (D.file disk.new)) }
    ensures few { OnOk result (length kept.new.numbers ≤ MOST_SEGMENTS) }
    ensures formed { IsFormed (D.file disk.new) role }
    ensures others { OnlyOfRole role (D.file disk.old) (D.file disk.new) }
    ensures counts { CountsCall (counts D.Disk disk.old) (counts D.Disk disk.new) result StoreFault.Stopped }
{
    if kept.numbers.as_slice().len() <= MOST_SEGMENTS {
        return Ok(());
    }
    let (number, file) = merged_file(alloc, disk, role, kept.numbers.as_slice())?;
    put(disk, Slot::Segment(role, number), file.as_slice())?;
    remove_segments(disk, role, kept.numbers.as_slice())?;
    all_in_one(alloc, kept, number)?;
    Ok(())
}

// The number and the bytes of the merged segment.
fn merged_file<D: Disk>(
    alloc: Global,
    disk: &mut D,
    role: Role,
    numbers: &[u64],
) -> Result<(u64, Bytes), StoreFault>
    requires formed { IsFormed (D.file disk.old) role }
    requires numbers { AreNumbers (segments (D.file disk.old) role) numbers.now }
    ensures merged { IfOk result (λ merged. IsMerged role (D.file disk.old) numbers.now merged.0 merged.1) }
    ensures files { D.file disk.new ≡ D.file disk.old }
    ensures counts { CountsCall (counts D.Disk disk.old) (counts D.Disk disk.new) result StoreFault.Stopped }
{
    let gathered = gather(alloc, disk, role, numbers)?;
    let number = next_number(numbers)?;
    let states = gathered.states.into_values(alloc)?;
    let file = file_of(alloc, states.as_slice())?;
    Ok((number, file))
}

// Removes the segments with these numbers, in increasing order.
fn remove_segments<D: Disk>(disk: &mut D, role: Role, numbers: &[u64]) -> Result<(), DiskFault>
    ensures files { RemovesSome role numbers.now (D.file disk.old) (D.file disk.new) }
    ensures ok { OnOk result (AreGone role numbers.now (D.file disk.new)) }
    ensures counts { CountsCall (counts D.Disk disk.old) (counts D.Disk disk.new) result DiskFault.Stopped }
{
    for number in numbers {
        disk.remove(Slot::Segment(role, *number))?;
    }
    Ok(())
}

// All that is committed is in this one segment now.
fn all_in_one(alloc: Global, kept: &mut Kept, number: u64) -> Result<(), AllocError>
    ensures ok { OnOk result (AllInOne number (at kept.old.places) (at kept.new.places)) }
    ensures numbers { OnOk result (kept.new.numbers ≡ number ∷ []) }
    ensures actions { kept.new.actions ≡ kept.old.actions }
    ensures holdings { kept.new.holdings ≡ kept.old.holdings }
{
    let uids = kept.places.uids(alloc)?;
    set_each(&mut kept.places, uids.as_slice(), number)?;
    let mut numbers = Numbers::new(alloc);
    numbers.push(number)?;
    kept.numbers = numbers;
    Ok(())
}
