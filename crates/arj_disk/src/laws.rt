// Laws of what disks say, and of the names of files.
ghost use Rattle.std.specs.Prelude.{◌≡◌, ◌≢◌, ℕ, ◌≤◌, List, length, Contains};
ghost use Rattle.arj_base.specs.declared.uid.Uid.{Uid};
ghost use Rattle.arj_disk.specs.declared.slot.Role.{Role};
ghost use Rattle.arj_disk.specs.declared.slot.Slot.{Slot};
ghost use Rattle.arj_disk.specs.FileMap.{FileMap};
ghost use Rattle.arj_disk.specs.Formed.{AtMost};
ghost use Rattle.arj_disk.specs.Says.{OnlyOfRole, SameOfRole};
ghost use Rattle.arj_disk.specs.Slot.{role_order, slot_order};

use crate::{Role, Slot};

/// The comparisons of roles and of names of files answer by the orders that the definitions state. It does nothing
/// when it runs.
pub fn orders()
    ensures roles { (r s : Role) → ⟦<Role as Ord>⟧.cmp r s ≡ role_order r s }
    ensures slots { (p q : Slot) → ⟦<Slot as Ord>⟧.cmp p q ≡ slot_order p q }
{}

/// Among so many Uids there are at most as many. It does nothing when it runs.
pub fn among_so_many()
    ensures { (n : ℕ) (us : List Uid) → length us ≤ n → AtMost n (Contains us) }
{}

/// What changes files of one role alone, and Tmp, leaves each file of the other. It does nothing when it runs.
pub fn roles_apart()
    ensures { (r s : Role) (old new : FileMap) → r ≢ s → OnlyOfRole r old new → SameOfRole s old new }
{}
