// The second store: all new states of a commit lie in one file.
ghost use Rattle.std.specs.Prelude.{◌≡◌, ◌⊎◌, ◌↔◌, true, IsSome, IfOk, OnOk, OnErr};
ghost use Rattle.arj_disk.specs.Counted.{counts};
ghost use Rattle.arj_disk.specs.Disk.{CountsCall};
ghost use Rattle.arj_disk.specs.Says.{OnlyOfRole};

use crate::kept::Kept;
use crate::looking::newest_in;
use crate::merging::merge;
use crate::moving::{abort_file, commit_file, put_first, put_pending};
use crate::recovery::recover_files;
use crate::refusals::{read_held, refusal};
use arj_base::{ObjectState, States, Uid, Uids};
use arj_disk::{Disk, Role};
use arj_store::{Found, ObjectStore, Prep, Read, StoreFault};
use std::alloc::{AllocError, Global};

/// Keeps committed states in the files Segment of its role, of which the one with the greatest number says what the state of
/// an object is. An action's new states are in its file Pending; a commit makes that file the next segment.
#[derive(Drop)]
pub struct SegmentStore {
    alloc: Global,
    role: Role,
    kept: Kept,
    found: Found,
}

impl ObjectStore for SegmentStore {
    ghost use Rattle.arj_segment.specs.Store.{role_kept, found_kept, StoreKeeps, store_keeps_on};
    ghost use Rattle.arj_segment.specs.Blank.{files_blank};
    ghost use Rattle.arj_segment.specs.Formed.{IsFormed};
    ghost use Rattle.arj_segment.specs.Says.{pair_of, pend};
    ghost use Rattle.arj_segment.specs.Steps.{HasAtMost};
    ghost use Rattle.arj_segment.specs.declared.limits.TheConstants.{MOST_SEGMENTS};
    ghost use Rattle.arj_store.specs.Pair.{Moves, MovesSome, SamePair};
    ghost use Rattle.std.specs.Prelude.{refl};
    ghost use Rattle.arj_segment.specs.Stays.{files_stay, files_sound};

    ghost own_role = { role_kept };

    ghost pair = { pair_of };

    ghost formed = { IsFormed };

    ghost keeps = { StoreKeeps };

    ghost finding = { found_kept };

    fn format<D: Disk>(
        alloc: Global,
        disk: &mut D,
        role: Role,
        states: &States,
    ) -> Result<Self, StoreFault> {
        let mut kept = Kept::new(alloc);
        put_first(alloc, disk, role, states.as_slice(), &mut kept)?;
        Ok(SegmentStore {
            alloc,
            role,
            kept,
            found: Found::new(alloc),
        })
    }

    fn recover<D: Disk>(alloc: Global, disk: &mut D, role: Role) -> Result<Self, StoreFault> {
        let names = disk.names(alloc)?;
        let (kept, found) = recover_files(alloc, disk, role, names.as_slice())?;
        Ok(SegmentStore {
            alloc,
            role,
            kept,
            found,
        })
    }

    fn read_committed<D: Disk>(
        &self,
        alloc: Global,
        disk: &mut D,
        uid: Uid,
    ) -> Result<Read, StoreFault> {
        if let Some(holder) = self.kept.holdings.get(uid) {
            return Ok(Read::InDoubt { holder: *holder });
        }
        match read_held(alloc, disk, self.role, &self.kept.places, uid)? {
            Some(state) => Ok(Read::State(state)),
            None => Ok(Read::Absent),
        }
    }

    fn look<D: Disk>(
        alloc: Global,
        disk: &mut D,
        role: Role,
        uid: Uid,
    ) -> Result<Option<ObjectState>, StoreFault> {
        let names = disk.names(alloc)?;
        newest_in(alloc, disk, role, names.as_slice(), uid)
    }

    fn prepare<D: Disk>(
        &mut self,
        disk: &mut D,
        act: Uid,
        states: &States,
    ) -> Result<Prep, StoreFault> {
        if self.kept.actions.get(act).is_some() {
            return Ok(Prep::Prepared);
        }
        let states = states.as_slice();
        let refusal = refusal(self.alloc, disk, self.role, &self.kept, act, states)?;
        if let Some(refusal) = refusal {
            return Ok(refusal);
        }
        put_pending(self.alloc, disk, self.role, act, states, &mut self.kept)?;
        Ok(Prep::Prepared)
    }

    fn commit<D: Disk>(&mut self, disk: &mut D, act: Uid) -> Result<bool, StoreFault>
        requires keeps { StoreKeeps self.old (D.file disk.old) }
        requires formed { IsFormed (D.file disk.old) (role_kept self.old) }
        ensures answer { IfOk result (λ was. (was ≡ true) ↔ IsSome (pend (D.file disk.old) (role_kept self.old) act)) }
        ensures moved { OnOk result (Moves (pair_of (D.file disk.old) (role_kept self.old)) (pair_of (D.file disk.new) (role_kept self.old)) act) }
        ensures fault { OnErr result (MovesSome (pair_of (D.file disk.old) (role_kept self.old)) (pair_of (D.file disk.new) (role_kept self.old)) act ⊎ Moves (pair_of (D.file disk.old) (role_kept self.old)) (pair_of (D.file disk.new) (role_kept self.old)) act) }
        // All of the commit or none of it.
        ensures whole { OnErr result (SamePair (pair_of (D.file disk.old) (role_kept self.old)) (pair_of (D.file disk.new) (role_kept self.old)) ⊎ Moves (pair_of (D.file disk.old) (role_kept self.old)) (pair_of (D.file disk.new) (role_kept self.old)) act) }
        ensures few { IfOk result (λ was. was ≡ true → HasAtMost MOST_SEGMENTS (D.file disk.new) (role_kept self.old)) }
        ensures keeps { OnOk result (StoreKeeps self.new (D.file disk.new)) }
        ensures role { role_kept self.new ≡ role_kept self.old }
        ensures found { found_kept self.new ≡ found_kept self.old }
        ensures formed { IsFormed (D.file disk.new) (role_kept self.old) }
        ensures others { OnlyOfRole (role_kept self.old) (D.file disk.old) (D.file disk.new) }
        ensures counts { CountsCall (counts D.Disk disk.old) (counts D.Disk disk.new) result StoreFault.Stopped }
    {
        if !commit_file(disk, self.role, act, &mut self.kept)? {
            return Ok(false);
        }
        merge(self.alloc, disk, self.role, &mut self.kept)?;
        Ok(true)
    }

    fn abort<D: Disk>(&mut self, disk: &mut D, act: Uid) -> Result<bool, StoreFault> {
        abort_file(disk, self.role, act, &mut self.kept)
    }

    fn holder(&self, uid: Uid) -> Option<Uid> {
        match self.kept.holdings.get(uid) {
            Some(holder) => Some(*holder),
            None => None,
        }
    }

    fn actions(&self, alloc: Global) -> Result<Uids, AllocError> {
        self.kept.actions.uids(alloc)
    }

    fn is_prepared(&self, act: Uid) -> bool {
        self.kept.actions.get(act).is_some()
    }

    fn is_clear(&self) -> bool {
        self.kept.actions.is_empty()
    }

    fn found(&self) -> &Found {
        &self.found
    }

    ghost keeps_on = { store_keeps_on };

    ghost stays = { files_stay };

    ghost blank = { files_blank };

    ghost sound = { files_sound };
}
