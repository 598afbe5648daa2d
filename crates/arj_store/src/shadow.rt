// The first store: a new state lies beside the committed one until its action ends.
ghost use Rattle.std.specs.Prelude.{◌≡◌};

use crate::memory::Pending;
use crate::moves::{move_shadows, remove_shadows};
use crate::packed::{read_state, state_in};
use crate::prepare::{Place, objects_of_states, put_prepared, put_states, refusal};
use crate::recovery::{find, recover_pending};
use crate::{Found, ObjectStore, Prep, Read, StoreFault};
use arj_base::{ObjectState, States, Uid, Uids};
use arj_disk::{Disk, Role, Slot, role_of_uid};
use std::alloc::{AllocError, Global};

/// Keeps a committed state in the file Committed of its object. An action's new states are in files Shadow, and its
/// file Prepared names them; a commit gives the shadows the names of the committed files.
#[derive(Drop)]
pub struct ShadowStore {
    alloc: Global,
    role: Role,
    pending: Pending,
    found: Found,
}

impl ObjectStore for ShadowStore {
    ghost use Rattle.arj_store.specs.Kept.{role_kept, found_kept, StoreKeeps};
    ghost use Rattle.arj_store.specs.Blank.{files_blank};
    ghost use Rattle.arj_store.specs.KeepsOn.{store_keeps_on};
    ghost use Rattle.arj_store.specs.OfFiles.{pair_of};
    ghost use Rattle.arj_store.specs.Stays.{files_stay, files_sound};
    ghost use Rattle.arj_store.specs.Formed.{FormedFor};
    ghost use Rattle.std.specs.Prelude.{refl};

    ghost own_role = { role_kept };

    ghost pair = { pair_of };

    ghost formed = { FormedFor };

    ghost keeps = { StoreKeeps };

    ghost finding = { found_kept };

    fn format<D: Disk>(
        alloc: Global,
        disk: &mut D,
        role: Role,
        states: &States,
    ) -> Result<Self, StoreFault> {
        put_states(alloc, disk, Place::Committed, states.as_slice())?;
        Ok(ShadowStore {
            alloc,
            role,
            pending: Pending::new(alloc),
            found: Found::new(alloc),
        })
    }

    fn recover<D: Disk>(alloc: Global, disk: &mut D, role: Role) -> Result<Self, StoreFault> {
        let names = disk.names(alloc)?;
        let pending = recover_pending(alloc, disk, role, names.as_slice())?;
        let found = find(alloc, disk, role, names.as_slice(), &pending)?;
        Ok(ShadowStore {
            alloc,
            role,
            pending,
            found,
        })
    }

    fn read_committed<D: Disk>(
        &self,
        alloc: Global,
        disk: &mut D,
        uid: Uid,
    ) -> Result<Read, StoreFault> {
        if let Some(holding) = self.pending.holdings.get(uid) {
            return Ok(Read::InDoubt {
                holder: holding.act,
            });
        }
        if role_of_uid(uid) != self.role {
            return Ok(Read::Absent);
        }
        match read_state(alloc, disk, Place::Committed, uid)? {
            Some(state) => Ok(Read::State(state)),
            None => Ok(Read::Absent),
        }
    }

    fn look<D: Disk>(
        alloc: Global,
        disk: &mut D,
        role: Role,
        uid: Uid,
    ) -> Result<Option<ObjectState>, StoreFault> {
        if role_of_uid(uid) != role {
            return Ok(None);
        }
        let Some(bytes) = disk.read(alloc, Slot::Committed(uid))? else {
            return Ok(None);
        };
        let state = state_in(alloc, bytes.as_slice())?;
        Ok(state)
    }

    fn prepare<D: Disk>(
        &mut self,
        disk: &mut D,
        act: Uid,
        states: &States,
    ) -> Result<Prep, StoreFault> {
        if self.pending.actions.get(act).is_some() {
            return Ok(Prep::Prepared);
        }
        let states = states.as_slice();
        let refusal = refusal(self.alloc, disk, self.role, &self.pending, act, states)?;
        if let Some(refusal) = refusal {
            return Ok(refusal);
        }
        let objects = objects_of_states(self.alloc, states)?;
        put_prepared(self.alloc, disk, self.role, act, states, objects.as_slice())?;
        self.pending.add(act, true, objects)?;
        Ok(Prep::Prepared)
    }

    fn commit<D: Disk>(&mut self, disk: &mut D, act: Uid) -> Result<bool, StoreFault> {
        let Some(objects) = self.pending.actions.take(act) else {
            return Ok(false);
        };
        move_shadows(&mut self.pending.holdings, disk, objects.as_slice())?;
        disk.remove(Slot::Prepared(self.role, act))?;
        Ok(true)
    }

    fn abort<D: Disk>(&mut self, disk: &mut D, act: Uid) -> Result<bool, StoreFault> {
        let Some(objects) = self.pending.actions.take(act) else {
            return Ok(false);
        };
        let prepared = Slot::Prepared(self.role, act);
        disk.remove(prepared)?;
        remove_shadows(&mut self.pending.holdings, disk, objects.as_slice())?;
        Ok(true)
    }

    fn holder(&self, uid: Uid) -> Option<Uid> {
        match self.pending.holdings.get(uid) {
            Some(holding) => Some(holding.act),
            None => None,
        }
    }

    fn actions(&self, alloc: Global) -> Result<Uids, AllocError> {
        self.pending.actions.uids(alloc)
    }

    fn is_prepared(&self, act: Uid) -> bool {
        self.pending.actions.get(act).is_some()
    }

    fn is_clear(&self) -> bool {
        self.pending.actions.is_empty()
    }

    fn found(&self) -> &Found {
        &self.found
    }

    ghost keeps_on = { store_keeps_on };

    ghost stays = { files_stay };

    ghost blank = { files_blank };

    ghost sound = { files_sound };
}
