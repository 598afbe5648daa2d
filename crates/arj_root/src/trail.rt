// The path of an action, seen as its Uids alone.
ghost use Rattle.std.specs.Prelude.{◌≡◌, IfOk};
ghost use Rattle.arj_base.specs.Path.{uids_of};
ghost use Rattle.arj_base.specs.Rows.{is_on, last_uid};

use arj_base::{Path, Uid, Uids};
use std::alloc::{AllocError, Global};
use std::marker::Model;

// The last Uid of no path.
const NOBODY: Uid = Uid {
    node: 0,
    inc: 0,
    num: 0,
};

/// The Uids of a path, with room for no more: a root keeps many of them, and most are short. Contracts see the list.
#[derive(Drop)]
pub struct Trail {
    uids: Uids,
}

impl Model for Trail {
    ghost use Rattle.std.specs.Prelude.{List};
    ghost use Rattle.arj_base.specs.declared.uid.Uid.{Uid};

    ghost Value = { List Uid };

    ghost view = { λ t. t.uids };
}

impl Trail {
    /// The Uids of this path.
    pub fn new(alloc: Global, path: &Path) -> Result<Trail, AllocError>
        ensures { IfOk result (λ trail. trail ≡ uids_of path.now) }
    {
        let uids = Vec::from_slice(alloc, path.as_slice())?;
        Ok(Trail {
            uids: Uids::from_vec(uids),
        })
    }

    /// The Uids from the root on.
    pub fn as_slice(&self) -> &[Uid]
        ensures { result.now ≡ self.now }
    {
        self.uids.as_slice()
    }

    /// The last Uid.
    pub fn last(&self) -> Uid
        ensures { result ≡ last_uid self.now }
    {
        match self.as_slice() {
            [.., last] => *last,
            [] => NOBODY,
        }
    }

    /// Whether the Uid is on the path.
    pub fn has(&self, uid: Uid) -> bool
        ensures { result ≡ is_on self.now uid }
    {
        self.as_slice().contains(&uid)
    }
}
