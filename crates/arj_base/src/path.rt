// Paths of actions.
ghost use Rattle.std.specs.Prelude.{◌≡◌, ◌≤◌, ◌-◌, drop, length, replicate, if◌then◌else◌};
ghost use Rattle.arj_base.specs.Uid.{nobody};
ghost use Rattle.arj_base.specs.declared.limits.TheConstants.{MOST_UIDS};

use crate::{MOST_UIDS, Uid};

// What stands behind the last Uid.
const NOBODY: Uid = Uid {
    node: 0,
    inc: 0,
    num: 0,
};

/// The path of an action: the Uids from its lock root to itself, 1 to 16 of them, and how many of them, counted from
/// the root, end with its top: 2 below a serializing action, otherwise 1. By paths nested locks know their holders'
/// ancestors (Moss's nested transactions). Contracts see the Uids as `uids_of` and the number as `tops_of`.
#[derive(Clone, Copy, Debug)]
pub struct Path {
    uids: [Uid; 16],
    len: u8,
    tops: u8,
    ghost whole: { length uids ≡ 16 },
    ghost some: { 1 ≤ len },
    ghost most: { len ≤ MOST_UIDS },
    ghost padded: { drop len uids ≡ replicate (MOST_UIDS - len) nobody },
    ghost one_top: { 1 ≤ tops },
    ghost two_tops: { tops ≤ 2 },
    ghost within: { tops ≤ len },
}

impl Path {
    ghost use Rattle.std.specs.Prelude.{◌≡◌, ◌++◌, ◌∷◌, [], true, length, min, take, if◌then◌else◌, MatchOption, Some, None};
    ghost use Rattle.arj_base.specs.Path.{uids_of, tops_of, first_uid, top_uid, before_last};
    ghost use Rattle.arj_base.specs.Rows.{last_uid, front, is_on};

    /// The path of an action that has no parent, or of a serializing action.
    pub fn new(root: Uid) -> Path
        ensures uids { uids_of result ≡ root ∷ [] }
        ensures tops { tops_of result ≡ 1 }
    {
        let mut uids = [NOBODY; 16];
        uids[0] = root;
        Path {
            uids,
            len: 1,
            tops: 1,
        }
    }

    /// The path of an action begun in the last one; `top` is for a constituent of a serializing action, whose path has
    /// length 1. None exactly where the path has as many Uids as a path may have.
    pub fn push(&self, uid: Uid, top: bool) -> Option<Path>
        requires { top ≡ true → length (uids_of self.now) ≡ 1 }
        ensures { MatchOption result
            (length (uids_of self.now) ≡ MOST_UIDS)
            (λ path. (uids_of path ≡ uids_of self.now ++ uid ∷ [])
            × (tops_of path ≡ (if top then 2 else tops_of self.now))) }
    {
        if self.len == MOST_UIDS {
            return None;
        }
        let mut uids = self.uids;
        uids[usize::from(self.len)] = uid;
        Some(Path {
            uids,
            len: self.len + 1,
            tops: tops_below(top, self.tops),
        })
    }

    /// The lock root: the first Uid.
    pub fn root(&self) -> Uid
        ensures { result ≡ first_uid (uids_of self.now) }
    {
        self.uids[0]
    }

    /// The top: the action whose commit makes this one's work permanent.
    pub fn top(&self) -> Uid
        ensures { result ≡ top_uid (tops_of self.now) (uids_of self.now) }
    {
        self.uids[usize::from(self.tops - 1)]
    }

    /// The action itself: the last Uid.
    pub fn last(&self) -> Uid
        ensures { result ≡ last_uid (uids_of self.now) }
    {
        self.uids[usize::from(self.len - 1)]
    }

    /// How many Uids it has, 1 to 16.
    pub fn len(&self) -> u8
        ensures { result ≡ length (uids_of self.now) }
    {
        self.len
    }

    /// How many leading Uids end with the top, 1 or 2.
    pub fn tops(&self) -> u8
        ensures { result ≡ tops_of self.now }
    {
        self.tops
    }

    /// The Uids from the root on.
    pub fn as_slice(&self) -> &[Uid]
        ensures { result.now ≡ uids_of self.now }
    {
        &self.uids[..usize::from(self.len)]
    }

    /// The parent, or the serializing action of a constituent: the Uid before the last. None exactly at length 1.
    pub fn parent(&self) -> Option<Uid>
        ensures { result ≡ before_last (uids_of self.now) }
    {
        if self.len == 1 {
            None
        } else {
            Some(self.uids[usize::from(self.len - 2)])
        }
    }

    /// The path of the parent, or of the serializing action of a constituent: the path without its last Uid. None
    /// exactly at length 1.
    pub fn parent_path(&self) -> Option<Path>
        ensures { MatchOption result
            (before_last (uids_of self.now) ≡ None)
            (λ path. (uids_of path ≡ front (uids_of self.now))
            × (before_last (uids_of self.now) ≡ Some (last_uid (uids_of path)))
            × (tops_of path ≡ min (tops_of self.now) (length (uids_of path)))) }
    {
        if self.len == 1 {
            return None;
        }
        let len = self.len - 1;
        let mut uids = self.uids;
        uids[usize::from(len)] = NOBODY;
        Some(Path {
            uids,
            len,
            tops: self.tops.min(len),
        })
    }

    /// The path of the top: from the root to the top.
    pub fn top_path(&self) -> Path
        ensures uids { uids_of result ≡ take (tops_of self.now) (uids_of self.now) }
        ensures tops { tops_of result ≡ tops_of self.now }
        ensures last { last_uid (uids_of result) ≡ top_uid (tops_of self.now) (uids_of self.now) }
        ensures len { length (uids_of result) ≡ tops_of self.now }
        ensures on { is_on (uids_of self.now) (last_uid (uids_of result)) ≡ true }
    {
        let mut uids = [NOBODY; 16];
        uids[0] = self.uids[0];
        if self.tops == 2 {
            uids[1] = self.uids[1];
        }
        Path {
            uids,
            len: self.tops,
            tops: self.tops,
        }
    }

    /// Whether the Uid is on the path.
    pub fn is_ancestor_or_self(&self, uid: Uid) -> bool
        ensures { result ≡ is_on (uids_of self.now) uid }
    {
        self.as_slice().contains(&uid)
    }
}

// The number of leading Uids that end with the top, for an action begun in one for which it is `tops`.
fn tops_below(top: bool, tops: u8) -> u8
    ensures { result ≡ (if top then 2 else tops) }
{
    if top { 2 } else { tops }
}
