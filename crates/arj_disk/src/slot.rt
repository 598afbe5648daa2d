// The names of files, and how a stopped call ends.
ghost use Rattle.std.specs.Prelude.{◌≡◌};
ghost use Rattle.arj_disk.specs.Says.{role_of};

use arj_base::{Bytes, Seq, Uid};

/// Whose a file is: the object store's or the naming service's.
#[derive(Clone, Copy, Debug, PartialEq, Eq, PartialOrd, Ord)]
pub enum Role {
    Store,
    Names,
}

/// Whose an object or entry is: a Uid with node 0 and incarnation 1 is a naming entry's, every other the store's.
pub fn role_of_uid(uid: Uid) -> Role
    ensures { result ≡ role_of uid }
{
    if uid.node == 0 && uid.inc == 1 {
        Role::Names
    } else {
        Role::Store
    }
}

/// The name of a file. Ordered by the kinds as they stand here, and then by what they hold.
#[derive(Clone, Copy, Debug, PartialEq, Eq, PartialOrd, Ord)]
pub enum Slot {
    /// How often the node has been started.
    Incarnation,
    /// What is written before it gets its name.
    Tmp,
    /// The committed state of an object or a naming entry.
    Committed(Uid),
    /// The state that a prepared action will commit.
    Shadow(Uid),
    /// What this action has prepared.
    Prepared(Role, Uid),
    /// The intentions record of this action.
    Intent(Uid),
    /// The states that this action has prepared, in one file.
    Pending(Role, Uid),
    /// The states of a commit, or of several that were merged, under a number that rises with each.
    Segment(Role, u64),
}

/// Names of files.
pub type Slots = Seq<Slot>;

/// What a stopped call leaves: nothing done, all done, or, for a write, these bytes under its name.
#[derive(Drop)]
pub enum Outcome {
    Undone,
    Done,
    Torn(Bytes),
}
