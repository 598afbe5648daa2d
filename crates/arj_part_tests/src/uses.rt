// Callers of any object store, which know it by its contract alone.
ghost use Rattle.std.specs.Prelude.{◌≡◌, ◌⊎◌, ◌≤◌, ℕ, Option, List, None, true, map, length, Contains, IfOk, OnOk, OnErr};
ghost use Rattle.std.specs.List.{AllByRecursion};
ghost use Rattle.arj_base.specs.State.{state_bytes};
ghost use Rattle.arj_base.specs.declared.limits.TheConstants.{MOST_BYTES};
ghost use Rattle.arj_base.specs.declared.uid.Uid.{Uid};
ghost use Rattle.arj_disk.specs.Formed.{AtMost};
ghost use Rattle.arj_disk.specs.declared.limits.TheConstants.{MOST_KNOWN, MOST_PREPARED};
ghost use Rattle.arj_disk.specs.declared.slot.Role.{Role};
ghost use Rattle.arj_store.specs.Effects.{DidCommit, DidSome};
ghost use Rattle.arj_store.specs.Listed.{IsListed};
ghost use Rattle.arj_store.specs.Pair.{Pair, SamePair, AreClear, AreDistinct, IsKnown, uid_of};

use arj_base::{States, Uid};
use arj_disk::{Disk, Role, roles_apart};
use arj_store::{ObjectStore, StoreFault, calls_are_effects, known_objects, lists_are_determined};

/// A commit, told as effects on the pair.
pub fn commit_told<S: ObjectStore, D: Disk>(
    store: &mut S,
    disk: &mut D,
    act: Uid,
) -> Result<bool, StoreFault>
    requires keeps { S.keeps store.old (D.file disk.old) }
    requires formed { S.formed (D.file disk.old) (S.own_role store.old) }
    ensures ended { OnOk result (DidCommit (S.pair (D.file disk.old) (S.own_role store.old)) (S.pair (D.file disk.new) (S.own_role store.old)) act) }
    ensures stopped { OnErr result (DidSome (S.pair (D.file disk.old) (S.own_role store.old)) (S.pair (D.file disk.new) (S.own_role store.old)) act
        ⊎ DidCommit (S.pair (D.file disk.old) (S.own_role store.old)) (S.pair (D.file disk.new) (S.own_role store.old)) act) }
{
    calls_are_effects();
    store.commit(disk, act)
}

/// A prepare of states against which nothing stands, where the objects that are known are among so many.
pub fn prepare_clear<S: ObjectStore, D: Disk>(
    store: &mut S,
    disk: &mut D,
    act: Uid,
    states: &States,
    known: &[Uid],
) -> Result<bool, StoreFault>
    requires keeps { S.keeps store.old (D.file disk.old) }
    requires formed { S.formed (D.file disk.old) (S.own_role store.old) }
    requires states { AreDistinct (S.own_role store.old) states.now }
    requires count { length states.now ≤ MOST_PREPARED }
    requires sizes { AllByRecursion (λ s. length (state_bytes s) ≤ MOST_BYTES) states.now }
    requires few { length known.now ≤ MOST_KNOWN }
    requires known { (u : Uid) → IsKnown (S.pair (D.file disk.old) (S.own_role store.old)) u → Contains known.now u }
    requires added { (u : Uid) → Contains (map uid_of states.now) u → Contains known.now u }
    requires first { (S.pair (D.file disk.old) (S.own_role store.old)).pend act ≡ None }
    requires clear { AreClear (S.pair (D.file disk.old) (S.own_role store.old)) act states.now }
    ensures { IfOk result (λ prepared. prepared ≡ true) }
{
    known_objects();
    store.prepare(disk, act, states)?;
    Ok(store.is_prepared(act))
}

/// A commit of the naming service's store leaves the object store on the same disk.
pub fn commit_beside<S: ObjectStore, D: Disk>(
    objects: &S,
    entries: &mut S,
    disk: &mut D,
    act: Uid,
) -> Result<bool, StoreFault>
    requires own { S.own_role objects.now ≡ Role.Store }
    requires other { S.own_role entries.old ≡ Role.Names }
    requires keeps { S.keeps objects.now (D.file disk.old) × S.keeps entries.old (D.file disk.old) }
    requires formed { S.formed (D.file disk.old) Role.Store × S.formed (D.file disk.old) Role.Names }
    ensures keeps { S.keeps objects.now (D.file disk.new) }
    ensures formed { S.formed (D.file disk.new) Role.Store }
    ensures pair { SamePair (S.pair (D.file disk.old) Role.Store) (S.pair (D.file disk.new) Role.Store) }
{
    roles_apart();
    entries.commit(disk, act)
}

/// The committed states are listed in one way.
pub fn listed_once()
    ensures { (p : Pair) (held other : List (Uid × List ℕ)) (pend : List (Uid × List (Uid × List ℕ))) → IsListed p held pend → IsListed p other pend → held ≡ other }
{
    lists_are_determined();
}
