// Laws of the pair.
ghost use Rattle.std.specs.Prelude.{◌≡◌, ◌⊎◌, ◌≤◌, ℕ, List, map, length, Contains};
ghost use Rattle.arj_base.specs.declared.state.ObjectState.{ObjectState};
ghost use Rattle.arj_base.specs.declared.uid.Uid.{Uid};
ghost use Rattle.arj_disk.specs.Formed.{AtMost};
ghost use Rattle.arj_disk.specs.declared.limits.TheConstants.{MOST_KNOWN};
ghost use Rattle.arj_store.specs.Effects.{DidPrepare, DidCommit, DidSome, DidAbort};
ghost use Rattle.arj_store.specs.Listed.{IsListed};
ghost use Rattle.arj_store.specs.Pair.{Pair, IsKnown, SamePair, Adds, Drops, Moves, MovesSome, Prepares, uid_of};

use arj_disk::among_so_many;

/// What the calls of a store do with the pair, ended or stopped, are rows of small effects. A recovery leaves the pair: it
/// does none. It does nothing when it runs.
pub fn calls_are_effects()
    ensures prepare { (p q : Pair) (act : Uid) (states : List ObjectState) → SamePair p q ⊎ Prepares p q act states → DidPrepare p q act states }
    ensures commit { (p q : Pair) (act : Uid) → Moves p q act → DidCommit p q act }
    ensures part { (p q : Pair) (act : Uid) → MovesSome p q act → DidSome p q act }
    ensures abort { (p q : Pair) (act : Uid) → Drops p q act → DidAbort p q act }
{}

/// Of which objects a store knows: a prepare adds those of its states, and no call adds others. Where all are among so many,
/// there are few enough for one more prepare. It does nothing when it runs.
pub fn known_objects()
    ensures same { (p q : Pair) → SamePair p q → (u : Uid) → IsKnown q u → IsKnown p u }
    ensures prepare { (p q : Pair) (act : Uid) (states : List ObjectState) → Adds p q act states → (u : Uid) → IsKnown q u → IsKnown p u ⊎ Contains (map uid_of states) u }
    ensures commit { (p q : Pair) (act : Uid) → Moves p q act → (u : Uid) → IsKnown q u → IsKnown p u }
    ensures part { (p q : Pair) (act : Uid) → MovesSome p q act → (u : Uid) → IsKnown q u → IsKnown p u }
    ensures abort { (p q : Pair) (act : Uid) → Drops p q act → (u : Uid) → IsKnown q u → IsKnown p u }
    ensures few { (p : Pair) (states : List ObjectState) (us : List Uid) → length us ≤ MOST_KNOWN → ((u : Uid) → IsKnown p u → Contains us u)
        → ((u : Uid) → Contains (map uid_of states) u → Contains us u) → AtMost MOST_KNOWN (λ u. IsKnown p u ⊎ Contains (map uid_of states) u) }
{
    among_so_many();
}

/// A pair as sorted lists, as an ordered map has its entries: they are determined by the pair. It does nothing when it runs.
pub fn lists_are_determined()
    ensures { (p q : Pair) (held held_too : List (Uid × List ℕ)) (pend pend_too : List (Uid × List (Uid × List ℕ)))
        → SamePair p q → IsListed p held pend → IsListed q held_too pend_too → (held ≡ held_too) × (pend ≡ pend_too) }
{}
