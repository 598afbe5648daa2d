// The store as the layers above see it.
ghost use Rattle.std.specs.Prelude.{◌≡◌, ◌⊎◌, ◌≤◌, ◌↔◌, ℕ, List, [], Option, None, Some, true, map, Contains, length, IsSome, MatchOption, IfOk, OnOk, OnErr, IsErrOf};
ghost use Rattle.std.specs.List.{AllByRecursion};
ghost use Rattle.arj_base.specs.State.{state_bytes};
ghost use Rattle.arj_disk.specs.Counted.{counts};
ghost use Rattle.arj_disk.specs.Disk.{Same, CountsCall};
ghost use Rattle.arj_disk.specs.Formed.{AtMost};
ghost use Rattle.arj_disk.specs.Says.{names, slot_role, OnlyOfRole, SameOfRole};
ghost use Rattle.arj_disk.specs.declared.slot.Role.{Role};
ghost use Rattle.arj_disk.specs.declared.slot.Slot.{Slot};
ghost use Rattle.arj_store.specs.Pair.{Pair, IsKnown, InDoubt, AreClear, IsSound, SamePair, Drops, Moves, MovesSome, Reads, Prepares, AnswersPrepare, HasFirst, HasOnly, AreDistinct, Finds, FindsNothing, ListsActions, Packs, uid_of};
ghost use Rattle.arj_store.specs.declared.answer.Found.{Found};
ghost use Rattle.arj_base.specs.declared.limits.TheConstants.{MOST_BYTES};
ghost use Rattle.arj_disk.specs.declared.limits.TheConstants.{MOST_KNOWN, MOST_PREPARED};

use crate::{Found, Prep, Read, StoreFault};
use arj_base::{ObjectState, States, Uid, Uids};
use arj_disk::{Disk, Role};
use std::alloc::{AllocError, Global};

/// An object store over a disk, for the files of one role. A prepared action is in doubt here until it is committed or
/// aborted. A call that answers `Stopped` halts the node, and the store is then recovered from the disk; nor is it used
/// again after `Memory`.
pub trait ObjectStore: Sized {
    /// Whose files the store keeps.
    ghost own_role: { Self → Role };

    /// The pair that the files give for a role.
    ghost pair: { (Slot → Option (List ℕ)) → Role → Pair };

    /// The files of a role are formed: what every call finds and leaves.
    ghost formed: { (Slot → Option (List ℕ)) → Role → Type 0 };

    /// The store answers by these files.
    ghost keeps: { Self → (Slot → Option (List ℕ)) → Type 0 };

    /// What the store's recovery found.
    ghost finding: { Self → Found };

    /// Puts the first states on a disk without files of the role, in their order. Where it fails, the first few of them
    /// are there, or none.
    fn format<D: Disk>(
        alloc: Global,
        disk: &mut D,
        role: Role,
        states: &States,
    ) -> Result<Self, StoreFault>
        requires empty { (q : Slot) → slot_role q ≡ Some role → D.file disk.old q ≡ None }
        requires states { AreDistinct role states.now }
        requires count { length states.now ≤ MOST_KNOWN }
        requires sizes { AllByRecursion (λ s. length (state_bytes s) ≤ MOST_BYTES) states.now }
        ensures role { IfOk result (λ store. own_role store ≡ role) }
        ensures keeps { IfOk result (λ store. keeps store (D.file disk.new)) }
        ensures pair { OnOk result (HasOnly (pair (D.file disk.new) role) states.now) }
        ensures fault { OnErr result (HasFirst (pair (D.file disk.new) role) states.now) }
        ensures found { IfOk result (λ store. FindsNothing (finding store)) }
        ensures formed { formed (D.file disk.new) role }
        ensures others { OnlyOfRole role (D.file disk.old) (D.file disk.new) }
        ensures counts { CountsCall (counts D.Disk disk.old) (counts D.Disk disk.new) result StoreFault.Stopped };

    /// The store that a disk has. What no prepared action needs is removed; what is committed and prepared stays.
    fn recover<D: Disk>(alloc: Global, disk: &mut D, role: Role) -> Result<Self, StoreFault>
        requires { formed (D.file disk.old) role }
        ensures role { IfOk result (λ store. own_role store ≡ role) }
        ensures keeps { IfOk result (λ store. keeps store (D.file disk.new)) }
        ensures pair { SamePair (pair (D.file disk.old) role) (pair (D.file disk.new) role) }
        ensures found { IfOk result (λ store. Finds role (pair (D.file disk.new) role) (finding store)) }
        ensures formed { formed (D.file disk.new) role }
        ensures others { OnlyOfRole role (D.file disk.old) (D.file disk.new) }
        ensures counts { CountsCall (counts D.Disk disk.old) (counts D.Disk disk.new) result StoreFault.Stopped };

    /// The committed state of an object, unless the object is in doubt.
    fn read_committed<D: Disk>(
        &self,
        alloc: Global,
        disk: &mut D,
        uid: Uid,
    ) -> Result<Read, StoreFault>
        requires keeps { keeps self.now (D.file disk.old) }
        requires formed { formed (D.file disk.old) (own_role self.now) }
        ensures answer { IfOk result (λ answer. Reads (pair (D.file disk.old) (own_role self.now)) uid answer) }
        ensures files { Same (D.file disk.old) (D.file disk.new) }
        ensures counts { CountsCall (counts D.Disk disk.old) (counts D.Disk disk.new) result StoreFault.Stopped };

    /// The state that the files of a role give as the committed one of an object, by the files alone: whether the object is in
    /// doubt isn't asked, and none is answered where what the files give packs no state.
    fn look<D: Disk>(
        alloc: Global,
        disk: &mut D,
        role: Role,
        uid: Uid,
    ) -> Result<Option<ObjectState>, StoreFault>
        ensures state { IfOk result (λ state. Packs ((pair (D.file disk.old) role).held uid) state) }
        ensures files { Same (D.file disk.old) (D.file disk.new) }
        ensures counts { CountsCall (counts D.Disk disk.old) (counts D.Disk disk.new) result StoreFault.Stopped };

    /// Prepares new states, all of them or, where one is refused, none. Stopped, the action is prepared or isn't.
    fn prepare<D: Disk>(
        &mut self,
        disk: &mut D,
        act: Uid,
        states: &States,
    ) -> Result<Prep, StoreFault>
        requires keeps { keeps self.old (D.file disk.old) }
        requires formed { formed (D.file disk.old) (own_role self.old) }
        requires states { AreDistinct (own_role self.old) states.now }
        requires count { length states.now ≤ MOST_PREPARED }
        requires sizes { AllByRecursion (λ s. length (state_bytes s) ≤ MOST_BYTES) states.now }
        requires few { AtMost MOST_KNOWN (λ u. IsKnown (pair (D.file disk.old) (own_role self.old)) u ⊎ Contains (map uid_of states.now) u) }
        ensures answer { IfOk result (AnswersPrepare (pair (D.file disk.old) (own_role self.old)) (pair (D.file disk.new) (own_role self.old)) act states.now) }
        ensures clear { IfOk result (λ answer. (pair (D.file disk.old) (own_role self.old)).pend act ≡ None
            → AreClear (pair (D.file disk.old) (own_role self.old)) act states.now → answer ≡ Prep.Prepared) }
        ensures fault { OnErr result (SamePair (pair (D.file disk.old) (own_role self.old)) (pair (D.file disk.new) (own_role self.old))
            ⊎ Prepares (pair (D.file disk.old) (own_role self.old)) (pair (D.file disk.new) (own_role self.old)) act states.now) }
        ensures keeps { OnOk result (keeps self.new (D.file disk.new)) }
        ensures role { own_role self.new ≡ own_role self.old }
        ensures found { finding self.new ≡ finding self.old }
        ensures formed { formed (D.file disk.new) (own_role self.old) }
        ensures others { OnlyOfRole (own_role self.old) (D.file disk.old) (D.file disk.new) }
        ensures counts { CountsCall (counts D.Disk disk.old) (counts D.Disk disk.new) result StoreFault.Stopped };

    /// Commits what the action has prepared; true where it was prepared. Stopped, some of its states may be committed
    /// while it is still prepared.
    fn commit<D: Disk>(&mut self, disk: &mut D, act: Uid) -> Result<bool, StoreFault>
        requires keeps { keeps self.old (D.file disk.old) }
        requires formed { formed (D.file disk.old) (own_role self.old) }
        ensures answer { IfOk result (λ was. (was ≡ true) ↔ IsSome ((pair (D.file disk.old) (own_role self.old)).pend act)) }
        ensures moved { OnOk result (Moves (pair (D.file disk.old) (own_role self.old)) (pair (D.file disk.new) (own_role self.old)) act) }
        ensures fault { OnErr result (MovesSome (pair (D.file disk.old) (own_role self.old)) (pair (D.file disk.new) (own_role self.old)) act
            ⊎ Moves (pair (D.file disk.old) (own_role self.old)) (pair (D.file disk.new) (own_role self.old)) act) }
        ensures keeps { OnOk result (keeps self.new (D.file disk.new)) }
        ensures role { own_role self.new ≡ own_role self.old }
        ensures found { finding self.new ≡ finding self.old }
        ensures formed { formed (D.file disk.new) (own_role self.old) }
        ensures others { OnlyOfRole (own_role self.old) (D.file disk.old) (D.file disk.new) }
        ensures counts { CountsCall (counts D.Disk disk.old) (counts D.Disk disk.new) result StoreFault.Stopped };

    /// Drops what the action has prepared; true where it was prepared. It takes no memory. States that a stopped commit
    /// of the action has committed stay.
    fn abort<D: Disk>(&mut self, disk: &mut D, act: Uid) -> Result<bool, StoreFault>
        requires keeps { keeps self.old (D.file disk.old) }
        requires formed { formed (D.file disk.old) (own_role self.old) }
        ensures answer { IfOk result (λ was. (was ≡ true) ↔ IsSome ((pair (D.file disk.old) (own_role self.old)).pend act)) }
        ensures dropped { OnOk result (Drops (pair (D.file disk.old) (own_role self.old)) (pair (D.file disk.new) (own_role self.old)) act) }
        ensures fault { OnErr result (SamePair (pair (D.file disk.old) (own_role self.old)) (pair (D.file disk.new) (own_role self.old))
            ⊎ Drops (pair (D.file disk.old) (own_role self.old)) (pair (D.file disk.new) (own_role self.old)) act) }
        ensures memory { IsErrOf result StoreFault.Memory → ⊥ }
        ensures keeps { OnOk result (keeps self.new (D.file disk.new)) }
        ensures role { own_role self.new ≡ own_role self.old }
        ensures found { finding self.new ≡ finding self.old }
        ensures formed { formed (D.file disk.new) (own_role self.old) }
        ensures others { OnlyOfRole (own_role self.old) (D.file disk.old) (D.file disk.new) }
        ensures counts { CountsCall (counts D.Disk disk.old) (counts D.Disk disk.new) result StoreFault.Stopped };

    /// The action that has prepared a new state of the object.
    fn holder(&self, uid: Uid) -> Option<Uid>
        ensures { (file : Slot → Option (List ℕ)) → keeps self.now file → MatchOption result (InDoubt (pair file (own_role self.now)) uid → ⊥)
            (λ act. names ((pair file (own_role self.now)).pend act) uid) };

    /// The prepared actions, in increasing order.
    fn actions(&self, alloc: Global) -> Result<Uids, AllocError>
        ensures { IfOk result (λ actions. (file : Slot → Option (List ℕ)) → keeps self.now file → ListsActions (pair file (own_role self.now)) actions) };

    /// Whether the action is prepared.
    fn is_prepared(&self, act: Uid) -> bool
        ensures { (file : Slot → Option (List ℕ)) → keeps self.now file → (result ≡ true) ↔ IsSome ((pair file (own_role self.now)).pend act) };

    /// Whether no action is prepared.
    fn is_clear(&self) -> bool
        ensures { (file : Slot → Option (List ℕ)) → keeps self.now file → (result ≡ true) ↔ ((a : Uid) → (pair file (own_role self.now)).pend a ≡ None) };

    /// What the recovery found for the naming service; for the object store, and after a format, nothing.
    fn found(&self) -> &Found
        ensures { result.now ≡ finding self.now };

    /// The store goes on answering by its files while those of other roles change.
    ghost keeps_on: { (store : Self) (old new : Slot → Option (List ℕ)) → SameOfRole (own_role store) old new → keeps store old → keeps store new };

    /// What changes no file of the role leaves its files formed, and its pair.
    ghost stays: { (r : Role) (old new : Slot → Option (List ℕ)) → SameOfRole r old new → formed old r → formed new r × SamePair (pair old r) (pair new r) };

    /// Files among which there is none of the role are formed for it, and its pair is empty.
    ghost blank: { (r : Role) (file : Slot → Option (List ℕ)) → ((q : Slot) → slot_role q ≡ Some r → file q ≡ None) → formed file r × HasOnly (pair file r) [] };

    /// Where the files are formed, the pair is sound.
    ghost sound: { (r : Role) (file : Slot → Option (List ℕ)) → formed file r → IsSound r (pair file r) };
}
