// Laws of Uids, of classes and of orders.
ghost use Rattle.std.specs.Prelude.{◌≡◌, ◌≢◌, true, false};
ghost use Rattle.std.specs.Cmp.{IsTotalOrder};
ghost use Rattle.std.specs.declared.cmp.Ordering.TheVariants.{Equal};
ghost use Rattle.arj_base.specs.Order.{uid_order, binding_order, mode_order};
ghost use Rattle.arj_base.specs.State.{class_code_of};
ghost use Rattle.arj_base.specs.Uid.{uid_eq};
ghost use Rattle.arj_base.specs.declared.binding.Binding.{Binding};
ghost use Rattle.arj_base.specs.declared.mode.Mode.{Mode};
ghost use Rattle.arj_base.specs.declared.state.Class.{Class};
ghost use Rattle.arj_base.specs.declared.uid.Uid.{Uid};

use crate::{Binding, Mode, Uid};

/// Uids are told apart by their three parts, and `==` tells them apart in this way. It does nothing when it runs.
pub fn uids_are_told_apart()
    ensures equal { (u w : Uid) → ⟦<Uid as PartialEq>⟧.eq u w ≡ uid_eq u w }
    ensures same { (u : Uid) → uid_eq u u ≡ true }
    ensures turned { (u w : Uid) → uid_eq u w ≡ uid_eq w u }
    ensures one { (u w : Uid) → uid_eq u w ≡ true → u ≡ w }
    ensures two { (u w : Uid) → uid_eq u w ≡ false → u ≢ w }
{}

/// Classes are told apart by their codes in packed states. It does nothing when it runs.
pub fn classes_are_told_apart()
    ensures { (c d : Class) → class_code_of c ≡ class_code_of d → c ≡ d }
{}

/// The orders in which Uids, bindings and modes are sorted, in memory and in every list that says "increasing": Uids by node,
/// incarnation and number, bindings by incarnation and count, modes from read over exclude to write. It does nothing
/// when it runs.
pub fn orders_are_by_fields()
    ensures uid { (u w : Uid) → ⟦<Uid as Ord>⟧.cmp u w ≡ uid_order u w }
    ensures uid_total { IsTotalOrder uid_order }
    ensures uid_exact { (u w : Uid) → uid_order u w ≡ Equal → u ≡ w }
    ensures binding { (b c : Binding) → ⟦<Binding as Ord>⟧.cmp b c ≡ binding_order b c }
    ensures binding_total { IsTotalOrder binding_order }
    ensures mode { (m n : Mode) → ⟦<Mode as Ord>⟧.cmp m n ≡ mode_order m n }
    ensures mode_total { IsTotalOrder mode_order }
{}
