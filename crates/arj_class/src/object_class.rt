// What every class of objects can do.
ghost use Rattle.std.specs.Prelude.{◌≡◌, ◌≢◌, ◌≤◌, ◌↔◌, length, None, IfOk, OnOk, OnErr, IsErrOf};
ghost use Rattle.arj_base.specs.declared.mode.Mode.TheVariants as lock_mode;
ghost use Rattle.arj_base.specs.declared.state.Class.{Class};
ghost use Rattle.arj_class.specs.declared.value.Value.{Value};
ghost use Rattle.arj_class.specs.declared.object_class.ClassFault.TheVariants.{Payload};
ghost use Rattle.arj_class.specs.declared.op.ApplyFault.TheVariants.{WrongOp};
ghost use Rattle.arj_class.specs.Table.{class_of, op_mode, class_mode_of, answer_of, value_after};
ghost use Rattle.arj_class.specs.Forms.{FormatHolds, OpInForm, ValueInForm, payload_of};

use crate::{Answer, ApplyFault, Op};
use arj_base::{Bytes, Format, Mode};
use std::alloc::{AllocError, AllocFailed, Global};
use thiserror::Error;

/// A class of objects: what its operations answer, and how a value is saved. Contracts see the class and what a
/// value is among the values of all classes.
pub trait ObjectClass: Sized {
    ghost class: { Class };

    ghost value: { Self → Value };

    /// The lock mode of an operation, None exactly for an operation that isn't of the class alone: not its own are those by which
    /// objects come and go.
    fn mode(op: &Op) -> Option<Mode>
        ensures { result ≡ class_mode_of class op.now };

    /// Does the operation and answers it. A fault leaves the value as it was.
    fn apply(&mut self, op: &Op) -> Result<Answer, ApplyFault>
        requires { OpInForm op.now }
        ensures answer { IfOk result (λ a. a ≡ answer_of op.now (value self.old)) }
        ensures value { OnOk result (value self.new ≡ value_after op.now (value self.old)) }
        ensures wrong_op { IsErrOf result WrongOp ↔ (class_mode_of class op.now ≡ None) }
        ensures err { OnErr result (self.new ≡ self.old) }
        ensures read { op_mode op.now ≡ lock_mode.Read → self.new ≡ self.old };

    /// The value as the payload of a packed state, at most 256 bytes.
    fn save_state(&self, alloc: Global) -> Result<Bytes, AllocError>
        ensures payload { IfOk result (λ payload. payload ≡ payload_of (value self.now)) }
        ensures short { IfOk result (λ payload. length payload ≤ 256) }
        ensures in_form { OnOk result (ValueInForm (value self.now)) };

    /// The one value that is saved to these bytes, and that the format holds.
    fn restore_state(alloc: Global, format: Format, payload: &[u8]) -> Result<Self, ClassFault>
        ensures payload { IfOk result (λ v. payload_of (value v) ≡ payload.now) }
        ensures in_form { IfOk result (λ v. ValueInForm (value v)) }
        ensures held { IfOk result (λ v. FormatHolds format (value v)) }
        ensures only { IfOk result (λ v. (w : Self) → ValueInForm (value w) → payload_of (value w) ≡ payload.now → w ≡ v) }
        ensures none { IsErrOf result Payload → (w : Self) → ValueInForm (value w) → FormatHolds format (value w) → payload_of (value w) ≢ payload.now };

    ghost of_class: { (v : Self) → class_of (value v) ≡ class };
}

/// Why bytes were not restored to a value.
#[derive(Debug, Drop, Error)]
pub enum ClassFault {
    /// No value of the class is saved to these bytes.
    #[error("not the payload of a value of this class")]
    Payload,
    /// Memory is wanting.
    #[error("out of memory")]
    Memory,
}

impl From<AllocError> for ClassFault {
    ghost use Rattle.std.specs.Prelude.{◌≡◌};
    ghost use Rattle.arj_class.specs.declared.object_class.ClassFault.TheVariants.{Memory};

    ghost from_gives = { λ _ e. e ≡ Memory };

    fn from(_: AllocError) -> ClassFault {
        ClassFault::Memory
    }
}

impl<T: Drop> From<AllocFailed<T>> for ClassFault {
    ghost use Rattle.std.specs.Prelude.{◌≡◌};
    ghost use Rattle.arj_class.specs.declared.object_class.ClassFault.TheVariants.{Memory};

    ghost from_gives = { λ _ e. e ≡ Memory };

    fn from(_: AllocFailed<T>) -> ClassFault {
        ClassFault::Memory
    }
}
