// Bytes that are put and got, at most 192.
ghost use Rattle.std.specs.Prelude.{◌≡◌, ◌≤◌, length, refl, IfOk};
ghost use Rattle.arj_base.specs.declared.state.Class.TheVariants as class_variant;
ghost use Rattle.arj_class.specs.Forms.{ValueInForm, register_bytes_of};
ghost use Rattle.arj_class.specs.declared.value.Value.TheVariants as variant;

use crate::limits::{REGISTER_BYTES, REGISTER_BYTES_ONE};
use crate::{Answer, ApplyFault, ClassFault, ObjectClass, Op};
use arj_base::{Bytes, Format, Mode};
use std::alloc::{AllocError, Global};
use std::marker::Model;

/// Bytes that are put and got, at most 192. Contracts see it as those bytes.
#[derive(Drop)]
pub struct Register {
    bytes: Bytes,
}

impl Model for Register {
    ghost use Rattle.std.specs.Prelude.{ℕ, ◌≤◌, List, length};
    ghost use Rattle.arj_class.specs.declared.limits.TheConstants.{REGISTER_BYTES};

    ghost Value = { List ℕ };

    ghost view = { λ v. v.bytes };

    ghost invariant = { λ v. length v.bytes ≤ REGISTER_BYTES };
}

impl Register {
    /// A register with these bytes, at most 192.
    pub fn new(bytes: Bytes) -> Register
        requires { length bytes ≤ REGISTER_BYTES }
        ensures { result ≡ bytes }
    {
        Register { bytes }
    }

    /// The bytes that it holds.
    pub fn bytes(&self) -> &[u8]
        ensures { result.now ≡ self.now }
    {
        self.bytes.as_slice()
    }

    /// Another register with the same bytes.
    pub fn copy(&self, alloc: Global) -> Result<Register, AllocError>
        ensures { IfOk result (λ copied. copied ≡ self.now) }
    {
        let mut bytes = Bytes::new(alloc);
        bytes.extend(self.bytes.as_slice())?;
        Ok(Register { bytes })
    }

    /// Where its memory is from.
    pub(crate) fn allocator(&self) -> Global {
        self.bytes.allocator()
    }

    /// It is in form. It does nothing when it runs.
    pub(crate) fn in_form(&self)
        ensures { ValueInForm (variant.Register self.now) }
    {
        let _ = &self.bytes;
    }
}

impl ObjectClass for Register {
    ghost class = { class_variant.Register };

    ghost value = { variant.Register };

    fn mode(op: &Op) -> Option<Mode> {
        match op {
            Op::Get => Some(Mode::Read),
            Op::Put(_) => Some(Mode::Write),
            _ => None,
        }
    }

    fn apply(&mut self, op: &Op) -> Result<Answer, ApplyFault> {
        match op {
            Op::Get => Ok(Answer::Text(self.bytes.copy()?)),
            Op::Put(bytes) => {
                self.bytes = bytes.copy()?;
                Ok(Answer::Done)
            }
            _ => Err(ApplyFault::WrongOp),
        }
    }

    fn save_state(&self, alloc: Global) -> Result<Bytes, AllocError> {
        let mut payload = Bytes::new(alloc);
        payload.extend(self.bytes.as_slice())?;
        Ok(payload)
    }

    fn restore_state(
        alloc: Global,
        format: Format,
        payload: &[u8],
    ) -> Result<Register, ClassFault> {
        if payload.len() > register_bytes(format) {
            return Err(ClassFault::Payload);
        }
        let mut bytes = Bytes::new(alloc);
        bytes.extend(payload)?;
        Ok(Register { bytes })
    }

    ghost of_class = { λ v. refl };
}

/// How many bytes a register holds at most that is packed in this format.
pub fn register_bytes(format: Format) -> usize
    ensures most { result ≡ register_bytes_of format }
    ensures small { result ≤ REGISTER_BYTES }
{
    match format {
        Format::One => REGISTER_BYTES_ONE,
        Format::Two => REGISTER_BYTES,
    }
}
