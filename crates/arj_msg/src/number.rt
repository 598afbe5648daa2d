// Numbers, and what is written as one number.
ghost use Rattle.arj_msg.specs.Fields.{node, object, number4, number8, binding, uid, flag, mode, outcome};
ghost use Rattle.std.specs.Prelude.{⊤};
ghost use Rattle.arj_msg.specs.InForm.{IsNode, IsObject};

use crate::fault::ReadFault;
use crate::field::{Field, read_byte};
use arj_base::{Binding, Bytes, End, Mode, Uid};
use byteorder::{BigEndian, ByteOrder};
use std::alloc::{AllocError, Global};

/// A node, 1 to 16.
impl Field for u8 {
    ghost format = { node };

    ghost sends = { IsNode };

    #[tactic(auto, unfolding(crate::specs::Fields::node))]
    fn read(_: Global, bytes: &[u8]) -> Result<(u8, &[u8]), ReadFault> {
        read_byte(bytes, 1, 16)
    }

    #[tactic(auto, unfolding(crate::specs::Fields::node, crate::specs::Format::byte))]
    fn put(&self, out: &mut Bytes) -> Result<(), AllocError> {
        out.push(*self)
    }
}

/// An object, 1 to 256.
impl Field for u16 {
    ghost format = { object };

    ghost sends = { IsObject };

    #[tactic(auto, unfolding(crate::specs::Fields::object))]
    fn read(_: Global, bytes: &[u8]) -> Result<(u16, &[u8]), ReadFault> {
        let Some((number, rest)) = bytes.split_first_chunk::<2>() else {
            return Err(ReadFault::Left(bytes.len()));
        };
        let x = u16::from_be_bytes(*number);
        if x < 1 || 256 < x {
            return Err(ReadFault::Left(bytes.len()));
        }
        Ok((x, rest))
    }

    #[tactic(auto, unfolding(crate::specs::Fields::object))]
    fn put(&self, out: &mut Bytes) -> Result<(), AllocError> {
        let mut bytes = [0; 2];
        BigEndian::write_u16(&mut bytes, *self);
        out.extend(&bytes)
    }
}

/// An incarnation or a request number.
impl Field for u32 {
    ghost format = { number4 };

    ghost sends = { λ _. ⊤ };

    #[tactic(auto, unfolding(crate::specs::Fields::number4))]
    fn read(_: Global, bytes: &[u8]) -> Result<(u32, &[u8]), ReadFault> {
        let Some((number, rest)) = bytes.split_first_chunk::<4>() else {
            return Err(ReadFault::Left(bytes.len()));
        };
        Ok((u32::from_be_bytes(*number), rest))
    }

    #[tactic(auto, unfolding(crate::specs::Fields::number4))]
    fn put(&self, out: &mut Bytes) -> Result<(), AllocError> {
        let mut bytes = [0; 4];
        BigEndian::write_u32(&mut bytes, *self);
        out.extend(&bytes)
    }
}

/// A number of an operation or an answer, or a version.
impl Field for u64 {
    ghost format = { number8 };

    ghost sends = { λ _. ⊤ };

    #[tactic(auto, unfolding(crate::specs::Fields::number8))]
    fn read(_: Global, bytes: &[u8]) -> Result<(u64, &[u8]), ReadFault> {
        let Some((number, rest)) = bytes.split_first_chunk::<8>() else {
            return Err(ReadFault::Left(bytes.len()));
        };
        Ok((u64::from_be_bytes(*number), rest))
    }

    #[tactic(auto, unfolding(crate::specs::Fields::number8))]
    fn put(&self, out: &mut Bytes) -> Result<(), AllocError> {
        let mut bytes = [0; 8];
        BigEndian::write_u64(&mut bytes, *self);
        out.extend(&bytes)
    }
}

impl Field for Binding {
    ghost format = { binding };

    ghost sends = { λ _. ⊤ };

    #[tactic(auto, unfolding(crate::specs::Fields::binding))]
    fn read(_: Global, bytes: &[u8]) -> Result<(Binding, &[u8]), ReadFault> {
        let Some((both, rest)) = bytes.split_first_chunk::<8>() else {
            return Err(ReadFault::Left(bytes.len()));
        };
        let [a, b, c, d, e, f, g, h] = *both;
        let inc = u32::from_be_bytes([a, b, c, d]);
        let count = u32::from_be_bytes([e, f, g, h]);
        Ok((Binding { inc, count }, rest))
    }

    #[tactic(auto, unfolding(crate::specs::Fields::binding))]
    fn put(&self, out: &mut Bytes) -> Result<(), AllocError> {
        let Binding { inc, count } = *self;
        let mut bytes = [0; 8];
        BigEndian::write_u32(&mut bytes[0..4], inc);
        BigEndian::write_u32(&mut bytes[4..8], count);
        out.extend(&bytes)
    }
}

impl Field for Uid {
    ghost format = { uid };

    ghost sends = { λ _. ⊤ };

    #[tactic(auto, unfolding(crate::specs::Fields::uid))]
    fn read(_: Global, bytes: &[u8]) -> Result<(Uid, &[u8]), ReadFault> {
        let Some((uid, rest)) = bytes.split_first_chunk::<16>() else {
            return Err(ReadFault::Left(bytes.len()));
        };
        Ok((Uid::from_bytes(uid), rest))
    }

    #[tactic(auto, unfolding(crate::specs::Fields::uid))]
    fn put(&self, out: &mut Bytes) -> Result<(), AllocError> {
        out.extend(&self.to_bytes())
    }
}

impl Field for bool {
    ghost format = { flag };

    ghost sends = { λ _. ⊤ };

    #[tactic(auto, unfolding(crate::specs::Fields::flag))]
    fn read(_: Global, bytes: &[u8]) -> Result<(bool, &[u8]), ReadFault> {
        let (code, rest) = read_byte(bytes, 0, 1)?;
        Ok((code == 1, rest))
    }

    #[tactic(auto, unfolding(crate::specs::Fields::flag, crate::specs::Format::byte))]
    fn put(&self, out: &mut Bytes) -> Result<(), AllocError> {
        out.push(u8::from(*self))
    }
}

impl Field for Mode {
    ghost format = { mode };

    ghost sends = { λ _. ⊤ };

    #[tactic(auto, unfolding(crate::specs::Fields::mode))]
    fn read(_: Global, bytes: &[u8]) -> Result<(Mode, &[u8]), ReadFault> {
        let (code, rest) = read_byte(bytes, 0, 2)?;
        match code {
            0 => Ok((Mode::Read, rest)),
            1 => Ok((Mode::Exclude, rest)),
            _ => Ok((Mode::Write, rest)),
        }
    }

    #[tactic(auto, unfolding(crate::specs::Fields::mode, crate::specs::Format::byte))]
    fn put(&self, out: &mut Bytes) -> Result<(), AllocError> {
        match self {
            Mode::Read => out.push(0),
            Mode::Exclude => out.push(1),
            Mode::Write => out.push(2),
        }
    }
}

impl Field for End {
    ghost format = { outcome };

    ghost sends = { λ _. ⊤ };

    #[tactic(auto, unfolding(crate::specs::Fields::outcome))]
    fn read(_: Global, bytes: &[u8]) -> Result<(End, &[u8]), ReadFault> {
        let (code, rest) = read_byte(bytes, 0, 1)?;
        match code {
            0 => Ok((End::Abort, rest)),
            _ => Ok((End::Commit, rest)),
        }
    }

    #[tactic(auto, unfolding(crate::specs::Fields::outcome, crate::specs::Format::byte))]
    fn put(&self, out: &mut Bytes) -> Result<(), AllocError> {
        match self {
            End::Abort => out.push(0),
            End::Commit => out.push(1),
        }
    }
}
