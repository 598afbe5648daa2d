// Object states in messages, and values of objects.
ghost use Rattle.std.specs.Prelude.{◌≡◌, ◌<◌, ◌++◌, length, true, IfOk, OnOk};
ghost use Rattle.byteorder.specs.Endian.{big_bytes};
ghost use Rattle.arj_class.specs.Table.{class_of, is_value_of};
ghost use Rattle.std.specs.Option.{option_map};
ghost use Rattle.arj_class.specs.declared.value.Value.{Value};
ghost use Rattle.arj_msg.specs.Format.{Gives};
ghost use Rattle.arj_msg.specs.State.{state, cut_long, object_class, payload_in, state_from, value_from, value_there};
ghost use Rattle.arj_msg.specs.Sendable.{StateSends};

use crate::fault::ReadFault;
use crate::field::{Field, read_byte};
use arj_base::{
    Bytes, Class, Format, ObjectState, StateFault, class_code, class_of_code, pack, unpack,
};
use arj_class::{ClassFault, Value};
use byteorder::{BigEndian, ByteOrder};
use std::alloc::{AllocError, Global};

impl Field for ObjectState {
    ghost format = { state };

    ghost sends = { StateSends };

    #[tactic(auto, unfolding(crate::specs::State::state))]
    fn read(alloc: Global, bytes: &[u8]) -> Result<(ObjectState, &[u8]), ReadFault> {
        let Some((packed, rest)) = behind_length(bytes) else {
            return Err(ReadFault::Left(bytes.len()));
        };
        match restorable(alloc, packed)? {
            Some(state) => Ok((state, rest)),
            None => Err(ReadFault::Left(bytes.len())),
        }
    }

    #[tactic(auto, using(std::proofs::lemmas::List::append_assoc), unfolding(crate::specs::State::state))]
    fn put(&self, out: &mut Bytes) -> Result<(), AllocError> {
        let packed = pack(out.allocator(), self)?;
        put_long_bytes(packed.as_slice(), out)
    }
}

/// The value of an object that is there.
impl Field for Value {
    ghost format = { value_there };

    ghost sends = { λ (v : Value). is_value_of (class_of v) v ≡ true };

    #[tactic(auto, unfolding(crate::specs::State::value_there))]
    fn read(alloc: Global, bytes: &[u8]) -> Result<(Value, &[u8]), ReadFault> {
        let (class, rest) = read_class(bytes)?;
        read_payload(alloc, class, rest)
    }

    #[tactic(auto, using(std::proofs::lemmas::List::append_assoc, crate::proofs::ValueLaws::coded_there), unfolding(crate::specs::State::value_there, crate::specs::State::object_class, crate::specs::State::payload_in, crate::specs::Format::byte))]
    fn put(&self, out: &mut Bytes) -> Result<(), AllocError> {
        let payload = self.save_state(out.allocator())?;
        out.push(class_code(self.class()))?;
        put_long_bytes(payload.as_slice(), out)
    }
}

/// Reads the class of an object.
#[tactic(auto, unfolding(crate::specs::State::object_class))]
fn read_class(bytes: &[u8]) -> Result<(Class, &[u8]), ReadFault>
    ensures { Gives (λ x. (x.0, x.1.now)) result (object_class.read bytes.now) }
{
    let (code, rest) = read_byte(bytes, 1, 5)?;
    match class_of_code(code) {
        Some(class) => Ok((class, rest)),
        None => Err(ReadFault::Left(bytes.len())),
    }
}

/// Reads a value of the class, its payload behind its length.
#[tactic(auto, unfolding(crate::specs::State::payload_in))]
fn read_payload(alloc: Global, class: Class, bytes: &[u8]) -> Result<(Value, &[u8]), ReadFault>
    ensures { Gives (λ x. (x.0, x.1.now)) result ((payload_in class).read bytes.now) }
{
    let Some((payload, rest)) = behind_length(bytes) else {
        return Err(ReadFault::Left(bytes.len()));
    };
    match restored(alloc, class, Format::Two, payload)? {
        Some(value) => Ok((value, rest)),
        None => Err(ReadFault::Left(bytes.len())),
    }
}

/// Puts bytes at the end, behind their length of two bytes.
#[tactic(auto, using(std::proofs::lemmas::List::append_assoc))]
fn put_long_bytes(bytes: &[u8], out: &mut Bytes) -> Result<(), AllocError>
    requires { length bytes.now < 65536 }
    ensures { OnOk result (out.new ≡ out.old ++ (big_bytes 2 (length bytes.now) ++ bytes.now)) }
{
    let mut length = [0; 2];
    BigEndian::write_u16(&mut length, bytes.len() as u16);
    out.extend(&length)?;
    out.extend(bytes)
}

/// The bytes behind a length of two bytes, as many as it says, and the bytes behind those.
fn behind_length(bytes: &[u8]) -> Option<(&[u8], &[u8])>
    ensures { option_map (λ p. (p.0.now, p.1.now)) result ≡ cut_long bytes.now }
{
    let (length, behind) = bytes.split_first_chunk::<2>()?;
    let length = usize::from(u16::from_be_bytes(*length));
    if behind.len() < length {
        return None;
    }
    Some(behind.split_at(length))
}

/// The object state that these bytes pack, all of them, where its payload restores to a value of its class.
fn restorable(alloc: Global, packed: &[u8]) -> Result<Option<ObjectState>, AllocError>
    ensures { IfOk result (λ found. found ≡ state_from packed.now) }
{
    let state = match unpack(alloc, packed) {
        Ok(state) => state,
        Err(fault) => {
            return match fault {
                StateFault::Memory => Err(AllocError),
                _ => Ok(None),
            };
        }
    };
    match restored(alloc, state.class, state.format, state.payload.as_slice())? {
        Some(_) => Ok(Some(state)),
        None => Ok(None),
    }
}

/// The value of the class that is saved to this payload and that the format holds, if there is one.
fn restored(
    alloc: Global,
    class: Class,
    format: Format,
    payload: &[u8],
) -> Result<Option<Value>, AllocError>
    ensures { IfOk result (λ found. found ≡ value_from format class payload.now) }
{
    match Value::restore_state(alloc, class, format, payload) {
        Ok(value) => Ok(Some(value)),
        Err(ClassFault::Payload) => Ok(None),
        Err(ClassFault::Memory) => Err(AllocError),
    }
}
