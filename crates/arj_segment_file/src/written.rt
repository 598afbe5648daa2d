// The bytes of a Segment or Pending file.
ghost use Rattle.std.specs.Prelude.{◌≡◌, ◌++◌, ◌≤◌, length, flat_map, IfOk, OnOk};
ghost use Rattle.std.specs.List.{AllByRecursion};
ghost use Rattle.arj_base.specs.State.{state_bytes};
ghost use Rattle.arj_base.specs.declared.limits.TheConstants.{MOST_BYTES};
ghost use Rattle.arj_disk.specs.declared.limits.TheConstants.{MOST_KNOWN};
ghost use Rattle.arj_segment_file.specs.Format.{row_of, row_bytes, segment_bytes, FitsRow};
ghost use Rattle.byteorder.specs.Endian.{big_bytes};

use arj_base::{Bytes, ObjectState, pack};
use byteorder::{BigEndian, ByteOrder};
use std::alloc::{AllocError, Global};

/// The file of these states: `ARJS`, their count, and a row for each.
#[tactic(auto, using(std::proofs::lemmas::List::append_assoc))]
pub fn file_of(alloc: Global, states: &[ObjectState]) -> Result<Bytes, AllocError>
    requires count { length states.now ≤ MOST_KNOWN }
    requires sizes { AllByRecursion (λ s. length (state_bytes s) ≤ MOST_BYTES) states.now }
    ensures bytes { IfOk result (λ bytes. bytes ≡ segment_bytes states.now) }
    ensures fit { OnOk result (AllByRecursion FitsRow states.now) }
{
    let count = states.len() as u16;
    // The row of a number has 58 bytes.
    let room = Vec::with_capacity(alloc, 64 * states.len())?;
    let mut bytes = Bytes::from_vec(room);
    bytes.extend(b"ARJS")?;
    bytes.extend(&two(count))?;
    put_rows(alloc, &mut bytes, states)?;
    Ok(bytes)
}

// Puts the rows of states at the end.
fn put_rows(alloc: Global, bytes: &mut Bytes, states: &[ObjectState]) -> Result<(), AllocError>
    requires { AllByRecursion (λ s. length (state_bytes s) ≤ MOST_BYTES) states.now }
    ensures ok { OnOk result (bytes.new ≡ bytes.old ++ flat_map row_bytes states.now) }
    ensures fit { OnOk result (AllByRecursion FitsRow states.now) }
{
    for state in states {
        put_row(alloc, bytes, state)?;
    }
    Ok(())
}

// Puts the row of a state at the end.
fn put_row(alloc: Global, bytes: &mut Bytes, state: &ObjectState) -> Result<(), AllocError>
    requires { length (state_bytes state.now) ≤ MOST_BYTES }
    ensures ok { OnOk result (bytes.new ≡ bytes.old ++ row_bytes state.now) }
    ensures fit { OnOk result (FitsRow state.now) }
{
    let packed = pack(alloc, state)?;
    put_packed(bytes, packed.as_slice())
}

// Puts a packed state behind its length at the end.
#[tactic(auto, using(std::proofs::lemmas::List::append_assoc))]
fn put_packed(bytes: &mut Bytes, packed: &[u8]) -> Result<(), AllocError>
    requires { length packed.now ≤ MOST_BYTES }
    ensures { OnOk result (bytes.new ≡ bytes.old ++ row_of packed.now) }
{
    let length = packed.len() as u16;
    bytes.extend(&two(length))?;
    bytes.extend(packed)
}

// A number in two bytes, high byte first.
fn two(n: u16) -> [u8; 2]
    ensures { result ≡ big_bytes 2 n }
{
    let mut bytes = [0; 2];
    BigEndian::write_u16(&mut bytes, n);
    bytes
}
