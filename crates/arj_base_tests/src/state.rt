// The packed form of a state.
ghost use Rattle.std.specs.Prelude.{◌≡◌};

use arj_base::{Bytes, Class, Format, ObjectState, Uid, object_uid, pack, unpack};
use std::alloc::{AllocError, Global};
use std::test::Fail;

// Object 1, a counter of value 5, in its first version, written by the action 1.1.1.
const PACKED: [u8; 55] = [
    0x41, 0x52, 0x4a, 0x31, 0, 0, 0, 0, 0, 0, 0, 0, 0, 0, 0, 0, 0, 0, 0, 1, 1, 0, 0, 0, 0, 0, 0, 0,
    1, 0, 0, 0, 1, 0, 0, 0, 1, 0, 0, 0, 0, 0, 0, 0, 1, 0, 8, 0, 0, 0, 0, 0, 0, 0, 5,
];

// The same in format two.
const PACKED_TWO: [u8; 56] = [
    0x41, 0x52, 0x4a, 0x32, 0, 0, 0, 0, 0, 0, 0, 0, 0, 0, 0, 0, 0, 0, 0, 1, 1, 1, 0, 0, 0, 0, 0, 0,
    0, 1, 0, 0, 0, 1, 0, 0, 0, 1, 0, 0, 0, 0, 0, 0, 0, 1, 0, 8, 0, 0, 0, 0, 0, 0, 0, 5,
];

const WRITER: Uid = Uid {
    node: 1,
    inc: 1,
    num: 1,
};

fn state(format: Format, payload: Bytes) -> ObjectState
    ensures { result.payload ≡ payload }
{
    ObjectState {
        uid: object_uid(1),
        class: Class::Counter,
        version: 1,
        writer: WRITER,
        payload,
        format,
    }
}

// Whether a state is that one but for its class and its format, field by field.
fn is_that_state(state: &ObjectState, class: Class, format: Format) -> bool {
    if state.uid != object_uid(1) || state.class != class || state.format != format {
        return false;
    }
    if state.version != 1 || state.writer != WRITER {
        return false;
    }
    state.payload.as_slice() == &PACKED[47..]
}

// Whether a copy of these bytes is the end of the packed state.
fn copies(payload: &Bytes) -> Result<bool, AllocError> {
    Ok(payload.copy()?.as_slice() == &PACKED[47..])
}

// Whether the state packs to these bytes.
fn packs_to(alloc: Global, format: Format, want: &[u8]) -> Result<bool, AllocError> {
    let mut payload = Bytes::new(alloc);
    payload.extend(&[0, 0, 0, 0, 0, 0, 0, 5])?;
    if !copies(&payload)? {
        return Ok(false);
    }
    Ok(pack(alloc, &state(format, payload))?.as_slice() == want)
}

#[test]
fn packs(rt: HostRuntime) -> Result<(), Fail> {
    assert!(rt; packs_to(rt.alloc(), Format::One, &PACKED)?);
    assert!(rt; packs_to(rt.alloc(), Format::Two, &PACKED_TWO)?);
    Ok(())
}

// Whether the bytes are the packed state with this class and this format.
fn unpacks_to(alloc: Global, bytes: &[u8], class: Class, format: Format) -> Result<bool, Fail> {
    Ok(is_that_state(&unpack(alloc, bytes)?, class, format))
}

// So many of these bytes, with this one at this place. Zeros stand behind their end.
fn altered(
    alloc: Global,
    packed: &[u8],
    length: usize,
    change: (usize, u8),
) -> Result<Bytes, Fail> {
    let mut bytes = Bytes::new(alloc);
    for place in 0..length {
        bytes.push(byte_at(packed, place, change))?;
    }
    Ok(bytes)
}

fn byte_at(packed: &[u8], place: usize, change: (usize, u8)) -> u8 {
    if place == change.0 {
        return change.1;
    }
    packed.get(place).copied().unwrap_or(0)
}

// The packed state of an object that is gone.
fn gone_unpacks(alloc: Global) -> Result<bool, Fail> {
    let gone = altered(alloc, &PACKED, PACKED.len(), (20, 6))?;
    unpacks_to(alloc, gone.as_slice(), Class::Gone, Format::One)
}

fn is_text_of_writer(alloc: Global, text: &[u8]) -> Result<bool, Fail> {
    Ok(WRITER.text(alloc)?.as_slice() == text)
}

#[test]
fn unpacks(rt: HostRuntime) -> Result<(), Fail> {
    assert!(rt; unpacks_to(rt.alloc(), &PACKED, Class::Counter, Format::One)?);
    assert!(rt; unpacks_to(rt.alloc(), &PACKED_TWO, Class::Counter, Format::Two)?);
    assert!(rt; gone_unpacks(rt.alloc())?);
    assert!(rt; is_text_of_writer(rt.alloc(), b"1.1.1")?);
    Ok(())
}

// How many of which bytes, the byte that is another one and its place, and the fault.
type Faulty = (&'static [u8], usize, (usize, u8), &'static str);

const FAULTS: &[Faulty] = &[
    (&PACKED, 0, (0, 0x41), "too few bytes"),
    (&PACKED, 46, (0, 0x41), "too few bytes"),
    (&PACKED_TWO, 47, (0, 0x41), "too few bytes"),
    (&PACKED, 55, (0, 0x42), "not a packed state"),
    (&PACKED, 55, (20, 7), "no such class"),
    (&PACKED_TWO, 56, (21, 2), "no such version of the class"),
    (&PACKED, 56, (0, 0x41), "wrong length of payload"),
    (&PACKED, 47, (0, 0x41), "wrong length of payload"),
];

// Whether the bytes are no packed state, for that fault.
fn is_fault(alloc: Global, bytes: &[u8], want: &str) -> Result<bool, Fail> {
    match unpack(alloc, bytes) {
        Ok(_) => Ok(false),
        Err(fault) => Ok(format!(in alloc; "{fault}")?.as_str() == want),
    }
}

fn is_faulty(alloc: Global, row: &Faulty) -> Result<bool, Fail> {
    let bytes = altered(alloc, row.0, row.1, row.2)?;
    is_fault(alloc, bytes.as_slice(), row.3)
}

#[test]
fn names_the_first_fault(rt: HostRuntime) -> Result<(), Fail> {
    for row in FAULTS {
        assert!(rt; is_faulty(rt.alloc(), row)?, "{}", row.3);
    }
    Ok(())
}
