// Object states, packed for a disk or a message.
ghost use Rattle.std.specs.Prelude.{◌≡◌, ◌≢◌, ◌+◌, ◌++◌, ◌<◌, ◌≤◌, ◌^◌, length, take, drop, IfOk, IfErr, OnOk, MatchOption};
ghost use Rattle.arj_base.specs.State.{state_bytes, class_bytes, version_fits, version_of_code, version_after, class_code_of, is_object_class as is_of_objects, state_fault, named_fault, StateInForm};
ghost use Rattle.arj_base.specs.declared.state.ObjectState.{ObjectState};
ghost use Rattle.arj_base.specs.declared.state.StateFault.TheVariants as fault;
ghost use Rattle.byteorder.specs.Endian.{big_bytes};

use crate::{Bytes, LAST_VERSION, MOST_BYTES, Uid};
use byteorder::{BigEndian, ByteOrder};
use std::alloc::{AllocError, AllocFailed, Global};
use thiserror::Error;

/// The class of an object, of a naming entry, or of an object that is gone. Its code in a packed state is its place here,
/// from 0.
#[derive(Clone, Copy, Debug, PartialEq, Eq)]
pub enum Class {
    Entry,
    Counter,
    Register,
    Account,
    Queue,
    Table,
    Gone,
}

/// How a state is packed: states are written in format two, and those of format one are read for ever.
#[derive(Clone, Copy, Debug, PartialEq, Eq)]
pub enum Format {
    /// `ARJ1`: a register has at most 64 bytes.
    One,
    /// `ARJ2`: the class has a version, and a register at most 192 bytes.
    Two,
}

impl Format {
    ghost use Rattle.arj_base.specs.State.{behind_class, format_in, format_mark};

    // What a packed state begins with.
    fn mark(self) -> [u8; 4]
        ensures { result ≡ format_mark self }
    {
        match self {
            Format::One => *b"ARJ1",
            Format::Two => *b"ARJ2",
        }
    }

    // The format that bytes begin with.
    fn of(bytes: &[u8]) -> Option<Format>
        ensures { result ≡ format_in bytes.now }
    {
        if bytes.starts_with(b"ARJ1") {
            return Some(Format::One);
        }
        bytes.starts_with(b"ARJ2").then_some(Format::Two)
    }

    // Where the class ends in a packed state.
    fn behind_class(self) -> usize
        ensures ends { result ≡ behind_class self }
        ensures small { result ≤ 22 }
        ensures far { 21 ≤ result }
    {
        match self {
            Format::One => 21,
            Format::Two => 22,
        }
    }
}

/// The state of an object as its store keeps it: the version counts the commits that wrote it, and the writer is
/// the action of the last of them (0.0.0 at first). The payload is the value as its class packs it.
#[derive(Drop)]
pub struct ObjectState {
    pub uid: Uid,
    pub class: Class,
    pub version: u64,
    pub writer: Uid,
    pub payload: Bytes,
    pub format: Format,
}

/// Why bytes are no packed state, in the order in which they are tested.
#[derive(Debug, Drop, Error)]
pub enum StateFault {
    /// Too few bytes for the fixed fields.
    #[error("too few bytes")]
    Short,
    /// They begin neither with `ARJ1` nor with `ARJ2`.
    #[error("not a packed state")]
    Magic,
    /// There is no class with this code.
    #[error("no such class")]
    Class,
    /// The length of the payload isn't the number of bytes that follow.
    #[error("wrong length of payload")]
    Length,
    /// Memory is wanting.
    #[error("out of memory")]
    Memory,
    /// The class version is another than the class has.
    #[error("no such version of the class")]
    ClassVersion,
}

impl From<AllocError> for StateFault {
    ghost use Rattle.std.specs.Prelude.{◌≡◌};
    ghost use Rattle.arj_base.specs.declared.state.StateFault.TheVariants.{Memory};

    ghost from_gives = { λ _ e. e ≡ Memory };

    fn from(_: AllocError) -> StateFault {
        StateFault::Memory
    }
}

impl<T: Drop> From<AllocFailed<T>> for StateFault {
    ghost use Rattle.std.specs.Prelude.{◌≡◌};
    ghost use Rattle.arj_base.specs.declared.state.StateFault.TheVariants.{Memory};

    ghost from_gives = { λ _ e. e ≡ Memory };

    fn from(_: AllocFailed<T>) -> StateFault {
        StateFault::Memory
    }
}

/// The version of the state that the next commit writes: the last version stands still.
pub fn next_version(version: u64) -> u64
    ensures after { result ≡ version_after version }
    ensures rises { version < LAST_VERSION → result ≡ version + 1 }
    ensures later { version ≤ result }
{
    version.saturating_add(1)
}

/// Packs a state: the one spelling of a state in files and messages.
#[tactic(auto, using(std::proofs::lemmas::List::append_assoc))]
pub fn pack(alloc: Global, state: &ObjectState) -> Result<Bytes, AllocError>
    requires { length state.now.payload < MOST_BYTES + 1 }
    ensures bytes { IfOk result (λ bytes. bytes ≡ state_bytes state.now) }
    ensures in_form { OnOk result (StateInForm state.now) }
{
    let length = state.payload.as_slice().len() as u16;
    // Before the payload stand 48 bytes at most.
    let room = Vec::with_capacity(alloc, 48 + usize::from(length))?;
    let mut packed = Bytes::from_vec(room);
    packed.extend(&state.format.mark())?;
    packed.extend(&state.uid.to_bytes())?;
    put_class(&mut packed, state.format, state.class)?;
    packed.extend(&eight(state.version))?;
    packed.extend(&state.writer.to_bytes())?;
    packed.extend(&two(length))?;
    packed.extend(state.payload.as_slice())?;
    Ok(packed)
}

// Puts the class at the end, in format two with its version.
fn put_class(packed: &mut Bytes, format: Format, class: Class) -> Result<(), AllocError>
    ensures ok { OnOk result (packed.new ≡ packed.old ++ class_bytes format class) }
{
    let code = class_code(class);
    match format {
        Format::One => packed.push(code),
        Format::Two => packed.extend(&[code, version_of(code)]),
    }
}

/// Reads a packed state: exactly what `pack` writes, and nothing behind it.
pub fn unpack(alloc: Global, bytes: &[u8]) -> Result<ObjectState, StateFault>
    ensures packed { IfOk result (λ s. bytes.now ≡ state_bytes s) }
    ensures in_form { IfOk result (λ s. StateInForm s) }
    ensures only { IfOk result (λ s. (t : ObjectState) → StateInForm t → state_bytes t ≡ bytes.now → t ≡ s) }
    ensures fault { named_fault result ≡ state_fault bytes.now }
    ensures none { IfErr result (λ e. e ≢ fault.Memory → (s : ObjectState) → length s.payload < MOST_BYTES + 1 → state_bytes s ≢ bytes.now) }
{
    if bytes.len() < 4 {
        return Err(StateFault::Short);
    }
    let Some(format) = Format::of(bytes) else {
        return Err(StateFault::Magic);
    };
    let at = format.behind_class();
    if bytes.len() < at + 26 {
        return Err(StateFault::Short);
    }
    let Some(class) = class_of_code(bytes[20]) else {
        return Err(StateFault::Class);
    };
    if !has_version(format, bytes) {
        return Err(StateFault::ClassVersion);
    }
    let length = from_two(&field::<2>(bytes, at + 24));
    if usize::from(length) != bytes.len() - (at + 26) {
        return Err(StateFault::Length);
    }
    let mut payload = Bytes::new(alloc);
    payload.extend(&bytes[at + 26..])?;
    Ok(ObjectState {
        uid: Uid::from_bytes(&field::<16>(bytes, 4)),
        class,
        version: from_eight(&field::<8>(bytes, at)),
        writer: Uid::from_bytes(&field::<16>(bytes, at + 8)),
        payload,
        format,
    })
}

// Whether the class version is the one that the class has.
fn has_version(format: Format, bytes: &[u8]) -> bool
    requires { 22 ≤ length bytes.now }
    ensures { result ≡ version_fits format bytes.now }
{
    match format {
        Format::One => true,
        Format::Two => bytes[21] == version_of(bytes[20]),
    }
}

// The class version of the class with this code.
fn version_of(code: u8) -> u8
    ensures { result ≡ version_of_code code }
{
    if code == 2 { 2 } else { 1 }
}

/// The N bytes from a place on.
fn field<const N: usize>(bytes: &[u8], at: usize) -> [u8; N]
    requires { at + N ≤ length bytes.now }
    ensures { result ≡ take N (drop at bytes.now) }
{
    let mut field = [0; N];
    field.copy_from_slice(&bytes[at..at + N]);
    field
}

/// The class with this code in a packed state, None exactly where no class has it.
pub fn class_of_code(code: u8) -> Option<Class>
    ensures { MatchOption result (6 < code) (λ class. class_code_of class ≡ code) }
{
    match code {
        0 => Some(Class::Entry),
        1 => Some(Class::Counter),
        2 => Some(Class::Register),
        3 => Some(Class::Account),
        4 => Some(Class::Queue),
        5 => Some(Class::Table),
        6 => Some(Class::Gone),
        _ => None,
    }
}

/// The code of a class in a packed state, from 0 to 6.
pub fn class_code(class: Class) -> u8
    ensures { result ≡ class_code_of class }
{
    match class {
        Class::Entry => 0,
        Class::Counter => 1,
        Class::Register => 2,
        Class::Account => 3,
        Class::Queue => 4,
        Class::Table => 5,
        Class::Gone => 6,
    }
}

/// Whether objects have this class: neither naming entries' nor that of what is gone.
pub fn is_object_class(class: Class) -> bool
    ensures { result ≡ is_of_objects class }
{
    match class {
        Class::Entry | Class::Gone => false,
        _ => true,
    }
}

// A number in eight bytes, high byte first.
fn eight(n: u64) -> [u8; 8]
    ensures { result ≡ big_bytes 8 n }
{
    let mut bytes = [0; 8];
    BigEndian::write_u64(&mut bytes, n);
    bytes
}

// A number in two bytes, high byte first.
fn two(n: u16) -> [u8; 2]
    ensures { result ≡ big_bytes 2 n }
{
    let mut bytes = [0; 2];
    BigEndian::write_u16(&mut bytes, n);
    bytes
}

/// The number with these eight bytes.
#[tactic(auto, using(std::proofs::lemmas::Nat::be_bytes_8))]
pub fn from_eight(bytes: &[u8; 8]) -> u64
    ensures { big_bytes 8 result ≡ bytes.now }
{
    u64::from_be_bytes(*bytes)
}

// The number with these two bytes.
#[tactic(auto, using(std::proofs::lemmas::Nat::be_bytes_2))]
fn from_two(bytes: &[u8; 2]) -> u16
    ensures { big_bytes 2 result ≡ bytes.now }
{
    u16::from_be_bytes(*bytes)
}
