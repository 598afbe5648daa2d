// What stands in messages: how each type of value is read and put. The layouts are formats of `specs/`.
ghost use Rattle.std.specs.Prelude.{◌≡◌, ◌≤◌, ◌<◌, ◌++◌, length, OnOk};
ghost use Rattle.std.specs.List.{flat_map, AllByRecursion};
ghost use Rattle.arj_msg.specs.Fields.{long_list};
ghost use Rattle.arj_msg.specs.InForm.{AreFew, AreMany};
ghost use Rattle.arj_msg.specs.Format.{Format, Gives, byte, both, list, read_many};

use crate::fault::ReadFault;
use arj_base::{Bytes, Seq};
use byteorder::{BigEndian, ByteOrder};
use std::alloc::{AllocError, Global};

/// A type of values that stand in messages.
pub(crate) trait Field: Sized {
    ghost format: { Format Self };

    /// What of a value that fits its format its type doesn't say.
    ghost sends: { Self → Type 0 };

    /// Reads one from the front of bytes, and gives the bytes behind it too.
    fn read(alloc: Global, bytes: &[u8]) -> Result<(Self, &[u8]), ReadFault>
        ensures { Gives (λ x. (x.0, x.1.now)) result (format.read bytes.now) };

    /// Puts it at the end.
    fn put(&self, out: &mut Bytes) -> Result<(), AllocError>
        requires { sends self.now }
        ensures spelled { OnOk result (out.new ≡ out.old ++ format.spell self.now) }
        ensures fits { OnOk result (format.Fits self.now) };
}

/// Reads a byte with a number from low to high.
#[tactic(auto, unfolding(crate::specs::Format::byte))]
pub(crate) fn read_byte(bytes: &[u8], low: u8, high: u8) -> Result<(u8, &[u8]), ReadFault>
    ensures { Gives (λ x. (x.0, x.1.now)) result ((byte low high).read bytes.now) }
{
    match bytes {
        [number, rest @ ..] if low <= *number && *number <= high => Ok((*number, rest)),
        _ => Err(ReadFault::Left(bytes.len())),
    }
}

impl<A: Field + Drop, B: Field> Field for (A, B) {
    ghost format = { both A.format B.format };

    ghost sends = { λ p. A.sends p.0 × B.sends p.1 };

    fn read(alloc: Global, bytes: &[u8]) -> Result<((A, B), &[u8]), ReadFault> {
        let (first, rest) = A::read(alloc, bytes)?;
        let (second, rest) = B::read(alloc, rest)?;
        Ok(((first, second), rest))
    }

    #[tactic(auto, using(std::proofs::lemmas::List::append_assoc))]
    fn put(&self, out: &mut Bytes) -> Result<(), AllocError> {
        self.0.put(out)?;
        self.1.put(out)
    }
}

/// Reads so many values, one behind the other.
pub(crate) fn read_items<T: Field + Drop>(
    alloc: Global,
    count: usize,
    bytes: &[u8],
) -> Result<(Seq<T>, &[u8]), ReadFault>
    ensures { Gives (λ x. (x.0, x.1.now)) result (read_many T.format count bytes.now) }
{
    let mut items = Seq::new(alloc);
    let mut rest = bytes;
    for _ in 0..count {
        let (item, behind) = T::read(alloc, rest)?;
        items.push(item)?;
        rest = behind;
    }
    Ok((items, rest))
}

/// Puts values at the end, one behind the other.
pub(crate) fn put_items<T: Field>(items: &[T], out: &mut Bytes) -> Result<(), AllocError>
    requires { AllByRecursion T.sends items.now }
    ensures spelled { OnOk result (out.new ≡ out.old ++ flat_map T.format.spell items.now) }
    ensures fits { OnOk result (AllByRecursion T.format.Fits items.now) }
{
    for item in items {
        item.put(out)?;
    }
    Ok(())
}

impl<T: Field + Drop> Field for Seq<T> {
    ghost format = { list T.format };

    ghost sends = { AreFew T.sends };

    fn read(alloc: Global, bytes: &[u8]) -> Result<(Seq<T>, &[u8]), ReadFault> {
        let (count, rest) = read_byte(bytes, 0, 255)?;
        read_items(alloc, usize::from(count), rest)
    }

    #[tactic(auto, using(std::proofs::lemmas::List::append_assoc), unfolding(crate::specs::Format::byte))]
    fn put(&self, out: &mut Bytes) -> Result<(), AllocError> {
        let items = self.as_slice();
        out.push(items.len() as u8)?;
        put_items(items, out)
    }
}

/// Reads a list whose count has two bytes.
#[tactic(auto, unfolding(crate::specs::Fields::number2))]
pub(crate) fn read_long<T: Field + Drop>(
    alloc: Global,
    bytes: &[u8],
) -> Result<(Seq<T>, &[u8]), ReadFault>
    ensures { Gives (λ x. (x.0, x.1.now)) result ((long_list T.format).read bytes.now) }
{
    let Some((count, rest)) = bytes.split_first_chunk::<2>() else {
        return Err(ReadFault::Left(bytes.len()));
    };
    read_items(alloc, usize::from(u16::from_be_bytes(*count)), rest)
}

/// Puts a list whose count has two bytes at the end.
#[tactic(auto, using(std::proofs::lemmas::List::append_assoc), unfolding(crate::specs::Fields::number2))]
pub(crate) fn put_long<T: Field>(list: &Seq<T>, out: &mut Bytes) -> Result<(), AllocError>
    requires { AreMany T.sends list.now }
    ensures spelled { OnOk result (out.new ≡ out.old ++ (long_list T.format).spell list.now) }
    ensures fits { OnOk result ((long_list T.format).Fits list.now) }
{
    let items = list.as_slice();
    let mut count = [0; 2];
    BigEndian::write_u16(&mut count, items.len() as u16);
    out.extend(&count)?;
    put_items(items, out)
}
