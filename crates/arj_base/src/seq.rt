// Small lists that contracts see as lists.
ghost use Rattle.std.specs.Prelude.{◌≡◌, ◌<◌, [], ◌∷◌, ◌++◌, List, IfOk, OnOk, OnErr, ◌==◌, length, take, slice_set, filter, not};
ghost use Rattle.std.specs.Fmt.{decimal};

use crate::{End, ObjectState, Uid};
use std::alloc::{AllocError, Global};
use std::marker::Model;

/// A list in the order in which its items were pushed. Contracts see it as that list.
#[derive(Drop)]
pub struct Seq<T> {
    items: Vec<T>,
}

impl<T> Model for Seq<T> {
    ghost Value = { List T };

    ghost view = { λ s. s.items.items };
}

impl<T> Seq<T> {
    /// No items. It allocates nothing.
    pub fn new(alloc: Global) -> Self
        ensures { result ≡ [] }
    {
        Seq {
            items: Vec::new(alloc),
        }
    }

    /// The items of a vector. It keeps their memory.
    pub fn from_vec(items: Vec<T>) -> Self
        ensures { result ≡ items.items }
    {
        Seq { items }
    }

    /// The items, first pushed first.
    pub fn as_slice(&self) -> &[T]
        ensures { result.now ≡ self.now }
    {
        self.items.as_slice()
    }

    /// The items as a vector. It keeps their memory.
    pub fn into_vec(self) -> Vec<T>
        ensures { result.items ≡ self }
    {
        self.items
    }

    /// Where its memory is from.
    pub fn allocator(&self) -> Global {
        *self.items.allocator()
    }
}

impl<T: Copy> Seq<T> {
    /// Another list with the same items, in memory from the same allocator.
    pub fn copy(&self) -> Result<Self, AllocError>
        ensures { IfOk result (λ copied. copied ≡ self.now) }
    {
        let items = Vec::from_slice(self.allocator(), self.items.as_slice())?;
        Ok(Seq { items })
    }
}

impl<T: Drop> Seq<T> {
    /// Puts an item at the end.
    pub fn push(&mut self, item: T) -> Result<(), AllocError>
        ensures ok { OnOk result (self.new ≡ self.old ++ item ∷ []) }
        ensures err { OnErr result (self.new ≡ self.old) }
    {
        self.items.push(item)?;
        Ok(())
    }

    /// Puts an item in the place of the one that stands at this index, from 0.
    pub fn set(&mut self, at: usize, item: T)
        requires { at < length self.old }
        ensures { self.new ≡ slice_set self.old at item }
    {
        self.items[at] = item;
    }
}

impl Seq<u8> {
    /// Puts bytes at the end.
    pub fn extend(&mut self, bytes: &[u8]) -> Result<(), AllocError>
        ensures ok { OnOk result (self.new ≡ self.old ++ bytes.now) }
        ensures err { OnErr result (self.new ≡ self.old) }
    {
        self.items.extend_from_slice(bytes)
    }

    /// Takes out each place of this byte, or of this node.
    pub fn remove_all(&mut self, byte: u8)
        ensures { self.new ≡ filter (λ b. not (b == byte)) self.old }
    {
        remove_from(&mut self.items, byte);
    }

    /// Puts a number at the end, in decimal. It makes no list of its own.
    pub fn extend_decimal(&mut self, n: u64) -> Result<(), AllocError>
        ensures ok { OnOk result (self.new ≡ self.old ++ decimal n) }
        ensures err { OnErr result (self.new ≡ self.old) }
    {
        let before = self.items.len();
        let put = put_digits(&mut self.items, n);
        if put.is_err() {
            self.items.truncate(before);
        }
        put
    }
}

// Puts the digits of a number at the end. Where memory ends, some of them may stand there.
#[tactic(auto, using(std::proofs::lemmas::Fmt::decimal_step, std::proofs::lemmas::Fmt::decimal_digit, std::proofs::lemmas::List::append_assoc))]
fn put_digits(bytes: &mut Vec<u8>, n: u64) -> Result<(), AllocError>
    ensures ok { OnOk result (bytes.new.items ≡ bytes.old.items ++ decimal n) }
    ensures err { OnErr result (take (length bytes.old.items) bytes.new.items ≡ bytes.old.items) }
{
    if 9 < n {
        put_digits(bytes, n / 10)?;
    }
    bytes.push(48 + (n % 10) as u8)?;
    Ok(())
}

// Takes out each place of the byte.
fn remove_from(bytes: &mut Vec<u8>, byte: u8)
    ensures { bytes.new.items ≡ filter (λ b. not (b == byte)) bytes.old.items }
{
    let mut i = 0;
    while i < bytes.len() {
        if bytes[i] == byte {
            bytes.remove(i);
        } else {
            i += 1;
        }
    }
}

/// Bytes, as of a file, a line or a message.
pub type Bytes = Seq<u8>;

/// Numbers of 64 bits.
pub type Numbers = Seq<u64>;

/// Keys with their values.
pub type Pairs = Seq<(u64, u64)>;

/// Nodes, each 1 to 16.
pub type NodeList = Seq<u8>;

/// Uids of actions or objects.
pub type Uids = Seq<Uid>;

/// Actions with how they ended.
pub type Ends = Seq<(Uid, End)>;

/// States of objects.
pub type States = Seq<ObjectState>;
