// Uids: the names of actions, objects and naming entries.
ghost use Rattle.std.specs.Prelude.{◌≡◌, IfOk};
ghost use Rattle.byteorder.specs.Endian.{big_bytes};
ghost use Rattle.arj_base.specs.Uid.{uid_bytes, UidFits, uid_text, object, entry};

use crate::Bytes;
use crate::state::from_eight;
use byteorder::{BigEndian, ByteOrder};
use std::alloc::{AllocError, Global};

/// A unique identifier: the node and its incarnation that made it, and a count within that incarnation.
/// Object x is `0.0.x` and its naming entry `0.1.x`. Ordered by its fields.
#[derive(Clone, Copy, Debug, PartialEq, Eq, PartialOrd, Ord)]
pub struct Uid {
    pub node: u32,
    pub inc: u32,
    pub num: u64,
}

impl Uid {
    /// The 16 bytes of a Uid in files and messages: node, incarnation and number, high byte first.
    pub fn to_bytes(&self) -> [u8; 16]
        ensures bytes { result ≡ uid_bytes self.now }
        ensures fits { UidFits self.now }
    {
        let Uid { node, inc, num } = *self;
        let mut bytes = [0; 16];
        BigEndian::write_u32(&mut bytes[0..4], node);
        BigEndian::write_u32(&mut bytes[4..8], inc);
        BigEndian::write_u64(&mut bytes[8..16], num);
        bytes
    }

    /// The Uid with these bytes: every 16 bytes are those of one.
    pub fn from_bytes(bytes: &[u8; 16]) -> Uid
        ensures bytes { uid_bytes result ≡ bytes.now }
        ensures fits { UidFits result }
    {
        let [a, b, c, d, e, f, g, h, i, j, k, l, m, n, o, p] = *bytes;
        Uid {
            node: from_four(&[a, b, c, d]),
            inc: from_four(&[e, f, g, h]),
            num: from_eight(&[i, j, k, l, m, n, o, p]),
        }
    }

    /// The printed form `node.inc.num`, in decimal.
    pub fn text(&self, alloc: Global) -> Result<Bytes, AllocError>
        ensures { IfOk result (λ text. text ≡ uid_text self.now) }
    {
        let mut text = Bytes::new(alloc);
        let printed = format!(in alloc; "{}.{}.{}", self.node, self.inc, self.num)?;
        text.extend(printed.as_bytes())?;
        Ok(text)
    }
}

/// The Uid of object x.
pub fn object_uid(x: u16) -> Uid
    ensures { result ≡ object x }
{
    Uid {
        node: 0,
        inc: 0,
        num: u64::from(x),
    }
}

/// The Uid of the naming entry of object x.
pub fn entry_uid(x: u16) -> Uid
    ensures { result ≡ entry x }
{
    Uid {
        node: 0,
        inc: 1,
        num: u64::from(x),
    }
}

// The number with these four bytes.
#[tactic(auto, using(std::proofs::lemmas::Nat::be_bytes_4))]
fn from_four(bytes: &[u8; 4]) -> u32
    ensures { big_bytes 4 result ≡ bytes.now }
{
    u32::from_be_bytes(*bytes)
}
