// Lines out of bytes that come in pieces.
ghost use Rattle.std.specs.Prelude.{◌≡◌, ◌≤◌, ◌<◌, ◌+◌, take, length};
ghost use Rattle.arj_script.specs.Cutting.{Feeds};

use crate::limits::LINE_BYTES;
use std::alloc::{AllocError, Global};
use std::marker::Model;

/// What ended a feed.
#[derive(Clone, Copy, Debug, PartialEq, Eq)]
pub enum Full {
    /// Nothing: the whole piece was taken, and the line in hand goes on.
    No,
    /// The end of the line in hand.
    Line,
    /// A byte past the most that a line may have.
    Long,
}

/// How many bytes of a piece were taken, and what ended the feed.
#[derive(Clone, Copy, Debug, PartialEq, Eq)]
pub struct Fed {
    pub used: usize,
    pub full: Full,
}

/// Cuts a stream of bytes into lines. It takes memory when it is made and none later. Contracts see it as the most bytes of a
/// line, and the line in hand, without its end.
#[derive(Drop)]
pub struct LineCutter {
    room: Vec<u8>,
    filled: usize,
}

impl Model for LineCutter {
    ghost use Rattle.std.specs.Prelude.{◌≤◌, take, length};
    ghost use Rattle.arj_script.specs.Cutting.{InHand, in_hand};

    ghost Value = { InHand };

    ghost view = { λ c. in_hand (length c.room.items) (take c.filled c.room.items) };

    ghost invariant = { λ c. c.filled ≤ length c.room.items };
}

impl LineCutter {
    ghost use Rattle.std.specs.Prelude.{◌≡◌, ◌≤◌, ◌<◌, [], IfOk, length};
    ghost use Rattle.arj_script.specs.Cutting.{Feeds, in_hand};
    ghost use Rattle.arj_script.specs.declared.limits.TheConstants.{LINE_BYTES};

    /// A cutter with room for the longest line of a script, before the first byte.
    pub fn new(alloc: Global) -> Result<LineCutter, AllocError>
        ensures { IfOk result (λ cutter. cutter ≡ in_hand LINE_BYTES []) }
    {
        Ok(LineCutter {
            room: vec![in alloc; 0; LINE_BYTES]?,
            filled: 0,
        })
    }

    /// A cutter with room for lines of at most so many bytes, before the first byte.
    pub fn sized(alloc: Global, most: u32) -> Result<LineCutter, AllocError>
        requires { 0 < most }
        ensures { IfOk result (λ cutter. cutter ≡ in_hand most []) }
    {
        Ok(LineCutter {
            room: vec![in alloc; 0; most as usize]?,
            filled: 0,
        })
    }

    /// The most bytes of a line.
    pub fn most(&self) -> usize
        ensures { result ≡ self.now.most }
    {
        self.room.len()
    }

    /// Takes bytes from the front of the piece: up to and with the end of the line in hand, up to and with the first
    /// byte that is too many, or all. Behind an end the line is whole: it is read by `line`, and `clear` begins the
    /// next one. Behind a byte too many the line is longer than a line may be.
    pub fn feed(&mut self, piece: &[u8]) -> Fed
        ensures within { result.used ≤ length piece.now }
        ensures feeds { Feeds self.old.most self.old.line piece.now result self.new.line }
        ensures kept { self.new.most ≡ self.old.most }
    {
        let (fed, filled) = fill(&mut self.room, self.filled, piece);
        self.filled = filled;
        fed
    }

    /// The bytes of the line in hand, without its end.
    pub fn line(&self) -> &[u8]
        ensures is { result.now ≡ self.now.line }
        ensures short { length result.now ≤ self.now.most }
    {
        &self.room[..self.filled]
    }

    /// Forgets the line in hand.
    pub fn clear(&mut self)
        ensures { self.new ≡ in_hand self.old.most [] }
    {
        self.filled = 0;
    }
}

// Puts the front of the piece behind the bytes of the line in hand, and tells how many they then are.
fn fill(room: &mut Vec<u8>, filled: usize, piece: &[u8]) -> (Fed, usize)
    requires short { filled ≤ length room.old.items }
    ensures kept { length room.new.items ≡ length room.old.items }
    ensures short { result.1 ≤ length room.old.items }
    ensures within { result.0.used ≤ length piece.now }
    ensures feeds { Feeds (length room.old.items) (take filled room.old.items) piece.now result.0 (take result.1 room.new.items) }
{
    let most = room.as_slice().len();
    let mut count = filled;
    for (at, byte) in piece.iter().enumerate() {
        if *byte == b'\n' {
            return (ended(at, Full::Line), count);
        }
        if count == most {
            return (ended(at, Full::Long), count);
        }
        room[count] = *byte;
        count += 1;
    }
    let fed = Fed {
        used: piece.len(),
        full: Full::No,
    };
    (fed, count)
}

// A feed that the byte at this index ended.
fn ended(at: usize, full: Full) -> Fed
    requires { at < 18446744073709551615 }
    ensures { result ≡ record { used = at + 1; full = full } }
{
    Fed { used: at + 1, full }
}
