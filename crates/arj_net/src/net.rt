// Frames by their numbers.
ghost use Rattle.std.specs.Prelude.{◌≡◌, ◌+◌, ◌-◌, ◌<◌, ◌≤◌, ◌↔◌, ℕ, [], ◌∷◌, ◌++◌, length, not, ◌&&◌, ◌==◌, false, IfOk, OnOk, OnErr, IsErrOf, MatchOption};
ghost use Rattle.std.specs.Option.{option_copied, SomeIff};
ghost use Rattle.arj_net.specs.Net.{frames, frame_of, is_open, new_frame, as_delivered, as_lost, changed_at, IsLowest};
ghost use Rattle.arj_net.specs.Front.{IsFront, ClosedBelow};
ghost use Rattle.arj_net.specs.declared.net.NetFault.TheVariants.{Full};

use arj_base::Bytes;
use std::alloc::{AllocFailed, Global};
use std::marker::Model;
use thiserror::Error;

/// The most frames that a net takes.
pub const MOST_FRAMES: usize = 100_000;

/// A message from one node to another. Nodes count from 1; the sender is 0 where nobody sent it.
#[derive(Drop)]
pub struct Frame {
    pub from: u8,
    pub to: u8,
    pub bytes: Bytes,
}

// A frame, and what became of it. It may be both, and may be delivered again.
#[derive(Drop)]
struct Sent {
    frame: Frame,
    delivered: bool,
    lost: bool,
}

/// Why a frame was not taken.
#[derive(Debug, Drop, Error)]
pub enum NetFault {
    /// As many frames are there as a net takes.
    #[error("too many frames")]
    Full,
    /// Memory is wanting.
    #[error("out of memory")]
    Memory,
}

impl<T: Drop> From<AllocFailed<T>> for NetFault {
    ghost use Rattle.std.specs.Prelude.{◌≡◌};
    ghost use Rattle.arj_net.specs.declared.net.NetFault.TheVariants.{Memory};

    ghost from_gives = { λ _ e. e ≡ Memory };

    fn from(_: AllocFailed<T>) -> NetFault {
        NetFault::Memory
    }
}

/// All frames that were sent. Contracts see the list of them, in order of sending, with what became of each.
#[derive(Drop)]
pub struct Net {
    sent: Vec<Sent>,
    // How many frames stand before the first open one: all of them were delivered or lost.
    closed: usize,
}

impl Model for Net {
    ghost use Rattle.std.specs.Prelude.{List};
    ghost use Rattle.arj_net.specs.declared.net.Sent.{Sent};

    ghost Value = { List Sent };

    ghost use Rattle.arj_net.specs.Front.{KeepsFront};

    ghost view = { λ n. n.sent.items };

    ghost invariant = { λ n. KeepsFront n.sent.items n.closed };
}

impl Net {
    /// No frames. It allocates nothing.
    pub fn new(alloc: Global) -> Net
        ensures { result ≡ [] }
    {
        Net {
            sent: Vec::new(alloc),
            closed: 0,
        }
    }

    /// Puts a frame behind the others and answers its number, from 1. A fault leaves the net as it was.
    pub fn send(&mut self, from: u8, to: u8, bytes: Bytes) -> Result<u32, NetFault>
        ensures number { IfOk result (λ k. k ≡ length self.new) }
        ensures sent { OnOk result (self.new ≡ self.old ++ new_frame (record { from = from; to = to; bytes = bytes }) ∷ []) }
        ensures full { IsErrOf result Full ↔ (length self.old ≡ MOST_FRAMES) }
        ensures few { length self.new ≤ MOST_FRAMES }
        ensures err { OnErr result (self.new ≡ self.old) }
    {
        if self.sent.len() == MOST_FRAMES {
            return Err(NetFault::Full);
        }
        self.sent.push(Sent {
            frame: Frame { from, to, bytes },
            delivered: false,
            lost: false,
        })?;
        Ok(self.sent.len() as u32)
    }

    /// How many frames were sent.
    pub fn count(&self) -> u32
        ensures { result ≡ length self.now }
    {
        self.sent.len() as u32
    }

    /// The frame of a number, None exactly where no frame has it. A frame that was delivered or lost is still there.
    pub fn get(&self, k: u32) -> Option<&Frame>
        ensures frame { option_copied result ≡ frame_of self.now k }
        ensures few { length self.now ≤ MOST_FRAMES }
    {
        let place = place_of(k, self.sent.len())?;
        Some(&self.sent[place].frame)
    }

    /// Marks a frame as lost, so that it is never the lowest. A number that no frame has changes nothing.
    pub fn lose(&mut self, k: u32)
        ensures net { self.new ≡ changed_at as_lost self.old k }
        ensures open { (j : ℕ) → is_open self.new j ≡ (is_open self.old j && not (j == k)) }
        ensures frames { frames self.new ≡ frames self.old }
    {
        let Some(place) = place_of(k, self.sent.len()) else {
            return;
        };
        self.sent[place].lost = true;
        self.closed = front(&self.sent, self.closed);
    }

    /// Marks a frame as delivered, so that it is never the lowest. A number that no frame has changes nothing.
    pub fn delivered(&mut self, k: u32)
        ensures net { self.new ≡ changed_at as_delivered self.old k }
        ensures open { (j : ℕ) → is_open self.new j ≡ (is_open self.old j && not (j == k)) }
        ensures frames { frames self.new ≡ frames self.old }
    {
        let Some(place) = place_of(k, self.sent.len()) else {
            return;
        };
        self.sent[place].delivered = true;
        self.closed = front(&self.sent, self.closed);
    }

    /// The least number of a frame that was neither delivered nor lost, None exactly where there is none. Its time
    /// doesn't grow with the number of frames.
    pub fn lowest(&self) -> Option<u32>
        ensures least { MatchOption result ((k : ℕ) → is_open self.now k ≡ false) (IsLowest self.now) }
        ensures few { length self.now ≤ MOST_FRAMES }
    {
        if self.closed == self.sent.len() {
            return None;
        }
        Some(self.closed as u32 + 1)
    }
}

// The place of the frame of a number among so many, from 0; None where there is no frame of this number.
fn place_of(k: u32, count: usize) -> Option<usize>
    ensures { SomeIff result ((0 < k) × (k ≤ count)) (k - 1) }
{
    let place = (k as usize).checked_sub(1)?;
    if place < count { Some(place) } else { None }
}

// How many frames stand before the first open one, where all before this place are closed.
fn front(sent: &[Sent], from: usize) -> usize
    requires within { from ≤ length sent.now }
    requires closed { ClosedBelow sent.now from }
    ensures { IsFront sent.now result }
{
    let mut closed = from;
    while closed < sent.len() && (sent[closed].delivered || sent[closed].lost) {
        closed += 1;
    }
    closed
}
