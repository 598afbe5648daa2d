// Sinks in memory.
ghost use Rattle.std.specs.Prelude.{◌≡◌, ◌+◌, ◌<◌, ◌≤◌, [], ◌++◌, length, take, drop, Ok, Some, IfOk, IfSome, OnOk, OnErr, is_err};
ghost use Rattle.std.specs.Option.{option_map, option_copied};
ghost use Rattle.arj_io.specs.InMemory.{is_planned, counted, taken_with};

use crate::plan::CallPlan;
use crate::{Failed, Sink};
use arj_base::{Bytes, Numbers};
use std::marker::Model;

/// A sink that never fails. It tells the bytes taken while they fit its room. After the first piece that doesn't fit
/// it takes whole pieces and tells nothing any more.
#[derive(Drop)]
pub struct SureSink {
    room: Bytes,
    used: Option<usize>,
}

impl Model for SureSink {
    ghost use Rattle.std.specs.Prelude.{◌≤◌, length, take};
    ghost use Rattle.std.specs.Option.{option_map, ForSome};
    ghost use Rattle.arj_io.specs.InMemory.{Filled};

    ghost Value = { Filled };

    ghost view = { λ s. record {
      room = length s.room;
      taken = option_map (λ n. take n s.room) s.used;
    } };

    ghost invariant = { λ s. ForSome s.used (λ n. n ≤ length s.room) };
}

impl SureSink {
    /// A sink with the room of these bytes, which it writes over. Nothing is taken.
    pub fn new(room: Bytes) -> SureSink
        ensures { result ≡ record { room = length room; taken = Some [] } }
    {
        SureSink {
            room,
            used: Some(0),
        }
    }

    /// The bytes taken, or None where they aren't told.
    pub fn taken(&self) -> Option<&[u8]>
        ensures told { option_copied result ≡ self.now.taken }
        ensures within { IfSome result (λ bytes. length bytes.now ≤ self.now.room) }
    {
        match self.used {
            Some(used) => Some(&self.room.as_slice()[..used]),
            None => None,
        }
    }
}

impl Sink for SureSink {
    ghost taken = { λ s. s.taken };

    ghost faults = { λ _. 0 };

    fn write(&mut self, bytes: &[u8]) -> Result<usize, Failed>
        requires { 0 < length bytes.now }
        ensures whole { result ≡ Ok (length bytes.now) }
        ensures took { self.new
            ≡ record self.old { taken = taken_with self.old.room self.old.taken bytes.now } }
    {
        self.used = match self.used {
            Some(used) => keep(&mut self.room, used, bytes),
            None => None,
        };
        Ok(bytes.len())
    }
}

// Puts the piece behind the first bytes of the room, where it fits, and answers how many are then used.
fn keep(room: &mut Bytes, used: usize, piece: &[u8]) -> Option<usize>
    requires { used ≤ length room.old }
    ensures room { length room.new ≡ length room.old }
    ensures within { IfSome result (λ n. n ≤ length room.new) }
    ensures kept { option_map (λ n. take n room.new) result
        ≡ taken_with (length room.old) (Some (take used room.old)) piece.now }
{
    if piece.len() > room.as_slice().len() - used {
        return None;
    }
    let end = used + piece.len();
    write_over(room, used, end, piece);
    Some(end)
}

// Writes the piece over the room between these places.
fn write_over(room: &mut Bytes, start: usize, end: usize, piece: &[u8])
    requires between { start + length piece.now ≡ end }
    requires within { end ≤ length room.old }
    ensures room { length room.new ≡ length room.old }
    ensures front { take end room.new ≡ take start room.old ++ piece.now }
{
    for place in start..end {
        room.set(place, piece[place - start]);
    }
}

/// A `SureSink` whose writes with a number in `failing`, from 1, fail.
#[derive(Drop)]
pub struct MemSink {
    sink: SureSink,
    plan: CallPlan,
}

impl Model for MemSink {
    ghost use Rattle.arj_io.specs.InMemory.{PlannedSink};

    ghost Value = { PlannedSink };

    ghost view = { λ s. record {
      room = s.sink.room;
      taken = s.sink.taken;
      failing = s.plan.failing;
      calls = s.plan.calls;
      faults = s.plan.faults;
    } };
}

impl MemSink {
    /// A sink with the room of these bytes, which it writes over. Nothing is taken, and no write was made.
    pub fn new(room: Bytes, failing: Numbers) -> MemSink
        ensures { result ≡ record {
          room = length room;
          taken = Some [];
          failing = failing;
          calls = 0;
          faults = 0;
        } }
    {
        MemSink {
            sink: SureSink::new(room),
            plan: CallPlan::new(failing),
        }
    }

    /// The bytes taken, or None where they aren't told.
    pub fn taken(&self) -> Option<&[u8]>
        ensures told { option_copied result ≡ self.now.taken }
        ensures within { IfSome result (λ bytes. length bytes.now ≤ self.now.room) }
    {
        self.sink.taken()
    }
}

impl Sink for MemSink {
    ghost taken = { λ s. s.taken };

    ghost faults = { λ s. s.faults };

    fn write(&mut self, bytes: &[u8]) -> Result<usize, Failed>
        requires { 0 < length bytes.now }
        ensures planned { is_err result ≡ is_planned self.old.failing (self.old.calls + 1) }
        ensures whole { IfOk result (λ n. n ≡ length bytes.now) }
        ensures ok { OnOk result (self.new ≡ record self.old {
          taken = taken_with self.old.room self.old.taken bytes.now;
          calls = counted self.old.calls;
        }) }
        ensures err { OnErr result (self.new
            ≡ record self.old { calls = counted self.old.calls; faults = counted self.old.faults }) }
    {
        self.plan.call()?;
        self.sink.write(bytes)
    }
}
