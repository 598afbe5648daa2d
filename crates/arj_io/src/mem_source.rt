// Sources in memory.
ghost use Rattle.std.specs.Prelude.{◌≡◌, ◌+◌, ◌<◌, ◌≤◌, ◌↔◌, [], ◌++◌, length, take, min, Ok, IfOk, OnOk, OnErr, is_err};
ghost use Rattle.arj_io.specs.InMemory.{is_planned, counted, given_count};

use crate::plan::CallPlan;
use crate::{Failed, Source};
use arj_base::{Bytes, Numbers};
use std::marker::Model;

/// A source that gives these bytes and never fails. Contracts see it as the bytes left.
#[derive(Drop)]
pub struct SureSource {
    bytes: Bytes,
    at: usize,
}

impl Model for SureSource {
    ghost use Rattle.std.specs.Prelude.{ℕ, List, ◌≤◌, length, drop};

    ghost Value = { List ℕ };

    ghost view = { λ s. drop s.at s.bytes };

    ghost invariant = { λ s. s.at ≤ length s.bytes };
}

impl SureSource {
    /// A source of these bytes.
    pub fn new(bytes: Bytes) -> SureSource
        ensures { result ≡ bytes }
    {
        SureSource { bytes, at: 0 }
    }
}

impl Source for SureSource {
    ghost use Rattle.std.specs.Prelude.{Some};

    ghost left = { λ s. Some s };

    ghost faults = { λ _. 0 };

    fn read(&mut self, buf: &mut [u8]) -> Result<usize, Failed>
        requires { 0 < length buf.old }
        ensures within { IfOk result (λ n. n ≤ length buf.new) }
        ensures end { IfOk result (λ n. (n ≡ 0) ↔ (self.old ≡ [])) }
        ensures given { result ≡ Ok (min (length buf.old) (length self.old)) }
        ensures moved { IfOk result (λ n. self.old ≡ take n buf.new ++ self.new) }
    {
        let count = copy_front(&self.bytes.as_slice()[self.at..], buf);
        self.at += count;
        Ok(count)
    }
}

// Copies as many bytes as fit into the front of the buffer, and answers how many.
fn copy_front(bytes: &[u8], buf: &mut [u8]) -> usize
    ensures count { result ≡ min (length buf.old) (length bytes.now) }
    ensures copied { take result buf.new ≡ take result bytes.now }
{
    let count = buf.len().min(bytes.len());
    buf[..count].copy_from_slice(&bytes[..count]);
    count
}

/// A source that gives these bytes in pieces of at most `chunk`, and fails at the reads whose number, from 1, is in
/// `failing`.
#[derive(Drop)]
pub struct MemSource {
    source: SureSource,
    chunk: usize,
    plan: CallPlan,
}

impl Model for MemSource {
    ghost use Rattle.std.specs.Prelude.{◌<◌};
    ghost use Rattle.arj_io.specs.InMemory.{PlannedSource};

    ghost Value = { PlannedSource };

    ghost view = { λ s. record {
      left = s.source;
      chunk = s.chunk;
      failing = s.plan.failing;
      calls = s.plan.calls;
      faults = s.plan.faults;
    } };

    ghost invariant = { λ s. 0 < s.chunk };
}

impl MemSource {
    /// A source of these bytes, of which no read was made. The chunk is at least 1.
    pub fn new(bytes: Bytes, chunk: usize, failing: Numbers) -> MemSource
        requires { 0 < chunk }
        ensures { result
            ≡ record { left = bytes; chunk = chunk; failing = failing; calls = 0; faults = 0 } }
    {
        MemSource {
            source: SureSource::new(bytes),
            chunk,
            plan: CallPlan::new(failing),
        }
    }
}

impl Source for MemSource {
    ghost use Rattle.std.specs.Prelude.{Some};

    ghost left = { λ s. Some s.left };

    ghost faults = { λ s. s.faults };

    fn read(&mut self, buf: &mut [u8]) -> Result<usize, Failed>
        requires { 0 < length buf.old }
        ensures within { IfOk result (λ n. n ≤ length buf.new) }
        ensures end { IfOk result (λ n. (n ≡ 0) ↔ (self.old.left ≡ [])) }
        ensures planned { is_err result ≡ is_planned self.old.failing (self.old.calls + 1) }
        ensures count { IfOk result (λ n. n ≡ given_count self.old (length buf.old)) }
        ensures moved { IfOk result (λ n. self.old.left ≡ take n buf.new ++ self.new.left) }
        ensures ok { OnOk result (self.new
            ≡ record self.old { left = self.new.left; calls = counted self.old.calls }) }
        ensures err { OnErr result (self.new
            ≡ record self.old { calls = counted self.old.calls; faults = counted self.old.faults }) }
    {
        self.plan.call()?;
        let most = self.chunk.min(buf.len());
        self.source.read(&mut buf[..most])
    }
}
