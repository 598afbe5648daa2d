// Reading that waits for writing.
ghost use Rattle.std.specs.Prelude.{◌≡◌, ◌<◌, ◌≤◌, ◌↔◌, ℕ, List, [], Option, length, take, IfOk, OnOk, OnErr, IfSome, IfNone, IsNone};
ghost use Rattle.arj_base.specs.Count.{Rose};
ghost use Rattle.arj_io.specs.Told.{Gives};
ghost use Rattle.arj_loop.specs.Written.{IsWritten};

use arj_io::{Failed, Sink, Source};
use arj_journal::Lines;

/// A source as a run reads it: it is asked for more only when the sink took the text of the whole journal so far. A run has
/// no other way to read.
pub trait AskedSource: Sized {
    /// The bytes left, where the source tells them.
    ghost left: { Self → Option (List ℕ) };

    /// How many reads failed.
    ghost faults: { Self → ℕ };

    /// Reads bytes into the front of the buffer, which isn't empty, and answers how many. At 0 the input is at its end. The
    /// journal is that of the lines that were run, and its text was written before.
    fn ask<K: Sink>(&mut self, journal: &Lines, sink: &K, buf: &mut [u8]) -> Result<usize, Failed>
        requires room { 0 < length buf.old }
        requires written { IsWritten journal.now (K.taken sink.now) }
        ensures within { IfOk result (λ n. n ≤ length buf.new) }
        ensures moved { IfOk result (λ n. Gives (left self.old) (take n buf.new) (left self.new)) }
        ensures end { IfOk result (λ n. IfSome (left self.old) (λ bytes. (n ≡ 0) ↔ (bytes ≡ []))) }
        ensures untold { OnOk result (IfNone (left self.old) (IsNone (left self.new))) }
        ensures kept { OnErr result (left self.new ≡ left self.old) }
        ensures steady { OnOk result (faults self.new ≡ faults self.old) }
        ensures failed { OnErr result (Rose (faults self.old) (faults self.new)) }
        ensures later { faults self.old ≤ faults self.new };
}

impl<S: Source> AskedSource for S {
    ghost left = { S.left };

    ghost faults = { S.faults };

    fn ask<K: Sink>(
        &mut self,
        _journal: &Lines,
        _sink: &K,
        buf: &mut [u8],
    ) -> Result<usize, Failed> {
        self.read(buf)
    }
}
