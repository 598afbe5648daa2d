// Where output goes.
ghost use Rattle.std.specs.Prelude.{◌≡◌, ◌<◌, ◌≤◌, ℕ, List, Option, length, take, IfOk, OnOk, OnErr};
ghost use Rattle.arj_base.specs.Count.{Rose};
ghost use Rattle.arj_io.specs.Told.{Takes};

use crate::Failed;

/// A sink of bytes.
pub trait Sink {
    // The bytes taken, where the sink tells them.
    ghost taken: { Self → Option (List ℕ) };

    // How many writes failed.
    ghost faults: { Self → ℕ };

    /// Writes bytes from the front of these, of which there is at least one, and answers how many were taken: at
    /// least one.
    fn write(&mut self, bytes: &[u8]) -> Result<usize, Failed>
        requires { 0 < length bytes.now }
        ensures some { IfOk result (λ n. 0 < n) }
        ensures within { IfOk result (λ n. n ≤ length bytes.now) }
        ensures took { IfOk result (λ n. Takes (taken self.old) (take n bytes.now) (taken self.new)) }
        ensures kept { OnErr result (taken self.new ≡ taken self.old) }
        ensures steady { OnOk result (faults self.new ≡ faults self.old) }
        ensures failed { OnErr result (Rose (faults self.old) (faults self.new)) }
        ensures later { faults self.old ≤ faults self.new };
}

/// Writes all the bytes. At Failed a front of them was taken, and nothing was written after the write that failed.
pub fn write_all<K: Sink>(sink: &mut K, bytes: &[u8]) -> Result<(), Failed>
    ensures took { OnOk result (Takes (K.taken sink.old) bytes.now (K.taken sink.new)) }
    ensures steady { OnOk result (K.faults sink.new ≡ K.faults sink.old) }
    ensures front { OnErr result ((n : ℕ) × (n < length bytes.now)
        × Takes (K.taken sink.old) (take n bytes.now) (K.taken sink.new)) }
    ensures failed { OnErr result (Rose (K.faults sink.old) (K.faults sink.new)) }
    ensures later { K.faults sink.old ≤ K.faults sink.new }
    // with no bytes there is no call
    ensures nothing { length bytes.now ≡ 0 → sink.new ≡ sink.old }
{
    let mut at = 0;
    while at < bytes.len() {
        at += sink.write(&bytes[at..])?;
    }
    Ok(())
}
