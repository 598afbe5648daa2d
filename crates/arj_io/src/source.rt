// Where input comes from.
ghost use Rattle.std.specs.Prelude.{◌≡◌, ◌<◌, ◌≤◌, ◌↔◌, ℕ, List, [], Option, length, take, IfOk, OnOk, OnErr, IfSome, IfNone, IsNone};
ghost use Rattle.arj_base.specs.Count.{Rose};
ghost use Rattle.arj_io.specs.Told.{Gives};

use crate::Failed;

/// A source of bytes.
pub trait Source {
    // The bytes left, where the source tells them.
    ghost left: { Self → Option (List ℕ) };

    // How many reads failed.
    ghost faults: { Self → ℕ };

    /// Reads bytes into the front of the buffer, which isn't empty, and answers how many. At 0 the input is at its
    /// end. Of the rest of the buffer nothing is said.
    fn read(&mut self, buf: &mut [u8]) -> Result<usize, Failed>
        requires { 0 < length buf.old }
        ensures within { IfOk result (λ n. n ≤ length buf.new) }
        ensures moved { IfOk result (λ n. Gives (left self.old) (take n buf.new) (left self.new)) }
        ensures end { IfOk result (λ n. IfSome (left self.old) (λ bytes. (n ≡ 0) ↔ (bytes ≡ []))) }
        ensures untold { OnOk result (IfNone (left self.old) (IsNone (left self.new))) }
        ensures kept { OnErr result (left self.new ≡ left self.old) }
        ensures steady { OnOk result (faults self.new ≡ faults self.old) }
        ensures failed { OnErr result (Rose (faults self.old) (faults self.new)) }
        ensures later { faults self.old ≤ faults self.new };
}
