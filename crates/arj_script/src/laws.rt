// A law of cutters.
ghost use Rattle.std.specs.Prelude.{◌≡◌, ℕ, [], List};
ghost use Rattle.arj_script.specs.Cutting.{Cut, Took, Along, bytes_of};

/// The lines that a stream gives, what is behind them, and whether that is too long, don't depend on how the stream was
/// cut into pieces, whatever the most bytes of a line are. It does nothing when it runs.
pub fn cuts_leave_the_lines()
    ensures { (most : ℕ) (ts us : List Took) (c d : Cut) → bytes_of ts ≡ bytes_of us → Along most [] ts c → Along most [] us d → c ≡ d }
{}
