// Who takes the lines.
ghost use Rattle.std.specs.Prelude.{◌≡◌, ◌<◌, ◌≤◌, ℕ, List, [], ◌∷◌, ◌++◌, length, OnOk, IfErr};

/// What takes the lines of an input, one after another. It says by a value of type `F` why it takes a line no more: the line is
/// bad, there is one too many, or nothing is to follow.
pub trait Taker<F>: Sized {
    /// How it stands behind these lines.
    ghost stands: { List (List ℕ) → Self → Type 0 };

    /// The most bytes that the next line may have, without its end.
    ghost most: { Self → ℕ };

    /// How many lines it may take yet, at most.
    ghost room: { Self → ℕ };

    /// Where it stops behind these lines, at this line.
    ghost stops: { List (List ℕ) → List ℕ → F → Self → Type 0 };

    /// The most bytes that the next line may have, without its end: at least one.
    fn most_bytes(&self) -> u32
        ensures some { 0 < result }
        ensures is { result ≡ most self.now };

    /// Takes a line, without its end, or says why it takes none.
    fn take(&mut self, line: &[u8]) -> Result<(), F>
        requires stands { (done : List (List ℕ)) × stands done self.old }
        requires short { length line.now ≤ most self.old }
        ensures took { OnOk result ((done : List (List ℕ)) → stands done self.old → stands (done ++ line.now ∷ []) self.new) }
        ensures less { OnOk result (room self.new < room self.old) }
        ensures stopped { IfErr result (λ why. (done : List (List ℕ)) → stands done self.old → stops done line.now why self.new) };
}
