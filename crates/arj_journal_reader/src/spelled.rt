// Pieces that are one of a few words.
ghost use Rattle.std.specs.Prelude.{◌≡◌, ℕ, List, find, Some, ⊤};
ghost use Rattle.std.specs.Str.{bytes_eq};
ghost use Rattle.arj_journal_reader.specs.Reading.{IsTaken};

use crate::LineFault;

/// A kind of a few, each with a word of its own.
pub trait Spelled: Copy + 'static {
    /// The word of each.
    ghost spelling: { Self → List ℕ };

    /// All of them.
    ghost kinds: { List Self };

    /// All of them.
    fn all() -> &'static [Self]
        ensures { result.now ≡ kinds };

    /// The word of this one.
    fn word(self) -> &'static [u8]
        ensures { result.now ≡ spelling self };

    ghost known: { (k : Self) → find (λ j. bytes_eq (spelling j) (spelling k)) kinds ≡ Some k };
}

/// The kind with this word.
pub fn one_of<K: Spelled>(bytes: &[u8]) -> Result<K, LineFault>
    ensures { IsTaken (λ k. ⊤) K.spelling bytes.now result }
{
    let every = K::all();
    for kind in every {
        if kind.word() == bytes {
            return Ok(*kind);
        }
    }
    Err(LineFault::NotALine)
}
