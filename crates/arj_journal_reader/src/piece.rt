// Pieces of a line: values that stand in it, one behind another, each read from its text.
ghost use Rattle.std.specs.Prelude.{◌≡◌, ◌≢◌, ◌++◌, ℕ, List, MatchOption};
ghost use Rattle.arj_journal_reader.specs.Form.{PairInForm, pair_text};
ghost use Rattle.arj_journal_reader.specs.Reading.{IsTaken, as_taken};

use crate::LineFault;
use arj_text::field::cut;
use std::alloc::Global;

/// What may stand in a line.
pub trait Piece: Sized {
    /// Which values may.
    ghost in_form: { Self → Type 0 };

    /// How they are spelled.
    ghost text: { Self → List ℕ };

    /// The value that is spelled so.
    fn read(alloc: Global, bytes: &[u8]) -> Result<Self, LineFault>
        ensures { IsTaken in_form text bytes.now result };
}

// A word, and behind a space a piece of any kind.
impl<A: Piece + Drop, B: Piece> Piece for (A, B) {
    ghost in_form = { PairInForm A.in_form A.text B.in_form };

    ghost text = { pair_text A.text B.text };

    fn read(alloc: Global, bytes: &[u8]) -> Result<(A, B), LineFault> {
        let Some((word, rest)) = cut(bytes, b' ') else {
            return Err(LineFault::NotALine);
        };
        let first = A::read(alloc, word)?;
        let second = B::read(alloc, rest)?;
        Ok((first, second))
    }
}

/// What was read, or the fault that there is nothing.
pub fn taken<T>(found: Option<T>) -> Result<T, LineFault>
    ensures { result ≡ as_taken found }
{
    found.ok_or(LineFault::NotALine)
}

/// What stands before an end that the bytes have.
pub fn before<'a>(bytes: &'a [u8], back: &[u8]) -> Option<&'a [u8]>
    ensures { MatchOption result
        ((front : List ℕ) → bytes.now ≢ front ++ back.now)
        (λ front. bytes.now ≡ front.now ++ back.now) }
{
    bytes.strip_suffix(back)
}
