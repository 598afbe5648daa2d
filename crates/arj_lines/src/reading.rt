// Reading, line by line.
ghost use Rattle.std.specs.Prelude.{◌≡◌, ◌<◌, ◌≤◌, ℕ, List, [], ◌∷◌, ◌++◌, length, take, IfOk, OnOk, IfErr};
ghost use Rattle.arj_loop.specs.Input.{source_view};
ghost use Rattle.arj_script.specs.Cutting.{in_hand};
ghost use Rattle.arj_script.specs.Input.{AtEnd, AtRunEnd};
ghost use Rattle.arj_lines.specs.Reading.{EndsSo, Gave, Input, input};
ghost use Rattle.arj_lines.specs.Going.{Goes, IsGoing, StopsAt, budget, word_bound};
ghost use Rattle.arj_lines.specs.declared.limits.TheConstants.{READ_BYTES};

use crate::ending::Ending;
use crate::limits::READ_BYTES;
use crate::taker::Taker;
use arj_io::Source;
use arj_script::{Full, LineCutter};
use std::alloc::{AllocError, Global};

/// Hands the lines of the source to the taker, until the input ends, a read fails, a line is too long, or the taker takes one no
/// more. At most 511 bytes past the one that ends it are read.
pub fn read_lines<F, T: Taker<F>, S: Source>(
    alloc: Global,
    source: &mut S,
    taker: &mut T,
) -> Ending<F>
    requires first { T.stands [] taker.old }
    ensures ended { (given : Input) × Gave (source_view (S.left source.old) (S.faults source.old)) (source_view (S.left source.new) (S.faults source.new)) given × EndsSo T.Taker given taker.new result }
{
    let Ok(mut cutter) = LineCutter::sized(alloc, taker.most_bytes()) else {
        return Ending::Memory;
    };
    loop {
        let mut buffer = [0; READ_BYTES];
        let Ok(count) = source.read(&mut buffer) else {
            return Ending::Fault;
        };
        if count == 0 {
            return take_last(&cutter, taker);
        }
        match take_piece(alloc, &buffer[..count], &mut cutter, taker) {
            Ok(()) => {}
            Err(ending) => return ending,
        }
    }
}

// Takes the lines that end in a piece.
fn take_piece<F, T: Taker<F>>(
    alloc: Global,
    piece: &[u8],
    cutter: &mut LineCutter,
    taker: &mut T,
) -> Result<(), Ending<F>>
    requires going { Goes T.Taker cutter.old taker.old }
    ensures went { OnOk result ((used : List ℕ) → IsGoing T.Taker used cutter.old taker.old → IsGoing T.Taker (used ++ piece.now) cutter.new taker.new) }
    ensures less { OnOk result (0 < length piece.now → budget T.Taker cutter.new taker.new < budget T.Taker cutter.old taker.old) }
    ensures ended { IfErr result (λ ending. (used : List ℕ) → IsGoing T.Taker used cutter.old taker.old → length piece.now ≤ READ_BYTES → EndsSo T.Taker (input (used ++ piece.now) AtRunEnd) taker.new ending) }
{
    let mut rest = piece;
    while !rest.is_empty() {
        match feed(alloc, rest, cutter, taker) {
            Ok(count) => rest = &rest[count..],
            Err(ending) => return Err(ending),
        }
    }
    Ok(())
}

// Takes bytes from the front of these, and the line that they end, if they end one. Answers how many were taken.
fn feed<F, T: Taker<F>>(
    alloc: Global,
    bytes: &[u8],
    cutter: &mut LineCutter,
    taker: &mut T,
) -> Result<usize, Ending<F>>
    requires some { 0 < length bytes.now }
    requires going { Goes T.Taker cutter.old taker.old }
    ensures taken { IfOk result (λ count. (0 < count) × (count ≤ length bytes.now)) }
    ensures went { IfOk result (λ count. (used : List ℕ) → IsGoing T.Taker used cutter.old taker.old → IsGoing T.Taker (used ++ take count bytes.now) cutter.new taker.new) }
    ensures less { OnOk result (budget T.Taker cutter.new taker.new < budget T.Taker cutter.old taker.old) }
    ensures ended { IfErr result (λ ending. (used : List ℕ) → IsGoing T.Taker used cutter.old taker.old → length bytes.now ≤ READ_BYTES → EndsSo T.Taker (input (used ++ bytes.now) AtRunEnd) taker.new ending) }
{
    let fed = cutter.feed(bytes);
    match fed.full {
        Full::No => Ok(fed.used),
        Full::Long => Err(Ending::TooLong),
        Full::Line => match take_line(alloc, cutter, taker) {
            Ok(()) => Ok(fed.used),
            Err(ending) => Err(ending),
        },
    }
}

// Takes the line in hand, and makes the cutter ready for the next one. The ending is Stopped or Memory.
fn take_line<F, T: Taker<F>>(
    alloc: Global,
    cutter: &mut LineCutter,
    taker: &mut T,
) -> Result<(), Ending<F>>
    requires stands { (done : List (List ℕ)) × T.stands done taker.old }
    requires short { length cutter.old.line ≤ T.most taker.old }
    ensures took { OnOk result ((done : List (List ℕ)) → T.stands done taker.old → T.stands (done ++ cutter.old.line ∷ []) taker.new) }
    ensures less { OnOk result (T.room taker.new < T.room taker.old) }
    ensures ready { OnOk result ((cutter.new ≡ in_hand (T.most taker.new) []) × (T.most taker.new < word_bound)) }
    ensures stopped { IfErr result (λ ending. (done : List (List ℕ)) → T.stands done taker.old → StopsAt T.Taker done cutter.old.line ending taker.new) }
{
    match taker.take(cutter.line()) {
        Ok(()) => {}
        Err(why) => return Err(Ending::Stopped(why)),
    }
    match fit(alloc, cutter, taker.most_bytes()) {
        Ok(()) => Ok(()),
        Err(AllocError) => Err(Ending::Memory),
    }
}

// Makes the cutter ready for a line of at most so many bytes.
fn fit(alloc: Global, cutter: &mut LineCutter, most: u32) -> Result<(), AllocError>
    requires some { 0 < most }
    ensures { OnOk result (cutter.new ≡ in_hand most []) }
{
    if cutter.most() == most as usize {
        cutter.clear();
        return Ok(());
    }
    *cutter = LineCutter::sized(alloc, most)?;
    Ok(())
}

// Takes the line that the input's end leaves in hand, if it leaves one.
fn take_last<F, T: Taker<F>>(cutter: &LineCutter, taker: &mut T) -> Ending<F>
    requires going { Goes T.Taker cutter.now taker.old }
    ensures { (used : List ℕ) → IsGoing T.Taker used cutter.now taker.old → EndsSo T.Taker (input used AtEnd) taker.new result }
{
    if cutter.line().is_empty() {
        return Ending::End;
    }
    match taker.take(cutter.line()) {
        Ok(()) => Ending::End,
        Err(why) => Ending::Stopped(why),
    }
}
