// The front of the writes on an object by some number of tops.
ghost use Rattle.std.specs.Prelude.{◌≡◌, ◌==◌, ◌&&◌, not, None};
ghost use Rattle.arj_last.specs.declared.picked.Wrote.{Wrote as wrote_type};
ghost use Rattle.arj_past.specs.Rows.{front_from, left_by as number_left, was as was_last};

use arj_last::Wrote;

// Whether the last top was this one.
fn was(last: Option<usize>, top: usize) -> bool
    ensures { result ≡ was_last last top }
{
    match last {
        None => false,
        Some(last) => last == top,
    }
}

// How many tops more may come behind a write, which is of the last top or not.
fn left_by(again: bool, left: u64) -> u64
    ensures { result ≡ number_left again left }
{
    if again { left } else { left.saturating_sub(1) }
}

// Whether a write is of one top too many.
fn is_beyond(again: bool, left: u64) -> bool
    ensures { result ≡ (not again && (left == 0)) }
{
    !again && left == 0
}

/// The front of these writes by at most so many tops, where the writes of each top stand together.
pub fn front(wrotes: &[Wrote], most: u64) -> &[Wrote]
    ensures { result.now ≡ front_from (λ (w : wrote_type). w.top) None most wrotes.now }
{
    let mut left = most;
    let mut last = None;
    for (at, wrote) in wrotes.iter().enumerate() {
        let again = was(last, wrote.top);
        if is_beyond(again, left) {
            return &wrotes[..at];
        }
        left = left_by(again, left);
        last = Some(wrote.top);
    }
    wrotes
}
