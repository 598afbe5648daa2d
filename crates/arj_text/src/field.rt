// The fields of a line: words up to a separator, numbers and labels. Each reader tells exactly what has this text.
ghost use Rattle.std.specs.Prelude.{◌≡◌, ◌≢◌, ℕ, List, ◌∷◌, ◌++◌, ◌||◌, false, MatchBool, MatchOption, IfOk, IfSome};
ghost use Rattle.std.specs.List.{list_all};
ghost use Rattle.std.specs.Fmt.{decimal};
ghost use Rattle.arj_text.specs.Label.{LabelInForm, is_digit, is_label, is_letter, name};
ghost use Rattle.arj_text.specs.Fields.{IsRead, HasNoFirst, IsFirst, IsWithin, has_byte};

use crate::{LABEL_BYTES, Label};
use std::alloc::{AllocError, Global};

/// The largest number of 32 bits.
pub const WORD_MAX: u64 = 0xffff_ffff;

/// The largest number of 16 bits.
pub const SHORT_MAX: u64 = 0xffff;

/// The bytes before the first separator, and those behind it. None where there is no separator.
pub fn cut(bytes: &[u8], separator: u8) -> Option<(&[u8], &[u8])>
    ensures { MatchOption result
        (has_byte separator bytes.now ≡ false)
        (λ parts. (has_byte separator parts.0.now ≡ false)
        × (bytes.now ≡ parts.0.now ++ separator ∷ parts.1.now)) }
{
    for (at, byte) in bytes.iter().enumerate() {
        if *byte == separator {
            return Some((&bytes[..at], &bytes[at + 1..]));
        }
    }
    None
}

/// What stands behind a front that the bytes begin with.
pub fn after<'a>(bytes: &'a [u8], front: &[u8]) -> Option<&'a [u8]>
    ensures cases { MatchOption result
        ((rest : List ℕ) → bytes.now ≢ front.now ++ rest)
        (λ rest. bytes.now ≡ front.now ++ rest.now) }
    ensures only { IfSome result
        (λ rest. (other : List ℕ) → bytes.now ≡ front.now ++ other → rest.now ≡ other) }
{
    bytes.strip_prefix(front)
}

/// Whether the bytes are this text.
pub fn is_text(bytes: &[u8], text: &[u8]) -> bool
    ensures { MatchBool result (bytes.now ≡ text.now) (bytes.now ≢ text.now) }
{
    bytes == text
}

/// A number from `low` to `high`, in decimal without leading zeros.
pub fn number(alloc: Global, bytes: &[u8], low: u64, high: u64) -> Result<Option<u64>, AllocError>
    ensures { IfOk result (λ found. IsRead (IsWithin low high) decimal bytes.now found) }
{
    let Ok(text) = str::from_utf8(bytes) else {
        return Ok(None);
    };
    let Ok(n) = text.parse::<u64>() else {
        return Ok(None);
    };
    if n < low {
        return Ok(None);
    }
    if high < n {
        return Ok(None);
    }
    if is_spelled(bytes, n) {
        Ok(Some(n))
    } else {
        Ok(None)
    }
}

// Whether the bytes are the number as it is printed: its last digit stands last, and before it the number of its tens, if there
// are any.
fn is_spelled(bytes: &[u8], n: u64) -> bool
    ensures { MatchBool result (bytes.now ≡ decimal n) (bytes.now ≢ decimal n) }
{
    let [front @ .., last] = bytes else {
        return false;
    };
    if *last != 48 + (n % 10) as u8 {
        return false;
    }
    if 9 < n {
        is_spelled(front, n / 10)
    } else {
        front.is_empty()
    }
}

/// A number from `low` to `high` before a separator, which is no digit, and what stands behind that.
pub fn number_first(
    alloc: Global,
    bytes: &[u8],
    separator: u8,
    low: u64,
    high: u64,
) -> Result<Option<(u64, &[u8])>, AllocError>
    requires { is_digit separator ≡ false }
    ensures { IfOk result (λ found. MatchOption found
        (HasNoFirst separator (IsWithin low high) decimal bytes.now)
        (λ p. IsFirst separator (IsWithin low high) decimal bytes.now p.0 p.1.now)) }
{
    let Some((digits, rest)) = cut(bytes, separator) else {
        return Ok(None);
    };
    match number(alloc, digits, low, high)? {
        Some(n) => Ok(Some((n, rest))),
        None => Ok(None),
    }
}

/// A label: a letter and letters or digits behind it, at most 16 in all.
pub fn label_of(bytes: &[u8]) -> Option<Label>
    ensures { IsRead LabelInForm name bytes.now result }
{
    if bytes.len() > LABEL_BYTES {
        return None;
    }
    if !spells_label(bytes) {
        return None;
    }
    Some(Label::new(bytes))
}

/// A label before a space, and what stands behind that.
pub fn label_first(bytes: &[u8]) -> Option<(Label, &[u8])>
    ensures { MatchOption result
        (HasNoFirst 32 LabelInForm name bytes.now)
        (λ p. IsFirst 32 LabelInForm name bytes.now p.0 p.1.now) }
{
    let Some((word, rest)) = cut(bytes, b' ') else {
        return None;
    };
    let Some(label) = label_of(word) else {
        return None;
    };
    Some((label, rest))
}

// Whether the bytes are a letter followed by letters or digits.
fn spells_label(bytes: &[u8]) -> bool
    ensures { result ≡ is_label bytes.now }
{
    match bytes {
        [] => false,
        [first, rest @ ..] => is_letter(*first) && are_letters_or_digits(rest),
    }
}

fn is_letter(byte: u8) -> bool
    ensures { result ≡ is_letter byte }
{
    byte.is_ascii_alphabetic()
}

fn is_letter_or_digit(byte: u8) -> bool
    ensures { result ≡ (is_letter byte || is_digit byte) }
{
    is_letter(byte) || byte.is_ascii_digit()
}

fn are_letters_or_digits(bytes: &[u8]) -> bool
    ensures { result ≡ list_all (λ b. is_letter b || is_digit b) bytes.now }
{
    bytes.iter().all(|byte| is_letter_or_digit(*byte))
}
