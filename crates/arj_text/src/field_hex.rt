// Bytes in a line: two hexadecimal digits each, in lower case, or `-` for none.
ghost use Rattle.std.specs.Prelude.{◌≡◌, ◌≢◌, ◌<◌, ℕ, List, [], ◌∷◌, IfOk, MatchOption};
ghost use Rattle.std.specs.List.{flat_map};
ghost use Rattle.arj_text.specs.Words.{hex, hex_digit, hex_pair};
ghost use Rattle.arj_text.specs.Fields.{AreBytes, AreBytesUpTo, HasNoFirst, IsFirst, IsRead};

use crate::field::{cut, is_text};
use arj_base::Bytes;
use std::alloc::{AllocError, Global};

/// Bytes, as digits or `-`.
pub fn hex(alloc: Global, bytes: &[u8]) -> Result<Option<Bytes>, AllocError>
    ensures { IfOk result (λ found. IsRead AreBytes hex bytes.now found) }
{
    if is_text(bytes, b"-") {
        return Ok(Some(Bytes::new(alloc)));
    }
    if bytes.is_empty() {
        return Ok(None);
    }
    pairs(alloc, bytes)
}

/// At most so many bytes, as digits or `-`.
pub fn hex_up_to(alloc: Global, bytes: &[u8], most: usize) -> Result<Option<Bytes>, AllocError>
    ensures { IfOk result (λ found. IsRead (AreBytesUpTo most) hex bytes.now found) }
{
    if bytes.len() / 2 > most {
        return Ok(None);
    }
    hex(alloc, bytes)
}

// Two digits a byte.
fn pairs(alloc: Global, bytes: &[u8]) -> Result<Option<Bytes>, AllocError>
    ensures { IfOk result (λ found. IsRead AreBytes (flat_map hex_pair) bytes.now found) }
{
    let mut found = Bytes::new(alloc);
    let mut rest = bytes;
    while let [high, low, behind @ ..] = rest {
        let Some(byte) = pair(*high, *low) else {
            return Ok(None);
        };
        found.push(byte)?;
        rest = behind;
    }
    if rest.is_empty() {
        Ok(Some(found))
    } else {
        Ok(None)
    }
}

// The byte with these two digits.
fn pair(high: u8, low: u8) -> Option<u8>
    ensures { MatchOption result
        ((b : ℕ) → b < 256 → high ∷ low ∷ [] ≢ hex_pair b)
        (λ b. (b < 256) × (high ∷ low ∷ [] ≡ hex_pair b)) }
{
    let Some(sixteens) = digit(high) else {
        return None;
    };
    let Some(ones) = digit(low) else {
        return None;
    };
    Some(sixteens * 16 + ones)
}

// The value of a digit.
fn digit(byte: u8) -> Option<u8>
    ensures { MatchOption result
        ((n : ℕ) → n < 16 → byte ≢ hex_digit n)
        (λ n. (n < 16) × (byte ≡ hex_digit n)) }
{
    match byte {
        b'0'..=b'9' => Some(byte - b'0'),
        b'a'..=b'f' => Some(byte - b'a' + 10),
        _ => None,
    }
}
