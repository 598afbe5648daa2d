// Lines with their ends, from the front of an input.
ghost use Rattle.std.specs.Prelude.{◌≡◌, ◌<◌, ◌++◌, ◌∷◌, [], length, MatchOption, false};
ghost use Rattle.arj_seen.specs.Input.{IsEnded};
ghost use Rattle.arj_text.specs.Fields.{has_byte};

/// The first line with its line feed, and what stands behind it. None where no line feed comes.
pub fn first_line(bytes: &[u8]) -> Option<(&[u8], &[u8])>
    ensures { MatchOption result
        (has_byte 10 bytes.now ≡ false)
        (λ parts. (bytes.now ≡ parts.0.now ++ parts.1.now) × (length parts.1.now < length bytes.now) × IsEnded parts.0.now) }
{
    for (at, byte) in bytes.iter().enumerate() {
        if *byte == b'\n' {
            return Some((&bytes[..at + 1], &bytes[at + 1..]));
        }
    }
    None
}
