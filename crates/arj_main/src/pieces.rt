// The pieces of a text between separators: lines, words, items of a list.
ghost use Rattle.std.specs.Prelude.{◌≡◌, slice_get};
ghost use Rattle.std.specs.Option.{option_copied};
ghost use Rattle.arj_main.specs.Pieces.{pieces, word};

use arj_text::field::cut;

/// The piece with this number, from 0. None where there are fewer.
pub fn piece_at(bytes: &[u8], separator: u8, number: usize) -> Option<&[u8]>
    ensures { option_copied result ≡ slice_get (pieces separator bytes.now) number }
{
    let mut rest = bytes;
    for _ in 0..number {
        let Some((_, behind)) = cut(rest, separator) else {
            return None;
        };
        rest = behind;
    }
    match cut(rest, separator) {
        Some((piece, _)) => Some(piece),
        None => Some(rest),
    }
}

/// The word of a line with this number, from 0; no bytes where there are fewer.
pub fn word_at(line: &[u8], number: usize) -> &[u8]
    ensures { result.now ≡ word number line.now }
{
    match piece_at(line, b' ', number) {
        Some(word) => word,
        None => &[],
    }
}
