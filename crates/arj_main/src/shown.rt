// A line as it is shown.
use std::fmt;

/// How many bytes of a line are shown.
pub const SHOWN_BYTES: usize = 100;

/// The front of a line, with each byte that isn't a printable ASCII character in a form of its own.
#[derive(Clone, Copy)]
pub struct Shown<'a>(pub &'a [u8]);

impl fmt::Display for Shown<'_> {
    fn fmt<W: fmt::Write>(&self, f: &mut fmt::Formatter<W>) -> fmt::Result {
        for byte in self.0.iter().take(SHOWN_BYTES) {
            show_byte(*byte, f)?;
        }
        if self.0.len() > SHOWN_BYTES {
            return write!(f, "..");
        }
        Ok(())
    }
}

fn show_byte<W: fmt::Write>(byte: u8, f: &mut fmt::Formatter<W>) -> fmt::Result {
    match byte {
        b'\t' => write!(f, "\\t"),
        b'\r' => write!(f, "\\r"),
        32..=126 => write!(f, "{}", char::from(byte)),
        _ => write!(f, "\\x{byte:02x}"),
    }
}
