// A page that grows.
ghost use Rattle.std.specs.Prelude.{◌≡◌, ◌∷◌, [], if◌then◌else◌};
ghost use Rattle.arj_words.specs.Page.{escaped_byte, is_printable, plain_byte};

use arj_base::Bytes;
use arj_class::{Op, Value};
use arj_text::words::{put_op, put_value};
use std::alloc::{AllocError, Global};

/// What is written so far, and whether all of it stands there: once memory was wanting, the page is no longer whole.
#[derive(Drop)]
pub struct Page {
    pub alloc: Global,
    pub bytes: Bytes,
    pub whole: bool,
}

// Whether a byte is shown as itself.
fn is_plain(byte: u8) -> bool
    ensures { result ≡ is_printable byte }
{
    31 < byte && byte < 127
}

// A byte as it is shown.
fn plain_of(byte: u8) -> u8
    ensures { result ≡ plain_byte byte }
{
    if is_plain(byte) { byte } else { b'?' }
}

impl Page {
    ghost use Rattle.std.specs.Prelude.{◌≡◌, ◌∷◌, [], true, IfOk};
    ghost use Rattle.std.specs.List.{flat_map};
    ghost use Rattle.std.specs.Fmt.{decimal};
    ghost use Rattle.arj_text.specs.Words.{op_text, value_text};
    ghost use Rattle.arj_words.specs.Page.{Appends, Stays, escaped, escaped_byte, plain, plain_byte};

    /// A page with nothing on it.
    pub fn new(alloc: Global) -> Page
        ensures empty { result.bytes ≡ [] }
        ensures whole { result.whole ≡ true }
    {
        Page {
            alloc,
            bytes: Bytes::new(alloc),
            whole: true,
        }
    }

    /// Writes bytes as they are.
    pub fn put(&mut self, bytes: &[u8])
        ensures appends { Appends self.old bytes.now self.new }
        ensures stays { Stays self.old.bytes self.new.bytes }
    {
        let put = self.bytes.extend(bytes).is_ok();
        self.whole = self.whole && put;
    }

    /// Writes a number, in decimal.
    pub fn number(&mut self, n: u64)
        ensures appends { Appends self.old (decimal n) self.new }
        ensures stays { Stays self.old.bytes self.new.bytes }
    {
        let put = self.bytes.extend_decimal(n).is_ok();
        self.whole = self.whole && put;
    }

    /// Writes an operation, as a script has it.
    pub fn op(&mut self, op: &Op)
        ensures appends { Appends self.old (op_text op.now) self.new }
        ensures stays { Stays self.old.bytes self.new.bytes }
    {
        let mut text = Bytes::new(self.alloc);
        match put_op(&mut text, op) {
            Ok(()) => self.put(text.as_slice()),
            Err(AllocError) => self.whole = false,
        }
    }

    /// Writes the class and the value of an object, as a script has them.
    pub fn value(&mut self, value: &Value)
        ensures appends { Appends self.old (value_text value.now) self.new }
        ensures stays { Stays self.old.bytes self.new.bytes }
    {
        let mut text = Bytes::new(self.alloc);
        match put_value(&mut text, value) {
            Ok(()) => self.put(text.as_slice()),
            Err(AllocError) => self.whole = false,
        }
    }

    // Writes a byte as it is shown.
    fn plain_byte(&mut self, byte: u8)
        ensures appends { Appends self.old (plain_byte byte ∷ []) self.new }
        ensures stays { Stays self.old.bytes self.new.bytes }
    {
        self.put(&[plain_of(byte)]);
    }

    /// Writes bytes as they are shown: question marks stand for those that aren't printable ASCII.
    #[tactic(auto, using(std::proofs::lemmas::List::append_assoc))]
    pub fn plain(&mut self, bytes: &[u8])
        ensures appends { Appends self.old (plain bytes.now) self.new }
        ensures stays { Stays self.old.bytes self.new.bytes }
    {
        for byte in bytes {
            self.plain_byte(*byte);
        }
    }

    // Writes a byte so that it has no meaning in HTML. A line feed stays.
    fn escaped_byte(&mut self, byte: u8)
        ensures appends { Appends self.old (escaped_byte byte) self.new }
        ensures stays { Stays self.old.bytes self.new.bytes }
    {
        match byte {
            b'&' => self.put(b"&amp;"),
            b'<' => self.put(b"&lt;"),
            b'>' => self.put(b"&gt;"),
            b'"' => self.put(b"&quot;"),
            b'\'' => self.put(b"&#39;"),
            b'\n' => self.put(b"\n"),
            _ => self.plain_byte(byte),
        }
    }

    /// Writes bytes so that none has a meaning in HTML. Line feeds stay.
    #[tactic(auto, using(std::proofs::lemmas::List::append_assoc))]
    pub fn escaped(&mut self, bytes: &[u8])
        ensures appends { Appends self.old (escaped bytes.now) self.new }
        ensures stays { Stays self.old.bytes self.new.bytes }
    {
        for byte in bytes {
            self.escaped_byte(*byte);
        }
    }

    /// What is written, if the page is whole.
    pub fn finish(self) -> Result<Bytes, AllocError>
        ensures { IfOk result (λ bytes. (self.whole ≡ true) × (bytes ≡ self.bytes)) }
    {
        if !self.whole {
            return Err(AllocError);
        }
        Ok(self.bytes)
    }
}
