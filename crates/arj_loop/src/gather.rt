// The text of journal lines on its way into the sink: it gathers, and goes out in pieces.
ghost use Rattle.std.specs.Prelude.{◌≡◌, ◌≤◌, ℕ, List, [], ◌++◌, take, IfOk, OnOk, OnErr, IfErr, IsErrOf, ◌⊎◌, Option};
ghost use Rattle.arj_base.specs.Count.{Rose};
ghost use Rattle.arj_io.specs.Told.{Takes};
ghost use Rattle.arj_journal.specs.declared.body.Line.{Line};
ghost use Rattle.arj_journal.specs.LineText.{text};
ghost use Rattle.arj_loop.specs.Running.{Gathers, Fronts};

use crate::ending::End;
use crate::limits::WRITE_BYTES;
use arj_base::Bytes;
use arj_io::{Failed, Sink, write_all};
use arj_journal::{Line, put_line};
use std::alloc::{AllocError, Global};
use std::mem;

/// Text that waits to be written, and a list in which the text of the lines in hand is made, so that each event doesn't
/// take a new one.
#[derive(Drop)]
pub struct Gather {
    alloc: Global,
    pub waiting: Vec<u8>,
    spare: Bytes,
}

impl Gather {
    /// Nothing waits.
    pub fn new(alloc: Global) -> Gather
        ensures { result.waiting.items ≡ [] }
    {
        Gather {
            alloc,
            waiting: Vec::new(alloc),
            spare: Bytes::new(alloc),
        }
    }

    /// Puts the text of these lines behind what waits, and writes all of it once it is long enough. The end is Write or
    /// Memory; at Memory the same waits as before.
    pub fn put_lines<K: Sink>(&mut self, lines: &[Line], sink: &mut K) -> Result<(), End>
        ensures gathers { OnOk result ((journal : List Line) (taken : Option (List ℕ)) → Gathers journal self.old.waiting.items taken (K.taken sink.old)
            → Gathers (journal ++ lines.now) self.new.waiting.items taken (K.taken sink.new)) }
        ensures front { IsErrOf result End.Write → (journal : List Line) (taken : Option (List ℕ)) → Gathers journal self.old.waiting.items taken (K.taken sink.old)
            → Fronts (journal ++ lines.now) taken (K.taken sink.new) }
        ensures fault { IsErrOf result End.Write → Rose (K.faults sink.old) (K.faults sink.new) }
        ensures memory { IsErrOf result End.Memory → (self.new.waiting.items ≡ self.old.waiting.items) × (sink.new ≡ sink.old) }
        ensures only { IfErr result (λ end. (end ≡ End.Write) ⊎ (end ≡ End.Memory)) }
        ensures steady { OnOk result (K.faults sink.new ≡ K.faults sink.old) }
        ensures later { K.faults sink.old ≤ K.faults sink.new }
    {
        self.put(lines)?;
        if self.waiting.len() < WRITE_BYTES {
            return Ok(());
        }
        match self.flush(sink) {
            Ok(()) => Ok(()),
            Err(Failed) => Err(End::Write),
        }
    }

    /// Puts the text of these lines behind what waits. Where memory is wanting the same waits as before.
    pub fn put(&mut self, lines: &[Line]) -> Result<(), AllocError>
        ensures put { OnOk result (self.new.waiting.items ≡ self.old.waiting.items ++ text lines.now) }
        ensures kept { OnErr result (self.new.waiting.items ≡ self.old.waiting.items) }
    {
        let written = self.text_of(lines)?;
        self.add(written.as_slice())?;
        self.spare = written;
        Ok(())
    }

    /// Writes what waits. Where a write fails a front of it was taken.
    pub fn flush<K: Sink>(&mut self, sink: &mut K) -> Result<(), Failed>
        ensures wrote { OnOk result (Takes (K.taken sink.old) self.old.waiting.items (K.taken sink.new)) }
        ensures empty { OnOk result (self.new.waiting.items ≡ []) }
        ensures front { OnErr result ((count : ℕ) × Takes (K.taken sink.old) (take count self.old.waiting.items) (K.taken sink.new)) }
        ensures fault { OnErr result (Rose (K.faults sink.old) (K.faults sink.new)) }
        ensures steady { OnOk result (K.faults sink.new ≡ K.faults sink.old) }
        ensures later { K.faults sink.old ≤ K.faults sink.new }
    {
        write_all(sink, self.waiting.as_slice())?;
        self.waiting.clear();
        Ok(())
    }

    // The text of these lines, in the spare list.
    fn text_of(&mut self, lines: &[Line]) -> Result<Bytes, AllocError>
        ensures text { IfOk result (λ written. written ≡ text lines.now) }
        ensures kept { self.new.waiting.items ≡ self.old.waiting.items }
    {
        let mut written = emptied(mem::replace(&mut self.spare, Bytes::new(self.alloc)));
        put_all(&mut written, lines)?;
        Ok(written)
    }

    // Puts bytes behind what waits.
    fn add(&mut self, bytes: &[u8]) -> Result<(), AllocError>
        ensures put { OnOk result (self.new.waiting.items ≡ self.old.waiting.items ++ bytes.now) }
        ensures kept { OnErr result (self.new.waiting.items ≡ self.old.waiting.items) }
    {
        self.waiting.extend_from_slice(bytes)
    }
}

// The list without its bytes. It keeps their memory.
fn emptied(bytes: Bytes) -> Bytes
    ensures { result ≡ [] }
{
    let mut items = bytes.into_vec();
    items.clear();
    Bytes::from_vec(items)
}

// Puts the text of these lines at the end.
fn put_all(written: &mut Bytes, lines: &[Line]) -> Result<(), AllocError>
    requires { written.old ≡ [] }
    ensures { OnOk result (written.new ≡ text lines.now) }
{
    for line in lines {
        put_line(written, line)?;
    }
    Ok(())
}
