// How much of a journal can be read as a run.
ghost use Rattle.std.specs.Prelude.{◌≡◌, ◌++◌, IfOk, OnOk, length};
ghost use Rattle.arj_reading.specs.Readable.{broken};
ghost use Rattle.arj_last.specs.Told.{broken_text, readable_count, unreadable_text};

use arj_base::Bytes;
use arj_journal::{Header, Line};
use arj_reading::{CheckFault, read};
use arj_text::words::put_numbered;
use std::alloc::{AllocError, Global};

/// How many lines stand before the first that breaks a rule.
pub fn readable_lines(alloc: Global, header: &Header, lines: &[Line]) -> Result<usize, AllocError>
    ensures { IfOk result (λ count. count ≡ readable_count (length lines.now) (broken header.now lines.now)) }
{
    match read(alloc, header, lines) {
        Ok(_) => Ok(lines.len()),
        Err(CheckFault::Unreadable(broken)) => Ok(broken.line.saturating_sub(1)),
        Err(CheckFault::Memory) => Err(AllocError),
    }
}

// Puts that this line is the first that breaks a rule.
#[tactic(auto, using(std::proofs::lemmas::List::append_assoc))]
fn put_broken(out: &mut Bytes, line: u64) -> Result<(), AllocError>
    ensures { OnOk result (out.new ≡ out.old ++ broken_text line) }
{
    put_numbered(out, b"unreadable", line)?;
    out.extend(b"\n")
}

/// Puts the first of these lines that breaks a rule, if one does behind so many that don't.
pub fn put_unreadable(
    out: &mut Bytes,
    readable: usize,
    lines: &[Line],
    header: &Header,
) -> Result<(), AllocError>
    ensures { readable ≡ readable_count (length lines.now) (broken header.now lines.now) → OnOk result (out.new ≡ out.old ++ unreadable_text (broken header.now lines.now)) }
{
    if readable >= lines.len() {
        return Ok(());
    }
    put_broken(out, (readable as u64).saturating_add(1))
}
