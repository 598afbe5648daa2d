// The text of a report.
ghost use Rattle.std.specs.Prelude.{◌≡◌, ◌++◌, IfOk, OnOk};
ghost use Rattle.arj_programs.specs.Text.{report_text, told_line, told_text};

use arj_base::Bytes;
use arj_progrun::{Report, ReportLine};
use std::alloc::{AllocError, Global};

// Puts a line of a word and what stands behind it.
#[tactic(auto, using(std::proofs::lemmas::List::append_assoc))]
fn put_told(out: &mut Bytes, word: &[u8], bytes: &[u8]) -> Result<(), AllocError>
    ensures { OnOk result (out.new ≡ out.old ++ told_line word.now bytes.now) }
{
    out.extend(word)?;
    out.extend(bytes)?;
    out.extend(b"\n")
}

// Puts the text of a line.
fn put_line(out: &mut Bytes, line: &ReportLine) -> Result<(), AllocError>
    ensures { OnOk result (out.new ≡ out.old ++ told_text line.now) }
{
    match line {
        ReportLine::Commit(label) => put_told(out, b"commit ", label.as_bytes()),
        ReportLine::Print(answer) => put_told(out, b"print ", answer.as_slice()),
        ReportLine::Failed(label) => put_told(out, b"failed ", label.as_bytes()),
        ReportLine::GaveUp(label) => put_told(out, b"gaveup ", label.as_bytes()),
        ReportLine::Unfinished(label) => put_told(out, b"unfinished ", label.as_bytes()),
    }
}

// Puts the text of lines.
fn put_lines(out: &mut Bytes, lines: &[ReportLine]) -> Result<(), AllocError>
    ensures { OnOk result (out.new ≡ out.old ++ report_text lines.now) }
{
    for line in lines {
        put_line(out, line)?;
    }
    Ok(())
}

/// The text that is written of a report: a line for each of its lines.
pub fn report_text(alloc: Global, report: &Report) -> Result<Bytes, AllocError>
    ensures { IfOk result (λ text. text ≡ report_text report.now) }
{
    let mut out = Bytes::new(alloc);
    put_lines(&mut out, report.as_slice())?;
    Ok(out)
}
