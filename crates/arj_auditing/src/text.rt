// The text of what is found.
ghost use Rattle.std.specs.Prelude.{◌≡◌, ◌++◌, IfOk, OnOk, codes};
ghost use Rattle.arj_auditing.specs.Found.{answer_word, finding_text, findings_text, found_text};
ghost use Rattle.arj_checking.specs.Found.{outside_text, unreadable_text};

use crate::finding::Finding;
use arj_audit::Findings;
use arj_base::Bytes;
use arj_journal::{Body, Line, Which, line_text};
use arj_reading::Broken;
use std::alloc::{AllocError, Global};

/// The text that an audit writes of what it found.
pub fn text_of(alloc: Global, finding: &Finding) -> Result<Bytes, AllocError>
    ensures { IfOk result (λ text. text ≡ finding_text finding.now) }
{
    match finding {
        Finding::Bad { line, .. } => line_outside(alloc, Body::Bad { line: *line }),
        Finding::Long => line_outside(
            alloc,
            Body::Limit {
                which: Which::Lines,
            },
        ),
        Finding::Unreadable(broken) => unreadable(alloc, broken),
        Finding::Found(findings) => findings_text(alloc, findings),
    }
}

// The text of a line behind no event.
fn line_outside(alloc: Global, body: Body) -> Result<Bytes, AllocError>
    ensures { IfOk result (λ text. text ≡ outside_text body) }
{
    line_text(alloc, &Line { event: 0, body })
}

// The line that breaks a rule, by its place.
fn unreadable(alloc: Global, broken: &Broken) -> Result<Bytes, AllocError>
    ensures { IfOk result (λ text. text ≡ unreadable_text broken.now) }
{
    let mut text = Bytes::new(alloc);
    text.extend(b"unreadable ")?;
    text.extend_decimal(broken.line as u64)?;
    text.extend(b"\n")?;
    Ok(text)
}

// A line for each finding.
fn findings_text(alloc: Global, findings: &Findings) -> Result<Bytes, AllocError>
    ensures { IfOk result (λ text. text ≡ findings_text findings.now) }
{
    let mut text = Bytes::new(alloc);
    put_found(&mut text, b"serial", findings.serial)?;
    put_found(&mut text, b"clean", findings.clean)?;
    put_found(&mut text, b"quiet", findings.quiet)?;
    put_found(&mut text, b"calm", findings.calm)?;
    Ok(text)
}

// The word of a finding, and whether it is so.
#[tactic(auto, using(std::proofs::lemmas::List::append_assoc))]
fn put_found(out: &mut Bytes, word: &[u8], found: bool) -> Result<(), AllocError>
    ensures { OnOk result (out.new ≡ out.old ++ found_text word.now found) }
{
    out.extend(word)?;
    put_answer(out, found)
}

// Whether it is so.
fn put_answer(out: &mut Bytes, found: bool) -> Result<(), AllocError>
    ensures { OnOk result (out.new ≡ out.old ++ answer_word found) }
{
    if found {
        out.extend(b" yes\n")
    } else {
        out.extend(b" no\n")
    }
}
