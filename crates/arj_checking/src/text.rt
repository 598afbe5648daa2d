// The text of what is found.
ghost use Rattle.std.specs.Prelude.{◌≡◌, ◌++◌, IfOk, OnOk};
ghost use Rattle.arj_checking.specs.Found.{finding_text, no_text, order_text, outside_text, unreadable_text, verdict_text};

use crate::finding::Finding;
use arj_base::Bytes;
use arj_check::Verdict;
use arj_journal::{Body, Line, Which, line_text};
use arj_reading::Broken;
use arj_replay::Wrong;
use std::alloc::{AllocError, Global};

/// The text that a check writes of what it found.
pub fn text_of(alloc: Global, finding: &Finding) -> Result<Bytes, AllocError>
    ensures { IfOk result (λ text. text ≡ finding_text finding.now) }
{
    match finding {
        Finding::Bad { line, .. } => line_outside(alloc, Body::Bad { line: *line }),
        Finding::Long(_) => line_outside(
            alloc,
            Body::Limit {
                which: Which::Lines,
            },
        ),
        Finding::Unreadable(broken) => unreadable(alloc, broken),
        Finding::Verdict(verdict) => verdict_text(alloc, verdict),
    }
}

// The text of a line behind no event.
fn line_outside(alloc: Global, body: Body) -> Result<Bytes, AllocError>
    ensures { IfOk result (λ text. text ≡ outside_text body) }
{
    line_text(alloc, &Line { event: 0, body })
}

// The line that breaks a rule, by its place.
fn unreadable(alloc: Global, broken: &Broken) -> Result<Bytes, AllocError>
    ensures { IfOk result (λ text. text ≡ unreadable_text broken.now) }
{
    let mut text = Bytes::new(alloc);
    text.extend(b"unreadable ")?;
    text.extend_decimal(broken.line as u64)?;
    text.extend(b"\n")?;
    Ok(text)
}

// One line for each of the two orders.
fn verdict_text(alloc: Global, verdict: &Verdict) -> Result<Bytes, AllocError>
    ensures { IfOk result (λ text. text ≡ verdict_text verdict.now) }
{
    let mut text = Bytes::new(alloc);
    put_order(&mut text, b"serial", &verdict.serial)?;
    put_order(&mut text, b"nested", &verdict.nested)?;
    Ok(text)
}

// The word of an order, and whether each answer is that of this order, or the event of the first that isn't.
#[tactic(auto, using(std::proofs::lemmas::List::append_assoc))]
fn put_order(out: &mut Bytes, word: &[u8], wrong: &Option<Wrong>) -> Result<(), AllocError>
    ensures { OnOk result (out.new ≡ out.old ++ order_text word.now wrong.now) }
{
    out.extend(word)?;
    match wrong {
        None => out.extend(b" yes\n"),
        Some(wrong) => put_no(out, wrong.event),
    }
}

// The event of the first answer that isn't the one of an order.
#[tactic(auto, using(std::proofs::lemmas::List::append_assoc))]
fn put_no(out: &mut Bytes, event: u32) -> Result<(), AllocError>
    ensures { OnOk result (out.new ≡ out.old ++ no_text event) }
{
    out.extend(b" no ")?;
    out.extend_decimal(u64::from(event))?;
    out.extend(b"\n")
}
