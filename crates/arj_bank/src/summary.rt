// What a run of the bank came to.
ghost use Rattle.std.specs.Prelude.{◌≡◌, ◌++◌, false, OnOk, IfOk};
ghost use Rattle.std.specs.List.{count_by};
ghost use Rattle.arj_bank.specs.Summary.{count_line, last_quiet, quiet_by, quiet_line, summary_of, summary_text, tells};

use arj_base::Bytes;
use arj_journal::{Body, Line};
use arj_text::words::put_numbered;
use std::alloc::{AllocError, Global};

/// How many events were run, how many journal lines tell of a commit, an abort and a refusal, the sum of the balances, and
/// whether the last line about a round says that all is quiet.
#[derive(Clone, Copy)]
pub struct Summary {
    pub events: u32,
    pub committed: u64,
    pub aborted: u64,
    pub refused: u64,
    pub sum: u64,
    pub quiet: bool,
}

/// What a line may tell of.
#[derive(Clone, Copy)]
pub enum Told {
    Commit,
    Abort,
    Refusal,
}

// Whether a line tells of this.
#[tactic(auto, unfolding(crate::specs::Summary::tells))]
fn tells(told: Told, line: &Line) -> bool
    ensures { result ≡ tells told line.now }
{
    match told {
        Told::Commit => matches!(line.body, Body::Committed { .. }),
        Told::Abort => matches!(line.body, Body::Aborted { .. }),
        Told::Refusal => matches!(line.body, Body::Refused { .. }),
    }
}

// How many lines tell of this.
fn count(told: Told, lines: &[Line]) -> u64
    ensures { result ≡ count_by (tells told) lines.now }
{
    let mut count: u64 = 0;
    for line in lines {
        if tells(told, line) {
            count += 1;
        }
    }
    count
}

// What a line says of a round: whether all is quiet, else what was said before.
#[tactic(auto, unfolding(crate::specs::Summary::quiet_by))]
fn quiet_by(line: &Line, before: bool) -> bool
    ensures { result ≡ quiet_by line.now before }
{
    match line.body {
        Body::Quiet { yes } => yes,
        _ => before,
    }
}

// Whether the last line about a round says that all is quiet.
fn ends_quiet(lines: &[Line]) -> bool
    ensures { result ≡ last_quiet lines.now false }
{
    let mut quiet = false;
    for line in lines {
        quiet = quiet_by(line, quiet);
    }
    quiet
}

// The last line of a summary.
fn quiet_line_of(quiet: bool) -> &'static [u8]
    ensures { result.now ≡ quiet_line quiet }
{
    if quiet { b"quiet yes\n" } else { b"quiet no\n" }
}

// Puts a line of a word and a number.
#[tactic(auto, using(std::proofs::lemmas::List::append_assoc))]
fn put_count(out: &mut Bytes, word: &[u8], n: u64) -> Result<(), AllocError>
    ensures { OnOk result (out.new ≡ out.old ++ count_line word.now n) }
{
    put_numbered(out, word, n)?;
    out.extend(b"\n")
}

impl Summary {
    /// The summary of a run of so many events with this journal, behind which the balances have this sum.
    pub fn new(events: u32, lines: &[Line], sum: u64) -> Summary
        ensures { result ≡ summary_of events lines.now sum }
    {
        Summary {
            events,
            committed: count(Told::Commit, lines),
            aborted: count(Told::Abort, lines),
            refused: count(Told::Refusal, lines),
            sum,
            quiet: ends_quiet(lines),
        }
    }

    /// Its six lines.
    #[tactic(auto, using(std::proofs::lemmas::List::append_assoc))]
    pub fn text(&self, alloc: Global) -> Result<Bytes, AllocError>
        ensures { IfOk result (λ text. text ≡ summary_text self.now) }
    {
        let mut out = Bytes::new(alloc);
        put_count(&mut out, b"events", u64::from(self.events))?;
        put_count(&mut out, b"committed", self.committed)?;
        put_count(&mut out, b"aborted", self.aborted)?;
        put_count(&mut out, b"refused", self.refused)?;
        put_count(&mut out, b"sum", self.sum)?;
        out.extend(quiet_line_of(self.quiet))?;
        Ok(out)
    }
}
