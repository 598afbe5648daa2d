// The reader of journal lines.
ghost use Rattle.std.specs.Prelude.{◌≡◌, ◌≢◌, IfOk, IsErrOf, MatchResult};
ghost use Rattle.arj_journal.specs.declared.body.Line.{Line as line_type};
ghost use Rattle.arj_journal_reader.specs.declared.fault.LineFault.TheVariants as line_fault;
ghost use Rattle.arj_journal_reader.specs.Form.{IsOfKind};
ghost use Rattle.arj_journal.specs.LineForm.{BodyInForm, LineInForm};
ghost use Rattle.arj_journal_reader.specs.LineKinds.{lines};
ghost use Rattle.arj_journal.specs.LineText.{body_text, line_text as text_of_line};
ghost use Rattle.arj_journal_reader.specs.Reading.{IsTaken};

use crate::piece::{Piece, before};
use crate::pieces::Word;
use crate::spelled::one_of;
use crate::{LineFault, action_lines, node_lines};
use arj_journal::line_kind::LineKind;
use arj_journal::{Body, Line};
use arj_text::field::cut;
use std::alloc::Global;

/// Reads a journal line, its line feed included: exactly what `line_text` writes of a line in form.
pub fn read_line(alloc: Global, bytes: &[u8]) -> Result<Line, LineFault>
    ensures read { IfOk result (λ l. LineInForm l × (bytes.now ≡ text_of_line l)) }
    ensures back { (l : line_type) → LineInForm l → bytes.now ≡ text_of_line l
        → MatchResult result (λ m. m ≡ l) (λ fault. fault ≡ line_fault.Memory) }
    ensures none { IsErrOf result line_fault.NotALine → (l : line_type) → LineInForm l → bytes.now ≢ text_of_line l }
{
    line(alloc, bytes)
}

fn line(alloc: Global, bytes: &[u8]) -> Result<Line, LineFault>
    ensures { IsTaken LineInForm text_of_line bytes.now result }
{
    let Some(text) = before(bytes, b"\n") else {
        return Err(LineFault::NotALine);
    };
    let (event, body) = <(Word, Body)>::read(alloc, text)?;
    Ok(Line {
        event: event.number,
        body,
    })
}

impl Piece for Body {
    ghost in_form = { BodyInForm };

    ghost text = { body_text };

    fn read(alloc: Global, bytes: &[u8]) -> Result<Body, LineFault> {
        let Some((word, fields)) = cut(bytes, b' ') else {
            return Err(LineFault::NotALine);
        };
        let kind = one_of(word)?;
        of_kind(kind, alloc, fields)
    }
}

// What stands behind the first word.
fn of_kind(kind: LineKind, alloc: Global, fields: &[u8]) -> Result<Body, LineFault>
    ensures { IsOfKind lines kind fields.now result }
{
    match kind {
        LineKind::Began => action_lines::began(alloc, fields),
        LineKind::Ok => action_lines::answered(alloc, fields),
        LineKind::Includes => action_lines::includes(alloc, fields),
        LineKind::Conflict => action_lines::conflict(alloc, fields),
        LineKind::Lost => action_lines::lost(alloc, fields),
        LineKind::Changed => action_lines::changed(alloc, fields),
        LineKind::Committing => action_lines::committing(alloc, fields),
        LineKind::Committed => action_lines::committed(alloc, fields),
        LineKind::Ended => action_lines::ended(alloc, fields),
        LineKind::Aborted => action_lines::aborted(alloc, fields),
        LineKind::GaveUp => action_lines::gave_up(alloc, fields),
        LineKind::Excluded => action_lines::excluded(alloc, fields),
        LineKind::Granted => node_lines::granted(alloc, fields),
        LineKind::Lowered => node_lines::lowered(alloc, fields),
        LineKind::Bound => node_lines::bound(alloc, fields),
        LineKind::Active => node_lines::active(alloc, fields),
        LineKind::Told => node_lines::told(alloc, fields),
        LineKind::Prepared => node_lines::prepared(alloc, fields),
        LineKind::Done => node_lines::done(alloc, fields),
        LineKind::Sent => node_lines::sent(alloc, fields),
        LineKind::Got => node_lines::got(alloc, fields),
        LineKind::Void => node_lines::void(alloc, fields),
        LineKind::Dropped => node_lines::dropped(alloc, fields),
        LineKind::Halted => node_lines::halted(alloc, fields),
        LineKind::Up => node_lines::up(alloc, fields),
        LineKind::Armed => node_lines::armed(alloc, fields),
        LineKind::Recovered => node_lines::recovered(alloc, fields),
        LineKind::Refused => node_lines::refused(alloc, fields),
        LineKind::Entry => node_lines::entry(alloc, fields),
        LineKind::Copy => node_lines::copy(alloc, fields),
        LineKind::Quiet => node_lines::quiet(alloc, fields),
        LineKind::Bad => node_lines::bad(alloc, fields),
        LineKind::Limit => node_lines::limit(alloc, fields),
    }
}
