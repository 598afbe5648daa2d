// The text of an image, or that it is too long.
ghost use Rattle.std.specs.Prelude.{◌≡◌, ◌≤◌, ◌<◌, ◌⊎◌, ◌+◌, ◌++◌, ◌∷◌, [], IfOk, MatchBool, OnOk, length};
ghost use Rattle.arj_image.specs.Written.{format_forms};
ghost use Rattle.arj_journal.specs.LineText.{line_text as text_of_line};
ghost use Rattle.arj_image.specs.declared.limits.TheConstants.{FILE_LINES as most_files, IMAGE_LINES as most_lines};
ghost use Rattle.arj_saving.specs.Saved.{IsLong, IsShort, SaysImage, image_of, too_many};

use crate::stopping::last_sent;
use arj_base::{Bytes, Format};
use arj_image::{FILE_LINES, Files, IMAGE_LINES, parts_text};
use arj_journal::{Body, Header, Line, Lines, Which, line_text};
use std::alloc::{AllocError, Global};

/// What is said, and with which status.
#[derive(Drop)]
pub struct Said {
    pub status: u8,
    pub text: Bytes,
}

// How many lines the format has.
fn format_lines(format: Format) -> usize
    ensures { result ≡ length (format_forms format) }
{
    match format {
        Format::One => 1,
        Format::Two => 0,
    }
}

// Whether so many lines are more than an image may have.
fn are_many(objects: usize, lines: usize, files: usize, others: usize) -> bool
    requires few { others ≤ 100 }
    ensures { MatchBool result ((most_lines < objects + lines + files + others) ⊎ (most_files < files)) ((objects + lines + files + others ≤ most_lines) × (files ≤ most_files)) }
{
    let most = IMAGE_LINES as usize;
    let most_files = FILE_LINES as usize;
    if most < objects || most < lines || most_files < files {
        return true;
    }
    most < objects + lines + files + others
}

// Whether the image of a run is too long.
fn is_long(header: &Header, lines: &Lines, files: &Files, events: u32) -> bool
    ensures { MatchBool result (IsLong (image_of header.now events lines.now files.now)) (IsShort (image_of header.now events lines.now files.now)) }
{
    let objects = header.objects.as_slice().len();
    let others = 4 + format_lines(header.format);
    are_many(
        objects,
        lines.as_slice().len(),
        files.as_slice().len(),
        others,
    )
}

// Says that the image has too many lines, and puts that behind the journal.
fn say_long(alloc: Global, events: u32, journal: &mut Lines) -> Result<Bytes, AllocError>
    ensures text { IfOk result (λ text. text ≡ text_of_line (too_many events)) }
    ensures journal { OnOk result (journal.new ≡ journal.old ++ too_many events ∷ []) }
{
    let line = Line {
        event: events,
        body: Body::Limit {
            which: Which::Lines,
        },
    };
    let text = line_text(alloc, &line)?;
    journal.push(line)?;
    Ok(text)
}

/// Says the image of a run under this header with so many events, this journal and these files, or that it is too long.
pub fn say_image(
    alloc: Global,
    header: &Header,
    events: u32,
    journal: &mut Lines,
    files: &Files,
) -> Result<Said, AllocError>
    ensures { IfOk result (λ said. SaysImage (image_of header.now events journal.old files.now) journal.new said.text said.status) }
{
    if is_long(header, journal, files, events) {
        let text = say_long(alloc, events, journal)?;
        return Ok(Said { status: 6, text });
    }
    let counts = (events, last_sent(journal.as_slice()));
    let text = parts_text(alloc, header, counts, journal.as_slice(), files.as_slice())?;
    Ok(Said { status: 0, text })
}
