// The text of an image.
ghost use Rattle.std.specs.Prelude.{◌≡◌, ◌++◌, IfOk, OnOk, map};
ghost use Rattle.std.specs.List.{flat_map};
ghost use Rattle.arj_image.specs.Grammar.{Has, Object, Says};
ghost use Rattle.arj_image.specs.Texts.{counts_text};
ghost use Rattle.arj_image.specs.Written.{form_text, format_forms, image_by, image_text as text_of};

use crate::file::put_file;
use crate::image::{Image, NodeFile};
use arj_base::{Bytes, Format};
use arj_journal::{Header, Line, ObjectLine, put_line, put_nodes, put_object};
use arj_text::words::{put_number, put_numbered};
use std::alloc::{AllocError, Global};

/// The text of an image, each line with its end.
pub fn image_text(alloc: Global, image: &Image) -> Result<Bytes, AllocError>
    ensures { IfOk result (λ text. text ≡ text_of image.now) }
{
    let counts = (image.events, image.frames);
    let lines = image.journal.as_slice();
    parts_text(alloc, &image.header, counts, lines, image.files.as_slice())
}

/// The text of the image with this header, these numbers of events and frames, these lines and these files.
pub fn parts_text(
    alloc: Global,
    header: &Header,
    counts: (u32, u32),
    lines: &[Line],
    files: &[NodeFile],
) -> Result<Bytes, AllocError>
    ensures { IfOk result (λ text. text ≡ text_of (image_by header.now counts lines.now files.now)) }
{
    let mut out = Bytes::new(alloc);
    put_nodes(&mut out, header.nodes)?;
    out.extend(b"\n")?;
    put_format(&mut out, header.format)?;
    put_objects(&mut out, header.objects.as_slice())?;
    put_counts(&mut out, counts.0, counts.1)?;
    out.extend(b"\njournal\n")?;
    put_journal(&mut out, lines)?;
    out.extend(b"files\n")?;
    put_files(alloc, &mut out, files)?;
    Ok(out)
}

// The line of the first states' format, where it is one.
fn put_format(out: &mut Bytes, format: Format) -> Result<(), AllocError>
    ensures { OnOk result (out.new ≡ out.old ++ flat_map form_text (format_forms format)) }
{
    match format {
        Format::One => out.extend(b"format 1\n"),
        Format::Two => Ok(()),
    }
}

// The counts of events and of frames.
#[tactic(auto, using(std::proofs::lemmas::List::append_assoc))]
fn put_counts(out: &mut Bytes, events: u32, frames: u32) -> Result<(), AllocError>
    ensures { OnOk result (out.new ≡ out.old ++ counts_text (events, frames)) }
{
    put_numbered(out, b"counts", u64::from(events))?;
    put_number(out, u64::from(frames))
}

// The lines of objects.
#[tactic(auto, using(std::proofs::lemmas::List::append_assoc))]
fn put_objects(out: &mut Bytes, objects: &[ObjectLine]) -> Result<(), AllocError>
    ensures { OnOk result (out.new ≡ out.old ++ flat_map form_text (map Object objects.now)) }
{
    for object in objects {
        put_object(out, object)?;
        out.extend(b"\n")?;
    }
    Ok(())
}

// The lines of a journal.
#[tactic(auto, using(std::proofs::lemmas::List::append_assoc))]
fn put_journal(out: &mut Bytes, lines: &[Line]) -> Result<(), AllocError>
    ensures { OnOk result (out.new ≡ out.old ++ flat_map form_text (map Says lines.now)) }
{
    for line in lines {
        put_line(out, line)?;
    }
    Ok(())
}

// The lines of files.
#[tactic(auto, using(std::proofs::lemmas::List::append_assoc))]
fn put_files(alloc: Global, out: &mut Bytes, files: &[NodeFile]) -> Result<(), AllocError>
    ensures { OnOk result (out.new ≡ out.old ++ flat_map form_text (map Has files.now)) }
{
    for file in files {
        put_file(alloc, out, file)?;
        out.extend(b"\n")?;
    }
    Ok(())
}
