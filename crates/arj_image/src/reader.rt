// The reader of images.
ghost use Rattle.std.specs.Prelude.{◌≡◌, ◌≢◌, ◌++◌, ◌∷◌, [], ℕ, nat_lt, IfOk, OnOk, OnErr, IsErrOf};
ghost use Rattle.arj_image.specs.Grammar.{CountsInForm, ObjectFits, is_whole as is_whole_at, most_bytes as most_at, nothing_read};
ghost use Rattle.arj_image.specs.Known.{HasNone, Takes};
ghost use Rattle.arj_image.specs.Texts.{counts_text, is_last, said_text};
ghost use Rattle.arj_image.specs.declared.place.Stage.TheVariants as stage;
ghost use Rattle.arj_journal.specs.LineForm.{LineInForm};
ghost use Rattle.arj_journal.specs.declared.body.Line.{Line as line_type};
ghost use Rattle.arj_journal.specs.ScriptText.{object_text};
ghost use Rattle.arj_journal.specs.declared.header.ObjectLine.{ObjectLine as object_type};
ghost use Rattle.arj_script.specs.declared.fault.ScriptFault.TheVariants as script_fault;
ghost use Rattle.arj_text.specs.Fields.{IsRead};

use crate::file::next_file;
use crate::image::{Files, Image};
use crate::limits::{FILE_LINE_BYTES, IMAGE_LINE_BYTES};
use crate::place::{Place, Stage};
use arj_base::{Bytes, Format};
use arj_journal::{Header, Line, Lines, ObjectLine, ObjectLines};
use arj_journal_reader::{LineFault, read_line};
use arj_script::{ScriptFault, format_line, holds, nodes_line, object};
use arj_text::field::{WORD_MAX, after, is_text, number, number_first};
use std::alloc::{AllocError, Global};
use std::marker::Model;

/// Reads an image, a line at a time. Contracts see it as the place where it stands.
#[derive(Drop)]
pub struct ImageReader {
    alloc: Global,
    place: Place,
}

impl Model for ImageReader {
    ghost use Rattle.arj_image.specs.declared.place.Place.{Place};

    ghost Value = { Place };

    ghost view = { λ r. r.place };

    ghost use Rattle.arj_image.specs.Known.{IsBare};

    ghost invariant = { λ r. IsBare r.place.stage r.place.image };
}

impl ImageReader {
    ghost use Rattle.std.specs.Prelude.{◌≡◌, IfOk, OnErr, IsErrOf};
    ghost use Rattle.arj_image.specs.Grammar.{Form, HasForm, IsBadLine, is_whole, next_place, nothing_read, whole};
    ghost use Rattle.arj_script.specs.declared.fault.ScriptFault.TheVariants as script_fault;

    /// A reader before the first line.
    pub fn new(alloc: Global) -> ImageReader
        ensures { result ≡ nothing_read }
    {
        ImageReader {
            alloc,
            place: nothing(alloc),
        }
    }

    /// Takes a line, without its end, and tells whether the lines so far are an image's text. A line that is refused changes nothing.
    pub fn line(&mut self, bytes: &[u8]) -> Result<bool, ScriptFault>
        // What is taken has this form at its place.
        ensures taken { IfOk result (λ ended. (form : Form) × HasForm self.old bytes.now form × (self.new ≡ next_place self.old form)) }
        ensures ended { IfOk result (λ ended. ended ≡ is_whole self.new.stage) }
        // A line is bad exactly where it has no form at its place.
        ensures bad { IsErrOf result script_fault.Bad → IsBadLine self.old bytes.now }
        ensures err { OnErr result (self.new ≡ self.old) }
    {
        if most_bytes(self.place.stage) < bytes.len() {
            return Err(ScriptFault::Bad);
        }
        take(self.alloc, &mut self.place, bytes)?;
        Ok(is_at_files(self.place.stage))
    }

    /// The image, where the lines were its text.
    pub fn finish(self) -> Option<Image>
        ensures { result ≡ whole self.stage self.image }
    {
        if is_at_files(self.place.stage) {
            Some(self.place.image)
        } else {
            None
        }
    }
}

// A place before the first line.
fn nothing(alloc: Global) -> Place
    ensures { result ≡ nothing_read }
{
    Place {
        stage: Stage::Start,
        image: Image {
            header: Header {
                nodes: 0,
                objects: ObjectLines::new(alloc),
                format: Format::Two,
            },
            events: 0,
            frames: 0,
            journal: Lines::new(alloc),
            files: Files::new(alloc),
        },
    }
}

// How many bytes a line may have.
fn most_bytes(stage: Stage) -> usize
    ensures { result ≡ most_at stage }
{
    match stage {
        Stage::Files => FILE_LINE_BYTES,
        Stage::Start | Stage::Objects | Stage::Counted | Stage::Journal => IMAGE_LINE_BYTES,
    }
}

// Whether the lines so far are an image's text.
fn is_at_files(stage: Stage) -> bool
    ensures { result ≡ is_whole_at stage }
{
    match stage {
        Stage::Files => true,
        Stage::Start | Stage::Objects | Stage::Counted | Stage::Journal => false,
    }
}

// Takes a line, however long.
fn take(alloc: Global, place: &mut Place, bytes: &[u8]) -> Result<(), ScriptFault>
    ensures ok { OnOk result (Takes place.old place.new bytes.now) }
    ensures bad { IsErrOf result script_fault.Bad → HasNone place.old bytes.now }
    ensures err { OnErr result (place.new ≡ place.old) }
{
    match place.stage {
        Stage::Start => start(alloc, place, bytes),
        Stage::Objects => objects(alloc, place, bytes),
        Stage::Counted => counted(place, bytes),
        Stage::Journal => journal(alloc, place, bytes),
        Stage::Files => files(alloc, place, bytes),
    }
}

// Takes the first line: how many nodes there are.
fn start(alloc: Global, place: &mut Place, bytes: &[u8]) -> Result<(), ScriptFault>
    requires { place.old.stage ≡ stage.Start }
    ensures ok { OnOk result (Takes place.old place.new bytes.now) }
    ensures bad { IsErrOf result script_fault.Bad → HasNone place.old bytes.now }
    ensures err { OnErr result (place.new ≡ place.old) }
{
    let Some(nodes) = nodes_line(alloc, bytes)? else {
        return Err(ScriptFault::Bad);
    };
    place.image.header.nodes = nodes as u8;
    place.stage = Stage::Objects;
    Ok(())
}

// Takes the line of the format, an object, or the counts behind them.
fn objects(alloc: Global, place: &mut Place, bytes: &[u8]) -> Result<(), ScriptFault>
    requires { place.old.stage ≡ stage.Objects }
    ensures ok { OnOk result (Takes place.old place.new bytes.now) }
    ensures bad { IsErrOf result script_fault.Bad → HasNone place.old bytes.now }
    ensures err { OnErr result (place.new ≡ place.old) }
{
    if let Some((events, frames)) = counts(alloc, bytes)? {
        place.image.events = events;
        place.image.frames = frames;
        place.stage = Stage::Counted;
        return Ok(());
    }
    let header = &mut place.image.header;
    if is_text(bytes, b"format 1") {
        format_line(&mut header.format, header.objects.as_slice())?;
        return Ok(());
    }
    next_object(
        alloc,
        header.nodes,
        header.format,
        &mut header.objects,
        bytes,
    )?;
    Ok(())
}

// The counts of events and of frames.
fn counts(alloc: Global, bytes: &[u8]) -> Result<Option<(u32, u32)>, AllocError>
    ensures { IfOk result (λ found. IsRead CountsInForm counts_text bytes.now found) }
{
    let Some(digits) = after(bytes, b"counts ") else {
        return Ok(None);
    };
    let Some((events, digits)) = number_first(alloc, digits, b' ', 0, WORD_MAX)? else {
        return Ok(None);
    };
    match number(alloc, digits, 0, WORD_MAX)? {
        Some(frames) => Ok(Some((events as u32, frames as u32))),
        None => Ok(None),
    }
}

// Takes an object, whose number is above the last one's, and whose value states of the format hold.
fn next_object(
    alloc: Global,
    nodes: u8,
    format: Format,
    objects: &mut ObjectLines,
    bytes: &[u8],
) -> Result<(), ScriptFault>
    ensures ok { OnOk result ((o : object_type) × ObjectFits nodes format objects.old o × (bytes.now ≡ object_text o) × (objects.new ≡ objects.old ++ o ∷ [])) }
    ensures bad { IsErrOf result script_fault.Bad → (o : object_type) → ObjectFits nodes format objects.old o → bytes.now ≡ object_text o → ⊥ }
    ensures err { OnErr result (objects.new ≡ objects.old) }
{
    let Some(new) = object(alloc, bytes, nodes)? else {
        return Err(ScriptFault::Bad);
    };
    if !is_above(objects.as_slice(), new.x) {
        return Err(ScriptFault::Bad);
    }
    if !holds(format, &new.value) {
        return Err(ScriptFault::Bad);
    }
    objects.push(new)?;
    Ok(())
}

// Whether the number is above the last object's.
fn is_above(objects: &[ObjectLine], x: u16) -> bool
    ensures { result ≡ is_last (λ (o : object_type). nat_lt o.x x) objects.now }
{
    match objects {
        [] => true,
        [.., last] => last.x < x,
    }
}

// Takes the line `journal`.
fn counted(place: &mut Place, bytes: &[u8]) -> Result<(), ScriptFault>
    requires { place.old.stage ≡ stage.Counted }
    ensures ok { OnOk result (Takes place.old place.new bytes.now) }
    ensures bad { IsErrOf result script_fault.Bad → HasNone place.old bytes.now }
    ensures err { OnErr result (place.new ≡ place.old) }
{
    if !is_text(bytes, b"journal") {
        return Err(ScriptFault::Bad);
    }
    place.stage = Stage::Journal;
    Ok(())
}

// Takes a line of the journal, or the line `files` behind it.
fn journal(alloc: Global, place: &mut Place, bytes: &[u8]) -> Result<(), ScriptFault>
    requires { place.old.stage ≡ stage.Journal }
    ensures ok { OnOk result (Takes place.old place.new bytes.now) }
    ensures bad { IsErrOf result script_fault.Bad → HasNone place.old bytes.now }
    ensures err { OnErr result (place.new ≡ place.old) }
{
    if is_text(bytes, b"files") {
        place.stage = Stage::Files;
        return Ok(());
    }
    let line = line_of(alloc, bytes)?;
    place.image.journal.push(line)?;
    Ok(())
}

// Takes a file.
fn files(alloc: Global, place: &mut Place, bytes: &[u8]) -> Result<(), ScriptFault>
    requires { place.old.stage ≡ stage.Files }
    ensures ok { OnOk result (Takes place.old place.new bytes.now) }
    ensures bad { IsErrOf result script_fault.Bad → HasNone place.old bytes.now }
    ensures err { OnErr result (place.new ≡ place.old) }
{
    let image = &mut place.image;
    next_file(alloc, image.header.nodes, &mut image.files, bytes)?;
    Ok(())
}

// The line of a journal that these bytes are without its end.
fn line_of(alloc: Global, bytes: &[u8]) -> Result<Line, ScriptFault>
    ensures ok { IfOk result (λ l. LineInForm l × (bytes.now ≡ said_text l)) }
    ensures bad { IsErrOf result script_fault.Bad → (l : line_type) → LineInForm l → bytes.now ≢ said_text l }
{
    let mut ended = Bytes::new(alloc);
    ended.extend(bytes)?;
    ended.extend(b"\n")?;
    match read_line(alloc, ended.as_slice()) {
        Ok(line) => Ok(line),
        Err(LineFault::NotALine) => Err(ScriptFault::Bad),
        Err(LineFault::Memory) => Err(ScriptFault::Memory),
    }
}
