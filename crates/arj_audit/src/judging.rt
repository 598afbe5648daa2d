// The audit of an image.
ghost use Rattle.std.specs.Prelude.{◌≡◌, List, Err, IfOk, MatchBool};
ghost use Rattle.arj_audit.specs.Calm.{HasFindings};
ghost use Rattle.arj_model.specs.Last.{first_values};
ghost use Rattle.arj_model.specs.Serial.{Serial};
ghost use Rattle.arj_reading.specs.Readable.{Readable, broken};
ghost use Rattle.arj_reading.specs.Reading.{HasRead};
ghost use Rattle.arj_reading.specs.declared.fault.CheckFault.TheVariants as check_fault;
ghost use Rattle.arj_reading.specs.declared.rule.Broken.{Broken as broken_type};

use crate::calm::is_calm;
use crate::findings::Findings;
use arj_check::{no_difference_is_right, readable_calls_can_be_run, serial_places};
use arj_clean::{Saved, Standing, is_clean};
use arj_image::Image;
use arj_journal::{Header, Line};
use arj_reading::{CheckFault, Reading, read};
use arj_replay::replay;
use arj_saved::{is_quiet, pendings_of, segments_of};
use std::alloc::{AllocError, Global};

// Whether a journal that can be read as a run is serial.
fn is_serial(
    alloc: Global,
    header: &Header,
    lines: &[Line],
    reading: &Reading,
) -> Result<bool, AllocError>
    ensures { Readable header.now lines.now → HasRead lines.now reading.now → IfOk result (λ is. MatchBool is (Serial (first_values header.now) lines.now) (Serial (first_values header.now) lines.now → ⊥)) }
{
    no_difference_is_right();
    readable_calls_can_be_run();
    let places = serial_places(alloc, reading)?;
    let wrong = replay(alloc, header, lines, places.as_slice())?;
    match wrong {
        None => Ok(true),
        Some(_differs) => Ok(false),
    }
}

// What is found of an image whose journal can be read as a run.
fn found(alloc: Global, image: &Image, reading: &Reading) -> Result<Findings, AllocError>
    ensures { Readable image.now.header image.now.journal → HasRead image.now.journal reading.now → IfOk result (HasFindings image.now) }
{
    let lines = image.journal.as_slice();
    let files = image.files.as_slice();
    let standing = Standing::behind(alloc, lines)?;
    let segments = segments_of(alloc, files)?;
    let pendings = pendings_of(alloc, files)?;
    let saved = Saved {
        header: &image.header,
        lines,
        standing: &standing,
        segments: segments.as_slice(),
        pendings: pendings.as_slice(),
    };
    let serial = is_serial(alloc, &image.header, lines, reading)?;
    let clean = is_clean(alloc, &saved)?;
    let calm = is_calm(alloc, image, &saved, reading, clean)?;
    Ok(Findings {
        serial,
        clean,
        quiet: is_quiet(files),
        calm,
    })
}

/// What is found of an image: whether its journal is serial, its disks are clean, nothing on them is open, and a run can go on from it.
pub fn audit(alloc: Global, image: &Image) -> Result<Findings, CheckFault>
    ensures findings { IfOk result (λ findings. Readable image.now.header image.now.journal × HasFindings image.now findings) }
    ensures broken { (b : broken_type) → result ≡ Err (check_fault.Unreadable b) → broken image.now.header image.now.journal ≡ Some b }
{
    let reading = read(alloc, &image.header, image.journal.as_slice())?;
    match found(alloc, image, &reading) {
        Ok(findings) => Ok(findings),
        Err(AllocError) => Err(CheckFault::Memory),
    }
}
