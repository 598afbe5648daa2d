// Whether a run can go on from an image.
ghost use Rattle.std.specs.Prelude.{◌≡◌, List, IfOk, MatchBool};
ghost use Rattle.arj_audit.specs.Calm.{IsCalm, IsStopped, IsTrue};
ghost use Rattle.arj_clean.specs.Clean.{AreClean};
ghost use Rattle.arj_clean.specs.Standing.{IsSaved};
ghost use Rattle.arj_image.specs.declared.image.NodeFile.{NodeFile};
ghost use Rattle.arj_reading.specs.Reading.{HasRead};
ghost use Rattle.arj_saved.specs.Saved.{disks_of};

use arj_book::keeps_order;
use arj_clean::Saved;
use arj_disk::Role;
use arj_image::Image;
use arj_past::{do_hold_past, is_of_header};
use arj_reading::Reading;
use arj_rest::{are_listed, do_nodes_fit};
use arj_saved::are_in_place;
use std::alloc::{AllocError, Global};

// Whether the nodes are stopped, their files in place, and each object has its stores and entries are of objects.
fn is_stopped(alloc: Global, image: &Image, saved: &Saved) -> Result<bool, AllocError>
    ensures { IsSaved saved.now.header.now saved.now.lines.now saved.now.standing.now saved.now.segments.now saved.now.pendings.now image.now.files → saved.now.header.now ≡ image.now.header → saved.now.lines.now ≡ image.now.journal
        → IfOk result (λ is. MatchBool is (IsStopped image.now) (IsStopped image.now → ⊥)) }
{
    let fit = do_nodes_fit(image);
    if !fit {
        return Ok(false);
    }
    let in_place = are_in_place(alloc, image.files.as_slice())?;
    if !in_place {
        return Ok(false);
    }
    let entries = is_of_header(
        saved.header.objects.as_slice(),
        saved.segments,
        1,
        Role::Names,
    );
    if !entries {
        return Ok(false);
    }
    are_listed(alloc, saved)
}

// Whether the journal keeps the book, and each state that is held is one that its object had.
fn is_true(alloc: Global, saved: &Saved, reading: &Reading) -> Result<bool, AllocError>
    ensures { (files : List NodeFile) → IsSaved saved.now.header.now saved.now.lines.now saved.now.standing.now saved.now.segments.now saved.now.pendings.now files → HasRead saved.now.lines.now reading.now
        → IfOk result (λ is. MatchBool is (IsTrue saved.now.header.now saved.now.lines.now (disks_of files)) (IsTrue saved.now.header.now saved.now.lines.now (disks_of files) → ⊥)) }
{
    let ordered = keeps_order(alloc, saved.header, saved.lines, reading)?;
    if !ordered {
        return Ok(false);
    }
    do_hold_past(alloc, saved)
}

/// Whether a run can go on from an image, whose disks are clean or not.
pub fn is_calm(
    alloc: Global,
    image: &Image,
    saved: &Saved,
    reading: &Reading,
    clean: bool,
) -> Result<bool, AllocError>
    ensures { IsSaved saved.now.header.now saved.now.lines.now saved.now.standing.now saved.now.segments.now saved.now.pendings.now image.now.files → saved.now.header.now ≡ image.now.header → saved.now.lines.now ≡ image.now.journal
        → HasRead image.now.journal reading.now → MatchBool clean (AreClean image.now.header image.now.journal (disks_of image.now.files)) (AreClean image.now.header image.now.journal (disks_of image.now.files) → ⊥)
        → IfOk result (λ is. MatchBool is (IsCalm image.now) (IsCalm image.now → ⊥)) }
{
    if !clean {
        return Ok(false);
    }
    let stopped = is_stopped(alloc, image, saved)?;
    if !stopped {
        return Ok(false);
    }
    is_true(alloc, saved, reading)
}
