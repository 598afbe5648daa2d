// What is said of images.
use crate::errors::say;
use arj_auditing::{FILE_LINES, IMAGE_LINES};
use std::io;

/// Says why an image wasn't found to be one from which a run can go on, by the status: a line is bad, there are too many, or something
/// that is written on standard output isn't so.
pub fn explain_audit(rt: &impl Eprint, status: u8) -> io::Result<()> {
    match status {
        2 => say(
            rt,
            "a line of the image is bad, or the image ended before its files: standard output has the line's number (docs/FORMATS.md, \"Image\")",
        ),
        6 => eprintln!(rt;
            "arjuna: more than {IMAGE_LINES} lines of an image, or more than {FILE_LINES} lines of its files"
        ),
        _ => say(
            rt,
            "no run can go on from the image: standard output says what of it isn't so",
        ),
    }
}

/// Says that there are too many lines, of a script or of its image.
pub fn many_image_lines(rt: &impl Eprint) -> io::Result<()> {
    eprintln!(rt;
        "arjuna: more than 100000 script lines; or more than {IMAGE_LINES} lines of an image, or {FILE_LINES} lines of its files"
    )
}
