// The lines of an image, one after another.
ghost use Rattle.std.specs.Prelude.{◌≡◌, ◌<◌, ◌+◌, ◌++◌, ◌∷◌, [], ℕ, List, false, length, IfErr, OnOk, if◌then◌else◌};
ghost use Rattle.arj_auditing.specs.Taking.{IsAt, StopsAt, is_full_at, most_at, room_at};

use arj_image::{FILE_LINE_BYTES, FILE_LINES, IMAGE_LINE_BYTES, IMAGE_LINES, ImageReader};
use arj_lines::Taker;
use arj_script::ScriptFault;
use std::alloc::Global;

/// Why a line wasn't taken.
#[derive(Clone, Copy, Debug, PartialEq, Eq)]
pub enum Stop {
    /// It isn't what may stand at its place.
    Unknown,
    /// It is one more than an image may have.
    Long,
    /// Memory is wanting.
    Memory,
}

/// What has come of an image, line by line.
#[derive(Drop)]
pub struct Intake {
    /// Where the image stands.
    pub reader: ImageReader,
    /// How many lines were taken.
    pub lines: u32,
    /// How many of them are files.
    pub files: u32,
    /// Whether the lines so far are an image.
    pub whole: bool,
}

// How many files there are behind a line, which is a file or not.
fn files_behind(file: bool, files: u32) -> u32
    requires { files < 4294967295 }
    ensures { result ≡ (if file then files + 1 else files) }
{
    if file { files + 1 } else { files }
}

impl Intake {
    /// Before the first line.
    pub fn new(alloc: Global) -> Intake
        ensures { IsAt [] result }
    {
        Intake {
            reader: ImageReader::new(alloc),
            lines: 0,
            files: 0,
            whole: false,
        }
    }

    // Whether it takes no further line.
    fn is_full(&self) -> bool
        ensures { result ≡ is_full_at self.now }
    {
        self.lines >= IMAGE_LINES || self.files >= FILE_LINES
    }

    // Counts a line, behind which the lines are an image or not.
    fn count(&mut self, whole: bool)
        requires lines { self.old.lines < 4294967295 }
        requires files { self.old.files < 4294967295 }
        ensures { self.new ≡ record self.old { lines = self.old.lines + 1; files = (if self.old.whole then self.old.files + 1 else self.old.files); whole = whole } }
    {
        self.files = files_behind(self.whole, self.files);
        self.lines += 1;
        self.whole = whole;
    }

    // Takes a line.
    fn take_line(&mut self, line: &[u8]) -> Result<(), Stop>
        requires at { (done : List (List ℕ)) × IsAt done self.old }
        ensures took { OnOk result ((done : List (List ℕ)) → IsAt done self.old → IsAt (done ++ line.now ∷ []) self.new) }
        ensures less { OnOk result (room_at self.new < room_at self.old) }
        ensures stopped { IfErr result (λ why. (done : List (List ℕ)) → IsAt done self.old → StopsAt done line.now why self.new) }
    {
        if self.is_full() {
            return Err(Stop::Long);
        }
        match self.reader.line(line) {
            Ok(whole) => {
                self.count(whole);
                Ok(())
            }
            Err(ScriptFault::Bad) => Err(Stop::Unknown),
            Err(ScriptFault::Memory) => Err(Stop::Memory),
        }
    }
}

impl Taker<Stop> for Intake {
    ghost stands = { IsAt };

    ghost most = { most_at };

    ghost room = { room_at };

    ghost stops = { StopsAt };

    fn most_bytes(&self) -> u32 {
        match self.whole {
            true => FILE_LINE_BYTES as u32,
            false => IMAGE_LINE_BYTES as u32,
        }
    }

    fn take(&mut self, line: &[u8]) -> Result<(), Stop> {
        self.take_line(line)
    }
}
