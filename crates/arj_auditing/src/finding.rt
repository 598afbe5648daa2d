// What is found of an input.
ghost use Rattle.std.specs.Prelude.{◌≡◌};
ghost use Rattle.arj_auditing.specs.Found.{calm_status};

use arj_audit::Findings;
use arj_loop::BadLine;
use arj_reading::Broken;

/// What is found of an input.
#[derive(Drop)]
pub enum Finding {
    /// The line with this number, counted from 1, is bad.
    Bad { line: u32, why: BadLine },
    /// There are more lines than an image may have.
    Long,
    /// The journal can't be read as a run.
    Unreadable(Broken),
    /// It can be read as one.
    Found(Findings),
}

impl Finding {
    ghost use Rattle.std.specs.Prelude.{◌≡◌};
    ghost use Rattle.arj_auditing.specs.Found.{finding_status};

    /// The status of an audit that wrote it: 0 where a run can go on from the image, 2 at a bad line, 6 where there are too many, else 8.
    pub fn status(&self) -> u8
        ensures { result ≡ finding_status self.now }
    {
        match self {
            Finding::Bad { .. } => 2,
            Finding::Long => 6,
            Finding::Unreadable(_) => 8,
            Finding::Found(findings) => status_of(findings.calm),
        }
    }
}

// The status of an image whose journal can be read as a run.
fn status_of(calm: bool) -> u8
    ensures { result ≡ calm_status calm }
{
    if calm { 0 } else { 8 }
}
