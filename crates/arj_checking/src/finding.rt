// What is found of an input.
ghost use Rattle.std.specs.Prelude.{◌≡◌, None};
ghost use Rattle.arj_checking.specs.Found.{verdict_status};

use arj_check::Verdict;
use arj_loop::BadLine;
use arj_reading::Broken;
use arj_replay::Wrong;

/// The two halves of an input, before and behind the line `journal`.
#[derive(Clone, Copy, Debug, PartialEq, Eq)]
pub enum Half {
    Script,
    Journal,
}

/// What is found of an input.
#[derive(Drop)]
pub enum Finding {
    /// The line with this number, counted from 1 in the whole input, is bad.
    Bad { line: u32, half: Half, why: BadLine },
    /// The half has more lines than it may have.
    Long(Half),
    /// The journal can't be read as a run.
    Unreadable(Broken),
    /// It can be read as one.
    Verdict(Verdict),
}

impl Finding {
    ghost use Rattle.std.specs.Prelude.{◌≡◌};
    ghost use Rattle.arj_checking.specs.Found.{finding_status};

    /// The status of a check that wrote it: 0 where all is as it should be, 2 at a bad line, 6 where a half is too long, else 8.
    pub fn status(&self) -> u8
        ensures { result ≡ finding_status self.now }
    {
        match self {
            Finding::Bad { .. } => 2,
            Finding::Long(_) => 6,
            Finding::Unreadable(_) => 8,
            Finding::Verdict(verdict) => status_of(verdict),
        }
    }
}

// The status of a verdict.
fn status_of(verdict: &Verdict) -> u8
    ensures { result ≡ verdict_status verdict.now.serial verdict.now.nested }
{
    match &verdict.serial {
        None => status_of_nested(&verdict.nested),
        Some(_) => 8,
    }
}

// The status of a verdict that has each answer right in serial order.
fn status_of_nested(nested: &Option<Wrong>) -> u8
    ensures { result ≡ verdict_status None nested.now }
{
    match nested {
        None => 0,
        Some(_wrong) => 8,
    }
}
