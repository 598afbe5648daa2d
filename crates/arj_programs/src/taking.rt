// The lines of client programs, as they come.
ghost use Rattle.std.specs.Prelude.{◌≡◌, ◌<◌, ◌+◌, [], ℕ, List, Some, None, if◌then◌else◌};
ghost use Rattle.arj_programs.specs.Taking.{IsAt, StopsAt, most_at, room_at};
ghost use Rattle.arj_programs.specs.Keeping.{plan_behind};

use arj_lines::Taker;
use arj_prog::{Plan, ProgItem, ProgReader};
use arj_script::{LINE_BYTES, SCRIPT_LINES, ScriptFault};
use std::alloc::Global;

/// Why a line wasn't taken.
#[derive(Clone, Copy, Debug, PartialEq, Eq)]
pub enum Refusal {
    /// It isn't in the grammar at its place.
    Unknown,
    /// It is one more than there may be.
    Long,
    /// Memory is wanting.
    Memory,
}

/// What has come of client programs, line by line: where their reader stands, the plan once `run` was read, and how many lines
/// were taken.
#[derive(Drop)]
pub struct Taking {
    pub reader: ProgReader,
    pub plan: Option<Plan>,
    pub lines: u32,
}

impl Taking {
    /// Before the first line.
    pub fn new(alloc: Global) -> Taking
        ensures { IsAt [] result }
    {
        Taking {
            reader: ProgReader::new(alloc),
            plan: None,
            lines: 0,
        }
    }

    // Counts a line, and keeps the plan that it ends, if it ends one.
    fn keep(&mut self, item: ProgItem)
        requires few { self.old.lines < 4294967295 }
        ensures { self.new ≡ record self.old { plan = plan_behind item self.old.plan; lines = self.old.lines + 1 } }
    {
        self.lines += 1;
        if let ProgItem::Run(plan) = item {
            self.plan = Some(plan);
        }
    }
}

impl Taker<Refusal> for Taking {
    ghost stands = { IsAt };

    ghost most = { most_at };

    ghost room = { room_at };

    ghost stops = { StopsAt };

    fn most_bytes(&self) -> u32 {
        LINE_BYTES as u32
    }

    fn take(&mut self, line: &[u8]) -> Result<(), Refusal> {
        if self.lines as usize >= SCRIPT_LINES {
            return Err(Refusal::Long);
        }
        match self.reader.line(line) {
            Ok(item) => {
                self.keep(item);
                Ok(())
            }
            Err(ScriptFault::Bad) => Err(Refusal::Unknown),
            Err(ScriptFault::Memory) => Err(Refusal::Memory),
        }
    }
}
