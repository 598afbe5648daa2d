// What is seen of a script and its journal.
ghost use Rattle.std.specs.Prelude.{◌≡◌, Err, IfOk};
ghost use Rattle.arj_seen.specs.Input.{IsRefused, IsSeen};
ghost use Rattle.arj_seen.specs.declared.fault.SeenFault.{SeenFault as fault_type};

use crate::SeenFault;
use crate::journal_part::journal_of;
use crate::script_part::{Script, script_of};
use arj_base::Bytes;
use arj_journal::{Header, Lines};
use std::alloc::Global;

/// What a line of a script asks for.
#[derive(Clone, Copy, Debug, PartialEq, Eq)]
pub enum Asked {
    /// Nothing: it is blank, or stands in the header.
    Nothing,
    /// That frames are delivered until none is left: `settle` or `quiesce`.
    Settling,
    /// Another event.
    Event,
}

/// A line of a script, without its end.
#[derive(Drop)]
pub struct ScriptLine {
    pub text: Bytes,
    pub asked: Asked,
}

/// A script, with the header that its lines up to `run` say, and the lines of its journal.
#[derive(Drop)]
pub struct Seen {
    pub header: Header,
    pub script: Vec<ScriptLine>,
    pub lines: Lines,
}

/// Reads a script, a line `journal`, and the lines of a journal. An error names the first line that is none of these.
pub fn see(alloc: Global, bytes: &[u8]) -> Result<Seen, SeenFault>
    ensures seen { IfOk result (λ seen. IsSeen bytes.now seen) }
    ensures refused { (fault : fault_type) → result ≡ Err fault → IsRefused bytes.now fault }
{
    let (
        Script {
            header,
            lines: script,
        },
        rest,
    ) = script_of(alloc, bytes)?;
    let before = script.len() + 1;
    let Some(header) = header else {
        return Err(SeenFault::NoRun(before));
    };
    let lines = journal_of(alloc, before, rest)?;
    Ok(Seen {
        header,
        script,
        lines,
    })
}
