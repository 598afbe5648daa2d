// What a line says: one that isn't in the grammar at its place is bad.
ghost use Rattle.std.specs.Prelude.{◌≡◌, ◌⊎◌, IfOk, IfErr, IsErrOf};
ghost use Rattle.arj_script.specs.Grammar.{Form, HasForm, IsBadLine, next_place};
ghost use Rattle.arj_script.specs.Input.{Tells, TellsInForm};
ghost use Rattle.arj_loop.specs.Forms.{IsBadBy};
ghost use Rattle.arj_loop.specs.declared.ending.BadLine.{BadLine};

use crate::ending::{BadLine, End};
use arj_script::{Item, LINE_BYTES, Reader, ScriptFault};

/// Reads a line at the reader's place. The end is Bad or Memory.
pub fn read_item(reader: &mut Reader, line: &[u8]) -> Result<Item, End>
    ensures taken { IfOk result (λ item. (form : Form) × HasForm reader.old line.now form × Tells reader.old form item × (reader.new ≡ next_place reader.old form)) }
    ensures form { IfOk result (λ item. TellsInForm item) }
    ensures bad { (why : BadLine) → IsErrOf result (End.Bad why) → IsBadLine reader.old line.now × IsBadBy why reader.old line.now }
    ensures only { IfErr result (λ end. ((why : BadLine) × (end ≡ End.Bad why)) ⊎ (end ≡ End.Memory)) }
{
    if line.len() > LINE_BYTES {
        return Err(End::Bad(BadLine::TooLong));
    }
    match reader.line(line) {
        Ok(item) => Ok(item),
        Err(ScriptFault::Bad) => Err(End::Bad(BadLine::Unknown)),
        Err(ScriptFault::Memory) => Err(End::Memory),
    }
}
