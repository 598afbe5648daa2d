// Requests to naming that it answers in memory.
ghost use Rattle.std.specs.Prelude.{IfOk};
ghost use Rattle.std.specs.List.Sorted.{IsStrictlySortedBy};
ghost use Rattle.std.specs.Map.{keys_of};
ghost use Rattle.std.specs.Ordering.{nat_cmp};
ghost use Rattle.arj_naming.specs.Calls.{bind_by, bound_to, note_by, recorded_to};
ghost use Rattle.arj_protocol.specs.Words.message;
ghost use Rattle.arj_serve.specs.Parts.{NamingDid};

use crate::answers::{bound, recorded};
use arj_journal::Lines;
use arj_msg::{Bind, Message, RecordMsg};
use arj_naming::Naming;
use std::alloc::AllocError;

/// Naming binds.
pub fn bind<O>(
    naming: &mut Naming<O>,
    m: &Bind,
    out: &mut Lines,
) -> Result<Option<Message>, AllocError>
    ensures { IfOk result (NamingDid (bind_by m.now naming.old.pair naming.old.part) (λ r. message.Bound (bound_to m.now.head r)) (record { old = naming.old; new = naming.new; before = out.old; after = out.new })) }
{
    let answer = naming.bind(m, out)?;
    Ok(bound(answer))
}

/// Naming notes that a binding is in use. Its objects stand by their numbers.
pub fn note<O>(
    naming: &mut Naming<O>,
    m: &RecordMsg,
    out: &mut Lines,
) -> Result<Option<Message>, AllocError>
    ensures did { IfOk result (NamingDid (note_by m.now naming.old.part) (λ r. message.Recorded (recorded_to m.now.head r)) (record { old = naming.old; new = naming.new; before = out.old; after = out.new })) }
    ensures order { IsStrictlySortedBy nat_cmp (keys_of naming.old.part.objects) }
{
    naming.in_order();
    let answer = naming.note(m, out)?;
    Ok(recorded(answer))
}
