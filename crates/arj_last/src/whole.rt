// What is told of the last states of a whole journal.
ghost use Rattle.std.specs.Prelude.{◌≡◌, ◌++◌, [], OnOk, length};
ghost use Rattle.arj_reading.specs.Readable.{broken};
ghost use Rattle.arj_last.specs.Told.{readable_count, states_from, told_states};

use crate::behind::Standing;
use crate::readable::{put_unreadable, readable_lines};
use crate::told::{put_first_states, put_states_behind};
use arj_base::Bytes;
use arj_journal::{Header, Line};
use std::alloc::{AllocError, Global};

// The last states behind each line that may have changed them, where so many lines can be read as a run.
fn put_states(
    alloc: Global,
    out: &mut Bytes,
    header: &Header,
    lines: &[Line],
    readable: usize,
) -> Result<(), AllocError>
    ensures { readable ≡ readable_count (length lines.now) (broken header.now lines.now) → OnOk result (out.new ≡ out.old ++ states_from header.now [] lines.now) }
{
    let mut standing = Standing::new(alloc);
    for (at, line) in lines.iter().enumerate() {
        standing.take(alloc, line)?;
        put_states_behind(
            alloc,
            out,
            header,
            &lines[..at + 1],
            &standing,
            at < readable,
            &line.body,
        )?;
    }
    Ok(())
}

/// Puts what is told of last states: the first, those behind each line that may have changed them, and the first line that breaks a rule
/// of journals that can be read as a run. It goes over the lines once, at the cost of the writes on the objects that a commit wrote.
#[tactic(auto, using(std::proofs::lemmas::List::append_assoc))]
pub fn put_last_states(
    alloc: Global,
    out: &mut Bytes,
    header: &Header,
    lines: &[Line],
) -> Result<(), AllocError>
    ensures { OnOk result (out.new ≡ out.old ++ told_states header.now lines.now) }
{
    let readable = readable_lines(alloc, header, lines)?;
    put_first_states(out, header.objects.as_slice())?;
    put_states(alloc, out, header, lines, readable)?;
    put_unreadable(out, readable, lines, header)
}
