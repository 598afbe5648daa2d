// What is told of a whole run.
ghost use Rattle.std.specs.Prelude.{◌≡◌, ◌++◌, [], List, OnOk};
ghost use Rattle.arj_journal.specs.declared.body.Line.{Line as line_type};
ghost use Rattle.arj_view_data.specs.Behind.{StandsBehind};
ghost use Rattle.arj_view_data.specs.Texts.{line_behind, run_text};

use crate::entries::put_entries_behind;
use crate::records::{put_doubts_behind, put_table_behind};
use crate::standing::Standing;
use arj_base::Bytes;
use arj_journal::{Header, Line, put_line};
use std::alloc::{AllocError, Global};

// A line, the last of those so far, and what it changes.
#[tactic(auto, using(std::proofs::lemmas::List::append_assoc))]
fn put_line_behind(
    alloc: Global,
    out: &mut Bytes,
    header: &Header,
    standing: &Standing,
    line: &Line,
) -> Result<(), AllocError>
    ensures { (lines : List line_type) → StandsBehind lines standing.now → OnOk result (out.new ≡ out.old ++ line_behind header.now lines line.now) }
{
    out.extend(b"line ")?;
    put_line(out, line)?;
    put_table_behind(out, standing, &line.body)?;
    put_doubts_behind(out, standing, &line.body)?;
    put_entries_behind(alloc, out, header, standing, &line.body)
}

/// Puts what is told of a run: the lines of its journal, each with what it changes.
pub fn put_run(
    alloc: Global,
    out: &mut Bytes,
    header: &Header,
    lines: &[Line],
) -> Result<(), AllocError>
    ensures { OnOk result (out.new ≡ out.old ++ run_text header.now lines.now) }
{
    let mut standing = Standing::new(alloc)?;
    for line in lines {
        standing.take(alloc, line)?;
        put_line_behind(alloc, out, header, &standing, line)?;
    }
    Ok(())
}
