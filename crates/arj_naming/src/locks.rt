// Locks on entries, and their lines.
ghost use Rattle.std.specs.Prelude.{◌≡◌, ◌++◌, ◌∷◌, [], None, IfOk, OnOk, if◌then◌else◌};
ghost use Rattle.arj_base.specs.Path.{tops_of, uids_of};
ghost use Rattle.arj_base.specs.Rows.{first_conflict, last_uid};
ghost use Rattle.arj_base.specs.Uid.{entry};
ghost use Rattle.arj_lock.specs.Exclusion.{IsOneEach};
ghost use Rattle.arj_protocol.specs.Ask.{top_path};
ghost use Rattle.arj_protocol.specs.Copy.{rows_asked, row_for, grant_lines};
ghost use Rattle.arj_protocol.specs.Effect.{Say};
ghost use Rattle.arj_protocol.specs.Named.{entry_row};
ghost use Rattle.arj_protocol.specs.Words.body;
ghost use Rattle.arj_naming.specs.Said.{said};

use crate::lines::{NAMING_NODE, say};
use arj_base::{Mode, Path, Uid, entry_uid};
use arj_journal::{Body, Lines};
use arj_lock::{LockTable, rows_are_one_each};
use std::alloc::AllocError;

// Grants the top of a path a lock on an entry that is free, and tells whether the top's mode rose.
fn request(locks: &mut LockTable, top: &Path, x: u16, mode: Mode) -> Result<bool, AllocError>
    requires one_each { IsOneEach locks.old }
    requires free { first_conflict (uids_of top.now) (entry x) mode locks.old ≡ None }
    ensures rows { OnOk result (locks.new ≡ rows_asked (row_for (entry x) (uids_of top.now) (tops_of top.now) mode) locks.old) }
    ensures rose { IfOk result (λ rose. grant_lines 1 (row_for (entry x) (uids_of top.now) (tops_of top.now) mode) locks.old
        ≡ (if rose then Say (body.Granted 1 (last_uid (uids_of top.now)) (entry x) mode) ∷ [] else [])) }
    ensures one_each { IsOneEach locks.new }
{
    rows_are_one_each();
    let rose = locks.grant(top, entry_uid(x), mode)?;
    Ok(rose)
}

// The line of a lock that rose.
fn say_granted(
    rose: bool,
    action: Uid,
    x: u16,
    mode: Mode,
    out: &mut Lines,
) -> Result<(), AllocError>
    ensures { OnOk result (out.new ≡ out.old ++ said (if rose then Say (body.Granted 1 action (entry x) mode) ∷ [] else [])) }
{
    if !rose {
        return Ok(());
    }
    let granted = Body::Granted {
        node: NAMING_NODE,
        action,
        object: entry_uid(x),
        mode,
    };
    say(out, granted)
}

/// Grants the top of a path a lock on an entry that is free, and says so where the top's mode rose.
pub fn grant(
    locks: &mut LockTable,
    path: &Path,
    x: u16,
    mode: Mode,
    out: &mut Lines,
) -> Result<(), AllocError>
    requires one_each { IsOneEach locks.old }
    requires free { first_conflict (top_path path.now) (entry x) mode locks.old ≡ None }
    ensures rows { OnOk result (locks.new ≡ rows_asked (entry_row x path.now mode) locks.old) }
    ensures lines { OnOk result (out.new ≡ out.old ++ said (grant_lines 1 (entry_row x path.now mode) locks.old)) }
    ensures one_each { IsOneEach locks.new }
{
    let top = path.top_path();
    let rose = request(locks, &top, x, mode)?;
    say_granted(rose, top.last(), x, mode, out)
}
