// The lock book of whole runs: order, values and nesting of answered calls.
ghost use Rattle.arj_law_serial.specs.joint.Booked.{RunsAreCalled, RunsKeepTheBook};

/// In each run whose header and events are in form, of at most 1,000,000 events, with all frames that came in any order, again or never, all
/// crashes and restarts, and stops wherever disks make them, the surviving calls of committed tops keep the lock book: conflicting ones of
/// different tops stand in the serial order, the commit of the first one's top called before the second is answered; each is answered by the
/// writes before it; and within one top the actions of the first are committed before the second is answered, each behind the calls that were
/// made in it. It takes nothing more: the journal is tied to the lock machines (`runs_have_both_machines`). It does nothing when it runs.
pub fn runs_keep_the_lock_book()
    ensures { RunsKeepTheBook }
{}

/// In each such run the commit of each top whose calls count was called, so that its journal may stand behind another one. It does nothing
/// when it runs.
pub fn runs_commit_what_was_called()
    ensures { RunsAreCalled }
{}
