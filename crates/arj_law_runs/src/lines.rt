// The lines of a run.
ghost use Rattle.arj_journal.specs.declared.header.Header.{Header};
ghost use Rattle.arj_law_runs.specs.journal.Paths.{PathsAgree};
ghost use Rattle.arj_promise.specs.Runs.{Run, world_by};

/// In each run, with all frames in any order, again or never, all crashes and restarts, and stops wherever disks make them, each action that the
/// coordinator of a node that is up has stands at its place: its path there is the path that the journal so far has of its label. It does nothing when it
/// runs.
pub fn paths_are_those_of_journals()
    ensures { (hd : Header) (r : Run hd) → PathsAgree (world_by hd r) }
{}
