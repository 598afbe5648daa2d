// One outcome of each top, and that stores are excluded in time, by a journal.
ghost use Rattle.std.specs.Prelude.{◌≡◌, false};
ghost use Rattle.arj_law_serial.specs.joint.Excluded.{IsInTime};
ghost use Rattle.arj_promise.specs.Excluded.{IsNew};
ghost use Rattle.arj_law_serial.specs.joint.DisksInTime.{RunsExcludeInTimeOnDisks};
ghost use Rattle.arj_promise.specs.Excluded.{DiskIsInTime, Lists};
ghost use Rattle.arj_law_serial.specs.joint.DisksJoined.{JoinedRunsAreInTime};
ghost use Rattle.arj_law_serial.specs.joint.InTime.{RunsExcludeInTime};
ghost use Rattle.arj_promise.specs.Outcome.{ShowsOneOutcome, aborts_have_cause, commits_are_behind};
ghost use Rattle.arj_law_serial.specs.joint.Samples.{decided_lines, disks_decided, disks_late, found_commit, halted_abort, its_last, its_top, naming_late, naming_node, right_end, store_three, store_two, wrong_abort, wrong_commit, wrong_names_abort};

/// The definition of one outcome, tried on small journals: which it accepts, and which it refuses. It does nothing when it runs.
pub fn one_outcome_tells_journals_apart()
    ensures right { ShowsOneOutcome right_end }
    ensures halted { ShowsOneOutcome halted_abort }
    ensures found { ShowsOneOutcome found_commit }
    ensures no_cause { aborts_have_cause wrong_abort ≡ false }
    ensures naming { aborts_have_cause wrong_names_abort ≡ false }
    ensures early { commits_are_behind wrong_commit ≡ false }
{}

/// The definition of stores that are excluded in time, tried on what nodes have at the end of a small journal: a store that has the state
/// prepared and one that is about to be taken out are in time; where the entry without that one isn't prepared, it isn't. The top is new in
/// the event with its `committed` line, and not later. So it is by what such disks say. It does nothing when it runs.
pub fn exclusion_in_time_tells_disks_apart()
    ensures prepared { IsInTime its_last decided_lines 1 naming_node store_two its_top 2 }
    ensures taken_out { IsInTime its_last decided_lines 1 naming_node store_three its_top 3 }
    ensures late { IsInTime its_last decided_lines 1 naming_late store_three its_top 3 → ⊥ }
    ensures new { IsNew 5 decided_lines its_top }
    ensures old { IsNew 6 decided_lines its_top → ⊥ }
    ensures lists { Lists (disks_late 1) 1 3 }
    ensures disk_prepared { DiskIsInTime its_last decided_lines 1 disks_decided its_top 2 }
    ensures disk_taken_out { DiskIsInTime its_last decided_lines 1 disks_decided its_top 3 }
    ensures disk_late { DiskIsInTime its_last decided_lines 1 disks_late its_top 3 → ⊥ }
{}

/// After each run whose header and events are in form, of at most 1,000,000 events, with all crashes and restarts, and stops wherever disks make
/// them, stores are excluded in time, on what makes its disks clean (`runs_are_clean`), with no premise: by what nodes' pairs have (`pairs`), and
/// so by what their disks say, however they are read (`disks`), whichever entry naming's holds. That decided tops which count for an object and
/// only include a store of it had their commits called when whoever wrote the object before them had been said is given
/// (`decisions_come_behind_calls`); that who has an entry prepared beside a new top, of its root, is committed is given here. So it is after each
/// event too, since the front of a run is one. It does nothing when it runs.
pub fn runs_exclude_in_time()
    ensures pairs { RunsExcludeInTime }
    ensures disks { RunsExcludeInTimeOnDisks }
{}

/// Where a run that goes on behind another journal excludes stores in time at the end of an event, counted from the marks
/// that the first journal left, so do both journals together. It does nothing when it runs.
pub fn joined_runs_exclude_in_time()
    ensures { JoinedRunsAreInTime }
{}
