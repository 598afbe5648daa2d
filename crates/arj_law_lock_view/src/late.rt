// Records that come late.
ghost use Rattle.arj_law_lock_view.specs.records.Runs.{RunsFreeRecords};

/// After each run in whose journal naming made fewer than 2^32 - 1 bindings, wherever disks stop, with all frames that came in any order,
/// again or never, all crashes and restarts: a Record that was sent, of the binding that naming made for its top last and hasn't
/// recorded, of naming's present incarnation, where naming was told of nobody on its path and the top didn't ask the lock by an include,
/// is of a top that has no entry of the object prepared. It does nothing when it runs.
pub fn late_records_find_nothing()
    ensures { RunsFreeRecords }
{}
