// Whole runs, in which all is kept that is known of the protocol alone.
ghost use Rattle.arj_law_serial.specs.whole.Runs.{RunsCallObjects, RunsIncludeObjects};

/// In every run, wherever disks stop, with all crashes and restarts, each call that was answered is on an object of the header, and each
/// include, of a store that is one of its nodes: no other is asked about. It does nothing when it runs.
pub fn runs_call_their_objects()
    ensures calls { RunsCallObjects }
    ensures includes { RunsIncludeObjects }
{}
