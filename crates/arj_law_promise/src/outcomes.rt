// One outcome of each top, in every run.
ghost use Rattle.arj_law_promise.specs.settling.Outcomes.{NamingAbortsNoneDecided, RunsShowOneOutcome, StoresAbortByCauses};

/// In the journal of every run, wherever disks stop, with all frames in any order, again or never, all crashes and restarts, each line that a
/// store's abort of a decided top is done stands behind its cause: the store had committed it before, the top's commit excluded the node, or
/// the node has halted since that commit was called. Naming aborts nothing of a decided action. So each run shows one outcome of each top. It
/// takes nothing. It does nothing when it runs.
pub fn runs_show_one_outcome()
    ensures stores { StoresAbortByCauses }
    ensures naming { NamingAbortsNoneDecided }
    ensures runs { RunsShowOneOutcome }
{}
