// With what runs begin.
ghost use Rattle.arj_law_promise.specs.starts.Continued.{RunsGoOnTogether};
ghost use Rattle.arj_law_promise.specs.starts.Samples.{GoesOn, HasGrown, at_listed, begun_again, last_there, not_below, three_nodes};
ghost use Rattle.arj_promise.specs.Starts.{IsFormed};

/// A start that no format leaves is formed: objects were written, a store that isn't listed has an older state, two nodes are down, and a
/// label was given. A run from it is in form and keeps the promise, its actions are of the incarnation in which their node is up, and the
/// label isn't given again (`goes_on`). So is a start where that store has the last state (`last`); and under the older format a run from
/// where a register was written with more bytes than that holds is in form (`grown`). No start is formed with an older state that is
/// neither below its object's last one nor that, with one at a store that is listed, or with states by an action that may begin in the
/// run. It does nothing when it runs.
pub fn runs_go_on_where_others_ended()
    ensures goes_on { GoesOn }
    ensures last { IsFormed three_nodes last_there }
    ensures grown { HasGrown }
    ensures not_below { IsFormed three_nodes not_below → ⊥ }
    ensures at_listed { IsFormed three_nodes at_listed → ⊥ }
    ensures begun_again { IsFormed three_nodes begun_again → ⊥ }
{}

/// Where a run in form begins with what a journal left, that journal and the run's, one behind the other, are serial and keep the lock book if the
/// first is and does; and the disks at the run's end are clean of both, with stores excluded in time. It does nothing when it runs.
pub fn runs_go_on_behind_journals()
    ensures { RunsGoOnTogether }
{}
