// The start that goes on.
ghost use Rattle.arj_law_calm.specs.Leaves.{HeadersFit, JournalsLeaveStarts};
ghost use Rattle.arj_law_calm.specs.Starts.{CalmHeadersFit, CalmImagesAreStarts};

use arj_check::{readable_calls_can_be_run, readable_tops_have_own_keys};

/// What a readable journal leaves is a formed start (`IsFormed` of `arj_promise`), where each state that nodes hold is one that its
/// object had: with the journal's last versions and writers, and what else stores hold as older states, each the last one or from before
/// it. The header that goes on fits (`HeaderFits` there), with values in form. It does nothing when it runs.
pub fn journals_leave_starts()
    ensures starts { JournalsLeaveStarts }
    ensures headers { HeadersFit }
{
    readable_calls_can_be_run();
    readable_tops_have_own_keys();
}

/// So it is of a calm image, whether a run made it or not: a run may go on from it. And the header that goes on fits: its values are in
/// form, and each object has listed stores, which are nodes (`HeaderFits` of `arj_promise`). It does nothing when it runs.
pub fn calm_images_are_starts()
    ensures starts { CalmImagesAreStarts }
    ensures headers { CalmHeadersFit }
{
    journals_leave_starts();
}
