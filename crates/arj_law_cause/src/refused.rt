// Causes of refusals, by the journal alone.
ghost use Rattle.arj_law_cause.specs.follow.causes.Refusals.{TreeRefusalsFollow};
ghost use Rattle.arj_law_cause.specs.waits.doomed.Dooms.{DoomsHaveCauses};
ghost use Rattle.arj_law_cause.specs.waits.lowest.Refusals.{RefusalsFollow};
ghost use Rattle.arj_law_cause.specs.waits.objects.Refusals.{ObjectRefusalsFollow};

/// In every run in form, wherever it begins and wherever disks stop, an event that names an action is refused for what the tree of actions
/// has of it, or for the header's objects, by the events and the journal before it: open children, a wrong parent, no calls, an unknown
/// object, a wrong operation, too deep, and too many actions. Whoever is refused with such a number has that cause; and where the journal
/// has such a cause the event is refused, with its number or with a lower one. Left out are actions that are doomed, and too many objects.
/// It does nothing when it runs.
pub fn tree_refusals_follow()
    ensures runs { TreeRefusalsFollow }
{}

/// In every run in form, wherever it begins and wherever disks stop, a call or an include that is refused since its root would use more
/// objects than it may has that cause by the events and the journal before it; and where these have that cause the event is refused, with its
/// number or with a lower one. It does nothing when it runs.
pub fn object_refusals_follow()
    ensures runs { ObjectRefusalsFollow }
{}

/// In every run in form, wherever it begins and wherever disks stop, an event that is refused, but not since an action is doomed, is refused
/// for the lowest cause that it has by the events and the journal before it; and one that has a lowest cause is refused for it, or else since an
/// action is doomed, where the number of its lowest cause is greater than that one's. It does nothing when it runs.
pub fn refusals_follow()
    ensures runs { RefusalsFollow }
{}

/// In every run in form, wherever it begins and wherever disks stop, an event that is refused since an action is doomed is about an action
/// that is doomed by the events and the journal before it: a call of it was lost in a giveup, at a node to which its own node had sent an
/// Invoke in the span of what was asked. So is the action of a commit that was aborted as doomed, and it is no serializing action. It does
/// nothing when it runs.
pub fn dooms_have_causes()
    ensures runs { DoomsHaveCauses }
{}
