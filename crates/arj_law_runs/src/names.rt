// Labels of actions at work.
ghost use Rattle.arj_law_parts.specs.steps.Named.{AreNamed};
ghost use Rattle.arj_journal.specs.declared.header.Header.{Header};
ghost use Rattle.arj_promise.specs.Runs.{Run, world_by};

/// In each run, with all frames in any order, again or never, all stops, crashes and restarts, each label that a coordinator knows
/// is that of the action at work at its number, so that what it says of an action it says by the label that it was begun with;
/// and a commit under way waits for some node, so that a giveup says of which. It does nothing when it runs.
pub fn labels_are_known()
    ensures runs { (hd : Header) (r : Run hd) → AreNamed (world_by hd r) }
{}
