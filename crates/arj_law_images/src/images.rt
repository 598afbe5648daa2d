// Images of runs, item by item.
ghost use Rattle.arj_law_images.specs.Laws.{CrashedImagesAreCalm, CrashesStopAll, ImagesAreClean, ImagesAreReadable, ImagesFit, ImagesHoldPast, ImagesKeepOrder, ImagesListStores, ImagesNameObjects, JournalsTellWhoIsDown, RunsKeepOrder, RunsListStores, StoppedImagesAreCalm, StoppedNodesFit};

/// The journal of every run in form, wherever it begins, keeps the order of the lock book (`KeepsOrder` of `arj_book`); and so does that of an
/// image of a run from a format, which can be read as a run. It does nothing when it runs.
pub fn journals_of_runs_keep_order()
    ensures runs { RunsKeepOrder }
    ensures images { ImagesKeepOrder }
    ensures readable { ImagesAreReadable }
{}

/// The journal of every run in form, wherever it begins, lists a store for each object, and none of them twice (`are_listed` of `arj_rest`):
/// so the entry that will stand at naming does. And so does that of an image of a run from a format. It does nothing when it runs.
pub fn journals_of_runs_list_stores()
    ensures runs { RunsListStores }
    ensures images { ImagesListStores }
{}

/// The counts of a run's image aren't too great; each line fits them and the files, by which whoever began did so in an incarnation to which
/// its node has come, as has a node that is up again. And where each node is down the last line of each is its halt (`NodesFit` of
/// `arj_rest`). It does nothing when it runs.
pub fn images_of_runs_fit()
    ensures fit { ImagesFit }
    ensures stopped { StoppedNodesFit }
{}

/// Behind a run from a format a crash of each node that its journal says is up leaves each node down, as long as no limit is met; and where
/// the journal says that each node is down, each is. It does nothing when it runs.
pub fn crashes_stop_all_nodes()
    ensures stopped { CrashesStopAll }
    ensures told { JournalsTellWhoIsDown }
{}

/// The disks of a run's image are clean (`AreClean` of `arj_clean`): where nothing is in doubt, node 1 has each object's entry, and each
/// listed store its last state. It does nothing when it runs.
pub fn images_of_runs_are_clean()
    ensures { ImagesAreClean }
{}

/// Each object state that a node of a run's image holds, listed or not, is of an object of the header, and is what that object was behind the
/// committed tops up to some place in serial order (`HoldPast` of `arj_past`). Node 1 has entries of the header's objects alone. So
/// it is with actions prepared, with records, and wherever stops fell. It does nothing when it runs.
pub fn images_of_runs_hold_past_states()
    ensures past { ImagesHoldPast }
    ensures entries { ImagesNameObjects }
{}

/// The image of a run is calm, so that a run can go on from it (`IsCalm` of `arj_audit`), where each node is down and its files are all of what
/// is committed, in their grammars (`are_in_place`). So it is behind crashes of all nodes that the journal says are up, where no limit is met. It
/// does nothing when it runs.
pub fn images_of_stopped_runs_are_calm()
    ensures down { StoppedImagesAreCalm }
    ensures crashed { CrashedImagesAreCalm }
{}
