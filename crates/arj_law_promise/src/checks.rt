// Journals of runs, to whoever reads and checks journals.
ghost use Rattle.arj_law_promise.specs.readable.Readable.{NoAnswersDiffer, RunsAreReadable};

/// The journal of every run in form, wherever it begins and disks stop in it, can be read as a run: each of its lines keeps the rules
/// by which journals of any system are read. And no call of it has another answer than is wanted, in serial order and where each nested
/// action is run whole at its commit. So `check` of `arj_check` finds it right, or memory is short. It takes that the run is in form, and
/// nothing else. It does nothing when it runs.
pub fn journals_of_runs_are_readable()
    ensures readable { RunsAreReadable }
    ensures checked { NoAnswersDiffer }
{}
