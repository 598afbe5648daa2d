// The promise of the protocol, of every run in form.
ghost use Rattle.arj_promise.specs.Promise.{CalmQuiescesEndAtRest, KeptAfterEveryEvent, QuiescesAnswerWhoWaits, QuiescesGiveUpNothing, QuiescesLeaveOvertaken, QuietDisksHoldAll, QuietLinesTell, RoundsEndAtRest, RunsKeepThePromise, ScriptsAreRuns};

/// Every run in form keeps the promise, wherever disks stop in it, and so does what was run by the end of each event: `runs` and `fronts`. The run of
/// a script in form is one (`scripts`). Wherever every node is idle, disks hold every entry and last state (`quiet`). After a quiesce at whose end
/// every node is up, and in which no limit is met, nobody waits but calls that are overtaken (`waiting`); whoever else waited as it began was answered
/// by a line of it (`answers`), and no line of it gives anything up (`plain`). One that begins where nobody waits and no frame is open leaves every node
/// idle, its line says so, and disks hold every entry and last state (`calm`); so does the stated round (`rounds`), and any last quiesce whose line says
/// that every node is idle (`told`). It takes that the run is in form, and nothing else. It does nothing when it runs.
pub fn runs_keep_the_promise()
    ensures runs { RunsKeepThePromise }
    ensures fronts { KeptAfterEveryEvent }
    ensures scripts { ScriptsAreRuns }
    ensures quiet { QuietDisksHoldAll }
    ensures waiting { QuiescesLeaveOvertaken }
    ensures answers { QuiescesAnswerWhoWaits }
    ensures plain { QuiescesGiveUpNothing }
    ensures calm { CalmQuiescesEndAtRest }
    ensures told { QuietLinesTell }
    ensures rounds { RoundsEndAtRest }
{}
