// What a quiesce leaves.
ghost use Rattle.arj_law_runs.specs.resting.Answered.{QuiescesAnswerOrLeave, QuiescesGiveNothingUp, RunsAnswerOrWait};
ghost use Rattle.arj_law_runs.specs.resting.Quiet.{QuiescesSettle, RoundsSettle};
ghost use Rattle.arj_law_runs.specs.resting.Ups.{AllStayUp, RunsStayUp};

/// Take a relation that every handler keeps, by which each record is told until all have acknowledged it, and whoever is prepared
/// somewhere has ended, or is at its commit. Then a quiesce that begins where nobody waits and no frame is open, in which every node
/// stays up and no limit is met, leaves every node idle: with no action that waits, no prepared action and no record. So does the
/// stated round, in every run: a quiesce, giveups of what waits then, and a second quiesce. It does nothing when it runs.
pub fn quiesces_leave_nothing_to_do()
    ensures quiesces { QuiescesSettle }
    ensures rounds { RoundsSettle }
{}

/// In every run, whatever stops fall in it, an action that waits for a call, an include or its commit goes on waiting for the same, until a
/// line of the journal ends that: the call's `ok`, its refusal with the cause, `lost` or `includes`, the top's `committed`, an `aborted` with the
/// cause, a `gaveup`, or `halted` of its node. In a quiesce no `gaveup` stands, and an abort only where an answer refuses the commit; and whoever is
/// said to have halted is down at its end. So who waited as it began waits still, or was answered, at each node that is up then. It takes
/// nothing. It does nothing when it runs.
pub fn whoever_waits_is_answered()
    ensures runs { RunsAnswerOrWait }
    ensures lines { QuiescesGiveNothingUp }
    ensures quiesces { QuiescesAnswerOrLeave }
{}

/// In every run, whatever stops fall in it, a node that is up stays up, until a line says that it halted. So where every node is up, and no line
/// from there on says that one halted, every node is up: as a quiesce and the stated round take it. It takes nothing. It does nothing when it
/// runs.
pub fn whoever_is_up_stays_up()
    ensures runs { RunsStayUp }
    ensures all { AllStayUp }
{}
