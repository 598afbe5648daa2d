// Calls of committed programs.
ghost use Rattle.arj_law_programs.specs.Laws.{CallsSurvive, ProgramsRunAlone};

use arj_law_cause::journals_tell_their_causes;
use arj_progrun::programs_mean_their_calls;

/// In every run in form behind a format whose events a schedule of client programs gave, by what the events before wrote, each program that
/// has committed has its top in the journal, which is committed there; and the calls that count of the program are the surviving calls of
/// that top, in order, with the same answers: each line that the schedule hears answers what that program asked, and a block that is tried
/// again leaves no surviving call. It does nothing when it runs.
pub fn committed_programs_survive()
    ensures runs { CallsSurvive }
{
    journals_tell_their_causes();
}

/// In every such run whose journal is serial, the calls of the top of a program that has committed stand together in the serial order; and
/// from the values that all calls before them leave, the program's statements, run alone, make exactly these, with these answers, and don't
/// fail. So what committed programs print is what they print alone, one after another. It does nothing when it runs.
pub fn committed_programs_run_alone()
    ensures runs { ProgramsRunAlone }
{
    journals_tell_their_causes();
    programs_mean_their_calls();
}
