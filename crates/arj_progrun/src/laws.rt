// What programs that committed have done, and which plans are in form.
ghost use Rattle.std.specs.Prelude.{◌≡◌, List};
ghost use Rattle.std.specs.List.{AllByRecursion};
ghost use Rattle.arj_journal.specs.ScriptForm.{HeaderInForm};
ghost use Rattle.arj_prog.specs.Lines.{SaidInForm};
ghost use Rattle.arj_prog.specs.Written.{plan_lines};
ghost use Rattle.arj_prog.specs.declared.plan.Plan.{Plan as plan_type};
ghost use Rattle.arj_progrun.specs.Alone.{MeansItsCalls};
ghost use Rattle.arj_progrun.specs.InForm.{PlanInForm};
ghost use Rattle.arj_progrun.specs.Schedule.{Given, Schedule, Standing};

/// Whatever the nodes answer, the calls that count of a program that committed are those that its statements make where
/// they run alone, from any values at which these calls give their answers; and they don't fail. It does nothing when
/// it runs.
pub fn programs_mean_their_calls()
    ensures { (plan : plan_type) (trace : List Given) (end : Standing) → Schedule plan trace end → AllByRecursion MeansItsCalls end.clients }
{}

/// A plan is in form whose header is, and whose programs' lines are, under the objects of a header. It does nothing when it runs.
pub fn plans_are_in_form()
    ensures { (plan : plan_type) → HeaderInForm plan.header → AllByRecursion (SaidInForm (let h = plan.header in h.objects)) (plan_lines plan) → PlanInForm plan }
{}
