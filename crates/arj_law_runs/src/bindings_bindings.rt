// How many bindings a run makes.
ghost use Rattle.arj_law_runs.specs.bindings.Scripts.{MovesMakeFew};

/// In each run of at most 1,000,000 events, whatever stops fall in them, with all crashes and restarts, naming makes fewer bindings than
/// its counts tell apart in one incarnation. It does nothing when it runs.
pub fn runs_make_few_bindings()
    ensures { MovesMakeFew }
{}
