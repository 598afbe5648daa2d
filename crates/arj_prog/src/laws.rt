// What a draft was read from.
ghost use Rattle.std.specs.Prelude.{◌≡◌, ◌++◌, ◌∷◌, [], true, false};
ghost use Rattle.std.specs.List.{flat_map};
ghost use Rattle.arj_prog.specs.declared.draft.Draft.{Draft};
ghost use Rattle.arj_prog.specs.declared.said.Said.{Said};
ghost use Rattle.arj_prog.specs.declared.said.Said.TheVariants as said;
ghost use Rattle.arj_prog.specs.Drafts.{draft_behind, fits_draft, is_run, plan_of};
ghost use Rattle.arj_prog.specs.Written.{draft_lines, plan_lines};

/// Each line of the programs that is taken stands behind those that the draft was read from, and at `run` these are the
/// lines of the plan's programs, in their order. It does nothing when it runs.
pub fn lines_are_kept()
    ensures grows { (s : Said) (d : Draft) → fits_draft s d ≡ true → is_run s ≡ false → draft_lines (draft_behind s d) ≡ draft_lines d ++ s ∷ [] }
    ensures run { (d : Draft) → fits_draft said.Run d ≡ true → draft_lines d ≡ plan_lines (plan_of d) }
{}
