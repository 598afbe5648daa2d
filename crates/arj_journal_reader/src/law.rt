// What holds of all journals.
ghost use Rattle.std.specs.Prelude.{◌≡◌, List};
ghost use Rattle.std.specs.List.{AllByRecursion};
ghost use Rattle.arj_journal.specs.LineForm.{LineInForm};
ghost use Rattle.arj_journal.specs.LineText.{line_text, text};
ghost use Rattle.arj_journal.specs.declared.body.Line.{Line};

/// No two lines in form have one text, and no two journals of such lines.
pub fn one_text_per_journal()
    ensures line { (l m : Line) → LineInForm l → LineInForm m → line_text l ≡ line_text m → l ≡ m }
    ensures journal { (ls ms : List Line) → AllByRecursion LineInForm ls
        → AllByRecursion LineInForm ms → text ls ≡ text ms → ls ≡ ms }
{}
