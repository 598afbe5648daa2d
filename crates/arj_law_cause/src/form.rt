// Which lines of a journal are in form.
ghost use Rattle.arj_law_cause.specs.form.Form.{RunsAreInForm};

/// In every run in form, from any start, wherever disks stop, each line of the journal is in form (`LineInForm`), so that it has one text and
/// its text is of no other line. It does nothing when it runs.
pub fn journals_are_in_form()
    ensures runs { RunsAreInForm }
{}
