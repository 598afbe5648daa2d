// What conflicts meet.
ghost use Rattle.arj_law_cause.specs.rows.Runs.{RunsMeetRows};
ghost use Rattle.arj_law_cause.specs.rows.Says.{says_so};
ghost use Rattle.arj_law_lock_view.specs.moments.Runs.{AnswersAreTakenInSpan};
ghost use Rattle.arj_model.specs.Past.{Asked};
ghost use Rattle.arj_protocol.specs.Words.{Header};
ghost use Rattle.std.specs.Prelude.{List};

/// In every run, wherever disks stop, with all crashes and restarts, each answer that was sent was made at a place of the
/// journal, and there a conflict is with a row of the journal's table: at a server the call meets it, at naming its top does,
/// on the object's entry, in a mode that may be asked for; of this holder in this mode, and as the first one that stands
/// against what was asked. One that runs the call, names a binding or grants the entry was made where none stands against that.
/// Where a store answers a Load or a Prepare with the doubt of another action, a state of that one is
/// pending there by the lines before, if no event is taken for a crash; and where these are in form, that one has changed the
/// object by them, and so has the action whose Prepare this is. And who takes an answer takes it in the span of what was asked.
/// It does nothing when it runs.
pub fn conflicts_are_met()
    ensures runs { RunsMeetRows }
    ensures span { (accepted : List Asked) (hd : Header) → AnswersAreTakenInSpan (says_so accepted hd) }
{}
