// When answers are made.
ghost use Rattle.arj_law_lock_view.specs.moments.Runs.{AnswersAreTakenInSpan, RunsMakeAnswers, says_nothing};

/// In every run each answer that was sent was made at a place of the journal: behind each event that asked its action and can own the
/// request, and where its frame was sent, or, by a node to itself, without one; a server that answers a call again gives what it answered at
/// the first place. And who takes one takes it in the span of what was asked. It does nothing when it runs.
pub fn answers_are_made()
    ensures runs { RunsMakeAnswers }
    ensures span { AnswersAreTakenInSpan says_nothing }
{}
