// Where a program stands.

/// Where a program stands: what it gives next, or what it waits for, or how it ended.
#[derive(Clone, Copy, Debug, PartialEq, Eq)]
pub enum Phase {
    /// Its innermost action is to begin.
    Entering,
    /// Its innermost action goes on with its next statement.
    Ready,
    /// Its innermost action is to be aborted.
    Backing,
    /// It waits for its innermost action to begin.
    Beginning,
    /// It waits for the answer of a call.
    Calling,
    /// It waits for the end of a commit.
    Committing,
    /// It waits for the end of an abort.
    Aborting,
    /// It reached `fail`, and waits for the abort of its top.
    Failing,
    /// Its top committed.
    Committed,
    /// It reached `fail`.
    Failed,
    /// It has no try left, or can't go on.
    GaveUp,
}

impl Phase {
    ghost use Rattle.std.specs.Prelude.{◌≡◌};
    ghost use Rattle.arj_progrun.specs.Client.{is_over, is_waiting};

    /// Whether it is answered later what was asked.
    pub fn is_waiting(self) -> bool
        ensures { result ≡ is_waiting self }
    {
        match self {
            Phase::Beginning
            | Phase::Calling
            | Phase::Committing
            | Phase::Aborting
            | Phase::Failing => true,
            _ => false,
        }
    }

    /// Whether the program gives no event more.
    pub fn is_over(self) -> bool
        ensures { result ≡ is_over self }
    {
        match self {
            Phase::Committed | Phase::Failed | Phase::GaveUp => true,
            _ => false,
        }
    }
}
