// The line of an end.
ghost use Rattle.std.specs.Prelude.{◌≡◌};
ghost use Rattle.arj_coord.specs.Shown.{line_of};

use arj_journal::{Body, Cause, Label};

/// What the journal says of an end: a commit, the commit of a serializing action, or an abort.
#[derive(Clone, Copy, Debug)]
pub enum EndLine {
    Committed,
    Ended,
    Aborted(Cause),
}

/// The line of an end, about the action with this label.
pub fn body(line: EndLine, label: Label) -> Body
    ensures { result ≡ line_of line label }
{
    match line {
        EndLine::Committed => Body::Committed { label },
        EndLine::Ended => Body::Ended { label },
        EndLine::Aborted(cause) => Body::Aborted { label, cause },
    }
}
