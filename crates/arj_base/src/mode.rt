// Lock modes and the two ways in which an action ends.
ghost use Rattle.std.specs.Prelude.{◌≡◌};
ghost use Rattle.arj_base.specs.Mode.{conflicting, stronger as stronger_of};

/// A lock mode, weakest first. Read goes with read and exclude, exclude with read alone, write with none.
/// Exclude is the naming service's exclude-write lock, held by an action that takes stores out of an entry.
#[derive(Clone, Copy, Debug, PartialEq, Eq, PartialOrd, Ord)]
pub enum Mode {
    Read,
    Exclude,
    Write,
}

/// Whether two holders may not have these modes at once.
pub fn conflicts(a: Mode, b: Mode) -> bool
    ensures { result ≡ conflicting a b }
{
    match a {
        Mode::Read => b == Mode::Write,
        Mode::Exclude => b != Mode::Read,
        Mode::Write => true,
    }
}

/// The stronger of two modes.
pub fn stronger(a: Mode, b: Mode) -> Mode
    ensures { result ≡ stronger_of a b }
{
    match (a, b) {
        (Mode::Write, _) | (_, Mode::Write) => Mode::Write,
        (Mode::Exclude, _) | (_, Mode::Exclude) => Mode::Exclude,
        _ => Mode::Read,
    }
}

/// How an action ended.
#[derive(Clone, Copy, Debug, PartialEq, Eq)]
pub enum End {
    Abort,
    Commit,
}
