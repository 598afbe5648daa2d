// One action.
ghost use Rattle.std.specs.Prelude.{◌≡◌, None, Some, is_some, option_copied, false, true};
ghost use Rattle.arj_protocol.specs.Tree.{ended_so, is_too_deep};
ghost use Rattle.arj_start.specs.Kinds.{is_serial};

use arj_base::{End, MOST_UIDS, Path};
use arj_journal::Kind;
use std::marker::Model;

/// An action: how it ended is None while it is open. Contracts see it as the protocol's.
#[derive(Drop)]
pub struct Action {
    path: Path,
    kind: Kind,
    ended: Option<End>,
    doomed: bool,
}

impl Model for Action {
    ghost use Rattle.arj_protocol.specs.Tree.{Branch};

    ghost Value = { Branch };

    ghost view = { λ a. record { path = a.path; kind = a.kind; ended = a.ended; doomed = a.doomed } };
}

impl Action {
    /// An open action.
    pub fn new(path: Path, kind: Kind) -> Action
        ensures { result ≡ record { path = path; kind = kind; ended = None; doomed = false } }
    {
        Action {
            path,
            kind,
            ended: None,
            doomed: false,
        }
    }

    /// Its path.
    pub fn path(&self) -> &Path
        ensures { result.now ≡ self.now.path }
    {
        &self.path
    }

    /// Its kind.
    pub fn kind(&self) -> Kind
        ensures { result ≡ self.now.kind }
    {
        self.kind
    }

    /// Whether it is a serializing action.
    pub fn is_serial(&self) -> bool
        ensures { result ≡ is_serial self.now.kind }
    {
        self.kind == Kind::Serial
    }

    /// Whether it has ended.
    pub fn is_ended(&self) -> bool
        ensures { result ≡ is_some self.now.ended }
    {
        self.ended.is_some()
    }

    /// Whether it ended so.
    pub fn ended_so(&self, outcome: End) -> bool
        ensures { result ≡ ended_so outcome (Some self.now) }
    {
        self.ended == Some(outcome)
    }

    /// Whether it can only abort.
    pub fn is_doomed(&self) -> bool
        ensures { result ≡ self.now.doomed }
    {
        self.doomed
    }

    /// Whether its path has as many Uids as a path may have.
    pub fn is_too_deep(&self) -> bool
        ensures { result ≡ is_too_deep self.now }
    {
        self.path.len() >= MOST_UIDS
    }

    /// Notes how it ended.
    pub fn end(&mut self, outcome: End)
        ensures { self.new ≡ record self.old { ended = Some outcome } }
    {
        self.ended = Some(outcome);
    }

    /// It can only abort from now on.
    pub fn doom(&mut self)
        ensures { self.new ≡ record self.old { doomed = true } }
    {
        self.doomed = true;
    }
}
