// Laws of journals that are shown with other numbers of events and frames.
ghost use Rattle.std.specs.Prelude.{◌≡◌, List, ℕ};
ghost use Rattle.arj_journal.specs.declared.body.Line.{Line};
ghost use Rattle.arj_journal.specs.declared.header.Header.{Header};
ghost use Rattle.arj_model.specs.Calls.{committed_calls, tops};
ghost use Rattle.arj_model.specs.Last.{entry_from, last_from, listed};
ghost use Rattle.arj_model.specs.Nested.{nested_calls};
ghost use Rattle.arj_model.specs.Serial.{serial_calls};
ghost use Rattle.arj_model.specs.Shown.{shown_lines};
ghost use Rattle.arj_start.specs.Start.{Marks, Start};

/// A journal whose lines are shown with the numbers of events and frames raised, as where a run goes on behind earlier ones, has the same
/// calls and tops that count, the same serial and nested order, and the same last states, stores and entries. It does nothing when it runs.
pub fn shown_journals_are_alike()
    ensures calls { (st : Start) (lines : List Line) → committed_calls (shown_lines st lines) ≡ committed_calls lines }
    ensures tops { (st : Start) (lines : List Line) → tops (shown_lines st lines) ≡ tops lines }
    ensures serial { (st : Start) (lines : List Line) → serial_calls (shown_lines st lines) ≡ serial_calls lines }
    ensures nested { (st : Start) (lines : List Line) → nested_calls (shown_lines st lines) ≡ nested_calls lines }
    ensures state { (st : Start) (header : Header) (marks : Marks) (lines : List Line) (x : ℕ) → last_from header marks (shown_lines st lines) x ≡ last_from header marks lines x }
    ensures listed { (st : Start) (header : Header) (lines : List Line) (x : ℕ) → listed header (shown_lines st lines) x ≡ listed header lines x }
    ensures entry { (st : Start) (header : Header) (marks : Marks) (lines : List Line) (x : ℕ) → entry_from header marks (shown_lines st lines) x ≡ entry_from header marks lines x }
{}
