// Laws of two journals, one behind the other.
ghost use Rattle.std.specs.Prelude.{◌≡◌, ◌++◌, List, ℕ};
ghost use Rattle.arj_journal.specs.declared.body.Line.{Line};
ghost use Rattle.arj_journal.specs.declared.header.Header.{Header};
ghost use Rattle.arj_law.specs.Joined.{AreApart, AreCalled, AreJoined, calls_behind, marks_after, tops_behind, values_after};
ghost use Rattle.arj_law.specs.JoinedSamples.{AddsEnd, IncludesEnd, NestedEnd};
ghost use Rattle.arj_model.specs.Keeping.{KeepsTheBook};
ghost use Rattle.arj_model.specs.Calls.{committed_calls, tops};
ghost use Rattle.arj_model.specs.Clean.{Clean, CleanFrom};
ghost use Rattle.arj_model.specs.Disks.{Disks};
ghost use Rattle.arj_model.specs.Last.{entry_from, entry_state, last_from, last_state, listed, serial_tops};
ghost use Rattle.arj_model.specs.Serial.{Serial, Values, serial_calls};

/// Of two journals of different actions, one behind the other, the calls and tops that count are those of the first and
/// behind them those of the second; and so they stand in the serial order. It does nothing when it runs.
pub fn joined_journals_stand_one_behind_the_other()
    ensures calls { (first second : List Line) → AreApart first second → committed_calls (first ++ second) ≡ committed_calls first ++ calls_behind first (committed_calls second) }
    ensures tops { (first second : List Line) → AreApart first second → tops (first ++ second) ≡ tops first ++ tops_behind first (tops second) }
    ensures serial { (first second : List Line) → AreApart first second → AreCalled second → serial_calls (first ++ second) ≡ serial_calls first ++ calls_behind first (serial_calls second) }
    ensures serial_tops { (first second : List Line) → AreApart first second → serial_tops (first ++ second) ≡ serial_tops first ++ tops_behind first (serial_tops second) }
{}

/// Where the first journal is serial and keeps the book, and the second does from the values that the first leaves, both
/// together are serial and keep it. It does nothing when it runs.
pub fn joined_journals_keep_the_book()
    ensures serial { (values : Values) (first second : List Line) → AreApart first second → AreCalled second → Serial values first → Serial (values_after values first) second → Serial values (first ++ second) }
    ensures book { (values : Values) (first second : List Line) → AreApart first second → AreCalled second → KeepsTheBook values first → KeepsTheBook (values_after values first) second → KeepsTheBook values (first ++ second) }
{}

/// Last states, listed stores and entries of both journals are those of the second run, whose header goes on where the first
/// journal ended, counted from the marks that it left; and disks that are clean of the one are clean of the other. It does
/// nothing when it runs.
pub fn joined_journals_end_as_the_second()
    ensures state { (header next : Header) (first second : List Line) → AreJoined header first next second → (x : ℕ) → last_state header (first ++ second) x ≡ last_from next (marks_after header first) second x }
    ensures listed { (header next : Header) (first second : List Line) → AreJoined header first next second → (x : ℕ) → listed header (first ++ second) x ≡ listed next second x }
    ensures entry { (header next : Header) (first second : List Line) → AreJoined header first next second → (x : ℕ) → entry_state header (first ++ second) x ≡ entry_from next (marks_after header first) second x }
    ensures clean { (header next : Header) (first second : List Line) → AreJoined header first next second → (disks : Disks) → CleanFrom next (marks_after header first) second disks → Clean header (first ++ second) disks }
    ensures clean_from { (header next : Header) (first second : List Line) → AreJoined header first next second → (disks : Disks) → Clean header (first ++ second) disks → CleanFrom next (marks_after header first) second disks }
{}

/// Small journals of runs that went on, joined to those of the runs before them, and where both end. It does nothing when it
/// runs.
pub fn joined_samples_end_so()
    ensures adds { AddsEnd }
    ensures includes { IncludesEnd }
    ensures nested { NestedEnd }
{}
