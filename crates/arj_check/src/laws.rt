// Laws of what is read of a journal.
ghost use Rattle.std.specs.Prelude.{◌≡◌, ◌↔◌, ℕ, List, Some, None, ◌==◌, ◌&&◌, true, false, map, take, slice_get};
ghost use Rattle.std.specs.List.{AllByRecursion, filter_map};
ghost use Rattle.arj_journal.specs.declared.body.Line.{Line};
ghost use Rattle.arj_journal.specs.declared.header.Header.{Header};
ghost use Rattle.arj_model.specs.Actions.{Act, acts, committed, has_end, recovered};
ghost use Rattle.arj_model.specs.Nested.{nested_calls};
ghost use Rattle.arj_model.specs.Calls.{Call, committed_calls, tops};
ghost use Rattle.arj_model.specs.Serial.{Answers, Values, serial_calls};
ghost use Rattle.arj_reading.specs.Readable.{Readable};
ghost use Rattle.arj_reading.specs.Reading.{HasRead, actions_of, placed_of};
ghost use Rattle.arj_reading.specs.declared.action.Action.{Action};
ghost use Rattle.arj_reading.specs.declared.action.TopAction.{TopAction};
ghost use Rattle.arj_reading.specs.declared.reading.Reading.{Reading};
ghost use Rattle.arj_replay.specs.Orders.{nested_place, paths, serial_place, survives, test_at};
ghost use Rattle.arj_replay.specs.Sorting.{last_in_order};
ghost use Rattle.arj_replay.specs.Verdict.{HasCall, first_difference};
ghost use Rattle.arj_check.specs.Keys.{HaveOwnKeys, is_committed_top, key_at, nested_of, serial_of, top_at};

/// Each surviving call of a committed top of a readable journal has its line, and its object has the operation: it can be run.
/// It does nothing when it runs.
pub fn readable_calls_can_be_run()
    ensures { (header : Header) (lines : List Line) → Readable header lines → AllByRecursion (HasCall header lines) (committed_calls lines) }
{}

/// The committed tops of a journal are those of the marks of the commits that were called. It does nothing when it runs.
pub fn tops_are_found_by_marks()
    ensures { (lines : List Line) (r : Reading) → HasRead lines r → filter_map (top_at (committed lines) (recovered lines) (paths (acts lines))) (map placed_of r.calls.items) ≡ tops lines }
{}

/// Different tops of calls of a readable journal have different keys. It does nothing when it runs.
pub fn readable_tops_have_own_keys()
    ensures { (header : Header) (lines : List Line) → Readable header lines → AllByRecursion (λ c. AllByRecursion (λ d. HaveOwnKeys (tops lines) d c) (committed_calls lines)) (committed_calls lines) }
{}

/// The keys of the surviving calls of committed tops are those of the marks of the calls that were answered, in both orders. It
/// does nothing when it runs.
pub fn calls_are_found_by_marks()
    ensures nested { (lines : List Line) (r : Reading) → HasRead lines r
        → filter_map (key_at (nested_of (tops lines) (committed lines)) (committed lines) (recovered lines) (paths (acts lines))) (map placed_of r.said.items) ≡ map (nested_place (tops lines) (committed lines)) (committed_calls lines) }
    ensures serial { (lines : List Line) (r : Reading) → HasRead lines r
        → filter_map (key_at (serial_of (tops lines)) (committed lines) (recovered lines) (paths (acts lines))) (map placed_of r.said.items) ≡ map (serial_place (tops lines)) (committed_calls lines) }
{}

/// Sorted by these keys, the places are those of the calls in serial order, and in nested order. It does nothing when it runs.
pub fn places_are_sorted()
    ensures serial { (lines : List Line) → last_in_order (map (serial_place (tops lines)) (committed_calls lines)) ≡ map (λ c. c.at) (serial_calls lines) }
    ensures nested { (header : Header) (lines : List Line) → Readable header lines → last_in_order (map (nested_place (tops lines) (committed lines)) (committed_calls lines)) ≡ map (λ c. c.at) (nested_calls lines) }
{}

/// No call differs exactly where all answers are those of running the calls: in serial order where the journal is serial. It does
/// nothing when it runs.
pub fn no_difference_is_right()
    ensures { (values : Values) (calls : List Call) → (first_difference values calls ≡ None) ↔ Answers values calls }
{}

/// Whether the calls of an action survive is known of its top, or of its own commit and the action above it. It does nothing
/// when it runs.
pub fn calls_survive_by_actions()
    ensures own { (lines : List Line) (i : ℕ) (a : Action) (p : List Act) → slice_get (actions_of (acts lines)) i ≡ Some a → slice_get (paths (acts lines)) i ≡ Some p
        → (top : TopAction) → a.top ≡ Some top → (top.number == i) ≡ true → is_committed_top (committed lines) (recovered lines) top ≡ survives (committed lines) (recovered lines) p }
    ensures below { (lines : List Line) (i : ℕ) (a : Action) (p : List Act) → slice_get (actions_of (acts lines)) i ≡ Some a → slice_get (paths (acts lines)) i ≡ Some p
        → (top : TopAction) → a.top ≡ Some top → (top.number == i) ≡ false
        → (has_end (committed lines) i && test_at (map (survives (committed lines) (recovered lines)) (take i (paths (acts lines)))) a.above) ≡ survives (committed lines) (recovered lines) p }
{}
