// Small runs: the guards can be met, and a run ends as it should.
ghost use Rattle.std.specs.Prelude.{◌≡◌, None, false};
ghost use Rattle.arj_law_disk.specs.machine.Guards.{end_of, MayConfirm, Runs};
ghost use Rattle.arj_law_disk.specs.machine.Named.{Named};
ghost use Rattle.arj_law_disk.specs.machine.Samples.{Holds, entry_of_five, entry_of_six, excluded, excluding, first_constituent, first_office, in_doubt, including, naming_restarts, older_office, removed, retaining, serial_office, serializing, state_by, stopped_after, stopped_before, with_three, without_three, zero_entry, zero_state};

/// Objects as they begin, one of them with an older state at a store that isn't listed. Runs of one object, act by act: a
/// store is excluded; the coordinator stops before its record, and after it; the naming node restarts with the exclusion in
/// doubt; the question that comes again is no new one; the store is included again; and a constituent writes by what its
/// serializing action retains. It does nothing when it runs.
pub fn guards_can_be_met()
    ensures first { Named first_office × Named serial_office × Named older_office }
    ensures excluding { Runs first_office excluding }
    ensures stopped_before { Runs in_doubt stopped_before × Holds (end_of in_doubt stopped_before) zero_entry zero_state zero_state }
    ensures stopped_after { Runs in_doubt stopped_after × Holds (end_of in_doubt stopped_after) zero_entry (state_by 1 5) zero_state }
    ensures naming_restarts { Runs in_doubt naming_restarts × Holds (end_of in_doubt naming_restarts) entry_of_five.new zero_state zero_state × ((end_of in_doubt naming_restarts).names.row 5 ≡ None) }
    ensures excluded { Runs in_doubt excluded × Holds without_three entry_of_five.new (state_by 1 5) zero_state }
    ensures removed { Runs without_three removed × ((end_of without_three removed).world.disk.intent 5 ≡ None) }
    ensures repeated { MayConfirm without_three 5 → ⊥ }
    ensures including { Runs without_three including × Holds with_three entry_of_six.new (state_by 1 5) zero_state × ((end_of without_three including).world.disk.went 6 3 ≡ false) }
    ensures serializing { Runs serial_office serializing × Holds first_constituent zero_entry (state_by 1 6) (state_by 1 6) }
    ensures retaining { Runs first_constituent retaining × ((end_of first_constituent retaining).names.row 7 ≡ None) }
{}
