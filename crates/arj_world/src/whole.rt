// What holds of every world of a run.
ghost use Rattle.std.specs.Prelude.{◌≡◌, Bool, List, true};
ghost use Rattle.arj_law_parts.specs.steps.Named.{AreNamed};
ghost use Rattle.arj_law_parts.specs.steps.Writes.{IsWhole};
ghost use Rattle.arj_journal.specs.declared.header.Header.{Header};
ghost use Rattle.arj_protocol.specs.World.{World, format};
ghost use Rattle.arj_law_parts.specs.moves.Keeps.{Holds, Keeps};
ghost use Rattle.arj_promise.specs.Runs.{Seen};
ghost use Rattle.arj_world.specs.Turns.{Turn, all_turned, turned};

/// In every run, with whatever stops, the world has each node of its header, and each label is of an action of one. It does
/// nothing when it runs.
pub fn runs_stay_whole()
    ensures turn { (t : Turn) (w : World) → IsWhole w → IsWhole (turned t w) }
    ensures runs { (hd : Header) (ts : List Turn) → IsWhole (all_turned ts (format hd)) }
{}

/// In every run, with whatever stops, the coordinators that are up know their labels, and whom their commits wait for. It does
/// nothing when it runs.
pub fn runs_know_their_labels()
    ensures runs { (hd : Header) (ts : List Turn) → AreNamed (all_turned ts (format hd)) }
{}

/// A test of what is seen that each handler keeps, wherever a stop falls into it, holds after every turn, and so after each run of
/// turns: what the laws of the protocol's runs say, they say of the runs of a world. It does nothing when it runs.
pub fn turns_keep_what_handlers_keep()
    ensures turn { (hd : Header) (test : Seen → Bool) → Keeps hd (λ M. test M ≡ true) → (t : Turn) (w : World) → Holds hd (λ M. test M ≡ true) w → Holds hd (λ M. test M ≡ true) (turned t w) }
    ensures runs { (hd : Header) (test : Seen → Bool) → Keeps hd (λ M. test M ≡ true) → (ts : List Turn) → Holds hd (λ M. test M ≡ true) (all_turned ts (format hd)) }
{}
