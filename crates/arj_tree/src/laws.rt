// The refusals that a tree sees are those of the protocol.
ghost use Rattle.std.specs.Prelude.{◌≡◌, ◌||◌, ℕ, false, true, option_map, is_some};
ghost use Rattle.arj_protocol.specs.Ask.{actor};
ghost use Rattle.arj_protocol.specs.Coord.{Coord};
ghost use Rattle.arj_protocol.specs.Step.{first_reason, begin_reasons, call_reasons, include_reasons, commit_reasons, abort_reasons, waits_above, waits_below, sibling_waits, class_at, lacks_op};
ghost use Rattle.arj_protocol.specs.Tree.{Branch};
ghost use Rattle.arj_protocol.specs.Words.{Header, Kind, Op};
ghost use Rattle.arj_protocol.specs.Words.ending;
ghost use Rattle.arj_tree.specs.Faults.{number_of, begin_fault, use_fault, end_fault};

/// Where no action waits, and the object and the operation are known, the first refusal of the protocol is the fault that
/// the tree names. It does nothing when it runs.
pub fn refusals_are_the_protocols()
    ensures begin { (k : Kind) (b : Branch) (c : Coord) → waits_above b c ≡ false → first_reason (begin_reasons k b c) ≡ option_map number_of (begin_fault k b c.tree) }
    ensures call { (hd : Header) (x : ℕ) (o : Op) (b : Branch) (c : Coord) → (waits_above b c || waits_below b c) ≡ false → is_some (class_at x hd) ≡ true → lacks_op o (class_at x hd) ≡ false
        → first_reason (call_reasons hd x o b c) ≡ option_map number_of (use_fault x b c.tree) }
    ensures include { (hd : Header) (x : ℕ) (b : Branch) (c : Coord) → (waits_above b c || waits_below b c) ≡ false → is_some (class_at x hd) ≡ true
        → first_reason (include_reasons hd x b c) ≡ option_map number_of (use_fault x b c.tree) }
    ensures commit { (b : Branch) (c : Coord) → (waits_above b c || waits_below b c || sibling_waits b c) ≡ false
        → first_reason (commit_reasons b c) ≡ option_map number_of (end_fault ending.Commit (actor b.path) b c.tree) }
    ensures abort { (b : Branch) (c : Coord) → (waits_above b c || waits_below b c) ≡ false
        → first_reason (abort_reasons b c) ≡ option_map number_of (end_fault ending.Abort (actor b.path) b c.tree) }
{}
