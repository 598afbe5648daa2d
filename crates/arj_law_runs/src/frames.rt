// To whom frames go.
ghost use Rattle.std.specs.Prelude.{◌≡◌, ◌&&◌, ℕ, Bool, true, nat_le};
ghost use Rattle.std.specs.List.{AllByRecursion};
ghost use Rattle.arj_journal.specs.declared.header.Header.{Header};
ghost use Rattle.arj_law_parts.specs.moves.Keeps.{Holds};
ghost use Rattle.arj_promise.specs.Runs.{HeaderFits, Run, world_by};
ghost use Rattle.arj_law_runs.specs.addresses.Addresses.{AreSo, GoWithin, LineOf};

/// In every run, wherever disks stop, what holds of 1, of each node of the header, and of the servers and stores of its objects,
/// each of which lists a server, holds of every number that stands for a node: in every message that was ever sent, with whom it
/// came from and to whom it goes, on every disk and in the memory of each node that's up. So each frame goes to a node of the
/// header: to a number that's at least 1 and at most the header's number of nodes. It does nothing when it runs.
pub fn frames_go_within()
    ensures named { (hd : Header) (test : ℕ → Bool) → test 1 ≡ true → ((s : ℕ) → (nat_le 1 s && nat_le s hd.nodes) ≡ true → test s ≡ true) → AllByRecursion (LineOf (λ n. test n ≡ true)) hd.objects → (r : Run hd) → Holds hd (AreSo (λ n. test n ≡ true)) (world_by hd r) }
    ensures runs { (hd : Header) → HeaderFits hd → (r : Run hd) → GoWithin hd.nodes (world_by hd r) }
{}
