// Laws of commits.
ghost use Rattle.std.specs.Prelude.{◌≡◌, ◌||◌, ℕ, true, List};
ghost use Rattle.std.specs.List.{list_any};
ghost use Rattle.arj_journal.specs.declared.body.Cause.{Cause};
ghost use Rattle.arj_protocol.specs.Commit.{Plan, Machine, Aborts, Marked, start, plan_of, servers_of, naming_node, participants, targets_of, stores_by, changed_of};
ghost use Rattle.arj_protocol.specs.Order.{has};
ghost use Rattle.arj_commit.specs.Runs.{Heard, DecidedBy, InOrder, IsFresh, after, is_due};

/// A commit is decided only when each of its servers has said yes, once; when then each store that it asks has
/// prepared, or is marked for each object that it was sent; and when then naming has said yes, if an object is used. It asks
/// each store that the kept list of a changed object has, and those of the surviving includes. The participants are those servers, the stores that prepared, and naming if it confirmed. A refusal and a giveup that end
/// the commit hand back the plan as it was. It does nothing when it runs.
pub fn commits_keep_the_order()
    ensures order { (p : Plan) (q : Plan) (heard : List Heard) → IsFresh p → let begun : Marked = start p in DecidedBy heard begun.step q → InOrder p heard q }
    ensures asks { (p : Plan) (n : ℕ) → has (targets_of p) n ≡ list_any (λ u. has (stores_by u (changed_of u.x p)) n) p.used }
    ensures lists { (p : Plan) (n : ℕ) → has (participants p) n ≡ (has (servers_of p) n || (has p.prepared n || has (naming_node p) n)) }
    ensures back { (m : Machine) (h : Heard) (why : Cause) (q : Plan) → is_due m h ≡ true → after m h ≡ Aborts why q → q ≡ plan_of m }
{}
