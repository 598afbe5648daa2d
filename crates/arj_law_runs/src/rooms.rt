// Room for ends and objects.
ghost use Rattle.std.specs.Prelude.{◌≡◌, ℕ, Some};
ghost use Rattle.arj_journal.specs.declared.header.Header.{Header};
ghost use Rattle.arj_protocol.specs.Node.{Parts};
ghost use Rattle.arj_protocol.specs.Step.{Node};
ghost use Rattle.arj_protocol.specs.Tree.{Tree, at_place};
ghost use Rattle.arj_promise.specs.Runs.{Run, world_by};
ghost use Rattle.arj_law_runs.specs.coordinators.Rooms.{HasRoom};
ghost use Rattle.arj_law_parts.specs.told.Sends.{HasFewEnds};

/// In each run, with all frames in any order, again or never, all stops, crashes and restarts, the tree of each coordinator that
/// is up has room: a root lists at most an end of each of its actions, which are at most 64, and its actions use at most 16
/// objects. So what ends are told of can be sent. It does nothing when it runs.
pub fn trees_have_room()
    ensures runs { (hd : Header) (r : Run hd) (k : ℕ) (n : Node) (t : Parts) → at_place k (world_by hd r).nodes ≡ Some n → n.live ≡ Some t → HasRoom t.coord.tree }
    ensures ends { (t : Tree) → HasRoom t → HasFewEnds t }
{}
