// What is said of frames that are delivered.
ghost use Rattle.arj_law_nodes.specs.delivery.Deliveries.{RunsTake, RunsWriteTheirLines, TurnsGoToNodes, TurnsOweTheirLines, TurnsTake};

/// In every run a delivery of a frame that was sent says that it was got or void, with whatever stop falls into it, and also where a
/// limit is met: each frame is for a node of the header. It does nothing when it runs.
pub fn deliveries_are_taken()
    ensures runs { RunsTake }
    ensures turns { TurnsTake }
    ensures nodes { TurnsGoToNodes }
{}

/// In every run an event of a kind with a line of its own writes it, or that it is refused, that its node halted, or that a limit was
/// met; deliveries do too, as each frame is for a node. It does nothing when it runs.
pub fn events_owe_their_lines()
    ensures runs { RunsWriteTheirLines }
    ensures turns { TurnsOweTheirLines }
{}
