// Laws of events.
ghost use Rattle.arj_law_parts.specs.steps.Halts.{CrashesSayTheirOwn, OnlyCrashesSayHalted};
ghost use Rattle.arj_law_parts.specs.steps.Named.{EndsWriteTheirLines};
ghost use Rattle.arj_law_parts.specs.steps.Writes.{EventsKeepWhole, EventsWriteTheirLines, RunsAreWhole, StartsAreWhole};

/// No step of a node says that a node halted, whatever it is asked, but a crash, and that says it of its own node; so any other
/// line that says so tells of a stop. It does nothing when it runs.
pub fn only_crashes_say_halted()
    ensures crashes { OnlyCrashesSayHalted }
    ensures own { CrashesSayTheirOwn }
{}

/// An event of a kind with a line of its own writes it, or that its node halted, in a world that has the nodes of its header, as
/// each world of a run has; and exactly where the world refuses it, or else the node that it asks, it writes with which number,
/// and where no label is left, that. In a quiesce, and of bytes that are no message, the line may be that a frame didn't fit. A
/// delivery of a frame that is for such a node says that it was got or void, whatever stop falls into it. It does nothing when it
/// runs.
pub fn events_write_their_lines()
    ensures lines { EventsWriteTheirLines }
    ensures first { StartsAreWhole }
    ensures kept { EventsKeepWhole }
    ensures whole { RunsAreWhole }
{}

/// A commit, an abort and a giveup write the line that answers them, by a label with the action's name, or that the action's node
/// halted, or, exactly where the world or that node refuses them, with which number, where the coordinators that are up know their
/// labels, and whom their commits wait for. It does nothing when it runs.
pub fn ends_write_their_lines()
    ensures lines { EndsWriteTheirLines }
{}
