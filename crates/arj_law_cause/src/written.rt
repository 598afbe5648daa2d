// Which lines an accepted event writes, by the journal alone.
ghost use Rattle.arj_law_cause.specs.follow.lines.Lines.{LinesFollow};

/// In every run in form, wherever it begins and wherever disks stop, each accepted event writes its own lines, those that may stand between
/// them, and its end, as `Step` of `arj_model` has them: a commit its line by the action's kind, or that the action is doomed; an abort a line
/// for each open action below, the latest first, and for its own; a giveup a line for each node that it gives up, increasing; a delivery that
/// its frame was got or void; a restart a greater incarnation, or a halt before it; a quiesce whether all was quiet; and whatever sends the
/// limit of frames where that was met. Between them stands work alone, nothing behind a halt where one node works, frames have the next
/// numbers, deliveries are of the first open frame, and nodes halt where they are up. A show writes what `Step` has for it. Left out are why an
/// action is doomed, what waits for an answer, and that no call is lost but by a giveup. It does nothing when it runs.
pub fn lines_follow()
    ensures runs { LinesFollow }
{}
