// Locks that are held at each line of a journal.
ghost use Rattle.arj_law_serial.specs.holding.Along.{RunsHoldEach};

/// Held, and entry held, by the journal's tables, at each line: each surviving call of a committed top has a node in whose table, from its `ok` line to the
/// `committing` line of the last member of its unit, its object is locked for its unit in a mode that the call needs, by an action on the caller's path;
/// also inside of an event, and with all stops, crashes and restarts. So long the object's entry is locked in the table of node 1, by the root or a top
/// of it; and that of each surviving include's object is for writing, from its `includes` line on. Calls of one object and of different units that
/// overlap are at one node. It takes that the header and the events are in form, and nothing else. It does nothing when it runs.
pub fn runs_hold_locks_at_each_line()
    ensures { RunsHoldEach }
{}
