// That the journal's tables and the locks of nodes agree.
ghost use Rattle.arj_law_cause.specs.rows.Tables.{EventsAgree, EventsBegin, EventsKeep};

/// In every run, wherever it begins and wherever disks stop, so much is known as an event comes, and is kept by each step of each node
/// in that event, that at each moment of it the first lock which stands against anything that may be asked is the same at a server, or
/// at naming on an entry, and in the journal's table of the node: at each node that is up, unless it came up in that event. It does
/// nothing when it runs.
pub fn tables_agree_inside_events()
    ensures begin { EventsBegin }
    ensures kept { EventsKeep }
    ensures agree { EventsAgree }
{}
