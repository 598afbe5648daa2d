// What an object's machine begins with and how it decides, in whole runs, and that disks are clean after them.
ghost use Rattle.arj_law_serial.specs.joint.Cleaned.{RunsAreClean};
ghost use Rattle.arj_law_serial.specs.joint.Joined.{JoinedRunsAreSerial, JoinedRunsAreTied, RunsAreJoined};
ghost use Rattle.arj_law_serial.specs.joint.Marked.{RunsAskMarks, RunsSayMarks};
ghost use Rattle.arj_law_serial.specs.joint.Shown.{ReadingsShowPairs, IncludesAreListed};

/// After each run whose header and events are in form, of at most 1,000,000 events, wherever disks stop, its nodes' disks are clean,
/// however they are read (`DisksAre`), with no premise: of both machines of each object nothing is taken (`runs_have_both_machines`). That decided tops are the journal's,
/// that machines began as the header says, that naming's states are entries, that decided writers stand as their commits were called, that
/// decided tops take those stores out of the list that their commits excluded and add those that they included, that who counts for nothing
/// excludes no store that is listed in its place, and that each include names a node of the header (`listed`), is given here. What such
/// readings show of the pairs `shown` says. It does nothing when it runs.
pub fn runs_are_clean()
    ensures clean { RunsAreClean }
    ensures shown { ReadingsShowPairs }
    ensures listed { IncludesAreListed }
{}

/// After each run whose header and events are in form, of at most 1,000,000 events, wherever disks stop, there are for each object of the
/// header states of both of its machines at once: of the disk machine, as `decisions_come_behind_calls` has it; and of the lock machine, to
/// which the journal is tied, in which commits under way have the votes that came. Each top that is decided, or has a record, has in the disk
/// machine the plan with which it waited for naming in an earlier state of the lock machine: what it changes the object to is what the server
/// voted that was called, over a state that was the last one once; and so it is known of copies and votes, and of committed tops with
/// surviving writes (`AreBasedSo`). So each decided top of the journal gave to the stores what it wrote, and one whose commit ended without a
/// record wrote nothing; the object's copies agree, and who waits to load it for a binding that naming made last and didn't record yet asks
/// stores that hold what they agree on; and so the journal is tied to the lock machine of each object of which a call was answered, and the
/// run is serial. Of the disk half nothing is taken: by which version naming takes a top's Confirm the lock half gives. Nor is anything taken
/// of the lock half: that commits of tops with surviving writes were recorded is given here, and so is that what a store gives to a call that
/// waits for it, under a binding that is current, is the last committed state: it is the last one of the disk machine, which the newest
/// surviving write left, and that is read back, since operations are in form. It does nothing when it runs.
pub fn runs_have_both_machines()
    ensures joined { RunsAreJoined }
    ensures tied { JoinedRunsAreTied }
    ensures serial { JoinedRunsAreSerial }
{}

/// In each run, wherever disks stop, each commit under way at a node that is up has said what it excludes: while its votes are collected, and
/// while its prepare step runs, no line says an exclusion of it; and behind that the lines say exactly the stores that its plan has marked,
/// by object. And of whom a line says an exclusion naming was asked to confirm its commit. It does nothing when it runs.
pub fn commits_say_what_they_exclude()
    ensures said { RunsSayMarks }
    ensures asked { RunsAskMarks }
{}
