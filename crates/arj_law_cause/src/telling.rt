// What every journal says of why it is so.
ghost use Rattle.arj_law_cause.specs.told.Runs.{JournalsTell, LinesAreLocal, LinesHaveCauses, RunsFollow};

/// In every run in form, wherever it begins and wherever disks stop, the journal says why it is so, in words of the header, the events and its
/// own lines (`TellsItsCauses`): what each event writes and for what it is refused (`Follows`); that each line has its cause (`JHasCauses`);
/// which lines answer what waits; and what quiesces answer and rounds of them leave (`TellsQuiesces`). It does nothing when it runs.
pub fn journals_tell_their_causes()
    ensures runs { JournalsTell }
{}

/// In every run in form, wherever it begins and wherever disks stop, every line of the journal has its cause (`JHasCauses` of `arj_model`):
/// what makes a line of its kind stand is so by the header, by what the run began with, by the events, and by the lines before it. It does
/// nothing when it runs.
pub fn every_line_has_its_cause()
    ensures runs { LinesHaveCauses }
{}

/// In every run in form, wherever it begins and wherever disks stop, the journal follows the events that were run (`Follows` of `arj_model`):
/// an event that has a cause to be refused, by the journal before it, is refused for its lowest one, or since an action is doomed, which the
/// journal dooms; any other writes its own lines, between them such as may stand there, each of them an answer to what was asked, and its end.
/// It does nothing when it runs.
pub fn journals_follow_their_events()
    ensures runs { RunsFollow }
{}

/// In every run in form, wherever it begins and wherever disks stop, each line of an event, any but a settle and a quiesce, is of what the
/// node that works then did (`LocalStep`): it names the node, answers an action that began there, or is of a frame that the node sent;
/// of a delivery that node is the receiver. It does nothing when it runs.
pub fn lines_are_of_their_node()
    ensures runs { LinesAreLocal }
{}
