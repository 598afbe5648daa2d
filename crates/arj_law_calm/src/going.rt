// The header of a run that goes on.
ghost use Rattle.arj_law_calm.specs.Laws.{FirstsStayHeld, HeadersGoOn};

use arj_check::readable_calls_can_be_run;

/// The header with the values and the listed stores that a readable journal leaves goes on where that ended (`GoesOn` of `arj_law`),
/// unless a store is listed for what is no object; and values that nobody has written are still those that states of the format hold. It
/// does nothing when it runs.
pub fn headers_go_on()
    ensures goes { HeadersGoOn }
    ensures held { FirstsStayHeld }
{
    readable_calls_can_be_run();
}
