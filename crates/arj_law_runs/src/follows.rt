// What each event writes, by the events and the journal alone.
ghost use Rattle.arj_law_runs.specs.follow.Frames.{FramesHaveCauses};
ghost use Rattle.arj_law_runs.specs.follow.Refusals.{PlainRefusalsFollow};
ghost use Rattle.arj_law_runs.specs.follow.Shorts.{ShortEventsFollow};

/// In every run in form, wherever it begins and wherever disks stop, each line of a frame and of a stop to come has its cause: a
/// frame that is sent has the next number, goes to a node, and comes from one that is up, or from nobody where the script hands over
/// bytes that are no message; one that is got or void was sent, is the one that the event names, or in a settle and a quiesce the
/// first that is open, and its node is up, or it may be void; one that is dropped was sent, and the event names it. And a node halts
/// where it is up, or as the first line of its restart, and in no crash of another node. It does nothing when it runs.
pub fn frames_have_causes()
    ensures runs { FramesHaveCauses }
{}

/// In every run in form, wherever it begins and wherever disks stop, an event is refused with a number exactly where that is its lowest
/// cause by the events and the journal before it: unknown node, node down, node up, label used, unknown label, ended, and, where the
/// event names no action that began before, unknown object, no message, and a message. So such an event is refused exactly where the
/// journal has a cause. It does nothing when it runs.
pub fn plain_refusals_follow()
    ensures runs { PlainRefusalsFollow }
{}

/// In every run in form, wherever it begins and wherever disks stop, the beginning of an action in no other one, the loss of a frame, the
/// crash of a node, the arming of a disk and the handing over of bytes write what `Step` of `arj_model` has for them: the refusal by
/// their lowest cause, or, where the journal has none, their own line alone, and nothing behind the limit of frames. The beginning of an
/// action in another one has its own line alone too, where it isn't refused. Each action begins with the next Uid of its node, as the
/// journal counts incarnations and actions, at its parent's node and of the kind that its parent's asks for. It does nothing when it runs.
pub fn short_events_follow()
    ensures runs { ShortEventsFollow }
{}
