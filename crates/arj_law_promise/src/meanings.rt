// Which messages are void, and that nothing that is sent fails to be meant.
ghost use Rattle.arj_law_promise.specs.meant.Meant.{HandlersKeepMeant, KnownAreMeant, RunsAreVoidExactly, RunsMean};
ghost use Rattle.arj_law_promise.specs.meant.Void.{HandlersAreVoidExactly};

/// A node that is up makes nothing of what a message says exactly where a row of the table of causes holds, kind by kind
/// (`specs/meant/Void.antt`), whatever its disk and memory are: then it changes nothing, sends nothing, and looks at its disk at most. In
/// every run in form, from any start, each frame that is delivered is void exactly by that table in the words of the header: behind every
/// event, and within a settle or a quiesce, whatever stops fall. The node stays as it is then, and says the line `void`; else its first
/// line is `got`. At a node that is down every frame is void, and bytes that are no message are void everywhere. It does nothing when it
/// runs.
pub fn messages_are_void_exactly()
    ensures handlers { HandlersAreVoidExactly }
    ensures runs { RunsAreVoidExactly }
{}

/// Nothing that is sent in a run fails to be meant: a request is about objects of the header, a state that it brings to a server is of its
/// object, an operation is one of the object's class, a store is to prepare states of objects, each of another one, and no object is
/// confirmed twice. Each handler keeps that. So a message that was sent can be meant by its node, at any later moment at which that is up;
/// or it is an answer that no action awaits, and is void by that. The node makes of each what it says, so that its test of what can be
/// meant adds nothing to the table. It does nothing when it runs.
pub fn what_is_sent_can_be_meant()
    ensures handlers { HandlersKeepMeant }
    ensures gives { KnownAreMeant }
    ensures runs { RunsMean }
{}
