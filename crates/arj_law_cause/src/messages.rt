// What can be spelled.
ghost use Rattle.arj_law_cause.specs.spelled.Spelled.{RunsInFormSpell, RunsSpell};

/// In every run, from any start, whatever stops fall, each message that was sent can be spelled (`IsSendable`), but for what `IsLeft` says
/// of it: that its states restore, and that a register has at most 192 bytes. So each number that stands for an object or a node is one, in
/// requests and in answers; an entry has at most 16 stores; at most 255 ends are brought or told; a commit asks about at most 16 objects,
/// takes out at most 256 stores and takes in no more; and a vote has at most 16 states, since a top writes only what its root uses.
///
/// In every run in form each state that is sent restores too, and a register has at most 192 bytes in operations and answers: so each message
/// that was sent can be spelled. It does nothing when it runs.
pub fn messages_can_be_spelled()
    ensures runs { RunsSpell }
    ensures forms { RunsInFormSpell }
{}
