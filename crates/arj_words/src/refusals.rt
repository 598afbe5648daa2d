// What refusals mean.

/// What a cause of a refusal means.
pub fn refusal_words(cause: u8) -> &'static str {
    match cause {
        1 => "unknown node: the header has no such node",
        2 => "node down: it halted and isn't up again",
        3 => "node up: only a node that is down restarts",
        4 => "label used: an accepted event gave this label",
        5 => "unknown label: no accepted event gave this label",
        6 => "ended: that action has ended, or its node halted since it began",
        7 => "waiting: the action, or one above or below it, waits for an answer",
        8 => "not waiting: there is nothing to give up",
        9 => "open children: an action that began in it is open",
        10 => "wrong parent: the parent is a serializing action",
        11 => "no calls: a serializing action calls nothing itself, its constituents do",
        12 => "doomed: a call was given up after it was sent to the server",
        13 => "unknown object: the header has no such object",
        14 => "wrong operation: the object's class lacks it",
        15 => "too deep: the parent's path has 16 actions",
        16 => "too many: the root has had 64 actions, or the object would be its seventeenth",
        17 => "no message: no frame has this number",
        18 => "a message: the bytes can be read as a message, so they are no junk",
        _ => "the journal says no more",
    }
}
