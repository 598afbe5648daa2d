// The forms of the lines, as they are told of.
use crate::slip_tests::is;

/// The form of an event that begins with this word.
pub fn form_of(word: &[u8]) -> Option<&'static str> {
    if is(word, b"begin") {
        return Some("begin L at N`, or `begin L in P");
    }
    if is(word, b"top") {
        return Some("top L in P");
    }
    if is(word, b"serial") {
        return Some("serial L at N");
    }
    if is(word, b"call") {
        return Some("call L X OP");
    }
    if is(word, b"include") {
        return Some("include L X N");
    }
    if is(word, b"stop") {
        return Some("stop N C none`, `stop N C done`, or `stop N C torn HEX");
    }
    if is(word, b"junk") {
        return Some("junk N HEX");
    }
    if is(word, b"show") {
        return Some("show X");
    }
    form_of_short(word)
}

// The form of an event that names an action, a frame or a node alone.
fn form_of_short(word: &[u8]) -> Option<&'static str> {
    if is(word, b"commit") {
        return Some("commit L");
    }
    if is(word, b"abort") {
        return Some("abort L");
    }
    if is(word, b"giveup") {
        return Some("giveup L");
    }
    if is(word, b"deliver") {
        return Some("deliver K`, or `deliver last");
    }
    if is(word, b"lose") {
        return Some("lose K`, or `lose last");
    }
    if is(word, b"tick") {
        return Some("tick N");
    }
    if is(word, b"settle") {
        return Some("settle");
    }
    if is(word, b"quiesce") {
        return Some("quiesce");
    }
    if is(word, b"crash") {
        return Some("crash N");
    }
    if is(word, b"restart") {
        return Some("restart N");
    }
    None
}
