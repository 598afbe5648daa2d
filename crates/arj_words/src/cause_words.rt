// Why an action aborted, and what was changed.
ghost use Rattle.arj_words.specs.Page.{Stays};

use crate::{Names, Page, Word, say};
use arj_journal::{Cause, Difference};
use arj_text::words::mode_word;

/// Says what was had and what is there now.
pub fn say_difference(page: &mut Page, names: &Names, difference: Difference)
    ensures { Stays page.old.bytes page.new.bytes }
{
    match difference {
        Difference::Inc { had, now } => say(
            page,
            names,
            b"incarnation @ is now @",
            &[Word::Number(u64::from(had)), Word::Number(u64::from(now))],
        ),
        Difference::Bind { had, now } => say(
            page,
            names,
            b"binding @ is now @",
            &[Word::Binding(had), Word::Binding(now)],
        ),
    }
}

// Says that a node was found changed.
fn say_changed(page: &mut Page, names: &Names, node: u8, difference: Difference)
    ensures { Stays page.old.bytes page.new.bytes }
{
    say(
        page,
        names,
        b"node @ had changed: ",
        &[Word::Number(u64::from(node))],
    );
    say_difference(page, names, difference);
}

/// Says why an action aborted.
pub fn say_cause(page: &mut Page, names: &Names, cause: Cause)
    ensures { Stays page.old.bytes page.new.bytes }
{
    match cause {
        Cause::Asked => page.put(b"the script asked for it"),
        Cause::Doomed => page.put(b"a call of it was given up after its request had gone out"),
        Cause::Lost { node } => say(
            page,
            names,
            b"the answer of node @ was given up",
            &[Word::Number(u64::from(node))],
        ),
        Cause::Conflict { holder, mode, node } => say(
            page,
            names,
            b"it met the @ lock of @ at node @, or what is in doubt of it there",
            &[
                Word::Text(mode_word(mode)),
                Word::Action(holder),
                Word::Number(u64::from(node)),
            ],
        ),
        Cause::Changed { node, difference } => say_changed(page, names, node, difference),
        Cause::Old { node, x, version } => say(
            page,
            names,
            b"store @ has version @ of object @ already",
            &[
                Word::Number(u64::from(node)),
                Word::Number(version),
                Word::Number(u64::from(x)),
            ],
        ),
        Cause::NoStores { x } => say(
            page,
            names,
            b"no store of object @ would be left",
            &[Word::Number(u64::from(x))],
        ),
        Cause::Listed { x, node } => say(
            page,
            names,
            b"store @ is listed for object @ already",
            &[Word::Number(u64::from(node)), Word::Number(u64::from(x))],
        ),
    }
}
