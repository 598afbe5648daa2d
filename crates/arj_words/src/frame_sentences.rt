// Sentences for frames.
ghost use Rattle.arj_words.specs.Page.{Stays};

use crate::{Frame, Names, Page, Word, say};
use arj_journal::Body;

// Says that a frame went.
fn say_sent(page: &mut Page, names: &Names, number: u32, frame: Frame)
    ensures { Stays page.old.bytes page.new.bytes }
{
    say(
        page,
        names,
        b"frame @, @, goes from node @ to node @",
        &[
            Word::Number(u64::from(number)),
            Word::Text(frame.word()),
            Word::Number(u64::from(frame.from)),
            Word::Number(u64::from(frame.to)),
        ],
    );
}

/// Says what becomes of a frame; nothing of other lines.
pub fn say_frame(page: &mut Page, names: &Names, body: &Body)
    ensures { Stays page.old.bytes page.new.bytes }
{
    match body {
        Body::Sent {
            frame,
            from,
            to,
            kind,
        } => say_sent(
            page,
            names,
            *frame,
            Frame {
                from: *from,
                to: *to,
                kind: *kind,
            },
        ),
        Body::Got { frame } => say(page, names, b"frame @ is delivered", &[Word::Frame(*frame)]),
        Body::Void { frame } => say(
            page,
            names,
            b"frame @ comes and has no effect",
            &[Word::Frame(*frame)],
        ),
        Body::Dropped { frame } => say(page, names, b"frame @ is lost", &[Word::Frame(*frame)]),
        _ => {}
    }
}
