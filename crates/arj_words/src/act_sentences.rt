// Sentences for what actions do.
ghost use Rattle.arj_words.specs.Page.{Stays};

use crate::cause_words::{say_cause, say_difference};
use crate::node_sentences::say_node;
use crate::{Names, Page, Word, say};
use arj_journal::{Body, Kind, Label};
use arj_text::words::mode_word;

// What an action of a kind is.
fn kind_words(kind: Kind) -> &'static [u8] {
    match kind {
        Kind::Top => b"a top-level action",
        Kind::Nested => b"a nested action",
        Kind::Independent => b"an independent top-level action",
        Kind::Serial => b"a serializing action",
        Kind::Constituent => b"a constituent",
    }
}

// Says that an action began.
fn say_began(page: &mut Page, names: &Names, label: &Label, kind: Kind, parent: &Option<Label>)
    ensures { Stays page.old.bytes page.new.bytes }
{
    let (own, kind) = (Word::Text(label.as_bytes()), Word::Text(kind_words(kind)));
    match parent {
        None => say(page, names, b"@ begins, @", &[own, kind]),
        Some(parent) => say(
            page,
            names,
            b"@ begins in @, @",
            &[own, Word::Text(parent.as_bytes()), kind],
        ),
    }
}

// Says an answer.
fn say_ok(page: &mut Page, names: &Names, words: &[Word], answer: &[u8])
    ensures { Stays page.old.bytes page.new.bytes }
{
    say(page, names, b"@: @ on object @ is answered ", words);
    page.put(answer);
}

// Says what a call or an include of an action met, or how it ended.
fn say_met(page: &mut Page, names: &Names, body: &Body)
    ensures { Stays page.old.bytes page.new.bytes }
{
    match body {
        Body::Includes { label, x, node } => say(
            page,
            names,
            b"@ includes store @ for object @",
            &[
                Word::Text(label.as_bytes()),
                Word::Number(u64::from(*node)),
                Word::Number(u64::from(*x)),
            ],
        ),
        Body::Conflict {
            label,
            holder,
            mode,
            node,
        } => say(
            page,
            names,
            b"@ meets the @ lock of @ at node @, or what is in doubt of it there",
            &[
                Word::Text(label.as_bytes()),
                Word::Text(mode_word(*mode)),
                Word::Action(*holder),
                Word::Number(u64::from(*node)),
            ],
        ),
        Body::Lost { label, node } => say(
            page,
            names,
            b"@: what it asked of node @ is given up",
            &[Word::Text(label.as_bytes()), Word::Number(u64::from(*node))],
        ),
        Body::Changed {
            label,
            node,
            difference,
        } => {
            say(
                page,
                names,
                b"@ finds node @ changed: ",
                &[Word::Text(label.as_bytes()), Word::Number(u64::from(*node))],
            );
            say_difference(page, names, *difference);
        }
        _ => say_node(page, names, body),
    }
}

// Says how an action ends.
fn say_end(page: &mut Page, names: &Names, body: &Body)
    ensures { Stays page.old.bytes page.new.bytes }
{
    match body {
        Body::Committing { label } => say(
            page,
            names,
            b"the commit of @ is called",
            &[Word::Text(label.as_bytes())],
        ),
        Body::Committed { label } => say(
            page,
            names,
            b"@ is committed",
            &[Word::Text(label.as_bytes())],
        ),
        Body::Ended { label } => say(
            page,
            names,
            b"the serializing action @ has ended",
            &[Word::Text(label.as_bytes())],
        ),
        Body::Aborted { label, cause } => {
            say(
                page,
                names,
                b"@ is aborted: ",
                &[Word::Text(label.as_bytes())],
            );
            say_cause(page, names, *cause);
        }
        Body::GaveUp { label, node } => say(
            page,
            names,
            b"@ gives up what it waits for at node @",
            &[Word::Text(label.as_bytes()), Word::Number(u64::from(*node))],
        ),
        Body::Excluded { label, x, node } => say(
            page,
            names,
            b"the commit of @ sets out to exclude store @ of object @",
            &[
                Word::Text(label.as_bytes()),
                Word::Number(u64::from(*node)),
                Word::Number(u64::from(*x)),
            ],
        ),
        _ => say_met(page, names, body),
    }
}

/// Says what an action does, or what a node does.
pub fn say_act(page: &mut Page, names: &Names, body: &Body)
    ensures { Stays page.old.bytes page.new.bytes }
{
    match body {
        Body::Began {
            label,
            kind,
            parent,
            ..
        } => say_began(page, names, label, *kind, parent),
        Body::Ok {
            label,
            x,
            op,
            answer,
        } => say_ok(
            page,
            names,
            &[
                Word::Text(label.as_bytes()),
                Word::Op(op),
                Word::Number(u64::from(*x)),
            ],
            answer.as_slice(),
        ),
        _ => say_end(page, names, body),
    }
}
