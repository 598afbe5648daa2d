// Sentences for what nodes do.
ghost use Rattle.arj_words.specs.Page.{Stays};

use crate::frame_sentences::say_frame;
use crate::state_words::put_payload;
use crate::{Names, Page, Word, refusal_words, say};
use arj_base::{End, Uid};
use arj_journal::{Body, Part, Role, Which};
use arj_text::words::mode_word;

// What an end is.
fn end_words(end: End) -> &'static [u8] {
    match end {
        End::Commit => b"commit",
        End::Abort => b"abort",
    }
}

// What a part is.
fn part_words(part: Part) -> &'static [u8] {
    match part {
        Part::Naming => b"naming",
        Part::Server => b"the server",
    }
}

// What is prepared in a role.
fn role_words(role: Role) -> &'static [u8] {
    match role {
        Role::Store => b"states",
        Role::Names => b"entries",
    }
}

// What a limit is of.
fn limit_words(which: Which) -> &'static [u8] {
    match which {
        Which::Lines => b"script lines",
        Which::Labels => b"labels",
        Which::Frames => b"frames",
    }
}

// Says something of a node and an action.
fn say_of(page: &mut Page, names: &Names, pattern: &[u8], node: u8, action: Uid)
    ensures { Stays page.old.bytes page.new.bytes }
{
    say(
        page,
        names,
        pattern,
        &[Word::Number(u64::from(node)), Word::Action(action)],
    );
}

// Says what of the locks and copies at a node changes.
fn say_lock(page: &mut Page, names: &Names, body: &Body)
    ensures { Stays page.old.bytes page.new.bytes }
{
    match body {
        Body::Granted {
            node,
            action,
            object,
            mode,
        } => say(
            page,
            names,
            b"node @: @ gets the @ lock on @",
            &[
                Word::Number(u64::from(*node)),
                Word::Action(*action),
                Word::Text(mode_word(*mode)),
                Word::Object(*object),
            ],
        ),
        Body::Lowered {
            node,
            action,
            object,
        } => say(
            page,
            names,
            b"node @: the write lock of @ on @ becomes a read lock",
            &[
                Word::Number(u64::from(*node)),
                Word::Action(*action),
                Word::Object(*object),
            ],
        ),
        Body::Bound { x, binding, node } => say(
            page,
            names,
            b"naming binds object @ to server @, binding @",
            &[
                Word::Number(u64::from(*x)),
                Word::Number(u64::from(*node)),
                Word::Binding(*binding),
            ],
        ),
        Body::Active { node, x, binding } => say(
            page,
            names,
            b"node @ takes a copy of object @, binding @",
            &[
                Word::Number(u64::from(*node)),
                Word::Number(u64::from(*x)),
                Word::Binding(*binding),
            ],
        ),
        _ => say_frame(page, names, body),
    }
}

// Says what a node prepares, does and is told.
fn say_prepared(page: &mut Page, names: &Names, body: &Body)
    ensures { Stays page.old.bytes page.new.bytes }
{
    match body {
        Body::Told {
            node,
            action,
            end,
            part,
        } => say(
            page,
            names,
            b"node @: @ ends the locks of @, by its @",
            &[
                Word::Number(u64::from(*node)),
                Word::Text(part_words(*part)),
                Word::Action(*action),
                Word::Text(end_words(*end)),
            ],
        ),
        Body::Prepared { node, action, role } => say(
            page,
            names,
            b"node @ prepares the new @ of @",
            &[
                Word::Number(u64::from(*node)),
                Word::Text(role_words(*role)),
                Word::Action(*action),
            ],
        ),
        Body::Done {
            node,
            action,
            role,
            end,
        } => say(
            page,
            names,
            b"node @: the prepared @ of @ are done, by its @",
            &[
                Word::Number(u64::from(*node)),
                Word::Text(role_words(*role)),
                Word::Action(*action),
                Word::Text(end_words(*end)),
            ],
        ),
        Body::Recovered { node, action } => {
            say_of(
                page,
                names,
                b"node @ finds the record of the commit of @",
                *node,
                *action,
            );
        }
        _ => say_lock(page, names, body),
    }
}

// Says what is shown of an object.
fn say_shown(page: &mut Page, names: &Names, body: &Body)
    ensures { Stays page.old.bytes page.new.bytes }
{
    match body {
        Body::Entry {
            x,
            version,
            servers,
            stores,
        } => say(
            page,
            names,
            b"naming has of object @: version @, servers @, stores @",
            &[
                Word::Number(u64::from(*x)),
                Word::Number(*version),
                Word::Nodes(servers.as_slice()),
                Word::Nodes(stores.as_slice()),
            ],
        ),
        Body::Copy {
            node,
            x,
            version,
            writer,
            payload,
        } => {
            say(
                page,
                names,
                b"store @ has of object @: version @ by @, ",
                &[
                    Word::Number(u64::from(*node)),
                    Word::Number(u64::from(*x)),
                    Word::Number(*version),
                    Word::Action(*writer),
                ],
            );
            put_payload(page, names, *x, payload.as_slice());
        }
        _ => say_prepared(page, names, body),
    }
}

// Says that all nodes are idle, or not.
fn say_quiet(page: &mut Page, yes: bool)
    ensures { Stays page.old.bytes page.new.bytes }
{
    if yes {
        page.put(b"every node is idle");
    } else {
        page.put(b"not every node is idle");
    }
}

/// Says how a node stands, or what it does.
pub fn say_node(page: &mut Page, names: &Names, body: &Body)
    ensures { Stays page.old.bytes page.new.bytes }
{
    match body {
        Body::Halted { node } => say(
            page,
            names,
            b"node @ halts",
            &[Word::Number(u64::from(*node))],
        ),
        Body::Up { node, inc } => say(
            page,
            names,
            b"node @ is up, in incarnation @",
            &[
                Word::Number(u64::from(*node)),
                Word::Number(u64::from(*inc)),
            ],
        ),
        Body::Armed { node } => say(
            page,
            names,
            b"a stop of the disk of node @ is armed",
            &[Word::Number(u64::from(*node))],
        ),
        Body::Refused { cause } => say(
            page,
            names,
            b"refused: @",
            &[Word::Text(refusal_words(*cause).as_bytes())],
        ),
        Body::Quiet { yes } => say_quiet(page, *yes),
        Body::Bad { line } => say(
            page,
            names,
            b"line @ of the script is not in the grammar",
            &[Word::Number(u64::from(*line))],
        ),
        Body::Limit { which } => say(
            page,
            names,
            b"the limit of @ is met",
            &[Word::Text(limit_words(*which))],
        ),
        _ => say_shown(page, names, body),
    }
}
