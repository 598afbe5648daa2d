// Sentences from patterns.
ghost use Rattle.arj_words.specs.Page.{Stays};

use crate::{Names, Page};
use arj_base::{Binding, Uid};
use arj_class::Op;

/// What stands in a sentence where its pattern has a mark.
#[derive(Clone, Copy)]
pub enum Word<'a> {
    Number(u64),
    Text(&'a [u8]),
    /// The label of an action, or its Uid where no line tells of it.
    Action(Uid),
    /// An object, or its entry.
    Object(Uid),
    Binding(Binding),
    Op(&'a Op),
    /// Nodes, joined by commas.
    Nodes(&'a [u8]),
    /// The number of a frame, and what it carries, if that is known.
    Frame(u32),
}

// Writes a Uid.
fn put_uid(page: &mut Page, uid: Uid)
    ensures { Stays page.old.bytes page.new.bytes }
{
    page.number(u64::from(uid.node));
    page.put(b".");
    page.number(u64::from(uid.inc));
    page.put(b".");
    page.number(uid.num);
}

// Writes the label of an action.
fn put_action(page: &mut Page, names: &Names, uid: Uid)
    ensures { Stays page.old.bytes page.new.bytes }
{
    match names.label_of(&uid) {
        Some(label) => page.put(label.as_bytes()),
        None => put_uid(page, uid),
    }
}

// Writes an object or an entry.
fn put_object(page: &mut Page, uid: Uid)
    ensures { Stays page.old.bytes page.new.bytes }
{
    if uid.inc == 1 {
        page.put(b"the entry of ");
    }
    page.put(b"object ");
    page.number(uid.num);
}

// Writes a binding.
fn put_binding(page: &mut Page, binding: Binding)
    ensures { Stays page.old.bytes page.new.bytes }
{
    page.number(u64::from(binding.inc));
    page.put(b".");
    page.number(u64::from(binding.count));
}

// Writes nodes, with a comma between them.
fn put_nodes(page: &mut Page, nodes: &[u8])
    ensures { Stays page.old.bytes page.new.bytes }
{
    for (at, node) in nodes.iter().enumerate() {
        put_comma(page, at);
        page.number(u64::from(*node));
    }
}

// Writes a comma before all but the first.
fn put_comma(page: &mut Page, at: usize)
    ensures { Stays page.old.bytes page.new.bytes }
{
    if at > 0 {
        page.put(b",");
    }
}

// Writes a frame's number, and what it carries.
fn put_frame(page: &mut Page, names: &Names, number: u32)
    ensures { Stays page.old.bytes page.new.bytes }
{
    page.number(u64::from(number));
    if let Some(frame) = names.frame(number) {
        page.put(b", ");
        page.put(frame.word());
        page.put(b",");
    }
}

// Writes a word.
fn put_word(page: &mut Page, names: &Names, word: Word)
    ensures { Stays page.old.bytes page.new.bytes }
{
    match word {
        Word::Number(n) => page.number(n),
        Word::Text(bytes) => page.put(bytes),
        Word::Action(uid) => put_action(page, names, uid),
        Word::Object(uid) => put_object(page, uid),
        Word::Binding(binding) => put_binding(page, binding),
        Word::Op(op) => page.op(op),
        Word::Nodes(nodes) => put_nodes(page, nodes),
        Word::Frame(number) => put_frame(page, names, number),
    }
}

// Writes the word at a place, if there is one.
fn put_word_at(page: &mut Page, names: &Names, words: &[Word], at: usize)
    ensures { Stays page.old.bytes page.new.bytes }
{
    if let Some(word) = words.get(at) {
        put_word(page, names, *word);
    }
}

/// Writes a pattern, with the next word at each `@`.
pub fn say(page: &mut Page, names: &Names, pattern: &[u8], words: &[Word])
    ensures { Stays page.old.bytes page.new.bytes }
{
    let mut next: usize = 0;
    for byte in pattern {
        if *byte == b'@' {
            put_word_at(page, names, words, next);
            next = next.saturating_add(1);
        } else {
            page.put(&[*byte]);
        }
    }
}
