// The usual slips in a line.
ghost use Rattle.std.specs.Prelude.{◌≡◌};
ghost use Rattle.arj_main.specs.Slips.{event_slips, first_slip, header_slips, slip_at, start_slips, text_slips};

use crate::Place;
use crate::pieces::word_at;
use crate::slip_tests::{
    begins_with_mark, ends_with, has, has_control, has_foreign, has_sign, has_two_spaces, is,
    is_event_word, is_header_word, is_label, is_labelled_word, is_strange_class, names_no_node,
    names_object, starts_with,
};
use arj_journal::Header;
use thiserror::Error;

/// A slip that is often made in a line.
#[derive(Clone, Copy, Debug, Error)]
pub enum Slip {
    #[error("the line begins with a byte order mark (the bytes EF BB BF), which stands for nothing here: save the script without it")]
    Mark,
    #[error("the line ends with a carriage return (CRLF): lines end with a line feed alone")]
    CarriageReturn,
    #[error("there is a tab: words are separated by one space")]
    Tab,
    #[error("there is a control character, as a zero byte")]
    Control,
    #[error("the line begins with a space: nothing is indented")]
    SpaceFirst,
    #[error("the line ends with a space")]
    SpaceLast,
    #[error("there are two spaces, one behind the other: words are separated by one")]
    TwoSpaces,
    #[error("there is a byte that isn't ASCII: only comments have others")]
    Foreign,
    #[error("a comment stands on a line of its own, which begins with `#`")]
    Comment,
    #[error("this is an event, and events stand behind the line `run`, which hasn't come yet")]
    EventBeforeRun,
    #[error("the line `nodes N` comes first, and it hasn't come yet")]
    NoNodes,
    #[error("the line `nodes` has come before, and comes once")]
    NodesTwice,
    #[error("in a header the line `format 1` stands once, before all objects")]
    Format,
    #[error("the class is unknown: there are counter, account, register, queue and table")]
    UnknownClass,
    #[error("a server or a store is no node of this script")]
    NoNode,
    #[error("an object with this number has come before: each is named once")]
    ObjectTwice,
    #[error("the line `run` has come before: behind it stand events alone")]
    HeaderBehindRun,
    #[error("a label has a byte that is neither a letter nor a digit")]
    LabelSign,
    #[error("a label is a letter, and at most 15 letters or digits behind it")]
    LabelForm,
    #[error("no line begins with this word here")]
    UnknownWord,
}

/// The slip that a bad line is named for: the first of the list that the line has at its place, or none of them.
pub fn slip_of(line: &[u8], place: &Place) -> Option<Slip>
    ensures { result ≡ slip_at place.now line.now }
{
    if let Some(slip) = text_slip(line) {
        return Some(slip);
    }
    match place {
        Place::Start => start_slip(line),
        Place::Header(header) => header_slip(header, line),
        Place::Running => event_slip(line),
    }
}

/// The first slip of its text alone.
pub fn text_slip(line: &[u8]) -> Option<Slip>
    ensures { result ≡ first_slip (text_slips line.now) }
{
    if begins_with_mark(line) {
        return Some(Slip::Mark);
    }
    if ends_with(line, b'\r') {
        return Some(Slip::CarriageReturn);
    }
    if has(line, b'\t') {
        return Some(Slip::Tab);
    }
    if has_control(line) {
        return Some(Slip::Control);
    }
    if starts_with(line, b' ') {
        return Some(Slip::SpaceFirst);
    }
    if ends_with(line, b' ') {
        return Some(Slip::SpaceLast);
    }
    if has_two_spaces(line) {
        return Some(Slip::TwoSpaces);
    }
    if has_foreign(line) {
        return Some(Slip::Foreign);
    }
    if has(line, b'#') {
        return Some(Slip::Comment);
    }
    None
}

// The first slip before the header.
fn start_slip(line: &[u8]) -> Option<Slip>
    ensures { result ≡ first_slip (start_slips line.now) }
{
    let first = word_at(line, 0);
    if is_event_word(first) {
        return Some(Slip::EventBeforeRun);
    }
    if !is(first, b"nodes") {
        return Some(Slip::NoNodes);
    }
    None
}

// The first slip in a header.
fn header_slip(header: &Header, line: &[u8]) -> Option<Slip>
    ensures { result ≡ first_slip (header_slips header.now line.now) }
{
    let first = word_at(line, 0);
    if is_event_word(first) {
        return Some(Slip::EventBeforeRun);
    }
    if is(first, b"nodes") {
        return Some(Slip::NodesTwice);
    }
    if is(first, b"format") {
        return Some(Slip::Format);
    }
    if !is_header_word(first) {
        return Some(Slip::UnknownWord);
    }
    if is_strange_class(word_at(line, 2)) {
        return Some(Slip::UnknownClass);
    }
    if names_no_node(header.nodes, word_at(line, 5)) {
        return Some(Slip::NoNode);
    }
    if names_no_node(header.nodes, word_at(line, 7)) {
        return Some(Slip::NoNode);
    }
    if names_object(header.objects.as_slice(), word_at(line, 1)) {
        return Some(Slip::ObjectTwice);
    }
    None
}

// The first slip behind `run`.
fn event_slip(line: &[u8]) -> Option<Slip>
    ensures { result ≡ first_slip (event_slips line.now) }
{
    let first = word_at(line, 0);
    if is_header_word(first) {
        return Some(Slip::HeaderBehindRun);
    }
    if !is_event_word(first) {
        return Some(Slip::UnknownWord);
    }
    if is_labelled_word(first) && has_sign(word_at(line, 1)) {
        return Some(Slip::LabelSign);
    }
    if is_labelled_word(first) && !is_label(word_at(line, 1)) {
        return Some(Slip::LabelForm);
    }
    None
}
