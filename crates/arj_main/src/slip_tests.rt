// What slips are told by.
ghost use Rattle.std.specs.Prelude.{◌≡◌, ◌<◌, ◌-◌, ◌||◌, nat_lt};
ghost use Rattle.std.specs.List.{list_all, list_any};
ghost use Rattle.std.specs.Str.{bytes_eq};
ghost use Rattle.arj_main.specs.Slips.{begins_with_byte, begins_with_mark, class_words, ends_with_byte, has_sign, has_two_spaces, header_words, is_control, is_event_word, is_label_text, is_no_node, is_number, is_one_of, is_strange_class, labelled_words, names_no_node, names_object, outer_words, small_number, some_has_number};
ghost use Rattle.arj_text.specs.Fields.{has_byte};
ghost use Rattle.arj_text.specs.Label.{is_digit, is_label, is_letter};

use arj_journal::ObjectLine;
use arj_text::LABEL_BYTES;
use arj_text::field::cut;

/// Whether a word is this text.
pub fn is(word: &[u8], text: &[u8]) -> bool
    ensures { result ≡ bytes_eq word.now text.now }
{
    word == text
}

/// Begins with the bytes of a byte order mark.
pub fn begins_with_mark(line: &[u8]) -> bool
    ensures { result ≡ begins_with_mark line.now }
{
    match line {
        [a, b, c, ..] => *a == 0xef && *b == 0xbb && *c == 0xbf,
        _ => false,
    }
}

/// A byte that has no picture.
pub fn has_control(line: &[u8]) -> bool
    ensures { result ≡ list_any is_control line.now }
{
    line.iter().any(|byte| *byte < 32 || *byte == 127)
}

/// A byte that isn't ASCII.
pub fn has_foreign(line: &[u8]) -> bool
    ensures { result ≡ list_any (λ b. nat_lt 127 b) line.now }
{
    line.iter().any(|byte| 127 < *byte)
}

/// A space behind another.
pub fn has_two_spaces(line: &[u8]) -> bool
    ensures { result ≡ has_two_spaces line.now }
{
    match line {
        [] => false,
        [first, rest @ ..] => (*first == 32 && starts_with(rest, 32)) || has_two_spaces(rest),
    }
}

/// The first byte is this one.
pub fn starts_with(line: &[u8], byte: u8) -> bool
    ensures { result ≡ begins_with_byte byte line.now }
{
    match line {
        [] => false,
        [first, ..] => *first == byte,
    }
}

/// The last byte is this one.
pub fn ends_with(line: &[u8], byte: u8) -> bool
    ensures { result ≡ ends_with_byte byte line.now }
{
    match line {
        [] => false,
        [last] => *last == byte,
        [_, rest @ ..] => ends_with(rest, byte),
    }
}

/// A byte stands in the line.
pub fn has(line: &[u8], byte: u8) -> bool
    ensures { result ≡ has_byte byte line.now }
{
    line.iter().any(|b| *b == byte)
}

/// A word that a header's line begins with.
pub fn is_header_word(word: &[u8]) -> bool
    ensures { result ≡ is_one_of header_words word.now }
{
    is(word, b"nodes") || is(word, b"format") || is(word, b"object") || is(word, b"run")
}

/// A word that an event begins with behind which a label stands.
pub fn is_labelled_word(word: &[u8]) -> bool
    ensures { result ≡ is_one_of labelled_words word.now }
{
    is(word, b"begin")
        || is(word, b"top")
        || is(word, b"serial")
        || is(word, b"call")
        || is(word, b"include")
        || is(word, b"commit")
        || is(word, b"abort")
        || is(word, b"giveup")
}

/// A word that an event begins with.
pub fn is_event_word(word: &[u8]) -> bool
    ensures { result ≡ is_event_word word.now }
{
    is_labelled_word(word) || is_outer_word(word)
}

// A word that an event begins with behind which no label stands.
fn is_outer_word(word: &[u8]) -> bool
    ensures { result ≡ is_one_of outer_words word.now }
{
    is(word, b"deliver")
        || is(word, b"lose")
        || is(word, b"tick")
        || is(word, b"settle")
        || is(word, b"quiesce")
        || is(word, b"crash")
        || is(word, b"restart")
        || is(word, b"stop")
        || is(word, b"junk")
        || is(word, b"show")
}

/// A word that stands for a class, and is none.
pub fn is_strange_class(word: &[u8]) -> bool
    ensures { result ≡ is_strange_class word.now }
{
    match word {
        [] => false,
        [_, ..] => !is_class(word),
    }
}

fn is_class(word: &[u8]) -> bool
    ensures { result ≡ is_one_of class_words word.now }
{
    is(word, b"counter")
        || is(word, b"account")
        || is(word, b"register")
        || is(word, b"queue")
        || is(word, b"table")
}

/// A list in which some number isn't one of so many nodes.
pub fn names_no_node(nodes: u8, list: &[u8]) -> bool
    ensures { result ≡ names_no_node nodes list.now }
{
    match cut(list, b',') {
        Some((item, behind)) => is_no_node(nodes, item) || names_no_node(nodes, behind),
        None => is_no_node(nodes, list),
    }
}

// A number that isn't one of so many nodes.
fn is_no_node(nodes: u8, item: &[u8]) -> bool
    ensures { result ≡ is_no_node nodes item.now }
{
    is_number(item) && (small_number(item) == 0 || u64::from(nodes) < small_number(item))
}

/// The number of one of these objects.
pub fn names_object(objects: &[ObjectLine], word: &[u8]) -> bool
    ensures { result ≡ names_object objects.now word.now }
{
    is_number(word) && has_number(objects, small_number(word))
}

// One of these objects has the number.
fn has_number(objects: &[ObjectLine], number: u64) -> bool
    ensures { result ≡ some_has_number number objects.now }
{
    objects.iter().any(|object| u64::from(object.x) == number)
}

// Digits alone, at least one.
fn is_number(word: &[u8]) -> bool
    ensures { result ≡ is_number word.now }
{
    0 < word.len() && are_digits(word)
}

fn are_digits(word: &[u8]) -> bool
    ensures { result ≡ list_all is_digit word.now }
{
    word.iter().all(|byte| byte.is_ascii_digit())
}

// What one to three digits say; 1000 for more, which is no node and no object.
fn small_number(digits: &[u8]) -> u64
    ensures { result ≡ small_number digits.now }
{
    match digits {
        [a] => digit(*a),
        [a, b] => digit(*a) * 10 + digit(*b),
        [a, b, c] => digit(*a) * 100 + digit(*b) * 10 + digit(*c),
        _ => 1000,
    }
}

// What a digit says.
fn digit(byte: u8) -> u64
    ensures value { result ≡ byte - 48 }
    ensures small { result < 256 }
{
    u64::from(byte.saturating_sub(b'0'))
}

/// A byte that is neither a letter nor a digit.
pub fn has_sign(word: &[u8]) -> bool
    ensures { result ≡ has_sign word.now }
{
    word.iter().any(|byte| !(byte.is_ascii_alphabetic() || byte.is_ascii_digit()))
}

/// A word that is a label.
pub fn is_label(word: &[u8]) -> bool
    ensures { result ≡ is_label_text word.now }
{
    word.len() <= LABEL_BYTES && spells_label(word)
}

// A letter, and letters or digits behind it.
fn spells_label(word: &[u8]) -> bool
    ensures { result ≡ is_label word.now }
{
    match word {
        [] => false,
        [first, rest @ ..] => first.is_ascii_alphabetic() && are_letters_or_digits(rest),
    }
}

fn are_letters_or_digits(bytes: &[u8]) -> bool
    ensures { result ≡ list_all (λ b. is_letter b || is_digit b) bytes.now }
{
    bytes
        .iter()
        .all(|byte| byte.is_ascii_alphabetic() || byte.is_ascii_digit())
}
