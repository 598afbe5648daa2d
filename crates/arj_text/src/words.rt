// Writers of the words that scripts and journals share. Each puts its text at the end of what is there.
ghost use Rattle.std.specs.Prelude.{◌≡◌, ◌∷◌, ◌++◌, ◌<◌, OnOk, IfOk, codes};
ghost use Rattle.std.specs.List.{flat_map};
ghost use Rattle.std.specs.Fmt.{decimal};
ghost use Rattle.arj_text.specs.Words.{space, number_word, hex, hex_pair, hex_digit, behind_comma, decimals};
ghost use Rattle.arj_text.specs.Words.{list_text, mode_text, end_text, op_text, answer_text as text_of_answer};
ghost use Rattle.arj_text.specs.Words.{class_text, gone_text, value_text, numbers_text, pair_texts, pairs_text};

use arj_base::{Bytes, Class, End, Mode};
use arj_class::{Answer, Op, Queue, Value};
use std::alloc::{AllocError, Global};

/// Puts the text of an answer at the end.
pub fn put_answer(out: &mut Bytes, answer: &Answer) -> Result<(), AllocError>
    ensures { OnOk result (out.new ≡ out.old ++ text_of_answer answer.now) }
{
    match answer {
        Answer::Done => out.extend(b"done"),
        Answer::Number(n) => put_decimal(out, *n),
        Answer::Text(bytes) => put_hex(out, bytes.as_slice()),
        Answer::Over => out.extend(b"over"),
        Answer::Short => out.extend(b"short"),
        Answer::Full => out.extend(b"full"),
        Answer::Nothing => out.extend(b"none"),
        Answer::There => out.extend(b"there"),
        Answer::Gone => out.extend(b"gone"),
    }
}

/// The text of an answer, as an `ok` line keeps it.
pub fn answer_text(alloc: Global, answer: &Answer) -> Result<Bytes, AllocError>
    ensures { IfOk result (λ text. text ≡ text_of_answer answer.now) }
{
    let mut text = Bytes::new(alloc);
    put_answer(&mut text, answer)?;
    Ok(text)
}

/// An operation with its arguments.
pub fn put_op(out: &mut Bytes, op: &Op) -> Result<(), AllocError>
    ensures { OnOk result (out.new ≡ out.old ++ op_text op.now) }
{
    match op {
        Op::Get => out.extend(b"get"),
        Op::Add(n) => put_numbered(out, b"add", *n),
        Op::Set(n) => put_numbered(out, b"set", *n),
        Op::Put(bytes) => put_put(out, bytes.as_slice()),
        Op::Deposit(n) => put_numbered(out, b"deposit", *n),
        Op::Withdraw(n) => put_numbered(out, b"withdraw", *n),
        Op::Len => out.extend(b"len"),
        Op::Push(n) => put_numbered(out, b"push", *n),
        Op::Pop => out.extend(b"pop"),
        Op::GetKey(key) => put_numbered(out, b"get", *key),
        Op::PutPair(key, value) => put_put_pair(out, *key, *value),
        Op::Remove(key) => put_numbered(out, b"remove", *key),
        Op::Create(value) => put_create(out, value),
        Op::Destroy => out.extend(b"destroy"),
    }
}

#[tactic(auto, using(std::proofs::lemmas::List::append_assoc))]
fn put_put(out: &mut Bytes, bytes: &[u8]) -> Result<(), AllocError>
    ensures { OnOk result (out.new ≡ out.old ++ op_text (Op.Put bytes.now)) }
{
    out.extend(b"put ")?;
    put_hex(out, bytes)
}

#[tactic(auto, using(std::proofs::lemmas::List::append_assoc))]
fn put_put_pair(out: &mut Bytes, key: u64, value: u64) -> Result<(), AllocError>
    ensures { OnOk result (out.new ≡ out.old ++ op_text (Op.PutPair key value)) }
{
    put_numbered(out, b"put", key)?;
    put_number(out, value)
}

#[tactic(auto, using(std::proofs::lemmas::List::append_assoc))]
fn put_create(out: &mut Bytes, value: &Value) -> Result<(), AllocError>
    ensures { OnOk result (out.new ≡ out.old ++ op_text (Op.Create value.now)) }
{
    out.extend(b"create ")?;
    put_value(out, value)
}

/// The class and the value of an object.
pub fn put_value(out: &mut Bytes, value: &Value) -> Result<(), AllocError>
    ensures { OnOk result (out.new ≡ out.old ++ value_text value.now) }
{
    match value {
        Value::Counter(counter) => put_numbered(out, b"counter", counter.number()),
        Value::Register(register) => put_register(out, register.bytes()),
        Value::Account(account) => put_numbered(out, b"account", account.balance()),
        Value::Queue(queue) => put_queue(out, queue),
        Value::Table(table) => put_table(out, table.pairs()),
        Value::Gone(gone) => put_gone(out, gone.class()),
    }
}

// The word of a class of objects.
fn class_word(class: Class) -> &'static [u8]
    ensures { result.now ≡ class_text class }
{
    match class {
        Class::Counter => b"counter",
        Class::Register => b"register",
        Class::Account => b"account",
        Class::Queue => b"queue",
        Class::Table => b"table",
        Class::Entry | Class::Gone => b"",
    }
}

#[tactic(auto, using(std::proofs::lemmas::List::append_assoc))]
fn put_gone(out: &mut Bytes, class: Class) -> Result<(), AllocError>
    ensures { OnOk result (out.new ≡ out.old ++ gone_text class) }
{
    out.extend(class_word(class))?;
    out.extend(b" gone")
}

#[tactic(auto, using(std::proofs::lemmas::List::append_assoc))]
fn put_register(out: &mut Bytes, bytes: &[u8]) -> Result<(), AllocError>
    ensures { OnOk result (out.new ≡ out.old ++ (codes "register " ++ hex bytes.now)) }
{
    out.extend(b"register ")?;
    put_hex(out, bytes)
}

#[tactic(auto, using(std::proofs::lemmas::List::append_assoc))]
fn put_queue(out: &mut Bytes, queue: &Queue) -> Result<(), AllocError>
    ensures { OnOk result (out.new ≡ out.old ++ (codes "queue " ++ numbers_text queue.now)) }
{
    out.extend(b"queue ")?;
    let (front, back) = queue.as_slices();
    match front {
        [] => out.extend(b"-"),
        [first, rest @ ..] => put_numbers(out, *first, rest, back),
    }
}

// A number, and those of two parts, joined by commas.
#[tactic(auto, using(std::proofs::lemmas::List::append_assoc, crate::proofs::ListItems::numbers_behind_commas))]
fn put_numbers(out: &mut Bytes, first: u64, rest: &[u64], back: &[u64]) -> Result<(), AllocError>
    ensures { OnOk result (out.new ≡ out.old ++ list_text (first ∷ (rest.now ++ back.now))) }
{
    put_decimal(out, first)?;
    put_more_numbers(out, rest)?;
    put_more_numbers(out, back)
}

// Numbers, each behind a comma.
#[tactic(auto, using(std::proofs::lemmas::List::append_assoc))]
fn put_more_numbers(out: &mut Bytes, numbers: &[u64]) -> Result<(), AllocError>
    ensures { OnOk result (out.new ≡ out.old ++ flat_map behind_comma (decimals numbers.now)) }
{
    for n in numbers {
        out.extend(b",")?;
        put_decimal(out, *n)?;
    }
    Ok(())
}

#[tactic(auto, using(std::proofs::lemmas::List::append_assoc))]
fn put_table(out: &mut Bytes, pairs: &[(u64, u64)]) -> Result<(), AllocError>
    ensures { OnOk result (out.new ≡ out.old ++ (codes "table " ++ pairs_text pairs.now)) }
{
    out.extend(b"table ")?;
    match pairs {
        [] => out.extend(b"-"),
        [first, rest @ ..] => {
            put_pair(out, *first)?;
            put_more_pairs(out, rest)
        }
    }
}

// Pairs, each behind a comma.
#[tactic(auto, using(std::proofs::lemmas::List::append_assoc))]
fn put_more_pairs(out: &mut Bytes, pairs: &[(u64, u64)]) -> Result<(), AllocError>
    ensures { OnOk result (out.new ≡ out.old ++ flat_map behind_comma (pair_texts pairs.now)) }
{
    for pair in pairs {
        out.extend(b",")?;
        put_pair(out, *pair)?;
    }
    Ok(())
}

// A key, a colon and its value.
#[tactic(auto, using(std::proofs::lemmas::List::append_assoc))]
fn put_pair(out: &mut Bytes, pair: (u64, u64)) -> Result<(), AllocError>
    ensures { OnOk result (out.new ≡ out.old ++ (decimal pair.0 ++ (codes ":" ++ decimal pair.1))) }
{
    let (key, value) = pair;
    put_decimal(out, key)?;
    out.extend(b":")?;
    put_decimal(out, value)
}

/// A word and a number behind it.
#[tactic(auto, using(std::proofs::lemmas::List::append_assoc))]
pub fn put_numbered(out: &mut Bytes, word: &[u8], n: u64) -> Result<(), AllocError>
    ensures { OnOk result (out.new ≡ out.old ++ (word.now ++ number_word n)) }
{
    out.extend(word)?;
    put_number(out, n)
}

/// A space and a number.
#[tactic(auto, using(std::proofs::lemmas::List::append_assoc))]
pub fn put_number(out: &mut Bytes, n: u64) -> Result<(), AllocError>
    ensures { OnOk result (out.new ≡ out.old ++ number_word n) }
{
    out.extend(b" ")?;
    put_decimal(out, n)
}

/// A space and a word.
#[tactic(auto, using(std::proofs::lemmas::List::append_assoc))]
pub fn put_word(out: &mut Bytes, word: &[u8]) -> Result<(), AllocError>
    ensures { OnOk result (out.new ≡ out.old ++ (space ++ word.now)) }
{
    out.extend(b" ")?;
    out.extend(word)
}

/// A number, without leading zeros.
pub fn put_decimal(out: &mut Bytes, n: u64) -> Result<(), AllocError>
    ensures { OnOk result (out.new ≡ out.old ++ decimal n) }
{
    out.extend_decimal(n)
}

/// Two digits a byte, or `-` for no bytes.
#[tactic(auto, using(std::proofs::lemmas::List::append_assoc))]
pub fn put_hex(out: &mut Bytes, bytes: &[u8]) -> Result<(), AllocError>
    ensures { OnOk result (out.new ≡ out.old ++ hex bytes.now) }
{
    match bytes {
        [] => out.extend(b"-"),
        [first, rest @ ..] => {
            put_hex_pair(out, *first)?;
            put_hex_pairs(out, rest)
        }
    }
}

#[tactic(auto, using(std::proofs::lemmas::List::append_assoc))]
fn put_hex_pairs(out: &mut Bytes, bytes: &[u8]) -> Result<(), AllocError>
    ensures { OnOk result (out.new ≡ out.old ++ flat_map hex_pair bytes.now) }
{
    for byte in bytes {
        put_hex_pair(out, *byte)?;
    }
    Ok(())
}

fn put_hex_pair(out: &mut Bytes, byte: u8) -> Result<(), AllocError>
    ensures { OnOk result (out.new ≡ out.old ++ hex_pair byte) }
{
    out.extend(&[digit(byte / 16), digit(byte % 16)])
}

// A hexadecimal digit.
fn digit(n: u8) -> u8
    requires { n < 16 }
    ensures { result ≡ hex_digit n }
{
    if n < 10 { b'0' + n } else { b'a' + (n - 10) }
}

/// Nodes, joined by commas.
#[tactic(auto, using(std::proofs::lemmas::List::append_assoc))]
pub fn put_list(out: &mut Bytes, nodes: &[u8]) -> Result<(), AllocError>
    ensures { OnOk result (out.new ≡ out.old ++ list_text nodes.now) }
{
    match nodes {
        [] => Ok(()),
        [first, rest @ ..] => {
            put_decimal(out, u64::from(*first))?;
            put_more_nodes(out, rest)
        }
    }
}

// Nodes, each behind a comma.
#[tactic(auto, using(std::proofs::lemmas::List::append_assoc))]
fn put_more_nodes(out: &mut Bytes, nodes: &[u8]) -> Result<(), AllocError>
    ensures { OnOk result (out.new ≡ out.old ++ flat_map behind_comma (decimals nodes.now)) }
{
    for node in nodes {
        put_behind_comma(out, *node)?;
    }
    Ok(())
}

#[tactic(auto, using(std::proofs::lemmas::List::append_assoc))]
fn put_behind_comma(out: &mut Bytes, node: u8) -> Result<(), AllocError>
    ensures { OnOk result (out.new ≡ out.old ++ behind_comma (decimal node)) }
{
    out.extend(b",")?;
    put_decimal(out, u64::from(node))
}

/// The name of a lock mode.
pub fn mode_word(mode: Mode) -> &'static [u8]
    ensures { result.now ≡ mode_text mode }
{
    match mode {
        Mode::Read => b"read",
        Mode::Exclude => b"exclude",
        Mode::Write => b"write",
    }
}

/// The name of an end.
pub fn end_word(end: End) -> &'static [u8]
    ensures { result.now ≡ end_text end }
{
    match end {
        End::Abort => b"abort",
        End::Commit => b"commit",
    }
}
