// Words with their texts, as worked scripts and journals have them, read back and printed again; and texts that are no
// such words.
ghost use Rattle.std.specs.Prelude.{◌≡◌, IfOk, OnOk, Some, if◌then◌else◌};
ghost use Rattle.std.specs.Str.{bytes_eq};
ghost use Rattle.std.specs.BTreeMap.{get};
ghost use Rattle.arj_text.specs.Label.{name, label_cmp};

use arj_base::Bytes;
use arj_class::{Answer, Counter, Op, Register, Value};
use arj_text::field::{cut, is_text, label_first, label_of, number, number_first};
use arj_text::field_hex::{hex, hex_up_to};
use arj_text::field_list::{nodes, nodes_first, numbers, pairs};
use arj_text::field_value::{operation, value, value_first};
use arj_text::words::{put_hex, put_list, put_op};
use arj_text::{Label, answer_text};
use std::alloc::{AllocError, Global};
use std::collections::BTreeMap;
use std::test::Fail;

// Each with the word for its reader before it.
const WORDS: &[&str] = &[
    "label A",
    "label Abcdefghij012345",
    "label_first A 2",
    "number 0",
    "number 255",
    "number_first 7:8",
    "hex -",
    "hex 00ff",
    "hex_up_to 00ff",
    "nodes 3",
    "nodes 1,3,2",
    "nodes_first 1,2 1",
    "numbers -",
    "numbers 0",
    "numbers 18446744073709551615,1,1",
    "pairs -",
    "pairs 1:9,2:0",
    "value counter 7",
    "value account 100",
    "value register -",
    "value queue 1,2,1",
    "value table 1:10,3:30",
    "value counter gone",
    "value table gone",
    "value_first counter 7 1,2",
    "value_first queue gone 1,2",
    "operation get",
    "operation put -",
    "operation create counter 7",
    "operation create register -",
    "operation create table 1:10,3:30",
    "operation destroy",
];

const NOT_WORDS: &[&str] = &[
    "label ",
    "label 1A",
    "label A-",
    "label Abcdefghij0123456",
    "label_first A",
    "number ",
    "number 00",
    "number 07",
    "number +1",
    "number -1",
    "number 256",
    "number 18446744073709551616",
    "number_first 7",
    "hex ",
    "hex 0",
    "hex 0F",
    "hex --",
    "hex_up_to 000102",
    "nodes ",
    "nodes 0",
    "nodes 4",
    "nodes 1,1",
    "nodes 1,",
    "numbers ",
    "numbers -,1",
    "pairs 2:0,1:9",
    "pairs 1:9,1:9",
    "pairs 1",
    "value table 2:0,1:9",
    "value counter",
    "value gone",
    "value entry gone",
    "value counter gone ",
    "value counter Gone",
    "value_first counter gone",
    "operation put 1",
    "operation create",
    "operation create counter",
    "operation create counter gone",
    "operation create table 2:0,1:9",
    "operation destroy 1",
];

// Whether all of these are read, or none.
fn are_read(alloc: Global, texts: &[&str], want: bool) -> Result<bool, AllocError> {
    for text in texts {
        if is_read(alloc, text.as_bytes())? != want {
            return Ok(false);
        }
    }
    Ok(true)
}

fn have_values(alloc: Global) -> Result<bool, AllocError> {
    for place in 0..5usize {
        if !has_value(alloc, place)? {
            return Ok(false);
        }
    }
    Ok(true)
}

fn calls_are_right(alloc: Global) -> Result<bool, AllocError> {
    for (place, (asked, want)) in CALLS.iter().enumerate() {
        if !call_is_right(alloc, place, asked, want)? {
            return Ok(false);
        }
    }
    Ok(true)
}

#[test]
fn words_are_read(rt: HostRuntime) -> Result<(), Fail> {
    assert!(rt; are_read(rt.alloc(), WORDS, true)?);
    assert!(rt; are_read(rt.alloc(), NOT_WORDS, false)?);
    assert!(rt; have_values(rt.alloc())?);
    assert!(rt; calls_are_right(rt.alloc())?);
    Ok(())
}

// Whether the reader of that name takes what stands behind it: numbers up to 255, bytes up to two, nodes up to 3.
fn is_read(alloc: Global, line: &[u8]) -> Result<bool, AllocError> {
    let Some((reader, text)) = cut(line, b' ') else {
        return Ok(false);
    };
    if is_text(reader, b"label") {
        return Ok(label_of(text).is_some());
    }
    if is_text(reader, b"label_first") {
        return Ok(label_first(text).is_some());
    }
    if is_text(reader, b"number") {
        return Ok(number(alloc, text, 0, 255)?.is_some());
    }
    if is_text(reader, b"number_first") {
        return Ok(number_first(alloc, text, b':', 0, 255)?.is_some());
    }
    if is_text(reader, b"hex") {
        return Ok(hex(alloc, text)?.is_some());
    }
    if is_text(reader, b"hex_up_to") {
        return Ok(hex_up_to(alloc, text, 2)?.is_some());
    }
    is_list_read(alloc, reader, text)
}

fn is_list_read(alloc: Global, reader: &[u8], text: &[u8]) -> Result<bool, AllocError> {
    if is_text(reader, b"nodes") {
        return Ok(nodes(alloc, text, 3, 3)?.is_some());
    }
    if is_text(reader, b"nodes_first") {
        return Ok(nodes_first(alloc, text, 3, 3)?.is_some());
    }
    if is_text(reader, b"numbers") {
        return Ok(numbers(alloc, text, 3)?.is_some());
    }
    if is_text(reader, b"pairs") {
        return Ok(pairs(alloc, text, 2)?.is_some());
    }
    is_other_read(alloc, reader, text)
}

fn is_other_read(alloc: Global, reader: &[u8], text: &[u8]) -> Result<bool, AllocError> {
    if is_text(reader, b"value") {
        return Ok(value(alloc, text)?.is_some());
    }
    if is_text(reader, b"value_first") {
        return Ok(value_first(alloc, text)?.is_some());
    }
    Ok(is_text(reader, b"operation") && operation(alloc, text)?.is_some())
}

// Texts with what they say.
fn has_value(alloc: Global, place: usize) -> Result<bool, AllocError> {
    match place {
        0 => Ok(number(alloc, b"18446744073709551615", 0, u64::MAX)? == Some(u64::MAX)),
        1 => has_bytes(alloc, "00ff", &[0, 255]),
        2 => has_bytes(alloc, "-", &[]),
        3 => has_nodes(alloc, "3", &[3]),
        4 => has_nodes(alloc, "1,3,2", &[1, 3, 2]),
        _ => Ok(false),
    }
}

fn has_bytes(alloc: Global, text: &str, want: &[u8]) -> Result<bool, AllocError> {
    let Some(found) = hex(alloc, text.as_bytes())? else {
        return Ok(false);
    };
    let mut again = Bytes::new(alloc);
    put_hex(&mut again, found.as_slice())?;
    Ok(found.as_slice() == want && again.as_slice() == text.as_bytes())
}

fn has_nodes(alloc: Global, text: &str, want: &[u8]) -> Result<bool, AllocError> {
    let Some(found) = nodes(alloc, text.as_bytes(), 3, 3)? else {
        return Ok(false);
    };
    let mut again = Bytes::new(alloc);
    put_list(&mut again, found.as_slice())?;
    Ok(found.as_slice() == want && again.as_slice() == text.as_bytes())
}

// Operations with their answers, as texts.
const CALLS: &[(&str, &str)] = &[
    ("get", "12"),
    ("get", "00ff"),
    ("get", "-"),
    ("add 1", "over"),
    ("set 18446744073709551615", "done"),
    ("put 00ff", "done"),
    ("deposit 5", "done"),
    ("withdraw 6", "short"),
    ("len", "0"),
    ("push 1", "full"),
    ("pop", "none"),
    ("get 1", "2"),
    ("put 1 2", "done"),
    ("remove 1", "none"),
    ("destroy", "gone"),
    ("create counter 7", "there"),
    ("create register 00ff", "done"),
];

// The operation at this place of the table, where it is of a number.
fn op_at(place: usize) -> Op {
    match place {
        3 => Op::Add(1),
        4 => Op::Set(18446744073709551615),
        6 => Op::Deposit(5),
        7 => Op::Withdraw(6),
        8 => Op::Len,
        9 => Op::Push(1),
        10 => Op::Pop,
        11 => Op::GetKey(1),
        12 => Op::PutPair(1, 2),
        13 => Op::Remove(1),
        14 => Op::Destroy,
        15 => Op::Create(Value::Counter(Counter::new(7))),
        _ => Op::Get,
    }
}

// The operation at this place.
fn asked_at(alloc: Global, place: usize) -> Result<Op, AllocError> {
    match place {
        5 => Ok(Op::Put(bytes(alloc, &[0, 255])?)),
        16 => Ok(Op::Create(Value::Register(Register::new(bytes(alloc, &[0, 255])?)))),
        _ => Ok(op_at(place)),
    }
}

// The answer at this place.
fn answer_at(alloc: Global, place: usize) -> Result<Answer, AllocError> {
    Ok(match place {
        0 => Answer::Number(12),
        1 => Answer::Text(bytes(alloc, &[0, 255])?),
        2 => Answer::Text(Bytes::new(alloc)),
        3 => Answer::Over,
        7 => Answer::Short,
        8 => Answer::Number(0),
        9 => Answer::Full,
        10 | 13 => Answer::Nothing,
        11 => Answer::Number(2),
        14 => Answer::Gone,
        15 => Answer::There,
        _ => Answer::Done,
    })
}

// Whether the operation and the answer at this place have these texts, and the operation is read back.
fn call_is_right(alloc: Global, place: usize, asked: &str, want: &str) -> Result<bool, AllocError> {
    let said = said(alloc, answer_at(alloc, place)?)?;
    let text = printed(alloc, asked_at(alloc, place)?)?;
    Ok(
        text.as_slice() == asked.as_bytes()
            && said.as_slice() == want.as_bytes()
            && is_read_back(alloc, asked)?,
    )
}

// The text of an operation, which is let go here alone.
fn printed(alloc: Global, op: Op) -> Result<Bytes, AllocError> {
    let mut text = Bytes::new(alloc);
    put_op(&mut text, &op)?;
    Ok(text)
}

// The text of an answer, which is let go here alone.
fn said(alloc: Global, answer: Answer) -> Result<Bytes, AllocError> {
    answer_text(alloc, &answer)
}

// Whether the operation that is read from the text has it.
fn is_read_back(alloc: Global, asked: &str) -> Result<bool, AllocError> {
    let Some(op) = operation(alloc, asked.as_bytes())? else {
        return Ok(false);
    };
    let again = printed(alloc, op)?;
    Ok(again.as_slice() == asked.as_bytes())
}

fn bytes(alloc: Global, items: &[u8]) -> Result<Bytes, AllocError>
    ensures { IfOk result (λ made. made ≡ items.now) }
{
    let mut made = Bytes::new(alloc);
    made.extend(items)?;
    Ok(made)
}

// Labels as keys of a map.
#[tactic(auto, using(arj_text::proofs::Labels::get_updates))]
fn put_place(places: &mut BTreeMap<Label, usize>, label: Label, place: usize) -> Result<(), Fail>
    ensures { OnOk result ((other : Label) → get label_cmp places.new other
        ≡ (if bytes_eq (name label) (name other) then Some place else get label_cmp places.old other)) }
{
    places.insert(label, place)?;
    Ok(())
}

// Puts three places, two of them at one label.
fn put_places(places: &mut BTreeMap<Label, usize>) -> Result<(), Fail> {
    put_place(places, Label::new(b"A"), 1)?;
    put_place(places, Label::new(b"B"), 2)?;
    put_place(places, Label::new(b"A"), 3)
}

fn place_at(places: &BTreeMap<Label, usize>, label: Label) -> Option<usize> {
    places.get(&label).copied()
}

fn last_place_stands(alloc: Global) -> Result<bool, Fail> {
    let mut places = BTreeMap::new(alloc);
    put_places(&mut places)?;
    Ok(
        place_at(&places, Label::new(b"A")) == Some(3)
            && place_at(&places, Label::new(b"AB")).is_none(),
    )
}

#[test]
fn labels_are_keys(rt: HostRuntime) -> Result<(), Fail> {
    assert!(rt; last_place_stands(rt.alloc())?);
    Ok(())
}
