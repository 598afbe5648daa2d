// The class table at values from outside. Values are given as their payloads.
ghost use Rattle.arj_class.specs.Forms.{OpInForm};

use arj_base::{Bytes, Class, Format, Mode, Numbers, Pairs};
use arj_class::{Account, Answer, ApplyFault, Counter, Gone, Op, Queue, Register, Table, Value};
use std::alloc::{AllocError, Global};
use std::test::Fail;

// A queue of 32 numbers, and a table of 16 pairs.
const NUMBERS: [u8; 32] = [
    1, 2, 3, 4, 5, 6, 7, 8, 9, 10, 11, 12, 13, 14, 15, 16, 17, 18, 19, 20, 21, 22, 23, 24, 25, 26,
    27, 28, 29, 30, 31, 32,
];

const PAIRS: [u8; 32] = [
    1, 1, 2, 2, 3, 3, 4, 4, 5, 5, 6, 6, 7, 7, 8, 8, 9, 9, 10, 10, 11, 11, 12, 12, 13, 13, 14, 14,
    15, 15, 16, 16,
];

// Each small number in eight bytes.
fn words(alloc: Global, numbers: &[u8]) -> Result<Bytes, AllocError> {
    let mut payload = Bytes::new(alloc);
    for number in numbers {
        payload.extend(&[0, 0, 0, 0, 0, 0, 0, *number])?;
    }
    Ok(payload)
}

fn bytes(alloc: Global, text: &[u8]) -> Result<Bytes, AllocError> {
    let mut bytes = Bytes::new(alloc);
    bytes.extend(text)?;
    Ok(bytes)
}

// An answer that has neither a number nor bytes, in a word.
fn word(answer: &Answer) -> &'static str {
    match answer {
        Answer::Done => "done",
        Answer::Over => "over",
        Answer::Short => "short",
        Answer::Full => "full",
        Answer::Nothing => "none",
        Answer::There => "there",
        Answer::Gone => "gone",
        Answer::Number(_) | Answer::Text(_) => "more than a word",
    }
}

fn answer_text(alloc: Global, answer: &Result<Answer, ApplyFault>) -> Result<String, AllocError> {
    match answer {
        Ok(Answer::Text(bytes)) => format!(in alloc; "{:?}", bytes.as_slice()),
        Ok(answer) => format!(in alloc; "{}", word(answer)),
        Err(fault) => format!(in alloc; "{fault}"),
    }
}

// The text of an answer, which is let go here alone.
fn told(alloc: Global, value: &mut Value, op: &Op) -> Result<String, AllocError>
    requires { OpInForm op.now }
{
    answer_text(alloc, &value.apply(op))
}

// A value as its state says it: its class and its payload.
type Saved<'a> = (Class, &'a [u8]);

// Whether a copy of a value is saved so.
fn is_saved_so(alloc: Global, value: &Value, saved: Saved) -> Result<bool, AllocError> {
    let (class, payload) = saved;
    if value.class() != class {
        return Ok(false);
    }
    let copy = value.copy(alloc)?;
    Ok(copy.save_state(alloc)?.as_slice() == payload)
}

// Whether the first value answers so to the operation, and is the second then.
fn answers(alloc: Global, before: Saved, op: &Op, want: &str, after: Saved) -> Result<bool, Fail> {
    if !op.is_in_form() {
        return Ok(false);
    }
    let (class, payload) = before;
    let mut value = Value::restore_state(alloc, class, Format::Two, payload)?;
    tells(alloc, &mut value, op, want, after)
}

// Whether the value answers so, and is the other then.
fn tells(alloc: Global, value: &mut Value, op: &Op, want: &str, after: Saved) -> Result<bool, Fail>
    requires { OpInForm op.now }
{
    if told(alloc, value, op)?.as_str() != want {
        return Ok(false);
    }
    Ok(is_saved_so(alloc, value, after)?)
}

// The bytes of a register.
const LONG: Saved<'static> = (Class::Register, &[0, 0xff]);

// A register tells its bytes.
fn a_get_answers(alloc: Global) -> Result<bool, Fail> {
    answers(alloc, LONG, &Op::Get, "[0, 255]", LONG)
}

// A register is put.
fn a_put_answers(alloc: Global) -> Result<bool, Fail> {
    let op = Op::Put(bytes(alloc, &[0, 0xff])?);
    answers(alloc, (Class::Register, b"any"), &op, "done", LONG)
}

// A pair of the table takes another value.
fn a_put_pair_answers(alloc: Global) -> Result<bool, Fail> {
    let mut other_value = PAIRS;
    other_value[1] = 5;
    let pairs = words(alloc, &PAIRS)?;
    let other_pairs = words(alloc, &other_value)?;
    answers(
        alloc,
        (Class::Table, pairs.as_slice()),
        &Op::PutPair(1, 5),
        "done",
        (Class::Table, other_pairs.as_slice()),
    )
}

// What leaves the value as it is, of these numbers: each with its answer.
const ROWS: &[(Class, &[u8], &str)] = &[
    (Class::Account, &[5], "short"),
    (Class::Queue, &NUMBERS, "full"),
    (Class::Queue, &[], "none"),
    (Class::Table, &PAIRS, "full"),
    (Class::Table, &PAIRS, "none"),
    (Class::Counter, &[5], "the class lacks this operation"),
];

// The operation of the row at this place.
fn op_at(place: usize) -> Op {
    match place {
        0 => Op::Withdraw(6),
        1 => Op::Push(1),
        2 => Op::Pop,
        3 => Op::PutPair(17, 1),
        4 => Op::Remove(17),
        _ => Op::Push(1),
    }
}

// Whether a value of these numbers answers so to the operation at the place, and stays as it is.
fn keeps(alloc: Global, place: usize, row: &(Class, &[u8], &str)) -> Result<bool, Fail> {
    let payload = words(alloc, row.1)?;
    let saved = (row.0, payload.as_slice());
    answers(alloc, saved, &op_at(place), row.2, saved)
}

#[test]
fn classes_answer_as_the_table(rt: HostRuntime) -> Result<(), Fail> {
    assert!(rt; a_get_answers(rt.alloc())?);
    assert!(rt; a_put_answers(rt.alloc())?);
    assert!(rt; a_put_pair_answers(rt.alloc())?);
    for (place, row) in ROWS.iter().enumerate() {
        assert!(rt; keeps(rt.alloc(), place, row)?, "{}", row.2);
    }
    Ok(())
}

// What each class has of the operations in their order, with a counter's value for `create`: each by a letter for its mode.
const MODES: &[(Class, &[u8])] = &[
    (Class::Counter, b"rww---------ww"),
    (Class::Register, b"r--w---------w"),
    (Class::Account, b"r---ww-------w"),
    (Class::Queue, b"------rww----w"),
    (Class::Table, b"---------rww-w"),
    (Class::Entry, b"--------------"),
    (Class::Gone, b"--------------"),
];

// The operation at this place in their order.
fn op_in_order(alloc: Global, place: usize) -> Op {
    match place {
        0 => Op::Get,
        1 => Op::Add(1),
        2 => Op::Set(1),
        3 => Op::Put(Bytes::new(alloc)),
        4 => Op::Deposit(1),
        5 => Op::Withdraw(1),
        6 => Op::Len,
        7 => Op::Push(1),
        8 => Op::Pop,
        9 => Op::GetKey(1),
        10 => Op::PutPair(1, 1),
        11 => Op::Remove(1),
        12 => Op::Create(Value::Counter(Counter::new(7))),
        _ => Op::Destroy,
    }
}

// The letter of the mode in which the class does the operation, a dash where it lacks it.
fn letter(class: Class, op: &Op) -> u8 {
    match Value::mode(class, op) {
        Some(Mode::Read) => b'r',
        Some(Mode::Exclude) => b'x',
        Some(Mode::Write) => b'w',
        None => b'-',
    }
}

// Whether the class does its operations in these modes.
fn has_modes(alloc: Global, class: Class, letters: &[u8]) -> bool {
    for (place, want) in letters.iter().enumerate() {
        if letter(class, &op_in_order(alloc, place)) != *want {
            return false;
        }
    }
    true
}

#[test]
fn classes_have_their_operations(rt: HostRuntime) {
    for (class, letters) in MODES {
        assert!(rt; has_modes(rt.alloc(), *class, letters));
    }
}

// A counter of value 7, and one that is gone.
const SEVEN: Saved<'static> = (Class::Counter, &[0, 0, 0, 0, 0, 0, 0, 7]);

const NO_COUNTER: Saved<'static> = (Class::Gone, &[1]);

const NO_QUEUE: Saved<'static> = (Class::Gone, &[4]);

// How objects come and go: what was, the place of the operation in their order, its answer, and what is.
type Coming = (Saved<'static>, usize, &'static str, Saved<'static>);

const COMING: &[Coming] = &[
    (NO_COUNTER, 0, "gone", NO_COUNTER),
    (NO_COUNTER, 7, "the class lacks this operation", NO_COUNTER),
    (NO_COUNTER, 12, "done", SEVEN),
    (NO_COUNTER, 13, "gone", NO_COUNTER),
    (NO_QUEUE, 8, "gone", NO_QUEUE),
    (NO_QUEUE, 12, "the class lacks this operation", NO_QUEUE),
    (SEVEN, 12, "there", SEVEN),
    (SEVEN, 13, "done", NO_COUNTER),
];

fn comes_so(alloc: Global, row: &Coming) -> Result<bool, Fail> {
    answers(alloc, row.0, &op_in_order(alloc, row.1), row.2, row.3)
}

#[test]
fn objects_come_and_go(rt: HostRuntime) -> Result<(), Fail> {
    for row in COMING {
        assert!(rt; comes_so(rt.alloc(), row)?, "{}", row.2);
    }
    Ok(())
}

// An operation by which an object would come as one that is gone.
fn comes_gone() -> Op {
    match Gone::new(Class::Counter) {
        Some(gone) => Op::Create(Value::Gone(gone)),
        None => Op::Destroy,
    }
}

#[test]
fn no_object_comes_as_one_that_is_gone(rt: HostRuntime) -> Result<(), Fail> {
    assert!(rt; !comes_gone().is_in_form());
    Ok(())
}

// Whether a value of the class is restored from so many bytes of zeros in this format.
fn restores(
    alloc: Global,
    class: Class,
    format: Format,
    length: usize,
) -> Result<bool, AllocError> {
    let zeros = [0; 193];
    if length > zeros.len() {
        return Ok(false);
    }
    let payload = &zeros[..length];
    match Value::restore_state(alloc, class, format, payload) {
        Ok(value) => is_saved_so(alloc, &value, (class, payload)),
        Err(_) => Ok(false),
    }
}

// Lengths of registers, and whether the format holds them.
const LENGTHS: &[(Format, usize, bool)] = &[
    (Format::One, 64, true),
    (Format::One, 65, false),
    (Format::Two, 192, true),
    (Format::Two, 193, false),
];

#[test]
fn registers_are_longer_in_format_two(rt: HostRuntime) -> Result<(), Fail> {
    for (format, length, want) in LENGTHS {
        assert!(rt; restores(rt.alloc(), Class::Register, *format, *length)? == *want);
    }
    Ok(())
}

// Payloads that are out of form.
const OTHERS: &[Saved<'static>] = &[
    (
        Class::Table,
        &[
            0, 0, 0, 0, 0, 0, 0, 2, 0, 0, 0, 0, 0, 0, 0, 2, 0, 0, 0, 0, 0, 0, 0, 1, 0, 0, 0, 0, 0,
            0, 0, 1,
        ],
    ),
    (Class::Counter, &[0; 7]),
    (Class::Entry, &[]),
    (Class::Gone, &[0]),
    (Class::Gone, &[6]),
    (Class::Gone, &[1, 1]),
];

// Whether the payload is refused, with these words.
fn is_refused(alloc: Global, saved: Saved, words: &str) -> Result<bool, Fail> {
    match Value::restore_state(alloc, saved.0, Format::Two, saved.1) {
        Ok(_) => Ok(false),
        Err(fault) => Ok(format!(in alloc; "{fault}")?.as_str() == words),
    }
}

#[test]
fn payloads_out_of_form_are_refused(rt: HostRuntime) -> Result<(), Fail> {
    for saved in OTHERS {
        assert!(rt;
            is_refused(
                rt.alloc(),
                *saved,
                "not the payload of a value of this class"
            )?
        );
    }
    Ok(())
}

// A value of the class at this place in their order.
fn made(alloc: Global, place: usize) -> Value {
    match place {
        0 => Value::Counter(Counter::new(1)),
        1 => Value::Register(Register::new(Bytes::new(alloc))),
        2 => Value::Account(Account::new(1)),
        3 => Value::Queue(Queue::new(Numbers::new(alloc))),
        _ => Value::Table(Table::new(Pairs::new(alloc))),
    }
}

// How many bytes its payload has.
fn length_of(alloc: Global, place: usize) -> Result<usize, AllocError> {
    Ok(made(alloc, place).save_state(alloc)?.as_slice().len())
}

#[test]
fn values_are_made(rt: HostRuntime) -> Result<(), Fail> {
    for (place, length) in [8, 0, 8, 0, 0].iter().enumerate() {
        assert!(rt; length_of(rt.alloc(), place)? == *length);
    }
    Ok(())
}
