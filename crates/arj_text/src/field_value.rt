// Operations and first values in a line.
ghost use Rattle.std.specs.Prelude.{IfOk, MatchOption, codes};
ghost use Rattle.std.specs.Fmt.{decimal};
ghost use Rattle.arj_text.specs.Fields.{AreBytesUpTo, HasNoFirst, IsCreateOp, IsFirst, IsNumberOp, IsObjectClass, IsPutOp, IsRead, IsThere, IsWordOp, NumberInForm, NumbersInForm, OpTextInForm, PairInForm, PairsInForm, ValueTextInForm, behind, two_text};
ghost use Rattle.arj_text.specs.Words.{gone_text, hex, numbers_text, op_text, pairs_text, value_text};

use crate::field::{after, cut, is_text, number, number_first};
use crate::field_hex::hex_up_to;
use crate::field_list::{numbers, pairs};
use arj_base::{Bytes, Class, Numbers, Pairs};
use arj_class::{
    Account, Counter, Gone, Op, QUEUE_NUMBERS, Queue, REGISTER_BYTES, Register, TABLE_PAIRS, Table,
    Value,
};
use std::alloc::{AllocError, Global};

/// A number of 64 bits behind a front.
pub fn number_behind(alloc: Global, front: &[u8], bytes: &[u8]) -> Result<Option<u64>, AllocError>
    ensures { IfOk result (λ found. IsRead NumberInForm (behind front.now decimal) bytes.now found) }
{
    let Some(digits) = after(bytes, front) else {
        return Ok(None);
    };
    number(alloc, digits, 0, u64::MAX)
}

/// An operation with its arguments.
pub fn operation(alloc: Global, bytes: &[u8]) -> Result<Option<Op>, AllocError>
    ensures { IfOk result (λ found. IsRead OpTextInForm op_text bytes.now found) }
{
    if let Some(op) = word_op(bytes) {
        return Ok(Some(op));
    }
    if let Some(op) = put_op(alloc, bytes)? {
        return Ok(Some(op));
    }
    if let Some(op) = create_op(alloc, bytes)? {
        return Ok(Some(op));
    }
    number_op(alloc, bytes)
}

// An operation without arguments.
fn word_op(bytes: &[u8]) -> Option<Op>
    ensures { IsRead IsWordOp op_text bytes.now result }
{
    if is_text(bytes, b"get") {
        return Some(Op::Get);
    }
    if is_text(bytes, b"len") {
        return Some(Op::Len);
    }
    if is_text(bytes, b"pop") {
        return Some(Op::Pop);
    }
    if is_text(bytes, b"destroy") {
        return Some(Op::Destroy);
    }
    None
}

// An operation with one number.
fn number_op(alloc: Global, bytes: &[u8]) -> Result<Option<Op>, AllocError>
    ensures { IfOk result (λ found. IsRead IsNumberOp op_text bytes.now found) }
{
    if let Some(n) = number_behind(alloc, b"add ", bytes)? {
        return Ok(Some(Op::Add(n)));
    }
    if let Some(n) = number_behind(alloc, b"set ", bytes)? {
        return Ok(Some(Op::Set(n)));
    }
    if let Some(n) = number_behind(alloc, b"deposit ", bytes)? {
        return Ok(Some(Op::Deposit(n)));
    }
    if let Some(n) = number_behind(alloc, b"withdraw ", bytes)? {
        return Ok(Some(Op::Withdraw(n)));
    }
    if let Some(n) = number_behind(alloc, b"push ", bytes)? {
        return Ok(Some(Op::Push(n)));
    }
    if let Some(key) = number_behind(alloc, b"get ", bytes)? {
        return Ok(Some(Op::GetKey(key)));
    }
    if let Some(key) = number_behind(alloc, b"remove ", bytes)? {
        return Ok(Some(Op::Remove(key)));
    }
    Ok(None)
}

// A put of a register, which has one argument, or of a table, which has two.
fn put_op(alloc: Global, bytes: &[u8]) -> Result<Option<Op>, AllocError>
    ensures { IfOk result (λ found. IsRead IsPutOp op_text bytes.now found) }
{
    let Some(arguments) = after(bytes, b"put ") else {
        return Ok(None);
    };
    if let Some(value) = hex_up_to(alloc, arguments, REGISTER_BYTES)? {
        return Ok(Some(Op::Put(value)));
    }
    match two_numbers(alloc, arguments)? {
        Some((key, value)) => Ok(Some(Op::PutPair(key, value))),
        None => Ok(None),
    }
}

// What an object comes with.
fn create_op(alloc: Global, bytes: &[u8]) -> Result<Option<Op>, AllocError>
    ensures { IfOk result (λ found. IsRead IsCreateOp op_text bytes.now found) }
{
    let Some(words) = after(bytes, b"create ") else {
        return Ok(None);
    };
    match value_there(alloc, words)? {
        Some(value) => Ok(Some(Op::Create(value))),
        None => Ok(None),
    }
}

// Two numbers with a space between them.
fn two_numbers(alloc: Global, bytes: &[u8]) -> Result<Option<(u64, u64)>, AllocError>
    ensures { IfOk result (λ found. IsRead PairInForm two_text bytes.now found) }
{
    let Some((first, rest)) = number_first(alloc, bytes, b' ', 0, u64::MAX)? else {
        return Ok(None);
    };
    match number(alloc, rest, 0, u64::MAX)? {
        Some(second) => Ok(Some((first, second))),
        None => Ok(None),
    }
}

/// A class and a first value of it, or that the object is gone.
pub fn value(alloc: Global, bytes: &[u8]) -> Result<Option<Value>, AllocError>
    ensures { IfOk result (λ found. IsRead ValueTextInForm value_text bytes.now found) }
{
    if let Some(value) = value_there(alloc, bytes)? {
        return Ok(Some(value));
    }
    match gone_class(bytes).and_then(Gone::new) {
        Some(gone) => Ok(Some(Value::Gone(gone))),
        None => Ok(None),
    }
}

// The class of an object that is gone.
fn gone_class(bytes: &[u8]) -> Option<Class>
    ensures { IsRead IsObjectClass gone_text bytes.now result }
{
    if is_text(bytes, b"counter gone") {
        return Some(Class::Counter);
    }
    if is_text(bytes, b"register gone") {
        return Some(Class::Register);
    }
    if is_text(bytes, b"account gone") {
        return Some(Class::Account);
    }
    if is_text(bytes, b"queue gone") {
        return Some(Class::Queue);
    }
    if is_text(bytes, b"table gone") {
        return Some(Class::Table);
    }
    None
}

// A class and a value of an object that is there.
fn value_there(alloc: Global, bytes: &[u8]) -> Result<Option<Value>, AllocError>
    ensures { IfOk result (λ found. IsRead IsThere value_text bytes.now found) }
{
    if let Some(n) = number_behind(alloc, b"counter ", bytes)? {
        return Ok(Some(Value::Counter(Counter::new(n))));
    }
    if let Some(n) = number_behind(alloc, b"account ", bytes)? {
        return Ok(Some(Value::Account(Account::new(n))));
    }
    if let Some(first) = register(alloc, bytes)? {
        return Ok(Some(Value::Register(Register::new(first))));
    }
    if let Some(first) = queue(alloc, bytes)? {
        return Ok(Some(Value::Queue(Queue::new(first))));
    }
    if let Some(first) = table(alloc, bytes)? {
        return Ok(Some(Value::Table(Table::new(first))));
    }
    Ok(None)
}

/// A class and a first value before a space, and what stands behind that.
pub fn value_first(alloc: Global, bytes: &[u8]) -> Result<Option<(Value, &[u8])>, AllocError>
    ensures { IfOk result (λ found. MatchOption found
        (HasNoFirst 32 ValueTextInForm value_text bytes.now)
        (λ p. IsFirst 32 ValueTextInForm value_text bytes.now p.0 p.1.now)) }
{
    let Some((class, fields)) = cut(bytes, b' ') else {
        return Ok(None);
    };
    let Some((word, rest)) = cut(fields, b' ') else {
        return Ok(None);
    };
    match value(alloc, &bytes[..class.len() + 1 + word.len()])? {
        Some(found) => Ok(Some((found, rest))),
        None => Ok(None),
    }
}

// A register's bytes.
fn register(alloc: Global, bytes: &[u8]) -> Result<Option<Bytes>, AllocError>
    ensures { IfOk result (λ found. IsRead (AreBytesUpTo REGISTER_BYTES) (behind (codes "register ") hex) bytes.now found) }
{
    let Some(digits) = after(bytes, b"register ") else {
        return Ok(None);
    };
    hex_up_to(alloc, digits, REGISTER_BYTES)
}

// A queue's numbers, front first.
fn queue(alloc: Global, bytes: &[u8]) -> Result<Option<Numbers>, AllocError>
    ensures { IfOk result (λ found. IsRead (NumbersInForm QUEUE_NUMBERS) (behind (codes "queue ") numbers_text) bytes.now found) }
{
    let Some(list) = after(bytes, b"queue ") else {
        return Ok(None);
    };
    numbers(alloc, list, QUEUE_NUMBERS)
}

// A table's pairs.
fn table(alloc: Global, bytes: &[u8]) -> Result<Option<Pairs>, AllocError>
    ensures { IfOk result (λ found. IsRead (PairsInForm TABLE_PAIRS) (behind (codes "table ") pairs_text) bytes.now found) }
{
    let Some(list) = after(bytes, b"table ") else {
        return Ok(None);
    };
    pairs(alloc, list, TABLE_PAIRS)
}
