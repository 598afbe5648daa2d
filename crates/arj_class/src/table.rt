// At most 16 keys with their values.
ghost use Rattle.std.specs.Prelude.{◌≡◌, ◌≤◌, ◌↔◌, IsTrue, length, not, refl, if◌then◌else◌, IfOk, OnOk, OnErr, MatchResult};
ghost use Rattle.arj_base.specs.declared.state.Class.TheVariants as class_variant;
ghost use Rattle.arj_class.specs.Forms.{ValueInForm};
ghost use Rattle.arj_class.specs.declared.value.Value.TheVariants as variant;
ghost use Rattle.arj_class.specs.Keys.{KeysRise, KeysBelow, IsPlace, IsGap};
ghost use Rattle.arj_class.specs.Table.{value_at, put_pair, remove_pair, is_full_for, number_or_nothing};

use crate::limits::TABLE_PAIRS;
use crate::payload::{pairs_fit, put_pairs, take_pair};
use crate::{Answer, ApplyFault, ClassFault, ObjectClass, Op};
use arj_base::{Bytes, Format, Mode, Pairs};
use std::alloc::{AllocError, Global};
use std::marker::Model;

/// At most 16 keys with their values. Contracts see it as the list of pairs, keys strictly increasing.
#[derive(Drop)]
pub struct Table {
    pairs: Vec<(u64, u64)>,
}

impl Model for Table {
    ghost use Rattle.std.specs.Prelude.{ℕ, ◌≤◌, List, length};
    ghost use Rattle.arj_class.specs.Keys.{KeysRise};
    ghost use Rattle.arj_class.specs.declared.limits.TheConstants.{TABLE_PAIRS};

    ghost Value = { List (ℕ × ℕ) };

    ghost view = { λ v. v.pairs.items };

    ghost invariant = { λ v. (length v.pairs.items ≤ TABLE_PAIRS) × KeysRise v.pairs.items };
}

impl Table {
    /// A table of these pairs, at most 16, keys strictly increasing.
    pub fn new(pairs: Pairs) -> Table
        requires room { length pairs ≤ TABLE_PAIRS }
        requires rising { KeysRise pairs }
        ensures { result ≡ pairs }
    {
        Table {
            pairs: pairs.into_vec(),
        }
    }

    /// The pairs, keys strictly increasing.
    pub fn pairs(&self) -> &[(u64, u64)]
        ensures { result.now ≡ self.now }
    {
        self.pairs.as_slice()
    }

    /// Another table of the same pairs.
    pub fn copy(&self, alloc: Global) -> Result<Table, AllocError>
        ensures { IfOk result (λ copied. copied ≡ self.now) }
    {
        Ok(Table {
            pairs: Vec::from_slice(alloc, self.pairs.as_slice())?,
        })
    }

    /// It is in form. It does nothing when it runs.
    pub(crate) fn in_form(&self)
        ensures { ValueInForm (variant.Table self.now) }
    {
        pairs_fit(self.pairs.as_slice());
    }

    /// Where its memory is from.
    pub(crate) fn allocator(&self) -> Global {
        *self.pairs.allocator()
    }
}

/// Where the key stands, or else where it belongs.
fn place_of(pairs: &[(u64, u64)], key: u64) -> Result<usize, usize>
    requires { KeysRise pairs.now }
    ensures { MatchResult result (IsPlace key pairs.now) (IsGap key pairs.now) }
{
    pairs.binary_search_by_key(&key, |pair| pair.0)
}

/// The value of a key.
#[tactic(auto, using(crate::proofs::Places::value_at_place))]
fn value_of(pairs: &[(u64, u64)], key: u64) -> Option<u64>
    requires { KeysRise pairs.now }
    ensures { result ≡ value_at key pairs.now }
{
    match place_of(pairs, key) {
        Ok(at) => Some(pairs[at].1),
        Err(_) => None,
    }
}

/// Sets the value of a key. A new key finds no room among 16.
#[tactic(auto, using(crate::proofs::Places::value_at_place, crate::proofs::Places::value_in_gap, crate::proofs::Places::put_at_place, crate::proofs::Places::put_in_gap))]
fn put(pairs: &mut Vec<(u64, u64)>, key: u64, value: u64) -> Result<bool, AllocError>
    requires rising { KeysRise pairs.old.items }
    ensures done { IfOk result (λ done. done ≡ not (is_full_for key pairs.old.items)) }
    ensures pairs { OnOk result (pairs.new.items ≡ (if is_full_for key pairs.old.items then pairs.old.items else put_pair key value pairs.old.items)) }
    ensures err { OnErr result (pairs.new.items ≡ pairs.old.items) }
{
    match place_of(pairs, key) {
        Ok(at) => pairs[at] = (key, value),
        Err(_) if pairs.len() >= TABLE_PAIRS => return Ok(false),
        Err(at) => pairs.insert(at, (key, value))?,
    }
    Ok(true)
}

/// Takes out a key, and answers the value that it had.
#[tactic(auto, using(crate::proofs::Places::value_at_place))]
fn remove(pairs: &mut Vec<(u64, u64)>, key: u64) -> Option<u64>
    requires { KeysRise pairs.old.items }
    ensures value { result ≡ value_at key pairs.old.items }
    ensures pairs { pairs.new.items ≡ remove_pair key pairs.old.items }
{
    match place_of(pairs, key) {
        Ok(at) => {
            let (_, value) = pairs.remove(at);
            Some(value)
        }
        Err(_) => None,
    }
}

/// Whether a key is above all keys.
fn is_above(pairs: &[(u64, u64)], key: u64) -> bool
    requires { KeysRise pairs.now }
    ensures { IsTrue result ↔ KeysBelow key pairs.now }
{
    match pairs.last() {
        Some((last, _)) => *last < key,
        None => true,
    }
}

/// The number that there is, or nothing.
fn number_answer(number: Option<u64>) -> Answer
    ensures { result ≡ number_or_nothing number }
{
    match number {
        Some(number) => Answer::Number(number),
        None => Answer::Nothing,
    }
}

impl ObjectClass for Table {
    ghost class = { class_variant.Table };

    ghost value = { variant.Table };

    fn mode(op: &Op) -> Option<Mode> {
        match op {
            Op::GetKey(_) => Some(Mode::Read),
            Op::PutPair(_, _) | Op::Remove(_) => Some(Mode::Write),
            _ => None,
        }
    }

    #[tactic(auto, using(crate::proofs::Places::table_put, crate::proofs::Places::table_remove))]
    fn apply(&mut self, op: &Op) -> Result<Answer, ApplyFault> {
        match op {
            Op::GetKey(key) => Ok(number_answer(value_of(self.pairs.as_slice(), *key))),
            Op::PutPair(key, value) => {
                if put(&mut self.pairs, *key, *value)? {
                    Ok(Answer::Done)
                } else {
                    Ok(Answer::Full)
                }
            }
            Op::Remove(key) => Ok(number_answer(remove(&mut self.pairs, *key))),
            _ => Err(ApplyFault::WrongOp),
        }
    }

    fn save_state(&self, alloc: Global) -> Result<Bytes, AllocError> {
        let mut payload = Bytes::new(alloc);
        put_pairs(&mut payload, self.pairs.as_slice())?;
        Ok(payload)
    }

    fn restore_state(alloc: Global, _: Format, payload: &[u8]) -> Result<Table, ClassFault> {
        let mut pairs: Vec<(u64, u64)> = Vec::new(alloc);
        let mut rest = payload;
        while let Some((pair, behind)) = take_pair(rest) {
            if pairs.len() == TABLE_PAIRS || !is_above(pairs.as_slice(), pair.0) {
                return Err(ClassFault::Payload);
            }
            pairs.push(pair)?;
            rest = behind;
        }
        if !rest.is_empty() {
            return Err(ClassFault::Payload);
        }
        Ok(Table { pairs })
    }

    ghost of_class = { λ v. refl };
}
