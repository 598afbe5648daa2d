// Lists in a line: items joined by commas.
ghost use Rattle.std.specs.Prelude.{◌≡◌, ◌≤◌, ◌==◌, ◌&&◌, nat_le, false, IfOk, MatchOption};
ghost use Rattle.std.specs.List.{list_all, list_any};
ghost use Rattle.std.specs.Fmt.{decimal};
ghost use Rattle.arj_text.specs.Fields.{HasNoFirst, IsFirst, IsRead, IsWithin, ItemsInForm, NodesInForm, NumberInForm, NumbersInForm, PairInForm, PairsInForm, has_byte, is_below_first, is_distinct, is_rising, items_text};
ghost use Rattle.arj_text.specs.Words.{list_text, numbers_text, pairs_text};

use crate::field::{cut, is_text, number, number_first};
use arj_base::{NodeList, Numbers, Pairs, Seq};
use std::alloc::{AllocError, Global};

// What a list joined by commas is made of.
trait Item: Sized + Copy {
    ghost use Rattle.std.specs.Prelude.{ℕ, List, Bool};

    ghost in_form: { Self → Type 0 };

    ghost text: { Self → List ℕ };

    // The item with this text.
    fn read(alloc: Global, bytes: &[u8]) -> Result<Option<Self>, AllocError>
        ensures { IfOk result (λ found. IsRead in_form text bytes.now found) };
}

// One to `most` items, joined by commas. No item holds a comma.
fn items<T: Item + Drop>(
    alloc: Global,
    bytes: &[u8],
    most: usize,
) -> Result<Option<Seq<T>>, AllocError>
    requires some { 1 ≤ most }
    requires no_comma { (a : T) → T.in_form a → has_byte 44 (T.text a) ≡ false }
    ensures { IfOk result (λ found. IsRead (ItemsInForm T.in_form most) (items_text T.text) bytes.now found) }
{
    let mut found = Seq::new(alloc);
    let mut rest = bytes;
    while let Some((word, behind)) = cut(rest, b',') {
        if found.as_slice().len() + 1 == most {
            return Ok(None);
        }
        let Some(item) = T::read(alloc, word)? else {
            return Ok(None);
        };
        found.push(item)?;
        rest = behind;
    }
    let Some(item) = T::read(alloc, rest)? else {
        return Ok(None);
    };
    found.push(item)?;
    Ok(Some(found))
}

// A node.
impl Item for u8 {
    ghost in_form = { IsWithin 1 255 };

    ghost text = { decimal };

    fn read(alloc: Global, bytes: &[u8]) -> Result<Option<u8>, AllocError> {
        match number(alloc, bytes, 1, 255)? {
            Some(node) => Ok(Some(node as u8)),
            None => Ok(None),
        }
    }
}

// A number.
impl Item for u64 {
    ghost in_form = { NumberInForm };

    ghost text = { decimal };

    fn read(alloc: Global, bytes: &[u8]) -> Result<Option<u64>, AllocError> {
        number(alloc, bytes, 0, u64::MAX)
    }
}

// A key and a value, with a colon between them.
impl Item for (u64, u64) {
    ghost use Rattle.arj_text.specs.Fields.{pair_text};

    ghost in_form = { PairInForm };

    ghost text = { pair_text };

    fn read(alloc: Global, bytes: &[u8]) -> Result<Option<(u64, u64)>, AllocError> {
        let Some((key, rest)) = number_first(alloc, bytes, b':', 0, u64::MAX)? else {
            return Ok(None);
        };
        match number(alloc, rest, 0, u64::MAX)? {
            Some(value) => Ok(Some((key, value))),
            None => Ok(None),
        }
    }
}

/// A list of distinct nodes from 1 to `n`, one to `most` of them.
pub fn nodes(
    alloc: Global,
    bytes: &[u8],
    n: u8,
    most: usize,
) -> Result<Option<NodeList>, AllocError>
    requires { 1 ≤ most }
    ensures { IfOk result (λ found. IsRead (NodesInForm n most) list_text bytes.now found) }
{
    let Some(found) = items::<u8>(alloc, bytes, most)? else {
        return Ok(None);
    };
    if are_distinct_up_to(found.as_slice(), n) {
        Ok(Some(found))
    } else {
        Ok(None)
    }
}

/// Such a list before a space, and what stands behind that.
pub fn nodes_first(
    alloc: Global,
    bytes: &[u8],
    n: u8,
    most: usize,
) -> Result<Option<(NodeList, &[u8])>, AllocError>
    requires { 1 ≤ most }
    ensures { IfOk result (λ found. MatchOption found
        (HasNoFirst 32 (NodesInForm n most) list_text bytes.now)
        (λ p. IsFirst 32 (NodesInForm n most) list_text bytes.now p.0 p.1.now)) }
{
    let Some((word, rest)) = cut(bytes, b' ') else {
        return Ok(None);
    };
    match nodes(alloc, word, n, most)? {
        Some(found) => Ok(Some((found, rest))),
        None => Ok(None),
    }
}

// Whether the nodes are from 1 to `n` and none stands twice.
fn are_distinct_up_to(nodes: &[u8], n: u8) -> bool
    ensures { result ≡ (list_all (λ m. nat_le 1 m && nat_le m n) nodes.now && is_distinct nodes.now) }
{
    are_up_to(nodes, n) && are_distinct(nodes)
}

fn are_up_to(nodes: &[u8], n: u8) -> bool
    ensures { result ≡ list_all (λ m. nat_le 1 m && nat_le m n) nodes.now }
{
    nodes.iter().all(|node| 1 <= *node && *node <= n)
}

fn are_distinct(nodes: &[u8]) -> bool
    ensures { result ≡ is_distinct nodes.now }
{
    for (at, node) in nodes.iter().enumerate() {
        if has_node(&nodes[at + 1..], *node) {
            return false;
        }
    }
    true
}

fn has_node(nodes: &[u8], node: u8) -> bool
    ensures { result ≡ list_any (λ m. m == node) nodes.now }
{
    nodes.iter().any(|other| *other == node)
}

/// At most `most` numbers, or `-` for none.
pub fn numbers(alloc: Global, bytes: &[u8], most: usize) -> Result<Option<Numbers>, AllocError>
    requires { 1 ≤ most }
    ensures { IfOk result (λ found. IsRead (NumbersInForm most) numbers_text bytes.now found) }
{
    if is_text(bytes, b"-") {
        return Ok(Some(Numbers::new(alloc)));
    }
    items::<u64>(alloc, bytes, most)
}

/// At most `most` pairs, keys strictly increasing, or `-` for none.
pub fn pairs(alloc: Global, bytes: &[u8], most: usize) -> Result<Option<Pairs>, AllocError>
    requires { 1 ≤ most }
    ensures { IfOk result (λ found. IsRead (PairsInForm most) pairs_text bytes.now found) }
{
    if is_text(bytes, b"-") {
        return Ok(Some(Pairs::new(alloc)));
    }
    let Some(found) = items::<(u64, u64)>(alloc, bytes, most)? else {
        return Ok(None);
    };
    if are_rising(found.as_slice()) {
        Ok(Some(found))
    } else {
        Ok(None)
    }
}

// Whether each key is above the one before it.
fn are_rising(pairs: &[(u64, u64)]) -> bool
    ensures { result ≡ is_rising pairs.now }
{
    let mut rest = pairs;
    while let [first, behind @ ..] = rest {
        if !is_below_first(first.0, behind) {
            return false;
        }
        rest = behind;
    }
    true
}

// Whether the key is below that of the first of these pairs, if there is one.
fn is_below_first(key: u64, pairs: &[(u64, u64)]) -> bool
    ensures { result ≡ is_below_first key pairs.now }
{
    match pairs {
        [] => true,
        [first, ..] => key < first.0,
    }
}
