// One binding for a root, with one incarnation of its server.
ghost use Rattle.std.specs.Prelude.{◌≡◌};
ghost use Rattle.arj_protocol.specs.Call.{two_incs, two_bindings, named_again, with_inc, same_binding, other_binding, bound_by, activated_by, recorded_kept};
ghost use Rattle.arj_protocol.specs.Order.{binding_number, binding_eq, binding_less};
ghost use Rattle.arj_bind.specs.Shown.{at_of, moved_of};

use crate::at::{At, RecordStep};
use crate::moved::{Moved, finds, moves};
use crate::{CallEnd, Known};
use arj_base::Binding;
use arj_msg::What;

// How many counts there are in an incarnation of naming.
const COUNTS: u64 = 4_294_967_296;

// A binding as a number: bindings are ordered by incarnation and count, each of 32 bits.
fn number(binding: Binding) -> u64
    ensures { result ≡ binding_number binding }
{
    u64::from(binding.inc) * COUNTS + u64::from(binding.count)
}

/// Whether two bindings are one.
pub fn is_same(one: Binding, other: Binding) -> bool
    ensures { result ≡ binding_eq one other }
{
    number(one) == number(other)
}

fn is_less(one: Binding, other: Binding) -> bool
    ensures { result ≡ binding_less one other }
{
    number(one) < number(other)
}

// The lesser and the greater of two incarnations.
fn two_incs(one: u32, other: u32) -> What
    ensures { result ≡ two_incs one other }
{
    if other < one {
        What::Inc {
            had: other,
            now: one,
        }
    } else {
        What::Inc {
            had: one,
            now: other,
        }
    }
}

// The lesser and the greater of two bindings.
fn two_bindings(one: Binding, other: Binding) -> What
    ensures { result ≡ two_bindings one other }
{
    if is_less(other, one) {
        What::Bind {
            had: other,
            now: one,
        }
    } else {
        What::Bind {
            had: one,
            now: other,
        }
    }
}

// The answer names the kept binding: its list counts from now on.
fn named_again(old: Known, known: Known) -> Known
    ensures { result ≡ named_again old known }
{
    let mut kept = old;
    kept.recorded = kept.recorded || known.recorded;
    kept.stores = known.stores;
    kept
}

// An incarnation is named for the kept binding, for which `first` was named before: the first one stays.
fn with_inc(inc: u32, kept: Known, at: At, first: Option<u32>) -> Moved
    ensures { moved_of result ≡ with_inc inc kept (at_of at) first }
{
    match first {
        None => {
            let mut named = kept;
            named.inc = Some(inc);
            moves(Some(named), at)
        }
        Some(first) if first == inc => moves(Some(kept), at),
        Some(first) => {
            let end = CallEnd::Changed {
                node: kept.server,
                what: two_incs(first, inc),
            };
            finds(Some(kept), end)
        }
    }
}

fn same_binding(old: Known, known: Known, at: At) -> Moved
    ensures { moved_of result ≡ same_binding old known (at_of at) known.inc }
{
    match known.inc {
        None => moves(Some(named_again(old, known)), at),
        Some(inc) => {
            let first = old.inc;
            with_inc(inc, named_again(old, known), at, first)
        }
    }
}

// A greater binding replaces the kept one where the root is free of it. Otherwise the call has changed.
fn other_binding(free: bool, old: Known, known: Known, at: At) -> Moved
    ensures { moved_of result ≡ other_binding free old known (at_of at) }
{
    if free && is_less(old.binding, known.binding) {
        moves(Some(known), at)
    } else {
        let end = CallEnd::Changed {
            node: 1,
            what: two_bindings(old.binding, known.binding),
        };
        finds(Some(old), end)
    }
}

/// An answer of naming named a binding. The call goes on to the step where what the root keeps allows it.
pub fn bound_by(free: bool, known: Known, at: At, kept: Option<Known>) -> Moved
    ensures { moved_of result ≡ bound_by free known (at_of at) kept }
{
    match kept {
        None => moves(Some(known), at),
        Some(old) => {
            if is_same(old.binding, known.binding) {
                same_binding(old, known, at)
            } else {
                other_binding(free, old, known, at)
            }
        }
    }
}

/// The server took the copy, and named its incarnation.
pub fn activated_by(known: Known, inc: u32, kept: Option<Known>) -> Moved
    ensures { moved_of result ≡ activated_by known inc kept }
{
    let binding = known.binding;
    let at = At::Record(RecordStep { known, inc });
    match kept {
        None => moves(None, at),
        Some(old) => {
            if is_same(old.binding, binding) {
                let first = old.inc;
                with_inc(inc, old, at, first)
            } else {
                moves(Some(old), at)
            }
        }
    }
}

/// What is kept once a binding is recorded.
pub fn recorded_kept(known: &Known, kept: Option<Known>) -> Option<Known>
    ensures { result ≡ recorded_kept known.now kept }
{
    match kept {
        None => None,
        Some(old) => {
            let mut kept = old;
            kept.recorded = kept.recorded || is_same(kept.binding, known.binding);
            Some(kept)
        }
    }
}
