// Packed states as values.
ghost use Rattle.arj_words.specs.Page.{Stays};

use crate::{Names, Page};
use arj_base::{Bytes, Class, Format};
use arj_class::Value;
use arj_text::words::put_hex;
use std::alloc::Global;

// Writes bytes as digits.
fn put_digits(page: &mut Page, payload: &[u8])
    ensures { Stays page.old.bytes page.new.bytes }
{
    let mut text = Bytes::new(page.alloc);
    match put_hex(&mut text, payload) {
        Ok(()) => page.put(text.as_slice()),
        Err(_) => page.whole = false,
    }
}

// The value of an object of this class that is gone, where the payload is that of one. Format two has all payloads of format one.
fn gone_value(alloc: Global, class: Class, payload: &[u8]) -> Option<Value> {
    match Value::restore_state(alloc, Class::Gone, Format::Two, payload) {
        Ok(value) if value.own_class() == class => Some(value),
        _ => None,
    }
}

// Writes the value of an object that is there, and where its payload may also be that of one that is gone says so.
fn put_there(page: &mut Page, value: &Value, or_gone: bool)
    ensures { Stays page.old.bytes page.new.bytes }
{
    page.value(value);
    if or_gone {
        page.put(b", or gone");
    }
}

// Writes the value of an object that is gone, or the bytes of a payload as digits.
fn put_gone(page: &mut Page, gone: Option<Value>, payload: &[u8])
    ensures { Stays page.old.bytes page.new.bytes }
{
    match gone {
        Some(value) => page.value(&value),
        None => put_digits(page, payload),
    }
}

/// Writes the value that an object's payload packs: as a script has it, by the class of the object, or its bytes as digits where it
/// packs none. A register's byte may also say that it is gone.
pub fn put_payload(page: &mut Page, names: &Names, x: u16, payload: &[u8])
    ensures { Stays page.old.bytes page.new.bytes }
{
    let Some(class) = names.class_of(x) else {
        put_digits(page, payload);
        return;
    };
    let gone = gone_value(page.alloc, class, payload);
    match Value::restore_state(page.alloc, class, Format::Two, payload) {
        Ok(value) => put_there(page, &value, gone.is_some()),
        Err(_) => put_gone(page, gone, payload),
    }
}
