// The lines of a header.
ghost use Rattle.std.specs.Prelude.{IfOk};
ghost use Rattle.arj_text.specs.Fields.{IsRead, IsWithin};
ghost use Rattle.arj_journal.specs.ScriptText.{nodes_text, object_text};
ghost use Rattle.arj_journal.specs.ScriptForm.{ObjectLineInForm};

use arj_journal::{NODES, OBJECTS, ObjectLine, SERVERS, STORES};
use arj_text::field::{after, number, number_first};
use arj_text::field_list::{nodes, nodes_first};
use arj_text::field_value::value_first;
use std::alloc::{AllocError, Global};

/// `nodes N`, N from 1 to 16.
pub fn nodes_line(alloc: Global, bytes: &[u8]) -> Result<Option<u64>, AllocError>
    ensures { IfOk result (λ found. IsRead (IsWithin 1 NODES) nodes_text bytes.now found) }
{
    let Some(digits) = after(bytes, b"nodes ") else {
        return Ok(None);
    };
    number(alloc, digits, 1, NODES)
}

/// `object X CLASS VALUE servers LIST stores LIST`, X from 1 to 256, the lists of distinct nodes from 1 to `count`.
pub fn object(alloc: Global, bytes: &[u8], count: u8) -> Result<Option<ObjectLine>, AllocError>
    ensures { IfOk result (λ found. IsRead (ObjectLineInForm count) object_text bytes.now found) }
{
    let Some(fields) = after(bytes, b"object ") else {
        return Ok(None);
    };
    let Some((x, fields)) = number_first(alloc, fields, b' ', 1, OBJECTS)? else {
        return Ok(None);
    };
    let Some((value, fields)) = value_first(alloc, fields)? else {
        return Ok(None);
    };
    let Some(fields) = after(fields, b"servers ") else {
        return Ok(None);
    };
    let Some((servers, fields)) = nodes_first(alloc, fields, count, SERVERS)? else {
        return Ok(None);
    };
    let Some(fields) = after(fields, b"stores ") else {
        return Ok(None);
    };
    let Some(stores) = nodes(alloc, fields, count, STORES)? else {
        return Ok(None);
    };
    Ok(Some(ObjectLine {
        x: x as u16,
        value,
        servers,
        stores,
    }))
}
