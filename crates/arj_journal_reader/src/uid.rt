// Uids and bindings in a line: decimals with points between them.
ghost use Rattle.std.specs.Prelude.{IfOk};
ghost use Rattle.arj_base.specs.Uid.{UidFits, binding_text, uid_text};
ghost use Rattle.arj_text.specs.Fields.{BindingInForm, IsRead};

use arj_base::{Binding, Uid};
use arj_text::field::{WORD_MAX, number, number_first};
use std::alloc::{AllocError, Global};

/// A Uid, printed `node.inc.num`.
pub fn uid(alloc: Global, bytes: &[u8]) -> Result<Option<Uid>, AllocError>
    ensures { IfOk result (λ found. IsRead UidFits uid_text bytes.now found) }
{
    let Some((node, rest)) = number_first(alloc, bytes, b'.', 0, WORD_MAX)? else {
        return Ok(None);
    };
    let Some((inc, digits)) = number_first(alloc, rest, b'.', 0, WORD_MAX)? else {
        return Ok(None);
    };
    let Some(num) = number(alloc, digits, 0, u64::MAX)? else {
        return Ok(None);
    };
    Ok(Some(Uid {
        node: node as u32,
        inc: inc as u32,
        num,
    }))
}

/// A binding, printed `inc.count`.
pub fn binding(alloc: Global, bytes: &[u8]) -> Result<Option<Binding>, AllocError>
    ensures { IfOk result (λ found. IsRead BindingInForm binding_text bytes.now found) }
{
    let Some((inc, digits)) = number_first(alloc, bytes, b'.', 0, WORD_MAX)? else {
        return Ok(None);
    };
    let Some(count) = number(alloc, digits, 0, WORD_MAX)? else {
        return Ok(None);
    };
    Ok(Some(Binding {
        inc: inc as u32,
        count: count as u32,
    }))
}
