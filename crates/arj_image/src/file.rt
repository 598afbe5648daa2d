// The line of a file, read and written.
ghost use Rattle.std.specs.Prelude.{◌≡◌, ◌++◌, ◌∷◌, [], false, IfOk, MatchOption, MatchBool, OnOk, OnErr, IsErrOf, List};
ghost use Rattle.arj_text.specs.Fields.{IsRead, has_byte};
ghost use Rattle.arj_script.specs.declared.fault.ScriptFault.TheVariants as script_fault;
ghost use Rattle.arj_image.specs.Grammar.{FileFits};
ghost use Rattle.arj_image.specs.Texts.{FileInForm, HeldInForm, file_text, held_text, is_before as stands_before, is_last};
ghost use Rattle.arj_image.specs.declared.image.NodeFile.{NodeFile as file_type};

use crate::image::{Files, NodeFile};
use crate::slot::{put_slot, slot};
use arj_base::Bytes;
use arj_disk::{Slot, orders};
use arj_script::ScriptFault;
use arj_text::field::number_first;
use arj_text::field_hex::hex;
use arj_text::words::{put_decimal, put_hex};
use std::alloc::{AllocError, Global};
use std::cmp::Ordering;

/// Takes the line of a file, which stands behind those before it.
pub fn next_file(
    alloc: Global,
    nodes: u8,
    files: &mut Files,
    bytes: &[u8],
) -> Result<(), ScriptFault>
    ensures ok { OnOk result ((f : file_type) × FileFits nodes files.old f × (bytes.now ≡ file_text f) × (files.new ≡ files.old ++ f ∷ [])) }
    ensures bad { IsErrOf result script_fault.Bad → (f : file_type) → FileFits nodes files.old f → bytes.now ≡ file_text f → ⊥ }
    ensures err { OnErr result (files.new ≡ files.old) }
{
    let Some(file) = file(alloc, nodes, bytes)? else {
        return Err(ScriptFault::Bad);
    };
    if !is_behind(files.as_slice(), &file) {
        return Err(ScriptFault::Bad);
    }
    files.push(file)?;
    Ok(())
}

// The line of a file.
fn file(alloc: Global, nodes: u8, bytes: &[u8]) -> Result<Option<NodeFile>, AllocError>
    ensures { IfOk result (λ found. IsRead (FileInForm nodes) file_text bytes.now found) }
{
    let Some((node, rest)) = number_first(alloc, bytes, b' ', 1, u64::from(nodes))? else {
        return Ok(None);
    };
    match held(alloc, rest)? {
        Some((slot, bytes)) => Ok(Some(NodeFile {
            node: node as u8,
            slot,
            bytes,
        })),
        None => Ok(None),
    }
}

// A file's name and its bytes.
fn held(alloc: Global, bytes: &[u8]) -> Result<Option<(Slot, Bytes)>, AllocError>
    ensures { IfOk result (λ found. IsRead HeldInForm held_text bytes.now found) }
{
    let Some((name, digits)) = cut_last(bytes, b' ') else {
        return Ok(None);
    };
    let Some(slot) = slot(alloc, name)? else {
        return Ok(None);
    };
    match hex(alloc, digits)? {
        Some(bytes) => Ok(Some((slot, bytes))),
        None => Ok(None),
    }
}

// The bytes before the last separator, and those behind it. None where there is no separator.
fn cut_last(bytes: &[u8], separator: u8) -> Option<(&[u8], &[u8])>
    ensures { MatchOption result
        (has_byte separator bytes.now ≡ false)
        (λ parts. (has_byte separator parts.1.now ≡ false)
        × (bytes.now ≡ parts.0.now ++ separator ∷ parts.1.now)) }
{
    let mut at = bytes.len();
    while 0 < at {
        at -= 1;
        if bytes[at] == separator {
            return Some((&bytes[..at], &bytes[at + 1..]));
        }
    }
    None
}

// Whether the file stands behind the last one.
fn is_behind(files: &[NodeFile], file: &NodeFile) -> bool
    ensures { result ≡ is_last (λ (g : file_type). stands_before g file.now) files.now }
{
    match files {
        [] => true,
        [.., last] => is_before(last, file),
    }
}

// Whether one file stands before another.
fn is_before(file: &NodeFile, other: &NodeFile) -> bool
    ensures { result ≡ stands_before file.now other.now }
{
    orders();
    match file.node.cmp(&other.node) {
        Ordering::Less => true,
        Ordering::Equal => file.slot < other.slot,
        Ordering::Greater => false,
    }
}

/// Puts the line of a file at the end, without its end.
#[tactic(auto, using(std::proofs::lemmas::List::append_assoc))]
pub fn put_file(alloc: Global, out: &mut Bytes, file: &NodeFile) -> Result<(), AllocError>
    ensures { OnOk result (out.new ≡ out.old ++ file_text file.now) }
{
    put_decimal(out, u64::from(file.node))?;
    out.extend(b" ")?;
    put_slot(alloc, out, file.slot)?;
    out.extend(b" ")?;
    put_hex(out, file.bytes.as_slice())
}
