// The lines of the header, its seed and its turns.
ghost use Rattle.std.specs.Prelude.{◌≡◌, ◌≢◌, ◌≤◌, ◌++◌, ℕ, true, codes, length, is_some, IfOk, IfSome, OnOk, OnErr, IsErrOf};
ghost use Rattle.std.specs.Fmt.{decimal};
ghost use Rattle.arj_journal.specs.ScriptForm.{HeaderInForm};
ghost use Rattle.arj_prog.specs.declared.limits.TheConstants.{TURNS};
ghost use Rattle.arj_prog.specs.declared.place.Place.TheVariants.{Heading, Drafting};
ghost use Rattle.arj_prog.specs.Grammar.{FitsHead, HeadingTook, IsBadLine, SeedInForm, drafted};
ghost use Rattle.arj_text.specs.Fields.{IsRead, IsWithin, behind};
ghost use Rattle.arj_script.specs.Grammar as script;
ghost use Rattle.arj_script.specs.declared.fault.ScriptFault.TheVariants as script_fault;
ghost use Rattle.arj_script.specs.declared.limits.TheConstants.{LINE_BYTES};

use crate::draft::Draft;
use crate::limits::TURNS;
use crate::line::number_behind;
use arj_base::{Format, Seq};
use arj_journal::Header;
use arj_script::{Item, Reader, ScriptFault};
use arj_text::field::{WORD_MAX, is_text};
use std::alloc::{AllocError, Global};
use std::mem::replace;

// Takes a line of the header, which isn't blank, and isn't its end.
fn head_line(header: &mut Reader, bytes: &[u8]) -> Result<(), ScriptFault>
    requires short { length bytes.now ≤ LINE_BYTES }
    requires says { script.IsBlank bytes.now → ⊥ }
    ensures ok { OnOk result ((f : script.Form) × FitsHead header.old f × script.Spells bytes.now f × (header.new ≡ script.next_place header.old f)) }
    ensures bad { IsErrOf result script_fault.Bad → (f : script.Form) → FitsHead header.old f → script.Spells bytes.now f → ⊥ }
    ensures err { OnErr result (header.new ≡ header.old) }
{
    if is_text(bytes, b"run") {
        return Err(ScriptFault::Bad);
    }
    match header.line(bytes)? {
        Item::Part => Ok(()),
        Item::Blank | Item::Run(_) | Item::Event(_) => Err(ScriptFault::Bad),
    }
}

// The header that was read, which has its nodes.
fn end_header(header: &mut Reader) -> Result<Header, ScriptFault>
    requires { is_some (script.nodes_at header.old) ≡ true }
    ensures ok { IfOk result (λ h. header.old ≡ script.Objects h) }
    ensures in_form { IfOk result (λ h. HeaderInForm h) }
    ensures memory { IsErrOf result script_fault.Bad → ⊥ }
    ensures err { OnErr result (header.new ≡ header.old) }
{
    match header.line(b"run") {
        Ok(Item::Run(header)) => Ok(header),
        Ok(Item::Blank | Item::Part | Item::Event(_)) => Err(ScriptFault::Memory),
        Err(_) => Err(ScriptFault::Memory),
    }
}

/// Takes a line where a header is read, which isn't blank. Some with the header and its seed, at the line `seed`.
#[tactic(auto, using(crate::proofs::Places::bad_heading))]
pub fn heading(
    alloc: Global,
    header: &mut Reader,
    bytes: &[u8],
) -> Result<Option<(Header, u32)>, ScriptFault>
    requires short { length bytes.now ≤ LINE_BYTES }
    requires says { script.IsBlank bytes.now → ⊥ }
    ensures ok { IfOk result (λ found. HeadingTook header.old header.new bytes.now found) }
    ensures in_form { IfOk result (λ found. IfSome found (λ p. HeaderInForm p.0)) }
    ensures bad { IsErrOf result script_fault.Bad → IsBadLine (Heading header.old) bytes.now }
    ensures err { OnErr result (header.new ≡ header.old) }
{
    match seed_at(alloc, header, bytes)? {
        Some(seed) => {
            let ended = end_header(header)?;
            Ok(Some((ended, seed)))
        }
        None => {
            head_line(header, bytes)?;
            Ok(None)
        }
    }
}

// What the line `seed` says, behind the count of nodes.
fn seed_at(alloc: Global, header: &Reader, bytes: &[u8]) -> Result<Option<u32>, AllocError>
    ensures { IfOk result (λ found. IsRead (SeedInForm header.now) (behind (codes "seed ") decimal) bytes.now found) }
{
    if header.nodes().is_none() {
        return Ok(None);
    }
    match number_behind(alloc, b"seed ", bytes, 0, WORD_MAX)? {
        Some(seed) => Ok(Some(seed as u32)),
        None => Ok(None),
    }
}

/// Takes the line `turns`, behind the header and the seed.
pub fn begin(
    alloc: Global,
    header: &mut Header,
    seed: u32,
    bytes: &[u8],
) -> Result<Draft, ScriptFault>
    ensures ok { IfOk result (λ d. (n : ℕ) × IsWithin 1 TURNS n × (bytes.now ≡ codes "turns " ++ decimal n) × (Drafting d ≡ drafted header.old seed n)) }
    ensures kept { IfOk result (λ d. d.header ≡ header.old) }
    ensures bad { IsErrOf result script_fault.Bad → (n : ℕ) → IsWithin 1 TURNS n → bytes.now ≢ codes "turns " ++ decimal n }
    ensures err { OnErr result (header.new ≡ header.old) }
{
    let Some(turns) = number_behind(alloc, b"turns ", bytes, 1, TURNS)? else {
        return Err(ScriptFault::Bad);
    };
    let empty = Header {
        nodes: 0,
        objects: Seq::new(alloc),
        format: Format::Two,
    };
    Ok(Draft {
        header: replace(header, empty),
        seed,
        turns: turns as u32,
        programs: Seq::new(alloc),
        opening: None,
    })
}
