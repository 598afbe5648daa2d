// The labels of a program's actions.
ghost use Rattle.std.specs.Prelude.{◌≡◌, ◌<◌, ◌≤◌, ◌++◌, OnOk, IfOk, length};
ghost use Rattle.std.specs.Fmt.{decimal};
ghost use Rattle.arj_progrun.specs.Client.{block_label, try_label};
ghost use Rattle.arj_text.specs.Label.{name};

use arj_base::Bytes;
use arj_journal::Label;
use std::alloc::{AllocError, Global};

// Puts a letter and a number at the end.
#[tactic(auto, using(std::proofs::lemmas::List::append_assoc))]
fn put(text: &mut Bytes, letter: &[u8], number: u64) -> Result<(), AllocError>
    ensures { OnOk result (text.new ≡ text.old ++ (letter.now ++ decimal number)) }
{
    text.extend(letter)?;
    text.extend_decimal(number)
}

/// The label of the top of a program's try.
#[tactic(auto, using(crate::proofs::Short::try_short, std::proofs::lemmas::List::append_assoc))]
pub fn of_try(alloc: Global, number: u8, attempt: u8) -> Result<Label, AllocError>
    ensures { IfOk result (λ label. name label ≡ try_label number attempt) }
{
    let mut text = Bytes::new(alloc);
    put(&mut text, b"P", u64::from(number))?;
    put(&mut text, b"t", u64::from(attempt))?;
    Ok(Label::new(text.as_slice()))
}

/// The label of the nested action that a try began as its one of this number.
#[tactic(auto, using(crate::proofs::Short::block_short, std::proofs::lemmas::List::append_assoc))]
pub fn of_block(alloc: Global, number: u8, attempt: u8, begun: u32) -> Result<Label, AllocError>
    requires few { begun < 100000 }
    ensures { IfOk result (λ label. name label ≡ block_label number attempt begun) }
{
    let mut text = Bytes::new(alloc);
    put(&mut text, b"P", u64::from(number))?;
    put(&mut text, b"t", u64::from(attempt))?;
    put(&mut text, b"b", u64::from(begun))?;
    Ok(Label::new(text.as_slice()))
}
