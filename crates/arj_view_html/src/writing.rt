// The page of a run.
ghost use Rattle.std.specs.Prelude.{◌≡◌, ◌++◌, IfOk, OnOk};
ghost use Rattle.std.specs.List.{flat_map};
ghost use Rattle.arj_view_html.specs.Page.{asked_text, page_text, script_line, told_text};
ghost use Rattle.arj_view_html.specs.declared.page.TheConstants.{BACK, FRONT};
ghost use Rattle.arj_words.specs.Page.{Appends, Stays, escaped};

use crate::page::{BACK, FRONT};
use arj_base::Bytes;
use arj_last::put_last_states;
use arj_pending::put_pendings;
use arj_seen::{Asked, ScriptLine, Seen};
use arj_view_data::put_run;
use arj_words::Page;
use std::alloc::{AllocError, Global};

// What a line of a script asks for, in a word.
fn asked_word(asked: Asked) -> &'static [u8]
    ensures { result.now ≡ asked_text asked }
{
    match asked {
        Asked::Nothing => b"script ",
        Asked::Settling => b"settle ",
        Asked::Event => b"event ",
    }
}

// A line of the script.
#[tactic(auto, using(std::proofs::lemmas::List::append_assoc))]
fn put_script_line(out: &mut Bytes, line: &ScriptLine) -> Result<(), AllocError>
    ensures { OnOk result (out.new ≡ out.old ++ script_line line.now) }
{
    out.extend(asked_word(line.asked))?;
    out.extend(line.text.as_slice())?;
    out.extend(b"\n")
}

// The lines of the script.
#[tactic(auto, using(std::proofs::lemmas::List::append_assoc))]
fn put_script(out: &mut Bytes, script: &[ScriptLine]) -> Result<(), AllocError>
    ensures { OnOk result (out.new ≡ out.old ++ flat_map script_line script.now) }
{
    for line in script {
        put_script_line(out, line)?;
    }
    Ok(())
}

// What is told of a run.
#[tactic(auto, using(std::proofs::lemmas::List::append_assoc))]
fn told(alloc: Global, seen: &Seen) -> Result<Bytes, AllocError>
    ensures { IfOk result (λ told. told ≡ told_text seen.now) }
{
    let mut out = Bytes::new(alloc);
    put_script(&mut out, seen.script.as_slice())?;
    put_run(alloc, &mut out, &seen.header, seen.lines.as_slice())?;
    put_last_states(alloc, &mut out, &seen.header, seen.lines.as_slice())?;
    put_pendings(
        alloc,
        &mut out,
        seen.script.as_slice(),
        &seen.header,
        seen.lines.as_slice(),
    )?;
    Ok(out)
}

// What is told, escaped, between these.
#[tactic(auto, using(std::proofs::lemmas::List::append_assoc))]
fn put_page(page: &mut Page, front: &[u8], told: &[u8], back: &[u8])
    ensures appends { Appends page.old (front.now ++ (escaped told.now ++ back.now)) page.new }
    ensures stays { Stays page.old.bytes page.new.bytes }
{
    page.put(front);
    page.escaped(told);
    page.put(back);
}

/// Writes the page of a run. What stands before and behind what is told is the same for each run.
pub fn write_html(alloc: Global, page: &mut Page, seen: &Seen) -> Result<(), AllocError>
    ensures appends { OnOk result (Appends page.old (page_text FRONT.now BACK.now seen.now) page.new) }
    ensures stays { Stays page.old.bytes page.new.bytes }
{
    let told = told(alloc, seen)?;
    put_page(page, FRONT, told.as_slice(), BACK);
    Ok(())
}
