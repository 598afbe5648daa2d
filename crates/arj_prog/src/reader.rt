// The reader of client programs.
ghost use Rattle.std.specs.Prelude.{MatchBool};
ghost use Rattle.arj_script.specs.Grammar.{IsBlank};

use crate::draft::drafting;
use crate::heading::{begin, heading};
use crate::place::Place;
use crate::plan::Plan;
use arj_script::{LINE_BYTES, Reader, ScriptFault};
use std::alloc::Global;
use std::marker::Model;

/// What a line was.
#[derive(Drop)]
pub enum ProgItem {
    /// An empty line or a comment.
    Blank,
    /// A part of the plan.
    Part,
    /// The line `run`, with the plan that it ends.
    Run(Plan),
}

/// Reads client programs, a line at a time. Contracts see it as the place where it stands.
#[derive(Drop)]
pub struct ProgReader {
    alloc: Global,
    place: Place,
}

impl Model for ProgReader {
    ghost use Rattle.arj_prog.specs.declared.place.Place.{Place};

    ghost Value = { Place };

    ghost use Rattle.std.specs.Coded.{codes};
    ghost use Rattle.arj_prog.specs.contracts.statements.Statements as statements;
    ghost use Rattle.arj_prog.specs.contracts.waiting.Waiting as waiting;

    ghost coded = { Prim.hlevel (codes, statements.the_row.coded, waiting.the_row.coded) };

    ghost view = { λ r. r.place };

    ghost use Rattle.arj_prog.specs.InForm.{PlaceInForm};

    ghost invariant = { λ r. PlaceInForm r.place };
}

impl ProgReader {
    ghost use Rattle.std.specs.Prelude.{◌≡◌, IfOk, OnErr, IsErrOf};
    ghost use Rattle.arj_prog.specs.declared.place.Place.TheVariants.{Heading};
    ghost use Rattle.arj_prog.specs.Grammar.{Form, HasForm, IsBadLine, Tells, TellsInForm, next_place};
    ghost use Rattle.arj_script.specs.Grammar.{Start};
    ghost use Rattle.arj_script.specs.declared.fault.ScriptFault.TheVariants as script_fault;

    /// A reader before the first line.
    pub fn new(alloc: Global) -> ProgReader
        ensures { result ≡ Heading Start }
    {
        ProgReader {
            alloc,
            place: Place::Heading(Reader::new(alloc)),
        }
    }

    /// Takes a line, without its end, and tells what it was. A line that is refused changes nothing.
    pub fn line(&mut self, bytes: &[u8]) -> Result<ProgItem, ScriptFault>
        // What is taken has this form at its place.
        ensures taken { IfOk result (λ item. (form : Form) × HasForm self.old bytes.now form
            × Tells self.old form item × (self.new ≡ next_place self.old form)) }
        // A plan's header has 1 to 16 nodes, and objects in form among them, by their numbers.
        ensures header { IfOk result (λ item. TellsInForm item) }
        // A line is bad exactly where it has no form at its place.
        ensures bad { IsErrOf result script_fault.Bad → IsBadLine self.old bytes.now }
        ensures err { OnErr result (self.new ≡ self.old) }
    {
        if bytes.len() > LINE_BYTES {
            return Err(ScriptFault::Bad);
        }
        if is_blank(bytes) {
            return Ok(ProgItem::Blank);
        }
        match &mut self.place {
            Place::Heading(header) => {
                let Some((header, seed)) = heading(self.alloc, header, bytes)? else {
                    return Ok(ProgItem::Part);
                };
                self.place = Place::Seeded { header, seed };
                Ok(ProgItem::Part)
            }
            Place::Seeded { header, seed } => {
                let draft = begin(self.alloc, header, *seed, bytes)?;
                self.place = Place::Drafting(draft);
                Ok(ProgItem::Part)
            }
            Place::Drafting(draft) => {
                let Some(plan) = drafting(self.alloc, draft, bytes)? else {
                    return Ok(ProgItem::Part);
                };
                self.place = Place::Over;
                Ok(ProgItem::Run(plan))
            }
            Place::Over => Err(ScriptFault::Bad),
        }
    }
}

// Whether the line is empty or a comment.
fn is_blank(bytes: &[u8]) -> bool
    ensures { MatchBool result (IsBlank bytes.now) (IsBlank bytes.now → ⊥) }
{
    match bytes {
        [] => true,
        [first, ..] => *first == b'#',
    }
}
