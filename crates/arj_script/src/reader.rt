// The reader of a script.
use crate::ScriptFault;
use crate::limits::LINE_BYTES;
use crate::place::{event_line, first_line, format_line, is_blank, object_line};
use crate::stage::Stage;
use arj_base::Format;
use arj_journal::{Event, Header, ObjectLines};
use arj_text::field::is_text;
use std::alloc::Global;
use std::marker::Model;
use std::mem::replace;

/// What a line was.
#[derive(Drop)]
pub enum Item {
    /// An empty line or a comment.
    Blank,
    /// A part of the header.
    Part,
    /// The line `run`, with the header that it ends: the objects by their numbers.
    Run(Header),
    Event(Event),
}

/// Reads a script, a line at a time. Contracts see it as the place where it stands.
#[derive(Drop)]
pub struct Reader {
    alloc: Global,
    stage: Stage,
}

impl Model for Reader {
    ghost use Rattle.arj_script.specs.Grammar.{Place, PlaceInForm};
    ghost use Rattle.arj_script.specs.Stage.{place_of};

    ghost Value = { Place };

    ghost view = { λ r. place_of r.stage };

    ghost invariant = { λ r. PlaceInForm (place_of r.stage) };
}

impl Reader {
    ghost use Rattle.std.specs.Prelude.{◌≡◌, IfOk, OnErr, IsErrOf};
    ghost use Rattle.arj_script.specs.Grammar.{Form, Start, next_place, nodes_at, HasForm, IsBadLine};
    ghost use Rattle.arj_script.specs.Input.{Tells, TellsInForm};
    ghost use Rattle.arj_script.specs.declared.fault.ScriptFault.TheVariants as script_fault;

    /// A reader before the first line.
    pub fn new(alloc: Global) -> Reader
        ensures { result ≡ Start }
    {
        Reader {
            alloc,
            stage: Stage::Start,
        }
    }

    /// The count of nodes, from the line `nodes` on until `run`.
    pub fn nodes(&self) -> Option<u8>
        ensures { result ≡ nodes_at self.now }
    {
        match &self.stage {
            Stage::Objects { nodes, .. } => Some(*nodes),
            Stage::Start | Stage::Running => None,
        }
    }

    /// Takes a line, without its end, and tells what it was. A line that is refused changes nothing.
    pub fn line(&mut self, bytes: &[u8]) -> Result<Item, ScriptFault>
        // What is taken has this form at its place.
        ensures taken { IfOk result (λ item. (form : Form) × HasForm self.old bytes.now form
            × Tells self.old form item × (self.new ≡ next_place self.old form)) }
        // A header has 1 to 16 nodes, and objects in form among them, by their numbers, which states of its format hold.
        ensures header { IfOk result (λ item. TellsInForm item) }
        // A line is bad exactly where it has no form at its place.
        ensures bad { IsErrOf result script_fault.Bad → IsBadLine self.old bytes.now }
        ensures err { OnErr result (self.new ≡ self.old) }
    {
        if bytes.len() > LINE_BYTES {
            return Err(ScriptFault::Bad);
        }
        if is_blank(bytes) {
            return Ok(Item::Blank);
        }
        match &mut self.stage {
            Stage::Start => {
                let nodes = first_line(self.alloc, bytes)?;
                let objects = Vec::new(self.alloc);
                self.stage = Stage::Objects {
                    nodes,
                    format: Format::Two,
                    objects,
                };
                Ok(Item::Part)
            }
            Stage::Objects {
                nodes,
                format,
                objects,
            } => {
                if is_text(bytes, b"run") {
                    let header = Header {
                        nodes: *nodes,
                        objects: ObjectLines::from_vec(replace(objects, Vec::new(self.alloc))),
                        format: *format,
                    };
                    self.stage = Stage::Running;
                    return Ok(Item::Run(header));
                }
                if is_text(bytes, b"format 1") {
                    format_line(format, objects)?;
                    return Ok(Item::Part);
                }
                object_line(self.alloc, *nodes, *format, objects, bytes)?;
                Ok(Item::Part)
            }
            Stage::Running => {
                let event = event_line(self.alloc, bytes)?;
                Ok(Item::Event(event))
            }
        }
    }
}
