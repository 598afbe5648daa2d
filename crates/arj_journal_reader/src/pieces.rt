// The pieces that are one word.
ghost use Rattle.std.specs.Prelude.{⊤};
ghost use Rattle.std.specs.Fmt.{decimal};
ghost use Rattle.arj_base.specs.Uid.{UidFits, binding_text, uid_text};
ghost use Rattle.arj_text.specs.Fields.{AreBytes, BindingInForm, IsWithin, NodesInForm, NumberInForm, WordInForm};
ghost use Rattle.arj_text.specs.Label.{LabelInForm, name};
ghost use Rattle.arj_journal.specs.LineForm.{NodeInForm, ObjectInForm, ParentInForm};
ghost use Rattle.arj_journal.specs.LineText.{parent_text};
ghost use Rattle.arj_journal.specs.LineWords.{yes_text};
ghost use Rattle.arj_text.specs.Words.{hex, list_text};
ghost use Rattle.arj_journal.specs.declared.limits.TheConstants.{NODES, OBJECTS, REFUSALS, STORES};

use crate::piece::{Piece, taken};
use crate::{LineFault, uid};
use arj_base::{Binding, Bytes, NodeList, Uid};
use arj_journal::words::yes_word;
use arj_journal::{NODES, OBJECTS, REFUSALS, STORES};
use arj_text::field::{WORD_MAX, is_text, label_of, number};
use arj_text::field_list::nodes;
use arj_text::{Label, field_hex};
use std::alloc::Global;

/// A node, 1 to 16.
#[derive(Clone, Copy, Debug)]
pub struct Node {
    pub number: u8,
}

impl Piece for Node {
    ghost in_form = { λ n. NodeInForm n.number };

    ghost text = { λ n. decimal n.number };

    fn read(alloc: Global, bytes: &[u8]) -> Result<Node, LineFault> {
        let number = taken(number(alloc, bytes, 1, NODES)?)? as u8;
        Ok(Node { number })
    }
}

/// Where a frame is from: a node, or 0 for nobody.
#[derive(Clone, Copy, Debug)]
pub struct Sender {
    pub number: u8,
}

impl Piece for Sender {
    ghost in_form = { λ n. IsWithin 0 NODES n.number };

    ghost text = { λ n. decimal n.number };

    fn read(alloc: Global, bytes: &[u8]) -> Result<Sender, LineFault> {
        let number = taken(number(alloc, bytes, 0, NODES)?)? as u8;
        Ok(Sender { number })
    }
}

/// The cause of a refusal, 1 to 18.
#[derive(Clone, Copy, Debug)]
pub struct Refusal {
    pub number: u8,
}

impl Piece for Refusal {
    ghost in_form = { λ n. IsWithin 1 REFUSALS n.number };

    ghost text = { λ n. decimal n.number };

    fn read(alloc: Global, bytes: &[u8]) -> Result<Refusal, LineFault> {
        let number = taken(number(alloc, bytes, 1, REFUSALS)?)? as u8;
        Ok(Refusal { number })
    }
}

/// An object, 1 to 256.
#[derive(Clone, Copy, Debug)]
pub struct Object {
    pub number: u16,
}

impl Piece for Object {
    ghost in_form = { λ n. ObjectInForm n.number };

    ghost text = { λ n. decimal n.number };

    fn read(alloc: Global, bytes: &[u8]) -> Result<Object, LineFault> {
        let number = taken(number(alloc, bytes, 1, OBJECTS)?)? as u16;
        Ok(Object { number })
    }
}

/// A frame, an incarnation, or the number of an event or a script line.
#[derive(Clone, Copy, Debug)]
pub struct Word {
    pub number: u32,
}

impl Piece for Word {
    ghost in_form = { λ n. WordInForm n.number };

    ghost text = { λ n. decimal n.number };

    fn read(alloc: Global, bytes: &[u8]) -> Result<Word, LineFault> {
        let number = taken(number(alloc, bytes, 0, WORD_MAX)?)? as u32;
        Ok(Word { number })
    }
}

/// A version.
#[derive(Clone, Copy, Debug)]
pub struct Version {
    pub number: u64,
}

impl Piece for Version {
    ghost in_form = { λ n. NumberInForm n.number };

    ghost text = { λ n. decimal n.number };

    fn read(alloc: Global, bytes: &[u8]) -> Result<Version, LineFault> {
        let number = taken(number(alloc, bytes, 0, u64::MAX)?)?;
        Ok(Version { number })
    }
}

impl Piece for Label {
    ghost in_form = { LabelInForm };

    ghost text = { name };

    fn read(_alloc: Global, bytes: &[u8]) -> Result<Label, LineFault> {
        taken(label_of(bytes))
    }
}

/// The parent of an action, or none.
#[derive(Clone, Copy, Debug)]
pub struct Parent {
    pub label: Option<Label>,
}

impl Piece for Parent {
    ghost in_form = { λ p. ParentInForm p.label };

    ghost text = { λ p. parent_text p.label };

    fn read(_alloc: Global, bytes: &[u8]) -> Result<Parent, LineFault> {
        if is_text(bytes, b"-") {
            return Ok(Parent { label: None });
        }
        let label = taken(label_of(bytes))?;
        Ok(Parent { label: Some(label) })
    }
}

impl Piece for Uid {
    ghost in_form = { UidFits };

    ghost text = { uid_text };

    fn read(alloc: Global, bytes: &[u8]) -> Result<Uid, LineFault> {
        taken(uid::uid(alloc, bytes)?)
    }
}

impl Piece for Binding {
    ghost in_form = { BindingInForm };

    ghost text = { binding_text };

    fn read(alloc: Global, bytes: &[u8]) -> Result<Binding, LineFault> {
        taken(uid::binding(alloc, bytes)?)
    }
}

/// Bytes, two digits each.
#[derive(Drop)]
pub struct Hex {
    pub bytes: Bytes,
}

impl Piece for Hex {
    ghost in_form = { λ h. AreBytes h.bytes };

    ghost text = { λ h. hex h.bytes };

    fn read(alloc: Global, bytes: &[u8]) -> Result<Hex, LineFault> {
        let bytes = taken(field_hex::hex(alloc, bytes)?)?;
        Ok(Hex { bytes })
    }
}

/// Nodes, joined by commas.
#[derive(Drop)]
pub struct Nodes {
    pub list: NodeList,
}

impl Piece for Nodes {
    ghost in_form = { λ ns. NodesInForm NODES STORES ns.list };

    ghost text = { λ ns. list_text ns.list };

    fn read(alloc: Global, bytes: &[u8]) -> Result<Nodes, LineFault> {
        let list = taken(nodes(alloc, bytes, NODES as u8, STORES)?)?;
        Ok(Nodes { list })
    }
}

impl Piece for bool {
    ghost in_form = { λ _. ⊤ };

    ghost text = { yes_text };

    fn read(_alloc: Global, bytes: &[u8]) -> Result<bool, LineFault> {
        if is_text(bytes, yes_word(true)) {
            return Ok(true);
        }
        if is_text(bytes, yes_word(false)) {
            return Ok(false);
        }
        Err(LineFault::NotALine)
    }
}
