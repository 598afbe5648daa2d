// The names of what a journal's lines speak of.
use arj_base::{Class, Uid};
use arj_journal::words::frame_word;
use arj_journal::{Body, FrameKind, Header, Label, Line};
use std::alloc::{AllocError, Global};
use std::collections::BTreeMap;

/// A frame: from one node to another; junk is from 0.
#[derive(Clone, Copy)]
pub struct Frame {
    pub from: u8,
    pub to: u8,
    pub kind: FrameKind,
}

impl Frame {
    /// What it carries.
    pub fn word(&self) -> &'static [u8] {
        frame_word(self.kind)
    }
}

/// The labels of actions by their Uids, their nodes by their labels, the frames by their numbers, and the own classes of the
/// objects of a header.
#[derive(Drop)]
pub struct Names {
    labels: BTreeMap<Uid, Label>,
    nodes: BTreeMap<Label, u32>,
    frames: BTreeMap<u32, Frame>,
    classes: BTreeMap<u16, Class>,
}

// The own class of each object of a header.
fn classes_of(alloc: Global, header: &Header) -> Result<BTreeMap<u16, Class>, AllocError> {
    let mut classes = BTreeMap::new(alloc);
    for object in header.objects.as_slice() {
        classes.insert(object.x, object.value.own_class())?;
    }
    Ok(classes)
}

impl Names {
    ghost use Rattle.std.specs.Prelude.{◌≡◌};

    /// The names in a journal.
    pub fn new(alloc: Global, header: &Header, lines: &[Line]) -> Result<Names, AllocError> {
        let classes = classes_of(alloc, header)?;
        let mut names = Names {
            labels: BTreeMap::new(alloc),
            nodes: BTreeMap::new(alloc),
            frames: BTreeMap::new(alloc),
            classes,
        };
        for line in lines {
            names.note(&line.body)?;
        }
        Ok(names)
    }

    // Notes the names in a line.
    fn note(&mut self, body: &Body) -> Result<(), AllocError> {
        match body {
            Body::Began { label, uid, .. } => self.note_action(*uid, *label),
            Body::Sent {
                frame,
                from,
                to,
                kind,
            } => self.note_frame(
                *frame,
                Frame {
                    from: *from,
                    to: *to,
                    kind: *kind,
                },
            ),
            _ => Ok(()),
        }
    }

    // Notes an action.
    fn note_action(&mut self, uid: Uid, label: Label) -> Result<(), AllocError> {
        self.labels.insert(uid, label)?;
        self.nodes.insert(label, uid.node)?;
        Ok(())
    }

    // Notes a frame.
    fn note_frame(&mut self, number: u32, frame: Frame) -> Result<(), AllocError> {
        self.frames.insert(number, frame)?;
        Ok(())
    }

    /// The label of an action, where a line tells of its beginning.
    pub fn label_of(&self, uid: &Uid) -> Option<&Label> {
        self.labels.get(uid)
    }

    /// The node at which the action of a label began; 0 where no line tells of it.
    pub fn node_of(&self, label: &Label) -> u32 {
        match self.nodes.get(label) {
            Some(node) => *node,
            None => 0,
        }
    }

    /// The frame of a number, where a line tells that it was sent.
    pub fn frame(&self, number: u32) -> Option<Frame> {
        self.frames.get(&number).copied()
    }

    /// The own class of an object of the header.
    pub fn class_of(&self, x: u16) -> Option<Class> {
        self.classes.get(&x).copied()
    }
}
