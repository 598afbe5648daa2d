// Writers of script lines, without their ends. Each puts its text at the end of what is there.
ghost use Rattle.std.specs.Prelude.{◌≡◌, ◌++◌, OnOk, codes};
ghost use Rattle.arj_journal.specs.declared.event.StopKind.TheVariants.{Torn};
ghost use Rattle.arj_journal.specs.ScriptText.{event_text, frame_no_text, labelled, nodes_text, object_text, stop_kind_text};
ghost use Rattle.arj_text.specs.Words.{hex, number_word, op_text, space};

use crate::{Event, FrameNo, Label, ObjectLine, StopKind};
use arj_base::Bytes;
use arj_class::Op;
use arj_text::words::{
    put_decimal, put_hex, put_list, put_number, put_numbered, put_op, put_value, put_word,
};
use std::alloc::AllocError;

/// Puts the line that says how many nodes there are.
pub fn put_nodes(out: &mut Bytes, nodes: u8) -> Result<(), AllocError>
    ensures { OnOk result (out.new ≡ out.old ++ nodes_text nodes) }
{
    put_numbered(out, b"nodes", u64::from(nodes))
}

/// Puts the line of an object.
#[tactic(auto, using(std::proofs::lemmas::List::append_assoc))]
pub fn put_object(out: &mut Bytes, object: &ObjectLine) -> Result<(), AllocError>
    ensures { OnOk result (out.new ≡ out.old ++ object_text object.now) }
{
    put_numbered(out, b"object", u64::from(object.x))?;
    out.extend(b" ")?;
    put_value(out, &object.value)?;
    out.extend(b" servers ")?;
    put_list(out, object.servers.as_slice())?;
    out.extend(b" stores ")?;
    put_list(out, object.stores.as_slice())
}

/// Puts the line of an event.
pub fn put_event(out: &mut Bytes, event: &Event) -> Result<(), AllocError>
    ensures { OnOk result (out.new ≡ out.old ++ event_text event.now) }
{
    match event {
        Event::Begin { label, node } => put_at(out, b"begin", label, *node),
        Event::BeginIn { label, parent } => put_in(out, b"begin", label, parent),
        Event::Top { label, parent } => put_in(out, b"top", label, parent),
        Event::Serial { label, node } => put_at(out, b"serial", label, *node),
        Event::Call { label, x, op } => put_call(out, label, *x, op),
        Event::Include { label, x, node } => put_include(out, label, *x, *node),
        Event::Commit { label } => put_labelled(out, b"commit", label),
        Event::Abort { label } => put_labelled(out, b"abort", label),
        Event::GiveUp { label } => put_labelled(out, b"giveup", label),
        Event::Deliver { frame } => put_framed(out, b"deliver ", *frame),
        Event::Lose { frame } => put_framed(out, b"lose ", *frame),
        Event::Tick { node } => put_numbered(out, b"tick", u64::from(*node)),
        Event::Settle => out.extend(b"settle"),
        Event::Quiesce => out.extend(b"quiesce"),
        Event::Crash { node } => put_numbered(out, b"crash", u64::from(*node)),
        Event::Restart { node } => put_numbered(out, b"restart", u64::from(*node)),
        Event::Stop { node, calls, kind } => put_stop(out, *node, *calls, kind),
        Event::Junk { node, bytes } => put_junk(out, *node, bytes.as_slice()),
        Event::Show { x } => put_numbered(out, b"show", u64::from(*x)),
    }
}

// A word, a space and a label.
#[tactic(auto, using(std::proofs::lemmas::List::append_assoc))]
fn put_labelled(out: &mut Bytes, word: &[u8], label: &Label) -> Result<(), AllocError>
    ensures { OnOk result (out.new ≡ out.old ++ labelled word.now label.now) }
{
    out.extend(word)?;
    put_word(out, label.as_bytes())
}

#[tactic(auto, using(std::proofs::lemmas::List::append_assoc))]
fn put_at(out: &mut Bytes, word: &[u8], label: &Label, node: u32) -> Result<(), AllocError>
    ensures { OnOk result (out.new ≡ out.old ++ (labelled word.now label.now ++ (codes " at" ++ number_word node))) }
{
    put_labelled(out, word, label)?;
    put_numbered(out, b" at", u64::from(node))
}

#[tactic(auto, using(std::proofs::lemmas::List::append_assoc))]
fn put_in(out: &mut Bytes, word: &[u8], label: &Label, parent: &Label) -> Result<(), AllocError>
    ensures { OnOk result (out.new ≡ out.old ++ (labelled word.now label.now ++ labelled (codes " in") parent.now)) }
{
    put_labelled(out, word, label)?;
    put_labelled(out, b" in", parent)
}

#[tactic(auto, using(std::proofs::lemmas::List::append_assoc))]
fn put_call(out: &mut Bytes, label: &Label, x: u16, op: &Op) -> Result<(), AllocError>
    ensures { OnOk result (out.new ≡ out.old ++ (labelled (codes "call") label.now ++ (number_word x ++ (space ++ op_text op.now)))) }
{
    put_labelled(out, b"call", label)?;
    put_number(out, u64::from(x))?;
    out.extend(b" ")?;
    put_op(out, op)
}

#[tactic(auto, using(std::proofs::lemmas::List::append_assoc))]
fn put_include(out: &mut Bytes, label: &Label, x: u16, node: u32) -> Result<(), AllocError>
    ensures { OnOk result (out.new ≡ out.old ++ (labelled (codes "include") label.now ++ (number_word x ++ number_word node))) }
{
    put_labelled(out, b"include", label)?;
    put_number(out, u64::from(x))?;
    put_number(out, u64::from(node))
}

#[tactic(auto, using(std::proofs::lemmas::List::append_assoc))]
fn put_framed(out: &mut Bytes, front: &[u8], frame: FrameNo) -> Result<(), AllocError>
    ensures { OnOk result (out.new ≡ out.old ++ (front.now ++ frame_no_text frame)) }
{
    out.extend(front)?;
    match frame {
        FrameNo::Number(k) => put_decimal(out, u64::from(k)),
        FrameNo::Last => out.extend(b"last"),
    }
}

#[tactic(auto, using(std::proofs::lemmas::List::append_assoc))]
fn put_stop(out: &mut Bytes, node: u32, calls: u32, kind: &StopKind) -> Result<(), AllocError>
    ensures { OnOk result (out.new ≡ out.old ++ (codes "stop" ++ (number_word node ++ (number_word calls ++ (space ++ stop_kind_text kind.now))))) }
{
    put_numbered(out, b"stop", u64::from(node))?;
    put_number(out, u64::from(calls))?;
    out.extend(b" ")?;
    put_stop_kind(out, kind)
}

fn put_stop_kind(out: &mut Bytes, kind: &StopKind) -> Result<(), AllocError>
    ensures { OnOk result (out.new ≡ out.old ++ stop_kind_text kind.now) }
{
    match kind {
        StopKind::Undone => out.extend(b"none"),
        StopKind::Done => out.extend(b"done"),
        StopKind::Torn(written) => put_torn(out, written.as_slice()),
    }
}

#[tactic(auto, using(std::proofs::lemmas::List::append_assoc))]
fn put_torn(out: &mut Bytes, written: &[u8]) -> Result<(), AllocError>
    ensures { OnOk result (out.new ≡ out.old ++ stop_kind_text (Torn written.now)) }
{
    out.extend(b"torn ")?;
    put_hex(out, written)
}

#[tactic(auto, using(std::proofs::lemmas::List::append_assoc))]
fn put_junk(out: &mut Bytes, node: u32, bytes: &[u8]) -> Result<(), AllocError>
    ensures { OnOk result (out.new ≡ out.old ++ (codes "junk" ++ (number_word node ++ (space ++ hex bytes.now)))) }
{
    put_numbered(out, b"junk", u64::from(node))?;
    out.extend(b" ")?;
    put_hex(out, bytes)
}
