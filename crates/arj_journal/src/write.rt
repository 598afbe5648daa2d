// Writers of journal lines. Each puts its text at the end of what is there.
ghost use Rattle.std.specs.Prelude.{◌≡◌, ◌++◌, OnOk, IfOk};
ghost use Rattle.arj_journal.specs.ScriptText.{labelled};
ghost use Rattle.arj_text.specs.Words.{space, number_word, mode_text};
ghost use Rattle.arj_journal.specs.LineText.{binding_word, body_text, cause_text, conflict_words, difference_text, line_text as text_of_line, parent_text, uid_word};
ghost use Rattle.arj_journal.specs.LineWords.{cause_word, line_word};

use crate::line_kind::{CauseKind, DifferenceKind, LineKind};
use crate::words::{frame_word, kind_word, part_word, role_word, which_word, yes_word};
use crate::{Body, Cause, Difference, FrameKind, Kind, Label, Line, Part, Role, Which};
use arj_base::{Binding, Bytes, End, Mode, NodeList, Uid};
use arj_class::Op;
use arj_text::words::{
    end_word, mode_word, put_decimal, put_hex, put_list, put_number, put_op, put_word,
};
use std::alloc::{AllocError, Global};

/// Puts a journal line at the end: the number of its event, a space, what it says, and a line feed.
#[tactic(auto, using(std::proofs::lemmas::List::append_assoc))]
pub fn put_line(out: &mut Bytes, line: &Line) -> Result<(), AllocError>
    ensures { OnOk result (out.new ≡ out.old ++ text_of_line line.now) }
{
    put_decimal(out, u64::from(line.event))?;
    out.extend(b" ")?;
    put_body(out, &line.body)?;
    out.extend(b"\n")
}

/// The text of a journal line, its line feed included.
pub fn line_text(alloc: Global, line: &Line) -> Result<Bytes, AllocError>
    ensures { IfOk result (λ text. text ≡ text_of_line line.now) }
{
    let mut text = Bytes::new(alloc);
    put_line(&mut text, line)?;
    Ok(text)
}

fn put_body(out: &mut Bytes, body: &Body) -> Result<(), AllocError>
    ensures { OnOk result (out.new ≡ out.old ++ body_text body.now) }
{
    match body {
        Body::Began {
            label,
            kind,
            uid,
            parent,
        } => put_began(out, label, *kind, *uid, *parent),
        Body::Ok {
            label,
            x,
            op,
            answer,
        } => put_ok(out, label, *x, op, answer.as_slice()),
        Body::Includes { label, x, node } => put_labelled_pair(
            out,
            LineKind::Includes,
            label,
            *x,
            *node,
        ),
        Body::Conflict {
            label,
            holder,
            mode,
            node,
        } => put_conflict_line(out, label, *holder, *mode, *node),
        Body::Lost { label, node } => put_labelled_node(out, LineKind::Lost, label, *node),
        Body::Changed {
            label,
            node,
            difference,
        } => put_changed(out, label, *node, *difference),
        Body::Committing { label } => put_labelled(out, LineKind::Committing, label),
        Body::Committed { label } => put_labelled(out, LineKind::Committed, label),
        Body::Ended { label } => put_labelled(out, LineKind::Ended, label),
        Body::Aborted { label, cause } => put_aborted(out, label, *cause),
        Body::GaveUp { label, node } => put_labelled_node(out, LineKind::GaveUp, label, *node),
        Body::Excluded { label, x, node } => put_labelled_pair(
            out,
            LineKind::Excluded,
            label,
            *x,
            *node,
        ),
        Body::Granted {
            node,
            action,
            object,
            mode,
        } => put_granted(out, *node, *action, *object, *mode),
        Body::Lowered {
            node,
            action,
            object,
        } => put_lowered(out, *node, *action, *object),
        Body::Bound { x, binding, node } => put_bound(out, *x, *binding, *node),
        Body::Active { node, x, binding } => put_active(out, *node, *x, *binding),
        Body::Told {
            node,
            action,
            end,
            part,
        } => put_told(out, *node, *action, *end, *part),
        Body::Prepared { node, action, role } => put_prepared(out, *node, *action, *role),
        Body::Done {
            node,
            action,
            role,
            end,
        } => put_done(out, *node, *action, *role, *end),
        Body::Sent {
            frame,
            from,
            to,
            kind,
        } => put_sent(out, *frame, *from, *to, *kind),
        Body::Got { frame } => put_kind_number(out, LineKind::Got, u64::from(*frame)),
        Body::Void { frame } => put_kind_number(out, LineKind::Void, u64::from(*frame)),
        Body::Dropped { frame } => put_kind_number(out, LineKind::Dropped, u64::from(*frame)),
        Body::Halted { node } => put_kind_number(out, LineKind::Halted, u64::from(*node)),
        Body::Up { node, inc } => put_up(out, *node, *inc),
        Body::Armed { node } => put_kind_number(out, LineKind::Armed, u64::from(*node)),
        Body::Recovered { node, action } => put_at_node(out, LineKind::Recovered, *node, *action),
        Body::Refused { cause } => put_kind_number(out, LineKind::Refused, u64::from(*cause)),
        Body::Entry {
            x,
            version,
            servers,
            stores,
        } => put_entry(out, *x, *version, servers, stores),
        Body::Copy {
            node,
            x,
            version,
            writer,
            payload,
        } => put_copy(out, *node, *x, *version, *writer, payload.as_slice()),
        Body::Quiet { yes } => put_quiet(out, *yes),
        Body::Bad { line } => put_kind_number(out, LineKind::Bad, u64::from(*line)),
        Body::Limit { which } => put_limit(out, *which),
    }
}

// The pieces of lines.

// The first word of a line.
fn put_kind(out: &mut Bytes, kind: LineKind) -> Result<(), AllocError>
    ensures { OnOk result (out.new ≡ out.old ++ line_word kind) }
{
    out.extend(kind.word())
}

// The first word of a line, and a number.
#[tactic(auto, using(std::proofs::lemmas::List::append_assoc))]
fn put_kind_number(out: &mut Bytes, kind: LineKind, n: u64) -> Result<(), AllocError>
    ensures { OnOk result (out.new ≡ out.old ++ (line_word kind ++ number_word n)) }
{
    put_kind(out, kind)?;
    put_number(out, n)
}

// The first word of a line, and a label.
#[tactic(auto, using(std::proofs::lemmas::List::append_assoc))]
fn put_labelled(out: &mut Bytes, kind: LineKind, label: &Label) -> Result<(), AllocError>
    ensures { OnOk result (out.new ≡ out.old ++ labelled (line_word kind) label.now) }
{
    put_kind(out, kind)?;
    put_word(out, label.as_bytes())
}

// The first word of a line, a label and a node.
#[tactic(auto, using(std::proofs::lemmas::List::append_assoc))]
fn put_labelled_node(
    out: &mut Bytes,
    kind: LineKind,
    label: &Label,
    node: u8,
) -> Result<(), AllocError>
    ensures { OnOk result (out.new ≡ out.old ++ (labelled (line_word kind) label.now ++ number_word node)) }
{
    put_labelled(out, kind, label)?;
    put_number(out, u64::from(node))
}

// The first word of a line, a label, an object and a node.
#[tactic(auto, using(std::proofs::lemmas::List::append_assoc))]
fn put_labelled_pair(
    out: &mut Bytes,
    kind: LineKind,
    label: &Label,
    x: u16,
    node: u8,
) -> Result<(), AllocError>
    ensures { OnOk result (out.new ≡ out.old ++ (labelled (line_word kind) label.now ++ (number_word x ++ number_word node))) }
{
    put_labelled(out, kind, label)?;
    put_number(out, u64::from(x))?;
    put_number(out, u64::from(node))
}

// The first word of a line, a node and an action.
#[tactic(auto, using(std::proofs::lemmas::List::append_assoc))]
fn put_at_node(out: &mut Bytes, kind: LineKind, node: u8, action: Uid) -> Result<(), AllocError>
    ensures { OnOk result (out.new ≡ out.old ++ (line_word kind ++ (number_word node ++ uid_word action))) }
{
    put_kind_number(out, kind, u64::from(node))?;
    put_uid(out, action)
}

// A space and a Uid.
#[tactic(auto, using(std::proofs::lemmas::List::append_assoc))]
fn put_uid(out: &mut Bytes, uid: Uid) -> Result<(), AllocError>
    ensures { OnOk result (out.new ≡ out.old ++ uid_word uid) }
{
    put_number(out, u64::from(uid.node))?;
    out.extend(b".")?;
    put_decimal(out, u64::from(uid.inc))?;
    out.extend(b".")?;
    put_decimal(out, uid.num)
}

// A space and a binding.
#[tactic(auto, using(std::proofs::lemmas::List::append_assoc))]
fn put_binding(out: &mut Bytes, binding: Binding) -> Result<(), AllocError>
    ensures { OnOk result (out.new ≡ out.old ++ binding_word binding) }
{
    put_number(out, u64::from(binding.inc))?;
    out.extend(b".")?;
    put_decimal(out, u64::from(binding.count))
}

// What was had and what is there now.
fn put_difference(out: &mut Bytes, difference: Difference) -> Result<(), AllocError>
    ensures { OnOk result (out.new ≡ out.old ++ difference_text difference) }
{
    match difference {
        Difference::Inc { had, now } => put_incs(out, had, now),
        Difference::Bind { had, now } => put_bindings(out, had, now),
    }
}

#[tactic(auto, using(std::proofs::lemmas::List::append_assoc))]
fn put_incs(out: &mut Bytes, had: u32, now: u32) -> Result<(), AllocError>
    ensures { OnOk result (out.new ≡ out.old ++ difference_text (Difference.Inc had now)) }
{
    out.extend(DifferenceKind::Inc.word())?;
    put_number(out, u64::from(had))?;
    put_number(out, u64::from(now))
}

#[tactic(auto, using(std::proofs::lemmas::List::append_assoc))]
fn put_bindings(out: &mut Bytes, had: Binding, now: Binding) -> Result<(), AllocError>
    ensures { OnOk result (out.new ≡ out.old ++ difference_text (Difference.Bind had now)) }
{
    out.extend(DifferenceKind::Bind.word())?;
    put_binding(out, had)?;
    put_binding(out, now)
}

// Behind the front of a conflict: the holder, its mode and where.
#[tactic(auto, using(std::proofs::lemmas::List::append_assoc))]
fn put_conflict(out: &mut Bytes, holder: Uid, mode: Mode, node: u8) -> Result<(), AllocError>
    ensures { OnOk result (out.new ≡ conflict_words out.old holder (mode_text mode) node) }
{
    put_uid(out, holder)?;
    put_word(out, mode_word(mode))?;
    put_number(out, u64::from(node))
}

// Lines of actions.

#[tactic(auto, using(std::proofs::lemmas::List::append_assoc))]
fn put_began(
    out: &mut Bytes,
    label: &Label,
    kind: Kind,
    uid: Uid,
    parent: Option<Label>,
) -> Result<(), AllocError>
    ensures { OnOk result (out.new ≡ out.old ++ body_text (Body.Began label.now kind uid parent)) }
{
    put_labelled(out, LineKind::Began, label)?;
    put_word(out, kind_word(kind))?;
    put_uid(out, uid)?;
    put_parent(out, parent)
}

// A space, and the parent's label or `-`.
fn put_parent(out: &mut Bytes, parent: Option<Label>) -> Result<(), AllocError>
    ensures { OnOk result (out.new ≡ out.old ++ (space ++ parent_text parent)) }
{
    match parent {
        None => put_word(out, b"-"),
        Some(label) => put_word(out, label.as_bytes()),
    }
}

#[tactic(auto, using(std::proofs::lemmas::List::append_assoc))]
fn put_ok(out: &mut Bytes, label: &Label, x: u16, op: &Op, answer: &[u8]) -> Result<(), AllocError>
    ensures { OnOk result (out.new ≡ out.old ++ body_text (Body.Ok label.now x op.now answer.now)) }
{
    put_labelled(out, LineKind::Ok, label)?;
    put_number(out, u64::from(x))?;
    out.extend(b" ")?;
    put_op(out, op)?;
    out.extend(b" = ")?;
    out.extend(answer)
}

#[tactic(auto, using(std::proofs::lemmas::List::append_assoc))]
fn put_conflict_line(
    out: &mut Bytes,
    label: &Label,
    holder: Uid,
    mode: Mode,
    node: u8,
) -> Result<(), AllocError>
    ensures { OnOk result (out.new ≡ out.old ++ body_text (Body.Conflict label.now holder mode node)) }
{
    put_labelled(out, LineKind::Conflict, label)?;
    put_conflict(out, holder, mode, node)
}

#[tactic(auto, using(std::proofs::lemmas::List::append_assoc))]
fn put_changed(
    out: &mut Bytes,
    label: &Label,
    node: u8,
    difference: Difference,
) -> Result<(), AllocError>
    ensures { OnOk result (out.new ≡ out.old ++ body_text (Body.Changed label.now node difference)) }
{
    put_labelled_node(out, LineKind::Changed, label, node)?;
    out.extend(b" ")?;
    put_difference(out, difference)
}

#[tactic(auto, using(std::proofs::lemmas::List::append_assoc))]
fn put_aborted(out: &mut Bytes, label: &Label, cause: Cause) -> Result<(), AllocError>
    ensures { OnOk result (out.new ≡ out.old ++ body_text (Body.Aborted label.now cause)) }
{
    put_labelled(out, LineKind::Aborted, label)?;
    out.extend(b" ")?;
    put_cause(out, cause)
}

// The first word of why an action aborted.
fn put_cause_word(out: &mut Bytes, kind: CauseKind) -> Result<(), AllocError>
    ensures { OnOk result (out.new ≡ out.old ++ cause_word kind) }
{
    out.extend(kind.word())
}

// The first word of why an action aborted, and a number.
#[tactic(auto, using(std::proofs::lemmas::List::append_assoc))]
fn put_cause_number(out: &mut Bytes, kind: CauseKind, n: u64) -> Result<(), AllocError>
    ensures { OnOk result (out.new ≡ out.old ++ (cause_word kind ++ number_word n)) }
{
    put_cause_word(out, kind)?;
    put_number(out, n)
}

// Why an action aborted.
fn put_cause(out: &mut Bytes, cause: Cause) -> Result<(), AllocError>
    ensures { OnOk result (out.new ≡ out.old ++ cause_text cause) }
{
    match cause {
        Cause::Asked => put_cause_word(out, CauseKind::Asked),
        Cause::Doomed => put_cause_word(out, CauseKind::Doomed),
        Cause::Lost { node } => put_cause_number(out, CauseKind::Lost, u64::from(node)),
        Cause::Conflict { holder, mode, node } => put_conflict_cause(out, holder, mode, node),
        Cause::Changed { node, difference } => put_changed_cause(out, node, difference),
        Cause::Old { node, x, version } => put_old_cause(out, node, x, version),
        Cause::NoStores { x } => put_cause_number(out, CauseKind::NoStores, u64::from(x)),
        Cause::Listed { x, node } => put_listed_cause(out, x, node),
    }
}

#[tactic(auto, using(std::proofs::lemmas::List::append_assoc))]
fn put_conflict_cause(out: &mut Bytes, holder: Uid, mode: Mode, node: u8) -> Result<(), AllocError>
    ensures { OnOk result (out.new ≡ out.old ++ cause_text (Cause.Conflict holder mode node)) }
{
    put_cause_word(out, CauseKind::Conflict)?;
    put_conflict(out, holder, mode, node)
}

#[tactic(auto, using(std::proofs::lemmas::List::append_assoc))]
fn put_changed_cause(out: &mut Bytes, node: u8, difference: Difference) -> Result<(), AllocError>
    ensures { OnOk result (out.new ≡ out.old ++ cause_text (Cause.Changed node difference)) }
{
    put_cause_number(out, CauseKind::Changed, u64::from(node))?;
    out.extend(b" ")?;
    put_difference(out, difference)
}

#[tactic(auto, using(std::proofs::lemmas::List::append_assoc))]
fn put_old_cause(out: &mut Bytes, node: u8, x: u16, version: u64) -> Result<(), AllocError>
    ensures { OnOk result (out.new ≡ out.old ++ cause_text (Cause.Old node x version)) }
{
    put_cause_number(out, CauseKind::Old, u64::from(node))?;
    put_number(out, u64::from(x))?;
    put_number(out, version)
}

#[tactic(auto, using(std::proofs::lemmas::List::append_assoc))]
fn put_listed_cause(out: &mut Bytes, x: u16, node: u8) -> Result<(), AllocError>
    ensures { OnOk result (out.new ≡ out.old ++ cause_text (Cause.Listed x node)) }
{
    put_cause_number(out, CauseKind::Listed, u64::from(x))?;
    put_number(out, u64::from(node))
}

// Lines of nodes.

#[tactic(auto, using(std::proofs::lemmas::List::append_assoc))]
fn put_granted(
    out: &mut Bytes,
    node: u8,
    action: Uid,
    object: Uid,
    mode: Mode,
) -> Result<(), AllocError>
    ensures { OnOk result (out.new ≡ out.old ++ body_text (Body.Granted node action object mode)) }
{
    put_at_node(out, LineKind::Granted, node, action)?;
    put_uid(out, object)?;
    put_word(out, mode_word(mode))
}

#[tactic(auto, using(std::proofs::lemmas::List::append_assoc))]
fn put_lowered(out: &mut Bytes, node: u8, action: Uid, object: Uid) -> Result<(), AllocError>
    ensures { OnOk result (out.new ≡ out.old ++ body_text (Body.Lowered node action object)) }
{
    put_at_node(out, LineKind::Lowered, node, action)?;
    put_uid(out, object)
}

#[tactic(auto, using(std::proofs::lemmas::List::append_assoc))]
fn put_bound(out: &mut Bytes, x: u16, binding: Binding, node: u8) -> Result<(), AllocError>
    ensures { OnOk result (out.new ≡ out.old ++ body_text (Body.Bound x binding node)) }
{
    put_kind_number(out, LineKind::Bound, u64::from(x))?;
    put_binding(out, binding)?;
    put_number(out, u64::from(node))
}

#[tactic(auto, using(std::proofs::lemmas::List::append_assoc))]
fn put_active(out: &mut Bytes, node: u8, x: u16, binding: Binding) -> Result<(), AllocError>
    ensures { OnOk result (out.new ≡ out.old ++ body_text (Body.Active node x binding)) }
{
    put_kind_number(out, LineKind::Active, u64::from(node))?;
    put_number(out, u64::from(x))?;
    put_binding(out, binding)
}

#[tactic(auto, using(std::proofs::lemmas::List::append_assoc))]
fn put_told(out: &mut Bytes, node: u8, action: Uid, end: End, part: Part) -> Result<(), AllocError>
    ensures { OnOk result (out.new ≡ out.old ++ body_text (Body.Told node action end part)) }
{
    put_at_node(out, LineKind::Told, node, action)?;
    put_word(out, end_word(end))?;
    put_word(out, part_word(part))
}

#[tactic(auto, using(std::proofs::lemmas::List::append_assoc))]
fn put_prepared(out: &mut Bytes, node: u8, action: Uid, role: Role) -> Result<(), AllocError>
    ensures { OnOk result (out.new ≡ out.old ++ body_text (Body.Prepared node action role)) }
{
    put_at_node(out, LineKind::Prepared, node, action)?;
    put_word(out, role_word(role))
}

#[tactic(auto, using(std::proofs::lemmas::List::append_assoc))]
fn put_done(out: &mut Bytes, node: u8, action: Uid, role: Role, end: End) -> Result<(), AllocError>
    ensures { OnOk result (out.new ≡ out.old ++ body_text (Body.Done node action role end)) }
{
    put_at_node(out, LineKind::Done, node, action)?;
    put_word(out, role_word(role))?;
    put_word(out, end_word(end))
}

#[tactic(auto, using(std::proofs::lemmas::List::append_assoc))]
fn put_sent(
    out: &mut Bytes,
    frame: u32,
    from: u8,
    to: u8,
    kind: FrameKind,
) -> Result<(), AllocError>
    ensures { OnOk result (out.new ≡ out.old ++ body_text (Body.Sent frame from to kind)) }
{
    put_kind_number(out, LineKind::Sent, u64::from(frame))?;
    put_number(out, u64::from(from))?;
    put_number(out, u64::from(to))?;
    put_word(out, frame_word(kind))
}

#[tactic(auto, using(std::proofs::lemmas::List::append_assoc))]
fn put_up(out: &mut Bytes, node: u8, inc: u32) -> Result<(), AllocError>
    ensures { OnOk result (out.new ≡ out.old ++ body_text (Body.Up node inc)) }
{
    put_kind_number(out, LineKind::Up, u64::from(node))?;
    put_number(out, u64::from(inc))
}

#[tactic(auto, using(std::proofs::lemmas::List::append_assoc))]
fn put_entry(
    out: &mut Bytes,
    x: u16,
    version: u64,
    servers: &NodeList,
    stores: &NodeList,
) -> Result<(), AllocError>
    ensures { OnOk result (out.new ≡ out.old ++ body_text (Body.Entry x version servers.now stores.now)) }
{
    put_kind_number(out, LineKind::Entry, u64::from(x))?;
    put_number(out, version)?;
    out.extend(b" ")?;
    put_list(out, servers.as_slice())?;
    out.extend(b" ")?;
    put_list(out, stores.as_slice())
}

#[tactic(auto, using(std::proofs::lemmas::List::append_assoc))]
fn put_copy(
    out: &mut Bytes,
    node: u8,
    x: u16,
    version: u64,
    writer: Uid,
    payload: &[u8],
) -> Result<(), AllocError>
    ensures { OnOk result (out.new ≡ out.old ++ body_text (Body.Copy node x version writer payload.now)) }
{
    put_kind_number(out, LineKind::Copy, u64::from(node))?;
    put_number(out, u64::from(x))?;
    put_number(out, version)?;
    put_uid(out, writer)?;
    out.extend(b" ")?;
    put_hex(out, payload)
}

#[tactic(auto, using(std::proofs::lemmas::List::append_assoc))]
fn put_limit(out: &mut Bytes, which: Which) -> Result<(), AllocError>
    ensures { OnOk result (out.new ≡ out.old ++ body_text (Body.Limit which)) }
{
    put_kind(out, LineKind::Limit)?;
    put_word(out, which_word(which))
}

#[tactic(auto, using(std::proofs::lemmas::List::append_assoc))]
fn put_quiet(out: &mut Bytes, yes: bool) -> Result<(), AllocError>
    ensures { OnOk result (out.new ≡ out.old ++ body_text (Body.Quiet yes)) }
{
    put_kind(out, LineKind::Quiet)?;
    put_word(out, yes_word(yes))
}
