// Where a line is drawn.
use crate::arrow::Arrow;
use crate::row::Row;
use arj_journal::{Body, Label};
use arj_words::{Frame, Names};

// A row with a mark at a node.
fn marked<'a>(nodes: usize, node: usize, mark: u8) -> Row<'a> {
    Row {
        nodes,
        mark: Some((node, mark)),
        arrow: None,
    }
}

// A row with a mark at the node of an action.
fn marked_by<'a>(nodes: usize, names: &Names, label: &Label, mark: u8) -> Row<'a> {
    marked(nodes, names.node_of(label) as usize, mark)
}

// A row with an arrow for a frame.
fn drawn<'a>(nodes: usize, frame: Option<Frame>, heads: (u8, u8)) -> Row<'a> {
    let arrow = match frame {
        None => None,
        Some(frame) => Some(Arrow {
            from: usize::from(frame.from),
            to: usize::from(frame.to),
            word: frame.word(),
            heads,
        }),
    };
    Row {
        nodes,
        mark: None,
        arrow,
    }
}

/// The row of a line: an arrow where a frame comes or is lost, `+` where a lock is granted, `-` where it goes, `P` where states are
/// prepared, `D` where they are done, `C` where an action is committed, `A` where it is aborted, `X` where a node halts, and `*` at
/// the node or the action of other lines.
pub fn row_of<'a>(nodes: usize, names: &Names, body: &Body) -> Row<'a> {
    match body {
        Body::Got { frame } => drawn(nodes, names.frame(*frame), (b'>', b'<')),
        Body::Void { frame } => drawn(nodes, names.frame(*frame), (b'o', b'o')),
        Body::Dropped { frame } => drawn(nodes, names.frame(*frame), (b'x', b'x')),
        Body::Sent { from, .. } => marked(nodes, usize::from(*from), b's'),
        Body::Granted { node, .. } => marked(nodes, usize::from(*node), b'+'),
        Body::Lowered { node, .. } | Body::Told { node, .. } => {
            marked(nodes, usize::from(*node), b'-')
        }
        Body::Prepared { node, .. } => marked(nodes, usize::from(*node), b'P'),
        Body::Done { node, .. } => marked(nodes, usize::from(*node), b'D'),
        Body::Halted { node } => marked(nodes, usize::from(*node), b'X'),
        _ => row_of_other(nodes, names, body),
    }
}

// The same, of other lines.
fn row_of_other<'a>(nodes: usize, names: &Names, body: &Body) -> Row<'a> {
    match body {
        Body::Active { node, .. }
        | Body::Copy { node, .. }
        | Body::Up { node, .. }
        | Body::Armed { node }
        | Body::Recovered { node, .. } => marked(nodes, usize::from(*node), b'*'),
        Body::Committed { label } | Body::Ended { label } => {
            marked_by(nodes, names, label, b'C')
        }
        Body::Aborted { label, .. } => marked_by(nodes, names, label, b'A'),
        Body::Bound { .. } | Body::Entry { .. } => marked(nodes, 1, b'*'),
        _ => row_of_action(nodes, names, body),
    }
}

// The same, of other lines of actions; an empty row for lines of no node.
fn row_of_action<'a>(nodes: usize, names: &Names, body: &Body) -> Row<'a> {
    match body {
        Body::Began { label, .. }
        | Body::Ok { label, .. }
        | Body::Includes { label, .. }
        | Body::Conflict { label, .. }
        | Body::Lost { label, .. }
        | Body::Changed { label, .. }
        | Body::Committing { label }
        | Body::GaveUp { label, .. }
        | Body::Excluded { label, .. } => marked_by(nodes, names, label, b'*'),
        _ => Row {
            nodes,
            mark: None,
            arrow: None,
        },
    }
}
