// Whether the lines of a journal and the files of nodes fit each other.
ghost use Rattle.std.specs.Prelude.{◌≡◌, ◌&&◌, List, is_some, IfOk, MatchBool, if◌then◌else◌};
ghost use Rattle.std.specs.List.{list_all};
ghost use Rattle.arj_model.specs.Last.{is_among as is_in, listed};
ghost use Rattle.arj_image.specs.declared.image.NodeFile.{NodeFile as file_type};
ghost use Rattle.arj_saved.specs.Files.{inc_at};
ghost use Rattle.arj_rest.specs.Nodes.{are_distinct as none_twice, are_few as have_few, are_listed as all_listed, body_fits as fits_body, frame_of as frame_in, has_come as came, is_halt as halts, is_halted as last_halts, is_known as known, is_listing, is_within as within, is_node as is_node_of, line_fits, node_of as node_in, AreAtRest, NodesFit};
ghost use Rattle.arj_clean.specs.Standing.{IsSaved};

use arj_base::Uid;
use arj_changes::entry_of;
use arj_clean::Saved;
use arj_image::{Image, NodeFile};
use arj_journal::{Body, Line};
use arj_saved::{MOST_COUNT, inc_of};
use std::alloc::{AllocError, Global};

// The node where a line happened, if it says one.
fn node_of(body: &Body) -> Option<u32>
    ensures { result ≡ node_in body.now }
{
    match body {
        Body::Began { uid, .. } => Some(uid.node),
        Body::Granted { node, .. }
        | Body::Lowered { node, .. }
        | Body::Active { node, .. }
        | Body::Told { node, .. }
        | Body::Prepared { node, .. }
        | Body::Done { node, .. }
        | Body::Halted { node }
        | Body::Up { node, .. }
        | Body::Recovered { node, .. } => Some(u32::from(*node)),
        _ => None,
    }
}

// Whether a line is a halt.
fn is_halt(body: &Body) -> bool
    ensures { result ≡ halts body.now }
{
    match body {
        Body::Halted { .. } => true,
        _ => false,
    }
}

// Whether it is this node.
fn is_node(node: u8, of: Option<u32>) -> bool
    ensures { result ≡ is_node_of node of }
{
    match of {
        None => false,
        Some(number) => number == u32::from(node),
    }
}

// Whether a node is halted behind a line, where this is so of those before it.
fn halted_behind(node: u8, before: bool, body: &Body) -> bool
    ensures { result ≡ (if is_node_of node (node_in body.now) then halts body.now else before) }
{
    if is_node(node, node_of(body)) {
        is_halt(body)
    } else {
        before
    }
}

// Whether the last line that happened at a node is its halt.
fn is_halted(lines: &[Line], node: u8) -> bool
    ensures { result ≡ last_halts lines.now node }
{
    let mut halted = false;
    for line in lines {
        halted = halted_behind(node, halted, &line.body);
    }
    halted
}

// Whether a node is halted, and has its incarnation.
fn is_at_rest(image: &Image, node: u8) -> bool
    ensures { result ≡ (last_halts image.now.journal node && is_some (inc_at image.now.files node)) }
{
    if !is_halted(image.journal.as_slice(), node) {
        return false;
    }
    match inc_of(image.files.as_slice(), node) {
        None => false,
        Some(_inc) => true,
    }
}

// Whether each node is.
fn are_at_rest(image: &Image) -> bool
    ensures { MatchBool result (AreAtRest image.now image.now.header.nodes) (AreAtRest image.now image.now.header.nodes → ⊥) }
{
    for done in 0..image.header.nodes {
        let rests = is_at_rest(image, done + 1);
        if !rests {
            return false;
        }
    }
    true
}

// The frame that a line names, 0 where it names none.
fn frame_of(body: &Body) -> u32
    ensures { result ≡ frame_in body.now }
{
    match body {
        Body::Sent { frame, .. }
        | Body::Got { frame }
        | Body::Void { frame }
        | Body::Dropped { frame } => *frame,
        _ => 0,
    }
}

// Whether an incarnation isn't above the one that is there.
fn is_within(inc: u32, now: Option<u32>) -> bool
    ensures { result ≡ within inc now }
{
    match now {
        None => false,
        Some(now) => inc <= now,
    }
}

// Whether the action of a Uid is of one of so many nodes, in an incarnation to which the node has come.
fn is_known(nodes: u8, files: &[NodeFile], uid: Uid) -> bool
    ensures { result ≡ known nodes files.now uid }
{
    if uid.node == 0 || u32::from(nodes) < uid.node {
        return false;
    }
    is_within(uid.inc, inc_of(files, uid.node as u8))
}

// Whether a node has come to this incarnation, where it is one of so many.
fn has_come(nodes: u8, files: &[NodeFile], node: u8, inc: u32) -> bool
    ensures { result ≡ came nodes files.now node inc }
{
    if nodes < node {
        return true;
    }
    is_within(inc, inc_of(files, node))
}

// Whether what a line says fits the files.
fn body_fits(nodes: u8, files: &[NodeFile], body: &Body) -> bool
    ensures { result ≡ fits_body nodes files.now body.now }
{
    match body {
        Body::Began { uid, .. } => is_known(nodes, files, *uid),
        Body::Up { node, inc } => has_come(nodes, files, *node, *inc),
        _ => true,
    }
}

// Whether a line fits the counts and the files.
fn does_line_fit(image: &Image, line: &Line) -> bool
    ensures { result ≡ line_fits image.now line.now }
{
    if image.events < line.event {
        return false;
    }
    if image.frames < frame_of(&line.body) {
        return false;
    }
    body_fits(image.header.nodes, image.files.as_slice(), &line.body)
}

// Whether these lines do.
fn do_lines_fit(image: &Image, lines: &[Line]) -> bool
    ensures { result ≡ list_all (line_fits image.now) lines.now }
{
    for line in lines {
        if !does_line_fit(image, line) {
            return false;
        }
    }
    true
}

// Whether the counts aren't too great.
fn are_few(image: &Image) -> bool
    ensures { result ≡ have_few image.now }
{
    image.events <= MOST_COUNT && image.frames <= MOST_COUNT
}

/// Whether the counts aren't too great, the lines fit the files, and each node is halted and has its incarnation.
pub fn do_nodes_fit(image: &Image) -> bool
    ensures { MatchBool result (NodesFit image.now) (NodesFit image.now → ⊥) }
{
    let few = are_few(image);
    if !few {
        return false;
    }
    let fit = do_lines_fit(image, image.journal.as_slice());
    if !fit {
        return false;
    }
    are_at_rest(image)
}

// Whether a number is among these.
fn is_among(numbers: &[u8], number: u8) -> bool
    ensures { result ≡ is_in numbers.now number }
{
    for other in numbers {
        if *other == number {
            return true;
        }
    }
    false
}

// Whether no number is there twice.
fn are_distinct(numbers: &[u8]) -> bool
    ensures { result ≡ none_twice numbers.now }
{
    for (at, number) in numbers.iter().enumerate() {
        if is_among(&numbers[at + 1..], *number) {
            return false;
        }
    }
    true
}

// Whether there is a number, and none twice.
fn is_list(numbers: &[u8]) -> bool
    ensures { result ≡ is_listing numbers.now }
{
    match numbers {
        [] => false,
        _ => are_distinct(numbers),
    }
}

// Whether an object has a listed store, and none twice.
fn is_listed(alloc: Global, saved: &Saved, x: u16) -> Result<bool, AllocError>
    ensures { (files : List file_type) → IsSaved saved.now.header.now saved.now.lines.now saved.now.standing.now saved.now.segments.now saved.now.pendings.now files → IfOk result (λ is. is ≡ is_listing (listed saved.now.header.now saved.now.lines.now x)) }
{
    let entry = entry_of(
        alloc,
        saved.standing.begun.as_slice(),
        &saved.standing.changes,
        saved.header,
        x,
    )?;
    Ok(is_list(entry.stores.as_slice()))
}

/// Whether each object has a listed store, and none twice.
pub fn are_listed(alloc: Global, saved: &Saved) -> Result<bool, AllocError>
    ensures { (files : List file_type) → IsSaved saved.now.header.now saved.now.lines.now saved.now.standing.now saved.now.segments.now saved.now.pendings.now files → IfOk result (λ is. is ≡ all_listed saved.now.header.now saved.now.lines.now) }
{
    for object in saved.header.objects.as_slice() {
        let listed = is_listed(alloc, saved, object.x)?;
        if !listed {
            return Ok(false);
        }
    }
    Ok(true)
}
