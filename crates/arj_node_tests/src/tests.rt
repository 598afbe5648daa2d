// The tests, of nodes whose parts stand over segment files.
use crate::alone::header;
use crate::plays::{FOUR_NODES, THREE_NODES, decisions, exclusions};
use crate::stops::{TWO_COUNTERS, commit_ends, restarts_end};
use arj_node::NodeCore;
use arj_parts::NodeParts;
use arj_segment::SegmentStore;
use std::process::Abort;
use std::test::Fail;

// The node that is tested.
type Node = NodeCore<NodeParts<SegmentStore>>;

// Nodes go through the two runs as the rules say, call by call of their disks.
#[test]
fn nodes_play_their_parts(rt: HostRuntime) -> Result<(), Fail> {
    let alloc = rt.alloc();
    let run = header(alloc, THREE_NODES)?;
    assert!(rt; decisions::<Node>(alloc, &run)?);
    let run = header(alloc, FOUR_NODES)?;
    assert!(rt; exclusions::<Node>(alloc, &run)?);
    Ok(())
}

// Wherever a node stops in a commit, and again in the restart behind it, both objects are old or both are new in the end.
#[test]
fn nodes_end_well_wherever_they_stop(rt: HostRuntime) -> Result<(), Fail> {
    let alloc = rt.alloc();
    let run = header(alloc, TWO_COUNTERS)?;
    assert!(rt; commit_ends::<Node>(alloc, &run)?);
    assert!(rt; restarts_end::<Node>(alloc, &run)?);
    Ok(())
}
