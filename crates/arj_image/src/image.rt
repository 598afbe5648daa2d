// What an image says.
use arj_base::{Bytes, Seq};
use arj_disk::Slot;
use arj_journal::{Header, Lines};

/// A file of a node's disk.
#[derive(Drop)]
pub struct NodeFile {
    pub node: u8,
    pub slot: Slot,
    pub bytes: Bytes,
}

/// Files by their nodes, those of a node by their names.
pub type Files = Seq<NodeFile>;

/// What is left of a run whose nodes are stopped: its nodes and objects, how many events and frames there were, its journal, and
/// the files of its disks.
#[derive(Drop)]
pub struct Image {
    pub header: Header,
    pub events: u32,
    pub frames: u32,
    pub journal: Lines,
    pub files: Files,
}
