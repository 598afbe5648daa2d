// What a record has.
use arj_base::{NodeList, Seq, Uid};

/// The record of a commit: its root, the top that was decided, and the nodes that take part in the commit, increasing. It
/// is there from the decision until each of them has acknowledged.
#[derive(Drop)]
pub struct Intent {
    pub root: Uid,
    pub top: Uid,
    pub nodes: NodeList,
}

/// Records of commits, by their tops.
pub type Intents = Seq<Intent>;
