// Which nodes are up.
use arj_journal::{Body, NODES};
use std::alloc::{AllocError, Global};

/// Whether each node is up, from node 1 on. All are at first.
#[derive(Drop)]
pub struct Ups {
    ups: Vec<bool>,
}

impl Ups {
    /// All nodes are up.
    pub fn new(alloc: Global) -> Result<Ups, AllocError> {
        let ups = vec![in alloc; true; NODES as usize]?;
        Ok(Ups { ups })
    }

    /// Whether a node, from 1, is up.
    pub fn is_up(&self, node: usize) -> bool {
        match self.ups.get(node.saturating_sub(1)) {
            Some(up) => *up,
            None => false,
        }
    }

    // Notes whether a node is up.
    fn set(&mut self, node: u8, up: bool) {
        let at = usize::from(node).saturating_sub(1);
        if at < self.ups.len() {
            self.ups[at] = up;
        }
    }

    /// Takes a line.
    pub fn take(&mut self, body: &Body) {
        match body {
            Body::Halted { node } => self.set(*node, false),
            Body::Up { node, .. } => self.set(*node, true),
            _ => {}
        }
    }
}
