// A top whose commit was called.

/// A committed top, its root, and the place at which its commit was called.
#[derive(Clone, Copy)]
pub struct CalledTop {
    pub number: usize,
    pub root: usize,
    pub at: usize,
}
