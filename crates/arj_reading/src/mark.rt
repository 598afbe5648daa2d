// A line that names an action.

/// The place of a line, and the number of the action that it names.
#[derive(Clone, Copy)]
pub struct Mark {
    pub at: usize,
    pub action: usize,
}
