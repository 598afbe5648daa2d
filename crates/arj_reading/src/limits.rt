// How long a path may be.

/// The most actions that a path has, from its root to the action itself.
pub const PATH_ACTIONS: usize = 16;
