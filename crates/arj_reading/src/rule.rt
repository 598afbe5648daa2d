// The rules that the lines of a readable journal keep.

/// A rule that a line breaks.
#[derive(Clone, Copy, Debug, PartialEq, Eq)]
pub enum Rule {
    /// Event numbers never fall.
    Order,
    /// An action has a label that no earlier one has.
    NewLabel,
    /// An action has a Uid that no earlier one has.
    NewUid,
    /// An action names a parent exactly where its kind has one: an earlier action, serializing exactly for a constituent.
    Parent,
    /// A path has at most 16 actions.
    Depth,
    /// A line names an action that began earlier.
    Begun,
    /// A call is of an object of the header.
    Object,
    /// A call's operation is one of its object's class.
    Operation,
    /// A serializing action has no calls.
    SerialCalls,
    /// Only the commits of top-level actions are called.
    CommitOfTop,
    /// A commit is called once.
    OneCommit,
    /// An action ends once.
    OneEnd,
    /// A serializing action ends by `ended`, and no other does; it isn't committed.
    EndOfKind,
    /// A top-level action is committed, and its record found, only after its commit was called.
    Called,
}

/// The first line that breaks a rule, counted from 1.
#[derive(Clone, Copy, Debug, PartialEq, Eq)]
pub struct Broken {
    pub line: usize,
    pub rule: Rule,
}
