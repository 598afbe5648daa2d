// How reading ends.

/// Why no further line is taken. A taker says why it takes none by a value of type `F`.
#[derive(Drop)]
pub enum Ending<F> {
    /// The input is at its end, and every line was taken.
    End,
    /// A read failed.
    Fault,
    /// A line is longer than it may be at its place.
    TooLong,
    /// The taker takes no further line.
    Stopped(F),
    /// Memory is wanting.
    Memory,
}
