// What is found of an image.

/// What is found of an image whose journal can be read as a run.
#[derive(Clone, Copy, Debug, PartialEq, Eq)]
pub struct Findings {
    /// Each answer is that of the serial order.
    pub serial: bool,
    /// Where nothing is in doubt, the disks hold the last entries and states of the journal.
    pub clean: bool,
    /// Nothing is prepared, and no record is there.
    pub quiet: bool,
    /// A run can go on from it.
    pub calm: bool,
}
