// The words that tell what a line, a cause or a difference is.
ghost use Rattle.std.specs.Prelude.{◌≡◌};
ghost use Rattle.arj_journal.specs.LineWords.{cause_word, difference_word, line_word};

/// The kinds of line. Each begins with a word of its own.
#[derive(Clone, Copy)]
pub enum LineKind {
    Began,
    Ok,
    Includes,
    Conflict,
    Lost,
    Changed,
    Committing,
    Committed,
    Ended,
    Aborted,
    GaveUp,
    Excluded,
    Granted,
    Lowered,
    Bound,
    Active,
    Told,
    Prepared,
    Done,
    Sent,
    Got,
    Void,
    Dropped,
    Halted,
    Up,
    Armed,
    Recovered,
    Refused,
    Entry,
    Copy,
    Quiet,
    Bad,
    Limit,
}

impl LineKind {
    /// The first word of lines of this kind.
    pub fn word(self) -> &'static [u8]
        ensures { result.now ≡ line_word self }
    {
        match self {
            LineKind::Began => b"began",
            LineKind::Ok => b"ok",
            LineKind::Includes => b"includes",
            LineKind::Conflict => b"conflict",
            LineKind::Lost => b"lost",
            LineKind::Changed => b"changed",
            LineKind::Committing => b"committing",
            LineKind::Committed => b"committed",
            LineKind::Ended => b"ended",
            LineKind::Aborted => b"aborted",
            LineKind::GaveUp => b"gaveup",
            LineKind::Excluded => b"excluded",
            LineKind::Granted => b"granted",
            LineKind::Lowered => b"lowered",
            LineKind::Bound => b"bound",
            LineKind::Active => b"active",
            LineKind::Told => b"told",
            LineKind::Prepared => b"prepared",
            LineKind::Done => b"done",
            LineKind::Sent => b"sent",
            LineKind::Got => b"got",
            LineKind::Void => b"void",
            LineKind::Dropped => b"dropped",
            LineKind::Halted => b"halted",
            LineKind::Up => b"up",
            LineKind::Armed => b"armed",
            LineKind::Recovered => b"recovered",
            LineKind::Refused => b"refused",
            LineKind::Entry => b"entry",
            LineKind::Copy => b"copy",
            LineKind::Quiet => b"quiet",
            LineKind::Bad => b"bad",
            LineKind::Limit => b"limit",
        }
    }
}

/// The causes of an abort. The first two say nothing more.
#[derive(Clone, Copy)]
pub enum CauseKind {
    Asked,
    Doomed,
    Lost,
    Conflict,
    Changed,
    Old,
    NoStores,
    Listed,
}

impl CauseKind {
    /// The first word of causes of this kind.
    pub fn word(self) -> &'static [u8]
        ensures { result.now ≡ cause_word self }
    {
        match self {
            CauseKind::Asked => b"asked",
            CauseKind::Doomed => b"doomed",
            CauseKind::Lost => b"lost",
            CauseKind::Conflict => b"conflict",
            CauseKind::Changed => b"changed",
            CauseKind::Old => b"old",
            CauseKind::NoStores => b"nostores",
            CauseKind::Listed => b"listed",
        }
    }
}

/// What differs.
#[derive(Clone, Copy)]
pub enum DifferenceKind {
    Inc,
    Bind,
}

impl DifferenceKind {
    /// The first word of differences of this kind.
    pub fn word(self) -> &'static [u8]
        ensures { result.now ≡ difference_word self }
    {
        match self {
            DifferenceKind::Inc => b"inc",
            DifferenceKind::Bind => b"bind",
        }
    }
}
