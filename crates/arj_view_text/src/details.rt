// What a long block only counts.
use arj_journal::Body;

/// The kinds of line that a long block only counts.
#[derive(Clone, Copy, Debug, PartialEq, Eq)]
pub enum Detail {
    Sent,
    Got,
    Void,
    Lost,
    /// A lock is granted or lowered, or an end is applied to locks.
    Lock,
    /// A server takes a copy, or naming makes a binding.
    Copy,
    /// States are prepared, or what was prepared is done.
    State,
}

/// What a line is, if a long block only counts it.
pub fn detail_of(body: &Body) -> Option<Detail> {
    match body {
        Body::Sent { .. } => Some(Detail::Sent),
        Body::Got { .. } => Some(Detail::Got),
        Body::Void { .. } => Some(Detail::Void),
        Body::Dropped { .. } => Some(Detail::Lost),
        Body::Granted { .. } | Body::Lowered { .. } | Body::Told { .. } => Some(Detail::Lock),
        Body::Bound { .. } | Body::Active { .. } => Some(Detail::Copy),
        Body::Prepared { .. } | Body::Done { .. } => Some(Detail::State),
        _ => None,
    }
}
