// The events that were refused.
ghost use Rattle.std.specs.Prelude.{◌≡◌, count_by};
ghost use Rattle.arj_main.specs.Refusals.{first_refused, is_refused, tells_refusal};

use arj_journal::{Body, Line};

/// An event that was refused, and the cause.
#[derive(Clone, Copy)]
pub struct Refusal {
    pub event: u32,
    pub cause: u8,
}

/// How many events of a journal were refused.
pub fn count_of_refused(journal: &[Line]) -> usize
    ensures { result ≡ count_by tells_refusal journal.now }
{
    let mut count: usize = 0;
    for line in journal {
        if is_refused(&line.body) {
            count += 1;
        }
    }
    count
}

fn is_refused(body: &Body) -> bool
    ensures { result ≡ is_refused body.now }
{
    matches!(body, Body::Refused { .. })
}

/// The first event of a journal that was refused.
pub fn first_refused(journal: &[Line]) -> Option<Refusal>
    ensures { result ≡ first_refused journal.now }
{
    for line in journal {
        if let Body::Refused { cause } = &line.body {
            return Some(Refusal {
                event: line.event,
                cause: *cause,
            });
        }
    }
    None
}
