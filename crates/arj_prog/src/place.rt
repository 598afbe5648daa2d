// Where the reader stands.
use crate::draft::Draft;
use arj_journal::Header;
use arj_script::Reader;

/// In the header; behind its seed; behind its turns, where programs come; or behind `run`.
#[derive(Drop)]
pub enum Place {
    Heading(Reader),
    Seeded { header: Header, seed: u32 },
    Drafting(Draft),
    Over,
}
