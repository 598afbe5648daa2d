// Where calls on objects end.
use std::alloc::Global;
use std::collections::BTreeMap;

/// Where the calls on each object end so far: one behind the place of the last one, and of the last one that writes.
#[derive(Drop)]
pub struct Ends {
    pub any: BTreeMap<u16, usize>,
    pub wrote: BTreeMap<u16, usize>,
}

impl Ends {
    ghost use Rattle.std.specs.Prelude.{◌≡◌, ℕ};
    ghost use Rattle.arj_book.specs.Ends.{ends_in};
    ghost use Rattle.arj_book.specs.Kept.{no_ends};

    /// Before the first call.
    pub fn new(alloc: Global) -> Ends
        ensures { (ends_in result.any ≡ no_ends) × (ends_in result.wrote ≡ no_ends) }
    {
        Ends {
            any: BTreeMap::new(alloc),
            wrote: BTreeMap::new(alloc),
        }
    }
}
