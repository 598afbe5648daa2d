// The bindings that naming makes.
ghost use Rattle.std.specs.Prelude.{◌≡◌, ◌+◌, ◌<◌, IfSome};

use arj_base::Binding;

/// The incarnation of naming, and how many bindings it has made in it.
#[derive(Clone, Copy)]
pub struct Counter {
    pub inc: u32,
    pub count: u32,
}

impl Counter {
    /// The next binding. An incarnation has 4,294,967,295 of them, and then none.
    pub fn next(&self) -> Option<Binding>
        ensures { IfSome result (λ binding. binding ≡ record { inc = self.now.inc; count = self.now.count + 1 }) }
    {
        let count = self.count.checked_add(1)?;
        Some(Binding {
            inc: self.inc,
            count,
        })
    }
}
