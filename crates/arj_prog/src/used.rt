// The objects of a program.
use crate::limits::PROGRAM_OBJECTS;
use std::marker::Model;

/// At most 16 objects, each once. Contracts see them as the list of their numbers.
#[derive(Drop)]
pub struct Used {
    objects: [u16; PROGRAM_OBJECTS],
    len: usize,
}

impl Model for Used {
    ghost use Rattle.std.specs.Prelude.{ℕ, ◌≡◌, ◌≤◌, List, length, take};

    ghost Value = { List ℕ };

    ghost view = { λ u. take u.len u.objects };

    ghost invariant = { λ u. (u.len ≤ 16) × (length u.objects ≡ 16) };
}

impl Used {
    ghost use Rattle.std.specs.Prelude.{◌≡◌, []};
    ghost use Rattle.arj_prog.specs.Objects.{is_used, may_use, with_used};

    /// None.
    pub fn new() -> Used
        ensures { result ≡ [] }
    {
        Used {
            objects: [0; PROGRAM_OBJECTS],
            len: 0,
        }
    }

    /// Whether the object is among them.
    pub fn has(&self, x: u16) -> bool
        ensures { result ≡ is_used x self.now }
    {
        self.objects[..self.len].contains(&x)
    }

    /// Whether the object is among them, or there is room for another.
    pub fn may_use(&self, x: u16) -> bool
        ensures { result ≡ may_use x self.now }
    {
        self.has(x) || self.len < PROGRAM_OBJECTS
    }

    /// Adds an object, where it isn't among them and there is room.
    pub fn add(&mut self, x: u16)
        ensures { self.new ≡ with_used x self.old }
    {
        if self.has(x) {
            return;
        }
        if self.len < PROGRAM_OBJECTS {
            self.objects[self.len] = x;
            self.len += 1;
        }
    }
}
