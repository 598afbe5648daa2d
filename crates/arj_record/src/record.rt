// Records of what an action has done to one object.
ghost use Rattle.std.specs.Prelude.{◌≡◌};
ghost use Rattle.arj_record.specs.Record.{joined, is_lock, object_of};

use arj_base::{Mode, Uid, stronger};

/// What an action has to do for one object when it ends. A record can be neither copied nor dropped: one of its end
/// operations spends it, or a list takes it.
pub enum Record<V> {
    /// The object's value before the first write of it by the action, or by one that was merged into it.
    Recovery { object: Uid, before: V },
    /// The action holds a lock on the object, in this mode.
    Lock { object: Uid, mode: Mode },
    /// The action has changed the object: its state is to be stored where the action's top commits.
    Persistence { object: Uid },
}

impl<V> Record<V> {
    // The object that the record is of.
    pub(crate) fn object(&self) -> Uid
        ensures { result ≡ object_of self.now }
    {
        match self {
            Record::Recovery { object, .. } => *object,
            Record::Lock { object, .. } => *object,
            Record::Persistence { object } => *object,
        }
    }

    // Whether it is a lock.
    pub(crate) fn is_lock(&self) -> bool
        ensures { result ≡ is_lock self.now }
    {
        match self {
            Record::Lock { .. } => true,
            _ => false,
        }
    }
}

impl<V: Drop> Record<V> {
    // Lets the record go without doing anything.
    pub(crate) fn discard(self) {
        match self {
            Record::Recovery { object: _, before } => drop(before),
            Record::Lock { object: _, mode: _ } => {}
            Record::Persistence { object: _ } => {}
        }
    }

    // Takes a younger record of the same kind and object in: the older image and the stronger mode stay.
    pub(crate) fn join(&mut self, younger: Self)
        ensures { self.new ≡ joined self.old younger }
    {
        if let (Record::Lock { mode, .. }, Record::Lock { mode: other, .. }) = (
            &mut *self, &younger,
        ) {
            *mode = stronger(*mode, *other);
        }
        younger.discard();
    }
}
