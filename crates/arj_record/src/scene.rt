// What an action's end works on.
ghost use Rattle.arj_record.specs.Scene.{Call, restore, pass, release, raise};

use arj_base::Uid;

/// Where an action's records do their work at its end: the values of the objects, and the lock table. Contracts see
/// what each call makes of the scene, and so which calls a scene got, and in which order.
pub trait Scene<V> {
    /// What a call may make of the scene.
    ghost step: { Self → Call V → Self → Type 0 };

    /// Gives an object the value that it had before the action's first write of it.
    fn restore(&mut self, object: Uid, before: V)
        ensures { step self.old (restore object before) self.new };

    /// Hands the action's locks to the action before it on its path. Where it is the first of its path, they are
    /// released.
    fn pass(&mut self, action: Uid)
        ensures { step self.old (pass action) self.new };

    /// Releases the action's locks, and those of its descendants.
    fn release(&mut self, action: Uid)
        ensures { step self.old (release action) self.new };

    /// Makes an object's value in place its committed one, written by `writer` and of the next version, where the last
    /// version stands still (`arj_base::next_version`).
    fn raise(&mut self, object: Uid, writer: Uid)
        ensures { step self.old (raise object writer) self.new };
}
