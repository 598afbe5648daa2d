// Laws of lists of records.
ghost use Rattle.std.specs.Prelude.{◌≡◌, ◌||◌, true, false, if◌then◌else◌, List, [], ◌∷◌, None, Some};
ghost use Rattle.std.specs.Option.{option_or, option_to_list};
ghost use Rattle.arj_base.specs.declared.mode.Mode.{Mode};
ghost use Rattle.arj_base.specs.declared.uid.Uid.{Uid};
ghost use Rattle.arj_base.specs.Uid.{uid_eq};
ghost use Rattle.arj_record.specs.declared.record.Record.{Record};
ghost use Rattle.arj_record.specs.Records.{added, forgotten, gathered, has_locks, keep_calls, merged, passed, raised, released, undo_calls, restored, image, lock_mode, is_changed, IsArranged};
ghost use Rattle.arj_base.specs.Mode.{strongest};

/// Undo restores each object once, to the oldest of its images: whatever records were added to an empty list one
/// after another, and after a merge too, where the parent's image is the older one. It does nothing when it runs.
pub fn undo_restores_the_oldest_image<V>()
    ensures added { (items : List (Record V)) (action x : Uid) → restored x (undo_calls action (gathered [] items)) ≡ option_to_list (image x items) }
    ensures merged { (parent child : List (Record V)) (action x : Uid) → IsArranged parent → IsArranged child → restored x (undo_calls action (merged parent child)) ≡ option_to_list (option_or (image x parent) (image x child)) }
{}

/// An end object by object, of a list that is arranged: an undo restores the object's image if there is one, a keep raises the
/// object if it is changed, and neither does anything else to it; each is told of the locks once, where some object
/// has one. It does nothing when it runs.
pub fn ends_go_by_objects<V>()
    ensures undo { (rs : List (Record V)) (action x : Uid) → IsArranged rs → restored x (undo_calls action rs) ≡ option_to_list (image x rs) }
    ensures keep { (rs : List (Record V)) (action x : Uid) → IsArranged rs → raised x (keep_calls action rs) ≡ (if is_changed x rs then action ∷ [] else []) }
    ensures undo_locks { (rs : List (Record V)) (action : Uid) → released (undo_calls action rs) ≡ (if has_locks rs then action ∷ [] else []) }
    ensures keep_locks { (rs : List (Record V)) (action : Uid) → passed (keep_calls action rs) ≡ (if has_locks rs then action ∷ [] else []) }
    ensures some_lock { (rs : List (Record V)) → has_locks rs ≡ true → (x : Uid) × (mode : Mode) × (lock_mode x rs ≡ Some mode) }
    ensures locked { (rs : List (Record V)) (x : Uid) (mode : Mode) → lock_mode x rs ≡ Some mode → has_locks rs ≡ true }
{}

/// To forget an object takes its image, its lock and its change out, and no other object's. It does nothing when it runs.
pub fn forgets_one_object<V>()
    ensures image { (rs : List (Record V)) (gone x : Uid) → image x (forgotten gone rs) ≡ (if uid_eq x gone then None else image x rs) }
    ensures mode { (rs : List (Record V)) (gone x : Uid) → lock_mode x (forgotten gone rs) ≡ (if uid_eq x gone then None else lock_mode x rs) }
    ensures changed { (rs : List (Record V)) (gone x : Uid) → is_changed x (forgotten gone rs) ≡ (if uid_eq x gone then false else is_changed x rs) }
{}

/// A merge object by object: the parent's image stays where it has one, the stronger mode stays, and what either has
/// changed is changed. To add a record is to merge a list that has it alone. It does nothing when it runs.
pub fn merges_go_by_objects<V>()
    ensures image { (parent child : List (Record V)) (x : Uid) → IsArranged parent → IsArranged child → image x (merged parent child) ≡ option_or (image x parent) (image x child) }
    ensures mode { (parent child : List (Record V)) (x : Uid) → IsArranged parent → IsArranged child → lock_mode x (merged parent child) ≡ strongest (lock_mode x parent) (lock_mode x child) }
    ensures changed { (parent child : List (Record V)) (x : Uid) → IsArranged parent → IsArranged child → is_changed x (merged parent child) ≡ (is_changed x parent || is_changed x child) }
    ensures added { (rs : List (Record V)) (item : Record V) → IsArranged rs → added item rs ≡ merged rs (item ∷ []) }
{}
