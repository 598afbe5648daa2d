// Rows of causes: of bindings and of copies.
ghost use Rattle.arj_law_cause.specs.kinds.Kinds.{is_active, is_bound, is_lock_lowered};
ghost use Rattle.arj_law_cause.specs.kinds.Rows.{RowHolds};

/// In every run in form, wherever it begins and wherever disks stop, each line `bound` has its cause by the events and the lines before it:
/// its binding is the next one of naming's present life, its server is the one whose turn it is by the header's list, and some top has the
/// entry's write lock. It does nothing when it runs.
pub fn bindings_have_causes()
    ensures bound { RowHolds is_bound }
{}

/// In every run in form, wherever it begins and wherever disks stop, each line `active` has its cause by the lines before it: its binding
/// was made for its node, and is newer than those of the object's copies of the node's present life. It does nothing when it runs.
pub fn copies_have_causes()
    ensures active { RowHolds is_active }
{}

/// In every run in form, wherever it begins and wherever disks stop, each line `lowered` has its cause by the lines before it: its top has
/// the entry's write lock, and a copy of the object became active under a binding of naming's present incarnation. It does nothing when it
/// runs.
pub fn locks_lowered_have_causes()
    ensures lowered { RowHolds is_lock_lowered }
{}
