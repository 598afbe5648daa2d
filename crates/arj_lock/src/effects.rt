// What each row step leaves, object by object and holder by holder.
ghost use Rattle.std.specs.Prelude.{◌≡◌, ◌⊎◌, ◌↔◌, ◌||◌, ◌&&◌, not, true, false, if◌then◌else◌, List, None, Some, Contains};
ghost use Rattle.std.specs.List.{list_any};
ghost use Rattle.std.specs.Option.{option_map};
ghost use Rattle.arj_base.specs.declared.mode.Mode.{Mode};
ghost use Rattle.arj_base.specs.declared.mode.Mode.TheVariants.{Read};
ghost use Rattle.arj_base.specs.declared.uid.Uid.{Uid};
ghost use Rattle.arj_base.specs.Mode.{stronger, strongest};
ghost use Rattle.arj_base.specs.Rows.{Row, last_uid, is_on, is_row_of, is_held_by, has_any, has_row, mode_of, strengthened, grant_row, pass_rows, drop_rows, close_rows, lower_row, first_conflict};
ghost use Rattle.arj_base.specs.Uid.{uid_eq};
ghost use Rattle.arj_lock.specs.Exclusion.{IsOneEach, NoneBelow};
ghost use Rattle.arj_lock.specs.Passing.{passing, passing_mode, CameBy, HeirsAgree};
ghost use Rattle.arj_lock.specs.Requests.{lowered};

/// What a grant leaves: the action has the stronger mode on the object, and every other mode stays; a row is an old one,
/// the new one, or the action's old one in the stronger mode. Who met no conflict meets none after a grant to an action
/// of its path. It does nothing when it runs.
pub fn grant_leaves()
    ensures mode { (new : Row) (rows : List Row) (object holder : Uid) → mode_of object holder (grant_row new rows)
        ≡ (if is_row_of object holder new then strongest (mode_of object holder rows) (Some new.mode) else mode_of object holder rows) }
    ensures any { (new : Row) (rows : List Row) (action : Uid) → has_any action (grant_row new rows)
        ≡ (has_any action rows || (not (has_row new.object (last_uid new.holder) rows) && is_on new.holder action)) }
    ensures stays { (new r : Row) (rows : List Row) → Contains rows r → is_row_of new.object (last_uid new.holder) r ≡ false → Contains (grant_row new rows) r }
    ensures each { (new r : Row) (rows : List Row) → Contains (grant_row new rows) r → Contains rows r ⊎ ((r ≡ new)
        ⊎ ((old : Row) × Contains rows old × (is_row_of new.object (last_uid new.holder) old ≡ true) × (r ≡ record old { mode = stronger old.mode new.mode }))) }
    ensures clear { (path : List Uid) (object : Uid) (mode : Mode) (new : Row) (rows : List Row) → is_on path (last_uid new.holder) ≡ true
        → first_conflict path object mode rows ≡ None → first_conflict path object mode (grant_row new rows) ≡ None }
{}

/// What a pass leaves, of a table in which no action has two rows of one object: the action has no mode any more, its
/// heir on an object has the stronger one of its own and of what passes to it, and every other mode stays. Where no
/// descendant of the action has a row and the heirs' paths agree, whoever else had a row itself or below it has one
/// still. It does nothing when it runs.
pub fn pass_leaves()
    ensures mode { (action : Uid) (rows : List Row) → IsOneEach rows → (object holder : Uid) → mode_of object holder (pass_rows action rows)
        ≡ (if uid_eq holder action then None else strongest (mode_of object holder rows) (passing_mode action object holder rows)) }
    ensures fewer { (action : Uid) (rows : List Row) (other : Uid) → has_any other (pass_rows action rows) ≡ true → has_any other rows ≡ true }
    ensures any { (action : Uid) (rows : List Row) → NoneBelow action rows → HeirsAgree action rows → (other : Uid)
        → has_any other (pass_rows action rows) ≡ (has_any other rows && not (uid_eq other action)) }
    ensures stays { (action : Uid) (rows : List Row) (r : Row) → Contains rows r → is_held_by action r ≡ false
        → Contains (pass_rows action rows) (strengthened r (passing action r.object (last_uid r.holder) rows)) }
    ensures each { (action : Uid) (rows : List Row) (r : Row) → Contains (pass_rows action rows) r → CameBy action rows r }
{}

/// What a drop leaves: the rows without the action on their holder's path, and so each mode whose row has none. It does
/// nothing when it runs.
pub fn drop_leaves()
    ensures rows { (action : Uid) (rows : List Row) (r : Row) → Contains (drop_rows action rows) r ↔ (Contains rows r × (is_on r.holder action ≡ false)) }
    ensures mode { (action : Uid) (rows : List Row) → IsOneEach rows → (object holder : Uid) → mode_of object holder (drop_rows action rows)
        ≡ (if list_any (λ r. is_row_of object holder r && is_on r.holder action) rows then None else mode_of object holder rows) }
    ensures any { (action : Uid) (rows : List Row) (other : Uid) → has_any other (drop_rows action rows) ≡ list_any (λ r. is_on r.holder other && not (is_on r.holder action)) rows }
    ensures gone { (action : Uid) (rows : List Row) → has_any action (drop_rows action rows) ≡ false }
{}

/// What a close leaves: the rows of the other objects. It does nothing when it runs.
pub fn close_leaves()
    ensures rows { (object : Uid) (rows : List Row) (r : Row) → Contains (close_rows object rows) r ↔ (Contains rows r × (uid_eq r.object object ≡ false)) }
    ensures mode { (closed : Uid) (rows : List Row) (object holder : Uid) → mode_of object holder (close_rows closed rows) ≡ (if uid_eq object closed then None else mode_of object holder rows) }
    ensures any { (object : Uid) (rows : List Row) (action : Uid) → has_any action (close_rows object rows) ≡ list_any (λ r. is_on r.holder action && not (uid_eq r.object object)) rows }
{}

/// What a lowering leaves: the action has read on the object where it had a mode, and every other mode stays. It does
/// nothing when it runs.
pub fn lower_leaves()
    ensures mode { (action lower : Uid) (rows : List Row) (object holder : Uid) → mode_of object holder (lower_row action lower rows)
        ≡ (if uid_eq object lower && uid_eq holder action then option_map (λ _. Read) (mode_of object holder rows) else mode_of object holder rows) }
    ensures any { (action object : Uid) (rows : List Row) (other : Uid) → has_any other (lower_row action object rows) ≡ has_any other rows }
    ensures stays { (action object : Uid) (rows : List Row) (r : Row) → Contains rows r → Contains (lower_row action object rows) (lowered action object r) }
    ensures each { (action object : Uid) (rows : List Row) (r : Row) → Contains (lower_row action object rows) r → (old : Row) × Contains rows old × (r ≡ lowered action object old) }
{}
