// Laws of the row steps.
ghost use Rattle.std.specs.Prelude.{◌≡◌, ◌≤◌, Bool, List, [], length, None};
ghost use Rattle.arj_base.specs.declared.uid.Uid.{Uid};
ghost use Rattle.arj_base.specs.Rows.{Row, grant_row, pass_rows, drop_rows, close_rows, lower_row, first_conflict};
ghost use Rattle.arj_lock.specs.Exclusion.{AgreesWithAll, AreApart, Excluding, IsOneEach, MayPass, NoneBelow, StandsBelow};

/// No two rows of one object conflict, unless one holder is on the other's path, whatever steps a table goes through: a
/// grant that meets no conflict, by a path that agrees with those of the table; a pass by an action no descendant of
/// which has a row; and any drop, close or lowering. It does nothing when it runs.
pub fn rows_exclude()
    ensures empty { Excluding [] }
    ensures grant { (new : Row) (rows : List Row) → Excluding rows → 1 ≤ length new.holder → AgreesWithAll new.holder rows
        → first_conflict new.holder new.object new.mode rows ≡ None → Excluding (grant_row new rows) }
    ensures pass { (action : Uid) (rows : List Row) → Excluding rows → NoneBelow action rows → Excluding (pass_rows action rows) }
    ensures drop { (action : Uid) (rows : List Row) → Excluding rows → Excluding (drop_rows action rows) }
    ensures close { (object : Uid) (rows : List Row) → Excluding rows → Excluding (close_rows object rows) }
    ensures lower { (action object : Uid) (rows : List Row) → Excluding rows → Excluding (lower_row action object rows) }
{}

/// The same over a relation of actions that the caller gives, `on a b` where b is a or stands above it, and without any
/// agreement of paths: the holders of two rows of one object that conflict are related, whatever steps a table goes
/// through: a grant that meets no conflict, to an action that stands below whoever is on its path; a pass to heirs that
/// stand right above the action, below which nobody has a row; and any drop, close or lowering. It does nothing when it runs.
pub fn rows_stay_apart()
    ensures empty { (on : Uid → Uid → Bool) → AreApart on [] }
    ensures grant { (on : Uid → Uid → Bool) (new : Row) (rows : List Row) → StandsBelow on new.holder
        → first_conflict new.holder new.object new.mode rows ≡ None → AreApart on rows → AreApart on (grant_row new rows) }
    ensures pass { (on : Uid → Uid → Bool) (action : Uid) (rows : List Row) → MayPass on action rows → AreApart on rows → AreApart on (pass_rows action rows) }
    ensures drop { (on : Uid → Uid → Bool) (action : Uid) (rows : List Row) → AreApart on rows → AreApart on (drop_rows action rows) }
    ensures close { (on : Uid → Uid → Bool) (object : Uid) (rows : List Row) → AreApart on rows → AreApart on (close_rows object rows) }
    ensures lower { (on : Uid → Uid → Bool) (action object : Uid) (rows : List Row) → AreApart on rows → AreApart on (lower_row action object rows) }
{}

/// No action has two rows of one object, whatever steps a table goes through: its mode on the object is the strongest that
/// it was granted. It does nothing when it runs.
pub fn rows_are_one_each()
    ensures empty { IsOneEach [] }
    ensures grant { (new : Row) (rows : List Row) → IsOneEach rows → IsOneEach (grant_row new rows) }
    ensures pass { (action : Uid) (rows : List Row) → IsOneEach rows → IsOneEach (pass_rows action rows) }
    ensures drop { (action : Uid) (rows : List Row) → IsOneEach rows → IsOneEach (drop_rows action rows) }
    ensures close { (object : Uid) (rows : List Row) → IsOneEach rows → IsOneEach (close_rows object rows) }
    ensures lower { (action object : Uid) (rows : List Row) → IsOneEach rows → IsOneEach (lower_row action object rows) }
{}
