// What callers get from the contracts: tops, orders and versions.
ghost use Rattle.std.specs.Prelude.{◌≡◌};
ghost use Rattle.std.specs.Ordering.{is_lt};
ghost use Rattle.arj_base.specs.Order.{uid_order};
ghost use Rattle.arj_base.specs.Path.{uids_of, tops_of, top_uid};

use arj_base::{
    LAST_VERSION, Path, Uid, next_version, object_uid, orders_are_by_fields, uids_are_told_apart,
};

// The top, by its path.
fn top_by_path(path: &Path) -> Uid
    ensures { result ≡ top_uid (tops_of path.now) (uids_of path.now) }
{
    path.top_path().last()
}

// Whether a Uid stands before another one in increasing order.
fn stands_before(u: Uid, w: Uid) -> bool
    ensures order { result ≡ is_lt (uid_order u w) }
{
    orders_are_by_fields();
    u < w
}

// Two equal Uids are one and the same.
fn one_of(u: Uid, w: Uid) -> Uid
    ensures { result ≡ w }
{
    uids_are_told_apart();
    if u == w { u } else { w }
}

// The paths of a serializing action, of a constituent in it, and of an action nested in that.
fn paths() -> Option<(Path, Path, Path)> {
    let serializing = Path::new(object_uid(5));
    let constituent = serializing.push(object_uid(6), true)?;
    let nested = constituent.push(object_uid(7), false)?;
    Some((serializing, constituent, nested))
}

fn is_same(one: &Path, other: &Path) -> bool {
    one.as_slice() == other.as_slice()
}

fn tops_are_right() -> bool {
    match paths() {
        Some((serializing, constituent, nested)) => are_right(&serializing, &constituent, &nested),
        None => false,
    }
}

fn are_right(serializing: &Path, constituent: &Path, nested: &Path) -> bool {
    is_same(&nested.top_path(), constituent)
        && is_same(&serializing.top_path(), serializing)
        && top_by_path(nested) == object_uid(6)
}

fn uids_are_right() -> bool {
    let (six, seven) = (object_uid(6), object_uid(7));
    stands_before(six, seven) && one_of(six, seven) == seven
}

fn versions_are_right() -> bool {
    next_version(1) == 2 && next_version(LAST_VERSION) == LAST_VERSION
}

#[test]
fn tops_orders_and_versions(rt: HostRuntime) {
    assert!(rt; tops_are_right());
    assert!(rt; uids_are_right());
    assert!(rt; versions_are_right());
}
