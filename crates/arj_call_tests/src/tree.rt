// Trees of node 1 in incarnation 1, with the refusals and the Uids of worked runs.
use arj_base::{End, Uid};
use arj_tree::{Kind, Tree, TreeFault};
use std::alloc::AllocError;
use std::test::Fail;

// One call, on actions by their numbers.
#[derive(Drop)]
enum Step {
    Top,
    Serial,
    Nest(u64),
    Independent(u64),
    Constituent(u64),
    Use(u64, u16),
    Doom(u64),
    Commit(u64),
    Abort(u64),
}

// The action 1.1.n.
fn action(num: u64) -> Uid {
    Uid {
        node: 1,
        inc: 1,
        num,
    }
}

// Begins an action, a constituent in a serializing one alone.
fn begin(tree: &mut Tree, kind: Kind, parent: Option<Uid>) -> Result<(), TreeFault> {
    if kind == Kind::Constituent {
        return Err(TreeFault::WrongParent);
    }
    tree.begin(kind, parent)?;
    Ok(())
}

fn constituent(tree: &mut Tree, parent: Uid) -> Result<(), TreeFault> {
    if tree.kind(parent) != Some(Kind::Serial) {
        return Err(TreeFault::WrongParent);
    }
    tree.begin(Kind::Constituent, Some(parent))?;
    Ok(())
}

// Makes a call.
fn done(tree: &mut Tree, step: &Step) -> Result<(), TreeFault> {
    match step {
        Step::Top => begin(tree, Kind::Top, None),
        Step::Serial => begin(tree, Kind::Serial, None),
        Step::Nest(parent) => begin(tree, Kind::Nested, Some(action(*parent))),
        Step::Independent(parent) => begin(tree, Kind::Independent, Some(action(*parent))),
        Step::Constituent(parent) => constituent(tree, action(*parent)),
        Step::Use(num, x) => tree.use_object(action(*num), *x),
        Step::Doom(num) => {
            tree.doom(action(*num));
            Ok(())
        }
        Step::Commit(num) => tree.end(action(*num), End::Commit),
        Step::Abort(num) => tree.end(action(*num), End::Abort),
    }
}

// Nests an action in each of those from the second on, fifteen times.
fn nest_fifteen(tree: &mut Tree) -> Result<(), TreeFault> {
    for parent in 2..17u64 {
        begin(tree, Kind::Nested, Some(action(parent)))?;
    }
    Ok(())
}

// Nests actions in the first one, up to the limit of a root.
fn nest_all(tree: &mut Tree) -> Result<(), TreeFault> {
    for _ in 2..65u64 {
        begin(tree, Kind::Nested, Some(action(1)))?;
    }
    Ok(())
}

// Uses sixteen objects.
fn use_all(tree: &mut Tree) -> Result<(), TreeFault> {
    for x in 1..17u16 {
        tree.use_object(action(u64::from(x)), x)?;
    }
    Ok(())
}

// Whether these calls answer so.
fn answers(tree: &mut Tree, steps: &[(Step, Option<TreeFault>)]) -> bool {
    for (step, want) in steps {
        if done(tree, step).err() != *want {
            return false;
        }
    }
    true
}

#[test]
fn each_refusal_in_order_of_numbers(rt: HostRuntime) {
    let mut tree = Tree::new(rt.alloc(), 1, 1);
    assert!(rt; refuses_in_order(&mut tree));
}

fn refuses_in_order(tree: &mut Tree) -> bool {
    let first = [
        (Step::Top, None),
        (Step::Commit(1), None),
        (Step::Use(1, 1), Some(TreeFault::Ended)),
        (Step::Top, None),
    ];
    let then = [
        (Step::Commit(2), Some(TreeFault::OpenChildren)),
        (Step::Nest(17), Some(TreeFault::TooDeep)),
        (Step::Doom(17), None),
        (Step::Nest(17), Some(TreeFault::Doomed)),
        (Step::Use(17, 1), Some(TreeFault::Doomed)),
        (Step::Use(18, 1), Some(TreeFault::Ended)),
    ];
    answers(tree, &first) && nest_fifteen(tree).is_ok() && answers(tree, &then)
}

#[test]
fn refusals_of_a_serializing_action(rt: HostRuntime) {
    let mut tree = Tree::new(rt.alloc(), 1, 1);
    let steps = [
        (Step::Serial, None),
        (Step::Doom(1), None),
        (Step::Independent(1), Some(TreeFault::WrongParent)),
        (Step::Use(1, 1), Some(TreeFault::NoCalls)),
        (Step::Abort(1), None),
        (Step::Independent(1), Some(TreeFault::Ended)),
        (Step::Commit(1), Some(TreeFault::Ended)),
    ];
    assert!(rt; answers(&mut tree, &steps));
}

#[test]
fn limits_of_a_root(rt: HostRuntime) {
    let mut tree = Tree::new(rt.alloc(), 1, 1);
    assert!(rt; has_limits(&mut tree));
}

fn has_limits(tree: &mut Tree) -> bool {
    let steps = [
        (Step::Nest(64), Some(TreeFault::TooMany)),
        (Step::Independent(64), None),
        (Step::Use(64, 17), Some(TreeFault::TooMany)),
        (Step::Use(64, 16), None),
        (Step::Use(65, 17), None),
    ];
    begin(tree, Kind::Top, None).is_ok()
        && nest_all(tree).is_ok()
        && use_all(tree).is_ok()
        && answers(tree, &steps)
}

// A serializing action 1, in it a constituent 2 with 3 and 6 nested, 4 nested in 3, and 5 independent of it.
fn grows(tree: &mut Tree) -> bool {
    let steps = [
        (Step::Serial, None),
        (Step::Constituent(1), None),
        (Step::Nest(2), None),
        (Step::Nest(3), None),
        (Step::Independent(3), None),
        (Step::Nest(2), None),
    ];
    answers(tree, &steps)
}

// Whether these are open below action 2, the last begun first.
fn has_open(tree: &Tree) -> Result<bool, AllocError> {
    let open = tree.open_below(action(2))?;
    Ok(open.as_slice() == [action(6), action(4), action(3)].as_slice())
}

// Whether that is the latest open action below action 3.
fn is_latest(tree: &Tree, latest: Option<Uid>) -> bool {
    tree.latest_below(action(3)) == latest
}

#[test]
fn what_is_open(rt: HostRuntime) -> Result<(), Fail> {
    let mut tree = Tree::new(rt.alloc(), 1, 1);
    assert!(rt; grows(&mut tree) && has_open(&tree)?);
    assert!(rt;
        is_latest(&tree, Some(action(4)))
            && done(&mut tree, &Step::Commit(4)).is_ok()
            && is_latest(&tree, None)
            && tree.kind(action(5)) == Some(Kind::Independent)
    );
    Ok(())
}

// Whether 4 is merged into 3 and not into 2, and is spent once 3 has aborted.
fn survives(tree: &mut Tree) -> bool {
    let path = [action(1), action(2), action(3), action(4)];
    if !grows(tree) || done(tree, &Step::Commit(4)).is_err() {
        return false;
    }
    if !tree.is_merged(action(3), path.as_slice()) || tree.is_merged(action(2), path.as_slice()) {
        return false;
    }
    !tree.is_spent(path.as_slice())
        && done(tree, &Step::Abort(3)).is_ok()
        && tree.is_spent(path.as_slice())
}

#[test]
fn what_survives(rt: HostRuntime) {
    let mut tree = Tree::new(rt.alloc(), 1, 1);
    let ends = [(action(4), End::Commit), (action(3), End::Abort)];
    assert!(rt; survives(&mut tree));
    assert!(rt; tree.ends(action(1)).as_slice() == ends.as_slice());
}
