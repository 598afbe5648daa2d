// Commits, answer by answer, with values worked out by hand.
use crate::plans::{Start, TOP, changed, plan};
use arj_base::{End, Mode, Uid};
use arj_commit::{Confirming, NAMING, Plan, Preparing, Requests, Step, Telling, Voting, start};
use arj_intent::Intent;
use arj_journal::{Cause, Difference};
use arj_msg::{
    Asked, Confirmed, ConfirmedReply, Message, Prepared, PreparedReply, Voted, VotedReply, What,
};
use std::alloc::{AllocError, Global};
use std::test::Fail;

const OTHER: Uid = Uid {
    node: 3,
    inc: 1,
    num: 9,
};

// What is heard: of a vote the objects that changed, of a refusal what is said.
#[derive(Clone, Copy)]
enum Heard {
    Yes(u8, &'static [u16]),
    OtherServer(u8),
    Ready(u8),
    Busy(u8),
    Old(u8),
    Confirms(ConfirmedReply),
    GiveUp,
}

// A step with the nodes that are awaited in it, and how much its requests carry; or the decision with the nodes of its
// record and those that are told to abort.
#[derive(Clone, Copy)]
enum Then {
    Voting(&'static [u8], &'static [usize]),
    Preparing(&'static [u8], &'static [usize]),
    Confirming(&'static [(u16, u8)], &'static [(u16, u8)]),
    Decided(Option<&'static [u8]>, &'static [u8]),
    Aborted(Cause),
}

struct Case {
    start: Start,
    first: Then,
    steps: &'static [(Heard, Then)],
}

const CHANGED: What = What::Inc { had: 1, now: 2 };

const CASES: &[Case] = &[
    // All say yes.
    Case {
        start: Start::Whole,
        first: Then::Voting(&[3, 6], &[1, 1]),
        steps: &[
            (Heard::Yes(6, &[]), Then::Voting(&[3], &[1])),
            (Heard::Yes(3, &[1]), Then::Preparing(&[4, 5, 8], &[1, 1, 1])),
            (Heard::Ready(5), Then::Preparing(&[4, 8], &[1, 1])),
            (Heard::Ready(8), Then::Preparing(&[4], &[1])),
            (Heard::Ready(4), Then::Confirming(&[], &[(7, 8)])),
            (
                Heard::Confirms(ConfirmedReply::Yes),
                Then::Decided(Some(&[1, 3, 4, 5, 6, 8]), &[2]),
            ),
        ],
    },
    // A store is busy, another is given up.
    Case {
        start: Start::Whole,
        first: Then::Voting(&[3, 6], &[1, 1]),
        steps: &[
            (Heard::Yes(3, &[1]), Then::Voting(&[6], &[1])),
            (Heard::Yes(6, &[2]), Then::Preparing(&[4, 5, 8], &[2, 1, 1])),
            (Heard::Busy(8), Then::Preparing(&[4, 5], &[2, 1])),
            (Heard::Ready(5), Then::Preparing(&[4], &[2])),
            (
                Heard::GiveUp,
                Then::Confirming(&[(1, 4), (2, 4), (7, 8)], &[]),
            ),
            (
                Heard::Confirms(ConfirmedReply::Yes),
                Then::Decided(Some(&[1, 3, 5, 6]), &[2, 4, 8]),
            ),
        ],
    },
    // Read-only.
    Case {
        start: Start::Called,
        first: Then::Voting(&[6], &[1]),
        steps: &[
            (Heard::Yes(6, &[]), Then::Confirming(&[], &[])),
            (
                Heard::Confirms(ConfirmedReply::Yes),
                Then::Decided(None, &[2]),
            ),
        ],
    },
    Case {
        start: Start::Nothing,
        first: Then::Decided(None, &[2]),
        steps: &[],
    },
    // Refusals and giveups.
    Case {
        start: Start::Whole,
        first: Then::Voting(&[3, 6], &[1, 1]),
        steps: &[(
            Heard::OtherServer(6),
            Then::Aborted(Cause::Changed {
                node: 6,
                difference: Difference::Inc { had: 1, now: 2 },
            }),
        )],
    },
    Case {
        start: Start::Whole,
        first: Then::Voting(&[3, 6], &[1, 1]),
        steps: &[
            (Heard::Yes(3, &[]), Then::Voting(&[6], &[1])),
            (Heard::GiveUp, Then::Aborted(Cause::Lost { node: 6 })),
        ],
    },
    Case {
        start: Start::Called,
        first: Then::Voting(&[6], &[1]),
        steps: &[
            (Heard::Yes(6, &[2]), Then::Preparing(&[4], &[1])),
            (
                Heard::Old(4),
                Then::Aborted(Cause::Old {
                    node: 4,
                    x: 2,
                    version: 8,
                }),
            ),
        ],
    },
    Case {
        start: Start::Called,
        first: Then::Voting(&[6], &[1]),
        steps: &[
            (Heard::Yes(6, &[]), Then::Confirming(&[], &[])),
            (
                Heard::Confirms(ConfirmedReply::Conflict {
                    holder: OTHER,
                    mode: Mode::Write,
                }),
                Then::Aborted(Cause::Conflict {
                    holder: OTHER,
                    mode: Mode::Write,
                    node: 1,
                }),
            ),
        ],
    },
    Case {
        start: Start::Called,
        first: Then::Voting(&[6], &[1]),
        steps: &[
            (Heard::Yes(6, &[]), Then::Confirming(&[], &[])),
            (
                Heard::Confirms(ConfirmedReply::Changed(CHANGED)),
                Then::Aborted(Cause::Changed {
                    node: 1,
                    difference: Difference::Inc { had: 1, now: 2 },
                }),
            ),
        ],
    },
    Case {
        start: Start::Called,
        first: Then::Voting(&[6], &[1]),
        steps: &[
            (Heard::Yes(6, &[2]), Then::Preparing(&[4], &[1])),
            (Heard::GiveUp, Then::Confirming(&[(2, 4)], &[])),
            (
                Heard::Confirms(ConfirmedReply::NoStores { x: 2 }),
                Then::Aborted(Cause::NoStores { x: 2 }),
            ),
        ],
    },
    Case {
        start: Start::Called,
        first: Then::Voting(&[6], &[1]),
        steps: &[
            (Heard::Yes(6, &[]), Then::Confirming(&[], &[])),
            (
                Heard::Confirms(ConfirmedReply::Listed { x: 7, node: 8 }),
                Then::Aborted(Cause::Listed { x: 7, node: 8 }),
            ),
        ],
    },
    Case {
        start: Start::Called,
        first: Then::Voting(&[6], &[1]),
        steps: &[
            (Heard::Yes(6, &[]), Then::Confirming(&[], &[])),
            (Heard::GiveUp, Then::Aborted(Cause::Lost { node: 1 })),
        ],
    },
];

fn votes(asked: Asked, reply: VotedReply) -> Message {
    Message::Voted(Voted { asked, reply })
}

fn prepares(asked: Asked, reply: PreparedReply) -> Message {
    Message::Prepared(Prepared { asked, reply })
}

fn confirmed(asked: Asked, reply: ConfirmedReply) -> Message {
    Message::Confirmed(Confirmed { asked, reply })
}

// A store's object 7 is in doubt there.
const BUSY: PreparedReply = PreparedReply::InDoubt {
    x: 7,
    holder: OTHER,
};

const OLD: PreparedReply = PreparedReply::Old { x: 2, held: 8 };

// The node that is heard; of a giveup none.
fn sender(heard: Heard) -> u8 {
    match heard {
        Heard::Yes(from, _) => from,
        Heard::OtherServer(from) => from,
        Heard::Ready(from) => from,
        Heard::Busy(from) => from,
        Heard::Old(from) => from,
        Heard::Confirms(_) => NAMING,
        Heard::GiveUp => 0,
    }
}

// The message that is heard, in answer to this request; of a giveup any.
fn message(alloc: Global, heard: Heard, req: u32) -> Result<Message, AllocError> {
    let asked = Asked { act: TOP, req };
    match heard {
        Heard::Yes(_, objects) => Ok(votes(asked, VotedReply::Yes(changed(alloc, objects)?))),
        Heard::OtherServer(_) => Ok(votes(asked, VotedReply::Changed(CHANGED))),
        Heard::Ready(_) => Ok(prepares(asked, PreparedReply::Yes)),
        Heard::Busy(_) => Ok(prepares(asked, BUSY)),
        Heard::Old(_) => Ok(prepares(asked, OLD)),
        Heard::Confirms(reply) => Ok(confirmed(asked, reply)),
        Heard::GiveUp => Ok(confirmed(asked, ConfirmedReply::Yes)),
    }
}

fn req_of(step: &Step) -> u32 {
    match step {
        Step::Voting(voting) => voting.plan().req,
        Step::Preparing(preparing) => preparing.plan().req,
        Step::Confirming(confirming) => confirming.plan().req,
        Step::Decide(telling) => telling.plan().req,
        Step::Aborted { plan, .. } => plan.req,
    }
}

// The step after a message is heard.
fn answered(step: Step, from: u8, m: &Message) -> Result<Step, AllocError> {
    match step {
        Step::Voting(voting) => vote_heard(voting, from, m),
        Step::Preparing(preparing) => store_heard(preparing, from, m),
        Step::Confirming(confirming) => naming_heard(confirming, from, m),
        Step::Decide(_) | Step::Aborted { .. } => Err(AllocError),
    }
}

fn vote_heard(voting: Voting, from: u8, m: &Message) -> Result<Step, AllocError> {
    if !voting.takes(from, m) || !voting.waits_for(from, m) {
        return Err(AllocError);
    }
    Ok(voting.answered(from, m)?)
}

fn store_heard(preparing: Preparing, from: u8, m: &Message) -> Result<Step, AllocError> {
    if !preparing.takes(from, m) || !preparing.waits_for(from, m) {
        return Err(AllocError);
    }
    Ok(preparing.answered(from, m)?)
}

fn naming_heard(confirming: Confirming, from: u8, m: &Message) -> Result<Step, AllocError> {
    if !confirming.takes(from, m) || !confirming.waits_for(from, m) {
        return Err(AllocError);
    }
    Ok(confirming.answered(from, m)?)
}

fn given_up(step: Step) -> Result<Step, AllocError> {
    match step {
        Step::Voting(voting) => Ok(voting.give_up()),
        Step::Preparing(preparing) => Ok(preparing.give_up()?),
        Step::Confirming(confirming) => Ok(confirming.give_up()),
        Step::Decide(_) | Step::Aborted { .. } => Err(AllocError),
    }
}

fn answer(place: &mut Option<Step>, from: u8, m: &Message) -> Result<(), AllocError> {
    let Some(step) = place.take() else {
        return Ok(());
    };
    let next = answered(step, from, m)?;
    place.insert(next);
    Ok(())
}

fn give_up(place: &mut Option<Step>) -> Result<(), AllocError> {
    let Some(step) = place.take() else {
        return Ok(());
    };
    let next = given_up(step)?;
    place.insert(next);
    Ok(())
}

fn awaited(step: &Option<Step>) -> u32 {
    match step {
        Some(step) => req_of(step),
        None => 0,
    }
}

// The commit goes on with what is heard.
fn go_on(alloc: Global, step: &mut Option<Step>, heard: Heard) -> Result<(), AllocError> {
    if let Heard::GiveUp = heard {
        return give_up(step);
    }
    let m = message(alloc, heard, awaited(step))?;
    answer(step, sender(heard), &m)
}

// Whether the requests go to these nodes, and carry so many objects or states.
fn are_for(requests: &Requests, nodes: &[u8], sizes: &[usize]) -> bool {
    let all = requests.as_slice();
    if all.len() != nodes.len() || nodes.len() != sizes.len() {
        return false;
    }
    for ((request, node), size) in all.iter().zip(nodes).zip(sizes) {
        let carried = match &request.1 {
            Message::Vote(m) => m.objects.as_slice().len(),
            Message::Prepare(m) => m.states.as_slice().len(),
            _ => 0,
        };
        if request.0 != *node || carried != *size {
            return false;
        }
    }
    true
}

// Whether the one request carries these exclusions and inclusions to naming.
fn confirms(requests: &Requests, excluded: &[(u16, u8)], included: &[(u16, u8)]) -> bool {
    match requests.as_slice() {
        [(node, Message::Confirm(m))] => {
            *node == NAMING
                && m.excluded.as_slice() == excluded
                && m.included.as_slice() == included
        }
        _ => false,
    }
}

// Whether the node is told this end.
fn is_told(requests: &Requests, node: u8, end: End, ack: bool) -> bool {
    for request in requests.as_slice() {
        if let (to, Message::Told(m)) = request {
            if *to == node && m.ack == ack && m.ends.as_slice() == [(TOP, end)].as_slice() {
                return true;
            }
        }
    }
    false
}

// Whether the nodes are told to abort.
fn are_others(told: &Requests, others: &[u8]) -> bool {
    others
        .iter()
        .all(|node| is_told(told, *node, End::Abort, false))
}

// Whether the record lists these nodes.
fn lists(record: &Option<Intent>, nodes: Option<&[u8]>) -> bool {
    match (record, nodes) {
        (Some(record), Some(nodes)) => record.nodes.as_slice() == nodes,
        (None, None) => true,
        _ => false,
    }
}

// Whether the nodes are told to commit.
fn are_told(told: &Requests, nodes: &[u8]) -> bool {
    nodes
        .iter()
        .all(|node| is_told(told, *node, End::Commit, true))
}

fn votes_so(
    alloc: Global,
    voting: &Voting,
    nodes: &[u8],
    sizes: &[usize],
) -> Result<bool, AllocError> {
    let all = voting.waiting(alloc)?;
    Ok(are_for(&all, nodes, sizes))
}

fn prepares_so(
    alloc: Global,
    preparing: &Preparing,
    nodes: &[u8],
    sizes: &[usize],
) -> Result<bool, AllocError> {
    let all = preparing.waiting(alloc)?;
    Ok(are_for(&all, nodes, sizes))
}

fn confirms_so(
    alloc: Global,
    confirming: &Confirming,
    excluded: &[(u16, u8)],
    included: &[(u16, u8)],
) -> Result<bool, AllocError> {
    let all = confirming.waiting(alloc)?;
    Ok(confirms(&all, excluded, included))
}

fn records(alloc: Global, telling: &Telling, nodes: Option<&[u8]>) -> Result<bool, AllocError> {
    let record = telling.intent(alloc)?;
    Ok(lists(&record, nodes))
}

fn tells(
    alloc: Global,
    telling: &Telling,
    nodes: &[u8],
    others: &[u8],
) -> Result<bool, AllocError> {
    let told = telling.first(alloc)?;
    Ok(are_others(&told, others) && are_told(&told, nodes))
}

// Whether the record lists these nodes, and they are told to commit and the others to abort.
fn decides(
    alloc: Global,
    telling: &Telling,
    nodes: Option<&[u8]>,
    others: &[u8],
) -> Result<bool, AllocError> {
    Ok(records(alloc, telling, nodes)? && tells(alloc, telling, nodes.unwrap_or(&[]), others)?)
}

fn aborts(cause: &Cause, plan: &Plan, why: Cause) -> bool {
    *cause == why && plan.path.last() == TOP
}

// Whether the step is this one.
fn is(alloc: Global, step: &Step, then: Then) -> Result<bool, AllocError> {
    match (step, then) {
        (Step::Voting(voting), Then::Voting(nodes, sizes)) => votes_so(alloc, voting, nodes, sizes),
        (Step::Preparing(preparing), Then::Preparing(nodes, sizes)) => {
            prepares_so(alloc, preparing, nodes, sizes)
        }
        (Step::Confirming(confirming), Then::Confirming(excluded, included)) => {
            confirms_so(alloc, confirming, excluded, included)
        }
        (Step::Decide(telling), Then::Decided(nodes, others)) => {
            decides(alloc, telling, nodes, others)
        }
        (Step::Aborted { cause, plan }, Then::Aborted(why)) => Ok(aborts(cause, plan, why)),
        _ => Ok(false),
    }
}

fn is_now(alloc: Global, step: &Option<Step>, then: Then) -> Result<bool, AllocError> {
    match step {
        Some(step) => is(alloc, step, then),
        None => Ok(false),
    }
}

// Whether the last of the nodes to acknowledge is the last, and none counts twice.
fn end_with_the_last(telling: &mut Telling, nodes: &[u8]) -> bool {
    let mut awaited = nodes.len();
    for node in nodes {
        awaited = awaited.saturating_sub(1);
        if telling.acked(*node) != (awaited == 0) || telling.acked(*node) {
            return false;
        }
    }
    telling.left().is_empty()
}

fn decided_nodes(then: Then) -> &'static [u8] {
    match then {
        Then::Decided(Some(nodes), _) => nodes,
        _ => &[],
    }
}

// Whether the nodes of a decided commit acknowledge it, the last one last.
fn ends(step: &mut Option<Step>, then: Then) -> bool {
    match step {
        Some(Step::Decide(telling)) => end_with_the_last(telling, decided_nodes(then)),
        _ => true,
    }
}

// Hears this, and is then in that step.
fn hears(
    alloc: Global,
    step: &mut Option<Step>,
    heard: Heard,
    then: Then,
) -> Result<bool, AllocError> {
    go_on(alloc, step, heard)?;
    is_now(alloc, step, then)
}

fn hears_all(
    alloc: Global,
    step: &mut Option<Step>,
    steps: &[(Heard, Then)],
) -> Result<bool, AllocError> {
    for (heard, then) in steps {
        if !hears(alloc, step, *heard, *then)? {
            return Ok(false);
        }
    }
    Ok(true)
}

// The step in which a commit is last.
fn last(case: &Case) -> Then {
    match case.steps.last() {
        Some(step) => step.1,
        None => case.first,
    }
}

// Whether a commit that begins goes on as the case says, to its end.
fn goes_on(alloc: Global, step: &mut Option<Step>, case: &Case) -> Result<bool, AllocError> {
    if !is_now(alloc, step, case.first)? || !hears_all(alloc, step, case.steps)? {
        return Ok(false);
    }
    Ok(ends(step, last(case)))
}

// The first step of a commit.
fn first(alloc: Global, of: Start) -> Result<Step, AllocError> {
    let plan = plan(alloc, of)?;
    Ok(start(alloc, plan)?)
}

// Whether a commit goes as the case says.
fn goes(alloc: Global, case: &Case) -> Result<bool, AllocError> {
    let mut step = Some(first(alloc, case.start)?);
    goes_on(alloc, &mut step, case)
}

#[test]
fn each_answer_and_refusal(rt: HostRuntime) -> Result<(), Fail> {
    for (place, case) in CASES.iter().enumerate() {
        assert!(rt; goes(rt.alloc(), case)?, "case {place}");
    }
    Ok(())
}
