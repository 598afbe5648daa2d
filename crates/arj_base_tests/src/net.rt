// Frames by number, and what is the lowest after each of a list of changes.
ghost use Rattle.std.specs.Prelude.{◌≤◌, length};

use arj_base::Bytes;
use arj_net::{Net, NetFault};
use std::alloc::{AllocError, Global};
use std::test::Fail;

fn bytes(alloc: Global, text: &[u8]) -> Result<Bytes, AllocError> {
    let mut bytes = Bytes::new(alloc);
    bytes.extend(text)?;
    Ok(bytes)
}

// Whether a frame waits; and there are no more frames than a net takes.
fn has_open(net: &Net) -> bool
    ensures { length net.now ≤ 100000 }
{
    net.lowest().is_some()
}

#[derive(Clone, Copy)]
enum Change {
    Send(u8, u8),
    Deliver(u32),
    Lose(u32),
}

// Whether this frame is one that was sent so.
fn has_frame(net: &Net, k: u32, from: u8, to: u8) -> bool {
    match net.get(k) {
        Some(frame) => {
            frame.from == from
                && frame.to == to
                && frame.bytes.as_slice() == [from, to, 7].as_slice()
        }
        None => false,
    }
}

// Makes a change. Whether a frame that it sent is found under the number that it got.
fn make(alloc: Global, net: &mut Net, change: Change) -> Result<bool, Fail> {
    match change {
        Change::Send(from, to) => {
            let k = net.send(from, to, bytes(alloc, &[from, to, 7])?)?;
            return Ok(has_frame(net, k, from, to));
        }
        Change::Deliver(k) => net.delivered(k),
        Change::Lose(k) => net.lose(k),
    }
    Ok(true)
}

// Changes, and the lowest frame behind each.
const CHANGES: &[(Change, Option<u32>)] = &[
    (Change::Send(1, 2), Some(1)),
    (Change::Send(2, 1), Some(1)),
    (Change::Send(1, 3), Some(1)),
    (Change::Lose(2), Some(1)),
    (Change::Deliver(0), Some(1)),
    (Change::Lose(4), Some(1)),
    (Change::Deliver(1), Some(3)),
    (Change::Deliver(2), Some(3)),
    (Change::Deliver(1), Some(3)),
    (Change::Deliver(3), None),
    (Change::Send(3, 1), Some(4)),
    (Change::Lose(4), None),
];

// The frames that were sent, by their numbers.
const SENT: &[(u32, u8, u8)] = &[(1, 1, 2), (2, 2, 1), (3, 1, 3), (4, 3, 1)];

// Whether the net is made so by the changes.
fn changes_so(alloc: Global, net: &mut Net) -> Result<bool, Fail> {
    for (change, lowest) in CHANGES {
        if !make(alloc, net, *change)? || net.lowest() != *lowest {
            return Ok(false);
        }
    }
    Ok(true)
}

// Whether it has the frames that were sent, and no others.
fn has_sent(net: &Net) -> bool {
    for (k, from, to) in SENT {
        if !has_frame(net, *k, *from, *to) {
            return false;
        }
    }
    net.get(0).is_none() && net.get(5).is_none()
}

fn a_net_changes_so(alloc: Global) -> Result<bool, Fail> {
    let mut net = Net::new(alloc);
    if has_open(&net) || !changes_so(alloc, &mut net)? {
        return Ok(false);
    }
    Ok(has_sent(&net))
}

#[test]
fn frames_are_told_apart_by_number(rt: HostRuntime) -> Result<(), Fail> {
    assert!(rt; a_net_changes_so(rt.alloc())?);
    Ok(())
}

// Whether each frame that is sent gets its number, and one past the most is not taken.
fn fills(alloc: Global, net: &mut Net) -> Result<bool, Fail> {
    for k in 1..100_001u32 {
        if net.send(1, 2, Bytes::new(alloc))? != k {
            return Ok(false);
        }
    }
    Ok(matches!(net.send(1, 2, Bytes::new(alloc)), Err(NetFault::Full)))
}

// Whether the first is the lowest until it is delivered, last of all.
fn empties(net: &mut Net) -> bool {
    for k in (1..100_001u32).rev() {
        if net.lowest() != Some(1) {
            return false;
        }
        net.delivered(k);
    }
    net.lowest().is_none()
}

fn fills_and_empties(alloc: Global) -> Result<bool, Fail> {
    let mut net = Net::new(alloc);
    Ok(fills(alloc, &mut net)? && empties(&mut net))
}

#[test]
fn a_net_takes_100_000_frames(rt: HostRuntime) -> Result<(), Fail> {
    assert!(rt; fills_and_empties(rt.alloc())?);
    Ok(())
}
