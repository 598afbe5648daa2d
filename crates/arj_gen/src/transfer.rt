// The events of a transfer.
ghost use Rattle.std.specs.Prelude.{◌≡◌, ◌≤◌, ◌<◌, [], ◌∷◌, ◌++◌, ◌==◌, ◌||◌, OnOk, IfOk};
ghost use Rattle.arj_gen.specs.Bank.{crash_lines, crashes, giving, loses, tag, taking, transfer_lines};
ghost use Rattle.arj_gen.specs.Grows.{SaysMore};
ghost use Rattle.arj_journal.specs.ScriptForm.{EventInForm};
ghost use Rattle.arj_journal.specs.ScriptText.{event_text};
ghost use Rattle.arj_text.specs.Label.{LabelInForm, name};

use crate::draws::Transfer;
use arj_base::Bytes;
use arj_class::Op;
use arj_journal::{Event, Events, FrameNo, Label};
use std::alloc::{AllocError, Global};

/// The label of a transfer.
fn label_of(alloc: Global, i: u32) -> Result<Label, AllocError>
    requires { i ≤ 200 }
    ensures { IfOk result (λ label. name label ≡ tag i) }
{
    let digits = i.to_string(alloc)?;
    let mut bytes = Bytes::new(alloc);
    bytes.push(b'T')?;
    bytes.extend(digits.as_bytes())?;
    Ok(Label::new(bytes.as_slice()))
}

/// Puts an event behind the others.
pub fn put(events: &mut Events, event: Event) -> Result<(), AllocError>
    requires { EventInForm event }
    ensures { OnOk result (SaysMore events.old events.new (event_text event ∷ [])) }
{
    events.push(event)
}

/// Puts the events of the transfer of this number.
#[tactic(auto, using(crate::proofs::Tags::label_fits))]
pub fn put_transfer(
    alloc: Global,
    events: &mut Events,
    i: u32,
    t: Transfer,
) -> Result<(), AllocError>
    requires number { i ≤ 200 }
    requires source { t.source < 65536 }
    ensures { OnOk result (SaysMore events.old events.new (transfer_lines i t)) }
{
    let label = label_of(alloc, i)?;
    put_taking(events, i, label, t)?;
    put_loses(events, i)?;
    put_giving(events, i, label, t)?;
    put_crashes(events, i)
}

// The action begins, and takes from its source.
fn put_taking(events: &mut Events, i: u32, label: Label, t: Transfer) -> Result<(), AllocError>
    requires name { name label ≡ tag i }
    requires form { LabelInForm label }
    ensures { OnOk result (SaysMore events.old events.new (taking i t)) }
{
    put(
        events,
        Event::Begin {
            label,
            node: t.node,
        },
    )?;
    put(
        events,
        Event::Call {
            label,
            x: t.source,
            op: Op::Withdraw(t.amount),
        },
    )
}

// The newest frame is lost.
fn put_loses(events: &mut Events, i: u32) -> Result<(), AllocError>
    ensures { OnOk result (SaysMore events.old events.new (loses i)) }
{
    if i % 10 == 0 {
        return put(
            events,
            Event::Lose {
                frame: FrameNo::Last,
            },
        );
    }
    Ok(())
}

// The node asks again, and the action gives to its target and commits.
fn put_giving(events: &mut Events, i: u32, label: Label, t: Transfer) -> Result<(), AllocError>
    requires name { name label ≡ tag i }
    requires form { LabelInForm label }
    ensures { OnOk result (SaysMore events.old events.new (giving i t)) }
{
    put(events, Event::Tick { node: t.node })?;
    put(events, Event::Settle)?;
    put(
        events,
        Event::Call {
            label,
            x: t.target,
            op: Op::Deposit(t.amount),
        },
    )?;
    put(events, Event::Settle)?;
    put(events, Event::Commit { label })?;
    put(events, Event::Settle)
}

// Behind some transfers node 3 crashes and comes back.
fn put_crashes(events: &mut Events, i: u32) -> Result<(), AllocError>
    ensures { OnOk result (SaysMore events.old events.new (crashes i)) }
{
    if is_crash(i) {
        return put_crash(events);
    }
    Ok(())
}

// Whether it does behind the transfer of this number.
fn is_crash(i: u32) -> bool
    ensures { result ≡ ((i == 67) || (i == 134)) }
{
    i == 67 || i == 134
}

// Node 3 crashes and comes back.
fn put_crash(events: &mut Events) -> Result<(), AllocError>
    ensures { OnOk result (SaysMore events.old events.new crash_lines) }
{
    put(events, Event::Crash { node: 3 })?;
    put(events, Event::Restart { node: 3 })?;
    put(events, Event::Settle)
}
