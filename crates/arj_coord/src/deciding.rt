// What a decision does, in its order.
ghost use Rattle.std.specs.Prelude.{◌≡◌, ◌++◌, map, IfSome, OnOk};
ghost use Rattle.arj_commit.specs.Tolds.{sent_to, work_of};
ghost use Rattle.arj_coord.specs.Shown.{said};
ghost use Rattle.arj_intent.specs.Records.{IsInForm};

use crate::Effects;
use crate::tolds::send_all;
use arj_commit::Requests;
use arj_intent::Intent;
use arj_journal::Body;
use std::alloc::AllocError;

// The record is put, if there is one.
fn put_record(intent: Option<Intent>, outs: &mut Effects) -> Result<(), AllocError>
    requires { IfSome intent IsInForm }
    ensures { OnOk result (outs.new ≡ outs.old ++ work_of intent) }
{
    match intent {
        Some(intent) => outs.put_record(intent),
        None => Ok(()),
    }
}

/// A line is said, if there is one.
pub fn say(line: Option<Body>, outs: &mut Effects) -> Result<(), AllocError>
    ensures { OnOk result (outs.new ≡ outs.old ++ said line) }
{
    match line {
        Some(line) => outs.say(line),
        None => Ok(()),
    }
}

/// The record is put, which is the decision; then comes the line; then all are told.
#[tactic(auto, using(std::proofs::lemmas::List::append_assoc))]
pub fn put_decision(
    intent: Option<Intent>,
    line: Option<Body>,
    told: Requests,
    outs: &mut Effects,
) -> Result<(), AllocError>
    requires { IfSome intent IsInForm }
    ensures { OnOk result (outs.new ≡ outs.old ++ (work_of intent ++ said line ++ map sent_to told)) }
{
    put_record(intent, outs)?;
    say(line, outs)?;
    send_all(told, outs)
}
