// What became of the programs.
ghost use Rattle.std.specs.Prelude.{◌≡◌, ◌++◌, ◌∷◌, [], map, OnOk, IfOk};
ghost use Rattle.std.specs.List.{flat_map};
ghost use Rattle.arj_progrun.specs.Kept.{clients_of, standing_of};
ghost use Rattle.arj_progrun.specs.Levels.{client_of, said_of};
ghost use Rattle.arj_progrun.specs.Schedule.{commit_lines, other_line, prints, report_of};
ghost use Rattle.arj_progrun.specs.declared.report.ReportLine.TheVariants as told;
ghost use Rattle.arj_text.specs.Label.{name};

use crate::client::Client;
use crate::level::Heard;
use crate::phase::Phase;
use crate::schedule::Schedule;
use arj_base::{Bytes, Seq};
use arj_journal::Label;
use arj_prog::Statement;
use std::alloc::{AllocError, Global};

/// A line of the output.
#[derive(Drop)]
pub enum ReportLine {
    /// The program committed. Its prints follow.
    Commit(Label),
    /// What a committed program's call answered, as its text.
    Print(Bytes),
    /// The program reached `fail`.
    Failed(Label),
    /// The program has no try left, or can't go on.
    GaveUp(Label),
    /// The turns ended before the program did.
    Unfinished(Label),
}

/// The lines of the output, in order.
pub type Report = Seq<ReportLine>;

// Puts the answer of a call, if it is printed.
#[tactic(auto, using(crate::proofs::Stacks::and_nothing))]
fn put_print(report: &mut Report, heard: &Heard) -> Result<(), AllocError>
    ensures { OnOk result (report.new ≡ report.old ++ map told.Print (prints (said_of heard.now ∷ []))) }
{
    match heard.statement {
        Statement::Print { .. } => report.push(ReportLine::Print(heard.answer.copy()?)),
        _ => Ok(()),
    }
}

// Puts the prints of these calls.
fn put_prints(report: &mut Report, said: &[Heard]) -> Result<(), AllocError>
    ensures { OnOk result (report.new ≡ report.old ++ map told.Print (prints (map said_of said.now))) }
{
    for heard in said {
        put_print(report, heard)?;
    }
    Ok(())
}

// Puts the lines of a program whose top of that label committed: its name, and its prints.
#[tactic(auto, using(std::proofs::lemmas::List::append_assoc, crate::proofs::Stacks::and_nothing))]
fn put_committed(report: &mut Report, client: &Client, label: Label) -> Result<(), AllocError>
    ensures { OnOk result (report.new ≡ report.old ++ commit_lines (name label) (client_of client.now)) }
{
    if client.phase != Phase::Committed || client.top.label.as_bytes() != label.as_bytes() {
        return Ok(());
    }
    report.push(ReportLine::Commit(client.program.name))?;
    put_prints(report, client.top.said.as_slice())
}

// Puts the lines of all programs whose tops of that label committed.
fn put_called(report: &mut Report, clients: &[Client], label: Label) -> Result<(), AllocError>
    ensures { OnOk result (report.new ≡ report.old ++ flat_map (commit_lines (name label)) (clients_of clients.now)) }
{
    for client in clients {
        put_committed(report, client, label)?;
    }
    Ok(())
}

// Puts the lines of the programs whose tops of these labels committed, label by label.
fn put_all_called(
    report: &mut Report,
    clients: &[Client],
    called: &[Label],
) -> Result<(), AllocError>
    ensures { OnOk result (report.new ≡ report.old ++ flat_map (λ label. flat_map (commit_lines label) (clients_of clients.now)) (map name called.now)) }
{
    for label in called {
        put_called(report, clients, *label)?;
    }
    Ok(())
}

// Puts the line of a program that didn't commit, if it didn't.
#[tactic(auto, using(crate::proofs::Stacks::and_nothing))]
fn put_other(report: &mut Report, client: &Client) -> Result<(), AllocError>
    ensures { OnOk result (report.new ≡ report.old ++ (let c = client_of client.now in other_line c.phase c)) }
{
    let name = client.program.name;
    match client.phase {
        Phase::Committed => Ok(()),
        Phase::Failing | Phase::Failed => report.push(ReportLine::Failed(name)),
        Phase::GaveUp => report.push(ReportLine::GaveUp(name)),
        _ => report.push(ReportLine::Unfinished(name)),
    }
}

// Puts the lines of the programs that didn't commit.
fn put_others(report: &mut Report, clients: &[Client]) -> Result<(), AllocError>
    ensures { OnOk result (report.new ≡ report.old ++ flat_map (λ c. other_line c.phase c) (clients_of clients.now)) }
{
    for client in clients {
        put_other(report, client)?;
    }
    Ok(())
}

/// The output: the committed programs with their prints, in the order in which their commits were called, and then the
/// others.
pub fn report(alloc: Global, schedule: &Schedule) -> Result<Report, AllocError>
    ensures { IfOk result (λ told. told ≡ report_of (standing_of schedule.now)) }
{
    let mut report = Report::new(alloc);
    put_all_called(
        &mut report,
        schedule.clients.as_slice(),
        schedule.called.as_slice(),
    )?;
    put_others(&mut report, schedule.clients.as_slice())?;
    Ok(report)
}
