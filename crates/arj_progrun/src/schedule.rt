// The schedule of the programs.
ghost use Rattle.std.specs.Prelude.{◌≡◌, ◌≤◌, ◌<◌, ◌+◌, ◌++◌, ℕ, OnOk, IfOk, None, Some, map, length, vec_len, slice_get, if◌then◌else◌, ◌%◌, ◌==◌};
ghost use Rattle.arj_progrun.specs.Kept.{AreWithin, clients_of, standing_of, turning};
ghost use Rattle.arj_progrun.specs.Schedule.{all_hear, is_by, are_over, called_by, first_standing, line_heard, lines_heard, turn_at, turn_by};
ghost use Rattle.std.specs.List.{AllByRecursion, list_all};
ghost use Rattle.std.specs.Option.{option_map};
ghost use Rattle.arj_progrun.specs.Client.{LosesLast, Settles, is_over};
ghost use Rattle.arj_progrun.specs.Events.{ask_of};
ghost use Rattle.arj_progrun.specs.Kept.{Asks, Hears, IsWithin, given_ask, given_by};
ghost use Rattle.arj_progrun.specs.Schedule.{asks_by_it};
ghost use Rattle.arj_text.specs.Label.{name};
ghost use Rattle.arj_prog.specs.declared.limits.TheConstants.{TURNS};

use crate::client::Client;
use crate::draws::next_of;
use arj_journal::{Body, Event, FrameNo, Label, Line};
use arj_prog::Plan;
use std::alloc::{AllocError, Global};

/// How many nodes there are, the programs, the labels of the tops whose commits were called, in that order, and the
/// state of the draws.
#[derive(Drop)]
pub struct Schedule<'p> {
    pub nodes: u8,
    pub clients: Vec<Client<'p>>,
    pub called: Vec<Label>,
    pub state: u64,
}

/// What a turn gives: nothing, an event of the schedule's own, or one by which the program at this place asks.
#[derive(Drop)]
pub enum Given {
    Nothing,
    Own(Event),
    By(usize, Event),
}

impl<'p> Schedule<'p> {
    /// Before the first turn.
    pub fn new(alloc: Global, plan: &'p Plan) -> Result<Schedule<'p>, AllocError>
        requires few { length plan.now.programs < 256 }
        ensures made { IfOk result (λ made. standing_of made ≡ first_standing plan.now) }
        ensures nodes { IfOk result (λ made. made.nodes ≡ (let h = plan.now.header in h.nodes)) }
        ensures within { IfOk result (λ made. AreWithin 0 made) }
        ensures long { IfOk result (λ made. vec_len made.clients ≡ length plan.now.programs) }
    {
        let mut clients = Vec::new(alloc);
        let mut number = 0u8;
        let programs = plan.programs.as_slice();
        for program in programs {
            number += 1;
            clients.push(Client::new(alloc, number, program)?)?;
        }
        Ok(Schedule {
            nodes: plan.header.nodes,
            clients,
            called: Vec::new(alloc),
            state: u64::from(plan.seed),
        })
    }

    /// Whether every program is finished.
    pub fn is_over(&self) -> bool
        ensures { result ≡ are_over (standing_of self.now) }
    {
        are_over(self.clients.as_slice())
    }

    /// What the turn of this number gives. It makes one draw.
    pub fn turn(&mut self, turn: u32) -> Result<Given, AllocError>
        requires nodes { 0 < self.old.nodes }
        requires programs { 0 < vec_len self.old.clients }
        requires within { AreWithin turn self.old × (turn < TURNS) }
        ensures gives { IfOk result (λ given. turning given self.new ≡ turn_at self.old.nodes turn (standing_of self.old)) }
        ensures within { OnOk result (AreWithin (turn + 1) self.new) }
        ensures nodes { OnOk result (self.new.nodes ≡ self.old.nodes) }
        ensures long { OnOk result (vec_len self.new.clients ≡ vec_len self.old.clients) }
    {
        self.state = next_of(self.state);
        let draw = self.state / 8589934592;
        let programs = self.clients.len() as u64;
        match turn % 16 {
            3 | 11 => Ok(Given::Own(Event::Settle)),
            7 => Ok(Given::Own(Event::Tick {
                node: 1 + (draw % u64::from(self.nodes)) as u32,
            })),
            15 => Ok(Given::Own(lose_or_settle(draw))),
            _ => self.turn_of((draw % programs) as usize, turn),
        }
    }

    // What the program at this place gives in its turn.
    fn turn_of(&mut self, at: usize, turn: u32) -> Result<Given, AllocError>
        requires place { at < vec_len self.old.clients }
        requires within { AreWithin turn self.old × (turn < TURNS) }
        ensures gives { IfOk result (λ given. turning given self.new ≡ turn_by at (slice_get (clients_of self.old.clients.items) at) (standing_of self.old)) }
        ensures within { OnOk result (AreWithin (turn + 1) self.new) }
        ensures nodes { OnOk result (self.new.nodes ≡ self.old.nodes) }
        ensures long { OnOk result (vec_len self.new.clients ≡ vec_len self.old.clients) }
    {
        let event = ask_at(&mut self.clients, at)?;
        Ok(given_by(at, event))
    }

    /// Takes the lines of an event, by which the program at this place asked, if one did.
    pub fn hear(&mut self, lines: &[Line], by: Option<usize>) -> Result<(), AllocError>
        ensures heard { OnOk result (standing_of self.new ≡ lines_heard by lines.now (standing_of self.old)) }
        ensures within { OnOk result ((turn : ℕ) → AreWithin turn self.old → AreWithin turn self.new) }
        ensures nodes { OnOk result (self.new.nodes ≡ self.old.nodes) }
        ensures long { OnOk result (vec_len self.new.clients ≡ vec_len self.old.clients) }
    {
        for line in lines {
            self.hear_line(&line.body, by)?;
        }
        Ok(())
    }

    // Takes a line.
    fn hear_line(&mut self, body: &Body, by: Option<usize>) -> Result<(), AllocError>
        ensures heard { OnOk result (standing_of self.new ≡ line_heard by body.now (standing_of self.old)) }
        ensures within { OnOk result ((turn : ℕ) → AreWithin turn self.old → AreWithin turn self.new) }
        ensures nodes { OnOk result (self.new.nodes ≡ self.old.nodes) }
        ensures long { OnOk result (vec_len self.new.clients ≡ vec_len self.old.clients) }
    {
        put_called(&mut self.called, body)?;
        hear_all(&mut self.clients, body, by)
    }
}

// Whether all of these programs are finished.
fn are_over(clients: &[Client]) -> bool
    ensures { result ≡ list_all (λ c. is_over c.phase) (clients_of clients.now) }
{
    for client in clients {
        if !client.phase.is_over() {
            return false;
        }
    }
    true
}

// Puts the label of the top whose commit is called in a line.
fn put_called(called: &mut Vec<Label>, body: &Body) -> Result<(), AllocError>
    ensures { OnOk result (map name called.new.items ≡ map name called.old.items ++ called_by body.now) }
{
    if let Body::Committing { label } = body {
        called.push(*label)?;
    }
    Ok(())
}

// Lets the program at this place take a line.
fn hear_at(clients: &mut Vec<Client>, at: usize, body: &Body, own: bool) -> Result<(), AllocError>
    requires place { at < vec_len clients.old }
    ensures long { vec_len clients.new ≡ vec_len clients.old }
    ensures heard { OnOk result (Hears at body.now own clients.old.items clients.new.items) }
{
    clients[at].hear(body, own)?;
    Ok(())
}

// Lets programs take a line, one after another.
fn hear_all(clients: &mut Vec<Client>, body: &Body, by: Option<usize>) -> Result<(), AllocError>
    ensures heard { OnOk result (clients_of clients.new.items ≡ all_hear by 0 body.now (clients_of clients.old.items)) }
    ensures within { OnOk result ((turn : ℕ) → AllByRecursion (IsWithin turn) clients.old.items → AllByRecursion (IsWithin turn) clients.new.items) }
    ensures long { OnOk result (vec_len clients.new ≡ vec_len clients.old) }
{
    for at in 0..clients.len() {
        hear_at(clients, at, body, is_by(by, at))?;
    }
    Ok(())
}

// What the program at this place asks in its turn.
fn ask_at(clients: &mut Vec<Client>, at: usize) -> Result<Option<Event>, AllocError>
    requires place { at < vec_len clients.old }
    requires few { (turn : ℕ) × AllByRecursion (IsWithin turn) clients.old.items × (turn < TURNS) }
    ensures asks { IfOk result (λ event. Asks at event clients.old.items clients.new.items) }
    ensures long { vec_len clients.new ≡ vec_len clients.old }
{
    let event = clients[at].turn()?;
    Ok(event)
}

// Whether the program at this place asked.
fn is_by(by: Option<usize>, at: usize) -> bool
    ensures { result ≡ is_by by at }
{
    match by {
        Some(n) => n == at,
        None => false,
    }
}

// What the program at this place gives.
fn given_by(at: usize, event: Option<Event>) -> Given
    ensures ask { given_ask result ≡ option_map ask_of event }
    ensures by { given_by result ≡ asks_by_it at (option_map ask_of event) }
{
    match event {
        None => Given::Nothing,
        Some(Event::GiveUp { label }) => Given::Own(Event::GiveUp { label }),
        Some(event) => Given::By(at, event),
    }
}

// Each fourth of these turns loses the newest frame; the others settle.
fn lose_or_settle(draw: u64) -> Event
    ensures { ask_of result ≡ (if draw % 4 == 0 then LosesLast else Settles) }
{
    if draw % 4 == 0 {
        return Event::Lose {
            frame: FrameNo::Last,
        };
    }
    Event::Settle
}
