// The script of a number.
ghost use Rattle.std.specs.Prelude.{◌≡◌, ◌≤◌, [], ◌∷◌, ◌++◌, ◌-◌, length, map, codes, OnOk, IfOk};
ghost use Rattle.std.specs.List.{AllByRecursion};
ghost use Rattle.arj_gen.specs.Bank.{accounts, account_line, bank_header, event_lines};
ghost use Rattle.arj_journal.specs.ScriptForm.{EventInForm, HeaderInForm};
ghost use Rattle.arj_journal.specs.ScriptText.{event_text};

use crate::draws::Draws;
use crate::transfer::{put, put_transfer};
use arj_base::{Format, NodeList};
use arj_class::{Account, Value};
use arj_journal::{Event, Events, Header, ObjectLine, ObjectLines};
use std::alloc::{AllocError, Global};

/// How many nodes the bank has.
pub const NODES: u8 = 5;

/// How many accounts it has.
pub const ACCOUNTS: u16 = 20;

/// How many events its script has.
pub const EVENTS: usize = 1627;

/// A header, and the events behind its `run`.
#[derive(Drop)]
pub struct Script {
    pub header: Header,
    pub events: Events,
}

/// The script of the bank of this number. It is made in one pass, and each number makes another.
pub fn generate(alloc: Global, n: u32) -> Result<Script, AllocError>
    ensures header { IfOk result (λ script. (script.header ≡ bank_header) × HeaderInForm script.header) }
    ensures events { IfOk result (λ script. (map event_text script.events ≡ event_lines n) × AllByRecursion EventInForm script.events) }
    ensures count { IfOk result (λ script. length script.events ≡ EVENTS) }
{
    let header = header(alloc)?;
    let events = events(alloc, n)?;
    Ok(Script { header, events })
}

// The nodes and the accounts.
fn header(alloc: Global) -> Result<Header, AllocError>
    ensures header { IfOk result (λ header. header ≡ bank_header) }
    ensures form { IfOk result (λ header. HeaderInForm header) }
{
    let objects = accounts_of(alloc)?;
    Ok(Header {
        nodes: NODES,
        objects,
        format: Format::Two,
    })
}

// The accounts, by their numbers.
#[tactic(auto, using(crate::proofs::Counts::accounts_more))]
fn accounts_of(alloc: Global) -> Result<ObjectLines, AllocError>
    ensures { IfOk result (λ objects. objects ≡ accounts ACCOUNTS) }
{
    let mut objects = ObjectLines::new(alloc);
    for k in 0..ACCOUNTS {
        objects.push(account(alloc, k + 1)?)?;
    }
    Ok(objects)
}

// An account with its servers and stores.
fn account(alloc: Global, x: u16) -> Result<ObjectLine, AllocError>
    requires { x ≤ 20 }
    ensures { IfOk result (λ line. line ≡ account_line x) }
{
    let a = 1 + (x % 5) as u8;
    let b = 1 + ((x + 1) % 5) as u8;
    let c = 1 + ((x + 2) % 5) as u8;
    let mut servers = NodeList::new(alloc);
    servers.push(a)?;
    servers.push(b)?;
    let mut stores = NodeList::new(alloc);
    stores.push(a)?;
    stores.push(b)?;
    stores.push(c)?;
    Ok(ObjectLine {
        x,
        value: Value::Account(Account::new(1000)),
        servers,
        stores,
    })
}

// The transfers, and the end of all.
fn events(alloc: Global, n: u32) -> Result<Events, AllocError>
    ensures texts { IfOk result (λ events. map event_text events ≡ event_lines n) }
    ensures form { IfOk result (λ events. AllByRecursion EventInForm events) }
    ensures count { IfOk result (λ events. length events ≡ EVENTS) }
{
    let mut events = Events::new(alloc);
    let mut draws = Draws {
        state: u64::from(n),
    };
    for k in 0..200u32 {
        let transfer = draws.transfer();
        put_transfer(alloc, &mut events, k + 1, transfer)?;
    }
    put(&mut events, Event::Quiesce)?;
    Ok(events)
}
