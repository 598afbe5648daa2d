// What comes to the naming service, and what it answers.
use crate::messages::{bind, confirm, record, told};
use crate::site::{Fault, Site, Went};
use arj_base::{End, Mode};
use arj_msg::{Bound, BoundReply, Confirmed, ConfirmedReply, Hello, Recorded, RecordedReply, What};
use std::alloc::Global;

/// What comes, about object 1: a Bind by a top that avoids the binding of this count, an include, a Record of the binding of
/// this count with an incarnation of naming; a Confirm of a grant of this incarnation, which excludes these stores, or
/// includes store 4; the end of a top; and a Hello of a node in this incarnation. Entry reads the stores.
#[derive(Clone, Copy)]
pub enum Ask {
    Bind(u64, u32),
    Include(u64),
    Record(u64, u32, u32),
    Exclude(u64, u32, &'static [u8]),
    Add(u64, u32),
    Told(u64, End),
    Hello(u8, u32),
    Entry,
}

/// The answer: a binding by its count, with its server, which is live or is to be made; the write lock; the lock that stands
/// against it; recorded; confirmed; another incarnation than the one that was had; no store left; a store that is listed;
/// the stores, each a digit; void, or no answer.
#[derive(Clone, Copy, Debug, PartialEq, Eq)]
pub enum Seen {
    Live(u32, u8),
    Make(u32, u8),
    Write,
    Held(u64, Mode),
    Recorded,
    Yes,
    Changed(u32, u32),
    NoStores,
    Listed(u8),
    Stores(u64),
    InDoubt,
    Nothing,
}

fn changed(what: What) -> Seen {
    match what {
        What::Inc { had, now } => Seen::Changed(had, now),
        What::Bind { .. } => Seen::Nothing,
    }
}

fn bound(reply: Option<Bound>) -> Seen {
    let Some(bound) = reply else {
        return Seen::Nothing;
    };
    match &bound.reply {
        BoundReply::Live {
            binding,
            server,
            ..
        } => Seen::Live(binding.count, *server),
        BoundReply::Make {
            binding,
            server,
            ..
        } => Seen::Make(binding.count, *server),
        BoundReply::Write { .. } => Seen::Write,
        BoundReply::Conflict { holder, mode } => Seen::Held(holder.num, *mode),
    }
}

fn recorded(reply: Option<Recorded>) -> Seen {
    let Some(recorded) = reply else {
        return Seen::Nothing;
    };
    match recorded.reply {
        RecordedReply::Yes => Seen::Recorded,
        RecordedReply::Changed(what) => changed(what),
    }
}

fn confirmed(reply: Option<Confirmed>) -> Seen {
    let Some(confirmed) = reply else {
        return Seen::Nothing;
    };
    match confirmed.reply {
        ConfirmedReply::Yes => Seen::Yes,
        ConfirmedReply::Conflict { holder, mode } => Seen::Held(holder.num, mode),
        ConfirmedReply::Changed(what) => changed(what),
        ConfirmedReply::NoStores { .. } => Seen::NoStores,
        ConfirmedReply::Listed { node, .. } => Seen::Listed(node),
    }
}

fn confirmed_so(
    alloc: Global,
    site: Site,
    num: u64,
    inc: u32,
    excluded: &[u8],
    includes: bool,
) -> Result<Went<Seen>, Fault> {
    let m = confirm(alloc, num, inc, excluded, includes)?;
    match site.confirm(&m)? {
        Went::Answered(site, reply) => Ok(Went::Answered(site, confirmed(reply))),
        Went::Stopped(left) => Ok(Went::Stopped(left)),
    }
}

fn told_so(alloc: Global, site: Site, num: u64, end: End) -> Result<Went<Seen>, Fault> {
    let m = told(alloc, num, end)?;
    match site.told(&m)? {
        Went::Answered(site, ()) => Ok(Went::Answered(site, Seen::Nothing)),
        Went::Stopped(left) => Ok(Went::Stopped(left)),
    }
}

fn bound_so(site: Site, num: u64, avoid: u32, include: bool) -> Result<Went<Seen>, Fault> {
    let (site, reply) = site.bind(&bind(num, avoid, include))?;
    Ok(Went::Answered(site, bound(reply)))
}

fn noted_so(site: Site, num: u64, count: u32, inc: u32) -> Result<Went<Seen>, Fault> {
    let (site, reply) = site.note(&record(num, count, inc))?;
    Ok(Went::Answered(site, recorded(reply)))
}

fn entry_so(site: Site) -> Result<Went<Seen>, Fault> {
    let (site, stores) = site.stores()?;
    let seen = match stores {
        Some(stores) => Seen::Stores(stores),
        None => Seen::InDoubt,
    };
    Ok(Went::Answered(site, seen))
}

/// What naming answers to one of them.
pub fn handle(alloc: Global, site: Site, asked: Ask) -> Result<Went<Seen>, Fault> {
    match asked {
        Ask::Bind(num, avoid) => bound_so(site, num, avoid, false),
        Ask::Include(num) => bound_so(site, num, 0, true),
        Ask::Record(num, count, inc) => noted_so(site, num, count, inc),
        Ask::Exclude(num, inc, stores) => confirmed_so(alloc, site, num, inc, stores, false),
        Ask::Add(num, inc) => confirmed_so(alloc, site, num, inc, &[], true),
        Ask::Told(num, end) => told_so(alloc, site, num, end),
        Ask::Hello(node, inc) => {
            let hello = Hello { node, inc };
            Ok(Went::Answered(site.hello(&hello), Seen::Nothing))
        }
        Ask::Entry => entry_so(site),
    }
}

/// Naming after one of them that isn't stopped, with its answer.
pub fn answer(alloc: Global, site: Site, asked: Ask) -> Result<(Site, Seen), Fault> {
    match handle(alloc, site, asked)? {
        Went::Answered(site, seen) => Ok((site, seen)),
        Went::Stopped(_) => Err(Fault::Stopped),
    }
}
