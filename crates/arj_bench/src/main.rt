//! Work for the benches: without words it does nothing; with a number of rows and a number of requests it makes that
//! many requests of a lock table with that many rows, and prints what they were answered. With `pass`, a number of
//! locks and a number of passes, an action that is nested deep takes that many locks, and they pass that often to the
//! parent. With `holders`, a number of tops and a number of times, that many tops read one object, and so often another one
//! comes and ends. With `objects`, a number of objects and a number of tops, that many tops work on that many active objects.
//!
//! It stands on `arj_lock` and `arj_manager`. The time is taken from outside, by `bench/locks` and `bench/objects`.
#![tactic(auto)]

mod holders;
mod locks;
mod objects;
mod passes;

use holders::{come_and_go, fill_held};
use locks::{Count, fill, request_all};
use passes::{depth_of_holder, fill_deepest, pass_up};
use std::process::ExitCode;
use std::{env, io};

fn main(rt: HostRuntime) -> ExitCode {
    match run(&rt) {
        Ok(true) => ExitCode::from(0),
        Ok(false) => ExitCode::from(1),
        Err(_) => ExitCode::from(5),
    }
}

// Does what the words ask, and answers whether they are right.
fn run(rt: &HostRuntime) -> io::Result<bool> {
    let mut words = env::args(rt)?.skip(1);
    let Some(rows) = words.next() else {
        return Ok(true);
    };
    let Some(requests) = words.next() else {
        return Ok(false);
    };
    if rows.as_str() == "pass" {
        let Some(passes) = words.next() else {
            return Ok(false);
        };
        return pass(rt, requests.as_str(), passes.as_str());
    }
    if rows.as_str() == "holders" {
        let Some(times) = words.next() else {
            return Ok(false);
        };
        return hold(rt, requests.as_str(), times.as_str());
    }
    if rows.as_str() == "objects" {
        let Some(tops) = words.next() else {
            return Ok(false);
        };
        return work(rt, requests.as_str(), tops.as_str());
    }
    let (Ok(rows), Ok(requests)) = (
        rows.as_str().parse::<u16>(),
        requests.as_str().parse::<u32>(),
    ) else {
        return Ok(false);
    };
    if rows == 0 {
        return Ok(false);
    }
    let mut table = fill(rt.alloc(), rows)?;
    let Count { granted, refused } = request_all(&mut table, rows, requests)?;
    println!(rt; "{rows} rows, {requests} requests: {granted} granted, {refused} refused")?;
    Ok(true)
}

// Lets locks pass, as the words ask, and answers whether they are right.
fn pass(rt: &HostRuntime, locks: &str, passes: &str) -> io::Result<bool> {
    let (Ok(locks), Ok(passes)) = (locks.parse::<u16>(), passes.parse::<u8>()) else {
        return Ok(false);
    };
    let Some(mut table) = fill_deepest(rt.alloc(), locks)? else {
        return Ok(false);
    };
    pass_up(&mut table, passes);
    let first = depth_of_holder(&table, 1);
    let last = depth_of_holder(&table, locks);
    println!(rt; "{locks} locks, {passes} passes: to depth {first} and {last}")?;
    Ok(true)
}

// Lets tops come to an object that others hold, as the words ask, and answers whether they are right.
fn hold(rt: &HostRuntime, holders: &str, times: &str) -> io::Result<bool> {
    let (Ok(holders), Ok(times)) = (holders.parse::<u16>(), times.parse::<u32>()) else {
        return Ok(false);
    };
    let mut table = fill_held(rt.alloc(), holders)?;
    let Count { granted, refused } = come_and_go(&mut table, times)?;
    println!(rt; "{holders} holders, {times} tops: {granted} granted, {refused} refused")?;
    Ok(true)
}

// Lets tops work, as the words ask, and answers whether they are right.
fn work(rt: &HostRuntime, objects: &str, tops: &str) -> io::Result<bool> {
    let (Ok(objects), Ok(tops)) = (objects.parse::<u16>(), tops.parse::<u32>()) else {
        return Ok(false);
    };
    if objects == 0 {
        return Ok(false);
    }
    let mut manager = objects::fill(rt.alloc(), objects)?;
    let states = objects::work_all(rt.alloc(), &mut manager, objects, tops)?;
    let sum = objects::sum(&manager, objects);
    println!(rt; "{objects} objects, {tops} tops: {states} states, sum {sum}")?;
    Ok(true)
}
