//! Two localities do what a script asks of them, line by line; the answers are compared with those that are wanted.
#![tactic(auto)]

mod answers;
mod frames;
mod order;

use hpx_stepped::pair::Pair;
use hpx_value::memory::OutOfMemory;
use std::alloc::Global;
use std::io;

/// The greatest count of a record before the first line that boots.
const LIMIT: u128 = 4611686018427387904;

/// Boots both localities again.
fn renew(alloc: Global, pair: &mut Pair, limit: u128) -> Result<(), OutOfMemory> {
    *pair = Pair::boot(alloc, limit)?;
    Ok(())
}

/// Does what a line asks of the pair, and answers.
fn answer(alloc: Global, pair: &mut Pair, line: &str) -> Result<String, OutOfMemory> {
    let order = order::read(alloc, line)?;
    match order.boots() {
        Some(limit) => {
            renew(alloc, pair, limit)?;
            Ok(String::new(alloc))
        }
        None => answers::of(alloc, pair, order),
    }
}

/// Answers each line of the input.
fn play(rt: &HostRuntime, alloc: Global, pair: &mut Pair) -> io::Result<()> {
    for line in rt.lines(alloc) {
        let line = line?;
        match answer(alloc, pair, line.as_str()) {
            Ok(text) => println!(rt; "{}{}", line.as_str(), text.as_str())?,
            Err(_) => println!(rt; "{}: out of memory", line.as_str())?,
        }
    }
    Ok(())
}

fn main(rt: HostRuntime) -> io::Result<()> {
    let alloc = rt.alloc();
    match Pair::boot(alloc, LIMIT) {
        Ok(mut pair) => play(&rt, alloc, &mut pair),
        Err(_) => println!(rt; "out of memory"),
    }
}
