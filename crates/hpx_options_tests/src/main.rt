//! Reads the tables of words that people are shown, `words.md`, and says whether each row is what the command line takes.
#![tactic(auto)]

mod described;
mod rows;
#[cfg(test)]
mod tests;

use rows::{Row, holds, row_of};
use std::{fs, io};

fn main(rt: HostRuntime) -> io::Result<()> {
    let table = fs::read_to_string(&rt, "words.md")?;
    let mut applications = 0usize;
    let mut numbers = 0usize;
    for line in table.as_str().lines() {
        let Some(row) = row_of(line) else {
            continue;
        };
        if !holds(rt.alloc(), &row)? {
            println!(rt; "not so: {line}")?;
        }
        match row {
            Row::Application(_) => applications = applications.saturating_add(1),
            Row::Number { .. } => numbers = numbers.saturating_add(1),
        }
    }
    println!(rt; "{applications} applications, {numbers} numbers")
}
