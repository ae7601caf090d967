//! A short session over a world, step by step. Where memory is wanting, the journal that is left is judged, what is out has to have been
//! handed back, and the session goes on from there: so each allocation can be refused in turn. The input is a number: so many
//! allocations are made before the session. The status is 6 where memory was wanting, and 1 where what was left then was not right, or the
//! session was broken off though there was a world.
#![tactic(auto)]

mod story;

use crate::story::{Session, Told};
use hpx_value::memory::OutOfMemory;
use std::alloc::Global;
use std::io;
use std::io::Read;
use std::process::ExitCode;

/// A number is made, called, asked for, moved, called, asked for and dropped.
const LINES: &[u8] = b"naqmaqd";

/// The number that the input is, or 0.
fn asked(rt: &HostRuntime) -> u32 {
    let mut bytes = [0u8; 8];
    if rt.stdin().read(&mut bytes).is_err() {
        return 0;
    }
    let mut number = 0u32;
    for byte in bytes {
        if let Some(digit) = char::from(byte).to_digit(10) {
            number = number.saturating_mul(10).saturating_add(digit);
        }
    }
    number
}

/// Makes so many allocations.
fn spend(alloc: Global, times: u32) -> Result<(), OutOfMemory> {
    for _ in 0..times {
        Vec::from_slice(alloc, &[0u8])?;
    }
    Ok(())
}

/// What the session comes to. Once there is a world, none may be broken off.
fn played(alloc: Global, before: u32) -> Result<Told, OutOfMemory> {
    spend(alloc, before)?;
    let mut session = Session::boot(alloc)?;
    for line in LINES {
        if session.line(alloc, *line).is_err() {
            return Ok(session.broken_off());
        }
    }
    Ok(session.told(alloc))
}

/// The status for what the session came to, which is printed.
fn shown(rt: &HostRuntime, told: Told) -> io::Result<u8> {
    let Told { wanted, wrong } = told;
    println!(rt; "memory was wanting {wanted} times")?;
    if wrong {
        println!(rt; "what was left is not right")?;
        return Ok(1);
    }
    Ok(if wanted > 0 { 6 } else { 0 })
}

fn main(rt: HostRuntime) -> ExitCode {
    match played(rt.alloc(), asked(&rt)) {
        Ok(told) => ExitCode::from(shown(&rt, told).unwrap_or(1)),
        Err(_) => ExitCode::from(6),
    }
}
