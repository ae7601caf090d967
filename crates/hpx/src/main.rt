//! The program.
#![tactic(auto)]

use hpx_program::start::{start, stop_without_memory};
use hpx_tcp::reader::{Start, start_reader};
use std::process::ExitCode;

fn main(rt: HostRuntime) -> ExitCode {
    let readers: Start = match Box::new(rt.alloc(), move |reader| start_reader(rt, reader)) {
        Ok(readers) => readers,
        Err(_) => return stop_without_memory(&rt),
    };
    start(&rt, rt, readers)
}
