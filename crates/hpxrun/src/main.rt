//! The launcher: the system's words, child processes, the standard output for errors, the status.
#![tactic(auto)]

use hpx_launch::program::program;
use hpx_ports::adapters::WriterSink;
use hpx_ports::child_spawner::ChildSpawner;
use hpx_ports::words::EnvWords;
use std::process::ExitCode;

fn main(rt: HostRuntime) -> ExitCode {
    let status = program(
        rt.alloc(),
        &EnvWords::new(&rt),
        &mut ChildSpawner::new(&rt, rt.alloc()),
        &mut WriterSink::new(rt.stderr()),
    );
    ExitCode::from(status)
}
