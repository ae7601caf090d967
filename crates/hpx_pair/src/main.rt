//! Several processes on one machine. Without words it starts itself as the launcher of some sessions, one after another, and prints what each
//! of them prints. With `--program` as its first word it is the launcher, and with other words the program.
#![tactic(auto)]

use hpx_launch::program::program;
use hpx_ports::adapters::WriterSink;
use hpx_ports::child_spawner::ChildSpawner;
use hpx_ports::words::{EnvWords, Words};
use hpx_program::start::{start, stop_without_memory};
use hpx_tcp::reader::{Start, start_reader};
use std::io::{self, Write};
use std::process::{Command, ExitCode, Output, Stdio};
use std::{env, process};

/// The first word of the launcher.
const LAUNCHER: &[u8] = b"--program";

/// What is launched: at how many localities, with which words, and what the console reads.
#[derive(Clone, Copy)]
struct Launch {
    localities: u16,
    words: &'static [&'static str],
    input: &'static [u8],
}

/// A session of the accumulator.
const SUMS: &[u8] = b"add 5\nadd 10\nquery\nadd 2\nquery\nquit\n";

const LAUNCHES: &[Launch] = &[
    Launch {
        localities: 2,
        words: &["accumulator"],
        input: SUMS,
    },
    Launch {
        localities: 3,
        words: &["accumulator", "--hpx:ini=hpx.agas.settle=1"],
        input: SUMS,
    },
    Launch {
        localities: 4,
        words: &["fib", "--n-value", "15"],
        input: b"",
    },
    Launch {
        localities: 3,
        words: &["stencil", "--points", "6", "--parts", "3", "--steps", "3"],
        input: b"",
    },
];

/// The ports of a run, from the first on: other runs beside it have others.
const PORTS: u16 = 12;

const FIRST_PORT: u16 = 8_000;

/// What a launch prints, and how it ends.
fn launched(rt: &HostRuntime, path: &str, port: u16, launch: Launch) -> io::Result<Output> {
    let alloc = rt.alloc();
    let localities = launch.localities;
    let mut command = Command::new(alloc, path)?;
    command.arg("--program")?;
    command.arg(path)?;
    command.arg(format!(in alloc; "--localities={localities}")?)?;
    command.arg(format!(in alloc; "--port={port}")?)?;
    command.arg("--")?;
    command.args(launch.words)?;
    command.stdin(Stdio::piped());
    command.stdout(Stdio::piped());
    command.stderr(Stdio::inherit());
    let mut child = command.spawn(rt)?;
    if let Some(input) = &mut child.stdin {
        let _ = input.write_all(launch.input);
    }
    child.wait_with_output(alloc)
}

/// Launches each, and prints what it prints.
fn launch_all(rt: &HostRuntime, path: &str) -> io::Result<()> {
    let run = (process::id(rt.process()) % 1000) as u16;
    let mut port = FIRST_PORT + run * PORTS;
    for launch in LAUNCHES {
        let output = launched(rt, path, port, *launch)?;
        let localities = launch.localities;
        let status = output.status;
        println!(rt; "{localities} localities: {status}")?;
        rt.write_all(output.stdout.as_slice())?;
        println!(rt)?;
        port = port.saturating_add(localities);
    }
    Ok(())
}

/// Launches by the path that it was started by.
fn run(rt: &HostRuntime) -> io::Result<()> {
    match env::args(rt)?.next() {
        Some(path) => launch_all(rt, path.as_str()),
        None => Err(io::Error::from(io::ErrorKind::NotFound)),
    }
}

/// The launcher.
fn start_launcher(rt: &HostRuntime) -> ExitCode {
    ExitCode::from(program(
        rt.alloc(),
        &EnvWords::new(rt),
        &mut ChildSpawner::new(rt, rt.alloc()),
        &mut WriterSink::new(rt.stderr()),
    ))
}

/// What the process ends with, and why it could not go on.
fn ended(rt: &HostRuntime, ran: io::Result<()>) -> ExitCode {
    match ran {
        Ok(()) => ExitCode::SUCCESS,
        Err(error) => {
            let _ = eprintln!(rt; "hpx_pair: {error}");
            ExitCode::FAILURE
        }
    }
}

fn main(rt: HostRuntime) -> ExitCode {
    match EnvWords::new(&rt).word(rt.alloc(), 0) {
        Ok(None) => return ended(&rt, run(&rt)),
        Ok(Some(word)) if word.as_slice() == LAUNCHER => return start_launcher(&rt),
        _ => (),
    }
    let readers: Start = match Box::new(rt.alloc(), move |reader| start_reader(rt, reader)) {
        Ok(readers) => readers,
        Err(_) => return stop_without_memory(&rt),
    };
    start(&rt, rt, readers)
}
