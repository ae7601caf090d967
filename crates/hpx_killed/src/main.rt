//! What becomes of several processes where one of them is missing. Without words it starts itself as the localities of some sessions, kills
//! one of each, and prints how all have ended. With words it is the program.
#![tactic(auto)]

mod group;

use group::{Group, Seat, Site};
use hpx_ports::words::{EnvWords, Words};
use hpx_program::start::{start, stop_without_memory};
use hpx_tcp::reader::{Start, start_reader};
use std::io::{self, Read};
use std::net::{Net, TcpListener};
use std::os::fd::OwnedFd;
use std::os::unix::net::UnixStream;
use std::process::ExitCode;
use std::time::Duration;
use std::{env, process};

/// What a console is fed first.
const QUESTION: &[u8] = b"add 5\nquery\n";

/// What it has written once it has answered.
const ANSWER: &[u8; 57] = b"commands: reset, add [amount], query, help, quit\n> > 5\n> ";

/// How many seconds processes may take to connect and to answer, and to end where one was killed.
const TO_ANSWER: u64 = 20;

const TO_END: u64 = 1;

/// The localities of a session.
const LOCALITIES: u16 = 3;

/// The ports of a run, from the first on: other runs beside it have others.
const PORTS: u16 = 12;

const FIRST_PORT: u16 = 20_000;

/// Whether a console answers.
fn answers(shown: &mut UnixStream) -> io::Result<bool> {
    shown.set_read_timeout(Some(Duration::from_secs(TO_ANSWER)))?;
    let mut text = [0; 57];
    shown.read_exact(&mut text)?;
    Ok(&text == ANSWER)
}

/// A console and two workers, of whom one is killed once the console has answered. The console is fed lines until the others have ended:
/// while it waits for one it sees nothing else.
fn session<N: Net>(rt: &HostRuntime, net: &N, site: &Site, killed: Seat) -> io::Result<()> {
    let (mut shown, output) = UnixStream::pair(net)?;
    let mut group = Group::new(rt.alloc());
    group.start_console(rt, site, OwnedFd::from(output))?;
    group.start_deaf(rt, site, Seat(1))?;
    group.start_deaf(rt, site, Seat(2))?;
    group.feed(QUESTION);
    if !answers(&mut shown)? {
        return Err(io::Error::from(io::ErrorKind::InvalidData));
    }
    group.kill(killed)?;
    let when = if group.ends_within(rt, Duration::from_secs(TO_END), b"add 1\n")? {
        "within a second"
    } else {
        "too late"
    };
    println!(rt; "{killed} killed: the others end {when}")?;
    group.tell(rt)
}

/// A locality without the others: it ends by itself.
fn alone(rt: &HostRuntime, site: &Site, seat: Seat, why: &str) -> io::Result<()> {
    let mut group = Group::new(rt.alloc());
    group.start_deaf(rt, site, seat)?;
    group.ends_within(rt, Duration::from_secs(TO_ANSWER), b"")?;
    println!(rt; "{seat} alone: {why}")?;
    group.tell(rt)
}

/// Each process of a session is killed once. Then a worker finds no console, and a console finds its port taken.
fn tell_all<N: Net>(rt: &HostRuntime, net: &N, program: &str) -> io::Result<()> {
    let run = (process::id(rt.process()) % 1000) as u16;
    let first = FIRST_PORT + run * PORTS;
    for killed in 0..LOCALITIES {
        let site = Site {
            program,
            localities: LOCALITIES,
            port: first + killed * LOCALITIES,
        };
        session(rt, net, &site, Seat(killed))?;
    }
    let site = Site {
        program,
        localities: 2,
        port: first + LOCALITIES * LOCALITIES,
    };
    alone(rt, &site, Seat(1), "nobody is at the console's port")?;
    let _taken = TcpListener::bind(net, ("127.0.0.1", site.port))?;
    alone(rt, &site, Seat(0), "its port is taken")
}

/// Runs on itself, by the path that it was started by.
fn run<N: Net>(rt: &HostRuntime, net: &N) -> io::Result<()> {
    match env::args(rt)?.next() {
        Some(program) => tell_all(rt, net, program.as_str()),
        None => Err(io::Error::from(io::ErrorKind::NotFound)),
    }
}

/// What the process ends with, and why it could not go on.
fn ended(rt: &HostRuntime, ran: io::Result<()>) -> ExitCode {
    match ran {
        Ok(()) => ExitCode::SUCCESS,
        Err(error) => {
            let _ = eprintln!(rt; "hpx_killed: {error}");
            ExitCode::FAILURE
        }
    }
}

fn main(rt: HostRuntime) -> ExitCode {
    if let Ok(None) = EnvWords::new(&rt).word(rt.alloc(), 0) {
        return ended(&rt, run(&rt, &rt));
    }
    let readers: Start = match Box::new(rt.alloc(), move |reader| start_reader(rt, reader)) {
        Ok(readers) => readers,
        Err(_) => return stop_without_memory(&rt),
    };
    start(&rt, rt, readers)
}
