//! The program as a shell starts it.
ghost use Rattle.std.specs.Prelude.{◌≡◌};
ghost use Rattle.std.specs.Process.{exit_status};

use crate::program::{program, say_no_memory};
use hpx_ports::adapters::{ReaderSource, WriterSink};
use hpx_ports::gate::OpenGate;
use hpx_ports::memory_fabric::SureFabric;
use hpx_ports::order::Order;
use hpx_ports::words::EnvWords;
use hpx_tcp::open::TcpPorts;
use hpx_tcp::reader::Start;
use std::net::{Net, TcpListener, TcpStream};
use std::process::ExitCode;
use std::sync::Wait;
use std::thread::Threads;
use std::time::Clock;

/// Runs on the words that the system gives, from its input to its two outputs, over a fabric in memory, or as one locality of several over
/// loopback TCP, and ends with the status of that run. `machine` starts workers and opens sockets, and `readers` starts what reads these: the
/// runtime may do so only where `main` hands it. The system tells nothing of its words, streams and sockets, so there is nothing to say of them
/// here: `program` says it.
pub fn start<
    R: Net<Listener = TcpListener, Stream = TcpStream> + Threads + Wait + Clock + Copy + Sync,
>(rt: &HostRuntime, machine: R, readers: Start) -> ExitCode
    requires { IsAlwaysCallable readers }
{
    program(
        &machine,
        rt.alloc(),
        &EnvWords::new(rt),
        &mut ReaderSource::new(rt.stdin()),
        &mut WriterSink::new(rt.stdout()),
        &mut WriterSink::new(rt.stderr()),
        SureFabric::new(rt.alloc(), Order::FirstIn),
        &mut TcpPorts::new(machine, rt.alloc(), readers),
        &OpenGate,
    )
    .code
}

/// Says that there is no memory to begin with, and ends with status 6.
pub fn stop_without_memory(rt: &HostRuntime) -> ExitCode
    ensures { exit_status result ≡ 6 }
{
    say_no_memory(&mut WriterSink::new(rt.stderr()))
}
