//! What one member sends, passed on by a thread of its own.
ghost use Rattle.std.specs.Prelude.{◌≡◌, ℕ, List, Some, None};
ghost use Rattle.hpx_tcp.specs.Bodies.{Comes};

use crate::body::next_body;
use crossbeam_channel::Sender;
use hpx_ports::adapters::ReaderSource;
use hpx_ports::link::LinkFault;
use hpx_ports::source::Source;
use hpx_value::items::Bytes;
use std::alloc::Global;
use std::net::TcpStream;
use std::sync::Wait;
use std::thread;
use std::thread::{JoinHandle, Threads};

/// What a reader passes on.
#[derive(Drop)]
pub enum Arrival {
    /// A body of this member.
    Body { from: u32, body: Bytes },
    /// The stream of this member ended between two bodies.
    Ended { from: u32 },
    /// A stream ended within a body, could not be read, or there was no memory for what it had.
    Broken,
}

/// What comes next from a member.
fn next_arrival<S: Source>(alloc: Global, from: u32, source: &mut S) -> Arrival
    ensures body { (k : ℕ) (body : List ℕ) → result ≡ Arrival.Body k body → (k ≡ from) × Comes (Some body) (S.left source.old) (S.left source.new) }
    ensures ended { (k : ℕ) → result ≡ Arrival.Ended k → (k ≡ from) × Comes None (S.left source.old) (S.left source.new) }
{
    match next_body(alloc, source) {
        Ok(Some(body)) => Arrival::Body { from, body },
        Ok(None) => Arrival::Ended { from },
        Err(_) => Arrival::Broken,
    }
}

/// What a thread is given that reads one stream: whose it is, and who takes what comes.
#[derive(Drop)]
pub struct Reader {
    pub(crate) alloc: Global,
    pub(crate) from: u32,
    pub(crate) stream: TcpStream,
    pub(crate) to: Sender<Arrival>,
}

/// Passes bodies on until their stream ends or breaks, or nobody takes them.
pub(crate) fn pass_on<R: Wait>(rt: &R, reader: Reader) {
    let mut source = ReaderSource::new(&reader.stream);
    for _ in rt.forever() {
        let arrival = next_arrival(reader.alloc, reader.from, &mut source);
        let goes_on = matches!(&arrival, Arrival::Body { .. });
        if reader.to.send(rt, arrival).is_err() || !goes_on {
            return;
        }
    }
}

/// What starts a thread for a reader: `start_reader` with a machine's threads.
pub type Start = Box<dyn Fn(Reader) -> Result<JoinHandle<()>, LinkFault> + Drop>;

/// Starts a thread that passes on what a reader reads.
pub fn start_reader<R: Threads + Wait + Copy + Send + 'static>(
    rt: R,
    reader: Reader,
) -> Result<JoinHandle<()>, LinkFault> {
    match thread::spawn(&rt, move || pass_on(&rt, reader)) {
        Ok(handle) => Ok(handle),
        Err(_) => Err(LinkFault::Failed),
    }
}
