//! A link to the other members over one socket for each.
ghost use Rattle.std.specs.Prelude.{◌≡◌, ◌≤◌};
ghost use Rattle.hpx_ports.specs.Faults.{raised};

use crate::body::{framed, is_body};
use crate::reader::{Arrival, Reader, Start};
use crossbeam_channel::{Receiver, Sender};
use hpx_ports::adapters::WriterSink;
use hpx_ports::fault::Failed;
use hpx_ports::link::{Latest, Link, LinkFault};
use hpx_ports::sink::write_all;
use hpx_value::exact::Exact;
use hpx_value::items::Bytes;
use std::alloc::Global;
use std::marker::Model;
use std::net::{Shutdown, TcpStream};
use std::sync::Wait;
use std::thread::{JoinHandle, Threads};
use std::{mem, thread};

/// A link over sockets. It tells nothing of what it carries.
pub struct TcpLink<R: Threads + Wait + Copy> {
    rt: R,
    alloc: Global,
    node: u32,
    streams: Vec<Option<TcpStream>>,
    readers: Vec<JoinHandle<()>>,
    arrivals: Receiver<Arrival>,
    latest: Latest,
    faults: u64,
}

impl<R: Threads + Wait + Copy> Model for TcpLink<R> {
    ghost use Rattle.hpx_tcp.specs.Connected.{Connected};

    ghost Value = { Connected };

    ghost view = { λ l. record { latest = l.latest; faults = l.faults } };
}

impl<R: Threads + Wait + Copy> TcpLink<R> {
    /// A member's link over its streams to the others, by their numbers. Nothing was received.
    pub(crate) fn new(
        rt: R,
        alloc: Global,
        node: u32,
        streams: Vec<Option<TcpStream>>,
        arrivals: Receiver<Arrival>,
    ) -> TcpLink<R>
        ensures { result ≡ record { latest = Latest.Never; faults = 0 } }
    {
        TcpLink {
            rt,
            alloc,
            node,
            streams,
            readers: Vec::new(alloc),
            arrivals,
            latest: Latest::Never,
            faults: 0,
        }
    }

    /// A call that fails, and is counted.
    fn failed(&mut self) -> LinkFault
        ensures fault { result ≡ LinkFault.Failed }
        ensures rest { self.new ≡ record self.old { faults = raised self.old.faults } }
        ensures never_falls { self.old.faults ≤ self.new.faults }
    {
        self.faults = self.faults.saturating_add(1);
        LinkFault::Failed
    }

    /// Writes bytes to a member.
    fn written(&self, to: u32, bytes: &[u8]) -> Result<(), Failed> {
        match self.streams.get(to as usize) {
            Some(Some(stream)) => write_all(&mut WriterSink::new(stream), bytes),
            _ => Err(Failed),
        }
    }

    /// Waits for a body. There is none where a stream broke, or one ended that has locality 0 at an end: another worker may just have
    /// been told to end.
    fn next(&self) -> Option<(u32, Bytes)> {
        for _ in self.rt.forever() {
            match self.arrivals.recv(&self.rt) {
                Ok(Arrival::Body { from, body }) => return Some((from, body)),
                Ok(Arrival::Ended { from }) if from != 0 && self.node != 0 => {}
                _ => return None,
            }
        }
        unreachable!()
    }
}

impl<R: Threads + Wait + Copy> TcpLink<R> {
    /// Starts a reader for each stream.
    pub(crate) fn start_readers(
        &mut self,
        start: &Start,
        to: Sender<Arrival>,
    ) -> Result<(), LinkFault>
        requires { IsAlwaysCallable start.now }
        ensures { self.new ≡ self.old }
    {
        let mut from: u32 = 0;
        for stream in self.streams.as_slice() {
            if let Some(stream) = stream {
                let reader = start(reader_of(self.alloc, from, stream, &to)?)?;
                if self.readers.push(reader).is_err() {
                    return Err(LinkFault::OutOfMemory);
                }
            }
            from = from.saturating_add(1);
        }
        Ok(())
    }
}

/// What a thread is given that reads a member's stream.
fn reader_of(
    alloc: Global,
    from: u32,
    stream: &TcpStream,
    to: &Sender<Arrival>,
) -> Result<Reader, LinkFault> {
    let Ok(stream) = stream.try_clone() else {
        return Err(LinkFault::Failed);
    };
    let Ok(to) = to.clone() else {
        return Err(LinkFault::OutOfMemory);
    };
    Ok(Reader {
        alloc,
        from,
        stream,
        to,
    })
}

impl<R: Threads + Wait + Copy> Link for TcpLink<R> {
    ghost use Rattle.std.specs.Prelude.{None};

    ghost faults = { λ l. l.faults };

    ghost latest = { λ l. l.latest };

    ghost trace = { λ l. None };

    fn send(&mut self, to: u32, body: &[u8]) -> Result<(), LinkFault> {
        if !is_body(body) {
            return Err(self.failed());
        }
        let bytes = framed(self.alloc, body)?;
        match self.written(to, bytes.as_slice()) {
            Ok(()) => Ok(()),
            Err(_) => Err(self.failed()),
        }
    }

    fn recv(&mut self) -> Result<(u32, Bytes), LinkFault> {
        self.latest = Latest::Fault;
        let Some((from, body)) = self.next() else {
            return Err(self.failed());
        };
        let kept = body.duplicate(self.alloc)?;
        self.latest = Latest::Got { from, body: kept };
        Ok((from, body))
    }
}

/// The streams end for the others, and each reader is waited for: it reads until the other end is shut too, so that nothing that is
/// still on the road is lost.
impl<R: Threads + Wait + Copy> Drop for TcpLink<R> {
    fn drop(self) {
        let Self {
            rt,
            alloc: _,
            node: _,
            streams,
            readers,
            arrivals,
            latest,
            faults: _,
        } = self;
        for stream in streams.as_slice() {
            if let Some(stream) = stream {
                let _ = stream.shutdown(Shutdown::Write);
            }
        }
        for reader in readers {
            reader.join(&rt);
        }
        drop(arrivals);
        drop(streams);
        drop(latest);
    }
}
