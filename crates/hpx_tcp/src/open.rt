//! Members find each other: each listens, connects to those with lower numbers, and accepts those with higher ones.
ghost use Rattle.std.specs.Prelude.{◌≡◌, ◌+◌, ◌<◌, ◌≤◌, IfOk};
ghost use Rattle.hpx_ports.specs.declared.link.Latest.TheVariants.{Never};
ghost use Rattle.hpx_ports.specs.Links.{unasked};

use crate::body::framed;
use crate::hello::{greeted, hello};
use crate::link::TcpLink;
use crate::reader::Start;
use crossbeam_channel::unbounded;
use hpx_ports::adapters::{ReaderSource, WriterSink};
use hpx_ports::link::{Asking, LinkFault, Opener, Seat};
use hpx_ports::sink::write_all;
use std::alloc::Global;
use std::marker::Model;
use std::net::{Ipv4Addr, Net, SocketAddr, SocketAddrV4, TcpListener, TcpStream};
use std::sync::Wait;
use std::thread;
use std::thread::Threads;
use std::time::{Clock, Duration};

/// How many members there are at most.
const MEMBERS: u32 = 64;

/// How often a connection is tried, and the pause between two tries.
const TRIES: u32 = 200;

const PAUSE: u64 = 20;

/// What a member is connected by, over loopback TCP.
#[derive(Drop)]
pub struct TcpPorts<R> {
    rt: R,
    alloc: Global,
    start: Start,
    asked: Asking,
    faults: u64,
    ghost starts: { IsAlwaysCallable start },
}

impl<R> TcpPorts<R> {
    /// Nothing was asked, and no call has failed.
    pub fn new(rt: R, alloc: Global, start: Start) -> TcpPorts<R>
        requires { IsAlwaysCallable start }
        ensures unasked { result.asked ≡ unasked }
        ensures faultless { result.faults ≡ 0 }
    {
        TcpPorts {
            rt,
            alloc,
            start,
            asked: Asking::none(),
            faults: 0,
        }
    }
}

/// A seat that there can be.
#[derive(Clone, Copy, Drop)]
struct Place {
    node: u16,
    n: u16,
    port: u16,
    ghost below: { node < n },
    ghost fits: { port + n ≤ 65536 },
}

impl Place {
    /// The place of a seat, if there can be one.
    fn of(seat: Seat) -> Option<Place> {
        if seat.n > MEMBERS || seat.node >= seat.n || seat.port as u32 + seat.n > 65_536 {
            return None;
        }
        Some(Place {
            node: seat.node as u16,
            n: seat.n as u16,
            port: seat.port,
        })
    }
}

impl<R: Net<Listener = TcpListener, Stream = TcpStream> + Threads + Wait + Clock + Copy> Opener
    for TcpPorts<R> {
    type Link = TcpLink<R>;

    ghost faults = { λ o. o.faults };

    ghost asked = { λ o. o.asked };

    fn connect(&mut self, seat: Seat) -> Result<TcpLink<R>, LinkFault> {
        self.asked.add(seat);
        match opened(self.rt, self.alloc, &self.start, seat) {
            Ok(link) => Ok(link),
            Err(LinkFault::Failed) => {
                self.faults = self.faults.saturating_add(1);
                Err(LinkFault::Failed)
            }
            Err(LinkFault::OutOfMemory) => Err(LinkFault::OutOfMemory),
        }
    }
}

/// A member's link to the others.
fn opened<R: Net<Listener = TcpListener, Stream = TcpStream> + Threads + Wait + Clock + Copy>(
    rt: R,
    alloc: Global,
    start: &Start,
    seat: Seat,
) -> Result<TcpLink<R>, LinkFault>
    requires { IsAlwaysCallable start.now }
    ensures { IfOk result (λ link. link ≡ record { latest = Never; faults = 0 }) }
{
    let Some(place) = Place::of(seat) else {
        return Err(LinkFault::Failed);
    };
    let Ok((to, arrivals)) = unbounded(alloc) else {
        return Err(LinkFault::OutOfMemory);
    };
    let streams = met(&rt, alloc, place)?;
    let mut link = TcpLink::new(rt, alloc, seat.node, streams, arrivals);
    link.start_readers(start, to)?;
    Ok(link)
}

/// The streams to all other members, by their numbers.
fn met<R: Net<Listener = TcpListener, Stream = TcpStream> + Clock>(
    rt: &R,
    alloc: Global,
    place: Place,
) -> Result<Vec<Option<TcpStream>>, LinkFault> {
    let Ok(listener) = TcpListener::bind(rt, address(place.port + place.node)) else {
        return Err(LinkFault::Failed);
    };
    let mut streams = Vec::new(alloc);
    reach_lower(rt, alloc, place, &mut streams)?;
    accept_higher(alloc, place, &listener, &mut streams)?;
    Ok(streams)
}

/// Connects to each member with a lower number, in order.
fn reach_lower<R: Net<Listener = TcpListener, Stream = TcpStream> + Clock>(
    rt: &R,
    alloc: Global,
    place: Place,
    streams: &mut Vec<Option<TcpStream>>,
) -> Result<(), LinkFault> {
    for peer in 0..place.node {
        let stream = reached(rt, place.port + peer)?;
        if exchanged(alloc, place, &stream)? != peer {
            return Err(LinkFault::Failed);
        }
        if streams.push(Some(stream)).is_err() {
            return Err(LinkFault::OutOfMemory);
        }
    }
    Ok(())
}

/// Accepts each member with a higher number, in any order.
fn accept_higher(
    alloc: Global,
    place: Place,
    listener: &TcpListener,
    streams: &mut Vec<Option<TcpStream>>,
) -> Result<(), LinkFault> {
    for _ in place.node..place.n {
        if streams.push(None).is_err() {
            return Err(LinkFault::OutOfMemory);
        }
    }
    for _ in place.node + 1..place.n {
        let Ok((stream, _)) = listener.accept() else {
            return Err(LinkFault::Failed);
        };
        let peer = exchanged(alloc, place, &stream)?;
        match streams.get_mut(peer as usize) {
            Some(slot) if peer > place.node && slot.is_none() => *slot = Some(stream),
            _ => return Err(LinkFault::Failed),
        }
    }
    Ok(())
}

/// Says hello, and takes the other's: which member is at the other end.
fn exchanged(alloc: Global, place: Place, stream: &TcpStream) -> Result<u16, LinkFault>
    ensures { IfOk result (λ peer. peer < place.n) }
{
    let _ = stream.set_nodelay(true);
    let bytes = framed(alloc, &hello(place.n, place.node))?;
    if write_all(&mut WriterSink::new(stream), bytes.as_slice()).is_err() {
        return Err(LinkFault::Failed);
    }
    greeted(alloc, &mut ReaderSource::new(stream), place.n)
}

/// A connection to a port, tried again and again.
fn reached<R: Net<Listener = TcpListener, Stream = TcpStream> + Clock>(
    rt: &R,
    port: u16,
) -> Result<TcpStream, LinkFault> {
    for tried in 0..TRIES {
        if tried > 0 {
            thread::sleep(rt, Duration::from_millis(PAUSE));
        }
        if let Ok(stream) = TcpStream::connect(rt, address(port)) {
            return Ok(stream);
        }
    }
    Err(LinkFault::Failed)
}

/// A port of this machine.
fn address(port: u16) -> SocketAddr {
    SocketAddr::V4(SocketAddrV4::new(Ipv4Addr::new(127, 0, 0, 1), port))
}
