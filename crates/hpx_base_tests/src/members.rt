ghost use Rattle.std.specs.Prelude.{◌≡◌};

use hpx_ports::adapters::WriterSink;
use hpx_ports::link::{Link, LinkFault, Opener, Seat};
use hpx_ports::sink::write_all;
use hpx_tcp::open::TcpPorts;
use hpx_tcp::reader::{Start, start_reader};
use std::alloc::Global;
use std::net::{Ipv4Addr, Net, SocketAddr, SocketAddrV4, TcpListener, TcpStream};
use std::sync::Wait;
use std::test::Fail;
use std::thread;
use std::thread::Threads;
use std::time::{Clock, Duration};

fn address(port: u16) -> SocketAddr {
    SocketAddr::V4(SocketAddrV4::new(Ipv4Addr::new(127, 0, 0, 1), port))
}

// A port that is free, as the one behind it is; 0 if none is found.
fn free_port<R: Net<Listener = TcpListener, Stream = TcpStream>>(rt: &R) -> u16 {
    for _ in 0..20 {
        let Ok(first) = TcpListener::bind(rt, address(0)) else {
            return 0;
        };
        let Ok(at) = first.local_addr() else {
            return 0;
        };
        let port = at.port();
        if TcpListener::bind(rt, address(port.saturating_add(1))).is_ok() {
            return port;
        }
    }
    0
}

// Connects one of two members, sends its own number as a body, and answers what comes: from whom, and the first byte.
fn talk<R: Net<Listener = TcpListener, Stream = TcpStream> + Threads + Wait + Clock + Copy>(
    mut ports: TcpPorts<R>,
    node: u32,
    port: u16,
) -> Result<(u32, u8), LinkFault> {
    let mut link = ports.connect(Seat { node, n: 2, port })?;
    link.send(1 - node.min(1), &[node.min(255) as u8])?;
    let (from, body) = link.recv()?;
    Ok((from, body.as_slice().first().copied().unwrap_or(99)))
}

#[test]
fn two_members_exchange_bodies(rt: HostRuntime) -> Result<(), Fail> {
    let port = free_port(&rt);
    let (first, second) = thread::join(
        &rt,
        || {
            let start: Start = match Box::new(rt.alloc(), move |reader| start_reader(rt, reader)) {
                Ok(start) => start,
                Err(_) => return Err(LinkFault::OutOfMemory),
            };
            talk(TcpPorts::new(rt, rt.alloc(), start), 0, port)
        },
        || {
            let start: Start = match Box::new(rt.alloc(), move |reader| start_reader(rt, reader)) {
                Ok(start) => start,
                Err(_) => return Err(LinkFault::OutOfMemory),
            };
            talk(TcpPorts::new(rt, rt.alloc(), start), 1, port)
        },
    );
    assert_eq!(rt; first, Ok((1, 1)));
    assert_eq!(rt; second, Ok((0, 0)));
    Ok(())
}

// Connects to a port, and says what is no hello of two members.
fn intrude<R: Net<Listener = TcpListener, Stream = TcpStream> + Clock>(rt: &R, port: u16) -> bool {
    for _ in 0..200 {
        if let Ok(stream) = TcpStream::connect(rt, address(port)) {
            return write_all(&mut WriterSink::new(&stream), b"\0\0\0\x05\xf3\0\x03\0\x01").is_ok();
        }
        thread::sleep(rt, Duration::from_millis(20));
    }
    false
}

#[test]
fn a_strange_hello_is_a_fault(rt: HostRuntime) -> Result<(), Fail> {
    let port = free_port(&rt);
    let (first, said) = thread::join(
        &rt,
        || {
            let start: Start = match Box::new(rt.alloc(), move |reader| start_reader(rt, reader)) {
                Ok(start) => start,
                Err(_) => return Err(LinkFault::OutOfMemory),
            };
            talk(TcpPorts::new(rt, rt.alloc(), start), 0, port)
        },
        || intrude(&rt, port),
    );
    assert_eq!(rt; first, Err(LinkFault::Failed));
    assert!(rt; said);
    Ok(())
}

#[test]
fn a_member_without_a_peer_is_a_fault(rt: HostRuntime) -> Result<(), Fail> {
    let start: Start = Box::new(rt.alloc(), move |reader| start_reader(rt, reader))?;
    let mut ports = TcpPorts::new(rt, rt.alloc(), start);
    assert!(rt;
        matches!(
            ports.connect(Seat {
                node: 1,
                n: 2,
                port: free_port(&rt)
            }),
            Err(LinkFault::Failed)
        )
    );
    assert!(rt;
        matches!(
            ports.connect(Seat {
                node: 2,
                n: 2,
                port: 7910
            }),
            Err(LinkFault::Failed)
        )
    );
    Ok(())
}
