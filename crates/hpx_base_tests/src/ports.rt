use hpx_ports::adapters::{ReaderSource, WriterSink};
use hpx_ports::fabric::{Fabric, Wire};
use hpx_ports::fault::{FabricFault, Failed};
use hpx_ports::link::{Link, LinkFault, Post};
use hpx_ports::memory_fabric::{MemFabric, SureFabric};
use hpx_ports::memory_link::MemLink;
use hpx_ports::memory_sink::{MemSink, SureSink};
use hpx_ports::memory_source::{MemSource, SureSource};
use hpx_ports::order::Order;
use hpx_ports::sink::{Sink, write_all};
use hpx_ports::source::Source;
use hpx_ports::words::{EnvWords, all_words};
use hpx_value::items::{Bytes, Lengths};
use std::alloc::{AllocError, Global};
use std::collections::VecDeque;
use std::env::{Env, FillError};
use std::test::Fail;

fn bytes(alloc: Global, text: &[u8]) -> Result<Bytes, AllocError> {
    Ok(Bytes::from_vec(Vec::from_slice(alloc, text)?))
}

fn calls(alloc: Global, numbers: &[u64]) -> Result<Lengths, AllocError> {
    Ok(Lengths::from_vec(Vec::from_slice(alloc, numbers)?))
}

// Three reads into a buffer of three bytes, one after another.
fn three_reads<S: Source>(source: &mut S) -> [Result<usize, Failed>; 3] {
    let mut buf = [0; 3];
    let first = source.read(&mut buf);
    let second = source.read(&mut buf);
    let third = source.read(&mut buf);
    [first, second, third]
}

// Sends frames of one byte each, 0, 1, 2 and 3.
fn four_sends<F: Fabric>(fabric: &mut F) -> Result<(), FabricFault> {
    fabric.send(5, 6, &[0])?;
    fabric.send(5, 6, &[1])?;
    fabric.send(5, 6, &[2])?;
    fabric.send(5, 6, &[3])
}

// The first byte of what is delivered, or 99.
fn delivered<F: Fabric>(fabric: &mut F) -> Result<u8, FabricFault> {
    match fabric.deliver()? {
        Some((_to, frame)) => Ok(frame.as_slice().first().copied().unwrap_or(98)),
        None => Ok(99),
    }
}

#[test]
fn a_source_gives_its_bytes_in_pieces(rt: HostRuntime) -> Result<(), Fail> {
    let alloc = rt.alloc();
    let mut source = SureSource::new(bytes(alloc, b"hello")?);
    assert_eq!(rt; three_reads(&mut source), [Ok(3), Ok(2), Ok(0)]);
    let mut source = SureSource::new(bytes(alloc, b"hello")?);
    let mut buf = *b"....";
    assert_eq!(rt; source.read(&mut buf), Ok(4));
    assert_eq!(rt; buf, *b"hell");
    assert_eq!(rt; source.read(&mut buf), Ok(1));
    assert_eq!(rt; buf, *b"oell");
    Ok(())
}

#[test]
fn chosen_reads_fail(rt: HostRuntime) -> Result<(), Fail> {
    let alloc = rt.alloc();
    let mut source = MemSource::new(bytes(alloc, b"hello")?, calls(alloc, &[2])?);
    assert_eq!(rt; three_reads(&mut source), [Ok(3), Err(Failed), Ok(2)]);
    assert_eq!(rt; source.faults(), 1);
    Ok(())
}

#[test]
fn a_reader_is_a_source(rt: HostRuntime) -> Result<(), Fail> {
    let mut source = ReaderSource::new(b"hello".as_slice());
    assert_eq!(rt; three_reads(&mut source), [Ok(3), Ok(2), Ok(0)]);
    assert_eq!(rt; source.taken(), 5);
    let mut buf = *b"....";
    let mut source = ReaderSource::new(b"hello".as_slice());
    assert_eq!(rt; source.read(&mut buf), Ok(4));
    assert_eq!(rt; buf, *b"hell");
    assert_eq!(rt; source.faults(), 0);
    Ok(())
}

#[test]
fn a_sink_holds_what_is_written(rt: HostRuntime) -> Result<(), Fail> {
    let alloc = rt.alloc();
    let mut sink = SureSink::new(alloc);
    assert_eq!(rt; write_all(&mut sink, b"hel"), Ok(()));
    assert_eq!(rt; write_all(&mut sink, b"lo"), Ok(()));
    assert_eq!(rt; sink.bytes(), b"hello".as_slice());
    assert_eq!(rt; sink.faults(), 0);
    let mut sink = MemSink::new(alloc, calls(alloc, &[1, 3])?);
    assert_eq!(rt; write_all(&mut sink, b"hel"), Err(Failed));
    assert_eq!(rt; write_all(&mut sink, b"lo"), Ok(()));
    assert_eq!(rt; sink.write(b"hi"), Err(Failed));
    assert_eq!(rt; sink.bytes(), b"lo".as_slice());
    assert_eq!(rt; sink.faults(), 2);
    Ok(())
}

#[test]
fn a_full_writer_fails_in_mid_stream(rt: HostRuntime) -> Result<(), Fail> {
    let mut room = [0; 3];
    let mut sink = WriterSink::new(room.as_mut_slice());
    assert_eq!(rt; write_all(&mut sink, b"hello"), Err(Failed));
    assert_eq!(rt; sink.faults(), 1);
    drop(sink);
    assert_eq!(rt; room, *b"hel");
    Ok(())
}

#[test]
fn frames_come_in_order(rt: HostRuntime) -> Result<(), Fail> {
    let alloc = rt.alloc();
    for (order, want) in [
        (Order::FirstIn, [0, 1, 2, 3, 99]),
        (Order::LastIn, [3, 2, 1, 0, 99]),
        (Order::Scrambled(1), [2, 0, 1, 3, 99]),
        (Order::Scrambled(7), [2, 3, 1, 0, 99]),
    ] {
        let mut fabric = SureFabric::new(alloc, order);
        four_sends(&mut fabric)?;
        assert_eq!(rt; fabric.in_flight(), 4);
        for place in want {
            assert_eq!(rt; delivered(&mut fabric)?, place);
        }
        assert_eq!(rt; fabric.in_flight(), 0);
    }
    Ok(())
}

#[test]
fn chosen_sends_and_deliveries_fail(rt: HostRuntime) -> Result<(), Fail> {
    let alloc = rt.alloc();
    let sends = calls(alloc, &[2])?;
    let delivers = calls(alloc, &[1])?;
    let mut fabric = MemFabric::new(alloc, Order::LastIn, sends, delivers);
    assert_eq!(rt; fabric.send(1, 2, b"a"), Ok(()));
    assert_eq!(rt; fabric.send(1, 2, b"b"), Err(FabricFault::Failed));
    assert_eq!(rt; delivered(&mut fabric), Err(FabricFault::Failed));
    assert_eq!(rt; delivered(&mut fabric), Ok(b'a'));
    assert_eq!(rt; fabric.faults(), 2);
    assert_eq!(rt; fabric.in_flight(), 0);
    let in_trace = match fabric.trace() {
        [
            Wire::Sent { from, to, .. },
            Wire::Delivered { to: place, .. },
        ] => *from == 1 && *to == 2 && *place == 2,
        _ => false,
    };
    assert!(rt; in_trace);
    Ok(())
}

#[test]
fn faults_are_printed(rt: HostRuntime) -> Result<(), Fail> {
    let alloc = rt.alloc();
    let text = format!(in alloc;
        "{}, {}, {}",
        Failed,
        FabricFault::Failed,
        FabricFault::OutOfMemory
    )?;
    assert_eq!(rt; text.as_str(), "failed, failed, out of memory");
    Ok(())
}

// Behind the name there is a word of each of these lengths, all of one letter.
#[derive(Drop)]
struct Started([usize; 7]);

impl Env for Started {
    fn arg(&self, i: usize, buf: &mut [u8]) -> Result<usize, FillError> {
        let len = match i.checked_sub(1) {
            None => 3,
            Some(place) => *self.0.get(place).ok_or(FillError::NotPresent)?,
        };
        if len > buf.len() {
            return Err(FillError::TooLong);
        }
        buf[..len].fill(b'w');
        Ok(len)
    }

    fn var(&self, _name: &str, _buf: &mut [u8]) -> Result<usize, FillError> {
        Err(FillError::NotPresent)
    }

    fn var_at(&self, _i: usize, _buf: &mut [u8]) -> Result<usize, FillError> {
        Err(FillError::NotPresent)
    }
}

#[test]
fn words_come_whole_and_in_order(rt: HostRuntime) -> Result<(), Fail> {
    let lengths = [64, 0, 65, 1, 63, 5000, 0];
    let started = Started(lengths);
    let words = all_words(rt.alloc(), &EnvWords::new(&started))?;
    assert_eq!(rt; words.len(), lengths.len());
    for (word, length) in words.as_slice().iter().zip(&lengths) {
        assert_eq!(rt; word.len(), *length);
        assert!(rt; word.as_slice().iter().all(|byte| *byte == b'w'));
    }
    Ok(())
}

// Who sent the next body, and its first byte; 99 where the receive failed.
fn received(link: &mut MemLink) -> (u32, u8) {
    match link.recv() {
        Ok((from, body)) => (from, body.as_slice().first().copied().unwrap_or(98)),
        Err(_) => (99, 99),
    }
}

#[test]
fn a_link_gives_what_comes_in_order(rt: HostRuntime) -> Result<(), Fail> {
    let alloc = rt.alloc();
    let mut coming = VecDeque::new(alloc);
    coming.push_back((2, bytes(alloc, &[7])?))?;
    coming.push_back((1, bytes(alloc, &[8])?))?;
    let mut link = MemLink::new(alloc, coming, calls(alloc, &[2])?, calls(alloc, &[2])?);
    assert_eq!(rt; link.send(1, &[5]), Ok(()));
    assert_eq!(rt; link.send(1, &[6]), Err(LinkFault::Failed));
    for want in [(2, 7), (99, 99), (1, 8), (99, 99)] {
        assert_eq!(rt; received(&mut link), want);
    }
    assert_eq!(rt; link.trace().len(), 3);
    assert!(rt; matches!(link.trace().first(), Some(Post::Sent { to: 1, body: _ })));
    Ok(())
}
