use hpx_ports::child_spawner::ChildSpawner;
use hpx_ports::link::{Link, LinkFault, Opener, Seat};
use hpx_ports::memory_opener::MemOpener;
use hpx_ports::memory_spawner::MemSpawner;
use hpx_ports::spawner::{SpawnFault, Spawner};
use hpx_value::items::{Bytes, Items, Lengths, Text, Texts};
use hpx_value::memory::OutOfMemory;
use std::alloc::{AllocError, Global};
use std::collections::VecDeque;
use std::test::Fail;

fn text(alloc: Global, bytes: &[u8]) -> Result<Text, AllocError> {
    Ok(Text::from_vec(Vec::from_slice(alloc, bytes)?))
}

fn calls(alloc: Global, numbers: &[u64]) -> Result<Lengths, AllocError> {
    Ok(Lengths::from_vec(Vec::from_slice(alloc, numbers)?))
}

fn texts(alloc: Global, words: &[&[u8]]) -> Result<Texts, OutOfMemory> {
    let mut all = Items::new(alloc);
    for word in words {
        all.push(text(alloc, word)?)?;
    }
    Ok(all)
}

// Starts a shell that runs a script, and waits until it ends.
fn runs<P: Spawner>(
    alloc: Global,
    spawner: &mut P,
    program: &[u8],
    script: &[u8],
) -> Result<u8, SpawnFault> {
    let program = match text(alloc, program) {
        Ok(program) => program,
        Err(_) => return Err(SpawnFault::OutOfMemory),
    };
    let words = texts(alloc, &[b"-c", script])?;
    let child = spawner.start(&program, &words)?;
    spawner.wait(child)
}

#[test]
fn children_end_with_the_statuses_that_were_given(rt: HostRuntime) -> Result<(), Fail> {
    let alloc = rt.alloc();
    let statuses = Bytes::from_vec(Vec::from_slice(alloc, &[0, 7])?);
    let mut spawner = MemSpawner::new(alloc, statuses, calls(alloc, &[2])?, calls(alloc, &[2])?);
    assert_eq!(rt; spawner.wait(0), Err(SpawnFault::Failed));
    assert_eq!(rt;
        spawner.start(&text(alloc, b"p")?, &texts(alloc, &[b"a", b""])?),
        Ok(0)
    );
    for _ in 0..3 {
        assert_eq!(rt;
            runs(alloc, &mut spawner, b"q", b"x"),
            Err(SpawnFault::Failed)
        );
    }
    assert_eq!(rt; spawner.wait(1), Ok(7));
    assert_eq!(rt; spawner.wait(0), Ok(0));
    assert_eq!(rt; spawner.ended(), [(1, 7), (0, 0)].as_slice());
    assert_eq!(rt; spawner.faults(), 4);
    assert_eq!(rt; spawner.started().len(), 3);
    let first = match spawner.started().first() {
        Some((program, words)) => program.as_slice() == b"p".as_slice() && words.len() == 2,
        None => false,
    };
    assert!(rt; first);
    Ok(())
}

#[test]
fn a_child_process_ends_with_its_status(rt: HostRuntime) -> Result<(), Fail> {
    let alloc = rt.alloc();
    let mut spawner = ChildSpawner::new(&rt, alloc);
    assert_eq!(rt; runs(alloc, &mut spawner, b"/bin/sh", b"exit 3"), Ok(3));
    assert_eq!(rt;
        runs(alloc, &mut spawner, b"/bin/sh", b"kill -9 $$"),
        Err(SpawnFault::Failed)
    );
    assert_eq!(rt;
        runs(alloc, &mut spawner, b"/no/such/program", b""),
        Err(SpawnFault::Failed)
    );
    assert_eq!(rt;
        runs(alloc, &mut spawner, b"/bin/sh", b"\xff"),
        Err(SpawnFault::Failed)
    );
    assert_eq!(rt; spawner.wait(2), Err(SpawnFault::Failed));
    assert_eq!(rt; runs(alloc, &mut spawner, b"/bin/sh", b":"), Ok(0));
    assert_eq!(rt; spawner.faults(), 4);
    Ok(())
}

#[test]
fn an_opener_gives_one_link_with_what_comes(rt: HostRuntime) -> Result<(), Fail> {
    let alloc = rt.alloc();
    let mut coming = VecDeque::new(alloc);
    coming.push_back((2, Bytes::from_vec(Vec::from_slice(alloc, &[7])?)))?;
    let none = Lengths::new(alloc);
    let mut opener = MemOpener::new(
        alloc,
        coming,
        calls(alloc, &[1])?,
        none,
        calls(alloc, &[1])?,
    );
    let seat = Seat {
        node: 0,
        n: 3,
        port: 7910,
    };
    assert!(rt; opener.connect(seat).is_err());
    let mut link = opener.connect(seat)?;
    assert_eq!(rt; link.send(1, &[5]), Err(LinkFault::Failed));
    let first = match link.recv() {
        Ok((from, body)) => from == 2 && body.as_slice() == [7].as_slice(),
        Err(_) => false,
    };
    assert!(rt; first);
    assert!(rt; opener.connect(seat)?.recv().is_err());
    Ok(())
}
