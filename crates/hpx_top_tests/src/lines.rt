//! Lines of an input, from sources that give them in pieces.
use hpx_ports::adapters::ReaderSource;
use hpx_ports::memory_source::{MemSource, SureSource};
use hpx_ports::source::Source;
use hpx_top::reader::{LineReader, Next, ReadFault};
use hpx_value::items::{Bytes, Lengths};
use std::alloc::{AllocError, Global};
use std::io;
use std::io::Read;
use std::test::Fail;

fn bytes(alloc: Global, text: &[u8]) -> Result<Bytes, AllocError> {
    Ok(Bytes::from_vec(Vec::from_slice(alloc, text)?))
}

// The answers up to the end, three hundred at most, each with a bar behind it.
fn answers<S: Source>(alloc: Global, source: &mut S) -> Result<Vec<u8>, AllocError> {
    let mut reader = LineReader::new(alloc);
    let mut text = Vec::new(alloc);
    for _ in 0..300 {
        match reader.next_line(alloc, source) {
            Ok(Next::Line(line)) => text.extend_from_slice(line.as_slice())?,
            Ok(Next::Long) => text.extend_from_slice(b"LONG")?,
            Ok(Next::Quit) => text.extend_from_slice(b"QUIT")?,
            Ok(Next::Full) => text.extend_from_slice(b"FULL")?,
            Err(ReadFault::Failed) => text.extend_from_slice(b"FAILED")?,
            Err(ReadFault::OutOfMemory) => return Err(AllocError),
            Ok(Next::End) => {
                text.extend_from_slice(b"END")?;
                return Ok(text);
            }
        }
        text.extend_from_slice(b"|")?;
    }
    Ok(text)
}

fn answers_to(alloc: Global, text: &[u8]) -> Result<Vec<u8>, AllocError> {
    answers(alloc, &mut SureSource::new(bytes(alloc, text)?))
}

#[test]
fn lines_are_split_as_they_stand(rt: HostRuntime) -> Result<(), Fail> {
    let alloc = rt.alloc();
    for (text, want) in [
        (b"".as_slice(), b"END".as_slice()),
        (b"\n", b"|END"),
        (b"a\n", b"a|END"),
        (b"a", b"a|END"),
        (b"add 1\r\n\nquery\nlast", b"add 1||query|last|END"),
        (b"a\r\r\nb\rc\n\r", b"a\r|b\rc||END"),
        (
            b"a\n quit\t\r\nb\nquit now\nquit",
            b"a|QUIT|b|quit now|QUIT|END",
        ),
    ] {
        assert_eq!(rt; answers_to(alloc, text)?.as_slice(), want);
    }
    Ok(())
}

#[test]
fn reads_may_cut_lines_anywhere(rt: HostRuntime) -> Result<(), Fail> {
    let alloc = rt.alloc();
    let want = b"add 1||query|last|END".as_slice();
    let pieces = b"add 1\r"
        .as_slice()
        .chain(b"\n\nque".as_slice())
        .chain(b"ry\nlast".as_slice());
    assert_eq!(rt;
        answers(alloc, &mut ReaderSource::new(pieces))?.as_slice(),
        want
    );
    let pieces = b"a"
        .as_slice()
        .chain(b"dd 1\r\n\n".as_slice())
        .chain(b"query".as_slice())
        .chain(b"\n".as_slice())
        .chain(b"las".as_slice())
        .chain(b"t".as_slice());
    assert_eq!(rt;
        answers(alloc, &mut ReaderSource::new(pieces))?.as_slice(),
        want
    );
    Ok(())
}

#[test]
fn many_lines_come_in_order(rt: HostRuntime) -> Result<(), Fail> {
    let alloc = rt.alloc();
    let (mut text, mut want) = (Vec::new(alloc), Vec::new(alloc));
    for i in 0_u8..250 {
        let line = [b'0' + i % 10; 61];
        text.extend_from_slice(&line)?;
        text.extend_from_slice(b"\r\n")?;
        want.extend_from_slice(&line)?;
        want.extend_from_slice(b"|")?;
    }
    want.extend_from_slice(b"END")?;
    assert_eq!(rt; answers_to(alloc, text.as_slice())?, want);
    Ok(())
}

#[test]
fn a_line_has_1024_bytes_at_most(rt: HostRuntime) -> Result<(), Fail> {
    let alloc = rt.alloc();
    let mut text = Vec::new(alloc);
    for (count, end) in [
        (1024, b"\r\n".as_slice()),
        (1025, b"\n"),
        (5000, b"\n"),
        (1025, b""),
    ] {
        text.resize(text.len().saturating_add(count), b'x')?;
        text.extend_from_slice(end)?;
    }
    let mut want = vec![in alloc; b'x'; 1024]?;
    want.extend_from_slice(b"|LONG|LONG|LONG|END")?;
    assert_eq!(rt; answers_to(alloc, text.as_slice())?, want);
    Ok(())
}

#[test]
fn a_failed_read_loses_nothing(rt: HostRuntime) -> Result<(), Fail> {
    let alloc = rt.alloc();
    let calls = Lengths::from_vec(Vec::from_slice(alloc, &[1, 3])?);
    let mut source = MemSource::new(bytes(alloc, b"a\nb")?, calls);
    assert_eq!(rt;
        answers(alloc, &mut source)?.as_slice(),
        b"FAILED|a|FAILED|b|END".as_slice()
    );
    assert_eq!(rt; source.faults(), 2);
    Ok(())
}

#[test]
fn no_more_is_read_at_the_limit(rt: HostRuntime) -> Result<(), Fail> {
    let alloc = rt.alloc();
    let mut source = ReaderSource::new(io::repeat(b'x'));
    let mut reader = LineReader::new(alloc);
    for _ in 0..2 {
        let is_full = matches!(reader.next_line(alloc, &mut source)?, Next::Full);
        assert!(rt; is_full);
        assert_eq!(rt; source.taken(), 67_108_864);
    }
    Ok(())
}

#[test]
fn faults_are_printed(rt: HostRuntime) -> Result<(), Fail> {
    let alloc = rt.alloc();
    let text = format!(in alloc; "{}, {}", ReadFault::Failed, ReadFault::OutOfMemory)?;
    assert_eq!(rt; text.as_str(), "failed, out of memory");
    Ok(())
}
