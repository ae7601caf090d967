use hpx_ports::link::LinkFault;
use hpx_ports::memory_source::{MemSource, SureSource};
use hpx_tcp::body::{framed, next_body};
use hpx_tcp::hello::{greeted, hello, speaker};
use hpx_value::items::{Bytes, Lengths};
use std::alloc::{AllocError, Global};
use std::test::Fail;

fn bytes(alloc: Global, text: &[u8]) -> Result<Bytes, AllocError> {
    Ok(Bytes::from_vec(Vec::from_slice(alloc, text)?))
}

// How long the next body is; 0 at the end.
fn length(alloc: Global, source: &mut SureSource) -> Result<usize, LinkFault> {
    match next_body(alloc, source)? {
        Some(body) => Ok(body.len()),
        None => Ok(0),
    }
}

#[test]
fn bodies_come_one_after_another(rt: HostRuntime) -> Result<(), Fail> {
    let alloc = rt.alloc();
    assert_eq!(rt;
        framed(alloc, b"ab")?.as_slice(),
        b"\0\0\0\x02ab".as_slice()
    );
    let mut source = SureSource::new(bytes(alloc, b"\0\0\0\x02ab\0\0\0\x01c")?);
    assert_eq!(rt; length(alloc, &mut source), Ok(2));
    assert_eq!(rt; length(alloc, &mut source), Ok(1));
    assert_eq!(rt; length(alloc, &mut source), Ok(0));
    Ok(())
}

#[test]
fn what_is_no_body_is_a_fault(rt: HostRuntime) -> Result<(), Fail> {
    let alloc = rt.alloc();
    let bad: [&[u8]; 4] = [b"\0\0\0", b"\0\0\0\0", b"\0\x01\0\x01a", b"\0\0\0\x02a"];
    for text in bad {
        let mut source = SureSource::new(bytes(alloc, text)?);
        assert_eq!(rt; length(alloc, &mut source), Err(LinkFault::Failed));
    }
    let reads = Lengths::from_vec(Vec::from_slice(alloc, &[2])?);
    let mut source = MemSource::new(bytes(alloc, b"\0\0\0\x02ab")?, reads);
    assert!(rt; next_body(alloc, &mut source).is_err());
    Ok(())
}

#[test]
fn hellos_say_who_speaks(rt: HostRuntime) -> Result<(), Fail> {
    let alloc = rt.alloc();
    assert_eq!(rt; hello(2, 1), [0xf3, 0, 2, 0, 1]);
    assert_eq!(rt; speaker(2, &[0xf3, 0, 2, 0, 1]), Some(1));
    let strange: [&[u8]; 4] = [
        b"\xf3\0\x03\0\x01",
        b"\xf3\0\x02\0\x02",
        b"\xf2\0\x02\0\x01",
        b"\xf3\0\x02\0",
    ];
    for body in strange {
        assert_eq!(rt; speaker(2, body), None);
    }
    let mut source = SureSource::new(bytes(alloc, b"\0\0\0\x05\xf3\0\x02\0\x01")?);
    assert_eq!(rt; greeted(alloc, &mut source, 2), Ok(1));
    assert_eq!(rt; greeted(alloc, &mut source, 2), Err(LinkFault::Failed));
    Ok(())
}
