//! Bodies in a stream of bytes: each behind its length.
ghost use Rattle.std.specs.Prelude.{◌≡◌, ◌≤◌, ◌<◌, ◌↔◌, [], IsTrue, take, length, IfOk, IfSome};
ghost use Rattle.std.specs.Int.{w32, to_be_bytes};
ghost use Rattle.hpx_ports.specs.Told.{preceded};
ghost use Rattle.hpx_tcp.specs.Bodies.{IsBody, Comes, framed};

use hpx_ports::link::LinkFault;
use hpx_ports::source::Source;
use hpx_value::items::Bytes;
use hpx_value::memory::OutOfMemory;
use std::alloc::Global;

/// The most bytes of a body.
pub const MOST: usize = 65_536;

/// Whether bytes can be a body.
pub fn is_body(body: &[u8]) -> bool
    ensures { IsTrue result ↔ IsBody body.now }
{
    !body.is_empty() && body.len() <= MOST
}

/// A body behind its length, as it is written.
pub fn framed(alloc: Global, body: &[u8]) -> Result<Bytes, OutOfMemory>
    requires { IsBody body.now }
    ensures { IfOk result (λ bytes. bytes ≡ framed body.now) }
{
    let head = (body.len() as u32).to_be_bytes();
    let mut bytes = Vec::from_slice(alloc, &head)?;
    bytes.extend_from_slice(body)?;
    Ok(Bytes::from_vec(bytes))
}

/// Reads until the buffer is full or the bytes end, and answers how many were read.
fn fill<S: Source>(source: &mut S, buf: &mut [u8]) -> Result<usize, LinkFault>
    ensures fits { IfOk result (λ n. n ≤ length buf.new) }
    ensures next { IfOk result (λ n. S.left source.old ≡ preceded (take n buf.new) (S.left source.new)) }
    ensures at_end { IfOk result (λ n. n < length buf.new → IfSome (S.left source.new) (λ xs. xs ≡ [])) }
{
    let mut done = 0;
    while done < buf.len() {
        match source.read(&mut buf[done..]) {
            Ok(0) => return Ok(done),
            Ok(count) => done += count,
            Err(_) => return Err(LinkFault::Failed),
        }
    }
    Ok(done)
}

/// The number that four bytes spell.
fn length_of(head: [u8; 4]) -> u32
    ensures { to_be_bytes w32 result ≡ head }
{
    let [a, b, c, d] = head;
    u32::from_be_bytes([a, b, c, d])
}

/// So many bytes, to be read into.
fn room(alloc: Global, count: usize) -> Result<Vec<u8>, OutOfMemory>
    ensures { IfOk result (λ bytes. length bytes.items ≡ count) }
{
    Ok(vec![in alloc; 0; count]?)
}

/// The next body; none where the bytes end before it. Bytes that end within a body or its length, and a length of no body, are a fault.
pub fn next_body<S: Source>(alloc: Global, source: &mut S) -> Result<Option<Bytes>, LinkFault>
    ensures { IfOk result (λ body. Comes body (S.left source.old) (S.left source.new)) }
{
    let mut head = [0; 4];
    let count = fill(source, &mut head)?;
    if count == 0 {
        return Ok(None);
    }
    let length = length_of(head) as usize;
    if count < 4 || length == 0 || length > MOST {
        return Err(LinkFault::Failed);
    }
    let mut body = room(alloc, length)?;
    if fill(source, body.as_mut_slice())? < length {
        return Err(LinkFault::Failed);
    }
    Ok(Some(Bytes::from_vec(body)))
}
