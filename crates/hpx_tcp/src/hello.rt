//! The first body in each direction.
ghost use Rattle.std.specs.Prelude.{◌≡◌, ◌<◌, ℕ, None, IfOk, IfSome};
ghost use Rattle.hpx_ports.specs.Told.{preceded};
ghost use Rattle.hpx_tcp.specs.Bodies.{framed};
ghost use Rattle.hpx_tcp.specs.Hellos.{hello_of};

use crate::body::next_body;
use hpx_ports::link::LinkFault;
use hpx_ports::source::Source;
use std::alloc::Global;

/// The first byte of a hello.
const HELLO: u8 = 0xf3;

/// One of n members says which one it is.
pub fn hello(n: u16, node: u16) -> [u8; 5]
    ensures { result ≡ hello_of n node }
{
    let [n0, n1] = n.to_be_bytes();
    let [k0, k1] = node.to_be_bytes();
    [HELLO, n0, n1, k0, k1]
}

/// Which of n members speaks, if it says of how many it is one.
pub fn speaker(n: u16, body: &[u8]) -> Option<u16>
    ensures some { IfSome result (λ node. (body.now ≡ hello_of n node) × (node < n)) }
    ensures none { result ≡ None → (node : ℕ) → node < n → body.now ≡ hello_of n node → ⊥ }
{
    let [HELLO, n0, n1, k0, k1] = body else {
        return None;
    };
    let node = u16::from_be_bytes([*k0, *k1]);
    if u16::from_be_bytes([*n0, *n1]) == n && node < n {
        Some(node)
    } else {
        None
    }
}

/// Takes a hello, and answers which of n members speaks. Everything else is a fault.
pub fn greeted<S: Source>(alloc: Global, source: &mut S, n: u16) -> Result<u16, LinkFault>
    ensures said { IfOk result (λ node. S.left source.old ≡ preceded (framed (hello_of n node)) (S.left source.new)) }
    ensures within { IfOk result (λ node. node < n) }
{
    match next_body(alloc, source)? {
        Some(body) => match speaker(n, body.as_slice()) {
            Some(node) => Ok(node),
            None => Err(LinkFault::Failed),
        },
        None => Err(LinkFault::Failed),
    }
}
