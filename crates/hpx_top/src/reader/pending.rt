//! Bytes that were read and not yet handed out.
ghost use Rattle.std.specs.Prelude.{◌≡◌, ◌+◌, ◌<◌, ◌≤◌, ◌^◌, [], IfOk, IfSome, IfNone, OnErr, IsErrOf, length, drop};
ghost use Rattle.hpx_ports.specs.Faults.{Rose};
ghost use Rattle.hpx_ports.specs.Told.{preceded};
ghost use Rattle.app_console.specs.Lines.{IsPiece};
ghost use Rattle.hpx_top.specs.Pending.{IsNewlineAt, ReadsOnto};

use super::ReadFault;
use hpx_ports::source::Source;
use std::alloc::Global;
use std::marker::Model;

/// Bytes that were read and not yet handed out.
#[derive(Drop)]
pub struct Pending {
    bytes: Vec<u8>,
    /// Where they start: those before were handed out.
    start: usize,
    /// How many of them, from the first on, are known to be no newlines.
    clear: usize,
}

impl Model for Pending {
    ghost use Rattle.std.specs.Prelude.{ℕ, List, drop};
    ghost use Rattle.hpx_top.specs.Pending.{IsSearched};

    ghost Value = { List ℕ };

    ghost view = { λ p. drop p.start p.bytes.items };

    ghost invariant = { λ p. IsSearched p.bytes.items p.start p.clear };
}

impl Pending {
    /// None, which takes no memory.
    pub fn new(alloc: Global) -> Pending
        ensures { result ≡ [] }
    {
        Pending {
            bytes: Vec::new(alloc),
            start: 0,
            clear: 0,
        }
    }

    /// The bytes, to be looked at.
    pub fn as_slice(&self) -> &[u8]
        ensures { result.now ≡ self.now }
    {
        &self.bytes[self.start..]
    }

    /// Where the first newline is. Bytes that were looked at are not looked at again.
    pub fn first_newline(&mut self) -> Option<usize>
        ensures some { IfSome result (λ n. IsNewlineAt self.old n) }
        ensures fits { IfSome result (λ n. n < 2 ^ 63) }
        ensures none { IfNone result (IsPiece self.old) }
        ensures same { self.new ≡ self.old }
    {
        match newline_in(&self.bytes[self.start + self.clear..]) {
            Some(n) => {
                self.clear += n;
                Some(self.clear)
            }
            None => {
                self.clear = self.bytes.len() - self.start;
                None
            }
        }
    }

    /// The first bytes were handed out.
    pub fn skip(&mut self, count: usize)
        requires { count ≤ length self.old }
        ensures { self.new ≡ drop count self.old }
    {
        self.start += count;
        self.clear = 0;
    }

    /// Reads some bytes behind the others, and answers how many.
    pub fn read_from<S: Source>(&mut self, source: &mut S, most: usize) -> Result<usize, ReadFault>
        requires some { 0 < most }
        requires few { most ≤ 4096 }
        ensures ok { IfOk result (λ n. ReadsOnto n self.old self.new (S.left source.old) (S.left source.new)) }
        ensures few { IfOk result (λ n. n ≤ most) }
        ensures taken { IfOk result (λ n. S.taken source.new ≡ S.taken source.old + n) }
        ensures err { OnErr result (self.new ≡ self.old) }
        ensures left_err { OnErr result (S.left source.new ≡ S.left source.old) }
        ensures taken_err { OnErr result (S.taken source.new ≡ S.taken source.old) }
        ensures cause { IsErrOf result ReadFault.Failed → Rose (S.faults source.old) (S.faults source.new) }
        ensures stands { (IsErrOf result ReadFault.Failed → ⊥) → S.faults source.new ≡ S.faults source.old }
    {
        self.compact();
        read_onto(&mut self.bytes, source, most)
    }

    /// Lets go of the bytes that were handed out.
    fn compact(&mut self)
        ensures { self.new ≡ self.old }
    {
        self.bytes.drain(..self.start);
        self.start = 0;
    }
}

/// Reads some bytes onto the end of others, and answers how many.
fn read_onto<S: Source>(
    bytes: &mut Vec<u8>,
    source: &mut S,
    most: usize,
) -> Result<usize, ReadFault>
    requires some { 0 < most }
    requires few { most ≤ 4096 }
    ensures ok { IfOk result (λ n. ReadsOnto n bytes.old.items bytes.new.items (S.left source.old) (S.left source.new)) }
    ensures few { IfOk result (λ n. n ≤ most) }
    ensures taken { IfOk result (λ n. S.taken source.new ≡ S.taken source.old + n) }
    ensures err { OnErr result (bytes.new.items ≡ bytes.old.items) }
    ensures left_err { OnErr result (S.left source.new ≡ S.left source.old) }
    ensures taken_err { OnErr result (S.taken source.new ≡ S.taken source.old) }
    ensures cause { IsErrOf result ReadFault.Failed → Rose (S.faults source.old) (S.faults source.new) }
    ensures stands { (IsErrOf result ReadFault.Failed → ⊥) → S.faults source.new ≡ S.faults source.old }
{
    let len = bytes.len();
    bytes.resize(len + most, 0)?;
    match source.read(&mut bytes[len..]) {
        Ok(count) => {
            bytes.truncate(len + count);
            Ok(count)
        }
        Err(error) => {
            bytes.truncate(len);
            Err(ReadFault::from(error))
        }
    }
}

/// Where the first newline is.
fn newline_in(bytes: &[u8]) -> Option<usize>
    ensures some { IfSome result (λ n. IsNewlineAt bytes.now n) }
    ensures none { IfNone result (IsPiece bytes.now) }
{
    for (i, b) in bytes.iter().enumerate() {
        if *b == b'\n' {
            return Some(i);
        }
    }
    None
}
