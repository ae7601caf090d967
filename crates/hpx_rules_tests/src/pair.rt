//! Two localities, step by step as a script says.
use crate::given::given;
use hpx_node::parts::TakeFault;
use hpx_stepped::pair::Pair;
use hpx_stepped::site::{Seen, Site, Told};
use hpx_value::gid::Gid;
use hpx_value::items::Bytes;
use hpx_value::memory::OutOfMemory;
use std::alloc::Global;

/// The greatest count of a record, which no scene comes near.
const LIMIT: u128 = 4611686018427387904;

/// Runs the next job of a locality, if there is one.
fn run(alloc: Global, site: &mut Site) -> Result<(), OutOfMemory> {
    site.run(alloc)?;
    Ok(())
}

/// Carries a frame from one to the other, if there is one. It has to be accepted.
fn carry(alloc: Global, from: &mut Site, to: &mut Site) -> Result<(), OutOfMemory> {
    match from.send(alloc)? {
        Some(frame) => match to.take(alloc, &frame) {
            Ok(()) => Ok(()),
            Err(_) => Err(OutOfMemory),
        },
        None => Ok(()),
    }
}

/// The next job of a locality, if there is one, is taken out and never done.
fn hold(alloc: Global, site: &mut Site) -> Result<(), OutOfMemory> {
    site.fire(alloc)?;
    Ok(())
}

/// The first message of a locality goes, if there is one, and is lost.
fn lose(alloc: Global, site: &mut Site) -> Result<(), OutOfMemory> {
    site.send(alloc)?;
    Ok(())
}

/// A frame comes from outside. It has to be accepted.
fn bring(alloc: Global, pair: &mut Pair, letter: u8) -> Result<(), OutOfMemory> {
    let (second, frame) = given(alloc, letter)?;
    match take(alloc, pair, second, &frame) {
        Ok(()) => Ok(()),
        Err(_) => Err(OutOfMemory),
    }
}

/// A locality tends to its desk once.
fn tend(alloc: Global, site: &mut Site) -> Result<(), OutOfMemory> {
    match site.desk(alloc) {
        Ok(_) => Ok(()),
        Err(_) => Err(OutOfMemory),
    }
}

/// One step: `0` and `1` run a job there, `2` and `3` take one out, `x` and `y` carry a frame to the home and back, `w` loses one of the
/// home, `u` and `v` tend to a desk, a capital brings a frame from outside; any other byte is a line.
fn step(alloc: Global, pair: &mut Pair, byte: u8) -> Result<(), OutOfMemory> {
    match byte {
        b'0' => run(alloc, &mut pair.first),
        b'1' => run(alloc, &mut pair.second),
        b'2' => hold(alloc, &mut pair.first),
        b'3' => hold(alloc, &mut pair.second),
        b'x' => carry(alloc, &mut pair.first, &mut pair.second),
        b'y' => carry(alloc, &mut pair.second, &mut pair.first),
        b'w' => lose(alloc, &mut pair.second),
        b'u' => tend(alloc, &mut pair.first),
        b'v' => tend(alloc, &mut pair.second),
        b'A'..=b'Z' => bring(alloc, pair, byte),
        line => pair.first.feed(alloc, line),
    }
}

/// Both, at boot. A new object has the credit 256.
pub fn boot(alloc: Global) -> Result<Pair, OutOfMemory> {
    Pair::boot(alloc, LIMIT)
}

/// Both are booted again.
fn renew(alloc: Global, pair: &mut Pair) -> Result<(), OutOfMemory> {
    *pair = boot(alloc)?;
    Ok(())
}

/// Both are booted again, and make the steps of a script.
pub fn play(alloc: Global, pair: &mut Pair, script: &[u8]) -> Result<(), OutOfMemory> {
    renew(alloc, pair)?;
    for i in 0..script.len() {
        step(alloc, pair, script[i])?;
    }
    Ok(())
}

/// All that is seen of a locality, and of each object.
#[derive(Clone, Copy, PartialEq, Eq)]
pub struct Whole {
    pub seen: Seen,
    pub one: Told,
    pub two: Told,
    pub three: Told,
}

/// All that is seen of a locality.
fn all_of(site: &Site) -> Whole {
    Whole {
        seen: site.seen(),
        one: site.told(Gid::new(1, 16, 1)),
        two: site.told(Gid::new(1, 16, 2)),
        three: site.told(Gid::new(1, 16, 3)),
    }
}

/// All that is seen of one of the two.
pub fn seen(pair: &Pair, second: bool) -> Whole {
    if second {
        all_of(&pair.second)
    } else {
        all_of(&pair.first)
    }
}

/// The number is asked for, and all is done that is left to do, but for what is refused.
pub fn end(alloc: Global, pair: &mut Pair) -> Result<(), OutOfMemory> {
    pair.line(alloc, b'q')?;
    Ok(())
}

/// One of the two takes a frame, or refuses it.
pub fn take(alloc: Global, pair: &mut Pair, second: bool, frame: &Bytes) -> Result<(), TakeFault> {
    if second {
        pair.second.take(alloc, frame)
    } else {
        pair.first.take(alloc, frame)
    }
}
