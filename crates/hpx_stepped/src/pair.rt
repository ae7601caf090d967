//! Two localities, and the frames between them.
use crate::site::Site;
use hpx_node::parts::TakeFault;
use hpx_value::items::Bytes;
use hpx_value::memory::OutOfMemory;
use std::alloc::Global;

/// The locality of the session, and the home of the number.
#[derive(Drop)]
pub struct Pair {
    pub first: Site,
    pub second: Site,
}

/// What became of a frame.
#[derive(Drop)]
pub enum Carried {
    /// There was none.
    None,
    /// It was taken.
    Taken(Bytes),
    /// It was refused.
    Refused(TakeFault),
}

/// Carries a frame from one to the other, if there is one.
fn carry(alloc: Global, from: &mut Site, to: &mut Site) -> Result<Carried, OutOfMemory> {
    let Some(frame) = from.send(alloc)? else {
        return Ok(Carried::None);
    };
    match to.take(alloc, &frame) {
        Ok(()) => Ok(Carried::Taken(frame)),
        Err(fault) => Ok(Carried::Refused(fault)),
    }
}

impl Pair {
    /// Both at boot.
    pub fn boot(alloc: Global, credit_limit: u128) -> Result<Pair, OutOfMemory> {
        Ok(Pair {
            first: Site::boot(alloc, 0, credit_limit)?,
            second: Site::boot(alloc, 1, credit_limit)?,
        })
    }

    /// Carries a frame from one of them.
    pub fn carry(&mut self, alloc: Global, second: bool) -> Result<Carried, OutOfMemory> {
        if second {
            carry(alloc, &mut self.second, &mut self.first)
        } else {
            carry(alloc, &mut self.first, &mut self.second)
        }
    }

    /// Each does one thing of each sort.
    fn turn(&mut self, alloc: Global) -> Result<(), OutOfMemory> {
        self.first.run(alloc)?;
        self.second.run(alloc)?;
        let _ = self.first.desk(alloc);
        let _ = self.second.desk(alloc);
        self.carry(alloc, false)?;
        self.carry(alloc, true)?;
        Ok(())
    }

    /// All is done that there is to do, if that is little.
    pub fn settle(&mut self, alloc: Global) -> Result<(), OutOfMemory> {
        for _ in 0..40 {
            self.turn(alloc)?;
        }
        Ok(())
    }

    /// A line is fed, and all is done that follows.
    pub fn line(&mut self, alloc: Global, byte: u8) -> Result<(), OutOfMemory> {
        self.first.feed(alloc, byte)?;
        self.settle(alloc)
    }

    /// So many lines that call the number.
    pub fn calls(&mut self, alloc: Global, times: u128) -> Result<(), OutOfMemory> {
        for _ in 0..times {
            self.line(alloc, b'a')?;
        }
        Ok(())
    }

    /// So many of them, each of whose calls goes to the number and is not run there.
    pub fn rush(&mut self, alloc: Global, times: u128) -> Result<(), OutOfMemory> {
        for _ in 0..times {
            self.first.feed(alloc, b'a')?;
            self.first.run(alloc)?;
            self.carry(alloc, false)?;
        }
        Ok(())
    }
}
