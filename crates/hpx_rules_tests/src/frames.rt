//! Frames made from numbers: of all ten kinds, right ones and wrong ones.
use hpx_value::items::{Bytes, Items};
use hpx_value::memory::OutOfMemory;
use std::alloc::Global;

/// Numbers that follow one from another.
#[derive(Drop)]
pub struct Numbers {
    last: u64,
}

impl Numbers {
    pub fn new(first: u64) -> Numbers {
        Numbers { last: first }
    }

    /// The next number, of 32 bits.
    fn next(&mut self) -> u32 {
        self.last = self
            .last
            .wrapping_mul(6364136223846793005)
            .wrapping_add(1442695040888963407);
        (self.last >> 33u32) as u32
    }

    /// A number below n, or 0.
    pub fn below(&mut self, n: u32) -> u32 {
        self.next().checked_rem(n).unwrap_or(0)
    }

    /// One of these; 0 where there is none.
    fn one_of(&mut self, items: &[u32]) -> u32 {
        let n = u32::try_from(items.len()).unwrap_or(0);
        match items.get(self.below(n) as usize) {
            Some(item) => *item,
            None => 0,
        }
    }
}

/// The bytes of a frame that is made.
#[derive(Drop)]
struct Spelled {
    bytes: Vec<u8>,
}

impl Spelled {
    /// The last bytes of a number, so many of them, the greatest first.
    fn number(&mut self, number: u64, bytes: u32) -> Result<(), OutOfMemory> {
        for i in 0..bytes {
            let shift = (bytes - 1 - i).saturating_mul(8);
            self.bytes
                .push((number.checked_shr(shift).unwrap_or(0) & 255) as u8)?;
        }
        Ok(())
    }

    /// An id: home, kind, number, and a log or none.
    fn id(&mut self, home: u32, kind: u32, number: u32, log: u32) -> Result<(), OutOfMemory> {
        let credit = if log > 31 {
            0
        } else {
            0x4000_0000 | (log << 24u32)
        };
        self.number(u64::from(home.wrapping_add(1)), 4)?;
        self.number(u64::from(kind.wrapping_mul(2).wrapping_add(1) | credit), 4)?;
        self.number(u64::from(number), 8)
    }

    /// The id of a managed object; often that of the number, and seldom without credit.
    fn managed(&mut self, numbers: &mut Numbers, log: u32) -> Result<(), OutOfMemory> {
        match numbers.below(12) {
            0 => self.id(0, 16, 1, log),
            1 => self.id(2, 16, 1, log),
            2 | 3 | 4 => self.id(1, 16, 2, log),
            5 | 6 | 7 => self.id(1, 16, 3, log),
            _ => self.id(1, 16, 1, log),
        }
    }

    /// The target of an action that may be a root.
    fn target(&mut self, numbers: &mut Numbers) -> Result<(), OutOfMemory> {
        let there = numbers.below(3);
        match numbers.below(8) {
            0 => self.id(there, 1, 1, 99),
            1 => self.id(there, 3, 1, 99),
            2 => self.id(there, 6, 1, 99),
            _ => {
                let log = numbers.one_of(&[0, 3, 6, 7, 99]);
                self.managed(numbers, log)
            }
        }
    }

    /// Where an action is from, and its number there.
    fn name(&mut self, numbers: &mut Numbers) -> Result<(), OutOfMemory> {
        let origin = numbers.one_of(&[0, 0, 0, 1, 1, 1, 2]);
        self.number(u64::from(origin), 2)?;
        self.number(u64::from(numbers.below(50).saturating_add(1000)), 8)
    }

    /// An action that is no MOVE: ADD 5, QUERY, or one that nobody lists, with an id.
    fn action(&mut self, numbers: &mut Numbers) -> Result<(), OutOfMemory> {
        self.name(numbers)?;
        self.target(numbers)?;
        match numbers.below(3) {
            0 => {
                self.number(16, 2)?;
                self.number(1, 2)?;
                self.number(2, 1)?;
                self.number(5, 8)?;
            }
            1 => {
                self.number(17, 2)?;
                self.number(0, 2)?;
            }
            _ => {
                self.number(40, 2)?;
                self.number(1, 2)?;
                self.number(4, 1)?;
                self.target(numbers)?;
            }
        }
        self.continuation(numbers)
    }

    /// A MOVE.
    fn moving(&mut self, numbers: &mut Numbers) -> Result<(), OutOfMemory> {
        self.name(numbers)?;
        let log = numbers.one_of(&[0, 3, 6, 7, 8, 99]);
        self.managed(numbers, log)?;
        self.number(1, 2)?;
        self.number(1, 2)?;
        self.number(2, 1)?;
        let to = numbers.one_of(&[0, 0, 1, 1, 2, 64]);
        self.number(u64::from(to), 8)?;
        self.continuation(numbers)
    }

    /// Where the answer goes, in one action of four.
    fn continuation(&mut self, numbers: &mut Numbers) -> Result<(), OutOfMemory> {
        if numbers.below(4) > 0 {
            return self.number(0, 1);
        }
        self.number(1, 1)?;
        self.target(numbers)?;
        self.number(u64::from(numbers.below(9)), 4)
    }

    /// The state of an object: none, or a number, an id and a continuation.
    fn state(&mut self, numbers: &mut Numbers) -> Result<(), OutOfMemory> {
        self.number(2, 4)?;
        if numbers.below(2) == 0 {
            return self.number(0, 4);
        }
        self.number(2, 2)?;
        self.number(2, 1)?;
        self.number(7, 8)?;
        self.number(4, 1)?;
        self.target(numbers)?;
        self.number(1, 2)?;
        self.target(numbers)?;
        self.number(4, 4)
    }

    /// The fields of a message that brings credit home, or asks for it.
    fn credit(&mut self, numbers: &mut Numbers, kind: u32) -> Result<(), OutOfMemory> {
        let log = if kind == 3 {
            numbers.one_of(&[0, 0, 0, 1])
        } else {
            numbers.one_of(&[0, 1, 6, 7, 8, 8, 9, 30, 99])
        };
        self.managed(numbers, log)?;
        let place = numbers.one_of(&[0, 0, 1, 1, 2]);
        let entry = numbers.one_of(&[0, 1, 1, 2]);
        match kind {
            3 => {
                self.number(u64::from(place), 2)?;
                self.number(u64::from(entry), 8)
            }
            4 => self.number(u64::from(entry), 8),
            9 => self.number(u64::from(place), 2),
            _ => Ok(()),
        }
    }

    /// The fields of a message of a kind.
    fn fields(&mut self, numbers: &mut Numbers, kind: u32) -> Result<(), OutOfMemory> {
        match kind {
            1 => self.action(numbers),
            5 => {
                let log = numbers.one_of(&[99, 99, 99, 8]);
                self.managed(numbers, log)?;
                let place = numbers.below(3);
                self.number(u64::from(place), 2)
            }
            6 | 7 => self.moving(numbers),
            8 => {
                self.moving(numbers)?;
                self.state(numbers)
            }
            10 => {
                let log = numbers.one_of(&[99, 99, 99, 8]);
                self.managed(numbers, log)
            }
            _ => self.credit(numbers, kind),
        }
    }

    /// One byte is another one, or the last bytes are missing, or there is one more.
    fn spoil(&mut self, numbers: &mut Numbers) -> Result<(), OutOfMemory> {
        let len = u32::try_from(self.bytes.len()).unwrap_or(0);
        let at = numbers.below(len) as usize;
        let byte = u8::try_from(numbers.below(256)).unwrap_or(0);
        match numbers.below(4) {
            0 => self.bytes.truncate(at),
            1 => self.bytes.push(byte)?,
            _ => {
                if let Some(old) = self.bytes.get_mut(at) {
                    *old = byte;
                }
            }
        }
        Ok(())
    }
}

/// The frame that follows.
pub fn made(alloc: Global, numbers: &mut Numbers) -> Result<Bytes, OutOfMemory> {
    let mut spelled = Spelled {
        bytes: Vec::new(alloc),
    };
    let kind = numbers.below(10).saturating_add(1);
    spelled.number(1, 1)?;
    spelled.number(u64::from(kind), 1)?;
    spelled.fields(numbers, kind)?;
    if numbers.below(5) == 0 {
        spelled.spoil(numbers)?;
    }
    Ok(Items::from_vec(spelled.bytes))
}
