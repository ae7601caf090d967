use hpx_cache::cache::Cache;
use hpx_value::gid::Gid;
use std::process::Abort;
use std::test::Fail;

// What is remembered, as a plain list of numbers and places, the latest first.
#[derive(Drop)]
struct Plain {
    lines: Vec<(u64, u32)>,
    size: usize,
}

impl Plain {
    // Takes the line of a number out.
    fn take(&mut self, number: u64) -> Option<u32> {
        for i in 0..self.lines.len() {
            if let Some(line) = self.lines.get(i).copied() {
                if line.0 == number {
                    self.lines.remove(i);
                    return Some(line.1);
                }
            }
        }
        None
    }

    // The place in the line of a number.
    fn place(&self, number: u64) -> Option<u32> {
        for line in &self.lines {
            if line.0 == number {
                return Some(line.1);
            }
        }
        None
    }

    // Puts a line first.
    fn put(&mut self, number: u64, place: u32) -> Result<(), Fail> {
        self.lines.insert(0, (number, place))?;
        self.lines.truncate(self.size);
        Ok(())
    }
}

fn next(x: u64) -> u64 {
    x.wrapping_mul(6364136223846793005)
        .wrapping_add(1442695040888963407)
}

// An id of the object, with one credit or another.
fn object(number: u64, draw: u64) -> Gid {
    Gid::new(2, 17, 1 + number % 7).with_log((draw % 32) as u8)
}

fn step(rt: &impl Abort, cache: &mut Cache, plain: &mut Plain, draw: u64) -> Result<(), Fail> {
    let number = draw / 8 % 7;
    let place = (draw / 64 % 5) as u32;
    let gid = object(number, draw / 512);
    if draw % 8 < 4 {
        cache.learn(gid, place)?;
        plain.take(number);
        plain.put(number, place)?;
    } else if draw % 8 < 7 {
        let expected = plain.take(number);
        if let Some(place) = expected {
            plain.put(number, place)?;
        }
        assert_eq!(rt; cache.look(gid), expected);
    } else {
        cache.forget(gid);
        plain.take(number);
    }
    assert_eq!(rt; cache.len(), plain.lines.len());
    assert_eq!(rt; cache.is_empty(), plain.lines.is_empty());
    Ok(())
}

#[test]
fn drawn_calls_keep_a_plain_list(rt: HostRuntime) -> Result<(), Fail> {
    let mut cache = Cache::new(rt.alloc(), 4)?;
    let mut plain = Plain {
        lines: Vec::new(rt.alloc()),
        size: 4,
    };
    let mut x = 1;
    for _ in 0..500 {
        x = next(x);
        step(&rt, &mut cache, &mut plain, x >> 20)?;
    }
    for number in 0..7 {
        assert_eq!(rt; cache.look(object(number, number)), plain.place(number));
    }
    Ok(())
}

#[test]
fn the_entry_not_used_for_longest_leaves(rt: HostRuntime) -> Result<(), Fail> {
    let mut cache = Cache::new(rt.alloc(), 2)?;
    cache.learn(object(1, 0), 10)?;
    cache.learn(object(2, 1), 20)?;
    assert_eq!(rt; cache.look(object(1, 2)), Some(10));
    cache.learn(object(3, 3), 30)?;
    assert_eq!(rt; cache.look(object(2, 4)), None);
    assert_eq!(rt; cache.look(object(1, 5)), Some(10));
    assert_eq!(rt; cache.look(object(3, 6).bare()), Some(30));
    Ok(())
}
