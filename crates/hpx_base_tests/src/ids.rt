use hpx_ids::held::{Held, Owner};
use hpx_ids::ids::{Ids, NotAsked};
use hpx_value::exact::Exact;
use hpx_value::gid::Gid;
use hpx_value::items::Keys;
use std::alloc::Global;
use std::process::Abort;
use std::test::Fail;

// What is held, as a plain list.
#[derive(Drop)]
struct Plain {
    lines: Vec<(usize, Held)>,
}

impl Plain {
    // The place of a key, or the length.
    fn place(&self, key: usize) -> usize {
        let mut i = 0;
        for line in &self.lines {
            if line.0 == key {
                return i;
            }
            i = i.wrapping_add(1);
        }
        self.lines.len()
    }

    fn credit(&self, gid: Gid) -> u128 {
        let mut sum = 0u128;
        for line in &self.lines {
            if line.1.gid.bare() == gid.bare() && !line.1.asking {
                match line.1.gid.log() {
                    Some(0) => sum = sum.wrapping_add(1),
                    Some(1) => sum = sum.wrapping_add(2),
                    Some(2) => sum = sum.wrapping_add(4),
                    Some(3) => sum = sum.wrapping_add(8),
                    Some(_) => sum = sum.wrapping_add(1000),
                    None => {}
                }
            }
        }
        sum
    }

    fn keys(&self, alloc: Global, owner: Owner) -> Result<Vec<usize>, Fail> {
        let mut keys = Vec::new(alloc);
        for line in &self.lines {
            if line.1.owner == owner {
                keys.push(line.0)?;
            }
        }
        keys.sort()?;
        Ok(keys)
    }
}

fn next(x: u64) -> u64 {
    x.wrapping_mul(6364136223846793005)
        .wrapping_add(1442695040888963407)
}

fn object(draw: u64) -> Gid {
    Gid::new(1, 16, 1 + draw % 3)
}

fn owner(draw: u64) -> Owner {
    if draw % 3 == 0 {
        Owner::Object(object(draw / 3))
    } else {
        Owner::Action(1, draw % 3)
    }
}

fn adopt(
    rt: &impl Abort,
    alloc: Global,
    ids: &mut Ids,
    plain: &mut Plain,
    draw: u64,
) -> Result<(), Fail> {
    let gid = object(draw).with_log((draw / 8 % 4) as u8);
    ids.reserve(1)?;
    let key = ids.adopt(gid, owner(draw / 32));
    assert_eq!(rt; plain.place(key), plain.lines.len());
    plain.lines.push((
        key,
        Held {
            gid,
            owner: owner(draw / 32),
            asking: false,
        },
    ))?;
    Ok(())
}

// Splits, takes, gives up or asks for the id at a place, if it can be; `what` is from 0 to 3.
fn part(
    rt: &impl Abort,
    ids: &mut Ids,
    plain: &mut Plain,
    place: usize,
    what: u64,
) -> Result<(), Fail> {
    let Some(line) = plain.lines.get_mut(place) else {
        return Ok(());
    };
    let key = line.0;
    let Some((gid, _, asking)) = ids.look(key) else {
        panic!(rt; "no entry {key}");
    };
    assert!(rt; gid == line.1.gid);
    assert_eq!(rt; asking, line.1.asking);
    if asking {
        return Ok(());
    }
    let Some(log) = gid.log() else {
        panic!(rt; "no credit at {key}");
    };
    if what == 0 && log >= 1 {
        let half = gid.bare().with_log(log - 1);
        assert!(rt; ids.split(key) == half);
        line.1.gid = half;
    } else if what == 1 {
        assert!(rt; ids.take_whole(key) == gid);
        plain.lines.remove(place);
    } else if what == 2 {
        assert!(rt; ids.give_up(key) == gid);
        plain.lines.remove(place);
    } else if what == 3 && log == 0 {
        assert!(rt; ids.ask(key) == gid);
        line.1.gid = gid.bare();
        line.1.asking = true;
    }
    Ok(())
}

// Hands in an id for an entry, which may not ask for it.
fn give(
    rt: &impl Abort,
    ids: &mut Ids,
    plain: &mut Plain,
    place: usize,
    draw: u64,
) -> Result<(), Fail> {
    let gid = object(draw).with_log((draw / 8 % 4) as u8);
    let Some(line) = plain.lines.get_mut(place) else {
        assert_eq!(rt; ids.given(1000, gid), Err(NotAsked));
        return Ok(());
    };
    let wanted = line.1.asking && line.1.gid == gid.bare();
    let answer = ids.given(line.0, gid);
    assert_eq!(rt; answer.is_ok(), wanted);
    if wanted {
        line.1.gid = gid;
        line.1.asking = false;
    }
    Ok(())
}

// Puts the id at a place together with the next, where both are the same.
fn join(ids: &mut Ids, plain: &mut Plain, place: usize) -> Result<(), Fail> {
    let next = place.wrapping_add(1);
    let Some(line) = plain.lines.get(place) else {
        return Ok(());
    };
    let key = line.0;
    let Some(line) = plain.lines.get(next) else {
        return Ok(());
    };
    let gone = line.0;
    let Some((gid, _, false)) = ids.look(key) else {
        return Ok(());
    };
    let Some((other, _, false)) = ids.look(gone) else {
        return Ok(());
    };
    let Some(log) = gid.log() else {
        return Ok(());
    };
    if key == gone || !gid.same(&other) || log >= 3 {
        return Ok(());
    }
    ids.merge(key, gone);
    if let Some(line) = plain.lines.get_mut(place) {
        line.1.gid = gid.bare().with_log(log + 1);
    }
    plain.lines.remove(next);
    Ok(())
}

// Whether the table is what the list says.
fn compare(rt: &impl Abort, alloc: Global, ids: &Ids, plain: &Plain) -> Result<(), Fail> {
    for key in 0..40 {
        let shown = match plain.lines.get(plain.place(key)) {
            Some(line) => Some((line.1.gid, line.1.owner, line.1.asking)),
            None => None,
        };
        assert!(rt; ids.look(key) == shown);
    }
    for draw in 0..9 {
        let keys: Keys = ids.of_owner(alloc, owner(draw))?;
        assert!(rt; keys.as_slice() == plain.keys(alloc, owner(draw))?.as_slice());
        assert_eq!(rt; ids.credit_of(object(draw)), plain.credit(object(draw)));
    }
    Ok(())
}

#[test]
fn two_of_one_credit_are_put_together(rt: HostRuntime) -> Result<(), Fail> {
    let mut ids = Ids::new(rt.alloc());
    let gid = Gid::new(1, 16, 1);
    ids.reserve(2)?;
    let first = ids.adopt(gid.with_log(4), owner(0));
    let second = ids.adopt(gid.with_log(4), owner(1));
    ids.merge(first, second);
    assert!(rt; ids.look(first) == Some((gid.with_log(5), owner(0), false)));
    assert!(rt; ids.look(second) == None);
    assert_eq!(rt; ids.credit_of(gid), 32);
    Ok(())
}

#[test]
fn drawn_calls_keep_a_plain_list(rt: HostRuntime) -> Result<(), Fail> {
    let alloc = rt.alloc();
    let mut ids = Ids::new(alloc);
    let mut plain = Plain {
        lines: Vec::new(alloc),
    };
    let mut x = 1;
    for _ in 0..400 {
        x = next(x);
        let draw = x >> 20;
        let place = (x >> 40) as usize % 16;
        if draw % 8 < 3 && plain.lines.len() < 16 {
            adopt(&rt, alloc, &mut ids, &mut plain, draw / 8)?;
        } else if draw % 8 == 3 {
            give(&rt, &mut ids, &mut plain, place, draw / 8)?;
        } else if draw % 16 == 4 {
            join(&mut ids, &mut plain, place)?;
        } else {
            part(&rt, &mut ids, &mut plain, place, draw % 4)?;
        }
        compare(&rt, alloc, &ids, &plain)?;
    }
    Ok(())
}
