ghost use Rattle.std.specs.Prelude.{◌≡◌, ◌≤◌, ◌<◌, ◌+◌, ◌-◌, ◌^◌};

use hpx_agas::records::{Granted, Left, Records, Strange};
use hpx_value::gid::Gid;
use hpx_value::profile::Profile;
use std::alloc::Global;
use std::process::Abort;
use std::test::Fail;

// A live object, as the test keeps it.
#[derive(Drop)]
struct Line {
    number: u64,
    count: u128,
    place: u32,
    moving: Option<u32>,
    queue: Vec<u64>,
}

// What is live, as a plain list, and how many births there were.
#[derive(Drop)]
struct Plain {
    lines: Vec<Line>,
    births: u64,
}

impl Plain {
    fn at(&self, number: u64) -> Option<usize> {
        for i in 0..self.lines.len() {
            if let Some(line) = self.lines.get(i) {
                if line.number == number {
                    return Some(i);
                }
            }
        }
        None
    }
}

const CREDITS: [u128; 10] = [1, 2, 4, 8, 16, 32, 64, 128, 256, 512];

fn next(x: u64) -> u64 {
    x.wrapping_mul(6364136223846793005)
        .wrapping_add(1442695040888963407)
}

// The object of a number up to 30.
fn object(number: u64) -> Gid {
    Gid::new(5, 16 + (number % 2) as u32, 1 + number % 30)
}

fn born(
    rt: &impl Abort,
    alloc: Global,
    records: &mut Records<u64>,
    plain: &mut Plain,
) -> Result<(), Fail>
    requires { records.old.births < 2 ^ 32 - 1 }
    ensures { records.new.births ≤ records.old.births + 1 }
{
    if plain.births >= 29 {
        return Ok(());
    }
    records.reserve(1)?;
    let kind = 16 + (plain.births % 2) as u32;
    let gid = records.born(kind);
    assert!(rt; gid == object(plain.births).with_log(8));
    let queue = Vec::new(alloc);
    plain.births = plain.births.wrapping_add(1);
    plain.lines.push(Line {
        number: plain.births,
        count: 256,
        place: 5,
        moving: None,
        queue,
    })?;
    Ok(())
}

fn back(
    rt: &impl Abort,
    records: &mut Records<u64>,
    plain: &mut Plain,
    gid: Gid,
    log: u8,
) -> Result<(), Fail>
    requires { log ≤ 9 }
    ensures { records.new.births ≡ records.old.births }
{
    let credit = CREDITS[log as usize];
    let answer = records.back(gid.with_log(log));
    let place = match plain.at(gid.number()) {
        Some(place) => place,
        None => plain.lines.len(),
    };
    let Some(line) = plain.lines.get_mut(place) else {
        assert_eq!(rt; answer, Err(Strange));
        return Ok(());
    };
    if line.count < credit {
        assert_eq!(rt; answer, Err(Strange));
    } else if line.count == credit {
        assert_eq!(rt; answer, Ok(Left::Dead(line.place)));
        plain.lines.remove(place);
    } else {
        assert_eq!(rt; answer, Ok(Left::Alive));
        line.count -= credit;
    }
    Ok(())
}

fn ask(rt: &impl Abort, records: &mut Records<u64>, plain: &mut Plain, gid: Gid)
    ensures { records.new.births ≡ records.old.births }
{
    let answer = records.ask(gid.with_log(0));
    let place = match plain.at(gid.number()) {
        Some(place) => place,
        None => plain.lines.len(),
    };
    match plain.lines.get_mut(place) {
        None => assert!(rt; matches!(&answer, Err(Strange))),
        Some(line) => {
            let grown = line.count.wrapping_add(255);
            if grown > 600 {
                assert!(rt; matches!(&answer, Ok(Granted::Limit)));
            } else {
                assert!(rt; matches!(&answer, Ok(Granted::Yes(_))));
                line.count = grown;
            }
        }
    }
}

fn move_on(rt: &impl Abort, records: &mut Records<u64>, plain: &mut Plain, gid: Gid, to: u32)
    ensures { records.new.births ≡ records.old.births }
{
    let place = match plain.at(gid.number()) {
        Some(place) => place,
        None => plain.lines.len(),
    };
    let Some(line) = plain.lines.get_mut(place) else {
        assert_eq!(rt; records.landed(gid, to), Err(Strange));
        return;
    };
    if line.moving == Some(to) {
        assert_eq!(rt; records.landed(gid, to), Ok(()));
        line.place = to;
        line.moving = None;
        return;
    }
    assert_eq!(rt; records.landed(gid, to), Err(Strange));
    let moving = records.moving(gid);
    assert_eq!(rt; moving, line.moving);
    let Some(here) = records.place(gid) else {
        panic!(rt; "no record");
    };
    if moving == None && here != to {
        records.begin_move(gid, to);
        line.moving = Some(to);
    }
}

fn wait(
    rt: &impl Abort,
    records: &mut Records<u64>,
    plain: &mut Plain,
    gid: Gid,
    item: u64,
) -> Result<(), Fail>
    ensures { records.new.births ≡ records.old.births }
{
    let place = match plain.at(gid.number()) {
        Some(place) => place,
        None => plain.lines.len(),
    };
    let Some(line) = plain.lines.get_mut(place) else {
        assert_eq!(rt; records.release(gid), None);
        return Ok(());
    };
    if item % 3 == 0 {
        let oldest = if line.queue.is_empty() {
            None
        } else {
            Some(line.queue.remove(0))
        };
        assert_eq!(rt; records.release(gid), oldest);
        return Ok(());
    }
    records.reserve(1)?;
    if records.moving(gid).is_some() {
        records.queue(gid, item);
        line.queue.push(item)?;
    }
    Ok(())
}

fn step(
    rt: &impl Abort,
    alloc: Global,
    records: &mut Records<u64>,
    plain: &mut Plain,
    draw: u64,
) -> Result<(), Fail>
    requires { records.old.births < 2 ^ 32 - 1 }
    ensures { records.new.births ≤ records.old.births + 1 }
{
    let gid = object(plain.births.wrapping_sub(1 + draw / 8 % 8));
    let log = if draw / 256 % 2 == 0 {
        8
    } else {
        (draw / 1024 % 10) as u8
    };
    match draw % 8 {
        0 => born(rt, alloc, records, plain)?,
        1 | 2 => back(rt, records, plain, gid, log)?,
        3 => ask(rt, records, plain, gid),
        4 | 5 => move_on(rt, records, plain, gid, (draw / 1024 % 4) as u32),
        _ => wait(rt, records, plain, gid, draw / 1024 % 1000)?,
    }
    Ok(())
}

// Whether the records are what the list says.
fn compare(rt: &impl Abort, records: &Records<u64>, plain: &Plain) {
    assert_eq!(rt; records.births() as u64, plain.births);
    assert_eq!(rt; records.number() as usize, plain.lines.len());
    let mut waiting = 0usize;
    for line in &plain.lines {
        waiting = waiting.wrapping_add(line.queue.len());
    }
    assert!(rt; records.waiting() as usize >= waiting);
    for number in 0..30 {
        let gid = object(number);
        let stranger = Gid::new(6, gid.kind(), gid.number());
        assert_eq!(rt; records.count(stranger), 0);
        let line = match plain.at(number + 1) {
            Some(place) => plain.lines.get(place),
            None => None,
        };
        let Some(line) = line else {
            assert_eq!(rt; records.count(gid), 0);
            assert_eq!(rt; records.place(gid), None);
            assert_eq!(rt; records.moving(gid), None);
            assert_eq!(rt; records.queued(gid), 0);
            continue;
        };
        assert_eq!(rt; records.count(gid.with_log(3)), line.count);
        assert_eq!(rt; records.place(gid), Some(line.place));
        assert_eq!(rt; records.moving(gid), line.moving);
        assert_eq!(rt; records.queued(gid) as usize, line.queue.len());
    }
    for i in 0..plain.lines.len() {
        let Some(line) = plain.lines.get(i) else {
            return;
        };
        let live = match records.live(i as u32) {
            Some(gid) => gid.number(),
            None => 0,
        };
        assert_eq!(rt; live, line.number);
    }
    assert!(rt; records.live(plain.lines.len() as u32).is_none());
}

#[test]
fn drawn_calls_keep_a_plain_list(rt: HostRuntime) -> Result<(), Fail> {
    let profile = Profile {
        credit_log: 8,
        credit_limit: 600,
        cache: 1,
    };
    assert!(rt; profile.is_valid());
    let mut records = Records::new(rt.alloc(), profile, 5);
    let mut plain = Plain {
        lines: Vec::new(rt.alloc()),
        births: 0,
    };
    let mut x = 1;
    for _ in 0..600u64 {
        x = next(x);
        step(&rt, rt.alloc(), &mut records, &mut plain, x >> 20)?;
        compare(&rt, &records, &plain);
    }
    assert!(rt; plain.births > 20);
    assert!(rt; plain.lines.len() < 25);
    Ok(())
}

// Items need not be copied: here they are lists.
#[test]
fn lists_wait_for_a_move(rt: HostRuntime) -> Result<(), Fail> {
    let alloc = rt.alloc();
    let profile = Profile {
        credit_log: 8,
        credit_limit: 256,
        cache: 1,
    };
    let mut records = Records::new(alloc, profile, 5);
    records.reserve(1)?;
    let gid = records.born(16);
    records.begin_move(gid, 6);
    for i in 0..2u64 {
        let mut item = Vec::new(alloc);
        item.push(i)?;
        records.reserve(1)?;
        if records.moving(gid).is_some() {
            records.queue(gid, item);
        }
    }
    assert_eq!(rt; records.waiting(), 2);
    assert_eq!(rt; records.landed(gid, 6), Ok(()));
    for i in 0..2u64 {
        let Some(item) = records.release(gid) else {
            panic!(rt; "nothing waits");
        };
        assert_eq!(rt; item.as_slice().first().copied(), Some(i));
    }
    assert!(rt; records.release(gid).is_none());
    assert_eq!(rt; records.waiting(), 0);
    Ok(())
}

// One more object. All its credit comes back at once, where it is to die.
fn one_more(rt: &impl Abort, records: &mut Records<u64>, dies: bool) -> Result<(), Fail>
    requires { records.old.births < 2 ^ 32 - 1 }
    ensures { records.new.births ≤ records.old.births + 1 }
{
    records.reserve(1)?;
    let gid = records.born(16);
    if dies {
        assert!(rt; records.back(gid).is_ok());
    }
    Ok(())
}

// Numbers that are far apart, and numbers side by side, are found in few steps: searches that pass object after object
// do not end within the time of a test.
#[test]
fn a_search_passes_few_forks(rt: HostRuntime) -> Result<(), Fail> {
    let profile = Profile {
        credit_log: 8,
        credit_limit: 256,
        cache: 1,
    };
    let mut records: Records<u64> = Records::new(rt.alloc(), profile, 5);
    for i in 0..200_000u64 {
        one_more(&rt, &mut records, i % 100 >= 95)?;
    }
    assert_eq!(rt; records.number(), 190_000);
    for i in 0..200_000u64 {
        let left = if i % 100 < 95 { 256 } else { 0 };
        assert_eq!(rt; records.count(Gid::new(5, 16, i + 1)), left);
    }
    let last = records.live(189_999);
    assert!(rt; last == Some(Gid::new(5, 16, 199_995)));
    Ok(())
}

// What waited for an object that died is counted still, and no other object gets it.
#[test]
fn what_waited_for_the_dead_stays(rt: HostRuntime) -> Result<(), Fail> {
    let profile = Profile {
        credit_log: 8,
        credit_limit: 256,
        cache: 1,
    };
    let mut records: Records<u64> = Records::new(rt.alloc(), profile, 5);
    records.reserve(1)?;
    let gid = records.born(16);
    records.begin_move(gid, 6);
    records.reserve(1)?;
    if records.moving(gid).is_some() {
        records.queue(gid, 70);
    }
    assert_eq!(rt; records.back(gid), Ok(Left::Dead(5)));
    assert_eq!(rt; records.number(), 0);
    assert_eq!(rt; records.queued(gid), 0);
    assert!(rt; records.release(gid).is_none());
    assert_eq!(rt; records.waiting(), 1);
    records.reserve(1)?;
    let next = records.born(16);
    assert!(rt; records.live(0) == Some(next.bare()));
    assert!(rt; records.live(1).is_none());
    assert_eq!(rt; records.queued(next), 0);
    Ok(())
}
