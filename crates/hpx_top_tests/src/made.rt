//! Sessions of `space` made from numbers, over three orders: 300 beside a plain space, and 100 in which delivery is held back.
use crate::ended::{Ended, NONE, ran};
use crate::plain::{Arg, Does, Kind, Made, Plain};
use crate::pool::next;
use hpx_judged::worlds::ORDERS;
use hpx_ports::order::Order;
use hpx_value::memory::OutOfMemory;
use std::alloc::Global;
use std::process::Abort;
use std::sync::Wait;
use std::test::Fail;
use std::thread::Threads;

const WORDS: &[&[u8]] = &[b"space", b"--hpx:localities=3"];

const TO: &[Arg] = &[Arg::NewName, Arg::Place];

const COUNTED: &[Arg] = &[Arg::NewName, Arg::Place, Arg::Count];

const NUMBER: &[Arg] = &[Arg::BoundName, Arg::Number];

const BOUND: &[Arg] = &[Arg::BoundName];

const PLACED: &[Arg] = &[Arg::BoundName, Arg::Place];

/// The commands. All before `hold` leave nothing under way.
const COMMANDS: [(&str, &[Arg], Does); 32] = [
    ("new", TO, Does::Make(Kind::Number)),
    ("promise", TO, Does::Make(Kind::Promise)),
    ("channel", TO, Does::Make(Kind::Channel)),
    ("latch", COUNTED, Does::Make(Kind::Latch)),
    ("barrier", COUNTED, Does::Make(Kind::Barrier)),
    ("add", NUMBER, Does::Add),
    ("query", BOUND, Does::Query),
    ("put", NUMBER, Does::Put),
    ("get", BOUND, Does::Get),
    ("close", BOUND, Does::Close),
    ("down", BOUND, Does::Down),
    ("wait", BOUND, Does::Wait),
    ("arrive", BOUND, Does::Arrive),
    ("move", PLACED, Does::Move),
    ("where", BOUND, Does::Where),
    ("drop", BOUND, Does::Drop),
    ("share", PLACED, Does::Share),
    ("unshare", &[Arg::AnyName, Arg::Place], Does::Unshare),
    ("register", &[Arg::BoundName, Arg::Key], Does::Register),
    ("lookup", &[Arg::NewName, Arg::Key], Does::Lookup),
    ("unregister", &[Arg::Key], Does::Unregister),
    ("names", &[], Does::Names),
    ("localities", &[], Does::Localities),
    ("help", &[], Does::Help),
    ("counter", &[Arg::Counter], Does::Born),
    ("drain", &[], Does::Nothing),
    ("audit", &[], Does::Audit),
    ("hold", &[], Does::Nothing),
    ("turn", &[Arg::Count], Does::Nothing),
    ("turn", &[Arg::Number], Does::Nothing),
    ("hold", &[], Does::Nothing),
    ("audit", &[], Does::Audit),
];

const NUMBERS: [i64; 8] = [i64::MAX, i64::MIN, -3, 0, 1, 2, 7, 40];

impl Made {
    /// What is made from a seed.
    fn from(seed: u64) -> Made {
        Made {
            name: (seed >> 24) % 4,
            place: ((seed >> 28) % 4) as u32,
            number: NUMBERS[((seed >> 32) % 8) as usize],
            count: ((seed >> 36) % 4) as i64,
            key: (seed >> 44) % 3,
        }
    }

    /// Adds a line to an input.
    fn line(
        self,
        alloc: Global,
        word: &str,
        args: &[Arg],
        input: &mut Vec<u8>,
    ) -> Result<(), OutOfMemory> {
        let (name, place, number, count, key) = (
            self.name,
            self.place,
            self.number,
            self.count,
            self.key,
        );
        input.extend_from_slice(word.as_bytes())?;
        for arg in args {
            let text = match arg {
                Arg::Place => format!(in alloc; " {place}")?,
                Arg::Number => format!(in alloc; " {number}")?,
                Arg::Count => format!(in alloc; " {count}")?,
                Arg::Key => format!(in alloc; " k{key}")?,
                Arg::Counter => {
                    input.extend_from_slice(b" /objects{locality#")?;
                    format!(in alloc; "{place}/total")?
                }
                _ => format!(in alloc; " a{name}")?,
            };
            input.extend_from_slice(text.as_bytes())?;
            if let Arg::Counter = arg {
                input.extend_from_slice(b"}/count/born")?;
            }
        }
        input.extend_from_slice(b"\n")?;
        Ok(())
    }
}

/// A line is added and done in the plain space. An audit is left out where objects are left.
fn put(
    alloc: Global,
    seed: u64,
    input: &mut Vec<u8>,
    plain: &mut Plain,
) -> Result<(), OutOfMemory> {
    let (word, args, does) = COMMANDS[((seed >> 48) % 27) as usize];
    if does == Does::Audit && !plain.is_bare() {
        return Ok(());
    }
    let made = Made::from(seed);
    made.line(alloc, word, args, input)?;
    plain.line(alloc, args, does, made)
}

/// The session that is made from a number, of 20 to 80 lines: its input, and the plain space behind it.
fn session(alloc: Global, start: u64) -> Result<(Vec<u8>, Plain), OutOfMemory> {
    let mut seed = start;
    let mut input = Vec::new(alloc);
    let mut plain = Plain::new(alloc)?;
    for _ in 0..20 + start % 61 {
        seed = next(seed);
        put(alloc, seed, &mut input, &mut plain)?;
    }
    input.extend_from_slice(b"quit\nnew e 0\n")?;
    Ok((input, plain))
}

/// Whether the session that is made from a number prints what the plain space does.
fn is_right<R: Threads + Wait + Sync>(
    rt: &R,
    alloc: Global,
    start: u64,
    order: Order,
) -> Result<bool, OutOfMemory> {
    let (input, plain) = session(alloc, start)?;
    let ended = ran(rt, alloc, WORDS, input.as_slice(), order, NONE)?;
    Ok(ended.left.status == 0 && ended.text.as_slice() == plain.text.as_slice())
}

/// The first of 300 sessions that prints something else than the plain space.
fn wrong<R: Threads + Wait + Sync>(
    rt: &R,
    alloc: Global,
    order: Order,
) -> Result<Option<u64>, OutOfMemory> {
    for start in 1..301u64 {
        if !is_right(rt, alloc, start, order)? {
            return Ok(Some(start));
        }
    }
    Ok(None)
}

#[test]
fn spaces_are_right_over_three_orders(rt: HostRuntime) -> Result<(), Fail> {
    for order in ORDERS {
        assert_eq!(rt; wrong(&rt, rt.alloc(), order)?, None);
    }
    Ok(())
}

/// A line of any command is added.
fn put_any(alloc: Global, seed: u64, input: &mut Vec<u8>) -> Result<(), OutOfMemory> {
    let (word, args, _) = COMMANDS[((seed >> 48) % 32) as usize];
    Made::from(seed).line(alloc, word, args, input)
}

/// Adds so many lines of any command, and answers the seed of the last.
fn put_many(
    alloc: Global,
    start: u64,
    lines: u64,
    input: &mut Vec<u8>,
) -> Result<u64, OutOfMemory> {
    let mut seed = start;
    for _ in 0..lines {
        seed = next(seed);
        put_any(alloc, seed, input)?;
    }
    Ok(seed)
}

/// The lines that are made from a number, of all commands. Among them is a `hold` with a call behind it, and then some steps.
fn lines(alloc: Global, start: u64) -> Result<Vec<u8>, OutOfMemory> {
    let mut input = Vec::from_slice(alloc, b"new e 1\n")?;
    let seed = put_many(alloc, start, 10 + start % 31, &mut input)?;
    input.extend_from_slice(b"hold\nadd e 1\n")?;
    let steps = 1 + seed % 40;
    input.extend_from_slice(format!(in alloc; "turn {steps}\n")?.as_bytes())?;
    put_many(alloc, seed, 10 + start % 31, &mut input)?;
    Ok(input)
}

/// The run over these lines.
fn held<R: Threads + Wait + Sync>(
    rt: &R,
    alloc: Global,
    start: u64,
    order: Order,
) -> Result<Ended, OutOfMemory> {
    let input = lines(alloc, start)?;
    Ok(ran(rt, alloc, WORDS, input.as_slice(), order, NONE)?)
}

/// It ended well, at rest, and its journal is legal.
fn assert_legal(rt: &impl Abort, start: u64, ended: &Ended) {
    assert_eq!(rt;
        (ended.left.status, ended.left.in_flight),
        (0, 0),
        "{start}"
    );
    let (quiet, legal) = match ended.left.told {
        Some(told) => (told.quiet, told.legal),
        None => (false, false),
    };
    assert!(rt; quiet, "{start}");
    assert!(rt; legal, "{start}");
}

#[test]
fn a_hundred_sessions_that_hold_are_legal(rt: HostRuntime) -> Result<(), Fail> {
    for order in ORDERS {
        for start in 0..100u64 {
            let ended = held(&rt, rt.alloc(), start, order)?;
            assert_legal(&rt, start, &ended);
        }
    }
    Ok(())
}
