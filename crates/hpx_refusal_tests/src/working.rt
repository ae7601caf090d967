//! A session in which workers run jobs: what stands behind each refusal, in whatever order they ran these.
use crate::ended::{Ended, ran};
use crate::ports::{Call, Refusal};
use hpx_value::memory::OutOfMemory;
use std::alloc::Global;
use std::process::Abort;
use std::sync::Wait;
use std::test::Fail;
use std::thread::Threads;

/// A line, how often it stands there, whether it is fed, and how many frames are sent before the next.
type Line = (&'static [u8], usize, bool, usize);

// A call is a frame, and its answer is one. The answers to calls out of a hold bring credit back, and all but the last send it home.
const LINES: [Line; 6] = [
    (b"new a 1", 1, true, 2),
    (b"hold", 1, false, 0),
    (b"add a 1", 20, true, 0),
    (b"drain", 1, false, 59),
    (b"query a", 1, true, 2),
    (b"quit", 1, false, 0),
];

/// The first send that comes where a worker has run a job. By 64 steps the caller sends 20 calls behind the first two frames, carries 15 of
/// them and runs them, and answers 14; the 15th answer is the first that a worker sends.
const WORKED: u64 = 38;

/// So many jobs are left to workers: 5 calls and 20 answers.
const JOBS: u64 = 25;

const COMMANDS: &[u8] =
    b"commands: new, add, query, move, where, drop, share, unshare, register, lookup, unregister, names, localities, promise, channel, latch, barrier, put, get, close, down, wait, arrive, hold, turn, drain, audit, counter, help, quit\n";

/// The line so many times, each with blanks behind it: 330 bytes.
fn push_times(input: &mut Vec<u8>, line: &[u8], times: usize) -> Result<(), OutOfMemory> {
    let blanks = [b' '; 329];
    for _ in 0..times {
        input.extend_from_slice(line)?;
        input.extend_from_slice(blanks.get(line.len()..).unwrap_or(&[]))?;
        input.push(b'\n')?;
    }
    Ok(())
}

/// The input.
fn input(alloc: Global) -> Result<Vec<u8>, OutOfMemory> {
    let mut input = Vec::new(alloc);
    for (line, times, _, _) in &LINES {
        push_times(&mut input, line, *times)?;
    }
    Ok(input)
}

/// How many of so many first lines are fed, and how many frames are sent on all of them.
fn sums(first: usize) -> (usize, usize) {
    let mut left = first;
    let mut fed = 0usize;
    let mut frames = 0usize;
    for (_, times, is_fed, sent) in &LINES {
        let here = left.min(*times);
        left = left.saturating_sub(here);
        if *is_fed {
            fed = fed.saturating_add(here);
        }
        if here > 0 {
            frames = frames.saturating_add(*sent);
        }
    }
    (fed, frames)
}

/// The text by so many writes: the commands, a prompt, one behind each line, and an answer before the last.
fn text(alloc: Global, writes: u64) -> Result<Vec<u8>, OutOfMemory> {
    let mut text = Vec::new(alloc);
    for i in 0..writes {
        text.extend_from_slice(match i {
            0 => COMMANDS,
            25 => b"20\n",
            _ => b"> ",
        })?;
    }
    Ok(text)
}

/// How many lines are handled where the n-th call is refused, and how many writes were made; none where it does not come so often.
/// Of a delivery it is not known before how often it comes.
fn breaks_at(call: Call, n: u64) -> Option<(usize, u64)> {
    match call {
        // A read brings 4096 bytes: twelve lines, and a part of the next.
        Call::Read if n == 1 => Some((0, 2)),
        Call::Read if n == 2 => Some((12, 14)),
        Call::Read if n == 3 => Some((24, 27)),
        Call::Write if n < 28 => {
            let handled = n.saturating_sub(2).min(24);
            Some((handled as usize, n.saturating_sub(1)))
        }
        Call::Send if n < 3 => Some((0, 2)),
        Call::Send if n < 62 => Some((22, 24)),
        Call::Send if n < 64 => Some((23, 25)),
        _ => None,
    }
}

/// The session by four threads, of which one call is refused.
fn session<R: Threads + Wait + Sync>(
    rt: &R,
    alloc: Global,
    refusal: &Refusal,
) -> Result<Ended, OutOfMemory> {
    let words = &[
        b"space".as_slice(),
        b"--hpx:localities=2",
        b"--hpx:threads=4",
    ];
    let input = input(alloc)?;
    ran(rt, alloc, words, input.as_slice(), refusal)
}

/// So many lines were handled, and others were fed and sent frames only if one broke off; nothing is in hand, the judge accepts the
/// journal, and each frame that was not delivered is in flight.
fn assert_stands(rt: &impl Abort, ended: &Ended, handled: usize, broke_off: bool) {
    let crossed = &ended.left.crossed;
    let (_, least) = sums(handled);
    let (fed, most) = sums(handled.saturating_add(usize::from(broke_off)));
    assert_eq!(rt; ended.left.handled, handled);
    assert!(rt; least <= crossed.sent && crossed.sent <= most);
    assert_eq!(rt;
        crossed.in_flight,
        crossed.sent.saturating_sub(crossed.delivered)
    );
    let stands = match ended.left.told {
        Some(told) => told.legal && !told.hand && told.lines == fed,
        None => false,
    };
    assert!(rt; stands, "{handled}");
}

/// The call was refused: so many lines were handled, and so many writes made.
fn assert_broken(
    rt: &impl Abort,
    alloc: Global,
    ended: &Ended,
    refusal: &Refusal,
    handled: usize,
    writes: u64,
) -> Result<(), OutOfMemory> {
    let broke_off = matches!(refusal.call, Call::Send | Call::Deliver);
    assert_eq!(rt; (ended.left.status, ended.line.as_slice()), refusal.told());
    assert_eq!(rt; ended.text, text(alloc, writes)?);
    assert_stands(rt, ended, handled, broke_off);
    assert!(rt; handled == 22 || ended.jobs == if handled > 22 { JOBS } else { 0 });
    Ok(())
}

/// The session came to its end.
fn assert_whole(rt: &impl Abort, alloc: Global, ended: &Ended) -> Result<(), OutOfMemory> {
    assert_eq!(rt;
        (ended.left.status, ended.line.len(), ended.jobs),
        (0, 0, JOBS)
    );
    assert_eq!(rt; ended.text, text(alloc, 27)?);
    assert_stands(rt, ended, 24, false);
    Ok(())
}

/// So many sends less one were made, and a worker has run a job if the caller alone makes fewer.
fn assert_sends(rt: &impl Abort, ended: &Ended, n: u64) {
    let sent = ended.left.crossed.sent as u64;
    assert_eq!(rt; (sent.saturating_add(1), ended.jobs > 0), (n, n >= WORKED));
}

/// The call is refused at each time that it comes, and then it does not come.
fn assert_refused<R: Threads + Wait + Sync + Abort>(
    rt: &R,
    alloc: Global,
    call: Call,
) -> Result<(), OutOfMemory> {
    for n in 1..100 {
        let refusal = Refusal { call, n };
        let ended = session(rt, alloc, &refusal)?;
        let Some((handled, writes)) = breaks_at(call, n) else {
            return assert_whole(rt, alloc, &ended);
        };
        assert_broken(rt, alloc, &ended, &refusal, handled, writes)?;
        if call == Call::Send {
            assert_sends(rt, &ended, n);
        }
    }
    assert!(rt; false, "{call:?}");
    Ok(())
}

#[test]
fn reads_and_writes_are_refused_in_turn(rt: HostRuntime) -> Result<(), Fail> {
    assert_refused(&rt, rt.alloc(), Call::Read)?;
    assert_refused(&rt, rt.alloc(), Call::Write)?;
    Ok(())
}

#[test]
fn sends_are_refused_where_workers_run(rt: HostRuntime) -> Result<(), Fail> {
    assert_refused(&rt, rt.alloc(), Call::Send)?;
    Ok(())
}

/// A delivery was refused.
fn assert_undelivered(
    rt: &impl Abort,
    alloc: Global,
    ended: &Ended,
    refusal: &Refusal,
) -> Result<(), OutOfMemory> {
    let handled = ended.left.handled;
    assert!(rt; matches!(handled, 0 | 22 | 23), "{handled}");
    let writes = (handled as u64).saturating_add(2);
    assert_broken(rt, alloc, ended, refusal, handled, writes)
}

/// Each delivery is refused, as long as deliveries are asked for. How often it was where a worker had run a job.
fn worked<R: Threads + Wait + Sync + Abort>(rt: &R, alloc: Global) -> Result<u32, OutOfMemory> {
    let mut worked = 0u32;
    for n in 1..200 {
        let refusal = Refusal {
            call: Call::Deliver,
            n,
        };
        let ended = session(rt, alloc, &refusal)?;
        if ended.left.status == 0 {
            assert_whole(rt, alloc, &ended)?;
            break;
        }
        assert_undelivered(rt, alloc, &ended, &refusal)?;
        worked = worked.saturating_add(u32::from(ended.jobs > 0));
    }
    Ok(worked)
}

#[test]
fn deliveries_are_refused_where_workers_run(rt: HostRuntime) -> Result<(), Fail> {
    let worked = worked(&rt, rt.alloc())?;
    assert!(&rt; worked > 20, "{worked}");
    Ok(())
}
