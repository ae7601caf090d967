//! A short session, which comes to rest behind each line before workers are started: all that stands behind each refusal is known.
use crate::ended::{Ended, Told, ran};
use crate::ports::{Call, Refusal};
use hpx_value::memory::OutOfMemory;
use std::alloc::Global;
use std::process::Abort;
use std::sync::Wait;
use std::test::Fail;
use std::thread::Threads;

const INPUT: &[u8] = b"add 5\nadd 10\nquery\nadd 2\nquery\nquit\n";

const WHOLE: &[u8] = b"commands: reset, add [amount], query, help, quit\n> > > 15\n> > 17\n> ";

/// What is left: the bytes of the whole text, the lines that were handled and those that were fed, the opening's too, whether all came to
/// rest, and how many frames were sent and delivered.
type Row = (usize, usize, usize, bool, usize, usize);

const ENDED: Row = (67, 5, 6, true, 12, 12);

// One read takes the whole input.
const READS: [Row; 1] = [(51, 0, 1, true, 2, 2)];

// The commands, six prompts and two answers.
const WRITES: [Row; 9] = [
    (0, 0, 0, true, 0, 0),
    (49, 0, 1, true, 2, 2),
    (51, 1, 2, true, 4, 4),
    (53, 2, 3, true, 6, 6),
    (55, 3, 4, true, 8, 8),
    (58, 3, 4, true, 8, 8),
    (60, 4, 5, true, 10, 10),
    (62, 5, 6, true, 12, 12),
    (65, 5, 6, true, 12, 12),
];

// Each line sends one frame to the accumulator, and one comes back.
const SENDS: [Row; 12] = [
    (49, 0, 1, false, 0, 0),
    (49, 0, 1, false, 1, 1),
    (51, 0, 2, false, 2, 2),
    (51, 0, 2, false, 3, 3),
    (53, 1, 3, false, 4, 4),
    (53, 1, 3, false, 5, 5),
    (55, 2, 4, false, 6, 6),
    (55, 2, 4, false, 7, 7),
    (60, 3, 5, false, 8, 8),
    (60, 3, 5, false, 9, 9),
    (62, 4, 6, false, 10, 10),
    (62, 4, 6, false, 11, 11),
];

// Each of these frames is in flight where its delivery is refused; and behind each line nothing is, where all has come to rest.
const DELIVERS: [Row; 18] = [
    (49, 0, 1, false, 1, 0),
    (49, 0, 1, false, 2, 1),
    (49, 0, 1, true, 2, 2),
    (51, 0, 2, false, 3, 2),
    (51, 0, 2, false, 4, 3),
    (51, 0, 2, true, 4, 4),
    (53, 1, 3, false, 5, 4),
    (53, 1, 3, false, 6, 5),
    (53, 1, 3, true, 6, 6),
    (55, 2, 4, false, 7, 6),
    (55, 2, 4, false, 8, 7),
    (55, 2, 4, true, 8, 8),
    (60, 3, 5, false, 9, 8),
    (60, 3, 5, false, 10, 9),
    (60, 3, 5, true, 10, 10),
    (62, 4, 6, false, 11, 10),
    (62, 4, 6, false, 12, 11),
    (62, 4, 6, true, 12, 12),
];

/// The session by so many threads, of which one call is refused.
fn session<R: Threads + Wait + Sync>(
    rt: &R,
    alloc: Global,
    threads: &[u8],
    refusal: &Refusal,
) -> Result<Ended, OutOfMemory> {
    let words = &[b"accumulator".as_slice(), b"--hpx:localities=2", threads];
    ran(rt, alloc, words, INPUT, refusal)
}

/// A run left this: nothing in hand, a legal journal, each frame that was not delivered in flight, and nothing happened that does not
/// happen in the whole run.
fn assert_left(rt: &impl Abort, ended: &Ended, want: &Row, whole: &[u8]) {
    let (bytes, handled, lines, quiet, sent, delivered) = *want;
    let crossed = &ended.left.crossed;
    assert_eq!(rt; Some(ended.text.as_slice()), WHOLE.get(..bytes));
    assert_eq!(rt; ended.left.handled, handled);
    assert_eq!(rt; (crossed.sent, crossed.delivered), (sent, delivered));
    assert_eq!(rt; crossed.in_flight, sent.saturating_sub(delivered));
    assert!(rt; whole.starts_with(crossed.trace.as_slice()));
    let told = Told {
        lines,
        hand: false,
        quiet,
        legal: true,
    };
    assert_eq!(rt; ended.left.told, Some(told));
    assert_eq!(rt; ended.jobs, 0);
}

/// The call is refused at each time that it comes, as its rows say, and not any more behind them.
fn assert_refused<R: Threads + Wait + Sync + Abort>(
    rt: &R,
    alloc: Global,
    threads: &[u8],
    call: Call,
    rows: &[Row],
) -> Result<(), Fail> {
    let whole = session(rt, alloc, threads, &Refusal { call, n: 0 })?;
    let whole = whole.left.crossed.trace.as_slice();
    let mut n = 1u64;
    for row in rows {
        let refusal = Refusal { call, n };
        let ended = session(rt, alloc, threads, &refusal)?;
        let status = (ended.left.status, ended.line.as_slice());
        assert_eq!(rt; status, refusal.told(), "{call:?} {n}");
        assert_left(rt, &ended, row, whole);
        n = n.saturating_add(1);
    }
    let ended = session(rt, alloc, threads, &Refusal { call, n })?;
    assert_eq!(rt; (ended.left.status, ended.line.len()), (0, 0));
    assert_left(rt, &ended, &ENDED, whole);
    Ok(())
}

#[test]
fn each_call_is_refused_in_turn(rt: HostRuntime) -> Result<(), Fail> {
    for threads in [b"--hpx:threads=1".as_slice(), b"--hpx:threads=4"] {
        assert_refused(&rt, rt.alloc(), threads, Call::Read, &READS)?;
        assert_refused(&rt, rt.alloc(), threads, Call::Write, &WRITES)?;
        assert_refused(&rt, rt.alloc(), threads, Call::Send, &SENDS)?;
    }
    Ok(())
}

/// The rows of deliveries by four threads: where all has come to rest the fabric is asked twice.
fn asked_twice(alloc: Global) -> Result<Vec<Row>, OutOfMemory> {
    let mut rows = Vec::new(alloc);
    for row in DELIVERS {
        rows.push(row)?;
        if row.3 {
            rows.push(row)?;
        }
    }
    Ok(rows)
}

#[test]
fn each_delivery_is_refused_in_turn(rt: HostRuntime) -> Result<(), Fail> {
    let alloc = rt.alloc();
    let rows = asked_twice(alloc)?;
    assert_refused(&rt, alloc, b"--hpx:threads=1", Call::Deliver, &DELIVERS)?;
    assert_refused(
        &rt,
        alloc,
        b"--hpx:threads=4",
        Call::Deliver,
        rows.as_slice(),
    )
}
