//! Each read, write, send and delivery of a session refused in turn.
use crate::ended::{Ended, Faults, NONE, ran};
use hpx_ports::order::Order;
use std::alloc::{AllocError, Global};
use std::process::Abort;
use std::sync::Wait;
use std::test::Fail;
use std::thread::Threads;

const INPUT: &[u8] = b"add 5\nadd 10\nquery\nadd 2\nquery\nquit\n";

const WHOLE: &[u8] = b"commands: reset, add [amount], query, help, quit\n> > > 15\n> > 17\n> ";

/// The call that is refused.
#[derive(Clone, Copy)]
enum Call {
    Read,
    Write,
    Send,
    Deliver,
}

/// The session by so many threads, of which this call is refused at its n-th time.
fn refusing<R: Threads + Wait + Sync>(
    rt: &R,
    alloc: Global,
    threads: &[u8],
    call: Call,
    n: u64,
) -> Result<Ended, AllocError> {
    let numbers = &[n];
    let faults = match call {
        Call::Read => Faults {
            reads: numbers,
            ..NONE
        },
        Call::Write => Faults {
            writes: numbers,
            ..NONE
        },
        Call::Send => Faults {
            sends: numbers,
            ..NONE
        },
        Call::Deliver => Faults {
            delivers: numbers,
            ..NONE
        },
    };
    let words = &[b"accumulator".as_slice(), b"--hpx:localities=2", threads];
    ran(rt, alloc, words, INPUT, Order::FirstIn, faults)
}

/// The status and the line for each.
fn told(call: Call) -> (u8, &'static [u8]) {
    match call {
        Call::Read => (2, b"hpx: read failed\n"),
        Call::Write => (3, b"hpx: write failed\n"),
        Call::Send => (4, b"hpx: fabric failed\n"),
        Call::Deliver => (4, b"hpx: fabric failed\n"),
    }
}

/// What is left: the bytes of the whole text, the lines that were handled and those that were fed, the opening's too, whether all came to
/// rest, and how many frames crossed.
type Left = (usize, usize, usize, bool, usize);

const ENDED: Left = (67, 5, 6, true, 12);

// One read takes the whole input.
const READS: [Left; 1] = [(51, 0, 1, true, 2)];

// The commands, six prompts and two answers.
const WRITES: [Left; 9] = [
    (0, 0, 0, true, 0),
    (49, 0, 1, true, 2),
    (51, 1, 2, true, 4),
    (53, 2, 3, true, 6),
    (55, 3, 4, true, 8),
    (58, 3, 4, true, 8),
    (60, 4, 5, true, 10),
    (62, 5, 6, true, 12),
    (65, 5, 6, true, 12),
];

// Each line sends one frame to the accumulator, and one comes back.
const SENDS: [Left; 12] = [
    (49, 0, 1, false, 0),
    (49, 0, 1, false, 1),
    (51, 0, 2, false, 2),
    (51, 0, 2, false, 3),
    (53, 1, 3, false, 4),
    (53, 1, 3, false, 5),
    (55, 2, 4, false, 6),
    (55, 2, 4, false, 7),
    (60, 3, 5, false, 8),
    (60, 3, 5, false, 9),
    (62, 4, 6, false, 10),
    (62, 4, 6, false, 11),
];

/// A run left this, with nothing in hand or in flight, and a legal journal.
fn assert_left(rt: &impl Abort, ended: &Ended, want: &Left) -> Result<(), Fail> {
    let (bytes, handled, lines, quiet, frames) = want;
    assert_eq!(rt; Some(ended.text.as_slice()), WHOLE.get(..*bytes));
    assert_eq!(rt;
        (ended.left.cuts.len(), ended.left.in_flight),
        (*handled, 0)
    );
    assert_eq!(rt; ended.left.events, frames.saturating_mul(2));
    let Some(told) = ended.left.told else {
        return Err(Fail::new("no world"));
    };
    assert_eq!(rt; (told.lines, told.quiet), (*lines, *quiet));
    assert!(rt; told.legal && !told.hand);
    Ok(())
}

/// The call is refused at each time that it comes, as its rows say, and not any more behind them.
fn assert_refused<R: Threads + Wait + Sync + Abort>(
    rt: &R,
    alloc: Global,
    threads: &[u8],
    call: Call,
    rows: &[Left],
) -> Result<(), Fail> {
    let mut n = 0u64;
    for row in rows {
        n = n.saturating_add(1);
        let ended = refusing(rt, alloc, threads, call, n)?;
        assert_eq!(rt; ended.status(), told(call), "call {n}");
        assert_left(rt, &ended, row)?;
    }
    let ended = refusing(rt, alloc, threads, call, n.saturating_add(1))?;
    assert_eq!(rt; ended.status(), (0, b"".as_slice()));
    assert_left(rt, &ended, &ENDED)
}

#[test]
fn each_call_is_refused_in_turn(rt: HostRuntime) -> Result<(), Fail> {
    for threads in [b"--hpx:threads=1".as_slice(), b"--hpx:threads=4"] {
        assert_refused(&rt, rt.alloc(), threads, Call::Read, &READS)?;
        assert_refused(&rt, rt.alloc(), threads, Call::Write, &WRITES)?;
        assert_refused(&rt, rt.alloc(), threads, Call::Send, &SENDS)?;
    }
    Ok(())
}

/// A delivery was refused: the line that waits for it was fed and not handled, and its text is not there.
fn assert_undelivered(rt: &impl Abort, ended: &Ended) -> Result<(), Fail> {
    let handled = ended.left.cuts.len();
    assert_eq!(rt; ended.status(), told(Call::Deliver));
    let front = match (ended.text.len(), handled) {
        (49 | 51, 0) | (53, 1) | (55, 2) | (60, 3) | (62, 4) => WHOLE.starts_with(
            ended.text.as_slice(),
        ),
        _ => false,
    };
    assert!(rt; front);
    let Some(told) = ended.left.told else {
        return Err(Fail::new("no world"));
    };
    assert!(rt; told.legal && !told.hand);
    // No later line was fed than the one behind those that were handled.
    let opened = usize::from(ended.text.len() > 49);
    assert_eq!(rt;
        told.lines,
        handled.saturating_add(1).saturating_add(opened)
    );
    Ok(())
}

// A delivery may also find nothing in flight, so there are more of them than frames.
#[test]
fn each_delivery_is_refused_in_turn(rt: HostRuntime) -> Result<(), Fail> {
    for threads in [b"--hpx:threads=1".as_slice(), b"--hpx:threads=4"] {
        let mut refused = 0u64;
        for n in 1..100u64 {
            let ended = refusing(&rt, rt.alloc(), threads, Call::Deliver, n)?;
            if ended.left.status == 0 {
                assert_left(&rt, &ended, &ENDED)?;
                break;
            }
            refused = n;
            assert_undelivered(&rt, &ended)?;
        }
        assert!(rt; refused >= 12 && refused < 99);
    }
    Ok(())
}
