//! 200 sessions by 2, 3 and 8 threads, and one whose fabric fails.
use crate::ended::{Ended, Given, Told, ran};
use crate::gates::Counting;
use hpx_ports::order::Order;
use hpx_value::memory::OutOfMemory;
use std::alloc::Global;
use std::sync::Wait;
use std::test::Fail;
use std::thread::Threads;

/// How many threads a session has, by its number.
fn threads_of(number: u64) -> u64 {
    match number % 3 {
        0 => 2,
        1 => 3,
        _ => 8,
    }
}

/// In which order frames come, by the number of the session.
fn order_of(number: u64) -> Order {
    match number % 5 {
        0 => Order::FirstIn,
        1 => Order::LastIn,
        _ => Order::Scrambled(number),
    }
}

/// Whether a run printed this, has come to rest, and left a journal that the judge accepts.
fn is_right(ended: &Ended, text: &[u8]) -> bool {
    let rests = Some(Told {
        fires: match ended.told {
            Some(told) => told.fires,
            None => 0,
        },
        quiet: true,
        legal: true,
    });
    ended.status == 0 && ended.text.as_slice() == text && ended.told == rests
}

/// Whether the session with a number is right, and workers ran jobs of it: the ninth Fibonacci number, at 1 to 4 localities.
fn session<R: Threads + Wait + Sync>(
    rt: &R,
    alloc: Global,
    number: u64,
) -> Result<bool, OutOfMemory> {
    let localities = 1 + number % 4;
    let threads = threads_of(number);
    let words = format!(in alloc;
        "fib --n-value 9 --hpx:localities={localities} --hpx:threads={threads}"
    )?;
    let given = Given {
        words: words.as_str(),
        order: order_of(number),
        sends: &[],
    };
    let gate = Counting::new();
    let ended = ran(rt, alloc, &given, &gate)?;
    Ok(is_right(&ended, b"fibonacci(9) == 34\n") && gate.jobs() > 0)
}

/// How many of 100 sessions are right, from a number on.
fn a_hundred<R: Threads + Wait + Sync>(
    rt: &R,
    alloc: Global,
    first: u64,
) -> Result<u32, OutOfMemory> {
    let mut right = 0u32;
    for i in 0..100u64 {
        if session(rt, alloc, first.saturating_add(i))? {
            right = right.saturating_add(1);
        }
    }
    Ok(right)
}

#[test]
fn a_hundred_journals_are_allowed(rt: HostRuntime) -> Result<(), Fail> {
    assert_eq!(rt; a_hundred(&rt, rt.alloc(), 0)?, 100);
    Ok(())
}

#[test]
fn another_hundred_journals_are_allowed(rt: HostRuntime) -> Result<(), Fail> {
    assert_eq!(rt; a_hundred(&rt, rt.alloc(), 100)?, 100);
    Ok(())
}

// A send that workers make fails: the run ends for it, and the judge accepts what was done.
#[test]
fn a_fabric_that_fails_ends_a_run_by_threads(rt: HostRuntime) -> Result<(), Fail> {
    let gate = Counting::new();
    let given = Given {
        words: "fib --n-value 9 --hpx:localities=2 --hpx:threads=4",
        order: Order::FirstIn,
        sends: &[60],
    };
    let ended = ran(&rt, rt.alloc(), &given, &gate)?;
    let Some(told) = ended.told else {
        return Err(Fail::new("no world"));
    };
    assert_eq!(rt; ended.status, 4);
    assert!(rt; told.legal && !told.quiet);
    assert!(rt; gate.jobs() > 0);
    Ok(())
}
