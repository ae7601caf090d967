ghost use Rattle.std.specs.Prelude.{◌≡◌, map};
ghost use Rattle.hpx_pool.specs.Hands.{frame_of};

use hpx_pool::hand::Hand;
use hpx_pool::pool::{gather, hands};
use hpx_value::acts::Job;
use hpx_value::items::Items;
use hpx_value::value::{Act, State};
use std::alloc::Global;
use std::sync::Wait;
use std::test::Fail;

// A job at a locality, by which it is known again.
fn job(alloc: Global, at: u32) -> Job {
    Job {
        at,
        kind: 16,
        state: State {
            drawn: 0,
            values: Items::new(alloc),
            conts: Items::new(alloc),
            ids: Items::new(alloc),
        },
        action: Act {
            origin: 0,
            serial: 1,
            code: 1,
            args: Items::new(alloc),
            cont: None,
            ids: Items::new(alloc),
        },
    }
}

// Where the next job of a hand is, or 99 where there is none.
fn next<R: Wait>(rt: &R, hand: Option<&mut Hand>) -> u32 {
    match hand {
        Some(hand) => match hand.get(rt) {
            Some(job) => job.at,
            None => 99,
        },
        None => 98,
    }
}

#[test]
fn jobs_come_in_order_and_are_stolen(rt: HostRuntime) -> Result<(), Fail> {
    let alloc = rt.alloc();
    // How many hands, which of them has jobs, how many, who gets, and what.
    for (n, has, jobs, gets, want) in [
        (1, 0, 3, 0, [0, 1, 2, 99]),
        (2, 0, 3, 1, [0, 1, 2, 99]),
        (2, 1, 3, 0, [0, 1, 2, 99]),
        (3, 1, 2, 2, [0, 1, 99, 99]),
        (64, 63, 4, 0, [0, 1, 2, 3]),
        (4, 2, 0, 1, [99, 99, 99, 99]),
    ] {
        let mut pool = hands(alloc, n)?;
        for at in 0..jobs {
            match pool.get_mut(has) {
                Some(hand) => assert!(rt; hand.put(job(alloc, at)).is_ok()),
                None => return Err(Fail::new("no such hand")),
            }
        }
        for at in want {
            assert_eq!(rt; next(&rt, pool.get_mut(gets)), at);
        }
    }
    Ok(())
}

// Puts so many jobs on a hand.
fn fill(alloc: Global, hand: &mut Hand, jobs: u32) -> bool
    ensures { frame_of hand.new ≡ frame_of hand.old }
{
    for at in 0..jobs {
        if hand.put(job(alloc, at)).is_err() {
            return false;
        }
    }
    true
}

// Puts so many jobs on each hand.
fn fill_all(alloc: Global, pool: &mut [Hand], jobs: u32) -> bool
    ensures { map frame_of pool.new ≡ map frame_of pool.old }
{
    let Some((first, rest)) = pool.split_first_mut() else {
        return true;
    };
    fill(alloc, first, jobs) && fill_all(alloc, rest, jobs)
}

// Gets so many jobs.
fn take<R: Wait>(rt: &R, hand: &mut Hand, times: u32) -> bool
    ensures { frame_of hand.new ≡ frame_of hand.old }
{
    for _ in 0..times {
        if hand.get(rt).is_none() {
            return false;
        }
    }
    true
}

// The first hand gets so many jobs.
fn take_first<R: Wait>(rt: &R, pool: &mut [Hand], times: u32) -> bool
    ensures { map frame_of pool.new ≡ map frame_of pool.old }
{
    match pool.split_first_mut() {
        Some((first, _rest)) => take(rt, first, times),
        None => false,
    }
}

#[test]
fn what_is_left_is_gathered(rt: HostRuntime) -> Result<(), Fail> {
    let alloc = rt.alloc();
    // How many hands, how many jobs each has, how many one of them gets, and how many are left.
    for (n, jobs, got, left) in [(1, 5, 2, 3), (2, 20, 27, 13), (3, 0, 0, 0), (8, 1, 8, 0)] {
        let mut pool = hands(alloc, n)?;
        assert!(rt; fill_all(alloc, pool.as_mut_slice(), jobs));
        assert!(rt; take_first(&rt, pool.as_mut_slice(), got));
        match gather(alloc, pool) {
            Ok(jobs) => assert_eq!(rt; jobs.len(), left),
            Err(_) => return Err(Fail::new("not gathered")),
        }
    }
    Ok(())
}
