//! Gates by which a test sees what workers do.
use hpx_ports::gate::Gate;
use std::sync::atomic::{AtomicU64, Ordering};
use std::sync::{Condvar, Mutex, Wait};
use std::time::{Clock, Duration};

/// Counts the jobs that workers run.
#[derive(Drop)]
pub struct Counting {
    jobs: AtomicU64,
}

impl Counting {
    pub fn new() -> Counting {
        Counting {
            jobs: AtomicU64::new(0),
        }
    }

    /// How many jobs have passed.
    pub fn jobs(&self) -> u64 {
        self.jobs.load(Ordering::SeqCst)
    }
}

impl Gate for Counting {
    fn pass(&self, _worker: u32, _serial: u64) {
        self.jobs.fetch_add(1, Ordering::SeqCst);
    }
}

/// How many seconds a job is held at most.
const PATIENCE: u64 = 20;

/// How many jobs have passed, the workers of the third and the fourth, and whether the third was held in vain.
#[derive(Clone, Copy, Debug, PartialEq, Eq)]
pub struct Passed {
    pub jobs: u64,
    pub third: u32,
    pub fourth: u32,
    pub in_vain: bool,
}

/// Holds the third job that comes until a fourth has passed.
#[derive(Drop)]
pub struct Third<'a, R: Wait + Clock> {
    rt: &'a R,
    passed: Mutex<Passed>,
    another: Condvar,
}

impl<'a, R: Wait + Clock> Third<'a, R> {
    pub fn new(rt: &'a R) -> Third<'a, R> {
        Third {
            rt,
            passed: Mutex::new(Passed {
                jobs: 0,
                third: 0,
                fourth: 0,
                in_vain: false,
            }),
            another: Condvar::new(),
        }
    }

    /// What has passed, once no thread is at the gate any more.
    pub fn into_passed(self) -> Passed {
        self.passed.into_inner()
    }
}

impl<'a, R: Wait + Clock + Sync> Gate for Third<'a, R> {
    fn pass(&self, worker: u32, _serial: u64) {
        let mut passed = self.passed.lock(self.rt);
        passed.jobs = passed.jobs.saturating_add(1);
        if passed.jobs == 4 {
            passed.fourth = worker;
        }
        if passed.jobs != 3 {
            self.another.notify_all();
            return;
        }
        passed.third = worker;
        let (mut later, ended) = self.another.wait_timeout_while(
            self.rt,
            passed,
            Duration::from_secs(PATIENCE),
            |passed| passed.jobs < 4,
        );
        later.in_vain = ended.timed_out();
    }
}
