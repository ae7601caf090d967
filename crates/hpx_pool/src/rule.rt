//! The rule of a deque: what was put into it is what was got from it and what it holds.
use crossbeam_deque::protocol::{Join, Lesson, Outcome, Protocol, Split};
use hpx_value::acts::Job;
use std::collections::LinkedList;

/// What a pass has put into the deque and got from it, and its parts of the right to know the whole. No value of it is made.
pub struct Tally {
    pub parts: u64,
    pub put: LinkedList<Job>,
    pub got: LinkedList<Job>,
}

pub struct Fair;

impl Protocol<Job, Tally> for Fair {
    ghost use Rattle.std.specs.Prelude.{[]};
    ghost use Rattle.hpx_pool.specs.Rule.{Balanced, tally};

    ghost holds = { Balanced };

    ghost first = { tally 128 [] [] };

    ghost guest = { tally 0 [] [] };
}

pub struct Cut;

impl Split<Tally> for Cut {
    ghost use Rattle.std.specs.Prelude.{[], ◌-◌};
    ghost use Rattle.hpx_pool.specs.Rule.{tally};

    ghost left = { λ v. tally (v.parts - 1) v.put v.got };

    ghost right = { λ v. tally 1 [] [] };
}

impl Join<Tally> for Cut {
    ghost use Rattle.std.specs.Prelude.{[]};
    ghost use Rattle.hpx_pool.specs.Rule.{tally, both};

    ghost both = { both };

    ghost spent = { tally 0 [] [] };
}

pub struct Puts;

impl Outcome<Job, Tally> for Puts {
    ghost use Rattle.std.specs.Prelude.{◌≡◌, ◌++◌};
    ghost use Rattle.hpx_pool.specs.Rule.{tally};

    ghost then = { λ v xs w. w ≡ tally v.parts (v.put ++ xs) v.got };
}

pub struct Gets;

impl Outcome<Job, Tally> for Gets {
    ghost use Rattle.std.specs.Prelude.{◌≡◌, ◌++◌};
    ghost use Rattle.hpx_pool.specs.Rule.{tally, NothingLeft, NoMore};

    ghost then = { λ v xs w. (w ≡ tally v.parts v.put (v.got ++ xs)) × NoMore w };

    ghost empty = { NothingLeft };
}

pub struct Left;

impl Lesson<Job, Tally> for Left {
    ghost use Rattle.hpx_pool.specs.Rule.{IsLeft};

    ghost fact = { IsLeft };
}
