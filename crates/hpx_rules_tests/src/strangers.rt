//! 20,000 frames made from numbers, 400 for each locality of each scene.
use crate::facts::{Facts, facts_of};
use crate::frames::{Numbers, made};
use crate::pair::{Whole, boot, end, play, seen, take};
use crate::rules::wanted;
use crate::scenes::{CALLED, KEEPING, LANDED, LEAVING, Scene, THREE};
use hpx_node::parts::TakeFault;
use hpx_stepped::pair::Pair;
use hpx_value::memory::OutOfMemory;
use std::alloc::Global;
use std::process::Abort;
use std::test::Fail;

/// What came of frames: how many were accepted, spelled nothing, or broke each rule, and how many were answered otherwise than
/// wanted, or changed something though they were refused.
#[derive(Clone, Copy, Debug, PartialEq, Eq)]
struct Told {
    accepted: u32,
    bad: u32,
    broken: [u32; 10],
    wrong: u32,
    changed: u32,
}

impl Told {
    /// Counts one answer.
    fn count(&mut self, answer: Result<(), TakeFault>) {
        match answer {
            Ok(()) => self.accepted = self.accepted.saturating_add(1),
            Err(TakeFault::BadFrame { at: _, why: _ }) => self.bad = self.bad.saturating_add(1),
            Err(
                TakeFault::Strange {
                    rule,
                    object: _,
                    kept: _,
                },
            ) => {
                if let Some(times) = self.broken.get_mut(usize::from(rule)) {
                    *times = times.saturating_add(1);
                }
            }
            Err(TakeFault::OutOfMemory) => self.wrong = self.wrong.saturating_add(1),
        }
    }

    /// Notes that an answer was not the wanted one.
    fn judge(&mut self, is_right: bool) {
        if !is_right {
            self.wrong = self.wrong.saturating_add(1);
        }
    }

    /// Notes that a refusal left something behind.
    fn compare(&mut self, is_same: bool) {
        if !is_same {
            self.changed = self.changed.saturating_add(1);
        }
    }
}

/// A frame comes to a locality of which this is seen. Whether it was accepted.
fn stranger(
    alloc: Global,
    pair: &mut Pair,
    facts: &Facts,
    before: &Whole,
    numbers: &mut Numbers,
    told: &mut Told,
) -> Result<bool, OutOfMemory> {
    let second = facts.here == 1;
    let frame = made(alloc, numbers)?;
    let wanted = wanted(alloc, facts, &frame)?;
    let answer = take(alloc, pair, second, &frame);
    told.count(answer);
    told.judge(answer == wanted);
    if answer.is_ok() {
        return Ok(true);
    }
    told.compare(*before == seen(pair, second));
    Ok(false)
}

/// So many frames come to a locality at the end of a script. Where one is accepted, the script is played anew.
fn strangers(
    alloc: Global,
    script: &[u8],
    pair: &mut Pair,
    facts: &Facts,
    numbers: &mut Numbers,
    told: &mut Told,
) -> Result<(), OutOfMemory> {
    let before = seen(pair, facts.here == 1);
    told.judge(facts.are_seen(&before));
    for _ in 0..400 {
        if stranger(alloc, pair, facts, &before, numbers, told)? {
            play(alloc, pair, script)?;
        }
    }
    Ok(())
}

/// One scene, at one of its localities: behind all frames the session ends as if none had come.
fn scene(
    alloc: Global,
    script: &[u8],
    facts: &Facts,
    pair: &mut Pair,
    numbers: &mut Numbers,
    told: &mut Told,
) -> Result<(), OutOfMemory> {
    play(alloc, pair, script)?;
    end(alloc, pair)?;
    let first = seen(pair, false);
    let second = seen(pair, true);
    play(alloc, pair, script)?;
    strangers(alloc, script, pair, facts, numbers, told)?;
    end(alloc, pair)?;
    told.compare(seen(pair, false) == first && seen(pair, true) == second);
    Ok(())
}

/// One scene, at both localities.
fn at_both(
    alloc: Global,
    at: &Scene,
    pair: &mut Pair,
    numbers: &mut Numbers,
    told: &mut Told,
) -> Result<(), OutOfMemory> {
    scene(alloc, at.script, &facts_of(at, false), pair, numbers, told)?;
    scene(alloc, at.script, &facts_of(at, true), pair, numbers, told)
}

/// All these scenes.
fn played(
    alloc: Global,
    pair: &mut Pair,
    scenes: &[Scene],
    first: u64,
) -> Result<Told, OutOfMemory> {
    let mut told = Told {
        accepted: 0,
        bad: 0,
        broken: [0; 10],
        wrong: 0,
        changed: 0,
    };
    let mut numbers = Numbers::new(first);
    for at in scenes {
        at_both(alloc, at, pair, &mut numbers, &mut told)?;
    }
    Ok(told)
}

/// What comes of all frames, which are made from a first number.
fn all_told(alloc: Global, scenes: &[Scene], first: u64) -> Result<Told, OutOfMemory> {
    let mut pair = boot(alloc)?;
    played(alloc, &mut pair, scenes, first)
}

/// Each answer is the one that the rules give, each rule is broken by some frames, and no refusal leaves anything behind.
fn assert_told(rt: &impl Abort, told: &Told) {
    assert_eq!(rt; (told.wrong, told.changed), (0, 0), "{told:?}");
    for rule in 1..10 {
        assert!(rt; told.broken[rule] > 10, "{rule} {told:?}");
    }
    assert!(rt; told.accepted > 200 && told.bad > 1000, "{told:?}");
}

#[test]
fn strange_frames_are_refused_where_the_number_is_called(rt: HostRuntime) -> Result<(), Fail> {
    let told = all_told(rt.alloc(), &CALLED, 2026)?;
    assert_told(&rt, &told);
    Ok(())
}

#[test]
fn strange_frames_are_refused_where_it_is_to_leave(rt: HostRuntime) -> Result<(), Fail> {
    let told = all_told(rt.alloc(), &LEAVING, 2027)?;
    assert_told(&rt, &told);
    Ok(())
}

#[test]
fn strange_frames_are_refused_where_it_has_landed(rt: HostRuntime) -> Result<(), Fail> {
    let told = all_told(rt.alloc(), &LANDED, 2028)?;
    assert_told(&rt, &told);
    Ok(())
}

#[test]
fn strange_frames_are_refused_among_three_objects(rt: HostRuntime) -> Result<(), Fail> {
    let told = all_told(rt.alloc(), &THREE, 2029)?;
    assert_told(&rt, &told);
    Ok(())
}

#[test]
fn strange_frames_are_refused_where_objects_keep_ids(rt: HostRuntime) -> Result<(), Fail> {
    let told = all_told(rt.alloc(), &KEEPING, 2030)?;
    assert_told(&rt, &told);
    Ok(())
}
