//! Turns and steps, one after another.
use crate::rows::{
    ASKED_AT_TWO, CALLED_AT_TWO, DROPPED_AT_ONE, MADE_AT_ONE, MADE_AT_THREE, MADE_AT_TWO,
    STEPPED_AT_TWO,
};
use crate::story::{Ask, Got, Row, Story, assert_rows, assert_story};
use hpx_ports::memory_fabric::SureFabric;
use hpx_ports::order::Order;
use hpx_value::memory::OutOfMemory;
use std::alloc::Global;
use std::process::Abort;
use std::test::Fail;

/// The world of so many localities, over a fabric in memory.
fn world(alloc: Global, localities: u32) -> Result<Story<SureFabric>, Fail> {
    let fabric = SureFabric::new(alloc, Order::FirstIn);
    Ok(Story::boot(alloc, localities, false, fabric)?)
}

/// A world at rest; rows one behind the other are so of it; and its journal is legal.
fn assert_turns(
    rt: &impl Abort,
    alloc: Global,
    story: &mut Story<SureFabric>,
    first: &[Row],
    then: &[Row],
) -> Result<(), Fail> {
    assert!(rt; story.world.quiet());
    assert_rows(rt, alloc, story, first)?;
    assert_story(rt, alloc, story, then)
}

/// How many localities there are, and rows one behind the other.
type Turns = (u32, &'static [Row], &'static [Row]);

const TURNS: [Turns; 4] = [
    (1, &MADE_AT_ONE, &DROPPED_AT_ONE),
    (2, &MADE_AT_TWO, &CALLED_AT_TWO),
    (3, &MADE_AT_THREE, &[]),
    (2, &STEPPED_AT_TWO, &[]),
];

#[test]
fn each_turn_does_its_own(rt: HostRuntime) -> Result<(), Fail> {
    for (localities, first, then) in &TURNS {
        let mut story = world(rt.alloc(), *localities)?;
        assert_turns(&rt, rt.alloc(), &mut story, first, then)?;
    }
    Ok(())
}

/// A number is made, by 14 entries, and called eight times, by 5 each, before any frame goes.
fn assert_calls(rt: &impl Abort, alloc: Global, story: &mut Story<SureFabric>) -> Result<(), Fail> {
    assert_eq!(rt; story.ask(alloc, Ask::Feed(b'n'))?, Got::Fed);
    assert_eq!(rt; story.ask(alloc, Ask::Drain)?, Got::Drained);
    for byte in *b"aaaaaaaa" {
        assert_eq!(rt; story.ask(alloc, Ask::Feed(byte))?, Got::Fed);
        assert_eq!(rt; story.ask(alloc, Ask::Fire(0))?, Got::Fired(0));
        assert_eq!(rt; story.ask(alloc, Ask::Finish)?, Got::Committed);
    }
    assert_eq!(rt; story.entries(), 14 + 8 * 5);
    Ok(())
}

#[test]
fn a_commit_that_asks_goes_on_where_credit_comes(rt: HostRuntime) -> Result<(), Fail> {
    let mut story = world(rt.alloc(), 2)?;
    assert_calls(&rt, rt.alloc(), &mut story)?;
    assert_story(&rt, rt.alloc(), &mut story, &ASKED_AT_TWO)
}

/// A turn, and what an audit tells of the number then: what is recorded, held and on its way.
type Told = (Ask, u128, u128, u128);

/// Of a number that is made and called once.
const TOLD: [Told; 10] = [
    (Ask::Feed(b'a'), 256, 256, 0),
    (Ask::Fire(0), 256, 256, 0),
    (Ask::Finish, 256, 256, 0),
    (Ask::Pump(0), 256, 128, 128),
    (Ask::Take, 256, 256, 0),
    (Ask::Fire(1), 256, 256, 0),
    (Ask::Finish, 256, 256, 0),
    (Ask::Desk(1), 256, 256, 0),
    (Ask::Pump(1), 256, 128, 128),
    (Ask::Drain, 256, 256, 0),
];

/// What is recorded, held and on its way of the one object, and where it is.
fn told(
    alloc: Global,
    story: &Story<SureFabric>,
) -> Result<Option<(u128, u128, u128, u32)>, OutOfMemory> {
    let lines = story.world.audit(alloc)?;
    match lines.as_slice() {
        [line] => Ok(Some((line.recorded, line.held, line.flight, line.at))),
        _ => Ok(None),
    }
}

/// The audit tells each row behind its turn.
fn assert_told(rt: &impl Abort, alloc: Global, story: &mut Story<SureFabric>) -> Result<(), Fail> {
    assert!(rt; story.world.audit(alloc)?.is_empty());
    story.ask(alloc, Ask::Feed(b'n'))?;
    story.ask(alloc, Ask::Drain)?;
    for (i, (ask, recorded, held, flight)) in TOLD.iter().enumerate() {
        story.ask(alloc, *ask)?;
        let want = Some((*recorded, *held, *flight, 1));
        assert_eq!(rt; told(alloc, story)?, want, "row {i}");
    }
    Ok(())
}

#[test]
fn an_audit_tells_where_credit_is(rt: HostRuntime) -> Result<(), Fail> {
    let mut story = world(rt.alloc(), 2)?;
    assert_told(&rt, rt.alloc(), &mut story)
}
