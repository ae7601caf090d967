//! Why turns, steps and drains are refused, and what stays.
use crate::story::{Ask, Got, Row, Story, assert_rows, assert_story};
use hpx_ports::loose_fabric::LooseFabric;
use hpx_ports::memory_fabric::{MemFabric, SureFabric};
use hpx_ports::order::Order;
use hpx_value::items::{Bytes, Items, Lengths};
use hpx_value::memory::OutOfMemory;
use std::alloc::{AllocError, Global};
use std::collections::VecDeque;
use std::process::Abort;
use std::test::Fail;

fn calls(alloc: Global, numbers: &[u64]) -> Result<Lengths, AllocError> {
    Ok(Lengths::from_vec(Vec::from_slice(alloc, numbers)?))
}

/// The bytes that hexadecimal digits show, whatever stands between them.
fn hex(alloc: Global, text: &str) -> Result<Bytes, Fail> {
    let mut bytes = Vec::new(alloc);
    let mut high: Option<u8> = None;
    for c in text.chars() {
        if let Some(digit) = c.to_digit(16) {
            match high {
                None => high = Some(digit as u8),
                Some(first) => {
                    bytes.push(first << 4u32 | digit as u8)?;
                    high = None;
                }
            }
        }
    }
    Ok(Items::from_vec(bytes))
}

/// The call that has a number made at locality 1.
const NEW: &str =
    "0101 0000 0000000000000002 0000000200000007 0000000000000001 0005 0000 01 0000000100000003 0000000000000001 00000000";

/// A world of two localities over a fabric that brings one frame to a locality, and nothing else.
fn strange(alloc: Global, to: u32, frame: &str) -> Result<Story<LooseFabric>, Fail> {
    let mut brings = VecDeque::new(alloc);
    brings.push_back(Ok(Some((to, hex(alloc, frame)?))))?;
    Ok(Story::boot(alloc, 2, false, LooseFabric::new(brings))?)
}

/// To whom a frame comes, and what comes of it.
type Brought = (u32, &'static str, Got);

const BROUGHT: [Brought; 7] = [
    // no parcel, to a locality and to none
    (1, "01ff", Got::BadFrame(1, 1)),
    (7, "01ff", Got::BadFrame(7, 1)),
    (0, "", Got::BadFrame(0, 0)),
    // a parcel to none of two localities
    (7, NEW, Got::Strange(7, 9, 2)),
    // a Return of what was never made, and one whose home is none
    (
        1,
        "0102 0000000248000021 0000000000000001",
        Got::Strange(1, 1, 0),
    ),
    (
        1,
        "0102 0000000648000021 0000000000000001",
        Got::Strange(1, 9, 2),
    ),
    // an action on a number that is not born
    (
        1,
        "0101 0000 0000000000000003 0000000247000021 0000000000000001 0010 0000 00",
        Got::Strange(1, 8, 0),
    ),
];

/// The frame that is in hand is this one, to this locality.
fn assert_in_hand(
    rt: &impl Abort,
    story: &Story<LooseFabric>,
    to: u32,
    frame: &[u8],
) -> Result<(), Fail> {
    match story.world.in_hand() {
        Some((at, bytes)) => {
            assert_eq!(rt; *at, to);
            assert_eq!(rt; bytes.as_slice(), frame);
            Ok(())
        }
        None => Err(Fail::new("nothing in hand")),
    }
}

/// Each call that would accept the frame is refused for it, and it stays in hand, whole.
fn assert_stays(
    rt: &impl Abort,
    alloc: Global,
    story: &mut Story<LooseFabric>,
    row: &Brought,
) -> Result<(), Fail> {
    let (to, frame, want) = row;
    let frame = hex(alloc, frame)?;
    for ask in [Ask::Take, Ask::Take, Ask::Step, Ask::Drain] {
        assert_rows(rt, alloc, story, &[(ask, *want, 0, false)])?;
        assert_in_hand(rt, story, *to, frame.as_slice())?;
    }
    Ok(())
}

/// The frame of a row stays in hand, and other turns go on.
fn assert_refused(
    rt: &impl Abort,
    alloc: Global,
    story: &mut Story<LooseFabric>,
    row: &Brought,
) -> Result<(), Fail> {
    assert!(rt; story.world.in_hand().is_none());
    assert_stays(rt, alloc, story, row)?;
    let rows = [
        (Ask::Feed(b'n'), Got::Fed, 1, false),
        (Ask::Fire(0), Got::Fired(0), 2, false),
        (Ask::Finish, Got::Committed, 4, false),
        (Ask::Pump(0), Got::Moved, 5, false),
        (Ask::Take, row.2, 5, false),
    ];
    assert_story(rt, alloc, story, &rows)
}

#[test]
fn a_frame_that_is_refused_stays_in_hand(rt: HostRuntime) -> Result<(), Fail> {
    for row in &BROUGHT {
        let mut story = strange(rt.alloc(), row.0, row.1)?;
        assert_refused(&rt, rt.alloc(), &mut story, row)?;
    }
    Ok(())
}

/// A frame that was never sent is taken, and the journal is not legal then.
fn assert_illegal(
    rt: &impl Abort,
    alloc: Global,
    story: &mut Story<LooseFabric>,
) -> Result<(), Fail> {
    assert_rows(rt, alloc, story, &[(Ask::Take, Got::Moved, 1, false)])?;
    assert!(rt; !story.is_legal(alloc));
    Ok(())
}

// A frame that was never sent is accepted where it breaks no rule; only the judge tells.
#[test]
fn a_frame_that_was_never_sent_makes_no_legal_journal(rt: HostRuntime) -> Result<(), Fail> {
    let mut story = strange(rt.alloc(), 1, NEW)?;
    assert_illegal(&rt, rt.alloc(), &mut story)
}

/// Where no frame is ever brought.
const LOST: [Row; 7] = [
    (Ask::Drain, Got::Drained, 0, true),
    (Ask::Feed(b'n'), Got::Fed, 1, false),
    (Ask::Take, Got::Empty, 1, false),
    (Ask::Drain, Got::EarlyEnd(1, 0), 5, false),
    (Ask::Take, Got::EarlyEnd(1, 0), 5, false),
    (Ask::Step, Got::EarlyEnd(1, 0), 5, false),
    (Ask::Drain, Got::EarlyEnd(1, 0), 5, false),
];

// The fabric takes the first frame and brings nothing.
#[test]
fn a_frame_that_is_lost_ends_early(rt: HostRuntime) -> Result<(), Fail> {
    let brings = VecDeque::new(rt.alloc());
    let mut story = Story::boot(rt.alloc(), 2, false, LooseFabric::new(brings))?;
    assert_story(&rt, rt.alloc(), &mut story, &LOST)
}

/// Where the first and the third send fail, and the second and the fourth delivery.
const FAILING: [Row; 14] = [
    (Ask::Feed(b'n'), Got::Fed, 1, false),
    (Ask::Fire(0), Got::Fired(0), 2, false),
    (Ask::Finish, Got::Committed, 4, false),
    (Ask::Pump(1), Got::Empty, 4, false),
    (Ask::Pump(0), Got::Fabric, 4, false),
    (Ask::Take, Got::Empty, 4, false),
    (Ask::Pump(0), Got::Moved, 5, false),
    (Ask::Take, Got::Fabric, 5, false),
    (Ask::Take, Got::Moved, 6, false),
    (Ask::Drain, Got::Fabric, 10, false),
    (Ask::Step, Got::Stepped, 11, false),
    (Ask::Step, Got::Fabric, 11, false),
    (Ask::Step, Got::Stepped, 12, false),
    (Ask::Drain, Got::Drained, 14, true),
];

/// A world of two localities over a fabric that fails so.
fn failing(alloc: Global, order: Order) -> Result<Story<MemFabric>, OutOfMemory> {
    let sends = calls(alloc, &[1, 3])?;
    let delivers = calls(alloc, &[2, 4])?;
    let fabric = MemFabric::new(alloc, order, sends, delivers);
    Story::boot(alloc, 2, false, fabric)
}

/// The rows are so, the fabric failed four times, and nothing is in flight.
fn assert_failing(
    rt: &impl Abort,
    alloc: Global,
    story: &mut Story<MemFabric>,
) -> Result<(), Fail> {
    assert_story(rt, alloc, story, &FAILING)?;
    assert_eq!(rt; story.fabric.faults(), 4);
    assert_eq!(rt; story.fabric.in_flight(), 0);
    Ok(())
}

// A refused call changes nothing, and may be made again.
#[test]
fn a_fabric_that_fails_is_told(rt: HostRuntime) -> Result<(), Fail> {
    for order in [Order::FirstIn, Order::LastIn, Order::Scrambled(7)] {
        let mut story = failing(rt.alloc(), order)?;
        assert_failing(&rt, rt.alloc(), &mut story)?;
    }
    Ok(())
}

/// A world over a fabric that does not fail.
fn sure(alloc: Global, localities: u32, is_full: bool) -> Result<Story<SureFabric>, OutOfMemory> {
    let fabric = SureFabric::new(alloc, Order::FirstIn);
    Story::boot(alloc, localities, is_full, fabric)
}

/// Where no job finds memory.
const NOT_RUN: [Row; 10] = [
    (Ask::Feed(b'n'), Got::Fed, 1, false),
    (Ask::Step, Got::NotRun(0), 2, false),
    (Ask::Step, Got::Still, 2, false),
    (Ask::Drain, Got::Drained, 2, false),
    (Ask::Finish, Got::Committed, 4, false),
    (Ask::Drain, Got::NotRun(1), 7, false),
    (Ask::Finish, Got::Committed, 10, false),
    (Ask::Drain, Got::NotRun(0), 13, false),
    (Ask::Finish, Got::Committed, 14, true),
    (Ask::Drain, Got::Drained, 14, true),
];

// A job that finds no memory is handed back; it is out until it is finished.
#[test]
fn a_job_without_memory_is_handed_back(rt: HostRuntime) -> Result<(), Fail> {
    let mut story = sure(rt.alloc(), 2, true)?;
    assert_story(&rt, rt.alloc(), &mut story, &NOT_RUN)
}

/// A number is made, and moves.
const MOVED: [Row; 5] = [
    (Ask::Feed(b'n'), Got::Fed, 1, false),
    (Ask::Drain, Got::Drained, 14, true),
    (Ask::Feed(b'm'), Got::Fed, 15, false),
    (Ask::Drain, Got::Drained, 32, true),
    (Ask::Take, Got::Empty, 32, true),
];

// A move is sent to the number's home, and the number leaves there: Line; Fire; Split, Done and Sent; Out; and twelve entries more.
#[test]
fn a_number_moves_to_where_it_is_called_from(rt: HostRuntime) -> Result<(), Fail> {
    let mut story = sure(rt.alloc(), 2, false)?;
    assert_story(&rt, rt.alloc(), &mut story, &MOVED)
}

/// A line that does nothing leaves a Line, a Fire and a Done; so many of them, the Line and the Fire of one more leave no room for a turn.
const LINES: u64 = 698_709;

// They weigh 64 each, and the byte of each line.
const ENTRIES: u64 = 3 * LINES + 2;

const WEIGHT: u64 = 64 * ENTRIES + LINES + 1;

/// Behind so many lines.
const FULL: [Row; 11] = [
    (Ask::Drain, Got::Drained, ENTRIES - 2, true),
    (Ask::Feed(b'x'), Got::Fed, ENTRIES - 1, false),
    (Ask::Fire(0), Got::Fired(0), ENTRIES, false),
    (
        Ask::Finish,
        Got::Full(ENTRIES, WEIGHT, true),
        ENTRIES,
        false,
    ),
    (
        Ask::Feed(b'x'),
        Got::Full(ENTRIES, WEIGHT, false),
        ENTRIES,
        false,
    ),
    (
        Ask::Fire(0),
        Got::Full(ENTRIES, WEIGHT, false),
        ENTRIES,
        false,
    ),
    (
        Ask::Desk(0),
        Got::Full(ENTRIES, WEIGHT, false),
        ENTRIES,
        false,
    ),
    (
        Ask::Pump(0),
        Got::Full(ENTRIES, WEIGHT, false),
        ENTRIES,
        false,
    ),
    (Ask::Take, Got::Full(ENTRIES, WEIGHT, false), ENTRIES, false),
    (Ask::Step, Got::Full(ENTRIES, WEIGHT, false), ENTRIES, false),
    (
        Ask::Drain,
        Got::Full(ENTRIES, WEIGHT, false),
        ENTRIES,
        false,
    ),
];

/// So many lines are fed, and each is done.
fn fill(alloc: Global, story: &mut Story<SureFabric>) -> Result<(), OutOfMemory> {
    for _ in 0..LINES {
        story.ask(alloc, Ask::Feed(b'x'))?;
        story.ask(alloc, Ask::Fire(0))?;
        story.ask(alloc, Ask::Finish)?;
    }
    Ok(())
}

// A journal has room for a turn up to 2,096,128 entries.
#[test]
fn a_full_journal_refuses_each_turn(rt: HostRuntime) -> Result<(), Fail> {
    let mut story = sure(rt.alloc(), 1, false)?;
    fill(rt.alloc(), &mut story)?;
    assert_rows(&rt, rt.alloc(), &mut story, &FULL)
}
