//! The greatest line, frame and hand.
use crate::story::{Ask, Got, Row, Story, assert_rows};
use hpx_ports::loose_fabric::LooseFabric;
use hpx_ports::memory_fabric::SureFabric;
use hpx_ports::order::Order;
use hpx_value::items::{Bytes, Items};
use hpx_value::memory::OutOfMemory;
use hpx_world::turns::{Choice, Turned};
use std::alloc::Global;
use std::collections::VecDeque;
use std::process::Abort;
use std::test::Fail;

/// A number in its last bytes, so many of eight, the greatest first.
fn push_number(out: &mut Vec<u8>, bytes: usize, number: u64) -> Result<(), OutOfMemory> {
    for byte in number
        .to_be_bytes()
        .iter()
        .skip(8usize.saturating_sub(bytes))
    {
        out.push(*byte)?;
    }
    Ok(())
}

/// An id: its home, counted from 1, twice its kind and one, and its number. One of a managed object has a credit of log 7.
fn push_id(out: &mut Vec<u8>, home: u64, kind: u64, number: u64) -> Result<(), OutOfMemory> {
    push_number(out, 4, home)?;
    push_number(out, 1, if kind < 32 { 0 } else { 0x47 })?;
    push_number(out, 3, kind)?;
    push_number(out, 8, number)
}

/// How the frame of an action from locality 0 on the namespace of components at locality 1 begins, with so many arguments.
fn push_head(out: &mut Vec<u8>, args: u64) -> Result<(), OutOfMemory> {
    push_number(out, 2, 0x0101)?;
    push_number(out, 2, 0)?;
    push_number(out, 8, 2)?;
    push_id(out, 2, 7, 1)?;
    push_number(out, 2, 0x10)?;
    push_number(out, 2, args)
}

/// The frame of an action on the namespace of components at locality 1, whose arguments are texts of these lengths. Without them it
/// has 33 bytes, of which 31 are the action's.
fn texts(alloc: Global, lengths: &[u64]) -> Result<Bytes, OutOfMemory> {
    let mut out = Vec::new(alloc);
    push_head(&mut out, lengths.len() as u64)?;
    for length in lengths {
        push_number(&mut out, 1, 3)?;
        push_number(&mut out, 2, *length)?;
        for _ in 0..*length {
            out.push(b't')?;
        }
    }
    push_number(&mut out, 1, 0)?;
    Ok(Items::from_vec(out))
}

/// A world of two localities over a fabric that brings a frame to locality 1.
fn brought(alloc: Global, frame: Bytes) -> Result<Story<LooseFabric>, OutOfMemory> {
    let mut brings = VecDeque::new(alloc);
    brings.push_back(Ok(Some((1, frame))))?;
    Story::boot(alloc, 2, false, LooseFabric::new(brings))
}

/// The lengths of the texts in a frame, how many bytes it has, what comes of it, and how many entries.
type Long = (&'static [u64], usize, Got, u64);

// An action has at most 65,000 bytes and a text 16,384, so the longest frame of an action has 65,002. Of 65,536 bytes a frame is looked
// at, of more it is not.
const LONG: [Long; 4] = [
    (&[16384, 16384, 16384, 15805], 65_002, Got::Moved, 1),
    (
        &[16384, 16384, 16384, 15806],
        65_003,
        Got::BadFrame(1, 2),
        0,
    ),
    (
        &[16384, 16384, 16384, 16336, 0],
        65_536,
        Got::BadFrame(1, 2),
        0,
    ),
    (
        &[16384, 16384, 16384, 16337, 0],
        65_537,
        Got::BadFrame(1, 65_536),
        0,
    ),
];

/// What comes of a frame is what its row says, and an action is run.
fn assert_taken(
    rt: &impl Abort,
    alloc: Global,
    story: &mut Story<LooseFabric>,
    row: &Long,
) -> Result<(), Fail> {
    let (_, bytes, want, entries) = row;
    assert_eq!(rt; story.ask(alloc, Ask::Take)?, *want, "{bytes} bytes");
    assert_eq!(rt; story.entries(), *entries);
    let weight = story.world.journal().weight();
    assert_eq!(rt; weight, entries.saturating_mul(64 + 65_002));
    if *entries == 1 {
        let rows = [
            (Ask::Fire(1), Got::Fired(1), 2, false),
            (Ask::Finish, Got::Committed, 3, false),
        ];
        assert_rows(rt, alloc, story, &rows)?;
    }
    Ok(())
}

#[test]
fn the_longest_frame_is_accepted(rt: HostRuntime) -> Result<(), Fail> {
    for row in &LONG {
        let frame = texts(rt.alloc(), row.0)?;
        assert_eq!(rt; frame.len(), row.1);
        let mut story = brought(rt.alloc(), frame)?;
        assert_taken(&rt, rt.alloc(), &mut story, row)?;
    }
    Ok(())
}

/// The frame of an action on the namespace of components at locality 1, whose arguments are so many ids of objects of locality 0.
fn ids(alloc: Global, count: u64) -> Result<Bytes, OutOfMemory> {
    let mut out = Vec::new(alloc);
    push_head(&mut out, count)?;
    for number in 0..count {
        push_number(&mut out, 1, 4)?;
        push_id(&mut out, 1, 33, number.saturating_add(1))?;
    }
    push_number(&mut out, 1, 0)?;
    Ok(Items::from_vec(out))
}

/// These rows are so of a frame with so many ids.
fn assert_ids(rt: &impl Abort, alloc: Global, count: u64, rows: &[Row]) -> Result<(), Fail> {
    let mut story = brought(alloc, ids(alloc, count)?)?;
    assert_rows(rt, alloc, &mut story, rows)
}

const MOST_IDS: [Row; 4] = [
    (Ask::Take, Got::Moved, 1, false),
    (Ask::Fire(1), Got::Fired(1), 2, false),
    (Ask::Finish, Got::Committed, 3 + 32, false),
    (Ask::Drain, Got::EarlyEnd(32, 1), 3 + 64, false),
];

const ONE_MORE: [Row; 1] = [(Ask::Take, Got::BadFrame(1, 32 + 17 * 32), 0, false)];

// An action has at most 32 ids. Nobody names them behind it, so all are given up, and each goes home in a frame.
#[test]
fn the_most_ids_come_and_go_home(rt: HostRuntime) -> Result<(), Fail> {
    assert_ids(&rt, rt.alloc(), 32, &MOST_IDS)?;
    assert_ids(&rt, rt.alloc(), 33, &ONE_MORE)
}

/// Whether a line of so many bytes is fed.
fn feed(alloc: Global, story: &mut Story<SureFabric>, bytes: usize) -> Result<bool, OutOfMemory> {
    let line = vec![in alloc; b'x'; bytes]?;
    if line.len() > 1025 {
        return Err(OutOfMemory);
    }
    let choice = Choice::Feed(Items::from_vec(line));
    let fed = story.world.turn(alloc, choice, &mut story.fabric);
    Ok(matches!(fed, Ok(Turned::Fed)))
}

/// The longest line is fed, and done.
fn assert_fed(rt: &impl Abort, alloc: Global, story: &mut Story<SureFabric>) -> Result<(), Fail> {
    assert!(rt; feed(alloc, story, 1025)?);
    assert_eq!(rt; story.world.journal().weight(), 64 + 1025);
    assert_eq!(rt; story.ask(alloc, Ask::Drain)?, Got::Drained);
    assert_eq!(rt; story.entries(), 3);
    assert!(rt; story.is_legal(alloc));
    Ok(())
}

// A line of 1,024 bytes, behind its mark.
#[test]
fn the_longest_line_is_fed(rt: HostRuntime) -> Result<(), Fail> {
    let fabric = SureFabric::new(rt.alloc(), Order::FirstIn);
    let mut story = Story::boot(rt.alloc(), 1, false, fabric)?;
    assert_fed(&rt, rt.alloc(), &mut story)
}
