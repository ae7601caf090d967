//! Drains, in each order of delivery.
use crate::story::{Ask, Got, Story};
use hpx_journal::entry::Event;
use hpx_ports::memory_fabric::SureFabric;
use hpx_ports::order::Order;
use hpx_value::memory::OutOfMemory;
use std::alloc::Global;
use std::process::Abort;
use std::test::Fail;

const ORDERS: [Order; 3] = [Order::FirstIn, Order::LastIn, Order::Scrambled(7)];

/// How many entries a line leaves at so many localities. Where all stand at one, no call and no answer has an Out and an In, and what
/// comes home of an id that is dropped has a Mail in their place.
fn entries_of(localities: u32, byte: u8) -> u64 {
    match (localities, byte) {
        (1, b'n') => 14 - 4,
        (1, b'a') => 15 - 4,
        (1, b'q') => 16 - 4,
        (1, _) => 9 - 1,
        (_, b'n') => 14,
        (_, b'a') => 15,
        (_, b'q') => 16,
        (_, _) => 9,
    }
}

/// The last text that was printed is this.
fn has_printed(story: &Story<SureFabric>, text: &[u8]) -> bool {
    for entry in story.world.journal().as_slice().iter().rev() {
        if let Event::Print { bytes } = &entry.event {
            return bytes.as_slice() == text;
        }
    }
    false
}

/// A line is fed, and all is done that follows; how many entries it left.
fn line(
    rt: &impl Abort,
    alloc: Global,
    story: &mut Story<SureFabric>,
    byte: u8,
) -> Result<u64, Fail> {
    let before = story.entries();
    assert_eq!(rt; story.ask(alloc, Ask::Feed(byte))?, Got::Fed);
    assert!(rt; !story.world.quiet());
    assert_eq!(rt; story.ask(alloc, Ask::Drain)?, Got::Drained);
    assert!(rt; story.world.quiet());
    Ok(story.entries().saturating_sub(before))
}

/// The lines of a session, and what was printed last behind each.
const SESSION: [(u8, &[u8]); 7] = [
    (b'n', b""),
    (b'q', b"0\n"),
    (b'a', b"0\n"),
    (b'a', b"0\n"),
    (b'a', b"0\n"),
    (b'q', b"15\n"),
    (b'd', b"15\n"),
];

/// Each line of the session does all that follows.
fn assert_session(
    rt: &impl Abort,
    alloc: Global,
    story: &mut Story<SureFabric>,
    localities: u32,
) -> Result<(), Fail> {
    assert_eq!(rt; story.ask(alloc, Ask::Drain)?, Got::Drained);
    assert_eq!(rt; story.entries(), 0);
    for (byte, text) in &SESSION {
        let entries = line(rt, alloc, story, *byte)?;
        let want = entries_of(localities, *byte);
        assert_eq!(rt; entries, want, "{localities} localities, byte {byte}");
        assert!(rt; *byte == b'n' || has_printed(story, text));
    }
    Ok(())
}

/// No object is left, the journal is legal, and nothing is in flight.
fn assert_rests(rt: &impl Abort, alloc: Global, story: &Story<SureFabric>) -> Result<(), Fail> {
    assert!(rt; story.world.audit(alloc)?.is_empty());
    assert!(rt; story.is_legal(alloc));
    assert_eq!(rt; story.fabric.in_flight(), 0);
    Ok(())
}

/// A world over a fabric of an order.
fn world(alloc: Global, localities: u32, order: Order) -> Result<Story<SureFabric>, OutOfMemory> {
    let fabric = SureFabric::new(alloc, order);
    Story::boot(alloc, localities, false, fabric)
}

#[test]
fn a_drain_does_all_that_follows(rt: HostRuntime) -> Result<(), Fail> {
    for order in ORDERS {
        for localities in [1u32, 2, 3] {
            let mut story = world(rt.alloc(), localities, order)?;
            assert_session(&rt, rt.alloc(), &mut story, localities)?;
            assert_rests(&rt, rt.alloc(), &story)?;
        }
    }
    Ok(())
}

/// Five calls are made, and each is sent.
fn call(alloc: Global, story: &mut Story<SureFabric>) -> Result<(), OutOfMemory> {
    for byte in *b"aaaaa" {
        for ask in [Ask::Feed(byte), Ask::Fire(0), Ask::Finish, Ask::Pump(0)] {
            story.ask(alloc, ask)?;
        }
    }
    Ok(())
}

/// Five calls come back, of whose answers so many are merged where that is known.
fn assert_calls(
    rt: &impl Abort,
    alloc: Global,
    story: &mut Story<SureFabric>,
    merged: Option<u64>,
) -> Result<(), Fail> {
    call(alloc, story)?;
    assert_eq!(rt; story.fabric.in_flight(), 5);
    assert_eq!(rt; story.entries(), 14 + 5 * 6);
    assert_eq!(rt; story.ask(alloc, Ask::Drain)?, Got::Drained);
    if let Some(merged) = merged {
        let home = 5u64.saturating_sub(merged);
        let more = merged.saturating_add(home.saturating_mul(4));
        assert_eq!(rt; story.entries(), more.saturating_add(14 + 5 * 14));
    }
    Ok(())
}

/// Five calls were made, and the journal is legal.
fn assert_called(
    rt: &impl Abort,
    alloc: Global,
    story: &mut Story<SureFabric>,
    merged: Option<u64>,
) -> Result<(), Fail> {
    assert_eq!(rt; line(rt, alloc, story, b'n')?, 14);
    assert_calls(rt, alloc, story, merged)?;
    assert_eq!(rt; line(rt, alloc, story, b'q')?, 16);
    assert!(rt; has_printed(story, b"25\n"));
    assert!(rt; story.is_legal(alloc));
    Ok(())
}

// Five calls are on their way at once, and come in each order. An answer whose credit is that of the session's id then is merged, by one
// entry; each other one goes home, by Up, Out, In and Count. Of answers that come in the order of the calls the last is merged alone;
// the other way round all are.
#[test]
fn frames_may_come_in_any_order(rt: HostRuntime) -> Result<(), Fail> {
    for (order, merged) in [
        (Order::FirstIn, Some(1)),
        (Order::LastIn, Some(5)),
        (Order::Scrambled(7), None),
    ] {
        let mut story = world(rt.alloc(), 3, order)?;
        assert_called(&rt, rt.alloc(), &mut story, merged)?;
    }
    Ok(())
}
