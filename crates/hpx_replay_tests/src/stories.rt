//! Journals by hand: one from a birth to the freeing, with a call, an ask and a move, and wrong ones.
ghost use Rattle.std.specs.Prelude.{◌<◌};

use hpx_journal::cargo::one;
use hpx_journal::entry::{Entry, Event, Name, Reason};
use hpx_journal::journal::Journal;
use hpx_replay::replay::{ReplayFault, replay};
use hpx_replay::space::Space;
use hpx_trial::trial::Trial;
use hpx_value::gid::Gid;
use hpx_value::items::{Bytes, Items};
use hpx_value::memory::OutOfMemory;
use hpx_value::profile::Profile;
use hpx_value::value::{State, Value};
use std::alloc::Global;

/// The number of a hexadecimal digit; 0 for any other byte.
fn digit(byte: u8) -> u8
    ensures { result < 16 }
{
    match byte {
        b'0'..=b'9' => byte - b'0',
        b'a'..=b'f' => byte - b'a' + 10,
        _ => 0,
    }
}

/// Bytes that are written as hexadecimal digits, in pairs, with spaces between some pairs.
fn hex(alloc: Global, text: &[u8]) -> Result<Bytes, OutOfMemory> {
    let mut out = Vec::new(alloc);
    let mut first: Option<u8> = None;
    for byte in text {
        if *byte == b' ' {
            continue;
        }
        match first {
            Some(high) => {
                let high = if high < 16 { high } else { 0 };
                out.push(high * 16 + digit(*byte))?;
                first = None;
            }
            None => first = Some(digit(*byte)),
        }
    }
    Ok(Items::from_vec(out))
}

const NEW: &[u8] =
    b"0101 0000 0000000000000002 0000000200000007 0000000000000001 0005 0000 01 0000000100000003 0000000000000001 00000000";

const MADE: &[u8] =
    b"0101 0001 0000000000000001 0000000100000003 0000000000000001 0003 0002 02 0000000000000000 04 0000000248000021 0000000000000001 00";

const OTHER_ANSWER: &[u8] =
    b"0101 0001 0000000000000001 0000000100000003 0000000000000001 0003 0002 02 0000000000000001 04 0000000248000021 0000000000000001 00";

const ADD: &[u8] =
    b"0101 0000 0000000000000004 0000000247000021 0000000000000001 0010 0001 02 0000000000000005 01 0000000100000003 0000000000000001 00000001";

const ADDED: &[u8] =
    b"0101 0001 0000000000000002 0000000100000003 0000000000000001 0003 0003 02 0000000000000001 00 04 0000000247000021 0000000000000001 00";

const ASK: &[u8] = b"0103 0000000240000021 0000000000000001 0000 0000000000000000";

const GIVE: &[u8] = b"0104 0000000248000021 0000000000000001 0000000000000000";

const MOVE: &[u8] =
    b"0106 0000 0000000000000006 0000000247000021 0000000000000001 0001 0001 02 0000000000000000 00";

const OBJECT: &[u8] =
    b"0108 0000 0000000000000006 0000000247000021 0000000000000001 0001 0001 02 0000000000000000 00 00000000 0001 02 0000000000000005 0000";

const FREE: &[u8] = b"010a 0000000200000021 0000000000000001";
/// The MOVE where less credit is left: log 6, and serial 5.
const EARLY_MOVE: &[u8] =
    b"0106 0000 0000000000000006 0000000246000021 0000000000000001 0001 0001 02 0000000000000000 00";

/// A Return of the object with this log.
fn give_back(alloc: Global, log: u8) -> Result<Bytes, OutOfMemory> {
    let mut out = hex(alloc, b"0102 00000002")?;
    out.push(0x40u8.saturating_add(log))?;
    for byte in hex(alloc, b"000021 0000000000000001")?.as_slice() {
        out.push(*byte)?;
    }
    Ok(out)
}

/// The object: the first that is made at locality 1.
fn object() -> Gid {
    Gid::new(1, 16, 1)
}

/// A journal that is written by hand.
#[derive(Drop)]
struct Story {
    alloc: Global,
    entries: Vec<Entry>,
}

impl Story {
    fn new(alloc: Global) -> Story {
        Story {
            alloc,
            entries: Vec::new(alloc),
        }
    }

    fn add(&mut self, at: u32, event: Event) -> Result<(), OutOfMemory> {
        self.entries.push(Entry { at, event })?;
        Ok(())
    }

    fn line(&mut self, serial: u64, byte: u8) -> Result<(), OutOfMemory> {
        let action = Name { origin: 0, serial };
        let bytes = one(self.alloc, byte)?;
        self.add(0, Event::Line { action, bytes })
    }

    fn fire(&mut self, at: u32, origin: u16, serial: u64) -> Result<(), OutOfMemory> {
        let action = Name { origin, serial };
        self.add(at, Event::Fire { action })
    }

    fn done(&mut self, at: u32, origin: u16, serial: u64) -> Result<(), OutOfMemory> {
        let action = Name { origin, serial };
        self.add(
            at,
            Event::Done {
                action,
                failed: false,
            },
        )
    }

    fn sent(&mut self, at: u32, origin: u16, serial: u64) -> Result<(), OutOfMemory> {
        let action = Name { origin, serial };
        self.add(at, Event::Sent { action })
    }

    fn out(&mut self, at: u32, to: u32, text: &[u8]) -> Result<(), OutOfMemory> {
        let bytes = hex(self.alloc, text)?;
        self.add(at, Event::Out { to, bytes })
    }

    fn arrive(&mut self, at: u32, text: &[u8]) -> Result<(), OutOfMemory> {
        let bytes = hex(self.alloc, text)?;
        self.add(at, Event::In { bytes })
    }

    fn split(&mut self, at: u32, log: u8) -> Result<(), OutOfMemory> {
        self.add(
            at,
            Event::Split {
                object: object(),
                log,
            },
        )
    }

    fn merge(&mut self, at: u32, log: u8) -> Result<(), OutOfMemory> {
        self.add(
            at,
            Event::Merge {
                object: object(),
                log,
            },
        )
    }

    fn up(&mut self, at: u32, log: u8) -> Result<(), OutOfMemory> {
        self.add(
            at,
            Event::Up {
                object: object(),
                log,
            },
        )
    }

    fn count(&mut self, count: u128, why: Reason) -> Result<(), OutOfMemory> {
        self.add(
            1,
            Event::Count {
                object: object(),
                count,
                why,
            },
        )
    }

    fn born(&mut self) -> Result<(), OutOfMemory> {
        let state = State {
            drawn: 0,
            values: one(self.alloc, Value::Int(0))?,
            conts: Items::new(self.alloc),
            ids: Items::new(self.alloc),
        };
        self.add(
            1,
            Event::Born {
                object: object(),
                state,
            },
        )
    }

    /// 14 entries: the first line has the object made at locality 1, and its id comes to the session.
    fn birth(&mut self) -> Result<(), OutOfMemory> {
        self.line(1, b'n')?;
        self.fire(0, 0, 1)?;
        self.done(0, 0, 1)?;
        self.sent(0, 0, 2)?;
        self.out(0, 1, NEW)?;
        self.arrive(1, NEW)?;
        self.fire(1, 0, 2)?;
        self.born()?;
        self.done(1, 0, 2)?;
        self.sent(1, 1, 1)?;
        self.out(1, 0, MADE)?;
        self.arrive(0, MADE)?;
        self.fire(0, 1, 1)?;
        self.done(0, 1, 1)
    }

    /// 8 entries: the second line adds, and the call comes to the object.
    fn call(&mut self) -> Result<(), OutOfMemory> {
        self.line(3, b'a')?;
        self.fire(0, 0, 3)?;
        self.split(0, 8)?;
        self.done(0, 0, 3)?;
        self.sent(0, 0, 4)?;
        self.add(
            0,
            Event::Looked {
                object: object(),
                hit: false,
            },
        )?;
        self.out(0, 1, ADD)?;
        self.arrive(1, ADD)
    }

    /// 8 entries: the call runs, and its answer comes to the session with the credit of the call, which is merged there.
    fn answer(&mut self) -> Result<(), OutOfMemory> {
        self.fire(1, 0, 4)?;
        self.done(1, 0, 4)?;
        self.sent(1, 1, 2)?;
        self.out(1, 0, ADDED)?;
        self.arrive(0, ADDED)?;
        self.fire(0, 1, 2)?;
        self.done(0, 1, 2)?;
        self.merge(0, 7)
    }

    /// 11 entries: the session's id is split down to log 0, and more is asked for.
    fn ask(&mut self) -> Result<(), OutOfMemory> {
        for log in [8, 7, 6, 5, 4, 3, 2, 1] {
            self.split(0, log)?;
        }
        self.add(0, Event::Asked { object: object() })?;
        self.out(0, 1, ASK)?;
        self.arrive(1, ASK)
    }

    /// 4 entries: it is granted.
    fn grant(&mut self) -> Result<(), OutOfMemory> {
        self.count(511, Reason::Granted)?;
        self.out(1, 0, GIVE)?;
        self.arrive(0, GIVE)?;
        self.add(
            0,
            Event::Given {
                object: object(),
                log: 8,
            },
        )
    }

    /// 14 entries: the third line moves the object to locality 0.
    fn migrate(&mut self) -> Result<(), OutOfMemory> {
        self.line(5, b'm')?;
        self.fire(0, 0, 5)?;
        self.split(0, 8)?;
        self.done(0, 0, 5)?;
        self.sent(0, 0, 6)?;
        self.out(0, 1, MOVE)?;
        self.arrive(1, MOVE)?;
        self.add(
            1,
            Event::Left {
                object: object(),
                to: 0,
            },
        )?;
        self.out(1, 0, OBJECT)?;
        self.arrive(0, OBJECT)?;
        self.add(0, Event::Landed { object: object() })?;
        self.fire(0, 0, 6)?;
        self.done(0, 0, 6)?;
        self.up(0, 7)
    }

    /// 12 entries: the fourth line drops the object, and all its ids at locality 0 are given up.
    fn drop_all(&mut self) -> Result<(), OutOfMemory> {
        self.line(7, b'd')?;
        self.fire(0, 0, 7)?;
        self.done(0, 0, 7)?;
        for log in [7, 7, 6, 5, 4, 3, 2, 1, 0] {
            self.up(0, log)?;
        }
        Ok(())
    }

    /// A credit goes home.
    fn home(&mut self, log: u8) -> Result<(), OutOfMemory> {
        let bytes = give_back(self.alloc, log)?;
        self.add(0, Event::Out { to: 1, bytes })?;
        let bytes = give_back(self.alloc, log)?;
        self.add(1, Event::In { bytes })
    }

    /// 29 entries: all credits go home, and the last is not yet written.
    fn fade(&mut self) -> Result<(), OutOfMemory> {
        for (log, left) in [
            (7, 383),
            (7, 255),
            (7, 127),
            (6, 63),
            (5, 31),
            (4, 15),
            (3, 7),
            (2, 3),
            (1, 1),
        ] {
            self.home(log)?;
            self.count(left, Reason::Returned(log))?;
        }
        self.home(0)
    }

    /// 4 entries: the object is dead, and is freed where it stands.
    fn end(&mut self) -> Result<(), OutOfMemory> {
        self.count(0, Reason::Returned(0))?;
        self.out(1, 0, FREE)?;
        self.arrive(0, FREE)?;
        self.add(0, Event::Freed { object: object() })
    }

    /// So many ids of this log become two each.
    fn halve(&mut self, log: u8, times: u32) -> Result<(), OutOfMemory> {
        for _ in 0..times {
            self.split(1, log)?;
        }
        Ok(())
    }

    /// 1,024 ids of log 0 are given up, and written back one by one.
    fn write_back(&mut self) -> Result<(), OutOfMemory> {
        for _ in 0..1024 {
            self.up(1, 0)?;
        }
        for gone in 0..1024u64 {
            self.count((1023 - gone) as u128, Reason::Returned(0))?;
        }
        Ok(())
    }

    /// 5,703 lines, from serial 3 on, each of which sends nothing.
    fn feed(&mut self) -> Result<(), OutOfMemory> {
        for serial in 3..5706u64 {
            self.line(serial, b'd')?;
            self.fire(0, 0, serial)?;
            self.done(0, 0, serial)?;
        }
        Ok(())
    }

    fn judged(self) -> Result<Option<u64>, OutOfMemory> {
        let Story { alloc, entries } = self;
        match judged(alloc, 8, entries) {
            Ok(_) => Ok(None),
            Err(ReplayFault::Illegal { at }) => Ok(Some(at)),
            Err(ReplayFault::OutOfMemory) => Err(OutOfMemory),
        }
    }
}

/// The space that entries lead to, where an object is born with a credit of this log.
fn judged(alloc: Global, log: u8, entries: Vec<Entry>) -> Result<Space, ReplayFault> {
    let mut journal = Journal::new(alloc);
    for entry in entries {
        match journal.reserve(1) {
            Ok(()) => (),
            Err(OutOfMemory) => return Err(ReplayFault::OutOfMemory),
        }
        journal.push(entry);
    }
    let profile = Profile {
        credit_log: log,
        credit_limit: 1 << 100u32,
        cache: 64,
    };
    if !profile.is_valid() {
        return Err(ReplayFault::OutOfMemory);
    }
    replay(alloc, &Trial, 2, profile, &journal)
}

/// From the birth to the freeing: 104 entries.
fn life(alloc: Global) -> Result<Story, OutOfMemory> {
    let mut story = Story::new(alloc);
    story.birth()?;
    story.call()?;
    story.answer()?;
    story.ask()?;
    story.grant()?;
    story.migrate()?;
    story.drop_all()?;
    story.fade()?;
    story.end()?;
    Ok(story)
}

#[test]
fn a_life_is_legal(rt: HostRuntime) -> Result<(), OutOfMemory> {
    let story = life(rt.alloc())?;
    assert_eq!(rt; story.entries.len(), 104);
    match judged(rt.alloc(), 8, story.entries) {
        Ok(space) => {
            assert_eq!(rt; space.road.len(), 0);
            assert_eq!(rt; space.places.len(), 2);
            for place in &space.places {
                assert_eq!(rt; place.tokens.len(), 0);
                assert_eq!(rt; place.waiting.len(), 0);
            }
        }
        Err(_) => assert!(rt; false, "the life is refused"),
    }
    Ok(())
}

/// The ways to be wrong. An uneven split is one whose half is worth the whole still. An early return is one while the
/// action's object is being made: any other is legal, and leaves names without tokens.
#[derive(Clone, Copy, Debug)]
enum Wrong {
    NoPlace,
    NeverSent,
    CountedEarly,
    ReturnedEarly,
    SpentTwice,
    OtherAnswer,
    AnsweredTwice,
    ArrivedTwice,
    SkippedSerial,
    RunAndForwarded,
    Busy,
    UnevenSplit,
    SplitOfLeast,
    MergedOfGreatest,
    MergedOfOne,
    MergedBeforeSent,
    GrantedTooMuch,
    FreedAtOne,
    FreedTwice,
}

/// The second line's call comes to the object, and then the third line's move, before the call is done.
fn overtaken(story: &mut Story) -> Result<(), OutOfMemory> {
    story.birth()?;
    story.call()?;
    story.line(5, b'm')?;
    story.fire(0, 0, 5)?;
    story.split(0, 7)?;
    story.done(0, 0, 5)?;
    story.sent(0, 0, 6)?;
    story.out(0, 1, EARLY_MOVE)?;
    story.arrive(1, EARLY_MOVE)
}

/// A journal whose last entry is wrong in one way.
fn mistaken(story: &mut Story, way: Wrong) -> Result<(), OutOfMemory> {
    match way {
        Wrong::NoPlace => story.fire(2, 0, 1),
        Wrong::NeverSent => story.arrive(1, NEW),
        Wrong::SkippedSerial => {
            story.birth()?;
            story.line(4, b'a')
        }
        Wrong::SpentTwice => {
            story.birth()?;
            story.up(1, 8)
        }
        Wrong::RunAndForwarded => {
            story.birth()?;
            story.call()?;
            story.fire(1, 0, 4)?;
            story.out(1, 0, ADD)
        }
        Wrong::Busy => {
            overtaken(story)?;
            story.fire(1, 0, 4)?;
            story.add(
                1,
                Event::Left {
                    object: object(),
                    to: 0,
                },
            )
        }
        other => mistaken_credit(story, other),
    }
}

/// A journal whose last entry takes or gives credit wrongly, or frees wrongly.
fn mistaken_credit(story: &mut Story, way: Wrong) -> Result<(), OutOfMemory> {
    match way {
        Wrong::UnevenSplit => {
            story.birth()?;
            story.call()?;
            story.answer()?;
            story.split(0, 8)?;
            story.up(0, 8)
        }
        Wrong::SplitOfLeast => {
            story.birth()?;
            story.call()?;
            story.answer()?;
            story.ask()?;
            story.split(0, 0)
        }
        Wrong::GrantedTooMuch => {
            story.birth()?;
            story.call()?;
            story.answer()?;
            story.ask()?;
            story.count(512, Reason::Granted)
        }
        Wrong::FreedAtOne => {
            all_but_the_last(story)?;
            story.out(1, 0, FREE)
        }
        Wrong::FreedTwice => {
            all_but_the_last(story)?;
            story.end()?;
            story.add(0, Event::Freed { object: object() })
        }
        other => mistaken_merge(story, other),
    }
}

/// A journal whose last entry merges credits wrongly.
fn mistaken_merge(story: &mut Story, way: Wrong) -> Result<(), OutOfMemory> {
    match way {
        Wrong::MergedOfGreatest => {
            story.birth()?;
            story.call()?;
            story.answer()?;
            story.merge(0, 8)
        }
        Wrong::MergedOfOne => {
            story.birth()?;
            story.split(0, 8)?;
            story.split(0, 7)?;
            story.merge(0, 7)
        }
        Wrong::MergedBeforeSent => {
            story.birth()?;
            story.line(3, b'a')?;
            story.fire(0, 0, 3)?;
            story.split(0, 8)?;
            story.done(0, 0, 3)?;
            story.merge(0, 7)
        }
        other => mistaken_birth(story, other),
    }
}

/// The whole life but the last return's count, the Free and the freeing.
fn all_but_the_last(story: &mut Story) -> Result<(), OutOfMemory> {
    story.birth()?;
    story.call()?;
    story.answer()?;
    story.ask()?;
    story.grant()?;
    story.migrate()?;
    story.drop_all()?;
    story.fade()
}

/// A journal that goes wrong while the object is made.
fn mistaken_birth(story: &mut Story, way: Wrong) -> Result<(), OutOfMemory> {
    story.line(1, b'n')?;
    story.fire(0, 0, 1)?;
    story.done(0, 0, 1)?;
    story.sent(0, 0, 2)?;
    story.out(0, 1, NEW)?;
    story.arrive(1, NEW)?;
    match way {
        Wrong::ArrivedTwice => return story.arrive(1, NEW),
        Wrong::CountedEarly => return story.count(0, Reason::Returned(8)),
        _ => (),
    }
    story.fire(1, 0, 2)?;
    story.born()?;
    if let Wrong::ReturnedEarly = way {
        return story.up(1, 8);
    }
    story.done(1, 0, 2)?;
    story.sent(1, 1, 1)?;
    match way {
        Wrong::OtherAnswer => story.out(1, 0, OTHER_ANSWER),
        _ => story.sent(1, 1, 2),
    }
}

#[test]
fn wrong_journals_are_refused_where_they_are_wrong(rt: HostRuntime) -> Result<(), OutOfMemory> {
    let table = [
        (Wrong::NoPlace, 0),
        (Wrong::NeverSent, 0),
        (Wrong::ArrivedTwice, 6),
        (Wrong::CountedEarly, 6),
        (Wrong::ReturnedEarly, 8),
        (Wrong::OtherAnswer, 10),
        (Wrong::AnsweredTwice, 10),
        (Wrong::SpentTwice, 14),
        (Wrong::SkippedSerial, 14),
        (Wrong::RunAndForwarded, 23),
        (Wrong::Busy, 30),
        (Wrong::MergedOfOne, 16),
        (Wrong::MergedBeforeSent, 18),
        (Wrong::MergedOfGreatest, 30),
        (Wrong::UnevenSplit, 31),
        (Wrong::SplitOfLeast, 41),
        (Wrong::GrantedTooMuch, 41),
        (Wrong::FreedAtOne, 100),
        (Wrong::FreedTwice, 104),
    ];
    for (way, at) in table {
        let mut story = Story::new(rt.alloc());
        mistaken(&mut story, way)?;
        assert_eq!(rt; story.judged()?, Some(at), "{way:?}");
    }
    Ok(())
}

#[test]
fn an_object_leaves_once_no_action_is_fired(rt: HostRuntime) -> Result<(), OutOfMemory> {
    let mut story = Story::new(rt.alloc());
    overtaken(&mut story)?;
    story.add(
        1,
        Event::Left {
            object: object(),
            to: 0,
        },
    )?;
    assert_eq!(rt; story.judged()?, None);
    Ok(())
}

/// The object is made with a credit of 2^10, which is split into single ones, given up and written back; then the
/// session is fed 5,703 lines: 20,190 entries.
fn long_life(alloc: Global) -> Result<Story, OutOfMemory> {
    let mut story = Story::new(alloc);
    mistaken_birth(&mut story, Wrong::AnsweredTwice)?;
    let _ = story.entries.pop();
    let mut parts = 1u32;
    for log in [10, 9, 8, 7, 6, 5, 4, 3, 2, 1] {
        story.halve(log, parts)?;
        parts = parts.saturating_mul(2);
    }
    story.write_back()?;
    story.feed()?;
    Ok(story)
}

#[test]
fn a_long_life_is_judged(rt: HostRuntime) -> Result<(), OutOfMemory> {
    let story = long_life(rt.alloc())?;
    assert_eq!(rt; story.entries.len(), 20_190);
    match judged(rt.alloc(), 10, story.entries) {
        Ok(space) => {
            let done = space.places.first().map(|place| place.done.len());
            assert_eq!(rt; done, Some(5_704));
        }
        Err(_) => assert!(rt; false, "the long life is refused"),
    }
    Ok(())
}
