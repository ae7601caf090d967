//! `replay` at acts by which every state stays.
use hpx_journal::entry::{Entry, Event, Name};
use hpx_journal::journal::Journal;
use hpx_replay::replay::{ReplayFault, replay};
use hpx_trial::still::Still;
use hpx_value::items::Items;
use hpx_value::memory::OutOfMemory;
use hpx_value::profile::Profile;
use std::alloc::Global;

/// A line is fed, fired and done, so many times.
fn lines(alloc: Global, times: u64) -> Result<Journal, OutOfMemory> {
    let mut journal = Journal::new(alloc);
    for serial in 0..times {
        let action = Name {
            origin: 0,
            serial: serial.wrapping_add(1),
        };
        let bytes = Items::new(alloc);
        journal.reserve(1)?;
        journal.push(Entry {
            at: 0,
            event: Event::Line { action, bytes },
        });
        journal.reserve(1)?;
        journal.push(Entry {
            at: 0,
            event: Event::Fire { action },
        });
        let failed = false;
        journal.reserve(1)?;
        journal.push(Entry {
            at: 0,
            event: Event::Done { action, failed },
        });
    }
    Ok(journal)
}

#[test]
fn lines_are_replayed_until_one_is_done_twice(rt: HostRuntime) -> Result<(), OutOfMemory> {
    let alloc = rt.alloc();
    let profile = Profile {
        credit_log: 8,
        credit_limit: 256,
        cache: 1,
    };
    assert!(rt; profile.is_valid());
    let mut journal = lines(alloc, 3)?;
    match replay(alloc, &Still, 2, profile, &journal) {
        Ok(space) => {
            assert_eq!(rt; space.places.len(), 2);
            assert_eq!(rt; space.places.first().map(|place| place.done.len()), Some(3));
        }
        Err(_) => assert!(rt; false, "the lines are refused"),
    }
    let action = Name {
        origin: 0,
        serial: 3,
    };
    let failed = false;
    journal.reserve(1)?;
    journal.push(Entry {
        at: 0,
        event: Event::Done { action, failed },
    });
    match replay(alloc, &Still, 2, profile, &journal) {
        Ok(_) => assert!(rt; false, "an action is done twice"),
        Err(fault) => assert_eq!(rt; fault, ReplayFault::Illegal { at: 9 }),
    }
    Ok(())
}
