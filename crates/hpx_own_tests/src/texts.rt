//! What is printed.
use hpx_counters::counter::{Counted, Counter};
use hpx_journal::entry::{Entry, Event};
use hpx_journal::journal::Journal;
use hpx_own::texts::{audit_line, counted, no_objects};
use hpx_value::gid::Gid;
use hpx_value::items::Items;
use hpx_world::audit::AuditLine;
use std::test::Fail;

// An object with the first credit, one whose credit is spread, and the longest line.
#[test]
fn audits_are_printed(rt: HostRuntime) -> Result<(), Fail> {
    let lines = [
        (
            AuditLine {
                gid: Gid::new(1, 16, 1),
                recorded: 2147483648,
                held: 2147483648,
                flight: 0,
                at: 1,
            },
            "1.1 recorded 2147483648 held 2147483648 flight 0 at 1\n",
        ),
        (
            AuditLine {
                gid: Gid::new(0, 16, 20),
                recorded: 7,
                held: 2,
                flight: 5,
                at: 63,
            },
            "0.20 recorded 7 held 2 flight 5 at 63\n",
        ),
        (
            AuditLine {
                gid: Gid::new(4294967294, 16, 18446744073709551615),
                recorded: u128::MAX,
                held: u128::MAX,
                flight: u128::MAX,
                at: u32::MAX,
            },
            "4294967294.18446744073709551615 recorded 340282366920938463463374607431768211455 held 340282366920938463463374607431768211455 flight 340282366920938463463374607431768211455 at 4294967295\n",
        ),
    ];
    for (line, wanted) in lines {
        assert_eq!(rt; audit_line(&line).as_str(), wanted);
    }
    assert_eq!(rt; no_objects(), b"no objects\n".as_slice());
    Ok(())
}

// Two frames were sent at locality 1, and none at 2, which need not be there.
#[test]
fn counters_are_printed(rt: HostRuntime) -> Result<(), Fail> {
    let alloc = rt.alloc();
    let mut journal = Journal::new(alloc);
    for _ in 0..2 {
        journal.reserve(1)?;
        journal.push(Entry {
            at: 1,
            event: Event::Out {
                to: 0,
                bytes: Items::new(alloc),
            },
        });
    }
    for (locality, wanted) in [(1, "2\n"), (2, "0\n")] {
        let counter = Counter {
            what: Counted::ParcelsSent,
            locality,
        };
        assert_eq!(rt; counted(&counter, &journal).as_str(), wanted);
    }
    Ok(())
}
