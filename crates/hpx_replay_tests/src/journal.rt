use hpx_journal::entry::{Entry, Event, Name};
use hpx_journal::journal::Journal;
use hpx_value::items::Items;
use hpx_value::memory::OutOfMemory;

#[test]
fn keeps_what_is_pushed(rt: HostRuntime) -> Result<(), OutOfMemory> {
    let alloc = rt.alloc();
    let mut text = Items::new(alloc);
    text.push(b'5')?;
    let mut journal = Journal::new(alloc);
    journal.reserve(2)?;
    let action = Name {
        origin: 0,
        serial: 1,
    };
    journal.push(Entry {
        at: 0,
        event: Event::Fire { action },
    });
    journal.push(Entry {
        at: 1,
        event: Event::Print { bytes: text },
    });
    assert_eq!(rt; journal.entries(), 2);
    assert_eq!(rt; journal.weight(), 129);
    assert!(rt; journal.room());
    assert!(rt; matches!(journal.entry(1), Some(entry) if entry.at == 1));
    assert!(rt; journal.entry(2).is_none());
    Ok(())
}
