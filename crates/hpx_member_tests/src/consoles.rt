//! A console: what comes, what it sends, and what it shows.
use crate::bodies::{Body, bodies, said};
use crate::ran::{Faults, NONE, Odd, Session, assert_is, console_ran};
use hpx_parcel::parcel::Why;
use std::collections::VecDeque;
use std::test::Fail;

/// A number is made, 5 is added to it, and it is asked for.
pub const LINES: &[&str] = &["oopen", "aadd 5", "aquery"];

const MORE: &[&str] = &["oopen", "aadd 5", "aquery", "aadd x", "aadd 2", "aquery"];

const ALONE: Session = Session {
    localities: 1,
    settles: false,
    lines: LINES,
};

const ALONE_SETTLED: Session = Session {
    settles: true,
    ..ALONE
};

const LONG: Session = Session {
    lines: MORE,
    ..ALONE
};

const LONG_SETTLED: Session = Session {
    lines: MORE,
    ..ALONE_SETTLED
};

const NO_READ: Faults = Faults { unread: 1, ..NONE };

const TWO_READS: Faults = Faults { unread: 3, ..NONE };

const ALL_READS: Faults = Faults { unread: 7, ..NONE };

const NO_WRITE: Faults = Faults {
    writes: &[1],
    ..NONE
};

const TWO_WRITES: Faults = Faults {
    writes: &[3],
    ..NONE
};

const THREE: Session = Session {
    localities: 3,
    lines: &[],
    ..ALONE
};

const THREE_SETTLED: Session = Session {
    settles: true,
    ..THREE
};

const ASKING: Session = Session {
    localities: 2,
    lines: &["oopen"],
    ..ALONE
};

const ONE_SEND: Faults = Faults {
    sends: &[2],
    ..NONE
};

const FIVE_SENDS: Faults = Faults {
    sends: &[6],
    ..NONE
};

const ONE_RECEIVE: Faults = Faults {
    receives: &[2],
    ..NONE
};

// Counts of a wave, of nothing, of a frame that was sent, and of one that was accepted.
const FIRST: &str = "f1 00000000 0000000000000000 0000000000000000";

const FIRST_SENT: &str = "f1 00000000 0000000000000001 0000000000000000";

const SECOND: &str = "f1 00000001 0000000000000000 0000000000000000";

const SECOND_SENT: &str = "f1 00000001 0000000000000001 0000000000000000";

const SECOND_TAKEN: &str = "f1 00000001 0000000000000000 0000000000000001";

const THIRD_SENT: &str = "f1 00000002 0000000000000001 0000000000000000";

const THIRD_TAKEN: &str = "f1 00000002 0000000000000000 0000000000000001";

/// How it is run, and which calls fail; the status then, how many entries are written, and what is shown.
type Shown = (Session, Faults, u8, u64, &'static str);

// Counted by hand. `open`: Line, Fire, Done and Sent; Fire, Born, Done and Sent; Fire and Done. `add 5`: the same without Born, with a Split
// at first and a Merge at last. `query`: a Print more. `add x`: Line, Fire, Done and Print.
const SHOWN: [Shown; 11] = [
    (ALONE, NONE, 0, 33, "5\n"),
    (ALONE_SETTLED, NONE, 0, 33, "5\n"),
    (LONG, NONE, 0, 60, "5\nerror: bad number\n7\n"),
    (LONG_SETTLED, NONE, 0, 60, "5\nerror: bad number\n7\n"),
    (LONG, NO_READ, 2, 0, ""),
    (LONG, TWO_READS, 2, 21, ""),
    (LONG_SETTLED, TWO_READS, 2, 21, ""),
    (LONG_SETTLED, ALL_READS, 2, 60, "5\nerror: bad number\n7\n"),
    (LONG, NO_WRITE, 3, 33, ""),
    (LONG_SETTLED, NO_WRITE, 3, 33, ""),
    (LONG, TWO_WRITES, 3, 60, "5\nerror: bad number\n"),
];

#[test]
fn a_console_alone_shows_what_is_printed(rt: HostRuntime) -> Result<(), Fail> {
    for (i, (how, faults, status, entries, text)) in SHOWN.iter().enumerate() {
        let ran = console_ran(&rt, rt.alloc(), how, VecDeque::new(rt.alloc()), faults)?;
        assert_eq!(rt;
            (ran.status, ran.odd, ran.entries),
            (*status, Odd::Nothing, *entries),
            "row {i}"
        );
        assert!(rt; ran.text.as_slice() == text.as_bytes(), "row {i}");
        assert!(rt; ran.sent.is_empty(), "row {i}");
    }
    Ok(())
}

const ASKED: &str = "1 f000000000\n2 f000000000\n";

const ASKED_TWICE: &str = "1 f000000000\n2 f000000000\n1 f000000001\n2 f000000001\n";

const ENDED: &str = "1 f000000000\n2 f000000000\n1 f000000001\n2 f000000001\n1 f2\n2 f2\n";

const ENDED_LATER: &str =
    "1 f000000000\n2 f000000000\n1 f000000001\n2 f000000001\n1 f000000002\n2 f000000002\n1 f2\n2 f2\n";

const HALF_ENDED: &str = "1 f000000000\n2 f000000000\n1 f000000001\n2 f000000001\n1 f2\n";

const AGREED: &[Body] = &[(1, FIRST), (2, FIRST), (2, SECOND), (1, SECOND)];

// What was sent had not been accepted one wave before, and then it had.
const LATE: &[Body] = &[
    (1, FIRST_SENT),
    (2, FIRST),
    (1, SECOND_SENT),
    (2, SECOND_TAKEN),
    (1, THIRD_SENT),
    (2, THIRD_TAKEN),
];

// A frame is sent between two waves.
const LATER: &[Body] = &[
    (1, FIRST),
    (2, FIRST),
    (1, SECOND_SENT),
    (2, SECOND_TAKEN),
    (2, THIRD_TAKEN),
    (1, THIRD_SENT),
];

/// How it is run, what comes, and which calls fail; the status then, what was not accepted, how many entries are written, and what is sent.
type Row = (
    Session,
    &'static [Body],
    Faults,
    (u8, Odd, u64, &'static str),
);

// A console without lines asks the others at once, and in one round alone.
const ROWS: [Row; 25] = [
    (THREE, AGREED, NONE, (0, Odd::Nothing, 0, ENDED)),
    (THREE_SETTLED, AGREED, NONE, (0, Odd::Nothing, 0, ENDED)),
    (THREE, LATE, NONE, (0, Odd::Nothing, 0, ENDED_LATER)),
    (THREE, LATER, NONE, (0, Odd::Nothing, 0, ENDED_LATER)),
    // the link fails
    (THREE, &[], NONE, (4, Odd::Nothing, 0, ASKED)),
    (THREE, &[(2, FIRST)], NONE, (4, Odd::Nothing, 0, ASKED)),
    (
        THREE,
        &[(1, FIRST), (2, FIRST), (1, SECOND)],
        NONE,
        (4, Odd::Nothing, 0, ASKED_TWICE),
    ),
    (THREE, AGREED, ONE_RECEIVE, (4, Odd::Nothing, 0, ASKED)),
    (
        THREE,
        AGREED,
        ONE_SEND,
        (4, Odd::Nothing, 0, "1 f000000000\n"),
    ),
    (THREE, AGREED, FIVE_SENDS, (4, Odd::Nothing, 0, HALF_ENDED)),
    (ASKING, &[], NONE, (4, Odd::Nothing, 5, "1 01\n")),
    // no parcel, and a parcel that breaks a rule: an object is freed that never was
    (
        THREE,
        &[(2, "f4 00000000")],
        NONE,
        (7, Odd::BadFrame(2, 0, Why::Kind), 0, ASKED),
    ),
    (
        THREE,
        &[(1, FIRST), (1, "0102 00")],
        NONE,
        (7, Odd::BadFrame(1, 3, Why::Cut), 0, ASKED),
    ),
    (
        THREE,
        &[(1, "010a 0000000200000021 0000000000000001")],
        NONE,
        (8, Odd::Strange(1, 7, 0), 0, ASKED),
    ),
    // words that no console is told
    (THREE, &[(1, "f2")], NONE, (8, Odd::OutOfPlace(1), 0, ASKED)),
    (
        THREE,
        &[(2, "f0 00000000")],
        NONE,
        (8, Odd::OutOfPlace(2), 0, ASKED),
    ),
    (
        THREE,
        &[(1, "f3 0003 0001")],
        NONE,
        (8, Odd::OutOfPlace(1), 0, ASKED),
    ),
    // Counts of another length, of another wave, given twice, and of no worker
    (
        THREE,
        &[(1, "f1 00000000")],
        NONE,
        (8, Odd::OutOfPlace(1), 0, ASKED),
    ),
    (
        THREE,
        &[(1, "f1 00000000 0000000000000000 0000000000000000 00")],
        NONE,
        (8, Odd::OutOfPlace(1), 0, ASKED),
    ),
    (
        THREE,
        &[(1, SECOND)],
        NONE,
        (8, Odd::OutOfPlace(1), 0, ASKED),
    ),
    (
        THREE,
        &[(1, FIRST), (2, FIRST), (1, FIRST)],
        NONE,
        (8, Odd::OutOfPlace(1), 0, ASKED_TWICE),
    ),
    (
        THREE,
        &[(2, FIRST), (2, FIRST)],
        NONE,
        (8, Odd::OutOfPlace(2), 0, ASKED),
    ),
    (
        THREE,
        &[(0, FIRST)],
        NONE,
        (8, Odd::OutOfPlace(0), 0, ASKED),
    ),
    (
        THREE,
        &[(3, FIRST)],
        NONE,
        (8, Odd::OutOfPlace(3), 0, ASKED),
    ),
    // an answer is awaited, and no wave waits
    (
        ASKING,
        &[(1, FIRST)],
        NONE,
        (8, Odd::OutOfPlace(1), 5, "1 01\n"),
    ),
];

#[test]
fn a_console_asks_until_all_is_done(rt: HostRuntime) -> Result<(), Fail> {
    for (i, row) in ROWS.iter().enumerate() {
        let coming = bodies(rt.alloc(), row.1)?;
        let ran = console_ran(&rt, rt.alloc(), &row.0, coming, &row.2)?;
        let sent = said(rt.alloc(), ran.sent.as_slice())?;
        assert_is(&rt, i, &ran, sent.as_slice(), row.3);
    }
    Ok(())
}
