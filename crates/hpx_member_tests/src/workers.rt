//! A worker: what comes, and what it sends.
use crate::bodies::{Body, bodies, said};
use crate::ran::{Faults, NONE, Odd, assert_is, worker_ran};
use hpx_parcel::parcel::Why;
use std::test::Fail;

const END: Body = (0, "f2");

const WAVE_7: Body = (0, "f0 00000007");

const WAVE_8: Body = (0, "f0 00000008");

// The shelf of locality 1 is to keep an id of an object of locality 0, of a credit of 1; and then to answer that id, too.
const KEEP: Body = (
    0,
    "0101 0000 0000000000000001 000000020000000b 0000000000000001 0006 0002 03 0001 6b \
04 0000000140000021 0000000000000001 01 0000000100000003 0000000000000001 00000000",
);

const FIND: Body = (
    0,
    "0101 0000 0000000000000002 000000020000000b 0000000000000001 0007 0001 03 0001 6b \
01 0000000100000003 0000000000000001 00000001",
);

// A credit of 256 for the commit that waits for more.
const GIVE: Body = (0, "0104 0000000148000021 0000000000000001 0000000000000001");

const NO_SENDS: Faults = Faults {
    sends: &[1],
    ..NONE
};

const NO_RECEIVES: Faults = Faults {
    receives: &[1],
    ..NONE
};

const ONE_RECEIVE: Faults = Faults {
    receives: &[2],
    ..NONE
};

/// What comes, and which calls fail; the status then, what was not accepted, how many entries are written, and what is sent.
type Row = (&'static [Body], Faults, (u8, Odd, u64, &'static str));

// Counted by hand. KEEP: In, Fire, Done, Sent and Out. FIND: In, Fire, Asked and Out; and where credit was given: In, Given, Split, Done,
// Sent and Out.
const ROWS: [Row; 29] = [
    (&[END], NONE, (0, Odd::Nothing, 0, "")),
    (&[END, KEEP], NONE, (0, Odd::Nothing, 0, "")),
    (&[KEEP, END], NONE, (0, Odd::Nothing, 5, "0 01\n")),
    // each wave is answered before the next is heard of
    (
        &[WAVE_8, WAVE_7, END],
        NONE,
        (
            0,
            Odd::Nothing,
            0,
            "0 f10000000800000000000000000000000000000000\n0 f10000000700000000000000000000000000000000\n",
        ),
    ),
    (
        &[WAVE_7, KEEP, WAVE_8, END],
        NONE,
        (
            0,
            Odd::Nothing,
            5,
            "0 f10000000700000000000000000000000000000000\n0 01\n0 f10000000800000000000000010000000000000001\n",
        ),
    ),
    // two wait until a commit has its credit
    (
        &[KEEP, FIND, WAVE_7, WAVE_8, GIVE, END],
        NONE,
        (
            0,
            Odd::Nothing,
            15,
            "0 01\n0 01\n0 01\n0 f10000000700000000000000030000000000000003\n0 f10000000800000000000000030000000000000003\n",
        ),
    ),
    (
        &[KEEP, FIND, WAVE_7, END],
        NONE,
        (0, Odd::Nothing, 9, "0 01\n0 01\n"),
    ),
    // the link fails
    (&[], NONE, (4, Odd::Nothing, 0, "")),
    (&[END], NO_RECEIVES, (4, Odd::Nothing, 0, "")),
    (&[KEEP, END], ONE_RECEIVE, (4, Odd::Nothing, 5, "0 01\n")),
    (&[KEEP, END], NO_SENDS, (4, Odd::Nothing, 4, "")),
    (&[WAVE_7, END], NO_SENDS, (4, Odd::Nothing, 0, "")),
    // no parcel
    (
        &[(0, ""), END],
        NONE,
        (7, Odd::BadFrame(0, 0, Why::Cut), 0, ""),
    ),
    (
        &[(0, "01"), END],
        NONE,
        (7, Odd::BadFrame(0, 1, Why::Cut), 0, ""),
    ),
    (
        &[(2, "01ff"), END],
        NONE,
        (7, Odd::BadFrame(2, 1, Why::Kind), 0, ""),
    ),
    (
        &[(2, "ef"), END],
        NONE,
        (7, Odd::BadFrame(2, 0, Why::Kind), 0, ""),
    ),
    (
        &[(0, "f4 00000007"), END],
        NONE,
        (7, Odd::BadFrame(0, 0, Why::Kind), 0, ""),
    ),
    // a parcel that breaks a rule: a place that is none, credit that comes back for what never was, credit that was not asked for
    (
        &[(0, "0105 0000000200000021 0000000000000001 0002"), END],
        NONE,
        (8, Odd::Strange(0, 9, 2), 0, ""),
    ),
    (
        &[(2, "0102 0000000240000021 0000000000000001"), END],
        NONE,
        (8, Odd::Strange(2, 1, 0), 0, ""),
    ),
    (
        &[KEEP, GIVE, END],
        NONE,
        (8, Odd::Strange(0, 3, 1), 5, "0 01\n"),
    ),
    // words out of place: of another length, of one that is not the console, and those that no worker is told
    (
        &[(0, "f0 000007"), END],
        NONE,
        (8, Odd::OutOfPlace(0), 0, ""),
    ),
    (
        &[(0, "f0 0000000700"), END],
        NONE,
        (8, Odd::OutOfPlace(0), 0, ""),
    ),
    (&[(0, "f2 00"), END], NONE, (8, Odd::OutOfPlace(0), 0, "")),
    (&[(2, "f2"), END], NONE, (8, Odd::OutOfPlace(2), 0, "")),
    (
        &[(2, "f0 00000007"), END],
        NONE,
        (8, Odd::OutOfPlace(2), 0, ""),
    ),
    (&[(1, "f2"), END], NONE, (8, Odd::OutOfPlace(1), 0, "")),
    (
        &[(0, "f1 00000007 0000000000000000 0000000000000000"), END],
        NONE,
        (8, Odd::OutOfPlace(0), 0, ""),
    ),
    (
        &[(0, "f3 0002 0000"), END],
        NONE,
        (8, Odd::OutOfPlace(0), 0, ""),
    ),
    (
        &[KEEP, FIND, WAVE_7, (0, "f3"), GIVE],
        NONE,
        (8, Odd::OutOfPlace(0), 9, "0 01\n0 01\n"),
    ),
];

#[test]
fn a_worker_answers_until_the_end(rt: HostRuntime) -> Result<(), Fail> {
    for (i, row) in ROWS.iter().enumerate() {
        let ran = worker_ran(&rt, rt.alloc(), bodies(rt.alloc(), row.0)?, &row.1)?;
        let sent = said(rt.alloc(), ran.sent.as_slice())?;
        assert_is(&rt, i, &ran, sent.as_slice(), row.2);
    }
    Ok(())
}
