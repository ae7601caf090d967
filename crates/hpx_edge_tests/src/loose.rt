//! Fabrics that bring what was never sent, or lose what was.
use crate::session::{COMMANDS, words};
use hpx_parcel::parcel::Why;
use hpx_ports::gate::OpenGate;
use hpx_ports::loose_fabric::LooseFabric;
use hpx_ports::memory_sink::SureSink;
use hpx_ports::memory_source::SureSource;
use hpx_top::breach::Breach;
use hpx_top::run::{End, run};
use hpx_value::gid::Gid;
use hpx_value::items::{Bytes, Texts};
use hpx_value::memory::OutOfMemory;
use std::alloc::Global;
use std::collections::VecDeque;
use std::process::Abort;
use std::sync::Wait;
use std::test::Fail;
use std::thread::Threads;

/// What the fabric brings to localities, in hexadecimal digits; the status then, what is written for errors, the fault, and whether a
/// frame is left in hand.
type Row = (
    &'static [(u32, &'static str)],
    u8,
    &'static [u8],
    Breach,
    bool,
);

const STRANGE: &[u8] = b"hpx: strange parcel\n";

const ROWS: [Row; 4] = [
    (
        &[(1, "01ff")],
        7,
        b"hpx: bad frame\n",
        Breach::BadFrame {
            to: 1,
            at: 1,
            why: Why::Kind,
        },
        true,
    ),
    (
        &[(7, "")],
        7,
        b"hpx: bad frame\n",
        Breach::BadFrame {
            to: 7,
            at: 0,
            why: Why::Cut,
        },
        true,
    ),
    // A Give of the whole credit of an object, for which nobody asked.
    (
        &[(0, "0104 000000025f000021 0000000000000001 0000000000000000")],
        8,
        STRANGE,
        Breach::Strange {
            to: 0,
            rule: 3,
            object: FIRST,
            kept: 0,
        },
        true,
    ),
    // The frame that asks for the accumulator is taken, and nothing comes.
    (
        &[],
        8,
        STRANGE,
        Breach::EarlyEnd { sent: 1, taken: 0 },
        false,
    ),
];

/// The frame that has the accumulator made: it is the first object of locality 1, and its count 2147483648.
const NEW: (u32, &str) = (
    1,
    "0101 0000 0000000000000002 0000000200000007 0000000000000001 0005
     0001 03 000b 616363756d756c61746f72 01 0000000100000003 0000000000000001 00000000",
);

/// Objects of locality 1, and one of a locality that is not there.
const FIRST: Gid = Gid {
    msb: 0x0000_0002_0000_0021,
    lsb: 1,
};

const SECOND: Gid = Gid {
    msb: 0x0000_0002_0000_0021,
    lsb: 2,
};

const FAR: Gid = Gid {
    msb: 0x0000_0006_0000_0021,
    lsb: 1,
};

/// What the fabric brings behind the frame that has the accumulator made; the locality that refuses it, the rule that is broken, its
/// object, what is kept of that, and whether a frame is left in hand.
type Breaking = (&'static [(u32, &'static str)], u32, u8, Gid, u128, bool);

const BROKEN: [Breaking; 11] = [
    // A Cached of place 2.
    (
        &[NEW, (1, "0105 0000000200000021 0000000000000001 0002")],
        1,
        9,
        FIRST,
        2,
        true,
    ),
    // A Return to a home that is not there.
    (
        &[NEW, (1, "0102 0000000640000021 0000000000000001")],
        1,
        9,
        FAR,
        2,
        true,
    ),
    // A Return of an object that was never made.
    (
        &[NEW, (1, "0102 0000000240000021 0000000000000002")],
        1,
        1,
        SECOND,
        1,
        true,
    ),
    // A Return of half of the count is accepted, one of the whole is not.
    (
        &[
            NEW,
            (1, "0102 000000025e000021 0000000000000001"),
            (1, "0102 000000025f000021 0000000000000001"),
        ],
        1,
        2,
        FIRST,
        1073741824,
        true,
    ),
    // A Give where nobody asked.
    (
        &[
            NEW,
            (0, "0104 000000025f000021 0000000000000001 0000000000000000"),
        ],
        0,
        3,
        FIRST,
        0,
        true,
    ),
    // The object comes where it stands.
    (
        &[
            NEW,
            (
                1,
                "0108 0000 0000000000000009 0000000240000021 0000000000000001 0001
                 0001 02 0000000000000001 00 00000000 0000 0000",
            ),
        ],
        1,
        4,
        FIRST,
        1,
        true,
    ),
    // It has landed, and did not move.
    (
        &[NEW, (1, "0109 0000000240000021 0000000000000001 0000")],
        1,
        5,
        FIRST,
        1,
        true,
    ),
    // A Go where it is not.
    (
        &[
            NEW,
            (
                0,
                "0107 0000 0000000000000009 0000000240000021 0000000000000001 0001
                 0001 02 0000000000000001 00",
            ),
        ],
        0,
        6,
        FIRST,
        0,
        true,
    ),
    // A Free where it is not.
    (
        &[NEW, (0, "010a 0000000200000021 0000000000000001")],
        0,
        7,
        FIRST,
        0,
        true,
    ),
    // An ADD to an object that was never made.
    (
        &[
            NEW,
            (
                1,
                "0101 0000 0000000000000009 0000000240000021 0000000000000002 0010
                 0001 02 0000000000000005 00",
            ),
        ],
        1,
        8,
        SECOND,
        1,
        true,
    ),
    // An Ask is accepted whose asker is the home itself: the Give that answers it is on the home's own desk, and nobody asked there.
    (
        &[
            NEW,
            (
                1,
                "0103 0000000240000021 0000000000000001 0001 0000000000000000",
            ),
        ],
        1,
        3,
        FIRST,
        0,
        false,
    ),
];

/// The row of one that breaks a rule.
fn row_of(broken: &Breaking) -> Row {
    let (frames, to, rule, object, kept, hand) = *broken;
    let breach = Breach::Strange {
        to,
        rule,
        object,
        kept,
    };
    (frames, 8, STRANGE, breach, hand)
}

/// The bytes that hexadecimal digits show, whatever stands between them.
fn hex(alloc: Global, text: &str) -> Result<Bytes, OutOfMemory> {
    let mut bytes = Vec::new(alloc);
    let mut high: Option<u8> = None;
    for c in text.chars() {
        if let Some(digit) = c.to_digit(16) {
            match high {
                None => high = Some(digit as u8),
                Some(first) => {
                    bytes.push(first << 4u32 | digit as u8)?;
                    high = None;
                }
            }
        }
    }
    Ok(Bytes::from_vec(bytes))
}

/// The fabric that brings these frames.
fn fabric(alloc: Global, frames: &[(u32, &str)]) -> Result<LooseFabric, OutOfMemory> {
    let mut answers = VecDeque::new(alloc);
    for (to, digits) in frames {
        answers.push_back(Ok(Some((*to, hex(alloc, digits)?))))?;
    }
    Ok(LooseFabric::new(answers))
}

/// What a run leaves: its status, its fault, whether a frame is in hand, and what was written, also for errors.
#[derive(Drop)]
struct Left {
    status: u8,
    fault: Option<Breach>,
    hand: bool,
    text: SureSink,
    line: SureSink,
}

/// Whether a frame is in hand.
fn has_hand(end: &End<LooseFabric>) -> bool {
    match &end.world {
        Some(world) => world.in_hand().is_some(),
        None => false,
    }
}

/// The run over a fabric. What `run` says of it is not needed behind it.
fn run_over<R: Threads + Wait + Sync>(
    rt: &R,
    alloc: Global,
    words: &Texts,
    source: &mut SureSource,
    text: &mut SureSink,
    line: &mut SureSink,
    fabric: LooseFabric,
) -> End<LooseFabric> {
    run(rt, alloc, words, source, text, line, fabric, &OpenGate)
}

/// What a session of the accumulator leaves over a fabric that brings these frames, by so many threads.
fn ran<R: Threads + Wait + Sync>(
    rt: &R,
    alloc: Global,
    threads: &[u8],
    frames: &[(u32, &str)],
) -> Result<Left, OutOfMemory> {
    let words = words(alloc, &[b"accumulator", b"--hpx:localities=2", threads])?;
    let mut source = SureSource::new(Bytes::from_vec(Vec::from_slice(alloc, b"add 5\nquery\n")?));
    let mut text = SureSink::new(alloc);
    let mut line = SureSink::new(alloc);
    let fabric = fabric(alloc, frames)?;
    let end = run_over(rt, alloc, &words, &mut source, &mut text, &mut line, fabric);
    Ok(Left {
        status: end.status,
        fault: end.fault,
        hand: has_hand(&end),
        text,
        line,
    })
}

/// It is as its row says, and nothing was written behind the commands.
fn assert_left(rt: &impl Abort, left: &Left, row: &Row) {
    let (_, status, line, breach, hand) = row;
    assert_eq!(rt; (left.status, left.line.bytes()), (*status, *line));
    assert_eq!(rt; left.fault, Some(*breach));
    assert_eq!(rt; left.hand, *hand);
    assert_eq!(rt; left.text.bytes(), COMMANDS);
}

#[test]
fn what_was_never_sent_ends_the_session(rt: HostRuntime) -> Result<(), Fail> {
    for threads in [b"--hpx:threads=1".as_slice(), b"--hpx:threads=4"] {
        for row in &ROWS {
            assert_left(&rt, &ran(&rt, rt.alloc(), threads, row.0)?, row);
        }
    }
    Ok(())
}

#[test]
fn each_rule_is_broken_once(rt: HostRuntime) -> Result<(), Fail> {
    for threads in [b"--hpx:threads=1".as_slice(), b"--hpx:threads=4"] {
        for broken in &BROKEN {
            let left = ran(&rt, rt.alloc(), threads, broken.0)?;
            assert_left(&rt, &left, &row_of(broken));
        }
    }
    Ok(())
}
