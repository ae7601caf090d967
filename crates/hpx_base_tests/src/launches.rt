use hpx_launch::launch::launch;
use hpx_ports::memory_sink::SureSink;
use hpx_ports::memory_spawner::MemSpawner;
use hpx_value::items::{Bytes, Items, Lengths, Text, Texts};
use hpx_value::memory::OutOfMemory;
use std::alloc::Global;
use std::test::Fail;

/// A command line, its words apart by blanks; the statuses with which its children end; the start and the wait that fail, from 1; and what
/// comes of it: the status, the line for errors, how many children were started, and how many have ended.
type Row<'a> = (&'a str, [u8; 3], (u64, u64), (u8, &'a str, usize, usize));

const THREE: &str = "--program p --localities 3 -- fib";

const BAD: (u8, &str, usize, usize) = (1, "hpxrun: bad words\n", 0, 0);

const ROWS: [Row; 20] = [
    (THREE, [0, 0, 0], (0, 0), (0, "", 3, 3)),
    // the second answers 7; of two the first; statuses that the launcher has too
    (THREE, [0, 7, 0], (0, 0), (7, "", 3, 3)),
    (THREE, [0, 9, 7], (0, 0), (9, "", 3, 3)),
    (THREE, [1, 4, 6], (0, 0), (1, "", 3, 3)),
    // the first start fails, the last, the first wait, the second
    (
        THREE,
        [0, 0, 0],
        (1, 0),
        (4, "hpxrun: start failed\n", 0, 0),
    ),
    (
        THREE,
        [0, 0, 0],
        (3, 0),
        (4, "hpxrun: start failed\n", 2, 0),
    ),
    (
        THREE,
        [0, 0, 0],
        (0, 1),
        (4, "hpxrun: start failed\n", 3, 0),
    ),
    (
        THREE,
        [5, 0, 0],
        (0, 2),
        (4, "hpxrun: start failed\n", 3, 1),
    ),
    // in other forms, at the ends of the ranges, without words
    (
        "fib --localities=3 --program=p --port 65472",
        [0, 0, 0],
        (0, 0),
        (0, "", 3, 3),
    ),
    (
        "--program p --port=0001 --localities 03",
        [0, 0, 0],
        (0, 0),
        (0, "", 3, 3),
    ),
    // none, too many, no number; no program, no localities; twice
    ("--program p --localities 0", [0, 0, 0], (0, 0), BAD),
    ("--program p --localities 65", [0, 0, 0], (0, 0), BAD),
    ("--program p --localities +3", [0, 0, 0], (0, 0), BAD),
    ("--localities 3", [0, 0, 0], (0, 0), BAD),
    ("--program p -- --localities 3", [0, 0, 0], (0, 0), BAD),
    (
        "--program p --localities 3 --localities 3",
        [0, 0, 0],
        (0, 0),
        BAD,
    ),
    // ports out of range, options that there are not
    (
        "--program p --localities 3 --port 0",
        [0, 0, 0],
        (0, 0),
        BAD,
    ),
    (
        "--program p --localities 3 --port 65473",
        [0, 0, 0],
        (0, 0),
        BAD,
    ),
    (
        "--program p --localities 3 --hpx:threads=2",
        [0, 0, 0],
        (0, 0),
        BAD,
    ),
    ("--help", [0, 0, 0], (0, 0), BAD),
];

/// The words of a line.
fn words(alloc: Global, line: &str) -> Result<Texts, OutOfMemory> {
    let mut texts = Items::new(alloc);
    for word in line.split(' ') {
        texts.push(Text::from_vec(Vec::from_slice(alloc, word.as_bytes())?))?;
    }
    Ok(texts)
}

/// The call that fails, if any.
fn call(alloc: Global, number: u64) -> Result<Lengths, OutOfMemory> {
    let mut calls = Lengths::new(alloc);
    if number > 0 {
        calls.push(number)?;
    }
    Ok(calls)
}

#[test]
fn a_launch_ends_as_its_children_do(rt: HostRuntime) -> Result<(), Fail> {
    let alloc = rt.alloc();
    for (i, (line, statuses, (start, wait), wanted)) in ROWS.iter().enumerate() {
        let statuses = Bytes::from_vec(Vec::from_slice(alloc, statuses)?);
        let mut spawner = MemSpawner::new(
            alloc,
            statuses,
            call(alloc, *start)?,
            call(alloc, *wait)?,
        );
        let mut err = SureSink::new(alloc);
        let status = launch(alloc, &words(alloc, line)?, &mut spawner, &mut err);
        assert_eq!(rt; status, wanted.0, "row {i}");
        assert_eq!(rt; err.bytes(), wanted.1.as_bytes(), "row {i}");
        assert_eq!(rt; spawner.started().len(), wanted.2, "row {i}");
        assert_eq!(rt; spawner.ended().len(), wanted.3, "row {i}");
    }
    Ok(())
}
