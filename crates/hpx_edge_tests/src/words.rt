//! The program on the words of an environment.
use hpx_ports::gate::OpenGate;
use hpx_ports::memory_fabric::SureFabric;
use hpx_ports::memory_opener::MemOpener;
use hpx_ports::memory_sink::SureSink;
use hpx_ports::memory_source::SureSource;
use hpx_ports::order::Order;
use hpx_ports::words::{EnvWords, MemWords, Words};
use hpx_program::program::program;
use hpx_value::items::{Bytes, Items, Lengths, Text, Texts};
use hpx_value::memory::OutOfMemory;
use std::alloc::Global;
use std::collections::VecDeque;
use std::env::{Env, FillError};
use std::process::Abort;
use std::sync::Wait;
use std::test::Fail;
use std::thread::Threads;

/// The environment of a program that was started with these words, behind its name.
#[derive(Drop)]
struct Started<'a>(&'a [&'a [u8]]);

impl<'a> Env for Started<'a> {
    fn arg(&self, i: usize, buf: &mut [u8]) -> Result<usize, FillError> {
        let word = match i.checked_sub(1) {
            None => b"hpx".as_slice(),
            Some(place) => *self.0.get(place).ok_or(FillError::NotPresent)?,
        };
        if word.len() > buf.len() {
            return Err(FillError::TooLong);
        }
        buf[..word.len()].copy_from_slice(word);
        Ok(word.len())
    }

    fn var(&self, _name: &str, _buf: &mut [u8]) -> Result<usize, FillError> {
        Err(FillError::NotPresent)
    }

    fn var_at(&self, _i: usize, _buf: &mut [u8]) -> Result<usize, FillError> {
        Err(FillError::NotPresent)
    }
}

/// What a program has written that was started with these words: its status, its text, and its line for errors.
#[derive(Drop)]
struct Written {
    status: u8,
    text: SureSink,
    line: SureSink,
}

/// An input of two lines.
fn two_lines(alloc: Global) -> Result<SureSource, OutOfMemory> {
    let bytes = Vec::from_slice(alloc, b"add 5\nquery\n")?;
    Ok(SureSource::new(Bytes::from_vec(bytes)))
}

/// An opener over whose link nothing comes.
fn quiet_opener(alloc: Global) -> MemOpener {
    let coming = VecDeque::new(alloc);
    let (sends, receives) = (Lengths::new(alloc), Lengths::new(alloc));
    MemOpener::new(alloc, coming, sends, receives, Lengths::new(alloc))
}

/// The status of the program on these words. What `program` says of it is not needed behind it.
fn status_of<W: Words, R: Threads + Wait + Sync>(
    rt: &R,
    alloc: Global,
    given: &W,
    source: &mut SureSource,
    text: &mut SureSink,
    line: &mut SureSink,
) -> u8 {
    let fabric = SureFabric::new(alloc, Order::FirstIn);
    let mut opener = quiet_opener(alloc);
    program(
        rt,
        alloc,
        given,
        source,
        text,
        line,
        fabric,
        &mut opener,
        &OpenGate,
    )
    .status
}

/// The program on these words, and on an input of two lines.
fn run_on<W: Words, R: Threads + Wait + Sync>(
    rt: &R,
    alloc: Global,
    given: &W,
) -> Result<Written, OutOfMemory> {
    let mut source = two_lines(alloc)?;
    let mut text = SureSink::new(alloc);
    let mut line = SureSink::new(alloc);
    let status = status_of(rt, alloc, given, &mut source, &mut text, &mut line);
    Ok(Written { status, text, line })
}

/// The program on words that the system gives.
fn run_by_system<R: Threads + Wait + Sync>(
    rt: &R,
    alloc: Global,
    words: &[&[u8]],
) -> Result<Written, OutOfMemory> {
    run_on(rt, alloc, &EnvWords::new(&Started(words)))
}

/// The program on the same words in memory.
fn run_in_memory<R: Threads + Wait + Sync>(
    rt: &R,
    alloc: Global,
    words: &[&[u8]],
) -> Result<Written, OutOfMemory> {
    let words = texts(alloc, words)?;
    run_on(rt, alloc, &MemWords { words })
}

/// Words in memory.
fn texts(alloc: Global, words: &[&[u8]]) -> Result<Texts, OutOfMemory> {
    let mut texts = Items::new(alloc);
    for word in words {
        texts.push(Text::from_vec(Vec::from_slice(alloc, word)?))?;
    }
    Ok(texts)
}

const TEXT: &[u8] = b"commands: reset, add [amount], query, help, quit\n> > 5\n> ";

/// Words, and what is written for errors where they do not fit.
type Row<'a> = (&'a [&'a [u8]], &'a [u8]);

// The limit of a count that stands for nothing is given in 64 bytes, in 65, and in 65 of which the last spoils it.
const ROWS: [Row; 14] = [
    (&[b"accumulator", b"--hpx:localities=2"], b""),
    (
        &[
            b"accumulator",
            b"--hpx:localities=2",
            b"--hpx:ini=hpx.agas.credit_limit=01267650600228229401496703205376",
        ],
        b"",
    ),
    (
        &[
            b"--hpx:ini=hpx.agas.credit_limit=001267650600228229401496703205376",
            b"accumulator",
            b"--hpx:localities=2",
        ],
        b"",
    ),
    (
        &[
            b"accumulator",
            b"--hpx:localities=2",
            b"--hpx:ini=hpx.agas.credit_limit=01267650600228229401496703205376x",
        ],
        b"hpx: bad word 3\n",
    ),
    // a word that is cut would fit
    (
        &[b"accumulator", b"--hpx:localities=644"],
        b"hpx: bad word 2\n",
    ),
    (
        &[b"accumulators", b"--hpx:localities=2"],
        b"hpx: bad word 1\n",
    ),
    // none, empty ones, and one more than fits
    (&[], b"hpx: bad word 0\n"),
    (&[b""], b"hpx: bad word 1\n"),
    (
        &[b"", b"accumulator", b"--hpx:localities=2"],
        b"hpx: bad word 1\n",
    ),
    (
        &[b"accumulator", b"", b"--hpx:localities=2"],
        b"hpx: bad word 2\n",
    ),
    (
        &[b"accumulator", b"--hpx:localities=2", b""],
        b"hpx: bad word 3\n",
    ),
    (
        &[b"accumulator", b"--hpx:localities=2", b"quit"],
        b"hpx: bad word 3\n",
    ),
    // the one locality of one process, as a member; and what is no member
    (
        &[
            b"accumulator",
            b"--hpx:agas=127.0.0.1:7910",
            b"--hpx:console",
        ],
        b"",
    ),
    (
        &[b"space", b"--hpx:agas=127.0.0.1:7910", b"--hpx:console"],
        b"hpx: bad word 0\n",
    ),
];

/// A program ended with its text, or with this line for errors.
fn assert_written(rt: &impl Abort, i: usize, line: &[u8], written: &Written) {
    let (status, text) = if line.is_empty() {
        (0, TEXT)
    } else {
        (1, b"".as_slice())
    };
    assert_eq!(rt; written.status, status, "row {i}");
    assert_eq!(rt; written.text.bytes(), text, "row {i}");
    assert_eq!(rt; written.line.bytes(), line, "row {i}");
}

#[test]
fn the_words_are_read_whole(rt: HostRuntime) -> Result<(), Fail> {
    let alloc = rt.alloc();
    for (i, (words, line)) in ROWS.iter().enumerate() {
        let by_system = run_by_system(&rt, alloc, words)?;
        assert_written(&rt, i, line, &by_system);
        let in_memory = run_in_memory(&rt, alloc, words)?;
        assert_written(&rt, i, line, &in_memory);
    }
    Ok(())
}

/// The program on 2,000 words behind those that fit.
fn run_on_many<R: Threads + Wait + Sync>(rt: &R, alloc: Global) -> Result<Written, OutOfMemory> {
    let mut words = Vec::from_slice(alloc, &[b"accumulator".as_slice(), b"--hpx:localities=2"])?;
    for _ in 0..2000 {
        words.push(b"more".as_slice())?;
    }
    run_by_system(rt, alloc, words.as_slice())
}

// 2,000 words behind those that fit: the first of them is named.
#[test]
fn too_many_words_are_refused(rt: HostRuntime) -> Result<(), Fail> {
    let written = run_on_many(&rt, rt.alloc())?;
    assert_eq!(rt; written.status, 1);
    assert_eq!(rt; written.text.bytes(), b"".as_slice());
    assert_eq!(rt; written.line.bytes(), b"hpx: bad word 3\n".as_slice());
    Ok(())
}
