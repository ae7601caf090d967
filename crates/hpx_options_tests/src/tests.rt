use crate::described::meaning;
use hpx_counters::counters::{list, read as read_counter, value};
use hpx_journal::entry::{Entry, Event, Name};
use hpx_journal::journal::Journal;
use hpx_options::options::read;
use hpx_options::settings::OptionFault;
use hpx_options::texts::{bad_word, help, version};
use hpx_value::gid::Gid;
use hpx_value::items::{Items, Text};
use std::alloc::{AllocError, Global};
use std::process::Abort;
use std::test::Fail;

// Of the words that must be there: a line, and what it means.
const NEEDED: [(&str, &str); 29] = [
    ("", "bad word 0"),
    ("--hpx:threads=0 fib", "bad word 1"),
    ("fib --hpx:localities=65", "bad word 2"),
    ("fib --n-value 93", "bad word 3"),
    ("fib --n-value", "bad word 0"),
    (
        "accumulator --hpx:localities 2 --hpx:localities 3",
        "bad word 4",
    ),
    (
        "space --hpx:ini=hpx.agas.credit_log=9 --hpx:ini=hpx.agas.credit_log=9",
        "bad word 3",
    ),
    (
        "space --hpx:ini=hpx.agas.credit_limit=1267650600228229401496703205376",
        "Space",
    ),
    (
        "space --hpx:ini=hpx.agas.credit_limit=1267650600228229401496703205377",
        "bad word 2",
    ),
    ("stencil --points 10 --parts 3", "bad word 0"),
    (
        "space --hpx:agas=127.0.0.1:7910 --hpx:console",
        "bad word 0",
    ),
    ("accumulator", "Accumulator"),
    (
        "accumulator --hpx:localities=2",
        "Accumulator, 2 localities",
    ),
    ("space", "Space"),
    ("fib", "Fib { n: 10, threshold: 2 }"),
    ("stencil", "Stencil { points: 16, parts: 1, steps: 4 }"),
    ("load", "Load { start: 1, lines: 1000 }"),
    ("check", "Check"),
    ("collect", "Collect { op: Reduce, start: 1 }"),
    ("vector", "Vector { points: 16, parts: 1 }"),
    ("fob", "bad word 1"),
    ("fib fib", "bad word 2"),
    ("fib space", "bad word 2"),
    ("fib=10", "bad word 1"),
    ("Fib", "bad word 1"),
    ("--fib", "bad word 1"),
    ("fib 10", "bad word 2"),
    ("fib -- --n-value 3", "bad word 2"),
    ("=fib", "bad word 1"),
];

// Of threads and localities: a line, and what it means.
const SHARED: [(&str, &str); 18] = [
    ("fib --hpx:threads=1", "Fib { n: 10, threshold: 2 }"),
    (
        "fib --hpx:threads=64",
        "Fib { n: 10, threshold: 2 }, 64 threads",
    ),
    ("fib --hpx:threads=65", "bad word 2"),
    ("fib --hpx:threads 65", "bad word 3"),
    ("fib --hpx:threads", "bad word 0"),
    ("fib --hpx:threads --hpx:threads", "bad word 3"),
    (
        "--hpx:threads 2 --hpx:localities=3 fib",
        "Fib { n: 10, threshold: 2 }, 3 localities, 2 threads",
    ),
    ("fib --hpx:localities=0", "bad word 2"),
    (
        "fib --hpx:localities=64",
        "Fib { n: 10, threshold: 2 }, 64 localities",
    ),
    ("fib --hpx:localities=2x", "bad word 2"),
    ("fib --hpx:localities=", "bad word 2"),
    ("fib --hpx:localities=+2", "bad word 2"),
    ("fib --hpx:localities=-2", "bad word 2"),
    ("fib --hpx:localities=2=2", "bad word 2"),
    (
        "fib --hpx:localities=002",
        "Fib { n: 10, threshold: 2 }, 2 localities",
    ),
    ("fib --hpx:localities=18446744073709551618", "bad word 2"),
    (
        "fib --hpx:localities=340282366920938463463374607431768211458",
        "bad word 2",
    ),
    (
        "fib --hpx:localities=00000000000000000000000000000000000000000000000002",
        "Fib { n: 10, threshold: 2 }, 2 localities",
    ),
];

// Of members: a line, and what it means.
const MEMBERS: [(&str, &str); 33] = [
    (
        "accumulator --hpx:localities=2 --hpx:agas=127.0.0.1:7910 --hpx:console",
        "Accumulator, 2 localities, Console { port: 7910 }",
    ),
    (
        "accumulator --hpx:localities=2 --hpx:agas=localhost:7910 --hpx:node=0 --hpx:console",
        "Accumulator, 2 localities, Console { port: 7910 }",
    ),
    (
        "accumulator --hpx:localities=2 --hpx:agas localhost:7910 --hpx:node 1 --hpx:worker --hpx:hpx=localhost:7911",
        "Accumulator, 2 localities, Worker { node: 1, port: 7910 }",
    ),
    (
        "accumulator --hpx:localities=64 --hpx:agas=127.0.0.1:65472 --hpx:node=63 --hpx:worker --hpx:hpx=127.0.0.1:65535",
        "Accumulator, 64 localities, Worker { node: 63, port: 65472 }",
    ),
    (
        "fib --hpx:agas=localhost:1 --hpx:console",
        "Fib { n: 10, threshold: 2 }, Console { port: 1 }",
    ),
    ("fib --hpx:agas=localhost:0 --hpx:console", "bad word 2"),
    ("fib --hpx:agas=localhost:65473 --hpx:console", "bad word 2"),
    ("fib --hpx:agas=localhost: --hpx:console", "bad word 2"),
    ("fib --hpx:agas=localhost --hpx:console", "bad word 2"),
    ("fib --hpx:agas=127.0.0.2:7910 --hpx:console", "bad word 2"),
    ("fib --hpx:agas=7910 --hpx:console", "bad word 2"),
    (
        "fib --hpx:agas=localhost:7910 --hpx:console --hpx:hpx=localhost:65536",
        "bad word 4",
    ),
    (
        "fib --hpx:agas=localhost:7910 --hpx:console --hpx:hpx=localhost:0",
        "bad word 4",
    ),
    (
        "fib --hpx:agas=localhost:7910 --hpx:console --hpx:hpx=localhost:7911",
        "bad word 0",
    ),
    (
        "fib --hpx:localities=64 --hpx:agas=localhost:7910 --hpx:node=64 --hpx:worker",
        "bad word 4",
    ),
    (
        "fib --hpx:localities=2 --hpx:agas=localhost:7910 --hpx:node=2 --hpx:worker",
        "bad word 0",
    ),
    (
        "fib --hpx:localities=2 --hpx:agas=localhost:7910 --hpx:node=1 --hpx:console",
        "bad word 0",
    ),
    (
        "fib --hpx:localities=2 --hpx:agas=localhost:7910 --hpx:node=0 --hpx:worker",
        "bad word 0",
    ),
    (
        "fib --hpx:localities=2 --hpx:agas=localhost:7910 --hpx:worker",
        "bad word 0",
    ),
    (
        "fib --hpx:localities=2 --hpx:agas=localhost:7910 --hpx:node=1",
        "bad word 0",
    ),
    (
        "fib --hpx:localities=2 --hpx:agas=localhost:7910 --hpx:node=1 --hpx:worker --hpx:console",
        "bad word 0",
    ),
    (
        "fib --hpx:agas=localhost:7910 --hpx:console=1",
        "bad word 3",
    ),
    (
        "fib --hpx:agas=localhost:7910 --hpx:console --hpx:console",
        "bad word 4",
    ),
    (
        "fib --hpx:agas=localhost:7910 --hpx:console --hpx:threads=2",
        "bad word 0",
    ),
    (
        "stencil --hpx:agas=localhost:7910 --hpx:console",
        "Stencil { points: 16, parts: 1, steps: 4 }, Console { port: 7910 }",
    ),
    ("load --hpx:agas=localhost:7910 --hpx:console", "bad word 0"),
    (
        "check --hpx:agas=localhost:7910 --hpx:console",
        "bad word 0",
    ),
    (
        "collect --hpx:agas=localhost:7910 --hpx:console",
        "bad word 0",
    ),
    (
        "vector --hpx:agas=localhost:7910 --hpx:console",
        "bad word 0",
    ),
    ("fib --hpx:node=0", "bad word 0"),
    ("fib --hpx:hpx=localhost:7910", "bad word 0"),
    ("fib --hpx:console", "bad word 0"),
    ("fib --hpx:worker", "bad word 0"),
];

// Of counters: a line, and what it means.
const COUNTERS: [(&str, &str); 6] = [
    (
        "fib --hpx:print-counter=/parcels{locality#1/total}/count/sent",
        "Fib { n: 10, threshold: 2 }, ParcelsSent at 1",
    ),
    (
        "fib --hpx:print-counter /credits{locality#63/total}/count/asked --hpx:print-counter=/agas{locality#0/total}/count/cache/hits",
        "Fib { n: 10, threshold: 2 }, CreditsAsked at 63, CacheHits at 0",
    ),
    (
        "fib --hpx:print-counter=/parcels{locality#01/total}/count/sent",
        "bad word 2",
    ),
    (
        "fib --hpx:print-counter /parcels{locality#64/total}/count/sent",
        "bad word 3",
    ),
    ("fib --hpx:print-counter=", "bad word 2"),
    ("fib --hpx:print-counter", "bad word 0"),
];

// Of help, version, list of counters: a line, and what it means.
const PRINTED: [(&str, &str); 13] = [
    ("--hpx:help", "Help"),
    ("--hpx:version", "Version"),
    ("--hpx:list-counters", "ListCounters"),
    ("--hpx:list-counters --hpx:version --hpx:help fib", "Help"),
    ("--hpx:list-counters fib --hpx:version", "Version"),
    ("fib --hpx:list-counters", "ListCounters"),
    ("--hpx:help=yes", "bad word 1"),
    ("--hpx:help --hpx:help", "bad word 2"),
    ("--hpx:help --hpx:node=1", "bad word 0"),
    ("--hpx:help stencil --points 10 --parts 3", "bad word 0"),
    (
        "--hpx:list-counters --hpx:localities=3",
        "ListCounters, 3 localities",
    ),
    ("--hpx:unknown", "bad word 1"),
    ("--hpx:thread=1 fib", "bad word 1"),
];

// Of keys: a line, and what it means.
const KEYS: [(&str, &str); 33] = [
    (
        "fib --hpx:ini=hpx.agas.credit_log=8",
        "Fib { n: 10, threshold: 2 }, log 8",
    ),
    ("fib --hpx:ini hpx.agas.credit_log=7", "bad word 3"),
    (
        "fib --hpx:ini=hpx.agas.credit_log=31",
        "Fib { n: 10, threshold: 2 }",
    ),
    ("fib --hpx:ini=hpx.agas.credit_log=32", "bad word 2"),
    (
        "space --hpx:ini=hpx.agas.credit_log=8 --hpx:ini=hpx.agas.credit_limit=256",
        "Space, log 8, limit 256",
    ),
    (
        "space --hpx:ini=hpx.agas.credit_log=8 --hpx:ini=hpx.agas.credit_limit=255",
        "bad word 0",
    ),
    (
        "space --hpx:ini=hpx.agas.credit_limit=2147483648",
        "Space, limit 2147483648",
    ),
    (
        "space --hpx:ini=hpx.agas.credit_limit=2147483647",
        "bad word 0",
    ),
    ("space --hpx:ini=hpx.agas.credit_limit=2", "bad word 0"),
    ("space --hpx:ini=hpx.agas.credit_limit=1", "bad word 2"),
    ("space --hpx:ini=hpx.agas.cache_size=1", "Space, cache 1"),
    (
        "space --hpx:ini=hpx.agas.cache_size=4096",
        "Space, cache 4096",
    ),
    ("space --hpx:ini=hpx.agas.cache_size=0", "bad word 2"),
    ("space --hpx:ini=hpx.agas.cache_size=4097", "bad word 2"),
    ("space --hpx:ini=hpx.agas.settle=0", "Space"),
    ("space --hpx:ini=hpx.agas.settle=1", "bad word 0"),
    ("space --hpx:ini=hpx.agas.settle=2", "bad word 2"),
    (
        "accumulator --hpx:ini=hpx.agas.settle=1 --hpx:agas=localhost:7910 --hpx:console",
        "Accumulator, Console { port: 7910 }, settles",
    ),
    (
        "accumulator --hpx:ini=hpx.journal=1",
        "Accumulator, journal",
    ),
    ("accumulator --hpx:ini=hpx.journal=0", "Accumulator"),
    ("accumulator --hpx:ini=hpx.journal=2", "bad word 2"),
    (
        "accumulator --hpx:ini=hpx.journal=1 --hpx:ini hpx.journal=1",
        "bad word 4",
    ),
    ("accumulator --hpx:ini=hpx.agas.cache=1", "bad word 2"),
    ("accumulator --hpx:ini=hpx.agas.cache_size", "bad word 2"),
    ("accumulator --hpx:ini=hpx.agas.cache_size=", "bad word 2"),
    (
        "accumulator --hpx:ini=hpx.agas.cache_size=1=1",
        "bad word 2",
    ),
    ("accumulator --hpx:ini=--hpx:threads=1", "bad word 2"),
    ("accumulator --hpx:ini=", "bad word 2"),
    ("accumulator --hpx:ini", "bad word 0"),
    ("accumulator hpx.journal=1", "bad word 2"),
    ("check --hpx:ini=hpx.journal=1", "bad word 0"),
    (
        "check --hpx:print-counter=/objects{locality#0/total}/count/born",
        "bad word 0",
    ),
    ("check --hpx:ini=hpx.journal=0", "Check"),
];

// Of words of applications: a line, and what it means.
const NUMBERS: [(&str, &str); 47] = [
    ("fib --n-value 0", "Fib { n: 0, threshold: 2 }"),
    ("fib --n-value=92", "Fib { n: 92, threshold: 78 }"),
    ("fib --n-value=16", "Fib { n: 16, threshold: 2 }"),
    ("fib --n-value=17", "Fib { n: 17, threshold: 3 }"),
    ("fib --n-value=017", "Fib { n: 17, threshold: 3 }"),
    (
        "fib --n-value 20 --threshold 2",
        "Fib { n: 20, threshold: 2 }",
    ),
    ("fib --threshold=92", "Fib { n: 10, threshold: 92 }"),
    ("fib --threshold=1", "bad word 2"),
    ("fib --threshold=93", "bad word 2"),
    ("fib --n-value=", "bad word 2"),
    ("fib --n-value=1 --n-value=2", "bad word 3"),
    ("fib --n-value=1 --n-value", "bad word 3"),
    ("fib --n-value --threshold", "bad word 3"),
    ("--n-value 3 fib", "bad word 1"),
    ("accumulator --n-value=3", "bad word 2"),
    ("fib --points=4", "bad word 2"),
    (
        "stencil --points=1",
        "Stencil { points: 1, parts: 1, steps: 4 }",
    ),
    (
        "stencil --points 1024 --parts 32 --steps 1000",
        "Stencil { points: 1024, parts: 32, steps: 1000 }",
    ),
    ("stencil --points=0", "bad word 2"),
    ("stencil --points=1025", "bad word 2"),
    ("stencil --parts=0", "bad word 2"),
    ("stencil --parts=33", "bad word 2"),
    ("stencil --parts=32", "bad word 0"),
    (
        "stencil --points=32 --parts=32 --steps=0",
        "Stencil { points: 32, parts: 32, steps: 0 }",
    ),
    ("stencil --steps=1001", "bad word 2"),
    ("load --start=0 --lines=0", "Load { start: 0, lines: 0 }"),
    (
        "load --start=2147483647 --lines=20000",
        "Load { start: 2147483647, lines: 20000 }",
    ),
    ("load --start=2147483648", "bad word 2"),
    ("load --lines 20001", "bad word 3"),
    ("load --op=reduce", "bad word 2"),
    (
        "collect --op broadcast",
        "Collect { op: Broadcast, start: 1 }",
    ),
    ("collect --op=reduce", "Collect { op: Reduce, start: 1 }"),
    (
        "collect --op=all_gather --start=0",
        "Collect { op: AllGather, start: 0 }",
    ),
    (
        "collect --start=1000000000 --op=scatter",
        "Collect { op: Scatter, start: 1000000000 }",
    ),
    ("collect --start=1000000001", "bad word 2"),
    ("collect --op=gather", "bad word 2"),
    ("collect --op=", "bad word 2"),
    ("collect --op", "bad word 0"),
    (
        "vector --points=4096 --parts=32",
        "Vector { points: 4096, parts: 32 }",
    ),
    ("vector --points=1", "Vector { points: 1, parts: 1 }"),
    ("vector --points=4097", "bad word 2"),
    ("vector --points=0", "bad word 2"),
    ("vector --parts=33", "bad word 2"),
    ("vector --parts=0", "bad word 2"),
    ("vector --points=10 --parts=3", "bad word 0"),
    ("vector --steps=3", "bad word 2"),
    ("check --points=3", "bad word 2"),
];

// Each line of a table means what stands beside it.
fn agree(rt: &impl Abort, alloc: Global, table: &[(&str, &str)]) -> Result<(), AllocError> {
    for (line, want) in table {
        let is = meaning(alloc, line)?;
        assert_eq!(rt; is.as_str(), *want, "in {line}");
    }
    Ok(())
}

#[test]
fn lines_mean_what_they_must(rt: HostRuntime) -> Result<(), Fail> {
    let alloc = rt.alloc();
    agree(&rt, alloc, &NEEDED)?;
    agree(&rt, alloc, &SHARED)?;
    agree(&rt, alloc, &MEMBERS)?;
    agree(&rt, alloc, &COUNTERS)?;
    agree(&rt, alloc, &PRINTED)?;
    agree(&rt, alloc, &KEYS)?;
    agree(&rt, alloc, &NUMBERS)?;
    Ok(())
}

// 64 counters are asked for; the 65th is refused at its option's word, which stands alone.
#[test]
fn a_65th_counter_is_refused(rt: HostRuntime) -> Result<(), Fail> {
    let alloc = rt.alloc();
    let mut words = Items::new(alloc);
    words.push(Text::from_vec(Vec::from_slice(alloc, b"fib")?))?;
    for _ in 0..64 {
        words.push(Text::from_vec(Vec::from_slice(alloc, b"--hpx:print-counter")?))?;
        words.push(Text::from_vec(Vec::from_slice(
            alloc,
            b"/objects{locality#7/total}/count/freed",
        )?))?;
    }
    match read(&words) {
        Ok(settings) => assert_eq!(rt; settings.counters.len(), 64),
        Err(_) => assert!(rt; false, "64 counters are refused"),
    }
    words.push(Text::from_vec(Vec::from_slice(alloc, b"--hpx:print-counter")?))?;
    words.push(Text::from_vec(Vec::from_slice(alloc, b"no counter")?))?;
    match read(&words) {
        Ok(_) => assert!(rt; false, "65 counters are taken"),
        Err(fault) => assert_eq!(rt; fault, OptionFault { place: 130 }),
    }
    Ok(())
}

// An empty word, one with a blank, and one that is no text.
#[test]
fn words_that_no_blank_divides(rt: HostRuntime) -> Result<(), Fail> {
    let alloc = rt.alloc();
    for word in [
        b"".as_slice(),
        b" fib",
        b"fib ",
        b"\xff\xfe",
        b"--hpx:help\0",
    ] {
        let mut words = Items::new(alloc);
        words.push(Text::from_vec(Vec::from_slice(alloc, word)?))?;
        match read(&words) {
            Ok(_) => assert!(rt; false, "{word:?} is taken"),
            Err(fault) => assert_eq!(rt; fault, OptionFault { place: 1 }),
        }
    }
    Ok(())
}

#[test]
fn texts_are_as_scripts_read_them(rt: HostRuntime) -> Result<(), Fail> {
    assert_eq!(rt; help(), b"usage: hpx APPLICATION [OPTIONS]\n".as_slice());
    assert_eq!(rt; version(), b"hpx profile 1\n".as_slice());
    assert_eq!(rt; bad_word(0).as_str(), "hpx: bad word 0\n");
    assert_eq!(rt; bad_word(17).as_str(), "hpx: bad word 17\n");
    assert_eq!(rt; bad_word(4294967295).as_str(), "hpx: bad word 4294967295\n");
    Ok(())
}

// A text, and the length of its longest front that begins the name of a counter; each is refused.
const NO_COUNTERS: [(&str, u32); 16] = [
    ("", 0),
    ("parcels", 0),
    ("/", 1),
    ("/parcels{locality#01/total}/count/sent", 19),
    ("/parcels{locality#64/total}/count/sent", 19),
    ("/parcels{locality#7/total}/count/sent,", 37),
    ("/parcels{locality#7/total}/count/", 33),
    ("/parcels{locality#7/total}/count/received ", 41),
    ("/parcels{locality#7/total}/count/freed", 33),
    ("/parcels{locality#-1/total}/count/sent", 18),
    ("/parcels{locality#/total}/count/sent", 18),
    ("/parcels{locality#1/total}/count/send", 36),
    ("/threads{locality#63/total}/count/cumulative/", 44),
    ("/agas{locality#0/total}/count/cache/", 36),
    ("/objects{locality#0/worker#1}/count/born", 20),
    ("/Parcels{locality#0/total}/count/sent", 1),
];

#[test]
fn names_of_no_counter_are_refused_where_they_end(rt: HostRuntime) -> Result<(), Fail> {
    for (name, at) in NO_COUNTERS {
        match read_counter(name.as_bytes()) {
            Ok(_) => assert!(rt; false, "{name} is read"),
            Err(bad) => assert_eq!(rt; bad.at, at, "in {name}"),
        }
    }
    Ok(())
}

// The names of two localities, in order; each of 640 is read, as the counter that has it.
#[test]
fn names_are_listed_and_read(rt: HostRuntime) -> Result<(), Fail> {
    let alloc = rt.alloc();
    let two = [
        "/parcels{locality#0/total}/count/sent",
        "/parcels{locality#0/total}/count/received",
        "/threads{locality#0/total}/count/cumulative",
        "/agas{locality#0/total}/count/cache/hits",
        "/agas{locality#0/total}/count/cache/misses",
        "/objects{locality#0/total}/count/born",
        "/objects{locality#0/total}/count/freed",
        "/objects{locality#0/total}/count/landed",
        "/credits{locality#0/total}/count/split",
        "/credits{locality#0/total}/count/asked",
        "/parcels{locality#1/total}/count/sent",
        "/parcels{locality#1/total}/count/received",
        "/threads{locality#1/total}/count/cumulative",
        "/agas{locality#1/total}/count/cache/hits",
        "/agas{locality#1/total}/count/cache/misses",
        "/objects{locality#1/total}/count/born",
        "/objects{locality#1/total}/count/freed",
        "/objects{locality#1/total}/count/landed",
        "/credits{locality#1/total}/count/split",
        "/credits{locality#1/total}/count/asked",
    ];
    let names = list(alloc, 2)?;
    assert_eq!(rt; names.len(), 20);
    for (name, want) in names.as_slice().iter().zip(two) {
        assert_eq!(rt; name.as_slice(), want.as_bytes());
    }
    let all = list(alloc, 64)?;
    assert_eq!(rt; all.len(), 640);
    for name in all.as_slice() {
        match read_counter(name.as_slice()) {
            Ok(counter) => {
                let again = counter.name(alloc)?;
                assert_eq!(rt; again.as_slice(), name.as_slice());
            }
            Err(_) => assert!(rt; false, "a name is not read"),
        }
    }
    Ok(())
}
// An entry of a journal: what was done, and at which locality.
fn entry(at: u32, event: Event) -> Entry {
    Entry { at, event }
}

// Two frames were sent at locality 0 and one at 1, where one was accepted; each counter counts its own.
#[test]
fn entries_are_counted(rt: HostRuntime) -> Result<(), Fail> {
    let alloc = rt.alloc();
    let object = Gid::new(0, 16, 1);
    let action = Name {
        origin: 0,
        serial: 1,
    };
    let mut journal = Journal::new(alloc);
    let events = [
        entry(
            0,
            Event::Out {
                to: 1,
                bytes: Items::new(alloc),
            },
        ),
        entry(
            1,
            Event::In {
                bytes: Items::new(alloc),
            },
        ),
        entry(
            0,
            Event::Done {
                action,
                failed: false,
            },
        ),
        entry(
            0,
            Event::Out {
                to: 1,
                bytes: Items::new(alloc),
            },
        ),
        entry(
            1,
            Event::Done {
                action,
                failed: true,
            },
        ),
        entry(
            1,
            Event::Out {
                to: 0,
                bytes: Items::new(alloc),
            },
        ),
        entry(0, Event::Looked { object, hit: true }),
        entry(0, Event::Looked { object, hit: false }),
        entry(0, Event::Looked { object, hit: false }),
        entry(1, Event::Split { object, log: 3 }),
        entry(0, Event::Asked { object }),
        entry(0, Event::Freed { object }),
        entry(1, Event::Landed { object }),
        entry(0, Event::Fire { action }),
        entry(0, Event::Up { object, log: 3 }),
    ];
    for event in events {
        if journal.reserve(1).is_ok() {
            journal.push(event);
        }
    }
    for (name, want) in [
        ("/parcels{locality#0/total}/count/sent", 2),
        ("/parcels{locality#1/total}/count/sent", 1),
        ("/parcels{locality#63/total}/count/sent", 0),
        ("/parcels{locality#0/total}/count/received", 0),
        ("/parcels{locality#1/total}/count/received", 1),
        ("/threads{locality#0/total}/count/cumulative", 1),
        ("/threads{locality#1/total}/count/cumulative", 1),
        ("/agas{locality#0/total}/count/cache/hits", 1),
        ("/agas{locality#0/total}/count/cache/misses", 2),
        ("/objects{locality#0/total}/count/born", 0),
        ("/objects{locality#0/total}/count/freed", 1),
        ("/objects{locality#1/total}/count/landed", 1),
        ("/credits{locality#1/total}/count/split", 1),
        ("/credits{locality#0/total}/count/asked", 1),
    ] {
        match read_counter(name.as_bytes()) {
            Ok(counter) => assert_eq!(rt; value(&counter, &journal), want, "of {name}"),
            Err(_) => assert!(rt; false, "{name} is not read"),
        }
    }
    Ok(())
}
