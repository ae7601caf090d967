//! Members that have ended, and what each leaves, in plain values.
use crate::bodies::sent;
use crate::script::Script;
use hpx_member::console::console;
use hpx_member::end::MemberEnd;
use hpx_member::stop::MemberFault;
use hpx_member::worker::worker;
use hpx_parcel::parcel::Why;
use hpx_ports::memory_link::MemLink;
use hpx_top::acts::AllActs;
use hpx_value::items::{Bytes, Lengths};
use hpx_value::profile::Profile;
use std::alloc::{AllocError, Global};
use std::collections::VecDeque;
use std::process::Abort;
use std::sync::Wait;

/// A new object has a credit of 256.
const PROFILE: Profile = Profile {
    credit_log: 8,
    credit_limit: 1024,
    cache: 16,
};

/// What was not accepted, and from whom it came.
#[derive(Clone, Copy, Debug, PartialEq, Eq)]
pub enum Odd {
    Nothing,
    /// A frame that spells no parcel, from this byte on.
    BadFrame(u32, u32, Why),
    /// A parcel that breaks this rule; and what is there instead.
    Strange(u32, u8, u128),
    OutOfPlace(u32),
    /// No wave was left.
    Waves,
}

/// What a member leaves: its status, how many entries it wrote, what it did not accept, what it sent, and what was shown.
#[derive(Drop)]
pub struct Ran {
    pub status: u8,
    pub entries: u64,
    pub odd: Odd,
    pub sent: Vec<(u32, Bytes)>,
    pub text: Vec<u8>,
}

/// Which calls of a member fail, by their numbers from 1.
#[derive(Clone, Copy)]
pub struct Faults {
    pub sends: &'static [u64],
    pub receives: &'static [u64],
    /// The question for a line that fails; 0 for none.
    pub unread: u64,
    pub writes: &'static [u64],
}

pub const NONE: Faults = Faults {
    sends: &[],
    receives: &[],
    unread: 0,
    writes: &[],
};

fn calls(alloc: Global, numbers: &[u64]) -> Result<Lengths, AllocError> {
    Ok(Lengths::from_vec(Vec::from_slice(alloc, numbers)?))
}

/// What was not accepted.
fn odd_of(fault: Option<MemberFault>) -> Odd {
    match fault {
        None => Odd::Nothing,
        Some(MemberFault::BadFrame { from, at, why }) => Odd::BadFrame(from, at, why),
        Some(
            MemberFault::Strange {
                from,
                rule,
                object: _,
                kept,
            },
        ) => Odd::Strange(from, rule, kept),
        Some(MemberFault::OutOfPlace { from }) => Odd::OutOfPlace(from),
        Some(MemberFault::Waves) => Odd::Waves,
    }
}

/// What an end leaves, and what was shown.
fn leaves(
    alloc: Global,
    end: &MemberEnd<AllActs, MemLink>,
    text: &[u8],
) -> Result<Ran, AllocError> {
    Ok(Ran {
        status: end.status,
        entries: end.journal.entries(),
        odd: odd_of(end.fault),
        sent: sent(alloc, end.link.trace())?,
        text: Vec::from_slice(alloc, text)?,
    })
}

/// Locality 1 of two as a worker over a link where this comes, and these sends and receives fail. What `worker` says of it is not needed
/// behind it.
fn worker_end<R: Wait>(
    rt: &R,
    alloc: Global,
    coming: VecDeque<(u32, Bytes)>,
    sends: Lengths,
    receives: Lengths,
) -> MemberEnd<AllActs, MemLink> {
    let link = MemLink::new(alloc, coming, sends, receives);
    worker(rt, alloc, AllActs { localities: 2 }, 1, PROFILE, link)
}

/// A worker to which this comes.
pub fn worker_ran<R: Wait>(
    rt: &R,
    alloc: Global,
    coming: VecDeque<(u32, Bytes)>,
    faults: &Faults,
) -> Result<Ran, AllocError> {
    let sends = calls(alloc, faults.sends)?;
    let receives = calls(alloc, faults.receives)?;
    let end = worker_end(rt, alloc, coming, sends, receives);
    leaves(alloc, &end, &[])
}

/// How a console is run: at how many localities, whether a round is to end before each line but the first, and its lines.
#[derive(Clone, Copy)]
pub struct Session {
    pub localities: u32,
    pub settles: bool,
    pub lines: &'static [&'static str],
}

/// A console over a link where this comes, and these sends and receives fail. What `console` says of it is not needed behind it.
fn console_end<R: Wait>(
    rt: &R,
    alloc: Global,
    session: &Session,
    coming: VecDeque<(u32, Bytes)>,
    sends: Lengths,
    receives: Lengths,
    script: &mut Script,
) -> MemberEnd<AllActs, MemLink> {
    let link = MemLink::new(alloc, coming, sends, receives);
    let acts = AllActs {
        localities: session.localities.clamp(1, 64),
    };
    console(rt, alloc, acts, PROFILE, session.settles, link, script)
}

/// A console to which this comes.
pub fn console_ran<R: Wait>(
    rt: &R,
    alloc: Global,
    session: &Session,
    coming: VecDeque<(u32, Bytes)>,
    faults: &Faults,
) -> Result<Ran, AllocError> {
    let mut script = Script::new(alloc, session.lines, faults.unread, faults.writes)?;
    let sends = calls(alloc, faults.sends)?;
    let receives = calls(alloc, faults.receives)?;
    let end = console_end(rt, alloc, session, coming, sends, receives, &mut script);
    leaves(alloc, &end, script.sink.bytes())
}

/// A member came to this status, and did not accept this, wrote so many entries, sent this, and showed nothing.
pub fn assert_is(
    rt: &impl Abort,
    i: usize,
    ran: &Ran,
    sent: &[u8],
    want: (u8, Odd, u64, &'static str),
) {
    let (status, odd, entries, said) = want;
    assert_eq!(rt;
        (ran.status, ran.odd, ran.entries),
        (status, odd, entries),
        "row {i}"
    );
    assert!(rt; sent == said.as_bytes(), "row {i}");
    assert!(rt; ran.text.is_empty(), "row {i}");
}
