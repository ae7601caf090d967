//! What the pair answers.
use crate::frames::{kind_in, show};
use crate::order::{Asked, Order};
use hpx_journal::entry::{Event, Reason};
use hpx_node::parts::{DeskFault, Finished, TakeFault};
use hpx_parcel::parcel::Why;
use hpx_stepped::pair::{Carried, Pair};
use hpx_stepped::site::{Seen, Site};
use hpx_value::gid::Gid;
use hpx_value::memory::OutOfMemory;
use std::alloc::Global;
use std::fmt::Write;

/// Does what is asked, and answers.
pub fn of(alloc: Global, pair: &mut Pair, order: Order) -> Result<String, OutOfMemory> {
    let mut text = String::new(alloc);
    match order {
        Order::Note => {}
        Order::Boot(_) => {}
        Order::Feed(byte) => pair.first.feed(alloc, byte)?,
        Order::Line(byte) => pair.line(alloc, byte)?,
        Order::Calls(times) => pair.calls(alloc, times)?,
        Order::Rush(times) => pair.rush(alloc, times)?,
        Order::Settle => pair.settle(alloc)?,
        Order::Credit => credit(&mut text, pair)?,
        Order::At(second, Asked::Carry) => carried(&mut text, &pair.carry(alloc, second)?)?,
        Order::At(true, asked) => at(alloc, &mut text, &mut pair.second, asked)?,
        Order::At(false, asked) => at(alloc, &mut text, &mut pair.first, asked)?,
    }
    Ok(text)
}

/// What one locality answers.
fn at(alloc: Global, text: &mut String, site: &mut Site, asked: Asked) -> Result<(), OutOfMemory> {
    let before = site.seen();
    match asked {
        Asked::Run => {
            let finished = site.run(alloc)?;
            how(text, finished)?;
        }
        Asked::Twice => {
            let (one, other) = site.twice(alloc)?;
            how(text, one)?;
            how(text, other)?;
        }
        Asked::Take(frame) => {
            take_answer(text, site.take(alloc, &frame))?;
            unchanged(text, before, site.seen())?;
        }
        Asked::Desk => {
            desk_answer(text, site.desk(alloc))?;
            unchanged(text, before, site.seen())?;
        }
        Asked::Seen => seen(text, before, site.failures())?,
        Asked::Last => {
            last(text, site.event(1))?;
            last(text, site.event(0))?;
        }
        Asked::Send => {
            if let Some(frame) = site.send(alloc)? {
                text.push_str(": ")?;
                show(text, &frame)?;
            }
        }
        Asked::Carry => {}
    }
    Ok(())
}

/// What became of a job.
fn how(text: &mut String, finished: Option<Finished>) -> Result<(), OutOfMemory> {
    text.push_str(match finished {
        None => ": nothing",
        Some(Finished::Committed) => ": committed",
        Some(Finished::Asking) => ": asking",
        Some(Finished::NotRunning) => ": not running",
    })?;
    Ok(())
}

/// Whether a refusal changed something that is seen.
fn unchanged(text: &mut String, before: Seen, after: Seen) -> Result<(), OutOfMemory> {
    if before == after {
        text.push_str(", unchanged")?;
    }
    Ok(())
}

/// A rule that is broken, of an object, and what is kept instead.
fn strange(text: &mut String, rule: u8, object: Gid, kept: u128) -> Result<(), OutOfMemory> {
    let (home, kind, number) = (object.home(), object.kind(), object.number());
    write!(text, ": rule {rule} of {home}.{kind}.{number}, kept {kept}")?;
    Ok(())
}

/// Whether a frame was taken.
fn take_answer(text: &mut String, answer: Result<(), TakeFault>) -> Result<(), OutOfMemory> {
    match answer {
        Ok(()) => text.push_str(": taken")?,
        Err(fault) => refused(text, fault)?,
    }
    Ok(())
}

/// Why a frame was refused.
fn refused(text: &mut String, fault: TakeFault) -> Result<(), OutOfMemory> {
    match fault {
        TakeFault::BadFrame { at, why } => write!(text, ": bad frame at {at}, {why:?}")?,
        TakeFault::Strange { rule, object, kept } => strange(text, rule, object, kept)?,
        TakeFault::OutOfMemory => text.push_str(": out of memory")?,
    }
    Ok(())
}

/// Whether a message on the desk was dealt with.
fn desk_answer(text: &mut String, answer: Result<bool, DeskFault>) -> Result<(), OutOfMemory> {
    match answer {
        Ok(done) => text.push_str(if done { ": done" } else { ": nothing" })?,
        Err(fault) => desk_refused(text, fault)?,
    }
    Ok(())
}

/// Why a message on the desk was refused.
fn desk_refused(text: &mut String, fault: DeskFault) -> Result<(), OutOfMemory> {
    match fault {
        DeskFault::Strange { rule, object, kept } => strange(text, rule, object, kept)?,
        DeskFault::OutOfMemory => text.push_str(": out of memory")?,
    }
    Ok(())
}

/// What became of a frame: the kind of its message.
fn carried(text: &mut String, carried: &Carried) -> Result<(), OutOfMemory> {
    match carried {
        Carried::None => text.push_str(": nothing")?,
        Carried::Taken(frame) => write!(text, ": kind {}", kind_in(frame))?,
        Carried::Refused(fault) => refused(text, *fault)?,
    }
    Ok(())
}

/// The number's credit: what is held and what is owed at the first, the same at the second, and the count.
fn credit(text: &mut String, pair: &Pair) -> Result<(), OutOfMemory> {
    let (first, second) = (pair.first.seen(), pair.second.seen());
    write!(text, ": {} {}", first.held, first.owed)?;
    write!(text, ", {} {}", second.held, second.owed)?;
    write!(text, ", count {}", second.count)?;
    Ok(())
}

/// What is seen of a locality.
fn seen(text: &mut String, seen: Seen, failures: u64) -> Result<(), OutOfMemory> {
    let state = if seen.passive { "passive" } else { "busy" };
    let holds = if seen.holds { "holds" } else { "does not hold" };
    let live = if seen.live.is_some() {
        "live"
    } else {
        "not live"
    };
    let awaited = seen.awaited;
    write!(
        text,
        ": {state}, {holds} it, {live}, awaits {awaited}, failed {failures}"
    )?;
    if let Some(to) = seen.front {
        write!(text, ", sends to {to}")?;
    }
    Ok(())
}

/// An entry, if it is one that the script asks after.
fn last(text: &mut String, event: Option<&Event>) -> Result<(), OutOfMemory> {
    match event {
        Some(Event::Print { bytes }) => {
            text.push_str(": print ")?;
            for byte in bytes.as_slice() {
                if *byte != b'\n' {
                    text.push(*byte as char)?;
                }
            }
        }
        Some(
            Event::Count {
                object: _,
                count,
                why: Reason::Refused,
            },
        ) => write!(text, ": count {count} refused")?,
        Some(
            Event::Count {
                object: _,
                count,
                why: Reason::Returned(log),
            },
        ) => write!(text, ": count {count} returned {log}")?,
        Some(Event::Merge { object: _, log }) => write!(text, ": merge {log}")?,
        Some(Event::Up { object: _, log }) => write!(text, ": up {log}")?,
        Some(Event::Mail { kind }) => write!(text, ": mail {kind}")?,
        Some(Event::Freed { object: _ }) => text.push_str(": freed")?,
        _ => text.push_str(": other")?,
    }
    Ok(())
}
