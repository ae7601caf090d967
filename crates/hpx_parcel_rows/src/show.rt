//! What a parcel is, in words.
use hpx_parcel::parcel::Parcel;
use hpx_value::gid::Gid;
use hpx_value::memory::OutOfMemory;
use hpx_value::value::{Act, Cont, State, Value};
use std::fmt::Write;

/// An id: its home, its kind and its number, and the log of its credit.
fn id(text: &mut String, id: Gid) -> Result<(), OutOfMemory> {
    write!(text, " {}.{}.{}", id.home(), id.kind(), id.number())?;
    if let Some(log) = id.log() {
        write!(text, "/{log}")?;
    }
    Ok(())
}

/// Ids, in order.
fn ids(text: &mut String, all: &[Gid]) -> Result<(), OutOfMemory> {
    text.push_str(", ids")?;
    for one in all {
        id(text, *one)?;
    }
    Ok(())
}

/// A value.
fn value(text: &mut String, value: &Value) -> Result<(), OutOfMemory> {
    match value {
        Value::Unit => text.push_str(" unit")?,
        Value::Flag(flag) => write!(text, " {flag}")?,
        Value::Int(number) => write!(text, " {number}")?,
        Value::Text(bytes) => text_of(text, bytes.as_slice())?,
        Value::Ref(place) => write!(text, " ref {place}")?,
        Value::Fault(code) => write!(text, " fault {code}")?,
        Value::Ints(numbers) => ints(text, numbers.as_slice())?,
    }
    Ok(())
}

/// Bytes: how many, and the first four.
fn text_of(text: &mut String, bytes: &[u8]) -> Result<(), OutOfMemory> {
    write!(text, " text of {}", bytes.len())?;
    for (i, byte) in bytes.iter().take(4).enumerate() {
        text.push_str(if i == 0 { " " } else { "" })?;
        write!(text, "{:02x}", *byte)?;
    }
    Ok(())
}

/// Numbers: how many, and the first four.
fn ints(text: &mut String, numbers: &[i64]) -> Result<(), OutOfMemory> {
    write!(text, " {} ints", numbers.len())?;
    for number in numbers.iter().take(4) {
        write!(text, " {number}")?;
    }
    Ok(())
}

/// Values: how many, and the first eight.
fn values(text: &mut String, all: &[Value]) -> Result<(), OutOfMemory> {
    write!(text, ", {} values", all.len())?;
    for one in all.iter().take(8) {
        value(text, one)?;
    }
    Ok(())
}

/// A continuation: the place of its target, and the slot there.
fn cont(text: &mut String, cont: &Cont) -> Result<(), OutOfMemory> {
    write!(text, " {} slot {}", cont.place, cont.slot)?;
    Ok(())
}

/// An action.
fn action(text: &mut String, act: &Act) -> Result<(), OutOfMemory> {
    write!(text, " {} of {}, code {}", act.serial, act.origin, act.code)?;
    values(text, act.args.as_slice())?;
    if let Some(own) = &act.cont {
        text.push_str(", to")?;
        cont(text, own)?;
    }
    ids(text, act.ids.as_slice())
}

/// A state.
fn state(text: &mut String, state: &State) -> Result<(), OutOfMemory> {
    write!(text, ", state {}", state.drawn)?;
    values(text, state.values.as_slice())?;
    text.push_str(", to")?;
    for one in state.conts.as_slice() {
        cont(text, one)?;
    }
    ids(text, state.ids.as_slice())
}

/// A parcel.
pub fn parcel(text: &mut String, parcel: &Parcel) -> Result<(), OutOfMemory> {
    match parcel {
        Parcel::Apply(act) => {
            text.push_str("apply")?;
            action(text, act)
        }
        Parcel::Move(act) => {
            text.push_str("move")?;
            action(text, act)
        }
        Parcel::Go(act) => {
            text.push_str("go")?;
            action(text, act)
        }
        Parcel::Object {
            action: act,
            state: kept,
        } => {
            text.push_str("object")?;
            action(text, act)?;
            state(text, kept)
        }
        _ => small(text, parcel),
    }
}

/// A parcel without an action.
fn small(text: &mut String, parcel: &Parcel) -> Result<(), OutOfMemory> {
    let (word, about, numbers) = match parcel {
        Parcel::Return(id) => ("return", *id, None),
        Parcel::Free(id) => ("free", *id, None),
        Parcel::Ask { id, asker, entry } => ("ask", *id, Some((*asker, Some(*entry)))),
        Parcel::Give { id, entry } => ("give", *id, Some((0, Some(*entry)))),
        Parcel::Cached { id, place } => ("cached", *id, Some((*place, None))),
        Parcel::Landed { id, place } => ("landed", *id, Some((*place, None))),
        _ => return Ok(()),
    };
    text.push_str(word)?;
    id(text, about)?;
    if let Some((place, entry)) = numbers {
        write!(text, ", {place}")?;
        if let Some(entry) = entry {
            write!(text, ", entry {entry}")?;
        }
    }
    Ok(())
}
