//! Frames are read as a script asks, line by line; what they spell is compared with what is wanted.
#![tactic(auto)]

mod bundles;
mod bytes;
mod show;

use hpx_parcel::parcel::{DecodeFault, Why};
use hpx_parcel::read::decode;
use hpx_parcel::write::encode;
use hpx_value::items::Items;
use hpx_value::memory::OutOfMemory;
use std::alloc::Global;
use std::fmt::Write;
use std::io;

/// What a frame spells, whether it is spelled the same again, or why it is no frame.
pub(crate) fn parcel(alloc: Global, text: &mut String, frame: &[u8]) -> Result<(), OutOfMemory> {
    match decode(alloc, frame) {
        Ok(parcel) => {
            show::parcel(text, &parcel)?;
            let again = encode(alloc, &parcel)?;
            if again.as_slice() != frame {
                text.push_str(", spelled otherwise")?;
            }
        }
        Err(fault) => write!(text, "{fault}")?,
    }
    Ok(())
}

/// Whether bytes are refused so.
fn is_refused(alloc: Global, bytes: &[u8], at: usize, why: Why) -> bool {
    match decode(alloc, bytes) {
        Ok(_) => false,
        Err(fault) => match fault {
            DecodeFault::BadFrame {
                at: place,
                why: other,
            } => place as usize == at && other == why,
            DecodeFault::OutOfMemory => false,
        },
    }
}

/// Whether a frame is refused as cut wherever it ends early, and as trailing where it goes on.
fn is_exact(alloc: Global, frame: Vec<u8>) -> Result<bool, OutOfMemory> {
    let mut frame = frame;
    for end in 0..frame.len() {
        if !is_refused(alloc, &frame[..end], end, Why::Cut) {
            return Ok(false);
        }
    }
    let end = frame.len();
    frame.push(0)?;
    Ok(is_refused(alloc, frame.as_slice(), end, Why::Trailing))
}

/// What a line asks, answered.
fn answer(alloc: Global, line: &str) -> Result<String, OutOfMemory> {
    let mut text = String::new(alloc);
    let (word, rest) = line.split_once(' ').unwrap_or((line, ""));
    match word {
        "read" => {
            text.push_str(": ")?;
            let frame = bytes::of(alloc, rest)?;
            parcel(alloc, &mut text, frame.as_slice())?;
        }
        "open" => {
            text.push_str(": ")?;
            let mut frame = Items::from_vec(bytes::of(alloc, rest)?);
            bundles::open(alloc, &mut text, &mut frame)?;
        }
        "exact" => {
            let exact = is_exact(alloc, bytes::of(alloc, rest)?)?;
            text.push_str(if exact { ": exact" } else { ": not exact" })?;
        }
        _ => {}
    }
    Ok(text)
}

fn main(rt: HostRuntime) -> io::Result<()> {
    let alloc = rt.alloc();
    for line in rt.lines(alloc) {
        let line = line?;
        match answer(alloc, line.as_str()) {
            Ok(text) => println!(rt; "{}{}", line.as_str(), text.as_str())?,
            Err(_) => println!(rt; "{}: out of memory", line.as_str())?,
        }
    }
    Ok(())
}
