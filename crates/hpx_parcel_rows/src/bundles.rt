//! What a frame of several parcels has, in words.
use crate::parcel;
use hpx_bundle::bundle::{BundleFault, bundle};
use hpx_bundle::hand::Hand;
use hpx_bundle::unbundle::{parts, unbundle};
use hpx_parcel::parcel::DecodeFault;
use hpx_value::exact::Exact;
use hpx_value::items::Bytes;
use hpx_value::memory::OutOfMemory;
use std::alloc::Global;
use std::fmt::Write;

/// Whether a frame in hand has these parts, one after the other, and is let go of behind the last.
fn comes_in_order(alloc: Global, frame: &Bytes, parts: &[Bytes]) -> Result<bool, OutOfMemory> {
    let mut hand = Some(Hand::new(1, frame.duplicate(alloc)?));
    for part in parts {
        hand = match hand {
            Some(held) => match held.next(alloc) {
                Ok(bytes) if bytes.as_slice() == part.as_slice() => held.accepted(),
                Err(DecodeFault::OutOfMemory) => return Err(OutOfMemory),
                _ => return Ok(false),
            },
            None => return Ok(false),
        };
    }
    Ok(hand.is_none())
}

/// How many parts a frame has and what the first four spell, whether they come so from the hand and are bundled the same again, or why it is no bundle.
pub(crate) fn open(alloc: Global, text: &mut String, frame: &mut Bytes) -> Result<(), OutOfMemory> {
    let places = match unbundle(frame) {
        Ok(places) => places,
        Err(fault) => {
            write!(text, "no bundle: {:?} at byte {}", fault.why, fault.at)?;
            return Ok(());
        }
    };
    let parts = parts(alloc, frame.as_slice(), &places)?;
    write!(text, "{} parts", parts.len())?;
    for part in parts.as_slice().iter().take(4) {
        text.push_str("; ")?;
        parcel(alloc, text, part.as_slice())?;
    }
    if !comes_in_order(alloc, frame, parts.as_slice())? {
        text.push_str(", in hand otherwise")?;
    }
    match bundle(alloc, parts.as_slice()) {
        Ok(bytes) => {
            if bytes.as_slice() != frame.as_slice() {
                text.push_str(", bundled otherwise")?;
            }
        }
        Err(BundleFault::OutOfMemory) => return Err(OutOfMemory),
        Err(fault) => write!(text, ", {fault}")?,
    }
    Ok(())
}
