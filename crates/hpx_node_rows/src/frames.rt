//! Frames as hexadecimal digits.
use hpx_value::items::{Bytes, Items};
use hpx_value::memory::OutOfMemory;
use std::alloc::Global;
use std::fmt::Write;

/// The bytes that hexadecimal digits show, whatever stands between them.
pub fn hex(alloc: Global, text: &str) -> Result<Bytes, OutOfMemory> {
    let mut bytes = Vec::new(alloc);
    let mut high: Option<u8> = None;
    for c in text.chars() {
        if let Some(digit) = c.to_digit(16) {
            match high {
                None => high = Some(digit as u8),
                Some(first) => {
                    bytes.push(first << 4u32 | digit as u8)?;
                    high = None;
                }
            }
        }
    }
    Ok(Items::from_vec(bytes))
}

/// The kind of the message in a frame; 0 for none.
pub fn kind_in(frame: &Bytes) -> u8 {
    match frame.as_slice() {
        [_, kind, ..] => *kind,
        _ => 0,
    }
}

/// A frame in hexadecimal digits.
pub fn show(text: &mut String, frame: &Bytes) -> Result<(), OutOfMemory> {
    for byte in frame.as_slice() {
        write!(text, "{:02x}", *byte)?;
    }
    Ok(())
}
