//! Frames from outside that scripts bring.
use hpx_value::items::{Bytes, Items};
use hpx_value::memory::OutOfMemory;
use std::alloc::Global;

/// Whether a frame comes to locality 1, and its bytes, in hexadecimal digits; scripts name them A, B and so on.
const FRAMES: [(bool, &str); 10] = [
    // A and B: an object is to be made.
    (
        true,
        "0101 0000 0000000000000064 0000000200000007 0000000000000001 0005 0000
         01 0000000100000003 0000000000000001 00000007",
    ),
    (
        true,
        "0101 0000 0000000000000065 0000000200000007 0000000000000001 0005 0000
         01 0000000100000003 0000000000000001 00000008",
    ),
    // C: the second object is to move, with 8 of its credit.
    (
        true,
        "0106 0000 0000000000000066 0000000243000021 0000000000000002 0001 0001 02 0000000000000000 00",
    ),
    // D: it is asked for where it has moved to, with 1; the session awaits the answer.
    (
        false,
        "0101 0001 00000000000000c8 0000000240000021 0000000000000002 0011 0000
         01 0000000100000003 0000000000000001 00000003",
    ),
    // E: 7 is added to the third object, with 2; the number awaits the answer, with 4.
    (
        true,
        "0101 0000 00000000000000c9 0000000241000021 0000000000000003 0010 0001 02 0000000000000007
         01 0000000242000021 0000000000000001 00000005",
    ),
    // F: the third object comes to locality 0, with an id of the number with 16, and the session awaits an answer of it.
    (
        false,
        "0108 0001 00000000000000ca 0000000241000021 0000000000000003 0001 0001 02 0000000000000000 00
         00000002 0002 02 0000000000000003 04 0000000244000021 0000000000000001
         0001 0000000100000003 0000000000000001 00000004",
    ),
    // G: credit of the third object is asked for in the name of its home.
    (
        true,
        "0103 0000000240000021 0000000000000003 0001 0000000000000000",
    ),
    // H: the number is asked for, with 2; an object that was never made awaits the answer.
    (
        true,
        "0101 0000 00000000000000cb 0000000241000021 0000000000000001 0011 0000
         01 0000000240000021 0000000000000009 00000002",
    ),
    // I: a call that nobody lists, on the number with 2, that brings an id of the third object with 4.
    (
        true,
        "0101 0000 00000000000000cc 0000000241000021 0000000000000001 0028 0001
         04 0000000242000021 0000000000000003 00",
    ),
    // J: 7 is added to the second object, with 4.
    (
        true,
        "0101 0000 00000000000000cd 0000000242000021 0000000000000002 0010 0001 02 0000000000000007 00",
    ),
];

/// The bytes that hexadecimal digits show, whatever stands between them.
fn hex(alloc: Global, text: &str) -> Result<Bytes, OutOfMemory> {
    let mut bytes = Vec::new(alloc);
    let mut high: Option<u8> = None;
    for c in text.chars() {
        if let Some(digit) = c.to_digit(16) {
            match high {
                None => high = Some(digit as u8),
                Some(first) => {
                    bytes.push(first << 4u32 | digit as u8)?;
                    high = None;
                }
            }
        }
    }
    Ok(Items::from_vec(bytes))
}

/// The frame of a letter, and whether it comes to locality 1. There is none of a letter that names none.
pub fn given(alloc: Global, letter: u8) -> Result<(bool, Bytes), OutOfMemory> {
    let place = letter.checked_sub(b'A').ok_or(OutOfMemory)?;
    match FRAMES.get(usize::from(place)) {
        Some((second, digits)) => Ok((*second, hex(alloc, digits)?)),
        None => Err(OutOfMemory),
    }
}
