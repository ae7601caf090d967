//! Bytes in hexadecimal digits.
use hpx_value::memory::OutOfMemory;
use std::alloc::Global;

/// Adds the bytes that hexadecimal digits show.
fn push_hex(bytes: &mut Vec<u8>, digits: &str) -> Result<(), OutOfMemory> {
    let mut high: Option<u8> = None;
    for c in digits.chars() {
        if let Some(digit) = c.to_digit(16) {
            match high {
                None => high = Some(digit as u8),
                Some(first) => {
                    bytes.push(first << 4u32 | digit as u8)?;
                    high = None;
                }
            }
        }
    }
    Ok(())
}

/// The bytes that words show: each has digits, or a number, a star and digits, which then stand so many times.
pub fn of(alloc: Global, text: &str) -> Result<Vec<u8>, OutOfMemory> {
    let mut bytes = Vec::new(alloc);
    for word in text.split_whitespace() {
        let (times, digits) = word.split_once('*').unwrap_or(("1", word));
        for _ in 0..times.parse::<u32>().unwrap_or(0) {
            push_hex(&mut bytes, digits)?;
        }
    }
    Ok(bytes)
}
