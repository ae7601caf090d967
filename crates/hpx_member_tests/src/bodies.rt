//! Bodies on a link, in hexadecimal digits.
use hpx_ports::link::Post;
use hpx_value::items::Bytes;
use std::alloc::{AllocError, Global};
use std::collections::VecDeque;

/// Who sends, and what, in hexadecimal digits with blanks between.
pub type Body = (u32, &'static str);

/// The bytes that hexadecimal digits show, whatever stands between them.
fn hex(alloc: Global, text: &str) -> Result<Bytes, AllocError> {
    let mut bytes = Vec::new(alloc);
    let mut high: Option<u8> = None;
    for c in text.chars() {
        if let Some(digit) = c.to_digit(16) {
            match high {
                None => high = Some(digit as u8),
                Some(first) => {
                    bytes.push(first << 4u32 | digit as u8)?;
                    high = None;
                }
            }
        }
    }
    Ok(Bytes::from_vec(bytes))
}

/// What is to come over a link.
pub fn bodies(alloc: Global, coming: &[Body]) -> Result<VecDeque<(u32, Bytes)>, AllocError> {
    let mut bodies = VecDeque::new(alloc);
    for (from, body) in coming {
        bodies.push_back((*from, hex(alloc, body)?))?;
    }
    Ok(bodies)
}

/// The bodies that a member sent to the other one, as they come from it.
pub fn handed(
    alloc: Global,
    from: u32,
    sent: &[(u32, Bytes)],
) -> Result<VecDeque<(u32, Bytes)>, AllocError> {
    let mut bodies = VecDeque::new(alloc);
    for (_, body) in sent {
        let body = Vec::from_slice(alloc, body.as_slice())?;
        bodies.push_back((from, Bytes::from_vec(body)))?;
    }
    Ok(bodies)
}

/// The bodies that were sent, and to whom.
pub fn sent(alloc: Global, trace: &[Post]) -> Result<Vec<(u32, Bytes)>, AllocError> {
    let mut bodies = Vec::new(alloc);
    for post in trace {
        if let Post::Sent { to, body } = post {
            let body = Vec::from_slice(alloc, body.as_slice())?;
            bodies.push((*to, Bytes::from_vec(body)))?;
        }
    }
    Ok(bodies)
}

/// A word of control in hexadecimal digits; of a frame its first two.
fn digits(alloc: Global, body: &[u8]) -> Result<Vec<u8>, AllocError> {
    let digits = b"0123456789abcdef";
    let shown = if let [1, ..] = body { 1 } else { body.len() };
    let mut text = Vec::new(alloc);
    for byte in body.iter().take(shown) {
        text.push(digits[(*byte >> 4u32) as usize])?;
        text.push(digits[(*byte & 15) as usize])?;
    }
    Ok(text)
}

/// To whom bodies were sent, and which: a line for each.
pub fn said(alloc: Global, sent: &[(u32, Bytes)]) -> Result<Vec<u8>, AllocError> {
    let mut text = Vec::new(alloc);
    for (to, body) in sent {
        text.push(b'0'.saturating_add((*to).min(9) as u8))?;
        text.push(b' ')?;
        text.extend_from_slice(digits(alloc, body.as_slice())?.as_slice())?;
        text.push(b'\n')?;
    }
    Ok(text)
}
