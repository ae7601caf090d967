//! The bodies on a link: frames, and words of control between members.
ghost use Rattle.std.specs.Prelude.{◌≡◌, ◌≤◌, ◌++◌, ◌∷◌, Some, IfOk, true, false, length, take};
ghost use Rattle.std.specs.Int.{from_be_bytes, to_be_bytes, w32, w64};
ghost use Rattle.hpx_member.specs.Bodies.{IsOutOfPlace, counts_of, end_body, is_frame, is_wave, numbers_in};
ghost use Rattle.hpx_member.specs.Rounds.{wave_body};
ghost use Rattle.hpx_member.specs.Words.{wave_of};

use hpx_value::items::Bytes;
use hpx_value::memory::OutOfMemory;
use std::alloc::{AllocError, Global};

/// A word of control, as a worker hears it.
#[derive(Clone, Copy, Debug, PartialEq, Eq)]
pub enum Word {
    /// A wave of this number is to be answered.
    Wave(u32),
    /// It is to end.
    End,
    /// No worker is told this.
    OutOfPlace,
}

/// What Counts tell: how many frames were sent and accepted as a wave was answered.
#[derive(Clone, Copy, Debug, PartialEq, Eq)]
pub struct Told {
    pub wave: u32,
    pub sent: u64,
    pub taken: u64,
}

/// Whether a body is a frame.
pub fn is_frame(body: &[u8]) -> bool
    ensures { result ≡ is_frame body.now }
{
    match body {
        [first, ..] => *first < 0xf0 || *first > 0xf3,
        [] => true,
    }
}

/// What a body that is no frame tells a worker.
pub fn read_word(from: u32, body: &[u8]) -> Word
    requires { is_frame body.now ≡ false }
    ensures wave { (n : _) → result ≡ Word.Wave n → (from ≡ 0) × (is_wave body.now ≡ true) × (wave_of body.now ≡ Some n) }
    ensures end { result ≡ Word.End → (from ≡ 0) × (body.now ≡ end_body) }
    ensures place { result ≡ Word.OutOfPlace → IsOutOfPlace from body.now }
{
    if from != 0 {
        return Word::OutOfPlace;
    }
    match body {
        [0xf2] => Word::End,
        [0xf0, a, b, c, d] => Word::Wave(u32::from_be_bytes([*a, *b, *c, *d])),
        _ => Word::OutOfPlace,
    }
}

/// The body that ends a worker.
pub const END: &[u8] = &[0xf2];

/// The body that begins a wave.
pub fn wave(alloc: Global, number: u32) -> Result<Bytes, OutOfMemory>
    ensures { IfOk result (λ body. body ≡ wave_body number) }
{
    let mut bytes = vec![in alloc; 0xf0u8]?;
    bytes.extend_from_slice(&number.to_be_bytes())?;
    Ok(Bytes::from_vec(bytes))
}

fn u32_of(bytes: &[u8]) -> u32
    requires { 4 ≤ length bytes.now }
    ensures { result ≡ from_be_bytes w32 (take 4 bytes.now) }
{
    let mut word = [0u8; 4];
    word.copy_from_slice(&bytes[..4]);
    u32::from_be_bytes(word)
}

fn u64_of(bytes: &[u8]) -> u64
    requires { 8 ≤ length bytes.now }
    ensures { result ≡ from_be_bytes w64 (take 8 bytes.now) }
{
    let mut word = [0u8; 8];
    word.copy_from_slice(&bytes[..8]);
    u64::from_be_bytes(word)
}

fn numbers(bytes: &[u8]) -> Told
    requires { length bytes.now ≡ 20 }
    ensures { result ≡ numbers_in bytes.now }
{
    let behind = &bytes[4..];
    Told {
        wave: u32_of(bytes),
        sent: u64_of(behind),
        taken: u64_of(&behind[8..]),
    }
}

/// What a body of Counts tells.
pub fn read_counts(body: &[u8]) -> Option<Told>
    ensures { result ≡ counts_of body.now }
{
    match body {
        [0xf1, rest @ ..] if rest.len() == 20 => Some(numbers(rest)),
        _ => None,
    }
}

fn written(alloc: Global, wave: u32, sent: u64, taken: u64) -> Result<Vec<u8>, AllocError>
    ensures { IfOk result (λ v. v.items ≡ 241 ∷ (to_be_bytes w32 wave ++ (to_be_bytes w64 sent ++ to_be_bytes w64 taken))) }
{
    let mut bytes = vec![in alloc; 0xf1u8]?;
    bytes.extend_from_slice(&wave.to_be_bytes())?;
    bytes.extend_from_slice(&sent.to_be_bytes())?;
    bytes.extend_from_slice(&taken.to_be_bytes())?;
    Ok(bytes)
}

/// The body that tells how many frames were sent and accepted.
pub fn counts(alloc: Global, wave: u32, sent: u64, taken: u64) -> Result<Bytes, OutOfMemory>
    ensures { IfOk result (λ body. counts_of body ≡ Some (record { wave = wave; sent = sent; taken = taken })) }
{
    match written(alloc, wave, sent, taken) {
        Ok(bytes) => Ok(Bytes::from_vec(bytes)),
        Err(_) => Err(OutOfMemory),
    }
}
