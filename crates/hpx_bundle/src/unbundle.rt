//! One frame as its parts.

ghost use Rattle.std.specs.Prelude.{◌≡◌, ◌∷◌, ◌<◌, ◌≤◌, ◌-◌, IfOk, IfErr, Ok, Err, length, take, drop, map};
ghost use Rattle.std.specs.List.{AllByRecursion};
ghost use Rattle.hpx_bundle.specs.Bundles.{behind, Bundles};
ghost use Rattle.hpx_bundle.specs.Unbundling.{front_at, shifted, count_at, several_at, is_several, part_text, IsWithin, EndsAt, BundlesNothing, parts_of};

use crate::bundle::{LONGEST_FRAME, MOST_PARTS, SEVERAL, VERSION};
use arrayvec::ArrayVec;
use byteorder::{BigEndian, ByteOrder};
use hpx_parcel::outline::outline_of;
use hpx_parcel::parcel::{FaultAt, Why};
use hpx_value::items::{Bytes, Frames, Items};
use hpx_value::memory::OutOfMemory;
use std::alloc::Global;

/// Where a part of a frame stands, without a version: from `start` to before `end`.
#[derive(Clone, Copy, Debug, Default, PartialEq, Eq)]
pub struct Place {
    pub start: usize,
    pub end: usize,
}

/// The places of the parts of a frame, in order.
pub type Places = ArrayVec<Place, MOST_PARTS>;

/// Where the frame ends that bytes begin with.
fn front_end(bytes: &[u8]) -> Result<usize, FaultAt>
    ensures ok { IfOk result (λ end. front_at bytes.now ≡ Ok (take end bytes.now, drop end bytes.now)) }
    ensures inside { IfOk result (λ end. (1 ≤ end) × (end ≤ length bytes.now)) }
    ensures err { IfErr result (λ f. front_at bytes.now ≡ Err f) }
    ensures at { IfErr result (λ f. f.at ≤ 65536) }
{
    match outline_of(bytes) {
        Ok(_outline) => Ok(bytes.len()),
        Err(fault) if fault.why == Why::Trailing => Ok(fault.at as usize),
        Err(fault) => Err(fault),
    }
}

/// Where the part ends that begins at a place. The byte before it is lent to the version that the part would have alone.
fn part_end(frame: &mut Bytes, start: usize) -> Result<usize, FaultAt>
    requires some { 1 ≤ start }
    requires inside { start ≤ length frame.old }
    requires short { length frame.old ≤ 65536 }
    ensures same { frame.new ≡ frame.old }
    ensures ok { IfOk result (λ end. EndsAt frame.old start end) }
    ensures err { IfErr result (λ f. shifted (start - 1) (front_at (1 ∷ drop start frame.old)) ≡ Err f) }
{
    let before = frame.as_slice()[start - 1];
    frame.set(start - 1, VERSION);
    let read = front_end(&frame.as_slice()[start - 1..]);
    frame.set(start - 1, before);
    match read {
        Ok(len) => Ok(start - 1 + len),
        Err(fault) => Err(FaultAt {
            at: (start - 1) as u32 + fault.at,
            why: fault.why,
        }),
    }
}

/// How many parts a frame of several has.
#[tactic(auto, unfolding(crate::specs::Unbundling::count_at))]
fn count_of(frame: &[u8]) -> Result<usize, FaultAt>
    requires some { 1 ≤ length frame.now }
    requires short { length frame.now ≤ 65536 }
    ensures ok { IfOk result (λ n. count_at (behind frame.now) ≡ Ok (n, drop 3 frame.now)) }
    ensures few { IfOk result (λ n. (n ≤ 64) × (3 ≤ length frame.now)) }
    ensures err { IfErr result (λ f. count_at (behind frame.now) ≡ Err f) }
{
    if frame.len() < 3 {
        return Err(FaultAt {
            at: frame.len() as u32,
            why: Why::Cut,
        });
    }
    let count = BigEndian::read_u16(&frame[1..]) as usize;
    if count < 2 || MOST_PARTS < count {
        return Err(FaultAt {
            at: 1,
            why: Why::BadValue,
        });
    }
    Ok(count)
}

/// The places of the parts of a frame of several.
fn several(frame: &mut Bytes) -> Result<Places, FaultAt>
    requires some { 1 ≤ length frame.old }
    requires short { length frame.old ≤ 65536 }
    ensures same { frame.new ≡ frame.old }
    ensures ok { IfOk result (λ places. several_at (behind frame.old) ≡ Ok (map (part_text frame.old) places.items)) }
    ensures inside { IfOk result (λ places. AllByRecursion (IsWithin frame.old) places.items) }
    ensures err { IfErr result (λ f. several_at (behind frame.old) ≡ Err f) }
{
    let count = count_of(frame.as_slice())?;
    let mut places = ArrayVec::new();
    let mut start = 3;
    while places.len() < count {
        let end = part_end(frame, start)?;
        places.push(Place { start, end });
        start = end;
    }
    if start < frame.len() {
        return Err(FaultAt {
            at: start as u32,
            why: Why::Trailing,
        });
    }
    Ok(places)
}

/// Whether the version is that of several parcels.
fn is_several(frame: &[u8]) -> bool
    ensures version { result ≡ is_several frame.now }
    ensures fits { AllByRecursion (λ b. b < 256) frame.now }
{
    match frame {
        [] => false,
        [version, ..] => *version == SEVERAL,
    }
}

/// The places of the parts of a frame, or the first fault from the left. It takes no memory, and leaves the frame as it is.
pub fn unbundle(frame: &mut Bytes) -> Result<Places, FaultAt>
    ensures same { frame.new ≡ frame.old }
    ensures ok { IfOk result (λ places. Bundles frame.old (map (part_text frame.old) places.items)) }
    ensures read { IfOk result (λ places. parts_of frame.old ≡ map (part_text frame.old) places.items) }
    ensures inside { IfOk result (λ places. AllByRecursion (IsWithin frame.old) places.items) }
    ensures bad { IfErr result (λ f. BundlesNothing frame.old f) }
{
    let end = frame.len();
    if LONGEST_FRAME < end {
        return Err(FaultAt {
            at: LONGEST_FRAME as u32,
            why: Why::Long,
        });
    }
    if is_several(frame.as_slice()) {
        return several(frame);
    }
    match outline_of(frame.as_slice()) {
        Ok(_outline) => {
            let mut places = ArrayVec::new();
            places.push(Place { start: 1, end });
            Ok(places)
        }
        Err(fault) => Err(fault),
    }
}

/// A part of a frame, with a version of its own.
pub fn part(alloc: Global, frame: &[u8], place: Place) -> Result<Bytes, OutOfMemory>
    requires { IsWithin frame.now place }
    ensures { IfOk result (λ bytes. bytes ≡ part_text frame.now place) }
{
    let body = &frame[place.start..place.end];
    let mut bytes = Vec::with_capacity(alloc, body.len() + 1)?;
    bytes.push(VERSION)?;
    bytes.extend_from_slice(body)?;
    Ok(Items::from_vec(bytes))
}

/// All parts of a frame, each with a version of its own, in order.
pub fn parts(alloc: Global, frame: &[u8], places: &Places) -> Result<Frames, OutOfMemory>
    requires { AllByRecursion (IsWithin frame.now) places.now.items }
    ensures { IfOk result (λ parts. parts ≡ map (part_text frame.now) places.now.items) }
{
    let mut parts = Items::new(alloc);
    for place in places.as_slice() {
        parts.push(part(alloc, frame, *place)?)?;
    }
    Ok(parts)
}
