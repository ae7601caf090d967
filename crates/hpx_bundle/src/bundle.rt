//! Several frames as one.

ghost use Rattle.std.specs.Prelude.{◌≡◌, ◌++◌, ◌∷◌, [], ◌≤◌, ◌<◌, ◌+◌, ◌-◌, ◌^◌, ℕ, List, length, IfOk, IfErr, OnOk, MatchOption, IfSome, IfNone, min};
ghost use Rattle.std.specs.List.{AllByRecursion, flat_map};
ghost use Rattle.hpx_parcel.specs.Parcels.{IsFrame};
ghost use Rattle.hpx_parcel.specs.Spelling.{number_text};
ghost use Rattle.hpx_bundle.specs.Bundles.{behind, bundle_text, Fits, Bundles, Excuses, load_of, size_of};

use byteorder::{BigEndian, ByteOrder};
use hpx_value::exact::Exact;
use hpx_value::items::{Bytes, Items};
use hpx_value::memory::OutOfMemory;
use std::alloc::{AllocError, Global};
use thiserror::Error;

/// The most bytes of a frame.
pub(crate) const LONGEST_FRAME: usize = 65_536;

/// The most parts of a frame.
pub const MOST_PARTS: usize = 64;

/// The first byte of a frame of one parcel.
pub(crate) const VERSION: u8 = 1;

/// The first byte of a frame of several parts.
pub(crate) const SEVERAL: u8 = 2;

/// Why frames were not bundled.
#[derive(Clone, Copy, Debug, PartialEq, Eq, Error)]
pub enum BundleFault {
    #[error("no frame")]
    Empty,
    #[error("more than 64 frames")]
    Many,
    #[error("more than 65536 bytes")]
    Long,
    #[error("out of memory")]
    OutOfMemory,
}

impl From<OutOfMemory> for BundleFault {
    ghost use Rattle.std.specs.Prelude.{◌≡◌};
    ghost use Rattle.hpx_bundle.specs.declared.bundle.BundleFault.TheVariants.{OutOfMemory as Memory};

    ghost from_gives = { λ _ e. e ≡ Memory };

    fn from(_error: OutOfMemory) -> BundleFault {
        BundleFault::OutOfMemory
    }
}

impl From<AllocError> for BundleFault {
    ghost use Rattle.std.specs.Prelude.{◌≡◌};
    ghost use Rattle.hpx_bundle.specs.declared.bundle.BundleFault.TheVariants.{OutOfMemory as Memory};

    ghost from_gives = { λ _ e. e ≡ Memory };

    fn from(_error: AllocError) -> BundleFault {
        BundleFault::OutOfMemory
    }
}

/// What frames come to that are to be sent as one: how many, and how many bytes they have in all.
#[derive(Clone, Copy, Debug, PartialEq, Eq)]
pub struct Load {
    parts: usize,
    bytes: usize,
}

impl Load {
    /// That of no frame.
    pub fn new() -> Load
        ensures { result ≡ load_of [] }
    {
        Load { parts: 0, bytes: 0 }
    }

    /// How long their bundle is.
    fn size(self) -> usize
        ensures { result ≡ min (size_of self) (2 ^ 64 - 1) }
    {
        if self.parts <= 1 {
            self.bytes
        } else {
            self.bytes.saturating_sub(self.parts).saturating_add(3)
        }
    }

    /// With one more frame of so many bytes, if all of them fit.
    pub fn with(self, len: usize) -> Option<Load>
        ensures { (parts : List (List ℕ)) (next : List ℕ) → self ≡ load_of parts → len ≡ length next → AllByRecursion IsFrame (parts ++ next ∷ []) →
            MatchOption result (Fits (parts ++ next ∷ []) → ⊥) (λ load. Fits (parts ++ next ∷ []) × (load ≡ load_of (parts ++ next ∷ []))) }
    {
        if MOST_PARTS <= self.parts {
            return None;
        }
        let more = Load {
            parts: self.parts + 1,
            bytes: self.bytes.saturating_add(len),
        };
        if LONGEST_FRAME < more.size() {
            return None;
        }
        Some(more)
    }
}

/// What all frames come to, if they fit.
fn load_of(parts: &[Bytes]) -> Option<Load>
    requires frames { AllByRecursion IsFrame parts.now }
    requires some { 1 ≤ length parts.now }
    requires few { length parts.now ≤ 64 }
    ensures some { IfSome result (λ load. Fits parts.now) }
    ensures none { IfNone result (Fits parts.now → ⊥) }
{
    let mut load = Load::new();
    for part in parts {
        match load.with(part.len()) {
            Some(more) => load = more,
            None => return None,
        }
    }
    Some(load)
}

/// A number in two bytes, the highest first.
#[tactic(auto, unfolding(hpx_parcel::specs::Spelling::number_text))]
fn put_count(out: &mut Vec<u8>, n: u16) -> Result<(), OutOfMemory>
    ensures { OnOk result (out.new.items ≡ out.old.items ++ number_text 2 n) }
{
    let mut bytes = [0; 2];
    BigEndian::write_u16(&mut bytes, n);
    out.extend_from_slice(&bytes)?;
    Ok(())
}

/// Frames one after the other, each without its version.
fn put_each(out: &mut Vec<u8>, parts: &[Bytes]) -> Result<(), OutOfMemory>
    ensures { OnOk result (out.new.items ≡ out.old.items ++ flat_map behind parts.now) }
{
    for part in parts {
        if let [_version, body @ ..] = part.as_slice() {
            out.extend_from_slice(body)?;
        }
    }
    Ok(())
}

/// Version 2, the number of the frames, and each without its version.
fn put_several(alloc: Global, size: usize, parts: &[Bytes]) -> Result<Bytes, OutOfMemory>
    requires { length parts.now ≤ 64 }
    ensures { IfOk result (λ bytes. bytes ≡ 2 ∷ (number_text 2 (length parts.now) ++ flat_map behind parts.now)) }
{
    let mut out = Vec::with_capacity(alloc, size)?;
    out.push(SEVERAL)?;
    put_count(&mut out, parts.len() as u16)?;
    put_each(&mut out, parts)?;
    Ok(Items::from_vec(out))
}

/// The bundle of several frames.
fn several(alloc: Global, parts: &[Bytes]) -> Result<Bytes, BundleFault>
    requires frames { AllByRecursion IsFrame parts.now }
    requires two { 2 ≤ length parts.now }
    ensures ok { IfOk result (λ bytes. Bundles bytes parts.now) }
    ensures bad { IfErr result (λ e. Excuses e parts.now) }
{
    if MOST_PARTS < parts.len() {
        return Err(BundleFault::Many);
    }
    match load_of(parts) {
        Some(load) => Ok(put_several(alloc, load.size(), parts)?),
        None => Err(BundleFault::Long),
    }
}

/// The bundle of frames, in order; one frame is its own. Want of memory is answered only where they fit.
pub fn bundle(alloc: Global, parts: &[Bytes]) -> Result<Bytes, BundleFault>
    requires { AllByRecursion IsFrame parts.now }
    ensures ok { IfOk result (λ bytes. Bundles bytes parts.now) }
    ensures bad { IfErr result (λ e. Excuses e parts.now) }
{
    match parts {
        [] => Err(BundleFault::Empty),
        [frame] => Ok(frame.duplicate(alloc)?),
        _ => several(alloc, parts),
    }
}
