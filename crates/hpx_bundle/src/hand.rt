//! A frame in hand, whose parts are accepted one after the other.

ghost use Rattle.std.specs.Prelude.{◌≡◌, ◌∷◌, List, Some, IfOk, IfErr, IfSome, drop};
ghost use Rattle.hpx_bundle.specs.Roads.{Frame, Held, parts_left, NoNext};

use crate::unbundle::{Places, part, unbundle};
use arrayvec::ArrayVec;
use hpx_parcel::parcel::{DecodeFault, FaultAt};
use hpx_value::items::Bytes;
use hpx_value::memory::OutOfMemory;
use std::alloc::Global;
use std::marker::Model;

/// A frame that was delivered, whole, and which of its parts are not accepted yet. One that bundles nothing has no parts.
#[derive(Drop)]
pub struct Hand {
    to: u32,
    frame: Bytes,
    places: Places,
    fault: Option<FaultAt>,
    accepted: usize,
}

impl Model for Hand {
    ghost use Rattle.hpx_bundle.specs.Roads.{Held, IsOpened};

    ghost Value = { Held };

    ghost view = { λ h. record { frame = (h.to, h.frame); accepted = h.accepted } };

    ghost invariant = { λ h. IsOpened h.frame h.places.items h.fault h.accepted };
}

impl Hand {
    /// A frame that was delivered.
    pub fn new(to: u32, frame: Bytes) -> Hand
        ensures { result ≡ record { frame = (to, frame); accepted = 0 } }
    {
        let mut frame = frame;
        let (places, fault) = match unbundle(&mut frame) {
            Ok(places) => (places, None),
            Err(fault) => (ArrayVec::new(), Some(fault)),
        };
        Hand {
            to,
            frame,
            places,
            fault,
            accepted: 0,
        }
    }

    /// Where the frame goes.
    pub fn to(&self) -> u32
        ensures { result ≡ self.now.frame.0 }
    {
        self.to
    }

    /// The frame, whole.
    pub fn frame(&self) -> &Bytes
        ensures { result.now ≡ self.now.frame.1 }
    {
        &self.frame
    }

    /// The next part, or why there is none. Want of memory is answered only where there is one.
    pub fn next(&self, alloc: Global) -> Result<Bytes, DecodeFault>
        ensures ok { IfOk result (λ bytes. (others : List Frame) × (parts_left (Some self.now) ≡ (self.now.frame.0, bytes) ∷ others)) }
        ensures bad { IfErr result (λ e. NoNext self.now e) }
    {
        if let Some(fault) = self.fault {
            return Err(DecodeFault::BadFrame {
                at: fault.at,
                why: fault.why,
            });
        }
        let place = self.places.as_slice()[self.accepted];
        match part(alloc, self.frame.as_slice(), place) {
            Ok(bytes) => Ok(bytes),
            Err(OutOfMemory) => Err(DecodeFault::OutOfMemory),
        }
    }

    /// What is in hand when the next part is accepted: nothing behind the last.
    pub fn accepted(self) -> Option<Hand>
        ensures left { parts_left result ≡ drop 1 (parts_left (Some self)) }
        ensures frame { IfSome result (λ h. h.frame ≡ self.frame) }
    {
        let accepted = self.accepted + 1;
        if self.places.len() <= accepted {
            return None;
        }
        Some(Hand {
            to: self.to,
            frame: self.frame,
            places: self.places,
            fault: self.fault,
            accepted,
        })
    }
}
