//! All localities, and the road between them.
ghost use Rattle.std.specs.Prelude.{◌≡◌};

use hpx_journal::bag::{Bag, Keyed};
use hpx_journal::local::Local;
use hpx_value::exact::Exact;
use hpx_value::items::Bytes;
use std::marker::Model;

/// A frame on the road: where it goes, and its bytes.
#[derive(Drop)]
pub struct Frame {
    to: u32,
    bytes: Bytes,
}

impl Model for Frame {
    ghost use Rattle.std.specs.Prelude.{ℕ, List};

    ghost Value = { ℕ × List ℕ };

    ghost view = { λ f. (f.to, f.bytes) };
}

impl Frame {
    /// A frame to a locality.
    pub fn new(to: u32, bytes: Bytes) -> Frame
        ensures { result ≡ (to, bytes) }
    {
        Frame { to, bytes }
    }

    /// Where it goes.
    pub fn to(&self) -> u32
        ensures { result ≡ self.now.0 }
    {
        self.to
    }

    /// Its bytes.
    pub fn bytes(&self) -> &Bytes
        ensures { result.now ≡ self.now.1 }
    {
        &self.bytes
    }
}

impl Keyed<Frame> for Frame {
    ghost use Rattle.hpx_journal.specs.Entries.{same_frame};

    ghost test = { same_frame };

    fn is(&self, key: &Frame) -> bool {
        key.to == self.to && key.bytes.same(&self.bytes)
    }
}

/// What each locality has, in their order, and the frames that were sent and not yet accepted, the newest first.
#[derive(Drop)]
pub struct Space {
    pub places: Vec<Local>,
    pub road: Bag<Frame>,
}
