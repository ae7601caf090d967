//! Links: what one member of several processes sends and receives.
ghost use Rattle.std.specs.Prelude.{ℕ, List, ◌≡◌};
ghost use Rattle.hpx_ports.specs.declared.link.LinkFault.TheVariants.{OutOfMemory as NoMemory};
ghost use Rattle.hpx_ports.specs.Links.{asked_for, unasked};
ghost use Rattle.std.specs.declared.option.Option.{Option};

use crate::fault::raise;
use hpx_value::items::Bytes;
use hpx_value::memory::OutOfMemory;
use thiserror::Error;

/// Why a body was not sent or received.
#[derive(Clone, Copy, Debug, PartialEq, Eq, Error)]
pub enum LinkFault {
    /// The link did not do what was asked of it.
    #[error("failed")]
    Failed,
    /// There was no memory.
    #[error("out of memory")]
    OutOfMemory,
}

impl From<OutOfMemory> for LinkFault {
    ghost from_gives = { λ _ fault. fault ≡ NoMemory };

    fn from(_error: OutOfMemory) -> LinkFault {
        LinkFault::OutOfMemory
    }
}

/// What happened to a body, which is a frame or a word of control between members.
#[derive(Drop)]
pub enum Post {
    /// It was sent to a member.
    Sent { to: u32, body: Bytes },
    /// It came from a member.
    Received { from: u32, body: Bytes },
}

/// What the last receive answered.
#[derive(Drop)]
pub enum Latest {
    /// There was none yet.
    Never,
    /// This body, from this member.
    Got { from: u32, body: Bytes },
    /// That there is nothing; of a fabric alone.
    Nothing,
    /// A fault, or a want of memory.
    Fault,
}

/// The way to the other members.
pub trait Link {
    ghost use Rattle.std.specs.Prelude.{◌≡◌, ◌≤◌, ◌∷◌, [], IfOk, OnOk, OnErr, IsErrOf};
    ghost use Rattle.hpx_ports.specs.Faults.{Rose};
    ghost use Rattle.hpx_ports.specs.Told.{followed};
    ghost use Rattle.hpx_ports.specs.Links.{latest_of, posts_of};
    ghost use Rattle.hpx_ports.specs.declared.link.Post.{Post};
    ghost use Rattle.hpx_ports.specs.declared.link.Latest.{Latest};

    /// How often it has failed. The count never falls, and stands still at `2^64 - 1`.
    ghost faults: { Self → ℕ };

    /// What the last receive answered.
    ghost latest: { Self → Latest };

    /// What happened, oldest first, where it tells.
    ghost trace: { Self → Option (List Post) };

    /// Takes a body, to be carried.
    fn send(&mut self, to: u32, body: &[u8]) -> Result<(), LinkFault>
        ensures trace { OnOk result (trace self.new ≡ followed (trace self.old) (Post.Sent to body.now ∷ [])) }
        ensures trace_err { OnErr result (trace self.new ≡ trace self.old) }
        ensures latest { latest self.new ≡ latest self.old }
        ensures cause { IsErrOf result LinkFault.Failed → Rose (faults self.old) (faults self.new) }
        ensures stands { (IsErrOf result LinkFault.Failed → ⊥) → faults self.new ≡ faults self.old }
        ensures never_falls { faults self.old ≤ faults self.new };

    /// Waits for the next body: where it comes from, and its bytes.
    fn recv(&mut self) -> Result<(u32, Bytes), LinkFault>
        ensures trace { IfOk result (λ got. trace self.new ≡ followed (trace self.old) (posts_of got)) }
        ensures trace_err { OnErr result (trace self.new ≡ trace self.old) }
        ensures latest { latest self.new ≡ latest_of result }
        ensures cause { IsErrOf result LinkFault.Failed → Rose (faults self.old) (faults self.new) }
        ensures stands { (IsErrOf result LinkFault.Failed → ⊥) → faults self.new ≡ faults self.old }
        ensures never_falls { faults self.old ≤ faults self.new };
}

/// Where a member is to sit: which of n members it is, from 0, and the port of the first of them.
#[derive(Clone, Copy, Debug)]
pub struct Seat {
    pub node: u32,
    pub n: u32,
    pub port: u16,
}

/// What an opener was asked: how often, a count that stands still at `2^64 - 1`, and for which seat last.
#[derive(Clone, Copy, Debug)]
pub struct Asking {
    pub times: u64,
    pub seat: Option<Seat>,
}

impl Asking {
    /// It was not asked yet.
    pub fn none() -> Asking
        ensures { result ≡ unasked }
    {
        Asking {
            times: 0,
            seat: None,
        }
    }

    /// It is asked for a seat.
    pub fn add(&mut self, seat: Seat)
        ensures { self.new ≡ asked_for seat self.old }
    {
        self.times = raise(self.times);
        self.seat = Some(seat);
    }
}

/// What connects a member to the others.
pub trait Opener {
    ghost use Rattle.std.specs.Prelude.{◌≡◌, ◌≤◌, [], Some, IfOk, IsErrOf};
    ghost use Rattle.hpx_ports.specs.Faults.{Rose};
    ghost use Rattle.hpx_ports.specs.Links.{asked_for};
    ghost use Rattle.hpx_ports.specs.declared.link.Asking.{Asking};
    ghost use Rattle.hpx_ports.specs.declared.link.Latest.{Latest};
    ghost use Rattle.hpx_ports.specs.declared.link.Post.{Post};

    type Link: Link + Drop;

    /// How often it has failed.
    ghost faults: { Self → ℕ };

    /// What it was asked.
    ghost asked: { Self → Asking };

    /// Connects a member to the others. A link begins with nothing.
    fn connect(&mut self, seat: Seat) -> Result<Self::Link, LinkFault>
        ensures asked { asked self.new ≡ asked_for seat (asked self.old) }
        ensures faultless { IfOk result (λ link. Self.Link.faults link ≡ 0) }
        ensures unheard { IfOk result (λ link. Self.Link.latest link ≡ Latest.Never) }
        ensures empty { IfOk result (λ link. (tr : List Post) → Self.Link.trace link ≡ Some tr → tr ≡ []) }
        ensures cause { IsErrOf result LinkFault.Failed → Rose (faults self.old) (faults self.new) }
        ensures stands { (IsErrOf result LinkFault.Failed → ⊥) → faults self.new ≡ faults self.old }
        ensures never_falls { faults self.old ≤ faults self.new };
}
