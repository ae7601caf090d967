//! Why a member ends before it is told to.
ghost use Rattle.std.specs.Prelude.{◌≡◌};
ghost use Rattle.hpx_member.specs.Leads.{halt_fault, halt_status};
ghost use Rattle.hpx_member.specs.Stops.{fault_of, status_of, stop_of_desk, stop_of_link, stop_of_take};

use crate::lines::LineFault;
use hpx_node::parts::{DeskFault, TakeFault};
use hpx_parcel::parcel::Why;
use hpx_ports::link::LinkFault;
use hpx_value::gid::Gid;
use thiserror::Error;

/// What came that a member does not accept.
#[derive(Clone, Copy, Debug, PartialEq, Eq, Error)]
pub enum MemberFault {
    /// A body that spells no parcel.
    #[error("bad frame")]
    BadFrame {
        from: u32,
        at: u32,
        why: Why,
    },
    /// A parcel that breaks a rule; `kept` is what the locality has instead.
    #[error("rule {rule} is broken")]
    Strange {
        from: u32,
        rule: u8,
        object: Gid,
        kept: u128,
    },
    /// A word of control that is not told here, or not by this member.
    #[error("out of place")]
    OutOfPlace {
        from: u32,
    },
    /// No wave has a number any more, and the round has not ended.
    #[error("no wave is left")]
    Waves,
}

/// Why a member ends before it is told to.
#[derive(Clone, Copy, Debug, PartialEq, Eq, Error)]
pub enum Stop {
    /// The link failed.
    #[error("link failed")]
    Link,
    /// There was no room for one more turn.
    #[error("journal full")]
    JournalFull,
    /// There was no memory.
    #[error("out of memory")]
    OutOfMemory,
    /// Something came that is not accepted.
    #[error("{0}")]
    Fault(MemberFault),
}

impl Stop {
    /// The status that it ends with.
    pub fn status(&self) -> u8
        ensures { result ≡ status_of self.now }
    {
        match self {
            Stop::Link => 4,
            Stop::JournalFull => 5,
            Stop::OutOfMemory => 6,
            Stop::Fault(
                MemberFault::BadFrame {
                    from: _,
                    at: _,
                    why: _,
                },
            ) => 7,
            Stop::Fault(_) => 8,
        }
    }

    /// What came that was not accepted.
    pub fn fault(&self) -> Option<MemberFault>
        ensures { result ≡ fault_of self.now }
    {
        match self {
            Stop::Fault(fault) => Some(*fault),
            Stop::Link | Stop::JournalFull | Stop::OutOfMemory => None,
        }
    }
}

/// Why a console ends before all is done.
#[derive(Clone, Copy, Debug, PartialEq, Eq, Error)]
pub enum Halt {
    /// A line was not handed out, or what was written was not shown.
    #[error("{0}")]
    Lines(LineFault),
    /// It ends as any member does.
    #[error("{0}")]
    Member(Stop),
}

impl Halt {
    /// The status that it ends with.
    pub fn status(&self) -> u8
        ensures { result ≡ halt_status self.now }
    {
        match self {
            Halt::Lines(LineFault::Read) => 2,
            Halt::Lines(LineFault::Write) => 3,
            Halt::Lines(LineFault::OutOfMemory) => 6,
            Halt::Lines(LineFault::InputFull) => 9,
            Halt::Member(stop) => stop.status(),
        }
    }

    /// What came that was not accepted.
    pub fn fault(&self) -> Option<MemberFault>
        ensures { result ≡ halt_fault self.now }
    {
        match self {
            Halt::Lines(_) => None,
            Halt::Member(stop) => stop.fault(),
        }
    }
}

/// What a fault of the link stops.
pub(crate) fn stop_of_link(fault: LinkFault) -> Stop
    ensures { result ≡ stop_of_link fault }
{
    match fault {
        LinkFault::Failed => Stop::Link,
        LinkFault::OutOfMemory => Stop::OutOfMemory,
    }
}

/// What a refusal of a frame stops, which came from this member.
pub(crate) fn stop_of_take(from: u32, fault: TakeFault) -> Stop
    ensures { result ≡ stop_of_take from fault }
{
    match fault {
        TakeFault::BadFrame { at, why } => Stop::Fault(MemberFault::BadFrame { from, at, why }),
        TakeFault::Strange { rule, object, kept } => Stop::Fault(MemberFault::Strange {
            from,
            rule,
            object,
            kept,
        }),
        TakeFault::OutOfMemory => Stop::OutOfMemory,
    }
}

/// What a refusal of a message of a node to itself stops.
pub(crate) fn stop_of_desk(here: u32, fault: DeskFault) -> Stop
    ensures { result ≡ stop_of_desk here fault }
{
    match fault {
        DeskFault::Strange { rule, object, kept } => Stop::Fault(MemberFault::Strange {
            from: here,
            rule,
            object,
            kept,
        }),
        DeskFault::OutOfMemory => Stop::OutOfMemory,
    }
}
