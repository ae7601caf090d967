use hpx_parcel::parcel::Why;
use hpx_value::acts::{Acts, Done};
use hpx_value::gid::Gid;
use thiserror::Error;

/// What became of a job that is done.
#[derive(Clone, Copy, Debug, PartialEq, Eq)]
pub enum Finished {
    Committed,
    /// Some id of the hand has too little credit for all who name it. What it has is split, more is asked for, and the commit
    /// waits for it.
    Asking,
    /// It is not one of the jobs that run here.
    NotRunning,
}

/// A job was not committed, for want of memory; here it is.
#[derive(Drop)]
pub struct FinishFault<A: Acts> {
    pub undone: Done<A>,
}

/// Why a message to the own locality was not handled.
#[derive(Clone, Copy, Debug, PartialEq, Eq, Error)]
pub enum DeskFault {
    /// It breaks a rule; `kept` is what the locality has instead.
    #[error("rule {rule} is broken")]
    Strange { rule: u8, object: Gid, kept: u128 },
    #[error("out of memory")]
    OutOfMemory,
}

/// Why a frame was not accepted.
#[derive(Clone, Copy, Debug, PartialEq, Eq, Error)]
pub enum TakeFault {
    /// It spells no parcel.
    #[error("bad frame")]
    BadFrame { at: u32, why: Why },
    /// Its parcel breaks a rule; `kept` is what the locality has instead.
    #[error("rule {rule} is broken")]
    Strange { rule: u8, object: Gid, kept: u128 },
    #[error("out of memory")]
    OutOfMemory,
}
