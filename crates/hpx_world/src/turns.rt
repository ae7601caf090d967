//! What a turn is asked to do, what it did, and why it was refused.
ghost use Rattle.std.specs.Prelude.{◌≡◌, ◌≢◌, ◌↔◌, IsTrue, IfSome, IfNone};

use hpx_node::parts::Finished;
use hpx_parcel::parcel::Why;
use hpx_value::acts::{Acts, Done, Job};
use hpx_value::gid::Gid;
use hpx_value::items::Text;

/// What a turn is to do.
#[derive(Drop)]
pub enum Choice<A: Acts> {
    /// Locality 0 accepts a line, of at most 1,025 bytes with its mark byte.
    Feed(Text),
    /// A locality hands out a job.
    Fire(u32),
    /// A job that is done is committed.
    Finish(Done<A>),
    /// A locality tends to its own: an object leaves, or the oldest message to itself is dealt with.
    Desk(u32),
    /// A locality sends its oldest message to another.
    Pump(u32),
    /// A frame is accepted where it goes.
    Take,
}

/// What a turn did.
#[derive(Drop)]
pub enum Turned {
    Fed,
    Fired(Job),
    /// There was nothing to fire.
    Idle,
    Finished(Finished),
    Moved,
    /// There was nothing to tend to, no message to send, or no frame to accept.
    Empty,
}

impl Turned {
    /// Whether an object left, a message was dealt with or sent, or a frame was accepted.
    pub fn moved(&self) -> bool
        ensures { IsTrue result ↔ (self.now ≡ Turned.Moved) }
    {
        match self {
            Turned::Moved => true,
            Turned::Fed => false,
            Turned::Fired(_) => false,
            Turned::Idle => false,
            Turned::Finished(_) => false,
            Turned::Empty => false,
        }
    }

    /// The job that was handed out.
    pub fn job(self) -> Option<Job>
        ensures some { IfSome result (λ job. self ≡ Turned.Fired job) }
        ensures none { IfNone result ((job : _) → self ≢ Turned.Fired job) }
    {
        match self {
            Turned::Fired(job) => Some(job),
            Turned::Fed => None,
            Turned::Idle => None,
            Turned::Finished(_) => None,
            Turned::Moved => None,
            Turned::Empty => None,
        }
    }
}

/// Why a turn was refused.
#[derive(Drop)]
pub enum WorldFault<A: Acts> {
    /// The fabric failed.
    Fabric,
    /// A frame that was delivered spells no parcel. It stays in hand.
    BadFrame {
        to: u32,
        at: u32,
        why: Why,
    },
    /// A parcel that was delivered breaks a rule, and its frame stays in hand; or a message to the own locality does.
    Strange {
        to: u32,
        rule: u8,
        object: Gid,
        kept: u128,
    },
    /// No frame is left, and not all that were sent have come; or nothing can be done any more, and the world is not quiet.
    EarlyEnd {
        sent: u64,
        taken: u64,
    },
    /// The journal has no room for a turn; a job that was to be committed is handed back.
    JournalFull {
        entries: u64,
        weight: u64,
        undone: Option<Done<A>>,
    },
    /// There was no memory; a job that was to be committed is handed back.
    OutOfMemory {
        undone: Option<Done<A>>,
    },
    /// There was no memory to run a job that was handed out; here it is, to be run and finished.
    NotRun {
        job: Job,
    },
}
