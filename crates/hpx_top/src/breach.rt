//! What comes from outside, and was not sent.
use hpx_parcel::parcel::Why;
use hpx_value::gid::Gid;

/// How a fabric did not carry what was sent. Only a fabric that does not tell what it carries can do so.
#[derive(Clone, Copy, Debug, PartialEq, Eq)]
pub enum Breach {
    /// A frame that it delivered spells no parcel: where it goes, and the place and the reason. It stays in hand.
    BadFrame {
        to: u32,
        at: u32,
        why: Why,
    },
    /// A parcel that it delivered breaks a rule, and its frame stays in hand; or a message of a locality to itself does, which follows
    /// from such a parcel: where it goes, the first rule that it breaks, its object, and what is kept of that there.
    Strange {
        to: u32,
        rule: u8,
        object: Gid,
        kept: u128,
    },
    /// It delivered nothing any more, and not all that were sent have come, or something waits that will not come: how many frames were
    /// sent, and how many accepted.
    EarlyEnd {
        sent: u64,
        taken: u64,
    },
}
