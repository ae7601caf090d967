use hpx_value::gid::Gid;

/// What its home knows of a live object.
#[derive(Clone, Copy, Debug, PartialEq, Eq)]
pub struct Record {
    /// Its bare id.
    pub gid: Gid,
    /// The credit that is out.
    pub count: u128,
    /// Where it was last said to be.
    pub place: u32,
    /// Where it moves to, while a move is under way.
    pub moving: Option<u32>,
}

/// Something that waits for the object of this number.
#[derive(Drop)]
pub struct Waiting<Q> {
    pub number: u64,
    pub item: Q,
}
