//! What a worker finds to do.
use hpx_value::acts::Job;

/// What a worker found.
#[derive(Drop)]
pub enum Found {
    /// A job that its hand has no memory for.
    Job(Job),
    /// Several jobs, which lie on its hand, where others may take them.
    Jobs,
    /// Something was to be done, and is; or one job, which lies on its hand.
    Moved,
    /// Nothing can be done before a job is taken back.
    Nothing,
    /// Nothing can be done, and no job is out; or the world stands still.
    Over,
}
