use crate::queue::Queue;
use crate::record::Record;

/// What is kept of a number: the record of its object while that lives, and what waits for it.
#[derive(Drop)]
pub(crate) struct Line<Q> {
    pub(crate) number: u64,
    pub(crate) live: Option<Record>,
    pub(crate) queue: Queue<Q>,
}
