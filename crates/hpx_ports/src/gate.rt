//! Gates, which a worker passes before it runs the body of an action.

/// Sees each action before its body runs, and may wait: so a test chooses an order in which threads go on.
pub trait Gate: Sync {
    /// The number of the worker, from 0, and the serial of the action.
    fn pass(&self, worker: u32, serial: u64);
}

/// Lets all pass at once.
#[derive(Clone, Copy, Drop)]
pub struct OpenGate;

impl Gate for OpenGate {
    fn pass(&self, _worker: u32, _serial: u64) {}
}
