//! How far a session has come.
ghost use Rattle.std.specs.Prelude.{◌≡◌, ◌<◌, ◌+◌, ◌≤◌, ◌∷◌, ◌++◌, [], false, OnOk, IfErr, length, vec_capacity};

use crate::session::SessionFault;
use std::alloc::Global;

/// How far a session has come.
#[derive(Drop)]
pub(crate) struct Progress {
    /// Whether delivery is held back.
    pub held: bool,
    /// How long the journal was behind each line that was handled.
    pub cuts: Vec<u64>,
}

impl Progress {
    /// No line was handled, and nothing is held back.
    pub fn new(alloc: Global) -> Progress
        ensures held { result.held ≡ false }
        ensures cuts { result.cuts.items ≡ [] }
    {
        Progress {
            held: false,
            cuts: Vec::new(alloc),
        }
    }

    /// Makes memory for one line more.
    pub fn reserve(&mut self) -> Result<(), SessionFault>
        ensures held { self.new.held ≡ self.old.held }
        ensures cuts { self.new.cuts.items ≡ self.old.cuts.items }
        ensures room { OnOk result (length self.new.cuts.items < vec_capacity self.new.cuts) }
        ensures cause { IfErr result (λ fault. fault ≡ SessionFault.OutOfMemory) }
    {
        match self.cuts.reserve(1) {
            Ok(()) => Ok(()),
            Err(_) => Err(SessionFault::OutOfMemory),
        }
    }

    /// A line was handled: whether delivery is held back behind it, and how long the journal is. It takes no memory.
    pub fn pass(&mut self, held: bool, cut: u64)
        requires room { length self.old.cuts.items < vec_capacity self.old.cuts }
        ensures held { self.new.held ≡ held }
        ensures cuts { self.new.cuts.items ≡ self.old.cuts.items ++ cut ∷ [] }
    {
        self.held = held;
        self.cuts.push_reserved(cut);
    }
}
